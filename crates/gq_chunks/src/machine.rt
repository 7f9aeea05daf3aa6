//! The machine of a server's chunks: lines in, facts and answers out, over a shelf.

ghost use Rattle.std.specs.Prelude.{◌≡◌, ◌+◌, ◌<◌, ◌≤◌, ◌++◌, [], length, slice_get, true, IfOk, IfErr, IfSome, OnOk};
ghost use Rattle.std.specs.List.{count_by};
ghost use Rattle.gq_text.specs.Canonical.{IsPlan};
ghost use Rattle.gq_journal.specs.Batches.{lines_text};
ghost use Rattle.gq_keeper.specs.Runs.{Takes};
ghost use Rattle.gq_shelf.specs.Extents.{place_of};
ghost use Rattle.gq_depot.specs.Segments.{NoneLies};
ghost use Rattle.gq_depot.specs.declared.answer.ChunkAnswer.TheVariants.{Bad};
ghost use Rattle.gq_chunks.specs.Answers.{chunk_answer_text};
ghost use Rattle.gq_chunks.specs.Coming.{coming, IsWithin};
ghost use Rattle.gq_chunks.specs.Having.{chunks_of};
ghost use Rattle.gq_chunks.specs.Machines.{Adds, StepsBy, fact_lines, FactStands, depot_reads, IsFaultOf, IsShelfRefusal, Answers, Took, Recalled, IsNewFor};

use crate::came::{Came, read_came};
use crate::mending::Mending;
use crate::needed::put_tenants;
use crate::new_depots::{column_losses, new_depots};
use crate::ranges::{plan_is_sound, put_sound_fact};
use crate::search::Search;
use crate::{ChunkAnswer, ChunkFact, ChunkRequest, put_chunk_answer, read_chunk_fact};
use gq_depot::{Answered, Cleaner, Depots, Scrub, Sweep};
use gq_desk::Plan;
use gq_grid::MOST_SERVERS;
use gq_keeper::{Fault, Lasting, Machine, Unread};
use gq_memory::OutOfMemory;
use gq_node::Lost;
use gq_setup::Setup;
use gq_shelf::{Shelf, ShelfFault};
use std::alloc::Global;

/// The chunks of all tenants at a node, over a shelf. After an `Err` of any call it is given up: a part of what a step gives may have been appended.
#[derive(Drop)]
pub struct ChunkMachine<S: Shelf + Drop> {
    pub(crate) alloc: Global,
    pub(crate) plan: Plan,
    pub(crate) node: u16,
    pub(crate) lost: Lost,
    pub(crate) depots: Depots<S>,
    // how many lines of a journal it read
    facts: u64,
    // what it asks of its peers where it lacks chunks
    pub(crate) search: Search,
    // how far it has come with segments of the shelf of which little is named
    pub(crate) cleaner: Cleaner,
    // how many bytes were to be kept since chunks were moved
    pub(crate) kept: u64,
    // how far it has come with reading all contents on the shelf
    pub(crate) scrub: Scrub,
    // which chunks it knows to be damaged
    pub(crate) mending: Mending,
}

/// What is known of damaged contents.
#[derive(Clone, Copy, PartialEq, Eq)]
pub struct Damage {
    /// How many were found since the start.
    pub found: u64,
    /// How many of these were mended.
    pub mended: u64,
    /// How often all contents on the shelf were read.
    pub rounds: u64,
}

/// Why the machine ends where the shelf refuses.
pub(crate) fn fault_of(fault: ShelfFault) -> Fault
    ensures { IsFaultOf fault result }
{
    match fault {
        ShelfFault::Memory(refused) => Fault::Memory(refused),
        ShelfFault::Write | ShelfFault::Full => Fault::JournalWrite,
        ShelfFault::Read | ShelfFault::Damaged(_) => Fault::JournalRead,
    }
}

impl<S: Shelf + Drop> ChunkMachine<S> {
    /// That of the node of this number and setup, which read no line yet and has no chunk. A new node lacks chunks of the tenants that had room by the setup that was read of the plan
    /// with which its journal begins, if one was read. All contents on the shelf are read within so many ticks, again and again, to see whether they can be; of 0 ticks none is.
    pub fn new(
        alloc: Global,
        setup: &Setup,
        first: &Option<Setup>,
        node: u16,
        shelf: S,
        ticks: u64,
    ) -> Result<ChunkMachine<S>, OutOfMemory>
        ensures is_new { IfOk result (λ m. IsNewFor setup.now first.now node (chunks_of S.noted m)) }
        ensures noted { IfOk result (λ m. S.noted m.depots.shelf ≡ S.noted shelf) }
    {
        let cols = setup.plan().grid().cols();
        let losses = column_losses(cols, node as usize % MOST_SERVERS, setup.lost().places());
        Ok(ChunkMachine {
            alloc,
            plan: setup.plan().copy()?,
            node,
            lost: setup.lost().copy(alloc)?,
            depots: Depots {
                shelf,
                depots: new_depots(alloc, setup, first, node)?,
                losses,
            },
            facts: 0,
            search: Search::new(alloc),
            cleaner: Cleaner::new(alloc),
            kept: 0,
            scrub: Scrub::new(ticks),
            mending: Mending::new(alloc),
        })
    }

    /// How many lines of a journal it read.
    pub fn facts(&self) -> u64 {
        self.facts
    }

    /// Of how many tenants the node lacks chunks.
    pub fn lacking(&self) -> usize
        ensures { result ≡ count_by (λ depot. depot.lacks) self.now.depots.depots.items }
    {
        let mut count = 0;
        for depot in self.depots.depots.as_slice() {
            if depot.lacks {
                count += 1;
            }
        }
        count
    }

    /// Does one part of a look for segments of the shelf in which no chunk lies, and tells which one it removed, if one. Who calls sees to it that all facts that the
    /// machine gave are synced. Where the shelf refuses it, or memory is wanting, nothing is removed, and the next look tries again.
    pub fn sweep(&self, sweep: &mut Sweep) -> Result<Option<u32>, ShelfFault>
        ensures dead { IfOk result (λ removed. IfSome removed (λ segment. NoneLies segment self.now.depots.depots.items)) }
        ensures below { IfOk result (λ removed. IfSome removed (λ segment. place_of (segment + 1) 0 ≤ S.end self.now.depots.shelf)) }
    {
        self.depots.sweep(sweep)
    }

    /// How many damaged contents were found since the start, how many of these were mended by what a peer gave, and how often all contents were read.
    pub fn damage(&self) -> Damage {
        Damage {
            found: self.mending.found,
            mended: self.mending.mended,
            rounds: self.scrub.rounds(),
        }
    }

    /// How many contents came, of those that it asked for since it was started.
    pub fn contents_came(&self) -> u64 {
        self.search.contents
    }

    /// Appends the line of the fact, if there is one.
    pub(crate) fn put_fact(
        &self,
        tenant: u8,
        fact: &Option<ChunkFact>,
        facts: &mut Vec<u8>,
    ) -> Result<(), OutOfMemory>
        requires tenant { tenant < length self.now.plan.rows }
        requires sound { IsPlan self.now.plan }
        ensures kept { OnOk result (facts.new.items ≡ facts.old.items ++ lines_text (fact_lines self.now.plan tenant fact.now)) }
        ensures stands { OnOk result (FactStands self.now.plan tenant fact.now) }
    {
        match fact {
            Some(fact) => put_sound_fact(facts, &self.plan, tenant, fact),
            None => Ok(()),
        }
    }

    /// What comes of the tenant's request.
    pub(crate) fn answer(&mut self, tenant: u8, request: ChunkRequest) -> Result<Answered, Fault>
        requires { tenant < length self.old.depots.depots.items }
        ensures search { self.new.search ≡ self.old.search }
        ensures answered { IfOk result (λ answered. Answers (chunks_of S.noted self.old) tenant request answered (chunks_of S.noted self.new)) }
        ensures refused { IfErr result (λ fault. IsShelfRefusal fault (S.noted self.old.depots.shelf) (S.noted self.new.depots.shelf)) }
    {
        match self.depots.answer(self.alloc, tenant as usize, request) {
            Ok(answered) => {
                self.mending.hear(tenant as usize, &answered.answer);
                Ok(answered)
            }
            Err(fault) => Err(fault_of(fault)),
        }
    }

    // The tenant asks this.
    fn request(
        &mut self,
        tenant: u8,
        request: ChunkRequest,
        facts: &mut Vec<u8>,
        told: &mut Vec<u8>,
    ) -> Result<(), Fault>
        requires tenant { tenant < length self.old.plan.rows }
        requires there { tenant < length self.old.depots.depots.items }
        requires sound { IsPlan self.old.plan }
        ensures took { OnOk result (Adds (λ old. Took (chunk_answer_text old.plan old.node tenant) old tenant request) (chunks_of S.noted self.old) facts.old.items facts.new.items told.old.items told.new.items (chunks_of S.noted self.new)) }
        ensures refused { IfErr result (λ fault. IsShelfRefusal fault (S.noted self.old.depots.shelf) (S.noted self.new.depots.shelf)) }
    {
        let answered = self.answer(tenant, request)?;
        self.put_fact(tenant, &answered.fact, facts)?;
        put_chunk_answer(told, &self.plan, self.node, tenant, &answered.answer)?;
        Ok(())
    }

    // What comes of what came.
    fn take_came(
        &mut self,
        came: Came,
        facts: &mut Vec<u8>,
        told: &mut Vec<u8>,
    ) -> Result<(), Fault>
        requires tenant { IsWithin (length self.old.plan.rows) came }
        requires there { IsWithin (length self.old.depots.depots.items) came }
        requires sound { IsPlan self.old.plan }
        ensures took { OnOk result (Adds (λ old. StepsBy (coming came) old) (chunks_of S.noted self.old) facts.old.items facts.new.items told.old.items told.new.items (chunks_of S.noted self.new)) }
        ensures refused { IfErr result (λ fault. IsShelfRefusal fault (S.noted self.old.depots.shelf) (S.noted self.new.depots.shelf)) }
    {
        match came {
            Came::Nothing => Ok(()),
            Came::Tick => self.tick(facts, told),
            Came::Said { tenant, from, line } => self.hear(tenant, from, line, facts, told),
            Came::Asked {
                tenant,
                request: Some(request),
            } => self.request(tenant, request, facts, told),
            Came::Asked {
                tenant,
                request: None,
            } => Ok(self.put_bad(tenant, told)?),
        }
    }

    // A line of the tenant's has no form.
    fn put_bad(&self, tenant: u8, told: &mut Vec<u8>) -> Result<(), OutOfMemory>
        requires { tenant < length self.now.plan.rows }
        ensures { OnOk result (told.new.items ≡ told.old.items ++ chunk_answer_text self.now.plan self.now.node tenant Bad) }
    {
        put_chunk_answer(told, &self.plan, self.node, tenant, &ChunkAnswer::Bad)
    }

    // Reads the fact of an earlier run. False: the tenant's depot reads none such; nothing changes then.
    fn recall_fact(&mut self, tenant: u8, fact: ChunkFact) -> Result<bool, OutOfMemory>
        requires { tenant < length self.old.depots.depots.items }
        ensures read { IfOk result (λ is_read. is_read ≡ depot_reads (slice_get self.old.depots.depots.items tenant) fact) }
        ensures leads { IfOk result (λ is_read. is_read ≡ true → Recalled (chunks_of S.noted self.old) tenant fact (chunks_of S.noted self.new)) }
    {
        self.facts = self.facts.saturating_add(1);
        self.depots.recall(self.alloc, tenant as usize, fact)
    }
}

impl<S: Shelf + Drop> Machine for ChunkMachine<S> {
    ghost use Rattle.gq_chunks.specs.Machines.{ChunkSteps, ChunkRecalls, chunk_reads};
    ghost use Rattle.gq_chunks.specs.Lasting.{reads_on};

    ghost steps = { λ old line facts told new. ChunkSteps (chunks_of S.noted old) line facts told (chunks_of S.noted new) };

    ghost recalls = { λ old line new. ChunkRecalls (chunks_of S.noted old) line (chunks_of S.noted new) };

    ghost readable = { λ m line. chunk_reads (chunks_of S.noted m) line };

    fn recall(&mut self, line: &[u8]) -> Result<(), Unread> {
        let Some((tenant, fact)) = read_chunk_fact(self.alloc, line, &self.plan)? else {
            return Err(Unread::Strange);
        };
        if tenant as usize >= self.depots.depots.len() {
            return Err(Unread::Strange);
        }
        if !self.recall_fact(tenant, fact)? {
            return Err(Unread::Strange);
        }
        Ok(())
    }

    ghost reads_on = { λ old line new other recalled. reads_on (chunks_of S.noted old) line (chunks_of S.noted new) other recalled };

    fn take(&mut self, line: &[u8], facts: &mut Vec<u8>, told: &mut Vec<u8>) -> Result<(), Fault>
        ensures takes { OnOk result (Takes (λ old line facts told new. ChunkSteps (chunks_of S.noted old) line facts told (chunks_of S.noted new)) self.old line.now facts.old.items facts.new.items told.old.items told.new.items self.new) }
        ensures refused { IfErr result (λ fault. IsShelfRefusal fault (S.noted self.old.depots.shelf) (S.noted self.new.depots.shelf)) }
    {
        plan_is_sound(&self.plan);
        let tenants = self.depots.depots.as_slice().len();
        let came = read_came(self.alloc, &self.plan, self.node, &self.lost, tenants, line)?;
        self.clean_before(&came, facts)?;
        plan_is_sound(&self.plan);
        self.take_came(came, facts, told)
    }
}

impl<S: Shelf + Drop> Lasting for ChunkMachine<S> {
    ghost use Rattle.std.specs.Prelude.{◌^◌, ◌-◌, min};
    ghost use Rattle.gq_chunks.specs.Machines.{ChunkSteps, ChunkRecalls, ChunksAreBlank, ChunksAreOf, ChunksRest, in_journals};
    ghost use Rattle.gq_chunks.specs.Lasting.{on_chunks, gives_facts, gives_readable, keeps_blank, keeps_plan, recalls_plan, keeps_rest, reads_again, starts_again};

    ghost blank = { λ plan m new. ChunksAreBlank plan (chunks_of S.noted m) (chunks_of S.noted new) };

    ghost is_of = { λ plan m. ChunksAreOf plan (chunks_of S.noted m) };

    ghost rests = { λ m again. ChunksRest (chunks_of S.noted m) (chunks_of S.noted again) };

    ghost contents = { λ m. min (in_journals m.depots.depots.items) (2 ^ 64 - 1) };

    fn content_bytes(&self) -> usize {
        let mut bytes: usize = 0;
        for depot in self.depots.depots.as_slice() {
            bytes = bytes.saturating_add(depot.in_journal as usize);
        }
        bytes
    }

    fn put_needed(&self, facts: &mut Vec<u8>) -> Result<(), Fault> {
        plan_is_sound(&self.plan);
        Ok(put_tenants(self.node, &self.plan, self.depots.depots.as_slice(), facts)?)
    }

    ghost gives_facts = { λ old line facts told new step. gives_facts (chunks_of S.noted old) line facts told (chunks_of S.noted new) step };

    ghost gives_readable = { λ plan old line facts told new other step blank. gives_readable plan (chunks_of S.noted old) line facts told (chunks_of S.noted new) (chunks_of S.noted other) step blank };

    ghost keeps_blank = { λ plan old line facts told new other step blank. keeps_blank plan (chunks_of S.noted old) line facts told (chunks_of S.noted new) (chunks_of S.noted other) step blank };

    ghost keeps_plan = { λ plan old line facts told new step of. keeps_plan plan (chunks_of S.noted old) line facts told (chunks_of S.noted new) step of };

    ghost recalls_plan = { λ plan old line new recalled of. recalls_plan plan (chunks_of S.noted old) line (chunks_of S.noted new) recalled of };

    ghost keeps_rest = { λ old line facts told new before after step rests r. keeps_rest (chunks_of S.noted old) line facts told (chunks_of S.noted new) (chunks_of S.noted before) (chunks_of S.noted after) step rests (on_chunks (λ m. chunks_of S.noted m) facts before after r) };

    ghost reads_again = { λ plan first last new lines blank r other. reads_again plan (chunks_of S.noted first) (chunks_of S.noted last) (chunks_of S.noted new) lines blank (on_chunks (λ m. chunks_of S.noted m) lines first last r) other };

    ghost starts_again = { λ plan first last new again lines blank r other s. starts_again plan (chunks_of S.noted first) (chunks_of S.noted last) (chunks_of S.noted new) (chunks_of S.noted again) lines blank (on_chunks (λ m. chunks_of S.noted m) lines first last r) other (on_chunks (λ m. chunks_of S.noted m) lines new again s) };
}
