//! What is done with chunks on the shelf before a line is taken: some are read, to see whether they can be, one that is damaged is mended by what a peer gives, and some are moved out of
//! segments of which little is named, so that these can go. Nothing that is told changes by it.
//!
//! So cleaning keeps up with what is put, and a step moves some MiB at most. All that is moved in a step is synced at once,
//! before its facts are told. Where the disk has no space for a chunk that is moved, none is moved for 64 parts.

ghost use Rattle.std.specs.Prelude.{◌≡◌, ◌<◌, ◌≤◌, ◌^◌, ℕ, List, true, length, IfOk, IfSome, IfErr, OnOk};
ghost use Rattle.gq_text.specs.Canonical.{IsPlan};
ghost use Rattle.gq_shelf.specs.Notes.{GoesOn, after_sync};
ghost use Rattle.gq_stock.specs.Sure.{PutsStay};
ghost use Rattle.gq_chunks.specs.Having.{chunks_of};
ghost use Rattle.gq_chunks.specs.Machines.{IsShelfRefusal, MoveDone, MovedSoFar, AddsMoves, AddsMovesBy};
ghost use Rattle.gq_chunks.specs.Coming.{coming, moves_at};

use crate::came::Came;
use crate::machine::fault_of;
use crate::ranges::plan_is_sound;
use crate::{ChunkFact, ChunkMachine, ChunkRequest, PeerLine};
use bytes::Bytes;
use gq_depot::Spot;
use gq_keeper::Fault;
use gq_memory::{GrowBytes, OutOfMemory};
use gq_shelf::{Shelf, ShelfFault};
use gq_stock::Source;

// At a tick so many bytes are moved, or somewhat more.
const TICK_BYTES: u64 = 8_388_608;

// Once contents of so many bytes were to be kept, as many are moved.
const KEPT_BYTES: u64 = 4_194_304;

// A content that is to be kept counts as so many bytes, if it has fewer.
const LEAST_BYTES: u64 = 16_384;

// So many chunks are moved at once, and no more.
const MOST_MOVED: usize = 1_024;

// So many contents are read at one tick, and no more.
const MOST_READ: usize = 512;

// What is done with chunks on the shelf before a line is taken.
#[derive(Drop)]
enum Due {
    // At a tick, contents are read that are to be read by now, and so many bytes are moved.
    Tick(u64),
    // So many bytes are moved.
    Moves(u64),
    // A peer gave these bytes for the chunk.
    Mends {
        tenant: u8,
        session: u32,
        number: u64,
        bytes: Bytes,
    },
}

impl<S: Shelf + Drop> ChunkMachine<S> {
    // Moves or mends the chunk of the tenant's session and number. Where the shelf has no space for it none is moved for some time.
    fn shelved(
        &mut self,
        tenant: u8,
        session: u32,
        number: u64,
        source: &Source,
    ) -> Result<Option<ChunkFact>, Fault>
        requires { tenant < length self.old.depots.depots.items }
        ensures done { IfOk result (λ fact. MoveDone (chunks_of S.noted self.old) tenant fact (chunks_of S.noted self.new)) }
        ensures refused { IfErr result (λ fault. IsShelfRefusal fault (S.noted self.old.depots.shelf) (S.noted self.new.depots.shelf)) }
    {
        match self.depots.shelve(tenant as usize, session, number, source) {
            Ok(fact) => Ok(fact),
            Err(ShelfFault::Full) => {
                self.cleaner.rest();
                Ok(None)
            }
            Err(fault) => Err(fault_of(fault)),
        }
    }

    // The same, and the line of its fact; whether there is one.
    fn move_chunk(
        &mut self,
        tenant: u8,
        session: u32,
        number: u64,
        source: &Source,
        facts: &mut Vec<u8>,
    ) -> Result<bool, Fault>
        requires tenant { tenant < length self.old.plan.rows }
        requires there { tenant < length self.old.depots.depots.items }
        requires sound { IsPlan self.old.plan }
        ensures moved { OnOk result (MovedSoFar (chunks_of S.noted self.old) facts.old.items facts.new.items (chunks_of S.noted self.new)) }
        ensures refused { IfErr result (λ fault. IsShelfRefusal fault (S.noted self.old.depots.shelf) (S.noted self.new.depots.shelf)) }
    {
        let fact = self.shelved(tenant, session, number, source)?;
        self.put_fact(tenant, &fact, facts)?;
        Ok(fact.is_some())
    }

    // The next chunk that is to be moved. A look for segments that fails begins anew later.
    fn next_to_move(&mut self) -> Option<Spot>
        ensures same { (chunks_of S.noted self.new) ≡ (chunks_of S.noted self.old) }
        ensures tenant { IfSome result (λ spot. spot.tenant < length self.new.plan.rows) }
        ensures there { IfSome result (λ spot. spot.tenant < length self.new.depots.depots.items) }
        ensures few { IfSome result (λ spot. spot.tenant < 2 ^ 8) }
    {
        let found = self.depots.next_spot(self.alloc, &mut self.cleaner);
        match found {
            Ok(Some(spot)) => {
                if spot.tenant < self.depots.depots.len() && spot.tenant < self.plan.tenants() {
                    return Some(spot);
                }
                None
            }
            Ok(None) => None,
            Err(_) => {
                self.cleaner.rest();
                None
            }
        }
    }

    // Moves the next chunk, if there is one, and says how many bytes it has.
    fn move_next(&mut self, facts: &mut Vec<u8>) -> Result<Option<u64>, Fault>
        requires { IsPlan self.old.plan }
        ensures moved { OnOk result (MovedSoFar (chunks_of S.noted self.old) facts.old.items facts.new.items (chunks_of S.noted self.new)) }
        ensures refused { IfErr result (λ fault. IsShelfRefusal fault (S.noted self.old.depots.shelf) (S.noted self.new.depots.shelf)) }
    {
        let Some(spot) = self.next_to_move() else {
            return Ok(None);
        };
        plan_is_sound(&self.plan);
        let tenant = spot.tenant as u8;
        match self.move_chunk(tenant, spot.session, spot.number, &Source::Shelf, facts) {
            Ok(_is_moved) => Ok(Some(spot.bytes)),
            Err(fault) => Err(fault),
        }
    }

    // Moves chunks of so many bytes, or somewhat more.
    fn move_some(&mut self, most: u64, facts: &mut Vec<u8>) -> Result<(), Fault>
        requires { IsPlan self.old.plan }
        ensures moved { OnOk result (MovedSoFar (chunks_of S.noted self.old) facts.old.items facts.new.items (chunks_of S.noted self.new)) }
        ensures refused { IfErr result (λ fault. IsShelfRefusal fault (S.noted self.old.depots.shelf) (S.noted self.new.depots.shelf)) }
    {
        let mut moved: u64 = 0;
        for _ in 0..MOST_MOVED {
            if moved >= most {
                return Ok(());
            }
            plan_is_sound(&self.plan);
            match self.move_next(facts) {
                Ok(Some(bytes)) => moved = moved.saturating_add(bytes),
                Ok(None) => return Ok(()),
                Err(fault) => return Err(fault),
            }
        }
        Ok(())
    }

    // Mends the chunk by the bytes that a peer gave.
    fn mend(
        &mut self,
        tenant: u8,
        session: u32,
        number: u64,
        bytes: Bytes,
        facts: &mut Vec<u8>,
    ) -> Result<(), Fault>
        requires { IsPlan self.old.plan }
        ensures moved { OnOk result (MovedSoFar (chunks_of S.noted self.old) facts.old.items facts.new.items (chunks_of S.noted self.new)) }
        ensures refused { IfErr result (λ fault. IsShelfRefusal fault (S.noted self.old.depots.shelf) (S.noted self.new.depots.shelf)) }
    {
        let place = tenant as usize;
        if place >= self.depots.depots.len() || place >= self.plan.tenants() {
            return Ok(());
        }
        plan_is_sound(&self.plan);
        match self.move_chunk(tenant, session, number, &Source::Peer(bytes), facts) {
            Ok(is_mended) => {
                if is_mended {
                    self.mending.settle(place, session, number);
                }
                Ok(())
            }
            Err(fault) => Err(fault),
        }
    }

    // Reads the content of the tenant's session and number. One that this read found damaged is noted.
    fn check(&mut self, tenant: usize, session: u32, number: u64) -> Result<(), Fault>
        requires { tenant < length self.old.depots.depots.items }
        ensures depots { self.new.depots.depots.items ≡ self.old.depots.depots.items }
        ensures losses { self.new.depots.losses ≡ self.old.depots.losses }
        ensures plan { self.new.plan ≡ self.old.plan }
        ensures node { self.new.node ≡ self.old.node }
        ensures lost { self.new.lost ≡ self.old.lost }
        ensures puts_stay { PutsStay (S.noted self.old.depots.shelf) (S.noted self.new.depots.shelf) }
        ensures goes_on { GoesOn (S.noted self.old.depots.shelf) (S.noted self.new.depots.shelf) }
        ensures refused { IfErr result (λ fault. IsShelfRefusal fault (S.noted self.old.depots.shelf) (S.noted self.new.depots.shelf)) }
    {
        match self.depots.check(tenant, session, number) {
            Ok(true) => {
                self.mending.note(tenant, session, number);
                Ok(())
            }
            Ok(false) => Ok(()),
            Err(fault) => Err(fault_of(fault)),
        }
    }

    // Reads the next content that is to be read by now. False: there is none.
    fn read_next(&mut self) -> Result<bool, Fault>
        ensures read { (text : List ℕ) → OnOk result (MovedSoFar (chunks_of S.noted self.old) text text (chunks_of S.noted self.new)) }
        ensures refused { IfErr result (λ fault. IsShelfRefusal fault (S.noted self.old.depots.shelf) (S.noted self.new.depots.shelf)) }
    {
        let Some(spot) = self.depots.next_to_read(&mut self.scrub) else {
            return Ok(false);
        };
        if spot.tenant >= self.depots.depots.len() {
            return Ok(false);
        }
        match self.check(spot.tenant, spot.session, spot.number) {
            Ok(()) => Ok(true),
            Err(fault) => Err(fault),
        }
    }

    // Reads the contents that are to be read by now.
    fn read_some(&mut self) -> Result<(), Fault>
        ensures read { (text : List ℕ) → OnOk result (MovedSoFar (chunks_of S.noted self.old) text text (chunks_of S.noted self.new)) }
        ensures refused { IfErr result (λ fault. IsShelfRefusal fault (S.noted self.old.depots.shelf) (S.noted self.new.depots.shelf)) }
    {
        self.depots.begin_scrub(&mut self.scrub);
        for _ in 0..MOST_READ {
            match self.read_next() {
                Ok(true) => {}
                Ok(false) => return Ok(()),
                Err(fault) => return Err(fault),
            }
        }
        Ok(())
    }

    // Reads the contents that are to be read by now, and moves chunks of so many bytes, or somewhat more.
    fn read_and_move(&mut self, most: u64, facts: &mut Vec<u8>) -> Result<(), Fault>
        requires { IsPlan self.old.plan }
        ensures moved { OnOk result (MovedSoFar (chunks_of S.noted self.old) facts.old.items facts.new.items (chunks_of S.noted self.new)) }
        ensures refused { IfErr result (λ fault. IsShelfRefusal fault (S.noted self.old.depots.shelf) (S.noted self.new.depots.shelf)) }
    {
        self.read_some()?;
        plan_is_sound(&self.plan);
        self.move_some(most, facts)
    }

    // Does what is due.
    fn do_due(&mut self, due: Due, facts: &mut Vec<u8>) -> Result<(), Fault>
        requires { IsPlan self.old.plan }
        ensures moved { OnOk result (MovedSoFar (chunks_of S.noted self.old) facts.old.items facts.new.items (chunks_of S.noted self.new)) }
        ensures refused { IfErr result (λ fault. IsShelfRefusal fault (S.noted self.old.depots.shelf) (S.noted self.new.depots.shelf)) }
    {
        match due {
            Due::Tick(most) => self.read_and_move(most, facts),
            Due::Moves(most) => self.move_some(most, facts),
            Due::Mends {
                tenant,
                session,
                number,
                bytes,
            } => self.mend(tenant, session, number, bytes, facts),
        }
    }

    // The shelf makes sure of all that was put there.
    fn make_sure(&mut self) -> Result<(), Fault>
        ensures sure { OnOk result (S.noted self.new.depots.shelf ≡ after_sync (S.noted self.old.depots.shelf)) }
        ensures depots { self.new.depots.depots.items ≡ self.old.depots.depots.items }
        ensures losses { self.new.depots.losses ≡ self.old.depots.losses }
        ensures plan { self.new.plan ≡ self.old.plan }
        ensures node { self.new.node ≡ self.old.node }
        ensures lost { self.new.lost ≡ self.old.lost }
        ensures refused { IfErr result (λ fault. IsShelfRefusal fault (S.noted self.old.depots.shelf) (S.noted self.new.depots.shelf)) }
    {
        match self.depots.make_sure() {
            Ok(()) => Ok(()),
            Err(fault) => Err(fault_of(fault)),
        }
    }

    // Does what is due. The shelf made sure of all that was put for it before the facts are told.
    fn clean(&mut self, due: Due, facts: &mut Vec<u8>) -> Result<(), Fault>
        requires { IsPlan self.old.plan }
        ensures moves { OnOk result (AddsMoves (chunks_of S.noted self.old) facts.old.items facts.new.items (chunks_of S.noted self.new)) }
        ensures refused { IfErr result (λ fault. IsShelfRefusal fault (S.noted self.old.depots.shelf) (S.noted self.new.depots.shelf)) }
    {
        self.cleaner.begin_part();
        self.do_due(due, facts)?;
        self.make_sure()
    }

    // A content of so many bytes is to be kept: how many bytes are to be moved before, if some are.
    fn due_at_keep(&mut self, bytes: usize) -> Option<Due>
        ensures { (chunks_of S.noted self.new) ≡ (chunks_of S.noted self.old) }
    {
        self.kept = self.kept.saturating_add((bytes as u64).max(LEAST_BYTES));
        if self.kept < KEPT_BYTES {
            return None;
        }
        let most = self.kept;
        self.kept = 0;
        Some(Due::Moves(most))
    }

    // A peer gives a content: the chunk is to be mended by it, if it is known to be damaged.
    fn due_at_gift(
        &self,
        tenant: u8,
        session: u32,
        number: u64,
        bytes: &Bytes,
    ) -> Result<Option<Due>, OutOfMemory> {
        if !self.mending.knows(tenant as usize, session, number) {
            return Ok(None);
        }
        Ok(Some(Due::Mends {
            tenant,
            session,
            number,
            bytes: bytes.share()?,
        }))
    }

    // What is to be done before this is taken, if something is.
    fn due(&mut self, came: &Came) -> Result<Option<Due>, OutOfMemory>
        ensures same { (chunks_of S.noted self.new) ≡ (chunks_of S.noted self.old) }
        ensures may { IfOk result (λ due. IfSome due (λ it. moves_at (coming came.now) ≡ true)) }
    {
        match came {
            Came::Tick => Ok(Some(Due::Tick(TICK_BYTES))),
            Came::Asked {
                request: Some(ChunkRequest::Keep { bytes, .. }),
                ..
            } => Ok(self.due_at_keep(bytes.len())),
            Came::Said {
                tenant,
                line: PeerLine::Gives {
                    session,
                    number,
                    bytes,
                },
                ..
            } => self.due_at_gift(*tenant, *session, *number, bytes),
            _ => Ok(None),
        }
    }

    /// Before a tick, and before contents that are to be kept, chunks are moved out of segments of which little is named: at a tick some, else as many bytes as were to be kept since. So it keeps up
    /// with what is kept, and a step moves no more than that. At a tick some contents are read too, and those that are damaged are noted. Before a content that a peer gives, the chunk is mended by it,
    /// if it was noted so.
    pub(crate) fn clean_before(&mut self, came: &Came, facts: &mut Vec<u8>) -> Result<(), Fault>
        requires { IsPlan self.old.plan }
        ensures plan { OnOk result (self.new.plan ≡ self.old.plan) }
        ensures tenants { OnOk result (length self.new.depots.depots.items ≡ length self.old.depots.depots.items) }
        ensures rises { OnOk result ((S.noted self.old.depots.shelf).refused ≤ (S.noted self.new.depots.shelf).refused) }
        ensures moves { OnOk result (AddsMovesBy (coming came.now) (chunks_of S.noted self.old) facts.old.items facts.new.items (chunks_of S.noted self.new)) }
        ensures refused { IfErr result (λ fault. IsShelfRefusal fault (S.noted self.old.depots.shelf) (S.noted self.new.depots.shelf)) }
    {
        let Some(due) = self.due(came)? else {
            return Ok(());
        };
        plan_is_sound(&self.plan);
        match self.clean(due, facts) {
            Ok(()) => Ok(()),
            Err(fault) => Err(fault),
        }
    }
}
