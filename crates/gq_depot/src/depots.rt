//! The chunks of all tenants at a server.

ghost use Rattle.std.specs.Prelude.{◌≡◌, ◌+◌, ◌<◌, ◌≤◌, true, false, Some, None, length, IfOk, IfErr, OnOk, slice_get};
ghost use Rattle.gq_shelf.specs.Extents.{place_of};
ghost use Rattle.gq_shelf.specs.Notes.{GoesOn, after_sync};
ghost use Rattle.gq_shelf.specs.declared.fault.ShelfFault.TheVariants.{Full};
ghost use Rattle.gq_stock.specs.Finding.{IsRefused, LacksSpace};
ghost use Rattle.gq_stock.specs.Sure.{PutsStay};

use crate::{Answered, ChunkFact, ChunkRequest, Depot, Filling};
use gq_memory::OutOfMemory;
use gq_shelf::{Shelf, ShelfFault};
use gq_stock::Source;
use std::alloc::Global;

/// The chunks of all tenants at a server, over one shelf.
#[derive(Drop)]
pub struct Depots<S: Shelf + Drop> {
    /// Where contents lie that are not in memory.
    pub shelf: S,
    /// What each tenant has, by its place in the plan.
    pub depots: Vec<Depot>,
    /// How many nodes of the server's column were lost, as its plan tells.
    pub losses: u64,
}

impl<S: Shelf + Drop> Depots<S> {
    ghost use Rattle.gq_depot.specs.Tenants.{ApartFrom, TakesOwn, FillsOwn, LeadsOwn, ReadsOwn, DamageOf};
    ghost use Rattle.gq_depot.specs.Segments.{NoneLies, SomeLies};
    ghost use Rattle.gq_depot.specs.Moving.{MovesOwn, FactIsPut};
    ghost use Rattle.gq_depot.specs.Scrubbing.{ChecksOwn};

    /// What comes of the tenant's request. What is told of it and kept of it hangs on this tenant's chunks alone, and no other tenant's change. It is refused
    /// where memory is wanting, or the shelf refuses a read or a put; all is given up then.
    pub fn answer(
        &mut self,
        alloc: Global,
        tenant: usize,
        request: ChunkRequest,
    ) -> Result<Answered, ShelfFault>
        requires { tenant < length self.old.depots.items }
        ensures own { IfOk result (λ a. TakesOwn (S.noted self.new.shelf) self.old.losses self.old.depots.items tenant request a self.new.depots.items) }
        ensures damaged { IfOk result (λ a. DamageOf self.old.depots.items tenant (S.noted self.old.shelf) (S.noted self.new.shelf) a.answer) }
        ensures apart { ApartFrom tenant self.old.depots.items self.new.depots.items }
        ensures tenants { length self.new.depots.items ≡ length self.old.depots.items }
        ensures losses { self.new.losses ≡ self.old.losses }
        ensures refused { IfErr result (λ fault. IsRefused fault (S.noted self.old.shelf) (S.noted self.new.shelf)) }
        ensures goes_on { GoesOn (S.noted self.old.shelf) (S.noted self.new.shelf) }
    {
        let depot = &mut self.depots[tenant];
        let answered = depot.answer(alloc, &mut self.shelf, self.losses, request)?;
        Ok(answered)
    }

    /// Does this for the tenant. What comes of it hangs on this tenant's chunks alone, and no other tenant's change. It is refused where memory is wanting, or the
    /// shelf refuses a put; all is given up then. Where the shelf has no space for a content (`Full`) all is as it was instead, and the content may be asked for again.
    pub fn fill(
        &mut self,
        alloc: Global,
        tenant: usize,
        filling: Filling,
    ) -> Result<Option<ChunkFact>, ShelfFault>
        requires { tenant < length self.old.depots.items }
        ensures own { IfOk result (λ fact. FillsOwn (S.noted self.new.shelf) self.old.depots.items tenant filling fact self.new.depots.items) }
        ensures apart { ApartFrom tenant self.old.depots.items self.new.depots.items }
        ensures tenants { length self.new.depots.items ≡ length self.old.depots.items }
        ensures losses { self.new.losses ≡ self.old.losses }
        ensures refused { IfErr result (λ fault. IsRefused fault (S.noted self.old.shelf) (S.noted self.new.shelf)) }
        ensures full { IfErr result (λ fault. fault ≡ Full → LeadsOwn self.old.depots.items tenant None self.new.depots.items × LacksSpace (S.noted self.old.shelf) (S.noted self.new.shelf)) }
        ensures goes_on { GoesOn (S.noted self.old.shelf) (S.noted self.new.shelf) }
    {
        let lacking = &mut self.depots[tenant];
        let fact = lacking.fill(alloc, &mut self.shelf, filling)?;
        Ok(fact)
    }

    /// Moves the chunk of the tenant's session and number behind all others on the shelf, or mends one that is damaged by the bytes that a peer gave, if these have its number and its sum. Nothing
    /// that is told changes, and no other tenant's chunks do. It is refused where memory is wanting, or the shelf refuses a read or a put; all is given up then. Where the shelf has no space for it
    /// (`Full`) all is as it was instead.
    pub fn shelve(
        &mut self,
        tenant: usize,
        session: u32,
        number: u64,
        source: &Source,
    ) -> Result<Option<ChunkFact>, ShelfFault>
        requires { tenant < length self.old.depots.items }
        ensures own { IfOk result (λ fact. MovesOwn (S.noted self.new.shelf) (S.end self.old.shelf) self.old.depots.items tenant session number fact self.new.depots.items) }
        ensures apart { ApartFrom tenant self.old.depots.items self.new.depots.items }
        ensures tenants { length self.new.depots.items ≡ length self.old.depots.items }
        ensures losses { self.new.losses ≡ self.old.losses }
        ensures put { IfOk result (λ fact. FactIsPut fact (S.noted self.new.shelf)) }
        ensures puts_stay { PutsStay (S.noted self.old.shelf) (S.noted self.new.shelf) }
        ensures refused { IfErr result (λ fault. IsRefused fault (S.noted self.old.shelf) (S.noted self.new.shelf)) }
        ensures full { IfErr result (λ fault. fault ≡ Full → MovesOwn (S.noted self.new.shelf) (S.end self.old.shelf) self.old.depots.items tenant session number None self.new.depots.items) }
        ensures goes_on { GoesOn (S.noted self.old.shelf) (S.noted self.new.shelf) }
    {
        let moving = &mut self.depots[tenant];
        match moving.shelve(&mut self.shelf, session, number, source) {
            Ok(fact) => Ok(fact),
            Err(fault) => Err(fault),
        }
    }

    /// Reads the content of the tenant's session and number, and says whether this read found it damaged. Nothing changes. It is refused where memory is wanting, or the shelf refuses the read.
    pub fn check(&mut self, tenant: usize, session: u32, number: u64) -> Result<bool, ShelfFault>
        requires { tenant < length self.old.depots.items }
        ensures checked { IfOk result (λ is_damaged. ChecksOwn self.old.depots.items tenant session number is_damaged (S.noted self.old.shelf) (S.noted self.new.shelf)) }
        ensures depots { self.new.depots ≡ self.old.depots }
        ensures losses { self.new.losses ≡ self.old.losses }
        ensures puts_stay { PutsStay (S.noted self.old.shelf) (S.noted self.new.shelf) }
        ensures refused { IfErr result (λ fault. IsRefused fault (S.noted self.old.shelf) (S.noted self.new.shelf)) }
        ensures goes_on { GoesOn (S.noted self.old.shelf) (S.noted self.new.shelf) }
    {
        self.depots[tenant].check(&mut self.shelf, session, number)
    }

    /// The shelf makes sure of all that was put. It is refused where memory is wanting, or the shelf refuses it.
    pub fn make_sure(&mut self) -> Result<(), ShelfFault>
        ensures sure { OnOk result (S.noted self.new.shelf ≡ after_sync (S.noted self.old.shelf)) }
        ensures depots { self.new.depots ≡ self.old.depots }
        ensures losses { self.new.losses ≡ self.old.losses }
        ensures refused { IfErr result (λ fault. IsRefused fault (S.noted self.old.shelf) (S.noted self.new.shelf)) }
    {
        self.shelf.sync()
    }

    /// The tenant's depot reads a fact of an earlier run. False: it reads none such; nothing changes then. Where memory is wanting all is given up.
    pub fn recall(
        &mut self,
        alloc: Global,
        tenant: usize,
        fact: ChunkFact,
    ) -> Result<bool, OutOfMemory>
        requires { tenant < length self.old.depots.items }
        ensures read { IfOk result (λ is_read. ReadsOwn self.old.depots.items tenant fact is_read) }
        ensures own { IfOk result (λ is_read. is_read ≡ true → LeadsOwn self.old.depots.items tenant (Some fact) self.new.depots.items) }
        ensures apart { ApartFrom tenant self.old.depots.items self.new.depots.items }
        ensures tenants { length self.new.depots.items ≡ length self.old.depots.items }
        ensures losses { self.new.losses ≡ self.old.losses }
        ensures shelf { self.new.shelf ≡ self.old.shelf }
    {
        self.depots[tenant].recall(alloc, fact)
    }

    // What the tenant has.
    fn depot(&self, tenant: usize) -> &Depot
        requires { tenant < length self.now.depots.items }
        ensures { slice_get self.now.depots.items tenant ≡ Some result.now }
    {
        &self.depots[tenant]
    }

    /// Whether a chunk of some tenant lies in this segment of the shelf. It looks at each of them.
    pub fn lies_in(&self, segment: u32) -> bool
        ensures some { result ≡ true → SomeLies segment self.now.depots.items }
        ensures none { result ≡ false → NoneLies segment self.now.depots.items }
    {
        let mut tenant = 0;
        while tenant < self.depots.len() {
            if self.depot(tenant).lies_in(segment) {
                return true;
            }
            tenant += 1;
        }
        false
    }

    /// Removes the segment with all that lies on it, if no chunk of any tenant does, and says whether it did. That of the greatest number stays. Who calls sees to
    /// it that all facts of these chunks are synced: a start that read older ones would have chunks that lie there.
    pub fn remove(&self, segment: u32) -> Result<bool, ShelfFault>
        ensures dead { IfOk result (λ removed. removed ≡ true → NoneLies segment self.now.depots.items) }
        ensures below { IfOk result (λ removed. removed ≡ true → place_of (segment + 1) 0 ≤ S.end self.now.shelf) }
    {
        if self.lies_in(segment) {
            return Ok(false);
        }
        self.shelf.remove(segment)
    }
}
