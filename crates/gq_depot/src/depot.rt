//! The chunks of a tenant at a server.

ghost use Rattle.std.specs.Prelude.{◌≡◌, ◌+◌, ◌-◌, ◌<◌, ◌≤◌, ℕ, Some, true, false, length, MatchOption, IfOk, IfSome, OnOk};
ghost use Rattle.gq_shelf.specs.Places.{long_at};

use crate::Gone;
use crate::gone::covers;
use gq_memory::{GrowBytes, GrowVec, OutOfMemory};
use gq_shelf::Place;
use gq_stock::{Run, Session, Stock};
use std::alloc::Global;

// The least bytes of a chunk's line in a journal.
const LEAST_LINE: u64 = 32;

/// The chunks of a tenant at a server.
#[derive(Drop)]
pub struct Depot {
    /// What it has.
    pub stock: Stock,
    /// Whether the server lacks chunks of the tenant.
    pub lacks: bool,
    /// What was forgotten since it lacks some.
    pub gone: Vec<Gone>,
    /// How many bytes the chunks take in a journal that is written anew, or somewhat less.
    pub in_journal: u64,
}

// The place, once more: its content is shared.
pub(crate) fn same_place(place: &Place) -> Result<Place, OutOfMemory>
    ensures { IfOk result (λ same. same ≡ place.now) }
{
    match place {
        Place::Fresh(bytes) => Ok(Place::Fresh(bytes.share()?)),
        Place::Shelved(extent) => Ok(Place::Shelved(*extent)),
    }
}

// How many bytes the chunk takes in a journal, or somewhat less.
pub(crate) fn line_bytes(place: &Place) -> u64 {
    match place {
        Place::Fresh(bytes) => (bytes.len() as u64).saturating_add(LEAST_LINE),
        Place::Shelved(_) => LEAST_LINE,
    }
}

// How many bytes the chunk of the number takes there.
pub(crate) fn bytes_at(session: &Session, number: u64) -> u64 {
    match session.get(number) {
        Some(chunk) => line_bytes(&chunk.place),
        None => 0,
    }
}

// How many bytes the chunks of the run take there.
pub(crate) fn run_bytes(session: &Session, run: Run) -> u64 {
    if run.last < run.first {
        return 0;
    }
    let mut bytes = bytes_at(session, run.first);
    let mut last = run.first;
    while let Some((number, chunk)) = session.after(last) {
        if number > run.last {
            break;
        }
        bytes = bytes.saturating_add(line_bytes(&chunk.place));
        last = number;
    }
    bytes
}

impl Depot {
    ghost use Rattle.gq_stock.specs.Stocks.{used_in};
    ghost use Rattle.gq_depot.specs.Segments.{NoneOf, SomeOf};
    ghost use Rattle.gq_depot.specs.Depots.{place_in, standing_of, gone_after, bare, in_memory, IsSame};

    /// So many sessions, which have nothing.
    pub fn new(
        alloc: Global,
        sessions: u32,
        allowed: u64,
        lacks: bool,
    ) -> Result<Depot, OutOfMemory>
        ensures sessions { IfOk result (λ depot. length depot.stock.sessions.items ≡ sessions) }
        ensures used { IfOk result (λ depot. used_in depot.stock.sessions.items ≡ 0) }
        ensures memory { IfOk result (λ depot. in_memory depot ≡ 0) }
        ensures allowed { IfOk result (λ depot. depot.stock.allowed ≡ allowed) }
        ensures lacks { IfOk result (λ depot. depot.lacks ≡ lacks) }
        ensures nothing { IfOk result (λ depot. IsSame (standing_of depot) (bare lacks)) }
    {
        Ok(Depot {
            stock: Stock::new(alloc, sessions, allowed)?,
            lacks,
            gone: Vec::new(alloc),
            in_journal: 0,
        })
    }

    // The place of the session of this number; none where the tenant has none.
    pub(crate) fn place_of(&self, session: u32) -> Option<usize>
        ensures place { result ≡ place_in self.now.stock.sessions.items session }
        ensures there { IfSome result (λ place. place < length self.now.stock.sessions.items) }
        ensures number { IfSome result (λ place. session ≡ place + 1) }
    {
        let sessions = self.stock.sessions.len();
        if session >= 1 && session as usize <= sessions {
            Some(session as usize - 1)
        } else {
            None
        }
    }

    /// Whether a chunk lies in this segment of the shelf. It looks at each of them.
    pub fn lies_in(&self, segment: u32) -> bool
        ensures some { result ≡ true → SomeOf segment self.now }
        ensures none { result ≡ false → NoneOf segment self.now }
    {
        let mut place = 0;
        while place < self.stock.sessions.len() {
            if self.session(place).lies_in(segment) {
                return true;
            }
            place += 1;
        }
        false
    }

    // Counts the chunk of this number.
    pub(crate) fn note(&mut self, place: usize, number: u64)
        requires { place < length self.old.stock.sessions.items }
        ensures stock { self.new.stock ≡ self.old.stock }
        ensures lacks { self.new.lacks ≡ self.old.lacks }
        ensures gone { self.new.gone.items ≡ self.old.gone.items }
    {
        let more = bytes_at(&self.stock.sessions[place], number);
        self.in_journal = self.in_journal.saturating_add(more);
    }
    // Notes that numbers of the session at this place are forgotten, where the server lacks chunks. Where memory is wanting the depot is given up.
    pub(crate) fn note_gone(&mut self, place: usize, run: Run) -> Result<(), OutOfMemory>
        ensures stock { self.new.stock ≡ self.old.stock }
        ensures lacks { self.new.lacks ≡ self.old.lacks }
        ensures gone { OnOk result ((k n : ℕ) → (standing_of self.new).gone k n ≡ gone_after (standing_of self.old) place run k n) }
    {
        if self.lacks && run.first <= run.last && !covers(self.gone.as_slice(), place, run) {
            self.gone.grow(Gone { place, run })?;
        }
        Ok(())
    }
}
