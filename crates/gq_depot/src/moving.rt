//! A chunk is moved, or mended: it lies elsewhere on the shelf, and nothing that is told changes.

ghost use Rattle.std.specs.Prelude.{◌≡◌, ◌+◌, ◌<◌, ◌≤◌, ℕ, List, None, true, length, IfOk, IfErr};
ghost use Rattle.gq_shelf.specs.Notes.{IsClean, GoesOn};
ghost use Rattle.gq_shelf.specs.declared.extent.Extent.{Extent};
ghost use Rattle.gq_shelf.specs.declared.fault.ShelfFault.TheVariants.{Full};
ghost use Rattle.gq_ledger.specs.Ledgers.{book_of};
ghost use Rattle.gq_stock.specs.Finding.{IsRefused};
ghost use Rattle.gq_stock.specs.Stocks.{used_in};
ghost use Rattle.gq_stock.specs.Sure.{PutsStay};

use crate::depot::bytes_at;
use crate::{ChunkFact, Depot, MOST_CHUNK};
use gq_shelf::{Shelf, ShelfFault};
use gq_stock::Source;

impl Depot {
    ghost use Rattle.gq_depot.specs.Depots.{LeadsTo, ReadsFact, in_memory};
    ghost use Rattle.gq_depot.specs.Answers.{In};
    ghost use Rattle.gq_depot.specs.Moving.{MovedAt, MoveGives, FactIsPut, FitsThere};

    // Whether a chunk of the number is there, no longer than chunks are.
    fn fits_at(&self, place: usize, number: u64) -> bool
        requires { place < length self.now.stock.sessions.items }
        ensures { result ≡ true → In self.now.stock.sessions.items place (λ session. FitsThere ((book_of session.chunks).at number)) }
    {
        match self.session(place).get(number) {
            Some(chunk) => chunk.place.len() <= MOST_CHUNK,
            None => false,
        }
    }

    // Moves or mends the chunk of the number, in the session at this place.
    fn shelve_at<S: Shelf>(
        &mut self,
        shelf: &mut S,
        place: usize,
        session: u32,
        number: u64,
        source: &Source,
    ) -> Result<Option<ChunkFact>, ShelfFault>
        requires there { place < length self.old.stock.sessions.items }
        requires number { session ≡ place + 1 }
        ensures gives { (written : Extent → List ℕ) → IfOk result (λ fact. MovedAt (IsClean written (S.noted shelf.new)) written (S.end shelf.old) self.old place session number fact) }
        ensures leads { IfOk result (λ fact. LeadsTo self.old fact self.new) }
        ensures put { IfOk result (λ fact. FactIsPut fact (S.noted shelf.new)) }
        ensures puts_stay { PutsStay (S.noted shelf.old) (S.noted shelf.new) }
        ensures reads { IfOk result (λ fact. ReadsFact (length self.old.stock.sessions.items) fact) }
        ensures memory { in_memory self.new ≤ in_memory self.old }
        ensures used { used_in self.new.stock.sessions.items ≡ used_in self.old.stock.sessions.items }
        ensures refused { IfErr result (λ fault. IsRefused fault (S.noted shelf.old) (S.noted shelf.new)) }
        ensures full { IfErr result (λ fault. fault ≡ Full → LeadsTo self.old None self.new) }
        ensures goes_on { GoesOn (S.noted shelf.old) (S.noted shelf.new) }
    {
        if !self.fits_at(place, number) {
            return Ok(None);
        }
        let before = bytes_at(&self.stock.sessions[place], number);
        let is_moved = match self.stock.shelve(shelf, place, number, source) {
            Ok(is_moved) => is_moved,
            Err(fault) => return Err(fault),
        };
        if !is_moved {
            return Ok(None);
        }
        self.in_journal = self.in_journal.saturating_sub(before);
        self.note(place, number);
        let fact = self.fact_at(place, session, number)?;
        Ok(Some(fact))
    }

    /// Moves the chunk of the session's number behind all others on the shelf, or mends one that is damaged by the bytes that a peer gave, if these have its number and its sum. It gives the fact of
    /// it: where it lies then. The shelf has to make sure of it before the fact is synced (`FactIsPut`). No fact, and nothing changes: none is there; or one that is to be moved is damaged; or one
    /// that is to be mended can be read, or the bytes are others. It is refused where memory is wanting, or the shelf refuses a read or a put; the depot is given up then. Where the shelf has no
    /// space for it (`Full`) the depot is as it was instead.
    pub fn shelve<S: Shelf>(
        &mut self,
        shelf: &mut S,
        session: u32,
        number: u64,
        source: &Source,
    ) -> Result<Option<ChunkFact>, ShelfFault>
        ensures gives { (written : Extent → List ℕ) → IfOk result (λ fact. MoveGives (IsClean written (S.noted shelf.new)) written (S.end shelf.old) self.old session number fact) }
        ensures leads { IfOk result (λ fact. LeadsTo self.old fact self.new) }
        ensures put { IfOk result (λ fact. FactIsPut fact (S.noted shelf.new)) }
        ensures puts_stay { PutsStay (S.noted shelf.old) (S.noted shelf.new) }
        ensures reads { IfOk result (λ fact. ReadsFact (length self.old.stock.sessions.items) fact) }
        ensures memory { in_memory self.new ≤ in_memory self.old }
        ensures used { used_in self.new.stock.sessions.items ≡ used_in self.old.stock.sessions.items }
        ensures refused { IfErr result (λ fault. IsRefused fault (S.noted shelf.old) (S.noted shelf.new)) }
        ensures full { IfErr result (λ fault. fault ≡ Full → LeadsTo self.old None self.new) }
        ensures goes_on { GoesOn (S.noted shelf.old) (S.noted shelf.new) }
    {
        let Some(place) = self.place_of(session) else {
            return Ok(None);
        };
        let fact = self.shelve_at(shelf, place, session, number, source)?;
        Ok(fact)
    }
}
