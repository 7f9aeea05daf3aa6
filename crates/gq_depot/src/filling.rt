//! A server that lacks chunks is given them by a peer.
//!
//! What a peer gives is no request: it tells nobody anything, and may change what is there.

ghost use Rattle.std.specs.Prelude.{◌≡◌, ◌≤◌, ◌<◌, ◌+◌, ℕ, true, List, Some, None, length, IfOk, IfErr};
ghost use Rattle.gq_shelf.specs.Notes.{Noted, IsClean, GoesOn};
ghost use Rattle.gq_shelf.specs.declared.extent.Extent.{Extent};
ghost use Rattle.gq_shelf.specs.declared.fault.ShelfFault.TheVariants.{Full};
ghost use Rattle.gq_stock.specs.Finding.{IsRefused, LacksSpace};
ghost use Rattle.gq_depot.specs.Answers.{fits};

use crate::depot::bytes_at;
use crate::gone::is_gone;
use crate::{ChunkFact, Depot, MOST_CHUNK};
use bytes::Bytes;
use gq_memory::{OutOfMemory, filled};
use gq_shelf::{Shelf, ShelfFault};
use gq_stock::Run;
use std::alloc::Global;

/// What is done for a tenant of whom the server lacks chunks.
#[derive(Drop)]
pub enum Filling {
    /// A peer gives the content of the session's number.
    Give {
        session: u32,
        number: u64,
        bytes: Bytes,
    },
    /// A peer tells the floor of the session.
    Raise {
        session: u32,
        floor: u64,
    },
    /// All was given.
    End,
}

// Whether a chunk may have these bytes: one, and not too many.
fn has_length(bytes: &[u8]) -> bool
    ensures fits { result ≡ fits bytes.now }
    ensures few { result ≡ true → length bytes.now ≤ MOST_CHUNK }
{
    !bytes.is_empty() && bytes.len() <= MOST_CHUNK
}

impl Depot {
    ghost use Rattle.gq_depot.specs.Depots.{LeadsTo, FactIsSure, ReadsFact, StaysWithin};
    ghost use Rattle.gq_depot.specs.Answers.{In, PutIs};
    ghost use Rattle.gq_depot.specs.Filling.{wants_at, wants_of, GivenAt, GiveGives, RaisedAt, RaiseGives, EndGives, Fills};

    // Whether a peer's content of the number is wanted, of the session at this place: the server lacks chunks, has none that was given under it, and did not
    // forget it since.
    fn wants_at(&self, place: usize, number: u64) -> bool
        requires { place < length self.now.stock.sessions.items }
        ensures { In self.now.stock.sessions.items place (λ session. result ≡ wants_at self.now place number session) }
    {
        let is_given = match self.stock.sessions[place].get(number) {
            Some(chunk) => chunk.is_sure,
            None => false,
        };
        self.lacks && !is_given && !is_gone(self.gone.as_slice(), place, number)
    }

    /// Whether a peer's content of the session's number is wanted: the server lacks chunks of the tenant, has none under the number that was given, and did not forget
    /// it since.
    pub fn wants(&self, session: u32, number: u64) -> bool
        ensures { result ≡ wants_of self.now session number }
    {
        match self.place_of(session) {
            Some(place) => self.wants_at(place, number),
            None => false,
        }
    }

    // Puts the content of the number into the session at this place. What is more in all than 64 bits tell is refused as what fills the memory.
    fn give_at<S: Shelf>(
        &mut self,
        alloc: Global,
        shelf: &mut S,
        place: usize,
        session: u32,
        number: u64,
        bytes: Bytes,
    ) -> Result<ChunkFact, ShelfFault>
        requires there { place < length self.old.stock.sessions.items }
        requires number { session ≡ place + 1 }
        requires long { length bytes ≤ MOST_CHUNK }
        ensures gives { (written : Extent → List ℕ) → IfOk result (λ fact. IsClean written (S.noted shelf.new) → PutIs written session number true bytes (Some fact)) }
        ensures leads { IfOk result (λ fact. LeadsTo self.old (Some fact) self.new) }
        ensures sure { IfOk result (λ fact. FactIsSure (Some fact) (S.noted shelf.new)) }
        ensures reads { IfOk result (λ fact. ReadsFact (length self.old.stock.sessions.items) (Some fact)) }
        ensures memory { IfOk result (λ fact. StaysWithin self.old self.new) }
        ensures refused { IfErr result (λ fault. IsRefused fault (S.noted shelf.old) (S.noted shelf.new)) }
        ensures full { IfErr result (λ fault. fault ≡ Full → LeadsTo self.old None self.new × LacksSpace (S.noted shelf.old) (S.noted shelf.new)) }
        ensures goes_on { GoesOn (S.noted shelf.old) (S.noted shelf.new) }
    {
        let before = bytes_at(&self.stock.sessions[place], number);
        let is_given = match self.stock.give(shelf, place, number, bytes) {
            Ok(is_given) => is_given,
            Err(fault) => return Err(fault),
        };
        self.in_journal = self.in_journal.saturating_sub(before);
        if !is_given {
            let none = filled(alloc, 0u8, usize::MAX)?;
            let _long = none.as_slice().len();
            unreachable!()
        }
        self.note(place, number);
        let fact = self.fact_at(place, session, number)?;
        Ok(fact)
    }
    // A peer gives the content of the number, in the session at this place.
    fn give_in<S: Shelf>(
        &mut self,
        alloc: Global,
        shelf: &mut S,
        place: usize,
        session: u32,
        number: u64,
        bytes: Bytes,
    ) -> Result<Option<ChunkFact>, ShelfFault>
        requires there { place < length self.old.stock.sessions.items }
        requires number { session ≡ place + 1 }
        ensures fills { (written : Extent → List ℕ) → IfOk result (λ fact. GivenAt (IsClean written (S.noted shelf.new)) written self.old place session number bytes fact) }
        ensures leads { IfOk result (λ fact. LeadsTo self.old fact self.new) }
        ensures sure { IfOk result (λ fact. FactIsSure fact (S.noted shelf.new)) }
        ensures reads { IfOk result (λ fact. ReadsFact (length self.old.stock.sessions.items) fact) }
        ensures memory { IfOk result (λ fact. StaysWithin self.old self.new) }
        ensures refused { IfErr result (λ fault. IsRefused fault (S.noted shelf.old) (S.noted shelf.new)) }
        ensures full { IfErr result (λ fault. fault ≡ Full → LeadsTo self.old None self.new × LacksSpace (S.noted shelf.old) (S.noted shelf.new)) }
        ensures goes_on { GoesOn (S.noted shelf.old) (S.noted shelf.new) }
    {
        if !has_length(bytes.as_slice()) || !self.wants_at(place, number) {
            return Ok(None);
        }
        let fact = self.give_at(alloc, shelf, place, session, number, bytes)?;
        Ok(Some(fact))
    }

    // A peer gives the content of the session's number.
    fn give<S: Shelf>(
        &mut self,
        alloc: Global,
        shelf: &mut S,
        session: u32,
        number: u64,
        bytes: Bytes,
    ) -> Result<Option<ChunkFact>, ShelfFault>
        ensures fills { (written : Extent → List ℕ) → IfOk result (λ fact. GiveGives (IsClean written (S.noted shelf.new)) written self.old session number bytes fact) }
        ensures leads { IfOk result (λ fact. LeadsTo self.old fact self.new) }
        ensures sure { IfOk result (λ fact. FactIsSure fact (S.noted shelf.new)) }
        ensures reads { IfOk result (λ fact. ReadsFact (length self.old.stock.sessions.items) fact) }
        ensures memory { IfOk result (λ fact. StaysWithin self.old self.new) }
        ensures refused { IfErr result (λ fault. IsRefused fault (S.noted shelf.old) (S.noted shelf.new)) }
        ensures full { IfErr result (λ fault. fault ≡ Full → LeadsTo self.old None self.new × LacksSpace (S.noted shelf.old) (S.noted shelf.new)) }
        ensures goes_on { GoesOn (S.noted shelf.old) (S.noted shelf.new) }
    {
        let Some(place) = self.place_of(session) else {
            return Ok(None);
        };
        let fact = self.give_in(alloc, shelf, place, session, number, bytes)?;
        Ok(fact)
    }

    // A peer tells the floor of the session at this place.
    fn raise_in(
        &mut self,
        place: usize,
        session: u32,
        floor: u64,
    ) -> Result<Option<ChunkFact>, OutOfMemory>
        requires there { place < length self.old.stock.sessions.items }
        requires number { session ≡ place + 1 }
        ensures fills { IfOk result (λ fact. RaisedAt self.old place session floor fact) }
        ensures sure { (noted : Noted) → IfOk result (λ fact. FactIsSure fact noted) }
        ensures leads { IfOk result (λ fact. LeadsTo self.old fact self.new) }
        ensures reads { IfOk result (λ fact. ReadsFact (length self.old.stock.sessions.items) fact) }
        ensures memory { IfOk result (λ fact. StaysWithin self.old self.new) }
    {
        if !self.lacks || self.floor_at(place) >= floor {
            return Ok(None);
        }
        let run = Run { first: 1, last: 0 };
        let _told = self.forget_at(place, session, floor, run)?;
        Ok(Some(ChunkFact::Forgot {
            session,
            floor,
            run,
        }))
    }

    // A peer tells the floor of the session.
    fn raise(&mut self, session: u32, floor: u64) -> Result<Option<ChunkFact>, OutOfMemory>
        ensures fills { IfOk result (λ fact. RaiseGives self.old session floor fact) }
        ensures sure { (noted : Noted) → IfOk result (λ fact. FactIsSure fact noted) }
        ensures leads { IfOk result (λ fact. LeadsTo self.old fact self.new) }
        ensures reads { IfOk result (λ fact. ReadsFact (length self.old.stock.sessions.items) fact) }
        ensures memory { IfOk result (λ fact. StaysWithin self.old self.new) }
    {
        let Some(place) = self.place_of(session) else {
            return Ok(None);
        };
        self.raise_in(place, session, floor)
    }

    // All was given.
    fn end(&mut self) -> Option<ChunkFact>
        ensures fills { EndGives self.old.lacks result }
        ensures leads { LeadsTo self.old result self.new }
        ensures reads { ReadsFact (length self.old.stock.sessions.items) result }
        ensures memory { StaysWithin self.old self.new }
    {
        if !self.lacks {
            return None;
        }
        self.lack_nothing();
        Some(ChunkFact::Filled)
    }

    /// Does this for the tenant, if the server lacks chunks of it, and gives the fact of it. What a peer gives wins over what the server kept itself; what was
    /// forgotten since the server lacks chunks, and what was given before, is passed over. It is refused where memory is wanting, or the shelf refuses a put; the
    /// depot is given up then. Where the shelf has no space for a content (`Full`) the depot is as it was instead, and the content may be asked for again.
    pub fn fill<S: Shelf>(
        &mut self,
        alloc: Global,
        shelf: &mut S,
        filling: Filling,
    ) -> Result<Option<ChunkFact>, ShelfFault>
        ensures fills { (written : Extent → List ℕ) → IfOk result (λ fact. Fills (IsClean written (S.noted shelf.new)) written self.old filling fact) }
        ensures leads { IfOk result (λ fact. LeadsTo self.old fact self.new) }
        ensures sure { IfOk result (λ fact. FactIsSure fact (S.noted shelf.new)) }
        ensures reads { IfOk result (λ fact. ReadsFact (length self.old.stock.sessions.items) fact) }
        ensures memory { IfOk result (λ fact. StaysWithin self.old self.new) }
        ensures refused { IfErr result (λ fault. IsRefused fault (S.noted shelf.old) (S.noted shelf.new)) }
        ensures full { IfErr result (λ fault. fault ≡ Full → LeadsTo self.old None self.new × LacksSpace (S.noted shelf.old) (S.noted shelf.new)) }
        ensures goes_on { GoesOn (S.noted shelf.old) (S.noted shelf.new) }
    {
        match filling {
            Filling::Give {
                session,
                number,
                bytes,
            } => {
                let fact = self.give(alloc, shelf, session, number, bytes)?;
                Ok(fact)
            }
            Filling::Raise { session, floor } => Ok(self.raise(session, floor)?),
            Filling::End => Ok(self.end()),
        }
    }
}
