//! The chunks of one tenant at a server.

ghost use Rattle.std.specs.Prelude.{◌≡◌, ◌≢◌, All, true, false, List, ◌+◌, ◌-◌, ◌<◌, ◌≤◌, ◌^◌, ℕ, Some, length, max, min, IfOk, IfErr, OnErr, slice_get};
ghost use Rattle.gq_shelf.specs.Notes.{IsClean, GoesOn};
ghost use Rattle.gq_shelf.specs.declared.extent.Extent.{Extent};
ghost use Rattle.gq_shelf.specs.declared.fault.ShelfFault.TheVariants.{Full as FaultFull};

use crate::{Keeping, MOST_FRESH_BYTES, Session, Source};
use bytes::Bytes;
use gq_memory::{GrowVec, OutOfMemory};
use gq_shelf::{Shelf, ShelfFault};
use std::alloc::Global;

/// The chunks of one tenant at a server: those of its sessions, and how many bytes it may have.
#[derive(Drop)]
pub struct Stock {
    /// The chunks of its sessions, from the first.
    pub sessions: Vec<Session>,
    /// How many bytes it may have.
    pub allowed: u64,
}

impl Stock {
    ghost use Rattle.gq_stock.specs.Charge.{charge_of};
    ghost use Rattle.gq_stock.specs.Finding.{IsRefused, LacksSpace};
    ghost use Rattle.gq_stock.specs.Keeping.{taken_of};
    ghost use Rattle.gq_stock.specs.Memory.{fresh_taken};
    ghost use Rattle.gq_stock.specs.Stocks.{used_in, fresh_in, KeptIn, GivenIn, ChangesIn, DamagedIn, SureIn, LongIn, StaysIn, MovedIn, PutIn, IsEmpty};
    ghost use Rattle.gq_stock.specs.Sure.{PutsStay};

    /// So many sessions, which have nothing.
    pub fn new(alloc: Global, sessions: u32, allowed: u64) -> Result<Stock, OutOfMemory>
        ensures sessions { IfOk result (λ stock. length stock.sessions.items ≡ sessions) }
        ensures used { IfOk result (λ stock. used_in stock.sessions.items ≡ 0) }
        ensures fresh { IfOk result (λ stock. fresh_in stock.sessions.items ≡ 0) }
        ensures empty { IfOk result (λ stock. All IsEmpty stock.sessions.items) }
        ensures allowed { IfOk result (λ stock. stock.allowed ≡ allowed) }
    {
        let mut all = Vec::new(alloc);
        for _session in 0..sessions {
            all.grow(Session::new(alloc))?;
        }
        Ok(Stock {
            sessions: all,
            allowed,
        })
    }

    /// How many bytes its chunks are charged, as far as 64 bits tell.
    pub fn used(&self) -> u64
        ensures { result ≡ min (used_in self.now.sessions.items) (2 ^ 64 - 1) }
    {
        let mut used: u64 = 0;
        for session in self.sessions.as_slice() {
            used = used.saturating_add(session.used());
        }
        used
    }

    /// How many bytes it may have more.
    pub fn free(&self) -> u64
        ensures { result ≡ self.now.allowed - used_in self.now.sessions.items }
    {
        self.allowed.saturating_sub(self.used())
    }

    /// How many bytes of its chunks are in memory, as far as 64 bits tell.
    pub fn fresh(&self) -> u64
        ensures { result ≡ min (fresh_in self.now.sessions.items) (2 ^ 64 - 1) }
    {
        let mut fresh: u64 = 0;
        for session in self.sessions.as_slice() {
            fresh = fresh.saturating_add(session.fresh());
        }
        fresh
    }

    // How many bytes more may be in memory.
    fn left(&self) -> u64
        ensures { result ≡ MOST_FRESH_BYTES - fresh_in self.now.sessions.items }
    {
        MOST_FRESH_BYTES.saturating_sub(self.fresh())
    }

    /// Keeps the content under the number of the session at this place, which is charged its bytes and `CHUNK_CHARGE`. No other session changes, and what is used does not come above what is allowed, or stays.
    /// Nor does what is in memory come above `MOST_FRESH_BYTES`: a content that would bring more there, or is longer than `MOST_FRESH`, lies on the shelf.
    /// `Damaged` comes only where this read of the shelf found it so, `NoSpace` only where the shelf had none for this content. It is refused where memory is wanting, or the shelf refuses a read or a
    /// put for another cause. Nothing changes then.
    pub fn keep<S: Shelf>(
        &mut self,
        shelf: &mut S,
        place: usize,
        number: u64,
        bytes: Bytes,
        is_sure: bool,
    ) -> Result<Keeping, ShelfFault>
        requires there { place < length self.old.sessions.items }
        requires short { length bytes < 2 ^ 32 }
        ensures kept { (written : Extent → List ℕ) → IfOk result (λ told. IsClean written (S.noted shelf.new) → KeptIn written self.old.sessions.items place number bytes is_sure (self.old.allowed - used_in self.old.sessions.items) told self.new.sessions.items) }
        ensures alone { IfOk result (λ told. told ≡ Keeping.New → ChangesIn self.old.sessions.items place number self.new.sessions.items) }
        ensures stays { IfOk result (λ told. told ≢ Keeping.New → StaysIn self.old.sessions.items place self.new.sessions.items) }
        ensures sessions { length self.new.sessions.items ≡ length self.old.sessions.items }
        ensures others { (other : ℕ) → other ≢ place → slice_get self.new.sessions.items other ≡ slice_get self.old.sessions.items other }
        ensures sure { IfOk result (λ told. told ≡ Keeping.New → SureIn self.new.sessions.items place number (S.noted shelf.new)) }
        ensures long { IfOk result (λ told. told ≡ Keeping.New → LongIn self.new.sessions.items place number (length bytes)) }
        ensures damaged { IfOk result (λ told. told ≡ Keeping.Damaged → DamagedIn self.old.sessions.items place number (S.noted shelf.old) (S.noted shelf.new)) }
        ensures used { IfOk result (λ told. used_in self.new.sessions.items ≡ used_in self.old.sessions.items + taken_of (length bytes) told) }
        ensures fresh { IfOk result (λ told. fresh_in self.new.sessions.items ≡ fresh_in self.old.sessions.items + fresh_taken (length bytes) (MOST_FRESH_BYTES - fresh_in self.old.sessions.items) told) }
        ensures within { fresh_in self.new.sessions.items ≤ max (fresh_in self.old.sessions.items) MOST_FRESH_BYTES }
        ensures refused { IfErr result (λ fault. IsRefused fault (S.noted shelf.old) (S.noted shelf.new)) }
        ensures unchanged { OnErr result (StaysIn self.old.sessions.items place self.new.sessions.items) }
        ensures as_used { OnErr result (used_in self.new.sessions.items ≡ used_in self.old.sessions.items) }
        ensures space { IfOk result (λ told. told ≡ Keeping.NoSpace → LacksSpace (S.noted shelf.old) (S.noted shelf.new)) }
        ensures room { IfOk result (λ told. used_in self.new.sessions.items ≤ max (used_in self.old.sessions.items) self.old.allowed) }
        ensures allowed { self.new.allowed ≡ self.old.allowed }
        ensures goes_on { GoesOn (S.noted shelf.old) (S.noted shelf.new) }
    {
        let _allowed = self.allowed;
        let free = self.free();
        let left = self.left();
        let session = &mut self.sessions[place];
        let _used = session.used();
        session.keep(shelf, number, bytes, is_sure, free, left)
    }

    /// Puts the content that a peer gives under the number of the session at this place, in place of what is there. No other session changes, and what is in
    /// memory does not come above `MOST_FRESH_BYTES`, or above what it was. If it lies on the shelf it was made sure of there. False: it would be more bytes in all than 64 bits tell, and nothing changes. It is refused where memory is wanting, or the shelf refuses
    /// a put, as where it has no space (`Full`). Nothing changes then.
    pub fn give<S: Shelf>(
        &mut self,
        shelf: &mut S,
        place: usize,
        number: u64,
        bytes: Bytes,
    ) -> Result<bool, ShelfFault>
        requires there { place < length self.old.sessions.items }
        requires short { length bytes < 2 ^ 32 }
        ensures given { (written : Extent → List ℕ) → IfOk result (λ is_given. is_given ≡ true → IsClean written (S.noted shelf.new) → GivenIn written self.new.sessions.items place number bytes) }
        ensures alone { IfOk result (λ is_given. is_given ≡ true → ChangesIn self.old.sessions.items place number self.new.sessions.items) }
        ensures same { IfOk result (λ is_given. is_given ≡ false → StaysIn self.old.sessions.items place self.new.sessions.items) }
        ensures much { IfOk result (λ is_given. is_given ≡ false → 2 ^ 64 ≤ used_in self.old.sessions.items + charge_of (length bytes)) }
        ensures within { fresh_in self.new.sessions.items ≤ max (fresh_in self.old.sessions.items) MOST_FRESH_BYTES }
        ensures sessions { length self.new.sessions.items ≡ length self.old.sessions.items }
        ensures others { (other : ℕ) → other ≢ place → slice_get self.new.sessions.items other ≡ slice_get self.old.sessions.items other }
        ensures sure { IfOk result (λ is_given. is_given ≡ true → SureIn self.new.sessions.items place number (S.noted shelf.new)) }
        ensures long { IfOk result (λ is_given. is_given ≡ true → LongIn self.new.sessions.items place number (length bytes)) }
        ensures refused { IfErr result (λ fault. IsRefused fault (S.noted shelf.old) (S.noted shelf.new)) }
        ensures space { IfErr result (λ fault. fault ≡ FaultFull → LacksSpace (S.noted shelf.old) (S.noted shelf.new)) }
        ensures unchanged { OnErr result (StaysIn self.old.sessions.items place self.new.sessions.items) }
        ensures allowed { self.new.allowed ≡ self.old.allowed }
        ensures goes_on { GoesOn (S.noted shelf.old) (S.noted shelf.new) }
    {
        let left = self.left();
        let session = &mut self.sessions[place];
        let is_given = session.give(shelf, number, bytes, left)?;
        Ok(is_given)
    }

    /// Puts the content of the number of the session at this place behind all others on the shelf: as it is read, or, where it is damaged, by the bytes that a peer gave, if these have its number
    /// and its sum. It is told as before, and has the same bytes where no read was wrong. No other session changes, nor what is used, and no more is in memory. The shelf has to make sure of it
    /// before it is told where it lies (`PutIn`). False, and nothing changes: none is there; or one that is to be moved is damaged; or one that is to be mended can be read, or the bytes are
    /// others. It is refused where memory is wanting, or the shelf refuses a read or a put, as where it has no space (`Full`). Nothing changes then.
    pub fn shelve<S: Shelf>(
        &mut self,
        shelf: &mut S,
        place: usize,
        number: u64,
        source: &Source,
    ) -> Result<bool, ShelfFault>
        requires { place < length self.old.sessions.items }
        ensures moved { (written : Extent → List ℕ) → IfOk result (λ is_moved. is_moved ≡ true → MovedIn (IsClean written (S.noted shelf.new)) written (S.end shelf.old) self.old.sessions.items place number self.new.sessions.items) }
        ensures alone { IfOk result (λ is_moved. is_moved ≡ true → ChangesIn self.old.sessions.items place number self.new.sessions.items) }
        ensures same { IfOk result (λ is_moved. is_moved ≡ false → StaysIn self.old.sessions.items place self.new.sessions.items) }
        ensures put { IfOk result (λ is_moved. is_moved ≡ true → PutIn self.new.sessions.items place number (S.noted shelf.new)) }
        ensures puts_stay { PutsStay (S.noted shelf.old) (S.noted shelf.new) }
        ensures sessions { length self.new.sessions.items ≡ length self.old.sessions.items }
        ensures others { (other : ℕ) → other ≢ place → slice_get self.new.sessions.items other ≡ slice_get self.old.sessions.items other }
        ensures used { used_in self.new.sessions.items ≡ used_in self.old.sessions.items }
        ensures fresh { fresh_in self.new.sessions.items ≤ fresh_in self.old.sessions.items }
        ensures refused { IfErr result (λ fault. IsRefused fault (S.noted shelf.old) (S.noted shelf.new)) }
        ensures unchanged { OnErr result (StaysIn self.old.sessions.items place self.new.sessions.items) }
        ensures allowed { self.new.allowed ≡ self.old.allowed }
        ensures goes_on { GoesOn (S.noted shelf.old) (S.noted shelf.new) }
    {
        let _allowed = self.allowed;
        self.sessions[place].shelve(shelf, number, source)
    }
}
