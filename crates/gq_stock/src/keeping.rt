//! A content is to be kept.

ghost use Rattle.std.specs.Prelude.{◌≡◌, ◌≢◌, ◌+◌, ◌<◌, ◌≤◌, ◌^◌, ℕ, List, length, IfOk, IfErr, OnOk, OnErr, IsSome};
ghost use Rattle.gq_shelf.specs.Notes.{IsClean, GoesOn};
ghost use Rattle.gq_shelf.specs.Places.{content_at, long_at};
ghost use Rattle.gq_shelf.specs.declared.extent.Extent.{Extent};
ghost use Rattle.gq_stock.specs.Charge.{charge_of};
ghost use Rattle.gq_shelf.specs.declared.fault.ShelfFault.TheVariants.{Full as FaultFull};
ghost use Rattle.gq_stock.specs.Finding.{IsRefused, LacksSpace};
ghost use Rattle.gq_stock.specs.Memory.{fresh_at, fresh_of, fresh_taken, stays_fresh};
ghost use Rattle.gq_stock.specs.Sure.{PlaceIsSure};

use crate::{CHUNK_CHARGE, Chunk, Found, MOST_FRESH, Session};
use bytes::Bytes;
use gq_ledger::Verdict;
use gq_shelf::{Place, Shelf, ShelfFault};

/// What comes of a content that is to be kept.
#[derive(Clone, Copy, PartialEq, Eq)]
pub enum Keeping {
    /// It is there now, and nothing was before.
    New,
    /// It was there, the same.
    Same,
    /// Another one is there, and stays.
    Differs,
    /// One is there that can't be read, and stays.
    Damaged,
    /// None is there, and the number is not above the floor.
    Below,
    /// None is there, the number is above the floor, and the content is charged more bytes than are free.
    Full,
    /// None is there, the number is above the floor, and the content is charged no more than is free. But it is to lie on the shelf, which has no space.
    NoSpace,
}

// What a content of so many bytes is charged.
fn charge_of(long: usize) -> u64
    requires { long < 2 ^ 32 }
    ensures { result ≡ charge_of long }
{
    long as u64 + CHUNK_CHARGE
}

// Puts the bytes on the shelf, which makes sure of them. Where it has no space for them nothing else is noted.
fn put_surely<S: Shelf>(shelf: &mut S, bytes: &[u8]) -> Result<Place, ShelfFault>
    requires { length bytes.now < 2 ^ 32 }
    ensures bytes { (written : Extent → List ℕ) → IfOk result (λ place. IsClean written (S.noted shelf.new) → content_at written place ≡ bytes.now) }
    ensures long { IfOk result (λ place. long_at place ≡ length bytes.now) }
    ensures goes_on { GoesOn (S.noted shelf.old) (S.noted shelf.new) }
    ensures sure { IfOk result (λ place. PlaceIsSure place (S.noted shelf.new)) }
    ensures shelved { IfOk result (λ place. fresh_at place ≡ 0) }
    ensures refused { IfErr result (λ fault. IsRefused fault (S.noted shelf.old) (S.noted shelf.new)) }
    ensures space { IfErr result (λ fault. fault ≡ FaultFull → LacksSpace (S.noted shelf.old) (S.noted shelf.new)) }
{
    let place = Place::put(shelf, bytes)?;
    shelf.sync()?;
    Ok(place)
}

// Whether a content of so many bytes stays in memory, where so many more may be there.
fn stays_fresh(long: usize, left: u64) -> bool
    ensures { result ≡ stays_fresh long left }
{
    long <= MOST_FRESH && long as u64 <= left
}

// The content: a short one in memory, if no more bytes than so many come there by it; another one on the shelf, which made sure of it.
pub(crate) fn placed<S: Shelf>(shelf: &mut S, bytes: Bytes, left: u64) -> Result<Place, ShelfFault>
    requires { length bytes < 2 ^ 32 }
    ensures bytes { (written : Extent → List ℕ) → IfOk result (λ place. IsClean written (S.noted shelf.new) → content_at written place ≡ bytes) }
    ensures long { IfOk result (λ place. long_at place ≡ length bytes) }
    ensures goes_on { GoesOn (S.noted shelf.old) (S.noted shelf.new) }
    ensures sure { IfOk result (λ place. PlaceIsSure place (S.noted shelf.new)) }
    ensures fresh { IfOk result (λ place. fresh_at place ≡ fresh_of (length bytes) left) }
    ensures refused { IfErr result (λ fault. IsRefused fault (S.noted shelf.old) (S.noted shelf.new)) }
    ensures space { IfErr result (λ fault. fault ≡ FaultFull → LacksSpace (S.noted shelf.old) (S.noted shelf.new)) }
{
    if stays_fresh(bytes.len(), left) {
        return Ok(Place::Fresh(bytes));
    }
    put_surely(shelf, bytes.as_slice())
}

impl Session {
    ghost use Rattle.gq_ledger.specs.Ledgers.{book_of, all_bytes, all_fresh, verdict_of};
    ghost use Rattle.gq_ledger.specs.Steps.{Leads, Keeps};
    ghost use Rattle.gq_stock.specs.Held.{contents};
    ghost use Rattle.gq_stock.specs.Finding.{FindsDamage};
    ghost use Rattle.gq_stock.specs.Sure.{IsSureOf, IsLongOf};
    ghost use Rattle.gq_stock.specs.Keeping.{ComparesAs, KeptAs, ChangesOnly, taken_of};

    // Compares the bytes with those that are there.
    fn compare<S: Shelf>(
        &self,
        shelf: &mut S,
        number: u64,
        bytes: &[u8],
    ) -> Result<Keeping, ShelfFault>
        requires { IsSome ((book_of self.now.chunks).at number) }
        ensures told { (written : Extent → List ℕ) → IfOk result (λ told. IsClean written (S.noted shelf.new) → ComparesAs ((contents written (book_of self.now.chunks)).at number) bytes.now told) }
        ensures damaged { IfOk result (λ told. told ≡ Keeping.Damaged → FindsDamage ((book_of self.now.chunks).at number) (S.noted shelf.old) (S.noted shelf.new)) }
        ensures none { IfOk result (λ told. taken_of (length bytes.now) told ≡ 0) }
        ensures not_new { IfOk result (λ told. told ≢ Keeping.New) }
        ensures space { IfOk result (λ told. told ≢ Keeping.NoSpace) }
        ensures none_fresh { (left : ℕ) → IfOk result (λ told. fresh_taken (length bytes.now) left told ≡ 0) }
        ensures refused { IfErr result (λ fault. IsRefused fault (S.noted shelf.old) (S.noted shelf.new)) }
        ensures goes_on { GoesOn (S.noted shelf.old) (S.noted shelf.new) }
    {
        match self.find(shelf, number)? {
            Found::There(there) => {
                if there.as_slice() == bytes {
                    Ok(Keeping::Same)
                } else {
                    Ok(Keeping::Differs)
                }
            }
            Found::Damaged => Ok(Keeping::Damaged),
            Found::Nothing => unreachable!(),
        }
    }

    // Puts the content under the number.
    fn take<S: Shelf>(
        &mut self,
        shelf: &mut S,
        number: u64,
        bytes: Bytes,
        is_sure: bool,
        free: u64,
        left: u64,
    ) -> Result<(), ShelfFault>
        requires short { length bytes < 2 ^ 32 }
        requires room { all_bytes self.old.chunks + free < 2 ^ 64 }
        requires may { verdict_of (book_of self.old.chunks) number (charge_of (length bytes)) free ≡ Verdict.Kept }
        ensures leads { (written : Extent → List ℕ) → OnOk result (IsClean written (S.noted shelf.new) → Leads (contents written (book_of self.old.chunks)) (Keeps number (record { bytes = bytes; is_sure = is_sure })) (contents written (book_of self.new.chunks))) }
        ensures alone { OnOk result (ChangesOnly (book_of self.old.chunks) number (book_of self.new.chunks)) }
        ensures sure { OnOk result (IsSureOf ((book_of self.new.chunks).at number) (S.noted shelf.new)) }
        ensures long { OnOk result (IsLongOf ((book_of self.new.chunks).at number) (length bytes)) }
        ensures used { OnOk result (all_bytes self.new.chunks ≡ all_bytes self.old.chunks + charge_of (length bytes)) }
        ensures fresh { OnOk result (all_fresh self.new.chunks ≡ all_fresh self.old.chunks + fresh_of (length bytes) left) }
        ensures refused { IfErr result (λ fault. IsRefused fault (S.noted shelf.old) (S.noted shelf.new)) }
        ensures space { IfErr result (λ fault. fault ≡ FaultFull → LacksSpace (S.noted shelf.old) (S.noted shelf.new)) }
        ensures unchanged { OnErr result (book_of self.new.chunks ≡ book_of self.old.chunks) }
        ensures as_used { OnErr result (all_bytes self.new.chunks ≡ all_bytes self.old.chunks) }
        ensures as_fresh { OnErr result (all_fresh self.new.chunks ≡ all_fresh self.old.chunks) }
        ensures goes_on { GoesOn (S.noted shelf.old) (S.noted shelf.new) }
    {
        let place = placed(shelf, bytes, left)?;
        let _verdict = self.chunks.keep(number, Chunk { place, is_sure }, free)?;
        Ok(())
    }

    /// Keeps the content under the number: what is told says what was there, and only a new one changes anything, under this number alone. So it may be asked any number of times.
    /// A new one stays in memory if it is short, and no more bytes than `left` come there by it. Else it lies on the shelf, which made sure of it. `Damaged` comes only where this read of the shelf found it so, `NoSpace` only where the shelf had none for this content. It is refused where memory is
    /// wanting, or the shelf refuses a read or a put for another cause. Nothing changes then.
    pub fn keep<S: Shelf>(
        &mut self,
        shelf: &mut S,
        number: u64,
        bytes: Bytes,
        is_sure: bool,
        free: u64,
        left: u64,
    ) -> Result<Keeping, ShelfFault>
        requires short { length bytes < 2 ^ 32 }
        requires room { all_bytes self.old.chunks + free < 2 ^ 64 }
        ensures kept { (written : Extent → List ℕ) → IfOk result (λ told. IsClean written (S.noted shelf.new) → KeptAs (contents written (book_of self.old.chunks)) number bytes is_sure free told (contents written (book_of self.new.chunks))) }
        ensures alone { IfOk result (λ told. told ≡ Keeping.New → ChangesOnly (book_of self.old.chunks) number (book_of self.new.chunks)) }
        ensures stays { IfOk result (λ told. told ≢ Keeping.New → book_of self.new.chunks ≡ book_of self.old.chunks) }
        ensures damaged { IfOk result (λ told. told ≡ Keeping.Damaged → FindsDamage ((book_of self.old.chunks).at number) (S.noted shelf.old) (S.noted shelf.new)) }
        ensures used { IfOk result (λ told. all_bytes self.new.chunks ≡ all_bytes self.old.chunks + taken_of (length bytes) told) }
        ensures fresh { IfOk result (λ told. all_fresh self.new.chunks ≡ all_fresh self.old.chunks + fresh_taken (length bytes) left told) }
        ensures sure { IfOk result (λ told. told ≡ Keeping.New → IsSureOf ((book_of self.new.chunks).at number) (S.noted shelf.new)) }
        ensures long { IfOk result (λ told. told ≡ Keeping.New → IsLongOf ((book_of self.new.chunks).at number) (length bytes)) }
        ensures within { IfOk result (λ told. taken_of (length bytes) told ≤ free) }
        ensures space { IfOk result (λ told. told ≡ Keeping.NoSpace → LacksSpace (S.noted shelf.old) (S.noted shelf.new)) }
        ensures refused { IfErr result (λ fault. IsRefused fault (S.noted shelf.old) (S.noted shelf.new)) }
        ensures unchanged { OnErr result (book_of self.new.chunks ≡ book_of self.old.chunks) }
        ensures as_used { OnErr result (all_bytes self.new.chunks ≡ all_bytes self.old.chunks) }
        ensures as_fresh { OnErr result (all_fresh self.new.chunks ≡ all_fresh self.old.chunks) }
        ensures goes_on { GoesOn (S.noted shelf.old) (S.noted shelf.new) }
    {
        match self.chunks.verdict(number, charge_of(bytes.len()), free) {
            Verdict::There => self.compare(shelf, number, bytes.as_slice()),
            Verdict::Below => Ok(Keeping::Below),
            Verdict::Full => Ok(Keeping::Full),
            Verdict::Kept => match self.take(shelf, number, bytes, is_sure, free, left) {
                Ok(()) => Ok(Keeping::New),
                Err(ShelfFault::Full) => Ok(Keeping::NoSpace),
                Err(fault) => Err(fault),
            },
        }
    }
}
