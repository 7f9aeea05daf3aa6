//! Chunks that a peer gives, and chunks that are moved, or mended.

ghost use Rattle.std.specs.Prelude.{◌≡◌, ◌+◌, ◌<◌, ◌≤◌, ◌^◌, ℕ, List, length, true, false, IfOk, IfErr, OnErr, IfSome, IfNone};
ghost use Rattle.gq_shelf.specs.Notes.{IsClean, GoesOn};
ghost use Rattle.gq_shelf.specs.Places.{content_at, long_at, extent_in, DescribesAt};
ghost use Rattle.gq_shelf.specs.declared.extent.Extent.{Extent};
ghost use Rattle.gq_stock.specs.Charge.{charge_of};
ghost use Rattle.gq_shelf.specs.declared.fault.ShelfFault.TheVariants.{Full};
ghost use Rattle.gq_stock.specs.Finding.{FindsDamageAt, IsRefused, LacksSpace};
ghost use Rattle.gq_stock.specs.Memory.{fresh_at, fresh_of};
ghost use Rattle.gq_stock.specs.Moving.{LiesBehind, IsLeft, IsMendedBy};
ghost use Rattle.gq_stock.specs.Sure.{PlaceIsPut, PutsStay};

use crate::keeping::placed;
use crate::{Chunk, Session};
use bytes::Bytes;
use gq_ledger::Long;
use gq_memory::OutOfMemory;
use gq_shelf::{Place, Shelf, ShelfFault};

/// Where the bytes of a chunk come from that is put behind all others.
#[derive(Drop)]
pub enum Source {
    /// From where it lies: it is moved.
    Shelf,
    /// From a peer, who gave these: it is mended, where it is damaged.
    Peer(Bytes),
}

// The content, put on the shelf behind all others; none where this read found it damaged.
fn copied_from_shelf<S: Shelf>(shelf: &mut S, place: &Place) -> Result<Option<Place>, ShelfFault>
    requires { long_at place.now < 2 ^ 32 }
    ensures bytes { (written : Extent → List ℕ) → IfOk result (λ copy. IfSome copy (λ there. IsClean written (S.noted shelf.new) → content_at written there ≡ content_at written place.now)) }
    ensures long { IfOk result (λ copy. IfSome copy (λ there. long_at there ≡ long_at place.now)) }
    ensures shelved { IfOk result (λ copy. IfSome copy (λ there. LiesBehind (S.end shelf.old) there)) }
    ensures put { IfOk result (λ copy. IfSome copy (λ there. PlaceIsPut there (S.noted shelf.new))) }
    ensures puts_stay { PutsStay (S.noted shelf.old) (S.noted shelf.new) }
    ensures damaged { IfOk result (λ copy. IfNone copy (FindsDamageAt (extent_in place.now) (S.noted shelf.old) (S.noted shelf.new))) }
    ensures refused { IfErr result (λ fault. IsRefused fault (S.noted shelf.old) (S.noted shelf.new)) }
    ensures goes_on { GoesOn (S.noted shelf.old) (S.noted shelf.new) }
{
    match place.read(shelf) {
        Ok(bytes) => {
            let there = Place::put(shelf, bytes.as_slice())?;
            Ok(Some(there))
        }
        Err(ShelfFault::Damaged(_)) => Ok(None),
        Err(fault) => Err(fault),
    }
}

// Puts the bytes on the shelf behind all others, if they are those of the content by their number and sum.
fn put_vouched<S: Shelf>(
    shelf: &mut S,
    place: &Place,
    bytes: &[u8],
) -> Result<Option<Place>, ShelfFault>
    requires { long_at place.now < 2 ^ 32 }
    ensures bytes { (written : Extent → List ℕ) → IfOk result (λ copy. IfSome copy (λ there. IsClean written (S.noted shelf.new) → content_at written there ≡ content_at written place.now)) }
    ensures long { IfOk result (λ copy. IfSome copy (λ there. long_at there ≡ long_at place.now)) }
    ensures shelved { IfOk result (λ copy. IfSome copy (λ there. LiesBehind (S.end shelf.old) there)) }
    ensures put { IfOk result (λ copy. IfSome copy (λ there. PlaceIsPut there (S.noted shelf.new))) }
    ensures puts_stay { PutsStay (S.noted shelf.old) (S.noted shelf.new) }
    ensures damaged { (S.noted shelf.new).damaged ≡ (S.noted shelf.old).damaged }
    ensures described { IfOk result (λ copy. IfSome copy (λ there. DescribesAt (extent_in place.now) bytes.now)) }
    ensures others { IfOk result (λ copy. IfNone copy (DescribesAt (extent_in place.now) bytes.now → ⊥)) }
    ensures same { IfOk result (λ copy. IfNone copy (S.noted shelf.new ≡ S.noted shelf.old)) }
    ensures refused { IfErr result (λ fault. IsRefused fault (S.noted shelf.old) (S.noted shelf.new)) }
    ensures goes_on { GoesOn (S.noted shelf.old) (S.noted shelf.new) }
{
    if !place.vouch(shelf, bytes) {
        return Ok(None);
    }
    let there = Place::put(shelf, bytes)?;
    Ok(Some(there))
}

// The content by the bytes that a peer gave, put on the shelf behind all others; none where it can be read where it lies, or the bytes are not of its number and
// sum.
fn copied_from_peer<S: Shelf>(
    shelf: &mut S,
    place: &Place,
    bytes: &Bytes,
) -> Result<Option<Place>, ShelfFault>
    requires { long_at place.now < 2 ^ 32 }
    ensures bytes { (written : Extent → List ℕ) → IfOk result (λ copy. IfSome copy (λ there. IsClean written (S.noted shelf.new) → content_at written there ≡ content_at written place.now)) }
    ensures long { IfOk result (λ copy. IfSome copy (λ there. long_at there ≡ long_at place.now)) }
    ensures shelved { IfOk result (λ copy. IfSome copy (λ there. LiesBehind (S.end shelf.old) there)) }
    ensures put { IfOk result (λ copy. IfSome copy (λ there. PlaceIsPut there (S.noted shelf.new))) }
    ensures puts_stay { PutsStay (S.noted shelf.old) (S.noted shelf.new) }
    ensures mended { IfOk result (λ copy. IfSome copy (λ there. IsMendedBy (Source.Peer bytes.now) place.now (S.noted shelf.old) (S.noted shelf.new))) }
    ensures left { IfOk result (λ copy. IfNone copy (IsLeft (Source.Peer bytes.now) place.now (S.noted shelf.old) (S.noted shelf.new))) }
    ensures refused { IfErr result (λ fault. IsRefused fault (S.noted shelf.old) (S.noted shelf.new)) }
    ensures goes_on { GoesOn (S.noted shelf.old) (S.noted shelf.new) }
{
    match place.read(shelf) {
        Ok(_bytes) => Ok(None),
        Err(ShelfFault::Damaged(_)) => put_vouched(shelf, place, bytes.as_slice()),
        Err(fault) => Err(fault),
    }
}

// The content by these bytes, put on the shelf behind all others.
fn copied<S: Shelf>(
    shelf: &mut S,
    place: &Place,
    source: &Source,
) -> Result<Option<Place>, ShelfFault>
    requires { long_at place.now < 2 ^ 32 }
    ensures bytes { (written : Extent → List ℕ) → IfOk result (λ copy. IfSome copy (λ there. IsClean written (S.noted shelf.new) → content_at written there ≡ content_at written place.now)) }
    ensures long { IfOk result (λ copy. IfSome copy (λ there. long_at there ≡ long_at place.now)) }
    ensures shelved { IfOk result (λ copy. IfSome copy (λ there. LiesBehind (S.end shelf.old) there)) }
    ensures put { IfOk result (λ copy. IfSome copy (λ there. PlaceIsPut there (S.noted shelf.new))) }
    ensures puts_stay { PutsStay (S.noted shelf.old) (S.noted shelf.new) }
    ensures mended { IfOk result (λ copy. IfSome copy (λ there. IsMendedBy source.now place.now (S.noted shelf.old) (S.noted shelf.new))) }
    ensures left { IfOk result (λ copy. IfNone copy (IsLeft source.now place.now (S.noted shelf.old) (S.noted shelf.new))) }
    ensures refused { IfErr result (λ fault. IsRefused fault (S.noted shelf.old) (S.noted shelf.new)) }
    ensures goes_on { GoesOn (S.noted shelf.old) (S.noted shelf.new) }
{
    match source {
        Source::Shelf => copied_from_shelf(shelf, place),
        Source::Peer(bytes) => copied_from_peer(shelf, place, bytes),
    }
}

impl Session {
    ghost use Rattle.gq_ledger.specs.Ledgers.{book_of, all_bytes, bytes_under, all_fresh, fresh_under};
    ghost use Rattle.gq_ledger.specs.Steps.{Leads, Gives};
    ghost use Rattle.gq_stock.specs.Held.{contents};
    ghost use Rattle.gq_stock.specs.Moving.{MovedAs, IsBehind, IsMoved, NoneIsRead, MendsAs, CheckedAs};
    ghost use Rattle.gq_stock.specs.Keeping.{ChangesOnly};
    ghost use Rattle.gq_stock.specs.Sure.{IsSureOf, IsLongOf, IsPutOf};

    /// Puts the chunk under the number, in place of what is there. False: it would be more bytes in all than 64 bits tell, and nothing changes. Nor does it
    /// where memory is refused.
    pub fn put(&mut self, number: u64, chunk: Chunk) -> Result<bool, OutOfMemory>
        ensures put { IfOk result (λ is_put. is_put ≡ true → Leads (book_of self.old.chunks) (Gives number chunk) (book_of self.new.chunks)) }
        ensures used { IfOk result (λ is_put. is_put ≡ true → all_bytes self.new.chunks + bytes_under self.old.chunks number ≡ all_bytes self.old.chunks + charge_of (long_at chunk.place)) }
        ensures fresh { IfOk result (λ is_put. is_put ≡ true → all_fresh self.new.chunks + fresh_under self.old.chunks number ≡ all_fresh self.old.chunks + fresh_at chunk.place) }
        ensures same { IfOk result (λ is_put. is_put ≡ false → book_of self.new.chunks ≡ book_of self.old.chunks) }
        ensures much { IfOk result (λ is_put. is_put ≡ false → 2 ^ 64 ≤ all_bytes self.old.chunks + charge_of (long_at chunk.place)) }
        ensures fresh_same { IfOk result (λ is_put. is_put ≡ false → all_fresh self.new.chunks ≡ all_fresh self.old.chunks) }
        ensures unchanged { OnErr result (book_of self.new.chunks ≡ book_of self.old.chunks) }
        ensures as_fresh { OnErr result (all_fresh self.new.chunks ≡ all_fresh self.old.chunks) }
    {
        if self.used() > u64::MAX - chunk.len() {
            return Ok(false);
        }
        self.chunks.give(number, chunk)?;
        Ok(true)
    }

    /// Puts the chunk that a peer gives under the number, in place of what is there. False: it would be more bytes in all than 64 bits tell, and nothing changes.
    /// It stays in memory if it is short, and has no more bytes than `left`. Else it lies on the shelf, which made sure of it. It is refused where memory is wanting, or
    /// the shelf refuses a put, as where it has no space (`Full`). Nothing changes then.
    pub fn give<S: Shelf>(
        &mut self,
        shelf: &mut S,
        number: u64,
        bytes: Bytes,
        left: u64,
    ) -> Result<bool, ShelfFault>
        requires { length bytes < 2 ^ 32 }
        ensures given { (written : Extent → List ℕ) → IfOk result (λ is_given. is_given ≡ true → IsClean written (S.noted shelf.new) → Leads (contents written (book_of self.old.chunks)) (Gives number (record { bytes = bytes; is_sure = true })) (contents written (book_of self.new.chunks))) }
        ensures sure { IfOk result (λ is_given. is_given ≡ true → IsSureOf ((book_of self.new.chunks).at number) (S.noted shelf.new)) }
        ensures used { IfOk result (λ is_given. is_given ≡ true → all_bytes self.new.chunks + bytes_under self.old.chunks number ≡ all_bytes self.old.chunks + charge_of (length bytes)) }
        ensures fresh { IfOk result (λ is_given. is_given ≡ true → all_fresh self.new.chunks + fresh_under self.old.chunks number ≡ all_fresh self.old.chunks + fresh_of (length bytes) left) }
        ensures within { all_fresh self.new.chunks ≤ all_fresh self.old.chunks + left }
        ensures alone { IfOk result (λ is_given. is_given ≡ true → ChangesOnly (book_of self.old.chunks) number (book_of self.new.chunks)) }
        ensures long { IfOk result (λ is_given. is_given ≡ true → IsLongOf ((book_of self.new.chunks).at number) (length bytes)) }
        ensures same { IfOk result (λ is_given. is_given ≡ false → book_of self.new.chunks ≡ book_of self.old.chunks) }
        ensures much { IfOk result (λ is_given. is_given ≡ false → 2 ^ 64 ≤ all_bytes self.old.chunks + charge_of (length bytes)) }
        ensures refused { IfErr result (λ fault. IsRefused fault (S.noted shelf.old) (S.noted shelf.new)) }
        ensures space { IfErr result (λ fault. fault ≡ Full → LacksSpace (S.noted shelf.old) (S.noted shelf.new)) }
        ensures unchanged { OnErr result (book_of self.new.chunks ≡ book_of self.old.chunks) }
        ensures goes_on { GoesOn (S.noted shelf.old) (S.noted shelf.new) }
    {
        let place = placed(shelf, bytes, left)?;
        Ok(self.put(
            number,
            Chunk {
                place,
                is_sure: true,
            },
        )?)
    }

    /// Puts the content of the number behind all others on the shelf: as it is read in memory or where it lies, or, where it is damaged there, by the bytes that a peer gave, if these
    /// have its number and its sum. It is the same, where no read was wrong, and so is what is used. No more is in memory than before. The shelf has to make sure of it before it is told where it
    /// lies. False, and nothing changes: none is there; or one that is to be moved is damaged; or one that is to be mended can be read, or the bytes are others. It is refused where memory is
    /// wanting, or the shelf refuses a read or a put. Nothing changes then.
    pub fn shelve<S: Shelf>(
        &mut self,
        shelf: &mut S,
        number: u64,
        source: &Source,
    ) -> Result<bool, ShelfFault>
        ensures moved { (written : Extent → List ℕ) → IfOk result (λ is_moved. IsClean written (S.noted shelf.new) → MovedAs (contents written (book_of self.old.chunks)) (contents written (book_of self.new.chunks))) }
        ensures shelved { IfOk result (λ is_moved. is_moved ≡ true → IsBehind (S.end shelf.old) ((book_of self.new.chunks).at number)) }
        ensures is { (written : Extent → List ℕ) → IfOk result (λ is_moved. is_moved ≡ true → IsMoved (IsClean written (S.noted shelf.new)) written (S.end shelf.old) ((book_of self.old.chunks).at number) ((book_of self.new.chunks).at number)) }
        ensures alone { IfOk result (λ is_moved. is_moved ≡ true → ChangesOnly (book_of self.old.chunks) number (book_of self.new.chunks)) }
        ensures put { IfOk result (λ is_moved. is_moved ≡ true → IsPutOf ((book_of self.new.chunks).at number) (S.noted shelf.new)) }
        ensures puts_stay { PutsStay (S.noted shelf.old) (S.noted shelf.new) }
        ensures none { IfOk result (λ is_moved. is_moved ≡ false → NoneIsRead source.now ((book_of self.old.chunks).at number) (S.noted shelf.old) (S.noted shelf.new)) }
        ensures mended { IfOk result (λ is_moved. is_moved ≡ true → MendsAs source.now ((book_of self.old.chunks).at number) (S.noted shelf.old) (S.noted shelf.new)) }
        ensures same { IfOk result (λ is_moved. is_moved ≡ false → book_of self.new.chunks ≡ book_of self.old.chunks) }
        ensures used { all_bytes self.new.chunks ≡ all_bytes self.old.chunks }
        ensures fresh { all_fresh self.new.chunks ≤ all_fresh self.old.chunks }
        ensures refused { IfErr result (λ fault. IsRefused fault (S.noted shelf.old) (S.noted shelf.new)) }
        ensures unchanged { OnErr result (book_of self.new.chunks ≡ book_of self.old.chunks) }
        ensures goes_on { GoesOn (S.noted shelf.old) (S.noted shelf.new) }
    {
        let Some(chunk) = self.chunks.get(number) else {
            return Ok(false);
        };
        let is_sure = chunk.is_sure;
        let _used = self.used();
        let Some(place) = copied(shelf, &chunk.place, source)? else {
            return Ok(false);
        };
        self.chunks.give(number, Chunk { place, is_sure })?;
        Ok(true)
    }

    /// Reads the content of the number, and says whether this read found it damaged. It is refused where memory is wanting, or the shelf refuses the read.
    pub fn check<S: Shelf>(&self, shelf: &mut S, number: u64) -> Result<bool, ShelfFault>
        ensures checked { IfOk result (λ is_damaged. CheckedAs ((book_of self.now.chunks).at number) is_damaged (S.noted shelf.old) (S.noted shelf.new)) }
        ensures puts_stay { PutsStay (S.noted shelf.old) (S.noted shelf.new) }
        ensures refused { IfErr result (λ fault. IsRefused fault (S.noted shelf.old) (S.noted shelf.new)) }
        ensures goes_on { GoesOn (S.noted shelf.old) (S.noted shelf.new) }
    {
        let Some(chunk) = self.chunks.get(number) else {
            return Ok(false);
        };
        match chunk.place.read(shelf) {
            Ok(_bytes) => Ok(false),
            Err(ShelfFault::Damaged(_)) => Ok(true),
            Err(fault) => Err(fault),
        }
    }
}
