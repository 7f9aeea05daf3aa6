//! Where a content is: in memory or on the shelf.

ghost use Rattle.std.specs.Prelude.{◌≡◌, ◌<◌, ◌^◌, ℕ, List, length, true, false, IfOk, IfErr, OnErr, Option, Some, None};
ghost use Rattle.gq_shelf.specs.Notes.{IsClean, GoesOn, after_refusal};
ghost use Rattle.gq_shelf.specs.Places.{content_at, long_at, extent_in, PutBehind, ReadAt, ReadFailed, DescribesAt, NotedAt};
ghost use Rattle.gq_shelf.specs.declared.extent.Extent.{Extent};

use crate::{Extent, Shelf, ShelfFault};
use bytes::Bytes;
use gq_memory::GrowBytes;

/// Where a content is. One in memory is shared with who brought it.
#[derive(Debug, Drop)]
pub enum Place {
    /// It is in memory.
    Fresh(Bytes),
    /// It lies there.
    Shelved(Extent),
}

impl Place {
    /// Puts the bytes on the shelf, behind all others. They lie there, where no read is wrong.
    pub fn put<S: Shelf>(shelf: &mut S, bytes: &[u8]) -> Result<Place, ShelfFault>
        requires { length bytes.now < 2 ^ 32 }
        ensures bytes { (written : Extent → List ℕ) → IfOk result (λ place. IsClean written (S.noted shelf.new) → content_at written place ≡ bytes.now) }
        ensures long { IfOk result (λ place. long_at place ≡ length bytes.now) }
        ensures put { IfOk result (λ place. PutBehind (S.end shelf.old) bytes.now (S.noted shelf.old) (S.noted shelf.new) place) }
        ensures goes_on { GoesOn (S.noted shelf.old) (S.noted shelf.new) }
        ensures refused { OnErr result (S.noted shelf.new ≡ after_refusal (S.noted shelf.old)) }
    {
        let extent = shelf.append(bytes)?;
        Ok(Place::Shelved(extent))
    }

    /// Where it lies, if it is on the shelf.
    pub fn extent(&self) -> Option<Extent>
        ensures { result ≡ extent_in self.now }
    {
        match self {
            Place::Fresh(_) => None,
            Place::Shelved(extent) => Some(*extent),
        }
    }

    /// How many bytes the content has.
    pub fn len(&self) -> usize
        ensures { result ≡ long_at self.now }
    {
        match self {
            Place::Fresh(bytes) => bytes.len(),
            Place::Shelved(extent) => extent.len as usize,
        }
    }

    /// The content: that in memory, shared, or what is read.
    pub fn read<S: Shelf>(&self, shelf: &mut S) -> Result<Bytes, ShelfFault>
        ensures bytes { (written : Extent → List ℕ) → IfOk result (λ bytes. IsClean written (S.noted shelf.new) → content_at written self.now ≡ bytes) }
        ensures long { IfOk result (λ bytes. length bytes ≡ long_at self.now) }
        ensures read { IfOk result (λ bytes. ReadAt self.now bytes (S.noted shelf.old) (S.noted shelf.new)) }
        ensures end_stays { S.end shelf.new ≡ S.end shelf.old }
        ensures goes_on { GoesOn (S.noted shelf.old) (S.noted shelf.new) }
        ensures failed { IfErr result (λ fault. ReadFailed self.now fault (S.noted shelf.old) (S.noted shelf.new)) }
    {
        match self {
            Place::Fresh(bytes) => Ok(bytes.share()?),
            Place::Shelved(extent) => {
                let found = shelf.read(extent)?;
                Ok(found)
            }
        }
    }

    /// Whether these are the bytes of a content that lies on the shelf, by their number and their sum, for who has them from elsewhere. They are noted as read there then. Of a content in
    /// memory nothing is said so.
    pub fn vouch<S: Shelf>(&self, shelf: &mut S, bytes: &[u8]) -> bool
        ensures bytes { (written : Extent → List ℕ) → result ≡ true → IsClean written (S.noted shelf.new) → content_at written self.now ≡ bytes.now }
        ensures long { result ≡ true → length bytes.now ≡ long_at self.now }
        ensures noted { result ≡ true → NotedAt (extent_in self.now) bytes.now (S.noted shelf.old) (S.noted shelf.new) }
        ensures describes { result ≡ true → DescribesAt (extent_in self.now) bytes.now }
        ensures others { result ≡ false → DescribesAt (extent_in self.now) bytes.now → ⊥ }
        ensures untouched { result ≡ false → S.noted shelf.new ≡ S.noted shelf.old }
        ensures end_stays { S.end shelf.new ≡ S.end shelf.old }
        ensures goes_on { GoesOn (S.noted shelf.old) (S.noted shelf.new) }
    {
        match self {
            Place::Fresh(_) => false,
            Place::Shelved(extent) => shelf.vouch(extent, bytes),
        }
    }
}
