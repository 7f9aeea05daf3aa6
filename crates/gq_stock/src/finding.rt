//! What is found under a number.

ghost use Rattle.std.specs.Prelude.{◌≡◌, ℕ, List, IfOk, IfErr};
ghost use Rattle.gq_shelf.specs.Notes.{IsClean, GoesOn};
ghost use Rattle.gq_shelf.specs.declared.extent.Extent.{Extent};

use crate::Session;
use bytes::Bytes;
use gq_shelf::{Shelf, ShelfFault};

/// What is found under a number.
#[derive(Drop)]
pub enum Found {
    /// No chunk.
    Nothing,
    /// One whose bytes are not those that were written.
    Damaged,
    /// One with these bytes.
    There(Bytes),
}

impl Session {
    ghost use Rattle.gq_ledger.specs.Ledgers.{book_of};
    ghost use Rattle.gq_stock.specs.Held.{contents};
    ghost use Rattle.gq_stock.specs.Finding.{FoundAs, FindsDamage, IsRefused};

    /// Looks for the chunk of this number, and reads it. What it tells is there, where no read was wrong. `Damaged` comes only where this read of the shelf
    /// found it so. It is refused where memory is wanting, or the shelf refuses the read.
    pub fn find<S: Shelf>(&self, shelf: &mut S, number: u64) -> Result<Found, ShelfFault>
        ensures found { (written : Extent → List ℕ) → IfOk result (λ found. FoundAs (IsClean written (S.noted shelf.new)) ((contents written (book_of self.now.chunks)).at number) found) }
        ensures damaged { IfOk result (λ found. found ≡ Found.Damaged → FindsDamage ((book_of self.now.chunks).at number) (S.noted shelf.old) (S.noted shelf.new)) }
        ensures refused { IfErr result (λ fault. IsRefused fault (S.noted shelf.old) (S.noted shelf.new)) }
        ensures goes_on { GoesOn (S.noted shelf.old) (S.noted shelf.new) }
    {
        let Some(chunk) = self.chunks.get(number) else {
            return Ok(Found::Nothing);
        };
        match chunk.place.read(shelf) {
            Ok(bytes) => Ok(Found::There(bytes)),
            Err(ShelfFault::Damaged(_)) => Ok(Found::Damaged),
            Err(fault) => Err(fault),
        }
    }
}
