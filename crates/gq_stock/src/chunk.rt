//! A chunk, as a server has it.

ghost use Rattle.std.specs.Prelude.{◌≡◌, ◌<◌, ◌^◌};
ghost use Rattle.gq_shelf.specs.Places.{long_at};

use crate::CHUNK_CHARGE;
use gq_ledger::Long;
use gq_shelf::Place;

/// A chunk, as a server has it. It has fewer than 2^32 bytes, so it can be put on a shelf.
#[derive(Drop)]
pub struct Chunk {
    /// Where its content is.
    pub place: Place,
    /// Whether it is told: it was given, or was kept while the server lacked nothing.
    pub is_sure: bool,
    ghost short: { long_at place < 2 ^ 32 },
}

// A ledger counts what a chunk is charged, and what of it is in memory.
impl Long for Chunk {
    ghost use Rattle.gq_shelf.specs.Places.{long_at};
    ghost use Rattle.gq_stock.specs.Charge.{charge_of};
    ghost use Rattle.gq_stock.specs.Memory.{fresh_at};
    ghost use Rattle.gq_stock.specs.Within.{fresh_within};

    ghost length = { λ chunk. charge_of (long_at chunk.place) };

    ghost fresh_length = { λ chunk. fresh_at chunk.place };

    ghost within = { λ chunk. fresh_within chunk.place };

    fn len(&self) -> u64 {
        self.place.len() as u64 + CHUNK_CHARGE
    }

    fn fresh_len(&self) -> u64 {
        match &self.place {
            Place::Fresh(bytes) => bytes.len() as u64,
            Place::Shelved(_) => 0,
        }
    }
}
