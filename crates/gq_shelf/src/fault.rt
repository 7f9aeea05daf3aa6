//! Why a shelf gives no content, or takes none.

use gq_memory::OutOfMemory;

/// Why a shelf gives no content, or takes none.
#[derive(Debug, Drop)]
pub enum ShelfFault {
    /// Memory was wanting.
    Memory(OutOfMemory),
    /// A segment could not be read.
    Read,
    /// A segment could not be written, synced, begun or removed, or an earlier one could not.
    Write,
    /// There is no space for a content. The shelf takes others once there is.
    Full,
    /// The segment of this number is damaged: it is not there, ends too early, or has other bytes than were written.
    Damaged(u32),
}

impl From<OutOfMemory> for ShelfFault {
    ghost use Rattle.std.specs.Prelude.{◌≡◌};
    ghost use Rattle.gq_shelf.specs.declared.fault.ShelfFault.TheVariants.{Memory};

    ghost from_gives = { λ refused fault. fault ≡ Memory refused };

    fn from(refused: OutOfMemory) -> ShelfFault {
        ShelfFault::Memory(refused)
    }
}
