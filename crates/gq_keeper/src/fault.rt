//! Why a machine ends.

ghost use Rattle.std.specs.Prelude.{◌≡◌};
ghost use Rattle.gq_keeper.specs.declared.fault.Fault.TheVariants.{Memory};

use gq_memory::OutOfMemory;

/// Why a machine ends.
#[derive(Drop)]
pub enum Fault {
    /// Memory was wanting.
    Memory(OutOfMemory),
    /// The input failed.
    Read,
    /// The output failed.
    Write,
    /// The journal could not be read, or what its facts name elsewhere.
    JournalRead,
    /// The journal could not be written or synced, or what its facts name elsewhere.
    JournalWrite,
    /// No batch has a greater number.
    Full,
}

impl From<OutOfMemory> for Fault {
    ghost from_gives = { λ m e. e ≡ Memory m };

    fn from(refused: OutOfMemory) -> Fault {
        Fault::Memory(refused)
    }
}
