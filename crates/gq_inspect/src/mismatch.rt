//! Why records are no run.

ghost use Rattle.std.specs.Prelude.{◌≡◌};

use gq_memory::OutOfMemory;
use gq_world::Ended;
use thiserror::Error;

/// Why records are no run of the core. The shape is tested first, then the stamps of the lists; the others tell of the first
/// step, in order of stamp and place, that differs.
#[derive(Debug, Drop, Error)]
pub enum Mismatch {
    /// There is not one list for each server and each session of the plan, or a volume is refused.
    #[error("mismatch shape")]
    Shape,
    /// The stamps of a list don't rise, two of the board's and the sessions' are equal, a server's stops and returns are not
    /// the board's, or a change is refused.
    #[error("mismatch stamp")]
    Stamp,
    /// The letter that the server served at that place of its journal was not sent before, or not so, or not to it.
    #[error("mismatch receipt {server} {place}")]
    Receipt { server: usize, place: usize },
    /// The server's reply at that place of its journal is not the one that it sends.
    #[error("mismatch reply {server} {place}")]
    Reply { server: usize, place: usize },
    /// What the tenant's session did at that place of its list, or what was said to it, is not so.
    #[error("mismatch answer {tenant} {session} {at}")]
    Answer { tenant: u8, session: u8, at: usize },
    /// Memory is wanting.
    #[error("out of memory")]
    Memory(OutOfMemory),
}

impl From<OutOfMemory> for Mismatch {
    ghost use Rattle.std.specs.Prelude.{◌≡◌};
    ghost use Rattle.gq_inspect.specs.declared.mismatch.Mismatch.TheVariants.{Memory};

    ghost from_gives = { λ refused e. e ≡ Memory refused };

    fn from(refused: OutOfMemory) -> Mismatch {
        Mismatch::Memory(refused)
    }
}

impl From<Ended> for Mismatch {
    ghost use Rattle.std.specs.Prelude.{◌≡◌};
    ghost use Rattle.gq_inspect.specs.declared.mismatch.Mismatch.TheVariants.{Memory};

    ghost from_gives = { λ _ e. e ≡ Memory tt };

    fn from(ended: Ended) -> Mismatch {
        let Ended(refused) = ended;
        Mismatch::Memory(refused)
    }
}
