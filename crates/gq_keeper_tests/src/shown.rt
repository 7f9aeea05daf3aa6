//! What is shown, kept in memory.

ghost use Rattle.std.specs.Prelude.{◌≡◌};

use gq_keeper::{Fault, Log, Output};
use gq_memory::GrowCopies;
use std::alloc::Global;

/// What was shown. After so many calls each one fails.
#[derive(Drop)]
pub struct Shown {
    bytes: Vec<u8>,
    calls: usize,
}

impl Shown {
    /// One that answers so many calls.
    pub fn new(alloc: Global, calls: usize) -> Shown {
        Shown {
            bytes: Vec::new(alloc),
            calls,
        }
    }

    /// What was shown.
    pub fn bytes(&self) -> &[u8] {
        self.bytes.as_slice()
    }
}

impl Output for Shown {
    ghost shown = { λ o. o.bytes.items };

    ghost allows = { λ synced shown. Unit {0} };

    fn show<L: Log>(&mut self, _log: &L, bytes: &[u8]) -> Result<(), Fault> {
        if self.calls == 0 {
            return Err(Fault::Write);
        }
        self.calls -= 1;
        Ok(self.bytes.grow_by(bytes)?)
    }
}
