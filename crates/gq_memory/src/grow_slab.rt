//! The growth of a slab.
ghost use Rattle.std.specs.Prelude.{◌≡◌, ◌<◌, ◌≤◌, ◌^◌, IsOk, IfOk, OnOk};
ghost use Rattle.slab.specs.Slab.{HasRoomFor};

use crate::OutOfMemory;
use slab::Slab;
use std::alloc::AllocError;

/// A slab that grows, and of which places are kept in 32 bits.
pub trait GrowSlab<T> {
    /// Makes room for one more value, and answers the place that it will have. A slab whose places take all 32 bits grows no
    /// further, as one that fills the memory.
    fn make_place(&mut self) -> Result<u32, OutOfMemory>;
}

impl<T> GrowSlab<T> for Slab<T> {
    #[inline(always)]
    fn make_place(&mut self) -> Result<u32, OutOfMemory>
        ensures room { OnOk result (HasRoomFor self.new 1) }
        ensures place { IfOk result (λ place. place ≡ self.old.vacant_key) }
        ensures capacity { self.old.capacity ≤ self.new.capacity }
        ensures rest_kept { self.new ≡ record self.old { capacity = self.new.capacity } }
        ensures succeeds { self.old.vacant_key < 2 ^ 32 → HasRoomFor self.old 1 → IsOk result }
    {
        let Ok(place) = u32::try_from(self.vacant_key()) else {
            return Err(OutOfMemory {
                refused: AllocError,
            });
        };
        match self.reserve(1) {
            Ok(()) => Ok(place),
            Err(refused) => Err(OutOfMemory { refused }),
        }
    }
}
