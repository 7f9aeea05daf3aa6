//! A box.
ghost use Rattle.std.specs.Prelude.{◌≡◌, IfOk};

use crate::OutOfMemory;
use std::alloc::Global;

/// The value in a box.
#[inline(always)]
pub fn boxed<T: Drop>(alloc: Global, value: T) -> Result<Box<T>, OutOfMemory>
    ensures { IfOk result (λ made. made.value ≡ value) }
{
    match Box::new(alloc, value) {
        Ok(made) => Ok(made),
        Err(failed) => Err(OutOfMemory {
            refused: failed.into(),
        }),
    }
}
