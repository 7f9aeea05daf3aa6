//! The growths of shared bytes.
ghost use Rattle.std.specs.Prelude.{◌≡◌, length, IsOk, IfOk};

use crate::OutOfMemory;
use bytes::Bytes;
use std::alloc::Global;

/// Shared bytes, of which a second owner is counted.
pub trait GrowBytes {
    /// A second owner of the same bytes.
    fn share(&self) -> Result<Bytes, OutOfMemory>;
}

impl GrowBytes for Bytes {
    #[inline(always)]
    fn share(&self) -> Result<Bytes, OutOfMemory>
        ensures { IfOk result (λ copy. copy ≡ self.now) }
    {
        match self.clone() {
            Ok(copy) => Ok(copy),
            Err(refused) => Err(OutOfMemory { refused }),
        }
    }
}

/// Shared bytes that are those of the slice.
#[inline(always)]
pub fn copied_bytes(alloc: Global, bytes: &[u8]) -> Result<Bytes, OutOfMemory>
    ensures { IfOk result (λ copy. copy ≡ bytes.now) }
{
    match Bytes::copy_from_slice(alloc, bytes) {
        Ok(copy) => Ok(copy),
        Err(refused) => Err(OutOfMemory { refused }),
    }
}

/// Shared bytes that are those of the vector.
#[inline(always)]
pub fn bytes_of(vec: Vec<u8>) -> Result<Bytes, OutOfMemory>
    ensures made { IfOk result (λ made. made ≡ vec.items) }
    ensures empty { length vec.items ≡ 0 → IsOk result }
{
    match Bytes::from_vec(vec) {
        Ok(made) => Ok(made),
        Err(failed) => Err(OutOfMemory {
            refused: failed.into(),
        }),
    }
}
