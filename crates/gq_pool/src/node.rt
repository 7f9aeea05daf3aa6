//! The memory of a block with the pointer that links it, and where it lies.
ghost use Rattle.std.specs.Prelude.{◌≡◌};

use gq_tag::BLOCK_BYTES;
use std::alloc::AllocError;
use std::marker::{Send, Sync};

/// The bytes of a block, with the pointer to the node after it. Its owner is a `Block`, or a list.
#[derive(Drop)]
pub struct Node {
    pub(crate) next: *mut Node,
    pub(crate) bytes: [u8; BLOCK_BYTES],
}

/// Where a node lies. It owns nothing.
pub struct Link {
    pub(crate) ptr: *mut Node,
}

impl Clone for Link {
    ghost is_clone = { λ x y. y ≡ x };

    ghost is_infallible = { λ _. Unit {0} };

    fn clone(&self) -> Result<Link, AllocError> {
        Ok(*self)
    }
}

impl Copy for Link {}

unsafe impl Send for Link {}

unsafe impl Sync for Link {}

unsafe impl Send for Node {}

unsafe impl Sync for Node {}
