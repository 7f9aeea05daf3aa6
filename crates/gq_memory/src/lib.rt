//! Want of memory, and the few functions that ask for memory.
//!
//! An [`OutOfMemory`] is made here alone, by a function of which the library refused the growth. Nothing outside this crate
//! makes one: its field is private, it is no `Clone`, no `Copy` and no `Default`. So whoever answers one was refused a growth.
#![tactic(auto)]

mod grow_box;
mod grow_bytes;
mod grow_channel;
mod grow_index_set;
mod grow_map;
mod grow_slab;
mod grow_vec;

use std::alloc::AllocError;
use std::marker::Model;
use thiserror::Error;

/// A growth was refused.
#[derive(Debug, Drop, Error)]
#[error("out of memory")]
pub struct OutOfMemory {
    refused: AllocError,
}

// A contract sees nothing in it: all are alike.
impl Model for OutOfMemory {
    ghost Value = { Unit {0} };

    ghost view = { λ _. tt };
}

impl OutOfMemory {
    /// The same want of memory, told once more.
    pub fn again(&self) -> OutOfMemory {
        OutOfMemory {
            refused: self.refused,
        }
    }
}

pub use grow_box::boxed;
pub use grow_bytes::{GrowBytes, bytes_of, copied_bytes};
pub use grow_channel::{channel, channel_of_one, send, sender_copied};
pub use grow_index_set::{GrowIndexSet, set_copied};
pub use grow_map::GrowMap;
pub use grow_slab::GrowSlab;
pub use grow_vec::{
    GrowCopies, GrowLengths, GrowPlaces, GrowVec, RoomInVec, SortVec, filled, room_for,
    slice_copied,
};
