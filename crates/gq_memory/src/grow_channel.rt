//! The growths of channels.
use crate::OutOfMemory;
use crossbeam_channel::{Receiver, SendError, Sender, bounded, unbounded};
use std::alloc::{AllocError, Global};
use std::sync::Wait;

/// A channel for any number of values.
pub fn channel<T: Drop>(alloc: Global) -> Result<(Sender<T>, Receiver<T>), OutOfMemory> {
    match unbounded(alloc) {
        Ok(ends) => Ok(ends),
        Err(refused) => Err(OutOfMemory { refused }),
    }
}

/// A channel for one value at a time.
pub fn channel_of_one<T: Drop>(alloc: Global) -> Result<(Sender<T>, Receiver<T>), OutOfMemory> {
    match bounded(alloc, 1) {
        Ok(ends) => Ok(ends),
        Err(refused) => Err(OutOfMemory { refused }),
    }
}

/// One more end to send by.
pub fn sender_copied<T: Drop>(end: &Sender<T>) -> Result<Sender<T>, OutOfMemory> {
    match end.clone() {
        Ok(copy) => Ok(copy),
        Err(refused) => Err(OutOfMemory { refused }),
    }
}

/// Sends the value. Where nobody receives any more it is dropped.
pub fn send<T: Drop, R: Wait>(rt: &R, to: &Sender<T>, value: T) -> Result<(), OutOfMemory> {
    match to.send(rt, value) {
        Err(SendError::OutOfMemory(_)) => Err(OutOfMemory {
            refused: AllocError,
        }),
        _ => Ok(()),
    }
}
