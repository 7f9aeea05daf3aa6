//! One journal has one process.

use crate::fault::NodeFault;
use crate::place::beside;
use std::alloc::Global;
use std::fs::{File, OpenOptions, TryLockError};
use std::io;
use std::rt::Files;

/// The lock of the journal: as long as it is held, no other process has the journal. The file that is locked lies beside it, and is
/// never renamed or removed.
pub(crate) fn locked<R: Files<File = File>>(
    alloc: Global,
    rt: &R,
    path: &str,
    is_new: bool,
) -> Result<File, NodeFault> {
    let beside = beside(alloc, path, ".lock")?;
    let mut how = OpenOptions::new();
    how.read(true);
    how.append(true);
    how.create(true);
    let file = match how.open(rt, beside.as_str()) {
        Ok(file) => file,
        Err(error) if error.kind() == io::ErrorKind::NotFound && !is_new => {
            return Err(NodeFault::NoJournal);
        }
        Err(_) => return Err(NodeFault::JournalWrite),
    };
    match file.try_lock() {
        Ok(()) => Ok(file),
        Err(TryLockError::WouldBlock) => Err(NodeFault::InUse),
        Err(TryLockError::Error(_)) => Err(NodeFault::JournalWrite),
    }
}
