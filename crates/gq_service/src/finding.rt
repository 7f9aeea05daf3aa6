//! The plan's file, and the journal's.
//!
//! A journal is written anew at a start only where the word `--anew` says so: it is as long as all contents, and is synced
//! before the node answers. It is a word of the start and no line, so no tenant and no carrier can have it done. Damage comes
//! before what a journal says, since what a damaged journal says of itself can't be believed. Where two journals of one grid
//! were mixed up, the node is named; where they are of two grids, what their plans differ in.

use crate::fault::NodeFault;
use crate::place::place_of;
use gq_keeper::FileDisk;
use gq_setup::{Setup, read_setup};
use std::alloc::Global;
use std::io::Read;
use std::rt::Files;
use std::{fs, io};

// The bytes of the file.
fn read_file<R: Files>(alloc: Global, rt: &R, path: &str) -> io::Result<Vec<u8>> {
    let mut file = fs::open(rt, path)?;
    let mut bytes = Vec::new(alloc);
    file.read_to_end(&mut bytes)?;
    Ok(bytes)
}

/// The setup that the plan's file tells.
pub(crate) fn read_plan_file<R: Files>(
    alloc: Global,
    rt: &R,
    path: &str,
) -> Result<Setup, NodeFault> {
    let text = match read_file(alloc, rt, path) {
        Ok(text) => text,
        Err(error) if error.kind() == io::ErrorKind::OutOfMemory => return Err(NodeFault::Memory),
        Err(_) => return Err(NodeFault::PlanRead),
    };
    match read_setup(alloc, text.as_slice()) {
        Ok(setup) => Ok(setup),
        Err(fault) => Err(NodeFault::Plan(fault)),
    }
}

/// The journal of this path: the one that is there, or where one is to be begun its place, in which there is none.
pub(crate) fn find_journal<'x, R: Files>(
    alloc: Global,
    rt: &'x R,
    path: &str,
    is_new: bool,
) -> Result<FileDisk<&'x R>, NodeFault> {
    let place = place_of(alloc, path)?;
    if is_new {
        return match FileDisk::absent(alloc, rt, place) {
            Ok(disk) => Ok(disk),
            Err(error) if error.kind() == io::ErrorKind::AlreadyExists => Err(NodeFault::Journal),
            Err(_) => Err(NodeFault::JournalRead),
        };
    }
    match FileDisk::open(alloc, rt, place) {
        Ok(disk) => Ok(disk),
        Err(error) if error.kind() == io::ErrorKind::NotFound => Err(NodeFault::NoJournal),
        Err(error) if error.kind() == io::ErrorKind::OutOfMemory => Err(NodeFault::Memory),
        Err(_) => Err(NodeFault::JournalRead),
    }
}
