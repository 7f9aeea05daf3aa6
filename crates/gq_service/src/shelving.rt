//! The shelf of a journal.

ghost use Rattle.std.specs.Prelude.{ℕ, List, IfErr};
ghost use Rattle.gq_service.specs.Serving.{TellsForm, TellsDamage, TellsNoOther};

use crate::fault::NodeFault;
use crate::place::shelf_of;
use gq_keeper::last_plan;
use gq_memory::OutOfMemory;
use gq_setup::read_node_plan;
use gq_shelf::{FileShelf, OpenFault, ShelfPlace};
use std::alloc::Global;
use std::fs::{DirBuilder, File, OpenFile};
use std::os::unix::fs::DirBuilderExt;
use std::rt::Files;
use std::{fs, io};

/// Whether the last plan of the journal gave some tenant room for chunks. Then a shelf was made beside it.
pub(crate) fn had_chunks(alloc: Global, journal: &[u8]) -> Result<bool, OutOfMemory> {
    let last = last_plan(alloc, journal)?;
    match read_node_plan(alloc, last)? {
        Some(setup) => Ok(setup.has_chunks()),
        None => Ok(false),
    }
}

// Whether there is something of this path.
fn is_there<R: Files>(rt: &R, path: &str) -> io::Result<bool> {
    match fs::metadata(rt, path) {
        Ok(_) => Ok(true),
        Err(error) if error.kind() == io::ErrorKind::NotFound => Ok(false),
        Err(error) => Err(error),
    }
}

// Makes the folder, for its owner alone, where there is none. A crash leaves its name.
fn make_folder<R: Files>(rt: &R, place: &ShelfPlace) -> io::Result<()> {
    let mut how = DirBuilder::new();
    how.mode(0o700);
    match how.create(rt, place.folder.as_str()) {
        Ok(()) => {}
        Err(error) if error.kind() == io::ErrorKind::AlreadyExists => {}
        Err(error) => return Err(error),
    }
    fs::open(rt, place.above.as_str())?.sync_all()
}

/// The shelf of the journal of this path. Where the journal's last plan gave room for chunks it has to be there. Else it is begun, and no
/// content may be there: its folder is made, if there is none.
pub(crate) fn find_shelf<R: Files<File = File> + Drop>(
    alloc: Global,
    rt: R,
    path: &str,
    had_chunks: bool,
) -> Result<FileShelf<R>, NodeFault>
    ensures form { IfErr result (λ fault. (journal : List ℕ) → TellsForm journal fault) }
    ensures damaged { IfErr result (λ fault. (journal : List ℕ) → TellsDamage journal fault) }
    ensures another { IfErr result TellsNoOther }
{
    let place = shelf_of(alloc, path)?;
    match is_there(&rt, place.folder.as_str()) {
        Ok(true) => {}
        Ok(false) if had_chunks => return Err(NodeFault::NoShelf),
        Ok(false) => {}
        Err(_) => return Err(NodeFault::ShelfRead),
    }
    if !had_chunks && make_folder(&rt, &place).is_err() {
        return Err(NodeFault::ShelfWrite);
    }
    match FileShelf::open(alloc, rt, place, !had_chunks) {
        Ok(shelf) => Ok(shelf),
        Err(OpenFault::Memory) => Err(NodeFault::Memory),
        Err(OpenFault::Read) => Err(NodeFault::ShelfRead),
        Err(OpenFault::There) => Err(NodeFault::Shelf),
    }
}
