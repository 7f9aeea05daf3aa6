//! The files of a journal.

use gq_keeper::Place;
use gq_shelf::ShelfPlace;
use std::alloc::{AllocError, Global};

// The folder that the file is in.
fn folder_of(path: &str) -> &str {
    match path.rfind('/') {
        Some(0) => "/",
        Some(end) => &path[..end],
        None => ".",
    }
}

/// The path of a file beside this one: its name with more behind it.
pub(crate) fn beside(alloc: Global, path: &str, ending: &str) -> Result<String, AllocError> {
    let mut longer = String::from_str(alloc, path)?;
    longer.push_str(ending)?;
    Ok(longer)
}

/// Where the journal of this path lies, with the file that takes its place beside it.
pub(crate) fn place_of(alloc: Global, path: &str) -> Result<Place, AllocError> {
    Ok(Place {
        path: String::from_str(alloc, path)?,
        next: beside(alloc, path, ".new")?,
        folder: String::from_str(alloc, folder_of(path))?,
    })
}

/// Where the shelf of the journal of this path lies: in a folder beside it.
pub(crate) fn shelf_of(alloc: Global, path: &str) -> Result<ShelfPlace, AllocError> {
    Ok(ShelfPlace {
        folder: beside(alloc, path, ".shelf")?,
        above: String::from_str(alloc, folder_of(path))?,
    })
}
