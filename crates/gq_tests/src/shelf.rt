//! Shelves in files and in memory: what is put is read, damage is told, and a start begins a segment of its own.

use bytes::Bytes;
use gq_shelf::{Extent, FileShelf, MemoryShelf, Place, Shelf, ShelfFault, ShelfPlace};
use std::alloc::Global;
use std::fs;
use std::process::Abort;
use std::test::Fail;

const FOLDER: &str = "a_shelf";

fn place(alloc: Global) -> Result<ShelfPlace, Fail> {
    Ok(ShelfPlace {
        folder: String::from_str(alloc, FOLDER)?,
        above: String::from_str(alloc, ".")?,
    })
}

fn put<S: Shelf>(rt: &impl Abort, shelf: &mut S, content: &str) -> Extent {
    let bytes = content.as_bytes();
    assert!(rt; bytes.len() < 100);
    match shelf.append(bytes) {
        Ok(extent) => extent,
        Err(_) => panic!(rt; "not put"),
    }
}

fn reads<S: Shelf>(rt: &impl Abort, shelf: &mut S, extent: &Extent, content: &str) {
    match shelf.read(extent) {
        Ok(bytes) => assert!(rt; bytes.as_slice() == content.as_bytes()),
        Err(_) => panic!(rt; "not read"),
    }
}

fn is_damaged<S: Shelf>(rt: &impl Abort, shelf: &mut S, extent: &Extent) {
    match shelf.read(extent) {
        Err(ShelfFault::Damaged(segment)) => assert_eq!(rt; segment, extent.segment),
        _ => panic!(rt; "not told as damaged"),
    }
}

fn removes<S: Shelf>(rt: &impl Abort, shelf: &mut S, segment: u32, gone: bool) {
    match shelf.remove(segment) {
        Ok(removed) => assert_eq!(rt; removed, gone),
        Err(_) => panic!(rt; "not removed"),
    }
}

// Three contents lie behind one another, each is read, and what is not there is damage.
fn keeps_contents<S: Shelf>(rt: &impl Abort, shelf: &mut S) -> Extent {
    let first = put(rt, shelf, "hello");
    let empty = put(rt, shelf, "");
    let second = put(rt, shelf, "again");
    assert!(rt; first.segment == 1 && second.segment == 1);
    assert!(rt; first.at == 0 && empty.at == 5 && second.at == 5);
    reads(rt, shelf, &first, "hello");
    reads(rt, shelf, &empty, "");
    assert!(rt; shelf.sync().is_ok());
    reads(rt, shelf, &second, "again");
    let mut wrong = second;
    wrong.sum = first.sum;
    is_damaged(rt, shelf, &wrong);
    wrong = second;
    wrong.at = 4;
    is_damaged(rt, shelf, &wrong);
    wrong = second;
    wrong.len = 6;
    is_damaged(rt, shelf, &wrong);
    wrong = second;
    wrong.segment = 2;
    is_damaged(rt, shelf, &wrong);
    removes(rt, shelf, 1, false);
    first
}

// A shelf that is there: what is put goes into a segment of its own, and those before it can be removed then.
fn goes_on<S: Shelf>(rt: &impl Abort, shelf: &mut S, first: &Extent) {
    reads(rt, shelf, first, "hello");
    removes(rt, shelf, 1, false);
    let third = put(rt, shelf, "third");
    assert!(rt; third.segment == 2 && third.at == 0);
    match shelf.segments() {
        Ok(found) => assert!(rt; found.as_slice() == [1u32].as_slice()),
        Err(_) => panic!(rt; "not listed"),
    }
    assert!(rt; matches!(shelf.length(1), Ok(length) if length > 0));
    assert!(rt; matches!(shelf.length(2), Ok(5)));
    removes(rt, shelf, 1, true);
    removes(rt, shelf, 1, false);
    removes(rt, shelf, 2, false);
    is_damaged(rt, shelf, first);
    reads(rt, shelf, &third, "third");
}

// What is in memory and what is put on a shelf are read alike.
fn places_are_read<S: Shelf>(rt: &impl Abort, shelf: &mut S, bytes: Bytes) {
    let fresh = Place::Fresh(bytes);
    assert!(rt; fresh.extent().is_none() && fresh.len() == 5);
    let Ok(shelved) = Place::put(shelf, b"place") else {
        panic!(rt; "not put")
    };
    assert!(rt; shelved.extent().is_some() && shelved.len() == 5);
    for place in [&fresh, &shelved] {
        match place.read(shelf) {
            Ok(bytes) => assert!(rt; bytes.as_slice() == b"place".as_slice()),
            Err(_) => panic!(rt; "not read"),
        }
    }
}

#[test]
fn contents_in_files_are_read_back(rt: HostRuntime) -> Result<(), Fail> {
    let alloc = rt.alloc();
    let _ = fs::remove_dir_all(&rt, FOLDER);
    let Ok(mut shelf) = FileShelf::open(alloc, &rt, place(alloc)?, true) else {
        panic!(rt; "not opened")
    };
    let first = keeps_contents(&rt, &mut shelf);
    drop(shelf);
    let Ok(mut shelf) = FileShelf::open(alloc, &rt, place(alloc)?, false) else {
        panic!(rt; "not opened")
    };
    goes_on(&rt, &mut shelf, &first);
    drop(shelf);
    assert!(rt; FileShelf::open(alloc, &rt, place(alloc)?, true).is_err());
    let _ = fs::remove_dir_all(&rt, FOLDER);
    Ok(())
}

#[test]
fn contents_in_memory_are_read_back(rt: HostRuntime) -> Result<(), Fail> {
    let alloc = rt.alloc();
    let mut shelf = MemoryShelf::new(alloc);
    keeps_contents(&rt, &mut shelf);
    places_are_read(&rt, &mut shelf, Bytes::copy_from_slice(alloc, b"place")?);
    Ok(())
}
