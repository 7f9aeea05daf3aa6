//! A shelf in files that does what lines ask.

use crate::Fault;
use gq_lines::{first_line, first_word, long_number, next_word, number};
use gq_memory::{GrowCopies, GrowVec, OutOfMemory};
use gq_shelf::{Extent, FileShelf, OpenFault, Shelf, ShelfFault, ShelfPlace};
use std::alloc::Global;
use std::fs::File;
use std::io;
use std::io::Write;
use std::rt::Files;

fn put_number(out: &mut Vec<u8>, number: u64) -> Result<(), OutOfMemory> {
    out.grow(b' ')?;
    out.grow_by(itoa::Buffer::new().format(number).as_bytes())
}

fn put_extent(out: &mut Vec<u8>, extent: &Extent) -> Result<(), OutOfMemory> {
    out.grow_by(b"at")?;
    put_number(out, u64::from(extent.segment))?;
    put_number(out, extent.at)?;
    put_number(out, u64::from(extent.len))?;
    put_number(out, extent.sum)
}

fn put_fault(out: &mut Vec<u8>, fault: ShelfFault) -> Result<(), OutOfMemory> {
    match fault {
        ShelfFault::Memory(_) => out.grow_by(b"fault memory"),
        ShelfFault::Read => out.grow_by(b"fault read"),
        ShelfFault::Write => out.grow_by(b"fault write"),
        ShelfFault::Full => out.grow_by(b"fault full"),
        ShelfFault::Damaged(segment) => {
            out.grow_by(b"damaged")?;
            put_number(out, u64::from(segment))
        }
    }
}

// The extent that four words tell.
fn extent_of(words: &[u8]) -> Option<Extent> {
    let (segment, rest) = first_word(words);
    let (at, rest) = next_word(rest)?;
    let (len, rest) = next_word(rest)?;
    let (sum, _) = next_word(rest)?;
    Some(Extent {
        segment: number(segment)?,
        at: long_number(at)?,
        len: number(len)?,
        sum: long_number(sum)?,
    })
}

fn append<S: Shelf>(shelf: &mut S, content: &[u8], out: &mut Vec<u8>) -> Result<(), Fault> {
    if content.len() > u32::MAX as usize {
        return Err(Fault::Usage);
    }
    match shelf.append(content) {
        Ok(extent) => put_extent(out, &extent)?,
        Err(fault) => put_fault(out, fault)?,
    }
    Ok(())
}

fn sync<S: Shelf>(shelf: &mut S, out: &mut Vec<u8>) -> Result<(), Fault> {
    match shelf.sync() {
        Ok(()) => out.grow_by(b"synced")?,
        Err(fault) => put_fault(out, fault)?,
    }
    Ok(())
}

fn read<S: Shelf>(shelf: &mut S, words: &[u8], out: &mut Vec<u8>) -> Result<(), Fault> {
    let Some(extent) = extent_of(words) else {
        return Err(Fault::Usage);
    };
    match shelf.read(&extent) {
        Ok(content) => {
            out.grow_by(b"read ")?;
            out.grow_by(content.as_slice())?;
        }
        Err(fault) => put_fault(out, fault)?,
    }
    Ok(())
}

fn remove<S: Shelf>(shelf: &mut S, word: &[u8], out: &mut Vec<u8>) -> Result<(), Fault> {
    let Some(segment) = number(word) else {
        return Err(Fault::Usage);
    };
    match shelf.remove(segment) {
        Ok(true) => out.grow_by(b"removed")?,
        Ok(false) => out.grow_by(b"stays")?,
        Err(fault) => put_fault(out, fault)?,
    }
    Ok(())
}

// Does what a line asks, and appends what is told.
fn answer<S: Shelf>(shelf: &mut S, line: &[u8], out: &mut Vec<u8>) -> Result<(), Fault> {
    let (verb, rest) = match first_word(line) {
        (verb, [_, rest @ ..]) => (verb, rest),
        (verb, []) => (verb, line),
    };
    if verb == b"append".as_slice() {
        append(shelf, rest, out)?;
    } else if verb == b"sync".as_slice() {
        sync(shelf, out)?;
    } else if verb == b"read".as_slice() {
        read(shelf, rest, out)?;
    } else if verb == b"remove".as_slice() {
        remove(shelf, rest, out)?;
    } else {
        return Err(Fault::Usage);
    }
    out.grow(b'\n')?;
    Ok(())
}

// Does what the lines ask, one after another, and tells each as it is done.
fn answer_all<S: Shelf, W: Write>(
    alloc: Global,
    shelf: &mut S,
    lines: &[u8],
    writer: &mut W,
) -> Result<(), Fault> {
    let mut rest = lines;
    while !rest.is_empty() {
        let (line, after) = first_line(rest);
        let mut out = Vec::new(alloc);
        answer(shelf, line, &mut out)?;
        writer.write_all(out.as_slice())?;
        rest = after;
    }
    Ok(())
}

// The shelf of this folder.
fn opened<R: Files<File = File> + Drop>(
    alloc: Global,
    rt: R,
    folder: &str,
    is_new: bool,
) -> Result<FileShelf<R>, Fault> {
    let place = ShelfPlace {
        folder: String::from_str(alloc, folder)?,
        above: String::from_str(alloc, ".")?,
    };
    match FileShelf::open(alloc, rt, place, is_new) {
        Ok(shelf) => Ok(shelf),
        Err(OpenFault::Memory) => Err(Fault::Memory),
        Err(OpenFault::Read) => Err(Fault::Stream),
        Err(OpenFault::There) => Err(Fault::Other),
    }
}

/// Does what the lines ask with the shelf of this folder.
pub fn make(rt: &HostRuntime, folder: &str, is_new: bool, lines: &[u8]) -> Result<(), Fault> {
    let mut shelf = opened(rt.alloc(), rt, folder, is_new)?;
    answer_all(rt.alloc(), &mut shelf, lines, &mut io::writer(rt))
}
