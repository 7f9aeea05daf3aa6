//! What is told of clients, as words, each behind a space.

use crate::Wrong;
use gq_client::{Client, Fault, Known, Request, greatest_shown};
use gq_lines::{put_content, put_number, put_spaced_number};
use gq_memory::{GrowCopies, GrowVec, OutOfMemory};
use gq_page::{Page, put_page};
use gq_tag::Tag;
use std::alloc::Global;

/// Appends the text of a page.
pub fn put_page_text(out: &mut Vec<u8>, alloc: Global, page: &Page) -> Result<(), OutOfMemory> {
    let mut text = Vec::new(alloc);
    put_page(&mut text, page)?;
    put_content(out, text.as_slice())
}

// Appends a tag.
fn put_tag(out: &mut Vec<u8>, tag: Tag) -> Result<(), OutOfMemory> {
    put_spaced_number(out, tag.number)?;
    out.grow(b'.')?;
    put_number(out, u64::from(tag.session))
}

// Appends what a client asks for.
fn put_request(
    out: &mut Vec<u8>,
    alloc: Global,
    request: Option<Request>,
) -> Result<(), OutOfMemory> {
    match request {
        None => out.grow_by(b" nothing"),
        Some(Request::ReadJournal) => out.grow_by(b" journal"),
        Some(Request::ListPages) => out.grow_by(b" list"),
        Some(Request::ReadPage(session)) => {
            out.grow_by(b" page")?;
            put_spaced_number(out, u64::from(session))
        }
        Some(Request::WriteJournal(page)) => {
            out.grow_by(b" announce")?;
            put_page_text(out, alloc, page)
        }
        Some(Request::WritePage(page)) => {
            out.grow_by(b" carry")?;
            put_page_text(out, alloc, page)
        }
    }
}

// Appends the pages that were seen, each with its tag.
fn put_seen(out: &mut Vec<u8>, alloc: Global, seen: &[Known]) -> Result<(), OutOfMemory> {
    for known in seen {
        put_tag(out, known.tag)?;
        put_page_text(out, alloc, &known.page)?;
    }
    Ok(())
}

/// Appends what a client asks for, the pages that it saw, and its journal.
pub fn put_client(out: &mut Vec<u8>, alloc: Global, client: &Client) -> Result<(), OutOfMemory> {
    put_request(out, alloc, client.request())?;
    put_seen(out, alloc, client.seen.as_slice())?;
    match &client.journal {
        Some(journal) => put_page_text(out, alloc, journal),
        None => out.grow_by(b" unknown"),
    }
}

/// Appends the version of the greatest line of a name, and what it says.
pub fn put_shown(out: &mut Vec<u8>, client: &Client, name: &[u8]) -> Result<(), OutOfMemory> {
    match greatest_shown(client.seen.as_slice(), 0, None, name) {
        Some((version, line)) => {
            put_tag(out, version)?;
            out.grow(b' ')?;
            out.grow_by(line.said.as_slice())
        }
        None => out.grow_by(b" nothing"),
    }
}

/// Appends why a line does not fit; where there is too little memory that is the error.
pub fn put_wrong(out: &mut Vec<u8>, wrong: Wrong) -> Result<(), OutOfMemory> {
    match wrong {
        Wrong::Bad => out.grow_by(b" no bad"),
        Wrong::Fault(Fault::Older(session)) => {
            out.grow_by(b" no older")?;
            put_spaced_number(out, u64::from(session))
        }
        Wrong::Fault(Fault::NotNow) => out.grow_by(b" no now"),
        Wrong::Fault(Fault::NoNumber) => out.grow_by(b" no number"),
        Wrong::Fault(Fault::Memory(refused)) => Err(refused),
    }
}
