//! Clients of names by lines of standard input, for the comparison with another client's: each line is answered by one.
//!
//! `new SESSION SESSIONS` makes a client, and so does `knows SESSION JOURNAL TAG TEXT ..`, with `unknown` for a journal that it does not know.
//! `enter C`, `look C own`, `look C others`, `forget C`, `listed C TAG ..` with `none` for a page that has to be read, `read C TAG TEXT`,
//! `announce C TEXT` and `written C TAG` make of client C another one, C stays. Each is answered by the number of the new client and what it
//! asks for and knows. `change C LEAST NAME SAID BESIDES ..`, with `*` for no name, is answered by the text of the journal, as if C had looked.
//! `shown C NAME` by the greatest line of a name. `text TEXT` by the text of the page that a text is. A TAG is `NUMBER.SESSION`; texts, names and
//! what is said are in hexadecimal, `-` where they are empty. What does not fit is answered by `no` and why.
#![tactic(auto)]

mod telling;
mod words;

use crate::telling::{put_client, put_page_text, put_shown, put_wrong};
use crate::words::{
    byte_in, bytes_in, change_in, client_in, known_in, number_in, page_in, seen_in, tag_in,
    tags_in, words_of,
};
use gq_client::{Client, Doing, Fault};
use gq_lines::put_spaced_number;
use gq_memory::{GrowVec, OutOfMemory};
use std::alloc::Global;
use std::io;
use std::io::{BufRead, BufReader, Write};

/// Why a line is answered by no.
#[derive(Drop)]
pub enum Wrong {
    /// It has no such form, or names no client.
    Bad,
    Fault(Fault),
}

impl From<OutOfMemory> for Wrong {
    fn from(refused: OutOfMemory) -> Wrong {
        Wrong::Fault(Fault::Memory(refused))
    }
}

impl From<Fault> for Wrong {
    fn from(fault: Fault) -> Wrong {
        Wrong::Fault(fault)
    }
}

// The client of a session that knows its journal, or does not, and these pages.
fn knowing(alloc: Global, words: &[&[u8]]) -> Result<Client, Wrong> {
    let [session, journal, pages @ ..] = words else {
        return Err(Wrong::Bad);
    };
    let journal = if *journal == b"unknown".as_slice() {
        None
    } else {
        Some(page_in(alloc, journal)?)
    };
    let seen = seen_in(alloc, pages)?;
    if seen.len() > 255 {
        return Err(Wrong::Bad);
    }
    Ok(Client {
        session: byte_in(session)?,
        seen,
        journal,
        doing: Doing::Knows,
    })
}

// Does with a client what a line says.
fn step(alloc: Global, client: &mut Client, verb: &[u8], words: &[&[u8]]) -> Result<(), Wrong> {
    match (verb, words) {
        (b"enter", []) => client.enter(),
        (b"forget", []) => client.forget(),
        (b"look", [whose]) => client.look(*whose == b"own".as_slice()),
        (b"listed", tags) => client.listed(alloc, tags_in(alloc, tags)?.as_slice())?,
        (b"read", [tag, text]) => client.read(alloc, known_in(alloc, tag, text)?)?,
        (b"announce", [text]) => client.announce(page_in(alloc, text)?),
        (b"written", [tag]) => client.written(alloc, tag_in(tag)?)?,
        _ => return Err(Wrong::Bad),
    }
    Ok(())
}

// The client that a line makes.
fn made(alloc: Global, clients: &[Client], verb: &[u8], words: &[&[u8]]) -> Result<Client, Wrong> {
    match (verb, words) {
        (b"new", [session, sessions]) => {
            Ok(Client::new(alloc, byte_in(session)?, byte_in(sessions)?)?)
        }
        (b"knows", words) => knowing(alloc, words),
        (verb, [client, words @ ..]) => {
            let mut client = client_in(clients, client)?.share(alloc)?;
            step(alloc, &mut client, verb, words)?;
            Ok(client)
        }
        _ => Err(Wrong::Bad),
    }
}

// Appends the journal of a change.
fn put_change(
    out: &mut Vec<u8>,
    alloc: Global,
    client: &Client,
    words: &[&[u8]],
) -> Result<(), Wrong> {
    let [least, name, said, besides @ ..] = words else {
        return Err(Wrong::Bad);
    };
    let mut client = client.share(alloc)?;
    client.doing = Doing::Looked(false);
    let change = change_in(alloc, name, said, besides)?;
    let journal = client.change(alloc, number_in(least)?, &change)?;
    Ok(put_page_text(out, alloc, &journal)?)
}

// Appends the answer to a line.
fn put_answer(
    out: &mut Vec<u8>,
    alloc: Global,
    clients: &mut Vec<Client>,
    line: &[u8],
) -> Result<(), Wrong> {
    let words = words_of(alloc, line)?;
    match words.as_slice() {
        [b"text", text] => Ok(put_page_text(out, alloc, &page_in(alloc, text)?)?),
        [b"change", client, words @ ..] => {
            put_change(out, alloc, client_in(clients.as_slice(), client)?, words)
        }
        [b"shown", client, name] => {
            let client = client_in(clients.as_slice(), client)?;
            Ok(put_shown(out, client, bytes_in(alloc, name)?.as_slice())?)
        }
        [verb, words @ ..] => {
            let client = made(alloc, clients.as_slice(), verb, words)?;
            put_spaced_number(out, clients.len() as u64)?;
            put_client(out, alloc, &client)?;
            Ok(clients.grow(client)?)
        }
        [] => Err(Wrong::Bad),
    }
}

// The answer to a line, with its newline.
fn answer(alloc: Global, clients: &mut Vec<Client>, line: &[u8]) -> Result<Vec<u8>, OutOfMemory> {
    let mut out = Vec::new(alloc);
    if let Err(wrong) = put_answer(&mut out, alloc, clients, line) {
        out.clear();
        put_wrong(&mut out, wrong)?;
    }
    out.grow(b'\n')?;
    Ok(out)
}

fn main(rt: HostRuntime) -> io::Result<()> {
    let alloc = rt.alloc();
    let mut clients = Vec::new(alloc);
    let mut to = io::writer(&rt);
    for line in BufReader::new(alloc, rt.reader())?.lines(alloc) {
        match answer(alloc, &mut clients, line?.as_bytes()) {
            Ok(text) => to.write_all(text.as_slice())?,
            Err(_) => return Err(io::Error::from(io::ErrorKind::OutOfMemory)),
        }
        to.flush()?;
    }
    Ok(())
}
