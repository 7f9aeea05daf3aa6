//! What the words of a line say.

ghost use Rattle.std.specs.Prelude.{length};

use crate::Wrong;
use bytes::Bytes;
use gq_client::{Change, Client, Known, NewLine};
use gq_lines::{content, first_word, long_number, next_word};
use gq_memory::{GrowVec, OutOfMemory};
use gq_page::{Page, read_page};
use gq_tag::Tag;
use std::alloc::Global;

/// The words of a line.
pub fn words_of(alloc: Global, line: &[u8]) -> Result<Vec<&[u8]>, OutOfMemory> {
    let (first, rest) = first_word(line);
    let mut words = Vec::new(alloc);
    words.grow(first)?;
    let mut rest = rest;
    while let Some((word, after)) = next_word(rest) {
        words.grow(word)?;
        rest = after;
    }
    Ok(words)
}

/// The number that a word writes.
pub fn number_in(word: &[u8]) -> Result<u64, Wrong> {
    match long_number(word) {
        Some(number) => Ok(number),
        None => Err(Wrong::Bad),
    }
}

/// The same, of one below 256.
pub fn byte_in(word: &[u8]) -> Result<u8, Wrong> {
    match u8::try_from(number_in(word)?) {
        Ok(byte) => Ok(byte),
        Err(_) => Err(Wrong::Bad),
    }
}

/// The tag that a word writes.
pub fn tag_in(word: &[u8]) -> Result<Tag, Wrong> {
    for (i, c) in word.iter().enumerate() {
        if *c == b'.' {
            return Ok(Tag {
                number: number_in(&word[..i])?,
                session: byte_in(&word[i + 1..])?,
            });
        }
    }
    Err(Wrong::Bad)
}

/// The tags that words write, none for `none`.
pub fn tags_in(alloc: Global, words: &[&[u8]]) -> Result<Vec<Option<Tag>>, Wrong> {
    let mut tags = Vec::new(alloc);
    for word in words {
        let tag = if *word == b"none".as_slice() {
            None
        } else {
            Some(tag_in(word)?)
        };
        tags.grow(tag)?;
    }
    Ok(tags)
}

/// The bytes that a word writes.
pub fn bytes_in(alloc: Global, word: &[u8]) -> Result<Bytes, Wrong> {
    match content(alloc, word)? {
        Some(bytes) => Ok(bytes),
        None => Err(Wrong::Bad),
    }
}

/// The page whose text a word writes.
pub fn page_in(alloc: Global, word: &[u8]) -> Result<Page, Wrong> {
    match read_page(alloc, bytes_in(alloc, word)?.as_slice())? {
        Some(page) => Ok(page),
        None => Err(Wrong::Bad),
    }
}

/// The page, with its tag.
pub fn known_in(alloc: Global, tag: &[u8], text: &[u8]) -> Result<Known, Wrong> {
    Ok(Known {
        tag: tag_in(tag)?,
        page: page_in(alloc, text)?,
    })
}

/// Pages, each by the word of its tag and that of its text.
pub fn seen_in(alloc: Global, words: &[&[u8]]) -> Result<Vec<Known>, Wrong> {
    let mut seen = Vec::new(alloc);
    let mut rest = words;
    while let [tag, text, after @ ..] = rest {
        seen.grow(known_in(alloc, tag, text)?)?;
        rest = after;
    }
    if rest.is_empty() {
        Ok(seen)
    } else {
        Err(Wrong::Bad)
    }
}

// What is to be said of a name; nothing where that is `*`.
fn line_in(alloc: Global, name: &[u8], said: &[u8]) -> Result<Option<NewLine>, Wrong> {
    if name == b"*".as_slice() {
        return Ok(None);
    }
    Ok(Some(NewLine {
        name: bytes_in(alloc, name)?,
        said: bytes_in(alloc, said)?,
    }))
}

/// The change of a name, or of none, with which lines of these names go besides.
pub fn change_in(
    alloc: Global,
    name: &[u8],
    said: &[u8],
    names: &[&[u8]],
) -> Result<Change, Wrong> {
    let mut besides = Vec::new(alloc);
    for each in names {
        besides.grow(bytes_in(alloc, each)?)?;
    }
    Ok(Change {
        line: line_in(alloc, name, said)?,
        besides,
    })
}

/// The client of that number.
pub fn client_in<'a>(clients: &'a [Client], word: &[u8]) -> Result<&'a Client, Wrong> {
    let Ok(place) = usize::try_from(number_in(word)?) else {
        return Err(Wrong::Bad);
    };
    match clients.get(place) {
        Some(client) => Ok(client),
        None => Err(Wrong::Bad),
    }
}
