//! What a tenant asks, read.

ghost use Rattle.std.specs.Prelude.{◌≡◌, Some, None, IfOk};
ghost use Rattle.gq_lines.specs.Words.{words_after};
ghost use Rattle.gq_chunks.specs.Requests.{chunk_content_of, last_chunk_content, keep_by, get_by, forget_by, list_by, room_by, verb_request_by, chunk_request_by};

use crate::ChunkRequest;
use bytes::Bytes;
use gq_lines::{content, is_end, next_long_word, next_word};
use gq_memory::OutOfMemory;
use gq_quote::read_quoted;
use gq_stock::Run;
use gq_wire::{take_long, take_number};
use std::alloc::Global;

// The content that a word writes.
fn read_content(alloc: Global, word: &[u8]) -> Result<Option<Bytes>, OutOfMemory>
    ensures { IfOk result (λ read. read ≡ chunk_content_of word.now) }
{
    match word {
        [] => content(alloc, word),
        [first, text @ ..] => {
            if *first == b'~' {
                read_quoted(alloc, text)
            } else {
                content(alloc, word)
            }
        }
    }
}

// The content of the next word, which is the last.
pub(crate) fn last_content(alloc: Global, text: &[u8]) -> Result<Option<Bytes>, OutOfMemory>
    ensures { IfOk result (λ read. read ≡ last_chunk_content (words_after text.now)) }
{
    let Some((word, rest)) = next_long_word(text) else {
        return Ok(None);
    };
    if !is_end(rest) {
        return Ok(None);
    }
    read_content(alloc, word)
}

// A content that is to be kept.
fn keep(alloc: Global, text: &[u8]) -> Result<Option<ChunkRequest>, OutOfMemory>
    ensures { IfOk result (λ asked. asked ≡ keep_by (words_after text.now)) }
{
    let Some((session, rest)) = take_number(text) else {
        return Ok(None);
    };
    let Some((number, rest)) = take_long(rest) else {
        return Ok(None);
    };
    match last_content(alloc, rest)? {
        Some(bytes) => Ok(Some(ChunkRequest::Keep {
            session,
            number,
            bytes,
        })),
        None => Ok(None),
    }
}

// A part of a content.
fn get(text: &[u8]) -> Option<ChunkRequest>
    ensures { result ≡ get_by (words_after text.now) }
{
    let (session, rest) = take_number(text)?;
    let (number, rest) = take_long(rest)?;
    let (from, rest) = take_long(rest)?;
    let (length, rest) = take_long(rest)?;
    if !is_end(rest) {
        return None;
    }
    Some(ChunkRequest::Get {
        session,
        number,
        from,
        length,
    })
}

// Numbers that are to be forgotten.
fn forget(text: &[u8]) -> Option<ChunkRequest>
    ensures { result ≡ forget_by (words_after text.now) }
{
    let (session, rest) = take_number(text)?;
    let (floor, rest) = take_long(rest)?;
    let (first, rest) = take_long(rest)?;
    let (last, rest) = take_long(rest)?;
    if last > floor || !is_end(rest) {
        return None;
    }
    Some(ChunkRequest::Forget {
        session,
        floor,
        run: Run { first, last },
    })
}

// The session's numbers.
fn list(text: &[u8]) -> Option<ChunkRequest>
    ensures { result ≡ list_by (words_after text.now) }
{
    let (session, rest) = take_number(text)?;
    let (after, rest) = take_long(rest)?;
    if !is_end(rest) {
        return None;
    }
    Some(ChunkRequest::List { session, after })
}

// The room.
fn room(text: &[u8]) -> Option<ChunkRequest>
    ensures { result ≡ room_by (words_after text.now) }
{
    if is_end(text) {
        Some(ChunkRequest::Room)
    } else {
        None
    }
}

// What is asked by this verb.
fn verb_request(
    alloc: Global,
    verb: &[u8],
    text: &[u8],
) -> Result<Option<ChunkRequest>, OutOfMemory>
    ensures { IfOk result (λ asked. asked ≡ verb_request_by verb.now (words_after text.now)) }
{
    if verb == b"keep".as_slice() {
        keep(alloc, text)
    } else if verb == b"get".as_slice() {
        Ok(get(text))
    } else if verb == b"forget".as_slice() {
        Ok(forget(text))
    } else if verb == b"chunks".as_slice() {
        Ok(list(text))
    } else if verb == b"room".as_slice() {
        Ok(room(text))
    } else {
        Ok(None)
    }
}

/// What the words of a tenant's line ask behind its addresses; none where they have no such form, as where a number to be forgotten is above the floor. Fails where memory
/// is wanting for a content.
pub fn read_chunk_request(alloc: Global, text: &[u8]) -> Result<Option<ChunkRequest>, OutOfMemory>
    ensures { IfOk result (λ asked. asked ≡ chunk_request_by (words_after text.now)) }
{
    let Some((verb, rest)) = next_word(text) else {
        return Ok(None);
    };
    verb_request(alloc, verb, rest)
}
