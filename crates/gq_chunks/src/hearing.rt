//! What nodes of a column say to each other, read.

ghost use Rattle.std.specs.Prelude.{◌≡◌, [], IfOk, option_map, None, Some, MatchOption};
ghost use Rattle.gq_lines.specs.Words.{words_after};
ghost use Rattle.gq_chunks.specs.PeerLines.{saying_of, pair_then, pairs_behind, seeks_by, found_by, gives_by, number_by, verb_saying_by, saying_by, Wants, Misses, Spoilt};

use crate::PeerLine;
use crate::asking::last_content;
use crate::reading::take_sure;
use gq_depot::ListedChunk;
use gq_lines::{is_end, next_word};
use gq_memory::{GrowVec, OutOfMemory};
use gq_wire::{take_long, take_number};
use std::alloc::Global;

// A number and a length, and the text behind.
fn take_pair(text: &[u8]) -> Option<(ListedChunk, &[u8])>
    ensures { MatchOption result (pair_then (words_after text.now) ≡ None)
        (λ x. pair_then (words_after text.now) ≡ Some (x.0, words_after x.1.now)) }
{
    let (number, rest) = take_long(text)?;
    let (size, rest) = take_long(rest)?;
    Some((ListedChunk { number, size }, rest))
}

// Numbers and lengths, to the end.
fn pairs(alloc: Global, text: &[u8]) -> Result<Option<Vec<ListedChunk>>, OutOfMemory>
    ensures { IfOk result (λ read. option_map (λ chunks. chunks.items) read ≡ pairs_behind [] (words_after text.now)) }
{
    let mut chunks = Vec::new(alloc);
    let mut rest = text;
    while !is_end(rest) {
        let Some((chunk, behind)) = take_pair(rest) else {
            return Ok(None);
        };
        chunks.grow(chunk)?;
        rest = behind;
    }
    Ok(Some(chunks))
}

// The chunks of a session are asked for.
fn seeks(text: &[u8]) -> Option<PeerLine>
    ensures { option_map saying_of result ≡ seeks_by (words_after text.now) }
{
    let (losses, rest) = take_long(text)?;
    let (session, rest) = take_number(rest)?;
    let (after, rest) = take_long(rest)?;
    if !is_end(rest) {
        return None;
    }
    Some(PeerLine::Seeks {
        losses,
        session,
        after,
    })
}

// The chunks of a session.
fn found(alloc: Global, text: &[u8]) -> Result<Option<PeerLine>, OutOfMemory>
    ensures { IfOk result (λ line. option_map saying_of line ≡ found_by (words_after text.now)) }
{
    let Some((session, rest)) = take_number(text) else {
        return Ok(None);
    };
    let Some((after, rest)) = take_long(rest) else {
        return Ok(None);
    };
    let Some((floor, rest)) = take_long(rest) else {
        return Ok(None);
    };
    let Some((is_all, rest)) = take_sure(rest) else {
        return Ok(None);
    };
    match pairs(alloc, rest)? {
        Some(chunks) => Ok(Some(PeerLine::Found {
            session,
            after,
            floor,
            is_all,
            chunks,
        })),
        None => Ok(None),
    }
}

// A content.
fn gives(alloc: Global, text: &[u8]) -> Result<Option<PeerLine>, OutOfMemory>
    ensures { IfOk result (λ line. option_map saying_of line ≡ gives_by (words_after text.now)) }
{
    let Some((session, rest)) = take_number(text) else {
        return Ok(None);
    };
    let Some((number, rest)) = take_long(rest) else {
        return Ok(None);
    };
    match last_content(alloc, rest)? {
        Some(bytes) => Ok(Some(PeerLine::Gives {
            session,
            number,
            bytes,
        })),
        None => Ok(None),
    }
}

// A content is asked for.
fn wants(text: &[u8]) -> Option<PeerLine>
    ensures { option_map saying_of result ≡ number_by Wants (words_after text.now) }
{
    let (session, rest) = take_number(text)?;
    let (number, rest) = take_long(rest)?;
    if !is_end(rest) {
        return None;
    }
    Some(PeerLine::Wants { session, number })
}

// None is there.
fn misses(text: &[u8]) -> Option<PeerLine>
    ensures { option_map saying_of result ≡ number_by Misses (words_after text.now) }
{
    let (session, rest) = take_number(text)?;
    let (number, rest) = take_long(rest)?;
    if !is_end(rest) {
        return None;
    }
    Some(PeerLine::Misses { session, number })
}

// One is there that can't be read.
fn spoilt(text: &[u8]) -> Option<PeerLine>
    ensures { option_map saying_of result ≡ number_by Spoilt (words_after text.now) }
{
    let (session, rest) = take_number(text)?;
    let (number, rest) = take_long(rest)?;
    if !is_end(rest) {
        return None;
    }
    Some(PeerLine::Spoilt { session, number })
}

// What is said by this verb.
fn verb_line(alloc: Global, verb: &[u8], text: &[u8]) -> Result<Option<PeerLine>, OutOfMemory>
    ensures { IfOk result (λ line. option_map saying_of line ≡ verb_saying_by verb.now (words_after text.now)) }
{
    if verb == b"seeks".as_slice() {
        Ok(seeks(text))
    } else if verb == b"found".as_slice() {
        found(alloc, text)
    } else if verb == b"wants".as_slice() {
        Ok(wants(text))
    } else if verb == b"gives".as_slice() {
        gives(alloc, text)
    } else if verb == b"misses".as_slice() {
        Ok(misses(text))
    } else if verb == b"spoilt".as_slice() {
        Ok(spoilt(text))
    } else {
        Ok(None)
    }
}

/// What the words say behind the tenant's name; none where they have no such form. Fails where memory is wanting for a content or a listing.
pub fn read_peer_line(alloc: Global, text: &[u8]) -> Result<Option<PeerLine>, OutOfMemory>
    ensures { IfOk result (λ line. option_map saying_of line ≡ saying_by (words_after text.now)) }
{
    let Some((verb, rest)) = next_word(text) else {
        return Ok(None);
    };
    verb_line(alloc, verb, rest)
}
