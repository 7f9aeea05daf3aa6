//! Facts as they are read.

ghost use Rattle.std.specs.Prelude.{◌≡◌, ◌<◌, Some, None, length, IfOk, IfSome, MatchOption};
ghost use Rattle.gq_lines.specs.Words.{words_after};
ghost use Rattle.gq_wire.specs.Values.{last_content};
ghost use Rattle.gq_chunks.specs.Facts.{sure_of, sure_then, key_then, fresh_by, shelved_by, forgot_by, filled_by, own_fact_by, chunk_fact_of_line};

use crate::ChunkFact;
use bytes::Bytes;
use gq_desk::Plan;
use gq_lines::{content, first_word, is_end, next_long_word, next_word};
use gq_memory::OutOfMemory;
use gq_shelf::{Extent, Place};
use gq_stock::Run;
use gq_wire::{take_long, take_number};
use std::alloc::Global;

// Whether a chunk is told, as a number says.
fn sure_of(n: u32) -> Option<bool>
    ensures { result ≡ sure_of n }
{
    if n == 0 {
        Some(false)
    } else if n == 1 {
        Some(true)
    } else {
        None
    }
}

// Whether a chunk is told, and the text behind.
pub(crate) fn take_sure(text: &[u8]) -> Option<(bool, &[u8])>
    ensures { MatchOption result (sure_then (words_after text.now) ≡ None)
        (λ x. sure_then (words_after text.now) ≡ Some (x.0, words_after x.1.now)) }
{
    let (n, rest) = take_number(text)?;
    Some((sure_of(n)?, rest))
}

// A session, a number, whether its chunk is told, and the text behind.
fn take_key(text: &[u8]) -> Option<(u32, u64, bool, &[u8])>
    ensures { MatchOption result (key_then (words_after text.now) ≡ None)
        (λ x. key_then (words_after text.now) ≡ Some ((x.0, x.1, x.2), words_after x.3.now)) }
{
    let (session, rest) = take_number(text)?;
    let (number, rest) = take_long(rest)?;
    let (is_sure, rest) = take_sure(rest)?;
    Some((session, number, is_sure, rest))
}

// The content of the next word, which is the last.
fn last_content(alloc: Global, text: &[u8]) -> Result<Option<Bytes>, OutOfMemory>
    ensures { IfOk result (λ read. read ≡ last_content (words_after text.now)) }
{
    let Some((word, rest)) = next_long_word(text) else {
        return Ok(None);
    };
    if !is_end(rest) {
        return Ok(None);
    }
    content(alloc, word)
}

// A content in memory.
fn fresh(alloc: Global, text: &[u8]) -> Result<Option<ChunkFact>, OutOfMemory>
    ensures { IfOk result (λ fact. fact ≡ fresh_by (words_after text.now)) }
{
    let Some((session, number, is_sure, rest)) = take_key(text) else {
        return Ok(None);
    };
    match last_content(alloc, rest)? {
        Some(bytes) => Ok(Some(ChunkFact::Put {
            session,
            number,
            is_sure,
            place: Place::Fresh(bytes),
        })),
        None => Ok(None),
    }
}

// Where a content lies.
fn shelved(text: &[u8]) -> Option<ChunkFact>
    ensures { result ≡ shelved_by (words_after text.now) }
{
    let (session, number, is_sure, rest) = take_key(text)?;
    let (segment, rest) = take_number(rest)?;
    let (at, rest) = take_long(rest)?;
    let (len, rest) = take_number(rest)?;
    let (sum, rest) = take_long(rest)?;
    if !is_end(rest) {
        return None;
    }
    Some(ChunkFact::Put {
        session,
        number,
        is_sure,
        place: Place::Shelved(Extent {
            segment,
            at,
            len,
            sum,
        }),
    })
}

// Which numbers are forgotten.
fn forgot(text: &[u8]) -> Option<ChunkFact>
    ensures { result ≡ forgot_by (words_after text.now) }
{
    let (session, rest) = take_number(text)?;
    let (floor, rest) = take_long(rest)?;
    let (first, rest) = take_long(rest)?;
    let (last, rest) = take_long(rest)?;
    if !is_end(rest) {
        return None;
    }
    Some(ChunkFact::Forgot {
        session,
        floor,
        run: Run { first, last },
    })
}

// That nothing is lacked.
fn filled(text: &[u8]) -> Option<ChunkFact>
    ensures { result ≡ filled_by (words_after text.now) }
{
    if is_end(text) {
        Some(ChunkFact::Filled)
    } else {
        None
    }
}

// The fact of a tenant.
fn own_fact(alloc: Global, verb: &[u8], text: &[u8]) -> Result<Option<ChunkFact>, OutOfMemory>
    ensures { IfOk result (λ fact. fact ≡ own_fact_by verb.now (words_after text.now)) }
{
    if verb == b"chunk".as_slice() {
        fresh(alloc, text)
    } else if verb == b"extent".as_slice() {
        Ok(shelved(text))
    } else if verb == b"forgot".as_slice() {
        Ok(forgot(text))
    } else if verb == b"filled".as_slice() {
        Ok(filled(text))
    } else {
        Ok(None)
    }
}

/// The fact that a line of a journal says, without its newline, and the tenant whose it is; none where it says none of a tenant of the plan. Fails where
/// memory is wanting for a content.
#[tactic(auto, unfolding(crate::specs::Facts::chunk_fact_of_words))]
pub fn read_chunk_fact(
    alloc: Global,
    line: &[u8],
    plan: &Plan,
) -> Result<Option<(u8, ChunkFact)>, OutOfMemory>
    ensures fact { IfOk result (λ fact. fact ≡ chunk_fact_of_line plan.now line.now) }
    ensures tenant { IfOk result (λ fact. IfSome fact (λ fact. fact.0 < length plan.now.rows)) }
{
    let (verb, rest) = first_word(line);
    let Some((name, rest)) = next_word(rest) else {
        return Ok(None);
    };
    let Some(tenant) = plan.find_word(name) else {
        return Ok(None);
    };
    match own_fact(alloc, verb, rest)? {
        Some(fact) => Ok(Some((tenant, fact))),
        None => Ok(None),
    }
}
