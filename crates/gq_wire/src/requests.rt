//! What a tenant asks, read.

ghost use Rattle.std.specs.Prelude.{◌≡◌, IfOk};
ghost use Rattle.gq_lines.specs.Words.{words_after};
ghost use Rattle.gq_wire.specs.Questions.{mark_and_volume, look_of};
ghost use Rattle.gq_wire.specs.Requests.{write_by, read_by, list_by, abandon_by, line_by, request_of};

use crate::values::{last_content, take_long, take_number};
use gq_lines::{is_end, next_word};
use gq_memory::OutOfMemory;
use gq_model::Line;
use std::alloc::Global;

// The write of the session that the words tell. Only its content takes memory.
fn write(alloc: Global, session: u32, text: &[u8]) -> Result<Option<Line>, OutOfMemory>
    ensures { IfOk result (λ line. line ≡ write_by session (words_after text.now)) }
{
    let Some((volume, rest)) = take_number(text) else {
        return Ok(None);
    };
    let Some((file, rest)) = take_number(rest) else {
        return Ok(None);
    };
    match last_content(alloc, rest)? {
        Some(bytes) => Ok(Some(Line::Write {
            session,
            volume,
            file,
            bytes,
        })),
        None => Ok(None),
    }
}

// The read of the session that the words tell.
fn read(session: u32, text: &[u8]) -> Option<Line>
    ensures { result ≡ read_by session (words_after text.now) }
{
    let (volume, rest) = take_number(text)?;
    let (file, rest) = take_number(rest)?;
    if !is_end(rest) {
        return None;
    }
    Some(Line::Read {
        session,
        volume,
        file,
    })
}

// The listing of the session that the words tell.
fn list(session: u32, text: &[u8]) -> Option<Line>
    ensures { result ≡ list_by session (words_after text.now) }
{
    let (volume, rest) = take_number(text)?;
    if !is_end(rest) {
        return None;
    }
    Some(Line::List { session, volume })
}

// That the session gives an operation up, where no word follows.
fn abandon(session: u32, text: &[u8]) -> Option<Line>
    ensures { result ≡ abandon_by session (words_after text.now) }
{
    if !is_end(text) {
        return None;
    }
    Some(Line::Abandon { session })
}

// What the session asks by this verb and the words after its number.
fn line(alloc: Global, verb: &[u8], session: u32, text: &[u8]) -> Result<Option<Line>, OutOfMemory>
    ensures { IfOk result (λ line. line ≡ line_by verb.now session (words_after text.now)) }
{
    if verb == b"write".as_slice() {
        write(alloc, session, text)
    } else if verb == b"read".as_slice() {
        Ok(read(session, text))
    } else if verb == b"list".as_slice() {
        Ok(list(session, text))
    } else if verb == b"abandon".as_slice() {
        Ok(abandon(session, text))
    } else {
        Ok(None)
    }
}

/// The request that the words tell, and the number that its operation is to have.
pub(crate) fn request(alloc: Global, text: &[u8]) -> Result<Option<(u32, Line)>, OutOfMemory>
    ensures { IfOk result (λ request. request ≡ request_of (words_after text.now)) }
{
    let Some((verb, rest)) = next_word(text) else {
        return Ok(None);
    };
    let Some((session, rest)) = take_number(rest) else {
        return Ok(None);
    };
    let Some((op, rest)) = take_number(rest) else {
        return Ok(None);
    };
    match line(alloc, verb, session, rest)? {
        Some(line) => Ok(Some((op, line))),
        None => Ok(None),
    }
}

// The number of a question and the volume, where no word follows.
#[tactic(auto, unfolding(crate::specs::Questions::mark_and_volume))]
fn mark_and_volume(text: &[u8]) -> Option<(u64, u32)>
    ensures { result ≡ mark_and_volume (words_after text.now) }
{
    let (mark, rest) = take_long(text)?;
    let (volume, rest) = take_number(rest)?;
    if !is_end(rest) {
        return None;
    }
    Some((mark, volume))
}

/// The number that a tenant gives its question what the server has of a volume, and the volume.
pub(crate) fn look(text: &[u8]) -> Option<(u64, u32)>
    ensures { result ≡ look_of (words_after text.now) }
{
    let (verb, rest) = next_word(text)?;
    if verb != b"look".as_slice() {
        return None;
    }
    mark_and_volume(rest)
}
