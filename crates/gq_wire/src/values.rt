//! Values in a line, one after another.

ghost use Rattle.std.specs.Prelude.{◌≡◌, Some, None, IfOk, MatchOption};
ghost use Rattle.gq_lines.specs.Words.{words_after};
ghost use Rattle.gq_wire.specs.Values.{number_then, byte_then, long_then, within_byte, last_content, copy_of};

use bytes::Bytes;
use gq_lines::{content, is_end, long_number, next_long_word, next_word, number};
use gq_memory::OutOfMemory;
use gq_tag::{StoredCopy, Tag};
use std::alloc::Global;

/// The number of the next word, and the text after it.
pub fn take_number(text: &[u8]) -> Option<(u32, &[u8])>
    ensures { MatchOption result (number_then (words_after text.now) ≡ None)
        (λ x. number_then (words_after text.now) ≡ Some (x.0, words_after x.1.now)) }
{
    let (word, rest) = next_word(text)?;
    Some((number(word)?, rest))
}

// The number as one of 8 bits.
fn within_byte(n: u32) -> Option<u8>
    ensures { result ≡ within_byte n }
{
    if n <= 255 { Some(n as u8) } else { None }
}

/// The number of 8 bits of the next word, and the text after it.
pub fn take_byte(text: &[u8]) -> Option<(u8, &[u8])>
    ensures { MatchOption result (byte_then (words_after text.now) ≡ None)
        (λ x. byte_then (words_after text.now) ≡ Some (x.0, words_after x.1.now)) }
{
    let (word, rest) = next_word(text)?;
    let n = number(word)?;
    Some((within_byte(n)?, rest))
}

/// The number of 64 bits of the next word, and the text after it.
pub fn take_long(text: &[u8]) -> Option<(u64, &[u8])>
    ensures { MatchOption result (long_then (words_after text.now) ≡ None)
        (λ x. long_then (words_after text.now) ≡ Some (x.0, words_after x.1.now)) }
{
    let (word, rest) = next_word(text)?;
    Some((long_number(word)?, rest))
}

// The content of the next word, which is the last.
pub(crate) fn last_content(alloc: Global, text: &[u8]) -> Result<Option<Bytes>, OutOfMemory>
    ensures { IfOk result (λ read. read ≡ last_content (words_after text.now)) }
{
    let Some((word, rest)) = next_long_word(text) else {
        return Ok(None);
    };
    if !is_end(rest) {
        return Ok(None);
    }
    content(alloc, word)
}

/// The copy of the next words, which are the last. Only its content takes memory.
#[tactic(auto, unfolding(crate::specs::Values::copy_of))]
pub fn read_copy(alloc: Global, text: &[u8]) -> Result<Option<StoredCopy>, OutOfMemory>
    ensures { IfOk result (λ copy. copy ≡ copy_of (words_after text.now)) }
{
    let Some((tag_number, rest)) = take_long(text) else {
        return Ok(None);
    };
    let Some((session, rest)) = take_byte(rest) else {
        return Ok(None);
    };
    match last_content(alloc, rest)? {
        Some(bytes) => Ok(Some(StoredCopy {
            tag: Tag {
                number: tag_number,
                session,
            },
            bytes,
        })),
        None => Ok(None),
    }
}
