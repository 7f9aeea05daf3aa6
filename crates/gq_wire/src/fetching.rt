//! What a new node and others say to each other, so that it gets the files that it lacks.

ghost use Rattle.std.specs.Prelude.{◌≡◌, Some, None, IfOk, MatchOption};
ghost use Rattle.gq_lines.specs.Words.{words_after};
ghost use Rattle.gq_wire.specs.Fetching.{number_behind, file_then, fetch_of, fetched_of};

use crate::values::{read_copy, take_number};
use gq_lines::{is_end, next_word, number};
use gq_memory::OutOfMemory;
use gq_tag::{FileId, StoredCopy};
use std::alloc::Global;

/// The number that is the only word behind that verb.
pub(crate) fn number_behind(verb: &[u8], word: &[u8], text: &[u8]) -> Option<u32>
    ensures { result ≡ number_behind verb.now word.now (words_after text.now) }
{
    if word != verb {
        return None;
    }
    let (digits, rest) = next_word(text)?;
    if !is_end(rest) {
        return None;
    }
    number(digits)
}

// The file of the tenant that the next words name, and the text after them.
#[tactic(auto, unfolding(crate::specs::Fetching::file_then))]
fn take_file(tenant: u8, text: &[u8]) -> Option<(FileId, &[u8])>
    ensures { MatchOption result (file_then tenant (words_after text.now) ≡ None)
        (λ x. file_then tenant (words_after text.now) ≡ Some (x.0, words_after x.1.now)) }
{
    let (volume, rest) = take_number(text)?;
    let (file, rest) = take_number(rest)?;
    Some((
        FileId {
            tenant,
            volume,
            file,
        },
        rest,
    ))
}

/// The file of the tenant of which a copy is asked for.
pub(crate) fn fetch(tenant: u8, text: &[u8]) -> Option<FileId>
    ensures { result ≡ fetch_of tenant (words_after text.now) }
{
    let (verb, rest) = next_word(text)?;
    if verb != b"fetch".as_slice() {
        return None;
    }
    let (file, rest) = take_file(tenant, rest)?;
    if !is_end(rest) {
        return None;
    }
    Some(file)
}

/// The file of the tenant of which a copy is given, and the copy. Only its content takes memory.
pub(crate) fn fetched(
    alloc: Global,
    tenant: u8,
    text: &[u8],
) -> Result<Option<(FileId, StoredCopy)>, OutOfMemory>
    ensures { IfOk result (λ given. given ≡ fetched_of tenant (words_after text.now)) }
{
    let Some((verb, rest)) = next_word(text) else {
        return Ok(None);
    };
    if verb != b"fetched".as_slice() {
        return Ok(None);
    }
    let Some((file, rest)) = take_file(tenant, rest) else {
        return Ok(None);
    };
    match read_copy(alloc, rest)? {
        Some(copy) => Ok(Some((file, copy))),
        None => Ok(None),
    }
}
