//! Batches as they are read.

ghost use Rattle.std.specs.Prelude.{◌≡◌, ◌+◌, ◌∷◌, ◌++◌, [], ◌<◌, true, length, drop, IfOk, IfSome, MatchOption};
ghost use Rattle.gq_lines.specs.Words.{words_of, is_digit};
ghost use Rattle.gq_journal.specs.Batches.{whole_lines, is_one_line, ended_line, is_sealing, seal, batch_text, batches_at, seals, seals_by, has_right_batch, CanBeSealed, is_batch_line};

use crate::sealing::is_seal;
use gq_lines::{first_word, long_number, next_word};
use gq_memory::OutOfMemory;
use memchr::memchr;
use std::alloc::Global;

/// The first line that a newline ends, without it, and what is behind it; none where no newline is in the text.
pub fn first_whole_line(text: &[u8]) -> Option<(&[u8], &[u8])>
    ensures lines { MatchOption result (whole_lines text.now ≡ []) (λ x. whole_lines text.now ≡ x.0.now ∷ whole_lines x.1.now) }
    ensures text { MatchOption result (whole_lines text.now ≡ []) (λ x. text.now ≡ ended_line x.0.now ++ x.1.now) }
    ensures one { IfSome result (λ x. is_one_line x.0.now ≡ true) }
{
    match memchr(b'\n', text) {
        Some(end) => Some((&text[..end], &text[end + 1..])),
        None => None,
    }
}

// Whether the line begins as one that seals.
fn is_sealing(line: &[u8]) -> bool
    ensures { result ≡ is_sealing line.now }
{
    line.len() >= 6 && &line[..5] == b"sync ".as_slice() && is_digit(line[5])
}

// Whether the byte is a decimal digit.
fn is_digit(c: u8) -> bool
    ensures { result ≡ is_digit c }
{
    c >= b'0' && c <= b'9'
}

/// Whether the line, without its newline, may stand in a batch: it has no newline, and does not begin as a line that seals.
pub fn is_batch_line(line: &[u8]) -> bool
    ensures { result ≡ is_batch_line line.now }
{
    is_one_line(line) && !is_sealing(line)
}

/// Whether the text is one of whole lines that may stand in a batch, so that it can be sealed.
pub fn can_be_sealed(text: &[u8]) -> bool
    ensures is { result ≡ true → CanBeSealed text.now }
    ensures only { CanBeSealed text.now → result ≡ true }
{
    let mut rest = text;
    while let Some((line, after)) = first_whole_line(rest) {
        if is_sealing(line) {
            return false;
        }
        rest = after;
    }
    rest.is_empty()
}

// Whether no byte is a newline.
fn is_one_line(line: &[u8]) -> bool
    ensures { result ≡ is_one_line line.now }
{
    for c in line {
        if *c == b'\n' {
            return false;
        }
    }
    true
}

/// The lines of batch n, if the text begins with it and it is sealed right, and what is behind it; none where it is torn, wrong or
/// of another number. Fails where memory is wanting for the line that would seal it.
pub fn first_batch(
    alloc: Global,
    text: &[u8],
    n: u64,
) -> Result<Option<(&[u8], &[u8])>, OutOfMemory>
    ensures batches { IfOk result (λ found. MatchOption found (batches_at n text.now ≡ [])
        (λ x. batches_at n text.now ≡ whole_lines x.0.now ∷ batches_at (n + 1) x.1.now)) }
    ensures text { IfOk result (λ found. MatchOption found (batches_at n text.now ≡ [])
        (λ x. text.now ≡ (x.0.now ++ ended_line (seal n x.0.now)) ++ x.1.now)) }
    ensures lines { IfOk result (λ found. IfSome found (λ x. CanBeSealed x.0.now)) }
{
    let mut rest = text;
    while let Some((line, after)) = first_whole_line(rest) {
        if is_sealing(line) {
            let body = &text[..text.len() - rest.len()];
            if is_seal(alloc, line, n, body)? {
                return Ok(Some((body, after)));
            }
            return Ok(None);
        }
        rest = after;
    }
    Ok(None)
}

// Whether the line seals bytes right before it.
#[tactic(auto, unfolding(crate::specs::Batches::seals_by))]
fn seals_before(alloc: Global, before: &[u8], line: &[u8]) -> Result<bool, OutOfMemory>
    ensures { IfOk result (λ right. right ≡ seals_by before.now line.now (words_of line.now)) }
{
    let (_, rest) = first_word(line);
    let Some((n, rest)) = next_word(rest) else {
        return Ok(false);
    };
    let Some((len, _)) = next_word(rest) else {
        return Ok(false);
    };
    let (Some(n), Some(len)) = (long_number(n), long_number(len)) else {
        return Ok(false);
    };
    if len > before.len() as u64 {
        return Ok(false);
    }
    is_seal(alloc, line, n, &before[before.len() - len as usize..])
}

/// Whether there is a right batch anywhere in the text, of whatever number: then what is before it is damage, and no torn end. Fails
/// where memory is wanting for the lines that would seal it.
pub fn has_right_batch(alloc: Global, text: &[u8]) -> Result<bool, OutOfMemory>
    ensures { IfOk result (λ right. right ≡ has_right_batch text.now) }
{
    let mut rest = text;
    while let Some((line, after)) = first_whole_line(rest) {
        if is_sealing(line) && seals_before(alloc, &text[..text.len() - rest.len()], line)? {
            return Ok(true);
        }
        rest = after;
    }
    Ok(false)
}
