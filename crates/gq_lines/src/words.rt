//! Words, numbers and contents.

ghost use Rattle.std.specs.Prelude.{◌≡◌, ℕ, List, [], ◌∷◌, ◌++◌, IfOk, MatchOption, MatchBool};
ghost use Rattle.gq_lines.specs.Words.{words_of, words_after, number_after, number_of, content_in_digits, content_of};

use crate::hex_digits::read_digits;
use bytes::Bytes;
use gq_escape::read_escaped;
use gq_memory::{OutOfMemory, bytes_of, filled};
use memchr::memchr;
use std::alloc::Global;

// The greatest number of 32 bits.
pub const MOST_NUMBER: u64 = 4_294_967_295;

/// The first word of a text, and the text after it, which begins with a space or is empty.
pub fn first_word(text: &[u8]) -> (&[u8], &[u8])
    ensures words { words_of text.now ≡ result.0.now ∷ words_after result.1.now }
    ensures whole { text.now ≡ result.0.now ++ result.1.now }
{
    for (i, c) in text.iter().enumerate() {
        if *c == b' ' {
            return (&text[..i], &text[i..]);
        }
    }
    (text, &[])
}

// As [`first_word`], of a word that may be long.
fn first_long_word(text: &[u8]) -> (&[u8], &[u8])
    ensures words { words_of text.now ≡ result.0.now ∷ words_after result.1.now }
    ensures whole { text.now ≡ result.0.now ++ result.1.now }
{
    match memchr(b' ', text) {
        Some(end) => (&text[..end], &text[end..]),
        None => (text, &[]),
    }
}

/// The next word, and the text after it.
pub fn next_word(text: &[u8]) -> Option<(&[u8], &[u8])>
    ensures { MatchOption result (words_after text.now ≡ [])
        (λ x. words_after text.now ≡ x.0.now ∷ words_after x.1.now) }
{
    match text {
        [] => None,
        [_, text @ ..] => Some(first_word(text)),
    }
}

/// As [`next_word`], of a word that may be long.
pub fn next_long_word(text: &[u8]) -> Option<(&[u8], &[u8])>
    ensures { MatchOption result (words_after text.now ≡ [])
        (λ x. words_after text.now ≡ x.0.now ∷ words_after x.1.now) }
{
    match text {
        [] => None,
        [_, text @ ..] => Some(first_long_word(text)),
    }
}

/// Whether no word follows.
pub fn is_end(text: &[u8]) -> bool
    ensures { MatchBool result (words_after text.now ≡ [])
        ((w : List ℕ) × (ws : List (List ℕ)) × (words_after text.now ≡ w ∷ ws)) }
{
    text.is_empty()
}

/// The number of 32 bits that a word writes.
#[tactic(auto, unfolding(crate::specs::Words::number_up_to))]
pub fn number(word: &[u8]) -> Option<u32>
    ensures { result ≡ number_of word.now }
{
    match word {
        [] => None,
        [first, _, ..] if *first == b'0' => None,
        _ => number_from_digits(word),
    }
}

// The number that digits write, up to the largest.
fn number_from_digits(word: &[u8]) -> Option<u32>
    ensures { result ≡ number_after MOST_NUMBER 0 word.now }
{
    let mut n: u64 = 0;
    for c in word {
        if *c < b'0' || *c > b'9' {
            return None;
        }
        n = n * 10 + u64::from(*c - b'0');
        if n > MOST_NUMBER {
            return None;
        }
    }
    Some(n as u32)
}

// The content that a word writes in digits.
#[tactic(auto, unfolding(crate::specs::Words::content_in_digits))]
fn content_in_digits(alloc: Global, word: &[u8]) -> Result<Option<Bytes>, OutOfMemory>
    ensures { IfOk result (λ read. read ≡ content_in_digits word.now) }
{
    if word == b"-".as_slice() {
        return Ok(Some(Bytes::new()));
    }
    if word.is_empty() || word.len() % 2 != 0 {
        return Ok(None);
    }
    let mut bytes = filled(alloc, 0u8, word.len() / 2)?;
    if !read_digits(word, bytes.as_mut_slice()) {
        return Ok(None);
    }
    Ok(Some(bytes_of(bytes)?))
}

/// The content that a word writes.
pub fn content(alloc: Global, word: &[u8]) -> Result<Option<Bytes>, OutOfMemory>
    ensures { IfOk result (λ read. read ≡ content_of word.now) }
{
    match word {
        [] => Ok(None),
        [first, text @ ..] if *first == b'=' => read_escaped(alloc, text),
        _ => content_in_digits(alloc, word),
    }
}
