//! Lines of a text.

ghost use Rattle.std.specs.Prelude.{◌≡◌, ◌∷◌, ◌<◌, length};
ghost use Rattle.gq_lines.specs.Lines.{lines_of, IsRest, IsCut};

use crate::first_bytes::near;
use crate::words::first_word;
use memchr::memchr;

/// The first line of a text without its newline, and what follows it. The text is not empty.
pub fn first_line(text: &[u8]) -> (&[u8], &[u8])
    requires { 0 < length text.now }
    ensures lines { lines_of text.now ≡ result.0.now ∷ lines_of result.1.now }
    ensures shorter { length result.1.now < length text.now }
    ensures rest { IsRest text.now result.1.now }
{
    match memchr(b'\n', text) {
        Some(end) => (&text[..end], &text[end + 1..]),
        None => (text, &[]),
    }
}

/// The first line of a text that is not empty, cut behind its first word, and what follows the line.
#[inline(always)]
pub fn cut_line(text: &[u8]) -> (&[u8], &[u8], &[u8])
    requires { 0 < length text.now }
    ensures { IsCut text.now result.0.now result.1.now result.2.now }
{
    if text.len() >= 32 {
        let end = near(b'\n', text);
        if end < 32 {
            let first = near(b' ', text).min(end);
            return (&text[..first], &text[first..end], &text[end + 1..]);
        }
    }
    cut_far_line(text)
}

// The same, of a line of any length.
fn cut_far_line(text: &[u8]) -> (&[u8], &[u8], &[u8])
    requires { 0 < length text.now }
    ensures { IsCut text.now result.0.now result.1.now result.2.now }
{
    let (line, after) = first_line(text);
    let (first, rest) = first_word(line);
    (first, rest, after)
}
