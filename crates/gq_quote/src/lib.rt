//! Bytes as one word of a line, with Python's escapes: three of them are escaped, each other is written as itself. Clients in Python read it fast.
#![tactic(auto)]

ghost use Rattle.std.specs.Prelude.{◌≡◌, ◌<◌, ◌++◌, ℕ, List, length, true, Some, None, MatchOption, IfSome, IfOk, OnOk, OnErr};
ghost use Rattle.memchr.specs.Find.{is_byte3};
ghost use Rattle.gq_quote.specs.Quote.{Begun, Zero, before, bytes_after, quote, quoted, unquoted};

pub mod laws;

use bytes::Bytes;
use gq_memory::{GrowCopies, GrowVec, OutOfMemory, bytes_of, room_for};
use memchr::{memchr, memchr3};
use std::alloc::Global;

// How the byte is written.
fn quote_of(c: u8) -> &'static [u8]
    requires { is_byte3 10 32 92 c ≡ true }
    ensures { result.now ≡ quote c }
{
    if c == b'\n' {
        b"\\n"
    } else if c == b' ' {
        b"\\040"
    } else {
        b"\\\\"
    }
}

/// Appends the bytes as they are written in a word, or a part of them where memory is refused.
pub fn put_quoted(out: &mut Vec<u8>, bytes: &[u8]) -> Result<(), OutOfMemory>
    ensures ok { OnOk result (out.new.items ≡ out.old.items ++ quoted bytes.now) }
    ensures err { OnErr result ((more : List ℕ) × (out.new.items ≡ out.old.items ++ more)) }
{
    let mut rest = bytes;
    'marks: while let Some(end) = memchr3(b'\n', b' ', b'\\', rest) {
        out.grow_by(&rest[..end])?;
        out.grow_by(quote_of(rest[end]))?;
        rest = &rest[end + 1..];
    }
    out.grow_by(rest)
}

// A space, if the text goes on as that of one does after its zero, and the text after it.
fn space(text: &[u8]) -> Option<(u8, &[u8])>
    ensures byte { MatchOption result (bytes_after Zero text.now ≡ None)
        (λ x. bytes_after Zero text.now ≡ before (Some x.0) (unquoted x.1.now)) }
    ensures shorter { IfSome result (λ x. length x.1.now < length text.now) }
{
    match text {
        [four, zero, after @ ..] => {
            if *four == b'4' && *zero == b'0' {
                Some((b' ', after))
            } else {
                None
            }
        }
        _ => None,
    }
}

// The byte that the text begins with, after a backslash, and the text after it.
fn marked(text: &[u8]) -> Option<(u8, &[u8])>
    ensures byte { MatchOption result (bytes_after Begun text.now ≡ None)
        (λ x. bytes_after Begun text.now ≡ before (Some x.0) (unquoted x.1.now)) }
    ensures shorter { IfSome result (λ x. length x.1.now < length text.now) }
{
    match text {
        [] => None,
        [letter, after @ ..] => {
            if *letter == b'n' {
                Some((b'\n', after))
            } else if *letter == b'\\' {
                Some((b'\\', after))
            } else if *letter == b'0' {
                space(after)
            } else {
                None
            }
        }
    }
}

/// The bytes that a text writes, if each backslash in it is followed by what follows one that was written.
pub fn read_quoted(alloc: Global, text: &[u8]) -> Result<Option<Bytes>, OutOfMemory>
    ensures { IfOk result (λ read. read ≡ unquoted text.now) }
{
    let mut bytes = room_for(alloc, text.len())?;
    let mut rest = text;
    'marks: while let Some(end) = memchr(b'\\', rest) {
        bytes.grow_by(&rest[..end])?;
        let Some((byte, after)) = marked(&rest[end + 1..]) else {
            return Ok(None);
        };
        bytes.grow(byte)?;
        rest = after;
    }
    bytes.grow_by(rest)?;
    Ok(Some(bytes_of(bytes)?))
}
