//! Bytes as one word of a line: three of them are escaped, each other is written as itself.
//!
//! So torn lines, batches and carriers need not know of contents. A length before raw bytes would save the escapes, and all of
//! these would have to know of lengths. Base64 would be a third longer.
#![tactic(auto)]

ghost use Rattle.std.specs.Prelude.{◌≡◌, ◌<◌, ◌≤◌, ◌==◌, ◌⊎◌, not, slice_index, ◌∷◌, ◌++◌, ℕ, List, [], length, true, Some, None, MatchOption, IfSome, IfOk, OnOk, OnErr};
ghost use Rattle.std.specs.List.{prefix_len};
ghost use Rattle.memchr.specs.Find.{is_byte3};
ghost use Rattle.gq_escape.specs.Escape.{before, byte_of, bytes_after, escape, escaped, unescaped};

pub mod laws;

use bytes::Bytes;
use gq_memory::{GrowCopies, GrowVec, OutOfMemory, bytes_of, room_for};
use memchr::{memchr, memchr3};
use std::alloc::Global;
use std::simd::prelude::*;

// The letter that is written for the byte, after a backslash.
fn letter_of(c: u8) -> u8
    requires { is_byte3 10 32 92 c ≡ true }
    ensures { escape c ≡ 92 ∷ result ∷ [] }
{
    if c == b'\n' {
        b'n'
    } else if c == b' ' {
        b's'
    } else {
        b'b'
    }
}

// The byte that the letter writes after a backslash.
fn byte_of(letter: u8) -> Option<u8>
    ensures { result ≡ byte_of letter }
{
    if letter == b'n' {
        Some(b'\n')
    } else if letter == b's' {
        Some(b' ')
    } else if letter == b'b' {
        Some(b'\\')
    } else {
        None
    }
}

// How many lanes come before the first one of this byte: all, where there is none.
#[inline(always)]
fn lanes_before(lanes: u8x16, byte: u8) -> usize
    ensures { result ≡ prefix_len (λ c. not (c == byte)) lanes }
{
    let bits = lanes.simd_eq(u8x16::splat(byte)).to_bitmask();
    if bits == 0 {
        16
    } else {
        bits.trailing_zeros() as usize
    }
}

// The least of two.
#[inline(always)]
fn least(a: usize, b: usize) -> usize
    ensures first { result ≤ a }
    ensures second { result ≤ b }
    ensures one { (result ≡ a) ⊎ (result ≡ b) }
{
    if a < b { a } else { b }
}

// How many lanes come before the first one that is escaped: all, where none is.
#[inline(always)]
fn clean_lanes(lanes: u8x16) -> usize
    ensures within { result ≤ 16 }
    ensures clean { (k : ℕ) → k < result → ¬ (is_byte3 10 32 92 (slice_index lanes k) ≡ true) }
    ensures mark { result < 16 → is_byte3 10 32 92 (slice_index lanes result) ≡ true }
{
    let newlines = lanes_before(lanes, b'\n');
    let spaces = lanes_before(lanes, b' ');
    let marks = lanes_before(lanes, b'\\');
    least(least(newlines, spaces), marks)
}

// The first sixteen bytes.
#[inline(always)]
fn load(bytes: &[u8]) -> u8x16
    requires { 16 ≤ length bytes.now }
    ensures { (k : ℕ) → k < 16 → slice_index result k ≡ slice_index bytes.now k }
{
    u8x16::from_slice(bytes)
}

/// Appends the bytes as they are written in a word, or a part of them where memory is refused.
pub fn put_escaped(out: &mut Vec<u8>, bytes: &[u8]) -> Result<(), OutOfMemory>
    ensures ok { OnOk result (out.new.items ≡ out.old.items ++ escaped bytes.now) }
    ensures err { OnErr result ((more : List ℕ) × (out.new.items ≡ out.old.items ++ more)) }
{
    let mut rest = bytes;
    'parts: while rest.len() >= 16 {
        let count = clean_lanes(load(rest));
        if count == 16 {
            out.grow_by(&rest[..16])?;
            rest = &rest[16..];
        } else {
            out.grow_by(&rest[..count])?;
            out.grow_by(&[b'\\', letter_of(rest[count])])?;
            rest = &rest[count + 1..];
        }
    }
    put_runs(out, rest)
}

// The same, where few bytes are left: by runs up to the next byte that is escaped.
fn put_runs(out: &mut Vec<u8>, bytes: &[u8]) -> Result<(), OutOfMemory>
    ensures ok { OnOk result (out.new.items ≡ out.old.items ++ escaped bytes.now) }
    ensures err { OnErr result ((more : List ℕ) × (out.new.items ≡ out.old.items ++ more)) }
{
    let mut rest = bytes;
    'marks: while let Some(end) = memchr3(b'\n', b' ', b'\\', rest) {
        out.grow_by(&rest[..end])?;
        out.grow_by(&[b'\\', letter_of(rest[end])])?;
        rest = &rest[end + 1..];
    }
    out.grow_by(rest)
}

// The byte that the text begins with, after a backslash, and the text after it.
fn marked(text: &[u8]) -> Option<(u8, &[u8])>
    ensures byte { MatchOption result (bytes_after true text.now ≡ None)
        (λ x. bytes_after true text.now ≡ before (Some x.0) (unescaped x.1.now)) }
    ensures shorter { IfSome result (λ x. length x.1.now < length text.now) }
{
    match text {
        [] => None,
        [letter, after @ ..] => match byte_of(*letter) {
            Some(byte) => Some((byte, after)),
            None => None,
        },
    }
}

/// The bytes that a text writes, if each backslash in it has its letter.
pub fn read_escaped(alloc: Global, text: &[u8]) -> Result<Option<Bytes>, OutOfMemory>
    ensures { IfOk result (λ read. read ≡ unescaped text.now) }
{
    let mut bytes = room_for(alloc, text.len())?;
    let mut rest = text;
    'marks: while let Some(end) = memchr(b'\\', rest) {
        bytes.grow_by(&rest[..end])?;
        let Some((byte, after)) = marked(&rest[end + 1..]) else {
            return Ok(None);
        };
        bytes.grow(byte)?;
        rest = after;
    }
    bytes.grow_by(rest)?;
    Ok(Some(bytes_of(bytes)?))
}
