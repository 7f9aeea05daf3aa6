//! Words, numbers and contents, appended to a text.

ghost use Rattle.std.specs.Prelude.{◌≡◌, ◌+◌, ◌%◌, ◌<◌, ◌≤◌, [], ◌∷◌, ◌++◌, length, decimal, vec_len, vec_capacity, OnOk, OnErr};
ghost use Rattle.hex.specs.Hex.{encode_lower};
ghost use Rattle.gq_lines.specs.Written.{bytes_word, content_word, Extends};

use gq_escape::put_escaped;
use gq_memory::{GrowCopies, GrowVec, OutOfMemory, RoomInVec};
use itoa::Buffer;

// Most numbers have at most four digits. These are written straight into the buffer, once it has room for them.

// Appends the last digit of a number.
#[inline(always)]
fn push_last(out: &mut Vec<u8>, n: u64)
    requires { vec_len out.old < vec_capacity out.old }
    ensures items { out.new.items ≡ out.old.items ++ (48 + n % 10) ∷ [] }
    ensures len { vec_len out.new ≡ vec_len out.old + 1 }
    ensures capacity { vec_capacity out.new ≡ vec_capacity out.old }
{
    out.push_reserved(b'0' + (n % 10) as u8);
}

// Appends the digits of a number below 10.
#[inline(always)]
#[tactic(auto, using(std::proofs::lemmas::Fmt::decimal_digit))]
fn push_one(out: &mut Vec<u8>, n: u64)
    requires number { n < 10 }
    requires room { vec_len out.old < vec_capacity out.old }
    ensures items { out.new.items ≡ out.old.items ++ decimal n }
    ensures len { vec_len out.new ≡ vec_len out.old + 1 }
    ensures capacity { vec_capacity out.new ≡ vec_capacity out.old }
{
    out.push_reserved(b'0' + n as u8);
}

// Appends the digits of a number that has two.
#[inline(always)]
fn push_two(out: &mut Vec<u8>, n: u64)
    requires number { (10 ≤ n) × (n < 100) }
    requires room { vec_len out.old + 1 < vec_capacity out.old }
    ensures items { out.new.items ≡ out.old.items ++ decimal n }
    ensures len { vec_len out.new ≡ vec_len out.old + 2 }
    ensures capacity { vec_capacity out.new ≡ vec_capacity out.old }
{
    push_one(out, n / 10);
    push_last(out, n);
}

// Appends the digits of a number that has three.
#[inline(always)]
fn push_three(out: &mut Vec<u8>, n: u64)
    requires number { (100 ≤ n) × (n < 1000) }
    requires room { vec_len out.old + 2 < vec_capacity out.old }
    ensures items { out.new.items ≡ out.old.items ++ decimal n }
    ensures len { vec_len out.new ≡ vec_len out.old + 3 }
    ensures capacity { vec_capacity out.new ≡ vec_capacity out.old }
{
    push_two(out, n / 10);
    push_last(out, n);
}

// Appends the digits of a number that has four.
#[inline(always)]
fn push_four(out: &mut Vec<u8>, n: u64)
    requires number { (1000 ≤ n) × (n < 10000) }
    requires room { vec_len out.old + 3 < vec_capacity out.old }
    ensures items { out.new.items ≡ out.old.items ++ decimal n }
    ensures len { vec_len out.new ≡ vec_len out.old + 4 }
    ensures capacity { vec_capacity out.new ≡ vec_capacity out.old }
{
    push_three(out, n / 10);
    push_last(out, n);
}

// Appends the digits of a number that has at most four.
#[inline(always)]
fn push_short(out: &mut Vec<u8>, n: u64)
    requires number { n < 10000 }
    requires room { vec_len out.old + 4 ≤ vec_capacity out.old }
    ensures items { out.new.items ≡ out.old.items ++ decimal n }
    ensures len { vec_len out.new ≤ vec_len out.old + 4 }
    ensures capacity { vec_capacity out.new ≡ vec_capacity out.old }
{
    if n < 10 {
        push_one(out, n);
    } else if n < 100 {
        push_two(out, n);
    } else if n < 1_000 {
        push_three(out, n);
    } else {
        push_four(out, n);
    }
}

// Appends the digits of a number of any size.
fn put_long_number(out: &mut Vec<u8>, n: u64) -> Result<(), OutOfMemory>
    ensures ok { OnOk result (out.new.items ≡ out.old.items ++ decimal n) }
    ensures err { OnErr result (out.new.items ≡ out.old.items) }
{
    let mut buffer = Buffer::new();
    out.grow_by(buffer.format(n).as_bytes())
}

/// Appends the decimal digits of a number.
pub fn put_number(out: &mut Vec<u8>, n: u64) -> Result<(), OutOfMemory>
    ensures ok { OnOk result (out.new.items ≡ out.old.items ++ decimal n) }
    ensures err { OnErr result (out.new.items ≡ out.old.items) }
{
    if n >= 10_000 {
        return put_long_number(out, n);
    }
    out.make_room(4)?;
    push_short(out, n);
    Ok(())
}

/// Appends the decimal digits of a number, and a newline. After want of memory the digits may have been appended.
pub fn put_last_number(out: &mut Vec<u8>, n: u64) -> Result<(), OutOfMemory>
    ensures ok { OnOk result (out.new.items ≡ out.old.items ++ decimal n ++ 10 ∷ []) }
    ensures err { OnErr result (Extends out.old.items out.new.items) }
{
    if n >= 10_000 {
        put_long_number(out, n)?;
        return out.grow(b'\n');
    }
    out.make_room(5)?;
    push_short(out, n);
    out.push_reserved(b'\n');
    Ok(())
}

/// Appends a word after a space.
#[inline(always)]
pub fn put_word(out: &mut Vec<u8>, word: &[u8]) -> Result<(), OutOfMemory>
    ensures ok { OnOk result (out.new.items ≡ out.old.items ++ 32 ∷ word.now) }
    ensures err { OnErr result (Extends out.old.items out.new.items) }
{
    out.grow(b' ')?;
    out.grow_by(word)
}

/// Appends a number after a space.
#[inline(always)]
pub fn put_spaced_number(out: &mut Vec<u8>, n: u64) -> Result<(), OutOfMemory>
    ensures ok { OnOk result (out.new.items ≡ out.old.items ++ 32 ∷ decimal n) }
    ensures err { OnErr result (Extends out.old.items out.new.items) }
{
    out.grow(b' ')?;
    put_number(out, n)
}

/// Appends the decimal digits of a sum, of whatever size.
pub fn put_sum(out: &mut Vec<u8>, n: u64, more: u32) -> Result<(), OutOfMemory>
    ensures ok { OnOk result (out.new.items ≡ out.old.items ++ decimal (n + more)) }
    ensures err { OnErr result (out.new.items ≡ out.old.items) }
{
    match n.checked_add(u64::from(more)) {
        Some(sum) => put_number(out, sum),
        None => {
            let mut buffer = Buffer::new();
            let sum = u128::from(n) + u128::from(more);
            out.grow_by(buffer.format(sum).as_bytes())
        }
    }
}

// The most bytes of which the digits are written in one piece.
const MOST_BLOCK: usize = 64;

// Appends two digits for each byte of a block.
fn put_block(out: &mut Vec<u8>, block: &[u8]) -> Result<(), OutOfMemory>
    requires { length block.now ≤ MOST_BLOCK }
    ensures ok { OnOk result (out.new.items ≡ out.old.items ++ encode_lower block.now) }
    ensures err { OnErr result (out.new.items ≡ out.old.items) }
{
    let mut digits = [0u8; 2 * MOST_BLOCK];
    let end = 2 * block.len();
    match hex::encode_to_slice(block, &mut digits[..end]) {
        Ok(()) => out.grow_by(&digits[..end]),
        Err(_) => unreachable!(),
    }
}

/// Appends two hexadecimal digits for each byte, in small letters. After want of memory a part of them may have been appended.
pub fn put_digits(out: &mut Vec<u8>, bytes: &[u8]) -> Result<(), OutOfMemory>
    ensures ok { OnOk result (out.new.items ≡ out.old.items ++ encode_lower bytes.now) }
    ensures err { OnErr result (Extends out.old.items out.new.items) }
{
    let mut rest = bytes;
    while !rest.is_empty() {
        let (block, after) = rest.split_at(rest.len().min(MOST_BLOCK));
        put_block(out, block)?;
        rest = after;
    }
    Ok(())
}

/// Appends a content in hexadecimal after a space, `-` where it is empty.
pub fn put_content(out: &mut Vec<u8>, bytes: &[u8]) -> Result<(), OutOfMemory>
    ensures ok { OnOk result (out.new.items ≡ out.old.items ++ 32 ∷ content_word bytes.now) }
    ensures err { OnErr result (Extends out.old.items out.new.items) }
{
    if bytes.is_empty() {
        return out.grow_by(b" -");
    }
    out.grow(b' ')?;
    put_digits(out, bytes)
}

/// Appends a content as its bytes after a space, `-` where it is empty.
pub fn put_bytes(out: &mut Vec<u8>, bytes: &[u8]) -> Result<(), OutOfMemory>
    ensures ok { OnOk result (out.new.items ≡ out.old.items ++ 32 ∷ bytes_word bytes.now) }
    ensures err { OnErr result (Extends out.old.items out.new.items) }
{
    if bytes.is_empty() {
        return out.grow_by(b" -");
    }
    out.grow_by(b" =")?;
    put_escaped(out, bytes)
}
