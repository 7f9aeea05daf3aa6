//! Contents, as a person reads them.

ghost use Rattle.std.specs.Prelude.{◌≡◌, ◌++◌, decimal, OnOk};
ghost use Rattle.std.specs.List.{list_all};
ghost use Rattle.gq_svg.specs.Contents.{content_label, content_text, digits_label, empty_label, is_printable, is_text, length_label, length_text, quoted, text_label, unit};

use crate::escaping::put_escaped;
use gq_lines::{put_digits, put_number};
use gq_memory::{GrowCopies, OutOfMemory};
use itoa::Buffer;

// The quotation marks “ and ”, and …, in UTF-8.
const OPENING: &[u8] = b"\xe2\x80\x9c";

const CLOSING: &[u8] = b"\xe2\x80\x9d";

const ELLIPSIS: &[u8] = b"\xe2\x80\xa6";

// Whether the byte is a letter, a digit, a sign or a space of ASCII.
fn is_printable(byte: u8) -> bool
    ensures { result ≡ is_printable byte }
{
    32 <= byte && byte <= 126
}

// Whether all bytes are.
fn is_text(bytes: &[u8]) -> bool
    ensures { result ≡ is_text bytes.now }
{
    bytes.iter().all(|byte| is_printable(*byte))
}

// Appends a text between quotation marks.
fn put_quoted(out: &mut Vec<u8>, text: &[u8]) -> Result<(), OutOfMemory>
    ensures { OnOk result (out.new.items ≡ out.old.items ++ quoted text.now) }
{
    out.grow_by(OPENING)?;
    put_escaped(out, text)?;
    out.grow_by(CLOSING)
}

/// Appends the whole content.
pub fn put_content(out: &mut Vec<u8>, bytes: &[u8]) -> Result<(), OutOfMemory>
    ensures { OnOk result (out.new.items ≡ out.old.items ++ content_text bytes.now) }
{
    if bytes.is_empty() {
        out.grow_by(b"empty")
    } else if is_text(bytes) {
        put_quoted(out, bytes)
    } else {
        put_digits(out, bytes)
    }
}

// Appends the label of an empty content.
fn put_empty_label(out: &mut Vec<u8>, room: usize) -> Result<(), OutOfMemory>
    ensures { OnOk result (out.new.items ≡ out.old.items ++ empty_label room) }
{
    if 5 <= room {
        out.grow_by(b"empty")
    } else if room == 0 {
        Ok(())
    } else {
        out.grow_by(b"-")
    }
}

// Appends the label of a text.
fn put_text_label(out: &mut Vec<u8>, room: usize, text: &[u8]) -> Result<(), OutOfMemory>
    ensures { OnOk result (out.new.items ≡ out.old.items ++ text_label room text.now) }
{
    let most = room.saturating_sub(2);
    if text.len() <= most {
        return put_quoted(out, text);
    }
    out.grow_by(OPENING)?;
    put_escaped(out, &text[..most])?;
    out.grow_by(ELLIPSIS)
}

// Appends the label of bytes that are no text.
fn put_digits_label(out: &mut Vec<u8>, room: usize, bytes: &[u8]) -> Result<(), OutOfMemory>
    ensures { OnOk result (out.new.items ≡ out.old.items ++ digits_label room bytes.now) }
{
    if bytes.len() <= room / 2 {
        return put_digits(out, bytes);
    }
    put_digits(out, &bytes[..room.saturating_sub(1) / 2])?;
    out.grow_by(ELLIPSIS)
}

/// Appends the label of a content, which has room for so many letters.
pub fn put_content_label(out: &mut Vec<u8>, room: usize, bytes: &[u8]) -> Result<(), OutOfMemory>
    ensures { OnOk result (out.new.items ≡ out.old.items ++ content_label room bytes.now) }
{
    if bytes.is_empty() {
        put_empty_label(out, room)
    } else if is_text(bytes) {
        put_text_label(out, room, bytes)
    } else {
        put_digits_label(out, room, bytes)
    }
}

// Appends the unit of a length.
fn put_unit(out: &mut Vec<u8>, n: u64) -> Result<(), OutOfMemory>
    ensures { OnOk result (out.new.items ≡ out.old.items ++ unit n) }
{
    if n == 1 {
        out.grow_by(b" byte")
    } else {
        out.grow_by(b" bytes")
    }
}

/// Appends a length in bytes.
pub fn put_length(out: &mut Vec<u8>, n: u64) -> Result<(), OutOfMemory>
    ensures { OnOk result (out.new.items ≡ out.old.items ++ length_text n) }
{
    put_number(out, n)?;
    put_unit(out, n)
}

/// Appends its label, which has room for so many letters.
pub fn put_length_label(out: &mut Vec<u8>, room: usize, n: u64) -> Result<(), OutOfMemory>
    ensures { OnOk result (out.new.items ≡ out.old.items ++ length_label room n) }
{
    let mut buffer = Buffer::new();
    let digits = buffer.format(n).as_bytes();
    out.grow_by(digits)?;
    if digits.len() + 6 <= room {
        put_unit(out, n)
    } else {
        Ok(())
    }
}
