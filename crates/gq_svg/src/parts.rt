//! Parts of the text of an element.

ghost use Rattle.std.specs.Prelude.{◌≡◌, ◌++◌, decimal, OnOk};
ghost use Rattle.std.specs.List.{flat_map};
ghost use Rattle.gq_svg.specs.Layout.{x_of};
ghost use Rattle.gq_svg.specs.Parts.{text_of};

use crate::escaping::put_escaped;
use crate::layout::x_of;
use gq_memory::{GrowCopies, OutOfMemory};
use itoa::Buffer;

/// A part of the text of an element.
#[derive(Clone, Copy)]
pub enum Part<'a> {
    /// Text as it is.
    Text(&'a [u8]),
    /// A number in decimal digits.
    Number(u128),
    /// Where a column stands, in pixels from the left.
    Column(u128),
    /// Text in which the marks of XML are escaped.
    Escaped(&'a [u8]),
}

// Appends the decimal digits of a number.
fn put_number(out: &mut Vec<u8>, n: u128) -> Result<(), OutOfMemory>
    ensures { OnOk result (out.new.items ≡ out.old.items ++ decimal n) }
{
    let mut buffer = Buffer::new();
    out.grow_by(buffer.format(n).as_bytes())
}

// Appends where a column stands.
fn put_column(out: &mut Vec<u8>, column: u128) -> Result<(), OutOfMemory>
    ensures { OnOk result (out.new.items ≡ out.old.items ++ decimal (x_of column)) }
{
    put_number(out, x_of(column))
}

// Appends a part.
fn put_part(out: &mut Vec<u8>, part: Part) -> Result<(), OutOfMemory>
    ensures { OnOk result (out.new.items ≡ out.old.items ++ text_of part.entry) }
{
    match part {
        Part::Text(text) => out.grow_by(text),
        Part::Number(n) => put_number(out, n),
        Part::Column(column) => put_column(out, column),
        Part::Escaped(text) => put_escaped(out, text),
    }
}

/// Appends parts one after another. After want of memory some of them may have been appended.
pub fn put_parts(out: &mut Vec<u8>, parts: &[Part]) -> Result<(), OutOfMemory>
    ensures { OnOk result (out.new.items ≡ out.old.items ++ flat_map text_of parts.now) }
{
    for part in parts {
        put_part(out, *part)?;
    }
    Ok(())
}
