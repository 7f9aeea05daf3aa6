//! What the register holds.

ghost use Rattle.std.specs.Prelude.{◌≡◌, ◌++◌, OnOk};
ghost use Rattle.std.specs.List.{flat_map};
ghost use Rattle.gq_svg.specs.Register.{bytes_text, value_box, value_text};
ghost use Rattle.gq_picture.specs.Register.{written_by};

use crate::contents::{put_content, put_content_label};
use crate::layout::label_room;
use crate::parts::{Part, put_parts};
use gq_laws::{Kind, Op};
use gq_memory::{GrowCopies, OutOfMemory};
use gq_picture::Value;

// What the register holds after this write, or before the first one.
fn written_by(ops: &[Op], write: Option<usize>) -> &[u8]
    ensures { result.now ≡ written_by ops.now write }
{
    let Some(place) = write else {
        return b"";
    };
    match ops.get(place) {
        Some(op) => match &op.kind {
            Kind::Write(bytes) => bytes.as_slice(),
            _ => b"",
        },
        None => b"",
    }
}

// Appends the box of a value.
fn put_value_box(out: &mut Vec<u8>, value: Value) -> Result<(), OutOfMemory>
    ensures { OnOk result (out.new.items ≡ out.old.items ++ value_box value) }
{
    put_parts(
        out,
        &[
            Part::Text(b"</title><path d=\"M"),
            Part::Column(value.left),
            Part::Text(b" 84H"),
            Part::Column(value.right),
            Part::Text(b"V112H"),
            Part::Column(value.left),
            Part::Text(b"z\"/><text dx=\"5\" x=\""),
            Part::Column(value.left),
            Part::Text(b"\" y=\"102\">"),
        ],
    )
}

// Appends the value, where it is these bytes.
fn put_bytes(out: &mut Vec<u8>, bytes: &[u8], value: Value) -> Result<(), OutOfMemory>
    ensures { OnOk result (out.new.items ≡ out.old.items ++ bytes_text bytes.now value) }
{
    out.grow_by(b"<g class=\"value\"><title>Register: ")?;
    put_content(out, bytes)?;
    put_value_box(out, value)?;
    put_content_label(out, label_room(value.left, value.right), bytes)?;
    out.grow_by(b"</text></g>\n")?;
    Ok(())
}

// Appends a value of the register.
fn put_value(out: &mut Vec<u8>, ops: &[Op], value: Value) -> Result<(), OutOfMemory>
    ensures { OnOk result (out.new.items ≡ out.old.items ++ value_text ops.now value) }
{
    put_bytes(out, written_by(ops, value.write), value)?;
    Ok(())
}

/// Appends what the register holds from column to column.
pub fn put_values(out: &mut Vec<u8>, ops: &[Op], values: &[Value]) -> Result<(), OutOfMemory>
    ensures { OnOk result (out.new.items ≡ out.old.items ++ flat_map (value_text ops.now) values.now) }
{
    for value in values {
        put_value(out, ops, *value)?;
    }
    Ok(())
}
