//! Text that no mark of XML stands in.

ghost use Rattle.std.specs.Prelude.{◌≡◌, ◌++◌, OnOk};
ghost use Rattle.gq_svg.specs.Escaping.{escape, escaped};

use gq_memory::{GrowCopies, GrowVec, OutOfMemory};

// Appends a byte of a text.
fn put_byte(out: &mut Vec<u8>, byte: u8) -> Result<(), OutOfMemory>
    ensures { OnOk result (out.new.items ≡ out.old.items ++ escape byte) }
{
    match byte {
        b'<' => out.grow_by(b"&lt;"),
        b'>' => out.grow_by(b"&gt;"),
        b'&' => out.grow_by(b"&amp;"),
        b'"' => out.grow_by(b"&quot;"),
        b'\'' => out.grow_by(b"&#39;"),
        _ => out.grow(byte),
    }
}

/// Appends a text as it stands in an element or in an attribute of XML: the five marks of XML become entities. After want of
/// memory a part of it may have been appended.
pub fn put_escaped(out: &mut Vec<u8>, text: &[u8]) -> Result<(), OutOfMemory>
    ensures { OnOk result (out.new.items ≡ out.old.items ++ escaped text.now) }
{
    for byte in text {
        put_byte(out, *byte)?;
    }
    Ok(())
}
