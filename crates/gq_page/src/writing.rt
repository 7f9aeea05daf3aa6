//! Pages as they are written.

ghost use Rattle.std.specs.Prelude.{◌≡◌, [], ◌∷◌, ◌++◌, map, decimal, codes, OnOk, OnErr};
ghost use Rattle.std.specs.List.{flat_map};
ghost use Rattle.gq_lines.specs.Written.{spaced, ended, Extends};
ghost use Rattle.gq_page.specs.Page.{sheet_of};
ghost use Rattle.gq_page.specs.Text.{line_text, head_words, signpost_text, page_text};

use crate::{Line, Page};
use gq_lines::{put_number, put_spaced_number};
use gq_memory::{GrowCopies, GrowVec, OutOfMemory};

// Appends a number as a word after a space.
fn put_spaced(out: &mut Vec<u8>, number: u64) -> Result<(), OutOfMemory>
    ensures ok { OnOk result (out.new.items ≡ out.old.items ++ spaced (decimal number ∷ [])) }
    ensures err { OnErr result (Extends out.old.items out.new.items) }
{
    put_spaced_number(out, number)
}

// Appends numbers, each as a word after a space.
fn put_numbers(out: &mut Vec<u8>, numbers: &[u64]) -> Result<(), OutOfMemory>
    ensures ok { OnOk result (out.new.items ≡ out.old.items ++ spaced (map decimal numbers.now)) }
    ensures err { OnErr result (Extends out.old.items out.new.items) }
{
    for number in numbers {
        put_spaced(out, *number)?;
    }
    Ok(())
}

// Appends a line with its newline.
fn put_line(out: &mut Vec<u8>, line: &Line) -> Result<(), OutOfMemory>
    ensures ok { OnOk result (out.new.items ≡ out.old.items ++ line_text line.now) }
    ensures err { OnErr result (Extends out.old.items out.new.items) }
{
    put_number(out, line.version)?;
    out.grow(b' ')?;
    out.grow_by(line.said.as_slice())?;
    out.grow(b' ')?;
    out.grow_by(line.name.as_slice())?;
    out.grow(b'\n')
}

// Appends lines.
fn put_lines(out: &mut Vec<u8>, lines: &[Line]) -> Result<(), OutOfMemory>
    ensures ok { OnOk result (out.new.items ≡ out.old.items ++ flat_map line_text lines.now) }
    ensures err { OnErr result (Extends out.old.items out.new.items) }
{
    for line in lines {
        put_line(out, line)?;
    }
    Ok(())
}

// Appends a signpost, if there is one.
fn put_signpost(out: &mut Vec<u8>, signpost: Option<u64>) -> Result<(), OutOfMemory>
    ensures ok { OnOk result (out.new.items ≡ out.old.items ++ signpost_text signpost) }
    ensures err { OnErr result (Extends out.old.items out.new.items) }
{
    if let Some(level) = signpost {
        out.grow_by(b">999999999999 0-65535 level")?;
        put_number(out, level)?;
        out.grow(b'\n')?;
    }
    Ok(())
}

// Appends the first line of a page.
fn put_head(out: &mut Vec<u8>, page: &Page) -> Result<(), OutOfMemory>
    ensures ok { OnOk result (out.new.items ≡ out.old.items ++ (codes "names" ++ ended (head_words (sheet_of page.now)))) }
    ensures err { OnErr result (Extends out.old.items out.new.items) }
{
    out.grow_by(b"names 2")?;
    put_spaced(out, page.number)?;
    put_numbers(out, page.after.as_slice())?;
    out.grow(b'\n')
}

/// Appends the text of a page. Where there is too little memory a part of it may have been appended.
pub fn put_page(out: &mut Vec<u8>, page: &Page) -> Result<(), OutOfMemory>
    ensures ok { OnOk result (out.new.items ≡ out.old.items ++ page_text (sheet_of page.now)) }
    ensures err { OnErr result (Extends out.old.items out.new.items) }
{
    put_head(out, page)?;
    put_signpost(out, page.signpost)?;
    put_lines(out, page.lines.as_slice())
}
