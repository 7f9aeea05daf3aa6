//! Lines of words NAME=VALUE.

ghost use Rattle.std.specs.Prelude.{◌≡◌, ◌++◌, ◌∷◌, [], map, OnOk};
ghost use Rattle.gq_lines.specs.Written.{spaced, line_text};
ghost use Rattle.gq_plan.specs.PlanWords.{word_of};

use gq_lines::put_number;
use gq_memory::{GrowCopies, GrowVec, OutOfMemory};

/// A word NAME=VALUE.
#[derive(Clone, Copy)]
pub enum Named<'a> {
    /// The value is a number.
    Number(&'a [u8], u64),
    /// The value is a word.
    Word(&'a [u8], &'a [u8]),
}

// Appends a name and `=`.
fn put_name(out: &mut Vec<u8>, name: &[u8]) -> Result<(), OutOfMemory>
    ensures { OnOk result (out.new.items ≡ out.old.items ++ name.now ++ 61 ∷ []) }
{
    out.grow_by(name)?;
    out.grow(b'=')
}

// Appends the word.
fn put_word(out: &mut Vec<u8>, word: Named) -> Result<(), OutOfMemory>
    ensures { OnOk result (out.new.items ≡ out.old.items ++ word_of word.entry) }
{
    match word {
        Named::Number(name, value) => {
            put_name(out, name)?;
            put_number(out, value)
        }
        Named::Word(name, value) => {
            put_name(out, name)?;
            out.grow_by(value)
        }
    }
}

// Appends the word after a space.
fn put_spaced(out: &mut Vec<u8>, word: Named) -> Result<(), OutOfMemory>
    ensures { OnOk result (out.new.items ≡ out.old.items ++ 32 ∷ word_of word.entry) }
{
    out.grow(b' ')?;
    put_word(out, word)
}

// Appends the words, each after a space.
fn put_words(out: &mut Vec<u8>, words: &[Named]) -> Result<(), OutOfMemory>
    ensures { OnOk result (out.new.items ≡ out.old.items ++ spaced (map word_of words.now)) }
{
    for word in words {
        put_spaced(out, *word)?;
    }
    Ok(())
}

// Appends the line of the words.
pub(crate) fn put_line(out: &mut Vec<u8>, first: Named, words: &[Named]) -> Result<(), OutOfMemory>
    ensures { OnOk result (out.new.items ≡ out.old.items ++ line_text (word_of first.entry) (map word_of words.now)) }
{
    put_word(out, first)?;
    put_words(out, words)?;
    out.grow(b'\n')
}
