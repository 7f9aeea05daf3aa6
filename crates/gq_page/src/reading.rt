//! Pages as they are read.

ghost use Rattle.std.specs.Prelude.{◌≡◌, ℕ, [], None, Some, option_map, IfOk, MatchOption};
ghost use Rattle.gq_lines.specs.Words.{words_of, words_after};
ghost use Rattle.gq_lines.specs.Lines.{lines_of};
ghost use Rattle.gq_page.specs.Page.{sheet_of};
ghost use Rattle.gq_page.specs.Text.{numbers_of, line_said, line_of_text, lines_said, is_signpost, signpost_of, signpost_cut, page_said, page_headed, page_of};

use crate::{Line, Page, cut_said, cut_word};
use gq_lines::{first_line, first_word, long_number, next_word};
use gq_memory::{GrowVec, OutOfMemory, copied_bytes};
use std::alloc::Global;

// The numbers that the words of a text are, if each is one.
fn numbers_of(alloc: Global, text: &[u8]) -> Result<Option<Vec<u64>>, OutOfMemory>
    ensures { IfOk result (λ read. option_map (λ numbers. numbers.items) read ≡ numbers_of (words_after text.now)) }
{
    let mut numbers = Vec::new(alloc);
    let mut rest = text;
    while let Some((word, after)) = next_word(rest) {
        let Some(number) = long_number(word) else {
            return Ok(None);
        };
        numbers.grow(number)?;
        rest = after;
    }
    Ok(Some(numbers))
}

// The line of this version, whose words stand in the text with its name behind them.
fn line_said(alloc: Global, version: u64, text: &[u8]) -> Result<Option<Line>, OutOfMemory>
    ensures { IfOk result (λ read. read ≡ line_said version text.now) }
{
    let Some((said, name)) = cut_said(text) else {
        return Ok(None);
    };
    if name.is_empty() {
        return Ok(None);
    }
    Ok(Some(Line {
        version,
        said: copied_bytes(alloc, said)?,
        name: copied_bytes(alloc, name)?,
    }))
}

// The line that a text says, without its newline.
fn line_of_text(alloc: Global, text: &[u8]) -> Result<Option<Line>, OutOfMemory>
    ensures { IfOk result (λ read. read ≡ line_of_text text.now) }
{
    let Some((word, said)) = cut_word(text) else {
        return Ok(None);
    };
    match long_number(word) {
        Some(version) if version > 0 => line_said(alloc, version, said),
        _ => Ok(None),
    }
}

// The lines that a text says, if each says one.
fn lines_said(alloc: Global, text: &[u8]) -> Result<Option<Vec<Line>>, OutOfMemory>
    ensures { IfOk result (λ read. option_map (λ lines. lines.items) read ≡ lines_said (lines_of text.now)) }
{
    let mut lines = Vec::new(alloc);
    let mut rest = text;
    while !rest.is_empty() {
        let (line, after) = first_line(rest);
        let Some(line) = line_of_text(alloc, line)? else {
            return Ok(None);
        };
        lines.grow(line)?;
        rest = after;
    }
    Ok(Some(lines))
}

// Whether a line is a signpost.
fn is_signpost(line: &[u8]) -> bool
    ensures { result ≡ is_signpost line.now }
{
    match line {
        [first, ..] => *first == b'>',
        [] => false,
    }
}

// The level to which it leads.
fn signpost_of(line: &[u8]) -> Option<u64>
    ensures { result ≡ signpost_of line.now }
{
    if line.len() < 27 {
        return None;
    }
    if &line[..27] == b">999999999999 0-65535 level".as_slice() {
        long_number(&line[27..])
    } else {
        None
    }
}

// The signpost that stands before lines, if one does, and the lines behind it.
fn signpost_cut(text: &[u8]) -> Option<(Option<u64>, &[u8])>
    ensures { option_map (λ cut. (cut.0, lines_of cut.1.now)) result ≡ signpost_cut (lines_of text.now) }
{
    if text.is_empty() {
        return Some((None, text));
    }
    let (line, rest) = first_line(text);
    if !is_signpost(line) {
        return Some((None, text));
    }
    match signpost_of(line) {
        Some(level) => Some((Some(level), rest)),
        None => None,
    }
}

// The page whose first line has these words, and whose other lines stand in the text.
fn page_said(alloc: Global, words: &[u8], text: &[u8]) -> Result<Option<Page>, OutOfMemory>
    ensures { IfOk result (λ read. option_map sheet_of read ≡ page_said (words_after words.now) (lines_of text.now)) }
{
    let Some((word, rest)) = next_word(words) else {
        return Ok(None);
    };
    let Some(number) = long_number(word) else {
        return Ok(None);
    };
    let Some(after) = numbers_of(alloc, rest)? else {
        return Ok(None);
    };
    let Some((signpost, text)) = signpost_cut(text) else {
        return Ok(None);
    };
    let Some(lines) = lines_said(alloc, text)? else {
        return Ok(None);
    };
    Ok(Some(Page {
        number,
        after,
        signpost,
        lines,
    }))
}

// The page of a first line, and of the lines that a text says.
#[tactic(auto, unfolding(crate::specs::Text::page_headed))]
fn page_headed(alloc: Global, head: &[u8], text: &[u8]) -> Result<Option<Page>, OutOfMemory>
    ensures { IfOk result (λ read. option_map sheet_of read ≡ page_headed (words_of head.now) (lines_of text.now)) }
{
    let (first, words) = first_word(head);
    let Some((second, words)) = next_word(words) else {
        return Ok(None);
    };
    if first != b"names".as_slice() || second != b"2".as_slice() {
        return Ok(None);
    }
    page_said(alloc, words, text)
}

/// The page, or journal, that the content of a file is, one that says nothing where it is empty; none where it is no page.
pub fn read_page(alloc: Global, text: &[u8]) -> Result<Option<Page>, OutOfMemory>
    ensures { IfOk result (λ read. option_map sheet_of read ≡ page_of text.now) }
{
    match text {
        [] => Ok(Some(Page::new(alloc))),
        [.., last] if *last == b'\n' => {
            let (head, rest) = first_line(text);
            page_headed(alloc, head, rest)
        }
        _ => Ok(None),
    }
}
