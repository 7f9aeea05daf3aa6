//! The signpost of a page that splits.

ghost use Rattle.std.specs.Prelude.{◌≡◌, Some};
ghost use Rattle.gq_page.specs.Page.{sheet_of};
ghost use Rattle.gq_split.specs.Split.{with_signpost, without_lines, is_split, is_written};

use gq_page::Page;

/// The journal of a page whose names go on to a level. No line goes or comes.
pub fn signed(journal: Page, level: u64) -> Page
    ensures { sheet_of result ≡ with_signpost level (sheet_of journal) }
{
    Page {
        number: journal.number,
        after: journal.after,
        signpost: Some(level),
        lines: journal.lines,
    }
}

/// The journal of a page that has the signpost, once each of its lines stands in a page of the session that was carried.
pub fn cleared(journal: Page) -> Page
    ensures { sheet_of result ≡ without_lines (sheet_of journal) }
{
    let mut lines = journal.lines;
    lines.clear();
    Page {
        number: journal.number,
        after: journal.after,
        signpost: journal.signpost,
        lines,
    }
}

/// Whether the names of a page went on to this level.
pub fn is_split(page: &Page, level: u64) -> bool
    ensures { result ≡ is_split level (sheet_of page.now) }
{
    match page.signpost {
        Some(to) => to == level,
        None => false,
    }
}

/// Whether a page was ever written: an empty file says nothing.
pub fn is_written(page: &Page) -> bool
    ensures { result ≡ is_written (sheet_of page.now) }
{
    page.number != 0 || !page.after.is_empty() || page.signpost.is_some() || !page.lines.is_empty()
}
