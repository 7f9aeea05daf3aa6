//! What is read of the text of pages.

ghost use Rattle.gq_page.specs.Laws.{PagesReadBack, SaidReadBack};

/// What stands before a name is told from it, whatever spaces the name has.
pub fn said_read_back()
    ensures { SaidReadBack }
{}

/// The text of a page is read as that page.
pub fn pages_read_back()
    ensures { PagesReadBack }
{}
