//! Pages as values.

ghost use Rattle.std.specs.Prelude.{◌≡◌, IfOk, IsTrue, map, option_map};
ghost use Rattle.gq_page.specs.Page.{sheet_of, new_sheet, is_named, line_of, after_of};

use bytes::Bytes;
use gq_memory::{GrowBytes, GrowCopies, GrowVec, OutOfMemory};
use std::alloc::Global;

/// What a page says of one name: from this version on it holds this. What it holds stands here as its words do in the text: `-` where the
/// name was removed, else a content, or where its slots are, with the words of whoever put it.
#[derive(Debug, PartialEq, Eq, Drop)]
pub struct Line {
    pub version: u64,
    pub said: Bytes,
    pub name: Bytes,
}

impl Line {
    /// The same, which shares the bytes.
    pub fn share(&self) -> Result<Line, OutOfMemory>
        ensures { IfOk result (λ same. same ≡ self.now) }
    {
        Ok(Line {
            version: self.version,
            said: self.said.share()?,
            name: self.name.share()?,
        })
    }

    /// Whether it is of this name.
    pub fn is_of(&self, name: &[u8]) -> bool
        ensures { result ≡ is_named name.now self.now }
    {
        self.name.as_slice() == name
    }

    /// Whether the name was removed. Words may stand before that.
    pub fn is_removal(&self) -> bool
        ensures { result ≡ is_removal self.now }
    {
        let said = self.said.as_slice();
        if said.len() < 3 {
            return said == b"-".as_slice();
        }
        &said[said.len() - 3..] == b"} -".as_slice()
    }
}

/// A page, or the journal that says how it is to be: the number of its latest change; after which number the page of each session is to
/// be seen beside it, none of those left out; at which level of pages its names went on, if they did; and its lines.
#[derive(Debug, Drop)]
pub struct Page {
    pub number: u64,
    pub after: Vec<u64>,
    pub signpost: Option<u64>,
    pub lines: Vec<Line>,
}

ghost use Rattle.gq_page.specs.Page.{is_removal};

impl Page {
    /// The page of a session that has said nothing.
    pub fn new(alloc: Global) -> Page
        ensures { sheet_of result ≡ new_sheet }
    {
        Page {
            number: 0,
            after: Vec::new(alloc),
            signpost: None,
            lines: Vec::new(alloc),
        }
    }

    /// An equal page, which shares the bytes of its lines.
    pub fn share(&self, alloc: Global) -> Result<Page, OutOfMemory>
        ensures { IfOk result (λ same. sheet_of same ≡ sheet_of self.now) }
    {
        let mut lines = Vec::new(alloc);
        for line in &self.lines {
            lines.grow(line.share()?)?;
        }
        Ok(Page {
            number: self.number,
            after: self.after.same_items()?,
            signpost: self.signpost,
            lines,
        })
    }

    /// The first line of a name.
    pub fn shown(&self, name: &[u8]) -> Option<&Line>
        ensures { option_map (λ line. line.now) result ≡ line_of name.now self.now.lines.items }
    {
        self.lines.iter().find(|line| line.is_of(name))
    }

    /// The number that the page of a session is to have at least, where it is seen beside this one; 0 for any.
    pub fn after_of(&self, session: usize) -> u64
        ensures { result ≡ after_of (sheet_of self.now) session }
    {
        match self.after.get(session) {
            Some(number) => *number,
            None => 0,
        }
    }
}
