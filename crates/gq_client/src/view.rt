//! What was seen of pages, and what they say together.
//!
//! Of the pages of all sessions a client has what it saw last. Where it did not look at its own page, its journal counts as if it were in force: so a look
//! has the own session and its journal, or no journal.

ghost use Rattle.std.specs.Prelude.{◌≡◌, ◌<◌, None, Some, length, reverse, max, option_map, IfOk};
ghost use Rattle.gq_page.specs.Page.{after_of, sheet_of};
ghost use Rattle.gq_client.specs.Looking.{seen_of, IsUnseen, page_in, page_at, most_from, wanted_from, line_at, later_line, shown_from};

use gq_memory::{GrowVec, OutOfMemory};
use gq_page::{Line, Page};
use gq_tag::Tag;
use std::alloc::Global;

/// A page as it was seen, with the tag of its file.
#[derive(Debug, Drop)]
pub struct Known {
    pub tag: Tag,
    pub page: Page,
}

impl Known {
    // A page that nobody has seen.
    pub(crate) fn unseen(alloc: Global) -> Known
        ensures { IsUnseen result }
    {
        Known {
            tag: Tag::first(),
            page: Page::new(alloc),
        }
    }

    // The same, which shares the bytes of the page.
    pub(crate) fn share(&self, alloc: Global) -> Result<Known, OutOfMemory>
        ensures { IfOk result (λ same. seen_of same ≡ seen_of self.now) }
    {
        Ok(Known {
            tag: self.tag,
            page: self.page.share(alloc)?,
        })
    }
}

/// A page that is to be read, and the number that it has to have at least.
#[derive(Clone, Copy, Debug)]
pub struct Wanted {
    pub session: u8,
    pub number: u64,
}

// What counts of the page of a session.
fn page_at<'a>(known: &'a Known, session: usize, own: u8, journal: Option<&'a Page>) -> &'a Page
    ensures { result.now ≡ page_at session own (page_in journal.entry) known.now }
{
    match journal {
        Some(journal) if session == usize::from(own) => journal,
        _ => &known.page,
    }
}

// The number that the page of a session is to have at least, where it is seen beside these.
fn most_asked(seen: &[Known], own: u8, journal: Option<&Page>, session: usize) -> u64
    ensures { result ≡ most_from 0 own (page_in journal.entry) session seen.now 0 }
{
    let mut most = 0;
    for (other, known) in seen.iter().enumerate() {
        most = page_at(known, other, own, journal)
            .after_of(session)
            .max(most);
    }
    most
}

/// The pages that others ask to be seen with a later number, each with that number, the last session first: none where what is seen is *closed*.
pub fn asked(
    alloc: Global,
    seen: &[Known],
    own: u8,
    journal: Option<&Page>,
) -> Result<Vec<Wanted>, OutOfMemory>
    requires { length seen.now < 256 }
    ensures { IfOk result (λ wanted. wanted.items ≡ reverse (wanted_from 0 own (page_in journal.entry) seen.now seen.now)) }
{
    let mut wanted = Vec::new(alloc);
    for (session, known) in seen.iter().enumerate() {
        let number = most_asked(seen, own, journal, session);
        if page_at(known, session, own, journal).number < number {
            wanted.grow(Wanted {
                session: session as u8,
                number,
            })?;
        }
    }
    wanted.reverse();
    Ok(wanted)
}

// The line of a name that counts of a session's page, and its version.
fn line_at<'a>(
    known: &'a Known,
    session: u8,
    own: u8,
    journal: Option<&'a Page>,
    name: &[u8],
) -> Option<(Tag, &'a Line)>
    ensures { option_map (λ found. (found.0, found.1.now)) result ≡ line_at session own (page_in journal.entry) name.now known.now }
{
    match page_at(known, usize::from(session), own, journal).shown(name) {
        Some(line) => Some((
            Tag {
                number: line.version,
                session,
            },
            line,
        )),
        None => None,
    }
}

// The later of two lines, if there is one.
fn later_line<'a>(a: Option<(Tag, &'a Line)>, b: Option<(Tag, &'a Line)>) -> Option<(Tag, &'a Line)>
    ensures { option_map (λ found. (found.0, found.1.now)) result
        ≡ later_line (option_map (λ found. (found.0, found.1.now)) a.entry) (option_map (λ found. (found.0, found.1.now)) b.entry) }
{
    match (a, b) {
        (None, _) => b,
        (_, None) => a,
        (Some((x, _)), Some((y, _))) => { if y < x { a } else { b } }
    }
}

/// The greatest line of a name that pages show, and its version; none where none shows one.
pub fn greatest_shown<'a>(
    seen: &'a [Known],
    own: u8,
    journal: Option<&'a Page>,
    name: &[u8],
) -> Option<(Tag, &'a Line)>
    requires { length seen.now < 256 }
    ensures { option_map (λ found. (found.0, found.1.now)) result ≡ shown_from 0 own (page_in journal.entry) name.now seen.now None }
{
    let mut greatest = None;
    for (session, known) in seen.iter().enumerate() {
        greatest = later_line(greatest, line_at(known, session as u8, own, journal, name));
    }
    greatest
}
