//! A change: what goes with it, and the journal that announces it.

ghost use Rattle.std.specs.Prelude.{◌≡◌, ℕ, ◌+◌, ◌<◌, ◌≤◌, ◌^◌, [], ◌∷◌, ◌++◌, length, map, max, slice_index, None, Some, IfOk, IfSome, IfNone};
ghost use Rattle.std.specs.List.{list_any};
ghost use Rattle.gq_page.specs.Page.{sheet_of};
ghost use Rattle.gq_client.specs.Changing.{stays, beside, later_of, greatest_from, all_know_from, fate_beside, is_among, is_changed, fate_of, latest_removal, unknown, kept_by, asks_for, highest_seen, asked_after, after_from, new_line, said_in, name_said, IsChanged};

use crate::view::Known;
use bytes::Bytes;
use gq_memory::{GrowBytes, GrowVec, OutOfMemory};
use gq_page::{Line, Page};
use gq_tag::Tag;
use std::alloc::Global;

/// What is to be said of a name: what it holds from then on, in the words of a page.
#[derive(Debug, Drop)]
pub struct NewLine {
    pub name: Bytes,
    pub said: Bytes,
}

/// A change that is wanted: a new line on top, or none, and names of which no other session ever wrote a line or will: their lines go besides.
#[derive(Debug, Drop)]
pub struct Change {
    pub line: Option<NewLine>,
    pub besides: Vec<Bytes>,
}

/// What becomes of a line with the next change.
#[derive(Clone, Copy)]
pub enum Fate {
    /// It stays.
    Stays,
    /// Another one takes its place, or what it says stands in another one from now on.
    Goes,
    /// Another session's page shows a greater one.
    Beaten(u8),
    /// Nothing stands in it, each other page was made beside it, and none shows a line of its name.
    Forgotten,
}

impl Fate {
    // Whether it stays.
    fn stays(self) -> bool
        ensures { result ≡ stays self }
    {
        matches!(self, Fate::Stays)
    }

    // Whether it goes only where the page of a session is seen from then on as it was seen now.
    fn asks(self, own: u8, session: usize) -> bool
        ensures { result ≡ asks_for own session self }
    {
        match self {
            Fate::Stays | Fate::Goes => false,
            Fate::Beaten(by) => session == usize::from(by),
            Fate::Forgotten => session != usize::from(own),
        }
    }
}

// The version of the line of a name that a page of another session shows.
fn beside(known: &Known, session: u8, own: u8, name: &[u8]) -> Option<Tag>
    ensures { result ≡ beside session own name.now known.now }
{
    if session == own {
        return None;
    }
    match known.page.shown(name) {
        Some(line) => Some(Tag {
            number: line.version,
            session,
        }),
        None => None,
    }
}

// The later of two versions, if there is one.
fn later_of(a: Option<Tag>, b: Option<Tag>) -> Option<Tag>
    ensures { result ≡ later_of a b }
{
    match (a, b) {
        (None, _) => b,
        (_, None) => a,
        (Some(x), Some(y)) => { if y < x { a } else { b } }
    }
}

// The greatest version of a name that the pages of other sessions show.
fn greatest_beside(seen: &[Known], own: u8, name: &[u8]) -> Option<Tag>
    requires { length seen.now < 256 }
    ensures { result ≡ greatest_from 0 own name.now seen.now None }
{
    let mut greatest = None;
    for (session, known) in seen.iter().enumerate() {
        greatest = later_of(greatest, beside(known, session as u8, own, name));
    }
    greatest
}

// Whether each other page says that it was made beside a page of the session with that number, or a later one.
fn all_know(seen: &[Known], own: u8, number: u64) -> bool
    ensures { result ≡ all_know_from 0 own number seen.now }
{
    for (session, known) in seen.iter().enumerate() {
        if session != usize::from(own) && known.page.after_of(usize::from(own)) < number {
            return false;
        }
    }
    true
}

// What becomes of a line because of the pages of other sessions.
fn fate_beside(seen: &[Known], own: u8, line: &Line) -> Fate
    requires { length seen.now < 256 }
    ensures { result ≡ fate_beside seen.now own line.now }
{
    match greatest_beside(seen, own, line.name.as_slice()) {
        Some(version) => {
            let here = Tag {
                number: line.version,
                session: own,
            };
            if here < version {
                Fate::Beaten(version.session)
            } else {
                Fate::Stays
            }
        }
        None => {
            if line.is_removal() && all_know(seen, own, line.version) {
                Fate::Forgotten
            } else {
                Fate::Stays
            }
        }
    }
}

// Whether the line is of one of these names.
fn is_among(names: &[Bytes], line: &Line) -> bool
    ensures { result ≡ is_among names.now line.now }
{
    for name in names {
        if line.is_of(name.as_slice()) {
            return true;
        }
    }
    false
}

// Whether the line is of the name of which something new is said, if of any.
fn is_changed(new: &Option<NewLine>, line: &Line) -> bool
    ensures { result ≡ is_changed (name_said (said_in new.now)) line.now }
{
    match new {
        Some(new) => line.is_of(new.name.as_slice()),
        None => false,
    }
}

// What becomes of a line with the change.
fn fate_of(seen: &[Known], own: u8, change: &Change, line: &Line) -> Fate
    requires { length seen.now < 256 }
    ensures { result ≡ fate_of seen.now own (name_said (said_in change.now.line)) change.now.besides.items line.now }
{
    if is_changed(&change.line, line) {
        return Fate::Goes;
    }
    let fate = fate_beside(seen, own, line);
    if fate.stays() && is_among(change.besides.as_slice(), line) {
        return Fate::Goes;
    }
    fate
}

// What becomes of each line.
fn fates_of(
    alloc: Global,
    seen: &[Known],
    own: u8,
    change: &Change,
    lines: &[Line],
) -> Result<Vec<Fate>, OutOfMemory>
    requires { length seen.now < 256 }
    ensures { IfOk result (λ fates. fates.items ≡ map (fate_of seen.now own (name_said (said_in change.now.line)) change.now.besides.items) lines.now) }
{
    let mut fates = Vec::new(alloc);
    for line in lines {
        fates.grow(fate_of(seen, own, change, line))?;
    }
    Ok(fates)
}

// The lines that stay.
fn kept(alloc: Global, lines: &[Line], fates: &[Fate]) -> Result<Vec<Line>, OutOfMemory>
    requires { length fates.now ≡ length lines.now }
    ensures { IfOk result (λ kept. kept.items ≡ kept_by lines.now fates.now) }
{
    let mut kept = Vec::new(alloc);
    for (i, line) in lines.iter().enumerate() {
        if fates[i].stays() {
            kept.grow(line.share()?)?;
        }
    }
    Ok(kept)
}

// The greatest number of the removals that a page shows, 0 where it shows none.
fn latest_removal(lines: &[Line]) -> u64
    ensures { result ≡ latest_removal 0 lines.now }
{
    let mut latest = 0;
    for line in lines {
        if line.is_removal() {
            latest = line.version.max(latest);
        }
    }
    latest
}

// Whether the page shows removals that the journal does not say it was made beside.
fn is_unknown(known: &Known, session: usize, own: u8, journal: &Page) -> bool
    ensures { result ≡ unknown session own (sheet_of journal.now) known.now }
{
    session != usize::from(own)
        && journal.after_of(session) < latest_removal(known.page.lines.as_slice())
}

// Whether some line goes only where the page of a session is seen as it was.
fn is_asked(fates: &[Fate], own: u8, session: usize) -> bool
    ensures { result ≡ list_any (asks_for own session) fates.now }
{
    for fate in fates {
        if fate.asks(own, session) {
            return true;
        }
    }
    false
}

// The number that the page of a session is to have at least from then on.
fn asked_after(known: &Known, session: usize, own: u8, journal: &Page, fates: &[Fate]) -> u64
    ensures { result ≡ asked_after own (sheet_of journal.now) fates.now session known.now }
{
    let before = journal.after_of(session);
    if is_asked(fates, own, session) || is_unknown(known, session, own, journal) {
        known.page.number.max(before)
    } else {
        before
    }
}

// The same of each session.
fn all_after(
    alloc: Global,
    seen: &[Known],
    own: u8,
    journal: &Page,
    fates: &[Fate],
) -> Result<Vec<u64>, OutOfMemory>
    ensures { IfOk result (λ after. after.items ≡ after_from 0 own (sheet_of journal.now) fates.now seen.now) }
{
    let mut after = Vec::new(alloc);
    for (session, known) in seen.iter().enumerate() {
        after.grow(asked_after(known, session, own, journal, fates))?;
    }
    Ok(after)
}

// Numbers without the zeros at their end.
fn trimmed(numbers: Vec<u64>) -> Vec<u64>
    ensures { (t : ℕ) → slice_index result.items t ≡ slice_index numbers.items t }
{
    let mut numbers = numbers;
    while let Some(0) = numbers.last() {
        let _ = numbers.pop();
    }
    numbers
}

// The highest number of the pages that were seen, of the own session's in its journal.
fn highest_seen(seen: &[Known], own: u8, journal: &Page) -> u64
    ensures { result ≡ highest_seen seen.now own (sheet_of journal.now) }
{
    let mut highest = journal.number;
    for (session, known) in seen.iter().enumerate() {
        if session != usize::from(own) {
            highest = known.page.number.max(highest);
        }
    }
    highest
}

// A number for a change: it is `least` or more, and above those of all pages that were seen, and of the own journal. None where there is none.
pub(crate) fn new_number(seen: &[Known], own: u8, journal: &Page, least: u64) -> Option<u64>
    ensures above { IfSome result (λ number. number ≡ max (highest_seen seen.now own (sheet_of journal.now) + 1) least) }
    ensures none { IfNone result (highest_seen seen.now own (sheet_of journal.now) + 1 ≡ 2 ^ 64) }
{
    match highest_seen(seen, own, journal).checked_add(1) {
        Some(number) => Some(number.max(least)),
        None => None,
    }
}

// The new line under a number, if there is one.
fn numbered(number: u64, new: &Option<NewLine>) -> Result<Option<Line>, OutOfMemory>
    ensures { IfOk result (λ made. made ≡ new_line number (said_in new.now)) }
{
    match new {
        Some(new) => Ok(Some(Line {
            version: number,
            said: new.said.share()?,
            name: new.name.share()?,
        })),
        None => Ok(None),
    }
}

// The journal of a client that has looked, with the change under this number, and without lines that go.
pub(crate) fn changed(
    alloc: Global,
    seen: &[Known],
    own: u8,
    journal: &Page,
    number: u64,
    change: &Change,
) -> Result<Page, OutOfMemory>
    requires { length seen.now < 256 }
    ensures { IfOk result (λ page. IsChanged seen.now own (sheet_of journal.now) number (said_in change.now.line) change.now.besides.items (sheet_of page)) }
{
    let fates = fates_of(alloc, seen, own, change, journal.lines.as_slice())?;
    let after = trimmed(all_after(alloc, seen, own, journal, fates.as_slice())?);
    let mut lines = kept(alloc, journal.lines.as_slice(), fates.as_slice())?;
    if let Some(line) = numbered(number, &change.line)? {
        lines.grow(line)?;
    }
    Ok(Page {
        number,
        after,
        signpost: journal.signpost,
        lines,
    })
}
