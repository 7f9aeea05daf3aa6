//! One session's client of a bucket, step by step.

ghost use Rattle.std.specs.Prelude.{◌≡◌, ◌<◌, None, Err, true, false, length, reverse, slice_get, slice_set, option_map, IfOk, if◌then◌else◌};
ghost use Rattle.gq_page.specs.Page.{sheet_of};
ghost use Rattle.gq_client.specs.Looking.{seen_of, IsUnseen, page_in, is_tag, left_from, GoesOnTo};

use crate::changing::{Change, changed, new_number};
use crate::view::{Known, Wanted, asked};
use gq_memory::{GrowCopies, GrowVec, OutOfMemory};
use gq_page::Page;
use gq_tag::Tag;
use std::alloc::Global;
use std::mem;
use thiserror::Error;

/// Why a client can't go on with an answer, or with a change.
#[derive(Debug, Drop, Error)]
pub enum Fault {
    /// The page of this session is older than another one that was written after it: so they are not what such clients write.
    #[error("a page is older than another that was written after it")]
    Older(u8),
    /// The client did not ask for this answer; or for a change it has not looked, or does not know its journal.
    #[error("not now")]
    NotNow,
    /// There is no greater number.
    #[error("no number is left")]
    NoNumber,
    /// There is too little memory.
    #[error("out of memory")]
    Memory(OutOfMemory),
}

impl From<OutOfMemory> for Fault {
    ghost use Rattle.gq_client.specs.declared.client.Fault.TheVariants.{Memory};

    ghost from_gives = { λ refused fault. fault ≡ Memory refused };

    fn from(refused: OutOfMemory) -> Fault {
        Fault::Memory(refused)
    }
}

/// What a client asks for.
#[derive(Debug)]
pub enum Request<'a> {
    ReadJournal,
    ListPages,
    ReadPage(u8),
    WriteJournal(&'a Page),
    WritePage(&'a Page),
}

/// What a client does.
#[derive(Debug, Drop)]
pub enum Doing {
    /// Nothing.
    Knows,
    /// It reads its journal.
    Enters,
    /// It asks for the tags of all pages, of its own page too or not.
    Lists(bool),
    /// It reads these pages, the last one next, in a look at its own page too or not.
    Reads(bool, Vec<Wanted>),
    /// It has looked at all pages, at its own one too or not.
    Looked(bool),
    /// It writes this journal.
    Announces(Page),
    /// That was answered: it writes the page as its journal has it.
    Carries,
}

impl Doing {
    ghost use Rattle.gq_client.specs.Steps.{SameDoing, listing_of, has_looked};

    // The same, which shares the bytes of pages.
    fn share(&self, alloc: Global) -> Result<Doing, OutOfMemory>
        ensures { IfOk result (SameDoing self.now) }
    {
        match self {
            Doing::Knows => Ok(Doing::Knows),
            Doing::Enters => Ok(Doing::Enters),
            Doing::Lists(own) => Ok(Doing::Lists(*own)),
            Doing::Reads(own, left) => Ok(Doing::Reads(*own, left.same_items()?)),
            Doing::Looked(own) => Ok(Doing::Looked(*own)),
            Doing::Announces(journal) => Ok(Doing::Announces(journal.share(alloc)?)),
            Doing::Carries => Ok(Doing::Carries),
        }
    }

    // Where the tags of pages are asked for: whether that of the own page is among them.
    fn listing(&self) -> Option<bool>
        ensures { result ≡ listing_of self.now }
    {
        match self {
            Doing::Lists(own) => Some(*own),
            _ => None,
        }
    }

    // Whether all pages were looked at.
    fn has_looked(&self) -> bool
        ensures { result ≡ has_looked self.now }
    {
        matches!(self, Doing::Looked(_))
    }
}

// Whether the tag of a page, of those that were told, is the known one. (None is told of a page that has to be read.)
fn is_known(tags: &[Option<Tag>], session: usize, known: &Known) -> bool
    ensures { result ≡ is_tag (slice_get tags.now session) known.now.tag }
{
    match tags.get(session) {
        Some(Some(tag)) => *tag == known.tag,
        _ => false,
    }
}

// The pages that are to be read, the last session first: those whose tags are not the known ones, the own one among them or not.
fn unknown_pages(
    alloc: Global,
    seen: &[Known],
    own: bool,
    session: u8,
    tags: &[Option<Tag>],
) -> Result<Vec<Wanted>, OutOfMemory>
    requires { length seen.now < 256 }
    ensures { IfOk result (λ left. left.items ≡ reverse (left_from 0 own session tags.now seen.now)) }
{
    let mut left = Vec::new(alloc);
    for (place, known) in seen.iter().enumerate() {
        if (own || place != usize::from(session)) && !is_known(tags, place, known) {
            left.grow(Wanted {
                session: place as u8,
                number: 0,
            })?;
        }
    }
    left.reverse();
    Ok(left)
}

// What is done where these pages are left to be read, and these are asked for.
fn goes_on_to(own: bool, left: Vec<Wanted>, wanted: Vec<Wanted>) -> Doing
    ensures { GoesOnTo own left.items wanted.items result }
{
    if !left.is_empty() {
        return Doing::Reads(own, left);
    }
    if !wanted.is_empty() {
        return Doing::Reads(own, wanted);
    }
    Doing::Looked(own)
}

// Whether the page of a session is among these.
fn has_session(wanted: &[Wanted], session: u8) -> bool {
    for each in wanted {
        if each.session == session {
            return true;
        }
    }
    false
}

// What was seen of the page of a session is this from now on.
fn put_seen(seen: &mut Vec<Known>, session: u8, known: Known)
    ensures { seen.new.items ≡ slice_set seen.old.items session known }
{
    if let Some(place) = seen.get_mut(usize::from(session)) {
        *place = known;
    }
}

// The journal that counts in a look, at the own page too or not.
fn journal_counting(own: bool, journal: &Option<Page>) -> Option<&Page>
    ensures { page_in result ≡ (if own then None else journal.now) }
{
    if own { None } else { journal.as_ref() }
}

// A journal that is known, which shares the bytes.
fn shared(alloc: Global, journal: &Option<Page>) -> Result<Option<Page>, OutOfMemory>
    ensures { IfOk result (λ same. option_map sheet_of same ≡ option_map sheet_of journal.now) }
{
    match journal {
        Some(journal) => Ok(Some(journal.share(alloc)?)),
        None => Ok(None),
    }
}

/// What the client of a session knows of a bucket, and does: the pages of all sessions as it saw them last, and its journal, if it knows it.
#[derive(Debug, Drop)]
pub struct Client {
    pub session: u8,
    pub seen: Vec<Known>,
    pub journal: Option<Page>,
    pub doing: Doing,
    ghost few: { length seen.items < 256 },
}

impl Client {
    ghost use Rattle.std.specs.Prelude.{All, OnOk, OnErr, map};
    ghost use Rattle.gq_client.specs.Changing.{said_in};
    ghost use Rattle.gq_client.specs.Steps.{SameDoing, AsksFor, IsChange, Chooses, IsWritten, IsNoted, GoesOn, IsListed, IsRead, listing_of, has_looked};

    /// A client that knows nothing yet.
    pub fn new(alloc: Global, session: u8, sessions: u8) -> Result<Client, OutOfMemory>
        ensures session { IfOk result (λ client. client.session ≡ session) }
        ensures pages { IfOk result (λ client. length client.seen.items ≡ sessions) }
        ensures unseen { IfOk result (λ client. All IsUnseen client.seen.items) }
        ensures journal { IfOk result (λ client. client.journal ≡ None) }
        ensures doing { IfOk result (λ client. client.doing ≡ Doing.Knows) }
    {
        let mut seen = Vec::new(alloc);
        for _session in 0..sessions {
            seen.grow(Known::unseen(alloc))?;
        }
        Ok(Client {
            session,
            seen,
            journal: None,
            doing: Doing::Knows,
        })
    }

    /// The same client, which shares the bytes of its pages.
    pub fn share(&self, alloc: Global) -> Result<Client, OutOfMemory>
        ensures session { IfOk result (λ same. same.session ≡ self.now.session) }
        ensures seen { IfOk result (λ same. map seen_of same.seen.items ≡ map seen_of self.now.seen.items) }
        ensures journal { IfOk result (λ same. option_map sheet_of same.journal ≡ option_map sheet_of self.now.journal) }
        ensures doing { IfOk result (λ same. SameDoing self.now.doing same.doing) }
    {
        let mut seen = Vec::new(alloc);
        for known in &self.seen {
            seen.grow(known.share(alloc)?)?;
        }
        Ok(Client {
            session: self.session,
            seen,
            journal: shared(alloc, &self.journal)?,
            doing: self.doing.share(alloc)?,
        })
    }

    /// It begins to read its journal.
    pub fn enter(&mut self)
        ensures doing { self.new.doing ≡ Doing.Enters }
        ensures journal { self.new.journal ≡ self.old.journal }
        ensures session { self.new.session ≡ self.old.session }
        ensures seen { self.new.seen ≡ self.old.seen }
    {
        self.doing = Doing::Enters;
    }

    /// It begins to look at the pages, at its own one too or not: then its journal counts.
    pub fn look(&mut self, own: bool)
        ensures doing { self.new.doing ≡ Doing.Lists own }
        ensures journal { self.new.journal ≡ self.old.journal }
        ensures session { self.new.session ≡ self.old.session }
        ensures seen { self.new.seen ≡ self.old.seen }
    {
        self.doing = Doing::Lists(own);
    }

    /// It got no answer to a write: it has to enter anew.
    pub fn forget(&mut self)
        ensures doing { self.new.doing ≡ Doing.Knows }
        ensures journal { self.new.journal ≡ None }
        ensures session { self.new.session ≡ self.old.session }
        ensures seen { self.new.seen ≡ self.old.seen }
    {
        self.journal = None;
        self.doing = Doing::Knows;
    }

    /// What it asks for next; nothing where it has nothing to do.
    pub fn request(&self) -> Option<Request>
        ensures { AsksFor self.now.doing self.now.journal result }
    {
        match &self.doing {
            Doing::Knows => None,
            Doing::Looked(_) => None,
            Doing::Enters => Some(Request::ReadJournal),
            Doing::Lists(_) => Some(Request::ListPages),
            Doing::Reads(_, left) => match left.last() {
                Some(wanted) => Some(Request::ReadPage(wanted.session)),
                None => None,
            },
            Doing::Announces(journal) => Some(Request::WriteJournal(journal)),
            Doing::Carries => match &self.journal {
                Some(journal) => Some(Request::WritePage(journal)),
                None => None,
            },
        }
    }

    // What is left to be read, and where that is nothing, what pages ask for.
    fn go_on(&mut self, alloc: Global, own: bool, left: Vec<Wanted>) -> Result<(), Fault>
        ensures ok { OnOk result (GoesOn own left.items self.old self.new) }
        ensures err { OnErr result (self.new ≡ self.old) }
        ensures now { result ≡ Err Fault.NotNow → ⊥ }
    {
        let journal = journal_counting(own, &self.journal);
        let wanted = asked(alloc, self.seen.as_slice(), self.session, journal)?;
        if left.is_empty() && !own && has_session(wanted.as_slice(), self.session) {
            return Err(Fault::Older(self.session));
        }
        self.doing = goes_on_to(own, left, wanted);
        Ok(())
    }

    /// It is told the tags of the pages of all sessions, none of one that a look did not settle: it reads those that it does not know as they are. NotNow
    /// where it did not ask for them; Older where its journal is older than what other pages ask for. After an error it is as it was.
    pub fn listed(&mut self, alloc: Global, tags: &[Option<Tag>]) -> Result<(), Fault>
        ensures ok { OnOk result (IsListed tags.now self.old.doing self.old self.new) }
        ensures err { OnErr result (self.new ≡ self.old) }
        ensures now { result ≡ Err Fault.NotNow → listing_of self.old.doing ≡ None }
    {
        let Some(own) = self.doing.listing() else {
            return Err(Fault::NotNow);
        };
        let left = unknown_pages(alloc, self.seen.as_slice(), own, self.session, tags)?;
        self.go_on(alloc, own, left)
    }

    /// It is told the page, or the journal, that it read. NotNow where it reads none: it is as it was. Older where that page has a lesser number than
    /// another page asks for, or its journal than the pages that were seen ask for. After any other error than NotNow it has nothing to do.
    pub fn read(&mut self, alloc: Global, known: Known) -> Result<(), Fault>
        ensures ok { OnOk result (IsRead known self.old.doing self.old self.new) }
        ensures err { OnErr result (self.new.journal ≡ self.old.journal) }
        ensures session { self.new.session ≡ self.old.session }
    {
        let Known { tag, page } = known;
        match mem::replace(&mut self.doing, Doing::Knows) {
            Doing::Enters => {
                self.journal = Some(page);
                Ok(())
            }
            Doing::Reads(own, left) => {
                let mut left = left;
                let Some(wanted) = left.pop() else {
                    return Err(Fault::NotNow);
                };
                if page.number < wanted.number {
                    return Err(Fault::Older(wanted.session));
                }
                put_seen(&mut self.seen, wanted.session, Known { tag, page });
                self.go_on(alloc, own, left)
            }
            doing => {
                self.doing = doing;
                Err(Fault::NotNow)
            }
        }
    }

    /// The journal of a change, of a client that has looked: with the new line on top, of a number that is `least` or more, and above those of all pages
    /// that it saw and of its journal; and without the lines that go. NotNow where it has not looked, or does not know its journal; NoNumber where there is
    /// no greater number.
    pub fn change(&self, alloc: Global, least: u64, change: &Change) -> Result<Page, Fault>
        ensures ok { IfOk result (λ page. IsChange self.now least (said_in change.now.line) change.now.besides.items page) }
        ensures now { has_looked self.now.doing ≡ true → result ≡ Err Fault.NotNow → self.now.journal ≡ None }
    {
        if !self.doing.has_looked() {
            return Err(Fault::NotNow);
        }
        let Some(journal) = &self.journal else {
            return Err(Fault::NotNow);
        };
        let seen = self.seen.as_slice();
        let Some(number) = new_number(seen, self.session, journal, least) else {
            return Err(Fault::NoNumber);
        };
        let page = changed(alloc, seen, self.session, journal, number, change)?;
        Ok(page)
    }

    /// It chooses a change, and begins to announce its journal. The errors are those of [`Client::change`]: it is as it was then.
    pub fn choose(&mut self, alloc: Global, least: u64, change: &Change) -> Result<(), Fault>
        ensures ok { OnOk result (Chooses self.old least (said_in change.now.line) change.now.besides.items self.new) }
        ensures err { OnErr result (self.new ≡ self.old) }
        ensures journal { self.new.journal ≡ self.old.journal }
        ensures session { self.new.session ≡ self.old.session }
        ensures seen { self.new.seen ≡ self.old.seen }
    {
        let journal = self.change(alloc, least, change)?;
        self.doing = Doing::Announces(journal);
        Ok(())
    }

    /// It begins to announce a journal.
    pub fn announce(&mut self, journal: Page)
        ensures doing { self.new.doing ≡ Doing.Announces journal }
        ensures journal { self.new.journal ≡ self.old.journal }
        ensures session { self.new.session ≡ self.old.session }
        ensures seen { self.new.seen ≡ self.old.seen }
    {
        self.doing = Doing::Announces(journal);
    }

    /// It is told that what it wrote has this tag. NotNow where it writes nothing. After an error it has nothing to do, or what it had.
    pub fn written(&mut self, alloc: Global, tag: Tag) -> Result<(), Fault>
        ensures ok { OnOk result (IsWritten self.old.doing self.old self.new) }
        ensures seen { OnOk result (IsNoted tag self.old.doing self.old self.new) }
        ensures session { self.new.session ≡ self.old.session }
    {
        match mem::replace(&mut self.doing, Doing::Knows) {
            Doing::Announces(journal) => {
                self.journal = Some(journal);
                self.doing = Doing::Carries;
                Ok(())
            }
            Doing::Carries => {
                let Some(journal) = &self.journal else {
                    return Err(Fault::NotNow);
                };
                let page = journal.share(alloc)?;
                put_seen(&mut self.seen, self.session, Known { tag, page });
                Ok(())
            }
            doing => {
                self.doing = doing;
                Err(Fault::NotNow)
            }
        }
    }
}
