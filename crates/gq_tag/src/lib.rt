//! Tags, files' copies, and the messages between sessions and servers.
#![tactic(auto)]

ghost use Rattle.std.specs.Prelude.{◌≡◌, ◌↔◌, ℕ, ◌+◌, ◌<◌, ◌≤◌, IsTrue, IfOk};
ghost use Rattle.gq_tag.specs.Tag.{is_less, first_tag, first_copy, to_server};
ghost use Rattle.gq_tag.specs.View.{body_of};

use bytes::Bytes;
use gq_memory::{GrowBytes, OutOfMemory};
use std::cmp::Ordering;
use std::marker::Model;

/// When a content was written: a number, and the session that wrote it, so that two sessions never
/// write under one tag. Tags are ordered by number, and those of one number by session. (The tags
/// of several writers are those of Attiya, Bar-Noy and Dolev, Sharing memory robustly in
/// message-passing systems, JACM 42(1), 1995.)
#[derive(Clone, Copy, Debug, PartialEq, Eq)]
pub struct Tag {
    pub number: u64,
    pub session: u8,
}

impl Ord for Tag {
    ghost use Rattle.gq_tag.specs.Tag.{tag_cmp};
    ghost use Rattle.gq_tag.specs.Laws.{tag_cmp_total, tag_cmp_eq};
    ghost use Rattle.std.specs.Prelude.{refl};

    ghost cmp = { tag_cmp };

    ghost total = { tag_cmp_total };

    ghost matches_partial_cmp = { λ _ _. refl };

    ghost matches_eq = { tag_cmp_eq };

    /// Compares by number, then by session.
    fn cmp(&self, other: &Tag) -> Ordering
        ensures less { (result ≡ Ordering.Less) ↔ IsTrue (is_less self.now other.now) }
        ensures equal { (result ≡ Ordering.Equal) ↔ (self.now ≡ other.now) }
        ensures greater { (result ≡ Ordering.Greater) ↔ IsTrue (is_less other.now self.now) }
    {
        self.number
            .cmp(&other.number)
            .then(self.session.cmp(&other.session))
    }
}

impl PartialOrd for Tag {
    ghost use Rattle.gq_tag.specs.Tag.{tag_cmp};
    ghost use Rattle.gq_tag.specs.Laws.{tag_partial_cmp_laws};
    ghost use Rattle.std.specs.Ordering.{as_partial_cmp};

    ghost partial_cmp = { as_partial_cmp tag_cmp };

    ghost laws = { tag_partial_cmp_laws };

    fn partial_cmp(&self, other: &Tag) -> Option<Ordering> {
        Some(self.cmp(other))
    }
}

impl Tag {
    /// The tag of a file's first copy, number 0 of no session.
    pub fn first() -> Tag
        ensures { result ≡ first_tag }
    {
        Tag {
            number: 0,
            session: 0,
        }
    }

    /// The session's tag one above the number.
    pub fn after(number: u64, session: u8) -> Tag
        requires { number < u64.MAX }
        ensures value { result ≡ record { number = number + 1; session = session } }
        ensures above { (tag : Tag) → tag.number ≤ number → IsTrue (is_less tag result) }
    {
        Tag {
            number: number + 1,
            session,
        }
    }
}

/// The bytes of a block, by which a content's room is counted.
pub const BLOCK_BYTES: usize = 64;

/// The most files of a volume. File numbers are from 0, and all below it.
pub const MOST_FILES: u32 = 64;

/// A file: its tenant's place in the plan, the number of the tenant's volume, and the file's
/// number in the volume, all from 0.
#[derive(Clone, Copy, Debug, PartialEq, Eq)]
pub struct FileId {
    pub tenant: u8,
    pub volume: u32,
    pub file: u32,
}

/// A file's whole content, with the tag under which it was written. A clone shares the content.
#[derive(Debug, PartialEq, Eq, Drop)]
pub struct StoredCopy {
    pub tag: Tag,
    pub bytes: Bytes,
}

impl StoredCopy {
    /// The copy that each server has of a file before the first store: the first tag, and no bytes.
    pub fn first() -> StoredCopy
        ensures { result ≡ first_copy }
    {
        StoredCopy {
            tag: Tag::first(),
            bytes: Bytes::new(),
        }
    }
}

impl StoredCopy {
    /// The same, which shares the content.
    pub fn share(&self) -> Result<StoredCopy, OutOfMemory>
        ensures { IfOk result (λ same. same ≡ self.now) }
    {
        Ok(StoredCopy {
            tag: self.tag,
            bytes: self.bytes.share()?,
        })
    }
}

/// What a message says. An ask and a store go to a server; the server answers an ask by a copy
/// and a store by stored, which go to the session.
#[derive(Debug, PartialEq, Eq, Drop)]
pub enum Body {
    /// Asks for the file's copy.
    Ask,
    /// The server's copy of the file.
    Copy(StoredCopy),
    /// Stores the copy, where its tag is greater than that of the server's.
    Store(StoredCopy),
    /// A store came to the server.
    Stored,
}

impl Body {
    /// The same, which shares the content.
    pub fn share(&self) -> Result<Body, OutOfMemory>
        ensures { IfOk result (λ same. same ≡ self.now) }
    {
        match self {
            Body::Ask => Ok(Body::Ask),
            Body::Copy(copy) => Ok(Body::Copy(copy.share()?)),
            Body::Store(copy) => Ok(Body::Store(copy.share()?)),
            Body::Stored => Ok(Body::Stored),
        }
    }
}

/// A message between a session and a server, of one round of one operation of the session.
/// Sessions, operations and rounds are numbered from 1, tenants and servers from 0. A clone shares the content.
#[derive(Debug, PartialEq, Eq, Drop)]
pub struct Message {
    pub tenant: u8,
    pub session: u8,
    pub op: u32,
    pub round: u32,
    pub server: u8,
    pub file: FileId,
    pub body: Body,
}

impl Message {
    /// The same, which shares the content.
    pub fn share(&self) -> Result<Message, OutOfMemory>
        ensures { IfOk result (λ same. same ≡ self.now) }
    {
        Ok(Message {
            tenant: self.tenant,
            session: self.session,
            op: self.op,
            round: self.round,
            server: self.server,
            file: self.file,
            body: self.body.share()?,
        })
    }
}

impl Message {
    /// Whether the message goes to a server, as asks and stores do, and not to a session.
    pub fn to_server(&self) -> bool
        ensures { result ≡ to_server self.now.body }
    {
        matches!(&self.body, Body::Ask | Body::Store(_))
    }
}

/// What a message says, its copy lent.
#[derive(Clone, Copy, Debug)]
pub enum BodyView<'a> {
    /// Asks for the file's copy.
    Ask,
    /// The server's copy of the file.
    Copy(&'a StoredCopy),
    /// Stores the copy, where its tag is greater than that of the server's.
    Store(&'a StoredCopy),
    /// A store came to the server.
    Stored,
}

impl<'a> BodyView<'a> {
    /// What the message says, its copy lent.
    pub fn of(body: &'a Body) -> BodyView<'a>
        ensures { body_of result ≡ body.now }
    {
        match body {
            Body::Ask => BodyView::Ask,
            Body::Copy(copy) => BodyView::Copy(copy),
            Body::Store(copy) => BodyView::Store(copy),
            Body::Stored => BodyView::Stored,
        }
    }
}

/// A message whose copy is lent by whoever has it, as the post has the copies of many messages once. Contracts see the
/// message.
#[derive(Debug, Drop)]
pub struct MessageView<'a> {
    pub tenant: u8,
    pub session: u8,
    pub op: u32,
    pub round: u32,
    pub server: u8,
    pub file: FileId,
    pub body: BodyView<'a>,
}

impl<'a> Model for MessageView<'a> {
    ghost use Rattle.gq_tag.specs.declared.Message.{Message};
    ghost use Rattle.gq_tag.specs.View.{body_of};

    ghost Value = { Message };

    ghost view = { λ m. record { tenant = m.tenant; session = m.session; op = m.op; round = m.round; server = m.server; file = m.file; body = body_of m.body } };
}

impl<'a> MessageView<'a> {
    /// The message, its copy lent.
    pub fn of(message: &'a Message) -> MessageView<'a>
        ensures { result ≡ message.now }
    {
        MessageView {
            tenant: message.tenant,
            session: message.session,
            op: message.op,
            round: message.round,
            server: message.server,
            file: message.file,
            body: BodyView::of(&message.body),
        }
    }

    /// Whether the message goes to a server, as asks and stores do, and not to a session.
    pub fn to_server(&self) -> bool
        ensures { result ≡ to_server self.now.body }
    {
        matches!(self.body, BodyView::Ask | BodyView::Store(_))
    }
}

/// Whether the tag of `a` is greater than that of `b`.
pub fn newer(a: &StoredCopy, b: &StoredCopy) -> bool
    ensures { result ≡ is_less b.now.tag a.now.tag }
{
    b.tag < a.tag
}
