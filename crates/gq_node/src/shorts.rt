//! Short forms of letters: a tag stands for a copy where the one whom the letter goes to has the content, or has no use for it.

ghost use Rattle.std.specs.Prelude.{◌≡◌, ◌<◌, ℕ, List, [], ◌∷◌, length, None, Some, true, IfOk, option_map};
ghost use Rattle.gq_grid.specs.declared.TheConstants.{MOST_SERVERS};
ghost use Rattle.gq_tag.specs.declared.Body.TheVariants.{Ask as AnAsk, Copy as ACopy, Store as AStore, Stored as IsStored};
ghost use Rattle.gq_desk.specs.Volumes.{limit_of};
ghost use Rattle.gq_replace.specs.Plans.{place_of};
ghost use Rattle.gq_node.specs.Local.{file_fits};
ghost use Rattle.gq_node.specs.Sites.{site_of, has_session};
ghost use Rattle.gq_node.specs.Shorts.{body_with, own_short, short_with, letter_as, takes_short, above_first, asks_above, goes_short, hears_tag, confirms, stores_again};
ghost use Rattle.gq_node.specs.ShortSteps.{whole_of, reply_as, short_at, takes_in, stored_for, bound_in, is_beside_in, bound_at, short_body_at, goes_without_at, GivesOne, ActsShortly, ShortFormIs, form_at};
ghost use Rattle.gq_node.specs.SessionStates.{confirms_in};
ghost use Rattle.gq_node.specs.Tables.{session_state_at};

use crate::homes::{home, session_state_place};
use crate::output::Output;
use crate::session_states::SessionState;
use crate::tables::Core;
use gq_memory::{GrowVec, OutOfMemory};
use gq_tag::{Body, FileId, Message, StoredCopy, Tag};
use std::alloc::Global;

/// What a short letter says.
#[derive(Clone, Copy)]
pub enum ShortBody {
    /// An ask: tell the copy where its tag is greater than this one, else its tag.
    AskAbove(Tag),
    /// The tag of the server's copy.
    Tagged(Tag),
    /// A store of the copy that has this tag, without its content.
    Confirm(Tag),
    /// The server has no copy of such a tag, nor of a greater one: it wants the store whole.
    Want,
}

/// A letter in a short form.
#[derive(Clone, Copy)]
pub struct Short {
    pub tenant: u8,
    pub session: u8,
    pub op: u32,
    pub round: u32,
    pub server: u8,
    pub file: FileId,
    pub body: ShortBody,
}

/// What a node gives by a short letter: what it gives by the whole one, or a short letter in place of a whole one.
#[derive(Drop)]
pub struct ShortOutput {
    pub out: Output,
    pub short: Option<Short>,
}

// The letter with the short one's head and this body.
fn whole(short: &Short, body: Body) -> Message
    ensures { result ≡ whole_of short.now body }
{
    Message {
        tenant: short.tenant,
        session: short.session,
        op: short.op,
        round: short.round,
        server: short.server,
        file: short.file,
        body,
    }
}

// The short letter with the head of the whole one, and this body.
fn head_of(message: &Message, body: ShortBody) -> Short
    ensures { result ≡ short_at message.now body }
{
    Short {
        tenant: message.tenant,
        session: message.session,
        op: message.op,
        round: message.round,
        server: message.server,
        file: message.file,
        body,
    }
}

// The tag, if it is not that of a first copy, which goes whole.
fn above_first(tag: Tag) -> Option<Tag>
    ensures { result ≡ above_first tag }
{
    if tag == Tag::first() { None } else { Some(tag) }
}

// A copy of the tag, of which no content came.
fn bare(tag: Tag) -> StoredCopy
    ensures { result ≡ record { tag = tag; bytes = [] } }
{
    StoredCopy {
        tag,
        bytes: StoredCopy::first().bytes,
    }
}

impl Short {
    /// The letter that it stands for where its copy is empty. It goes the same way; one that wants a store goes as a reply to that.
    pub fn plain(&self) -> Message
        ensures { result ≡ whole_of self.now (body_with [] self.now.body) }
    {
        let body = match self.body {
            ShortBody::AskAbove(_) => Body::Ask,
            ShortBody::Tagged(tag) => Body::Copy(bare(tag)),
            ShortBody::Confirm(tag) => Body::Store(bare(tag)),
            ShortBody::Want => Body::Stored,
        };
        whole(self, body)
    }

    // The reply to it.
    fn reply(&self, body: ShortBody) -> Short
        ensures { result ≡ reply_as self.now body }
    {
        Short {
            tenant: self.tenant,
            session: self.session,
            op: self.op,
            round: self.round,
            server: self.server,
            file: self.file,
            body,
        }
    }
}

impl ShortOutput {
    // Nothing.
    fn nothing(alloc: Global) -> ShortOutput
        ensures answer { result.out.answer ≡ None }
        ensures letters { result.out.letters.items ≡ [] }
        ensures transfer { result.out.transfer ≡ None }
        ensures fact { result.out.fact ≡ None }
        ensures short { result.short ≡ None }
    {
        ShortOutput {
            out: Output::nothing(alloc),
            short: None,
        }
    }

    // The short letter alone.
    fn replied(alloc: Global, short: Short) -> ShortOutput
        ensures answer { result.out.answer ≡ None }
        ensures letters { result.out.letters.items ≡ [] }
        ensures transfer { result.out.transfer ≡ None }
        ensures fact { result.out.fact ≡ None }
        ensures short { result.short ≡ Some short }
    {
        ShortOutput {
            out: Output::nothing(alloc),
            short: Some(short),
        }
    }

    // The letter alone.
    fn one(alloc: Global, letter: Message) -> Result<ShortOutput, OutOfMemory>
        ensures { IfOk result (λ given. GivesOne letter given) }
    {
        let mut letters = Vec::new(alloc);
        letters.grow(letter)?;
        Ok(ShortOutput {
            out: Output {
                answer: None,
                letters,
                transfer: None,
                fact: None,
            },
            short: None,
        })
    }
}

// Whether the tag goes in place of the copy: nothing above the bound is asked for, and a first copy goes whole.
fn goes_short(bound: Tag, tag: Tag) -> bool
    ensures { result ≡ goes_short bound tag }
{
    !(bound < tag) && !(tag == Tag::first())
}

impl SessionState {
    // Whether the session has an operation to which the tag says as much as the copy.
    fn takes_tag(&self, tag: Tag) -> bool
        ensures { result ≡ takes_in self.now.operation tag }
    {
        match &self.operation {
            Some(operation) => operation.takes_tag(tag),
            None => false,
        }
    }

    // The tag up to which the session has no use for contents, as far as its operation says.
    fn bound(&self) -> Option<Tag>
        ensures { result ≡ bound_in self.now.operation }
    {
        let Some(operation) = &self.operation else {
            return None;
        };
        if operation.writes() {
            return Some(Tag {
                number: u64::MAX,
                session: u8::MAX,
            });
        }
        operation.best_tag()
    }

    // The copy that the session's round stores, where the short letter is of that round, and its server was not heard in it.
    fn stored_for(&self, short: &Short) -> Result<Option<StoredCopy>, OutOfMemory>
        requires { short.now.server < MOST_SERVERS }
        ensures { IfOk result (λ copy. copy ≡ stored_for self.now.operation short.now) }
    {
        let Some(operation) = &self.operation else {
            return Ok(None);
        };
        if operation.has_heard(short.server) {
            return Ok(None);
        }
        operation.stored_in(short.op, short.round, short.file)
    }
}

impl Core {
    // Whether the session has an operation to which the tag says as much as the copy.
    fn takes_tag(&self, tenant: u8, session: u32, tag: Tag) -> bool
        requires tenant { tenant < length self.now.plan.rows }
        requires has { has_session (site_of self.now.plan self.now.here tenant) session ≡ true }
        ensures { result ≡ takes_in (session_state_at self.now tenant session).operation tag }
    {
        self.session_states[tenant as usize].items[session_state_place(session)].takes_tag(tag)
    }

    // The copy that the session's round stores, where the short letter is of that round, and its server was not heard in it.
    fn stored_for(
        &self,
        tenant: u8,
        session: u32,
        short: &Short,
    ) -> Result<Option<StoredCopy>, OutOfMemory>
        requires tenant { tenant < length self.now.plan.rows }
        requires has { has_session (site_of self.now.plan self.now.here tenant) session ≡ true }
        requires server { short.now.server < MOST_SERVERS }
        ensures { IfOk result (λ copy. copy ≡ stored_for (session_state_at self.now tenant session).operation short.now) }
    {
        self.session_states[tenant as usize].items[session_state_place(session)].stored_for(short)
    }

    // An ask comes: the copy is told where its tag is above the bound, else its tag.
    fn ask_above(&mut self, bound: Tag, short: &Short) -> Result<ShortOutput, OutOfMemory>
        requires tenant { short.now.tenant < length self.old.plan.rows }
        requires own { short.now.file.tenant ≡ short.now.tenant }
        requires server { short.now.server ≡ place_of self.old.here.node }
        requires fits { file_fits (limit_of self.old.desk short.now.file) AnAsk ≡ true }
        ensures acts { IfOk result (λ given. ActsShortly self.old short.now.tenant (λ site local. asks_above bound site local (letter_as (own_short short.now) AnAsk)) given self.new) }
    {
        if self.lacks(short.file) {
            return Ok(ShortOutput::nothing(self.alloc));
        }
        let tag = self.store.tag(short.file);
        if goes_short(bound, tag) {
            return Ok(ShortOutput::replied(self.alloc, short.reply(ShortBody::Tagged(tag))));
        }
        let ask = whole(short, Body::Ask);
        let out = self.serve(&ask)?;
        Ok(ShortOutput { out, short: None })
    }

    // A tag comes to the session. It is taken for a copy without content, where the operation has no use for that.
    fn tagged(&mut self, tag: Tag, short: &Short) -> Result<ShortOutput, OutOfMemory>
        requires tenant { short.now.tenant < length self.old.plan.rows }
        requires has { has_session (site_of self.old.plan self.old.here short.now.tenant) short.now.session ≡ true }
        requires server { short.now.server < MOST_SERVERS }
        requires number { tag.number < u64.MAX }
        ensures acts { IfOk result (λ given. (bytes : List ℕ) → ActsShortly self.old short.now.tenant (λ site local. hears_tag tag site local (letter_as (own_short short.now) (ACopy (record { tag = tag; bytes = bytes })))) given self.new) }
    {
        if !self.takes_tag(short.tenant, u32::from(short.session), tag) {
            return Ok(ShortOutput::nothing(self.alloc));
        }
        let copy = whole(short, Body::Copy(bare(tag)));
        let out = self.hear(&copy)?;
        Ok(ShortOutput { out, short: None })
    }

    // The store of the session's round goes out whole once more, to the server of the short letter alone.
    fn store_again(&self, short: &Short) -> Result<ShortOutput, OutOfMemory>
        requires tenant { short.now.tenant < length self.now.plan.rows }
        requires own { short.now.file.tenant ≡ short.now.tenant }
        requires has { has_session (site_of self.now.plan self.now.here short.now.tenant) short.now.session ≡ true }
        requires server { short.now.server < MOST_SERVERS }
        ensures acts { IfOk result (λ given. ActsShortly self.now short.now.tenant (λ site local. stores_again site local (letter_as (own_short short.now) IsStored)) given self.now) }
    {
        match self.stored_for(short.tenant, u32::from(short.session), short)? {
            Some(copy) => ShortOutput::one(self.alloc, whole(short, Body::Store(copy))),
            None => Ok(ShortOutput::nothing(self.alloc)),
        }
    }

    // A store comes without its content. Nothing is to be done where the server has that tag or a greater one; else it wants the store
    // whole, or has it from the session's operation, where that is of this node.
    fn confirm(&self, tag: Tag, short: &Short) -> Result<ShortOutput, OutOfMemory>
        requires tenant { short.now.tenant < length self.now.plan.rows }
        requires own { short.now.file.tenant ≡ short.now.tenant }
        requires has { has_session (site_of self.now.plan self.now.here short.now.tenant) short.now.session ≡ true }
        requires server { short.now.server ≡ place_of self.now.here.node }
        requires fits { file_fits (limit_of self.now.desk short.now.file) (AStore (record { tag = tag; bytes = [] })) ≡ true }
        ensures acts { IfOk result (λ given. (bytes : List ℕ) → ActsShortly self.now short.now.tenant (λ site local. confirms tag site local (letter_as (own_short short.now) (AStore (record { tag = tag; bytes = bytes })))) given self.now) }
    {
        if self.lacks(short.file) {
            return Ok(ShortOutput::nothing(self.alloc));
        }
        if !(self.store.tag(short.file) < tag) {
            return ShortOutput::one(self.alloc, whole(short, Body::Stored));
        }
        if home(&self.plan, short.tenant, short.session) == self.node {
            return self.store_again(short);
        }
        Ok(ShortOutput::replied(self.alloc, short.reply(ShortBody::Want)))
    }

    // The tag up to which the session has no use for contents, as far as its operation says.
    fn bound(&self, tenant: u8, session: u32) -> Option<Tag>
        requires tenant { tenant < length self.now.plan.rows }
        requires has { has_session (site_of self.now.plan self.now.here tenant) session ≡ true }
        ensures { result ≡ bound_in (session_state_at self.now tenant session).operation }
    {
        self.session_states[tenant as usize].items[session_state_place(session)].bound()
    }

    // Whether the session's operation is a read or a listing, of which other nodes confirm that they have the copy.
    fn confirms(&self, tenant: u8, session: u32) -> bool
        requires tenant { tenant < length self.now.plan.rows }
        requires has { has_session (site_of self.now.plan self.now.here tenant) session ≡ true }
        ensures { result ≡ confirms_in (session_state_at self.now tenant session) }
    {
        self.session_states[tenant as usize].items[session_state_place(session)].confirms()
    }

    // Whether the node's own server is another one of the row of the letter's, and has a copy of the file.
    fn is_beside(&self, message: &Message) -> bool
        requires tenant { message.now.tenant < length self.now.plan.rows }
        requires own { message.now.file.tenant ≡ message.now.tenant }
        ensures { result ≡ is_beside_in self.now message.now }
    {
        let cols = self.plan.grid().cols();
        let own = self.server();
        self.desk.limit(message.file).is_some()
            && !self.lacks(message.file)
            && own != message.server
            && own as usize / cols == message.server as usize / cols
    }

    // The tag up to which the sender of an ask has no use for contents, if there is one. As the round begins it is the tag of the node's own server, where
    // the round asks that too: it is heard before any other.
    fn bound_of(&self, message: &Message) -> Option<Tag>
        requires tenant { message.now.tenant < length self.now.plan.rows }
        requires own { message.now.file.tenant ≡ message.now.tenant }
        requires has { has_session (site_of self.now.plan self.now.here message.now.tenant) message.now.session ≡ true }
        ensures { result ≡ bound_at self.now message.now }
    {
        if let Some(tag) = self.bound(message.tenant, u32::from(message.session)) {
            return above_first(tag);
        }
        if !self.is_beside(message) {
            return None;
        }
        above_first(self.store.tag(message.file))
    }

    // Whether a store goes without its content: the server has it from the session where that is of its node, and has it most likely
    // where the session read it.
    fn goes_without(&self, message: &Message) -> bool
        requires tenant { message.now.tenant < length self.now.plan.rows }
        requires has { has_session (site_of self.now.plan self.now.here message.now.tenant) message.now.session ≡ true }
        ensures { result ≡ goes_without_at self.now message.now }
    {
        self.lost.node_at(message.server as usize) == self.node
            || self.confirms(message.tenant, u32::from(message.session))
    }

    // What the short form of the letter says, if it has one.
    fn short_body(&self, message: &Message) -> Option<ShortBody>
        requires tenant { message.now.tenant < length self.now.plan.rows }
        requires own { message.now.file.tenant ≡ message.now.tenant }
        requires has { has_session (site_of self.now.plan self.now.here message.now.tenant) message.now.session ≡ true }
        ensures { result ≡ short_body_at self.now message.now }
    {
        match &message.body {
            Body::Ask => self.bound_of(message).map(|tag| ShortBody::AskAbove(tag)),
            Body::Store(copy) if self.goes_without(message) => Some(ShortBody::Confirm(copy.tag)),
            _ => None,
        }
    }

    /// The short form of a letter from a session of this node, where it has one.
    pub(crate) fn short_of(&self, message: &Message) -> Option<Short>
        requires tenant { message.now.tenant < length self.now.plan.rows }
        requires own { message.now.file.tenant ≡ message.now.tenant }
        ensures is { result ≡ form_at self.now message.now }
        ensures stands { ShortFormIs self.now message.now result }
    {
        if !self.has(message.tenant, u32::from(message.session)) {
            return None;
        }
        let body = self.short_body(message)?;
        Some(head_of(message, body))
    }

    /// A short letter that came from there.
    pub(crate) fn short(&mut self, from: u16, short: &Short) -> Result<ShortOutput, OutOfMemory>
        requires tenant { short.now.tenant < length self.old.plan.rows }
        requires own { short.now.file.tenant ≡ short.now.tenant }
        ensures acts { IfOk result (λ given. (bytes : List ℕ) → ActsShortly self.old short.now.tenant (takes_short from (own_short short.now) bytes) given self.new) }
    {
        let plain = short.plain();
        if !self.fits(from, &plain) {
            return Ok(ShortOutput::nothing(self.alloc));
        }
        match short.body {
            ShortBody::AskAbove(bound) => self.ask_above(bound, short),
            ShortBody::Tagged(tag) => self.tagged(tag, short),
            ShortBody::Confirm(tag) => self.confirm(tag, short),
            ShortBody::Want => self.store_again(short),
        }
    }
}
