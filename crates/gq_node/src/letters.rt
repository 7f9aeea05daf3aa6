//! What a letter and a tick do to the tables.

ghost use Rattle.std.specs.Prelude.{◌≡◌, ◌<◌, ◌≤◌, length, true, false, IfOk, IsSome, option_map};
ghost use Rattle.gq_grid.specs.declared.TheConstants.{MOST_SERVERS};
ghost use Rattle.gq_tag.specs.Tag.{file_place, own_message, to_server};
ghost use Rattle.gq_desk.specs.CheckedPlan.{row_at};
ghost use Rattle.gq_desk.specs.Volumes.{limit_of};
ghost use Rattle.gq_store.specs.Copies.{copy_at, file_limit};
ghost use Rattle.gq_phase.specs.Best.{copied_number};
ghost use Rattle.gq_cluster.specs.Facts.{replaced_in};
ghost use Rattle.gq_node.specs.Local.{serves, at_server, hears, receives, ticks, goes_between, letter_fits, copy_fits, file_fits};
ghost use Rattle.gq_node.specs.Sites.{site_of, has_session, session_at, address_of};
ghost use Rattle.gq_replace.specs.Plans.{place_of};
ghost use Rattle.gq_node.specs.ShortSteps.{HearsAnyContent};
ghost use Rattle.gq_node.specs.Tables.{fact_of, Acts, Stands, lacks_at};

use crate::homes::{home, session_state_place};
use crate::output::{Fact, Output, letters_of};
use crate::tables::Core;
use gq_memory::{GrowVec, OutOfMemory};
use gq_store::ServeRefused;
use gq_tag::{Body, Message, StoredCopy};

// Whether the copy is within the limit in bytes, and a number is above that of its tag.
pub(crate) fn copy_fits(limit: u32, copy: &StoredCopy) -> bool
    ensures { result ≡ copy_fits limit copy.now }
{
    copy.bytes.len() <= limit as usize && copy.tag.number < u64::MAX
}

// Whether the file is there, and the body fits.
fn file_fits(limit: Option<u32>, body: &Body) -> bool
    ensures { result ≡ file_fits limit body.now }
{
    let Some(limit) = limit else {
        return false;
    };
    match body {
        Body::Copy(copy) | Body::Store(copy) => copy_fits(limit, copy),
        Body::Ask | Body::Stored => true,
    }
}

impl Core {
    // Whether a letter that came from there goes from a session's home to a server, or back.
    fn goes_between(&self, from: u16, message: &Message) -> bool
        requires tenant { message.now.tenant < length self.now.plan.rows }
        requires first { 1 ≤ message.now.session }
        requires server { message.now.server < MOST_SERVERS }
        ensures { result ≡ goes_between (site_of self.now.plan self.now.here message.now.tenant) from (own_message message.now) }
    {
        let home = home(&self.plan, message.tenant, message.session);
        if message.to_server() {
            message.server == self.server() && home == from
        } else {
            home == self.node && self.lost.node_at(message.server as usize) == from
        }
    }

    // Whether an honest node from there sends this letter to this one.
    pub(crate) fn fits(&self, from: u16, message: &Message) -> bool
        requires { message.now.tenant < length self.now.plan.rows }
        ensures { result ≡ letter_fits (site_of self.now.plan self.now.here message.now.tenant)
            (limit_of self.now.desk message.now.file) from (own_message message.now) }
    {
        if !self.has(message.tenant, u32::from(message.session)) {
            return false;
        }
        if message.server as usize >= self.plan.grid().servers() {
            return false;
        }
        self.goes_between(from, message) && file_fits(self.desk.limit(message.file), &message.body)
    }

    // What is kept of a letter to the server.
    fn kept(&self, message: &Message) -> Result<Option<Fact>, OutOfMemory>
        requires { IsSome (file_limit self.now.store message.now.file) }
        ensures { IfOk result (λ fact. fact ≡ option_map (fact_of message.now.file.tenant)
            (replaced_in (copy_at self.now.store message.now.file) (file_place message.now.file) message.now.body)) }
    {
        let file = message.file;
        match &message.body {
            Body::Store(copy) if self.store.tag(file) < copy.tag => Ok(Some(Fact::Kept {
                file,
                copy: copy.share()?,
            })),
            _ => Ok(None),
        }
    }

    // The server serves the letter.
    pub(crate) fn serve(&mut self, message: &Message) -> Result<Output, OutOfMemory>
        requires tenant { message.now.tenant < length self.old.plan.rows }
        requires own { message.now.file.tenant ≡ message.now.tenant }
        requires goes { to_server message.now.body ≡ true }
        requires server { message.now.server ≡ place_of self.old.here.node }
        requires has { lacks_at self.old message.now.tenant (file_place message.now.file) ≡ false }
        requires fits { file_fits (limit_of self.old.desk message.now.file) message.now.body ≡ true }
        ensures acts { IfOk result (λ out. Acts self.old message.now.tenant (λ site local. serves site local (own_message message.now)) out self.new) }
    {
        let fact = self.kept(message)?;
        let reply = match self.store.serve(message) {
            Ok(reply) => reply,
            Err(ServeRefused::Memory(refused)) => return Err(refused),
            Err(_) => unreachable!(),
        };
        let mut letters = Vec::new(self.alloc);
        letters.grow(reply)?;
        Ok(Output {
            answer: None,
            letters,
            transfer: None,
            fact,
        })
    }

    // The server serves the letter, unless it lacks the file.
    fn bring(&mut self, message: &Message) -> Result<Output, OutOfMemory>
        requires tenant { message.now.tenant < length self.old.plan.rows }
        requires own { message.now.file.tenant ≡ message.now.tenant }
        requires goes { to_server message.now.body ≡ true }
        requires server { message.now.server ≡ place_of self.old.here.node }
        requires fits { file_fits (limit_of self.old.desk message.now.file) message.now.body ≡ true }
        ensures acts { IfOk result (λ out. Acts self.old message.now.tenant (λ site local. at_server site local (own_message message.now)) out self.new) }
    {
        if self.lacks(message.file) {
            return Ok(Output::nothing(self.alloc));
        }
        self.serve(message)
    }

    // A session hears the letter.
    pub(crate) fn hear(&mut self, message: &Message) -> Result<Output, OutOfMemory>
        requires tenant { message.now.tenant < length self.old.plan.rows }
        requires has { has_session (site_of self.old.plan self.old.here message.now.tenant) message.now.session ≡ true }
        requires goes { to_server message.now.body ≡ false }
        requires server { message.now.server < MOST_SERVERS }
        requires number { copied_number message.now.body < u64.MAX }
        ensures acts { IfOk result (λ out. Acts self.old message.now.tenant (λ site local. hears site local (own_message message.now)) out self.new) }
        ensures tags { IfOk result (λ out. HearsAnyContent self.old message.now out self.new) }
    {
        let alloc = self.alloc;
        let grid = *self.plan.grid();
        self.session_states[message.tenant as usize].attend(
            session_state_place(u32::from(message.session)),
            alloc,
            &grid,
            message,
        )
    }

    // A letter that came from there.
    pub(crate) fn letter(&mut self, from: u16, message: &Message) -> Result<Output, OutOfMemory>
        requires tenant { message.now.tenant < length self.old.plan.rows }
        requires own { message.now.file.tenant ≡ message.now.tenant }
        ensures acts { IfOk result (λ out. Acts self.old message.now.tenant (receives from (own_message message.now)) out self.new) }
    {
        if !self.fits(from, message) {
            return Ok(Output::nothing(self.alloc));
        }
        if message.to_server() {
            self.bring(message)
        } else {
            self.hear(message)
        }
    }

    // The node that the letter goes to.
    pub(crate) fn address(&self, message: &Message) -> u16
        requires { message.now.tenant < length self.now.plan.rows }
        ensures { result ≡ address_of self.now.plan self.now.here message.now }
    {
        if message.to_server() {
            self.lost.node_at(message.server as usize)
        } else {
            home(&self.plan, message.tenant, message.session)
        }
    }

    // A tick comes to the session at that place of the tenant's.
    pub(crate) fn tick(&mut self, tenant: u8, place: usize) -> Result<Output, OutOfMemory>
        requires tenant { tenant < length self.old.plan.rows }
        requires place { place < (row_at self.old.plan tenant).sessions }
        requires stands { Stands self.old tenant }
        ensures acts { IfOk result (λ out. Acts self.old tenant (ticks (session_at self.old.plan self.old.here tenant place)) out self.new) }
    {
        let grid = *self.plan.grid();
        let messages = self.session_states[tenant as usize].tick(place, &grid)?;
        Ok(Output {
            answer: None,
            letters: letters_of(self.alloc, messages)?,
            transfer: None,
            fact: None,
        })
    }
}
