//! The sessions of a tenant.

ghost use Rattle.std.specs.Prelude.{◌≡◌, ◌≢◌, ℕ, ◌+◌, ◌-◌, ◌<◌, ◌≤◌, replicate, length, slice_set, true, false, None, IfOk, IfErr};
ghost use Rattle.gq_grid.specs.Grid.{Servers};
ghost use Rattle.gq_grid.specs.Sets.{servers};
ghost use Rattle.gq_grid.specs.declared.TheConstants.{MOST_SERVERS};
ghost use Rattle.gq_phase.specs.Best.{copied_number};
ghost use Rattle.gq_world.specs.Tables.{session_states_at, session_state_in};
ghost use Rattle.gq_world.specs.SessionStates.{left_session_state};

use gq_grid::ServerSet;
use gq_memory::{OutOfMemory, room_for};
use gq_phase::{Heard, Messages, Operation, ResendRefused};
use gq_tag::MessageView;
use std::alloc::Global;
use std::marker::Model;

/// A session: how many operations it began, its operation if it has one, the servers that sent replies of this operation and
/// its round, heard or not, and its own last number while it has none.
#[derive(Drop)]
pub(crate) struct SessionState {
    pub(crate) op: u32,
    pub(crate) floor: u64,
    pub(crate) operation: Option<Operation>,
    pub(crate) answered: ServerSet,
}

/// The sessions of a tenant. Session `k` has place `k - 1`.
#[derive(Drop)]
pub(crate) struct SessionStates {
    pub(crate) items: Vec<SessionState>,
}

impl Model for SessionStates {
    ghost use Rattle.std.specs.Prelude.{List};
    ghost use Rattle.gq_world.specs.declared.sessions.SessionState.{SessionState};

    ghost Value = { List SessionState };

    ghost view = { λ s. s.items.items };
}

impl SessionStates {
    ghost use Rattle.gq_world.specs.Tables.{session_state_in, no_session_state};
    ghost use Rattle.gq_world.specs.Asking.{busy_session_state, rested_session_state};
    ghost use Rattle.gq_world.specs.SessionStates.{SessionStateHears, SessionStateAnswers, SessionStateResends, SessionStateRefuses, IsAtWork, FloorIsBelow, left_session_state};

    // So many sessions that began nothing.
    pub(crate) fn new(alloc: Global, sessions: u32) -> Result<SessionStates, OutOfMemory>
        ensures { IfOk result (λ session_states. session_states ≡ replicate sessions no_session_state) }
    {
        let mut items = room_for(alloc, sessions as usize)?;
        for _ in 0..sessions {
            items.push_reserved(SessionState {
                op: 0,
                floor: 0,
                operation: None,
                answered: ServerSet::empty(),
            });
        }
        Ok(SessionStates { items })
    }

    // The session at the place has the operation from now on. Answers the operation's number.
    pub(crate) fn begin(&mut self, place: usize, operation: Operation) -> u32
        requires place { place < length self.old }
        requires number { (session_state_in self.old place).op < 4294967295 }
        ensures number { result ≡ (session_state_in self.old place).op + 1 }
        ensures begun { self.new ≡ slice_set self.old place (busy_session_state (session_state_in self.old place) operation) }
    {
        let session_state = &mut self.items[place];
        session_state.op += 1;
        session_state.operation = Some(operation);
        session_state.answered = ServerSet::empty();
        session_state.op
    }

    // A server sends a reply to this message of a session.
    #[inline(always)]
    pub(crate) fn answers(&mut self, message: &MessageView<'_>)
        requires first { 1 ≤ message.now.session }
        requires last { message.now.session ≤ length self.old }
        requires server { message.now.server < MOST_SERVERS }
        ensures answers { SessionStateAnswers (session_state_in self.old (message.now.session - 1)) (session_state_in self.new (message.now.session - 1)) message.now }
        ensures others { (place : ℕ) → place ≢ message.now.session - 1 → session_state_in self.new place ≡ session_state_in self.old place }
        ensures count { length self.new ≡ length self.old }
    {
        let session_state = &mut self.items[message.session as usize - 1];
        session_state.answers(message);
    }

    // The server is lost: each session that counts on it gives its operation up.
    pub(crate) fn give_up(&mut self, server: usize)
        requires { server < MOST_SERVERS }
        ensures left { (place : ℕ) → session_state_in self.new place ≡ left_session_state server (session_state_in self.old place) }
        ensures count { length self.new ≡ length self.old }
    {
        for place in 0..self.items.len() {
            if self.items[place].counts_on(server) {
                self.abandon(place);
            }
        }
    }

    // The session at the place sends its round's message once more, where the servers of `up` are up.
    pub(crate) fn resend(&mut self, place: usize, up: ServerSet) -> Result<Messages, ResendRefused>
        requires place { place < length self.old }
        requires works { IsAtWork (session_state_in self.old place).operation }
        ensures ok { IfOk result (λ messages. SessionStateResends (session_state_in self.old place) (servers up) messages) }
        ensures err { IfErr result (λ fault. SessionStateRefuses (session_state_in self.old place) (servers up) fault) }
        ensures same { self.new ≡ self.old }
    {
        match &mut self.items[place].operation {
            Some(operation) => operation.resend(up),
            None => unreachable!(),
        }
    }

    // The session at the place gives its operation up.
    pub(crate) fn abandon(&mut self, place: usize)
        requires { place < length self.old }
        ensures { self.new ≡ slice_set self.old place (rested_session_state (session_state_in self.old place)) }
    {
        let session_state = &mut self.items[place];
        if let Some(operation) = session_state.operation.take() {
            session_state.floor = operation.abandon();
        }
    }

    // Notes a message that comes to its session, where it is a reply of the session's round that does not end it, and answers
    // whether it is one.
    #[inline(always)]
    pub(crate) fn notes(&mut self, message: &MessageView<'_>) -> Result<bool, OutOfMemory>
        requires first { 1 ≤ message.now.session }
        requires last { message.now.session ≤ length self.old }
        requires server { message.now.server < MOST_SERVERS }
        requires number { copied_number message.now.body < u64.MAX }
        ensures hears { IfOk result (λ noted. noted ≡ true → (up : Servers) → SessionStateHears (session_state_in self.old (message.now.session - 1)) (session_state_in self.new (message.now.session - 1)) up message.now Heard.Noted) }
        ensures others { (place : ℕ) → place ≢ message.now.session - 1 → session_state_in self.new place ≡ session_state_in self.old place }
        ensures count { length self.new ≡ length self.old }
        ensures stays { IfOk result (λ noted. noted ≡ false → self.new ≡ self.old) }
    {
        let session_state = &mut self.items[message.session as usize - 1];
        session_state.notes(message)
    }

    // A message comes to its session, where the servers of `up` are up.
    #[inline(always)]
    pub(crate) fn hear(
        &mut self,
        message: &MessageView<'_>,
        up: ServerSet,
    ) -> Result<Heard, OutOfMemory>
        requires first { 1 ≤ message.now.session }
        requires last { message.now.session ≤ length self.old }
        requires server { message.now.server < MOST_SERVERS }
        requires number { copied_number message.now.body < u64.MAX }
        requires floor { FloorIsBelow (session_state_in self.old (message.now.session - 1)).operation }
        ensures hears { IfOk result (λ heard. SessionStateHears (session_state_in self.old (message.now.session - 1)) (session_state_in self.new (message.now.session - 1)) (servers up) message.now heard) }
        ensures others { (place : ℕ) → place ≢ message.now.session - 1 → session_state_in self.new place ≡ session_state_in self.old place }
        ensures count { length self.new ≡ length self.old }
    {
        let session_state = &mut self.items[message.session as usize - 1];
        session_state.hear(message, up)
    }
}

impl SessionState {
    ghost use Rattle.gq_world.specs.SessionStates.{SessionStateHears, SessionStateAnswers, FloorIsBelow, session_state_counts_on};

    // A server sends a reply to this message of the session.
    #[inline(always)]
    fn answers(&mut self, message: &MessageView<'_>)
        requires { message.now.server < MOST_SERVERS }
        ensures { SessionStateAnswers self.old self.new message.now }
    {
        if let Some(operation) = &self.operation
            && operation.is_current(message)
        {
            self.answered.insert(message.server as usize);
        }
    }

    // Notes a reply of the session's round that does not end it, and answers whether the message is one.
    #[inline(always)]
    fn notes(&mut self, message: &MessageView<'_>) -> Result<bool, OutOfMemory>
        requires server { message.now.server < MOST_SERVERS }
        requires number { copied_number message.now.body < u64.MAX }
        ensures hears { IfOk result (λ noted. noted ≡ true → (up : Servers) → SessionStateHears self.old self.new up message.now Heard.Noted) }
        ensures stays { IfOk result (λ noted. noted ≡ false → self.new ≡ self.old) }
    {
        match &mut self.operation {
            Some(operation) => operation.notes(message),
            None => Ok(false),
        }
    }

    // A message comes to the session.
    #[inline(always)]
    fn hear(&mut self, message: &MessageView<'_>, up: ServerSet) -> Result<Heard, OutOfMemory>
        requires server { message.now.server < MOST_SERVERS }
        requires number { copied_number message.now.body < u64.MAX }
        requires floor { FloorIsBelow self.old.operation }
        ensures hears { IfOk result (λ heard. SessionStateHears self.old self.new (servers up) message.now heard) }
    {
        let Some(operation) = &mut self.operation else {
            return Ok(Heard::Stale);
        };
        let heard = operation.hear_view(message, up)?;
        match heard {
            Heard::Done(outcome) => {
                let floor = operation.floor();
                self.rest(floor);
                Ok(Heard::Done(outcome))
            }
            Heard::Next {
                round,
                tag,
                messages,
            } => {
                self.answered = ServerSet::empty();
                Ok(Heard::Next {
                    round,
                    tag,
                    messages,
                })
            }
            heard => Ok(heard),
        }
    }

    // Whether the session's operation counts on the server.
    fn counts_on(&self, server: usize) -> bool
        requires { server < MOST_SERVERS }
        ensures { result ≡ session_state_counts_on self.now server }
    {
        self.operation.is_some() && self.answered.has(server)
    }

    // The session has no operation any more, and this is its own last number.
    fn rest(&mut self, floor: u64)
        ensures { self.new ≡ record self.old { floor = floor; operation = None } }
    {
        self.floor = floor;
        self.operation = None;
    }
}

/// A server is lost: in each session of each tenant that counts on it the operation is given up.
pub(crate) fn give_up_everywhere(session_states: &mut Vec<SessionStates>, server: usize)
    requires { server < MOST_SERVERS }
    ensures left { (t place : ℕ) → session_state_in (session_states_at session_states.new.items t) place ≡ left_session_state server (session_state_in (session_states_at session_states.old.items t) place) }
    ensures count { length session_states.new.items ≡ length session_states.old.items }
    ensures places { (t : ℕ) → length (session_states_at session_states.new.items t) ≡ length (session_states_at session_states.old.items t) }
{
    for tenant in 0..session_states.len() {
        session_states[tenant].give_up(server);
    }
}
