//! The sessions of a tenant.

ghost use Rattle.std.specs.Prelude.{◌&&◌, ◌≡◌, ◌≢◌, ℕ, ◌+◌, ◌-◌, ◌<◌, ◌≤◌, replicate, length, slice_set, None, Some, false, is_some, IfOk, unwrap_or};
ghost use Rattle.gq_grid.specs.Sets.{servers};
ghost use Rattle.gq_grid.specs.declared.TheConstants.{MOST_SERVERS};
ghost use Rattle.gq_tag.specs.Tag.{file_place};
ghost use Rattle.gq_tag.specs.declared.Message.{Message};
ghost use Rattle.gq_phase.specs.Best.{copied_number};
ghost use Rattle.gq_cluster.specs.Facts.{greatest_op, greatest_number, last_of_run};

use crate::aims::{aim, column_among, next_of};
use crate::output::{Admission, Answer, Output, ended, heard_output};
use gq_cluster::NUMBERS_IN_A_RUN;
use gq_grid::{Grid, ServerSet};
use gq_memory::{OutOfMemory, room_for};
use gq_phase::{Heard, Messages, Operation, Outcome, ResendRefused};
use gq_tag::{FileId, Message};
use std::alloc::Global;
use std::marker::Model;

/// A session: the number of its last operation, its operation if it has one, its own last number while it has none, the last numbers
/// that are reserved for it, of its operations and of its tags, the outcome of its last operation if that was done since the start, the
/// row and the column that it tries, whether a tick came since it last heard something new, and for how many rounds more it stores in
/// its own column, and whole.
#[derive(Drop)]
pub(crate) struct SessionState {
    pub(crate) op: u32,
    pub(crate) floor: u64,
    pub(crate) reserved_op: u32,
    pub(crate) reserved_floor: u64,
    pub(crate) operation: Option<Operation>,
    pub(crate) outcome: Option<Outcome>,
    pub(crate) row: u32,
    pub(crate) column: u32,
    pub(crate) waited: bool,
    pub(crate) stays: u32,
}

/// For so many rounds a session stores in its own column, and whole, once a store of it had to go out again.
const ROUNDS_STAYED: u32 = 256;

/// The sessions of a tenant. Session `k` has place `k - 1`.
#[derive(Drop)]
pub(crate) struct SessionStates {
    pub(crate) items: Vec<SessionState>,
}

impl Model for SessionStates {
    ghost use Rattle.std.specs.Prelude.{List};
    ghost use Rattle.gq_node.specs.declared.session_states.SessionState.{SessionState};

    ghost Value = { List SessionState };

    ghost view = { λ s. s.items.items };
}

impl SessionStates {
    ghost use Rattle.gq_node.specs.Tables.{first_session_state, session_state_in};
    ghost use Rattle.gq_node.specs.Heard.{new_run};
    ghost use Rattle.gq_node.specs.SessionStates.{SessionStateAttends, SessionStateTicks, TakenIn, Goes, busy_session_state, rested_session_state, recalled_session_state};

    // So many sessions that began nothing, at the node of the server.
    pub(crate) fn new(
        alloc: Global,
        grid: &Grid,
        server: u8,
        sessions: u32,
    ) -> Result<SessionStates, OutOfMemory>
        ensures { IfOk result (λ session_states. session_states ≡ replicate sessions (first_session_state grid.now server)) }
    {
        let cols = grid.cols();
        let row = (server as usize / cols) as u32;
        let column = (server as usize % cols) as u32;
        let mut items = room_for(alloc, sessions as usize)?;
        for _ in 0..sessions {
            items.push_reserved(SessionState {
                op: 0,
                floor: 0,
                reserved_op: 0,
                reserved_floor: 0,
                operation: None,
                outcome: None,
                row,
                column,
                waited: false,
                stays: 0,
            });
        }
        Ok(SessionStates { items })
    }

    // The session at the place has the operation from now on. Answers the last number of the run that had to be reserved for it,
    // if one had.
    pub(crate) fn begin(&mut self, place: usize, operation: Operation) -> Option<u32>
        requires place { place < length self.old }
        requires number { (session_state_in self.old place).op < greatest_op }
        ensures run { result ≡ new_run greatest_op ((session_state_in self.old place).op + 1) (session_state_in self.old place).reserved_op }
        ensures begun { self.new ≡ slice_set self.old place (busy_session_state (session_state_in self.old place) operation) }
    {
        self.items[place].begin(operation)
    }

    // The session at the place gives its operation up.
    pub(crate) fn abandon(&mut self, place: usize)
        requires { place < length self.old }
        ensures { self.new ≡ slice_set self.old place (rested_session_state (session_state_in self.old place)) }
    {
        self.items[place].abandon();
    }

    // The session at the place is one of a start, for which these numbers are reserved in place of those that were, where they are given.
    pub(crate) fn recall(&mut self, place: usize, op: Option<u32>, number: Option<u64>)
        requires { place < length self.old }
        ensures { self.new ≡ slice_set self.old place
            (recalled_session_state (session_state_in self.old place) (unwrap_or op (session_state_in self.old place).reserved_op) (unwrap_or number (session_state_in self.old place).reserved_floor)) }
    {
        self.items[place].recall(op, number);
    }

    // A letter comes to the session at the place.
    pub(crate) fn attend(
        &mut self,
        place: usize,
        alloc: Global,
        grid: &Grid,
        message: &Message,
    ) -> Result<Output, OutOfMemory>
        requires place { place < length self.old }
        requires server { message.now.server < MOST_SERVERS }
        requires number { copied_number message.now.body < u64.MAX }
        ensures attends { IfOk result (λ out. SessionStateAttends message.now.tenant message.now.session grid.now
            (session_state_in self.old place) (session_state_in self.new place) message.now out) }
        ensures tags { IfOk result (λ out. (m : Message) → TakenIn (session_state_in self.old place).operation message.now m → SessionStateAttends message.now.tenant message.now.session grid.now
            (session_state_in self.old place) (session_state_in self.new place) m out) }
        ensures others { self.new ≡ slice_set self.old place (session_state_in self.new place) }
    {
        self.items[place].attend(alloc, grid, message)
    }

    // A tick comes to the session at the place.
    pub(crate) fn tick(
        &mut self,
        place: usize,
        grid: &Grid,
    ) -> Result<Option<Messages>, OutOfMemory>
        requires place { place < length self.old }
        requires goes { Goes (session_state_in self.old place).operation }
        ensures ticks { IfOk result (λ messages. SessionStateTicks grid.now (session_state_in self.old place) (session_state_in self.new place) messages) }
        ensures others { self.new ≡ slice_set self.old place (session_state_in self.new place) }
    {
        self.items[place].tick(grid)
    }
}

// The last number of the run of operations' numbers that begins with this one.
fn last_op_of_run(first: u32) -> u32
    ensures { result ≡ last_of_run greatest_op first }
{
    first.saturating_add(NUMBERS_IN_A_RUN - 1)
}

// And of tags' numbers.
fn last_number_of_run(first: u64) -> u64
    ensures { result ≡ last_of_run greatest_number first }
{
    first.saturating_add(u64::from(NUMBERS_IN_A_RUN - 1))
}

impl SessionState {
    ghost use Rattle.gq_node.specs.Heard.{new_run, heard_run};
    ghost use Rattle.gq_node.specs.SessionStates.{SessionStateHears, SessionStateAttends, SessionStateTicks, TakenIn, ResendsIn, FloorIsBelow, Goes, last_in, busy_session_state, rested_session_state, recalled_session_state, is_of_round, collects_in, session_state_tries, confirms_in, session_state_column};
    ghost use Rattle.gq_node.specs.Local.{again, own_admission};

    // The number of the session's last operation is reserved from now on. Answers the last number of the run that had to be
    // reserved for it, if one had.
    fn reserve_op(&mut self) -> Option<u32>
        ensures run { result ≡ new_run greatest_op self.old.op self.old.reserved_op }
        ensures reserved { self.new ≡ record self.old { reserved_op = unwrap_or result self.old.reserved_op } }
    {
        if self.op <= self.reserved_op {
            return None;
        }
        self.reserved_op = last_op_of_run(self.op);
        Some(self.reserved_op)
    }

    // So is the session's own last number.
    fn reserve_number(&mut self) -> Option<u64>
        ensures run { result ≡ new_run greatest_number (last_in self.old) self.old.reserved_floor }
        ensures reserved { self.new ≡ record self.old { reserved_floor = unwrap_or result self.old.reserved_floor } }
    {
        let number = self.last();
        if number <= self.reserved_floor {
            return None;
        }
        self.reserved_floor = last_number_of_run(number);
        Some(self.reserved_floor)
    }

    // The session has the operation from now on. Answers the last number of the run that had to be reserved for it, if one had.
    fn begin(&mut self, operation: Operation) -> Option<u32>
        requires { self.old.op < greatest_op }
        ensures run { result ≡ new_run greatest_op (self.old.op + 1) self.old.reserved_op }
        ensures begun { self.new ≡ busy_session_state self.old operation }
    {
        self.op += 1;
        self.operation = Some(operation);
        self.outcome = None;
        self.waited = false;
        self.reserve_op()
    }

    // The session's own last number.
    pub(crate) fn last(&self) -> u64
        ensures { result ≡ last_in self.now }
    {
        match &self.operation {
            Some(operation) => operation.floor(),
            None => self.floor,
        }
    }

    // The session gives its operation up.
    fn abandon(&mut self)
        ensures { self.new ≡ rested_session_state self.old }
    {
        if let Some(operation) = self.operation.take() {
            self.floor = operation.abandon();
        }
        self.outcome = None;
    }

    // The session is one of a start, for which these numbers are reserved in place of those that were, where they are given: it goes on
    // behind what is reserved.
    fn recall(&mut self, op: Option<u32>, number: Option<u64>)
        ensures { self.new ≡ recalled_session_state self.old (unwrap_or op self.old.reserved_op) (unwrap_or number self.old.reserved_floor) }
    {
        self.reserved_op = op.unwrap_or(self.reserved_op);
        self.reserved_floor = number.unwrap_or(self.reserved_floor);
        self.op = self.reserved_op;
        self.floor = self.reserved_floor;
        self.operation = None;
        self.outcome = None;
        self.waited = false;
        self.stays = 0;
    }

    // A letter comes to the session, where the servers of `up` are up.
    fn hear(&mut self, message: &Message, up: ServerSet) -> Result<Heard, OutOfMemory>
        requires server { message.now.server < MOST_SERVERS }
        requires number { copied_number message.now.body < u64.MAX }
        requires floor { FloorIsBelow self.old.operation }
        ensures hears { IfOk result (λ heard. SessionStateHears self.old self.new (servers up) message.now heard) }
        ensures tags { IfOk result (λ heard. (m : Message) → TakenIn self.old.operation message.now m → SessionStateHears self.old self.new (servers up) m heard) }
        ensures reserved { self.new.reserved_floor ≡ self.old.reserved_floor }
    {
        let Some(operation) = &mut self.operation else {
            return Ok(Heard::Stale);
        };
        let heard_before = operation.has_heard(message.server);
        let heard = operation.hear(message, up)?;
        match heard {
            Heard::Stale => Ok(Heard::Stale),
            Heard::Done(outcome) => {
                let floor = operation.floor();
                self.rest(floor, outcome.share()?);
                Ok(Heard::Done(outcome))
            }
            Heard::Noted => {
                self.note(heard_before);
                Ok(Heard::Noted)
            }
            heard => {
                self.move_on();
                Ok(heard)
            }
        }
    }

    // Whether the session's operation is a read or a listing, of which other nodes confirm that they have the copy.
    pub(crate) fn confirms(&self) -> bool
        ensures { result ≡ confirms_in self.now }
    {
        match &self.operation {
            Some(operation) => !operation.writes() && self.stays == 0,
            None => false,
        }
    }

    // The column that the session stores in behind the letter: one of those that gave it its copy, if it is to be confirmed there.
    fn column_behind(&self, grid: &Grid, message: &Message) -> u32
        requires { message.now.server < MOST_SERVERS }
        ensures { result ≡ session_state_column grid.now self.now message.now }
    {
        match &self.operation {
            Some(operation) if self.confirms() => {
                column_among(grid, operation.givers_after(message), self.column)
            }
            _ => self.column,
        }
    }

    // Whether the file is that of the round of the session's operation.
    fn is_of_round(&self, file: FileId) -> bool
        ensures { result ≡ is_of_round self.now.operation (file_place file) }
    {
        match &self.operation {
            Some(operation) => {
                let own = operation.file();
                file.volume == own.volume && file.file == own.file
            }
            None => true,
        }
    }

    // A letter comes to the session, of this tenant, unless no number is above its own last one, or the letter is of another file
    // than the round.
    fn attend(
        &mut self,
        alloc: Global,
        grid: &Grid,
        message: &Message,
    ) -> Result<Output, OutOfMemory>
        requires server { message.now.server < MOST_SERVERS }
        requires number { copied_number message.now.body < u64.MAX }
        ensures attends { IfOk result (λ out. SessionStateAttends message.now.tenant message.now.session grid.now self.old self.new message.now out) }
        ensures tags { IfOk result (λ out. (m : Message) → TakenIn self.old.operation message.now m → SessionStateAttends message.now.tenant message.now.session grid.now self.old self.new m out) }
    {
        if self.last() == u64::MAX || !self.is_of_round(message.file) {
            return Ok(Output::nothing(alloc));
        }
        let column = self.column_behind(grid, message);
        let heard = self.hear(message, aim(grid, self.row, column))?;
        let run = self.reserve_for(&heard);
        heard_output(alloc, message.tenant, message.session, run, heard)
    }

    // Where the operation said that a round begins, the session's own last number is reserved from now on. Answers the last number of
    // the run that had to be reserved for it, if one had.
    fn reserve_for(&mut self, heard: &Heard) -> Option<u64>
        ensures run { result ≡ heard_run self.old.reserved_floor (last_in self.old) heard.now }
        ensures reserved { self.new ≡ record self.old { reserved_floor = unwrap_or result self.old.reserved_floor } }
    {
        match heard {
            Heard::Next { .. } => self.reserve_number(),
            _ => None,
        }
    }

    // A reply was noted, from a server that was heard before or was not.
    fn note(&mut self, heard_before: bool)
        ensures { self.new ≡ record self.old { waited = heard_before && self.old.waited } }
    {
        self.waited = heard_before && self.waited;
    }

    // A round begins.
    fn move_on(&mut self)
        ensures { self.new ≡ record self.old { waited = false; stays = self.old.stays - 1 } }
    {
        self.waited = false;
        self.stays = self.stays.saturating_sub(1);
    }

    // The session's operation is done with that outcome, and this is its own last number.
    fn rest(&mut self, floor: u64, outcome: Outcome)
        ensures { self.new ≡ record self.old { floor = floor; operation = None; outcome = Some outcome; waited = false } }
    {
        self.outcome = Some(outcome);
        self.floor = floor;
        self.operation = None;
        self.waited = false;
    }

    // The round's message goes out once more, where the servers of `up` are up: to nobody where no quorum is.
    fn resend(&mut self, up: ServerSet) -> Result<Option<Messages>, OutOfMemory>
        requires { Goes self.old.operation }
        ensures sends { IfOk result (λ messages. ResendsIn self.old.operation (servers up) messages) }
        ensures same { self.new ≡ self.old }
    {
        let Some(operation) = &mut self.operation else {
            return Ok(None);
        };
        match operation.resend(up) {
            Ok(messages) => Ok(Some(messages)),
            Err(ResendRefused::NoQuorum) => Ok(None),
            Err(ResendRefused::Memory(refused)) => Err(refused),
        }
    }

    // The session tries the next row where its round collects, else the next column, where it stays for some rounds.
    fn try_next(&mut self, grid: &Grid)
        ensures { self.new ≡ session_state_tries grid.now (collects_in self.old.operation) self.old }
    {
        let collects = match &self.operation {
            Some(operation) => operation.collects(),
            None => true,
        };
        if collects {
            self.row = next_of(grid.rows(), self.row);
        } else {
            self.column = next_of(grid.cols(), self.column);
            self.stays = ROUNDS_STAYED;
        }
    }

    // A tick comes to the session. Answers the messages that go out once more, if it has waited.
    fn tick(&mut self, grid: &Grid) -> Result<Option<Messages>, OutOfMemory>
        requires { Goes self.old.operation }
        ensures ticks { IfOk result (λ messages. SessionStateTicks grid.now self.old self.new messages) }
    {
        if self.operation.is_none() {
            return Ok(None);
        }
        if !self.waited {
            self.waited = true;
            return Ok(None);
        }
        self.try_next(grid);
        self.resend(aim(grid, self.row, self.column))
    }

    // What a request of the session with the number of its last operation comes to.
    fn again(&self, session: u32, begins: bool) -> Result<Admission, OutOfMemory>
        ensures { IfOk result (λ admission. admission ≡ again session self.now.op begins (is_some self.now.operation) self.now.outcome) }
    {
        if self.operation.is_none() {
            return Ok(Admission::Tells(ended(session, self.op, &self.outcome)?));
        }
        if begins {
            Ok(Admission::Passes)
        } else {
            Ok(Admission::Goes)
        }
    }

    // What the number of a request of the session decides.
    pub(crate) fn admission(
        &self,
        session: u32,
        op: u32,
        begins: bool,
    ) -> Result<Admission, OutOfMemory>
        ensures { IfOk result (λ admission. admission ≡ own_admission session op begins self.now.op (is_some self.now.operation) self.now.outcome) }
    {
        let last = self.op;
        if op < last || op == 0 {
            return Ok(Admission::Tells(Answer::Old { session, op, last }));
        }
        if op == last {
            return self.again(session, begins);
        }
        if begins && u64::from(op) == u64::from(last) + 1 {
            return Ok(Admission::Goes);
        }
        Ok(Admission::Tells(Answer::Early { session, op, last }))
    }
}
