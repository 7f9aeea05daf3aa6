//! A session: its operation and its event log, step by step at the board.
ghost use Rattle.std.specs.Prelude.{◌≡◌, ◌≢◌, [], All, IfOk, IfErr, IfSome, IfNone, OnOk, OnErr, OnSome, is_some, is_none, Ok, None, true, false};
ghost use Rattle.std.specs.List.{list_all};
ghost use Rattle.std.specs.Option.{ForSome, ForNone};
ghost use Rattle.gq_desk.specs.Volumes.{is_sized};
ghost use Rattle.gq_desk.specs.declared.limits.TheConstants.{MOST_FILE_BLOCKS};
ghost use Rattle.gq_session.specs.Agendas.{servers_up, IsStamped, IsSameSchedule, KeepsChanges, IsStampFault};
ghost use Rattle.gq_session.specs.Asked.{asked_of};
ghost use Rattle.gq_session.specs.Faults.{NoGate};
ghost use Rattle.gq_session.specs.Fitting.{IsRequest};
ghost use Rattle.gq_session.specs.Sessions.{Sitting, AsksNext, HearsLetter, Retries, with_step, is_stuck, IsAskNextFault, IsHearLetterFault};
ghost use Rattle.gq_session.specs.Works.{no_work, is_reply_to, is_of_work, said_ending, ended_work};

use crate::client::{Client, Step};
use crate::event_log::EventLog;
use crate::records::{Did, LiveFault, SessionEntry};
use crate::schedule::Schedule;
use gq_cell::Letter;
use gq_desk::VolumeRow;
use gq_grid::Grid;
use gq_model::{Line, Said};
use gq_round::Messages;
use gq_tag::Message;
use std::alloc::Global;
use std::marker::Model;

/// What a step at the board is to send.
#[derive(Drop)]
pub struct Outbox {
    /// The step's stamp.
    pub stamp: u64,
    /// The messages, in order.
    pub messages: Messages,
    /// Whether the session waits for nothing now: a round began with no message, or a retry was refused. Its operation is
    /// then to be given up.
    pub stuck: bool,
}

/// A session of a tenant in a live run: its operation, if it has one, its requests, and what it did so far, which asked
/// the first of these requests, in order. Contracts see it as a `Sitting`.
#[derive(Drop)]
pub struct Session {
    client: Client,
    event_log: EventLog,
}

impl Model for Session {
    ghost use Rattle.gq_session.specs.Diaries.{left_in};
    ghost use Rattle.gq_session.specs.Sessions.{Sitting};
    ghost use Rattle.gq_session.specs.Clients.{home_of, work_of};

    ghost Value = { Sitting };

    ghost view = { λ s. record {
      home = home_of s.client;
      work = work_of s.client;
      left = left_in s.event_log;
      entries = s.event_log.entries.items;
    } };
}

// Whether a session to which this is said in its operation waits for nothing.
fn is_stuck(said: &Said) -> bool
    ensures { result ≡ is_stuck said.now }
{
    matches!(said, Said::Round { sent: 0, .. } | Said::Refused(_))
}

impl Session {
    /// A session of the tenant's with that number, which has done nothing. These are the tenant's volumes, and its requests.
    pub fn new(
        alloc: Global,
        grid: Grid,
        tenant: u8,
        number: u8,
        volumes: Vec<VolumeRow>,
        lines: Vec<Line>,
    ) -> Session
        requires sized { list_all (is_sized MOST_FILE_BLOCKS) volumes.items ≡ true }
        requires requests { All IsRequest lines.items }
        ensures home { result.home ≡ record { grid = grid; tenant = tenant; number = number; volumes = volumes.items } }
        ensures work { result.work ≡ no_work }
        ensures left { result.left ≡ lines.items }
        ensures entries { result.entries ≡ [] }
    {
        Session {
            client: Client::new(alloc, grid, tenant, number, volumes),
            event_log: EventLog::new(alloc, lines),
        }
    }

    /// Whether it has an operation.
    pub fn is_busy(&self) -> bool
        ensures { result ≡ is_some self.now.work.operation }
    {
        self.client.is_busy()
    }

    /// Whether the message is of its operation and its round.
    pub fn is_current(&self, message: &Message) -> bool
        ensures { result ≡ is_of_work self.now.work message.now }
    {
        self.client.is_current(message)
    }

    /// Asks the next request, at the board's next stamp. None where none is left.
    ///
    /// The faults are `Memory`, and `Stamps` where no greater stamp, or number of an operation, is left. After a fault the
    /// session is as it was.
    pub fn ask_next(&mut self, schedule: &mut Schedule) -> Result<Option<Outbox>, LiveFault>
        ensures asks { IfOk result (λ o. IfSome o (λ outbox. AsksNext self.old self.new (servers_up schedule.old)
            outbox.stamp outbox.messages)) }
        ensures stamp { IfOk result (λ o. ForSome o (λ outbox. IsStamped schedule.old schedule.new 0 outbox.stamp)) }
        ensures goes_on { IfOk result (λ o. ForSome o (λ outbox. outbox.stuck ≡ false)) }
        ensures none { self.old.left ≡ [] → result ≡ Ok None }
        ensures quiet { IfOk result (λ o. ForNone o (IsSameSchedule schedule.old schedule.new)) }
        ensures idle { IfOk result (λ o. ForNone o (self.new ≡ self.old)) }
        ensures ended { IfOk result (λ o. ForNone o (self.old.left ≡ [])) }
        ensures fault { IfErr result (λ fault. IsAskNextFault self.old schedule.old.board.last fault) }
        ensures same { OnErr result (self.new ≡ self.old) }
        ensures keeps { KeepsChanges schedule.old schedule.new }
        ensures gate { NoGate result }
    {
        let Some(next) = self.event_log.next() else {
            return Ok(None);
        };
        let line = next.share()?;
        self.event_log.reserve()?;
        let stamp = schedule.stamp(0)?;
        let Step { said, messages } = self.client.ask(&line, schedule.up())?;
        self.event_log.ask(stamp, line, said);
        Ok(Some(Outbox {
            stamp,
            messages,
            stuck: false,
        }))
    }

    /// Hears a letter, at the board's next stamp, which is above the letter's.
    ///
    /// The faults are `Memory`, `Stamps` where no greater stamp, or number of a tag, is left, and `Letter` where the letter
    /// is no reply to this session. After a fault the session is as it was.
    pub fn hear(&mut self, schedule: &mut Schedule, letter: Letter) -> Result<Outbox, LiveFault>
        ensures hears { IfOk result (λ outbox. HearsLetter self.old self.new (servers_up schedule.old) letter
            outbox.stamp outbox.messages outbox.stuck) }
        ensures stamp { IfOk result (λ outbox. IsStamped schedule.old schedule.new letter.stamp outbox.stamp) }
        ensures reply { OnOk result (is_reply_to self.old.home letter.message ≡ true) }
        ensures fault { IfErr result (λ fault. IsHearLetterFault self.old letter schedule.old.board.last fault) }
        ensures same { OnErr result (self.new ≡ self.old) }
        ensures keeps { KeepsChanges schedule.old schedule.new }
        ensures gate { NoGate result }
    {
        self.event_log.reserve()?;
        let stamp = schedule.stamp(letter.stamp)?;
        let Step { said, messages } = self.client.hear(&letter.message, schedule.up())?;
        let stuck = is_stuck(&said);
        self.event_log.note(stamp, Did::Heard(letter), said);
        Ok(Outbox {
            stamp,
            messages,
            stuck,
        })
    }

    /// Sends the round's message once more, at the board's next stamp.
    ///
    /// The faults are `Memory`, and `Stamps` where no greater stamp is left. After a fault the session is as it was.
    pub fn retry(&mut self, schedule: &mut Schedule) -> Result<Outbox, LiveFault>
        ensures retries { IfOk result (λ outbox. Retries self.old self.new (servers_up schedule.old)
            outbox.stamp outbox.messages outbox.stuck) }
        ensures stamp { IfOk result (λ outbox. IsStamped schedule.old schedule.new 0 outbox.stamp) }
        ensures fault { IfErr result (λ fault. IsStampFault schedule.old 0 fault) }
        ensures same { OnErr result (self.new ≡ self.old) }
        ensures keeps { KeepsChanges schedule.old schedule.new }
        ensures gate { NoGate result }
    {
        self.event_log.reserve()?;
        let stamp = schedule.stamp(0)?;
        let Step { said, messages } = self.client.retry(schedule.up())?;
        let stuck = is_stuck(&said);
        self.event_log.note(stamp, Did::Retried, said);
        Ok(Outbox {
            stamp,
            messages,
            stuck,
        })
    }

    /// Gives the operation up, at the board's next stamp: none is left.
    ///
    /// The faults are `Memory`, and `Stamps` where no greater stamp is left. After a fault the session is as it was.
    pub fn give_up(&mut self, schedule: &mut Schedule) -> Result<Outbox, LiveFault>
        ensures ends { IfOk result (λ outbox. self.new
            ≡ with_step self.old outbox.stamp Did.GaveUp (said_ending self.old.work.operation) (ended_work self.old.work)) }
        ensures quiet { IfOk result (λ outbox. outbox.messages ≡ []) }
        ensures waits { IfOk result (λ outbox. outbox.stuck ≡ is_none self.old.work.operation) }
        ensures stamp { IfOk result (λ outbox. IsStamped schedule.old schedule.new 0 outbox.stamp) }
        ensures fault { IfErr result (λ fault. IsStampFault schedule.old 0 fault) }
        ensures same { OnErr result (self.new ≡ self.old) }
        ensures keeps { KeepsChanges schedule.old schedule.new }
        ensures gate { NoGate result }
    {
        self.event_log.reserve()?;
        let stamp = schedule.stamp(0)?;
        let Step { said, messages } = self.client.give_up();
        let stuck = is_stuck(&said);
        self.event_log.note(stamp, Did::GaveUp, said);
        Ok(Outbox {
            stamp,
            messages,
            stuck,
        })
    }

    /// What it did, where that asked the whole program, in order. None where it did not.
    pub fn close(self, program: &[Line]) -> Option<Vec<SessionEntry>>
        ensures entries { IfSome result (λ entries. entries.items ≡ self.entries) }
        ensures asked { IfSome result (λ entries. asked_of entries.items ≡ program.now) }
        ensures whole { OnSome result (self.left ≡ []) }
        ensures none { IfNone result (self.left ≡ [] → asked_of self.entries ≢ program.now) }
    {
        let Session { event_log, .. } = self;
        event_log.close(program)
    }
}
