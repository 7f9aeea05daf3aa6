//! One session's operation, and what is said to it.
ghost use Rattle.std.specs.Prelude.{◌≡◌, ◌+◌, ◌*◌, ◌<◌, ◌≤◌, [], ◌∷◌, IfOk, IfErr, OnErr, OnOk, Some, None, slice_get, length, is_some, true, false};
ghost use Rattle.std.specs.List.{list_all};
ghost use Rattle.std.specs.Option.{ForSome};
ghost use Rattle.gq_grid.specs.Grid.{Servers};
ghost use Rattle.gq_grid.specs.Sets.{servers};
ghost use Rattle.gq_grid.specs.declared.TheConstants.{MOST_SERVERS};
ghost use Rattle.gq_tag.specs.declared.TheConstants.{MOST_FILES};
ghost use Rattle.gq_desk.specs.Volumes.{is_sized};
ghost use Rattle.gq_desk.specs.declared.limits.TheConstants.{MOST_FILE_BLOCKS};
ghost use Rattle.gq_phase.specs.Best.{copied_number};
ghost use Rattle.gq_phase.specs.Standing.{IsGoing, Begins};
ghost use Rattle.gq_model.specs.Lone.{first_cause};
ghost use Rattle.gq_session.specs.Began.{IsNotBegun, BeginsRequest};
ghost use Rattle.gq_session.specs.Fitting.{IsRequest};
ghost use Rattle.gq_session.specs.Works.{no_work, no_volume_in, no_file_in, AsksAs, fits_round, is_reply_to, is_of_work, HearsIn, RetriesIn, said_ending, ended_work, IsAskFault, IsHearFault};

use crate::records::LiveFault;
use bytes::Bytes;
use gq_desk::VolumeRow;
use gq_grid::{Grid, ServerSet};
use gq_memory::OutOfMemory;
use gq_model::{Line, Refusal, Said};
use gq_phase::{BeginRefused, Heard, Operation, ResendRefused};
use gq_round::{Messages, Who};
use gq_tag::{BLOCK_BYTES, Body, FileId, Message};
use std::alloc::Global;

/// What was said in a step, and the messages that it sent.
#[derive(Drop)]
pub(crate) struct Step {
    pub said: Said,
    pub messages: Messages,
}

/// A session of a tenant, with the tenant's volumes. Its operation, if it has one, is not done.
#[derive(Drop)]
pub(crate) struct Client {
    alloc: Global,
    grid: Grid,
    tenant: u8,
    session: u8,
    volumes: Vec<VolumeRow>,
    // how many operations were accepted, and the round of the last
    op: u32,
    round: u32,
    // the session's own last number
    floor: u64,
    current: Option<Operation>,
    ghost sized: { list_all (is_sized MOST_FILE_BLOCKS) volumes.items ≡ true },
    ghost going: { ForSome current (λ o. IsGoing o) },
}

// A step that sends nothing.
fn quiet(grid: &Grid, said: Said) -> Step
    ensures said { result.said ≡ said }
    ensures messages { result.messages ≡ [] }
{
    Step {
        said,
        messages: Messages::none(grid),
    }
}

// The number of the copy that a reply tells.
fn copied_number(body: &Body) -> u64
    ensures { result ≡ copied_number body.now }
{
    match body {
        Body::Copy(copy) => copy.tag.number,
        _ => 0,
    }
}

// Whether a reply's body fits its round: a copy an odd one, a stored an even one.
fn fits_round(message: &Message) -> bool
    ensures { result ≡ fits_round message.now.body message.now.round }
{
    match &message.body {
        Body::Copy(_) => message.round % 2 == 1,
        Body::Stored => message.round % 2 == 0,
        Body::Ask | Body::Store(_) => false,
    }
}

// Why a request began no operation.
#[derive(Drop)]
enum NotBegun {
    // It is refused.
    Refused(Refusal),
    // Memory is wanting.
    Memory(OutOfMemory),
}

impl From<Refusal> for NotBegun {
    ghost use Rattle.std.specs.Prelude.{◌≡◌};
    ghost use Rattle.gq_session.specs.declared.client.NotBegun.TheVariants.{Refused};

    ghost from_gives = { λ refusal e. e ≡ Refused refusal };

    fn from(refusal: Refusal) -> NotBegun {
        NotBegun::Refused(refusal)
    }
}

impl From<BeginRefused> for NotBegun {
    ghost use Rattle.std.specs.Prelude.{◌≡◌};
    ghost use Rattle.gq_session.specs.Began.{not_begun};

    ghost from_gives = { λ refused e. e ≡ not_begun refused };

    fn from(refused: BeginRefused) -> NotBegun {
        match refused {
            BeginRefused::NoQuorum => NotBegun::Refused(Refusal::NoQuorum),
            BeginRefused::Memory(refused) => NotBegun::Memory(refused),
        }
    }
}

impl Client {
    ghost use Rattle.gq_session.specs.Clients.{home_of, work_of};

    // The session has no operation, and had none.
    pub(crate) fn new(
        alloc: Global,
        grid: Grid,
        tenant: u8,
        session: u8,
        volumes: Vec<VolumeRow>,
    ) -> Client
        requires { list_all (is_sized MOST_FILE_BLOCKS) volumes.items ≡ true }
        ensures home { home_of result ≡ record { grid = grid; tenant = tenant; number = session; volumes = volumes.items } }
        ensures work { work_of result ≡ no_work }
    {
        Client {
            alloc,
            grid,
            tenant,
            session,
            volumes,
            op: 0,
            round: 0,
            floor: 0,
            current: None,
        }
    }

    // Whether it has an operation.
    pub(crate) fn is_busy(&self) -> bool
        ensures { result ≡ is_some self.now.current }
    {
        self.current.is_some()
    }

    // Whether the message is of its operation and round.
    pub(crate) fn is_current(&self, message: &Message) -> bool
        ensures { result ≡ is_of_work (work_of self.now) message.now }
    {
        self.current.is_some() && message.op == self.op && message.round == self.round
    }

    // The next operation.
    fn who(&self) -> Result<Who, LiveFault>
        ensures who { IfOk result (λ who. who
            ≡ record { tenant = self.now.tenant; session = self.now.session; op = self.now.op + 1 }) }
        ensures fault { IfErr result (λ fault. fault ≡ LiveFault.Stamps) }
        ensures spent { OnErr result (self.now.op ≡ u32.MAX) }
    {
        if self.op == u32::MAX {
            return Err(LiveFault::Stamps);
        }
        Ok(Who {
            tenant: self.tenant,
            session: self.session,
            op: self.op + 1,
        })
    }

    // The volume of that number.
    fn volume(&self, number: u32) -> Result<VolumeRow, Refusal>
        ensures sized { IfOk result (λ row. is_sized MOST_FILE_BLOCKS row ≡ true) }
        ensures row { IfOk result (λ row. slice_get self.now.volumes.items number ≡ Some row) }
        ensures refusal { IfErr result (λ refusal. first_cause (no_volume_in self.now.volumes.items number ∷ []) ≡ Some refusal) }
    {
        match self.volumes.get(number as usize) {
            Some(row) => Ok(*row),
            None => Err(Refusal::NoVolume),
        }
    }

    // The volume of that number, which has a file of that number.
    fn volume_with(&self, number: u32, file: u32) -> Result<VolumeRow, Refusal>
        ensures row { IfOk result (λ row. slice_get self.now.volumes.items number ≡ Some row) }
        ensures file { IfOk result (λ row. file < row.files) }
        ensures refusal { IfErr result (λ refusal.
            first_cause (no_volume_in self.now.volumes.items number ∷ no_file_in self.now.volumes.items number file ∷ []) ≡ Some refusal) }
    {
        let row = self.volume(number)?;
        if file >= row.files {
            return Err(Refusal::NoFile);
        }
        Ok(row)
    }

    // A write begins.
    fn write(
        &self,
        who: Who,
        volume: u32,
        file: u32,
        bytes: &Bytes,
        up: ServerSet,
    ) -> Result<(Operation, Messages), NotBegun>
        ensures going { IfOk result (λ began. IsGoing began.0) }
        ensures ok { IfOk result (λ began. BeginsRequest (home_of self.now) who self.now.floor (servers up) (Line.Write who.session volume file bytes.now) began.0 began.1) }
        ensures err { IfErr result (λ e. IsNotBegun (home_of self.now) (servers up) (Line.Write who.session volume file bytes.now) e) }
    {
        let row = self.volume_with(volume, file)?;
        if bytes.len() as u64 > BLOCK_BYTES as u64 * u64::from(row.blocks) {
            return Err(NotBegun::Refused(Refusal::TooLong));
        }
        let file = FileId {
            tenant: who.tenant,
            volume,
            file,
        };
        let began = Operation::write(self.alloc, &self.grid, who, self.floor, file, bytes, up)?;
        Ok(began)
    }

    // A read begins.
    fn read(
        &self,
        who: Who,
        volume: u32,
        file: u32,
        up: ServerSet,
    ) -> Result<(Operation, Messages), NotBegun>
        ensures going { IfOk result (λ began. IsGoing began.0) }
        ensures ok { IfOk result (λ began. BeginsRequest (home_of self.now) who self.now.floor (servers up) (Line.Read who.session volume file) began.0 began.1) }
        ensures err { IfErr result (λ e. IsNotBegun (home_of self.now) (servers up) (Line.Read who.session volume file) e) }
    {
        let _row = self.volume_with(volume, file)?;
        let file = FileId {
            tenant: who.tenant,
            volume,
            file,
        };
        let began = Operation::read(self.alloc, &self.grid, who, self.floor, file, up)?;
        Ok(began)
    }

    // A listing begins.
    fn list(&self, who: Who, volume: u32, up: ServerSet) -> Result<(Operation, Messages), NotBegun>
        ensures going { IfOk result (λ began. IsGoing began.0) }
        ensures ok { IfOk result (λ began. BeginsRequest (home_of self.now) who self.now.floor (servers up) (Line.List who.session volume) began.0 began.1) }
        ensures err { IfErr result (λ e. IsNotBegun (home_of self.now) (servers up) (Line.List who.session volume) e) }
    {
        let row = self.volume(volume)?;
        let began = Operation::list(
            self.alloc, &self.grid, who, self.floor, volume, row.files, up,
        )?;
        Ok(began)
    }

    // The request's operation begins.
    fn begin(&self, who: Who, line: &Line, up: ServerSet) -> Result<(Operation, Messages), NotBegun>
        requires { IsRequest line.now }
        ensures going { IfOk result (λ began. IsGoing began.0) }
        ensures ok { IfOk result (λ began. BeginsRequest (home_of self.now) who self.now.floor (servers up) (line.now) began.0 began.1) }
        ensures err { IfErr result (λ e. IsNotBegun (home_of self.now) (servers up) (line.now) e) }
    {
        match line {
            Line::Write {
                volume,
                file,
                bytes,
                ..
            } => self.write(who, *volume, *file, bytes, up),
            Line::Read { volume, file, .. } => self.read(who, *volume, *file, up),
            Line::List { volume, .. } => self.list(who, *volume, up),
            _ => unreachable!(),
        }
    }

    // Asks the request, where the servers of `up` are up.
    pub(crate) fn ask(&mut self, line: &Line, up: ServerSet) -> Result<Step, LiveFault>
        requires { IsRequest line.now }
        ensures asks { IfOk result (λ step. AsksAs (home_of self.old) (work_of self.old) (work_of self.new)
            (servers up) line.now step.said step.messages) }
        ensures home { home_of self.new ≡ home_of self.old }
        ensures fault { IfErr result (λ fault. IsAskFault (work_of self.old) fault) }
        ensures same { OnErr result (work_of self.new ≡ work_of self.old) }
    {
        if self.current.is_some() {
            return Ok(quiet(&self.grid, Said::Refused(Refusal::Busy)));
        }
        let who = self.who()?;
        match self.begin(who, line, up) {
            Ok((operation, messages)) => {
                self.op = who.op;
                self.round = 1;
                self.current = Some(operation);
                Ok(Step {
                    said: Said::Began {
                        op: who.op,
                        sent: messages.len() as u32,
                    },
                    messages,
                })
            }
            Err(NotBegun::Refused(refusal)) => Ok(quiet(&self.grid, Said::Refused(refusal))),
            Err(NotBegun::Memory(refused)) => Err(LiveFault::Memory(refused)),
        }
    }

    // Whether the message is a reply to the session.
    fn is_reply(&self, message: &Message) -> bool
        ensures reply { result ≡ is_reply_to (home_of self.now) message.now }
        ensures server { result ≡ true → message.now.server < MOST_SERVERS }
    {
        message.tenant == self.tenant
            && message.session == self.session
            && (message.server as usize) < self.grid.servers()
            && fits_round(message)
    }

    // Hears the message, where the servers of `up` are up.
    pub(crate) fn hear(&mut self, message: &Message, up: ServerSet) -> Result<Step, LiveFault>
        ensures hears { IfOk result (λ step. HearsIn self.old.current (work_of self.old) (work_of self.new)
            (servers up) message.now step.said step.messages) }
        ensures reply { OnOk result (is_reply_to (home_of self.old) message.now ≡ true) }
        ensures home { home_of self.new ≡ home_of self.old }
        ensures fault { IfErr result (λ fault. IsHearFault (home_of self.old) (work_of self.old) message.now fault) }
        ensures same { OnErr result (work_of self.new ≡ work_of self.old) }
    {
        if !self.is_reply(message) {
            return Err(LiveFault::Letter);
        }
        let Some(operation) = &mut self.current else {
            return Ok(quiet(&self.grid, Said::Stale));
        };
        if copied_number(&message.body) == u64::MAX || operation.floor() == u64::MAX {
            return Err(LiveFault::Stamps);
        }
        let heard = match operation.hear(message, up) {
            Ok(heard) => heard,
            Err(refused) => return Err(LiveFault::Memory(refused)),
        };
        match heard {
            Heard::Stale => Ok(quiet(&self.grid, Said::Stale)),
            Heard::Noted => Ok(quiet(&self.grid, Said::Noted)),
            Heard::Next {
                round,
                tag,
                messages,
            } => {
                self.round = round;
                Ok(Step {
                    said: Said::Round {
                        round,
                        tag,
                        sent: messages.len() as u32,
                    },
                    messages,
                })
            }
            Heard::Done(outcome) => {
                self.floor = operation.floor();
                self.current = None;
                Ok(quiet(&self.grid, Said::Done(outcome)))
            }
        }
    }

    // Sends the round's message once more, where the servers of `up` are up.
    pub(crate) fn retry(&mut self, up: ServerSet) -> Result<Step, LiveFault>
        ensures retries { IfOk result (λ step. RetriesIn self.old.current (servers up) step.said step.messages) }
        ensures home { home_of self.new ≡ home_of self.old }
        ensures work { work_of self.new ≡ work_of self.old }
        ensures fault { IfErr result (λ fault. fault ≡ LiveFault.Memory tt) }
    {
        let Some(mut operation) = self.current.take() else {
            return Ok(quiet(&self.grid, Said::Refused(Refusal::Idle)));
        };
        let resent = operation.resend(up);
        self.current = Some(operation);
        match resent {
            Ok(messages) => Ok(Step {
                said: Said::Resent {
                    sent: messages.len() as u32,
                },
                messages,
            }),
            Err(ResendRefused::NoQuorum) => {
                Ok(quiet(&self.grid, Said::Refused(Refusal::NoQuorum)))
            }
            Err(ResendRefused::Memory(refused)) => Err(LiveFault::Memory(refused)),
        }
    }

    // Gives the operation up.
    pub(crate) fn give_up(&mut self) -> Step
        ensures said { result.said ≡ said_ending self.old.current }
        ensures messages { result.messages ≡ [] }
        ensures home { home_of self.new ≡ home_of self.old }
        ensures work { work_of self.new ≡ ended_work (work_of self.old) }
    {
        let Some(operation) = self.current.take() else {
            return quiet(&self.grid, Said::Refused(Refusal::Idle));
        };
        self.floor = operation.abandon();
        quiet(&self.grid, Said::Abandoned)
    }
}
