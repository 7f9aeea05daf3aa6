//! The lines that complete an operation which a script leaves going.

ghost use Rattle.std.specs.Prelude.{◌≡◌, ◌≢◌, ◌↔◌, ℕ, ◌<◌, ◌≤◌, ◌++◌, ◌∷◌, [], List, Option, Some, None, true, false, length, map, codes, IfOk, IfErr, IfSome, OnOk, OnErr, IsErrOf, IsOk};
ghost use Rattle.std.specs.Io.KnownBytes.{Appends};
ghost use Rattle.gq_desk.specs.CheckedPlan.{CheckedPlan, row_at};
ghost use Rattle.gq_desk.specs.Plans.{is_in, is_of};
ghost use Rattle.gq_grid.specs.Sets.{servers};
ghost use Rattle.gq_model.specs.declared.events.Event.{Event};
ghost use Rattle.gq_model.specs.declared.events.Event.TheVariants.{Tenant};
ghost use Rattle.gq_model.specs.Events.{answer_to};
ghost use Rattle.gq_model.specs.Shown.{shown};
ghost use Rattle.gq_model.specs.Told.{Done, Refused as IsRefused};
ghost use Rattle.gq_model.specs.declared.events.Refusal.TheVariants.{Spent, Idle as NoOperation};
ghost use Rattle.gq_world.specs.Tables.{Stands, up_in};
ghost use Rattle.gq_lines.specs.Lines.{lines_of};
ghost use Rattle.gq_lines.specs.Written.{line_text};
ghost use Rattle.gq_text.specs.Canonical.{line_words};
ghost use Rattle.gq_script.specs.Completing.{missing_newline};
ghost use Rattle.gq_script.specs.Out.{IsAccepted};
ghost use Rattle.gq_streams.specs.Watched.{inner_of, has_failed, AppendsPrefix};
ghost use Rattle.gq_text.specs.PlanText.{NamesTenant};
ghost use Rattle.gq_finish.specs.Finishing.{events_of, goes_on, outcome_session, up_after, CauseOf, Finished, FinishOf, HasCause, IsEnd, IsOfOutput, StopsFor};

use gq_desk::{MOST_STEPS, Plan};
use gq_grid::{Grid, ServerSet};
use gq_lines::first_line;
use gq_memory::{GrowCopies, OutOfMemory};
use gq_model::{Answer, Event, Line, Refusal};
use gq_phase::Outcome;
use gq_script::{MOST_INPUT, ReadFault, RunFault, read_whole};
use gq_streams::{Watched, WriteFault, write_whole};
use gq_text::{PlanText, put_tenant_line, read_line, read_plan};
use gq_world::{Ended, World};
use std::alloc::Global;
use std::io::{Read, Write};
use thiserror::Error;

/// Why `finish` ended early. After each fault but that of writing nothing was written.
#[derive(Debug, Drop, Error)]
pub enum FinishFault {
    /// As a run ends early.
    #[error("{0}")]
    Run(RunFault),
    /// The name is no tenant's of the plan.
    #[error("unknown tenant")]
    Name,
    /// The tenant has no session of this number.
    #[error("unknown session")]
    Session,
    /// The session has no operation.
    #[error("no operation")]
    Idle,
    /// No row is wholly up, though a column is.
    #[error("no row up")]
    Row,
    /// No column is wholly up, though a row is.
    #[error("no column up")]
    Column,
    /// No row is wholly up, and no column.
    #[error("no row and no column up")]
    Both,
    /// The tenant's steps are spent before the operation is done, or were spent by the input.
    #[error("too few steps")]
    Steps,
    /// A row and a column are wholly up, and the messages that were delivered did not complete the operation. No script is known on which
    /// this is told.
    #[error("no end found")]
    NoEnd,
}

impl From<ReadFault> for FinishFault {
    ghost use Rattle.gq_script.specs.Faults.{of_reading};
    ghost use Rattle.gq_finish.specs.declared.finish.FinishFault.TheVariants.{Run};

    ghost from_gives = { λ fault e. e ≡ Run (of_reading fault) };

    fn from(fault: ReadFault) -> FinishFault {
        FinishFault::Run(RunFault::from(fault))
    }
}

impl From<WriteFault> for FinishFault {
    ghost use Rattle.gq_script.specs.declared.script.RunFault.TheVariants.{Write};
    ghost use Rattle.gq_finish.specs.declared.finish.FinishFault.TheVariants.{Run};

    ghost from_gives = { λ fault e. e ≡ Run Write };

    fn from(fault: WriteFault) -> FinishFault {
        FinishFault::Run(RunFault::from(fault))
    }
}

// Why no line completes the operation.
#[derive(Drop)]
enum Stop {
    Memory(OutOfMemory),
    Idle,
    Steps,
    // No message is left to be delivered.
    Quiet,
}

impl From<OutOfMemory> for Stop {
    ghost use Rattle.std.specs.Prelude.{◌≡◌};
    ghost use Rattle.gq_finish.specs.declared.finish.Stop.TheVariants.{Memory};

    ghost from_gives = { λ refused e. e ≡ Memory refused };

    fn from(refused: OutOfMemory) -> Stop {
        Stop::Memory(refused)
    }
}

// The messages that are to be delivered next: a server's reply, and then those of the round.
#[derive(Drop)]
struct Waiting {
    reply: Option<u64>,
    first: u64,
    count: u32,
}

impl Waiting {
    // Takes the next of them. No number is past those that a line can have.
    fn take(&mut self) -> Result<u32, Stop>
        ensures { IfErr result (λ stop. stop ≡ Stop.Quiet) }
    {
        let number = match self.reply {
            Some(number) => number,
            None if self.count > 0 => {
                let number = self.first;
                self.first = number.saturating_add(1);
                self.count -= 1;
                number
            }
            None => return Err(Stop::Quiet),
        };
        self.reply = None;
        match u32::try_from(number) {
            Ok(number) => Ok(number),
            Err(_) => Err(Stop::Quiet),
        }
    }
}

// Whether the operation that ended is one of the session.
fn is_of(outcome: &Outcome, session: u32) -> bool
    ensures { result ≡ true → outcome_session outcome.now ≡ session }
{
    match outcome {
        Outcome::Wrote { session: own, .. }
        | Outcome::Gave { session: own, .. }
        | Outcome::Listed { session: own, .. } => u32::from(*own) == session,
    }
}

// Goes on by an answer, and tells whether the operation is done.
fn hear(waiting: &mut Waiting, answer: &Answer, session: u32) -> Result<bool, Stop>
    ensures going { IfOk result (λ done. done ≡ false → goes_on (shown answer.now) ≡ true) }
    ensures done { IfOk result (λ done. done ≡ true → IsEnd session (shown answer.now)) }
    ensures spent { IfErr result (λ stop. stop ≡ Stop.Steps → shown answer.now ≡ IsRefused Spent) }
    ensures idle { IfErr result (λ stop. stop ≡ Stop.Idle → shown answer.now ≡ IsRefused NoOperation) }
{
    match answer {
        Answer::Reply { number } => {
            waiting.reply = Some(*number);
            Ok(false)
        }
        Answer::Noted => Ok(false),
        Answer::Round { first, count, .. } | Answer::Resent { first, count } => {
            waiting.first = *first;
            waiting.count = *count;
            Ok(false)
        }
        Answer::Done(outcome) if is_of(outcome, session) => Ok(true),
        Answer::Refused(Refusal::Spent) => Err(Stop::Steps),
        Answer::Refused(Refusal::Idle) => Err(Stop::Idle),
        _ => Err(Stop::Quiet),
    }
}

// Answers the next line of the tenant, and appends it.
fn add_line(
    world: &mut World,
    tenant: u8,
    line: Line,
    text: &mut Vec<u8>,
) -> Result<Answer, OutOfMemory>
    requires { tenant < length world.old.tables.plan.rows }
    ensures plan { world.new.tables.plan ≡ world.old.tables.plan }
    ensures text { OnOk result (text.new.items ≡ text.old.items ++ line_text (row_at world.old.tables.plan tenant).name (line_words line)) }
    ensures answer { IfOk result (λ answer. (events : List Event) → Stands world.old.tables events →
        shown answer ≡ answer_to world.old.tables.plan events (Tenant tenant line)) }
    ensures stands { OnOk result ((events : List Event) → Stands world.old.tables events →
        Stands world.new.tables (events ++ Tenant tenant line ∷ [])) }
{
    put_tenant_line(text, world.plan().row(tenant).name.as_bytes(), &line)?;
    match world.step(&Event::Tenant { tenant, line }) {
        Ok(answer) => Ok(answer),
        Err(Ended(refused)) => Err(refused),
    }
}

// Answers the next line of the tenant, appends it and goes on by its answer. Tells whether the operation is done.
fn go_on(
    world: &mut World,
    tenant: u8,
    session: u32,
    line: Line,
    waiting: &mut Waiting,
    text: &mut Vec<u8>,
) -> Result<bool, Stop>
    requires { tenant < length world.old.tables.plan.rows }
    ensures plan { world.new.tables.plan ≡ world.old.tables.plan }
    ensures text { OnOk result (text.new.items ≡ text.old.items ++ line_text (row_at world.old.tables.plan tenant).name (line_words line)) }
    ensures stands { OnOk result ((events : List Event) → Stands world.old.tables events →
        Stands world.new.tables (events ++ Tenant tenant line ∷ [])) }
    ensures going { IfOk result (λ done. done ≡ false → (events : List Event) → Stands world.old.tables events →
        goes_on (answer_to world.old.tables.plan events (Tenant tenant line)) ≡ true) }
    ensures done { IfOk result (λ done. done ≡ true → (events : List Event) → Stands world.old.tables events →
        IsEnd session (answer_to world.old.tables.plan events (Tenant tenant line))) }
    ensures spent { IfErr result (λ stop. stop ≡ Stop.Steps → (events : List Event) → Stands world.old.tables events →
        answer_to world.old.tables.plan events (Tenant tenant line) ≡ IsRefused Spent) }
    ensures idle { IfErr result (λ stop. stop ≡ Stop.Idle → (events : List Event) → Stands world.old.tables events →
        answer_to world.old.tables.plan events (Tenant tenant line) ≡ IsRefused NoOperation) }
{
    let answer = add_line(world, tenant, line, text)?;
    hear(waiting, &answer, session)
}

// Retries the session's round, and delivers each message to its server and back until the operation is done.
fn complete(world: &mut World, tenant: u8, session: u32, text: &mut Vec<u8>) -> Result<(), Stop>
    requires { tenant < length world.old.tables.plan.rows }
    ensures plan { world.new.tables.plan ≡ world.old.tables.plan }
    ensures ok { OnOk result ((events : List Event) → Stands world.old.tables events →
        Finished world.old.tables.plan events tenant session text.old.items text.new.items) }
    ensures fault { IfErr result (λ stop. (events : List Event) → Stands world.old.tables events →
        StopsFor stop world.old.tables.plan events tenant session) }
{
    let mut waiting = Waiting {
        reply: None,
        first: 0,
        count: 0,
    };
    let line = Line::Retry { session };
    let mut is_done = match go_on(world, tenant, session, line, &mut waiting, text) {
        Ok(is_done) => is_done,
        Err(stop) => return Err(stop),
    };
    for _ in 0..MOST_STEPS {
        if is_done {
            return Ok(());
        }
        let number = waiting.take()?;
        let line = Line::Deliver { number };
        match go_on(world, tenant, session, line, &mut waiting, text) {
            Ok(done) => is_done = done,
            Err(stop) => return Err(stop),
        }
    }
    // (The steps of the tenant are spent before.)
    Err(Stop::Quiet)
}

// Answers the lines of a text after the plan, by a new world.
fn play(alloc: Global, world: &mut World, lines: &[u8]) -> Result<(), OutOfMemory>
    requires { Stands world.old.tables [] }
    ensures plan { world.new.tables.plan ≡ world.old.tables.plan }
    ensures stands { OnOk result (Stands world.new.tables (events_of world.old.tables.plan (lines_of lines.now))) }
{
    let mut rest = lines;
    while !rest.is_empty() {
        let (line, after) = first_line(rest);
        let event = read_line(alloc, line, world.plan())?;
        match world.step(&event) {
            Ok(_) => {}
            Err(Ended(refused)) => return Err(refused),
        }
        rest = after;
    }
    Ok(())
}

// The fault of a script that leaves these servers up.
fn fault_of(stop: Stop, grid: &Grid, up: ServerSet) -> FinishFault
    ensures { (plan : CheckedPlan) (events : List Event) (t k : ℕ) → plan.grid ≡ grid.now → up_in grid.now up ≡ up_after plan events →
        StopsFor stop plan events t k → CauseOf result plan events t k }
{
    match stop {
        Stop::Memory(refused) => FinishFault::Run(RunFault::Memory(refused)),
        Stop::Idle => FinishFault::Idle,
        Stop::Steps => FinishFault::Steps,
        Stop::Quiet => match (up.has_row(grid), up.has_column(grid)) {
            (false, false) => FinishFault::Both,
            (false, true) => FinishFault::Row,
            (true, false) => FinishFault::Column,
            (true, true) => FinishFault::NoEnd,
        },
    }
}

// Appends the newline that ends the last line of a text, where the text has none there.
#[tactic(auto, using(crate::proofs::Finishing::newline_nothing))]
fn put_missing_newline(out: &mut Vec<u8>, text: &[u8]) -> Result<(), OutOfMemory>
    ensures { OnOk result (out.new.items ≡ out.old.items ++ missing_newline text.now) }
{
    let Some(last) = text.last() else {
        return Ok(());
    };
    if *last == b'\n' {
        return Ok(());
    }
    out.grow_by(b"\n")
}

// Answers the lines of a text after the plan, by a new world, and appends the lines that complete the operation behind them.
fn play_and_finish(
    alloc: Global,
    world: &mut World,
    lines: &[u8],
    tenant: u8,
    session: u32,
    text: &mut Vec<u8>,
) -> Result<(), FinishFault>
    requires first { Stands world.old.tables [] }
    requires tenant { tenant < length world.old.tables.plan.rows }
    ensures ok { OnOk result (Finished world.old.tables.plan (events_of world.old.tables.plan (lines_of lines.now)) tenant session text.old.items text.new.items) }
    ensures fault { IfErr result (λ fault. CauseOf fault world.old.tables.plan (events_of world.old.tables.plan (lines_of lines.now)) tenant session) }
{
    match play(alloc, world, lines) {
        Ok(()) => {}
        Err(refused) => return Err(FinishFault::Run(RunFault::Memory(refused))),
    }
    let up = world.up();
    match complete(world, tenant, session, text) {
        Ok(()) => Ok(()),
        Err(stop) => Err(fault_of(stop, world.plan().grid(), up)),
    }
}

// Appends the lines that complete the operation behind the lines of a text after the plan.
fn put_finish(
    alloc: Global,
    plan: Plan,
    lines: &[u8],
    tenant: u8,
    session: u32,
    text: &mut Vec<u8>,
) -> Result<(), FinishFault>
    requires { tenant < length plan.rows }
    ensures ok { OnOk result (Finished plan (events_of plan (lines_of lines.now)) tenant session text.old.items text.new.items) }
    ensures fault { IfErr result (λ fault. CauseOf fault plan (events_of plan (lines_of lines.now)) tenant session) }
{
    let mut world = match World::new(alloc, plan) {
        Ok(world) => world,
        Err(refused) => return Err(FinishFault::Run(RunFault::Memory(refused))),
    };
    play_and_finish(alloc, &mut world, lines, tenant, session, text)
}

// What completes the operation behind an input.
fn output(alloc: Global, input: &[u8], name: &str, session: u32) -> Result<Vec<u8>, FinishFault>
    requires { length input.now ≤ MOST_INPUT }
    ensures text { IfOk result (λ text. FinishOf name.now session input.now text.items) }
    ensures fault { IfErr result (HasCause name.now session input.now) }
    ensures own { IfErr result IsOfOutput }
{
    match read_plan(alloc, input) {
        Ok((plan, place)) => {
            let Some(tenant) = plan.find_word(name.as_bytes()) else {
                return Err(FinishFault::Name);
            };
            if session < 1 || session > plan.row(tenant).sessions {
                return Err(FinishFault::Session);
            }
            let mut text = Vec::new(alloc);
            match put_missing_newline(&mut text, input) {
                Ok(()) => {}
                Err(refused) => return Err(FinishFault::Run(RunFault::Memory(refused))),
            }
            match put_finish(alloc, plan, &input[place..], tenant, session, &mut text) {
                Ok(()) => Ok(text),
                Err(fault) => Err(fault),
            }
        }
        Err(PlanText::Fault { line, fault }) => {
            Err(FinishFault::Run(RunFault::Plan(line, fault)))
        }
        Err(PlanText::Memory(refused)) => Err(FinishFault::Run(RunFault::Memory(refused))),
    }
}

/// Reads the whole input as [`gq_script::run`] does, plays it, and writes the lines that complete the operation which a
/// session of the tenant of this name then has: a retry of the session, and deliveries of messages. Where the last line of
/// the input misses its newline, it is written first. Behind the input these lines are answered until the operation is
/// done, and none of them is refused. `Name` and `Session` are told after each fault of the plan, before a line is
/// answered; `Steps`, `Idle` and the faults of servers by the answers to the lines that were tried. After each fault but
/// `Write` nothing was written, after that a prefix of the lines.
pub fn finish_run<R: Read, W: Write>(
    alloc: Global,
    reader: &mut Watched<R>,
    writer: &mut Watched<W>,
    name: &str,
    session: u32,
) -> Result<(), FinishFault>
    requires reader { has_failed reader.old ≡ false }
    requires writer { has_failed writer.old ≡ false }

    // Ok: the lines were appended that complete the operation which the session has after the input.
    ensures ok { OnOk result (IfSome (R.remaining (inner_of reader.old)) (λ input. (text : List ℕ) ×
        FinishOf name.now session input text × Appends (W.contents (inner_of writer.old)) (W.contents (inner_of writer.new)) text)) }

    // When each fault comes.
    ensures read { IsErrOf result (FinishFault.Run RunFault.Read) ↔ (has_failed reader.new ≡ true) }
    ensures big { IsErrOf result (FinishFault.Run RunFault.TooBig) → IfSome (R.remaining (inner_of reader.old))
        (λ input. MOST_INPUT < length input) }
    ensures cause { IfErr result (λ e. IfSome (R.remaining (inner_of reader.old)) (λ input. HasCause name.now session input e)) }
    ensures write { IsErrOf result (FinishFault.Run RunFault.Write) ↔ (has_failed writer.new ≡ true) }

    // What was written at a fault.
    ensures nothing { IfErr result (λ e. e ≢ FinishFault.Run RunFault.Write → writer.new ≡ writer.old) }
    ensures prefix { IsErrOf result (FinishFault.Run RunFault.Write) → IfSome (R.remaining (inner_of reader.old)) (λ input. (text : List ℕ) ×
        FinishOf name.now session input text × AppendsPrefix (W.contents (inner_of writer.old)) (W.contents (inner_of writer.new)) text) }
{
    let input = read_whole(alloc, reader)?;
    let text = output(alloc, input.as_slice(), name, session)?;
    write_whole(writer, text.as_slice())?;
    Ok(())
}
