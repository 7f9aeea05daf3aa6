//! A live run, and what it recorded of its sessions.

ghost use Rattle.std.specs.Prelude.{◌≡◌, All, IfOk, true};
ghost use Rattle.gq_model.specs.Events.{IsIn};
ghost use Rattle.gq_session.specs.Fitting.{FitsPlan};

use crate::{End, Fault};
use gq_desk::Plan;
use gq_inspect::inspect;
use gq_live::{Gate, GaveUp, OpenGate, Programs, Records, Said, SessionEntry, live, sessions_of};
use gq_memory::{GrowCopies, OutOfMemory};
use gq_model::{Answer, Event, Line};
use gq_runs::read_programs;
use gq_script::MOST_INPUT;
use gq_text::{write_answer, write_script};
use std::alloc::Global;
use std::io::Write;
use std::sync::Wait;
use std::thread::Threads;

// It gives up where a worker holds a cell.
#[derive(Drop)]
struct Shut;

impl Gate for Shut {
    ghost use Rattle.std.specs.Prelude.{false};

    ghost never = { false };

    fn before(&self, _server: u32) -> Result<(), GaveUp> {
        Ok(())
    }

    fn inside(&self, _server: u32) -> Result<(), GaveUp> {
        Err(GaveUp)
    }
}

// Whether the event's tenant is in the plan.
fn is_in(plan: &Plan, event: &Event) -> bool
    ensures { result ≡ true → IsIn plan.now event.now }
{
    match event {
        Event::Tenant { tenant, .. } => (*tenant as usize) < plan.tenants(),
        Event::Server { .. } | Event::Stray => true,
    }
}

// Whether the tenants of all the events are.
fn are_in(plan: &Plan, events: &[Event]) -> bool
    ensures { result ≡ true → All (IsIn plan.now) events.now }
{
    events.iter().all(|event| is_in(plan, event))
}

// The answer in which that was said; the messages that were sent are numbered from 0.
fn answer_of(said: &Said) -> Result<Answer, OutOfMemory> {
    Ok(match said {
        Said::Began { op, sent } => Answer::Began {
            op: *op,
            first: 0,
            count: *sent,
        },
        Said::Stale => Answer::Stale,
        Said::Noted => Answer::Noted,
        Said::Round { round, tag, sent } => Answer::Round {
            round: *round,
            tag: *tag,
            first: 0,
            count: *sent,
        },
        Said::Done(outcome) => Answer::Done(outcome.share()?),
        Said::Resent { sent } => Answer::Resent {
            first: 0,
            count: *sent,
        },
        Said::Abandoned => Answer::Abandoned,
        Said::Refused(refusal) => Answer::Refused(*refusal),
    })
}

// Appends what was said to a session of the tenant.
fn put_answers(
    plan: &Plan,
    tenant: u8,
    entries: &[SessionEntry],
    out: &mut Vec<u8>,
) -> Result<(), Fault> {
    let event = Event::Tenant {
        tenant,
        line: Line::Bad,
    };
    if !is_in(plan, &event) {
        return Err(Fault::Other);
    }
    for entry in entries {
        write_answer(plan, &event, &answer_of(&entry.said)?, out)?;
    }
    Ok(())
}

// Appends what was said to each session, in the order of the plan, behind a line that names it.
fn put_sessions(
    alloc: Global,
    plan: &Plan,
    records: &Records,
    out: &mut Vec<u8>,
) -> Result<(), Fault> {
    let ids = sessions_of(alloc, plan)?;
    for (id, entries) in ids.iter().zip(records.sessions.iter()) {
        writeln!(out, "session {} {}", id.tenant, id.number)?;
        put_answers(plan, id.tenant, entries.items.as_slice(), out)?;
    }
    Ok(())
}

// Appends the script of the run's events, and the line before the answers.
fn put_events(plan: &Plan, events: &[Event], out: &mut Vec<u8>) -> Result<(), Fault> {
    if !are_in(plan, events) {
        return Err(Fault::Other);
    }
    write_script(plan, events, out)?;
    out.grow_by(b"answers\n")?;
    Ok(())
}

// Has the records inspected, and appends the script of their run and what each session was told.
fn put_run(alloc: Global, plan: &Plan, records: &Records, out: &mut Vec<u8>) -> Result<(), End> {
    let events = inspect(alloc, plan, records)?;
    put_events(plan, events.as_slice(), out)?;
    put_sessions(alloc, plan, records, out)?;
    Ok(())
}

// The plan and the programs of an input that is not too long.
fn read(alloc: Global, input: &[u8]) -> Result<(Plan, Programs), End>
    ensures { IfOk result (λ read. FitsPlan read.0 read.1) }
{
    if input.len() > MOST_INPUT {
        return Err(End::Call(Fault::Usage));
    }
    Ok(read_programs(alloc, input)?)
}

// The text of a run of the programs in threads.
fn text_of_run<R: Threads + Wait + Sync>(
    rt: &R,
    alloc: Global,
    plan: &Plan,
    programs: &Programs,
) -> Result<Vec<u8>, End>
    requires { FitsPlan plan.now programs.now }
{
    let records = live(rt, alloc, plan, programs, &OpenGate)?;
    let mut out = Vec::new(alloc);
    put_run(alloc, plan, &records, &mut out)?;
    Ok(out)
}

/// Runs the programs of an input in threads, and has the records inspected. It gives the run's script, a line `answers`, and
/// then for each session a line `session TENANT SESSION`, the tenant by its place in the plan, and what the session was told,
/// the messages of each answer being numbered from 0.
pub fn run<R: Threads + Wait + Sync>(rt: &R, alloc: Global, input: &[u8]) -> Result<Vec<u8>, End> {
    let (plan, programs) = read(alloc, input)?;
    text_of_run(rt, alloc, &plan, &programs)
}

/// Runs the programs of an input in threads under a gate that gives up. It gives nothing but the fault, if there is one.
pub fn run_shut<R: Threads + Wait + Sync>(rt: &R, alloc: Global, input: &[u8]) -> Result<(), End> {
    let (plan, programs) = read(alloc, input)?;
    live(rt, alloc, &plan, &programs, &Shut)?;
    Ok(())
}
