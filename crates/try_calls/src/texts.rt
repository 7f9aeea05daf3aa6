//! The calls on texts that take memory.

ghost use Rattle.std.specs.Prelude.{◌≤◌, length, IfOk};
ghost use Rattle.std.specs.List.{All};
ghost use Rattle.gq_model.specs.Events.{IsIn};

use crate::Fault;
use crate::calls::{retry, tell, tell_kept};
use gq_desk::Plan;
use gq_lines::first_line;
use gq_memory::{GrowVec, copied_bytes, slice_copied};
use gq_phase::Outcome;
use gq_runs::{ProgramFault, read_programs};
use gq_script::MOST_INPUT;
use gq_session::{Programs, SessionId, fits, sessions_of};
use gq_tag::{StoredCopy, Tag};
use gq_text::{read_line, read_plan, write_answer, write_script};
use gq_world::{Answer, Event};
use std::alloc::Global;

/// The plan of a script, and where its lines begin. Where memory is refused, that is told, and the plan is read once more.
pub fn plan(alloc: Global, script: &[u8], out: &mut Vec<u8>) -> Result<(Plan, usize), Fault>
    ensures { IfOk result (λ read. read.1 ≤ length script.now) }
{
    tell(out, &());
    if let Ok(read) = read_plan(alloc, script) {
        return Ok(read);
    }
    tell_kept(out, "read_plan", &());
    let read = read_plan(alloc, script)?;
    Ok(read)
}

/// The events of lines.
pub fn events(
    alloc: Global,
    plan: &Plan,
    lines: &[u8],
    out: &mut Vec<u8>,
) -> Result<Vec<Event>, Fault>
    ensures { IfOk result (λ events. All (IsIn plan.now) events.items) }
{
    let mut events = Vec::new(alloc);
    let mut rest = lines;
    while !rest.is_empty() {
        let (line, after) = first_line(rest);
        let event = retry!(out, "read_line", plan, read_line(alloc, line, plan));
        tell(out, &event);
        events.grow(event)?;
        rest = after;
    }
    Ok(events)
}

// A read's answer, which is long.
fn answer(alloc: Global) -> Result<Answer, Fault> {
    Ok(Answer::Done(Outcome::Gave {
        session: 1,
        op: 4,
        copy: StoredCopy {
            tag: Tag::first(),
            bytes: copied_bytes(alloc, &[7; 200])?,
        },
    }))
}

// Writes an answer behind a text.
fn put_answer(alloc: Global, plan: &Plan, out: &mut Vec<u8>) -> Result<(), Fault> {
    let answer = answer(alloc)?;
    let mut text = slice_copied(alloc, b"before\n")?;
    retry!(
        out,
        "write_answer",
        &text,
        write_answer(plan, &Event::Stray, &answer, &mut text)
    );
    tell(out, &text);
    Ok(())
}

// Writes the canonical script behind a text.
fn put_script(alloc: Global, plan: &Plan, events: &[Event], out: &mut Vec<u8>) -> Result<(), Fault>
    requires { All (IsIn plan.now) events.now }
{
    let mut text = slice_copied(alloc, b"before\n")?;
    retry!(
        out,
        "write_script",
        &text,
        write_script(plan, events, &mut text)
    );
    tell(out, &text);
    Ok(())
}

// The programs of an input, and their plan.
fn read(alloc: Global, input: &[u8], out: &mut Vec<u8>) -> Result<(Plan, Programs), Fault> {
    if input.len() > MOST_INPUT {
        return Err(Fault::Usage);
    }
    let read = retry!(
        out,
        "read_programs",
        &(),
        read_programs(alloc, input),
        ProgramFault::Memory(_)
    );
    Ok(read)
}

fn ids(alloc: Global, plan: &Plan, out: &mut Vec<u8>) -> Result<Vec<SessionId>, Fault> {
    let ids = retry!(out, "sessions_of", &(), sessions_of(alloc, plan));
    Ok(ids)
}

fn fit(alloc: Global, plan: &Plan, programs: &Programs, out: &mut Vec<u8>) -> Result<bool, Fault> {
    let fit = retry!(out, "fits", &(), fits(alloc, plan, programs));
    Ok(fit)
}

fn tell_programs(
    alloc: Global,
    plan: &Plan,
    programs: &Programs,
    out: &mut Vec<u8>,
) -> Result<(), Fault> {
    let fit = fit(alloc, plan, programs, out)?;
    let ids = ids(alloc, plan, out)?;
    tell(out, &(plan, programs, &ids, fit));
    Ok(())
}

/// Reads the programs of a live run, and asks whether they fit the plan.
pub fn programs(alloc: Global, input: &[u8], out: &mut Vec<u8>) -> Result<(), Fault> {
    let (plan, programs) = read(alloc, input, out)?;
    tell_programs(alloc, &plan, &programs, out)
}

/// Reads a script, and writes an answer and the script's canonical form, each behind a text that is there.
pub fn make(alloc: Global, script: &[u8], out: &mut Vec<u8>) -> Result<(), Fault> {
    let (plan, place) = plan(alloc, script, out)?;
    let events = events(alloc, &plan, &script[place..], out)?;
    put_answer(alloc, &plan, out)?;
    put_script(alloc, &plan, events.as_slice(), out)
}
