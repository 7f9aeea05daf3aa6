//! A world that answers the lines of a script one by one, also after want of memory.

ghost use Rattle.std.specs.Prelude.{IfOk};
ghost use Rattle.gq_model.specs.Events.{IsIn};

use crate::Fault;
use gq_desk::Plan;
use gq_lines::first_line;
use gq_memory::{GrowCopies, GrowVec, OutOfMemory};
use gq_text::{read_line, read_plan, write_answer};
use gq_world::{Event, World};
use std::alloc::Global;

// The event of a line. Where memory is refused, the line is read once more.
fn event_of(alloc: Global, line: &[u8], plan: &Plan) -> Result<Event, OutOfMemory>
    ensures { IfOk result (λ event. IsIn plan.now event) }
{
    match read_line(alloc, line, plan) {
        Ok(event) => Ok(event),
        Err(_) => read_line(alloc, line, plan),
    }
}

// Steps the world by a line, and appends the answer. Where memory is refused to its text, that is written once more.
fn answer(
    alloc: Global,
    world: &mut World,
    line: &[u8],
    out: &mut Vec<u8>,
) -> Result<(), OutOfMemory> {
    let event = event_of(alloc, line, world.plan())?;
    let Ok(answer) = world.step(&event) else {
        return out.grow_by(b"ended\n");
    };
    match write_answer(world.plan(), &event, &answer, out) {
        Ok(()) => Ok(()),
        Err(_) => write_answer(world.plan(), &event, &answer, out),
    }
}

// Appends how many blocks of each server are free.
fn put_free(world: &World, out: &mut Vec<u8>) -> Result<(), OutOfMemory> {
    out.grow_by(b"free")?;
    for server in 0..world.plan().grid().servers() {
        out.grow(b' ')?;
        out.grow_by(itoa::Buffer::new().format(world.free(server)).as_bytes())?;
    }
    out.grow(b'\n')?;
    Ok(())
}

// Steps the world by each of the lines, and appends the answers.
fn answer_all(
    alloc: Global,
    world: &mut World,
    lines: &[u8],
    out: &mut Vec<u8>,
) -> Result<(), OutOfMemory> {
    let mut rest = lines;
    while !rest.is_empty() {
        let (line, after) = first_line(rest);
        answer(alloc, world, line, out)?;
        rest = after;
    }
    Ok(())
}

// Appends the answers to the lines of a script, and then a line of how many blocks of each server are free.
fn put_play(alloc: Global, script: &[u8], out: &mut Vec<u8>) -> Result<(), Fault> {
    let (plan, place) = read_plan(alloc, script)?;
    let mut world = World::new(alloc, plan)?;
    answer_all(alloc, &mut world, &script[place..], out)?;
    put_free(&world, out)?;
    Ok(())
}

/// The answers to the lines of a script, and then a line of how many blocks of each server are free. At a fault nothing is given.
pub fn play(alloc: Global, script: &[u8]) -> Result<Vec<u8>, Fault> {
    let mut out = Vec::new(alloc);
    put_play(alloc, script, &mut out)?;
    Ok(out)
}
