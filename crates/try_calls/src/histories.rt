//! The calls on the events of a run and what was answered to them.

ghost use Rattle.std.specs.Prelude.{All};
ghost use Rattle.gq_model.specs.Events.{IsIn};

use crate::calls::{retry, tell};
use crate::{Fault, texts};
use gq_desk::Plan;
use gq_memory::GrowVec;
use gq_model::said_of;
use gq_order::{Op, check_order, operations, order};
use gq_tag::FileId;
use gq_world::{Answer, Event, World};
use std::alloc::Global;

const FILE: FileId = FileId {
    tenant: 0,
    volume: 0,
    file: 0,
};

// Appends what the world answers to the events.
fn answer_each(world: &mut World, events: &[Event], answers: &mut Vec<Answer>) -> Result<(), Fault>
    requires { All (IsIn world.old.tables.plan) events.now }
{
    for event in events {
        match world.step(event) {
            Ok(answer) => answers.grow(answer)?,
            Err(_) => return Err(Fault::Memory),
        }
    }
    Ok(())
}

// What a world of the plan answers to the events.
fn answers(alloc: Global, plan: &Plan, events: &[Event]) -> Result<Vec<Answer>, Fault>
    requires { All (IsIn plan.now) events.now }
{
    let mut world = World::new(alloc, plan.copy()?)?;
    let mut answers = Vec::new(alloc);
    answer_each(&mut world, events, &mut answers)?;
    Ok(answers)
}

// What a session was told by the answer.
fn say(answer: &Answer, out: &mut Vec<u8>) -> Result<(), Fault> {
    let said = retry!(out, "said_of", answer, said_of(answer));
    tell(out, &said);
    Ok(())
}

fn ops(
    alloc: Global,
    plan: &Plan,
    events: &[Event],
    answers: &[Answer],
    out: &mut Vec<u8>,
) -> Result<Vec<Op>, Fault> {
    let ops = retry!(
        out,
        "operations",
        &(),
        operations(alloc, plan, events, answers, FILE)
    );
    Ok(ops)
}

fn put_order(alloc: Global, ops: &[Op], out: &mut Vec<u8>) -> Result<(), Fault> {
    let places = retry!(out, "order", &ops, order(alloc, ops));
    tell(out, &(places.as_slice(), check_order(ops, &places)));
    Ok(())
}

// Tells what each session was told, and the operations on the first file in their order.
fn tell_history(
    alloc: Global,
    plan: &Plan,
    events: &[Event],
    answers: &[Answer],
    out: &mut Vec<u8>,
) -> Result<(), Fault> {
    for answer in answers {
        say(answer, out)?;
    }
    let ops = ops(alloc, plan, events, answers, out)?;
    put_order(alloc, &ops, out)
}

// The same of what a world answers to the events.
fn run(alloc: Global, plan: &Plan, events: &[Event], out: &mut Vec<u8>) -> Result<(), Fault>
    requires { All (IsIn plan.now) events.now }
{
    let answers = answers(alloc, plan, events)?;
    tell_history(alloc, plan, events, &answers, out)
}

/// Runs a script, and tells what each session was told, and the operations on the first file in their order.
pub fn make(alloc: Global, script: &[u8], out: &mut Vec<u8>) -> Result<(), Fault> {
    let (plan, place) = texts::plan(alloc, script, out)?;
    let events = texts::events(alloc, &plan, &script[place..], out)?;
    run(alloc, &plan, &events, out)
}
