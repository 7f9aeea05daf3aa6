//! Which orders of the operations of two runs are legal.

use gq_inspect::{Op, OpRef, check_order, operations};
use gq_memory::GrowVec;
use gq_script::{read_line, read_plan};
use gq_tag::FileId;
use gq_world::{Answer, Event, World};
use std::alloc::Global;
use std::process::Abort;

const FILE: FileId = FileId {
    tenant: 0,
    volume: 0,
    file: 0,
};

// The plan of both cases.
const PLAN: &[u8] = b"grid 2 2\nblocks 8\ntenant ann 4 2 1000\ngo\n";

// The case a_read_writes_back: a write that never ended, and two reads, one after another, that gave it.
const WRITE_AND_TWO_READS: &[&str] = &[
    "ann open 2 2",
    "ann write 1 0 0 6869",
    "ann deliver 0",
    "ann deliver 1",
    "ann deliver 2",
    "ann deliver 3",
    "ann deliver 4",
    "ann read 2 0 0",
    "ann deliver 7",
    "ann deliver 8",
    "ann deliver 9",
    "ann deliver 10",
    "ann deliver 11",
    "ann deliver 12",
    "ann deliver 13",
    "ann deliver 14",
    "server 0 down",
    "ann read 2 0 0",
    "ann deliver 15",
    "ann deliver 16",
    "ann deliver 17",
    "ann deliver 18",
    "ann deliver 19",
    "ann deliver 20",
    "ann deliver 21",
    "ann deliver 22",
];

// The case an_abandoned_write: a write that is abandoned, and one that is completed.
const TWO_WRITES: &[&str] = &[
    "ann open 2 2",
    "ann write 1 0 0 aa",
    "ann deliver 0",
    "ann deliver 1",
    "ann deliver 2",
    "ann deliver 3",
    "ann deliver 4",
    "ann abandon 1",
    "server 0 down",
    "ann write 1 0 0 bb",
    "ann deliver 7",
    "ann deliver 8",
    "ann deliver 9",
    "ann deliver 10",
    "ann deliver 6",
    "ann deliver 11",
    "ann deliver 12",
    "ann deliver 13",
    "ann deliver 14",
];

// Answers the line, and keeps what was asked and answered.
fn answer(
    rt: &impl Abort,
    alloc: Global,
    world: &mut World,
    line: &[u8],
    events: &mut Vec<Event>,
    answers: &mut Vec<Answer>,
) {
    let event = read_line(alloc, line, world.plan()).expect(rt, "memory");
    let answer = world.step(&event).expect(rt, "memory");
    events.grow(event).expect(rt, "memory");
    answers.grow(answer).expect(rt, "memory");
}

// The operations on the first file in the run of these lines.
fn operations_of(rt: &impl Abort, alloc: Global, lines: &[&str]) -> Vec<Op> {
    let (plan, _) = read_plan(alloc, PLAN).expect(rt, "a plan");
    let mut world = World::new(alloc, plan.copy().expect(rt, "memory")).expect(rt, "memory");
    let mut events = Vec::new(alloc);
    let mut answers = Vec::new(alloc);
    for line in lines {
        answer(
            rt,
            alloc,
            &mut world,
            line.as_bytes(),
            &mut events,
            &mut answers,
        );
    }
    operations(alloc, &plan, &events, &answers, FILE).expect(rt, "memory")
}

// What the orders are called, each of which is to be legal, or not.
fn has_legal(rt: &impl Abort, ops: &[Op], orders: &[(&[OpRef], bool)]) {
    for (order, legal) in orders {
        assert!(rt; check_order(ops, order) == *legal, "{order:?}");
    }
}

#[test]
fn a_read_stands_after_its_write(rt: HostRuntime) {
    let ops = operations_of(&rt, rt.alloc(), WRITE_AND_TWO_READS);
    assert!(rt; ops.len() == 3);
    has_legal(
        &rt,
        &ops,
        &[
            (&[0, 1, 2], true),
            (&[1, 0, 2], false),
            (&[0, 1], false),
            (&[0, 2, 1], false),
            (&[0, 1, 2, 2], false),
            (&[0, 1, 2, 3], false),
        ],
    );
}

#[test]
fn an_abandoned_write_stands_anywhere_or_not_at_all(rt: HostRuntime) {
    let ops = operations_of(&rt, rt.alloc(), TWO_WRITES);
    assert!(rt; ops.len() == 2);
    has_legal(
        &rt,
        &ops,
        &[(&[1], true), (&[0, 1], true), (&[1, 0], true), (&[], false)],
    );
}
