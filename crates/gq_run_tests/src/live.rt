//! Live runs of texts, under gates.

use crate::gates::{Counting, Meeting, Overtaking, Shut};
use gq_desk::Plan;
use gq_inspect::{Mismatch, inspect};
use gq_live::{CellEntry, Entries, Gate, Journal, LiveFault, OpenGate, Records, Said, fits, live};
use gq_memory::GrowVec;
use gq_runs::{LiveRunFault, live_run, read_programs};
use gq_script::MOST_INPUT;
use gq_streams::Watched;
use gq_tag::{Body, Tag};
use std::alloc::Global;
use std::process::Abort;
use std::sync::Wait;
use std::sync::atomic::Ordering;
use std::thread::Threads;

const TWO_SERVERS: &[u8] =
    b"grid 1 2\nblocks 1\ntenant ann 1 1 1000000\ngo\nann open 1 1\nann read 1 0 0\n";

const TWO_SESSIONS: &[u8] =
    b"grid 1 1\nblocks 1\ntenant ann 1 2 1000000\ngo\nann open 1 1\nann read 1 0 0\nann read 2 0 0\n";

const THREE_TENANTS: &[u8] = b"\
grid 2 2\nblocks 6\ntenant ann 2 2 1000000\ntenant bob 2 1 1000000\ntenant cid 2 1 1000000\ngo\nann open 1 2\nbob open 1 2\ncid open 1 2\n\
ann write 1 0 0 a0\nann read 1 0 0\nann write 1 0 0 a1\nann read 1 0 0\nann write 1 0 0 a2\nann read 1 0 0\nann write 1 0 0 a3\nann read 1 0 0\n\
ann write 2 0 0 b0\nann read 2 0 0\nann write 2 0 0 b1\nann read 2 0 0\nann write 2 0 0 b2\nann read 2 0 0\nann write 2 0 0 b3\nann read 2 0 0\n\
bob write 1 0 0 c0\nbob read 1 0 0\nbob write 1 0 0 c1\nbob read 1 0 0\nbob write 1 0 0 c2\nbob read 1 0 0\nbob write 1 0 0 c3\nbob read 1 0 0\n\
cid write 1 0 0 d0\ncid read 1 0 0\ncid write 1 0 0 d1\ncid read 1 0 0\ncid write 1 0 0 d2\ncid read 1 0 0\ncid write 1 0 0 d3\ncid read 1 0 0\n";

const FOUR_VOLUMES: &[u8] =
    b"grid 1 1\nblocks 4\ntenant ann 4 1 1000000\ngo\nann open 1 1\nann open 1 1\nann open 1 1\nann open 1 1\n";

// The plan of a text, and the records of a run of its programs.
pub(crate) fn run_of<G: Gate + Send + Sync, R: Abort + Threads + Wait + Sync>(
    rt: &R,
    alloc: Global,
    text: &[u8],
    gate: &G,
) -> (Plan, Records) {
    assert!(rt; text.len() <= MOST_INPUT);
    let Ok((plan, programs)) = read_programs(alloc, text) else {
        panic!(rt; "no programs");
    };
    match live(rt, alloc, &plan, &programs, gate) {
        Ok(records) => (plan, records),
        Err(fault) => panic!(rt; "{fault}"),
    }
}

// How many letters were served.
fn served_in(journal: &Journal) -> u64 {
    let mut count: u64 = 0;
    for entry in &journal.items {
        if let CellEntry::Served { .. } = entry {
            count = count.saturating_add(1);
        }
    }
    count
}

// How many operations were done.
fn done_in(entries: &Entries) -> u64 {
    let mut count: u64 = 0;
    for entry in &entries.items {
        if let Said::Done(_) = &entry.said {
            count = count.saturating_add(1);
        }
    }
    count
}

#[test]
fn two_servers_serve_at_once(rt: HostRuntime) {
    let mut reader = Watched::new(TWO_SERVERS);
    let mut writer = Watched::new(Vec::new(rt.alloc()));
    let gate = Meeting::new();
    let done = live_run(&rt, rt.alloc(), &mut reader, &mut writer, &gate);
    assert!(rt; done.is_ok());
    assert!(rt; gate.first.load(Ordering::SeqCst) == 1);
    assert!(rt; gate.second.load(Ordering::SeqCst) == 1);
}

#[test]
fn each_of_two_servers_serves_one_letter(rt: HostRuntime) {
    let gate = Meeting::new();
    let (_, records) = run_of(&rt, rt.alloc(), TWO_SERVERS, &gate);
    assert!(rt; gate.first.load(Ordering::SeqCst) == 1 && gate.second.load(Ordering::SeqCst) == 1);
    assert!(rt; records.cells.len() == 2);
    for journal in &records.cells {
        assert!(rt; journal.items.len() == 1 && served_in(journal) == 1);
    }
}

#[test]
fn two_workers_serve_one_server_at_once(rt: HostRuntime) {
    let gate = Overtaking::new();
    let _run = run_of(&rt, rt.alloc(), TWO_SESSIONS, &gate);
    assert!(rt; gate.held.load(Ordering::SeqCst) != 0);
}

#[test]
fn tells_that_the_gate_gave_up(rt: HostRuntime) {
    let mut reader = Watched::new(TWO_SESSIONS);
    let mut writer = Watched::new(Vec::new(rt.alloc()));
    let done = live_run(&rt, rt.alloc(), &mut reader, &mut writer, &Shut);
    assert!(rt; matches!(done, Err(LiveRunFault::Live(LiveFault::Gate))));
}

// Each letter served was a hold of its server's cell, and each session's eight operations were done.
fn has_each_hold(rt: &impl Abort, records: &Records, gate: &Counting) {
    assert!(rt; records.cells.len() == 4 && records.sessions.len() == 4);
    for (journal, held) in records.cells.iter().zip(gate.held.iter()) {
        assert!(rt; served_in(journal) == held.load(Ordering::SeqCst));
    }
    for entries in &records.sessions {
        assert!(rt; done_in(entries) == 8);
    }
}

fn counts_each_hold<R: Abort + Threads + Wait + Sync>(rt: &R, alloc: Global, gate: &Counting) {
    let (plan, records) = run_of(rt, alloc, THREE_TENANTS, gate);
    has_each_hold(rt, &records, gate);
    assert!(rt; inspect(alloc, &plan, &records).is_ok());
}

#[test]
fn records_each_hold_of_a_cell(rt: HostRuntime) {
    counts_each_hold(&rt, rt.alloc(), &Counting::new());
}

// Gives the first copy that the server told another tag, and answers the place of that reply.
fn forge_a_copy(journal: &mut Journal) -> Option<usize> {
    for (place, entry) in journal.items.iter_mut().enumerate() {
        if let CellEntry::Served { reply, .. } = entry {
            if let Body::Copy(copy) = &mut reply.message.body {
                copy.tag = Tag {
                    number: 1000,
                    session: 1,
                };
                return Some(place);
            }
        }
    }
    None
}

// The same at the first server that told a copy (not each does), and the server and place that have to be told of it.
fn forge_one(records: &mut Records) -> Option<(usize, usize)> {
    for (server, journal) in records.cells.iter_mut().enumerate() {
        if let Some(place) = forge_a_copy(journal) {
            return Some((server, place));
        }
    }
    None
}

#[test]
fn tells_a_forged_reply_of_many(rt: HostRuntime) {
    let (plan, mut records) = run_of(&rt, rt.alloc(), THREE_TENANTS, &OpenGate);
    let forged = forge_one(&mut records);
    assert!(rt; forged.is_some());
    match inspect(rt.alloc(), &plan, &records) {
        Err(Mismatch::Reply { server, place }) => assert!(rt; forged == Some((server, place))),
        _ => panic!(rt; "no reply is told"),
    }
}

// What is told of the records of a run where what the session at that place was told first is forged.
fn forged_answer<R: Abort + Threads + Wait + Sync>(
    rt: &R,
    alloc: Global,
    place: usize,
) -> Option<(u8, u8, usize)> {
    let (plan, mut records) = run_of(rt, alloc, THREE_TENANTS, &OpenGate);
    if let Some(entries) = records.sessions.get_mut(place) {
        if let Some(first) = entries.items.get_mut(0) {
            first.said = Said::Abandoned;
        }
    }
    match inspect(alloc, &plan, &records) {
        Err(
            Mismatch::Answer {
                tenant,
                session,
                at,
            },
        ) => Some((tenant, session, at)),
        _ => None,
    }
}

#[test]
fn tells_whose_answer_is_forged(rt: HostRuntime) {
    for (place, told) in [(0, (0, 1, 0)), (1, (0, 2, 0)), (3, (2, 1, 0))] {
        assert!(rt;
            forged_answer(&rt, rt.alloc(), place) == Some(told),
            "{place}"
        );
    }
}

// Which volume a run refuses where the one at that place has more blocks than the tenant may have.
fn refused_at<R: Abort + Threads + Wait + Sync>(
    rt: &R,
    alloc: Global,
    place: usize,
) -> Option<usize> {
    let text = FOUR_VOLUMES;
    assert!(rt; text.len() <= MOST_INPUT);
    let Ok((plan, mut programs)) = read_programs(alloc, text) else {
        panic!(rt; "no programs");
    };
    if let Some(volume) = programs.volumes.get_mut(place) {
        volume.blocks = 5;
    }
    let Ok(true) = fits(alloc, &plan, &programs) else {
        panic!(rt; "the programs do not fit the plan");
    };
    match live(rt, alloc, &plan, &programs, &OpenGate) {
        Err(LiveFault::Volume(told)) => Some(told),
        _ => None,
    }
}

// A share of one block has room for one volume of one file.
#[test]
fn tells_that_the_second_volume_is_refused(rt: HostRuntime) {
    let alloc = rt.alloc();
    let text: &[u8] =
        b"grid 1 1\nblocks 1\ntenant ann 1 1 1000000\ngo\nann open 1 1\nann read 1 0 0\n";
    assert!(rt; text.len() <= MOST_INPUT);
    let Ok((plan, mut programs)) = read_programs(alloc, text) else {
        panic!(rt; "no programs");
    };
    let Some(volume) = programs.volumes.first().copied() else {
        panic!(rt; "no volume");
    };
    assert!(rt; programs.volumes.grow(volume).is_ok());
    let Ok(true) = fits(alloc, &plan, &programs) else {
        panic!(rt; "the programs do not fit the plan");
    };
    assert!(rt;
        matches!(
            live(&rt, alloc, &plan, &programs, &OpenGate),
            Err(LiveFault::Volume(1))
        )
    );
}

#[test]
fn tells_the_volume_that_is_refused(rt: HostRuntime) {
    for place in 0..4 {
        assert!(rt;
            refused_at(&rt, rt.alloc(), place) == Some(place),
            "{place}"
        );
    }
}
