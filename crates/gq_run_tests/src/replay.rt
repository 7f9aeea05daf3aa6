//! The records of the smallest live run, and forgeries of them.

use crate::live::run_of;
use bytes::Bytes;
use gq_cell::{BoardEntry, CellEntry};
use gq_inspect::inspect;
use gq_live::OpenGate;
use gq_memory::{GrowVec, OutOfMemory};
use gq_model::Said;
use gq_phase::Outcome;
use gq_runs::read_programs;
use gq_script::MOST_INPUT;
use gq_session::{Did, Journal, Records, SessionEntry};
use gq_tag::{Body, Tag};
use std::alloc::Global;
use std::fmt::Debug;
use std::process::Abort;
use std::sync::Wait;
use std::thread::Threads;

const SMALLEST: &[u8] =
    b"grid 1 1\nblocks 1\ntenant ann 1 1 1000000\ngo\nann open 1 1\nann write 1 0 0 6869\n";

// The programs of its input.
const PROGRAMS: &str = "\
Programs { volumes: [Opening { tenant: 0, files: 1, blocks: 1 }], sessions: [Lines { items: [Write { session: 1, \
volume: 0, file: 0, bytes: b\"hi\" }] }], changes: [] }";

// What is recorded: the volume; the server was asked and told its first copy, and then was sent the new one and stored it; no server
// changed; the session asked its request, and heard the copy and that the other was stored.
const RECORDS: &str = "\
Records { volumes: [Opening { tenant: 0, files: 1, blocks: 1 }], cells: [Journal { items: [Served { letter: Letter { \
place: 0, stamp: 1, index: 0, message: Message { tenant: 0, session: 1, op: 1, round: 1, server: 0, file: FileId { \
tenant: 0, volume: 0, file: 0 }, body: Ask } }, reply: Letter { place: 1, stamp: 2, index: 0, message: Message { \
tenant: 0, session: 1, op: 1, round: 1, server: 0, file: FileId { tenant: 0, volume: 0, file: 0 }, \
body: Copy(StoredCopy { tag: Tag { number: 0, session: 0 }, bytes: b\"\" }) } } }, Served { letter: Letter { place: 0, \
stamp: 3, index: 0, message: Message { tenant: 0, session: 1, op: 1, round: 2, server: 0, file: FileId { tenant: 0, \
volume: 0, file: 0 }, body: Store(StoredCopy { tag: Tag { number: 1, session: 1 }, bytes: b\"hi\" }) } }, \
reply: Letter { place: 1, stamp: 4, index: 0, message: Message { tenant: 0, session: 1, op: 1, round: 2, server: 0, \
file: FileId { tenant: 0, volume: 0, file: 0 }, body: Stored } } }] }], board: [], sessions: [Entries { items: [\
SessionEntry { stamp: 1, did: Asked(Write { session: 1, volume: 0, file: 0, bytes: b\"hi\" }), said: Began { op: 1, \
sent: 1 } }, SessionEntry { stamp: 3, did: Heard(Letter { place: 1, stamp: 2, index: 0, message: Message { tenant: 0, \
session: 1, op: 1, round: 1, server: 0, file: FileId { tenant: 0, volume: 0, file: 0 }, body: Copy(StoredCopy { \
tag: Tag { number: 0, session: 0 }, bytes: b\"\" }) } }), said: Round { round: 2, tag: Some(Tag { number: 1, \
session: 1 }), sent: 1 } }, SessionEntry { stamp: 5, did: Heard(Letter { place: 1, stamp: 4, index: 0, \
message: Message { tenant: 0, session: 1, op: 1, round: 2, server: 0, file: FileId { tenant: 0, volume: 0, file: 0 }, \
body: Stored } }), said: Done(Wrote { session: 1, op: 1, tag: Tag { number: 1, session: 1 } }) }] }] }";

// The run that they are.
const EVENTS: &str = "\
[Tenant { tenant: 0, line: NewVolume { files: 1, blocks: 1 } }, Tenant { tenant: 0, line: Write { session: 1, \
volume: 0, file: 0, bytes: b\"hi\" } }, Tenant { tenant: 0, line: Deliver { number: 0 } }, Tenant { tenant: 0, \
line: Deliver { number: 1 } }, Tenant { tenant: 0, line: Deliver { number: 2 } }, Tenant { tenant: 0, line: Deliver { \
number: 3 } }]";

// How the value is shown.
fn shown(rt: &impl Abort, alloc: Global, value: &impl Debug) -> String {
    format!(in alloc; "{value:?}").expect(rt, "memory")
}

#[test]
fn reads_the_programs_of_the_smallest_run(rt: HostRuntime) {
    assert!(rt; SMALLEST.len() <= MOST_INPUT);
    let Ok((_, programs)) = read_programs(rt.alloc(), SMALLEST) else {
        panic!(rt; "no programs");
    };
    assert!(rt; shown(&rt, rt.alloc(), &programs).as_str() == PROGRAMS);
}

#[test]
fn records_the_smallest_run(rt: HostRuntime) {
    let (plan, records) = run_of(&rt, rt.alloc(), SMALLEST, &OpenGate);
    assert!(rt; shown(&rt, rt.alloc(), &records).as_str() == RECORDS);
    let Ok(events) = inspect(rt.alloc(), &plan, &records) else {
        panic!(rt; "a mismatch is told");
    };
    assert!(rt; shown(&rt, rt.alloc(), &events).as_str() == EVENTS);
}

// The same of two servers, of which the second serves one letter.
const TWO_SERVERS: &[u8] =
    b"grid 1 2\nblocks 1\ntenant ann 1 1 1000000\ngo\nann open 1 1\nann write 1 0 0 6869\n";

// What of the records is forged.
#[derive(Clone, Copy, Debug)]
enum Forgery {
    // The tag of the copy that the server told.
    Told,
    // The content that the server was to store.
    Brought,
    // The server to which the letters of the last server were sent.
    Server,
    // The tag that the session was told at the end.
    Done,
    // The operation of the letter that it heard last.
    Operation,
    // The stamp of its last step.
    Stamp,
    // A return of the server that did not stop.
    Return,
    // A letter that the last server served after it stopped.
    Stopped,
    // All servers.
    Servers,
}

fn forge_body(body: &mut Body) {
    match body {
        Body::Copy(copy) => {
            copy.tag = Tag {
                number: 7,
                session: 1,
            };
        }
        Body::Store(copy) => copy.bytes = Bytes::from_static(b"\0"),
        Body::Ask | Body::Stored => {}
    }
}

fn forge_letters(journal: &mut Journal, forgery: Forgery) {
    for entry in journal.items.iter_mut() {
        if let CellEntry::Served { letter, reply } = entry {
            match forgery {
                Forgery::Told => forge_body(&mut reply.message.body),
                Forgery::Server => letter.message.server = 0,
                _ => forge_body(&mut letter.message.body),
            }
        }
    }
}

fn forge_step(step: &mut SessionEntry, forgery: Forgery) {
    match forgery {
        Forgery::Done => {
            step.said = Said::Done(Outcome::Wrote {
                session: 1,
                op: 1,
                tag: Tag {
                    number: 2,
                    session: 1,
                },
            });
        }
        Forgery::Operation => {
            if let Did::Heard(letter) = &mut step.did {
                letter.message.op = 2;
            }
        }
        _ => step.stamp = 3,
    }
}

// The stamp at which the last server stops, above all of its run.
const STOPPED: u64 = 50;

// The server stops, and serves its first letter once more.
fn serve_stopped(journal: &mut Journal) -> Result<(), OutOfMemory> {
    let Some(CellEntry::Served { letter, reply }) = journal.items.get(0) else {
        return Ok(());
    };
    let letter = letter.share()?;
    let mut reply = reply.share()?;
    reply.stamp = STOPPED + 1;
    journal.items.grow(CellEntry::Stop { stamp: STOPPED })?;
    journal.items.grow(CellEntry::Served { letter, reply })
}

fn forge(records: &mut Records, forgery: Forgery) {
    match forgery {
        Forgery::Told | Forgery::Brought => {
            for journal in records.cells.iter_mut() {
                forge_letters(journal, forgery);
            }
        }
        Forgery::Server => {
            if let Some(journal) = records.cells.last_mut() {
                forge_letters(journal, forgery);
            }
        }
        Forgery::Done | Forgery::Operation | Forgery::Stamp => {
            for entries in records.sessions.iter_mut() {
                if let Some(last) = entries.items.last_mut() {
                    forge_step(last, forgery);
                }
            }
        }
        Forgery::Return => {
            let _ = records.board.grow(BoardEntry {
                stamp: 6,
                server: 0,
                up: true,
            });
        }
        Forgery::Stopped => {
            if let Some(journal) = records.cells.last_mut() {
                let _ = serve_stopped(journal);
            }
            let _ = records.board.grow(BoardEntry {
                stamp: STOPPED,
                server: 1,
                up: false,
            });
        }
        Forgery::Servers => records.cells.clear(),
    }
}

// What is told of the records of the smallest run where this is forged, or of that of two servers.
fn forged<R: Abort + Threads + Wait + Sync>(rt: &R, alloc: Global, forgery: Forgery) -> String {
    let text = match forgery {
        Forgery::Server | Forgery::Stopped => TWO_SERVERS,
        _ => SMALLEST,
    };
    let (plan, mut records) = run_of(rt, alloc, text, &OpenGate);
    forge(&mut records, forgery);
    match inspect(alloc, &plan, &records) {
        Err(mismatch) => format!(in alloc; "{mismatch:?}").expect(rt, "memory"),
        Ok(_) => panic!(rt; "nothing is told"),
    }
}

#[test]
fn tells_what_is_forged(rt: HostRuntime) {
    let reply = "Reply { server: 0, place: 0 }";
    let receipt = "Receipt { server: 0, place: 1 }";
    let elsewhere = "Receipt { server: 1, place: 0 }";
    let stopped = "Reply { server: 1, place: 2 }";
    let answer = "Answer { tenant: 0, session: 1, at: 2 }";
    for (forgery, told) in [
        (Forgery::Told, reply),
        (Forgery::Brought, receipt),
        (Forgery::Server, elsewhere),
        (Forgery::Done, answer),
        (Forgery::Operation, answer),
        (Forgery::Stamp, "Stamp"),
        (Forgery::Return, "Stamp"),
        (Forgery::Stopped, stopped),
        (Forgery::Servers, "Shape"),
    ] {
        assert!(rt;
            forged(&rt, rt.alloc(), forgery).as_str() == told,
            "{forgery:?}"
        );
    }
}
