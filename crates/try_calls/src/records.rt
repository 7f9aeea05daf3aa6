//! The inspection of records, which one server and sessions make here that go on one after another, without threads.

ghost use Rattle.std.specs.Prelude.{◌≡◌, [], ◌∷◌, ◌<◌, All, IfOk, IsTrue, length, true};
ghost use Rattle.gq_tag.specs.Tag.{to_server};
ghost use Rattle.gq_session.specs.Fitting.{IsChange, IsRequest};

use crate::Fault;
use crate::calls::{retry, tell};
use gq_cell::{Cell, CellRefused, Letter, Served, Share};
use gq_desk::{Name, Plan, PlanFault, TenantRow, VolumeRow};
use gq_grid::Grid;
use gq_inspect::{Mismatch, inspect};
use gq_memory::{GrowVec, copied_bytes, slice_copied};
use gq_model::{Line, ServerLine};
use gq_session::{Entries, Journal, Opening, Outbox, Records, Schedule, Session, change_cell};
use gq_tag::Message;
use std::alloc::Global;
use std::marker::Brand;
use std::sync::ledger::{Blank, Ledger};

// More than the steps of a session.
const MOST_STEPS: u32 = 64;

fn grid() -> Result<Grid, Fault>
    ensures { IfOk result (λ grid. grid ≡ record { rows = 1; cols = 1 }) }
{
    match Grid::new(1, 1) {
        Ok(grid) => Ok(grid),
        Err(_) => Err(Fault::Usage),
    }
}

// One server of one block, and one tenant of so many sessions.
fn plan(alloc: Global, sessions: u32) -> Result<Plan, Fault>
    ensures { IfOk result (λ plan. plan ≡ record {
      grid = record { rows = 1; cols = 1 };
      blocks = 1;
      rows = record { name = 97 ∷ []; share = 1; sessions = sessions; steps = 1000000; most_blocks = 16; most_volumes = 64 } ∷ [];
    }) }
{
    let Some(name) = Name::new(b"a") else {
        return Err(Fault::Usage);
    };
    let row = TenantRow {
        name,
        share: 1,
        sessions,
        steps: 1_000_000,
        most_blocks: 16,
        most_volumes: 64,
    };
    match Plan::check(alloc, grid()?, 1, &[row]) {
        Ok(plan) => Ok(plan),
        Err(PlanFault::Memory(_)) => Err(Fault::Memory),
        Err(_) => Err(Fault::Usage),
    }
}

// A session's requests: a write of the content, or, where there is none, a read and a listing.
fn lines(alloc: Global, session: u32, content: Option<&[u8]>) -> Result<Vec<Line>, Fault>
    ensures { IfOk result (λ lines. All IsRequest lines.items) }
{
    let mut lines = Vec::new(alloc);
    let Some(content) = content else {
        lines.grow(Line::Read {
            session,
            volume: 0,
            file: 0,
        })?;
        lines.grow(Line::List { session, volume: 0 })?;
        return Ok(lines);
    };
    lines.grow(Line::Write {
        session,
        volume: 0,
        file: 0,
        bytes: copied_bytes(alloc, content)?,
    })?;
    Ok(lines)
}

fn is_for(message: &Message, server: u8) -> bool
    ensures { result ≡ true → (message.now.server ≡ server) × IsTrue (to_server message.now.body) }
{
    message.server == server && message.to_server()
}

// The message of a step of one, as a letter.
fn letter_of(alloc: Global, outbox: Outbox) -> Result<Option<Letter>, Fault> {
    let Outbox {
        stamp,
        messages,
        ..
    } = outbox;
    let message = messages.to_vec(alloc)?.pop();
    Ok(message.map(|message| Letter {
        place: 0,
        stamp,
        index: 0,
        message,
    }))
}

// The server replies to a letter that is for it.
fn served<L: Ledger>(
    cell: &mut Cell<L>,
    share: &mut Share<L>,
    letter: &Letter,
) -> Result<Letter, Fault> {
    if !is_for(&letter.message, cell.server()) {
        return Err(Fault::Other);
    }
    match cell.serve(share, letter) {
        Ok(Served::Reply(reply)) => Ok(reply),
        Err(CellRefused::Memory(_)) => Err(Fault::Memory),
        _ => Err(Fault::Other),
    }
}

// The server replies to the one message of a step, and the session hears that: its next step. None where nothing was sent.
fn go_on<L: Ledger>(
    alloc: Global,
    schedule: &mut Schedule,
    cell: &mut Cell<L>,
    share: &mut Share<L>,
    session: &mut Session,
    outbox: Outbox,
) -> Result<Option<Outbox>, Fault> {
    let Some(letter) = letter_of(alloc, outbox)? else {
        return Ok(None);
    };
    let reply = served(cell, share, &letter)?;
    Ok(Some(session.hear(schedule, reply)?))
}

// The session asks all its requests, one after another.
fn ask_all<L: Ledger>(
    alloc: Global,
    schedule: &mut Schedule,
    cell: &mut Cell<L>,
    share: &mut Share<L>,
    session: &mut Session,
) -> Result<(), Fault> {
    let mut step = None;
    for _ in 0..MOST_STEPS {
        step = match step {
            Some(outbox) => go_on(alloc, schedule, cell, share, session, outbox)?,
            None => match session.ask_next(schedule)? {
                Some(outbox) => Some(outbox),
                None => return Ok(()),
            },
        };
    }
    Err(Fault::Other)
}

// A session with these requests.
fn session_of(alloc: Global, number: u8, content: Option<&[u8]>) -> Result<Session, Fault> {
    let mut volumes = Vec::new(alloc);
    volumes.grow(VolumeRow {
        files: 1,
        blocks: 1,
    })?;
    let own = lines(alloc, u32::from(number), content)?;
    Ok(Session::new(alloc, grid()?, 0, number, volumes, own))
}

// What the session noted of these requests.
fn entries_of(
    alloc: Global,
    session: Session,
    number: u8,
    content: Option<&[u8]>,
) -> Result<Entries, Fault> {
    let asked = lines(alloc, u32::from(number), content)?;
    match session.close(asked.as_slice()) {
        Some(items) => Ok(Entries { items }),
        None => Err(Fault::Other),
    }
}

// The next change of the servers, and then all of a session's steps.
fn attend<L: Ledger>(
    alloc: Global,
    schedule: &mut Schedule,
    cell: &mut Cell<L>,
    share: &mut Share<L>,
    number: u8,
    content: Option<&[u8]>,
) -> Result<Entries, Fault> {
    change_cell(schedule, cell)?;
    let mut session = session_of(alloc, number, content)?;
    ask_all(alloc, schedule, cell, share, &mut session)?;
    entries_of(alloc, session, number, content)
}

// The steps of a session for each of the contents.
fn attend_all<L: Ledger>(
    alloc: Global,
    schedule: &mut Schedule,
    cell: &mut Cell<L>,
    share: &mut Share<L>,
    contents: &[Option<&[u8]>],
) -> Result<Vec<Entries>, Fault> {
    let mut sessions = Vec::new(alloc);
    for (place, content) in contents.iter().enumerate() {
        let Ok(before) = u8::try_from(place) else {
            return Err(Fault::Usage);
        };
        let number = before.saturating_add(1);
        sessions.grow(attend(alloc, schedule, cell, share, number, *content)?)?;
    }
    Ok(sessions)
}

// The records of a run of the plan in which the sessions go on one after another, with a change before each, as long as
// there is one.
fn records<L: Ledger>(
    alloc: Global,
    plan: &Plan,
    contents: &[Option<&[u8]>],
    changes: &[ServerLine],
    blank: Blank,
) -> Result<Records, Fault>
    requires name { blank.name ≡ L.name }
    requires parts { blank.parts ≡ L.parts }
    requires two { L.parts ≡ 2 }
    requires plan { plan.now ≡ record {
      grid = record { rows = 1; cols = 1 };
      blocks = 1;
      rows = record { name = 97 ∷ []; share = 1; sessions = length contents.now; steps = 1000000; most_blocks = 16; most_volumes = 64 } ∷ [];
    } }
    requires changes { All (IsChange (record { rows = 1; cols = 1 })) changes.now }
{
    let (mut cell, mut one, two) = Cell::<L>::new(alloc, plan, 0, blank)?;
    cell.add_files(0, 1, 1)?;
    let mut schedule = Schedule::new(alloc, plan.grid(), slice_copied(alloc, changes)?);
    let sessions = attend_all(alloc, &mut schedule, &mut cell, &mut one, contents)?;
    let Some(board) = schedule.close(changes) else {
        return Err(Fault::Other);
    };
    let mut cells = Vec::new(alloc);
    cells.grow(Journal {
        items: cell.close(one, two),
    })?;
    let mut volumes = Vec::new(alloc);
    volumes.grow(Opening {
        tenant: 0,
        files: 1,
        blocks: 1,
    })?;
    Ok(Records {
        volumes,
        cells,
        board,
        sessions,
    })
}

// Has the records of a run of the plan inspected.
fn inspect_records(
    alloc: Global,
    plan: &Plan,
    records: &Records,
    out: &mut Vec<u8>,
) -> Result<(), Fault> {
    let events = retry!(
        out,
        "inspect",
        records,
        inspect(alloc, plan, records),
        Mismatch::Memory(_)
    );
    tell(out, &events);
    Ok(())
}

// Has the records of such a run inspected.
fn inspected(
    alloc: Global,
    contents: &[Option<&[u8]>],
    changes: &[ServerLine],
    out: &mut Vec<u8>,
) -> Result<(), Fault>
    requires few { length contents.now < 17 }
    requires changes { All (IsChange (record { rows = 1; cols = 1 })) changes.now }
{
    let plan = plan(alloc, contents.len() as u32)?;
    let records = records::<Brand>(alloc, &plan, contents, changes, Blank::new(2))?;
    inspect_records(alloc, &plan, &records, out)
}

/// Has the records of the smallest run inspected, and of one in which the server stops and returns.
pub fn make(alloc: Global, out: &mut Vec<u8>) -> Result<(), Fault> {
    inspected(alloc, &[Some(b"hi")], &[], out)?;
    let down = ServerLine::Down { server: 0 };
    let up = ServerLine::Up { server: 0 };
    inspected(
        alloc,
        &[
            Some(b"content"),
            None,
            Some(b""),
            None,
            Some(&[7; 64]),
            None,
        ],
        &[up, down, up],
        out,
    )
}
