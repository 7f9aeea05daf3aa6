//! The steps of the records, in order.

ghost use Rattle.std.specs.Prelude.{◌≡◌, ◌++◌, IfOk, OnOk, None};
ghost use Rattle.gq_inspect.specs.Steps.{board_steps, session_steps, served_steps, sessions_steps, cells_steps, steps, is_before, rise_after, IsOrderOf};

use crate::mismatch::Mismatch;
use gq_cell::{BoardEntry, CellEntry};
use gq_memory::{GrowVec, OutOfMemory, SortVec};
use gq_session::{Entries, Journal, Records, SessionEntry};
use std::alloc::Global;

/// The list that a step is of.
#[derive(Clone, Copy, PartialEq, Eq, PartialOrd, Ord)]
pub enum Origin {
    Board,
    Session(usize),
    Server(usize),
}

/// A step of the records: its stamp, where it was (0 is the board, `s + 1` is server `s`), and where its entry stands.
#[derive(Clone, Copy, PartialEq, Eq, PartialOrd, Ord)]
pub struct Step {
    pub stamp: u64,
    pub place: usize,
    pub origin: Origin,
    pub at: usize,
}

fn add_board(all: &mut Vec<Step>, entries: &[BoardEntry]) -> Result<(), OutOfMemory>
    ensures { OnOk result (all.new.items ≡ all.old.items ++ board_steps 0 entries.now) }
{
    for (at, entry) in entries.iter().enumerate() {
        all.grow(Step {
            stamp: entry.stamp,
            place: 0,
            origin: Origin::Board,
            at,
        })?;
    }
    Ok(())
}

fn add_session(
    all: &mut Vec<Step>,
    session: usize,
    entries: &[SessionEntry],
) -> Result<(), OutOfMemory>
    ensures { OnOk result (all.new.items ≡ all.old.items ++ session_steps session 0 entries.now) }
{
    for (at, entry) in entries.iter().enumerate() {
        all.grow(Step {
            stamp: entry.stamp,
            place: 0,
            origin: Origin::Session(session),
            at,
        })?;
    }
    Ok(())
}

fn add_cell(
    all: &mut Vec<Step>,
    place: usize,
    server: usize,
    entries: &[CellEntry],
) -> Result<(), OutOfMemory>
    ensures { OnOk result (all.new.items ≡ all.old.items ++ served_steps place server 0 entries.now) }
{
    for (at, entry) in entries.iter().enumerate() {
        if let CellEntry::Served { reply, .. } = entry {
            all.grow(Step {
                stamp: reply.stamp,
                place,
                origin: Origin::Server(server),
                at,
            })?;
        }
    }
    Ok(())
}

fn add_sessions(all: &mut Vec<Step>, sessions: &[Entries]) -> Result<(), OutOfMemory>
    ensures { OnOk result (all.new.items ≡ all.old.items ++ sessions_steps 0 sessions.now) }
{
    for (session, entries) in sessions.iter().enumerate() {
        add_session(all, session, entries.items.as_slice())?;
    }
    Ok(())
}

fn add_cells(all: &mut Vec<Step>, cells: &[Journal]) -> Result<(), OutOfMemory>
    ensures { OnOk result (all.new.items ≡ all.old.items ++ cells_steps 0 cells.now) }
{
    for (server, journal) in cells.iter().enumerate() {
        add_cell(all, server + 1, server, journal.items.as_slice())?;
    }
    Ok(())
}

// All steps, list by list.
fn steps_of(alloc: Global, records: &Records) -> Result<Vec<Step>, OutOfMemory>
    ensures { IfOk result (λ all. all.items ≡ steps records.now) }
{
    let mut all = Vec::new(alloc);
    add_board(&mut all, records.board.as_slice())?;
    add_sessions(&mut all, records.sessions.as_slice())?;
    add_cells(&mut all, records.cells.as_slice())?;
    Ok(all)
}

// Whether the first step is before the second, by stamp and then by place.
fn is_before(one: Step, two: Step) -> bool
    ensures { result ≡ is_before one two }
{
    one.stamp < two.stamp || one.stamp == two.stamp && one.place < two.place
}

// Whether each step is before the next.
fn rise(steps: &[Step]) -> bool
    ensures { result ≡ rise_after None steps.now }
{
    let mut last: Option<Step> = None;
    for step in steps.iter() {
        if let Some(before) = last
            && !is_before(before, *step)
        {
            return false;
        }
        last = Some(*step);
    }
    true
}

// All steps in order. `Stamp` where two have one stamp and one place.
pub(crate) fn in_order(alloc: Global, records: &Records) -> Result<Vec<Step>, Mismatch>
    ensures { IfOk result (λ order. IsOrderOf records.now order.items) }
{
    let mut order = steps_of(alloc, records)?;
    order.sort_items()?;
    if !rise(order.as_slice()) {
        return Err(Mismatch::Stamp);
    }
    Ok(order)
}
