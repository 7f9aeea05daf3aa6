//! What the lists of the records must be by themselves.

ghost use Rattle.std.specs.Prelude.{ℕ, ◌≡◌, ◌<◌, All, IfOk, length, true};
ghost use Rattle.gq_cell.specs.Journal.{stamp_of};
ghost use Rattle.gq_inspect.specs.Lists.{is_above, BoardClimbs, SessionClimbs, JournalClimbs, AllClimb, HasFlips, AllFlips, flips, board_flips};

use gq_cell::{BoardEntry, CellEntry};
use gq_memory::{GrowVec, OutOfMemory};
use gq_session::{Entries, Journal, Records, SessionEntry};
use std::alloc::Global;

/// A server's stop or return.
#[derive(Clone, Copy, PartialEq, Eq)]
pub struct Flip {
    pub stamp: u64,
    pub up: bool,
}

fn is_above(last: Option<u64>, stamp: u64) -> bool
    ensures { result ≡ is_above last stamp }
{
    match last {
        None => true,
        Some(before) => before < stamp,
    }
}

fn stamp_of(entry: &CellEntry) -> u64
    ensures { result ≡ stamp_of entry.now }
{
    match entry {
        CellEntry::Served { reply, .. } => reply.stamp,
        CellEntry::Stop { stamp } | CellEntry::Back { stamp } => *stamp,
    }
}

fn board_climbs(entries: &[BoardEntry]) -> bool
    ensures { result ≡ true → BoardClimbs entries.now }
{
    let mut last: Option<u64> = None;
    for entry in entries.iter() {
        if !is_above(last, entry.stamp) {
            return false;
        }
        last = Some(entry.stamp);
    }
    true
}

fn session_climbs(entries: &[SessionEntry]) -> bool
    ensures { result ≡ true → SessionClimbs entries.now }
{
    let mut last: Option<u64> = None;
    for entry in entries.iter() {
        if !is_above(last, entry.stamp) {
            return false;
        }
        last = Some(entry.stamp);
    }
    true
}

fn journal_climbs(entries: &[CellEntry]) -> bool
    ensures { result ≡ true → JournalClimbs entries.now }
{
    let mut last: Option<u64> = None;
    for entry in entries.iter() {
        let stamp = stamp_of(entry);
        if !is_above(last, stamp) {
            return false;
        }
        last = Some(stamp);
    }
    true
}

fn sessions_climb(sessions: &[Entries]) -> bool
    ensures { result ≡ true → All SessionClimbs sessions.now }
{
    for place in 0..sessions.len() {
        let entries = &sessions[place];
        if !session_climbs(entries.items.as_slice()) {
            return false;
        }
    }
    true
}

fn cells_climb(cells: &[Journal]) -> bool
    ensures { result ≡ true → All JournalClimbs cells.now }
{
    for place in 0..cells.len() {
        let journal = &cells[place];
        if !journal_climbs(journal.items.as_slice()) {
            return false;
        }
    }
    true
}

// Whether the stamps of each list rise.
pub(crate) fn all_climb(records: &Records) -> bool
    ensures { result ≡ true → AllClimb records.now }
{
    board_climbs(records.board.as_slice())
        && sessions_climb(records.sessions.as_slice())
        && cells_climb(records.cells.as_slice())
}

// The stops and returns of a journal.
fn flips(alloc: Global, entries: &[CellEntry]) -> Result<Vec<Flip>, OutOfMemory>
    ensures { IfOk result (λ all. all.items ≡ flips entries.now) }
{
    let mut all = Vec::new(alloc);
    for entry in entries.iter() {
        match entry {
            CellEntry::Served { .. } => {}
            CellEntry::Stop { stamp } => all.grow(Flip {
                stamp: *stamp,
                up: false,
            })?,
            CellEntry::Back { stamp } => all.grow(Flip {
                stamp: *stamp,
                up: true,
            })?,
        }
    }
    Ok(all)
}

// The server's stops and returns on the board.
fn board_flips(
    alloc: Global,
    server: usize,
    entries: &[BoardEntry],
) -> Result<Vec<Flip>, OutOfMemory>
    ensures { IfOk result (λ all. all.items ≡ board_flips server entries.now) }
{
    let mut all = Vec::new(alloc);
    for entry in entries.iter() {
        if entry.server as usize == server {
            all.grow(Flip {
                stamp: entry.stamp,
                up: entry.up,
            })?;
        }
    }
    Ok(all)
}

// Whether these are the same stops and returns.
fn are_flips(one: &[Flip], two: &[Flip]) -> bool
    ensures { result ≡ true → one.now ≡ two.now }
{
    if one.len() != two.len() {
        return false;
    }
    for place in 0..one.len() {
        if one[place] != two[place] {
            return false;
        }
    }
    true
}

// Whether the journal's stops and returns are those that the board has for the server.
fn has_flips(
    alloc: Global,
    board: &[BoardEntry],
    journal: &[CellEntry],
    server: usize,
) -> Result<bool, OutOfMemory>
    ensures { IfOk result (λ is. is ≡ true → flips journal.now ≡ board_flips server board.now) }
{
    let mine = flips(alloc, journal)?;
    let told = board_flips(alloc, server, board)?;
    Ok(are_flips(mine.as_slice(), told.as_slice()))
}

// Whether each server's stops and returns are the board's.
pub(crate) fn all_flips(alloc: Global, records: &Records) -> Result<bool, OutOfMemory>
    ensures { IfOk result (λ is. is ≡ true → AllFlips records.now) }
{
    let cells = records.cells.as_slice();
    for server in 0..cells.len() {
        let journal = &cells[server];
        if !has_flips(
            alloc,
            records.board.as_slice(),
            journal.items.as_slice(),
            server,
        )? {
            return Ok(false);
        }
    }
    Ok(true)
}
