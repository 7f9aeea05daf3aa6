//! The board, with the list of the servers' changes and the place reached.
ghost use Rattle.std.specs.Prelude.{◌≡◌, ◌≢◌, ◌↔◌, ◌<◌, ◌≤◌, ◌*◌, ◌^◌, [], All, IfOk, IfErr, IfSome, IfNone, OnOk, OnErr, OnSome, IsTrue, Some, length, slice_get};
ghost use Rattle.std.specs.Option.{ForSome, ForNone};
ghost use Rattle.gq_grid.specs.Grid.{all_servers};
ghost use Rattle.gq_grid.specs.Sets.{servers};
ghost use Rattle.gq_cell.specs.Stamps.{stamp_after};
ghost use Rattle.gq_session.specs.Changed.{change_line, picked, changes_of, IsSubsequence};
ghost use Rattle.gq_session.specs.Fitting.{IsChange};

use crate::records::LiveFault;
use gq_cell::{Board, BoardEntry, ChangeRefused};
use gq_grid::{Grid, ServerSet};
use gq_memory::{OutOfMemory, RoomInVec};
use gq_model::ServerLine;
use std::alloc::Global;

/// The board, the list of changes, and which of the first of them were done: the board's entries are these, in order.
#[derive(Drop)]
pub struct Schedule {
    board: Board,
    list: Vec<ServerLine>,
    done: Vec<bool>,
    ghost fits: { All (IsChange board.grid) list.items },
    ghost done_are: { changes_of board.entries ≡ picked done.items list.items },
}

/// A server, and whether it is to be up.
#[derive(Clone, Copy, PartialEq, Eq)]
pub struct Change {
    pub server: u32,
    pub up: bool,
}

// The change that the line tells, of a server of the grid.
fn change_in(grid: &Grid, line: ServerLine) -> Change
    requires { IsChange grid.now line }
    ensures line { line ≡ change_line result }
    ensures server { result.server < grid.now.rows * grid.now.cols }
{
    let _servers = grid.servers();
    match line {
        ServerLine::Bad | ServerLine::Lost { .. } | ServerLine::Repaired { .. } => unreachable!(),
        ServerLine::Down { server } => Change { server, up: false },
        ServerLine::Up { server } => Change { server, up: true },
    }
}

// Whether the lists have the same changes.
fn same_changes(one: &[ServerLine], two: &[ServerLine]) -> bool
    ensures { IsTrue result ↔ (one.now ≡ two.now) }
{
    if one.len() != two.len() {
        return false;
    }
    for place in 0..one.len() {
        if one[place] != two[place] {
            return false;
        }
    }
    true
}

impl Schedule {
    ghost use Rattle.gq_session.specs.Agendas.{servers_up, IsStamped, IsSameSchedule, PassesBy, Changes, IsStampFault};

    /// All servers of the grid are up, and no change of the list was done. Each is of a server of the grid.
    pub fn new(alloc: Global, grid: &Grid, list: Vec<ServerLine>) -> Schedule
        requires { All (IsChange grid.now) list.items }
        ensures board { result.board ≡ record { grid = grid.now; last = 0; entries = [] } }
        ensures list { result.list.items ≡ list.items }
        ensures done { result.done.items ≡ [] }
        ensures up { servers_up result ≡ all_servers grid.now }
    {
        Schedule {
            board: Board::new(alloc, grid),
            list,
            done: Vec::new(alloc),
        }
    }

    // The next stamp, above the last one and one that was seen.
    pub(crate) fn stamp(&mut self, seen: u64) -> Result<u64, LiveFault>
        ensures stamp { IfOk result (λ stamp. IsStamped self.old self.new seen stamp) }
        ensures fault { IfErr result (λ fault. fault ≡ LiveFault.Stamps) }
        ensures spent { OnErr result (2 ^ 64 ≤ stamp_after self.old.board.last seen) }
        ensures same { OnErr result (IsSameSchedule self.old self.new) }
    {
        match self.board.stamp(seen) {
            Some(stamp) => Ok(stamp),
            None => Err(LiveFault::Stamps),
        }
    }

    // The servers that are up.
    pub(crate) fn up(&self) -> ServerSet
        ensures { servers result ≡ servers_up self.now }
    {
        self.board.up()
    }

    /// The next change of the list, if one is left. It is of a server of the grid.
    pub fn next(&self) -> Option<Change>
        ensures line { IfSome result (λ change. slice_get self.now.list.items (length self.now.done.items) ≡ Some (change_line change)) }
        ensures server { IfSome result (λ change. change.server < self.now.board.grid.rows * self.now.board.grid.cols) }
        ensures none { IfNone result (length self.now.list.items ≤ length self.now.done.items) }
    {
        let line = self.list.get(self.done.len())?;
        Some(change_in(self.board.grid(), *line))
    }

    // The next change is passed by.
    pub(crate) fn pass_by(&mut self) -> Result<(), OutOfMemory>
        ensures ok { OnOk result (PassesBy self.old self.new) }
        ensures same { OnErr result (IsSameSchedule self.old self.new) }
    {
        let done = &mut self.done;
        done.make_room(1)?;
        done.push_reserved(false);
        Ok(())
    }

    // Does the change, which is the next, at the board, and gives its stamp. None where it is already so.
    pub(crate) fn change(&mut self, change: Change, seen: u64) -> Result<Option<u64>, LiveFault>
        requires next { slice_get self.old.list.items (length self.old.done.items) ≡ Some (change_line change) }
        requires server { change.server < self.old.board.grid.rows * self.old.board.grid.cols }
        ensures above { IfOk result (λ o. ForSome o (λ n. seen < n)) }
        ensures changed { IfOk result (λ o. ForSome o (λ stamp. Changes self.old self.new change seen stamp)) }
        ensures passed { IfOk result (λ o. ForNone o (PassesBy self.old self.new)) }
        ensures so { IfOk result (λ o. ForNone o (servers_up self.old change.server ≡ change.up)) }
        ensures fault { IfErr result (λ fault. IsStampFault self.old seen fault) }
        ensures same { OnErr result (IsSameSchedule self.old self.new) }
    {
        let Schedule { board, done, .. } = self;
        done.make_room(1)?;
        match board.change(change.server as usize, change.up, seen) {
            Ok(stamp) => {
                done.push_reserved(true);
                Ok(Some(stamp))
            }
            Err(ChangeRefused::Same) => {
                done.push_reserved(false);
                Ok(None)
            }
            Err(ChangeRefused::Stamps) => Err(LiveFault::Stamps),
            Err(ChangeRefused::Memory(refused)) => Err(LiveFault::Memory(refused)),
        }
    }

    /// The board's entries, whose changes are some of the list's, in order. None where that is another list.
    pub fn close(self, list: &[ServerLine]) -> Option<Vec<BoardEntry>>
        ensures changes { IfSome result (λ entries. IsSubsequence (changes_of entries.items) list.now) }
        ensures entries { IfSome result (λ entries. entries.items ≡ self.board.entries) }
        ensures list { OnSome result (self.list.items ≡ list.now) }
        ensures none { IfNone result (self.list.items ≢ list.now) }
    {
        let Schedule {
            board,
            list: own,
            ..
        } = self;
        if !same_changes(own.as_slice(), list) {
            return None;
        }
        Some(board.close())
    }
}
