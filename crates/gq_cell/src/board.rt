//! The board: which servers are up, and the changes so far.

ghost use Rattle.std.specs.Prelude.{◌≡◌, ◌≢◌, [], ◌*◌, ◌<◌, ◌^◌, ◌≤◌, None, Some, IfOk, IfErr, OnOk, OnErr, IfSome, IfNone, IsErrOf, if◌then◌else◌};
ghost use Rattle.gq_grid.specs.declared.TheConstants.{MOST_SERVERS};
ghost use Rattle.gq_grid.specs.Grid.{with_server, without_server};
ghost use Rattle.gq_grid.specs.Sets.{servers};
ghost use Rattle.gq_cell.specs.Stamps.{stamp_after};
ghost use Rattle.gq_cell.specs.Boards.{up_of, change_fault, board_with};

use gq_grid::{Grid, ServerSet};
use gq_memory::{OutOfMemory, RoomInVec};
use std::alloc::Global;
use std::marker::Model;
use thiserror::Error;

/// A server's stop or return, with its stamp.
#[derive(Clone, Copy, Debug, PartialEq, Eq)]
pub struct BoardEntry {
    pub stamp: u64,
    pub server: u32,
    pub up: bool,
}

/// Why a server isn't changed. The causes are tested in this order.
#[derive(Debug, Drop, Error)]
pub enum ChangeRefused {
    /// The server is so already.
    #[error("same")]
    Same,
    /// No greater stamp is left.
    #[error("stamps")]
    Stamps,
    /// Memory is wanting.
    #[error("out of memory")]
    Memory(OutOfMemory),
}

/// Which servers are up: those that the changes so far leave, at first all. It gives out the stamps of the sessions' steps
/// and of the changes, each above the last and above what was seen, as Lamport's clocks do (Time, clocks, and the ordering
/// of events in a distributed system, CACM 21(7), 1978). Contracts see the grid, the last stamp and the changes (`Posted`).
#[derive(Drop)]
pub struct Board {
    grid: Grid,
    up: ServerSet,
    last: u64,
    entries: Vec<BoardEntry>,
}

impl Model for Board {
    ghost use Rattle.std.specs.Prelude.{◌≡◌};
    ghost use Rattle.gq_grid.specs.Sets.{servers};
    ghost use Rattle.gq_cell.specs.Boards.{Posted, up_of, RisesTo};

    ghost Value = { Posted };

    ghost view = { λ b. record { grid = b.grid; last = b.last; entries = b.entries.items } };

    ghost invariant = { λ b. (servers b.up ≡ up_of b.grid b.entries.items) × RisesTo 0 b.entries.items b.last };
}

// The set with the server, or without it.
fn with_flag(set: ServerSet, server: usize, up: bool) -> ServerSet
    requires { server < MOST_SERVERS }
    ensures { servers result ≡ (if up then with_server server (servers set) else without_server server (servers set)) }
{
    let mut next = set;
    if up {
        next.insert(server);
    } else {
        next.remove(server);
    }
    next
}

impl Board {
    /// The board of the servers of the grid, which are all up. The last stamp is 0.
    pub fn new(alloc: Global, grid: &Grid) -> Board
        ensures { result ≡ record { grid = grid.now; last = 0; entries = [] } }
    {
        Board {
            grid: *grid,
            up: ServerSet::all(grid),
            last: 0,
            entries: Vec::new(alloc),
        }
    }

    /// The servers.
    pub fn grid(&self) -> &Grid
        ensures { result.now ≡ self.now.grid }
    {
        &self.grid
    }

    /// The servers that are up.
    pub fn up(&self) -> ServerSet
        ensures { servers result ≡ up_of self.now.grid self.now.entries }
    {
        self.up
    }

    /// The changes in order.
    pub fn entries(&self) -> &[BoardEntry]
        ensures { result.now ≡ self.now.entries }
    {
        self.entries.as_slice()
    }

    /// The next stamp, above the last one and one that was seen. None where no greater one is left.
    pub fn stamp(&mut self, seen: u64) -> Option<u64>
        ensures some { IfSome result (λ stamp. stamp ≡ stamp_after self.old.last seen) }
        ensures last { IfSome result (λ stamp. self.new ≡ record self.old { last = stamp }) }
        ensures none { IfNone result (2 ^ 64 ≤ stamp_after self.old.last seen) }
        ensures same { IfNone result (self.new ≡ self.old) }
    {
        let above = self.last.max(seen);
        if above == u64::MAX {
            return None;
        }
        self.last = above + 1;
        Some(above + 1)
    }

    /// Stops a server of the grid, or brings it back, at the next stamp, above the last one and one that was seen: one
    /// change more. It gives the stamp. The causes of a refusal are tested in the order of [`ChangeRefused`], and a refusal
    /// changes nothing.
    pub fn change(&mut self, server: usize, up: bool, seen: u64) -> Result<u64, ChangeRefused>
        requires { server < self.old.grid.rows * self.old.grid.cols }
        ensures stamp { IfOk result (λ stamp. stamp ≡ stamp_after self.old.last seen) }
        ensures changed { IfOk result (λ stamp. self.new ≡ board_with stamp server up self.old) }
        ensures allowed { OnOk result (change_fault self.old server up seen ≡ None) }
        ensures refused { IfErr result (λ fault. fault ≢ ChangeRefused.Memory tt
            → change_fault self.old server up seen ≡ Some fault) }
        ensures memory { IsErrOf result (ChangeRefused.Memory tt) → change_fault self.old server up seen ≡ None }
        ensures same { OnErr result (self.new ≡ self.old) }
    {
        let _servers = self.grid.servers();
        if self.up.has(server) == up {
            return Err(ChangeRefused::Same);
        }
        let above = self.last.max(seen);
        if above == u64::MAX {
            return Err(ChangeRefused::Stamps);
        }
        if let Err(refused) = self.entries.make_room(1) {
            return Err(ChangeRefused::Memory(refused));
        }
        let stamp = above + 1;
        self.up = with_flag(self.up, server, up);
        self.last = stamp;
        self.entries.push_reserved(BoardEntry {
            stamp,
            server: server as u32,
            up,
        });
        Ok(stamp)
    }

    /// Gives the changes, in order, and ends the board.
    pub fn close(self) -> Vec<BoardEntry>
        ensures { result.items ≡ self.entries }
    {
        let Board { entries, .. } = self;
        entries
    }
}
