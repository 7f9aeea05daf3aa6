//! A grid of servers, sets of its servers, and the choice of a quorum: a full row with a full column.
#![tactic(auto)]

ghost use Rattle.std.specs.Prelude.{◌≡◌, ◌↔◌, ℕ, true, false, ◌+◌, ◌*◌, ◌<◌, ◌≤◌, IfOk, IsErrOf, IfSome, IsNone, Some, None, MatchOption, option_map};
ghost use Rattle.gq_grid.specs.Grid.{Grid as Shape, Servers, no_servers, all_servers, with_server, without_server, server_at, is_full_row, is_full_column, row_servers, column_servers, either, is_side, least_row, least_column, has_row, has_column, covers, choose, choice_servers};
ghost use Rattle.gq_grid.specs.Sets.{no_set, servers, shown_choice};

pub mod laws;

use std::marker::Model;
use thiserror::Error;

/// The most rows that a grid can have, and the most columns.
pub const MOST_SIDE: usize = 8;

/// The most servers that a grid can have. Server numbers are from 0, and all that a set can hold are below it.
pub const MOST_SERVERS: usize = 64;

/// A set of server numbers below [`MOST_SERVERS`].
#[derive(Clone, Copy, Debug, PartialEq, Eq)]
pub struct ServerSet {
    bits: u64,
}

/// Servers in rows and columns, 1 to [`MOST_SIDE`] each, numbered from 0. The server of row `r` and column `c` has
/// number `r * cols + c`.
#[derive(Clone, Copy, Debug, PartialEq, Eq)]
pub struct Grid {
    rows: usize,
    cols: usize,
}

impl Model for Grid {
    ghost use Rattle.std.specs.Prelude.{◌≤◌};
    ghost use Rattle.gq_grid.specs.Grid.{Grid as Shape};
    ghost use Rattle.gq_grid.specs.declared.TheConstants.{MOST_SIDE};

    ghost Value = { Shape };

    ghost view = { λ g. record { rows = g.rows; cols = g.cols } };

    ghost inverse = { λ s. record { rows = s.rows; cols = s.cols } };

    ghost invariant = { λ g. (1 ≤ g.rows) × (g.rows ≤ MOST_SIDE) × (1 ≤ g.cols) × (g.cols ≤ MOST_SIDE) };
}

/// A quorum: a row and a column (numbered from 0), and all servers of either.
#[derive(Clone, Copy, Debug, PartialEq, Eq)]
pub struct Choice {
    pub row: usize,
    pub col: usize,
    pub servers: ServerSet,
}

/// A row (numbered from 0) and all its servers.
#[derive(Clone, Copy, PartialEq, Eq)]
pub struct RowChoice {
    pub row: usize,
    pub servers: ServerSet,
}

/// A column (numbered from 0) and all its servers.
#[derive(Clone, Copy, PartialEq, Eq)]
pub struct ColumnChoice {
    pub col: usize,
    pub servers: ServerSet,
}

impl ServerSet {
    /// The set of no server.
    pub fn empty() -> ServerSet
        ensures none { servers result ≡ no_servers }
        ensures value { result ≡ no_set }
    {
        ServerSet { bits: 0 }
    }

    /// Puts the server into the set. The other servers of the set stay.
    pub fn insert(&mut self, server: usize)
        requires { server < MOST_SERVERS }
        ensures { servers self.new ≡ with_server server (servers self.old) }
    {
        self.bits |= 1 << server;
    }

    /// Whether the server is in the set.
    #[tactic(auto, unfolding(crate::specs::Sets::servers))]
    pub fn has(&self, server: usize) -> bool
        requires { server < MOST_SERVERS }
        ensures { result ≡ servers self.now server }
    {
        (self.bits >> server) & 1 == 1
    }

    /// Takes the server out of the set. The others stay.
    pub fn remove(&mut self, server: usize)
        requires { server < MOST_SERVERS }
        ensures { servers self.new ≡ without_server server (servers self.old) }
    {
        let bits = self.bits;
        self.bits = bits & !(1 << server);
    }

    /// The set of all servers of the grid.
    pub fn all(grid: &Grid) -> ServerSet
        ensures { servers result ≡ all_servers grid.now }
    {
        let mut set = ServerSet::empty();
        for server in 0..grid.servers() {
            set.insert(server);
        }
        set
    }

    /// Whether the set holds all servers of some row. Any such set shares a server with any set that has a column
    /// ([`laws::quorums_meet`](crate::laws::quorums_meet)).
    pub fn has_row(&self, grid: &Grid) -> bool
        ensures { result ≡ has_row grid.now (servers self.now) }
    {
        grid.least_row(*self).is_some()
    }

    /// Whether the set holds all servers of some column.
    pub fn has_column(&self, grid: &Grid) -> bool
        ensures { result ≡ has_column grid.now (servers self.now) }
    {
        grid.least_column(*self).is_some()
    }

    /// Whether the set holds all servers of some row and all servers of some column. Any two sets that do share a
    /// server ([`laws::quorums_meet`](crate::laws::quorums_meet)).
    pub fn covers(&self, grid: &Grid) -> bool
        ensures { result ≡ covers grid.now (servers self.now) }
    {
        self.has_row(grid) && self.has_column(grid)
    }
}

/// Why a grid is refused. The rows are tested first.
#[derive(Clone, Copy, Debug, PartialEq, Eq, Error)]
pub enum GridFault {
    /// The number of rows is not 1 to [`MOST_SIDE`].
    #[error("rows")]
    Rows,
    /// The number of columns is not 1 to [`MOST_SIDE`].
    #[error("cols")]
    Cols,
}

impl Grid {
    /// A grid of so many rows and columns, 1 to [`MOST_SIDE`] each; a fault names the side that is out of range.
    pub fn new(rows: usize, cols: usize) -> Result<Grid, GridFault>
        ensures ok { IfOk result (λ g. (g.rows ≡ rows) × (g.cols ≡ cols)) }
        ensures rows { IsErrOf result GridFault.Rows ↔ (is_side rows ≡ false) }
        ensures cols { IsErrOf result GridFault.Cols ↔ ((is_side rows ≡ true) × (is_side cols ≡ false)) }
    {
        if rows == 0 || rows > MOST_SIDE {
            return Err(GridFault::Rows);
        }
        if cols == 0 || cols > MOST_SIDE {
            return Err(GridFault::Cols);
        }
        Ok(Grid { rows, cols })
    }

    /// The number of rows, 1 to [`MOST_SIDE`].
    pub fn rows(&self) -> usize
        ensures value { result ≡ self.now.rows }
        ensures side { is_side result ≡ true }
    {
        self.rows
    }

    /// The number of columns, 1 to [`MOST_SIDE`].
    pub fn cols(&self) -> usize
        ensures value { result ≡ self.now.cols }
        ensures side { is_side result ≡ true }
    {
        self.cols
    }

    /// The number of servers, 1 to [`MOST_SERVERS`].
    pub fn servers(&self) -> usize
        ensures value { result ≡ self.now.rows * self.now.cols }
        ensures positive { 1 ≤ result }
        ensures bound { result ≤ MOST_SERVERS }
    {
        self.rows * self.cols
    }

    // Whether the set has all servers of the row.
    fn has_full_row(&self, set: ServerSet, row: usize) -> bool
        requires { row < self.now.rows }
        ensures { result ≡ is_full_row self.now (servers set) row }
    {
        for col in 0..self.cols {
            if !set.has(row * self.cols + col) {
                return false;
            }
        }
        true
    }

    // Whether the set has all servers of the column.
    fn has_full_column(&self, set: ServerSet, col: usize) -> bool
        requires { col < self.now.cols }
        ensures { result ≡ is_full_column self.now (servers set) col }
    {
        for row in 0..self.rows {
            if !set.has(row * self.cols + col) {
                return false;
            }
        }
        true
    }

    // The least row that lies wholly in the set.
    fn least_row(&self, set: ServerSet) -> Option<usize>
        ensures least { result ≡ least_row self.now (servers set) }
        ensures within { IfSome result (λ row. row < self.now.rows) }
    {
        for row in 0..self.rows {
            if self.has_full_row(set, row) {
                return Some(row);
            }
        }
        None
    }

    // The least column that lies wholly in the set.
    fn least_column(&self, set: ServerSet) -> Option<usize>
        ensures least { result ≡ least_column self.now (servers set) }
        ensures within { IfSome result (λ col. col < self.now.cols) }
    {
        for col in 0..self.cols {
            if self.has_full_column(set, col) {
                return Some(col);
            }
        }
        None
    }

    // The servers of the row.
    fn row_set(&self, row: usize) -> ServerSet
        requires { row < self.now.rows }
        ensures { servers result ≡ row_servers self.now row }
    {
        let mut set = ServerSet::empty();
        for col in 0..self.cols {
            set.insert(row * self.cols + col);
        }
        set
    }

    // Adds the servers of the column.
    fn add_column(&self, set: &mut ServerSet, col: usize)
        requires { col < self.now.cols }
        ensures { servers set.new ≡ either (servers set.old) (column_servers self.now col) }
    {
        for row in 0..self.rows {
            set.insert(row * self.cols + col);
        }
    }

    // The servers of the column.
    fn column_set(&self, col: usize) -> ServerSet
        requires { col < self.now.cols }
        ensures { servers result ≡ column_servers self.now col }
    {
        let mut set = ServerSet::empty();
        self.add_column(&mut set, col);
        set
    }

    /// The least row that is wholly up where the servers of `up` are up, and its servers. None where no row is.
    pub fn row_up(&self, up: ServerSet) -> Option<RowChoice>
        ensures row { option_map (λ c. c.row) result ≡ least_row self.now (servers up) }
        ensures servers { IfSome result (λ c. servers c.servers ≡ row_servers self.now c.row) }
    {
        let least = self.least_row(up)?;
        Some(RowChoice {
            row: least,
            servers: self.row_set(least),
        })
    }

    /// The least column that is wholly up where the servers of `up` are up, and its servers. None where no column is.
    pub fn column_up(&self, up: ServerSet) -> Option<ColumnChoice>
        ensures col { option_map (λ c. c.col) result ≡ least_column self.now (servers up) }
        ensures servers { IfSome result (λ c. servers c.servers ≡ column_servers self.now c.col) }
    {
        let least = self.least_column(up)?;
        Some(ColumnChoice {
            col: least,
            servers: self.column_set(least),
        })
    }

    /// The quorum to ask where the servers of `up` are up: the least row and the least column that are wholly up, and
    /// their servers. None where no row, or no column, is wholly up.
    pub fn choose(&self, up: ServerSet) -> Option<Choice>
        ensures choice { option_map shown_choice result ≡ choose self.now (servers up) }
        ensures servers { IfSome result (λ c. servers c.servers ≡ choice_servers self.now (shown_choice c)) }
    {
        let row = self.least_row(up)?;
        let col = self.least_column(up)?;
        let mut servers = self.row_set(row);
        self.add_column(&mut servers, col);
        Some(Choice { row, col, servers })
    }
}
