//! Whom a session asks.

ghost use Rattle.std.specs.Prelude.{◌≡◌, ◌+◌, ◌*◌, ◌%◌, ◌<◌, ◌≤◌};
ghost use Rattle.gq_grid.specs.Grid.{row_servers, column_servers, either};
ghost use Rattle.gq_grid.specs.Sets.{servers};
ghost use Rattle.gq_grid.specs.declared.TheConstants.{MOST_SERVERS};
ghost use Rattle.gq_node.specs.Columns.{column_among, stands_in};
ghost use Rattle.gq_node.specs.Sites.{aim, next_of};

use gq_grid::{Grid, ServerSet};

// The servers of the row.
fn row_set(grid: &Grid, row: usize) -> ServerSet
    requires { row < grid.now.rows }
    ensures { servers result ≡ row_servers grid.now row }
{
    let cols = grid.cols();
    let rows = grid.rows();
    let mut set = ServerSet::empty();
    prove!(row < rows);
    for col in 0..cols {
        set.insert(row * cols + col);
    }
    set
}

// Adds the servers of the column.
fn add_column(grid: &Grid, set: &mut ServerSet, col: usize)
    requires { col < grid.now.cols }
    ensures { servers set.new ≡ either (servers set.old) (column_servers grid.now col) }
{
    let cols = grid.cols();
    for row in 0..grid.rows() {
        set.insert(row * cols + col);
    }
}

/// The servers that a session takes for those that are up: a row and a column.
pub(crate) fn aim(grid: &Grid, row: u32, column: u32) -> ServerSet
    ensures { servers result ≡ aim grid.now row column }
{
    let mut set = row_set(grid, row as usize % grid.rows());
    add_column(grid, &mut set, column as usize % grid.cols());
    set
}

// Whether one of the servers stands in the column.
fn stands_in(grid: &Grid, set: ServerSet, column: usize) -> bool
    requires { column < grid.now.cols }
    ensures { result ≡ stands_in grid.now (servers set) column }
{
    let cols = grid.cols();
    for row in 0..grid.rows() {
        if set.has(row * cols + column) {
            return true;
        }
    }
    false
}

/// The column that a session stores in, where these servers gave it its copy: its own if one of them stands there, else the first in
/// which one does.
pub(crate) fn column_among(grid: &Grid, set: ServerSet, column: u32) -> u32
    ensures { result ≡ column_among grid.now (servers set) column }
{
    if stands_in(grid, set, column as usize % grid.cols()) {
        return column;
    }
    for first in 0..grid.cols() {
        if stands_in(grid, set, first) {
            return first as u32;
        }
    }
    column
}

/// The row, or the column, after that one, of so many.
pub(crate) fn next_of(many: usize, n: u32) -> u32
    requires { many ≤ MOST_SERVERS }
    ensures { result ≡ next_of many n }
{
    if (n as usize) + 1 < many { n + 1 } else { 0 }
}
