//! Whom a round asks, and when the servers heard end it: a collect round a full row, a store round a full column. And who can
//! give a server back what it lost: another of its column. Nothing else in this crate knows of rows and columns.

ghost use Rattle.std.specs.Prelude.{◌≡◌, ◌<◌, ◌*◌, option_map};
ghost use Rattle.gq_grid.specs.Sets.{servers};
ghost use Rattle.gq_phase.specs.Quorums.{collect_quorum, store_quorum, ends_collect, ends_store, are_peers};

use gq_grid::{Grid, ServerSet};

/// The servers that a collect round asks, where the servers of `up` are up: the least full row; none where no row is up.
#[tactic(auto, unfolding(crate::specs::Quorums::collect_quorum))]
pub fn collect_quorum(grid: &Grid, up: ServerSet) -> Option<ServerSet>
    ensures { option_map servers result ≡ collect_quorum grid.now (servers up) }
{
    Some(grid.row_up(up)?.servers)
}

/// The servers that a store round sends to, where the servers of `up` are up: the least full column; none where no column
/// is up.
#[tactic(auto, unfolding(crate::specs::Quorums::store_quorum))]
pub fn store_quorum(grid: &Grid, up: ServerSet) -> Option<ServerSet>
    ensures { option_map servers result ≡ store_quorum grid.now (servers up) }
{
    Some(grid.column_up(up)?.servers)
}

/// Whether a collect round ends where these servers were heard.
#[tactic(auto, unfolding(crate::specs::Quorums::ends_collect))]
pub fn ends_collect(grid: &Grid, heard: ServerSet) -> bool
    ensures { result ≡ ends_collect grid.now (servers heard) }
{
    heard.has_row(grid)
}

/// Whether a store round ends where these servers were heard.
#[tactic(auto, unfolding(crate::specs::Quorums::ends_store))]
pub fn ends_store(grid: &Grid, heard: ServerSet) -> bool
    ensures { result ≡ ends_store grid.now (servers heard) }
{
    heard.has_column(grid)
}

/// Whether a server that has lost its copies can be given them by the other.
#[tactic(auto, using(crate::proofs::Columns::peers_by_place))]
pub fn are_peers(grid: &Grid, server: usize, peer: usize) -> bool
    requires server { server < grid.now.rows * grid.now.cols }
    requires peer { peer < grid.now.rows * grid.now.cols }
    ensures { result ≡ are_peers grid.now server peer }
{
    server % grid.cols() == peer % grid.cols()
}
