//! The other nodes of a column.

ghost use Rattle.std.specs.Prelude.{◌≡◌, true, false, MatchOption, IfSome};
ghost use Rattle.gq_chunks.specs.Peers.{is_peer};

use gq_desk::Plan;
use gq_grid::MOST_SERVERS;
use gq_node::Lost;

/// The number, if it is that of another node of the column, by the plan and the nodes that were lost.
pub(crate) fn peer_of(plan: &Plan, node: u16, lost: &Lost, other: u32) -> Option<u16>
    ensures peer { IfSome result (λ peer. is_peer plan.now node lost.now peer ≡ true) }
    ensures is { MatchOption result (is_peer plan.now node lost.now other ≡ false) (λ peer. (peer ≡ other) × (is_peer plan.now node lost.now other ≡ true)) }
{
    let place = other as usize % MOST_SERVERS;
    let own = node as usize % MOST_SERVERS;
    let cols = plan.grid().cols();
    if place >= plan.grid().servers() || place == own || place % cols != own % cols {
        return None;
    }
    let stands = lost.node_at(place);
    if u32::from(stands) == other {
        Some(stands)
    } else {
        None
    }
}

// The number of the node of that row in the column of this one.
fn node_in_row(plan: &Plan, node: u16, lost: &Lost, row: usize) -> u16 {
    let own = node as usize % MOST_SERVERS;
    let cols = plan.grid().cols();
    let place = row % MOST_SERVERS * cols + own % cols;
    lost.node_at(place % MOST_SERVERS)
}

/// The node of that row, if it is another one of the column.
pub(crate) fn peer_in_row(plan: &Plan, node: u16, lost: &Lost, row: usize) -> Option<u16>
    ensures { IfSome result (λ peer. is_peer plan.now node lost.now peer ≡ true) }
{
    peer_of(
        plan,
        node,
        lost,
        u32::from(node_in_row(plan, node, lost, row)),
    )
}
