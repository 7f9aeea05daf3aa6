//! What a node has of chunks that was never started.

ghost use Rattle.std.specs.Prelude.{◌≡◌, ◌<◌, ◌≤◌, length, IfOk};
ghost use Rattle.gq_chunks.specs.Machines.{in_column, column_losses, room_before, lacks_at_first, AreBare};

use gq_depot::Depot;
use gq_grid::MOST_SERVERS;
use gq_memory::{GrowVec, OutOfMemory};
use gq_setup::Setup;
use std::alloc::Global;

// 1 for a place of the same column.
fn in_column(cols: usize, place: usize, other: u8) -> u64
    requires { 0 < cols }
    ensures one { result ≡ in_column cols place other }
    ensures few { result ≤ 1 }
{
    if other as usize % cols == place % cols {
        1
    } else {
        0
    }
}

// How many nodes of the column of that place were lost.
pub(crate) fn column_losses(cols: usize, place: usize, lost: &[u8]) -> u64
    requires { 0 < cols }
    ensures { result ≡ column_losses cols place lost.now }
{
    let mut losses: u64 = 0;
    for other in lost {
        losses += in_column(cols, place, *other);
    }
    losses
}

// How many bytes of chunks the tenant might have at each server by the setup that was read, if one was.
fn room_before(first: &Option<Setup>, tenant: u8) -> u64
    ensures { result ≡ room_before first.now tenant }
{
    match first {
        Some(setup) => setup.chunk_bytes(tenant),
        None => 0,
    }
}

// Whether a node of that number lacks chunks at first.
pub(crate) fn lacks_at_first(node: u16, first: u64, allowed: u64) -> bool
    ensures { result ≡ lacks_at_first node first allowed }
{
    node as usize >= MOST_SERVERS && first > 0 && allowed > 0
}

// The chunks of each tenant, of which none were ever there.
pub(crate) fn new_depots(
    alloc: Global,
    setup: &Setup,
    first: &Option<Setup>,
    node: u16,
) -> Result<Vec<Depot>, OutOfMemory>
    ensures depots { IfOk result (λ depots. AreBare setup.now first.now node depots.items) }
    ensures tenants { IfOk result (λ depots. length depots.items ≡ length setup.now.plan.rows) }
{
    let mut depots = Vec::new(alloc);
    for place in 0..setup.plan().tenants() {
        let tenant = place as u8;
        let sessions = setup.plan().row(tenant).sessions;
        let allowed = setup.chunk_bytes(tenant);
        let lacks = lacks_at_first(node, room_before(first, tenant), allowed);
        depots.grow(Depot::new(alloc, sessions, allowed, lacks)?)?;
    }
    Ok(depots)
}
