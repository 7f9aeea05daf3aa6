//! Who can give a server its copies back.

ghost use Rattle.std.specs.Prelude.{◌≡◌, ◌≢◌, ◌*◌, ◌<◌, ◌≤◌, ◌&&◌, ◌==◌, not, length, slice_set, IfSome};
ghost use Rattle.gq_grid.specs.Sets.{servers};
ghost use Rattle.gq_grid.specs.declared.TheConstants.{MOST_SERVERS};
ghost use Rattle.gq_phase.specs.Quorums.{are_peers};
ghost use Rattle.gq_model.specs.Lone.{peer_among};
ghost use Rattle.gq_store.specs.Copies.{store_accounts};
ghost use Rattle.gq_world.specs.Tables.{store_at};

use gq_grid::{Grid, ServerSet};
use gq_phase::are_peers;
use gq_store::ServerStore;

// Whether the other server is in the set and can give this one its copies back.
fn gives(grid: &Grid, set: ServerSet, server: usize, peer: usize) -> bool
    requires server { server < grid.now.rows * grid.now.cols }
    requires peer { peer < grid.now.rows * grid.now.cols }
    requires few { grid.now.rows * grid.now.cols ≤ MOST_SERVERS }
    ensures { result ≡ (servers set peer && (not (peer == server) && are_peers grid.now server peer)) }
{
    set.has(peer) && peer != server && are_peers(grid, server, peer)
}

/// The least server of the set that can give this one its copies back, itself left out.
pub(crate) fn peer_among(grid: &Grid, set: ServerSet, server: usize) -> Option<usize>
    requires { server < grid.now.rows * grid.now.cols }
    ensures peer { result ≡ peer_among grid.now (servers set) server }
    ensures within { IfSome result (λ peer. peer < grid.now.rows * grid.now.cols) }
{
    for peer in 0..grid.servers() {
        if gives(grid, set, server, peer) {
            return Some(peer);
        }
    }
    None
}

// The server takes the copies of its peer.
fn take_from(stores: &mut [ServerStore], server: usize, peer: usize)
    requires server { server < length stores.old }
    requires peer { peer < length stores.old }
    requires apart { peer ≢ server }
    requires accounts { store_accounts (store_at stores.old server) ≡ store_accounts (store_at stores.old peer) }
    requires blocks { (store_at stores.old server).blocks ≡ (store_at stores.old peer).blocks }
    ensures { stores.new ≡ slice_set stores.old server (store_at stores.old peer) }
{
    if server < peer {
        let (low, high) = stores.split_at_mut(peer);
        low[server].take_from(&high[0]);
    } else {
        let (low, high) = stores.split_at_mut(server);
        high[0].take_from(&low[peer]);
    }
}

/// The server takes the copies of its peer, another server.
pub(crate) fn take_copies(stores: &mut Vec<ServerStore>, server: usize, peer: usize)
    requires server { server < length stores.old.items }
    requires peer { peer < length stores.old.items }
    requires apart { peer ≢ server }
    requires accounts { store_accounts (store_at stores.old.items server) ≡ store_accounts (store_at stores.old.items peer) }
    requires blocks { (store_at stores.old.items server).blocks ≡ (store_at stores.old.items peer).blocks }
    ensures { stores.new.items ≡ slice_set stores.old.items server (store_at stores.old.items peer) }
{
    take_from(stores.as_mut_slice(), server, peer);
}
