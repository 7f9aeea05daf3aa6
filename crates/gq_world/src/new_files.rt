//! The files of a new volume, at every server.

ghost use Rattle.std.specs.Prelude.{◌≡◌, ℕ, ◌<◌, All, length, OnOk};
ghost use Rattle.gq_world.specs.Adding.{HasRoomForFiles, IsAdded, IsKept};
ghost use Rattle.gq_world.specs.Tables.{store_at};

use gq_memory::OutOfMemory;
use gq_store::ServerStore;

/// Adds the files of the tenant's next volume at every server. Where memory is wanting only some of the servers have them.
pub(crate) fn add_everywhere(
    stores: &mut Vec<ServerStore>,
    tenant: u8,
    files: u32,
    blocks: u32,
) -> Result<(), OutOfMemory>
    requires { All (HasRoomForFiles tenant files blocks) stores.old.items }
    ensures added { OnOk result ((s : ℕ) → s < length stores.old.items → IsAdded tenant files blocks (store_at stores.old.items s) (store_at stores.new.items s)) }
    ensures count { length stores.new.items ≡ length stores.old.items }
    ensures kept { (s : ℕ) → IsKept (store_at stores.old.items s) (store_at stores.new.items s) }
{
    for server in 0..stores.len() {
        stores[server].add_files(tenant, files, blocks)?;
    }
    Ok(())
}
