//! What a start reads after a crash.

ghost use Rattle.gq_keeper.specs.Durable.{SyncedIsRead};

/// Whatever a crash leaves behind what was synced, the batches that were synced are read.
pub fn synced_is_read()
    ensures { SyncedIsRead }
{}
