//! A batch is appended and synced.

ghost use Rattle.std.specs.Prelude.{◌≡◌, ◌++◌, [], IsErrOf, OnOk};
ghost use Rattle.gq_keeper.specs.Crashes.{LeavesSyncing, Elapses};
ghost use Rattle.gq_keeper.specs.Durable.{kept_text, number_after};

use crate::{Fault, Log};
use gq_journal::seal_batch;

// Appends the lines as a batch and syncs it; where there are none, the log is left alone.
pub(crate) fn keep<L: Log>(log: &mut L, number: &mut u64, lines: &mut Vec<u8>) -> Result<(), Fault>
    requires { L.seen log.old ≡ L.synced log.old }
    ensures synced { OnOk result (L.synced log.new ≡ L.synced log.old ++ kept_text number.old lines.old.items) }
    ensures all { OnOk result (L.seen log.new ≡ L.synced log.new) }
    ensures number { OnOk result (number.new ≡ number_after number.old lines.old.items) }
    ensures full { IsErrOf result Fault.Full → number.old ≡ u64.MAX }
    ensures idle { lines.old.items ≡ [] → log.new ≡ log.old }
    ensures crash { Elapses (L.instant log.old) (L.instant log.new) (L.left_since log.old) (L.left_since log.new)
        (LeavesSyncing (L.synced log.old) (L.synced log.old ++ kept_text number.old lines.old.items)) }
{
    if lines.is_empty() {
        return Ok(());
    }
    if *number == u64::MAX {
        return Err(Fault::Full);
    }
    seal_batch(lines, *number)?;
    log.append(lines.as_slice())?;
    log.sync()?;
    *number += 1;
    Ok(())
}
