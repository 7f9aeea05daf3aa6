//! What is read of a journal that was written, and of what a kill leaves of it.

ghost use Rattle.gq_journal.specs.Laws.{BatchesReadBack, CutsHaveNone, CutsKeepBatches, NoneIsRead, RightIsFound, TornEndIsPassedOver, TornHasNone, TornIsNone};

/// Batches that were written are read, and then whatever batches are behind them.
pub fn batches_read_back()
    ensures { BatchesReadBack }
{}

/// No batch is read of one that isn't whole.
pub fn torn_is_none()
    ensures { TornIsNone }
{}

/// Where a kill left a beginning of the last batch, all batches before it are read, and nothing of it.
pub fn torn_end_is_passed_over()
    ensures { TornEndIsPassedOver }
{}

/// Of a text that is cut anywhere, a beginning of its batches is read.
pub fn cuts_keep_batches()
    ensures { CutsKeepBatches }
{}

/// A right batch is found behind whatever lines, so damage before it is not taken for a torn end.
pub fn right_is_found()
    ensures { RightIsFound }
{}

/// Where no right batch is found, none is read.
pub fn none_is_read()
    ensures { NoneIsRead }
{}

/// In a batch that isn't whole no right one is found, so a torn end is not taken for damage.
pub fn torn_has_none()
    ensures { TornHasNone }
{}

/// In a beginning of a text without a right batch none is found.
pub fn cuts_have_none()
    ensures { CutsHaveNone }
{}
