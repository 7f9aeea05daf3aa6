//! What holds of any deeds with a session's chunks, as clauses of functions that do nothing. A deed is what `keep`, `find`, `forget`, `give` and `shelve` ensure
//! where no read is wrong; all of them may come in any order, late, or again.

ghost use Rattle.gq_stock.specs.Laws.{ToldIsKept, KeptUntilForgotten, Once, BelowTheFloor, RoomIsExact};
ghost use Rattle.gq_stock.specs.Acts.{DeedsAreActs};
ghost use Rattle.gq_stock.specs.Facts.{StartsAgain};

/// Bytes that are found under a number are those of the last content that was kept under it as a new one, or was given, and it was not forgotten since.
pub fn told_is_kept()
    ensures { ToldIsKept }
{}

/// Once a content was told to be kept, each look at the number finds these bytes, or that they can't be read, until it is forgotten, or a peer gives something.
pub fn kept_until_forgotten()
    ensures { KeptUntilForgotten }
{}

/// Until then no other content is told to be kept under the number.
pub fn once()
    ensures { Once }
{}

/// A number that is absent and not above the floor never takes a content again, whatever comes late, but for what a peer gives.
pub fn below_the_floor()
    ensures { BelowTheFloor }
{}

/// A content is refused for want of room exactly where it is charged more bytes than are free: its own, and those that each chunk is charged.
pub fn room_is_exact()
    ensures { RoomIsExact }
{}

/// To one number a deed is what an act of `gq_column` is: what it leaves there, and whether it tells that the content is kept, are what `kept` says there. A content that
/// is refused for want of room, or told as damaged, is no act.
pub fn deeds_are_acts()
    ensures { DeedsAreActs }
{}

/// Each deed has at most one fact, and a start that reads those of all deeds, by `put` and `forget`, ends with what the deeds left.
pub fn starts_again()
    ensures { StartsAgain }
{}
