//! The law of a column, as the clause of a function that does nothing.

ghost use Rattle.gq_column.specs.Laws.{Acknowledged};
ghost use Rattle.gq_column.specs.Ledgers.{AllActAlike};
ghost use Rattle.gq_column.specs.Worked.{IsWorked};

/// Take any steps of the nodes of a column, of which some are lost and replaced by new ones that are filled by their peers: lines come in any order, late,
/// again or never, other contents are asked to be kept under the same number, and nodes start again with later plans. Nobody asks to forget the number. If all
/// nodes that stand in some plan told of a content that they keep it, each while it had that plan, then each of these nodes, and each that takes the place of one
/// later, has this content once it lacks nothing, and what it is given before. So whoever asks it is told this content, or that it lacks it.
pub fn acknowledged()
    ensures { Acknowledged }
{}

/// A run in which a node is lost, and another content comes under the number to the one in its place: all that `acknowledged` asks is so of it. And
/// one in which nodes of a column told of a content with different plans, and a node has it not.
pub fn worked()
    ensures { IsWorked }
{}

/// A step of `gq_ledger` is to one number what an act of these laws is: what it leaves there is what `kept`, `raised` and `taken` say.
pub fn acts_of_ledgers()
    ensures { AllActAlike }
{}
