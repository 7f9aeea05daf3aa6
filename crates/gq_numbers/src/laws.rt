//! The law, and a case of which it speaks, as clauses of functions that do nothing.

ghost use Rattle.gq_numbers.specs.Numbers.{AllAbove};
ghost use Rattle.gq_numbers.specs.Worked.{IsWorked};

/// Take any steps of nodes, of which some are lost and replaced by new ones. Asked is more than the law of such nodes asks: that fewer than
/// `gq_replace::NUMBERS_OF_A_LOSS` numbers of tags are used from one loss to the next, and that a node does nothing once some node was
/// started with a plan which says that it is replaced. Then all numbers of a lost node, in its letters, its copies and what is reserved for its
/// sessions, are below that of which the sessions of a new node begin whose first plan says that it is replaced. The last numbers of these sessions
/// are not below that, and each write of theirs has a tag of a greater number. So nothing that a lost node wrote comes back over what was
/// written at a new one.
pub fn above()
    ensures { AllAbove }
{}

/// A run in which a node is lost, and then the node in its place, and sessions of both new nodes write: all that `above` asks is so of it.
pub fn worked()
    ensures { IsWorked }
{}
