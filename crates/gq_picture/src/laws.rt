//! What holds of each drawing and of what it shows, as clauses of functions that do nothing.

ghost use Rattle.gq_picture.specs.Laws.{DrawingsAreTrue, AbsencesAreTrue};

/// A drawing of operations in a legal order tells no lie: the points rise in that order, each lies between its operation's
/// beginning and its end, bars stand apart exactly where one operation ended before the other began, and at a read's point
/// the register holds what the read gave.
pub fn drawings_are_true()
    ensures { DrawingsAreTrue }
{}

/// The absences that are read off the events of a run are the times in which the model of any of its tenants has a server down.
pub fn absences_are_true()
    ensures { AbsencesAreTrue }
{}
