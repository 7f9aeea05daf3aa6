//! What holds of any steps of a ledger, as clauses of functions that do nothing.

ghost use Rattle.gq_ledger.specs.Laws.{KeptUntilForgotten, GoneForGood, FloorsRise};

/// What is there is there, the same, after any steps that do not forget it and do not give another in its place.
pub fn kept_until_forgotten<T: Drop>()
    ensures { KeptUntilForgotten T }
{}

/// What is absent and not above the floor is absent after any steps that give none under this number: whatever comes late.
pub fn gone_for_good<T: Drop>()
    ensures { GoneForGood T }
{}

/// A floor never falls.
pub fn floors_rise<T: Drop>()
    ensures { FloorsRise T }
{}
