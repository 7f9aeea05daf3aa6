//! The laws, as clauses of functions that do nothing.

ghost use Rattle.gq_history.specs.Laws.{AllOfPlan, ProcessesDiffer};

/// Each operation that is read off a run of a plan is of a session that a plan may have.
pub fn of_plan()
    ensures { AllOfPlan }
{}

/// Operations of sessions that a plan may have are of one process only where they are of one session, which gave up the same
/// operation last, or none.
pub fn processes_differ()
    ensures { ProcessesDiffer }
{}
