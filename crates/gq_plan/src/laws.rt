//! What the text of a plan tells.

ghost use Rattle.gq_plan.specs.Laws.{RunsTellVolumes};
ghost use Rattle.gq_plan.specs.Leaving.{LeaversAreTold};

/// A tenant's volumes are those of its lines `open`, each as often as it says.
pub fn runs_tell_volumes()
    ensures { RunsTellVolumes }
{}

/// Where a plan follows an older one, exactly those are told whom it has no longer, each with what it had.
pub fn leavers_are_told()
    ensures { LeaversAreTold }
{}
