//! The laws, as clauses of functions that do nothing.

ghost use Rattle.gq_replace.specs.Keeping.{AllFleetFactsSuffice};
ghost use Rattle.gq_replace.specs.Laws.{AllFollow, AllRight};

/// Take any steps of nodes, of which some are lost and replaced by new ones, as a chain of plans says. Several may be replaced at once, and a new
/// node may be replaced again; each may be started with a later plan whenever it likes. What has to hold is that once a new node has heard all
/// others of its plan, those that this plan says are replaced do nothing any more, that each node begins once, and that none goes back to an
/// earlier plan. Then there are steps of a cluster in which the same comes to sessions and servers, and the same is told and sent. A place of the
/// cluster has the copies of the old node until the new one has heard all others, and those of the new one from then on.
pub fn follows()
    ensures { AllFollow }
{}

/// So these steps are a run of the service, and the operations on each file, read off what is told in them, have an order in which a single
/// register gives the same answers, and in which none that ended before another began stands after it (Herlihy and Wing, Linearizability,
/// ACM TOPLAS 12(3), 1990).
pub fn registers()
    ensures { AllRight }
{}

/// A node must not forget a copy that it was given; what it must not forget of an act is as in a cluster. So from the plan that it was begun with
/// and its facts alone, in order, a node knows again its copies, the numbers that are reserved for its sessions, and which files it lacks. (Which
/// plan it had last is no fact: it has to be kept beside.)
pub fn facts()
    ensures { AllFleetFactsSuffice }
{}
