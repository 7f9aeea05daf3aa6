//! The laws, as clauses of functions that do nothing.

ghost use Rattle.gq_cluster.specs.Keeping.{AllActsKeep, AllFactsSuffice, AllUsedReserved};
ghost use Rattle.gq_cluster.specs.Laws.{AllClustersServe};
ghost use Rattle.gq_cluster.specs.Operations.{AllClustersLegal};
ghost use Rattle.gq_cluster.specs.OwnWrites.{AllClustersOwnWritesRise, AllOwnWritesRise};
ghost use Rattle.gq_cluster.specs.Restarts.{AllRestartsGiveUp};

/// Take any steps of nodes, in which each letter that comes was written before. Letters may be lost, repeated, late and out of
/// order, each act may take anybody to be up, and any node may start again at any time. A server may lose its disk, while no
/// operation counts on a reply of it, and be given its files by others of its column. Then there is a run of the service, in the
/// model, in which the same comes to the tenant's sessions and servers, in the same order, and the same is told and sent, numbers of
/// messages apart. At its end each server has the copies of its node, and each session is as its home has it.
pub fn clusters()
    ensures { AllClustersServe }
{}

/// So the operations on each file, read off what was done at the nodes alone, have an order in which a single register gives
/// the same answers, and in which none that ended before another began stands after it (Herlihy and Wing, Linearizability,
/// ACM TOPLAS 12(3), 1990).
pub fn registers()
    ensures { AllClustersLegal }
{}

/// Of two writes of one session to a file the later one has the greater tag, so that it comes after the other one in the file's order, even where
/// that one never ended: in a tenant's run by itself (`runs`), and read off what was done at the nodes (`clusters`). So an open write takes no
/// effect once a later one of its session has.
pub fn own_writes_rise()
    ensures runs { AllOwnWritesRise }
    ensures clusters { AllClustersOwnWritesRise }
{}

/// A restart is said as an abandonment of each operation that the node's sessions have, and a leap of each of them over the numbers
/// that are reserved for it. It leaves what a start has to give: of the node's sessions none has an operation, each goes on behind its
/// reserved numbers, and all else is as it was.
pub fn restarts()
    ensures { AllRestartsGiveUp }
{}

/// Whatever a node has of the tenant, each act changes what the node must not forget by one fact at most (`acts`). The fact is
/// read off what the node has and what it tells: an operation has a number that was not reserved, or a write has, or a store replaced a
/// copy. So from its facts alone, in order, a node whose disk was never lost knows all of this again (`suffice`). And each number that a
/// session used, of an operation or of a tag, was reserved by a fact (`reserved`), so that a start, which goes on behind what is
/// reserved, uses none twice.
pub fn facts()
    ensures acts { AllActsKeep }
    ensures suffice { AllFactsSuffice }
    ensures reserved { AllUsedReserved }
{}
