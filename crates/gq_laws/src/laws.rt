//! The laws, as clauses of functions that do nothing.

ghost use Rattle.gq_laws.specs.Checks.{ChecksDecide};
ghost use Rattle.gq_laws.specs.Laws.{AllPlacesTagged, AllRunsTagged};
ghost use Rattle.gq_laws.specs.Progress.{AllMayAbandon, AllOperationsComplete, AllRequestsComplete, AllTenantsComplete};
ghost use Rattle.gq_laws.specs.Orders.{AllRunsLegal, OrdersAreLegal};
ghost use Rattle.gq_laws.specs.Tenants.{AllTenantsLegal, AllTenantsTagged};

/// Whatever the lines of a tenant and the servers' changes, disks that are lost among them, the operations on each file are
/// tagged, wherever these turns stand in a longer list. The operations are read off the turns and what is told to them, and
/// off nothing else.
pub fn tagged()
    ensures runs { AllRunsTagged }
    ensures places { AllPlacesTagged }
{}

/// Of operations that are tagged, an order by tag is legal.
pub fn ordered()
    ensures { OrdersAreLegal }
{}

/// Whatever the lines of a tenant and the servers' changes, the operations on each file have a legal order: they give
/// what one register gives that is written and read in this order, and none that ended before another began stands
/// after it (Herlihy and Wing, Linearizability, ACM TOPLAS 12(3), 1990).
pub fn legal()
    ensures { AllRunsLegal }
{}

/// Whatever the events of all tenants, the operations on each file of each tenant are tagged, and have a legal order.
/// They are read off what the tenant sees of the events and is told, at the places in the list of all events.
pub fn tenants()
    ensures tagged { AllTenantsTagged }
    ensures legal { AllTenantsLegal }
{}

/// The test of an order, which goes once through the operations, is true exactly where the order is legal.
#[tactic(auto, using(crate::proofs::Checking::checks_decide))]
pub fn checked()
    ensures { ChecksDecide }
{}

/// Each operation can be completed. Whatever the lines of a tenant and the servers' changes, losses and abandoned
/// operations among them: where a collect quorum and a store quorum are up, each server that is up has all files, and steps
/// are left, a going operation is completed by one retry of its session and deliveries of messages that are sent from then
/// on, none of which is refused. A request that is accepted needs no retry. In a run of all tenants, in which each server
/// has all files, the same lines are told the same. And whatever is up, a session may abandon its operation and ask again.
pub fn completes()
    ensures operations { AllOperationsComplete }
    ensures requests { AllRequestsComplete }
    ensures tenants { AllTenantsComplete }
    ensures abandoned { AllMayAbandon }
{}
