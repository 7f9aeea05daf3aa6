//! Which node a process is.

ghost use Rattle.std.specs.Prelude.{◌≡◌, true, Ok, IfOk, IfErr};
ghost use Rattle.gq_keeper.specs.Plans.{IsPlan};
ghost use Rattle.gq_setup.specs.Setups.{has_node};
ghost use Rattle.gq_setup.specs.Texts.{node_text, setup_of_node_text, OpensFor};
ghost use Rattle.gq_journal.specs.Batches.{whole_lines};
ghost use Rattle.gq_service.specs.Serving.{TellsNoServer, TellsNoText};

use crate::fault::NodeFault;
use gq_grid::MOST_SERVERS;
use gq_setup::{NodePlan, Setup};
use std::alloc::Global;

/// Which node a process is: its number, and its plan as its journal has it.
#[derive(Drop)]
pub struct ThisNode {
    pub number: u16,
    pub plan: NodePlan,
    ghost of_plan: { has_node plan.setup number ≡ true },
    ghost text: { plan.text.items ≡ node_text number plan.setup },
    ghost back: { setup_of_node_text plan.text.items ≡ Ok plan.setup },
    ghost volumes: { OpensFor (whole_lines plan.text.items) plan.setup },
    ghost is_plan: { IsPlan plan.text.items },
}

// The number as that of a node of the plan.
fn node_of(setup: &Setup, number: u32) -> Result<u16, NodeFault>
    ensures same { IfOk result (λ node. node ≡ number) }
    ensures of_plan { IfOk result (λ node. has_node setup.now node ≡ true) }
    ensures fault { IfErr result (TellsNoServer setup.now number) }
    ensures text { IfErr result (TellsNoText setup.now number) }
{
    if !setup.has_node(number) {
        return Err(NodeFault::NoServer(setup.plan().grid().servers()));
    }
    Ok(setup.lost().node_at(number as usize % MOST_SERVERS))
}

impl ThisNode {
    /// The node of this number, with what it starts with. `NoServer` comes exactly where the plan has no such node, and `PlanText`
    /// only where the plan's text may not stand in a journal.
    pub fn new(alloc: Global, number: u32, setup: Setup) -> Result<ThisNode, NodeFault>
        ensures number { IfOk result (λ node. node.number ≡ number) }
        ensures setup { IfOk result (λ node. node.plan.setup ≡ setup) }
        ensures of_plan { IfOk result (λ node. has_node setup number ≡ true) }
        ensures no_server { IfErr result (TellsNoServer setup number) }
        ensures plan_text { IfErr result (TellsNoText setup number) }
    {
        let node = node_of(&setup, number)?;
        match NodePlan::new(alloc, node, setup)? {
            Some(plan) => Ok(ThisNode { number: node, plan }),
            None => Err(NodeFault::PlanText),
        }
    }
}
