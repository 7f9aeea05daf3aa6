//! A node that keeps registers alone.

ghost use Rattle.std.specs.Prelude.{◌≡◌, Ok, None, IfOk};
ghost use Rattle.gq_machine.specs.Machines.{tables_of};
ghost use Rattle.gq_setup.specs.Texts.{first_read};
ghost use Rattle.gq_service.specs.Serving.{IsNewFor, first_of_read};

use crate::fault::NodeFault;
use crate::new_node::new_node;
use crate::served::{Maker, Served};
use crate::this_node::ThisNode;
use gq_chunks::{Damage, Sweep};
use gq_machine::NodeMachine;
use gq_memory::OutOfMemory;
use gq_setup::Setup;
use gq_shelf::ShelfFault;
use std::alloc::Global;

impl Served for NodeMachine {
    ghost is_new = { λ setup number read m. IsNewFor setup number (first_read read) (tables_of m) };

    fn facts(&self) -> u64 {
        self.facts
    }

    fn registers(&self) -> &NodeMachine {
        self
    }

    fn sweep(&self, _sweep: &mut Sweep) -> Result<Option<u32>, ShelfFault>
        ensures { result ≡ Ok None }
    {
        Ok(None)
    }

    fn chunks_lacked(&self) -> (usize, u64) {
        (0, 0)
    }

    fn damage(&self) -> Damage {
        Damage {
            found: 0,
            mended: 0,
            rounds: 0,
        }
    }
}

/// The registers of the node, never started. `before` was read of the plan with which its journal begins.
pub(crate) fn new_registers(
    alloc: Global,
    node: &ThisNode,
    before: &Option<Setup>,
) -> Result<NodeMachine, OutOfMemory>
    ensures { IfOk result (λ m. IsNewFor node.now.plan.setup node.now.number (first_of_read before.now) (tables_of m)) }
{
    let blank = new_node(alloc, node, before)?;
    Ok(NodeMachine::new(alloc, blank))
}

/// Makes the machine of a node that keeps registers alone.
#[derive(Drop)]
pub struct RegistersAlone;

impl Maker<NodeMachine> for RegistersAlone {
    fn make(
        self,
        alloc: Global,
        node: &ThisNode,
        _journal: &[u8],
        before: &Option<Setup>,
    ) -> Result<NodeMachine, NodeFault> {
        let machine = new_registers(alloc, node, before)?;
        Ok(machine)
    }
}
