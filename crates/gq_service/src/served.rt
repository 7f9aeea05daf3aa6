//! The machine that a node's process runs.

ghost use Rattle.std.specs.Prelude.{◌≡◌, ℕ, List, IfOk, IfErr};
ghost use Rattle.gq_journal.specs.Batches.{Line, whole_lines, lines_text};
ghost use Rattle.gq_setup.specs.Setups.{Setup as TheSetup, SetupReading};
ghost use Rattle.gq_setup.specs.Texts.{setup_of_node_text};
ghost use Rattle.gq_service.specs.Gone.{IsRead};
ghost use Rattle.gq_service.specs.Serving.{TellsForm, TellsDamage, TellsNoOther};

use crate::fault::NodeFault;
use crate::this_node::ThisNode;
use gq_chunks::{Damage, Sweep};
use gq_keeper::Lasting;
use gq_machine::NodeMachine;
use gq_setup::Setup;
use gq_shelf::ShelfFault;
use std::alloc::Global;

/// A machine that a node's process runs.
pub trait Served: Lasting {
    /// It is that of the node of this number of the setup, never started. The plan with which its journal begins was read so.
    ghost is_new: { TheSetup → ℕ → SetupReading TheSetup → Self → Type 0 };

    /// How many facts it read.
    fn facts(&self) -> u64;

    /// Its registers.
    fn registers(&self) -> &NodeMachine;

    /// Does one part of a look for segments of its shelf in which no chunk lies, and tells which one it removed, if one. All facts that it gave are synced.
    fn sweep(&self, sweep: &mut Sweep) -> Result<Option<u32>, ShelfFault>;

    /// Of how many tenants it lacks chunks, and how many of their contents came since it was started.
    fn chunks_lacked(&self) -> (usize, u64);

    /// What is known of damaged contents on its shelf since it was started.
    fn damage(&self) -> Damage;
}

/// What makes the machine with which a start begins.
pub trait Maker<M: Served> {
    /// The machine of the node, never started. The journal that is found is this one, none where one is to be begun. `before` is what was read of
    /// the plan with which it begins, or is to begin.
    fn make(
        self,
        alloc: Global,
        node: &ThisNode,
        journal: &[u8],
        before: &Option<Setup>,
    ) -> Result<M, NodeFault>
        ensures new { IfOk result (λ m. (reading : SetupReading TheSetup) → IsRead reading before.now → M.is_new node.now.plan.setup node.now.number reading m) }
        ensures blank { IfOk result (λ m. (lines : List Line) → IsRead (setup_of_node_text (lines_text lines)) before.now → M.blank lines m m) }
        ensures of_plan { IfOk result (λ m. M.is_of (whole_lines node.now.plan.text.items) m) }
        ensures form { IfErr result (λ fault. (journal : List ℕ) → TellsForm journal fault) }
        ensures damaged { IfErr result (λ fault. (journal : List ℕ) → TellsDamage journal fault) }
        ensures another { IfErr result TellsNoOther };
}
