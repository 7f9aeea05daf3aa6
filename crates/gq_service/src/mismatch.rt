//! Why a journal is not the node's.

ghost use Rattle.std.specs.Prelude.{[], IfOk};
ghost use Rattle.gq_journal.specs.Batches.{lines_text, batches_of};
ghost use Rattle.gq_keeper.specs.Plans.{last_plan};
ghost use Rattle.gq_service.specs.Serving.{TellsMismatch};

use crate::this_node::ThisNode;
use gq_keeper::last_plan;
use gq_lines::{first_word, next_word, number};
use gq_memory::OutOfMemory;
use gq_setup::{NotKept, read_node_plan};
use std::alloc::Global;

/// Why a journal is not one from which a node goes on.
#[derive(Clone, Copy, Drop)]
pub enum Mismatch {
    /// It has no plan of a node at its front, or none that can be read.
    NoPlan,
    /// It is of the node of this number.
    Node(u32),
    /// The node's plan does not keep this of the journal's last one.
    Plan(NotKept),
}

// The number in the line `node N of R by C` with which a node's plan begins.
fn number_in(plan: &[u8]) -> Option<u32> {
    let (_, rest) = first_word(plan);
    let (word, _) = next_word(rest)?;
    number(word)
}

/// Why the journal of this text is not the node's, where it is not.
pub(crate) fn mismatch_of(
    alloc: Global,
    node: &ThisNode,
    journal: &[u8],
) -> Result<Mismatch, OutOfMemory>
    ensures { IfOk result (TellsMismatch node.now.plan.setup (lines_text (last_plan [] (batches_of journal.now)))) }
{
    let last = last_plan(alloc, journal)?;
    let Some(old) = read_node_plan(alloc, last)? else {
        return Ok(Mismatch::NoPlan);
    };
    if let Some(what) = node.plan.setup().not_kept(&old) {
        return Ok(Mismatch::Plan(what));
    }
    match number_in(last) {
        Some(other) => Ok(Mismatch::Node(other)),
        None => Ok(Mismatch::NoPlan),
    }
}
