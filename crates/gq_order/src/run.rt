//! The order of a file's operations in a run, and runs that grow.

ghost use Rattle.std.specs.Prelude.{◌≡◌, true, IfOk};
ghost use Rattle.gq_tag.specs.Tag.{file_place};
ghost use Rattle.gq_laws.specs.Orders.{order};
ghost use Rattle.gq_laws.specs.Tenants.{tenant_operations};
ghost use Rattle.gq_order.specs.Runs.{IsRun, RunsGrow};

use crate::OpRef;
use crate::checking::check_order;
use crate::history::operations;
use crate::ordering::order;
use gq_desk::Plan;
use gq_laws::Op;
use gq_memory::OutOfMemory;
use gq_model::{Answer, Event};
use gq_tag::FileId;
use std::alloc::Global;

/// The operations on a file in order of beginning, the places of those that stand in the order, and whether it is legal.
#[derive(Drop)]
pub struct FileOrder {
    pub ops: Vec<Op>,
    pub order: Vec<OpRef>,
    pub legal: bool,
}

/// The operations on the file in a run of the plan, their order, and whether it is legal, as it always is.
pub fn file_order(
    alloc: Global,
    plan: &Plan,
    events: &[Event],
    answers: &[Answer],
    file: FileId,
) -> Result<FileOrder, OutOfMemory>
    requires run { IsRun plan.now events.now answers.now }
    ensures ops { IfOk result (λ f. f.ops.items ≡ tenant_operations plan.now events.now file.tenant (file_place file)) }
    ensures order { IfOk result (λ f. f.order.items ≡ order (tenant_operations plan.now events.now file.tenant (file_place file))) }
    ensures legal { IfOk result (λ f. f.legal ≡ true) }
{
    let ops = operations(alloc, plan, events, answers, file)?;
    let order = order(alloc, ops.as_slice())?;
    let legal = check_order(ops.as_slice(), order.as_slice());
    Ok(FileOrder { ops, order, legal })
}

/// The law by which a caller knows that it has a run: no answers are those to no events, and the answers of a run with
/// what is told to one event more, as `World::step` tells it, are those of the run that goes on with this event.
pub fn runs_grow()
    ensures { RunsGrow }
{}
