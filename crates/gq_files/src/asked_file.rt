//! The file that a command names, in the plan of its input, and the run of which its operations are told.

ghost use Rattle.std.specs.Prelude.{◌≡◌, ◌≤◌, Ok, Some, true, length, drop, map, IfErr, IfOk, OnOk};
ghost use Rattle.std.specs.List.{position_from};
ghost use Rattle.gq_tag.specs.Tag.{file_place};
ghost use Rattle.gq_desk.specs.Plans.{is_of};
ghost use Rattle.gq_order.specs.Runs.{IsRun};
ghost use Rattle.gq_text.specs.Input.{event_of};
ghost use Rattle.gq_lines.specs.Lines.{lines_of, joined};
ghost use Rattle.gq_script.specs.Out.{output_lines};
ghost use Rattle.gq_text.specs.PlanText.{plan_of};
ghost use Rattle.gq_script.specs.Seeing.{seen_events, seen_places};
ghost use Rattle.gq_files.specs.Orders.{IsAskedFault};

use gq_desk::Plan;
use gq_memory::OutOfMemory;
use gq_script::{Answered, answer_lines};
use gq_tag::FileId;
use gq_text::{PlanText, read_plan};
use gq_world::World;
use std::alloc::Global;

/// Why an input tells nothing of a file that is asked for.
#[derive(Drop)]
pub(crate) enum AskedFault {
    /// It gives no plan, or memory is wanting.
    Plan(PlanText),
    /// The name is no tenant's of the plan.
    Name,
}

impl From<PlanText> for AskedFault {
    ghost use Rattle.gq_files.specs.declared.asked_file.AskedFault.TheVariants.{Plan};

    ghost from_gives = { λ fault e. e ≡ Plan fault };

    fn from(fault: PlanText) -> AskedFault {
        AskedFault::Plan(fault)
    }
}

impl From<OutOfMemory> for AskedFault {
    ghost use Rattle.gq_text.specs.declared.plan_text.PlanText.TheVariants.{Memory};
    ghost use Rattle.gq_files.specs.declared.asked_file.AskedFault.TheVariants.{Plan};

    ghost from_gives = { λ refused e. e ≡ Plan (Memory refused) };

    fn from(refused: OutOfMemory) -> AskedFault {
        AskedFault::Plan(PlanText::Memory(refused))
    }
}

/// The plan of an input, where the lines behind it begin, and this file of the tenant of this name. The file need not be
/// there.
pub(crate) fn asked_file(
    alloc: Global,
    input: &[u8],
    name: &str,
    volume: u32,
    file: u32,
) -> Result<(Plan, usize, FileId), AskedFault>
    ensures plan { IfOk result (λ asked. plan_of (lines_of input.now) ≡ Ok (asked.0, lines_of (drop asked.1 input.now))) }
    ensures within { IfOk result (λ asked. asked.1 ≤ length input.now) }
    ensures tenant { IfOk result (λ asked. position_from (is_of name.now) 0 asked.0.rows ≡ Some asked.2.tenant) }
    ensures file { IfOk result (λ asked. file_place asked.2 ≡ record { volume = volume; place = file }) }
    ensures fault { IfErr result (IsAskedFault name.now input.now) }
{
    let (plan, place) = read_plan(alloc, input)?;
    let Some(tenant) = plan.find_word(name.as_bytes()) else {
        return Err(AskedFault::Name);
    };
    let file = FileId {
        tenant,
        volume,
        file,
    };
    Ok((plan, place, file))
}

/// A new world of the plan, and what it answered to the lines of a text after the plan, as one tenant saw it. The text of the
/// answers is made where they are to be told.
pub(crate) fn answer_by_new_world(
    alloc: Global,
    plan: Plan,
    lines: &[u8],
    tenant: u8,
    tells: bool,
) -> Result<(World, Answered), OutOfMemory>
    ensures plan { IfOk result (λ run. run.0.tables.plan ≡ plan) }
    ensures text { IfOk result (λ run. tells ≡ true → run.1.text.items ≡ joined (output_lines plan (lines_of lines.now))) }
    ensures events { IfOk result (λ run. run.1.events.items ≡
        seen_events (Some tenant) (map (event_of plan) (lines_of lines.now))) }
    ensures places { IfOk result (λ run. run.1.places.items ≡
        seen_places (Some tenant) 0 (map (event_of plan) (lines_of lines.now))) }
    ensures lines { IfOk result (λ run. run.1.lines ≡ length (lines_of lines.now)) }
    ensures run { IfOk result (λ run. IsRun plan run.1.events.items run.1.answers.items) }
{
    let mut world = World::new(alloc, plan)?;
    match answer_lines(alloc, &mut world, lines, tenant, tells) {
        Ok(answered) => Ok((world, answered)),
        Err(refused) => Err(refused),
    }
}
