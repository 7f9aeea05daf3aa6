//! A run, and the picture of a file's operations in it.

ghost use Rattle.std.specs.Prelude.{◌≡◌, ◌≢◌, ◌↔◌, ◌<◌, true, false, length, map, IfOk, IfErr, IfSome, OnOk, IsErrOf, IsOk};
ghost use Rattle.gq_tag.specs.Tag.{file_place};
ghost use Rattle.gq_desk.specs.CheckedPlan.{row_at};
ghost use Rattle.gq_laws.specs.Operations.{Tagged};
ghost use Rattle.gq_laws.specs.Tenants.{tenant_operations};
ghost use Rattle.gq_order.specs.Runs.{IsRun};
ghost use Rattle.gq_picture.specs.Absences.{absences};
ghost use Rattle.gq_picture.specs.Laws.{all_effects};
ghost use Rattle.gq_lines.specs.Lines.{lines_of};
ghost use Rattle.gq_script.specs.Out.{IsAccepted};
ghost use Rattle.gq_text.specs.PlanText.{plan_of, NamesTenant};
ghost use Rattle.gq_streams.specs.Watched.{inner_of, has_failed};
ghost use Rattle.gq_files.specs.Histories.{placed};
ghost use Rattle.gq_files.specs.Orders.{IsAskedFault, IsPlanFault};
ghost use Rattle.gq_files.specs.Pictures.{AppendsPicture, AppendsPicturePrefix, IsPictureOf, IsPictureText, TellsPicture, heading_of, servers_of};

use crate::asked_file::{AskedFault, answer_by_new_world, asked_file};
use crate::history::{line_behind, operations_answered};
use crate::order::OrderFault;
use gq_desk::Plan;
use gq_memory::OutOfMemory;
use gq_order::order;
use gq_picture::{draw, read_absences, read_effects};
use gq_script::{Answered, MOST_INPUT, RunFault, read_whole};
use gq_streams::{Watched, write_whole};
use gq_svg::{Heading, put_picture};
use gq_tag::FileId;
use std::alloc::Global;
use std::io::{Read, Write};

// How many sessions the tenant has.
fn sessions_of(plan: &Plan, tenant: u8) -> u8
    ensures { result ≡ (row_at plan.now tenant).sessions }
{
    if (tenant as usize) < plan.tenants() {
        plan.row(tenant).sessions as u8
    } else {
        0
    }
}

// What stands above the picture of the file.
fn heading(plan: &Plan, file: FileId) -> Heading
    ensures { result ≡ heading_of plan.now file.tenant (file_place file) }
{
    Heading {
        volume: file.volume,
        file: file.file,
        sessions: sessions_of(plan, file.tenant),
        servers: plan.grid().servers() as u8,
        first_line: line_behind(plan),
    }
}

// The picture of the file in what was answered to its tenant.
fn picture_text(
    alloc: Global,
    plan: &Plan,
    answered: &Answered,
    name: &[u8],
    file: FileId,
) -> Result<Vec<u8>, OutOfMemory>
    requires run { IsRun plan.now answered.now.events.items answered.now.answers.items }
    requires places { length answered.now.places.items ≡ length answered.now.events.items }
    ensures { IfOk result (λ text.
        Tagged (map (placed answered.now.places.items) (tenant_operations plan.now answered.now.events.items file.tenant (file_place file)))
        → TellsPicture name.now (heading_of plan.now file.tenant (file_place file))
        (map (placed answered.now.places.items) (tenant_operations plan.now answered.now.events.items file.tenant (file_place file)))
        (absences (servers_of plan.now) answered.now.places.items (all_effects plan.now answered.now.events.items)) text.items) }
{
    let places = answered.places.as_slice();
    let events = answered.events.as_slice();
    let answers = answered.answers.as_slice();
    let ops = operations_answered(alloc, plan, answered, file)?;
    let order = order(alloc, ops.as_slice())?;
    let effects = read_effects(alloc, events, answers)?;
    let absences = read_absences(alloc, plan.grid().servers(), places, effects.as_slice())?;
    let drawing = draw(alloc, ops, order.as_slice(), absences.as_slice())?;
    let mut text = Vec::new(alloc);
    put_picture(&mut text, name, heading(plan, file), &drawing)?;
    Ok(text)
}

// The picture of the file in the lines of a text after the plan.
fn picture_of_lines(
    alloc: Global,
    plan: Plan,
    lines: &[u8],
    name: &[u8],
    file: FileId,
) -> Result<Vec<u8>, OutOfMemory>
    ensures { IfOk result (λ text. IsPictureOf plan (lines_of lines.now) name.now file.tenant (file_place file) text.items) }
{
    let (world, answered) = answer_by_new_world(alloc, plan, lines, file.tenant, false)?;
    picture_text(alloc, world.plan(), &answered, name, file)
}

// The picture of the file in an input.
fn output(
    alloc: Global,
    input: &[u8],
    name: &str,
    volume: u32,
    file: u32,
) -> Result<Vec<u8>, AskedFault>
    ensures plan { OnOk result (IsOk (plan_of (lines_of input.now))) }
    ensures named { OnOk result (NamesTenant name.now input.now) }
    ensures text { IfOk result (λ text. IsPictureText input.now name.now (record { volume = volume; place = file }) text.items) }
    ensures fault { IfErr result (IsAskedFault name.now input.now) }
{
    let (plan, place, file) = asked_file(alloc, input, name, volume, file)?;
    let text = picture_of_lines(alloc, plan, &input[place..], name.as_bytes(), file)?;
    Ok(text)
}

/// Reads the whole input and answers it as [`gq_script::run`] does, but writes no answers: it writes a picture (SVG) of the
/// operations on a file of the tenant of this name, in the order in which a single register gives the same answers. Each
/// operation of the order has a bar from its beginning to its end, and a point in it; the points stand in the order, and each
/// read's below what it gave. A file on which no operation began, also one that is not there, has no bars. The faults are those
/// of [`crate::order_run`]: after each but `Write` nothing was written, after that a prefix of the picture.
pub fn picture_run<R: Read, W: Write>(
    alloc: Global,
    reader: &mut Watched<R>,
    writer: &mut Watched<W>,
    name: &str,
    volume: u32,
    file: u32,
) -> Result<(), OrderFault>
    requires reader { has_failed reader.old ≡ false }
    requires writer { has_failed writer.old ≡ false }

    // Ok: the input is accepted and names the tenant, and the picture was appended, and nothing else.
    ensures accepted { OnOk result (IfSome (R.remaining (inner_of reader.old)) IsAccepted) }
    ensures named { OnOk result (IfSome (R.remaining (inner_of reader.old)) (NamesTenant name.now)) }
    ensures ok { OnOk result (IfSome (R.remaining (inner_of reader.old)) (λ input.
        AppendsPicture input name.now (record { volume = volume; place = file })
        (W.contents (inner_of writer.old)) (W.contents (inner_of writer.new)))) }

    // When each fault comes.
    ensures read { IsErrOf result (OrderFault.Run RunFault.Read) ↔ (has_failed reader.new ≡ true) }
    ensures big { IsErrOf result (OrderFault.Run RunFault.TooBig) → IfSome (R.remaining (inner_of reader.old))
        (λ input. MOST_INPUT < length input) }
    ensures plan { IfErr result (λ e. IfSome (R.remaining (inner_of reader.old))
        (λ input. IsPlanFault input e)) }
    ensures unknown { IsErrOf result OrderFault.Name → IfSome (R.remaining (inner_of reader.old))
        (λ input. IsAccepted input × (NamesTenant name.now input → ⊥)) }
    ensures write { IsErrOf result (OrderFault.Run RunFault.Write) ↔ (has_failed writer.new ≡ true) }

    // What was written at a fault.
    ensures nothing { IfErr result (λ e. e ≢ OrderFault.Run RunFault.Write → writer.new ≡ writer.old) }
    ensures answered { IsErrOf result (OrderFault.Run RunFault.Write) →
        IfSome (R.remaining (inner_of reader.old)) (λ input. IsAccepted input × NamesTenant name.now input) }
    ensures prefix { IsErrOf result (OrderFault.Run RunFault.Write) → IfSome (R.remaining (inner_of reader.old)) (λ input.
        AppendsPicturePrefix input name.now (record { volume = volume; place = file })
        (W.contents (inner_of writer.old)) (W.contents (inner_of writer.new))) }
{
    let input = read_whole(alloc, reader)?;
    let text = output(alloc, input.as_slice(), name, volume, file)?;
    write_whole(writer, text.as_slice())?;
    Ok(())
}
