//! A run, and the history of a file's operations in it.

ghost use Rattle.std.specs.Prelude.{◌≡◌, ◌≢◌, ◌↔◌, ◌+◌, ◌<◌, ◌++◌, true, false, codes, decimal, length, map, slice_index, IfOk, IfErr, IfSome, OnOk, OnErr, IsErrOf, IsOk};
ghost use Rattle.gq_tag.specs.Tag.{file_place};
ghost use Rattle.gq_laws.specs.Tenants.{tenant_operations};
ghost use Rattle.gq_order.specs.Runs.{IsRun};
ghost use Rattle.gq_lines.specs.Lines.{lines_of};
ghost use Rattle.gq_script.specs.Out.{IsAccepted};
ghost use Rattle.gq_text.specs.PlanText.{plan_of, NamesTenant};
ghost use Rattle.gq_streams.specs.Watched.{inner_of, has_failed};
ghost use Rattle.gq_files.specs.Histories.{AppendsHistory, AppendsHistoryPrefix, IsHistoryOf, IsHistoryText, TellsHistory, function_word, line_behind, moment_text, moment_text_in, moments_text, placed, quoted, stage_word, value_word};
ghost use Rattle.gq_files.specs.Orders.{IsAskedFault, IsPlanFault};

use crate::asked_file::{AskedFault, answer_by_new_world, asked_file};
use crate::order::OrderFault;
use gq_desk::Plan;
use gq_history::{Moment, Stage, history};
use gq_laws::{Kind, Op};
use gq_lines::{put_digits, put_number, put_sum};
use gq_memory::{GrowCopies, GrowVec, OutOfMemory};
use gq_order::operations;
use gq_script::{Answered, MOST_INPUT, RunFault, read_whole};
use gq_streams::{Watched, write_whole};
use gq_tag::FileId;
use std::alloc::Global;
use std::io::{Read, Write};

// Appends a key and a number.
fn put_counted(out: &mut Vec<u8>, key: &[u8], n: u64) -> Result<(), OutOfMemory>
    ensures { OnOk result (out.new.items ≡ out.old.items ++ key.now ++ decimal n) }
{
    out.grow_by(key)?;
    put_number(out, n)
}

// Appends a key and a word.
fn put_named(out: &mut Vec<u8>, key: &[u8], word: &[u8]) -> Result<(), OutOfMemory>
    ensures { OnOk result (out.new.items ≡ out.old.items ++ key.now ++ word.now) }
{
    out.grow_by(key)?;
    out.grow_by(word)
}

// Appends a content between quotes.
fn put_quoted(out: &mut Vec<u8>, bytes: &[u8]) -> Result<(), OutOfMemory>
    ensures { OnOk result (out.new.items ≡ out.old.items ++ quoted bytes.now) }
{
    out.grow(b'"')?;
    put_digits(out, bytes)?;
    out.grow(b'"')
}

// Appends what an operation writes, or what is known of what it gives.
fn put_value(out: &mut Vec<u8>, stage: Stage, kind: &Kind) -> Result<(), OutOfMemory>
    ensures { OnOk result (out.new.items ≡ out.old.items ++ value_word stage kind.now) }
{
    match (stage, kind) {
        (_, Kind::Write(bytes)) => put_quoted(out, bytes.as_slice()),
        (Stage::Ends, Kind::Read(Some(bytes))) => put_quoted(out, bytes.as_slice()),
        (Stage::Ends, Kind::Row(Some(length))) => put_number(out, *length),
        _ => out.grow_by(b"nil"),
    }
}

fn stage_word(stage: Stage) -> &'static [u8]
    ensures { result.now ≡ stage_word stage }
{
    match stage {
        Stage::Begins => b"invoke",
        Stage::Ends => b"ok",
        Stage::StaysOpen => b"info",
    }
}

fn function_word(kind: &Kind) -> &'static [u8]
    ensures { result.now ≡ function_word kind.now }
{
    match kind {
        Kind::Write(_) => b"write",
        Kind::Read(_) => b"read",
        Kind::Row(_) => b"length",
    }
}

// Appends the line of a moment of the operation.
fn put_moment(
    out: &mut Vec<u8>,
    first: u32,
    index: u64,
    moment: Moment,
    op: &Op,
) -> Result<(), OutOfMemory>
    ensures { OnOk result (out.new.items ≡ out.old.items ++ moment_text first index moment op.now) }
{
    put_counted(out, b"{:index ", index)?;
    out.grow_by(b", :time ")?;
    put_sum(out, moment.line as u64, first)?;
    put_named(out, b", :type :", stage_word(moment.stage))?;
    put_counted(out, b", :process ", moment.process)?;
    put_named(out, b", :f :", function_word(&op.kind))?;
    out.grow_by(b", :value ")?;
    put_value(out, moment.stage, &op.kind)?;
    out.grow_by(b"}\n")?;
    Ok(())
}

// Appends the line of a moment of the operation at its place, where there is one.
fn put_moment_in(
    out: &mut Vec<u8>,
    first: u32,
    index: u64,
    ops: &[Op],
    moment: Moment,
) -> Result<(), OutOfMemory>
    ensures { OnOk result (out.new.items ≡ out.old.items ++ moment_text_in first index ops.now moment) }
{
    match ops.get(moment.place) {
        Some(op) => put_moment(out, first, index, moment, op),
        None => Ok(()),
    }
}

// Appends the lines of moments of the operations.
fn put_moments(
    out: &mut Vec<u8>,
    first: u32,
    ops: &[Op],
    moments: &[Moment],
) -> Result<(), OutOfMemory>
    ensures { OnOk result (out.new.items ≡ out.old.items ++ moments_text first 0 ops.now moments.now) }
{
    for (index, moment) in moments.iter().enumerate() {
        put_moment_in(out, first, index as u64, ops, *moment)?;
    }
    Ok(())
}

// The i-th of the places.
fn place_at(places: &[usize], i: usize) -> usize
    ensures { result ≡ slice_index places.now i }
{
    match places.get(i) {
        Some(place) => *place,
        None => 0,
    }
}

// The operation at its places among all lines.
fn place(op: &mut Op, places: &[usize])
    ensures { op.new ≡ placed places.now op.old }
{
    op.begin = place_at(places, op.begin);
    if let Some(end) = op.end {
        op.end = Some(place_at(places, end));
    }
}

// The operations at their places among all lines.
fn place_all(ops: &mut [Op], places: &[usize])
    ensures { ops.new ≡ map (placed places.now) ops.old }
{
    for op in ops.iter_mut() {
        place(op, places);
    }
}

// The operations on the file in what was answered to its tenant, at their places among all lines.
pub(crate) fn operations_answered(
    alloc: Global,
    plan: &Plan,
    answered: &Answered,
    file: FileId,
) -> Result<Vec<Op>, OutOfMemory>
    requires { IsRun plan.now answered.now.events.items answered.now.answers.items }
    ensures { IfOk result (λ ops. ops.items ≡
        map (placed answered.now.places.items) (tenant_operations plan.now answered.now.events.items file.tenant (file_place file))) }
{
    let mut ops = operations(
        alloc,
        plan,
        answered.events.as_slice(),
        answered.answers.as_slice(),
        file,
    )?;
    place_all(ops.as_mut_slice(), answered.places.as_slice());
    Ok(ops)
}

// The number of the first line behind the plan.
pub(crate) fn line_behind(plan: &Plan) -> u32
    ensures { result ≡ line_behind plan.now }
{
    plan.tenants() as u32 + 4
}

// The history of the file in what was answered to its tenant.
fn history_text(
    alloc: Global,
    plan: &Plan,
    answered: &Answered,
    file: FileId,
) -> Result<Vec<u8>, OutOfMemory>
    requires { IsRun plan.now answered.now.events.items answered.now.answers.items }
    ensures { IfOk result (λ text. TellsHistory (line_behind plan.now) answered.now.lines
        (map (placed answered.now.places.items) (tenant_operations plan.now answered.now.events.items file.tenant (file_place file))) text.items) }
{
    let ops = operations_answered(alloc, plan, answered, file)?;
    let moments = history(alloc, answered.lines, ops.as_slice())?;
    let mut text = Vec::new(alloc);
    put_moments(
        &mut text,
        line_behind(plan),
        ops.as_slice(),
        moments.as_slice(),
    )?;
    Ok(text)
}

// The history of the file in the lines of a text after the plan.
fn history_of_lines(
    alloc: Global,
    plan: Plan,
    lines: &[u8],
    file: FileId,
) -> Result<Vec<u8>, OutOfMemory>
    ensures { IfOk result (λ text. IsHistoryOf plan (lines_of lines.now) file.tenant (file_place file) text.items) }
{
    let (world, answered) = answer_by_new_world(alloc, plan, lines, file.tenant, false)?;
    history_text(alloc, world.plan(), &answered, file)
}

// The history of the file in an input.
fn output(
    alloc: Global,
    input: &[u8],
    name: &str,
    volume: u32,
    file: u32,
) -> Result<Vec<u8>, AskedFault>
    ensures plan { OnOk result (IsOk (plan_of (lines_of input.now))) }
    ensures named { OnOk result (NamesTenant name.now input.now) }
    ensures text { IfOk result (λ text. IsHistoryText input.now name.now (record { volume = volume; place = file }) text.items) }
    ensures fault { IfErr result (IsAskedFault name.now input.now) }
{
    let (plan, place, file) = asked_file(alloc, input, name, volume, file)?;
    let text = history_of_lines(alloc, plan, &input[place..], file)?;
    Ok(text)
}

/// Reads the whole input and answers it as [`gq_script::run`] does, but writes no answers: it writes the history of the
/// operations on a file of the tenant of this name, in the form of Jepsen's histories (a map of EDN in each line). It has of
/// each operation its beginning (`:invoke`) and its end, `:ok`, or `:info` where it did not end, in the order of the lines;
/// what did not end stands behind the last line. A `:time` is the number of a line of the input, from 1. The history of a
/// file on which no operation began, also of one that is not there, is empty. The faults are those of [`crate::order_run`]:
/// after each but `Write` nothing was written, after that a prefix of the history.
pub fn history_run<R: Read, W: Write>(
    alloc: Global,
    reader: &mut Watched<R>,
    writer: &mut Watched<W>,
    name: &str,
    volume: u32,
    file: u32,
) -> Result<(), OrderFault>
    requires reader { has_failed reader.old ≡ false }
    requires writer { has_failed writer.old ≡ false }

    // Ok: the input is accepted and names the tenant, and the history was appended, and nothing else.
    ensures accepted { OnOk result (IfSome (R.remaining (inner_of reader.old)) IsAccepted) }
    ensures named { OnOk result (IfSome (R.remaining (inner_of reader.old)) (NamesTenant name.now)) }
    ensures ok { OnOk result (IfSome (R.remaining (inner_of reader.old)) (λ input.
        AppendsHistory input name.now (record { volume = volume; place = file })
        (W.contents (inner_of writer.old)) (W.contents (inner_of writer.new)))) }

    // When each fault comes.
    ensures read { IsErrOf result (OrderFault.Run RunFault.Read) ↔ (has_failed reader.new ≡ true) }
    ensures big { IsErrOf result (OrderFault.Run RunFault.TooBig) → IfSome (R.remaining (inner_of reader.old))
        (λ input. MOST_INPUT < length input) }
    ensures plan { IfErr result (λ e. IfSome (R.remaining (inner_of reader.old))
        (λ input. IsPlanFault input e)) }
    ensures unknown { IsErrOf result OrderFault.Name → IfSome (R.remaining (inner_of reader.old))
        (λ input. IsAccepted input × (NamesTenant name.now input → ⊥)) }
    ensures write { IsErrOf result (OrderFault.Run RunFault.Write) ↔ (has_failed writer.new ≡ true) }

    // What was written at a fault.
    ensures nothing { IfErr result (λ e. e ≢ OrderFault.Run RunFault.Write → writer.new ≡ writer.old) }
    ensures answered { IsErrOf result (OrderFault.Run RunFault.Write) →
        IfSome (R.remaining (inner_of reader.old)) (λ input. IsAccepted input × NamesTenant name.now input) }
    ensures prefix { IsErrOf result (OrderFault.Run RunFault.Write) → IfSome (R.remaining (inner_of reader.old)) (λ input.
        AppendsHistoryPrefix input name.now (record { volume = volume; place = file })
        (W.contents (inner_of writer.old)) (W.contents (inner_of writer.new))) }
{
    let input = read_whole(alloc, reader)?;
    let text = output(alloc, input.as_slice(), name, volume, file)?;
    write_whole(writer, text.as_slice())?;
    Ok(())
}
