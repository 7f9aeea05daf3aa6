//! A run, and the order of a file's operations behind it.

ghost use Rattle.std.specs.Prelude.{◌≡◌, ◌≢◌, ◌↔◌, ◌<◌, ◌≤◌, ◌++◌, ◌∷◌, [], List, true, false, length, map, decimal, IfOk, IfErr, IfSome, OnOk, OnErr, IsErrOf, IsOk, if◌then◌else◌};
ghost use Rattle.std.specs.Io.KnownBytes.{Appends};
ghost use Rattle.gq_tag.specs.Tag.{file_place};
ghost use Rattle.gq_laws.specs.Tenants.{tenant_operations};
ghost use Rattle.gq_lines.specs.Lines.{lines_of, joined};
ghost use Rattle.gq_lines.specs.Written.{ended};
ghost use Rattle.gq_script.specs.Linearizable.{operations_of};
ghost use Rattle.gq_script.specs.Out.{output_lines, IsAccepted, IsPlanFaultOf};
ghost use Rattle.gq_text.specs.PlanText.{plan_of, NamesTenant};
ghost use Rattle.gq_text.specs.Pieces.{words_in};
ghost use Rattle.gq_streams.specs.Watched.{inner_of, has_failed, AppendsPrefix};
ghost use Rattle.gq_order.specs.Runs.{IsRun};
ghost use Rattle.gq_files.specs.Orders.{operation_line_at, op_line, op_lines, ordered, order_out, IsPlanFault, IsAskedFault};

use crate::asked_file::{AskedFault, answer_by_new_world, asked_file};
use gq_desk::Plan;
use gq_laws::{Kind, Op};
use gq_memory::{GrowCopies, OutOfMemory};
use gq_model::{Answer, Event};
use gq_order::{FileOrder, OpRef, file_order};
use gq_script::{MOST_INPUT, ReadFault, RunFault, read_whole};
use gq_streams::{Watched, WriteFault, write_whole};
use gq_tag::FileId;
use gq_text::{Piece, put_words};
use std::alloc::Global;
use std::io::{Read, Write};
use thiserror::Error;

/// Why `order`, `history` or `picture` ended early. After each fault but that of writing nothing was written.
#[derive(Debug, Drop, Error)]
pub enum OrderFault {
    /// As a run ends early.
    #[error("{0}")]
    Run(RunFault),
    /// The name is no tenant's of the plan.
    #[error("unknown tenant")]
    Name,
}

impl From<ReadFault> for OrderFault {
    ghost use Rattle.gq_script.specs.Faults.{of_reading};
    ghost use Rattle.gq_files.specs.declared.order.OrderFault.TheVariants.{Run};

    ghost from_gives = { λ fault e. e ≡ Run (of_reading fault) };

    fn from(fault: ReadFault) -> OrderFault {
        OrderFault::Run(RunFault::from(fault))
    }
}

impl From<AskedFault> for OrderFault {
    ghost use Rattle.gq_files.specs.Orders.{of_asking};

    ghost from_gives = { λ fault e. e ≡ of_asking fault };

    fn from(fault: AskedFault) -> OrderFault {
        match fault {
            AskedFault::Plan(fault) => OrderFault::Run(RunFault::from(fault)),
            AskedFault::Name => OrderFault::Name,
        }
    }
}

impl From<WriteFault> for OrderFault {
    ghost use Rattle.gq_script.specs.declared.script.RunFault.TheVariants.{Write};
    ghost use Rattle.gq_files.specs.declared.order.OrderFault.TheVariants.{Run};

    ghost from_gives = { λ fault e. e ≡ Run Write };

    fn from(fault: WriteFault) -> OrderFault {
        OrderFault::Run(RunFault::from(fault))
    }
}

// Appends the words behind the kind of an operation: its session, its number, and what it wrote or gave.
fn put_given(out: &mut Vec<u8>, op: &Op, given: Piece) -> Result<(), OutOfMemory>
    ensures { OnOk result (out.new.items ≡ out.old.items ++ ended (decimal op.now.session ∷ decimal op.now.op ∷ words_in given.entry)) }
{
    put_words(
        out,
        &[
            Piece::Number(u64::from(op.session)),
            Piece::Number(u64::from(op.op)),
            given,
        ],
    )
}

// The same, of an operation that gave nothing.
fn put_open(out: &mut Vec<u8>, op: &Op) -> Result<(), OutOfMemory>
    ensures { OnOk result (out.new.items ≡ out.old.items ++ ended (decimal op.now.session ∷ decimal op.now.op ∷ [])) }
{
    put_words(
        out,
        &[
            Piece::Number(u64::from(op.session)),
            Piece::Number(u64::from(op.op)),
        ],
    )
}

// Appends the line of an operation.
fn put_op(out: &mut Vec<u8>, op: &Op) -> Result<(), OutOfMemory>
    ensures { OnOk result (out.new.items ≡ out.old.items ++ op_line op.now) }
{
    match &op.kind {
        Kind::Write(bytes) => {
            out.grow_by(b"write")?;
            put_given(out, op, Piece::Content(bytes.as_slice()))
        }
        Kind::Read(Some(bytes)) => {
            out.grow_by(b"read")?;
            put_given(out, op, Piece::Content(bytes.as_slice()))
        }
        Kind::Read(None) => {
            out.grow_by(b"read")?;
            put_open(out, op)
        }
        Kind::Row(Some(length)) => {
            out.grow_by(b"row")?;
            put_given(out, op, Piece::Number(*length))
        }
        Kind::Row(None) => {
            out.grow_by(b"row")?;
            put_open(out, op)
        }
    }
}

// Appends the line of the operation at the place, where there is one.
fn put_at(out: &mut Vec<u8>, ops: &[Op], place: OpRef) -> Result<(), OutOfMemory>
    ensures { OnOk result (out.new.items ≡ out.old.items ++ operation_line_at ops.now place) }
{
    match ops.get(place) {
        Some(op) => put_op(out, op),
        None => Ok(()),
    }
}

// Appends the lines of the operations at these places.
fn put_ops(out: &mut Vec<u8>, ops: &[Op], order: &[OpRef]) -> Result<(), OutOfMemory>
    ensures { OnOk result (out.new.items ≡ out.old.items ++ op_lines ops.now order.now) }
{
    for place in order {
        put_at(out, ops, *place)?;
    }
    Ok(())
}

// Appends the order of the operations on the file, and whether it is legal.
fn put_order(
    alloc: Global,
    out: &mut Vec<u8>,
    plan: &Plan,
    events: &[Event],
    answers: &[Answer],
    file: FileId,
) -> Result<(), OutOfMemory>
    requires { IsRun plan.now events.now answers.now }
    ensures { OnOk result (out.new.items ≡ out.old.items ++ ordered (tenant_operations plan.now events.now file.tenant (file_place file))) }
{
    let FileOrder { ops, order, legal } = file_order(alloc, plan, events, answers, file)?;
    put_ops(out, ops.as_slice(), order.as_slice())?;
    let verdict: &[u8] = if legal { b"legal\n" } else { b"illegal\n" };
    out.grow_by(verdict)
}

// The answers to the lines of a text after the plan, and the order of the operations on the file.
fn output_of_lines(
    alloc: Global,
    plan: Plan,
    lines: &[u8],
    file: FileId,
) -> Result<Vec<u8>, OutOfMemory>
    ensures { IfOk result (λ text. text.items ≡ joined (output_lines plan (lines_of lines.now))
        ++ ordered (operations_of plan (lines_of lines.now) file.tenant (file_place file))) }
{
    let (world, answered) = answer_by_new_world(alloc, plan, lines, file.tenant, true)?;
    let mut text = answered.text;
    put_order(
        alloc,
        &mut text,
        world.plan(),
        answered.events.as_slice(),
        answered.answers.as_slice(),
        file,
    )?;
    Ok(text)
}

// The output of an input.
fn output(
    alloc: Global,
    input: &[u8],
    name: &str,
    volume: u32,
    file: u32,
) -> Result<Vec<u8>, AskedFault>
    ensures plan { OnOk result (IsOk (plan_of (lines_of input.now))) }
    ensures named { OnOk result (NamesTenant name.now input.now) }
    ensures text { IfOk result (λ text. text.items ≡ order_out input.now name.now (record { volume = volume; place = file })) }
    ensures fault { IfErr result (IsAskedFault name.now input.now) }
{
    let (plan, place, file) = asked_file(alloc, input, name, volume, file)?;
    let text = output_of_lines(alloc, plan, &input[place..], file)?;
    Ok(text)
}

/// Reads the whole input as [`gq_script::run`] does, and writes its output and behind it the order of the operations on
/// a file of the tenant of this name: a line for each operation in the order, `write SESSION OP HEX`, `read SESSION OP
/// HEX` or `row SESSION OP LENGTH` (bytes), and `legal`. In this order, which keeps precedence, a single register gives
/// the same answers (Herlihy and Wing, Linearizability, ACM TOPLAS 12(3), 1990). A file on which no operation began, also
/// one that is not there, has no lines but `legal`. `Name` is told after each fault of the plan, before a line is
/// answered. After each fault but `Write` nothing was written, after that a prefix of the output.
pub fn order_run<R: Read, W: Write>(
    alloc: Global,
    reader: &mut Watched<R>,
    writer: &mut Watched<W>,
    name: &str,
    volume: u32,
    file: u32,
) -> Result<(), OrderFault>
    requires reader { has_failed reader.old ≡ false }
    requires writer { has_failed writer.old ≡ false }

    // Ok: the input is accepted and names the tenant, and its output and the order were appended.
    ensures accepted { OnOk result (IfSome (R.remaining (inner_of reader.old)) IsAccepted) }
    ensures named { OnOk result (IfSome (R.remaining (inner_of reader.old)) (NamesTenant name.now)) }
    ensures ok { OnOk result (IfSome (R.remaining (inner_of reader.old)) (λ input.
        Appends (W.contents (inner_of writer.old)) (W.contents (inner_of writer.new))
        (order_out input name.now (record { volume = volume; place = file })))) }

    // When each fault comes.
    ensures read { IsErrOf result (OrderFault.Run RunFault.Read) ↔ (has_failed reader.new ≡ true) }
    ensures big { IsErrOf result (OrderFault.Run RunFault.TooBig) → IfSome (R.remaining (inner_of reader.old))
        (λ input. MOST_INPUT < length input) }
    ensures plan { IfErr result (λ e. IfSome (R.remaining (inner_of reader.old))
        (λ input. IsPlanFault input e)) }
    ensures unknown { IsErrOf result OrderFault.Name → IfSome (R.remaining (inner_of reader.old))
        (λ input. IsAccepted input × (NamesTenant name.now input → ⊥)) }
    ensures write { IsErrOf result (OrderFault.Run RunFault.Write) ↔ (has_failed writer.new ≡ true) }

    // What was written at a fault.
    ensures nothing { IfErr result (λ e. e ≢ OrderFault.Run RunFault.Write → writer.new ≡ writer.old) }
    ensures answered { IsErrOf result (OrderFault.Run RunFault.Write) →
        IfSome (R.remaining (inner_of reader.old)) (λ input. IsAccepted input × NamesTenant name.now input) }
    ensures prefix { IsErrOf result (OrderFault.Run RunFault.Write) → IfSome (R.remaining (inner_of reader.old)) (λ input.
        AppendsPrefix (W.contents (inner_of writer.old)) (W.contents (inner_of writer.new))
        (order_out input name.now (record { volume = volume; place = file }))) }
{
    let input = read_whole(alloc, reader)?;
    let text = output(alloc, input.as_slice(), name, volume, file)?;
    write_whole(writer, text.as_slice())?;
    Ok(())
}
