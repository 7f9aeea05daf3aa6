//! A whole script, from a reader to a writer.

ghost use Rattle.std.specs.Prelude.{◌≡◌, ◌≢◌, ◌↔◌, ◌+◌, ◌<◌, ◌≤◌, ◌++◌, [], ◌∷◌, List, true, false, Some, length, vec_len, map, if◌then◌else◌, IfOk, IfErr, IfSome, OnOk, OnErr, IsOk, IsErrOf};
ghost use Rattle.std.specs.Io.KnownBytes.{Appends, IsAtEnd, Keeps};

use gq_desk::Plan;
use gq_lines::cut_line;
use gq_memory::{GrowCopies, GrowVec, OutOfMemory, filled};
use gq_streams::{Watched, WriteFault, write_whole};
use gq_text::{PlanText, QuorumText, TextFault, read_cut_line, read_plan, write_next_answer};
use gq_world::{Ended, World};
use std::alloc::Global;
use std::io::{Read, Write};
use thiserror::Error;

/// Why an input was not read whole. It is told as the [`RunFault`] of the same name.
#[derive(Drop)]
pub enum ReadFault {
    /// The reader failed.
    Read,
    /// The input has more than [`MOST_INPUT`] bytes.
    TooBig,
    /// Memory is wanting.
    Memory(OutOfMemory),
}

/// Why a run ended early. After each fault but `Write` nothing was written.
#[derive(Debug, Drop, Error)]
pub enum RunFault {
    /// The reader failed.
    #[error("read fault")]
    Read,
    /// The input has more than [`MOST_INPUT`] bytes.
    #[error("input over 16777216 bytes")]
    TooBig,
    /// The plan is at fault in this line, numbered from 1.
    #[error("line {0}: {1}")]
    Plan(u64, TextFault),
    /// Memory is wanting.
    #[error("out of memory")]
    Memory(OutOfMemory),
    /// The writer failed, or took none of some bytes. A prefix of the output was written.
    #[error("write fault")]
    Write,
}

impl From<ReadFault> for RunFault {
    ghost use Rattle.gq_script.specs.Faults.{of_reading};

    ghost from_gives = { λ fault e. e ≡ of_reading fault };

    fn from(fault: ReadFault) -> RunFault {
        match fault {
            ReadFault::Read => RunFault::Read,
            ReadFault::TooBig => RunFault::TooBig,
            ReadFault::Memory(refused) => RunFault::Memory(refused),
        }
    }
}

impl From<PlanText> for RunFault {
    ghost use Rattle.gq_script.specs.Faults.{of_plan};

    ghost from_gives = { λ fault e. e ≡ of_plan fault };

    fn from(fault: PlanText) -> RunFault {
        match fault {
            PlanText::Fault { line, fault } => RunFault::Plan(line, fault),
            PlanText::Memory(refused) => RunFault::Memory(refused),
        }
    }
}

impl From<WriteFault> for RunFault {
    ghost use Rattle.gq_script.specs.declared.script.RunFault.TheVariants.{Write};

    ghost from_gives = { λ fault e. e ≡ Write };

    fn from(_: WriteFault) -> RunFault {
        RunFault::Write
    }
}

/// The most bytes that an input may have.
pub const MOST_INPUT: usize = 16_777_216;

ghost use Rattle.gq_world.specs.Tables.{Stands};
ghost use Rattle.gq_text.specs.Input.{event_of};
ghost use Rattle.gq_lines.specs.Lines.{lines_of, joined};
ghost use Rattle.gq_text.specs.PlanText.{plan_of, IsFaultOf};
ghost use Rattle.gq_model.specs.declared.events.Event.{Event};
ghost use Rattle.gq_script.specs.Out.{answer_lines as event_lines, output_lines, out, IsAccepted, IsPlanFaultOf};
ghost use Rattle.gq_script.specs.Alone.{IsAnswered};
ghost use Rattle.gq_streams.specs.Watched.{inner_of, has_failed, AppendsPrefix, Moves};

// The bytes of one read.
pub const CHUNK: usize = 65_536;

// The most turns of the loop that reads, two more than `MOST_INPUT`: each but the last gives at least one byte.
pub const MOST_TURNS: usize = 16_777_218;

// One read, appended to `all`. Answers whether there may be more.
pub fn read_step<R: Read>(
    reader: &mut Watched<R>,
    chunk: &mut [u8],
    all: &mut Vec<u8>,
) -> Result<bool, ReadFault>
    requires room { 0 < length chunk.old }
    requires fine { has_failed reader.old ≡ false }
    requires bound { vec_len all.old ≤ MOST_INPUT }
    ensures moves { OnOk result (Moves (R.remaining (inner_of reader.old))
        (R.remaining (inner_of reader.new)) all.old.items all.new.items) }
    ensures end { IfOk result (λ more. more ≡ false → IsAtEnd (R.remaining (inner_of reader.new))) }
    ensures grows { IfOk result (λ more. more ≡ true → vec_len all.old < vec_len all.new) }
    ensures bound { OnOk result (vec_len all.new ≤ MOST_INPUT) }
    ensures room { length chunk.new ≡ length chunk.old }
    ensures fine { OnOk result (has_failed reader.new ≡ false) }
    ensures read { IsErrOf result ReadFault.Read → has_failed reader.new ≡ true }
    ensures kept { IsErrOf result ReadFault.Read →
        Keeps (R.remaining (inner_of reader.old)) (R.remaining (inner_of reader.new)) }
    ensures others { IfErr result (λ e. e ≢ ReadFault.Read → has_failed reader.new ≡ false) }
    ensures big { IsErrOf result ReadFault.TooBig → IfSome (R.remaining (inner_of reader.old))
        (λ xs. MOST_INPUT < vec_len all.old + length xs) }
{
    let Ok(n) = reader.read(chunk) else {
        return Err(ReadFault::Read);
    };
    if n > MOST_INPUT - all.len() {
        return Err(ReadFault::TooBig);
    }
    if let Err(refused) = all.grow_by(&chunk[..n]) {
        return Err(ReadFault::Memory(refused));
    }
    Ok(n > 0)
}

// Zeros to read into. The size is a parameter, so that no proof computes a list of that length.
pub fn blank(alloc: Global, size: usize) -> Result<Vec<u8>, ReadFault>
    requires { 0 < size }
    ensures some { IfOk result (λ v. 0 < vec_len v) }
    ensures err { IfErr result (λ e. e ≡ ReadFault.Memory tt) }
{
    match filled(alloc, 0u8, size) {
        Ok(zeros) => Ok(zeros),
        Err(refused) => Err(ReadFault::Memory(refused)),
    }
}

/// Reads all that the reader has, at most [`MOST_INPUT`] bytes, in at most 16,777,218 turns. The faults are `Read`, after
/// which the reader has failed, `TooBig` and `Memory`; what was read then is gone.
pub fn read_whole<R: Read>(alloc: Global, reader: &mut Watched<R>) -> Result<Vec<u8>, ReadFault>
    requires { has_failed reader.old ≡ false }
    ensures all { IfOk result (λ v. IfSome (R.remaining (inner_of reader.old)) (λ xs. v.items ≡ xs)) }
    ensures bound { IfOk result (λ v. vec_len v ≤ MOST_INPUT) }
    ensures fine { OnOk result (has_failed reader.new ≡ false) }
    ensures read { IsErrOf result ReadFault.Read → has_failed reader.new ≡ true }
    ensures others { IfErr result (λ e. e ≢ ReadFault.Read → has_failed reader.new ≡ false) }
    ensures big { IsErrOf result ReadFault.TooBig → IfSome (R.remaining (inner_of reader.old))
        (λ xs. MOST_INPUT < length xs) }
{
    let mut chunk = blank(alloc, CHUNK)?;
    let mut all = Vec::new(alloc);
    for _turn in 0..MOST_TURNS {
        match read_step(reader, chunk.as_mut_slice(), &mut all) {
            Ok(true) => {}
            Ok(false) => return Ok(all),
            Err(fault) => return Err(fault),
        }
    }
    unreachable!()
}

// The answers to more lines, by a world that stands for those before. The loop is that of `answer_lines` without what is
// kept there: so no event or answer has to lie in memory whole (docs/DECISIONS.md, Speed).
pub fn answers(alloc: Global, world: &mut World, lines: &[u8]) -> Result<Vec<u8>, OutOfMemory>
    ensures plan { world.new.tables.plan ≡ world.old.tables.plan }
    ensures text { IfOk result (λ text. (before : List Event) → Stands world.old.tables before → text.items ≡
        joined (event_lines world.old.tables.plan before (map (event_of world.old.tables.plan) (lines_of lines.now)))) }
    ensures stands { OnOk result ((before : List Event) → Stands world.old.tables before →
        Stands world.new.tables (before ++ map (event_of world.old.tables.plan) (lines_of lines.now))) }
{
    let mut text = Vec::new(alloc);
    let mut quorum = QuorumText::new(alloc, *world.plan().grid());
    let mut rest = lines;
    while !rest.is_empty() {
        let (first, words, after) = cut_line(rest);
        let event = read_cut_line(alloc, first, words, world.plan())?;
        let answer = match world.step(&event) {
            Ok(answer) => answer,
            Err(Ended(refused)) => return Err(refused),
        };
        write_next_answer(world.plan(), &event, &answer, &mut quorum, &mut text)?;
        drop(event);
        drop(answer);
        rest = after;
    }
    Ok(text)
}

/// The answers of a new world of the plan to the lines of a text after the plan.
pub fn answers_of(alloc: Global, plan: Plan, lines: &[u8]) -> Result<Vec<u8>, OutOfMemory>
    ensures { IfOk result (λ text. text.items ≡ joined (output_lines plan (lines_of lines.now))) }
{
    let mut world = World::new(alloc, plan)?;
    answers(alloc, &mut world, lines)
}

// The output of an input.
fn output(alloc: Global, input: &[u8]) -> Result<Vec<u8>, PlanText>
    ensures plan { OnOk result (IsOk (plan_of (lines_of input.now))) }
    ensures text { IfOk result (λ text. text.items ≡ out input.now) }
    ensures fault { IfErr result (IsFaultOf (plan_of (lines_of input.now))) }
{
    let (plan, place) = read_plan(alloc, input)?;
    match answers_of(alloc, plan, &input[place..]) {
        Ok(text) => Ok(text),
        Err(refused) => Err(PlanText::Memory(refused)),
    }
}

/// Reads the whole input, of at most [`MOST_INPUT`] bytes, and writes one line for each of its lines after `go`. Nothing
/// is written before all is answered: after `Read`, `TooBig`, `Plan` and `Memory` the writer is as it was. The reader is
/// read at most 16,777,218 times, not again after a failure or once it has given too much; what is read of it is gone.
/// After `Write` a prefix of the output was written. A writer that buffers is flushed by the caller.
pub fn run<R: Read, W: Write>(
    alloc: Global,
    reader: &mut Watched<R>,
    writer: &mut Watched<W>,
) -> Result<(), RunFault>
    requires reader { has_failed reader.old ≡ false }
    requires writer { has_failed writer.old ≡ false }

    // Ok: the input is accepted, and its output was appended.
    ensures accepted { OnOk result (IfSome (R.remaining (inner_of reader.old)) IsAccepted) }
    ensures ok { OnOk result (IfSome (R.remaining (inner_of reader.old)) (λ input.
        Appends (W.contents (inner_of writer.old)) (W.contents (inner_of writer.new)) (out input))) }

    // The lines of that output are the answers to the lines of the input, one for each.
    ensures lines { OnOk result (IfSome (R.remaining (inner_of reader.old)) IsAnswered) }

    // When each fault comes.
    ensures read { IsErrOf result RunFault.Read ↔ (has_failed reader.new ≡ true) }
    ensures big { IsErrOf result RunFault.TooBig → IfSome (R.remaining (inner_of reader.old))
        (λ input. MOST_INPUT < length input) }
    ensures plan { IfErr result (λ e. IfSome (R.remaining (inner_of reader.old))
        (λ input. IsPlanFaultOf input e)) }
    ensures write { IsErrOf result RunFault.Write ↔ (has_failed writer.new ≡ true) }

    // What was written at a fault.
    ensures nothing { IfErr result (λ e. e ≢ RunFault.Write → writer.new ≡ writer.old) }
    ensures answered { IsErrOf result RunFault.Write →
        IfSome (R.remaining (inner_of reader.old)) IsAccepted }
    ensures prefix { IsErrOf result RunFault.Write → IfSome (R.remaining (inner_of reader.old)) (λ input.
        AppendsPrefix (W.contents (inner_of writer.old)) (W.contents (inner_of writer.new)) (out input)) }
{
    let input = read_whole(alloc, reader)?;
    let text = output(alloc, input.as_slice())?;
    write_whole(writer, text.as_slice())?;
    Ok(())
}
