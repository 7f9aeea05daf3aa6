//! A script whose lines are answered as they come.

ghost use Rattle.std.specs.Prelude.{◌≡◌, ◌≢◌, ◌↔◌, ◌++◌, ◌<◌, ◌≤◌, [], List, ℕ, false, true, length, vec_len, map, take, IfOk, IfErr, IfSome, OnOk, OnErr, IsOk, IsErr, IsErrOf};
ghost use Rattle.std.specs.Io.KnownBytes.{Appends, Consumes};

use crate::notice::Notice;
use crate::script::{CHUNK, MOST_INPUT, MOST_TURNS, RunFault, answers, blank, read_step};
use gq_desk::Plan;
use gq_lines::first_line;
use gq_memory::OutOfMemory;
use gq_streams::{Watched, WriteFault, write_whole};
use gq_text::{PlanText, TextFault, is_room, read_plan, row_told};
use gq_world::World;
use memchr::memrchr;
use std::alloc::Global;
use std::io::{Read, Write};

// How far the lines that were read have come.
#[derive(Drop)]
enum Stage {
    // The plan misses lines, of which this was the first when it was last tried.
    Plan(u64),
    // The plan was accepted. The world answered the lines after it.
    Lines(World),
}

// Why lines were not answered, or their answers not written.
#[derive(Drop)]
enum TellFault {
    // The lines give no plan, or memory is wanting.
    Lines(PlanText),
    // The writer failed.
    Write,
}

impl From<PlanText> for TellFault {
    ghost use Rattle.gq_script.specs.declared.stepping.TellFault.TheVariants.{Lines};

    ghost from_gives = { λ fault e. e ≡ Lines fault };

    fn from(fault: PlanText) -> TellFault {
        TellFault::Lines(fault)
    }
}

impl From<WriteFault> for TellFault {
    ghost use Rattle.gq_script.specs.declared.stepping.TellFault.TheVariants.{Write};

    ghost from_gives = { λ fault e. e ≡ Write };

    fn from(_: WriteFault) -> TellFault {
        TellFault::Write
    }
}

impl From<TellFault> for RunFault {
    ghost use Rattle.gq_script.specs.Stepping.{of_telling};

    ghost from_gives = { λ fault e. e ≡ of_telling fault };

    fn from(fault: TellFault) -> RunFault {
        match fault {
            TellFault::Lines(fault) => RunFault::from(fault),
            TellFault::Write => RunFault::Write,
        }
    }
}

ghost use Rattle.memchr.specs.Find.{Nowhere, Passes, is_byte};
ghost use Rattle.gq_world.specs.Tables.{Stands};
ghost use Rattle.gq_text.specs.Input.{event_of};
ghost use Rattle.gq_lines.specs.Lines.{lines_of, joined};
ghost use Rattle.gq_text.specs.PlanText.{plan_of, IsFaultOf};
ghost use Rattle.gq_script.specs.Out.{output_lines, out, IsAccepted};
ghost use Rattle.gq_script.specs.Alone.{IsAnswered};
ghost use Rattle.gq_script.specs.Stepping.{AllEnded, AnswersEnded, IsPlanFaultIn, IsOfPlan, IsFinal, IsLast, IsTellFaultOf, room_in, MissesGo, HasAnswered};
ghost use Rattle.gq_streams.specs.Watched.{inner_of, has_failed, AppendsPrefix};

// Lines 1 and 2 are no rows of tenants.
const FIRST_ROW: u64 = 3;

// Whether the second line of a text is one of `room`.
fn has_room(text: &[u8]) -> bool
    ensures { result ≡ room_in (lines_of text.now) }
{
    if text.is_empty() {
        return false;
    }
    let (_, rest) = first_line(text);
    if rest.is_empty() {
        return false;
    }
    let (second, _) = first_line(rest);
    is_room(second)
}

// Whether each line is the row of a tenant, in a plan with room or not, so that the plan goes on and tells no fault yet.
fn are_rows(room: bool, text: &[u8]) -> bool
    ensures { result ≡ true → MissesGo room (lines_of text.now) }
{
    let mut rest = text;
    while !rest.is_empty() {
        let (line, after) = first_line(rest);
        if line == b"go".as_slice() {
            return false;
        }
        if row_told(room, line).is_none() {
            return false;
        }
        rest = after;
    }
    true
}

// A new world of the plan, and its answers to the lines after the plan.
fn begin(alloc: Global, plan: Plan, lines: &[u8]) -> Result<(World, Vec<u8>), OutOfMemory>
    ensures plan { IfOk result (λ begun. begun.0.tables.plan ≡ plan) }
    ensures stands { IfOk result (λ begun. Stands begun.0.tables (map (event_of plan) (lines_of lines.now))) }
    ensures text { IfOk result (λ begun. begun.1.items ≡ joined (output_lines plan (lines_of lines.now))) }
{
    let mut world = World::new(alloc, plan)?;
    match answers(alloc, &mut world, lines) {
        Ok(text) => Ok((world, text)),
        Err(refused) => Err(refused),
    }
}

// What comes of the lines where the plan is tried with them, and their output.
fn try_plan(alloc: Global, text: &[u8], is_end: bool) -> Result<(Stage, Vec<u8>), PlanText>
    ensures after { IfOk result (λ tried. HasAnswered tried.0 (lines_of text.now)) }
    ensures text { IfOk result (λ tried. tried.1.items ≡ out text.now) }
    ensures plan { is_end ≡ true → OnOk result (IsOk (plan_of (lines_of text.now))) }
    ensures fault { IfErr result (IsFaultOf (plan_of (lines_of text.now))) }
    ensures known { is_end ≡ false → IfErr result IsFinal }
{
    match read_plan(alloc, text) {
        Ok((plan, place)) => match begin(alloc, plan, &text[place..]) {
            Ok((world, told)) => Ok((Stage::Lines(world), told)),
            Err(refused) => Err(PlanText::Memory(refused)),
        },
        Err(
            PlanText::Fault {
                line,
                fault: TextFault::End,
            },
        ) if !is_end => Ok((Stage::Plan(line), Vec::new(alloc))),
        Err(fault) => Err(fault),
    }
}

// Tells that lines are awaited, where the plan was accepted before the input ended.
fn announce<N: Notice>(notice: &N, stage: &Stage, is_end: bool) {
    if let Stage::Lines(_) = stage {
        if !is_end {
            notice.lines_awaited();
        }
    }
}

// The answers to the lines from place `done` on, those before being answered.
fn answers_from<N: Notice>(
    alloc: Global,
    notice: &N,
    stage: &mut Stage,
    text: &[u8],
    done: usize,
    is_end: bool,
) -> Result<Vec<u8>, PlanText>
    requires within { done ≤ length text.now }
    requires ends { AllEnded (take done text.now) }
    requires after { HasAnswered stage.old (lines_of (take done text.now)) }
    ensures after { OnOk result (HasAnswered stage.new (lines_of text.now)) }
    ensures text { IfOk result (λ told. out text.now ≡ out (take done text.now) ++ told.items) }
    ensures plan { is_end ≡ true → OnOk result (IsOk (plan_of (lines_of text.now))) }
    ensures fault { IfErr result (IsFaultOf (plan_of (lines_of text.now))) }
    ensures known { is_end ≡ false → IfErr result IsFinal }
{
    match stage {
        Stage::Lines(world) => match answers(alloc, world, &text[done..]) {
            Ok(told) => Ok(told),
            Err(refused) => Err(PlanText::Memory(refused)),
        },
        Stage::Plan(missing) => {
            if !is_end
                && *missing >= FIRST_ROW
                && are_rows(has_room(&text[..done]), &text[done..])
            {
                return Ok(Vec::new(alloc));
            }
            match try_plan(alloc, text, is_end) {
                Ok((next, told)) => {
                    announce(notice, &next, is_end);
                    *stage = next;
                    Ok(told)
                }
                Err(fault) => Err(fault),
            }
        }
    }
}

// Answers the lines from place `done` on, those before being answered, and writes the answers at once. At the end of the
// input the plan has to be there, and the last line may miss its newline.
fn tell<N: Notice, W: Write>(
    alloc: Global,
    notice: &N,
    writer: &mut Watched<W>,
    stage: &mut Stage,
    text: &[u8],
    done: usize,
    is_end: bool,
) -> Result<(), TellFault>
    requires fine { has_failed writer.old ≡ false }
    requires within { done ≤ length text.now }
    requires ends { AllEnded (take done text.now) }
    requires after { HasAnswered stage.old (lines_of (take done text.now)) }
    ensures after { OnOk result (HasAnswered stage.new (lines_of text.now)) }
    ensures written { OnOk result ((told : List ℕ) × (out text.now ≡ out (take done text.now) ++ told) ×
        Appends (W.contents (inner_of writer.old)) (W.contents (inner_of writer.new)) told) }
    ensures plan { is_end ≡ true → OnOk result (IsOk (plan_of (lines_of text.now))) }
    ensures fine { OnOk result (has_failed writer.new ≡ false) }
    ensures nothing { IsErr (plan_of (lines_of text.now)) → writer.new ≡ writer.old }
    ensures fault { IfErr result (IsTellFaultOf (lines_of text.now)) }
    ensures known { is_end ≡ false → IfErr result IsLast }
    ensures write { IsErrOf result TellFault.Write ↔ (has_failed writer.new ≡ true) }
    ensures still { IfErr result (λ e. e ≢ TellFault.Write → writer.new ≡ writer.old) }
    ensures prefix { IsErrOf result TellFault.Write → (told : List ℕ) × (out text.now ≡ out (take done text.now) ++ told) ×
        AppendsPrefix (W.contents (inner_of writer.old)) (W.contents (inner_of writer.new)) told }
{
    let told = answers_from(alloc, notice, stage, text, done, is_end)?;
    if told.is_empty() {
        return Ok(());
    }
    write_whole(writer, told.as_slice())?;
    Ok(())
}

// The place behind the last line that has ended. Up to `done` lines have ended, and from there up to `begun` none.
fn end_of_lines(text: &[u8], done: usize, begun: usize) -> usize
    requires order { done ≤ begun }
    requires within { begun ≤ length text.now }
    requires ends { AllEnded (take done text.now) }
    requires none { Nowhere (Passes (is_byte 10) text.now) done begun }
    ensures least { done ≤ result }
    ensures within { result ≤ length text.now }
    ensures ends { AllEnded (take result text.now) }
    ensures none { Nowhere (Passes (is_byte 10) text.now) result (length text.now) }
{
    match memrchr(b'\n', &text[begun..]) {
        Some(place) => begun + place + 1,
        None => done,
    }
}

// The turns of `step`, with a chunk to read into, where nothing is held and no line was answered. (It is lent what `step` owns,
// since a proof follows what a function owns along each way out of it.)
fn step_with<R: Read, W: Write, N: Notice>(
    alloc: Global,
    notice: &N,
    reader: &mut Watched<R>,
    writer: &mut Watched<W>,
    chunk: &mut [u8],
    held: &mut Vec<u8>,
    stage: &mut Stage,
) -> Result<(), RunFault>
    requires reader { has_failed reader.old ≡ false }
    requires writer { has_failed writer.old ≡ false }
    requires room { 0 < length chunk.old }
    requires held { held.old.items ≡ [] }
    requires stage { HasAnswered stage.old [] }

    // Ok: the input is accepted, and its output was appended.
    ensures accepted { OnOk result (IfSome (R.remaining (inner_of reader.old)) IsAccepted) }
    ensures ok { OnOk result (IfSome (R.remaining (inner_of reader.old)) (λ input.
        Appends (W.contents (inner_of writer.old)) (W.contents (inner_of writer.new)) (out input))) }

    // When each fault comes.
    ensures read { IsErrOf result RunFault.Read ↔ (has_failed reader.new ≡ true) }
    ensures big { IsErrOf result RunFault.TooBig → IfSome (R.remaining (inner_of reader.old))
        (λ input. MOST_INPUT < length input) }
    ensures plan { IfErr result (λ e. IfSome (R.remaining (inner_of reader.old))
        (λ input. IsPlanFaultIn (lines_of input) e)) }
    ensures write { IsErrOf result RunFault.Write ↔ (has_failed writer.new ≡ true) }

    // What was written at a fault.
    ensures prefix { OnErr result (IfSome (R.remaining (inner_of reader.old)) (λ input.
        AppendsPrefix (W.contents (inner_of writer.old)) (W.contents (inner_of writer.new)) (out input))) }
    ensures nothing { OnErr result (IfSome (R.remaining (inner_of reader.old)) (λ input.
        IsErr (plan_of (lines_of input)) → writer.new ≡ writer.old)) }
    ensures untouched { IfErr result (λ e. IsOfPlan e → writer.new ≡ writer.old) }
    ensures answered { IsErrOf result RunFault.Read → (input : List ℕ) ×
        Consumes (R.remaining (inner_of reader.old)) (R.remaining (inner_of reader.new)) input ×
        AnswersEnded input (W.contents (inner_of writer.old)) (W.contents (inner_of writer.new)) }
{
    let mut done = 0;
    for _turn in 0..MOST_TURNS {
        let begun = held.len();
        if !read_step(reader, chunk, held)? {
            tell(alloc, notice, writer, stage, held.as_slice(), done, true)?;
            return Ok(());
        }
        let end = end_of_lines(held.as_slice(), done, begun);
        tell(alloc, notice, writer, stage, &held[..end], done, false)?;
        done = end;
    }
    unreachable!()
}

/// Reads an input of at most [`MOST_INPUT`] bytes, and answers each line after `go` once it has ended, before it reads on:
/// what one read brought is answered by one write. A fault of the plan is told once its line has ended. At the end of the
/// input what was written is the output of [`crate::run`]. At each fault it is a prefix of that: after `Read` the answers to
/// all lines that had ended, after `Plan` nothing, after `Write` what the writer took. After `TooBig` and `Memory` the lines
/// that the last read ended are not answered. The reader is read at most 16,777,218 times, not again after a fault; what is
/// read of it is gone. A writer that buffers is not flushed between the lines.
pub fn step<R: Read, W: Write, N: Notice>(
    alloc: Global,
    notice: &N,
    reader: &mut Watched<R>,
    writer: &mut Watched<W>,
) -> Result<(), RunFault>
    requires reader { has_failed reader.old ≡ false }
    requires writer { has_failed writer.old ≡ false }

    // Ok: the input is accepted, and its output was appended.
    ensures accepted { OnOk result (IfSome (R.remaining (inner_of reader.old)) IsAccepted) }
    ensures ok { OnOk result (IfSome (R.remaining (inner_of reader.old)) (λ input.
        Appends (W.contents (inner_of writer.old)) (W.contents (inner_of writer.new)) (out input))) }

    // The lines of that output are the answers to the lines of the input, one for each.
    ensures lines { OnOk result (IfSome (R.remaining (inner_of reader.old)) IsAnswered) }

    // When each fault comes.
    ensures read { IsErrOf result RunFault.Read ↔ (has_failed reader.new ≡ true) }
    ensures big { IsErrOf result RunFault.TooBig → IfSome (R.remaining (inner_of reader.old))
        (λ input. MOST_INPUT < length input) }
    ensures plan { IfErr result (λ e. IfSome (R.remaining (inner_of reader.old))
        (λ input. IsPlanFaultIn (lines_of input) e)) }
    ensures write { IsErrOf result RunFault.Write ↔ (has_failed writer.new ≡ true) }

    // What was written at a fault.
    ensures prefix { OnErr result (IfSome (R.remaining (inner_of reader.old)) (λ input.
        AppendsPrefix (W.contents (inner_of writer.old)) (W.contents (inner_of writer.new)) (out input))) }
    ensures nothing { OnErr result (IfSome (R.remaining (inner_of reader.old)) (λ input.
        IsErr (plan_of (lines_of input)) → writer.new ≡ writer.old)) }
    ensures untouched { IfErr result (λ e. IsOfPlan e → writer.new ≡ writer.old) }
    ensures answered { IsErrOf result RunFault.Read → (input : List ℕ) ×
        Consumes (R.remaining (inner_of reader.old)) (R.remaining (inner_of reader.new)) input ×
        AnswersEnded input (W.contents (inner_of writer.old)) (W.contents (inner_of writer.new)) }
{
    let mut chunk = blank(alloc, CHUNK)?;
    let mut held = Vec::new(alloc);
    let mut stage = Stage::Plan(1);
    step_with(
        alloc,
        notice,
        reader,
        writer,
        chunk.as_mut_slice(),
        &mut held,
        &mut stage,
    )
}
