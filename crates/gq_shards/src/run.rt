//! A whole script, from a reader to a writer, answered in shards.

ghost use Rattle.std.specs.Prelude.{◌≡◌, ◌≢◌, ◌↔◌, ◌<◌, true, false, length, IfOk, IfErr, IfSome, OnOk, OnErr, IsOk, IsErrOf};
ghost use Rattle.std.specs.Io.KnownBytes.{Appends};
ghost use Rattle.gq_script.specs.declared.script.TheConstants.{MOST_INPUT};
ghost use Rattle.gq_script.specs.declared.script.RunFault.{RunFault};
ghost use Rattle.gq_lines.specs.Lines.{lines_of};
ghost use Rattle.gq_text.specs.PlanText.{plan_of, IsFaultOf};
ghost use Rattle.gq_script.specs.Alone.{IsAnswered};
ghost use Rattle.gq_script.specs.Out.{out, IsAccepted, IsPlanFaultOf};
ghost use Rattle.gq_streams.specs.Watched.{inner_of, has_failed, AppendsPrefix};
ghost use Rattle.gq_shards.specs.Shards.{out_lines, AreAnswers};

use crate::answering::{Answers, answers_in_shards, write_answers};
use gq_script::{RunFault, read_whole};
use gq_streams::Watched;
use gq_text::{PlanText, read_plan};
use std::alloc::Global;
use std::io::{Read, Write};
use std::thread::Threads;

/// An input of fewer bytes is answered by one world sooner than threads are started.
pub const SHORT: usize = 262_144;

// The answers to the lines of an input.
fn answers_to<T: Threads + Sync>(
    rt: &T,
    alloc: Global,
    shards: usize,
    input: &[u8],
) -> Result<Answers, PlanText>
    ensures plan { OnOk result (IsOk (plan_of (lines_of input.now))) }
    ensures answers { IfOk result (λ answers. AreAnswers answers (out_lines input.now)) }
    ensures fault { IfErr result (IsFaultOf (plan_of (lines_of input.now))) }
{
    let (plan, place) = read_plan(alloc, input)?;
    match answers_in_shards(rt, alloc, plan, shards, &input[place..]) {
        Ok(answers) => Ok(answers),
        Err(refused) => Err(PlanText::Memory(refused)),
    }
}

/// Does what [`gq_script::run`] does, and answers the lines of the tenants in so many shards, side by side, but in no more
/// than there are tenants, and by one world where the input has fewer than `least` bytes or the shards are fewer than two. Where
/// a thread can't be started, its shard is answered in the thread that would have started it.
pub fn run_in_shards<T: Threads + Sync, R: Read, W: Write>(
    rt: &T,
    alloc: Global,
    shards: usize,
    least: usize,
    reader: &mut Watched<R>,
    writer: &mut Watched<W>,
) -> Result<(), RunFault>
    requires reader { has_failed reader.old ≡ false }
    requires writer { has_failed writer.old ≡ false }

    // Ok: the input is accepted, and its output was appended.
    ensures accepted { OnOk result (IfSome (R.remaining (inner_of reader.old)) IsAccepted) }
    ensures ok { OnOk result (IfSome (R.remaining (inner_of reader.old)) (λ input.
        Appends (W.contents (inner_of writer.old)) (W.contents (inner_of writer.new)) (out input))) }

    // The lines of that output are the answers to the lines of the input, one for each.
    ensures lines { OnOk result (IfSome (R.remaining (inner_of reader.old)) IsAnswered) }

    // When each fault comes.
    ensures read { IsErrOf result RunFault.Read ↔ (has_failed reader.new ≡ true) }
    ensures big { IsErrOf result RunFault.TooBig → IfSome (R.remaining (inner_of reader.old))
        (λ input. MOST_INPUT < length input) }
    ensures plan { IfErr result (λ e. IfSome (R.remaining (inner_of reader.old))
        (λ input. IsPlanFaultOf input e)) }
    ensures write { IsErrOf result RunFault.Write ↔ (has_failed writer.new ≡ true) }

    // What was written at a fault.
    ensures nothing { IfErr result (λ e. e ≢ RunFault.Write → writer.new ≡ writer.old) }
    ensures answered { IsErrOf result RunFault.Write →
        IfSome (R.remaining (inner_of reader.old)) IsAccepted }
    ensures prefix { IsErrOf result RunFault.Write → IfSome (R.remaining (inner_of reader.old)) (λ input.
        AppendsPrefix (W.contents (inner_of writer.old)) (W.contents (inner_of writer.new)) (out input)) }
{
    let input = read_whole(alloc, reader)?;
    let shards = if input.len() < least { 1 } else { shards };
    let answers = answers_to(rt, alloc, shards, input.as_slice())?;
    write_answers(alloc, writer, &answers)?;
    Ok(())
}
