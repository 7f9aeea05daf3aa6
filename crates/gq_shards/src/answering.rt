//! The answers to the lines of a script, by one world or by shards.

ghost use Rattle.std.specs.Prelude.{◌≡◌, ◌≤◌, ◌<◌, ℕ, List, Ok, map, vec_len, false, true, IfOk, IfErr, OnOk, IsErrOf};
ghost use Rattle.std.specs.Io.KnownBytes.{Appends};
ghost use Rattle.gq_shards.specs.declared.merging.AnswersFault.{AnswersFault};
ghost use Rattle.gq_lines.specs.Lines.{lines_of, joined};
ghost use Rattle.gq_script.specs.Out.{output_lines};
ghost use Rattle.gq_streams.specs.Watched.{inner_of, has_failed, AppendsPrefix};
ghost use Rattle.gq_shards.specs.Shards.{of_shard, AreDealt, AreTold, EachTold, IsText, AreAnswers};

use crate::dealing::{Dealt, deal_in_threads};
use crate::lengths::Lengths;
use crate::merging::{AnswersFault, write_told};
use crate::telling::{Told, told_by};
use gq_desk::Plan;
use gq_memory::{GrowVec, OutOfMemory};
use gq_script::answers_of;
use gq_streams::{Watched, write_whole};
use std::alloc::Global;
use std::io::Write;
use std::thread;
use std::thread::Threads;

// The most threads that deal lines out.
const DEALERS: usize = 4;

/// The answers to the lines of a script.
#[derive(Drop)]
pub enum Answers {
    /// Their text, by one world.
    One(Vec<u8>),
    /// Whose each line is, and what each shard tells.
    Shards(Vec<u8>, Vec<Told>),
}

// All values, where each was made.
fn all_of(alloc: Global, tried: Vec<Result<Told, OutOfMemory>>) -> Result<Vec<Told>, OutOfMemory>
    ensures { IfOk result (λ all. map Ok all.items ≡ tried.items) }
{
    let mut all = Vec::new(alloc);
    for told in tried {
        all.grow(told?)?;
    }
    Ok(all)
}

// For each shard, that it tells nothing yet.
fn untold(alloc: Global, shards: usize) -> Result<Vec<Result<Told, OutOfMemory>>, OutOfMemory>
    ensures { IfOk result (λ tried. vec_len tried ≡ shards) }
{
    let mut tried = Vec::new(alloc);
    for _shard in 0..shards {
        tried.grow(Ok(Told {
            text: Vec::new(alloc),
            lengths: Lengths::new(alloc, 0)?,
        }))?;
    }
    Ok(tried)
}

// What each shard tells, each in a thread of its own where one can be made.
fn tried_in_threads<T: Threads + Sync>(
    rt: &T,
    alloc: Global,
    plan: &Plan,
    shards: usize,
    bytes: usize,
    dealt: &Dealt<'_>,
) -> Result<Vec<Result<Told, OutOfMemory>>, OutOfMemory>
    requires some { 1 ≤ shards }
    requires dealt { (lines : List (List ℕ)) × AreDealt plan.now shards lines dealt.now }
    ensures size { IfOk result (λ tried. vec_len tried ≡ shards) }
    ensures told { IfOk result (λ tried. (lines : List (List ℕ)) → AreDealt plan.now shards lines dealt.now →
        EachTold dealt.now.marks.items (output_lines plan.now lines) tried.items) }
{
    let mut tried = untold(alloc, shards)?;
    thread::for_each_mut(
        rt,
        tried.as_mut_slice(),
        shards,
        &|shard: usize, told: &mut Result<Told, OutOfMemory>|
            requires { (shard < shards) × ((lines : List (List ℕ)) × AreDealt plan.now shards lines dealt.now) }
            ensures { IfOk told.exit.now (λ told. (lines : List (List ℕ)) → AreDealt plan.entry.now shards lines dealt.entry.now →
                IsText told.text.items told.lengths
                (of_shard shard dealt.entry.now.marks.items (output_lines plan.entry.now lines))) }
        { *told = told_by(alloc, plan, shards, shard, bytes, dealt) },
    );
    Ok(tried)
}

// What the shards tell.
fn told_in_threads<T: Threads + Sync>(
    rt: &T,
    alloc: Global,
    plan: &Plan,
    shards: usize,
    bytes: usize,
    dealt: &Dealt<'_>,
) -> Result<Vec<Told>, OutOfMemory>
    requires some { 1 ≤ shards }
    requires dealt { (lines : List (List ℕ)) × AreDealt plan.now shards lines dealt.now }
    ensures { IfOk result (λ all. (lines : List (List ℕ)) → AreDealt plan.now shards lines dealt.now →
        AreTold dealt.now.marks.items (output_lines plan.now lines) all.items) }
{
    let tried = tried_in_threads(rt, alloc, plan, shards, bytes, dealt)?;
    all_of(alloc, tried)
}

/// The answers to the lines of a text after the plan, by so many shards, but no more than there are tenants. Fewer than two
/// are one world.
pub fn answers_in_shards<T: Threads + Sync>(
    rt: &T,
    alloc: Global,
    plan: Plan,
    shards: usize,
    lines: &[u8],
) -> Result<Answers, OutOfMemory>
    ensures { IfOk result (λ answers. AreAnswers answers (output_lines plan (lines_of lines.now))) }
{
    let shards = shards.min(plan.tenants());
    if shards < 2 {
        return Ok(Answers::One(answers_of(alloc, plan, lines)?));
    }
    let dealt = deal_in_threads(rt, alloc, &plan, shards, shards.min(DEALERS), lines)?;
    let told = told_in_threads(rt, alloc, &plan, shards, lines.len(), &dealt)?;
    Ok(Answers::Shards(dealt.marks, told))
}

/// Writes the lines of answers. The faults are `Memory`, before the first write, and `Write`, after a prefix was written.
pub fn write_answers<W: Write>(
    alloc: Global,
    writer: &mut Watched<W>,
    answers: &Answers,
) -> Result<(), AnswersFault>
    requires fine { has_failed writer.old ≡ false }
    requires answers { (lines : List (List ℕ)) × AreAnswers answers.now lines }
    ensures ok { OnOk result ((lines : List (List ℕ)) → AreAnswers answers.now lines →
        Appends (W.contents (inner_of writer.old)) (W.contents (inner_of writer.new)) (joined lines)) }
    ensures fine { OnOk result (has_failed writer.new ≡ false) }
    ensures failed { IsErrOf result AnswersFault.Write → has_failed writer.new ≡ true }
    ensures nothing { IsErrOf result (AnswersFault.Memory tt) → writer.new ≡ writer.old }
    ensures prefix { IsErrOf result AnswersFault.Write → (lines : List (List ℕ)) → AreAnswers answers.now lines →
        AppendsPrefix (W.contents (inner_of writer.old)) (W.contents (inner_of writer.new)) (joined lines) }
{
    match answers {
        Answers::One(text) => write_whole(writer, text.as_slice())?,
        Answers::Shards(marks, told) => write_told(
            alloc,
            writer,
            marks.as_slice(),
            told.as_slice(),
        )?,
    }
    Ok(())
}
