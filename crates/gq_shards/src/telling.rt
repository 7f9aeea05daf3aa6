//! What one shard tells.

ghost use Rattle.std.specs.Prelude.{◌≡◌, ◌≤◌, ◌<◌, ◌∷◌, ◌++◌, [], true, ℕ, List, length, IfOk, OnOk};
ghost use Rattle.gq_model.specs.declared.events.Event.{Event};
ghost use Rattle.gq_model.specs.Events.{IsIn};
ghost use Rattle.gq_world.specs.Tables.{Stands};
ghost use Rattle.gq_model.specs.Shown.{shown};
ghost use Rattle.gq_text.specs.AnswerText.{answer_line};
ghost use Rattle.gq_text.specs.Input.{event_cut};
ghost use Rattle.gq_script.specs.Out.{line_cut, output_lines};
ghost use Rattle.gq_shards.specs.Shards.{mark_of, of_shard, sees_mark, tells, AreDealt, AreListed, IsPart, IsText, IsTold, IsUntold};

use crate::dealing::Dealt;
use crate::lengths::{FIRST_LENGTH, Lengths};
use crate::parts::part_of;
use gq_desk::Plan;
use gq_lines::cut_line;
use gq_memory::{OutOfMemory, room_for};
use gq_model::{Answer, Event};
use gq_text::{QuorumText, read_cut_line, write_next_answer};
use gq_world::{Ended, World};
use std::alloc::Global;

/// The lines that a shard tells: their text, and the length of each.
#[derive(Drop)]
pub struct Told {
    pub text: Vec<u8>,
    pub lengths: Lengths,
}

// Appends the line of the answer to an event.
#[inline(always)]
fn tell(
    plan: &Plan,
    event: &Event,
    answer: &Answer,
    quorum: &mut QuorumText,
    text: &mut Vec<u8>,
    lengths: &mut Lengths,
) -> Result<(), OutOfMemory>
    requires event { IsIn plan.now event.now }
    requires grid { quorum.old.grid ≡ plan.now.grid }
    ensures grid { quorum.new.grid ≡ quorum.old.grid }
    ensures text { OnOk result (text.new.items ≡ text.old.items ++ answer_line plan.now event.now (shown answer.now)) }
    ensures lengths { OnOk result ((old : List ℕ) → AreListed lengths.old old →
        AreListed lengths.new (old ++ length (answer_line plan.now event.now (shown answer.now)) ∷ [])) }
{
    let start = text.len();
    write_next_answer(plan, event, answer, quorum, text)?;
    lengths.grow(&text[start..])
}

// Whether the shard tells the answer to the event of a line that it sees.
#[inline(always)]
fn is_told(shard: usize, event: &Event) -> bool
    ensures { (shards : ℕ) → sees_mark shard (mark_of shards event.now) ≡ true → result ≡ tells shard (mark_of shards event.now) }
{
    match event {
        Event::Server { .. } => shard == 0,
        _ => true,
    }
}

// Answers a line that the shard sees, and tells the answer where the line is its own. (The compiler takes no call into a loop that
// would make it very large: what is rare, as `Lengths::grow_far`, is a call.)
#[inline(always)]
fn next(
    alloc: Global,
    world: &mut World,
    shard: usize,
    first: &[u8],
    words: &[u8],
    quorum: &mut QuorumText,
    text: &mut Vec<u8>,
    lengths: &mut Lengths,
) -> Result<(), OutOfMemory>
    requires grid { quorum.old.grid ≡ world.old.tables.plan.grid }
    ensures grid { quorum.new.grid ≡ quorum.old.grid }
    ensures plan { world.new.tables.plan ≡ world.old.tables.plan }
    ensures stands { OnOk result ((before : List Event) → Stands world.old.tables before →
        Stands world.new.tables (before ++ event_cut world.old.tables.plan first.now words.now ∷ [])) }
    ensures silent { OnOk result ((shards : ℕ) → IsUntold shards shard (event_cut world.old.tables.plan first.now words.now) →
        (text.new.items ≡ text.old.items) × (lengths.new ≡ lengths.old)) }
    ensures text { OnOk result ((shards : ℕ) (before : List Event) → IsTold shards shard (event_cut world.old.tables.plan first.now words.now) →
        Stands world.old.tables before →
        text.new.items ≡ text.old.items ++ line_cut world.old.tables.plan before first.now words.now) }
    ensures lengths { OnOk result ((shards : ℕ) (before : List Event) (old : List ℕ) → IsTold shards shard (event_cut world.old.tables.plan first.now words.now) →
        Stands world.old.tables before → AreListed lengths.old old →
        AreListed lengths.new (old ++ length (line_cut world.old.tables.plan before first.now words.now) ∷ [])) }
{
    let event = read_cut_line(alloc, first, words, world.plan())?;
    let answer = match world.step(&event) {
        Ok(answer) => answer,
        Err(Ended(refused)) => return Err(refused),
    };
    if is_told(shard, &event) {
        tell(world.plan(), &event, &answer, quorum, text, lengths)?;
    }
    drop(event);
    drop(answer);
    Ok(())
}

// A world of the shard's plan, and what the shard tells before the first line. The lists begin with the room that a shard's part
// of the lines may need: a short list that grows is copied from place to place, and leaves holes in memory behind.
fn start_shard(
    alloc: Global,
    plan: &Plan,
    shards: usize,
    shard: usize,
    bytes: usize,
    lines: usize,
) -> Result<(World, Told), OutOfMemory>
    requires { 1 ≤ shards }
    ensures part { IfOk result (λ start. IsPart shards shard plan.now start.0.tables.plan) }
    ensures stands { IfOk result (λ start. Stands start.0.tables []) }
    ensures text { IfOk result (λ start. start.1.text.items ≡ []) }
    ensures lengths { IfOk result (λ start. AreListed start.1.lengths []) }
{
    let told = Told {
        text: room_for(alloc, bytes / shards)?,
        lengths: Lengths::new(alloc, lines / shards)?,
    };
    let part = part_of(alloc, plan, shards, shard)?;
    let world = World::new(alloc, part)?;
    Ok((world, told))
}

/// Answers the lines of a script that the shard sees, and tells the answers to its own. The bytes of the script say how much room
/// to begin with, and nothing else.
#[inline(never)]
pub fn told_by(
    alloc: Global,
    plan: &Plan,
    shards: usize,
    shard: usize,
    bytes: usize,
    dealt: &Dealt<'_>,
) -> Result<Told, OutOfMemory>
    requires shard { shard < shards }
    requires dealt { (lines : List (List ℕ)) × AreDealt plan.now shards lines dealt.now }
    ensures { IfOk result (λ told. (lines : List (List ℕ)) → AreDealt plan.now shards lines dealt.now →
        IsText told.text.items told.lengths (of_shard shard dealt.now.marks.items (output_lines plan.now lines))) }
{
    let (mut world, mut told) = start_shard(alloc, plan, shards, shard, bytes, dealt.marks.len())?;
    let mut quorum = QuorumText::new(alloc, *plan.grid());
    for section in dealt.sections.as_slice() {
        let gaps = &section.ways[shard].gaps;
        let mut place = FIRST_LENGTH;
        let mut rest = section.lines;
        while place.near < gaps.near.len() {
            let (gap, after) = gaps.next_length(place);
            let (first, words, behind) = cut_line(&rest[gap..]);
            next(
                alloc,
                &mut world,
                shard,
                first,
                words,
                &mut quorum,
                &mut told.text,
                &mut told.lengths,
            )?;
            place = after;
            rest = behind;
        }
    }
    Ok(told)
}
