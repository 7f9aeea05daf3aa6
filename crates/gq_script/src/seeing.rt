//! Lines that are answered, and what one tenant sees of them, which is kept.

ghost use Rattle.std.specs.Prelude.{◌≡◌, ◌++◌, [], ◌∷◌, List, true, false, Some, length, map, IfOk, OnOk};
ghost use Rattle.gq_model.specs.declared.events.Answer.{Answer};
ghost use Rattle.gq_model.specs.declared.events.Event.{Event};
ghost use Rattle.gq_model.specs.Events.{IsIn, answer_to};
ghost use Rattle.gq_model.specs.Shown.{shown};
ghost use Rattle.gq_order.specs.Runs.{IsRun};
ghost use Rattle.gq_world.specs.Tables.{Stands};
ghost use Rattle.gq_text.specs.AnswerText.{answer_line};
ghost use Rattle.gq_text.specs.Input.{event_cut, event_of, event_of_words};
ghost use Rattle.gq_lines.specs.Lines.{lines_of, joined};
ghost use Rattle.gq_script.specs.Out.{line_cut, output_lines};
ghost use Rattle.gq_script.specs.Seeing.{is_seen, seen_events, seen_places};
ghost use Rattle.gq_lines.specs.Words.{Word};

use gq_desk::Plan;
use gq_lines::cut_line;
use gq_memory::{GrowVec, OutOfMemory};
use gq_text::{QuorumText, read_cut_line, write_next_answer};
use gq_world::{Answer, Ended, Event, World};
use std::alloc::Global;

/// What was answered to lines: the text of the answers; the events that one tenant saw with their answers and their places
/// among all, from 0; and how many lines there were.
#[derive(Drop)]
pub struct Answered {
    pub text: Vec<u8>,
    pub events: Vec<Event>,
    pub answers: Vec<Answer>,
    pub places: Vec<usize>,
    pub lines: usize,
}

// Whether the tenant sees a line that begins with the word: it is its own, or a server line.
#[inline(always)]
#[tactic(auto, unfolding(gq_text::specs::Input::event_of_words))]
fn sees_line(plan: &Plan, tenant: u8, first: &[u8]) -> bool
    ensures { (words : List Word) → result ≡ is_seen (Some tenant) (event_of_words plan.now (first.now ∷ words)) }
{
    if first == b"server".as_slice() {
        return true;
    }
    match plan.find_word(first) {
        Some(other) => other == tenant,
        None => false,
    }
}

// Appends the answer, where answers are told.
#[inline(always)]
fn tell(
    tells: bool,
    plan: &Plan,
    event: &Event,
    answer: &Answer,
    last: &mut QuorumText,
    out: &mut Vec<u8>,
) -> Result<(), OutOfMemory>
    requires event { IsIn plan.now event.now }
    requires grid { last.old.grid ≡ plan.now.grid }
    ensures grid { last.new.grid ≡ last.old.grid }
    ensures ok { OnOk result (tells ≡ true → out.new.items ≡
        out.old.items ++ answer_line plan.now event.now (shown answer.now)) }
{
    if tells {
        write_next_answer(plan, event, answer, last, out)
    } else {
        Ok(())
    }
}

// Answers a line that the tenant sees, and keeps its event, its answer and its place.
#[inline(never)]
fn keep_line(
    alloc: Global,
    world: &mut World,
    first: &[u8],
    words: &[u8],
    tells: bool,
    quorum: &mut QuorumText,
    answered: &mut Answered,
) -> Result<(), OutOfMemory>
    requires grid { quorum.old.grid ≡ world.old.tables.plan.grid }
    ensures grid { quorum.new.grid ≡ quorum.old.grid }
    ensures plan { world.new.tables.plan ≡ world.old.tables.plan }
    ensures stands { OnOk result ((before : List Event) → Stands world.old.tables before →
        Stands world.new.tables (before ++ event_cut world.old.tables.plan first.now words.now ∷ [])) }
    ensures text { OnOk result (tells ≡ true → (before : List Event) → Stands world.old.tables before →
        answered.new.text.items ≡ answered.old.text.items ++ line_cut world.old.tables.plan before first.now words.now) }
    ensures events { OnOk result (answered.new.events.items ≡
        answered.old.events.items ++ event_cut world.old.tables.plan first.now words.now ∷ []) }
    ensures answers { OnOk result ((answer : Answer) × (answered.new.answers.items ≡ answered.old.answers.items ++ answer ∷ []) ×
        ((before : List Event) → Stands world.old.tables before →
        shown answer ≡ answer_to world.old.tables.plan before (event_cut world.old.tables.plan first.now words.now))) }
    ensures places { OnOk result (answered.new.places.items ≡ answered.old.places.items ++ answered.old.lines ∷ []) }
    ensures lines { OnOk result (answered.new.lines ≡ answered.old.lines) }
{
    let event = read_cut_line(alloc, first, words, world.plan())?;
    let answer = match world.step(&event) {
        Ok(answer) => answer,
        Err(Ended(refused)) => return Err(refused),
    };
    tell(
        tells,
        world.plan(),
        &event,
        &answer,
        quorum,
        &mut answered.text,
    )?;
    answered.events.grow(event)?;
    answered.answers.grow(answer)?;
    answered.places.grow(answered.lines)
}

// Answers a line that the tenant does not see. It is taken into the loop, so that neither its event nor its answer has to lie in
// memory whole (docs/DECISIONS.md, Speed).
#[inline(always)]
fn pass_line(
    alloc: Global,
    world: &mut World,
    first: &[u8],
    words: &[u8],
    tells: bool,
    quorum: &mut QuorumText,
    text: &mut Vec<u8>,
) -> Result<(), OutOfMemory>
    requires grid { quorum.old.grid ≡ world.old.tables.plan.grid }
    ensures grid { quorum.new.grid ≡ quorum.old.grid }
    ensures plan { world.new.tables.plan ≡ world.old.tables.plan }
    ensures stands { OnOk result ((before : List Event) → Stands world.old.tables before →
        Stands world.new.tables (before ++ event_cut world.old.tables.plan first.now words.now ∷ [])) }
    ensures text { OnOk result (tells ≡ true → (before : List Event) → Stands world.old.tables before →
        text.new.items ≡ text.old.items ++ line_cut world.old.tables.plan before first.now words.now) }
{
    let event = read_cut_line(alloc, first, words, world.plan())?;
    let answer = match world.step(&event) {
        Ok(answer) => answer,
        Err(Ended(refused)) => return Err(refused),
    };
    tell(tells, world.plan(), &event, &answer, quorum, text)?;
    drop(event);
    drop(answer);
    Ok(())
}

// Answers a line, and keeps what the tenant sees of it.
#[inline(always)]
fn next_line(
    alloc: Global,
    world: &mut World,
    first: &[u8],
    words: &[u8],
    tenant: u8,
    tells: bool,
    quorum: &mut QuorumText,
    answered: &mut Answered,
) -> Result<(), OutOfMemory>
    requires grid { quorum.old.grid ≡ world.old.tables.plan.grid }
    ensures grid { quorum.new.grid ≡ quorum.old.grid }
    ensures plan { world.new.tables.plan ≡ world.old.tables.plan }
    ensures stands { OnOk result ((before : List Event) → Stands world.old.tables before →
        Stands world.new.tables (before ++ event_cut world.old.tables.plan first.now words.now ∷ [])) }
    ensures text { OnOk result (tells ≡ true → (before : List Event) → Stands world.old.tables before →
        answered.new.text.items ≡ answered.old.text.items ++ line_cut world.old.tables.plan before first.now words.now) }
    ensures events { OnOk result (answered.new.events.items ≡ answered.old.events.items ++
        seen_events (Some tenant) (event_cut world.old.tables.plan first.now words.now ∷ [])) }
    ensures seen { OnOk result (is_seen (Some tenant) (event_cut world.old.tables.plan first.now words.now) ≡ true →
        (answer : Answer) × (answered.new.answers.items ≡ answered.old.answers.items ++ answer ∷ []) ×
        ((before : List Event) → Stands world.old.tables before →
        shown answer ≡ answer_to world.old.tables.plan before (event_cut world.old.tables.plan first.now words.now))) }
    ensures unseen { OnOk result (is_seen (Some tenant) (event_cut world.old.tables.plan first.now words.now) ≡ false →
        answered.new.answers.items ≡ answered.old.answers.items) }
    ensures places { OnOk result (answered.new.places.items ≡ answered.old.places.items ++
        seen_places (Some tenant) answered.old.lines (event_cut world.old.tables.plan first.now words.now ∷ [])) }
    ensures lines { OnOk result (answered.new.lines ≡ answered.old.lines) }
{
    if sees_line(world.plan(), tenant, first) {
        keep_line(alloc, world, first, words, tells, quorum, answered)
    } else {
        pass_line(
            alloc,
            world,
            first,
            words,
            tells,
            quorum,
            &mut answered.text,
        )
    }
}

/// Answers the lines of a text after the plan, by a new world, and makes the text of the answers where they are to be told. Of
/// the events those are kept that the tenant sees: its own lines and the server lines, which are a run by themselves; with them
/// are kept the places of their lines among all. What is kept takes memory for each of them.
pub fn answer_lines(
    alloc: Global,
    world: &mut World,
    lines: &[u8],
    tenant: u8,
    tells: bool,
) -> Result<Answered, OutOfMemory>
    requires { Stands world.old.tables [] }
    ensures plan { world.new.tables.plan ≡ world.old.tables.plan }
    ensures text { IfOk result (λ told. tells ≡ true → told.text.items ≡ joined (output_lines world.old.tables.plan (lines_of lines.now))) }
    ensures events { IfOk result (λ told. told.events.items ≡
        seen_events (Some tenant) (map (event_of world.old.tables.plan) (lines_of lines.now))) }
    ensures places { IfOk result (λ told. told.places.items ≡
        seen_places (Some tenant) 0 (map (event_of world.old.tables.plan) (lines_of lines.now))) }
    ensures lines { IfOk result (λ told. told.lines ≡ length (lines_of lines.now)) }
    ensures run { IfOk result (λ told. IsRun world.old.tables.plan told.events.items told.answers.items) }
{
    let mut answered = Answered {
        text: Vec::new(alloc),
        events: Vec::new(alloc),
        answers: Vec::new(alloc),
        places: Vec::new(alloc),
        lines: 0,
    };
    let mut quorum = QuorumText::new(alloc, *world.plan().grid());
    let mut rest = lines;
    while !rest.is_empty() {
        let (first, words, after) = cut_line(rest);
        next_line(
            alloc,
            world,
            first,
            words,
            tenant,
            tells,
            &mut quorum,
            &mut answered,
        )?;
        answered.lines += 1;
        rest = after;
    }
    Ok(answered)
}
