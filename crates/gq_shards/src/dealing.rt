//! Whose each line is, and the ways of the shards from line to line.

ghost use Rattle.std.specs.Prelude.{◌≡◌, ◌≤◌, ◌∷◌, ◌++◌, List, IfOk};
ghost use Rattle.std.specs.Thread.{IsSync};
ghost use Rattle.gq_desk.specs.declared.limits.TheConstants.{MOST_TENANTS};
ghost use Rattle.gq_lines.specs.Words.{Word};
ghost use Rattle.gq_lines.specs.Lines.{lines_of};
ghost use Rattle.gq_text.specs.Input.{event_of_words};
ghost use Rattle.gq_shards.specs.Shards.{mark_of, AreDealt};

use crate::ways::{Way, first_ways, stop_at};
use gq_desk::Plan;
use gq_lines::cut_line;
use gq_memory::{GrowCopies, GrowVec, OutOfMemory, room_for};
use memchr::memchr;
use std::alloc::Global;
use std::thread::{Threads, join};

/// A section of a script: lines that follow each other, and each shard's way through them.
#[derive(Drop)]
pub struct Section<'a> {
    pub lines: &'a [u8],
    pub ways: Vec<Way>,
}

/// A script that is dealt out: the mark of each line, and the sections that the lines are in.
#[derive(Drop)]
pub struct Dealt<'a> {
    pub marks: Vec<u8>,
    pub sections: Vec<Section<'a>>,
}

// The mark of a line that begins with the word.
#[inline(always)]
#[tactic(auto, unfolding(gq_text::specs::Input::event_of_words))]
fn mark(plan: &Plan, shards: usize, first: &[u8]) -> u8
    requires least { 1 ≤ shards }
    requires most { shards ≤ MOST_TENANTS }
    ensures { (words : List Word) → result ≡ mark_of shards (event_of_words plan.now (first.now ∷ words)) }
{
    if first == b"server".as_slice() {
        return 0;
    }
    match plan.find_word(first) {
        Some(tenant) => (tenant as u32 % shards as u32) as u8 + 1,
        None => 1,
    }
}

// Deals out the lines of a text, in one section.
fn deal<'a>(
    alloc: Global,
    plan: &Plan,
    shards: usize,
    lines: &'a [u8],
) -> Result<Dealt<'a>, OutOfMemory>
    requires least { 1 ≤ shards }
    requires most { shards ≤ MOST_TENANTS }
    ensures { IfOk result (λ dealt. AreDealt plan.now shards (lines_of lines.now) dealt) }
{
    let mut marks = room_for(alloc, lines.len() / 8)?;
    let mut ways = first_ways(alloc, shards, lines.len() / 8 / shards)?;
    let mut place = 0;
    while place < lines.len() {
        let (first, words, _) = cut_line(&lines[place..]);
        let mark = mark(plan, shards, first);
        let after = place + first.len() + words.len() + 1;
        marks.grow(mark)?;
        stop_at(ways.as_mut_slice(), mark, lines, place, after)?;
        place = after;
    }
    let mut sections = Vec::new(alloc);
    sections.grow(Section { lines, ways })?;
    Ok(Dealt { marks, sections })
}

// Cuts a text at the end of the line of a place.
fn cut_text(text: &[u8], place: usize) -> (&[u8], &[u8])
    ensures { lines_of text.now ≡ lines_of result.0.now ++ lines_of result.1.now }
{
    if place >= text.len() {
        return (text, &[]);
    }
    match memchr(b'\n', &text[place..]) {
        Some(end) => (&text[..place + end + 1], &text[place + end + 1..]),
        None => (text, &[]),
    }
}

// The lines of one text, and behind them those of another.
fn together<'a>(front: Dealt<'a>, back: Dealt<'a>) -> Result<Dealt<'a>, OutOfMemory>
    ensures marks { IfOk result (λ dealt. dealt.marks.items ≡ front.entry.marks.items ++ back.entry.marks.items) }
    ensures sections { IfOk result (λ dealt. dealt.sections.items ≡ front.entry.sections.items ++ back.entry.sections.items) }
{
    let Dealt {
        mut marks,
        mut sections,
    } = front;
    marks.grow_by(back.marks.as_slice())?;
    for section in back.sections {
        sections.grow(section)?;
    }
    Ok(Dealt { marks, sections })
}

/// Deals out the lines of a text by so many threads, or by the greatest power of two that is no more.
#[cycle(halves)]
pub fn deal_in_threads<'a, T: Threads + Sync>(
    rt: &T,
    alloc: Global,
    plan: &Plan,
    shards: usize,
    threads: usize,
    lines: &'a [u8],
) -> Result<Dealt<'a>, OutOfMemory>
    requires least { 1 ≤ shards }
    requires most { shards ≤ MOST_TENANTS }
    ensures { IfOk result (λ dealt. AreDealt plan.now shards (lines_of lines.now) dealt) }
{
    if threads < 2 {
        return deal(alloc, plan, shards, lines);
    }
    let (front, back) = cut_text(lines, lines.len() / 2);
    let (first, second) = join(
        rt,
        || -> Result<Dealt, OutOfMemory>
            requires { IsSync T.row × (2 ≤ threads) × (1 ≤ shards) × (shards ≤ MOST_TENANTS) }
            ensures { IfOk result (λ dealt. AreDealt plan.entry.now shards (lines_of front.entry.now) dealt) }
        { deal_in_threads(rt, alloc, plan, shards, threads / 2, front) },
        || -> Result<Dealt, OutOfMemory>
            requires { IsSync T.row × (2 ≤ threads) × (1 ≤ shards) × (shards ≤ MOST_TENANTS) }
            ensures { IfOk result (λ dealt. AreDealt plan.entry.now shards (lines_of back.entry.now) dealt) }
        { deal_in_threads(rt, alloc, plan, shards, threads / 2, back) },
    );
    together(first?, second?)
}
