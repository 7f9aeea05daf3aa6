//! Starts, loops and crashes over a journal in memory.

ghost use Rattle.std.specs.Prelude.{◌≡◌};

use crate::{LONGEST, Lived, Register, Shown, Terms, Turns, begin, live};
use gq_keeper::{Fault, MemoryDisk, first_plan, last_plan};
use gq_memory::{GrowCopies, slice_copied};
use std::alloc::Global;
use std::io;
use std::io::Read;
use std::process::Abort;

const PLAN: &[u8] = b"node 0 of 1 by 1\nann\n";

// The digests are those of `sha256sum`.
const FIRST: &[u8] = b"node 0 of 1 by 1\nann\nsync 1 21 c9a8de68ddf234c7\n";

const SECOND: &[u8] = b"put a\nput b\nsync 2 12 4e4fe65a7733530c\n";

const THIRD: &[u8] = b"put c\nsync 3 6 efa8316c08428f63\n";

// Its second line begins a plan, and no fact does.
const STRANGE_THIRD: &[u8] = b"put c\nnode d\nsync 3 13 8a1185060b641d81\n";

const LONGER: &[u8] = b"node 0 of 1 by 1\nann\nbob\n";

const LONGER_THIRD: &[u8] = b"node 0 of 1 by 1\nann\nbob\nsync 3 25 f2cf4f7f0dc73e74\n";

// More calls than any run makes.
const MANY: usize = 1_000_000;

// Gives at most so many bytes a call.
#[derive(Drop)]
struct Source<'a> {
    text: &'a [u8],
    each: usize,
}

impl<'a> Read for Source<'a> {
    fn read(&mut self, buf: &mut [u8]) -> io::Result<usize> {
        let n = buf.len().min(self.each).min(self.text.len());
        let (given, rest) = self.text.split_at(n);
        buf[..n].copy_from_slice(given);
        self.text = rest;
        Ok(n)
    }
}

// What is left of a run.
#[derive(Drop)]
struct Stopped {
    lived: Result<Lived, Fault>,
    journal: MemoryDisk,
    shown: Shown,
    register: Register,
    turns: Turns,
}

impl Stopped {
    fn held(&self) -> &[u8] {
        self.register.text()
    }

    fn cut(&self, rt: &impl Abort) -> Option<usize> {
        match &self.lived {
            Ok(Lived::Served(cut)) => *cut,
            _ => None.expect(rt, "a run that was served"),
        }
    }
}

fn copied(rt: &impl Abort, alloc: Global, bytes: &[u8]) -> Vec<u8>
    ensures { result.items ≡ bytes.now }
{
    slice_copied(alloc, bytes).ok().expect(rt, "memory")
}

// A run over a journal that a crash left, where the disk and the output answer so many calls.
fn run(
    rt: &impl Abort,
    alloc: Global,
    left: &[u8],
    text: &[u8],
    plan: &[u8],
    each: usize,
    calls: usize,
    shows: usize,
) -> Stopped {
    let plan = Terms::of(plan).expect(rt, "a plan");
    let mut journal = MemoryDisk::new(copied(rt, alloc, left), calls);
    let mut shown = Shown::new(alloc, shows);
    let mut register = Register::new(alloc);
    let mut turns = Turns { all: 0, holding: 0 };
    let mut input = Source { text, each };
    let lived = live(
        alloc,
        &mut register,
        &mut journal,
        &plan,
        &mut input,
        &mut shown,
        &mut turns,
    );
    Stopped {
        lived,
        journal,
        shown,
        register,
        turns,
    }
}

// A run of which no call fails.
fn whole(rt: &impl Abort, alloc: Global, left: &[u8], text: &[u8]) -> Stopped {
    run(rt, alloc, left, text, PLAN, MANY, MANY, MANY)
}

fn joined(rt: &impl Abort, alloc: Global, parts: &[&[u8]]) -> Vec<u8> {
    let mut all = Vec::new(alloc);
    for part in parts {
        all.grow_by(*part).ok().expect(rt, "memory");
    }
    all
}

#[test]
fn writes_the_first_journal(rt: HostRuntime) {
    let alloc = rt.alloc();
    let plan = Terms::of(PLAN).expect(&rt, "a plan");
    let mut journal = MemoryDisk::new(Vec::new(alloc), MANY);
    assert!(rt; matches!(begin(alloc, &mut journal, &plan), Ok(2)));
    assert!(rt; journal.bytes() == FIRST);
    assert!(rt; journal.sure_bytes() == FIRST);
}

// A start from what is left holds the line.
fn holds(rt: &impl Abort, alloc: Global, left: &[u8], line: &[u8]) {
    assert!(rt; whole(rt, alloc, left, b"").held() == line);
}

// A run over what is left shows this, and leaves this journal, synced.
fn gives(rt: &impl Abort, alloc: Global, left: &[u8], text: &[u8], shown: &[u8], journal: &[u8]) {
    let run = whole(rt, alloc, left, text);
    assert!(rt; run.shown.bytes() == shown);
    assert!(rt; run.journal.bytes() == journal);
    assert!(rt; run.journal.sure_bytes() == journal);
}

#[test]
fn keeps_what_it_tells(rt: HostRuntime) {
    let alloc = rt.alloc();
    let two = joined(&rt, alloc, &[FIRST, SECOND]);
    let two = two.as_slice();
    let text = b"put a\nnode x\nput b\n";
    gives(&rt, alloc, FIRST, text, b" ?\nput a\nput b\n", two);
    holds(&rt, alloc, two, b"put b\n");
    // a line without facts appends nothing
    gives(&rt, alloc, two, b"node x\nsync 1\n", b" ?\n", two);
    let three = joined(&rt, alloc, &[FIRST, SECOND, THIRD]);
    let text = b"put c\nput d";
    gives(&rt, alloc, two, text, b" ?\nput c\n", three.as_slice());
}

// The lines `put 0` up to `put 5`, each of them one read.
const LINES: &[u8] = b"put 0\nput 1\nput 2\nput 3\nput 4\nput 5\n";

// The lines of a text's beginning.
fn held_after(shown: &[u8]) -> &[u8] {
    if shown.len() < 6 {
        return b"";
    }
    &shown[shown.len() - 6..]
}

// A start from what a crash left holds what was told, or the line behind it.
fn holds_what_was_told(rt: &impl Abort, alloc: Global, left: &[u8], told: &[u8]) {
    let again = whole(rt, alloc, left, b"");
    let _ = again.cut(rt);
    let next = &LINES[..(told.len() + 6).min(LINES.len())];
    assert!(rt; again.held() == held_after(told) || again.held() == held_after(next));
}

// The journal goes on.
fn goes_on(rt: &impl Abort, alloc: Global, left: &[u8]) {
    let on = whole(rt, alloc, left, b"put x\n");
    let _ = on.cut(rt);
    assert!(rt; on.shown.bytes() == b" ?\nput x\n".as_slice());
    holds(rt, alloc, on.journal.bytes(), b"put x\n");
}

fn starts_again(rt: &impl Abort, alloc: Global, left: &[u8], told: &[u8]) {
    holds_what_was_told(rt, alloc, left, told);
    goes_on(rt, alloc, left);
}

#[test]
fn loses_nothing_that_was_told(rt: HostRuntime) {
    let alloc = rt.alloc();
    let mut ends = false;
    for calls in 0..100 {
        let stopped = run(&rt, alloc, FIRST, LINES, PLAN, 6, calls, MANY);
        ends = stopped.lived.is_ok();
        let shown = stopped.shown.bytes();
        let told = told_of(shown);
        assert!(rt; LINES.starts_with(told));
        // whatever beginning of what was not synced is left
        let seen = stopped.journal.bytes();
        let sure = stopped.journal.sure_bytes().len();
        for k in sure..seen.len() + 1 {
            if calls > 0 {
                starts_again(&rt, alloc, &seen[..k], told);
            }
        }
        if ends {
            assert!(rt; told == LINES);
            break;
        }
    }
    assert!(rt; ends);
}

#[test]
fn shows_nothing_behind_a_failed_write(rt: HostRuntime) {
    let alloc = rt.alloc();
    for shows in 0..7 {
        let stopped = run(&rt, alloc, FIRST, LINES, PLAN, 6, MANY, shows);
        assert!(rt; matches!(&stopped.lived, Err(Fault::Write)));
        let told = if shows > 0 { 6 * (shows - 1) } else { 0 };
        let shown = stopped.shown.bytes();
        assert!(rt; shown.len() == if shows > 0 { 3 + told } else { 0 });
        starts_again(&rt, alloc, stopped.journal.bytes(), &LINES[..told]);
        // and nobody is told of lines of which nothing was shown
        assert!(rt; stopped.turns.all == told / 6);
    }
}

// Of a run over these lines in reads of so many bytes the watcher is told so many turns, and that the register held a line in so many.
fn has_turns(rt: &impl Abort, alloc: Global, text: &[u8], each: usize, all: usize, holding: usize) {
    let took = run(rt, alloc, FIRST, text, PLAN, each, MANY, MANY);
    assert!(rt; (took.turns.all, took.turns.holding) == (all, holding));
}

#[test]
fn tells_the_watcher_of_each_turn(rt: HostRuntime) {
    let alloc = rt.alloc();
    // two reads to a line: one that ends no line is no turn
    has_turns(&rt, alloc, LINES, 3, 6, 6);
    // several lines of one read are one turn, those without facts too
    has_turns(&rt, alloc, b"node x\nput a\nput b\n", 7, 3, 2);
    has_turns(&rt, alloc, LINES, MANY, 1, 1);
    has_turns(&rt, alloc, b"put a", MANY, 0, 0);
}

// The journal's first and last plan are these.
fn finds(rt: &impl Abort, alloc: Global, journal: &[u8], first: &[u8], last: &[u8]) {
    let found = first_plan(alloc, journal).ok().expect(rt, "memory");
    assert!(rt; found == first, "{journal:?}");
    let found = last_plan(alloc, journal).ok().expect(rt, "memory");
    assert!(rt; found == last, "{journal:?}");
}

#[test]
fn finds_the_first_and_the_last_plan(rt: HostRuntime) {
    let alloc = rt.alloc();
    finds(&rt, alloc, FIRST, PLAN, PLAN);
    let grown = joined(&rt, alloc, &[FIRST, SECOND, LONGER_THIRD]);
    finds(&rt, alloc, grown.as_slice(), PLAN, LONGER);
    // what is behind the right batches counts nothing
    let torn = joined(&rt, alloc, &[FIRST, b"put"]);
    finds(&rt, alloc, torn.as_slice(), PLAN, PLAN);
    // no right batch is at the front
    finds(&rt, alloc, &FIRST[..FIRST.len() - 1], b"", b"");
    finds(&rt, alloc, SECOND, b"", b"");
    finds(&rt, alloc, b"", b"", b"");
    // a journal of facts
    let facts = b"put a\nsync 1 6 8317e0b9939e9f2d\n";
    finds(&rt, alloc, facts, b"put a\n", b"");
}

// A start from a journal with an end that is not right, behind the third batch's beginning: it is cut off.
fn cuts_off(rt: &impl Abort, started: &Stopped, third: usize, two: &[u8]) {
    assert!(rt; matches!(&started.lived, Ok(Lived::Served(Some(place))) if *place == third));
    assert!(rt; started.held() == b"put b\n".as_slice());
    assert!(rt; started.journal.sure_bytes() == two);
}

// From one with a batch that is damaged, before a right one: it stays as it was.
fn tells_damage(rt: &impl Abort, started: &Stopped, batch: usize, journal: &[u8]) {
    assert!(rt; matches!(&started.lived, Ok(Lived::Damaged(place)) if *place == batch));
    assert!(rt; started.journal.bytes() == journal);
    assert!(rt; started.shown.bytes().is_empty());
}

// With the byte at that place turned.
fn flipped(rt: &impl Abort, alloc: Global, text: &[u8], at: usize) -> Vec<u8> {
    let mut flipped = copied(rt, alloc, text);
    assert!(rt; at < flipped.len());
    flipped[at] ^= 1;
    flipped
}

fn tells_each_byte_that_is_turned(rt: &impl Abort, alloc: Global, three: &[u8], two: &[u8]) {
    let (second, third) = (FIRST.len(), two.len());
    for at in 0..three.len() {
        let journal = flipped(rt, alloc, three, at);
        let started = whole(rt, alloc, journal.as_slice(), b"");
        if at >= third {
            cuts_off(rt, &started, third, two);
        } else {
            let batch = if at < second { 0 } else { second };
            tells_damage(rt, &started, batch, journal.as_slice());
        }
    }
}

// An end of which any beginning is left is cut off.
fn cuts_off_each_beginning(rt: &impl Abort, alloc: Global, three: &[u8], two: &[u8]) {
    let third = two.len();
    for k in third..three.len() {
        let started = whole(rt, alloc, &three[..k], b"");
        assert!(rt; started.cut(rt) == if k == third { None } else { Some(third) });
        assert!(rt; started.journal.bytes() == two);
    }
}

#[test]
fn tells_damage_from_a_torn_end(rt: HostRuntime) {
    let alloc = rt.alloc();
    let three = joined(&rt, alloc, &[FIRST, SECOND, THIRD]);
    let two = joined(&rt, alloc, &[FIRST, SECOND]);
    tells_each_byte_that_is_turned(&rt, alloc, three.as_slice(), two.as_slice());
    cuts_off_each_beginning(&rt, alloc, three.as_slice(), two.as_slice());
}

#[test]
fn refuses_a_strange_line(rt: HostRuntime) {
    let alloc = rt.alloc();
    let three = joined(&rt, alloc, &[FIRST, SECOND, STRANGE_THIRD]);
    let started = whole(&rt, alloc, three.as_slice(), b"put e\n");
    assert!(rt; matches!(&started.lived, Ok(Lived::Strange)));
    assert!(rt; started.journal.bytes() == three.as_slice());
    assert!(rt; started.shown.bytes().is_empty());
}

// A run by this plan takes the journal for that of another.
fn is_another(rt: &impl Abort, alloc: Global, left: &[u8], plan: &[u8]) {
    let other = run(rt, alloc, left, b"put c\n", plan, MANY, MANY, MANY);
    assert!(rt; matches!(&other.lived, Ok(Lived::Another)));
    assert!(rt; other.journal.bytes() == left);
    assert!(rt; other.shown.bytes().is_empty());
}

// A run by the longer plan notes it in the journal.
fn takes_the_longer_plan(rt: &impl Abort, alloc: Global, left: &[u8], journal: &[u8]) {
    let grown = run(rt, alloc, left, b"", LONGER, MANY, MANY, MANY);
    assert!(rt; grown.cut(rt).is_none());
    assert!(rt; grown.journal.sure_bytes() == journal);
    assert!(rt; grown.held() == b"put b\n".as_slice());
}

#[test]
fn goes_on_from_its_plan(rt: HostRuntime) {
    let alloc = rt.alloc();
    let two = joined(&rt, alloc, &[FIRST, SECOND]);
    let two = two.as_slice();
    let grown = joined(&rt, alloc, &[FIRST, SECOND, LONGER_THIRD]);
    takes_the_longer_plan(&rt, alloc, two, grown.as_slice());
    // the shorter one doesn't go on from the longer one
    is_another(&rt, alloc, grown.as_slice(), PLAN);
    is_another(&rt, alloc, two, b"node 1 of 1 by 2\nann\nbob\n");
    is_another(&rt, alloc, two, b"node 0 of 1 by 1\nbob\n");
    is_another(&rt, alloc, b"", PLAN);
}

// A text of so many equal bytes and a newline.
fn long_line(rt: &impl Abort, alloc: Global, c: u8, count: usize) -> Vec<u8> {
    let mut line = Vec::new(alloc);
    for _ in 0..count {
        line.push(c).ok().expect(rt, "memory");
    }
    line.push(b'\n').ok().expect(rt, "memory");
    line
}

#[test]
fn passes_over_lines_that_are_too_long(rt: HostRuntime) {
    let alloc = rt.alloc();
    let longest = long_line(&rt, alloc, b'a', LONGEST);
    let longer = long_line(&rt, alloc, b'b', LONGEST + 1);
    let long = long_line(&rt, alloc, b'c', 20_000);
    let last = long_line(&rt, alloc, b'd', 100);
    let text = joined(
        &rt,
        alloc,
        &[
            longer.as_slice(),
            longest.as_slice(),
            long.as_slice(),
            last.as_slice(),
            b"end",
        ],
    );
    let told = joined(&rt, alloc, &[b" ?\n", longest.as_slice(), last.as_slice()]);
    for each in [1, 7, 1_000, 4_096, MANY] {
        let took = run(&rt, alloc, FIRST, text.as_slice(), PLAN, each, MANY, MANY);
        assert!(rt; took.shown.bytes() == told.as_slice(), "each {each}");
    }
}

fn long_text(rt: &impl Abort, alloc: Global) -> Vec<u8> {
    let mut text = Vec::new(alloc);
    for k in 0..270u32 {
        let line = long_line(rt, alloc, b'a' + (k % 26) as u8, 4_000);
        text.grow_by(line.as_slice()).ok().expect(rt, "memory");
    }
    text
}

// The journal is written anew meanwhile, and a start from it has the last line.
fn is_short(rt: &impl Abort, alloc: Global, took: &Stopped, text: &[u8]) {
    assert!(rt; took.shown.bytes().len() == text.len().saturating_add(3));
    assert!(rt; took.journal.bytes().len() < 400_000);
    holds(rt, alloc, took.journal.bytes(), line_of(text, 270));
}

// A start from what is left behind that many calls has the last line that was told, or the one behind the next read.
fn has_what_was_told(rt: &impl Abort, alloc: Global, stopped: &Stopped, text: &[u8], calls: usize) {
    let before = told_of(stopped.shown.bytes()).len() / 4_001;
    let after = lines_behind(text.len(), before);
    let again = whole(rt, alloc, stopped.journal.sure_bytes(), b"");
    let held = again.held();
    assert!(rt;
        held == line_of(text, before) || held == line_of(text, after),
        "calls {calls}"
    );
}

#[test]
fn writes_a_long_journal_anew(rt: HostRuntime) {
    let alloc = rt.alloc();
    let text = long_text(&rt, alloc);
    let took = whole(&rt, alloc, FIRST, text.as_slice());
    is_short(&rt, alloc, &took, text.as_slice());
    // the 36th call writes it anew: what was told stands before, during and after it
    for calls in 34..38 {
        let stopped = run(&rt, alloc, FIRST, text.as_slice(), PLAN, MANY, calls, MANY);
        has_what_was_told(&rt, alloc, &stopped, text.as_slice(), calls);
    }
}

// How many of the long lines are whole after one read more than those that gave so many.
fn lines_behind(len: usize, before: usize) -> usize {
    for reads in 0..20 {
        if (65_536 * reads).min(len) / 4_001 == before {
            return (65_536 * (reads + 1)).min(len) / 4_001;
        }
    }
    before
}

// The last of so many long lines.
fn line_of(text: &[u8], count: usize) -> &[u8] {
    let end = count.saturating_mul(4_001).min(text.len());
    &text[end.saturating_sub(4_001)..end]
}

// What was told, behind the line that greets.
fn told_of(shown: &[u8]) -> &[u8] {
    &shown[shown.len().min(3)..]
}
