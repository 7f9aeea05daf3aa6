//! The loop: lines are taken, their facts are synced, and then what rests on them is shown.
//!
//! The lines of one read are not all taken at once: a read can bring thousands that ask for a content of 1 MiB each. No
//! further line is taken once what is held is as long as the longest line, and at least 1 MiB. Lines that tell little are
//! synced once for a whole read. One read completes at most four lines of more than 16 KiB; of short contents that no longer
//! come to memory it may complete some thousands. Whether the journal is long is looked at when lines are read, for the first
//! time at the first read of a life. It is long where it has more than four times the bytes of the blocks in use, which is one
//! subtraction; what a start needs exactly could be told only by making its text. So a journal written anew is at most some
//! two thirds as long as the one before, but for files without contents. These are why it has to have grown fourfold within
//! one life too.

ghost use Rattle.std.specs.Prelude.{◌≡◌, ◌⊎◌, ◌+◌, ◌++◌, ◌<◌, ◌≤◌, ℕ, List, [], true, false, length, min, replicate, IfOk, IfSome, OnOk};
ghost use Rattle.std.specs.Io.{ReadsAtMost};
ghost use Rattle.std.specs.Io.KnownBytes.{ReadConsumes};
ghost use Rattle.gq_journal.specs.Batches.{whole_lines, batches_of};
ghost use Rattle.gq_journal.specs.Laws.{Begins};
ghost use Rattle.gq_keeper.specs.Lines.{most_held, short_lines};
ghost use Rattle.gq_keeper.specs.Plans.{IsPlan, last_plan};
ghost use Rattle.gq_keeper.specs.Runs.{Took};
ghost use Rattle.gq_keeper.specs.Crashes.{Elapses};
ghost use Rattle.gq_keeper.specs.Restarting.{Restarts, RestartsAsEither, RestartsAsOne};
ghost use Rattle.gq_keeper.specs.Durable.{AllSealed, Durable, Grows, TakenAtOnce};
ghost use Rattle.gq_lines.specs.Written.{first_text};

use crate::keeping::keep;
use crate::renewing::renew_if_due;
use crate::{Disk, Fault, Lasting, Log, Machine, Output};
use gq_journal::first_whole_line;
use gq_memory::{GrowCopies, OutOfMemory, slice_copied};
use std::alloc::Global;
use std::io;
use std::io::Read;

// The most bytes of one read.
const MOST_READ: usize = 65_536;

/// So many bytes of facts, and of what is told, are kept and shown at once, however short the longest line is.
pub const ALWAYS_HELD: usize = 1_048_576;

// How many bytes of facts, or of what is told, are enough to be kept and shown before a further line is taken.
fn most_held(longest: usize) -> usize
    ensures held { result ≡ most_held longest }
    ensures some { 0 < result }
{
    longest.max(ALWAYS_HELD)
}

// Whether facts or what is told have so many bytes.
fn is_enough(most: usize, facts: &[u8], told: &[u8]) -> bool
    ensures facts { result ≡ false → length facts.now < most }
    ensures told { result ≡ false → length told.now < most }
{
    facts.len() >= most || told.len() >= most
}

// Takes lines of the text, but for those that are longer, until none is left, or they gave or told so much that it has to be kept
// and shown first. Answers what is behind them.
fn take_lines<'x, M: Machine>(
    longest: usize,
    most: usize,
    machine: &mut M,
    text: &'x [u8],
    facts: &mut Vec<u8>,
    told: &mut Vec<u8>,
) -> Result<&'x [u8], Fault>
    requires some { 0 < most }
    requires facts { facts.old.items ≡ [] }
    requires told { told.old.items ≡ [] }
    ensures took { IfOk result (λ rest. Took longest most M.steps machine.old text.now rest.now facts.new.items told.new.items machine.new) }
    ensures on { IfOk result (λ rest. (whole_lines text.now ≡ []) ⊎ (length rest.now < length text.now)) }
{
    let mut rest = text;
    while let Some((line, after)) = first_whole_line(rest) {
        rest = after;
        if line.len() > longest {
            continue;
        }
        machine.take(line, facts, told)?;
        if is_enough(most, facts.as_slice(), told.as_slice()) {
            return Ok(rest);
        }
    }
    Ok(rest)
}

/// Takes lines of a text: their steps are done, the facts of all of them are appended as one batch and synced, and only then is shown
/// what they told. Answers what is behind them, which is less where there was a line (`on`). `few`: no line is taken once those before
/// it gave or told so much that it has to be kept and shown first. Lines without facts leave the journal alone.
pub fn take_batch<'x, M: Lasting, L: Log, O: Output>(
    alloc: Global,
    longest: usize,
    machine: &mut M,
    log: &mut L,
    out: &mut O,
    number: &mut u64,
    text: &'x [u8],
) -> Result<&'x [u8], Fault>
    requires sealed { AllSealed (L.seen log.old) (L.synced log.old) number.old }
    requires restarts { Restarts M.recalls M.readable M.blank M.rests (last_plan [] (batches_of (L.synced log.old))) machine.old (L.synced log.old) }
    requires may { (last : M) (front behind synced shown : List ℕ) → text.now ≡ front ++ behind → Durable M.steps M.recalls M.readable M.blank M.rests machine.old last (last_plan [] (batches_of (L.synced log.old))) (short_lines longest front) (O.shown out.old) synced shown → O.allows synced shown }
    ensures sealed { OnOk result (AllSealed (L.seen log.new) (L.synced log.new) number.new) }
    ensures few { IfOk result (λ rest. TakenAtOnce longest M.steps M.recalls M.readable M.blank M.rests machine.old machine.new (last_plan [] (batches_of (L.synced log.old))) text.now rest.now (O.shown out.old) (L.synced log.new) (O.shown out.new)) }
    ensures on { IfOk result (λ rest. (whole_lines text.now ≡ []) ⊎ (length rest.now < length text.now)) }
    ensures idle { OnOk result (Grows (L.synced log.old) (L.synced log.new) (log.new ≡ log.old)) }
    ensures crash { Elapses (L.instant log.old) (L.instant log.new) (L.left_since log.old) (L.left_since log.new)
        (RestartsAsEither M.steps M.recalls M.readable M.blank M.rests (last_plan [] (batches_of (L.synced log.old))) machine.old machine.new) }
{
    // its range is a fact once it is read
    let _number = *number;
    let mut facts = Vec::new(alloc);
    let mut told = Vec::new(alloc);
    let rest = take_lines(
        longest,
        most_held(longest),
        machine,
        text,
        &mut facts,
        &mut told,
    )?;
    keep(log, number, &mut facts)?;
    out.show(log, told.as_slice())?;
    Ok(rest)
}

/// Takes the lines of a text, batch after batch (`take_batch`). Answers what is behind the lines. Lines without facts leave the
/// journal alone.
pub fn take_text<'x, M: Lasting, L: Log, O: Output>(
    alloc: Global,
    longest: usize,
    machine: &mut M,
    log: &mut L,
    out: &mut O,
    number: &mut u64,
    text: &'x [u8],
) -> Result<&'x [u8], Fault>
    requires sealed { AllSealed (L.seen log.old) (L.synced log.old) number.old }
    requires restarts { Restarts M.recalls M.readable M.blank M.rests (last_plan [] (batches_of (L.synced log.old))) machine.old (L.synced log.old) }
    requires may { (last : M) (front behind synced shown : List ℕ) → text.now ≡ front ++ behind → Durable M.steps M.recalls M.readable M.blank M.rests machine.old last (last_plan [] (batches_of (L.synced log.old))) (short_lines longest front) (O.shown out.old) synced shown → O.allows synced shown }
    ensures sealed { OnOk result (AllSealed (L.seen log.new) (L.synced log.new) number.new) }
    ensures durable { OnOk result (Durable M.steps M.recalls M.readable M.blank M.rests machine.old machine.new (last_plan [] (batches_of (L.synced log.old))) (short_lines longest text.now) (O.shown out.old) (L.synced log.new) (O.shown out.new)) }
    ensures idle { OnOk result (L.synced log.new ≡ L.synced log.old → log.new ≡ log.old) }
    ensures rest { IfOk result (λ rest. (front : List ℕ) × (text.now ≡ front ++ rest.now)) }
    ensures left { IfOk result (λ rest. whole_lines rest.now ≡ []) }
    ensures behind { IfOk result (λ rest. (more : List ℕ) → short_lines longest (text.now ++ more) ≡ short_lines longest text.now ++ short_lines longest (rest.now ++ more)) }
    ensures crash { Elapses (L.instant log.old) (L.instant log.new) (L.left_since log.old) (L.left_since log.new)
        (RestartsAsOne M.steps M.recalls M.readable M.blank M.rests (last_plan [] (batches_of (L.synced log.old))) machine.old) }
{
    let mut rest = text;
    'batches: while !ends_no_line(rest) {
        rest = take_batch(alloc, longest, machine, log, out, number, rest)?;
    }
    Ok(rest)
}

// So many zeros.
fn zeros(alloc: Global, count: usize) -> Result<Vec<u8>, OutOfMemory>
    ensures { IfOk result (λ zeros. length zeros.items ≡ count) }
{
    let mut zeros = Vec::new(alloc);
    zeros.grow_to(count, 0)?;
    Ok(zeros)
}

// How many of so many bytes have to be kept: of what is too long for a line as many as show it.
fn kept_count(longest: usize, count: usize) -> usize
    ensures { result ≡ min count (longest + 1) }
{
    if count > longest { longest + 1 } else { count }
}

// What has to be kept of the end of a text, of which no newline is left: of what is too long for a line as much as shows it.
fn kept_end(alloc: Global, longest: usize, end: &[u8]) -> Result<Vec<u8>, OutOfMemory>
    requires { whole_lines end.now ≡ [] }
    ensures none { IfOk result (λ kept. whole_lines kept.items ≡ []) }
    ensures same { IfOk result (λ kept. (more : List ℕ) → short_lines longest (kept.items ++ more) ≡ short_lines longest (end.now ++ more)) }
    ensures small { IfOk result (λ kept. length kept.items ≤ longest + 1) }
{
    let kept = slice_copied(alloc, &end[..kept_count(longest, end.len())])?;
    Ok(kept)
}

// Whether no newline is among the bytes.
fn ends_no_line(bytes: &[u8]) -> bool
    ensures none { result ≡ true → whole_lines bytes.now ≡ [] }
    ensures some { result ≡ false → ¬ (whole_lines bytes.now ≡ []) }
{
    first_whole_line(bytes).is_none()
}

// Holds more bytes without a newline, so that a line which takes many reads is looked at and copied once: of what is too long for
// a line as much as shows it.
fn hold(held: &mut Vec<u8>, longest: usize, bytes: &[u8]) -> Result<(), OutOfMemory>
    requires held { whole_lines held.old.items ≡ [] }
    requires bytes { whole_lines bytes.now ≡ [] }
    ensures none { OnOk result (whole_lines held.new.items ≡ []) }
    ensures same { OnOk result ((more : List ℕ) → short_lines longest (held.new.items ++ more) ≡ short_lines longest ((held.old.items ++ bytes.now) ++ more)) }
    ensures small { OnOk result (length held.new.items ≤ longest + 1) }
{
    held.grow_by(bytes)?;
    held.truncate(kept_count(longest, held.len()));
    Ok(())
}

// Reads some bytes. A read that a signal ended before it had any is done again.
fn read_some<R: Read>(input: &mut R, block: &mut [u8]) -> Result<usize, Fault>
    ensures bound { ReadsAtMost result block.new }
    ensures bytes { ReadConsumes (R.remaining input.old) (R.remaining input.new) result block.new }
{
    for _ in 0..u64::MAX {
        match input.read(block) {
            Ok(count) => return Ok(count),
            Err(e) if e.kind() == io::ErrorKind::Interrupted => {}
            Err(_) => return Err(Fault::Read),
        }
    }
    Err(Fault::Read)
}

/// Who sees the machine each time lines of the input were taken: their facts are synced by then, and what they told was shown. It changes
/// nothing of the machine, and nothing is promised of it.
pub trait Watch<M> {
    /// The machine took lines, or passed them over because they are longer than lines may be.
    fn took(&mut self, machine: &M);
}

/// Takes the lines of the input to its end, but for those that are longer, of which no more is held than shows it. At
/// each write to the output, `O.allows` is all that is known of what may be shown; the premise `may` says that it is
/// allowed where it is durable: what is shown is what steps told that took the lines of a beginning of the input, and a start
/// from what is synced reads the machine that they left. Whenever it is killed, a start reads a machine that steps left. `watch` sees the machine behind each
/// write but the first, which greets: before the journal is written anew, if that is due.
pub fn serve<M: Lasting, R: Read, D: Disk, O: Output, W: Watch<M>>(
    alloc: Global,
    longest: usize,
    machine: &mut M,
    plan: &[u8],
    input: &mut R,
    disk: &mut D,
    out: &mut O,
    watch: &mut W,
    first: u64,
) -> Result<(), Fault>
    requires sealed { AllSealed (D.seen disk.old) (D.synced disk.old) first }
    requires plan { IsPlan plan.now }
    requires of_plan { M.is_of (whole_lines plan.now) machine.old }
    requires restarts { Restarts M.recalls M.readable M.blank M.rests (whole_lines plan.now) machine.old (D.synced disk.old) }
    requires may { (last : M) (taken synced shown : List ℕ) → IfSome (R.remaining input.old) (Begins taken) → Durable M.steps M.recalls M.readable M.blank M.rests machine.old last (whole_lines plan.now) (short_lines longest taken) (O.shown out.old ++ first_text) synced shown → O.allows synced shown }
    ensures durable { OnOk result ((taken : List ℕ) × IfSome (R.remaining input.old) (λ all. all ≡ taken)
        × Durable M.steps M.recalls M.readable M.blank M.rests machine.old machine.new (whole_lines plan.now) (short_lines longest taken) (O.shown out.old ++ first_text) (D.synced disk.new) (O.shown out.new)) }
    ensures any_time { (left : List ℕ) → D.left_since disk.new (D.instant disk.old) left → RestartsAsOne M.steps M.recalls M.readable M.blank M.rests (whole_lines plan.now) machine.old left }
    ensures crash { Elapses (D.instant disk.old) (D.instant disk.new) (D.left_since disk.old) (D.left_since disk.new)
        (RestartsAsOne M.steps M.recalls M.readable M.blank M.rests (whole_lines plan.now) machine.old) }
{
    let mut number = first;
    let mut due = 0;
    let mut held: Vec<u8> = Vec::new(alloc);
    let mut block = zeros(alloc, MOST_READ)?;
    out.show(disk, b" ?\n")?;
    for _ in 0..u64::MAX {
        let count = read_some(input, block.as_mut_slice())?;
        if count == 0 {
            return Ok(());
        }
        let bytes = &block[..count];
        if ends_no_line(bytes) {
            hold(&mut held, longest, bytes)?;
            continue;
        }
        held.grow_by(bytes)?;
        let rest = take_text(
            alloc,
            longest,
            machine,
            disk,
            out,
            &mut number,
            held.as_slice(),
        )?;
        watch.took(machine);
        held = kept_end(alloc, longest, rest)?;
        renew_if_due(alloc, machine, plan, disk, &mut number, &mut due)?;
    }
    Err(Fault::Read)
}
