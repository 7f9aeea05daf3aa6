//! A journal is written, and one that has grown long is written anew.

ghost use Rattle.std.specs.Prelude.{◌≡◌, true, false, ◌≤◌, ◌<◌, ◌-◌, ◌*◌, ◌^◌, ◌⊎◌, ◌++◌, length, take, drop, IfOk, OnOk};
ghost use Rattle.gq_journal.specs.Batches.{whole_lines, ended_line, seal};
ghost use Rattle.gq_keeper.specs.Plans.{IsPlan};
ghost use Rattle.gq_keeper.specs.Crashes.{Leaves, Elapses};
ghost use Rattle.gq_keeper.specs.Restarting.{Restarts};
ghost use Rattle.gq_keeper.specs.Durable.{AllSealed, IsAnew, IsLong, kept_text, number_after};

use crate::{Disk, Fault, Lasting};
use gq_journal::{seal_batch, seal_behind};
use gq_memory::{OutOfMemory, slice_copied};
use std::alloc::Global;

// A journal of so many bytes is not written anew.
const MOST_SHORT: usize = 1_048_576;

// How many times as long as what a start needs a journal may be.
const MOST_TIMES: usize = 4;

// The text of a journal, and the number of the next batch.
#[derive(Drop)]
struct Anew {
    text: Vec<u8>,
    next: u64,
}

// The plan as the first batch.
fn plan_batch(alloc: Global, plan: &[u8]) -> Result<Vec<u8>, OutOfMemory>
    ensures { IfOk result (λ text. text.items ≡ plan.now ++ ended_line (seal 1 plan.now)) }
{
    let mut text = slice_copied(alloc, plan)?;
    seal_batch(&mut text, 1)?;
    Ok(text)
}

// Seals what stands behind that place as the second batch, if there is something. Answers the number of the next one.
fn seal_facts(text: &mut Vec<u8>, at: usize) -> Result<u64, OutOfMemory>
    requires { at ≤ length text.old.items }
    ensures text { OnOk result (text.new.items ≡ take at text.old.items ++ kept_text 2 (drop at text.old.items)) }
    ensures number { IfOk result (λ next. next ≡ number_after 2 (drop at text.old.items)) }
{
    if text.len() == at {
        return Ok(2);
    }
    seal_behind(text, at, 2)?;
    Ok(3)
}

// A journal of the plan and of what a start needs of the machine. Its text is made in one place, so it isn't held twice.
fn make_anew<M: Lasting>(alloc: Global, machine: &M, plan: &[u8]) -> Result<Anew, Fault>
    requires { M.is_of (whole_lines plan.now) machine.now }
    ensures { IfOk result (λ anew. IsAnew M.recalls M.readable M.blank M.rests machine.now plan.now anew.text.items anew.next) }
{
    let mut text = plan_batch(alloc, plan)?;
    let at = text.len();
    machine.put_needed(&mut text)?;
    let next = seal_facts(&mut text, at)?;
    Ok(Anew { text, next })
}

/// Writes a journal of the plan and of what a start needs of the machine, in the place of all: the first journal, or one that takes
/// the place of a longer one. Answers the number of the next batch. Whenever it is killed, a start reads the old journal or the
/// new one whole.
pub fn renew<M: Lasting, D: Disk>(
    alloc: Global,
    machine: &M,
    plan: &[u8],
    disk: &mut D,
) -> Result<u64, Fault>
    requires plan { IsPlan plan.now }
    requires of_plan { M.is_of (whole_lines plan.now) machine.now }
    ensures sealed { IfOk result (λ next. AllSealed (D.seen disk.new) (D.synced disk.new) next) }
    ensures restarts { OnOk result (Restarts M.recalls M.readable M.blank M.rests (whole_lines plan.now) machine.now (D.synced disk.new)) }
    ensures anew { IfOk result (λ next. IsAnew M.recalls M.readable M.blank M.rests machine.now plan.now (D.synced disk.new) next) }
    ensures crash { Elapses (D.instant disk.old) (D.instant disk.new) (D.left_since disk.old) (D.left_since disk.new)
        (λ left. Leaves (D.synced disk.old) (D.seen disk.old) left ⊎ Restarts M.recalls M.readable M.blank M.rests (whole_lines plan.now) machine.now left) }
{
    let anew = make_anew(alloc, machine, plan)?;
    disk.replace(anew.text.as_slice())?;
    Ok(anew.next)
}

// Whether a journal of so many bytes is long: longer than that, and than four times what the contents take.
fn is_long(size: usize, due: usize, contents: usize) -> bool
    ensures long { result ≡ true → IsLong size due contents }
    ensures short { result ≡ false → ¬ IsLong size due contents }
{
    size > MOST_SHORT && size > due && size > most_bytes(contents)
}

/// Writes the journal anew where it is long: longer than `due`, which is four times what it was when it was last written anew, and than
/// four times what the contents take that a start needs. Whenever it is killed, a start reads the machine.
pub(crate) fn renew_if_due<M: Lasting, D: Disk>(
    alloc: Global,
    machine: &M,
    plan: &[u8],
    disk: &mut D,
    number: &mut u64,
    due: &mut usize,
) -> Result<(), Fault>
    requires sealed { AllSealed (D.seen disk.old) (D.synced disk.old) number.old }
    requires plan { IsPlan plan.now }
    requires of_plan { M.is_of (whole_lines plan.now) machine.now }
    requires restarts { Restarts M.recalls M.readable M.blank M.rests (whole_lines plan.now) machine.now (D.synced disk.old) }
    ensures sealed { OnOk result (AllSealed (D.seen disk.new) (D.synced disk.new) number.new) }
    ensures restarts { OnOk result (Restarts M.recalls M.readable M.blank M.rests (whole_lines plan.now) machine.now (D.synced disk.new)) }
    ensures crash { Elapses (D.instant disk.old) (D.instant disk.new) (D.left_since disk.old) (D.left_since disk.new)
        (Restarts M.recalls M.readable M.blank M.rests (whole_lines plan.now) machine.now) }
    ensures long { IsLong (length (D.seen disk.old)) due.old (M.contents machine.now) → OnOk result (IsAnew M.recalls M.readable M.blank M.rests machine.now plan.now (D.synced disk.new) number.new) }
    ensures alone { ¬ IsLong (length (D.seen disk.old)) due.old (M.contents machine.now) → disk.new ≡ disk.old }
{
    // its range is a fact once it is read
    let _number = *number;
    if !is_long(disk.size(), *due, machine.content_bytes()) {
        return Ok(());
    }
    *number = renew(alloc, machine, plan, disk)?;
    *due = most_bytes(disk.size());
    Ok(())
}

// How long a journal may be where a start needs so much.
fn most_bytes(needed: usize) -> usize
    ensures most { result ≤ 4 * needed }
    ensures all { result < 2 ^ 64 - 1 → result ≡ 4 * needed }
{
    needed.saturating_mul(MOST_TIMES)
}
