//! A start: the journal is read, and its wrong end is cut off, or it is written anew without some of its facts.

ghost use Rattle.std.specs.Prelude.{◌≡◌, ◌⊎◌, ◌+◌, ◌≤◌, ◌++◌, ◌∷◌, ◌&&◌, ℕ, List, [], true, false, length, take, drop, IfOk, IfErr, OnOk, MatchOption, if◌then◌else◌};
ghost use Rattle.std.specs.List.{list_all};
ghost use Rattle.gq_journal.specs.Batches.{whole_lines, lines_text, batches_of, has_right_batch};
ghost use Rattle.gq_keeper.specs.Plans.{IsPlan, is_plan, facts_in, first_plan, last_plan, begins_with_plan, goes_on_from, is_of, new_plan};
ghost use Rattle.gq_keeper.specs.Crashes.{Leaves, LeavesSyncing, Elapses};
ghost use Rattle.gq_keeper.specs.Durable.{AllSealed, IsAnew, kept_text, number_after};
ghost use Rattle.gq_keeper.specs.Starting.{facts_read, RecallsAll, RefusesLines, EndsAt, behind, IsDamaged};
ghost use Rattle.gq_keeper.specs.LeavingOut.{RecallsBut, readable_but, facts_but};
ghost use Rattle.gq_keeper.specs.Started.{ForReady, ForDamage, ForAnother, ForStrange};
ghost use Rattle.gq_keeper.specs.Restarting.{Restarts, ReadsAs};

use crate::keeping::keep;
use crate::leaving_out::{Nothing, recall_unless};
use crate::plan::{goes_on_from, is_plan};
use crate::renewing::renew;
use crate::{Disk, Fault, Lasting, LeavesOut, Log, Machine, Plan, Unread};
use gq_journal::{first_batch, first_whole_line, has_right_batch};
use gq_memory::{OutOfMemory, slice_copied};
use std::alloc::Global;

/// What was read of a journal.
#[derive(Drop)]
pub struct Recovered {
    /// The number of the next batch.
    pub number: u64,
    /// Where a wrong end was cut off.
    pub cut: Option<usize>,
}

/// What a start finds.
#[derive(Drop)]
pub enum Started {
    /// The journal is read.
    Ready(Recovered),
    /// The first batch that is wrong begins at this byte, and a right one is behind it.
    Damaged(usize),
    /// The journal is of another node or grid, or of a plan from which this one doesn't go on.
    Another,
    /// The machine doesn't read all lines of the journal's facts.
    Strange,
}

// What a journal holds: where its right batches end, the number of the next one, whether it begins with a plan, and the text of the
// last plan.
#[derive(Drop)]
struct Found<'x> {
    at: usize,
    number: u64,
    begins: bool,
    last: &'x [u8],
}

// The later one of two texts, if it is that of a plan.
fn later_plan<'x>(last: &'x [u8], body: &'x [u8]) -> &'x [u8]
    ensures { result.now ≡ (if is_plan (whole_lines body.now) then body.now else last.now) }
{
    if is_plan(body) { body } else { last }
}

// Whether the journal begins with a plan, where this is its batch of this number.
fn begins_with(begins: bool, number: u64, body: &[u8]) -> bool
    ensures first { number ≡ 1 → result ≡ is_plan (whole_lines body.now) }
    ensures later { ¬ (number ≡ 1) → result ≡ begins }
{
    if number == 1 { is_plan(body) } else { begins }
}

// Finds the right batches of a journal.
fn find(alloc: Global, text: &[u8]) -> Result<Found<'_>, OutOfMemory>
    ensures ends { IfOk result (λ found. EndsAt text.now found.at found.number) }
    ensures begins { IfOk result (λ found. found.begins ≡ begins_with_plan (batches_of text.now)) }
    ensures last { IfOk result (λ found. found.last.now ≡ lines_text (last_plan [] (batches_of text.now))) }
{
    let len = text.len();
    let mut rest = text;
    let mut number = 1u64;
    let mut begins = false;
    let mut last: &[u8] = &text[..0];
    while let Some((body, after)) = first_batch(alloc, rest, number)? {
        begins = begins_with(begins, number, body);
        last = later_plan(last, body);
        rest = after;
        number += 1;
    }
    Ok(Found {
        at: len - rest.len(),
        number,
        begins,
        last,
    })
}

// Reads the lines of a batch of facts, but for those that are left out; those of a plan are passed over.
fn recall_lines<M: Machine, F: LeavesOut>(
    machine: &mut M,
    left_out: &F,
    text: &[u8],
) -> Result<(), Unread>
    ensures recalled { OnOk result (RecallsAll (RecallsBut (F.leaves_out left_out.now) M.recalls) machine.old (if is_plan (whole_lines text.now) then [] else whole_lines text.now) machine.new) }
    ensures refused { IfErr result (RefusesLines (list_all (readable_but (F.leaves_out left_out.now) M.readable machine.old) (if is_plan (whole_lines text.now) then [] else whole_lines text.now))) }
{
    if is_plan(text) {
        return Ok(());
    }
    let mut rest = text;
    while let Some((line, after)) = first_whole_line(rest) {
        recall_unless(machine, left_out, line)?;
        rest = after;
    }
    Ok(())
}

// Reads the facts of a journal, but for those that are left out.
fn recall_batches<M: Machine, F: LeavesOut>(
    alloc: Global,
    machine: &mut M,
    left_out: &F,
    text: &[u8],
) -> Result<(), Unread>
    ensures recalled { OnOk result (RecallsAll (RecallsBut (F.leaves_out left_out.now) M.recalls) machine.old (facts_read text.now) machine.new) }
    ensures refused { IfErr result (RefusesLines (list_all (readable_but (F.leaves_out left_out.now) M.readable machine.old) (facts_read text.now))) }
{
    let mut rest = text;
    let mut number = 1u64;
    while let Some((body, after)) = first_batch(alloc, rest, number)? {
        recall_lines(machine, left_out, body)?;
        rest = after;
        number += 1;
    }
    Ok(())
}

// Reads the facts of a journal, but for those that are left out. Answers whether the machine reads all.
fn reads_facts<M: Machine, F: LeavesOut>(
    alloc: Global,
    machine: &mut M,
    left_out: &F,
    text: &[u8],
) -> Result<bool, OutOfMemory>
    ensures recalled { IfOk result (λ reads. reads ≡ true → RecallsAll (RecallsBut (F.leaves_out left_out.now) M.recalls) machine.old (facts_read text.now) machine.new) }
    ensures strange { IfOk result (λ reads. reads ≡ false → list_all (readable_but (F.leaves_out left_out.now) M.readable machine.old) (facts_read text.now) ≡ false) }
{
    match recall_batches(alloc, machine, left_out, text) {
        Ok(()) => Ok(true),
        Err(Unread::Strange) => Ok(false),
        Err(Unread::Memory(refused)) => Err(refused),
    }
}

/// The text of the plan with which the journal of this text begins (`Disk::read` gives it): the machine with which a start begins hangs
/// on it. Where the journal begins with facts it is their text, and where no right batch is at its front it is empty: no start
/// reads such a journal.
pub fn first_plan(alloc: Global, journal: &[u8]) -> Result<&[u8], OutOfMemory>
    ensures lines { IfOk result (λ plan. whole_lines plan.now ≡ first_plan (batches_of journal.now)) }
    ensures text { IfOk result (λ plan. plan.now ≡ lines_text (first_plan (batches_of journal.now))) }
{
    match first_batch(alloc, journal, 1)? {
        Some((body, _)) => Ok(body),
        None => Ok(&journal[..0]),
    }
}

/// The text of the last plan of the journal of this text, from which the node's plan has to go on; empty where there is none.
pub fn last_plan(alloc: Global, journal: &[u8]) -> Result<&[u8], OutOfMemory>
    ensures { IfOk result (λ plan. plan.now ≡ lines_text (last_plan [] (batches_of journal.now))) }
{
    Ok(find(alloc, journal)?.last)
}

/// Reads the journal of earlier runs: the lines of the facts of all its right batches, in order. A wrong end is cut off. The plan is
/// appended as a batch where it isn't the last one. Where a right batch is anywhere behind a wrong one it is told that the journal is
/// damaged, and where; and it is told where the journal is of another node or of a plan from which this one doesn't go on, or where
/// the machine doesn't read one of its lines: the journal stays as it was. Whenever it is killed, another start reads the same.
///
/// The caller first reads the journal by `Disk::read`, which makes sure of it, and gives its text here as `journal`. It then makes the
/// machine: one with which a start begins from a journal that begins with the plan that `first_plan` finds in this text (`blank`).
pub fn start<M: Lasting, D: Disk, P: Plan>(
    alloc: Global,
    machine: &mut M,
    disk: &mut D,
    plan: &P,
    journal: &[u8],
) -> Result<Started, Fault>
    requires read { journal.now ≡ D.seen disk.old }
    requires synced { D.synced disk.old ≡ D.seen disk.old }
    requires blank { M.blank (first_plan (batches_of (D.seen disk.old))) machine.old machine.old }
    requires plan { IsPlan (P.text plan.now) }
    requires of_plan { M.is_of (whole_lines (P.text plan.now)) machine.old }
    ensures sealed { IfOk result (λ found. ForReady found (λ reading. AllSealed (D.seen disk.new) (D.synced disk.new) reading.number)) }
    ensures restarts { IfOk result (λ found. ForReady found (λ reading. Restarts M.recalls M.readable M.blank M.rests (whole_lines (P.text plan.now)) machine.new (D.synced disk.new))) }
    ensures recalled { IfOk result (λ found. ForReady found (λ reading. RecallsAll M.recalls machine.old (facts_read (D.seen disk.old)) machine.new)) }
    ensures of_plan { IfOk result (λ found. ForReady found (λ reading. M.is_of (whole_lines (P.text plan.now)) machine.new)) }
    ensures goes_on { IfOk result (λ found. ForReady found (λ reading. is_of (P.goes_on plan.now) (P.text plan.now) (batches_of (D.seen disk.old)) ≡ true)) }
    ensures cut { IfOk result (λ found. ForReady found (λ reading. MatchOption reading.cut (behind (D.seen disk.old) ≡ []) (λ at. behind (D.seen disk.old) ≡ drop at (D.seen disk.old)))) }
    ensures none { IfOk result (λ found. ForReady found (λ reading. has_right_batch (behind (D.seen disk.old)) ≡ false)) }
    ensures damaged { IfOk result (λ found. ForDamage found (λ at. IsDamaged (D.seen disk.old) at × (D.seen disk.new ≡ D.seen disk.old))) }
    ensures another { IfOk result (λ found. ForAnother found ((is_of (P.goes_on plan.now) (P.text plan.now) (batches_of (D.seen disk.old)) ≡ false) × (D.seen disk.new ≡ D.seen disk.old))) }
    ensures strange { IfOk result (λ found. ForStrange found ((list_all (M.readable machine.old) (facts_read (D.seen disk.old)) ≡ false) × (D.seen disk.new ≡ D.seen disk.old))) }
    ensures crash { Elapses (D.instant disk.old) (D.instant disk.new) (D.left_since disk.old) (D.left_since disk.new)
        (ReadsAs (whole_lines (P.text plan.now)) (D.seen disk.old)) }
{
    let found = find(alloc, journal)?;
    if has_right_behind(alloc, journal, found.at)? {
        return Ok(Started::Damaged(found.at));
    }
    if !is_of(plan, found.begins, found.last)? {
        return Ok(Started::Another);
    }
    if !reads_facts(alloc, machine, &Nothing, journal)? {
        return Ok(Started::Strange);
    }
    let cut = mend(disk, journal, found.at)?;
    let number = append_plan(alloc, disk, plan.text(), found.last, found.number)?;
    Ok(Started::Ready(Recovered { number, cut }))
}

/// The same without some of the facts: the machine is made of the others, and the journal is written anew, of the plan and of what a start
/// needs of that machine, so that none that was left out is in it. Its wrong end is gone with it. Damage, another plan and strange
/// lines are told as by [`start`], but that no line is strange that is left out; the journal stays as it was then. Whenever it is killed, the
/// journal is the old one, or the new one whole.
///
/// The machine is one that was never started; it need not begin with the plan that `first_plan` finds.
pub fn start_without<M: Lasting, D: Disk, P: Plan, F: LeavesOut>(
    alloc: Global,
    machine: &mut M,
    disk: &mut D,
    plan: &P,
    journal: &[u8],
    left_out: &F,
) -> Result<Started, Fault>
    requires read { journal.now ≡ D.seen disk.old }
    requires plan { IsPlan (P.text plan.now) }
    requires of_plan { M.is_of (whole_lines (P.text plan.now)) machine.old }
    ensures sealed { IfOk result (λ found. ForReady found (λ reading. AllSealed (D.seen disk.new) (D.synced disk.new) reading.number)) }
    ensures restarts { IfOk result (λ found. ForReady found (λ reading. Restarts M.recalls M.readable M.blank M.rests (whole_lines (P.text plan.now)) machine.new (D.synced disk.new))) }
    ensures anew { IfOk result (λ found. ForReady found (λ reading. IsAnew M.recalls M.readable M.blank M.rests machine.new (P.text plan.now) (D.synced disk.new) reading.number)) }
    ensures recalled { IfOk result (λ found. ForReady found (λ reading. RecallsAll M.recalls machine.old (facts_but (F.leaves_out left_out.now) (D.seen disk.old)) machine.new)) }
    ensures of_plan { IfOk result (λ found. ForReady found (λ reading. M.is_of (whole_lines (P.text plan.now)) machine.new)) }
    ensures goes_on { IfOk result (λ found. ForReady found (λ reading. is_of (P.goes_on plan.now) (P.text plan.now) (batches_of (D.seen disk.old)) ≡ true)) }
    ensures cut { IfOk result (λ found. ForReady found (λ reading. MatchOption reading.cut (behind (D.seen disk.old) ≡ []) (λ at. behind (D.seen disk.old) ≡ drop at (D.seen disk.old)))) }
    ensures none { IfOk result (λ found. ForReady found (λ reading. has_right_batch (behind (D.seen disk.old)) ≡ false)) }
    ensures damaged { IfOk result (λ found. ForDamage found (λ at. IsDamaged (D.seen disk.old) at × (D.seen disk.new ≡ D.seen disk.old))) }
    ensures another { IfOk result (λ found. ForAnother found ((is_of (P.goes_on plan.now) (P.text plan.now) (batches_of (D.seen disk.old)) ≡ false) × (D.seen disk.new ≡ D.seen disk.old))) }
    ensures strange { IfOk result (λ found. ForStrange found ((list_all (M.readable machine.old) (facts_but (F.leaves_out left_out.now) (D.seen disk.old)) ≡ false) × (D.seen disk.new ≡ D.seen disk.old))) }
    ensures crash { Elapses (D.instant disk.old) (D.instant disk.new) (D.left_since disk.old) (D.left_since disk.new)
        (λ left. Leaves (D.synced disk.old) (D.seen disk.old) left ⊎ (RecallsAll M.recalls machine.old (facts_but (F.leaves_out left_out.now) (D.seen disk.old)) machine.new × (is_of (P.goes_on plan.now) (P.text plan.now) (batches_of (D.seen disk.old)) ≡ true) × Restarts M.recalls M.readable M.blank M.rests (whole_lines (P.text plan.now)) machine.new left)) }
{
    let found = find(alloc, journal)?;
    let is_damaged = has_right_behind(alloc, journal, found.at)?;
    if is_damaged {
        return Ok(Started::Damaged(found.at));
    }
    if !is_of(plan, found.begins, found.last)? {
        return Ok(Started::Another);
    }
    if !reads_facts(alloc, machine, left_out, journal)? {
        return Ok(Started::Strange);
    }
    let number = renew(alloc, machine, plan.text(), disk)?;
    let cut = wrong_end(journal, found.at);
    Ok(Started::Ready(Recovered { number, cut }))
}

// Where the right batches end, if something is behind them.
fn wrong_end(text: &[u8], at: usize) -> Option<usize>
    requires { at ≤ length text.now }
    ensures { MatchOption result (drop at text.now ≡ []) (λ place. place ≡ at) }
{
    if at == text.len() {
        return None;
    }
    Some(at)
}

// Whether there is a right batch somewhere behind the place.
fn has_right_behind(alloc: Global, text: &[u8], at: usize) -> Result<bool, OutOfMemory>
    requires { at ≤ length text.now }
    ensures { IfOk result (λ right. right ≡ has_right_batch (drop at text.now)) }
{
    has_right_batch(alloc, &text[at..])
}

// Whether the journal is of this plan's node: it begins with a plan, and this one goes on from its last.
fn is_of<P: Plan>(plan: &P, begins: bool, last: &[u8]) -> Result<bool, OutOfMemory>
    ensures { IfOk result (λ is. is ≡ (begins && goes_on_from (P.goes_on plan.now) (P.text plan.now) last.now)) }
{
    if !begins {
        return Ok(false);
    }
    goes_on_from(plan, last)
}

// Cuts off what is behind the right batches. Answers where.
fn mend<D: Disk>(disk: &mut D, text: &[u8], at: usize) -> Result<Option<usize>, Fault>
    requires seen { D.seen disk.old ≡ text.now }
    requires synced { D.synced disk.old ≡ text.now }
    requires within { at ≤ length text.now }
    ensures seen { OnOk result (D.seen disk.new ≡ take at text.now) }
    ensures synced { OnOk result (D.synced disk.new ≡ take at text.now) }
    ensures cut { IfOk result (λ cut. MatchOption cut (drop at text.now ≡ []) (λ place. place ≡ at)) }
    ensures crash { Elapses (D.instant disk.old) (D.instant disk.new) (D.left_since disk.old) (D.left_since disk.new) (Leaves (take at text.now) text.now) }
{
    if at == text.len() {
        return Ok(None);
    }
    disk.cut(at)?;
    disk.sync()?;
    Ok(Some(at))
}

// The plan, where it isn't the last one; else nothing.
fn new_plan(alloc: Global, plan: &[u8], last: &[u8]) -> Result<Vec<u8>, OutOfMemory>
    ensures { IfOk result (λ new. new.items ≡ new_plan plan.now last.now) }
{
    if last == plan {
        return Ok(Vec::new(alloc));
    }
    slice_copied(alloc, plan)
}

// Appends the plan as a batch of this number and syncs it, where it isn't the last plan. Answers the number of the next batch.
fn append_plan<L: Log>(
    alloc: Global,
    log: &mut L,
    plan: &[u8],
    last: &[u8],
    number: u64,
) -> Result<u64, Fault>
    requires { L.seen log.old ≡ L.synced log.old }
    ensures synced { OnOk result (L.synced log.new ≡ L.synced log.old ++ kept_text number (new_plan plan.now last.now)) }
    ensures all { OnOk result (L.seen log.new ≡ L.synced log.new) }
    ensures number { IfOk result (λ next. next ≡ number_after number (new_plan plan.now last.now)) }
    ensures crash { Elapses (L.instant log.old) (L.instant log.new) (L.left_since log.old) (L.left_since log.new)
        (LeavesSyncing (L.synced log.old) (L.synced log.old ++ kept_text number (new_plan plan.now last.now))) }
{
    let mut batch = new_plan(alloc, plan, last)?;
    let mut next = number;
    keep(log, &mut next, &mut batch)?;
    Ok(next)
}
