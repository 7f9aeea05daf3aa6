//! A node over its journal, from its start to the end of its input.

ghost use Rattle.std.specs.Prelude.{◌≡◌, ◌⊎◌, ◌++◌, ℕ, List, true, false, None, Ok, IsSome, IfOk, IfErr, OnOk, if◌then◌else◌};
ghost use Rattle.gq_journal.specs.Batches.{whole_lines, lines_text, batches_of, has_right_batch};
ghost use Rattle.gq_keeper.specs.Crashes.{Elapses, Leaves, LeavesSyncing};
ghost use Rattle.gq_keeper.specs.Plans.{first_plan, is_of};
ghost use Rattle.gq_setup.specs.GoingOn.{goes_on_from_read};
ghost use Rattle.gq_setup.specs.Texts.{setup_of_node_text};
ghost use Rattle.gq_lines.specs.Written.{first_text};
ghost use Rattle.gq_keeper.specs.Durable.{AllSealed, IsAnew};
ghost use Rattle.gq_keeper.specs.Restarting.{Restarts};
ghost use Rattle.std.specs.List.{list_all};
ghost use Rattle.gq_keeper.specs.Started.{ForReady, ForDamage, ForAnother, ForStrange};
ghost use Rattle.gq_keeper.specs.Starting.{RecallsAll, IsDamaged, behind};
ghost use Rattle.gq_service.specs.Faults.{as_fault};
ghost use Rattle.gq_service.specs.Forms.{form_of};
ghost use Rattle.gq_service.specs.Gone.{first_taken, facts_taken, somebody_went};
ghost use Rattle.gq_service.specs.Kinds.{kind};
ghost use Rattle.gq_service.specs.Serving.{IsStarted, IsDurable, GoesOnAs, MayBeLeft, RestartsFrom, ServesInput, TellsForm, TellsDamage, TellsAnother, TellsNoOther, LeavesJournal, journal_found, is_its_journal};

use crate::console::Console;
use crate::fault::NodeFault;
use crate::forms::form_of;
use crate::gone::{OfGone, first_setup, somebody_went};
use crate::mismatch::mismatch_of;
use crate::served::{Maker, Served};
use crate::telling::Telling;
use crate::this_node::ThisNode;
use gq_chunks::longest_of;
use gq_keeper::{
    Disk, Fault, Output, Plan, Started, first_plan, renew, serve, start, start_without,
};
use gq_memory::OutOfMemory;
use std::alloc::Global;
use std::io::Read;

// Writes the first journal. Answers the number of the next batch.
fn begin<M: Served, D: Disk>(
    alloc: Global,
    node: &ThisNode,
    machine: &M,
    disk: &mut D,
) -> Result<u64, NodeFault>
    requires { M.is_of (whole_lines node.now.plan.text.items) machine.now }
    ensures sealed { IfOk result (λ next. AllSealed (D.seen disk.new) (D.synced disk.new) next) }
    ensures restarts { OnOk result (Restarts M.recalls M.readable M.blank M.rests (whole_lines node.now.plan.text.items) machine.now (D.synced disk.new)) }
    ensures form { IfErr result (λ fault. (journal : List ℕ) → TellsForm journal fault) }
    ensures damaged { IfErr result (λ fault. (journal : List ℕ) → TellsDamage journal fault) }
    ensures crash { Elapses (D.instant disk.old) (D.instant disk.new) (D.left_since disk.old) (D.left_since disk.new)
        (λ left. Leaves (D.synced disk.old) (D.seen disk.old) left ⊎ Restarts M.recalls M.readable M.blank M.rests (whole_lines node.now.plan.text.items) machine.now left) }
{
    Ok(renew(alloc, machine, node.plan.text(), disk)?)
}

// Writes the journal anew: the plan, and what a start needs. Answers the number of the next batch.
fn write_anew<M: Served, D: Disk>(
    alloc: Global,
    node: &ThisNode,
    machine: &M,
    disk: &mut D,
) -> Result<u64, NodeFault>
    requires of_plan { M.is_of (whole_lines node.now.plan.text.items) machine.now }
    requires all { D.seen disk.old ≡ D.synced disk.old }
    requires restarts { Restarts M.recalls M.readable M.blank M.rests (whole_lines node.now.plan.text.items) machine.now (D.synced disk.old) }
    ensures sealed { IfOk result (λ next. AllSealed (D.seen disk.new) (D.synced disk.new) next) }
    ensures restarts { OnOk result (Restarts M.recalls M.readable M.blank M.rests (whole_lines node.now.plan.text.items) machine.now (D.synced disk.new)) }
    ensures anew { IfOk result (λ next. IsAnew M.recalls M.readable M.blank M.rests machine.now node.now.plan.text.items (D.synced disk.new) next) }
    ensures form { IfErr result (λ fault. (journal : List ℕ) → TellsForm journal fault) }
    ensures damaged { IfErr result (λ fault. (journal : List ℕ) → TellsDamage journal fault) }
    ensures another { IfErr result TellsNoOther }
    ensures same { IfErr result (LeavesJournal ⊥) }
    ensures crash { Elapses (D.instant disk.old) (D.instant disk.new) (D.left_since disk.old) (D.left_since disk.new)
        (Restarts M.recalls M.readable M.blank M.rests (whole_lines node.now.plan.text.items) machine.now) }
{
    let next = renew(alloc, machine, node.plan.text(), disk)?;
    Ok(next)
}

// Reads the journal that is there. Where tenants went it is written anew, without what names them.
fn read_journal<M: Served, D: Disk>(
    alloc: Global,
    node: &ThisNode,
    went: bool,
    journal: &[u8],
    machine: &mut M,
    disk: &mut D,
) -> Result<Started, Fault>
    requires read { journal.now ≡ D.seen disk.old }
    requires synced { D.synced disk.old ≡ D.seen disk.old }
    requires went { went ≡ somebody_went node.now.plan.setup (D.seen disk.old) }
    requires new { M.is_new node.now.plan.setup node.now.number (first_taken node.now.plan.setup (D.seen disk.old)) machine.old }
    requires blank { went ≡ false → M.blank (first_plan (batches_of (D.seen disk.old))) machine.old machine.old }
    requires of_plan { M.is_of (whole_lines node.now.plan.text.items) machine.old }
    ensures sealed { IfOk result (λ found. ForReady found (λ reading. AllSealed (D.seen disk.new) (D.synced disk.new) reading.number)) }
    ensures restarts { IfOk result (λ found. ForReady found (λ reading. Restarts M.recalls M.readable M.blank M.rests (whole_lines node.now.plan.text.items) machine.new (D.synced disk.new))) }
    ensures of_plan { IfOk result (λ found. ForReady found (λ reading. M.is_of (whole_lines node.now.plan.text.items) machine.new)) }
    ensures recalled { IfOk result (λ found. ForReady found (λ reading. RecallsAll M.recalls machine.old (facts_taken node.now.plan.setup (D.seen disk.old)) machine.new)) }
    ensures anew { went ≡ true → IfOk result (λ found. ForReady found (λ reading. IsAnew M.recalls M.readable M.blank M.rests machine.new node.now.plan.text.items (D.synced disk.new) reading.number)) }
    ensures goes_on { IfOk result (λ found. ForReady found (λ reading. is_of (λ last. goes_on_from_read (setup_of_node_text last) node.now.plan.setup) node.now.plan.text.items (batches_of (D.seen disk.old)) ≡ true)) }
    ensures whole { IfOk result (λ found. ForReady found (λ reading. has_right_batch (behind (D.seen disk.old)) ≡ false)) }
    ensures damaged { IfOk result (λ found. ForDamage found (λ at. IsDamaged (D.seen disk.old) at × (D.seen disk.new ≡ D.seen disk.old))) }
    ensures another { IfOk result (λ found. ForAnother found ((is_of (λ last. goes_on_from_read (setup_of_node_text last) node.now.plan.setup) node.now.plan.text.items (batches_of (D.seen disk.old)) ≡ false) × (D.seen disk.new ≡ D.seen disk.old))) }
    ensures strange { IfOk result (λ found. ForStrange found ((list_all (M.readable machine.old) (facts_taken node.now.plan.setup (D.seen disk.old)) ≡ false) × (D.seen disk.new ≡ D.seen disk.old))) }
    ensures crash { Elapses (D.instant disk.old) (D.instant disk.new) (D.left_since disk.old) (D.left_since disk.new)
        (λ left. GoesOnAs went node.now.plan.setup node.now.number (D.seen disk.old) left ⊎ RestartsFrom (kind M.steps M.recalls M.readable M.blank M.rests M.is_new) node.now.plan.setup node.now.number (D.seen disk.old) left) }
{
    let plan = &node.plan;
    if went {
        let of_gone = OfGone {
            setup: plan.setup(),
        };
        return start_without(alloc, machine, disk, plan, journal, &of_gone);
    }
    start(alloc, machine, disk, plan, journal)
}

// Goes on from the journal that is there. Answers the number of the next batch.
fn go_on<M: Served, D: Disk, C: Console>(
    alloc: Global,
    node: &ThisNode,
    went: bool,
    journal: &[u8],
    console: &C,
    machine: &mut M,
    disk: &mut D,
) -> Result<u64, NodeFault>
    requires read { journal.now ≡ D.seen disk.old }
    requires synced { D.synced disk.old ≡ D.seen disk.old }
    requires went { went ≡ somebody_went node.now.plan.setup (D.seen disk.old) }
    requires new { M.is_new node.now.plan.setup node.now.number (first_taken node.now.plan.setup (D.seen disk.old)) machine.old }
    requires blank { went ≡ false → M.blank (first_plan (batches_of (D.seen disk.old))) machine.old machine.old }
    requires of_plan { M.is_of (whole_lines node.now.plan.text.items) machine.old }
    ensures sealed { IfOk result (λ next. AllSealed (D.seen disk.new) (D.synced disk.new) next) }
    ensures restarts { OnOk result (Restarts M.recalls M.readable M.blank M.rests (whole_lines node.now.plan.text.items) machine.new (D.synced disk.new)) }
    ensures of_plan { OnOk result (M.is_of (whole_lines node.now.plan.text.items) machine.new) }
    ensures recalled { OnOk result (RecallsAll M.recalls machine.old (facts_taken node.now.plan.setup (D.seen disk.old)) machine.new) }
    ensures without { went ≡ true → IfOk result (λ next. IsAnew M.recalls M.readable M.blank M.rests machine.new node.now.plan.text.items (D.synced disk.new) next) }
    ensures its { OnOk result (is_its_journal node.now.plan.setup node.now.number (D.seen disk.old) ≡ true) }
    ensures whole { OnOk result (has_right_batch (behind (D.seen disk.old)) ≡ false) }
    ensures form { IfErr result (λ fault. (journal : List ℕ) → TellsForm journal fault) }
    ensures damaged { IfErr result (TellsDamage (D.seen disk.old)) }
    ensures another { IfErr result (TellsAnother (kind M.steps M.recalls M.readable M.blank M.rests M.is_new) node.now.plan.setup node.now.number (D.seen disk.old)) }
    ensures same { IfErr result (LeavesJournal (D.seen disk.new ≡ D.seen disk.old)) }
    ensures crash { Elapses (D.instant disk.old) (D.instant disk.new) (D.left_since disk.old) (D.left_since disk.new)
        (λ left. GoesOnAs went node.now.plan.setup node.now.number (D.seen disk.old) left ⊎ RestartsFrom (kind M.steps M.recalls M.readable M.blank M.rests M.is_new) node.now.plan.setup node.now.number (D.seen disk.old) left) }
{
    match read_journal(alloc, node, went, journal, machine, disk)? {
        Started::Ready(recovered) => {
            tell_cut(console, recovered.cut);
            Ok(recovered.number)
        }
        Started::Damaged(at) => Err(NodeFault::Damaged(at)),
        Started::Another => Err(NodeFault::Another(mismatch_of(alloc, node, journal)?)),
        Started::Strange => Err(NodeFault::Strange),
    }
}

// Tells where a wrong end was cut off.
fn tell_cut<C: Console>(console: &C, cut: Option<usize>) {
    if let Some(at) = cut {
        console.tell_cut(at);
    }
}

// Tells that the node takes lines.
fn tell_ready<C: Console>(console: &C, node: &ThisNode, facts: u64, lacked: usize) {
    let grid = node.plan.setup().plan().grid();
    console.tell_ready(node.number, grid.rows(), grid.cols(), facts, lacked);
}

// Begins a journal, or goes on from the one that is there. Answers the number of the next batch.
fn begin_or_go_on<M: Served, D: Disk, C: Console>(
    alloc: Global,
    node: &ThisNode,
    is_new: bool,
    went: bool,
    journal: &[u8],
    console: &C,
    machine: &mut M,
    disk: &mut D,
) -> Result<u64, NodeFault>
    requires read { is_new ≡ false → journal.now ≡ D.seen disk.old }
    requires synced { is_new ≡ false → D.synced disk.old ≡ D.seen disk.old }
    requires begun { is_new ≡ true → M.is_new node.now.plan.setup node.now.number (Ok node.now.plan.setup) machine.old }
    requires went { is_new ≡ false → went ≡ somebody_went node.now.plan.setup (D.seen disk.old) }
    requires found { is_new ≡ false → M.is_new node.now.plan.setup node.now.number (first_taken node.now.plan.setup (D.seen disk.old)) machine.old }
    requires blank { is_new ≡ false → went ≡ false → M.blank (first_plan (batches_of (D.seen disk.old))) machine.old machine.old }
    requires of_plan { M.is_of (whole_lines node.now.plan.text.items) machine.old }
    ensures sealed { IfOk result (λ next. AllSealed (D.seen disk.new) (D.synced disk.new) next) }
    ensures restarts { OnOk result (Restarts M.recalls M.readable M.blank M.rests (whole_lines node.now.plan.text.items) machine.new (D.synced disk.new)) }
    ensures of_plan { OnOk result (M.is_of (whole_lines node.now.plan.text.items) machine.new) }
    ensures started { OnOk result (IsStarted (kind M.steps M.recalls M.readable M.blank M.rests M.is_new) node.now.plan.setup node.now.number (journal_found is_new (D.seen disk.old)) machine.new) }
    ensures without { is_new ≡ false → went ≡ true → IfOk result (λ next. IsAnew M.recalls M.readable M.blank M.rests machine.new node.now.plan.text.items (D.synced disk.new) next) }
    ensures its { is_new ≡ false → OnOk result (is_its_journal node.now.plan.setup node.now.number (D.seen disk.old) ≡ true) }
    ensures whole { is_new ≡ false → OnOk result (has_right_batch (behind (D.seen disk.old)) ≡ false) }
    ensures form { IfErr result (λ fault. (journal : List ℕ) → TellsForm journal fault) }
    ensures damaged { IfErr result (TellsDamage (D.seen disk.old)) }
    ensures another { is_new ≡ false → IfErr result (TellsAnother (kind M.steps M.recalls M.readable M.blank M.rests M.is_new) node.now.plan.setup node.now.number (D.seen disk.old)) }
    ensures same { is_new ≡ false → IfErr result (LeavesJournal (D.seen disk.new ≡ D.seen disk.old)) }
    ensures crash { Elapses (D.instant disk.old) (D.instant disk.new) (D.left_since disk.old) (D.left_since disk.new)
        (MayBeLeft (kind M.steps M.recalls M.readable M.blank M.rests M.is_new) node.now.plan.setup node.now.number is_new (D.synced disk.old) (D.seen disk.old)) }
{
    if is_new {
        begin(alloc, node, machine, disk)
    } else {
        go_on(alloc, node, went, journal, console, machine, disk)
    }
}

// The same, and then writes the journal anew where that is asked for.
fn begin_or_write_anew<M: Served, D: Disk, C: Console>(
    alloc: Global,
    node: &ThisNode,
    is_new: bool,
    is_anew: bool,
    went: bool,
    journal: &[u8],
    console: &C,
    machine: &mut M,
    disk: &mut D,
) -> Result<u64, NodeFault>
    requires read { is_new ≡ false → journal.now ≡ D.seen disk.old }
    requires synced { is_new ≡ false → D.synced disk.old ≡ D.seen disk.old }
    requires begun { is_new ≡ true → M.is_new node.now.plan.setup node.now.number (Ok node.now.plan.setup) machine.old }
    requires went { is_new ≡ false → went ≡ somebody_went node.now.plan.setup (D.seen disk.old) }
    requires found { is_new ≡ false → M.is_new node.now.plan.setup node.now.number (first_taken node.now.plan.setup (D.seen disk.old)) machine.old }
    requires blank { is_new ≡ false → went ≡ false → M.blank (first_plan (batches_of (D.seen disk.old))) machine.old machine.old }
    requires of_plan { M.is_of (whole_lines node.now.plan.text.items) machine.old }
    ensures sealed { IfOk result (λ next. AllSealed (D.seen disk.new) (D.synced disk.new) next) }
    ensures restarts { OnOk result (Restarts M.recalls M.readable M.blank M.rests (whole_lines node.now.plan.text.items) machine.new (D.synced disk.new)) }
    ensures of_plan { OnOk result (M.is_of (whole_lines node.now.plan.text.items) machine.new) }
    ensures started { OnOk result (IsStarted (kind M.steps M.recalls M.readable M.blank M.rests M.is_new) node.now.plan.setup node.now.number (journal_found is_new (D.seen disk.old)) machine.new) }
    ensures anew { is_anew ≡ true → IfOk result (λ next. IsAnew M.recalls M.readable M.blank M.rests machine.new node.now.plan.text.items (D.synced disk.new) next) }
    ensures without { is_new ≡ false → went ≡ true → IfOk result (λ next. IsAnew M.recalls M.readable M.blank M.rests machine.new node.now.plan.text.items (D.synced disk.new) next) }
    ensures its { is_new ≡ false → OnOk result (is_its_journal node.now.plan.setup node.now.number (D.seen disk.old) ≡ true) }
    ensures whole { is_new ≡ false → OnOk result (has_right_batch (behind (D.seen disk.old)) ≡ false) }
    ensures form { IfErr result (λ fault. (journal : List ℕ) → TellsForm journal fault) }
    ensures damaged { IfErr result (TellsDamage (D.seen disk.old)) }
    ensures another { is_new ≡ false → IfErr result (TellsAnother (kind M.steps M.recalls M.readable M.blank M.rests M.is_new) node.now.plan.setup node.now.number (D.seen disk.old)) }
    ensures same { is_new ≡ false → IfErr result (LeavesJournal (D.seen disk.new ≡ D.seen disk.old)) }
    ensures crash { Elapses (D.instant disk.old) (D.instant disk.new) (D.left_since disk.old) (D.left_since disk.new)
        (MayBeLeft (kind M.steps M.recalls M.readable M.blank M.rests M.is_new) node.now.plan.setup node.now.number is_new (D.synced disk.old) (D.seen disk.old)) }
{
    let number = begin_or_go_on(alloc, node, is_new, went, journal, console, machine, disk)?;
    if is_anew {
        return write_anew(alloc, node, machine, disk);
    }
    Ok(number)
}

// The journal that is there, once it is made sure of, or none where one is to be begun. One of another form is refused.
fn journal_text<D: Disk>(alloc: Global, is_new: bool, disk: &mut D) -> Result<Vec<u8>, NodeFault>
    ensures found { is_new ≡ false → IfOk result (λ text. text.items ≡ D.seen disk.old) }
    ensures known { is_new ≡ false → OnOk result (form_of (D.seen disk.old) ≡ None) }
    ensures form { IfErr result (TellsForm (D.seen disk.old)) }
    ensures synced { is_new ≡ false → OnOk result (D.synced disk.new ≡ D.seen disk.new) }
    ensures seen { D.seen disk.new ≡ D.seen disk.old }
    ensures alone { is_new ≡ true → D.synced disk.new ≡ D.synced disk.old }
    ensures crash { Elapses (D.instant disk.old) (D.instant disk.new) (D.left_since disk.old) (D.left_since disk.new)
        (λ left. (is_new ≡ false) × LeavesSyncing (D.synced disk.old) (D.seen disk.old) left) }
    ensures damaged { IfErr result (λ fault. (journal : List ℕ) → TellsDamage journal fault) }
    ensures another { IfErr result TellsNoOther }
{
    if is_new {
        return Ok(Vec::new(alloc));
    }
    let journal = disk.read(alloc)?;
    match form_of(journal.as_slice()) {
        Some(form) => Err(NodeFault::Form(form)),
        None => Ok(journal),
    }
}

// The text of the plan with which the node's journal begins: of the one that is there, or of one that is to be begun.
fn first_text<'x>(
    alloc: Global,
    node: &'x ThisNode,
    is_new: bool,
    journal: &'x [u8],
) -> Result<&'x [u8], OutOfMemory>
    ensures new { is_new ≡ true → IfOk result (λ text. text.now ≡ node.now.plan.text.items) }
    ensures found { is_new ≡ false → IfOk result (λ text. text.now ≡ lines_text (first_plan (batches_of journal.now))) }
{
    if is_new {
        return Ok(node.plan.text());
    }
    first_plan(alloc, journal)
}

// Whether tenants went since the last plan of the journal that is found: none where one is to be begun.
fn tenants_went(
    alloc: Global,
    node: &ThisNode,
    is_new: bool,
    journal: &[u8],
) -> Result<bool, OutOfMemory>
    ensures new { is_new ≡ true → IfOk result (λ went. went ≡ false) }
    ensures found { is_new ≡ false → IfOk result (λ went. went ≡ somebody_went node.now.plan.setup journal.now) }
{
    if is_new {
        return Ok(false);
    }
    somebody_went(alloc, node.plan.setup(), journal)
}

// Starts the machine, which was never started, and takes the lines of the input. The journal's text is let go of in between: it is as
// long as all that was kept.
fn serve_machine<M: Served, D: Disk, I: Read, O: Output, C: Console>(
    alloc: Global,
    node: &ThisNode,
    is_new: bool,
    is_anew: bool,
    went: bool,
    journal: Vec<u8>,
    console: &C,
    machine: &mut M,
    disk: &mut D,
    input: &mut I,
    out: &mut O,
) -> Result<(), NodeFault>
    requires read { is_new ≡ false → journal.items ≡ D.seen disk.old }
    requires synced { is_new ≡ false → D.synced disk.old ≡ D.seen disk.old }
    requires begun { is_new ≡ true → M.is_new node.now.plan.setup node.now.number (Ok node.now.plan.setup) machine.old }
    requires went { is_new ≡ false → went ≡ somebody_went node.now.plan.setup (D.seen disk.old) }
    requires found { is_new ≡ false → M.is_new node.now.plan.setup node.now.number (first_taken node.now.plan.setup (D.seen disk.old)) machine.old }
    requires blank { is_new ≡ false → went ≡ false → M.blank (first_plan (batches_of (D.seen disk.old))) machine.old machine.old }
    requires of_plan { M.is_of (whole_lines node.now.plan.text.items) machine.old }
    requires durable { (synced shown : List ℕ) → IsDurable (kind M.steps M.recalls M.readable M.blank M.rests M.is_new) node.now.plan.setup node.now.number (I.remaining input.old) (O.shown out.old ++ first_text) synced shown → O.allows synced shown }
    ensures served { OnOk result (ServesInput (kind M.steps M.recalls M.readable M.blank M.rests M.is_new) node.now.plan.setup node.now.number (journal_found is_new (D.seen disk.old)) (I.remaining input.old) (O.shown out.old ++ first_text) (D.synced disk.new) (O.shown out.new)) }
    ensures its { is_new ≡ false → OnOk result (is_its_journal node.now.plan.setup node.now.number (D.seen disk.old) ≡ true) }
    ensures whole { is_new ≡ false → OnOk result (has_right_batch (behind (D.seen disk.old)) ≡ false) }
    ensures form { IfErr result (λ fault. (journal : List ℕ) → TellsForm journal fault) }
    ensures damaged { IfErr result (TellsDamage (D.seen disk.old)) }
    ensures another { is_new ≡ false → IfErr result (TellsAnother (kind M.steps M.recalls M.readable M.blank M.rests M.is_new) node.now.plan.setup node.now.number (D.seen disk.old)) }
    ensures crash { Elapses (D.instant disk.old) (D.instant disk.new) (D.left_since disk.old) (D.left_since disk.new)
        (MayBeLeft (kind M.steps M.recalls M.readable M.blank M.rests M.is_new) node.now.plan.setup node.now.number is_new (D.synced disk.old) (D.seen disk.old)) }
{
    let read = journal.as_slice();
    let number = begin_or_write_anew(
        alloc, node, is_new, is_anew, went, read, console, machine, disk,
    )?;
    drop(journal);
    let lacked = machine.registers().lacked();
    tell_ready(console, node, machine.facts(), lacked);
    let chunks = machine.chunks_lacked();
    let mut telling = Telling::new(alloc, console, node.number, lacked > 0, chunks);
    let longest = longest_of(node.plan.setup());
    serve(
        alloc,
        longest,
        machine,
        node.plan.text(),
        input,
        disk,
        out,
        &mut telling,
        number,
    )?;
    Ok(())
}

/// Starts the node from its journal, or with none where one is to be begun, and takes the lines of the input to its end. `durable`
/// says all that is known of what is shown, at each write: it is what the node told by steps whose facts are synced. At the end of
/// the input all its lines were taken so (`served`). A journal that says that it has a form stays as it was, to the byte, whatever happens
/// (`kept`): later programs wrote it. The node goes on only from a journal that is its own (`its`), of which no
/// wrong batch has a right one behind it (`whole`); `Damaged` tells where the first wrong batch begins that has one. `Another`
/// comes only where the journal is not its own, and what it tells of the last plan is so; `Strange` only where a line of the journal
/// says no fact that fits in this node. At any time, also amid the start and while the journal is written anew, a crash leaves what
/// a start reads as the journal that was found, or as this node behind some of its steps (`any_time`).
pub fn serve_node<M: Served + Drop, K: Maker<M> + Drop, D: Disk, I: Read, O: Output, C: Console>(
    alloc: Global,
    node: &ThisNode,
    is_new: bool,
    is_anew: bool,
    console: &C,
    maker: K,
    disk: &mut D,
    input: &mut I,
    out: &mut O,
) -> Result<(), NodeFault>
    requires durable { (synced shown : List ℕ) → IsDurable (kind M.steps M.recalls M.readable M.blank M.rests M.is_new) node.now.plan.setup node.now.number (I.remaining input.old) (O.shown out.old ++ first_text) synced shown → O.allows synced shown }
    ensures served { OnOk result (ServesInput (kind M.steps M.recalls M.readable M.blank M.rests M.is_new) node.now.plan.setup node.now.number (journal_found is_new (D.seen disk.old)) (I.remaining input.old) (O.shown out.old ++ first_text) (D.synced disk.new) (O.shown out.new)) }
    ensures its { is_new ≡ false → OnOk result (is_its_journal node.now.plan.setup node.now.number (D.seen disk.old) ≡ true) }
    ensures whole { is_new ≡ false → OnOk result (has_right_batch (behind (D.seen disk.old)) ≡ false) }
    ensures form { IfErr result (TellsForm (D.seen disk.old)) }
    ensures kept { is_new ≡ false → IsSome (form_of (D.seen disk.old)) → D.seen disk.new ≡ D.seen disk.old }
    ensures damaged { IfErr result (TellsDamage (D.seen disk.old)) }
    ensures another { is_new ≡ false → IfErr result (TellsAnother (kind M.steps M.recalls M.readable M.blank M.rests M.is_new) node.now.plan.setup node.now.number (D.seen disk.old)) }
    ensures any_time { (left : List ℕ) → D.left_since disk.new (D.instant disk.old) left → MayBeLeft (kind M.steps M.recalls M.readable M.blank M.rests M.is_new) node.now.plan.setup node.now.number is_new (D.synced disk.old) (D.seen disk.old) left }
{
    let journal = match journal_text(alloc, is_new, disk) {
        Ok(journal) => journal,
        Err(fault) => return Err(fault),
    };
    let read = journal.as_slice();
    let went = tenants_went(alloc, node, is_new, read)?;
    let first = first_text(alloc, node, is_new, read)?;
    let before = first_setup(alloc, node.plan.setup(), went, first)?;
    let mut machine = maker.make(alloc, node, read, &before)?;
    serve_machine(
        alloc,
        node,
        is_new,
        is_anew,
        went,
        journal,
        console,
        &mut machine,
        disk,
        input,
        out,
    )
}
