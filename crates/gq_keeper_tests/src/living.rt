//! A register from a start to the end of its input.

ghost use Rattle.std.specs.Prelude.{◌≡◌, ◌⊎◌, ℕ, List, [], true, false, drop, IfOk, MatchOption};
ghost use Rattle.std.specs.List.{list_all};
ghost use Rattle.gq_journal.specs.Batches.{whole_lines, batches_of, has_right_batch};
ghost use Rattle.gq_keeper.specs.Plans.{IsPlan, first_plan, is_of};
ghost use Rattle.gq_keeper.specs.Crashes.{Leaves, Elapses};
ghost use Rattle.gq_keeper.specs.Durable.{AllSealed};
ghost use Rattle.gq_keeper.specs.Starting.{facts_read, RecallsAll, behind, IsDamaged};
ghost use Rattle.gq_keeper.specs.Started.{ForReady, ForDamage, ForAnother, ForStrange};
ghost use Rattle.gq_keeper.specs.Restarting.{Restarts, ReadsAs};

use crate::Register;
use gq_keeper::{Disk, Fault, Lasting, Output, Plan, Started, Watch, renew, serve, start};
use std::alloc::Global;
use std::io::Read;

/// How a register was started.
#[derive(Drop)]
pub enum Lived {
    /// It took its input. A wrong end may have been cut off at this place.
    Served(Option<usize>),
    /// The journal is damaged at this place.
    Damaged(usize),
    /// The journal is of another plan.
    Another,
    /// The register doesn't read a line of the journal.
    Strange,
}

/// The most bytes of a line.
pub const LONGEST: usize = 4_095;

/// Writes a first journal.
pub fn begin<D: Disk, P: Plan>(alloc: Global, disk: &mut D, plan: &P) -> Result<u64, Fault>
    requires { IsPlan (P.text plan.now) }
{
    renew(alloc, &Register::new(alloc), plan.text(), disk)
}

/// A start from a journal of which nothing was read yet: what reading it and starting from what was read promise together.
pub fn read_and_start<M: Lasting, D: Disk, P: Plan>(
    alloc: Global,
    machine: &mut M,
    disk: &mut D,
    plan: &P,
) -> Result<Started, Fault>
    requires blank { M.blank (first_plan (batches_of (D.seen disk.old))) machine.old machine.old }
    requires plan { IsPlan (P.text plan.now) }
    requires of_plan { M.is_of (whole_lines (P.text plan.now)) machine.old }
    ensures sealed { IfOk result (λ found. ForReady found (λ reading. AllSealed (D.seen disk.new) (D.synced disk.new) reading.number)) }
    ensures restarts { IfOk result (λ found. ForReady found (λ reading. Restarts M.recalls M.readable M.blank M.rests (whole_lines (P.text plan.now)) machine.new (D.synced disk.new))) }
    ensures recalled { IfOk result (λ found. ForReady found (λ reading. RecallsAll M.recalls machine.old (facts_read (D.seen disk.old)) machine.new)) }
    ensures of_plan { IfOk result (λ found. ForReady found (λ reading. M.is_of (whole_lines (P.text plan.now)) machine.new)) }
    ensures goes_on { IfOk result (λ found. ForReady found (λ reading. is_of (P.goes_on plan.now) (P.text plan.now) (batches_of (D.seen disk.old)) ≡ true)) }
    ensures cut { IfOk result (λ found. ForReady found (λ reading. MatchOption reading.cut (behind (D.seen disk.old) ≡ []) (λ at. behind (D.seen disk.old) ≡ drop at (D.seen disk.old)))) }
    ensures none { IfOk result (λ found. ForReady found (λ reading. has_right_batch (behind (D.seen disk.old)) ≡ false)) }
    ensures damaged { IfOk result (λ found. ForDamage found (λ at. IsDamaged (D.seen disk.old) at × (D.seen disk.new ≡ D.seen disk.old))) }
    ensures another { IfOk result (λ found. ForAnother found ((is_of (P.goes_on plan.now) (P.text plan.now) (batches_of (D.seen disk.old)) ≡ false) × (D.seen disk.new ≡ D.seen disk.old))) }
    ensures strange { IfOk result (λ found. ForStrange found ((list_all (M.readable machine.old) (facts_read (D.seen disk.old)) ≡ false) × (D.seen disk.new ≡ D.seen disk.old))) }
    ensures crash { Elapses (D.instant disk.old) (D.instant disk.new) (D.left_since disk.old) (D.left_since disk.new)
        (λ left. Leaves (D.synced disk.old) (D.seen disk.old) left ⊎ ReadsAs (whole_lines (P.text plan.now)) (D.seen disk.old) left) }
{
    let journal = disk.read(alloc)?;
    start(alloc, machine, disk, plan, journal.as_slice())
}

/// Starts the register from the journal, and takes the input to its end.
pub fn live<D: Disk, P: Plan, R: Read, O: Output, W: Watch<Register>>(
    alloc: Global,
    register: &mut Register,
    disk: &mut D,
    plan: &P,
    input: &mut R,
    out: &mut O,
    watch: &mut W,
) -> Result<Lived, Fault>
    requires blank { register.old ≡ [] }
    requires plan { IsPlan (P.text plan.now) }
    requires may { (synced shown : List ℕ) → O.allows synced shown }
{
    match read_and_start(alloc, register, disk, plan)? {
        Started::Ready(reading) => {
            serve(
                alloc,
                LONGEST,
                register,
                plan.text(),
                input,
                disk,
                out,
                watch,
                reading.number,
            )?;
            Ok(Lived::Served(reading.cut))
        }
        Started::Damaged(at) => Ok(Lived::Damaged(at)),
        Started::Another => Ok(Lived::Another),
        Started::Strange => Ok(Lived::Strange),
    }
}
