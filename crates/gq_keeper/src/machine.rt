//! What takes the lines.

ghost use Rattle.std.specs.Prelude.{◌≡◌, ℕ, List, Bool, true, OnOk, IfErr};
ghost use Rattle.std.specs.List.{list_all};
ghost use Rattle.gq_keeper.specs.Plans.{are_facts};
ghost use Rattle.gq_keeper.specs.Runs.{Takes};
ghost use Rattle.gq_keeper.specs.Starting.{RecallsAll, RefusesLines};
ghost use Rattle.gq_keeper.specs.Restarting.{Needs};
ghost use Rattle.gq_keeper.specs.declared.machine.Unread.TheVariants.{Memory};

use crate::Fault;
use gq_memory::OutOfMemory;

/// Why a line of an earlier run is not read.
#[derive(Drop)]
pub enum Unread {
    /// Memory was wanting.
    Memory(OutOfMemory),
    /// The line is none that the machine reads.
    Strange,
}

impl From<OutOfMemory> for Unread {
    ghost from_gives = { λ refused e. e ≡ Memory refused };

    fn from(refused: OutOfMemory) -> Unread {
        Unread::Memory(refused)
    }
}

/// A machine that takes line after line. Of each step it gives the facts that must not be forgotten, as lines, and what is to be
/// shown, which rests on them.
pub trait Machine {
    /// The step of this machine on this line may give these lines of facts, tell this and lead to that machine.
    ghost steps: { Self → List ℕ → List (List ℕ) → List ℕ → Self → Type 0 };

    /// Reading a line of an earlier run may lead from this machine to that one.
    ghost recalls: { Self → List ℕ → Self → Type 0 };

    /// Whether this machine reads a line as one of an earlier run.
    ghost readable: { Self → List ℕ → Bool };

    /// Reads a line of an earlier run's journal. It is refused only where memory is wanting, or where it is none that this machine
    /// reads. After an `Err` the machine is given up.
    fn recall(&mut self, line: &[u8]) -> Result<(), Unread>
        ensures recalled { OnOk result (recalls self.old line.now self.new) }
        ensures refused { IfErr result (RefusesLines (readable self.old line.now)) };

    /// Takes the line, and appends what the step gives. What its facts name elsewhere than in the journal was made sure of then. A fault, as
    /// want of memory or one of what lies elsewhere, ends the machine: it is given up, and nothing of the step is kept or shown.
    fn take(&mut self, line: &[u8], facts: &mut Vec<u8>, told: &mut Vec<u8>) -> Result<(), Fault>
        ensures { OnOk result (Takes steps self.old line.now facts.old.items facts.new.items told.old.items told.new.items self.new) };

    /// What is readable doesn't change with a line that was read.
    ghost reads_on: { (old : Self) (line : List ℕ) (new : Self) (other : List ℕ) → recalls old line new → readable new other ≡ readable old other };
}

/// A machine that a start makes again. Of what it was the start leaves what the facts say: what was going on is gone, and numbers that
/// a fact reserves are passed over, used or not.
pub trait Lasting: Machine {
    /// A start that makes this machine, from a journal that begins with this plan, begins with that one.
    ghost blank: { List (List ℕ) → Self → Self → Type 0 };

    /// The machine is of this plan, of these lines.
    ghost is_of: { List (List ℕ) → Self → Type 0 };

    /// That machine is this one at rest.
    ghost rests: { Self → Self → Type 0 };

    /// How many bytes the contents take that a start needs.
    ghost contents: { Self → ℕ };

    /// How many bytes the contents take that a start needs: how long their journal may get. It costs no look at each of them.
    fn content_bytes(&self) -> usize
        ensures { result ≡ contents self.now };

    /// Appends the lines of the facts that a start needs, from a journal that begins with a plan of which the machine is.
    fn put_needed(&self, facts: &mut Vec<u8>) -> Result<(), Fault>
        ensures { (plan : List (List ℕ)) → is_of plan self.now → OnOk result (Needs Self.recalls Self.readable (blank plan) rests self.now facts.old.items facts.new.items) };

    /// The facts of a step are lines of facts.
    ghost gives_facts: { (old : Self) (line : List ℕ) (facts : List (List ℕ)) (told : List ℕ) (new : Self) → Self.steps old line facts told new → are_facts facts ≡ true };

    /// A start reads the facts of a step.
    ghost gives_readable: { (plan : List (List ℕ)) (old : Self) (line : List ℕ) (facts : List (List ℕ)) (told : List ℕ) (new other : Self) → Self.steps old line facts told new → blank plan old other → list_all (Self.readable other) facts ≡ true };

    /// A step doesn't change with what a start begins.
    ghost keeps_blank: { (plan : List (List ℕ)) (old : Self) (line : List ℕ) (facts : List (List ℕ)) (told : List ℕ) (new other : Self) → Self.steps old line facts told new → blank plan new other → blank plan old other };

    /// A step doesn't change of which plan the machine is.
    ghost keeps_plan: { (plan : List (List ℕ)) (old : Self) (line : List ℕ) (facts : List (List ℕ)) (told : List ℕ) (new : Self) → Self.steps old line facts told new → is_of plan old → is_of plan new };

    /// Nor does a line that was read.
    ghost recalls_plan: { (plan : List (List ℕ)) (old : Self) (line : List ℕ) (new : Self) → Self.recalls old line new → is_of plan old → is_of plan new };

    /// Reading the facts of a step makes of the machine before it, at rest, the machine behind it, at rest.
    ghost keeps_rest: { (old : Self) (line : List ℕ) (facts : List (List ℕ)) (told : List ℕ) (new before after : Self) → Self.steps old line facts told new → rests old before → RecallsAll Self.recalls before facts after → rests new after };

    /// What a start read another start reads.
    ghost reads_again: { (plan : List (List ℕ)) (first last new : Self) (lines : List (List ℕ)) → blank plan first first → RecallsAll Self.recalls first lines last → blank plan last new → list_all (Self.readable new) lines ≡ true };

    /// A machine that a start made is one at rest: another start with the same facts makes it again.
    ghost starts_again: { (plan : List (List ℕ)) (first last new again : Self) (lines : List (List ℕ)) → blank plan first first → RecallsAll Self.recalls first lines last → blank plan last new → RecallsAll Self.recalls new lines again → rests last again };
}
