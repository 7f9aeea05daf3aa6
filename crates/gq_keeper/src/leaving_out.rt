//! Which lines of facts a start leaves out.
//!
//! A journal is written anew as somebody leaves, so that he is out of it at a moment that can be told and shown. It costs
//! what a start with `--anew` costs, once for each who leaves. If his facts were read and dropped at each start, each start
//! had to know all plans between.

ghost use Rattle.std.specs.Prelude.{◌≡◌, ℕ, List, Bool, OnOk, IfErr};
ghost use Rattle.gq_keeper.specs.LeavingOut.{RecallsBut, readable_but};
ghost use Rattle.gq_keeper.specs.Starting.{RefusesLines};

use crate::{Machine, Unread};

/// Which lines of facts a start leaves out: they are as if the journal did not have them.
pub trait LeavesOut {
    /// Whether this line is left out.
    ghost leaves_out: { Self → List ℕ → Bool };

    /// Whether this line is left out.
    fn leaves_out(&self, line: &[u8]) -> bool
        ensures { result ≡ leaves_out self.now line.now };
}

/// No line is left out.
#[derive(Drop)]
pub(crate) struct Nothing;

impl LeavesOut for Nothing {
    ghost use Rattle.gq_keeper.specs.LeavingOut.{none_left_out};

    ghost leaves_out = { λ it. none_left_out };

    fn leaves_out(&self, _line: &[u8]) -> bool {
        false
    }
}

/// Reads the line, unless it is left out.
pub(crate) fn recall_unless<M: Machine, F: LeavesOut>(
    machine: &mut M,
    left_out: &F,
    line: &[u8],
) -> Result<(), Unread>
    ensures recalled { OnOk result (RecallsBut (F.leaves_out left_out.now) M.recalls machine.old line.now machine.new) }
    ensures refused { IfErr result (RefusesLines (readable_but (F.leaves_out left_out.now) M.readable machine.old line.now)) }
{
    if left_out.leaves_out(line) {
        return Ok(());
    }
    machine.recall(line)
}
