//! The plan with which a machine starts.

ghost use Rattle.std.specs.Prelude.{◌≡◌, ℕ, List, Bool, true, IfOk};
ghost use Rattle.gq_journal.specs.Batches.{whole_lines};
ghost use Rattle.gq_keeper.specs.Plans.{is_head, is_plan, IsPlan, head_of, goes_on_from};

use gq_journal::{can_be_sealed, first_whole_line};
use gq_memory::OutOfMemory;

/// The plan with which a machine starts.
pub trait Plan {
    /// Its text: the line `node N of R by C`, and the plan behind it.
    ghost text: { Self → List ℕ };

    /// Whether it goes on from the plan of this text, which is of the same node and grid.
    ghost goes_on: { Self → List ℕ → Bool };

    /// Its text.
    fn text(&self) -> &[u8]
        ensures { result.now ≡ text self.now };

    /// Whether it goes on from another plan. It is not told only where memory is wanting.
    fn goes_on(&self, last: &[u8]) -> Result<bool, OutOfMemory>
        ensures { IfOk result (λ goes. goes ≡ goes_on self.now last.now) };
}

// Whether a plan begins with the line.
fn is_head(line: &[u8]) -> bool
    ensures { result ≡ is_head line.now }
{
    line.len() >= 5 && &line[..5] == b"node ".as_slice()
}

// Whether the text of a batch is one of a plan.
pub(crate) fn is_plan(body: &[u8]) -> bool
    ensures { result ≡ is_plan (whole_lines body.now) }
{
    match first_whole_line(body) {
        Some((line, _)) => is_head(line),
        None => false,
    }
}

/// Whether the text may be that of a plan in a journal.
pub fn is_plan_text(text: &[u8]) -> bool
    ensures is { result ≡ true → IsPlan text.now }
    ensures only { IsPlan text.now → result ≡ true }
{
    can_be_sealed(text) && is_plan(text)
}

// The first line of a text.
fn head_of(text: &[u8]) -> &[u8]
    ensures { result.now ≡ head_of (whole_lines text.now) }
{
    match first_whole_line(text) {
        Some((line, _)) => line,
        None => &[],
    }
}

// Whether the plan is of the same node and grid as the last one, and goes on from it.
pub(crate) fn goes_on_from<P: Plan>(plan: &P, last: &[u8]) -> Result<bool, OutOfMemory>
    ensures { IfOk result (λ goes. goes ≡ goes_on_from (P.goes_on plan.now) (P.text plan.now) last.now) }
{
    let text = plan.text();
    if last == text {
        return Ok(true);
    }
    if head_of(last) != head_of(text) {
        return Ok(false);
    }
    plan.goes_on(last)
}
