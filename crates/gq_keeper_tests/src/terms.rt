//! A plan that is its text.

ghost use Rattle.std.specs.Prelude.{◌≡◌, nat_lt, length, IfSome};

use gq_keeper::{Plan, is_plan_text};
use gq_memory::OutOfMemory;

/// The text of a plan: it goes on from any that is shorter.
#[derive(Drop)]
pub struct Terms<'x> {
    text: &'x [u8],
}

impl<'x> Terms<'x> {
    ghost use Rattle.gq_keeper.specs.Plans.{IsPlan};

    /// The plan of the text, if it may be one.
    pub fn of(text: &'x [u8]) -> Option<Terms<'x>>
        ensures { IfSome result (λ plan. IsPlan plan.text.now) }
    {
        if !is_plan_text(text) {
            return None;
        }
        Some(Terms { text })
    }
}

impl<'x> Plan for Terms<'x> {
    ghost text = { λ p. p.text.now };

    ghost goes_on = { λ p last. nat_lt (length last) (length p.text.now) };

    fn text(&self) -> &[u8] {
        self.text
    }

    fn goes_on(&self, last: &[u8]) -> Result<bool, OutOfMemory> {
        Ok(last.len() < self.text.len())
    }
}
