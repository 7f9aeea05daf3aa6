//! What was forgotten while chunks were lacked.

ghost use Rattle.std.specs.Prelude.{◌≡◌, ℕ, true, ◌&&◌, ◌==◌};
ghost use Rattle.gq_stock.specs.Forgetting.{is_in};
ghost use Rattle.gq_depot.specs.Depots.{is_gone};

use gq_stock::Run;

/// Numbers of a session that were forgotten while the server lacked chunks of the tenant. What a peer gives of them is passed over.
#[derive(Clone, Copy)]
pub struct Gone {
    /// The place of the session, from 0.
    pub place: usize,
    /// The numbers.
    pub run: Run,
}

// Whether the number of the session at this place is one of the run.
fn has(one: &Gone, place: usize, number: u64) -> bool
    ensures { result ≡ ((place == one.now.place) && is_in number one.now.run) }
{
    place == one.place && one.run.first <= number && number <= one.run.last
}

// Whether the number of the session at this place is one of these.
pub(crate) fn is_gone(gone: &[Gone], place: usize, number: u64) -> bool
    ensures { result ≡ is_gone gone.now place number }
{
    for one in gone {
        if has(one, place, number) {
            return true;
        }
    }
    false
}

// Whether one of these has all numbers of the run.
pub(crate) fn covers(gone: &[Gone], place: usize, run: Run) -> bool
    ensures { result ≡ true → (k n : ℕ) → ((k == place) && is_in n run) ≡ true → is_gone gone.now k n ≡ true }
{
    for one in gone {
        if one.place == place && one.run.first <= run.first && run.last <= one.run.last {
            return true;
        }
    }
    false
}
