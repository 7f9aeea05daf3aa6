//! Where it is shown.

ghost use Rattle.std.specs.Prelude.{◌≡◌, ◌++◌, ℕ, List, OnOk};

use crate::{Fault, Log};

/// What others see. Nothing is shown but what is allowed over what the journal has synced.
pub trait Output {
    /// All that was shown.
    ghost shown: { Self → List ℕ };

    /// With this synced, this may have been shown.
    ghost allows: { List ℕ → List ℕ → Type 0 };

    /// Shows the bytes. Where it fails, any beginning of them may have been seen.
    fn show<L: Log>(&mut self, log: &L, bytes: &[u8]) -> Result<(), Fault>
        requires { allows (L.synced log.now) (shown self.old ++ bytes.now) }
        ensures { OnOk result (shown self.new ≡ shown self.old ++ bytes.now) };
}
