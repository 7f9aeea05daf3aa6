//! The journal's file.

ghost use Rattle.std.specs.Prelude.{◌≡◌, ◌⊎◌, ◌≤◌, ◌++◌, ℕ, List, length, take, IfOk, IsErrOf, OnOk, OnErr};
ghost use Rattle.gq_keeper.specs.Crashes.{Leaves, LeavesSyncing, LeavesReplacing, Elapses};

use crate::Fault;
use std::alloc::Global;

/// A file that grows at its end.
pub trait Log {
    /// All that was written, as a read would give it.
    ghost seen: { Self → List ℕ };

    /// What was made sure of: whatever a crash leaves begins with it.
    ghost synced: { Self → List ℕ };

    /// The time: it doesn't fall.
    ghost instant: { Self → ℕ };

    /// What a crash at some instant from that one on may have left.
    ghost left_since: { Self → ℕ → List ℕ → Type 0 };

    /// How many bytes were written.
    fn size(&self) -> usize
        ensures { result ≡ length (seen self.now) };

    /// Appends the bytes. Until the next sync a crash may leave a part of them. A file is never full of batches (`Fault::Full`).
    fn append(&mut self, bytes: &[u8]) -> Result<(), Fault>
        ensures full { ¬ IsErrOf result Fault.Full }
        ensures seen { OnOk result (seen self.new ≡ seen self.old ++ bytes.now) }
        ensures synced { synced self.new ≡ synced self.old }
        ensures crash { Elapses (instant self.old) (instant self.new) (left_since self.old) (left_since self.new) (Leaves (synced self.old) (seen self.old ++ bytes.now)) };

    /// Makes sure of all that was written.
    fn sync(&mut self) -> Result<(), Fault>
        ensures full { ¬ IsErrOf result Fault.Full }
        ensures seen { seen self.new ≡ seen self.old }
        ensures synced { OnOk result (synced self.new ≡ seen self.old) }
        ensures crash { Elapses (instant self.old) (instant self.new) (left_since self.old) (left_since self.new) (LeavesSyncing (synced self.old) (seen self.old)) };

    /// A crash now leaves what was synced, and of the rest a part.
    ghost only_now: { (log : Self) (left : List ℕ) → left_since log (instant log) left → Leaves (synced log) (seen log) left };
}

/// The file as a start sees it.
pub trait Disk: Log {
    /// All that was written, once it and the file's name are made sure of. A second read may be a fault: the text isn't held twice.
    fn read(&mut self, alloc: Global) -> Result<Vec<u8>, Fault>
        ensures bytes { IfOk result (λ bytes. bytes.items ≡ Self.seen self.old) }
        ensures seen { Self.seen self.new ≡ Self.seen self.old }
        ensures synced { OnOk result (Self.synced self.new ≡ Self.seen self.old) }
        ensures crash { Elapses (Self.instant self.old) (Self.instant self.new) (Self.left_since self.old) (Self.left_since self.new) (LeavesSyncing (Self.synced self.old) (Self.seen self.old)) };

    /// Cuts the file to a length. Until the next sync a crash may leave more of it.
    fn cut(&mut self, len: usize) -> Result<(), Fault>
        requires { len ≤ length (Self.seen self.old) }
        ensures seen { OnOk result (Self.seen self.new ≡ take len (Self.seen self.old)) }
        ensures synced { Self.synced self.new ≡ take len (Self.synced self.old) }
        ensures crash { Elapses (Self.instant self.old) (Self.instant self.new) (Self.left_since self.old) (Self.left_since self.new) (Leaves (take len (Self.synced self.old)) (Self.seen self.old)) };

    /// Puts another text in the place of all, by a new file that is synced before it takes the name: a crash leaves the old text
    /// or the new one whole.
    fn replace(&mut self, bytes: &[u8]) -> Result<(), Fault>
        ensures seen { OnOk result (Self.seen self.new ≡ bytes.now) }
        ensures synced { OnOk result (Self.synced self.new ≡ bytes.now) }
        ensures crash { Elapses (Self.instant self.old) (Self.instant self.new) (Self.left_since self.old) (Self.left_since self.new) (LeavesReplacing (Self.synced self.old) (Self.seen self.old) bytes.now) };
}
