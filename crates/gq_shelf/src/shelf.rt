//! What a shelf does.

ghost use Rattle.std.specs.Prelude.{◌≡◌, ◌≢◌, ◌+◌, ◌<◌, ◌≤◌, ◌^◌, ℕ, Bool, true, false, All, length, IfOk, IfErr, OnOk, OnErr};
ghost use Rattle.gq_shelf.specs.declared.fault.ShelfFault.TheVariants.{Full};
ghost use Rattle.gq_shelf.specs.Extents.{Describes, begins, ends, place_of};
ghost use Rattle.gq_shelf.specs.Notes.{Noted, after_put, after_read, after_failure, after_sync, after_refusal};

use crate::{Extent, ShelfFault};
use bytes::Bytes;

/// Contents, each written once. Where one was put no other ever is.
///
/// What is read is not proved to be what was put: no code can tell. `IsClean` (`specs/Notes.antt`) says of the notes that it was. It only falls, so
/// who has it at the end has it at each read.
pub trait Shelf {
    /// What was put, read, made sure of and refused in this life.
    ghost noted: { Self → Noted };

    /// All that was put lies before this place, and all that will be put does not.
    ghost end: { Self → ℕ };

    /// What was put may not be there, since a call was refused. Then nothing more is put or made sure of in this life.
    ghost is_broken: { Self → Bool };

    /// Puts a content behind all others. Until the next sync a crash may leave a part of it, or nothing. Where there is no space for it (`Full`) the shelf is as
    /// whole as it was, and takes others once there is.
    fn append(&mut self, bytes: &[u8]) -> Result<Extent, ShelfFault>
        requires { length bytes.now < 2 ^ 32 }
        ensures put { IfOk result (λ extent. noted self.new ≡ after_put extent bytes.now (noted self.old)) }
        ensures describes { IfOk result (λ extent. Describes extent bytes.now) }
        ensures apart { IfOk result (λ extent. end self.old ≤ begins extent) }
        ensures before_end { IfOk result (λ extent. ends extent ≤ end self.new) }
        ensures end_rises { end self.old ≤ end self.new }
        ensures was_whole { OnOk result (is_broken self.old ≡ false) }
        ensures is_whole { OnOk result (is_broken self.new ≡ false) }
        ensures refused { OnErr result (noted self.new ≡ after_refusal (noted self.old)) }
        ensures full { IfErr result (λ fault. fault ≡ Full → (is_broken self.old ≡ false) × (is_broken self.new ≡ false)) }
        ensures breaks { IfErr result (λ fault. fault ≢ Full → is_broken self.new ≡ true) };

    /// Makes sure of all contents. A want of space is no cause to go on: nothing is known of the contents then.
    fn sync(&mut self) -> Result<(), ShelfFault>
        ensures sure { OnOk result (noted self.new ≡ after_sync (noted self.old)) }
        ensures end_stays { end self.new ≡ end self.old }
        ensures was_whole { OnOk result (is_broken self.old ≡ false) }
        ensures is_whole { OnOk result (is_broken self.new ≡ false) }
        ensures refused { OnErr result (noted self.new ≡ after_refusal (noted self.old)) }
        ensures never_full { IfErr result (λ fault. fault ≢ Full) }
        ensures breaks { OnErr result (is_broken self.new ≡ true) };

    /// The content. Bytes of another number or another sum are damage.
    fn read(&mut self, extent: &Extent) -> Result<Bytes, ShelfFault>
        ensures read { IfOk result (λ bytes. noted self.new ≡ after_read extent.now bytes (noted self.old)) }
        ensures describes { IfOk result (λ bytes. Describes extent.now bytes) }
        ensures failed { IfErr result (λ fault. noted self.new ≡ after_failure fault extent.now (noted self.old)) }
        ensures end_stays { end self.new ≡ end self.old }
        ensures broken_stays { is_broken self.new ≡ is_broken self.old };

    /// Whether these are the bytes of the content, by their number and their sum, for who has them from elsewhere. They are noted as read there then: a read that
    /// told them would be taken for as right.
    fn vouch(&mut self, extent: &Extent, bytes: &[u8]) -> bool
        ensures read { result ≡ true → noted self.new ≡ after_read extent.now bytes.now (noted self.old) }
        ensures describes { result ≡ true → Describes extent.now bytes.now }
        ensures others { result ≡ false → Describes extent.now bytes.now → ⊥ }
        ensures untouched { result ≡ false → noted self.new ≡ noted self.old }
        ensures end_stays { end self.new ≡ end self.old }
        ensures broken_stays { is_broken self.new ≡ is_broken self.old };

    /// The numbers of the segments that are there, but for the greatest.
    fn segments(&self) -> Result<Vec<u32>, ShelfFault>
        ensures { IfOk result (λ found. All (λ segment. place_of (segment + 1) 0 ≤ end self.now) found.items) };

    /// How many bytes the segment of this number has, as far as the system tells.
    fn length(&self, segment: u32) -> Result<u64, ShelfFault>;

    /// Removes the segment with all that lies on it, and says whether it did. That of the greatest number stays: a start goes on behind it, so no
    /// number comes twice.
    fn remove(&self, segment: u32) -> Result<bool, ShelfFault>
        ensures { IfOk result (λ removed. removed ≡ true → place_of (segment + 1) 0 ≤ end self.now) };
}
