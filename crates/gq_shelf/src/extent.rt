//! Where a content lies.

ghost use Rattle.std.specs.Prelude.{◌≡◌, true, false};
ghost use Rattle.gq_shelf.specs.Extents.{Describes};

use gq_sum::sum_of;

/// Where a content lies: a segment of the shelf, the place of its first byte there, how many bytes it has, and the sum of that place and
/// of these. No place is used twice, whenever a shelf was started: a segment is of one start, and grows at its end.
#[derive(Clone, Copy, Debug, PartialEq, Eq)]
pub struct Extent {
    pub segment: u32,
    pub at: u64,
    pub len: u32,
    pub sum: u64,
}

impl Extent {
    /// Whether these are as many bytes as the content has, with its sum.
    pub fn describes(&self, bytes: &[u8]) -> bool
        ensures is { result ≡ true → Describes self.now bytes.now }
        ensures is_not { result ≡ false → Describes self.now bytes.now → ⊥ }
    {
        bytes.len() as u64 == u64::from(self.len) && sum_of(self.at, bytes) == self.sum
    }
}
