//! Lists of lengths.

ghost use Rattle.std.specs.Prelude.{◌≡◌, ◌≤◌, ◌∷◌, ◌++◌, [], ℕ, List, length, IfOk, OnOk};
ghost use Rattle.gq_shards.specs.Shards.{AreLeft, AreListed};

use gq_memory::{GrowLengths, GrowVec, OutOfMemory, room_for};
use std::alloc::Global;

// The byte of a length that is no less.
const FAR: u8 = 255;

/// The lengths of texts, in bytes. Most texts are short: each has a byte, and the byte 255 stands for each length that is no
/// less, which is in a second list.
#[derive(Drop)]
pub struct Lengths {
    pub near: Vec<u8>,
    pub far: Vec<u32>,
}

/// Where the next length of a list is.
#[derive(Clone, Copy, Drop)]
pub struct LengthPlace {
    pub near: usize,
    pub far: usize,
}

/// The place of a list's first length.
pub const FIRST_LENGTH: LengthPlace = LengthPlace { near: 0, far: 0 };

impl Lengths {
    /// A list of no length, with room for so many short ones.
    pub fn new(alloc: Global, room: usize) -> Result<Lengths, OutOfMemory>
        ensures { IfOk result (λ lengths. AreListed lengths []) }
    {
        Ok(Lengths {
            near: room_for(alloc, room)?,
            far: Vec::new(alloc),
        })
    }

    /// Appends the length of the text. One that takes more than 32 bits is refused, as a text that fills the memory.
    #[inline(always)]
    pub fn grow(&mut self, text: &[u8]) -> Result<(), OutOfMemory>
        ensures { OnOk result ((lengths : List ℕ) → AreListed self.old lengths →
            AreListed self.new (lengths ++ length text.now ∷ [])) }
    {
        if text.len() < FAR as usize {
            return self.near.grow(text.len() as u8);
        }
        self.grow_far(text)
    }

    // The same of a text that is not short.
    #[cold]
    #[inline(never)]
    fn grow_far(&mut self, text: &[u8]) -> Result<(), OutOfMemory>
        requires { 255 ≤ length text.now }
        ensures { OnOk result ((lengths : List ℕ) → AreListed self.old lengths →
            AreListed self.new (lengths ++ length text.now ∷ [])) }
    {
        self.near.grow(FAR)?;
        self.far.grow_length(text)
    }

    /// The length at a place that is not behind the last, and the place of the next.
    #[inline(always)]
    pub fn next_length(&self, place: LengthPlace) -> (usize, LengthPlace)
        requires { (length : ℕ) × (lengths : List ℕ) × AreLeft self.now place (length ∷ lengths) }
        ensures { (length : ℕ) (lengths : List ℕ) → AreLeft self.now place (length ∷ lengths) →
            (result.0 ≡ length) × AreLeft self.now result.1 lengths }
    {
        let near = self.near[place.near];
        let after = place.near + 1;
        if near < FAR {
            return (
                near as usize,
                LengthPlace {
                    near: after,
                    far: place.far,
                },
            );
        }
        (
            self.far[place.far] as usize,
            LengthPlace {
                near: after,
                far: place.far + 1,
            },
        )
    }
}
