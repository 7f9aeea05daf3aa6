//! The ways of shards through a text.

ghost use Rattle.std.specs.Prelude.{◌≡◌, ◌≤◌, ◌<◌, ◌-◌, true, ℕ, length, vec_len, slice_index_or, IfOk, OnOk};
ghost use Rattle.gq_shards.specs.Shards.{sees_mark, IsFirstWay, Stops};

use crate::lengths::Lengths;
use gq_memory::{GrowVec, OutOfMemory};
use std::alloc::Global;

/// The way of a shard through a text: how many bytes lie before each line that it sees, from the end of the one before it.
#[derive(Drop)]
pub struct Way {
    pub gaps: Lengths,
    /// Where the line after the last of these begins.
    pub end: usize,
}

impl Way {
    // The way goes on to a line that begins at a place, and behind it.
    #[inline(always)]
    fn stop(&mut self, text: &[u8], place: usize, after: usize) -> Result<(), OutOfMemory>
        requires end { self.old.end ≤ place }
        requires place { place ≤ length text.now }
        ensures { OnOk result (Stops true place after self.old self.new) }
    {
        self.gaps.grow(&text[self.end..place])?;
        self.end = after;
        Ok(())
    }
}

/// The ways of so many shards before the first line, each with room for so many lines.
pub fn first_ways(alloc: Global, shards: usize, room: usize) -> Result<Vec<Way>, OutOfMemory>
    ensures size { IfOk result (λ ways. vec_len ways ≡ shards) }
    ensures ways { IfOk result (λ ways. (k : ℕ) (d : Way) → k < shards → IsFirstWay (slice_index_or ways.items k d)) }
{
    let mut ways = Vec::new(alloc);
    for _shard in 0..shards {
        ways.grow(Way {
            gaps: Lengths::new(alloc, room)?,
            end: 0,
        })?;
    }
    Ok(ways)
}

/// The ways of the shards that see a line of this mark go on to it, and behind it.
#[inline(always)]
pub fn stop_at(
    ways: &mut [Way],
    mark: u8,
    text: &[u8],
    place: usize,
    after: usize,
) -> Result<(), OutOfMemory>
    requires mark { mark - 1 < length ways.old }
    requires ends { (k : ℕ) (d : Way) → k < length ways.old → (slice_index_or ways.old k d).end ≤ place }
    requires place { place ≤ length text.now }
    ensures size { length ways.new ≡ length ways.old }
    ensures stops { OnOk result ((k : ℕ) (d : Way) → k < length ways.old →
        Stops (sees_mark k mark) place after (slice_index_or ways.old k d) (slice_index_or ways.new k d)) }
{
    if mark == 0 {
        for shard in 0..ways.len() {
            ways[shard].stop(text, place, after)?;
        }
        return Ok(());
    }
    ways[mark as usize - 1].stop(text, place, after)
}
