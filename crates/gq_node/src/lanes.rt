//! Lanes: files of one lane are asked for one after another, and those of several lanes side by side.

ghost use Rattle.std.specs.Prelude.{◌≡◌, ◌<◌};
ghost use Rattle.gq_node.specs.Lanes.{lanes_for};

/// In so many lanes a new node asks for the files of a tenant.
pub const LANES: u32 = 64;

/// So many blocks the files of one size may have in all that are asked for side by side.
pub const LANE_BLOCKS: u32 = 1_024;

// In how many lanes files of so many blocks are asked for.
pub(crate) fn lanes_for(blocks: u32) -> u32
    ensures value { result ≡ lanes_for blocks }
    ensures some { 0 < result }
{
    (LANE_BLOCKS / blocks.max(1)).min(LANES).max(1)
}
