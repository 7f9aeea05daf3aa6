//! The longest line of a setup.

ghost use Rattle.std.specs.Prelude.{◌≡◌};
ghost use Rattle.gq_chunks.specs.Longest.{longest_by, longest_of};

use gq_depot::MOST_CHUNK;
use gq_setup::Setup;
use gq_wire::longest_line;

// The most bytes of a line beside its chunk.
const BESIDE_CHUNK: usize = 255;

// The most bytes of a line of a chunk; 0 where no tenant has room for chunks.
fn longest_by(setup: &Setup) -> usize
    ensures { result ≡ longest_by setup.now.rooms }
{
    if setup.has_chunks() {
        2 * MOST_CHUNK + BESIDE_CHUNK
    } else {
        0
    }
}

/// The most bytes of a line between nodes of the setup, or from a tenant to one, its newline not counted. Where some tenant has room for
/// chunks it is enough for two bytes for each byte of a chunk.
pub fn longest_of(setup: &Setup) -> usize
    ensures { result ≡ longest_of setup.now }
{
    longest_line(setup.plan()).max(longest_by(setup))
}
