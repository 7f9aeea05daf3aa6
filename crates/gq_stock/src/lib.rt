//! A tenant's chunks at a server, session by session: what is kept, found, forgotten and given, and what is told of it.
//!
//! The shelf is read again where damage was found before: what a read finds now is all that can be told. So `Damaged` means
//! that this read found it, and is in the shelf's notes; who mends keeps a list of its own. Steps speak of what was noted of
//! the shelf, so no shelf has to be named in a promise. Who knows at the end that no read was wrong knows it of each step.
#![tactic(auto)]

mod chunk;
mod finding;
mod forgetting;
mod keeping;
pub mod laws;
mod limits;
mod moving;
mod run;
mod session;
mod stock;

pub use chunk::Chunk;
pub use finding::Found;
pub use keeping::Keeping;
pub use limits::{CHUNK_CHARGE, MOST_FRESH, MOST_FRESH_BYTES};
pub use moving::Source;
pub use run::Run;
pub use session::Session;
pub use stock::Stock;
