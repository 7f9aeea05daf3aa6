//! All tenants' chunks at a server: what comes of each request, and what a start makes of what was kept of it.
//!
//! At most 4 MiB of a tenant's contents are in memory, whatever room the plan gives. A start may read more: it refuses none of
//! it, and nothing new comes to memory until there is room. Older contents are not moved to the shelf to make room: each
//! would be a fact more, in a step that has one.
#![tactic(auto)]

mod answer;
mod asked;
mod cleaning;
mod cursor;
mod depot;
mod depots;
mod fact;
mod filling;
mod gone;
pub mod laws;
mod limits;
mod moving;
mod recalling;
mod request;
mod scrubbing;
mod seeking;
mod sweeping;

pub use answer::{Answered, ChunkAnswer, ListedChunk};
pub use cleaning::{Cleaner, MOST_SEEN};
pub use cursor::Spot;
pub use depot::Depot;
pub use depots::Depots;
pub use fact::ChunkFact;
pub use filling::Filling;
pub use gone::Gone;
pub use limits::{MOST_CHUNK, MOST_FLOOR, MOST_GONE, MOST_LISTED};
pub use request::ChunkRequest;
pub use scrubbing::Scrub;
pub use seeking::{Ask, MOST_ASKED, MOST_ASKED_BYTES, Seeking};
pub use sweeping::{MOST_LOOKED, PARTS_APART, Sweep};
