//! A shelf: contents on disk, each written once and never changed.
//!
//! The segment of the greatest number is never removed: a start goes on after the greatest number that is there. It makes sure
//! of the names first, so a crash can't take the last one later. A segment is opened at each read, since a terabyte is more
//! segments than a process may have open.
//!
//! Each content has a sum of 64 bits, over its place too. It tells a change within one word for sure, and other changes but
//! for one in 2^64; equal bytes at another place are told as well. Against who chooses the bytes no sum helps.
//!
//! Where the system has no space for a write, the shelf goes on: what was written before is there, and what was partly written
//! is cut off, since no extent names it. After any other refused write, or a refused sync, it takes nothing more. A system
//! tells that a sync failed once, and the next one may say that all is well. Reads go on, and the next start has a segment of
//! its own. Lack of memory is a fault of its own, with `OutOfMemory`: else a machine could only end as if the shelf had failed.
//!
//! The shelf does not count what is named, since a wrong count would remove a segment that is wanted. Who keeps the extents
//! knows which segment none is of, and has it removed.
#![tactic(auto)]

mod extent;
mod fault;
mod files;
pub mod laws;
mod memory;
mod notes;
mod place;
mod shelf;

pub use extent::Extent;
pub use fault::ShelfFault;
pub use files::{FileShelf, OpenFault, ShelfPlace};
pub use memory::MemoryShelf;
pub use notes::Notes;
pub use place::Place;
pub use shelf::Shelf;
