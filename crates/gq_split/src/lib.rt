//! Pages that split: what one of them says of the names of another bucket, and the signpost by which it says that its names went on.
//!
//! Sessions have pages of *levels*. A page of a level splits into several of the next one, of which each has a part of its names. As long as a
//! session's page there was not written, what its page of the level before says of these names counts in its place.
//!
//! *Theorem:* a part, and what counts, show what those of `gq_names/specs/Splitting` do (`gq_splitting::laws`).
//!
//! `gq_splitting` stands on it. Not here: the steps by which a client reads and writes at two levels (`clients/python/gridfs_client/splits.py`), and which
//! names a bucket has.
#![tactic(auto)]

mod part;
mod signpost;

pub use part::{Bucket, counting, part_of};
pub use signpost::{cleared, is_split, is_written, signed};
