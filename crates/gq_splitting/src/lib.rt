//! What the code makes of pages that split, as the law of names has it.
//!
//! *Theorem:* a part of a page shows what the law's part does (`laws::parts_show`), and so does what counts of a session (`laws::counts_show`).
//!
//! No crate stands on it. Not here: the steps by which a page splits.
#![tactic(auto)]

pub mod laws;
