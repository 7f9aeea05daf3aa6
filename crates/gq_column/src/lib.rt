//! Chunks at the servers of one column, of which some are lost and replaced.
#![tactic(auto)]

pub mod laws;
