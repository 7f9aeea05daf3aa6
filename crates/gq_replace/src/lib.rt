//! One tenant at nodes of which some are lost, and replaced by new ones: whatever happens there is what happens in a cluster.
#![tactic(auto)]

pub mod laws;
mod numbers;

pub use numbers::NUMBERS_OF_A_LOSS;
