//! One tenant at many nodes, each of them one server and the home of some sessions: whatever happens there is a run of the service.
#![tactic(auto)]

pub mod laws;
mod runs;

pub use runs::NUMBERS_IN_A_RUN;
