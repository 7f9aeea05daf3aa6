//! What a node must not forget, as lines of its journal: facts written and read.
#![tactic(auto)]

pub mod laws;
mod reading;
mod writing;

pub use reading::read_fact;
pub use writing::put_fact;
