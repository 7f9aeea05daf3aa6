//! The command line of a node's program: from its words to what they ask for. That of the reference stands in `gq_script_words`.
#![tactic(auto)]

mod words;

pub use gq_words::Usage;
pub use words::{NodeCommand, NodeRequest, PlanRequest, read_words};
