//! The command line of the reference: from its words to what they ask for. That of a node's program stands in `gq_node_words`.
#![tactic(auto)]

mod words;

pub use gq_words::Usage;
pub use words::{Request, read_words};
