//! Readers and writers that remember whether they failed, and a text that is written whole. What the fault of a stream is to whoever
//! asked is told in the crates above.
#![tactic(auto)]

mod watched;
mod whole;

pub use watched::Watched;
pub use whole::{WriteFault, write_whole};
