//! A node as a machine of the loop: a line comes in, its facts are appended as lines, and the lines that it tells and sends.
#![tactic(auto)]

mod machine;
mod ranges;

pub use machine::NodeMachine;
