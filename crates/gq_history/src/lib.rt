//! The history of a file: when each operation on it began and how it ended, in the order of the lines.
#![tactic(auto)]

pub mod laws;
mod moments;

pub use moments::{Moment, Stage, history};
