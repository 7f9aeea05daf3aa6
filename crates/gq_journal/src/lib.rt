//! A journal's bytes: batches of lines, each sealed by a line with its number, its length and its digest. Nothing here knows
//! files, or what the lines say.
//!
//! Operations and the numbers of a write's tags are reserved 1,024 at a time. A journal in which each number has a fact of its
//! own is read alike.
#![tactic(auto)]

mod batches;
pub mod laws;
mod sealing;

pub use batches::{can_be_sealed, first_batch, first_whole_line, has_right_batch, is_batch_line};
pub use sealing::{seal_batch, seal_behind};
