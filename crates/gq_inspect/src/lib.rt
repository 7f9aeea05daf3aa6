//! Whether the records of a live run are a run of the core: all steps in order of their stamps are played in a world, and
//! what it answers is compared with what was recorded. What a run shows of each file, the operations and their order, is passed
//! on from the crate below.
#![tactic(auto)]

mod equality;
mod lists;
mod mismatch;
mod playing;
mod replay;
mod replaying;
mod steps;

pub use gq_order::{
    FileOrder, Kind, Op, OpRef, check_order, file_order, operations, order, runs_grow,
};
pub use mismatch::Mismatch;
pub use replay::inspect;
