//! What a run shows of each file: the operations on it, their order, and whether an order is legal.
#![tactic(auto)]

mod checking;
mod endings;
mod history;
mod keys;
mod ops;
mod ordering;
mod run;
mod sessions;

pub use checking::check_order;
pub use gq_laws::{Kind, Op};
pub use history::operations;
pub use ordering::order;
pub use run::{FileOrder, file_order, runs_grow};
pub use sessions::sees;

/// A place in a list of operations.
pub type OpRef = usize;
