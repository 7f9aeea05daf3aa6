//! Runs of which the operations on one file are told: their order, behind the answers; their history; their picture.
#![tactic(auto)]

mod asked_file;
mod history;
mod order;
mod picture;

pub use history::history_run;
pub use order::{OrderFault, order_run};
pub use picture::picture_run;
