//! What a plan says, told in lines of words NAME=VALUE, and whether one plan may follow another.
//!
//! Beside an earlier plan it tells what is free again, since a later plan alone does not tell whose place a row took. An
//! operator sees who is about to be erased before a node is touched.
#![tactic(auto)]

mod asked;
pub mod laws;
mod leaving;
mod line;
mod runs;
mod sums;
mod told;

pub use asked::{PlanAskedFault, ToldFault, answer_plan};
pub use line::Named;
pub use runs::Run;
pub use told::{FollowFault, told_next, told_plan};
