//! A run in shards: the tenants of a plan are dealt out, each shard answers its own, side by side, and the lines of the
//! answers are put together again.
#![tactic(auto)]

mod answering;
mod chunk;
mod dealing;
mod lengths;
mod merging;
mod parts;
mod run;
mod telling;
mod ways;

pub use run::{SHORT, run_in_shards};
