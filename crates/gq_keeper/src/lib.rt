//! A machine whose facts are on disk before anything that rests on them is shown.
#![tactic(auto)]

mod fault;
mod files;
mod keeping;
pub mod laws;
mod leaving_out;
mod log;
mod machine;
mod memory;
mod notes;
mod output;
mod plan;
mod renewing;
mod serving;
mod starting;
mod stream;

pub use fault::Fault;
pub use files::{FileDisk, Place};
pub use leaving_out::LeavesOut;
pub use log::{Disk, Log};
pub use machine::{Lasting, Machine, Unread};
pub use memory::MemoryDisk;
pub use notes::Notes;
pub use output::Output;
pub use plan::{Plan, is_plan_text};
pub use renewing::renew;
pub use serving::{ALWAYS_HELD, Watch, serve, take_batch, take_text};
pub use starting::{Recovered, Started, first_plan, last_plan, start, start_without};
pub use stream::{Promise, Stream};
