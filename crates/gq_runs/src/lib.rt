//! What a command line can ask for, and how it is done: a run; one with the order of a file's operations behind it; the history of
//! a file's operations, and their picture; the lines that complete an operation; a live run, from its programs to its script.
#![tactic(auto)]

mod live;
mod programs;
mod requests;

pub use live::{LiveRunFault, NamedMismatch, live_run};
pub use programs::{ProgramFault, read_programs};
pub use requests::{RequestFault, carry_out};
