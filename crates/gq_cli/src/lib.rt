//! What the program does, as calls over any reader and writer: the front door that the reference names. A run with the order of a file's
//! operations behind it, a live run from its programs to its script, and what a command line asked for. The program `gridfs` stands on
//! it. Each call, its clauses and its faults are those of the crate that has it.
#![tactic(auto)]

pub use gq_files::{OrderFault, history_run, order_run, picture_run};
pub use gq_runs::{
    LiveRunFault, NamedMismatch, ProgramFault, RequestFault, carry_out, live_run, read_programs,
};
