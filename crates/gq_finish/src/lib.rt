//! The lines that complete an operation which a script leaves going.
#![tactic(auto)]

mod finish;

pub use finish::{FinishFault, finish_run};
