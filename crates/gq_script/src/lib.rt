//! From the bytes of a script to the bytes of its answers. The forms of single lines and of plans are passed on from the crate of
//! texts.
#![tactic(auto)]

pub mod laws;
mod notice;
mod script;
mod seeing;
mod stepping;

pub use gq_text::{PlanText, TextFault, read_line, read_plan, write_answer, write_script};
pub use notice::{NoNotice, Notice};
pub use script::{MOST_INPUT, ReadFault, RunFault, answers_of, read_whole, run};
pub use seeing::{Answered, answer_lines};
pub use stepping::step;
