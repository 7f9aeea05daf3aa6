//! A node: one server of the grid, and the home of some sessions, without files and streams. It takes requests of tenants,
//! letters of nodes and ticks, and gives what is to be written and what must not be forgotten. What it does for a tenant is
//! said by that tenant's part of it alone (`specs/Local.antt`), in the steps of the model.
#![tactic(auto)]

mod aims;
mod facts;
mod homes;
mod joining;
mod lacks;
mod lanes;
pub mod laws;
mod letters;
mod looks;
mod lost;
mod node;
mod output;
mod requests;
mod session_states;
mod shorts;
mod tables;

pub use gq_model::{Line, Refusal};
pub use lanes::LANES;
pub use lost::{Lost, LostRefused, MOST_NUMBERS, MOST_TIMES, NODE_NUMBERS};
pub use node::{Ended, Node};
pub use output::{
    Answer, Fact, HeldRows, Holding, Look, NeedRefused, NodeNumbers, Output, Transfer,
};
pub use shorts::{Short, ShortBody, ShortOutput};
pub use tables::place_of;
