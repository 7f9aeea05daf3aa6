//! A run of the service in threads: servers with two workers each, sessions, and a fault injector that stops servers and brings
//! them back. What was done is recorded under locks. The names of the crates that need no threads are passed on.
#![tactic(auto)]

mod attending;
mod held;
mod run;
mod serving;
mod starts;
mod thread_ends;

pub use gq_cell::{
    Board, BoardEntry, Cell, CellEntry, CellRefused, ChangeRefused, Letter, Served, Share, laws,
};
pub use gq_model::Said;
pub use gq_session::{
    Did, Entries, Gate, GaveUp, Journal, Lines, LiveFault, MOST_REQUESTS, OpenGate, Opening,
    Programs, Records, SessionEntry, SessionId, fits, sessions_of,
};
pub use run::live;
