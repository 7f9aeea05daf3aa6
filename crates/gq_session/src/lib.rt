//! What a live run of the service does without threads: what its programs are and what it records, a session with its
//! operation and its event log, and the board with the list of the servers' changes. The crate above runs these in threads.
#![tactic(auto)]

mod cells;
mod client;
mod event_log;
mod fitting;
mod gate;
mod records;
mod schedule;
mod session;

pub use cells::change_cell;
pub use fitting::{SessionId, fits, is_request_of, sessions_of};
pub use gate::{Gate, GaveUp, OpenGate};
pub use records::{
    Did, Entries, Journal, Lines, LiveFault, Opening, Programs, Records, SessionEntry,
};
pub use schedule::{Change, Schedule};
pub use session::{Outbox, Session};

/// The most requests of one session.
pub const MOST_REQUESTS: usize = 16_777_216;
