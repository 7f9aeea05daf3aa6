//! Chunks in lines: what a tenant asks about them and is told, what nodes of a column say to each other so that a new one gets them, what a node must not forget of them, and
//! the machine that takes such lines.
//!
//! `got` tells the place that was asked for, and not the one where the part begins. So an answer fits its request, also where
//! the place is after the end: lines of chunks have no number that tells them apart.
#![tactic(auto)]

mod answering;
mod asking;
mod came;
mod cleaning;
mod filling;
mod hearing;
pub mod laws;
mod longest;
mod machine;
mod mending;
mod needed;
mod new_depots;
mod peer_line;
mod peers;
mod ranges;
mod reading;
mod saying;
mod search;
mod taking;
mod writing;

pub use answering::put_chunk_answer;
pub use asking::read_chunk_request;
pub use gq_depot::{ChunkAnswer, ChunkFact, ChunkRequest, Sweep};
pub use hearing::read_peer_line;
pub use longest::longest_of;
pub use machine::{ChunkMachine, Damage};
pub use peer_line::PeerLine;
pub use reading::read_chunk_fact;
pub use saying::put_peer_line;
pub use taking::{is_chunk_fact, taker_of};
pub use writing::put_chunk_fact;
