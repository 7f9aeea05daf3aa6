//! A server's store with the journal of what it did, and the board of the servers that are up: what threads share in a
//! live run, each under a lock.
#![tactic(auto)]

mod board;
mod cell;
pub mod laws;
mod letter;

pub use board::{Board, BoardEntry, ChangeRefused};
pub use cell::{Cell, CellRefused, Served, Share};
pub use letter::{CellEntry, Letter};
