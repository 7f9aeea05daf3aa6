//! The client of names without input and output: what one session's client knows of a bucket, what it asks for next, and what it makes of an answer.
//! Its steps are those of `clients/python/gridfs_client/core.py`, which `tests/names/beside.py` compares.
//!
//! Sessions are numbered from 0 here, as in the law of names. Each has a *page* and a *journal*, the page as it is to be. For a change a client
//! *looks* at the pages of the others, *announces* the change by writing its journal, and once that was answered *carries* it: it writes the page as
//! the journal has it. Whoever gets no answer to a write forgets, and enters anew.
//!
//! *Theorem:* what it does are steps of a client of `gq_names` (`gq_naming::laws`).
//!
//! `gq_naming` and `gq_splitting` stand on it; no program but `try_names` does yet. Not here: requests to nodes as lines, when to ask again, contents,
//! copies between grids, and names that a caller keeps from being forgotten.
#![tactic(auto)]

mod changing;
mod client;
mod view;

pub use changing::{Change, Fate, NewLine};
pub use client::{Client, Doing, Fault, Request};
pub use view::{Known, Wanted, asked, greatest_shown};
