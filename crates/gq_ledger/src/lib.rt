//! Which chunks of a session a server has: each is written once, and what was forgotten never comes back.
#![tactic(auto)]

pub mod laws;
mod ledger;
mod long;
mod verdict;

pub use ledger::Ledger;
pub use long::Long;
pub use verdict::Verdict;
