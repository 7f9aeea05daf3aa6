//! What the code makes of answers to looks, as the law of looks has it.
//!
//! *Theorem:* where a tag settles a file by what was seen of servers meanwhile, it is a look, which gives this tag (`laws::settled_are_looks`).
//!
//! No crate stands on it. Not here: that what nodes told was seen of them meanwhile (`gq_looks::laws::answers_stand`, `gq_parts::laws::looks_told`).
#![tactic(auto)]

pub mod laws;
