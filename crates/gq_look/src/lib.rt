//! A look at a file: which tag it has, by what the nodes of a grid told of their own copies.
//!
//! *Theorem:* where a tag settles a file, it is a look of `gq_looks`, so a read (`gq_looking::laws`).
//!
//! `gq_looking` stands on it. Not here: which answers count beside each other (of one look, by plans with as many losses), and when others are waited for.
#![tactic(auto)]

mod look;

pub use look::{settled, settles};
