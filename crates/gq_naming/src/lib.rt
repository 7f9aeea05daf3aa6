//! What the client of names does, as steps of the law of names: a client of `gq_client` *stands for* one of `gq_names`, whose pages show what its pages
//! show, and each of its calls is a step of that one, after which it stands for it still.
//!
//! *Theorem:* what it chooses, it may choose there (`laws::choices_step`), and so for each other step.
//!
//! No crate but `gq_splitting` stands on it. Not here: runs of many steps of several clients; a look at the own page, of which only its end is
//! (`looks_are_closed`, `gets_tell`); that files at nodes are the registers of the law.
#![tactic(auto)]

pub mod laws;
