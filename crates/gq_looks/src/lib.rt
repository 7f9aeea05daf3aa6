//! Looks: a client asks servers itself what they have of a file, and what whole rows and columns of them tell is a read.
#![tactic(auto)]

pub mod laws;
