//! A node line by line, as its tenants' parts: what a line brings to each of them, what is written and kept for it, what a start
//! makes of that, and that tenants are apart. It has definitions and laws alone; `gq_machine` has the code.
#![tactic(auto)]

pub mod laws;
