//! Two machines that last, as one: a line goes to the one or the other, or to both, and so do facts.
#![tactic(auto)]

mod pair;

pub use pair::{Pair, Parts, Taker};
