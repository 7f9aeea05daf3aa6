//! A picture of the operations on a file, in the order in which a single register gives the same answers: which things are drawn,
//! and where.
#![tactic(auto)]

mod absences;
mod columns;
mod counting;
mod drawing;
pub mod laws;
mod places;

pub use absences::{Absence, Effect, read_absences, read_effects};
pub use drawing::{Bar, Drawing, Outage, Value, draw};
