//! Tests of what a node keeps and starts with, by public calls: its journal's bytes, facts, setups, a machine of chunks, and the loop with
//! a machine of one register. They try what no contract says, as that a call finds memory where there is memory, and that the clauses of the traits
//! can be met. Tests stand apart, since a crate with tests is proved a second time with them.
#![tactic(auto)]

#[cfg(test)]
mod chunks;
#[cfg(test)]
mod depots;
#[cfg(test)]
mod facts;
#[cfg(test)]
mod journals;
#[cfg(test)]
mod living;
#[cfg(test)]
mod register;
#[cfg(test)]
mod setups;
#[cfg(test)]
mod shown;
#[cfg(test)]
mod terms;
#[cfg(test)]
mod tests;
#[cfg(test)]
mod turns;

#[cfg(test)]
pub use living::{LONGEST, Lived, begin, live, read_and_start};
#[cfg(test)]
pub use register::Register;
#[cfg(test)]
pub use shown::Shown;
#[cfg(test)]
pub use terms::Terms;
#[cfg(test)]
pub use turns::Turns;
