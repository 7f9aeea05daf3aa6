//! Tests of the crates below the world and of the order of operations, by their public calls: what no contract says, as that a
//! call finds memory where there is memory, and what no input of the program shows. What one shows is a case of `tests/cases`. The
//! tests of live runs stand in `gq_run_tests`. Tests stand apart, since a crate with tests is proved a second time with them, and
//! in two crates, which are proved side by side.
#![tactic(auto)]

#[cfg(test)]
mod cell;
#[cfg(test)]
mod depot;
#[cfg(test)]
mod desk;
#[cfg(test)]
mod memory;
#[cfg(test)]
mod order;
#[cfg(test)]
mod pool;
#[cfg(test)]
mod post;
#[cfg(test)]
mod shelf;
#[cfg(test)]
mod stock;
#[cfg(test)]
mod store;
