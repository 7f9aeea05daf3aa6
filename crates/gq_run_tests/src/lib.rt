//! Tests of the crates above the world by their public calls: live runs under gates that hold their threads, forged records, and
//! what no input of the program brings about. What an input shows is a case of `tests/cases`. The tests of the crates below stand
//! in `gq_tests`.
#![tactic(auto)]

#[cfg(test)]
mod gates;
#[cfg(test)]
mod live;
#[cfg(test)]
mod names;
#[cfg(test)]
mod replay;
#[cfg(test)]
mod texts;
#[cfg(test)]
mod verdicts;
