//! What the command lines of all programs here have alike: their numbers and subcommands, how words are read by clap's rules, and
//! what was given. Which subcommands a program has stands in a crate of its own.
#![tactic(auto)]

mod arguments;
mod given;
mod reading;
mod telling;

pub use arguments::{VERSION, number, subcommand, with};
pub use given::{flag_of, number_of, path_of, text_of};
pub use reading::{Usage, matches_of};
pub use telling::{MEMORY, NO_MEMORY, USAGE, shown, told, words_of};
