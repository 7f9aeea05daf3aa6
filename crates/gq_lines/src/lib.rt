//! Lines, words, numbers and contents as text: how they are cut out of a text and read, and how they are appended to one. What is
//! written is read as it was (`laws`).
#![tactic(auto)]

mod first_bytes;
mod hex_digits;
pub mod laws;
mod lines;
mod long_numbers;
mod words;
mod writing;

pub use lines::{cut_line, first_line};
pub use long_numbers::long_number;
pub use words::{content, first_word, is_end, next_long_word, next_word, number};
pub use writing::{
    put_bytes, put_content, put_digits, put_last_number, put_number, put_spaced_number, put_sum,
    put_word,
};
