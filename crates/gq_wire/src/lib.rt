//! The lines between nodes, and between a node and its tenants: `TO FROM BODY`, as they are read and written.
#![tactic(auto)]

mod answers;
mod fetching;
mod incoming;
pub mod laws;
mod letters;
mod requests;
mod values;
mod writing;

pub use answers::put_told;
pub use incoming::{Incoming, LINE_FORM, MOST_LINE, longest_line, read_incoming};
pub use values::{read_copy, take_byte, take_long, take_number};
pub use writing::{
    put_first, put_joined, put_joins, put_letter, put_short, put_speaks, put_transfer,
};
