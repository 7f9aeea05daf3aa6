//! The text of a picture of a file's operations, in SVG.
#![tactic(auto)]

mod bars;
mod contents;
mod escaping;
mod lanes;
pub mod laws;
mod layout;
mod parts;
mod picture;
mod register;

pub use escaping::put_escaped;
pub use picture::{Heading, put_picture};
