//! The messages of all tenants.
//!
//! `Post::get` lends the copy alone (`MessageView`). A round's messages are `Messages`, which contracts see as a list.
#![tactic(auto)]

mod copies;
mod envelopes;
mod post;

pub use post::{CopySent, Post, RoundSent, Unsent};
