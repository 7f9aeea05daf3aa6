//! One server's store: the copies of all tenants' files, in one pool of blocks.
#![tactic(auto)]

mod entry;
mod store;
mod volumes;

pub use store::{Put, ServeRefused, ServerStore, reply};
