//! All tenants at once: each is answered as in its run by itself.
#![tactic(auto)]

mod chooser;
mod new_files;
mod peers;
mod replies;
mod sending;
mod sessions;
mod tables;
mod world;

pub use gq_laws::laws;
pub use gq_model::{Answer, Event, Line, Refusal, Said, ServerLine, ServerRefusal, said_of};
pub use world::{Ended, World};
