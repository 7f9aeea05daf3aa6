//! What the service means: the run of one tenant by itself, as questions to what was accepted before. The definitions stand
//! in `specs/`, over the lines and answers here; nothing of the world's tables is known.
#![tactic(auto)]

mod events;
mod said;

pub use events::{Answer, Event, Line, Refusal, ServerLine, ServerRefusal};
pub use said::{Said, said_of};
