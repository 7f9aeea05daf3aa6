//! The service of one node, from its plan's file and its journal to the end of its input. Files and streams stand at the edge:
//! [`serve_node`] works over any disk, input and output, and [`run_node`] over the files that are asked for.
#![tactic(auto)]

mod both;
mod console;
mod fault;
mod finding;
mod forms;
mod gone;
pub mod laws;
mod locking;
mod mismatch;
mod new_node;
mod place;
mod promise;
mod registers;
mod running;
mod served;
mod serving;
mod shelving;
mod telling;
mod this_node;

pub use both::{Both, ByVerb, WithChunks};
pub use console::{Console, Standard};
pub use fault::{NodeFault, Told};
pub use gq_node_words::NodeRequest;
pub use mismatch::Mismatch;
pub use promise::Durable;
pub use registers::RegistersAlone;
pub use running::run_node;
pub use served::{Maker, Served};
pub use serving::serve_node;
pub use this_node::ThisNode;
