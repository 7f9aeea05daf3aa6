//! What a node starts with, its *setup*: a plan, the volumes that are opened at each start, the room that tenants have for chunks, the nodes
//! that were lost, and the tenants that are gone. It is read from a text, written in one form, and goes on from an older one where no home's
//! place moves, no loss is forgotten, who is gone stays gone, and of each other tenant no volume moves and no room for chunks gets less.
#![tactic(auto)]

mod going_on;
pub mod laws;
mod leaving;
mod node_plan;
mod openings;
mod setup;

pub use going_on::NotKept;
pub use node_plan::{NodePlan, read_node_plan};
pub use openings::{ChunkRoom, MOST_GONE, MOST_LOSSES, Opening, SetupFault};
pub use setup::{Setup, read_setup};
