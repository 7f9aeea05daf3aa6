//! What a node must not forget of chunks.

use gq_shelf::Place;
use gq_stock::Run;

/// What a node must not forget of a tenant's chunks. It is the fact of one deed of `gq_stock`, or a part of it: numbers that are forgotten in several runs
/// have a fact for each.
#[derive(Drop)]
pub enum ChunkFact {
    /// This is under the session's number, whatever was: a content in memory, or where one lies on the shelf. It is told (`is_sure`), or not yet.
    Put {
        session: u32,
        number: u64,
        is_sure: bool,
        place: Place,
    },
    /// The session's numbers of the run are forgotten, and the floor is at this number or higher. While the server lacks chunks of the tenant, what a peer
    /// gives of them is passed over.
    Forgot {
        session: u32,
        floor: u64,
        run: Run,
    },
    /// The server lacks no chunk of the tenant any more.
    Filled,
}
