//! What a tenant asks about its chunks.

use bytes::Bytes;
use gq_stock::Run;

/// What a tenant asks about its chunks.
#[derive(Drop)]
pub enum ChunkRequest {
    /// The content is to be kept under the session's number.
    Keep {
        session: u32,
        number: u64,
        bytes: Bytes,
    },
    /// The bytes of the session's number from that place on, at most so many.
    Get {
        session: u32,
        number: u64,
        from: u64,
        length: u64,
    },
    /// The session's numbers of the run are to be forgotten, and its floor is to be at this number or higher.
    Forget {
        session: u32,
        floor: u64,
        run: Run,
    },
    /// The numbers of the session above this one.
    List {
        session: u32,
        after: u64,
    },
    /// How much room there is.
    Room,
}
