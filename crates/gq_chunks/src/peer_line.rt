//! What nodes of a column say to each other about the chunks of a tenant.

use bytes::Bytes;
use gq_depot::ListedChunk;

/// What a node that lacks chunks of a tenant and a peer of its column say to each other. A session and a number are those that were asked for.
#[derive(Drop)]
pub enum PeerLine {
    /// The chunks of the session above this number are asked for, by a node whose plan tells so many losses of the column.
    Seeks {
        losses: u64,
        session: u32,
        after: u64,
    },
    /// These are the session's floor and its chunks above that number, the first of them or all.
    Found {
        session: u32,
        after: u64,
        floor: u64,
        is_all: bool,
        chunks: Vec<ListedChunk>,
    },
    /// The content of the session's number is asked for.
    Wants {
        session: u32,
        number: u64,
    },
    /// This is the content.
    Gives {
        session: u32,
        number: u64,
        bytes: Bytes,
    },
    /// None is there.
    Misses {
        session: u32,
        number: u64,
    },
    /// One is there, and can't be read.
    Spoilt {
        session: u32,
        number: u64,
    },
}
