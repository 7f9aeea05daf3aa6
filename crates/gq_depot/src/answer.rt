//! What a tenant is told of its chunks.

use crate::ChunkFact;
use gq_stock::{Found, Keeping, Run};

/// A chunk of a listing.
#[derive(Clone, Copy)]
pub struct ListedChunk {
    /// Its number.
    pub number: u64,
    /// How many bytes it has.
    pub size: u64,
}

/// What a tenant is told of its chunks. A session and a number are those that were asked for.
#[derive(Drop)]
pub enum ChunkAnswer {
    /// The line has no form of a request.
    Bad,
    /// The tenant has no such session.
    NoSession {
        session: u32,
        number: u64,
    },
    /// The content has no byte, or too many.
    TooLong {
        session: u32,
        number: u64,
        length: u64,
    },
    /// What comes of a content that is to be kept, at a server whose plan tells so many losses of its column, where the floor is at this number and so
    /// many bytes are free.
    Kept {
        session: u32,
        number: u64,
        told: Keeping,
        losses: u64,
        floor: u64,
        free: u64,
    },
    /// What is found of a number that is told, of which the bytes from this place on are asked for, at most so many. Where nothing is found the server may
    /// lack it.
    Found {
        session: u32,
        number: u64,
        from: u64,
        length: u64,
        found: Found,
        lacks: bool,
    },
    /// The numbers of the run are forgotten, and the floor is here.
    Forgot {
        session: u32,
        floor: u64,
        run: Run,
    },
    /// The server lacks chunks of the tenant, and no more forgotten numbers are noted until it is given them. Nothing was forgotten.
    Lacking {
        session: u32,
        floor: u64,
    },
    /// The chunks above this number, the first of them or all.
    Listed {
        session: u32,
        after: u64,
        floor: u64,
        chunks: Vec<ListedChunk>,
        is_all: bool,
    },
    /// How many bytes are used and allowed, the losses of the column, and whether the server lacks chunks.
    Room {
        used: u64,
        allowed: u64,
        losses: u64,
        lacks: bool,
    },
}

/// What comes of a request: what is told, and what must not be forgotten of it.
#[derive(Drop)]
pub struct Answered {
    /// What is told.
    pub answer: ChunkAnswer,
    /// What must not be forgotten.
    pub fact: Option<ChunkFact>,
}
