//! How long a chunk may be, and a listing, and how much is noted.

/// The most bytes of a chunk.
pub const MOST_CHUNK: usize = 1_048_576;

/// The most chunks of a listing.
pub const MOST_LISTED: usize = 1_000;

/// The most runs of numbers that a tenant forgets while the server lacks chunks.
pub const MOST_GONE: usize = 65_536;

/// The greatest floor that a session is given where no chunk of it reaches so far: half of all numbers, so that as many are left above it.
pub const MOST_FLOOR: u64 = 9_223_372_036_854_775_808;
