//! How short a content in memory is, and what a chunk is charged.

/// A chunk of so many bytes or fewer is kept in memory and in the journal first.
pub const MOST_FRESH: usize = 16_384;

/// The most bytes of a tenant's contents in memory: one that would bring more there lies on the shelf.
pub const MOST_FRESH_BYTES: u64 = 4_194_304;

/// The bytes that each chunk is charged beside its own: what stands for it in memory and in the journal, however short it is.
pub const CHUNK_CHARGE: u64 = 512;
