//! How many numbers are reserved at once.

/// How many numbers of a session's operations are reserved by one fact, and how many of its tags. A start goes on behind the numbers
/// that were reserved, so it costs a session this many of each at most.
pub const NUMBERS_IN_A_RUN: u32 = 1024;
