//! Numbers from one to another.

/// Numbers from one to another; none where the last is below the first.
#[derive(Clone, Copy)]
pub struct Run {
    /// The first of them.
    pub first: u64,
    /// The last of them.
    pub last: u64,
}
