//! What comes of a content that is to be kept.

/// What comes of a content that is to be kept.
#[derive(Clone, Copy, PartialEq, Eq)]
pub enum Verdict {
    /// One is there under the number, and stays.
    There,
    /// None is there, and the number is not above the floor.
    Below,
    /// It has more bytes than are free.
    Full,
    /// It is there now.
    Kept,
}
