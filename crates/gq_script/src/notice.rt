//! Who is told that a plan was accepted.

/// Who is told, where lines are answered as they come, that the plan was accepted and that lines are awaited now: a person who
/// types them would else see nothing.
pub trait Notice {
    /// The plan was accepted, and the input has not ended. It comes at most once, and nothing of the answers depends on it.
    fn lines_awaited(&self);
}

/// It tells nobody.
#[derive(Clone, Copy, PartialEq, Eq)]
pub struct NoNotice;

impl Notice for NoNotice {
    fn lines_awaited(&self) {}
}
