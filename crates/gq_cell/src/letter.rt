//! Letters, and the entries of a journal.

ghost use Rattle.std.specs.Prelude.{◌≡◌, IfOk};

use gq_memory::OutOfMemory;
use gq_tag::Message;

/// A message, and the step that sent it: where it was (0 is the board, `s + 1` is server `s`), its stamp, and as which of
/// its messages, from 0. A clone shares the content.
#[derive(Debug, PartialEq, Eq, Drop)]
pub struct Letter {
    pub place: u32,
    pub stamp: u64,
    pub index: u32,
    pub message: Message,
}

/// What a server did.
#[derive(Debug, PartialEq, Eq, Drop)]
pub enum CellEntry {
    /// It served the letter by the reply.
    Served { letter: Letter, reply: Letter },
    /// It stopped.
    Stop { stamp: u64 },
    /// It came back.
    Back { stamp: u64 },
}

impl Letter {
    /// The same letter, which shares the content.
    pub fn share(&self) -> Result<Letter, OutOfMemory>
        ensures { IfOk result (λ same. same ≡ self.now) }
    {
        Ok(Letter {
            place: self.place,
            stamp: self.stamp,
            index: self.index,
            message: self.message.share()?,
        })
    }
}
