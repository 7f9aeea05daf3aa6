//! One session's operation: the rounds of a write, a read or a listing, what it says to each reply, and what it
//! sends. Reads and writes are the two phases of Attiya, Bar-Noy and Dolev (Sharing memory robustly in
//! message-passing systems, JACM 42(1), 1995), with several writers: a collect round asks a full row of the grid for
//! its copies, a store round stores the copy that was decided at a full column. A read whose copy's tag was told by a
//! full column already leaves out the store round, which would change nothing. A listing does so for each file of its
//! volume in turn.
#![tactic(auto)]

mod best;
mod course;
pub mod laws;
mod operation;
mod quorums;

ghost use Rattle.std.specs.Prelude.{◌≡◌, IfOk};

use gq_memory::{GrowCopies, OutOfMemory};
pub use gq_round::{Messages, Who};
use gq_tag::{StoredCopy, Tag};
pub use operation::Operation;
pub use quorums::are_peers;
use std::marker::Model;
use thiserror::Error;

/// What a listing gives of a file: the length of its content in bytes, and the tag of its copy.
#[derive(Clone, Copy, Debug, PartialEq, Eq)]
pub struct Row {
    pub length: u64,
    pub tag: Tag,
}

/// The files of a volume, from file 0 on.
#[derive(Debug, Drop)]
pub struct Rows {
    pub items: Vec<Row>,
}

impl Model for Rows {
    ghost use Rattle.std.specs.Prelude.{List};
    ghost use Rattle.gq_phase.specs.declared.Row.{Row};

    ghost Value = { List Row };

    ghost view = { λ r. r.items.items };
}

impl Rows {
    /// The same rows.
    pub fn share(&self) -> Result<Rows, OutOfMemory>
        ensures { IfOk result (λ same. same ≡ self.now) }
    {
        Ok(Rows {
            items: self.items.same_items()?,
        })
    }
}

/// How an operation ended. A clone shares the content that a read gave.
#[derive(Debug, Drop)]
pub enum Outcome {
    /// A write is done under the tag.
    Wrote {
        session: u8,
        op: u32,
        tag: Tag,
    },
    /// A read gives the copy.
    Gave {
        session: u8,
        op: u32,
        copy: StoredCopy,
    },
    /// A listing gives its volume's files.
    Listed {
        session: u8,
        op: u32,
        rows: Rows,
    },
}

impl Outcome {
    /// The same outcome, which shares the content.
    pub fn share(&self) -> Result<Outcome, OutOfMemory>
        ensures { IfOk result (λ same. same ≡ self.now) }
    {
        match self {
            Outcome::Wrote { session, op, tag } => Ok(Outcome::Wrote {
                session: *session,
                op: *op,
                tag: *tag,
            }),
            Outcome::Gave { session, op, copy } => Ok(Outcome::Gave {
                session: *session,
                op: *op,
                copy: copy.share()?,
            }),
            Outcome::Listed { session, op, rows } => Ok(Outcome::Listed {
                session: *session,
                op: *op,
                rows: rows.share()?,
            }),
        }
    }
}

/// What an operation says to a message of its session.
#[derive(Debug, Drop)]
pub enum Heard {
    /// The message is of another operation or round, or the operation is done.
    Stale,
    /// The reply was noted, and the round goes on.
    Noted,
    /// The round ended, and this one begins: of this tag where it stores, with these messages, none where no column
    /// is up for a store round, or no row for a collect round.
    Next {
        round: u32,
        tag: Option<Tag>,
        messages: Messages,
    },
    /// The last round ended.
    Done(Outcome),
}

/// Why an operation did not begin. Whether a row is up is tested first.
#[derive(Debug, Drop, Error)]
pub enum BeginRefused {
    /// No row is up.
    #[error("no row is up")]
    NoQuorum,
    /// A growth of memory was refused.
    #[error("out of memory")]
    Memory(OutOfMemory),
}

impl From<OutOfMemory> for BeginRefused {
    ghost use Rattle.std.specs.Prelude.{◌≡◌};
    ghost use Rattle.gq_phase.specs.declared.BeginRefused.TheVariants.{Memory};

    ghost from_gives = { λ refused e. e ≡ Memory refused };

    fn from(refused: OutOfMemory) -> BeginRefused {
        BeginRefused::Memory(refused)
    }
}

/// Why a round's message was not sent once more. Whether a row is up, or in a store round a column, is tested first.
#[derive(Debug, Drop, Error)]
pub enum ResendRefused {
    /// No row is up in a collect round, or no column in a store round.
    #[error("no quorum of the round is up")]
    NoQuorum,
    /// A growth of memory was refused.
    #[error("out of memory")]
    Memory(OutOfMemory),
}

impl From<OutOfMemory> for ResendRefused {
    ghost use Rattle.std.specs.Prelude.{◌≡◌};
    ghost use Rattle.gq_phase.specs.declared.ResendRefused.TheVariants.{Memory};

    ghost from_gives = { λ refused e. e ≡ Memory refused };

    fn from(refused: OutOfMemory) -> ResendRefused {
        ResendRefused::Memory(refused)
    }
}
