//! What a live run takes, and what it records.

ghost use Rattle.std.specs.Prelude.{◌≡◌};

use gq_cell::{BoardEntry, CellEntry, Letter};
use gq_memory::OutOfMemory;
use gq_model::{Line, Said, ServerLine};
use std::marker::Model;
use thiserror::Error;

/// The requests of one session, in order.
#[derive(Debug, Drop)]
pub struct Lines {
    pub items: Vec<Line>,
}

impl Model for Lines {
    ghost use Rattle.std.specs.Prelude.{List};
    ghost use Rattle.gq_model.specs.declared.events.Line.{Line};

    ghost Value = { List Line };

    ghost view = { λ l. l.items.items };
}

/// A volume that a tenant opens before the run: so many files of so many blocks each.
#[derive(Clone, Copy, Debug, PartialEq, Eq)]
pub struct Opening {
    pub tenant: u8,
    pub files: u32,
    pub blocks: u32,
}

/// What is to be done: the volumes, each session's requests (the sessions of the first tenant first), and the servers'
/// stops and returns.
#[derive(Debug, Drop)]
pub struct Programs {
    pub volumes: Vec<Opening>,
    pub sessions: Vec<Lines>,
    pub changes: Vec<ServerLine>,
}

/// What a session did.
#[derive(Debug, Drop)]
pub enum Did {
    /// It asked the request.
    Asked(Line),
    /// It heard the letter.
    Heard(Letter),
    /// It sent its round's message once more.
    Retried,
    /// It gave its operation up.
    GaveUp,
}

/// A step of a session, in a hold of the board's lock, and what was said to it.
#[derive(Debug, Drop)]
pub struct SessionEntry {
    pub stamp: u64,
    pub did: Did,
    pub said: Said,
}

/// A server's journal.
#[derive(Debug, Drop)]
pub struct Journal {
    pub items: Vec<CellEntry>,
}

impl Model for Journal {
    ghost use Rattle.std.specs.Prelude.{List};
    ghost use Rattle.gq_cell.specs.declared.letter.CellEntry.{CellEntry};

    ghost Value = { List CellEntry };

    ghost view = { λ j. j.items.items };
}

/// A session's steps, in order.
#[derive(Debug, Drop)]
pub struct Entries {
    pub items: Vec<SessionEntry>,
}

impl Model for Entries {
    ghost use Rattle.std.specs.Prelude.{List};
    ghost use Rattle.gq_session.specs.declared.records.SessionEntry.{SessionEntry};

    ghost Value = { List SessionEntry };

    ghost view = { λ e. e.items.items };
}

/// What was done: the volumes, each server's journal, the board's changes, and each session's steps.
#[derive(Debug, Drop)]
pub struct Records {
    pub volumes: Vec<Opening>,
    pub cells: Vec<Journal>,
    pub board: Vec<BoardEntry>,
    pub sessions: Vec<Entries>,
}

/// Why a live run gave no records. Of several threads' faults the one of the least number is told, in this order.
#[derive(Debug, Drop, Error)]
pub enum LiveFault {
    /// Memory is wanting.
    #[error("out of memory")]
    Memory(OutOfMemory),
    /// A thread could not be started.
    #[error("thread fault")]
    Thread,
    /// The gate gave up.
    #[error("gate")]
    Gate,
    /// No greater stamp or tag number is left.
    #[error("stamps")]
    Stamps,
    /// The volume at that place is refused.
    #[error("volume {0}")]
    Volume(usize),
    /// A letter or a record is not what it should be.
    #[error("letter")]
    Letter,
}

impl From<OutOfMemory> for LiveFault {
    ghost use Rattle.std.specs.Prelude.{◌≡◌};
    ghost use Rattle.gq_session.specs.declared.records.LiveFault.TheVariants.{Memory};

    ghost from_gives = { λ refused e. e ≡ Memory refused };

    fn from(refused: OutOfMemory) -> LiveFault {
        LiveFault::Memory(refused)
    }
}
