//! The lines of the input after `go`, and what is answered to them.

ghost use Rattle.std.specs.Prelude.{◌≡◌, IfOk};

use bytes::Bytes;
use gq_desk::VolumeRows;
use gq_grid::Choice;
use gq_memory::{GrowBytes, OutOfMemory};
use gq_phase::Outcome;
use gq_tag::Tag;

/// A line of the input after `go`, read.
#[derive(Debug, Drop)]
pub enum Event {
    /// A line of the tenant at this place in the plan.
    Tenant { tenant: u8, line: Line },
    /// A line that begins with the word `server`.
    Server { line: ServerLine },
    /// A line of nobody.
    Stray,
}

/// What a tenant's line asks. A clone shares the content.
#[derive(Debug, PartialEq, Eq, Drop)]
pub enum Line {
    /// The line has no form that is known.
    Bad,
    /// Which quorum is chosen now?
    Quorum,
    /// Open a volume of so many files of so many blocks each.
    NewVolume {
        files: u32,
        blocks: u32,
    },
    /// Which volumes are there, and how many blocks are free?
    Volumes,
    /// The session is to write this content to the file of the volume.
    Write {
        session: u32,
        volume: u32,
        file: u32,
        bytes: Bytes,
    },
    /// The session is to read the file of the volume.
    Read {
        session: u32,
        volume: u32,
        file: u32,
    },
    /// The session is to read the files of the volume one after another, and to tell their lengths and tags. It is no
    /// snapshot.
    List {
        session: u32,
        volume: u32,
    },
    /// Deliver the tenant's message of this number.
    Deliver {
        number: u32,
    },
    /// Lose the tenant's message of this number.
    Lose {
        number: u32,
    },
    /// The session sends its round's message once more, to those servers that it has not heard in the round of the
    /// row that is up now, or in a store round of the column that is up now.
    Retry {
        session: u32,
    },
    /// The session gives its operation up.
    Abandon {
        session: u32,
    },
}

impl Line {
    /// The same line, which shares the content.
    pub fn share(&self) -> Result<Line, OutOfMemory>
        ensures { IfOk result (λ same. same ≡ self.now) }
    {
        Ok(match self {
            Line::Bad => Line::Bad,
            Line::Quorum => Line::Quorum,
            Line::NewVolume { files, blocks } => Line::NewVolume {
                files: *files,
                blocks: *blocks,
            },
            Line::Volumes => Line::Volumes,
            Line::Write {
                session,
                volume,
                file,
                bytes,
            } => Line::Write {
                session: *session,
                volume: *volume,
                file: *file,
                bytes: bytes.share()?,
            },
            Line::Read {
                session,
                volume,
                file,
            } => Line::Read {
                session: *session,
                volume: *volume,
                file: *file,
            },
            Line::List { session, volume } => Line::List {
                session: *session,
                volume: *volume,
            },
            Line::Deliver { number } => Line::Deliver { number: *number },
            Line::Lose { number } => Line::Lose { number: *number },
            Line::Retry { session } => Line::Retry { session: *session },
            Line::Abandon { session } => Line::Abandon { session: *session },
        })
    }
}

/// What a server line tells.
#[derive(Clone, Copy, Debug, PartialEq, Eq)]
pub enum ServerLine {
    /// The line has no form that is known.
    Bad,
    /// The server goes down.
    Down { server: u32 },
    /// The server comes back.
    Up { server: u32 },
    /// The server's disk is lost, with the copies of all files.
    Lost { server: u32 },
    /// The server comes back with the copies that another of its column has.
    Repaired { server: u32 },
}

/// Why a tenant's line is refused. The causes are tested in this order.
#[derive(Clone, Copy, Debug, PartialEq, Eq)]
pub enum Refusal {
    /// As many lines of the tenant came before as the plan gives it steps.
    Spent,
    /// The line has no form that is known.
    Bad,
    /// The tenant has no session of this number.
    NoSession,
    /// The session has an operation already.
    Busy,
    /// The session has no operation.
    Idle,
    /// The tenant has no volume of this number.
    NoVolume,
    /// The volume has no file of this number.
    NoFile,
    /// The content is longer than the blocks of the file: `gq_tag::BLOCK_BYTES` bytes for each.
    TooLong,
    /// No row, or no column, is wholly up.
    NoQuorum,
    /// No such message was sent, or it is lost.
    NoMessage,
    /// The files are not 1 to `gq_tag::MOST_FILES`, or the blocks of a file not 1 to the most of the tenant's row.
    Size,
    /// The tenant has as many volumes already as its row says.
    Volumes,
    /// The volume's blocks are more than the `free` blocks that are left of the share.
    Share { free: u32 },
}

/// Why a server line is refused. The causes are tested in this order.
#[derive(Clone, Copy, Debug, PartialEq, Eq)]
pub enum ServerRefusal {
    /// The line has no form that is known.
    Bad,
    /// The grid has no server of this number.
    NoServer,
    /// The server is lost: only a repair brings it back.
    Lost,
    /// The server is so already.
    Same,
    /// All other servers of its column are lost: this one has the copies that are left there.
    Last,
    /// No other server of its column is up that could give its copies.
    NoPeer,
}

/// What is answered to a line. Messages that are sent are told by the number of the first and how many they are.
#[derive(Debug, Drop)]
pub enum Answer {
    /// The chosen quorum.
    Quorum(Choice),
    /// The number of the volume that was opened.
    Volume {
        number: u32,
    },
    /// The blocks that no volume reserves, and the volumes in order.
    Volumes {
        free: u32,
        rows: VolumeRows,
    },
    /// The session's operation of this number begins, with these messages.
    Began {
        op: u32,
        first: u64,
        count: u32,
    },
    /// The message came to its server, which sent the one of this number back.
    Reply {
        number: u64,
    },
    /// The message came to a server that is down.
    Down,
    /// The message came to its session, and is not of its current operation and round.
    Stale,
    /// The message came to its session, and the round goes on.
    Noted,
    /// The message came to its session and ended the round. This round begins, of this tag where it stores, with these
    /// messages: none where no column is up for a store round, or no row for a collect round.
    Round {
        round: u32,
        tag: Option<Tag>,
        first: u64,
        count: u32,
    },
    /// The message came to its session, whose operation is done.
    Done(Outcome),
    /// The message is lost.
    Lost,
    /// The round's message is sent once more, in these messages.
    Resent {
        first: u64,
        count: u32,
    },
    /// The session has no operation any more.
    Abandoned,
    /// The tenant's line is refused; it counts as a step unless the steps are spent.
    Refused(Refusal),
    /// The server is as the line says from now on.
    ServerOk,
    /// The server is up again, and has the copies of this one.
    Repaired {
        peer: u32,
    },
    /// The server line is refused, and changes nothing.
    ServerRefused(ServerRefusal),
    /// A line of nobody.
    StrayBad,
}
