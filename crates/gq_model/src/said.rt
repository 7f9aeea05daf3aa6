//! What a session is told, without the numbers of messages.

ghost use Rattle.std.specs.Prelude.{◌≡◌, IfOk};
ghost use Rattle.gq_model.specs.Shown.{shown};
ghost use Rattle.gq_model.specs.Said.{said_in};

use crate::{Answer, Refusal};
use gq_memory::OutOfMemory;
use gq_phase::Outcome;
use gq_tag::Tag;

/// What a session is told, with the count of the messages that were sent in place of their numbers, which depend on what
/// the tenant's other sessions sent before.
#[derive(Debug, Drop)]
pub enum Said {
    /// The operation of this number begins.
    Began {
        op: u32,
        sent: u32,
    },
    /// The message is not of the current operation and round.
    Stale,
    /// The reply was noted, and the round goes on.
    Noted,
    /// This round begins, of this tag where it stores.
    Round {
        round: u32,
        tag: Option<Tag>,
        sent: u32,
    },
    /// The operation is done.
    Done(Outcome),
    /// The round's message is sent once more.
    Resent {
        sent: u32,
    },
    /// The operation is given up.
    Abandoned,
    /// The request is refused.
    Refused(Refusal),
}

/// The answer as its session is told it. None where the answer is to no request of a session and to no message to one, as
/// that of a volume, a server or a loss. Only a listing's rows take memory; the content that a read gave is shared.
pub fn said_of(answer: &Answer) -> Result<Option<Said>, OutOfMemory>
    ensures { IfOk result (λ said. said ≡ said_in (shown answer.now)) }
{
    let said = match answer {
        Answer::Began { op, count, .. } => Said::Began {
            op: *op,
            sent: *count,
        },
        Answer::Stale => Said::Stale,
        Answer::Noted => Said::Noted,
        Answer::Round {
            round,
            tag,
            count,
            ..
        } => Said::Round {
            round: *round,
            tag: *tag,
            sent: *count,
        },
        Answer::Done(outcome) => Said::Done(outcome.share()?),
        Answer::Resent { count, .. } => Said::Resent { sent: *count },
        Answer::Abandoned => Said::Abandoned,
        Answer::Refused(refusal) => Said::Refused(*refusal),
        _ => return Ok(None),
    };
    Ok(Some(said))
}
