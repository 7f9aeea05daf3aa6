//! How the operations of the sessions end, by the events from the last back to the first.

ghost use Rattle.std.specs.Prelude.{◌≡◌};
ghost use Rattle.gq_order.specs.Passes.{no_ending, ended_by, ending_in, entered, entered_by};

use crate::sessions::sees;
use gq_model::{Answer, Event};
use gq_tag::Tag;

// How a session's operation ends that goes on: the place of its end, and the tag of its store round if it is a write.
#[derive(Clone, Copy)]
pub struct Ending {
    pub end: Option<usize>,
    pub tag: Option<Tag>,
}

// An operation that goes on, and is not told of any more.
pub fn no_ending() -> Ending
    ensures { result ≡ no_ending }
{
    Ending {
        end: None,
        tag: None,
    }
}

// How the operation ends that went on before this answer, at this place, and later ends so.
fn ended_by(place: usize, answer: &Answer, later: Ending) -> Ending
    ensures { result ≡ ended_by place answer.now later }
{
    match answer {
        Answer::Done(_) => Ending {
            end: Some(place),
            tag: None,
        },
        Answer::Abandoned => no_ending(),
        Answer::Began { .. } => no_ending(),
        Answer::Round { tag, .. } => Ending {
            end: later.end,
            tag: *tag,
        },
        _ => later,
    }
}

// The ending of the session's operation in the table.
pub fn ending_in(ends: &[Ending], session: usize) -> Ending
    ensures { result ≡ ending_in ends.now session }
{
    match ends.get(session) {
        Some(ending) => *ending,
        None => no_ending(),
    }
}

// The table goes on before this answer to what is about the session.
fn enter(ends: &mut Vec<Ending>, place: usize, answer: &Answer, session: usize)
    ensures { ends.new.items ≡ entered place answer.now session ends.old.items }
{
    if session < ends.len() {
        ends[session] = ended_by(place, answer, ending_in(ends.as_slice(), session));
    }
}

// The same of an event, where the tenant sees it.
pub fn enter_by(
    tenant: u8,
    ends: &mut Vec<Ending>,
    place: usize,
    event: &Event,
    answer: &Answer,
    session: usize,
)
    ensures { ends.new.items ≡ entered_by tenant place event.now answer.now session ends.old.items }
{
    if sees(tenant, event) {
        enter(ends, place, answer, session);
    }
}
