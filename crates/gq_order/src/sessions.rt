//! Whose each message is, and which session each event is about.

ghost use Rattle.std.specs.Prelude.{◌≡◌, ◌++◌, [], replicate, slice_index, IfOk};
ghost use Rattle.gq_model.specs.Trace.{Own};
ghost use Rattle.gq_laws.specs.Operations.{session_of};
ghost use Rattle.gq_order.specs.Passes.{sees, told_sent, sent_at, session_at, sessions_from};

use gq_memory::{GrowVec, OutOfMemory};
use gq_model::{Answer, Event, Line};
use std::alloc::Global;

/// Whether the tenant sees the event: a line of its own, or a server line.
#[inline]
pub fn sees(tenant: u8, event: &Event) -> bool
    ensures { result ≡ sees tenant event.now }
{
    match event {
        Event::Tenant { tenant: other, .. } => *other == tenant,
        Event::Server { .. } => true,
        Event::Stray => false,
    }
}

// How many messages the answer tells of.
fn told_sent(answer: &Answer) -> u32
    ensures { result ≡ told_sent answer.now }
{
    match answer {
        Answer::Began { count, .. } => *count,
        Answer::Reply { .. } => 1,
        Answer::Round { count, .. } => *count,
        Answer::Resent { count, .. } => *count,
        _ => 0,
    }
}

// How many of the tenant's.
fn sent_at(tenant: u8, event: &Event, answer: &Answer) -> u32
    ensures { result ≡ sent_at tenant event.now answer.now }
{
    if sees(tenant, event) {
        told_sent(answer)
    } else {
        0
    }
}

// The session of the message, 0 where none was sent.
fn owner(owned: &[u32], number: usize) -> u32
    ensures { result ≡ slice_index owned.now number }
{
    match owned.get(number) {
        Some(session) => *session,
        None => 0,
    }
}

// The session of the line, where the messages sent so far belong to these sessions.
fn session_of(owned: &[u32], line: &Line) -> u32
    ensures { result ≡ session_of owned.now (Own line.now) }
{
    match line {
        Line::Write { session, .. } => *session,
        Line::Read { session, .. } => *session,
        Line::List { session, .. } => *session,
        Line::Retry { session } => *session,
        Line::Abandon { session } => *session,
        Line::Deliver { number } => owner(owned, *number as usize),
        _ => 0,
    }
}

// The session of the event, 0 where it is about none of the tenant's.
fn session_at(tenant: u8, owned: &[u32], event: &Event) -> u32
    ensures { result ≡ session_at tenant owned.now event.now }
{
    match event {
        Event::Tenant {
            tenant: other,
            line,
        } => {
            if *other == tenant {
                session_of(owned, line)
            } else {
                0
            }
        }
        _ => 0,
    }
}

// So many more messages are the session's.
#[tactic(auto, using(crate::proofs::Rests::given_more))]
fn give_to(owned: &mut Vec<u32>, count: u32, session: u32) -> Result<(), OutOfMemory>
    ensures { IfOk result (λ _. owned.new.items ≡ owned.old.items ++ replicate count session) }
{
    for _ in 0..count {
        owned.grow(session)?;
    }
    Ok(())
}

// The session of each event.
pub fn sessions_of(
    alloc: Global,
    tenant: u8,
    events: &[Event],
    answers: &[Answer],
) -> Result<Vec<u32>, OutOfMemory>
    ensures { IfOk result (λ sessions. sessions.items ≡ sessions_from tenant [] events.now answers.now) }
{
    let mut owned: Vec<u32> = Vec::new(alloc);
    let mut sessions: Vec<u32> = Vec::new(alloc);
    for (place, event) in events.iter().enumerate() {
        let Some(answer) = answers.get(place) else {
            return Ok(sessions);
        };
        let session = session_at(tenant, owned.as_slice(), event);
        give_to(&mut owned, sent_at(tenant, event, answer), session)?;
        sessions.grow(session)?;
    }
    Ok(sessions)
}
