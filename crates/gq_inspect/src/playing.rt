//! Each step of the records, in the world that those before it left.

ghost use Rattle.std.specs.Prelude.{◌≡◌, OnOk, IfOk, IfSome, Some, true};
ghost use Rattle.std.specs.Option.{ForSome};
ghost use Rattle.gq_world.specs.Tables.{Stands};
ghost use Rattle.gq_session.specs.Fitting.{plan_sessions};
ghost use Rattle.gq_inspect.specs.Replay.{BoardEntryFits, SessionEntryFits, ServedEntryFits, StepFits, IsDeed, Hears, SessionStep, ServedStep, message_after};
ghost use Rattle.gq_inspect.specs.Tapes.{before_of};
ghost use Rattle.gq_model.specs.Events.{IsRequestOf};

use crate::equality::is_said;
use crate::mismatch::Mismatch;
use crate::replaying::Tape;
use crate::steps::{Origin, Step};
use gq_cell::{BoardEntry, CellEntry, Letter};
use gq_memory::OutOfMemory;
use gq_model::{Answer, Event, Line, ServerLine, said_of};
use gq_session::{Did, Records, SessionEntry, SessionId, is_request_of};

// The board's change.
fn play_board(tape: &mut Tape, entry: &BoardEntry) -> Result<(), Mismatch>
    requires stands { Stands tape.old.world.tables tape.old.events.items }
    ensures plays { OnOk result (BoardEntryFits tape.old.world.tables.plan (before_of tape.old) entry.now (before_of tape.new)) }
    ensures stands { OnOk result (Stands tape.new.world.tables tape.new.events.items) }
    ensures plan { tape.new.world.tables.plan ≡ tape.old.world.tables.plan }
{
    let server = entry.server;
    let line = if entry.up {
        ServerLine::Up { server }
    } else {
        ServerLine::Down { server }
    };
    let answer = tape.play(Event::Server { line })?;
    match answer {
        Answer::ServerOk => Ok(()),
        _ => Err(Mismatch::Stamp),
    }
}

// The line that is what the session did. None where that can't be.
fn deed(tape: &Tape, id: SessionId, did: &Did) -> Result<Option<Line>, OutOfMemory>
    requires stands { Stands tape.now.world.tables tape.now.events.items }
    ensures { IfOk result (λ line. ForSome line (λ line. IsDeed tape.now.world.tables.plan (before_of tape.now) id did.now line)) }
{
    let session = u32::from(id.number);
    Ok(match did {
        Did::Asked(line) => {
            if is_request_of(id.number, line) {
                Some(line.share()?)
            } else {
                None
            }
        }
        Did::Heard(letter) => delivery(tape, id, letter),
        Did::Retried => Some(Line::Retry { session }),
        Did::GaveUp => Some(Line::Abandon { session }),
    })
}

// The delivery of the letter to the session.
fn delivery(tape: &Tape, id: SessionId, letter: &Letter) -> Option<Line>
    requires stands { Stands tape.now.world.tables tape.now.events.items }
    ensures { IfSome result (λ line. Hears tape.now.world.tables.plan (before_of tape.now) id letter.now line) }
{
    if letter.message.tenant != id.tenant || letter.message.session != id.number {
        return None;
    }
    let number = tape.number_of(letter)?;
    Some(Line::Deliver { number })
}

// What the session did.
fn play_session(
    tape: &mut Tape,
    step: Step,
    id: SessionId,
    entry: &SessionEntry,
) -> Result<(), Mismatch>
    requires stands { Stands tape.old.world.tables tape.old.events.items }
    ensures plays { OnOk result (SessionEntryFits tape.old.world.tables.plan step (before_of tape.old) id entry.now (before_of tape.new)) }
    ensures stands { OnOk result (Stands tape.new.world.tables tape.new.events.items) }
    ensures plan { tape.new.world.tables.plan ≡ tape.old.world.tables.plan }
{
    let fault = Mismatch::Answer {
        tenant: id.tenant,
        session: id.number,
        at: step.at,
    };
    let tenant = id.tenant;
    if tenant as usize >= tape.tenants() {
        return Err(fault);
    }
    let Some(line) = deed(tape, id, &entry.did)? else {
        return Err(fault);
    };
    let answer = tape.play(Event::Tenant { tenant, line })?;
    tape.note(step, tenant, &answer)?;
    match said_of(&answer)? {
        Some(said) if is_said(&said, &entry.said) => Ok(()),
        _ => Err(fault),
    }
}

// Whether the reply, from that place, is the tenant's message of this number.
fn is_reply(tape: &Tape, place: usize, tenant: u8, number: u64, reply: &Letter) -> bool
    requires stands { Stands tape.now.world.tables tape.now.events.items }
    ensures place { result ≡ true → reply.now.place ≡ place }
    ensures index { result ≡ true → reply.now.index ≡ 0 }
    ensures sent { result ≡ true → message_after tape.now.world.tables.plan tape.now.events.items tenant number ≡ Some reply.now.message }
{
    reply.place as usize == place
        && reply.index == 0
        && reply.message.tenant == tenant
        && tape.has(number, &reply.message)
}

// The letter that the server served, with its reply.
fn play_served(
    tape: &mut Tape,
    step: Step,
    server: usize,
    letter: &Letter,
    reply: &Letter,
) -> Result<(), Mismatch>
    requires stands { Stands tape.old.world.tables tape.old.events.items }
    ensures plays { OnOk result (ServedEntryFits tape.old.world.tables.plan step (before_of tape.old) server letter.now reply.now (before_of tape.new)) }
    ensures stands { OnOk result (Stands tape.new.world.tables tape.new.events.items) }
    ensures plan { tape.new.world.tables.plan ≡ tape.old.world.tables.plan }
{
    let place = step.at;
    let tenant = letter.message.tenant;
    if letter.message.server as usize != server {
        return Err(Mismatch::Receipt { server, place });
    }
    let Some(number) = tape.number_of(letter) else {
        return Err(Mismatch::Receipt { server, place });
    };
    let line = Line::Deliver { number };
    let answer = tape.play(Event::Tenant { tenant, line })?;
    tape.note(step, tenant, &answer)?;
    let Answer::Reply { number: sent } = answer else {
        return Err(Mismatch::Reply { server, place });
    };
    if !is_reply(tape, step.place, tenant, sent, reply) {
        return Err(Mismatch::Reply { server, place });
    }
    Ok(())
}

// The session's step.
fn play_entry(
    tape: &mut Tape,
    records: &Records,
    ids: &[SessionId],
    step: Step,
    session: usize,
) -> Result<(), Mismatch>
    requires stands { Stands tape.old.world.tables tape.old.events.items }
    requires ids { ids.now ≡ plan_sessions tape.old.world.tables.plan }
    ensures plays { OnOk result (SessionStep tape.old.world.tables.plan records.now step session (before_of tape.old) (before_of tape.new)) }
    ensures stands { OnOk result (Stands tape.new.world.tables tape.new.events.items) }
    ensures plan { tape.new.world.tables.plan ≡ tape.old.world.tables.plan }
{
    let (Some(id), Some(entries)) = (ids.get(session), records.sessions.get(session)) else {
        return Err(Mismatch::Shape);
    };
    let Some(entry) = entries.items.get(step.at) else {
        return Err(Mismatch::Shape);
    };
    play_session(tape, step, *id, entry)
}

// The server's step.
fn play_letter(
    tape: &mut Tape,
    records: &Records,
    step: Step,
    server: usize,
) -> Result<(), Mismatch>
    requires stands { Stands tape.old.world.tables tape.old.events.items }
    ensures plays { OnOk result (ServedStep tape.old.world.tables.plan records.now step server (before_of tape.old) (before_of tape.new)) }
    ensures stands { OnOk result (Stands tape.new.world.tables tape.new.events.items) }
    ensures plan { tape.new.world.tables.plan ≡ tape.old.world.tables.plan }
{
    let Some(journal) = records.cells.get(server) else {
        return Err(Mismatch::Shape);
    };
    let Some(CellEntry::Served { letter, reply }) = journal.items.get(step.at) else {
        return Err(Mismatch::Shape);
    };
    play_served(tape, step, server, letter, reply)
}

// The next step.
pub(crate) fn play(
    tape: &mut Tape,
    records: &Records,
    ids: &[SessionId],
    step: Step,
) -> Result<(), Mismatch>
    requires stands { Stands tape.old.world.tables tape.old.events.items }
    requires ids { ids.now ≡ plan_sessions tape.old.world.tables.plan }
    ensures plays { OnOk result (StepFits tape.old.world.tables.plan records.now step (before_of tape.old) (before_of tape.new)) }
    ensures stands { OnOk result (Stands tape.new.world.tables tape.new.events.items) }
    ensures plan { tape.new.world.tables.plan ≡ tape.old.world.tables.plan }
{
    match step.origin {
        Origin::Session(session) => play_entry(tape, records, ids, step, session),
        Origin::Server(server) => play_letter(tape, records, step, server),
        Origin::Board => {
            let Some(entry) = records.board.get(step.at) else {
                return Err(Mismatch::Shape);
            };
            play_board(tape, entry)
        }
    }
}
