//! A session's thread.
ghost use Rattle.std.specs.Prelude.{◌≡◌, ◌↔◌, true, false, None, IfOk, OnOk, MatchOption};
ghost use Rattle.gq_session.specs.Attending.{Asks, GivesUp, GivesUpWhereStuck, GoesOn, Hears, SendsAgain, TakesNotice, TakesReply, is_prop-gives_up};
ghost use Rattle.gq_session.specs.Faults.{NoGate};
ghost use Rattle.gq_live.specs.Notes.{TakesNote};

use crate::starts::{Mailboxes, Note, SessionState, post};
use crossbeam_channel::{Receiver, Sender};
use gq_cell::Letter;
use gq_grid::Grid;
use gq_session::{LiveFault, Outbox, Schedule, Session};
use gq_tag::Message;
use std::alloc::Global;
use std::sync::{Mutex, Wait};

/// What a session's thread gives back: its place among all sessions, with the session, which gave an operation up exactly
/// where it waited for nothing.
#[derive(Drop)]
pub(crate) struct Attendance {
    pub place: usize,
    pub session: Session,
    ghost gave_up: { GivesUpWhereStuck session.entries } by { is_prop-gives_up session.entries },
}

/// How a session's thread ended. Its fault is not the gate's.
#[derive(Drop)]
pub(crate) struct SessionEnd {
    pub result: Result<Attendance, LiveFault>,
    pub ghost no_gate: { NoGate result },
}

// Sends the message of this index of a step as a letter to its server. One to a closed mailbox is dropped.
fn send<R: Wait>(
    rt: &R,
    servers: &[Sender<Letter>],
    stamp: u64,
    index: usize,
    message: Message,
) -> Result<(), LiveFault>
    ensures { NoGate result }
{
    let (Some(to), Ok(index)) = (servers.get(message.server as usize), u32::try_from(index)) else {
        return Err(LiveFault::Letter);
    };
    let letter = Letter {
        place: 0,
        stamp,
        index,
        message,
    };
    post(rt, to, letter)
}

// Sends the letters of a step.
fn send_all<R: Wait>(
    rt: &R,
    alloc: Global,
    servers: &[Sender<Letter>],
    outbox: Outbox,
) -> Result<(), LiveFault>
    ensures { NoGate result }
{
    let messages = outbox.messages.to_vec(alloc)?;
    for (index, message) in messages.into_iter().enumerate() {
        send(rt, servers, outbox.stamp, index, message)?;
    }
    Ok(())
}

// One hold of the board's lock, in which a letter is heard.
fn hear<R: Wait>(
    rt: &R,
    schedule: &Mutex<Schedule>,
    session: &mut Session,
    letter: Letter,
) -> Result<Outbox, LiveFault>
    ensures hears { IfOk result (λ outbox. Hears letter session.old session.new outbox.stamp outbox.messages outbox.stuck) }
    ensures gate { NoGate result }
{
    let mut board = schedule.lock(rt);
    let heard = session.hear(&mut *board, letter);
    drop(board);
    heard
}

// One hold, in which the round's message is sent once more.
fn retry<R: Wait>(
    rt: &R,
    schedule: &Mutex<Schedule>,
    session: &mut Session,
) -> Result<Outbox, LiveFault>
    ensures retries { IfOk result (λ outbox. SendsAgain session.old session.new outbox.stamp outbox.messages outbox.stuck) }
    ensures gate { NoGate result }
{
    let mut board = schedule.lock(rt);
    let sent = session.retry(&mut *board);
    drop(board);
    sent
}

// One hold, in which the operation is given up.
fn give_up<R: Wait>(
    rt: &R,
    schedule: &Mutex<Schedule>,
    session: &mut Session,
) -> Result<Outbox, LiveFault>
    ensures ends { IfOk result (λ outbox. GivesUp outbox.stamp session.old session.new) }
    ensures gate { NoGate result }
{
    let mut board = schedule.lock(rt);
    let ended = session.give_up(&mut *board);
    drop(board);
    ended
}

// One hold, in which the next request is asked. None where none is left.
fn ask_next<R: Wait>(
    rt: &R,
    schedule: &Mutex<Schedule>,
    session: &mut Session,
) -> Result<Option<Outbox>, LiveFault>
    ensures asks { IfOk result (λ asked. MatchOption asked (session.new ≡ session.old)
        (λ outbox. Asks session.old session.new outbox.stamp outbox.messages)) }
    ensures gate { NoGate result }
{
    let mut board = schedule.lock(rt);
    let asked = session.ask_next(&mut *board);
    drop(board);
    asked
}

// Sends the letters of a step in an operation, which is given up where nothing is waited for.
fn go_on<R: Wait>(
    rt: &R,
    alloc: Global,
    schedule: &Mutex<Schedule>,
    servers: &[Sender<Letter>],
    session: &mut Session,
    outbox: Outbox,
) -> Result<(), LiveFault>
    ensures goes_on { OnOk result (GoesOn outbox.stuck session.old session.new) }
    ensures gate { NoGate result }
{
    if outbox.stuck {
        let ended = give_up(rt, schedule, session)?;
        send_all(rt, alloc, servers, ended)?;
    }
    send_all(rt, alloc, servers, outbox)
}

// Hears a reply, also one that comes too late, and goes on.
fn take_reply<R: Wait>(
    rt: &R,
    alloc: Global,
    schedule: &Mutex<Schedule>,
    servers: &[Sender<Letter>],
    session: &mut Session,
    letter: Letter,
) -> Result<(), LiveFault>
    ensures takes { OnOk result (TakesReply letter session.old session.new) }
    ensures gate { NoGate result }
{
    let heard = hear(rt, schedule, session, letter)?;
    go_on(rt, alloc, schedule, servers, session, heard)
}

// Tries the round once more on a notice of it, and passes by another.
fn take_notice<R: Wait>(
    rt: &R,
    alloc: Global,
    schedule: &Mutex<Schedule>,
    servers: &[Sender<Letter>],
    session: &mut Session,
    returned: &Letter,
) -> Result<(), LiveFault>
    ensures takes { OnOk result (TakesNotice returned.now session.old session.new) }
    ensures gate { NoGate result }
{
    if !session.is_current(&returned.message) {
        return Ok(());
    }
    let sent = retry(rt, schedule, session)?;
    go_on(rt, alloc, schedule, servers, session, sent)
}

// Does what a note is for. False where the session has to quit.
fn take_note<R: Wait>(
    rt: &R,
    alloc: Global,
    schedule: &Mutex<Schedule>,
    servers: &[Sender<Letter>],
    session: &mut Session,
    note: Note,
) -> Result<bool, LiveFault>
    ensures takes { OnOk result (TakesNote note session.old session.new) }
    ensures quits { IfOk result (λ goes_on. goes_on ≡ false ↔ note ≡ Note.Quit) }
    ensures gate { NoGate result }
{
    match note {
        Note::Quit => return Ok(false),
        Note::Returned(letter) => take_notice(rt, alloc, schedule, servers, session, &letter)?,
        Note::Letter(letter) => take_reply(rt, alloc, schedule, servers, session, letter)?,
    }
    Ok(true)
}

// Goes on until the operation has ended. False where the session has to quit.
fn end_operation<R: Wait>(
    rt: &R,
    alloc: Global,
    schedule: &Mutex<Schedule>,
    inbox: &Receiver<Note>,
    servers: &[Sender<Letter>],
    session: &mut Session,
) -> Result<bool, LiveFault>
    ensures ended { IfOk result (λ ended. ended ≡ true → session.new.work.operation ≡ None) }
    ensures gave_up { OnOk result (GivesUpWhereStuck session.old.entries → GivesUpWhereStuck session.new.entries) }
    ensures gate { NoGate result }
{
    for _ in rt.forever() {
        if !session.is_busy() {
            return Ok(true);
        }
        let Ok(note) = inbox.recv(rt) else {
            return Ok(false);
        };
        if !take_note(rt, alloc, schedule, servers, session, note)? {
            return Ok(false);
        }
    }
    unreachable!()
}

// Asks all requests, one after another, unless the session has to quit.
fn ask_all<R: Wait>(
    rt: &R,
    alloc: Global,
    schedule: &Mutex<Schedule>,
    inbox: &Receiver<Note>,
    servers: &[Sender<Letter>],
    session: &mut Session,
) -> Result<(), LiveFault>
    ensures gave_up { OnOk result (GivesUpWhereStuck session.old.entries → GivesUpWhereStuck session.new.entries) }
    ensures gate { NoGate result }
{
    for _ in rt.forever() {
        let Some(outbox) = ask_next(rt, schedule, session)? else {
            return Ok(());
        };
        send_all(rt, alloc, servers, outbox)?;
        if !end_operation(rt, alloc, schedule, inbox, servers, session)? {
            return Ok(());
        }
    }
    unreachable!()
}

/// A session's thread: asks its requests one after another, each when the last has ended, until it has to quit.
pub(crate) fn attend<R: Wait>(
    rt: &R,
    alloc: Global,
    grid: Grid,
    schedule: &Mutex<Schedule>,
    mailboxes: &Mailboxes,
    session_state: SessionState,
) -> SessionEnd {
    let SessionState {
        place,
        tenant,
        number,
        volumes,
        lines,
        inbox,
        servers,
        ..
    } = session_state;
    let mut session = Session::new(alloc, grid, tenant, number, volumes, lines);
    match ask_all(
        rt,
        alloc,
        schedule,
        &inbox,
        servers.as_slice(),
        &mut session,
    ) {
        Ok(()) => SessionEnd {
            result: Ok(Attendance { place, session }),
        },
        Err(fault) => {
            mailboxes.quit(rt);
            SessionEnd { result: Err(fault) }
        }
    }
}
