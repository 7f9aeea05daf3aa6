//! The calls of an operation, which take memory for the rows of a listing alone, and its messages one by one.

ghost use Rattle.std.specs.Prelude.{◌≡◌, IfOk};
ghost use Rattle.gq_phase.specs.Best.{copied_number};
ghost use Rattle.gq_phase.specs.Standing.{IsGoing};

use crate::Fault;
use crate::calls::{retry, tell};
use gq_grid::{Grid, MOST_SERVERS, ServerSet};
use gq_memory::copied_bytes;
use gq_phase::{Heard, Messages, Operation, Who};
use gq_tag::{Body, FileId, Message, StoredCopy};
use std::alloc::Global;

const WHO: Who = Who {
    tenant: 0,
    session: 1,
    op: 1,
};

const FILE: FileId = FileId {
    tenant: 0,
    volume: 0,
    file: 0,
};

// A grid of two rows and two columns.
fn grid() -> Result<Grid, Fault> {
    match Grid::new(2, 2) {
        Ok(grid) => Ok(grid),
        Err(_) => Err(Fault::Usage),
    }
}

// The reply of a server that has no copy but the first.
fn reply(message: &Message) -> Message {
    Message {
        tenant: message.tenant,
        session: message.session,
        op: message.op,
        round: message.round,
        server: message.server,
        file: message.file,
        body: match &message.body {
            Body::Ask => Body::Copy(StoredCopy::first()),
            _ => Body::Stored,
        },
    }
}

fn number(body: &Body) -> u64
    ensures { result ≡ copied_number body.now }
{
    match body {
        Body::Copy(copy) => copy.tag.number,
        _ => 0,
    }
}

// What the operation says to the reply to a message.
fn hear(
    operation: &mut Operation,
    message: &Message,
    up: ServerSet,
    out: &mut Vec<u8>,
) -> Result<Heard, Fault> {
    let reply = reply(message);
    let is_fit = (reply.server as usize) < MOST_SERVERS
        && number(&reply.body) < u64::MAX
        && operation.floor() < u64::MAX;
    if !is_fit {
        return Err(Fault::Usage);
    }
    let heard = retry!(
        out,
        "Operation::hear",
        operation,
        operation.hear(&reply, up)
    );
    tell(out, &heard);
    Ok(heard)
}

// What the operation says to the reply to the last of the messages, each of them having been replied to.
fn hear_all(
    operation: &mut Operation,
    messages: &[Message],
    up: ServerSet,
    out: &mut Vec<u8>,
) -> Result<Heard, Fault> {
    let mut heard = Heard::Stale;
    for message in messages {
        heard = hear(operation, message, up, out)?;
    }
    Ok(heard)
}

fn send_again(operation: &mut Operation, up: ServerSet, out: &mut Vec<u8>) -> Result<(), Fault>
    requires { IsGoing operation.old }
    ensures { operation.new ≡ operation.old }
{
    let again = retry!(out, "Operation::resend", operation, operation.resend(up));
    tell(out, &again);
    Ok(())
}

fn one_by_one(
    alloc: Global,
    messages: &Messages,
    out: &mut Vec<u8>,
) -> Result<Vec<Message>, Fault> {
    let each = retry!(out, "Messages::to_vec", messages, messages.to_vec(alloc));
    Ok(each)
}

// Sends once more, and then has all messages replied to until the operation is done.
fn end(
    alloc: Global,
    operation: &mut Operation,
    asks: Messages,
    up: ServerSet,
    out: &mut Vec<u8>,
) -> Result<(), Fault>
    requires { IsGoing operation.old }
{
    send_again(operation, up, out)?;
    let mut messages = asks;
    for _ in 0..4 {
        let each = one_by_one(alloc, &messages, out)?;
        match hear_all(operation, each.as_slice(), up, out)? {
            Heard::Next { messages: next, .. } => messages = next,
            _ => return Ok(()),
        }
    }
    Ok(())
}

/// A write.
pub fn write(alloc: Global, out: &mut Vec<u8>) -> Result<(), Fault> {
    let grid = grid()?;
    let up = ServerSet::all(&grid);
    let content = copied_bytes(alloc, b"content")?;
    let (mut operation, asks) = retry!(
        out,
        "Operation::write",
        &content,
        Operation::write(alloc, &grid, WHO, 7, FILE, &content, up)
    );
    end(alloc, &mut operation, asks, up, out)
}

/// A read.
pub fn read(alloc: Global, out: &mut Vec<u8>) -> Result<(), Fault> {
    let grid = grid()?;
    let up = ServerSet::all(&grid);
    let (mut operation, asks) = retry!(
        out,
        "Operation::read",
        &grid,
        Operation::read(alloc, &grid, WHO, 7, FILE, up)
    );
    end(alloc, &mut operation, asks, up, out)
}

/// A listing of two files.
pub fn list(alloc: Global, out: &mut Vec<u8>) -> Result<(), Fault> {
    let grid = grid()?;
    let up = ServerSet::all(&grid);
    let (mut operation, asks) = retry!(
        out,
        "Operation::list",
        &grid,
        Operation::list(alloc, &grid, WHO, 7, 0, 2, up)
    );
    end(alloc, &mut operation, asks, up, out)
}
