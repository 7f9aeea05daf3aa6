//! What a node says to a node.

ghost use Rattle.std.specs.Prelude.{◌≡◌, Some, None, IfOk, MatchOption};
ghost use Rattle.gq_tag.specs.declared.Body.TheVariants.{Copy, Store};
ghost use Rattle.gq_lines.specs.Words.{words_after};
ghost use Rattle.gq_wire.specs.Letters.{with_copy, body_of_words, heading_then, is_of_round, message_from, in_round, letter_of_words, tag_of, short_of_words, short_from, short_in_round, short_letter_of};

use crate::values::{read_copy, take_byte, take_long, take_number};
use gq_lines::{is_end, next_word};
use gq_memory::OutOfMemory;
use gq_node::{Short, ShortBody, place_of};
use gq_tag::{Body, FileId, Message, StoredCopy, Tag};
use std::alloc::Global;

// The words of a letter between its tenant and its body.
#[derive(Clone, Copy)]
struct Heading {
    session: u8,
    op: u32,
    round: u32,
    volume: u32,
    file: u32,
}

// A store of the copy, if there is one.
fn store_of(copy: Option<StoredCopy>) -> Option<Body>
    ensures { result ≡ with_copy (λ copy. Store copy) copy }
{
    match copy {
        Some(copy) => Some(Body::Store(copy)),
        None => None,
    }
}

// The copy as a reply, if there is one.
fn reply_of(copy: Option<StoredCopy>) -> Option<Body>
    ensures { result ≡ with_copy (λ copy. Copy copy) copy }
{
    match copy {
        Some(copy) => Some(Body::Copy(copy)),
        None => None,
    }
}

// The body that the words tell, and no more.
#[tactic(auto, unfolding(crate::specs::Letters::body_of_words))]
fn body(alloc: Global, text: &[u8]) -> Result<Option<Body>, OutOfMemory>
    ensures { IfOk result (λ body. body ≡ body_of_words (words_after text.now)) }
{
    let Some((verb, rest)) = next_word(text) else {
        return Ok(None);
    };
    if verb == b"ask".as_slice() {
        Ok(if is_end(rest) { Some(Body::Ask) } else { None })
    } else if verb == b"store".as_slice() {
        Ok(store_of(read_copy(alloc, rest)?))
    } else if verb == b"copy".as_slice() {
        Ok(reply_of(read_copy(alloc, rest)?))
    } else if verb == b"stored".as_slice() {
        Ok(if is_end(rest) {
            Some(Body::Stored)
        } else {
            None
        })
    } else {
        Ok(None)
    }
}

// The heading of the next words, and the text after it.
#[tactic(auto, unfolding(crate::specs::Letters::heading_then))]
fn take_heading(text: &[u8]) -> Option<(Heading, &[u8])>
    ensures { MatchOption result (heading_then (words_after text.now) ≡ None)
        (λ x. heading_then (words_after text.now) ≡ Some (x.0, words_after x.1.now)) }
{
    let (session, rest) = take_byte(text)?;
    let (op, rest) = take_number(rest)?;
    let (round, rest) = take_number(rest)?;
    let (volume, rest) = take_number(rest)?;
    let (file, rest) = take_number(rest)?;
    Some((
        Heading {
            session,
            op,
            round,
            volume,
            file,
        },
        rest,
    ))
}

// Whether the body is of a round of that number: rounds that collect and rounds that store take turns.
fn is_of_round(round: u32, body: &Body) -> bool
    ensures { result ≡ is_of_round round body.now }
{
    let collects = round % 2 == 1;
    match body {
        Body::Ask | Body::Copy(_) => collects,
        Body::Store(_) | Body::Stored => !collects,
    }
}

// The message between these two.
fn message(here: u16, from: u16, tenant: u8, h: Heading, body: Body) -> Message
    ensures { result ≡ message_from here from tenant h body }
{
    let to_server = matches!(&body, Body::Ask | Body::Store(_));
    Message {
        tenant,
        session: h.session,
        op: h.op,
        round: h.round,
        server: if to_server {
            place_of(here)
        } else {
            place_of(from)
        },
        file: FileId {
            tenant,
            volume: h.volume,
            file: h.file,
        },
        body,
    }
}

// The message, if its body is of its round.
fn in_round(message: Message) -> Option<Message>
    ensures { result ≡ in_round message }
{
    if is_of_round(message.round, &message.body) {
        Some(message)
    } else {
        None
    }
}

/// The letter about the tenant, of the words behind its name, to this node from that one. Only a copy's content takes memory.
#[tactic(auto, unfolding(crate::specs::Letters::letter_of_words))]
pub(crate) fn letter(
    alloc: Global,
    text: &[u8],
    here: u16,
    from: u16,
    tenant: u8,
) -> Result<Option<Message>, OutOfMemory>
    ensures { IfOk result (λ letter. letter ≡ letter_of_words here from tenant (words_after text.now)) }
{
    let Some((h, rest)) = take_heading(text) else {
        return Ok(None);
    };
    match body(alloc, rest)? {
        Some(body) => Ok(in_round(message(here, from, tenant, h, body))),
        None => Ok(None),
    }
}

// The tag of the next words, which are the last.
#[tactic(auto, unfolding(crate::specs::Letters::tag_of))]
fn last_tag(text: &[u8]) -> Option<Tag>
    ensures { result ≡ tag_of (words_after text.now) }
{
    let (number, rest) = take_long(text)?;
    let (session, rest) = take_byte(rest)?;
    if is_end(rest) {
        Some(Tag { number, session })
    } else {
        None
    }
}

// The short body that the words tell, and no more.
#[tactic(auto, unfolding(crate::specs::Letters::short_of_words))]
fn short_body(text: &[u8]) -> Option<ShortBody>
    ensures { result ≡ short_of_words (words_after text.now) }
{
    let (verb, rest) = next_word(text)?;
    if verb == b"ask".as_slice() {
        Some(ShortBody::AskAbove(last_tag(rest)?))
    } else if verb == b"tag".as_slice() {
        Some(ShortBody::Tagged(last_tag(rest)?))
    } else if verb == b"confirm".as_slice() {
        Some(ShortBody::Confirm(last_tag(rest)?))
    } else if verb == b"want".as_slice() {
        if is_end(rest) {
            Some(ShortBody::Want)
        } else {
            None
        }
    } else {
        None
    }
}

// The short letter between these two.
fn short_between(here: u16, from: u16, tenant: u8, h: Heading, body: ShortBody) -> Short
    ensures { result ≡ short_from here from tenant h body }
{
    let to_server = matches!(body, ShortBody::AskAbove(_) | ShortBody::Confirm(_));
    Short {
        tenant,
        session: h.session,
        op: h.op,
        round: h.round,
        server: if to_server {
            place_of(here)
        } else {
            place_of(from)
        },
        file: FileId {
            tenant,
            volume: h.volume,
            file: h.file,
        },
        body,
    }
}

// The short letter, if its body is of its round.
fn short_in_round(short: Short) -> Option<Short>
    ensures { result ≡ short_in_round short }
{
    let collects = short.round % 2 == 1;
    let is_of_round = match short.body {
        ShortBody::AskAbove(_) | ShortBody::Tagged(_) => collects,
        ShortBody::Confirm(_) | ShortBody::Want => !collects,
    };
    if is_of_round { Some(short) } else { None }
}

/// The short letter about the tenant, of the words behind its name, to this node from that one.
#[tactic(auto, unfolding(crate::specs::Letters::short_letter_of))]
pub(crate) fn short_letter(text: &[u8], here: u16, from: u16, tenant: u8) -> Option<Short>
    ensures { result ≡ short_letter_of here from tenant (words_after text.now) }
{
    let (h, rest) = take_heading(text)?;
    let body = short_body(rest)?;
    short_in_round(short_between(here, from, tenant, h, body))
}
