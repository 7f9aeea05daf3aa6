//! What a line is to a machine of chunks.

ghost use Rattle.std.specs.Prelude.{◌≡◌, length, IfOk};
ghost use Rattle.gq_lines.specs.Words.{words_after, number_of};
ghost use Rattle.gq_text.specs.Input.{place_named};
ghost use Rattle.gq_wire.specs.Incoming.{is_to, is_only};
ghost use Rattle.gq_chunks.specs.Coming.{coming, asked_by, said_by, from_peer, from_node, from_whom, coming_of, IsWithin};

use crate::hearing::read_peer_line;
use crate::peers::peer_of;
use crate::{ChunkRequest, PeerLine, read_chunk_request};
use gq_desk::Plan;
use gq_lines::{first_word, is_end, next_word, number};
use gq_memory::OutOfMemory;
use gq_node::Lost;
use std::alloc::Global;

/// What a line is to a machine of chunks.
#[derive(Drop)]
pub(crate) enum Came {
    /// What the tenant at this place asks; no request where its words have no form.
    Asked {
        tenant: u8,
        request: Option<ChunkRequest>,
    },
    /// What the peer of that number says about the chunks of the tenant at this place.
    Said {
        tenant: u8,
        from: u16,
        line: PeerLine,
    },
    /// A tick.
    Tick,
    /// It is passed over.
    Nothing,
}

// Whether the word is the number of the node.
fn is_to(word: &[u8], node: u16) -> bool
    ensures { result ≡ is_to node (number_of word.now) }
{
    match number(word) {
        Some(to) => to == u32::from(node),
        None => false,
    }
}

// The words are this one, and no more.
fn is_only(text: &[u8], only: &[u8]) -> bool
    ensures { result ≡ is_only only.now (words_after text.now) }
{
    match next_word(text) {
        Some((word, rest)) => word == only && is_end(rest),
        None => false,
    }
}

// The line of the tenant of that name, behind its addresses, if it is one of the plan's first tenants, so many.
fn from_tenant(
    alloc: Global,
    plan: &Plan,
    tenants: usize,
    name: &[u8],
    text: &[u8],
) -> Result<Came, OutOfMemory>
    ensures came { IfOk result (λ came. coming came ≡ asked_by tenants (place_named plan.now name.now) (words_after text.now)) }
    ensures tenant { IfOk result (λ came. IsWithin (length plan.now.rows) came) }
    ensures there { IfOk result (λ came. IsWithin tenants came) }
{
    let Some(tenant) = plan.find_word(name) else {
        return Ok(Came::Nothing);
    };
    if tenant as usize >= tenants {
        return Ok(Came::Nothing);
    }
    let request = read_chunk_request(alloc, text)?;
    Ok(Came::Asked { tenant, request })
}

// The line of a peer about the tenant of that name, behind the name, if it is one of the plan's first tenants, so many.
fn about_tenant(
    alloc: Global,
    plan: &Plan,
    tenants: usize,
    from: u16,
    name: &[u8],
    text: &[u8],
) -> Result<Came, OutOfMemory>
    ensures came { IfOk result (λ came. coming came ≡ said_by tenants from (place_named plan.now name.now) (words_after text.now)) }
    ensures tenant { IfOk result (λ came. IsWithin (length plan.now.rows) came) }
    ensures there { IfOk result (λ came. IsWithin tenants came) }
{
    let Some(tenant) = plan.find_word(name) else {
        return Ok(Came::Nothing);
    };
    if tenant as usize >= tenants {
        return Ok(Came::Nothing);
    }
    match read_peer_line(alloc, text)? {
        Some(line) => Ok(Came::Said { tenant, from, line }),
        None => Ok(Came::Nothing),
    }
}

// The line of a peer, behind its addresses.
fn from_peer(
    alloc: Global,
    plan: &Plan,
    tenants: usize,
    from: u16,
    text: &[u8],
) -> Result<Came, OutOfMemory>
    ensures came { IfOk result (λ came. coming came ≡ from_peer plan.now tenants from (words_after text.now)) }
    ensures tenant { IfOk result (λ came. IsWithin (length plan.now.rows) came) }
    ensures there { IfOk result (λ came. IsWithin tenants came) }
{
    match next_word(text) {
        Some((name, rest)) => about_tenant(alloc, plan, tenants, from, name, rest),
        None => Ok(Came::Nothing),
    }
}

// The line of the node of that number, behind its addresses.
fn from_node(
    alloc: Global,
    plan: &Plan,
    node: u16,
    lost: &Lost,
    tenants: usize,
    from: u32,
    text: &[u8],
) -> Result<Came, OutOfMemory>
    ensures came { IfOk result (λ came. coming came ≡ from_node plan.now node lost.now tenants from (words_after text.now)) }
    ensures tenant { IfOk result (λ came. IsWithin (length plan.now.rows) came) }
    ensures there { IfOk result (λ came. IsWithin tenants came) }
{
    if from == u32::from(node) && is_only(text, b"tick") {
        return Ok(Came::Tick);
    }
    match peer_of(plan, node, lost, from) {
        Some(peer) => from_peer(alloc, plan, tenants, peer, text),
        None => Ok(Came::Nothing),
    }
}

// The line of whom the word names, behind its addresses.
fn from_whom(
    alloc: Global,
    plan: &Plan,
    node: u16,
    lost: &Lost,
    tenants: usize,
    from: &[u8],
    text: &[u8],
) -> Result<Came, OutOfMemory>
    ensures came { IfOk result (λ came. coming came ≡ from_whom plan.now node lost.now tenants (number_of from.now) from.now (words_after text.now)) }
    ensures tenant { IfOk result (λ came. IsWithin (length plan.now.rows) came) }
    ensures there { IfOk result (λ came. IsWithin tenants came) }
{
    match number(from) {
        Some(from) => from_node(alloc, plan, node, lost, tenants, from, text),
        None => from_tenant(alloc, plan, tenants, from, text),
    }
}

/// What the line, which has no newline, is to the node of that number, of which the plan and the lost nodes are these, if it is of one of the plan's first tenants, so many. Only a
/// content and a listing take memory.
pub(crate) fn read_came(
    alloc: Global,
    plan: &Plan,
    node: u16,
    lost: &Lost,
    tenants: usize,
    line: &[u8],
) -> Result<Came, OutOfMemory>
    ensures came { IfOk result (λ came. coming came ≡ coming_of plan.now node lost.now tenants line.now) }
    ensures tenant { IfOk result (λ came. IsWithin (length plan.now.rows) came) }
    ensures there { IfOk result (λ came. IsWithin tenants came) }
{
    let (to, rest) = first_word(line);
    if !is_to(to, node) {
        return Ok(Came::Nothing);
    }
    match next_word(rest) {
        Some((from, rest)) => from_whom(alloc, plan, node, lost, tenants, from, rest),
        None => Ok(Came::Nothing),
    }
}
