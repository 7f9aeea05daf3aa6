//! Which lines are of chunks.

ghost use Rattle.std.specs.Prelude.{◌≡◌};
ghost use Rattle.gq_lines.specs.Words.{words_after};
ghost use Rattle.gq_chunks.specs.Takers.{is_chunk_verb, is_peer_verb, tenant_taker, node_taker, line_taker, is_fact_verb, tells_chunk};

use gq_lines::{first_word, next_word, number};
use gq_pair::Taker;

// Whether a tenant may ask this about its chunks.
fn is_chunk_verb(verb: &[u8]) -> bool
    ensures { result ≡ is_chunk_verb verb.now }
{
    verb == b"keep".as_slice()
        || verb == b"get".as_slice()
        || verb == b"forget".as_slice()
        || verb == b"chunks".as_slice()
        || verb == b"room".as_slice()
}

// Whether a fact of chunks may say this.
fn is_fact_verb(verb: &[u8]) -> bool
    ensures { result ≡ is_fact_verb verb.now }
{
    verb == b"chunk".as_slice()
        || verb == b"extent".as_slice()
        || verb == b"forgot".as_slice()
        || verb == b"filled".as_slice()
}

// Whether nodes of a column may say this to each other about chunks of a tenant.
fn is_peer_verb(verb: &[u8]) -> bool
    ensures { result ≡ is_peer_verb verb.now }
{
    verb == b"seeks".as_slice()
        || verb == b"found".as_slice()
        || verb == b"wants".as_slice()
        || verb == b"gives".as_slice()
        || verb == b"misses".as_slice()
        || verb == b"spoilt".as_slice()
}

// Whose a tenant's line is, by its first word behind its addresses.
fn tenant_taker(verb: &[u8]) -> Taker
    ensures { result ≡ tenant_taker verb.now }
{
    if is_chunk_verb(verb) {
        Taker::Second
    } else {
        Taker::First
    }
}

// Whose a line of a node is, by its first word behind its addresses and those behind it.
fn node_taker(word: &[u8], text: &[u8]) -> Taker
    ensures { result ≡ node_taker word.now (words_after text.now) }
{
    match next_word(text) {
        Some((verb, _)) => {
            if is_peer_verb(verb) {
                Taker::Second
            } else {
                Taker::First
            }
        }
        None => {
            if word == b"tick".as_slice() {
                Taker::Both
            } else {
                Taker::First
            }
        }
    }
}

/// Whose a line of a node's input is, where the second machine is one of chunks: that one's where a tenant asks about its chunks, or a node speaks of a tenant's chunks; both
/// machines' where it is a tick; else the first one's.
pub fn taker_of(line: &[u8]) -> Taker
    ensures { result ≡ line_taker line.now }
{
    let (_, rest) = first_word(line);
    let Some((from, rest)) = next_word(rest) else {
        return Taker::First;
    };
    let Some((verb, rest)) = next_word(rest) else {
        return Taker::First;
    };
    if number(from).is_none() {
        tenant_taker(verb)
    } else {
        node_taker(verb, rest)
    }
}

/// Whether the line of a fact is one of chunks, by its first word.
pub fn is_chunk_fact(line: &[u8]) -> bool
    ensures { result ≡ tells_chunk line.now }
{
    let (verb, _) = first_word(line);
    is_fact_verb(verb)
}
