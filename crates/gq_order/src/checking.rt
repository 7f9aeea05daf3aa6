//! The test of an order.

ghost use Rattle.std.specs.Prelude.{◌≡◌, ◌==◌, ◌||◌, []};
ghost use Rattle.std.specs.Bool.{Decides};
ghost use Rattle.gq_laws.specs.Operations.{Legal};
ghost use Rattle.gq_laws.specs.Orders.{key_at, is_lex_less};
ghost use Rattle.gq_laws.specs.Checks.{gives, is_open_at, has_place, is_once};
ghost use Rattle.gq_order.specs.Walk.{bytes_after, passes, walks, completed, completed_at, is_after, is_legal_at_once, rises};

use crate::OpRef;
use crate::keys::key_of;
use crate::ops::{is_done, is_write};
use gq_laws::{Kind, Op};

// Whether the operation gives the content, or its length.
fn gives(a: &Op, content: &[u8]) -> bool
    ensures { result ≡ gives a.now content.now }
{
    match &a.kind {
        Kind::Read(Some(given)) => given.as_slice() == content,
        Kind::Row(Some(given)) => *given == content.len() as u64,
        _ => false,
    }
}

// Whether it does not end before the place.
fn is_open_at(place: usize, end: Option<usize>) -> bool
    ensures { result ≡ is_open_at place end }
{
    match end {
        None => true,
        Some(end) => place <= end,
    }
}

// Whether the operation may stand where those up to it began by this place and the register holds this content.
fn passes(a: &Op, begun: usize, content: &[u8]) -> bool
    ensures { result ≡ passes a.now begun content.now }
{
    (a.end.is_some() || is_write(a))
        && is_open_at(begun, a.end)
        && (is_write(a) || gives(a, content))
}

// What the register holds after the operation, where it held this content.
fn content_after<'a>(a: &'a Op, content: &'a [u8]) -> &'a [u8]
    ensures { result.now ≡ bytes_after a.now content.now }
{
    match &a.kind {
        Kind::Write(bytes) => bytes.as_slice(),
        _ => content,
    }
}

// Whether each operation of the order passes where it stands.
fn walks(ops: &[Op], order: &[OpRef]) -> bool
    ensures { result ≡ walks ops.now order.now 0 [] }
{
    let mut begun: usize = 0;
    let mut content: &[u8] = &[];
    for place in order {
        let Some(a) = ops.get(*place) else {
            return false;
        };
        begun = begun.max(a.begin);
        if !passes(a, begun, content) {
            return false;
        }
        content = content_after(a, content);
    }
    true
}

// How many operations are completed.
#[tactic(auto, using(crate::proofs::Rests::completed_more))]
fn completed(ops: &[Op]) -> usize
    ensures { result ≡ completed ops.now }
{
    let mut count = 0;
    for a in ops {
        if a.end.is_some() {
            count += 1;
        }
    }
    count
}

// How many places of the order are those of completed operations.
#[tactic(auto, using(crate::proofs::Rests::completed_at_more))]
fn completed_at(ops: &[Op], order: &[OpRef]) -> usize
    ensures { result ≡ completed_at ops.now order.now }
{
    let mut count = 0;
    for place in order {
        if is_done(ops, *place) {
            count += 1;
        }
    }
    count
}

// Whether the place stands in the order.
fn has_place(order: &[OpRef], place: OpRef) -> bool
    ensures { result ≡ has_place order.now place }
{
    order.contains(&place)
}

// Whether no place stands in the order twice.
#[tactic(auto, using(crate::proofs::Rests::is_once_more))]
fn is_once(order: &[OpRef]) -> bool
    ensures { result ≡ is_once order.now }
{
    for (m, place) in order.iter().enumerate() {
        if has_place(&order[m + 1..], *place) {
            return false;
        }
    }
    true
}

// Whether the operation at the one place stands before that at the other, where both are there.
fn places_rise(ops: &[Op], i: OpRef, j: OpRef) -> bool
    ensures { result ≡ is_lex_less (key_at ops.now i) (key_at ops.now j) }
{
    let Some(a) = ops.get(i) else {
        return false;
    };
    let Some(b) = ops.get(j) else {
        return false;
    };
    key_of(i, a) < key_of(j, b)
}

// Whether the operation at the place stands after that at the last one, where there is a last one.
fn is_after(ops: &[Op], last: Option<OpRef>, place: OpRef) -> bool
    ensures { result ≡ is_after ops.now last place }
{
    match last {
        None => true,
        Some(last) => places_rise(ops, last, place),
    }
}

// Whether each operation of the order stands before the next.
#[tactic(auto, using(crate::proofs::Rests::rises_more, crate::proofs::Rests::rises_none))]
fn rises(ops: &[Op], order: &[OpRef]) -> bool
    ensures { result ≡ rises ops.now order.now }
{
    let mut last: Option<OpRef> = None;
    for place in order {
        if !is_after(ops, last, *place) {
            return false;
        }
        last = Some(*place);
    }
    true
}

// Whether as many completed operations are in the order as there are.
fn holds_completed(ops: &[Op], order: &[OpRef]) -> bool
    ensures { result ≡ (completed_at ops.now order.now == completed ops.now) }
{
    completed_at(ops, order) == completed(ops)
}

// Whether no place stands in the order twice; an order that rises is not gone through again.
fn holds_once(ops: &[Op], order: &[OpRef]) -> bool
    ensures { result ≡ (rises ops.now order.now || is_once order.now) }
{
    rises(ops, order) || is_once(order)
}

// The whole test.
fn is_legal(ops: &[Op], order: &[OpRef]) -> bool
    ensures { result ≡ is_legal_at_once ops.now order.now }
{
    walks(ops, order) && (holds_completed(ops, order) && holds_once(ops, order))
}

/// Whether the order is legal: it holds each completed operation once and open writes at most once each, none that
/// ended before another began stands after it, and a single register that is written and read in this order gives the
/// same answers (Herlihy and Wing, Linearizability, ACM TOPLAS 12(3), 1990). It takes no memory. An order by tag, as of
/// a run, is gone through once; any other may take a time that grows with the square of its length.
pub fn check_order(ops: &[Op], order: &[OpRef]) -> bool
    ensures { Decides result (Legal ops.now order.now) }
{
    is_legal(ops, order)
}
