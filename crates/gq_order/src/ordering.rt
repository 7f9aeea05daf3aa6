//! The order of a file's operations.

ghost use Rattle.std.specs.Prelude.{◌≡◌, IfOk};
ghost use Rattle.gq_laws.specs.Operations.{Tagged, Legal};
ghost use Rattle.gq_laws.specs.Orders.{IsOrder, order};
ghost use Rattle.gq_order.specs.Keys.{may_stand, candidates, is_next, kept};

use crate::OpRef;
use crate::keys::{Key, key_of};
use crate::ops::{is_done, is_write};
use gq_laws::Op;
use gq_memory::{GrowVec, OutOfMemory, SortVec};
use std::alloc::Global;

// Whether the operation may stand in the order: it is completed, or a write that has its tag.
fn may_stand(a: &Op) -> bool
    ensures { result ≡ may_stand a.now }
{
    a.end.is_some() || is_write(a) && a.tag.is_some()
}

// The keys of the operations that may stand, by place.
fn candidates(alloc: Global, ops: &[Op]) -> Result<Vec<Key>, OutOfMemory>
    ensures { IfOk result (λ keys. keys.items ≡ candidates 0 ops.now) }
{
    let mut keys = Vec::new(alloc);
    for (place, a) in ops.iter().enumerate() {
        if may_stand(a) {
            keys.grow(key_of(place, a))?;
        }
    }
    Ok(keys)
}

// Whether the first of the keys is of the same tag.
fn is_next(key: Key, keys: &[Key]) -> bool
    ensures { result ≡ is_next key keys.now }
{
    match keys.first() {
        Some(next) => key.number == next.number && key.session == next.session,
        None => false,
    }
}

// The places of the operations that stand, in the order of the keys.
fn kept(alloc: Global, ops: &[Op], keys: &[Key]) -> Result<Vec<OpRef>, OutOfMemory>
    ensures { IfOk result (λ order. order.items ≡ kept ops.now keys.now) }
{
    let mut order = Vec::new(alloc);
    for (m, key) in keys.iter().enumerate() {
        if is_done(ops, key.place) || is_next(*key, &keys[m + 1..]) {
            order.grow(key.place)?;
        }
    }
    Ok(order)
}

/// The order of the operations: by tag, a write before its reads, reads of one tag by their beginning, then by place.
/// Completed operations stand in it, and open writes whose tag a completed operation gave.
pub fn order(alloc: Global, ops: &[Op]) -> Result<Vec<OpRef>, OutOfMemory>
    ensures order { IfOk result (λ order. Tagged ops.now → IsOrder ops.now order.items) }
    ensures definition { IfOk result (λ places. Tagged ops.now → places.items ≡ order ops.now) }
    ensures legal { IfOk result (λ places. Tagged ops.now → Legal ops.now places.items) }
{
    let mut keys = candidates(alloc, ops)?;
    keys.sort_items()?;
    kept(alloc, ops, keys.as_slice())
}
