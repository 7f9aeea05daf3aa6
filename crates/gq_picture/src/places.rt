//! The places at which operations begin and end.

ghost use Rattle.std.specs.Prelude.{◌≡◌, IfOk};
ghost use Rattle.gq_laws.specs.Operations.{ops_at};
ghost use Rattle.gq_picture.specs.Columns.{begins, end_at, ends, latest};

use gq_laws::Op;
use gq_memory::{GrowVec, OutOfMemory};
use std::alloc::Global;

/// The places at which the operations of the order begin.
pub fn begins(alloc: Global, ops: &[Op], order: &[usize]) -> Result<Vec<usize>, OutOfMemory>
    ensures { IfOk result (λ places. places.items ≡ begins (ops_at ops.now order.now)) }
{
    let mut places = Vec::new(alloc);
    for place in order {
        if let Some(a) = ops.get(*place) {
            places.grow(a.begin)?;
        }
    }
    Ok(places)
}

// The end of the operation at the place, where there is one that ended.
fn end_of(ops: &[Op], place: usize) -> Option<usize>
    ensures { result ≡ end_at ops.now place }
{
    match ops.get(place) {
        Some(a) => a.end,
        None => None,
    }
}

/// The places at which they end.
pub fn ends(alloc: Global, ops: &[Op], order: &[usize]) -> Result<Vec<usize>, OutOfMemory>
    ensures { IfOk result (λ places. places.items ≡ ends (ops_at ops.now order.now)) }
{
    let mut places = Vec::new(alloc);
    for place in order {
        if let Some(end) = end_of(ops, *place) {
            places.grow(end)?;
        }
    }
    Ok(places)
}

/// For each of them the last place at which one up to it begins.
pub fn latest(alloc: Global, ops: &[Op], order: &[usize]) -> Result<Vec<usize>, OutOfMemory>
    ensures { IfOk result (λ places. places.items ≡ latest (ops_at ops.now order.now)) }
{
    let mut places = Vec::new(alloc);
    let mut last: usize = 0;
    for place in order {
        if let Some(a) = ops.get(*place) {
            last = last.max(a.begin);
            places.grow(last)?;
        }
    }
    Ok(places)
}
