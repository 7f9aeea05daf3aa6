//! The plan of a shard.

ghost use Rattle.std.specs.Prelude.{◌≡◌, ◌≤◌, IfOk};
ghost use Rattle.gq_shards.specs.Shards.{part_row, part_rows, IsPart};

use gq_desk::{Plan, TenantRow};
use gq_memory::{GrowVec, OutOfMemory};
use std::alloc::Global;

// The tenant's row as the shard has it.
fn part_row(mine: bool, row: &TenantRow) -> TenantRow
    ensures { result ≡ part_row mine row.now }
{
    if mine {
        *row
    } else {
        TenantRow {
            name: row.name,
            share: 1,
            sessions: 1,
            steps: 1,
            most_blocks: 1,
            most_volumes: 1,
        }
    }
}

// The rows as the shard has them.
fn part_rows(
    alloc: Global,
    shards: usize,
    shard: usize,
    rows: &[TenantRow],
) -> Result<Vec<TenantRow>, OutOfMemory>
    requires { 1 ≤ shards }
    ensures { IfOk result (λ part. part.items ≡ part_rows shards shard 0 rows.now) }
{
    let mut part = Vec::new(alloc);
    for tenant in 0..rows.len() {
        part.grow(part_row(tenant % shards == shard, &rows[tenant]))?;
    }
    Ok(part)
}

// Blocks enough for the rows, where they are at most so many.
fn blocks_of(rows: &[TenantRow], most: u32) -> u32
    requires { 1 ≤ most }
    ensures low { 1 ≤ result }
    ensures high { result ≤ most }
{
    let mut sum: u32 = 0;
    for row in rows {
        sum = sum.saturating_add(row.share);
    }
    sum.clamp(1, most)
}

/// The plan of the shard. Its servers have no more blocks than its tenants may reserve, and one for each other tenant.
pub fn part_of(alloc: Global, plan: &Plan, shards: usize, shard: usize) -> Result<Plan, OutOfMemory>
    requires { 1 ≤ shards }
    ensures { IfOk result (λ part. IsPart shards shard plan.now part) }
{
    let rows = part_rows(alloc, shards, shard, plan.rows())?;
    let blocks = blocks_of(rows.as_slice(), plan.blocks());
    match Plan::check(alloc, *plan.grid(), blocks, rows.as_slice()) {
        Ok(part) => Ok(part),
        Err(_) => plan.copy(),
    }
}
