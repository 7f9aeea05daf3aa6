//! The plan: a grid, the blocks of a server, and the tenants' rows.

ghost use Rattle.std.specs.Prelude.{◌≡◌, [], ◌≤◌, ◌<◌, ◌≢◌, Some, None, true, false, IfOk, IfErr, IfSome, IfNone, OnOk, length, slice_get};
ghost use Rattle.std.specs.List.{list_all, list_any, position_from};
ghost use Rattle.gq_desk.specs.Plans.{number_fault, row_fault, rows_fault, table_fault, plan_fault, shares, is_of, is_in, is_named, IsSound};

use crate::likely::Likely;
use crate::limits::{
    MOST_BLOCKS, MOST_FILE_BLOCKS, MOST_SESSIONS, MOST_STEPS, MOST_TENANTS, MOST_VOLUMES,
};
use crate::names::Name;
use crate::rows::Rows;
use gq_grid::Grid;
use gq_memory::OutOfMemory;
use std::alloc::Global;
use std::fmt::{self, Debug, Formatter, Write};
use std::marker::Model;
use thiserror::Error;

/// What the plan says of a tenant: its name, its share in blocks of every server, the number of its sessions, how many
/// lines it may send, how many blocks a file of it may have, and how many volumes it may open.
#[derive(Clone, Copy, Debug, Drop)]
pub struct TenantRow {
    pub name: Name,
    pub share: u32,
    pub sessions: u32,
    pub steps: u32,
    pub most_blocks: u32,
    pub most_volumes: u32,
}

/// Why rows are no plan. A fault of a row names its place, from 0.
#[derive(Debug, Drop, Error)]
pub enum PlanFault {
    /// There is no row.
    #[error("notenant")]
    NoTenant,
    /// An earlier row has the same name.
    #[error("samename")]
    SameName { row: usize },
    /// The share is 0.
    #[error("zeroshare")]
    ZeroShare { row: usize },
    /// The sessions are not 1 to [`MOST_SESSIONS`].
    #[error("sessions")]
    Sessions { row: usize },
    /// The steps are not 1 to [`MOST_STEPS`].
    #[error("steps")]
    Steps { row: usize },
    /// The most blocks of a file are not 1 to [`MOST_FILE_BLOCKS`].
    #[error("most")]
    Most { row: usize },
    /// The volumes are not 1 to [`MOST_VOLUMES`].
    #[error("volumes")]
    Volumes { row: usize },
    /// The shares of all rows sum to more blocks than a server has: `sum` blocks and `blocks`.
    #[error("overblocks {sum} {blocks}")]
    OverBlocks { sum: u64, blocks: u32 },
    /// There are [`MOST_TENANTS`] rows before it.
    #[error("toomany")]
    TooMany { row: usize },
    /// Memory is wanting.
    #[error("out of memory")]
    Memory(OutOfMemory),
}

/// A grid, the blocks of a server, and the rows of the tenants, in which [`Plan::check`] found no fault.
#[derive(Drop)]
pub struct Plan {
    alloc: Global,
    grid: Grid,
    blocks: u32,
    rows: Rows,
    likely: Likely,
}

impl Model for Plan {
    ghost use Rattle.gq_desk.specs.CheckedPlan.{CheckedPlan};
    ghost use Rattle.gq_desk.specs.Plans.{IsSound};

    ghost Value = { CheckedPlan };

    ghost view = { λ p. record { grid = p.grid; blocks = p.blocks; rows = p.rows } };

    ghost invariant = { λ p. IsSound p.blocks p.rows };
}

impl Debug for Plan {
    fn fmt<W: Write>(&self, f: &mut Formatter<W>) -> fmt::Result {
        f.debug_struct("Plan")
            .field("grid", &self.grid)
            .field("blocks", &self.blocks)
            .field("rows", &self.rows())
            .finish()
    }
}

// The first number of the row that is out of its range.
fn number_fault(place: usize, row: &TenantRow) -> Option<PlanFault>
    ensures { result ≡ number_fault place row.now }
{
    if row.share == 0 {
        Some(PlanFault::ZeroShare { row: place })
    } else if !is_in(1, MOST_SESSIONS, row.sessions) {
        Some(PlanFault::Sessions { row: place })
    } else if !is_in(1, MOST_STEPS, row.steps) {
        Some(PlanFault::Steps { row: place })
    } else if !is_in(1, MOST_FILE_BLOCKS, row.most_blocks) {
        Some(PlanFault::Most { row: place })
    } else if !is_in(1, MOST_VOLUMES, row.most_volumes) {
        Some(PlanFault::Volumes { row: place })
    } else {
        None
    }
}

fn is_in(low: u32, high: u32, n: u32) -> bool
    ensures { result ≡ is_in low high n }
{
    low <= n && n <= high
}

// The first fault of a row, those before it being so.
fn row_fault(before: &Rows, row: &TenantRow) -> Option<PlanFault>
    ensures fault { result ≡ row_fault before.now row.now }
    ensures few { IfNone result (length before.now < MOST_TENANTS) }
    ensures fresh { IfNone result (list_any (is_of row.now.name) before.now ≡ false) }
    ensures named { is_named row.now ≡ true }
{
    let name = row.name.as_bytes();
    let place = before.as_slice().len();
    if place >= MOST_TENANTS {
        Some(PlanFault::TooMany { row: place })
    } else if before.has(name) {
        Some(PlanFault::SameName { row: place })
    } else {
        number_fault(place, row)
    }
}

// The blocks that the tenants may reserve.
fn shares(rows: &[TenantRow]) -> u64
    requires { length rows.now ≤ MOST_TENANTS }
    ensures { result ≡ shares rows.now }
{
    let mut sum = 0;
    for row in rows {
        sum += u64::from(row.share);
    }
    sum
}

// Takes the rows in order, up to the first that has a fault.
fn take_all(held: &mut Rows, rows: &[TenantRow]) -> Result<(), PlanFault>
    requires { held.old ≡ [] }
    ensures all { OnOk result (held.new ≡ rows.now) }
    ensures none { OnOk result (rows_fault [] rows.now ≡ None) }
    ensures few { OnOk result (length rows.now ≤ MOST_TENANTS) }
    ensures named { OnOk result (list_all is_named rows.now ≡ true) }
    ensures fault { IfErr result (λ fault. fault ≢ PlanFault.Memory tt → rows_fault [] rows.now ≡ Some fault) }
{
    for row in rows {
        if let Some(fault) = row_fault(held, row) {
            return Err(fault);
        }
        if let Err(refused) = held.push(*row) {
            return Err(PlanFault::Memory(refused));
        }
    }
    Ok(())
}

// The fault of the rows as a whole.
fn table_fault(blocks: u32, rows: &[TenantRow]) -> Option<PlanFault>
    requires { length rows.now ≤ MOST_TENANTS }
    ensures fault { result ≡ table_fault blocks rows.now }
    ensures some { IfNone result (1 ≤ length rows.now) }
    ensures within { IfNone result (shares rows.now ≤ blocks) }
{
    if rows.is_empty() {
        return Some(PlanFault::NoTenant);
    }
    let sum = shares(rows);
    if sum > u64::from(blocks) {
        Some(PlanFault::OverBlocks { sum, blocks })
    } else {
        None
    }
}

impl Plan {
    /// The plan of these rows, of servers of `blocks` blocks each. The rows are tested in order, each for `TooMany`,
    /// `SameName`, `ZeroShare`, `Sessions`, `Steps`, `Most` and `Volumes`, and then all together for `NoTenant` and `OverBlocks`; the
    /// first fault is told, with the place of its row from 0. `Memory` may come before a later row is tested.
    pub fn check(
        alloc: Global,
        grid: Grid,
        blocks: u32,
        rows: &[TenantRow],
    ) -> Result<Plan, PlanFault>
        requires low { 1 ≤ blocks }
        requires high { blocks ≤ MOST_BLOCKS }
        ensures ok { IfOk result (λ plan. plan ≡ record { grid = grid; blocks = blocks; rows = rows.now }) }
        ensures sound { OnOk result (plan_fault blocks rows.now ≡ None) }
        ensures fault { IfErr result (λ fault. fault ≢ PlanFault.Memory tt → plan_fault blocks rows.now ≡ Some fault) }
    {
        let mut held = Rows::new(alloc);
        take_all(&mut held, rows)?;
        if let Some(fault) = table_fault(blocks, held.as_slice()) {
            return Err(fault);
        }
        let likely = Likely::of(held.as_slice());
        Ok(Plan {
            alloc,
            grid,
            blocks,
            rows: held,
            likely,
        })
    }

    /// An equal plan. `OutOfMemory` is want of memory.
    pub fn copy(&self) -> Result<Plan, OutOfMemory>
        ensures { IfOk result (λ plan. plan ≡ self.now) }
    {
        Ok(Plan {
            alloc: self.alloc,
            grid: self.grid,
            blocks: self.blocks,
            rows: self.rows.copy(self.alloc)?,
            likely: self.likely,
        })
    }

    /// The place, from 0, of the tenant of this name.
    pub fn find(&self, name: &Name) -> Option<u8>
        ensures place { result ≡ position_from (is_of name.now) 0 self.now.rows }
        ensures within { IfSome result (λ place. place < length self.now.rows) }
    {
        self.find_word(name.as_bytes())
    }

    /// The place, from 0, of the tenant of which the word is the name; none also where the word is no name.
    #[inline(always)]
    pub fn find_word(&self, word: &[u8]) -> Option<u8>
        ensures place { result ≡ position_from (is_of word.now) 0 self.now.rows }
        ensures within { IfSome result (λ place. place < length self.now.rows) }
    {
        if let Some(place) = self.likely_place(word) {
            return Some(place as u8);
        }
        let place = self.rows.place(word)?;
        Some(place as u8)
    }

    // The place of the row of the word, where it is the likely one; none says nothing.
    #[inline(always)]
    fn likely_place(&self, word: &[u8]) -> Option<usize>
        ensures place { IfSome result (λ place. position_from (is_of word.now) 0 self.now.rows ≡ Some place) }
        ensures within { IfSome result (λ place. place < length self.now.rows) }
        ensures few { length self.now.rows ≤ MOST_TENANTS }
    {
        let rows = self.rows();
        let place = self.likely.place(word);
        if place < rows.len() && rows[place].name.is(word) {
            Some(place)
        } else {
            None
        }
    }

    /// The number of tenants.
    pub fn tenants(&self) -> usize
        ensures value { result ≡ length self.now.rows }
        ensures some { 1 ≤ result }
        ensures bound { result ≤ MOST_TENANTS }
    {
        self.rows().len()
    }

    /// The servers.
    pub fn grid(&self) -> &Grid
        ensures { result.now ≡ self.now.grid }
    {
        &self.grid
    }

    /// The blocks of a server.
    pub fn blocks(&self) -> u32
        ensures value { result ≡ self.now.blocks }
        ensures shares { shares self.now.rows ≤ result }
        ensures least { 1 ≤ result }
        ensures bound { result ≤ MOST_BLOCKS }
    {
        self.blocks
    }

    /// The rows of the tenants, in order.
    pub fn rows(&self) -> &[TenantRow]
        ensures rows { result.now ≡ self.now.rows }
        ensures sound { IsSound self.now.blocks result.now }
    {
        self.rows.as_slice()
    }

    /// A tenant's row.
    pub fn row(&self, tenant: u8) -> &TenantRow
        requires { tenant < length self.now.rows }
        ensures row { slice_get self.now.rows tenant ≡ Some result.now }
        ensures ranges { number_fault tenant result.now ≡ None }
    {
        &self.rows()[tenant as usize]
    }
}
