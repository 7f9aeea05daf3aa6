//! The plan at the head of an input.
//!
//! A plan has two forms, with blocks and with room, the second one for large contents. Its value does not know its form, so
//! journals and laws need not tell them apart.

ghost use Rattle.std.specs.Prelude.{◌≡◌, ℕ, ◌∷◌, ◌<◌, ◌≤◌, ◌^◌, length, IfOk, IfErr, Ok, drop};
ghost use Rattle.gq_lines.specs.Words.{words_of, words_after};
ghost use Rattle.gq_lines.specs.Lines.{lines_of, IsRest};

use crate::input::{one_number, two_numbers};
use gq_desk::{MOST_BLOCKS, Name, Plan, PlanFault, TenantRow};
use gq_grid::{Grid, GridFault};
use gq_lines::{first_line, first_word, is_end, next_word, number};
use gq_memory::{GrowVec, OutOfMemory};
use std::alloc::Global;
use thiserror::Error;

/// The most blocks of a server in a plan with `blocks`, where one with `room` may have [`MOST_BLOCKS`].
pub const BLOCKS_WITHOUT_ROOM: u32 = 4_096;

/// The most blocks of a file in a plan with `blocks`, where the rows of one with `room` say them.
pub const FILE_BLOCKS_WITHOUT_ROOM: u32 = 16;

/// The most volumes of a tenant whose row does not say them.
pub const VOLUMES_WHERE_UNSAID: u32 = 64;

/// What is wrong with a line of a plan.
#[derive(Debug, Drop, Error)]
pub enum TextFault {
    /// The line does not have the form of its place.
    #[error("form")]
    Form,
    /// The input ends before this line.
    #[error("end")]
    End,
    /// The grid has no such sides.
    #[error("{0}")]
    Grid(GridFault),
    /// The blocks of a server are not 1 to [`BLOCKS_WITHOUT_ROOM`], or of one with `room` not 1 to [`MOST_BLOCKS`].
    #[error("blocks")]
    Blocks,
    /// The rows of the tenants make no plan. A fault of a row is told with the line of that row, one of the rows as a
    /// whole with the line of `go`.
    #[error("{0}")]
    Check(PlanFault),
}

/// Why a text gives no plan.
#[derive(Debug, Drop, Error)]
pub enum PlanText {
    /// The first line at fault, numbered from 1.
    #[error("line {line}: {fault}")]
    Fault { line: u64, fault: TextFault },
    /// Want of memory, also that of [`Plan::check`].
    #[error("out of memory")]
    Memory(OutOfMemory),
}

ghost use Rattle.gq_text.specs.PlanText.{grid_told, blocks_told, is_room, volumes_told, row_from, line_at, at_line, row_told, rows_from, line_of_fault, checked, plan_of, IsFaultOf};

// Line `number` of an input, and the text after it.
fn line_at(number: u64, text: &[u8]) -> Result<(&[u8], &[u8]), PlanText>
    ensures line { IfOk result (λ read.
        line_at number (lines_of text.now) ≡ Ok (read.0.now, lines_of read.1.now)) }
    ensures rest { IfOk result (λ read. IsRest text.now read.1.now) }
    ensures fault { IfErr result (λ e. IsFaultOf (line_at number (lines_of text.now)) e) }
{
    if text.is_empty() {
        return Err(PlanText::Fault {
            line: number,
            fault: TextFault::End,
        });
    }
    Ok(first_line(text))
}

// What line `line` tells.
fn at_line<T>(line: u64, read: Result<T, TextFault>) -> Result<T, PlanText>
    ensures ok { IfOk result (λ value. at_line line read ≡ Ok value) }
    ensures fault { IfErr result (λ e. IsFaultOf (at_line line read) e) }
{
    read.map_err(|fault| PlanText::Fault { line, fault })
}

// The grid of a line `grid ROWS COLS`.
#[tactic(auto, unfolding(crate::specs::PlanText::grid_told))]
fn grid_told(line: &[u8]) -> Result<Grid, TextFault>
    ensures { result ≡ grid_told (words_of line.now) }
{
    let (verb, rest) = first_word(line);
    if verb != b"grid".as_slice() {
        return Err(TextFault::Form);
    }
    let Some((rows, cols)) = two_numbers(rest) else {
        return Err(TextFault::Form);
    };
    match Grid::new(rows as usize, cols as usize) {
        Ok(grid) => Ok(grid),
        Err(fault) => Err(TextFault::Grid(fault)),
    }
}

// The number of a line `blocks BLOCKS` or `room BLOCKS`.
#[tactic(auto, unfolding(crate::specs::PlanText::blocks_told))]
fn blocks_told(line: &[u8]) -> Result<u32, TextFault>
    ensures value { result ≡ blocks_told (words_of line.now) }
    ensures least { IfOk result (λ blocks. 1 ≤ blocks) }
    ensures most { IfOk result (λ blocks. blocks ≤ MOST_BLOCKS) }
{
    let (verb, rest) = first_word(line);
    let most = if verb == b"blocks".as_slice() {
        BLOCKS_WITHOUT_ROOM
    } else if verb == b"room".as_slice() {
        MOST_BLOCKS
    } else {
        return Err(TextFault::Form);
    };
    let Some(blocks) = one_number(rest) else {
        return Err(TextFault::Form);
    };
    if blocks < 1 || blocks > most {
        return Err(TextFault::Blocks);
    }
    Ok(blocks)
}

/// Whether a line is one of `room`, behind which each row says the most blocks of its files, and may say how many volumes it may open.
#[tactic(auto, unfolding(crate::specs::PlanText::is_room))]
pub fn is_room(line: &[u8]) -> bool
    ensures { result ≡ is_room (words_of line.now) }
{
    let (verb, _) = first_word(line);
    verb == b"room".as_slice()
}

// The row of these words, whose files have at most so many blocks, and which may open so many volumes.
fn row_from(
    verb: &[u8],
    name: &[u8],
    share: &[u8],
    sessions: &[u8],
    steps: &[u8],
    most_blocks: Option<u32>,
    most_volumes: Option<u32>,
) -> Option<TenantRow>
    ensures { result ≡ row_from verb.now name.now share.now sessions.now steps.now most_blocks most_volumes }
{
    if verb != b"tenant".as_slice() {
        return None;
    }
    Some(TenantRow {
        name: Name::new(name)?,
        share: number(share)?,
        sessions: number(sessions)?,
        steps: number(steps)?,
        most_blocks: most_blocks?,
        most_volumes: most_volumes?,
    })
}

// How many volumes a row may open that ends so, behind MOST.
fn volumes_told(text: &[u8]) -> Option<u32>
    ensures { result ≡ volumes_told (words_after text.now) }
{
    if is_end(text) {
        return Some(VOLUMES_WHERE_UNSAID);
    }
    one_number(text)
}

/// The row of a line `tenant NAME SHARE SESSIONS STEPS`, or in a plan with room of `tenant NAME SHARE SESSIONS STEPS MOST`
/// or `tenant NAME SHARE SESSIONS STEPS MOST VOLUMES`.
#[tactic(auto, unfolding(crate::specs::PlanText::row_told))]
pub fn row_told(room: bool, line: &[u8]) -> Option<TenantRow>
    ensures { result ≡ row_told room (words_of line.now) }
{
    let (verb, rest) = first_word(line);
    let (name, rest) = next_word(rest)?;
    let (share, rest) = next_word(rest)?;
    let (sessions, rest) = next_word(rest)?;
    let (steps, rest) = next_word(rest)?;
    if room {
        let (most, rest) = next_word(rest)?;
        let volumes = volumes_told(rest);
        return row_from(verb, name, share, sessions, steps, number(most), volumes);
    }
    if !is_end(rest) {
        return None;
    }
    row_from(
        verb,
        name,
        share,
        sessions,
        steps,
        Some(FILE_BLOCKS_WITHOUT_ROOM),
        Some(VOLUMES_WHERE_UNSAID),
    )
}

// The rows of the lines up to `go`, of which the first is line 3, and the text after it.
#[tactic(auto, using(gq_lines::proofs::Rests::rest_of_rest, gq_lines::proofs::Rests::rest_whole))]
fn rows_from(alloc: Global, room: bool, text: &[u8]) -> Result<(Vec<TenantRow>, &[u8]), PlanText>
    requires { length text.now < 2 ^ 63 }
    ensures rows { IfOk result (λ read. rows_from room 3 (lines_of text.now) ≡ Ok (read.0.items, lines_of read.1.now)) }
    ensures rest { IfOk result (λ read. IsRest text.now read.1.now) }
    ensures fault { IfErr result (λ e. IsFaultOf (rows_from room 3 (lines_of text.now)) e) }
{
    let mut rows = Vec::new(alloc);
    let mut line = 3u64;
    let mut rest = text;
    while !rest.is_empty() {
        let (first, after) = first_line(rest);
        rest = after;
        if first == b"go".as_slice() {
            return Ok((rows, rest));
        }
        let Some(row) = row_told(room, first) else {
            return Err(PlanText::Fault {
                line,
                fault: TextFault::Form,
            });
        };
        if let Err(refused) = rows.grow(row) {
            return Err(PlanText::Memory(refused));
        }
        line += 1;
    }
    Err(PlanText::Fault {
        line,
        fault: TextFault::End,
    })
}

// The line of a fault of so many rows.
fn line_of_fault(rows: usize, fault: &PlanFault) -> u64
    requires { line_of_fault rows fault.now < 2 ^ 64 }
    ensures { result ≡ line_of_fault rows fault.now }
{
    match fault {
        PlanFault::TooMany { row }
        | PlanFault::SameName { row }
        | PlanFault::ZeroShare { row }
        | PlanFault::Sessions { row }
        | PlanFault::Steps { row }
        | PlanFault::Most { row }
        | PlanFault::Volumes { row } => 3 + *row as u64,
        PlanFault::NoTenant | PlanFault::OverBlocks { .. } | PlanFault::Memory(_) => 3
            + rows as u64,
    }
}

// The plan of the rows, of which the last stands before `go`.
fn checked(alloc: Global, grid: Grid, blocks: u32, rows: &[TenantRow]) -> Result<Plan, PlanText>
    requires least { 1 ≤ blocks }
    requires most { blocks ≤ MOST_BLOCKS }
    requires few { length rows.now < 2 ^ 63 }
    ensures plan { IfOk result (λ plan. checked grid blocks rows.now ≡ Ok plan) }
    ensures fault { IfErr result (λ e. IsFaultOf (checked grid blocks rows.now) e) }
{
    match Plan::check(alloc, grid, blocks, rows) {
        Ok(plan) => Ok(plan),
        Err(PlanFault::Memory(refused)) => Err(PlanText::Memory(refused)),
        Err(fault) => Err(PlanText::Fault {
            line: line_of_fault(rows.len(), &fault),
            fault: TextFault::Check(fault),
        }),
    }
}

/// The plan at the head of an input, and the place of the byte after its line `go`, where the other lines begin. The
/// lines are tested in order, lines 1 and 2 for form, then for value, each later line for form; only then are the rows
/// tested by [`Plan::check`]. The first fault is told with its line. `Memory` says nothing of the text.
#[tactic(auto, using(gq_lines::proofs::Rests::rest_of_rest, gq_lines::proofs::Rests::rest_at, gq_lines::proofs::Rests::rest_length), unfolding(crate::specs::PlanText::plan_of))]
pub fn read_plan(alloc: Global, text: &[u8]) -> Result<(Plan, usize), PlanText>
    ensures plan { IfOk result (λ read.
        plan_of (lines_of text.now) ≡ Ok (read.0, lines_of (drop read.1 text.now))) }
    ensures within { IfOk result (λ read. read.1 ≤ length text.now) }
    ensures fault { IfErr result (λ e. IsFaultOf (plan_of (lines_of text.now)) e) }
{
    let (first, rest) = line_at(1, text)?;
    let grid = at_line(1, grid_told(first))?;
    let (second, rest) = line_at(2, rest)?;
    let blocks = at_line(2, blocks_told(second))?;
    let (rows, rest) = rows_from(alloc, is_room(second), rest)?;
    let plan = checked(alloc, grid, blocks, rows.as_slice())?;
    Ok((plan, text.len() - rest.len()))
}
