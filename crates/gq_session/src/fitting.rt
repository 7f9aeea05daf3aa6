//! Whether programs fit a plan.
ghost use Rattle.std.specs.Prelude.{◌≡◌, ◌≤◌, ◌<◌, ◌++◌, ℕ, List, All, IfOk, OnOk, true, length};
ghost use Rattle.gq_desk.specs.declared.limits.TheConstants.{MOST_SESSIONS};
ghost use Rattle.gq_session.specs.Fitting.{is_change, IsChange, IsTenants, HasRequests, FitsPlan, numbered, plan_sessions};
ghost use Rattle.gq_model.specs.Events.{IsRequestOf};

use crate::MOST_REQUESTS;
use crate::records::{Lines, Opening, Programs};
use gq_desk::Plan;
use gq_grid::Grid;
use gq_memory::{GrowVec, OutOfMemory};
use gq_model::{Line, ServerLine};
use std::alloc::Global;

/// A session of the plan: its tenant's place in the plan, and its number among the tenant's, from 1.
#[derive(Clone, Copy, Debug, PartialEq, Eq)]
pub struct SessionId {
    pub tenant: u8,
    pub number: u8,
}

// Adds so many sessions of the tenant.
fn add_sessions(all: &mut Vec<SessionId>, tenant: u8, count: u32) -> Result<(), OutOfMemory>
    requires { count ≤ MOST_SESSIONS }
    ensures { OnOk result (all.new.items ≡ all.old.items ++ numbered tenant count) }
{
    for number in 0..count {
        all.grow(SessionId {
            tenant,
            number: number as u8 + 1,
        })?;
    }
    Ok(())
}

/// All sessions of the plan, those of the first tenant first, which is the order of the lists in programs and records.
#[tactic(auto, using(gq_desk::proofs::SoundRows::row_few))]
pub fn sessions_of(alloc: Global, plan: &Plan) -> Result<Vec<SessionId>, OutOfMemory>
    ensures { IfOk result (λ all. all.items ≡ plan_sessions plan.now) }
{
    let mut all = Vec::new(alloc);
    for tenant in 0..plan.tenants() {
        add_sessions(&mut all, tenant as u8, plan.row(tenant as u8).sessions)?;
    }
    Ok(all)
}

/// Whether the line is a write, a read or a listing that names the session.
pub fn is_request_of(number: u8, line: &Line) -> bool
    ensures yes { result ≡ true → IsRequestOf number line.now }
    ensures no { IsRequestOf number line.now → result ≡ true }
{
    match line {
        Line::Write { session, .. } | Line::Read { session, .. } | Line::List { session, .. } => {
            *session == u32::from(number)
        }
        _ => false,
    }
}

// Whether the requests are all of the session, and not too many.
fn are_requests_of(number: u8, lines: &[Line]) -> bool
    ensures requests { result ≡ true → All (IsRequestOf number) lines.now }
    ensures few { result ≡ true → length lines.now ≤ MOST_REQUESTS }
    ensures no { All (IsRequestOf number) lines.now → length lines.now ≤ MOST_REQUESTS → result ≡ true }
{
    for place in 0..lines.len() {
        let line = &lines[place];
        if !is_request_of(number, line) {
            return false;
        }
    }
    lines.len() <= MOST_REQUESTS
}

// Whether each session has its requests.
fn have_requests(ids: &[SessionId], programs: &[Lines]) -> bool
    requires { length ids.now ≡ length programs.now }
    ensures yes { result ≡ true → (place : ℕ) → place < length programs.now → HasRequests ids.now programs.now place }
    ensures no { ((place : ℕ) → place < length programs.now → HasRequests ids.now programs.now place) → result ≡ true }
{
    for place in 0..programs.len() {
        let id = &ids[place];
        let lines = &programs[place];
        if !are_requests_of(id.number, lines.items.as_slice()) {
            return false;
        }
    }
    true
}

// Whether each volume is of one of so many tenants.
fn are_of_tenants(tenants: usize, volumes: &[Opening]) -> bool
    ensures yes { result ≡ true → IsTenants tenants volumes.now }
    ensures no { IsTenants tenants volumes.now → result ≡ true }
{
    for place in 0..volumes.len() {
        let opening = &volumes[place];
        if opening.tenant as usize >= tenants {
            return false;
        }
    }
    true
}

// Whether the line stops a server of the grid, or brings it back.
fn is_change(grid: &Grid, line: ServerLine) -> bool
    ensures { result ≡ is_change grid.now line }
{
    match line {
        ServerLine::Bad | ServerLine::Lost { .. } | ServerLine::Repaired { .. } => false,
        ServerLine::Down { server } | ServerLine::Up { server } => {
            (server as usize) < grid.servers()
        }
    }
}

fn are_changes(grid: &Grid, changes: &[ServerLine]) -> bool
    ensures yes { result ≡ true → All (IsChange grid.now) changes.now }
    ensures no { All (IsChange grid.now) changes.now → result ≡ true }
{
    for place in 0..changes.len() {
        let line = &changes[place];
        if !is_change(grid, *line) {
            return false;
        }
    }
    true
}

/// Whether the programs fit the plan: there is one list for each session of the plan, of at most [`MOST_REQUESTS`] writes,
/// reads and listings that name that session; each volume is of a tenant of the plan; each change stops a server of the
/// grid or brings it back. `OutOfMemory` is want of memory.
pub fn fits(alloc: Global, plan: &Plan, programs: &Programs) -> Result<bool, OutOfMemory>
    ensures yes { IfOk result (λ fits. fits ≡ true → FitsPlan plan.now programs.now) }
    ensures no { IfOk result (λ fits. FitsPlan plan.now programs.now → fits ≡ true) }
{
    let ids = sessions_of(alloc, plan)?;
    let lists = programs.sessions.as_slice();
    Ok(
        ids.len() == lists.len()
            && have_requests(ids.as_slice(), lists)
            && are_of_tenants(plan.tenants(), programs.volumes.as_slice())
            && are_changes(plan.grid(), programs.changes.as_slice()),
    )
}
