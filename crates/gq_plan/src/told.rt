//! The text of what a plan says, and what of an older plan a newer one does not keep.

ghost use Rattle.std.specs.Prelude.{◌≡◌, ◌++◌, ◌-◌, ◌^◌, ◌<◌, ◌≤◌, length, IfOk, IfErr, OnOk};
ghost use Rattle.gq_setup.specs.Setups.{setup_of};
ghost use Rattle.gq_setup.specs.Faults.{IsFirstFault};
ghost use Rattle.gq_plan.specs.PlanWords.{first_session, grid_line, place_line, places_text, loss_line, losses_text, gone_line, gone_text, tenant_line, session_line, sessions_text, run_line, runs_text, tenant_text, tenants_text, plan_text, Tells};
ghost use Rattle.gq_plan.specs.Leaving.{next_text};
ghost use Rattle.gq_plan.specs.Following.{TellsNext, IsFollowFault};

use crate::leaving::put_next;
use crate::line::{Named, put_line};
use crate::runs::{Run, runs_of};
use crate::sums::{answer, files_in, files_of, memory, peak, short_in};
use gq_chunks::longest_of;
use gq_desk::{Name, Plan, TenantRow};
use gq_memory::OutOfMemory;
use gq_setup::{NotKept, Setup, SetupFault, read_setup};
use std::alloc::Global;

// Appends the line of the grid.
fn put_grid(alloc: Global, out: &mut Vec<u8>, setup: &Setup) -> Result<(), OutOfMemory>
    ensures { OnOk result (out.new.items ≡ out.old.items ++ grid_line setup.now) }
{
    let answer = answer(alloc, setup)?;
    let files = files_in(setup);
    let short = short_in(setup);
    let plan = setup.plan();
    let grid = plan.grid();
    put_line(
        out,
        Named::Number(b"rows", grid.rows() as u64),
        &[
            Named::Number(b"columns", grid.cols() as u64),
            Named::Number(b"nodes", grid.servers() as u64),
            Named::Number(b"room", u64::from(plan.blocks())),
            Named::Number(b"tenants", plan.tenants() as u64),
            Named::Number(b"losses", u64::from(setup.losses())),
            Named::Number(b"line", longest_of(setup) as u64),
            Named::Number(b"answer", answer),
            Named::Number(b"memory", memory(plan.blocks(), files)),
            Named::Number(b"peak", peak(plan.blocks(), files, short)),
        ],
    )
}

// Appends the line of a place.
fn put_place(out: &mut Vec<u8>, setup: &Setup, place: usize) -> Result<(), OutOfMemory>
    requires { place < 64 }
    ensures { OnOk result (out.new.items ≡ out.old.items ++ place_line setup.now place) }
{
    let node = setup.lost().node_at(place);
    put_line(
        out,
        Named::Number(b"place", place as u64),
        &[Named::Number(b"node", u64::from(node))],
    )
}

// Appends the lines of the places.
fn put_places(out: &mut Vec<u8>, setup: &Setup) -> Result<(), OutOfMemory>
    ensures { OnOk result (out.new.items ≡ out.old.items ++ places_text setup.now) }
{
    for place in 0..setup.plan().grid().servers() {
        put_place(out, setup, place)?;
    }
    Ok(())
}

// Appends the line of a loss.
fn put_loss(out: &mut Vec<u8>, place: u8) -> Result<(), OutOfMemory>
    ensures { OnOk result (out.new.items ≡ out.old.items ++ loss_line place) }
{
    put_line(out, Named::Number(b"replace", u64::from(place)), &[])
}

// Appends the lines of losses.
fn put_losses(out: &mut Vec<u8>, places: &[u8]) -> Result<(), OutOfMemory>
    ensures { OnOk result (out.new.items ≡ out.old.items ++ losses_text places.now) }
{
    for place in places {
        put_loss(out, *place)?;
    }
    Ok(())
}

// Appends the line of a tenant that is gone.
fn put_name_gone(out: &mut Vec<u8>, name: &Name) -> Result<(), OutOfMemory>
    ensures { OnOk result (out.new.items ≡ out.old.items ++ gone_line name.now) }
{
    put_line(out, Named::Word(b"gone", name.as_bytes()), &[])
}

// Appends the lines of tenants that are gone.
fn put_gone(out: &mut Vec<u8>, names: &[Name]) -> Result<(), OutOfMemory>
    ensures { OnOk result (out.new.items ≡ out.old.items ++ gone_text names.now) }
{
    for name in names {
        put_name_gone(out, name)?;
    }
    Ok(())
}

// Appends the line of a tenant, with what is free of its share, how many volumes and files are open, and how many KiB of chunks it may have.
fn put_row(
    out: &mut Vec<u8>,
    row: &TenantRow,
    free: u32,
    volumes: usize,
    files: u64,
    chunks: u32,
) -> Result<(), OutOfMemory>
    ensures { OnOk result (out.new.items ≡ out.old.items ++ tenant_line row.now free volumes files chunks) }
{
    put_line(
        out,
        Named::Word(b"tenant", row.name.as_bytes()),
        &[
            Named::Number(b"share", u64::from(row.share)),
            Named::Number(b"free", u64::from(free)),
            Named::Number(b"sessions", u64::from(row.sessions)),
            Named::Number(b"steps", u64::from(row.steps)),
            Named::Number(b"most", u64::from(row.most_blocks)),
            Named::Number(b"volumes", u64::from(row.most_volumes)),
            Named::Number(b"open", volumes as u64),
            Named::Number(b"files", files),
            Named::Number(b"chunks", u64::from(chunks)),
        ],
    )
}

// How many sessions the tenants of these rows have.
fn sessions_of(rows: &[TenantRow]) -> u64
    requires { length rows.now ≤ 64 }
    ensures sessions { result ≡ first_session rows.now }
    ensures few { result ≤ 2 ^ 38 }
{
    let mut sessions = 0;
    for row in rows {
        sessions += u64::from(row.sessions);
    }
    sessions
}

// Appends the line of the session at this place of its tenant's, whose home has that place of the grid.
fn put_session(out: &mut Vec<u8>, row: &TenantRow, place: u32, home: u64) -> Result<(), OutOfMemory>
    requires { place < 2 ^ 32 - 1 }
    ensures { OnOk result (out.new.items ≡ out.old.items ++ session_line row.now.name place home) }
{
    put_line(
        out,
        Named::Number(b"session", u64::from(place) + 1),
        &[
            Named::Word(b"tenant", row.name.as_bytes()),
            Named::Number(b"home", home),
        ],
    )
}

// Appends the lines of a tenant's sessions.
fn put_sessions(out: &mut Vec<u8>, plan: &Plan, tenant: u8) -> Result<(), OutOfMemory>
    requires { tenant < length plan.now.rows }
    ensures { OnOk result (out.new.items ≡ out.old.items ++ sessions_text plan.now tenant) }
{
    let before = sessions_of(&plan.rows()[..tenant as usize]);
    let row = plan.row(tenant);
    let servers = plan.grid().servers() as u64;
    for place in 0..row.sessions {
        put_session(out, row, place, (u64::from(place) + before) % servers)?;
    }
    Ok(())
}

// Appends the line of a run of a tenant's volumes.
fn put_run(out: &mut Vec<u8>, row: &TenantRow, run: &Run) -> Result<(), OutOfMemory>
    ensures { OnOk result (out.new.items ≡ out.old.items ++ run_line row.now.name run.now) }
{
    put_line(
        out,
        Named::Word(b"open", row.name.as_bytes()),
        &[
            Named::Number(b"files", u64::from(run.files)),
            Named::Number(b"blocks", u64::from(run.blocks)),
            Named::Number(b"times", u64::from(run.times)),
        ],
    )
}

// Appends the lines of these runs.
fn put_runs(out: &mut Vec<u8>, row: &TenantRow, runs: &[Run]) -> Result<(), OutOfMemory>
    ensures { OnOk result (out.new.items ≡ out.old.items ++ runs_text row.now.name runs.now) }
{
    for run in runs {
        put_run(out, row, run)?;
    }
    Ok(())
}

// Appends the lines of a tenant.
fn put_tenant(
    alloc: Global,
    out: &mut Vec<u8>,
    setup: &Setup,
    tenant: u8,
) -> Result<(), OutOfMemory>
    requires { tenant < length setup.now.plan.rows }
    ensures { OnOk result (out.new.items ≡ out.old.items ++ tenant_text setup.now tenant) }
{
    let volumes = setup.volume_rows(tenant);
    let runs = runs_of(alloc, volumes)?;
    let row = setup.plan().row(tenant);
    put_row(
        out,
        row,
        setup.free(tenant),
        volumes.len(),
        files_of(volumes),
        setup.chunk_kib(tenant),
    )?;
    put_sessions(out, setup.plan(), tenant)?;
    put_runs(out, row, runs.as_slice())
}

// Appends the lines of the tenants.
fn put_tenants(alloc: Global, out: &mut Vec<u8>, setup: &Setup) -> Result<(), OutOfMemory>
    ensures { OnOk result (out.new.items ≡ out.old.items ++ tenants_text setup.now) }
{
    for tenant in 0..setup.plan().tenants() {
        put_tenant(alloc, out, setup, tenant as u8)?;
    }
    Ok(())
}

// Appends what the plan says.
fn put_plan(alloc: Global, out: &mut Vec<u8>, setup: &Setup) -> Result<(), OutOfMemory>
    ensures { OnOk result (out.new.items ≡ out.old.items ++ plan_text setup.now) }
{
    put_grid(alloc, out, setup)?;
    put_places(out, setup)?;
    put_losses(out, setup.lost().places())?;
    put_gone(out, setup.gone())?;
    put_tenants(alloc, out, setup)
}

/// What a plan says, in lines of words NAME=VALUE (docs/FORMATS.md, What a plan says). The plan is one as a node takes it, so that the
/// first line at fault is told where it is none; want of memory may come before it is found.
pub fn told_plan(alloc: Global, text: &[u8]) -> Result<Vec<u8>, SetupFault>
    ensures told { IfOk result (λ told. Tells (setup_of text.now) told.items) }
    ensures fault { IfErr result (λ fault. IsFirstFault fault (setup_of text.now)) }
{
    let setup = read_setup(alloc, text)?;
    let mut told = Vec::new(alloc);
    put_plan(alloc, &mut told, &setup)?;
    Ok(told)
}

/// Why a plan may not follow an older one.
#[derive(Drop)]
pub enum FollowFault {
    /// The older text is no plan, or memory is wanting.
    Old(SetupFault),
    /// The newer text is none, or memory is wanting.
    New(SetupFault),
    /// The newer plan does not keep this of the older one.
    NotKept(NotKept),
}

// What is told where the newer plan follows the older one.
fn next_told(alloc: Global, before: &Setup, after: &Setup) -> Result<Vec<u8>, OutOfMemory>
    ensures { IfOk result (λ told. told.items ≡ next_text before.now after.now) }
{
    let mut told = Vec::new(alloc);
    put_next(&mut told, before, after)?;
    Ok(told)
}

/// That a node which has the older plan may start with the newer one, and who leaves by it, in lines of words NAME=VALUE (docs/FORMATS.md,
/// What a plan says): of each tenant of the older plan that is gone by the newer one, the share and the room for chunks that are free again.
/// Where a text is no plan its first line at fault is told, of the older one first; else what of the older plan the newer one does not
/// keep, as a node tells it.
pub fn told_next(alloc: Global, old: &[u8], new: &[u8]) -> Result<Vec<u8>, FollowFault>
    ensures follows { IfOk result (λ told. TellsNext (setup_of old.now) (setup_of new.now) told.items) }
    ensures fault { IfErr result (λ fault. IsFollowFault fault (setup_of old.now) (setup_of new.now)) }
{
    let before = match read_setup(alloc, old) {
        Ok(setup) => setup,
        Err(fault) => return Err(FollowFault::Old(fault)),
    };
    let after = match read_setup(alloc, new) {
        Ok(setup) => setup,
        Err(fault) => return Err(FollowFault::New(fault)),
    };
    match after.not_kept(&before) {
        None => match next_told(alloc, &before, &after) {
            Ok(told) => Ok(told),
            Err(refused) => Err(FollowFault::New(SetupFault::Memory(refused))),
        },
        Some(what) => Err(FollowFault::NotKept(what)),
    }
}
