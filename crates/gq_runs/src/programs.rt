//! The programs of a live run, read from the text of an input.

ghost use Rattle.std.specs.Prelude.{◌≡◌, ◌≢◌, ◌≤◌, ◌<◌, ◌++◌, [], None, Some, map, length, slice_set, IfOk, IfErr, IfSome, IfNone, OnOk, replicate, ℕ};
ghost use Rattle.std.specs.List.{All, cons_option, filter_map};
ghost use Rattle.gq_desk.specs.CheckedPlan.{row_at};
ghost use Rattle.gq_desk.specs.Plans.{is_in};
ghost use Rattle.gq_desk.specs.Volumes.{account_at, open_fault, with_volume};
ghost use Rattle.gq_desk.specs.declared.limits.TheConstants.{MOST_TENANTS};
ghost use Rattle.gq_model.specs.Events.{IsIn};
ghost use Rattle.gq_text.specs.Input.{event_of};
ghost use Rattle.gq_lines.specs.Lines.{lines_of};
ghost use Rattle.gq_text.specs.PlanText.{plan_of};
ghost use Rattle.gq_session.specs.Fitting.{FitsPlan, is_change};
ghost use Rattle.gq_session.specs.declared.fitting.SessionId.{SessionId};
ghost use Rattle.gq_runs.specs.Gathering.{AreByTenant, line_for, list_at, request_in, requests_at};
ghost use Rattle.gq_runs.specs.Programs.{AreOf, IsProgramsOf, server_line_in, desk_after, desk_with_line, events_fault, fault_of, first_fault, line_fault, names_session, new_desk, opening_of, refused_at, steps_fault, tenant_fault, fault_unless};

use gq_desk::{Desk, MOST_STEPS, OpenRefused, Plan, TenantRow};
use gq_lines::first_line;
use gq_memory::{GrowVec, OutOfMemory};
use gq_model::{Event, Line, ServerLine};
use gq_script::MOST_INPUT;
use gq_session::{Lines, Opening, Programs, SessionId, sessions_of};
use gq_text::{PlanText, TextFault, read_line, read_plan};
use std::alloc::Global;
use thiserror::Error;

/// Why an input gives no programs of a live run. A fault of a line names the line, from 1.
#[derive(Debug, Drop, Error)]
pub enum ProgramFault {
    /// The plan has this fault.
    #[error("line {0}: {1}")]
    Plan(u64, TextFault),
    /// The tenant of this row has not all the steps that a tenant may have, [`MOST_STEPS`].
    #[error("line {0}: livesteps")]
    Steps(u64),
    /// The line is no open, no request of a session of the plan, and no stop or return of a server of the grid.
    #[error("line {0}: live")]
    Line(u64),
    /// The volume can't be opened.
    #[error("line {0}: open")]
    Refused(u64),
    /// Memory is wanting.
    #[error("out of memory")]
    Memory(OutOfMemory),
}

impl From<OutOfMemory> for ProgramFault {
    ghost use Rattle.std.specs.Prelude.{◌≡◌};
    ghost use Rattle.gq_runs.specs.declared.programs.ProgramFault.TheVariants.{Memory};

    ghost from_gives = { λ refused e. e ≡ Memory refused };

    fn from(refused: OutOfMemory) -> ProgramFault {
        ProgramFault::Memory(refused)
    }
}

// The first row, of which the first is in line 3, that has not all steps.
fn steps_fault(rows: &[TenantRow]) -> Option<ProgramFault>
    requires { length rows.now ≤ MOST_TENANTS }
    ensures { result ≡ steps_fault 3 rows.now }
{
    for (place, row) in rows.iter().enumerate() {
        if row.steps != MOST_STEPS {
            return Some(ProgramFault::Steps(3 + place as u64));
        }
    }
    None
}

// The fault of a line that names this session of the tenant.
fn session_fault(plan: &Plan, tenant: u8, session: u32, number: u64) -> Option<ProgramFault>
    requires { tenant < length plan.now.rows }
    ensures { result ≡ fault_unless (is_in 1 (row_at plan.now tenant).sessions session) (ProgramFault.Line number) }
{
    if session < 1 || session > plan.row(tenant).sessions {
        Some(ProgramFault::Line(number))
    } else {
        None
    }
}

// The fault of a server line.
fn server_fault(plan: &Plan, line: ServerLine, number: u64) -> Option<ProgramFault>
    ensures { result ≡ fault_unless (is_change plan.now.grid line) (ProgramFault.Line number) }
{
    match line {
        ServerLine::Down { server } | ServerLine::Up { server }
            if (server as usize) < plan.grid().servers() => { None }
        _ => Some(ProgramFault::Line(number)),
    }
}

// Opens the volume of a line.
fn open(
    desk: &mut Desk,
    tenant: u8,
    files: u32,
    blocks: u32,
    number: u64,
) -> Result<(), ProgramFault>
    requires { tenant < length desk.old }
    ensures ok { OnOk result (open_fault (account_at desk.old tenant) (record { files = files; blocks = blocks }) ≡ None) }
    ensures desk { OnOk result (desk.new ≡ slice_set desk.old tenant (with_volume (record { files = files; blocks = blocks }) (account_at desk.old tenant))) }
    ensures fault { IfErr result (λ fault. fault ≢ ProgramFault.Memory tt →
        refused_at number (open_fault (account_at desk.old tenant) (record { files = files; blocks = blocks })) ≡ Some fault) }
{
    match desk.open_volume(tenant, files, blocks) {
        Ok(_) => Ok(()),
        Err(OpenRefused::Memory(refused)) => Err(ProgramFault::Memory(refused)),
        Err(_) => Err(ProgramFault::Refused(number)),
    }
}

// Tests a line of the tenant.
fn test_line(
    plan: &Plan,
    desk: &mut Desk,
    tenant: u8,
    line: &Line,
    number: u64,
) -> Result<(), ProgramFault>
    requires row { tenant < length plan.now.rows }
    requires account { tenant < length desk.old }
    ensures ok { OnOk result (tenant_fault plan.now desk.old number tenant line.now ≡ None) }
    ensures desk { OnOk result (desk.new ≡ desk_with_line desk.old tenant line.now) }
    ensures fault { IfErr result (λ fault. fault ≢ ProgramFault.Memory tt → tenant_fault plan.now desk.old number tenant line.now ≡ Some fault) }
{
    let fault = match line {
        Line::NewVolume { files, blocks } => {
            return open(desk, tenant, *files, *blocks, number);
        }
        Line::Write { session, .. } | Line::Read { session, .. } | Line::List { session, .. } => {
            session_fault(plan, tenant, *session, number)
        }
        _ => Some(ProgramFault::Line(number)),
    };
    match fault {
        Some(fault) => Err(fault),
        None => Ok(()),
    }
}

// Tests a line.
fn test_event(plan: &Plan, desk: &mut Desk, event: &Event, number: u64) -> Result<(), ProgramFault>
    requires row { IsIn plan.now event.now }
    requires accounts { length desk.old ≡ length plan.now.rows }
    ensures ok { OnOk result (line_fault plan.now desk.old number event.now ≡ None) }
    ensures desk { OnOk result (desk.new ≡ desk_after desk.old event.now) }
    ensures fault { IfErr result (λ fault. fault ≢ ProgramFault.Memory tt → line_fault plan.now desk.old number event.now ≡ Some fault) }
{
    let fault = match event {
        Event::Tenant { tenant, line } => return test_line(plan, desk, *tenant, line, number),
        Event::Server { line } => server_fault(plan, *line, number),
        Event::Stray => Some(ProgramFault::Line(number)),
    };
    match fault {
        Some(fault) => Err(fault),
        None => Ok(()),
    }
}

// Tests all lines behind the plan, of which the first has this number.
fn test_events(alloc: Global, plan: &Plan, events: &[Event], first: u64) -> Result<(), ProgramFault>
    requires events { All (IsIn plan.now) events.now }
    requires low { first ≤ 1000 }
    requires few { length events.now ≤ MOST_INPUT }
    ensures ok { OnOk result (first_fault plan.now (new_desk plan.now) first events.now ≡ None) }
    ensures fault { IfErr result (λ fault. fault ≢ ProgramFault.Memory tt → first_fault plan.now (new_desk plan.now) first events.now ≡ Some fault) }
{
    let mut desk = match Desk::new(alloc, plan) {
        Ok(desk) => desk,
        Err(refused) => return Err(ProgramFault::Memory(refused)),
    };
    for place in 0..events.len() {
        test_event(plan, &mut desk, &events[place], first + place as u64)?;
    }
    Ok(())
}

// The events of the lines of a text.
fn events_of(alloc: Global, plan: &Plan, text: &[u8]) -> Result<Vec<Event>, OutOfMemory>
    ensures events { IfOk result (λ events. events.items ≡ map (event_of plan.now) (lines_of text.now)) }
    ensures within { IfOk result (λ events. All (IsIn plan.now) events.items) }
    ensures few { IfOk result (λ events. length events.items ≤ length text.now) }
{
    let mut events = Vec::new(alloc);
    let mut rest = text;
    while !rest.is_empty() {
        let (line, after) = first_line(rest);
        events.grow(read_line(alloc, line, plan)?)?;
        rest = after;
    }
    Ok(events)
}

// The volume that the event opens, if it opens one.
fn opening_of(event: &Event) -> Option<Opening>
    ensures { result ≡ opening_of event.now }
{
    match event {
        Event::Tenant {
            tenant,
            line: Line::NewVolume { files, blocks },
        } => Some(Opening {
            tenant: *tenant,
            files: *files,
            blocks: *blocks,
        }),
        _ => None,
    }
}

// The server line that the event is, if it is one.
fn change_of(event: &Event) -> Option<ServerLine>
    ensures { result ≡ server_line_in event.now }
{
    match event {
        Event::Server { line } => Some(*line),
        _ => None,
    }
}

// Adds the item, if there is one.
fn keep<T: Drop>(items: &mut Vec<T>, item: Option<T>) -> Result<(), OutOfMemory>
    ensures { OnOk result (items.new.items ≡ items.old.items ++ cons_option item []) }
{
    if let Some(item) = item {
        items.grow(item)?;
    }
    Ok(())
}

// The volumes that the events open, in order.
fn volumes_of(alloc: Global, events: &[Event]) -> Result<Vec<Opening>, OutOfMemory>
    ensures { IfOk result (λ volumes. volumes.items ≡ filter_map opening_of events.now) }
{
    let mut volumes = Vec::new(alloc);
    for event in events {
        keep(&mut volumes, opening_of(event))?;
    }
    Ok(volumes)
}

// The server lines among the events, in order.
fn changes_of(alloc: Global, events: &[Event]) -> Result<Vec<ServerLine>, OutOfMemory>
    ensures { IfOk result (λ changes. changes.items ≡ filter_map server_line_in events.now) }
{
    let mut changes = Vec::new(alloc);
    for event in events {
        keep(&mut changes, change_of(event))?;
    }
    Ok(changes)
}

// Whether the line is a write, a read or a listing of the session.
fn names_session(number: u8, line: &Line) -> bool
    ensures { result ≡ names_session number line.now }
{
    match line {
        Line::Write { session, .. } | Line::Read { session, .. } | Line::List { session, .. } => {
            *session == u32::from(number)
        }
        _ => false,
    }
}

// So many empty lists.
fn empty_lists(alloc: Global, count: usize) -> Result<Vec<Lines>, OutOfMemory>
    ensures { IfOk result (λ lists. lists.items ≡ replicate count []) }
{
    let mut lists = Vec::new(alloc);
    for _ in 0..count {
        lists.grow(Lines {
            items: Vec::new(alloc),
        })?;
    }
    Ok(lists)
}

// Adds the line of a tenant's event to the list of its tenant.
fn add_line(lists: &mut Vec<Lines>, event: &Event) -> Result<(), OutOfMemory>
    ensures count { OnOk result (length lists.new.items ≡ length lists.old.items) }
    ensures lines { OnOk result ((tenant : ℕ) → tenant < length lists.old.items →
        list_at lists.new.items tenant ≡ list_at lists.old.items tenant ++ cons_option (line_for tenant event.now) []) }
{
    if let Event::Tenant { tenant, line } = event {
        if let Some(lines) = lists.get_mut(*tenant as usize) {
            lines.items.grow(line.share()?)?;
        }
    }
    Ok(())
}

// The lines of each of so many tenants, in order.
fn lines_of_tenants(
    alloc: Global,
    tenants: usize,
    events: &[Event],
) -> Result<Vec<Lines>, OutOfMemory>
    ensures { IfOk result (λ lists. AreByTenant tenants events.now lists.items) }
{
    let mut lists = empty_lists(alloc, tenants)?;
    for event in events {
        add_line(&mut lists, event)?;
    }
    Ok(lists)
}

// The request of the session that the line is, if it is one.
fn request_in(number: u8, line: &Line) -> Result<Option<Line>, OutOfMemory>
    ensures { IfOk result (λ request. request ≡ request_in number line.now) }
{
    if names_session(number, line) {
        Ok(Some(line.share()?))
    } else {
        Ok(None)
    }
}

// The requests of the session among its tenant's lines, in order.
fn requests_in(alloc: Global, number: u8, lines: &[Line]) -> Result<Lines, OutOfMemory>
    ensures { IfOk result (λ requests. requests ≡ filter_map (request_in number) lines.now) }
{
    let mut items = Vec::new(alloc);
    for line in lines {
        keep(&mut items, request_in(number, line)?)?;
    }
    Ok(Lines { items })
}

// The requests of each of the sessions, of which each is of one of the tenants.
fn requests_of(
    alloc: Global,
    ids: &[SessionId],
    tenants: &[Lines],
) -> Result<Vec<Lines>, OutOfMemory>
    requires { All (λ (id : SessionId). id.tenant < length tenants.now) ids.now }
    ensures { IfOk result (λ lists. lists.items ≡ map (requests_at tenants.now) ids.now) }
{
    let mut lists = Vec::new(alloc);
    for place in 0..ids.len() {
        let id = ids[place];
        let lines = &tenants[id.tenant as usize];
        lists.grow(requests_in(alloc, id.number, lines.items.as_slice())?)?;
    }
    Ok(lists)
}

// The programs of the events.
fn programs_of(alloc: Global, plan: &Plan, events: &[Event]) -> Result<Programs, OutOfMemory>
    ensures { IfOk result (AreOf plan.now events.now) }
{
    let ids = sessions_of(alloc, plan)?;
    let tenants = lines_of_tenants(alloc, plan.tenants(), events)?;
    Ok(Programs {
        volumes: volumes_of(alloc, events)?,
        sessions: requests_of(alloc, ids.as_slice(), tenants.as_slice())?,
        changes: changes_of(alloc, events)?,
    })
}

// The programs of the lines behind the plan.
fn programs_after(alloc: Global, plan: &Plan, text: &[u8]) -> Result<Programs, ProgramFault>
    requires { length text.now ≤ MOST_INPUT }
    ensures programs { IfOk result (AreOf plan.now (map (event_of plan.now) (lines_of text.now))) }
    ensures fits { IfOk result (FitsPlan plan.now) }
    ensures accepted { OnOk result (events_fault plan.now (map (event_of plan.now) (lines_of text.now)) ≡ None) }
    ensures fault { IfErr result (λ fault. fault ≢ ProgramFault.Memory tt → events_fault plan.now (map (event_of plan.now) (lines_of text.now)) ≡ Some fault) }
{
    if let Some(fault) = steps_fault(plan.rows()) {
        return Err(fault);
    }
    let events = match events_of(alloc, plan, text) {
        Ok(events) => events,
        Err(refused) => return Err(ProgramFault::Memory(refused)),
    };
    test_events(alloc, plan, events.as_slice(), 4 + plan.tenants() as u64)?;
    match programs_of(alloc, plan, events.as_slice()) {
        Ok(programs) => Ok(programs),
        Err(refused) => Err(ProgramFault::Memory(refused)),
    }
}

/// The plan and the programs of a live run that the input tells: a plan of which each tenant has all steps, [`MOST_STEPS`],
/// and behind its line `go` the tenants' opens, which the desk takes one after another, the requests of sessions of the
/// plan, and stops and returns of servers of the grid. The first fault is told: that of the plan, that of a row's steps,
/// then that of a line. `Memory` may come before a later line is tested.
pub fn read_programs(alloc: Global, input: &[u8]) -> Result<(Plan, Programs), ProgramFault>
    requires { length input.now ≤ MOST_INPUT }
    ensures programs { IfOk result (λ read. IsProgramsOf input.now read.0 read.1) }
    ensures fits { IfOk result (λ read. FitsPlan read.0 read.1) }
    ensures accepted { OnOk result (fault_of (plan_of (lines_of input.now)) ≡ None) }
    ensures fault { IfErr result (λ fault. fault ≢ ProgramFault.Memory tt → fault_of (plan_of (lines_of input.now)) ≡ Some fault) }
{
    match read_plan(alloc, input) {
        Ok((plan, place)) => match programs_after(alloc, &plan, &input[place..]) {
            Ok(programs) => Ok((plan, programs)),
            Err(fault) => Err(fault),
        },
        Err(PlanText::Fault { line, fault }) => Err(ProgramFault::Plan(line, fault)),
        Err(PlanText::Memory(refused)) => Err(ProgramFault::Memory(refused)),
    }
}
