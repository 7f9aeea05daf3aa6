//! The live run.
ghost use Rattle.std.specs.Prelude.{◌≡◌, ◌≢◌, ◌*◌, true, All, length, IfErr, IfOk, None, OnOk, vec_len};
ghost use Rattle.std.specs.Option.{ForSome};
ghost use Rattle.gq_session.specs.Attending.{GivesUpWhereStuck};
ghost use Rattle.gq_session.specs.Changed.{changes_of, IsSubsequence};
ghost use Rattle.gq_session.specs.Faults.{NoGate};
ghost use Rattle.gq_session.specs.Fitting.{FitsPlan};
ghost use Rattle.gq_session.specs.declared.records.LiveFault.TheVariants as FaultIs;
ghost use Rattle.gq_live.specs.Openings.{TellsOfNoVolume, TellsOfVolume, refused_volume};
ghost use Rattle.gq_live.specs.Runs.{AllLawful, AllAsked};

use crate::attending::{SessionEnd, attend};
use crate::serving::serve;
use crate::starts::{
    Mailboxes, Order, ServerChannels, ServerInbox, SessionState, SessionStates, Site,
    all_session_states, open_all, sites,
};
use crate::thread_ends::{CellRecord, GatedEnd, all_or_least, entries, journals, least};
use crossbeam_channel::Sender;
use gq_desk::{Desk, Plan};
use gq_grid::Grid;
use gq_memory::{GrowVec, OutOfMemory, RoomInVec, channel_of_one, send, slice_copied};
use gq_session::{Gate, LiveFault, Programs, Records, Schedule};
use std::alloc::Global;
use std::sync::{Mutex, Wait};
use std::thread;
use std::thread::{JoinHandle, Threads};

// ---- the fault injector

// Hands out the changes of the list, each when the last is done.
fn hand_out<R: Wait>(
    rt: &R,
    alloc: Global,
    schedule: &Mutex<Schedule>,
    orders: Vec<Sender<Order>>,
    count: usize,
) -> Option<LiveFault>
    ensures { ForSome result (λ fault. fault ≢ FaultIs.Gate) }
{
    for _ in 0..count {
        let Some(next) = schedule.lock(rt).next() else {
            break;
        };
        let Some(to) = orders.get(next.server as usize) else {
            return Some(LiveFault::Letter);
        };
        let (done, wait) = match channel_of_one(alloc) {
            Ok(ends) => ends,
            Err(refused) => return Some(LiveFault::Memory(refused)),
        };
        if send(rt, to, Order { done }).is_err() || wait.recv(rt).is_err() {
            break;
        }
    }
    None
}

// How the fault injector ended. Its fault is not the gate's.
#[derive(Drop)]
struct FaultInjectorEnd {
    fault: Option<LiveFault>,
    ghost no_gate: { ForSome fault (λ fault. fault ≢ FaultIs.Gate) },
}

// The fault injector's thread.
fn fault_injector<R: Wait>(
    rt: &R,
    alloc: Global,
    schedule: &Mutex<Schedule>,
    mailboxes: &Mailboxes,
    orders: Vec<Sender<Order>>,
    count: usize,
) -> FaultInjectorEnd {
    let fault = hand_out(rt, alloc, schedule, orders, count);
    if fault.is_some() {
        mailboxes.quit(rt);
    }
    FaultInjectorEnd { fault }
}

// ---- the threads

// What the threads gave back, and the fault of starting or joining them.
#[derive(Drop)]
struct AllEnds<G: Gate> {
    servers: Vec<GatedEnd<CellRecord, G>>,
    sessions: Vec<SessionEnd>,
    fault: Option<LiveFault>,
    ghost no_gate: { ForSome fault (λ fault. fault ≢ FaultIs.Gate) },
}

// Starts all threads and joins them. A thread that couldn't be started is no end in the lists. A thread is started only where
// there is room for its handle: what it gives back is given back by no other.
fn run_threads<'x, G: Gate + Send + Sync, R: Threads + Wait + Sync>(
    rt: &'x R,
    alloc: Global,
    grid: Grid,
    schedule: &'x Mutex<Schedule>,
    mailboxes: &'x Mailboxes,
    sites: &'x [Site<'x, G>],
    inboxes: Vec<ServerInbox>,
    session_states: Vec<SessionState>,
    orders: Vec<Sender<Order>>,
    count: usize,
) -> AllEnds<G> {
    thread::scope(thread::scope_env(), rt, move |scope| {
        let mut serving = Vec::new(alloc);
        let mut attending = Vec::new(alloc);
        let mut fault = None;
        for (site, inbox) in sites.iter().zip(inboxes) {
            if let Err(refused) = serving.make_room(1) {
                fault = Some(LiveFault::Memory(refused));
                break;
            }
            match scope.spawn(move || serve(rt, alloc, site, inbox)).ok() {
                Some(thread) => serving.push_reserved(thread),
                None => fault = Some(least(fault, LiveFault::Thread)),
            }
        }
        for session_state in session_states {
            if let Err(refused) = attending.make_room(1) {
                fault = Some(LiveFault::Memory(refused));
                break;
            }
            match scope
                .spawn(move || attend(rt, alloc, grid, schedule, mailboxes, session_state))
                .ok()
            {
                Some(thread) => attending.push_reserved(thread),
                None => fault = Some(least(fault, LiveFault::Thread)),
            }
        }
        let fault_injector = scope
            .spawn(move || fault_injector(rt, alloc, schedule, mailboxes, orders, count))
            .ok();
        if fault_injector.is_none() {
            fault = Some(least(fault, LiveFault::Thread));
        }
        if fault.is_some() {
            mailboxes.quit(rt);
        }
        join_threads(rt, alloc, serving, attending, fault_injector, fault)
    })
}

// Makes the servers' sites, and starts all threads and joins them.
fn run_all<'x, G: Gate + Send + Sync, R: Threads + Wait + Sync>(
    rt: &'x R,
    alloc: Global,
    plan: &'x Plan,
    programs: &'x Programs,
    gate: &'x G,
    schedule: &'x Mutex<Schedule>,
    mailboxes: &'x Mailboxes,
    inboxes: Vec<ServerInbox>,
    session_states: Vec<SessionState>,
    orders: Vec<Sender<Order>>,
) -> Result<AllEnds<G>, OutOfMemory> {
    let volumes = programs.volumes.as_slice();
    let sites = sites(alloc, plan, volumes, gate, schedule, mailboxes)?;
    Ok(run_threads(
        rt,
        alloc,
        *plan.grid(),
        schedule,
        mailboxes,
        sites.as_slice(),
        inboxes,
        session_states,
        orders,
        programs.changes.len(),
    ))
}

fn join_threads<G: Gate, R: Threads>(
    rt: &R,
    alloc: Global,
    serving: Vec<JoinHandle<GatedEnd<CellRecord, G>>>,
    attending: Vec<JoinHandle<SessionEnd>>,
    fault_injector: Option<JoinHandle<FaultInjectorEnd>>,
    fault: Option<LiveFault>,
) -> AllEnds<G>
    requires { ForSome fault (λ fault. fault ≢ FaultIs.Gate) }
{
    let fault = match fault_injector {
        None => fault,
        Some(fault_injector) => {
            let FaultInjectorEnd { fault: met, .. } = fault_injector.join(rt);
            match met {
                None => fault,
                Some(met) => Some(least(fault, met)),
            }
        }
    };
    let sessions = join_all(rt, alloc, attending);
    let servers = join_all(rt, alloc, serving);
    match (servers, sessions) {
        (Ok(servers), Ok(sessions)) => AllEnds {
            servers,
            sessions,
            fault,
        },
        (Err(refused), _sessions) => no_ends(alloc, refused),
        (Ok(_servers), Err(refused)) => no_ends(alloc, refused),
    }
}

// What is told where there was no memory for what the threads gave back.
fn no_ends<G: Gate>(alloc: Global, refused: OutOfMemory) -> AllEnds<G> {
    AllEnds {
        servers: Vec::new(alloc),
        sessions: Vec::new(alloc),
        fault: Some(LiveFault::Memory(refused)),
    }
}

// Joins each thread, also where there is no memory for what it gives back.
fn join_all<T: Drop, R: Threads>(
    rt: &R,
    alloc: Global,
    threads: Vec<JoinHandle<T>>,
) -> Result<Vec<T>, OutOfMemory> {
    let mut all = Vec::new(alloc);
    let mut failed = None;
    for thread in threads {
        if let Err(refused) = all.grow(thread.join(rt)) {
            failed = Some(refused);
        }
    }
    match failed {
        Some(refused) => Err(refused),
        None => Ok(all),
    }
}

// ---- the run

// What a thread met, which is no refusal of a volume: these are tested before.
fn met_by_threads(fault: LiveFault) -> LiveFault
    ensures volume { TellsOfNoVolume result }
    ensures gate { fault ≢ FaultIs.Gate → result ≢ FaultIs.Gate }
{
    match fault {
        LiveFault::Volume(_) => LiveFault::Letter,
        fault => fault,
    }
}

// Runs the programs in threads, where the desk has their volumes.
#[tactic(auto, using(gq_session::proofs::Requests::all_requests))]
fn run_opened<G: Gate + Send + Sync, R: Threads + Wait + Sync>(
    rt: &R,
    alloc: Global,
    plan: &Plan,
    programs: &Programs,
    desk: &Desk,
    gate: &G,
) -> Result<Records, LiveFault>
    requires fits { FitsPlan plan.now programs.now }
    requires desk { length desk.now ≡ length plan.now.rows }
    ensures volumes { IfOk result (λ r. r.volumes.items ≡ programs.now.volumes.items) }
    ensures cells { IfOk result (λ r. vec_len r.cells ≡ plan.now.grid.rows * plan.now.grid.cols) }
    ensures lawful { IfOk result (λ r. AllLawful r.cells.items) }
    ensures sessions { IfOk result (λ r. vec_len r.sessions ≡ vec_len programs.now.sessions) }
    ensures asked { IfOk result (λ r. AllAsked programs.now.sessions.items r.sessions.items) }
    ensures gave_up { IfOk result (λ r. All GivesUpWhereStuck r.sessions.items) }
    ensures changes { IfOk result (λ r. IsSubsequence (changes_of r.board.items) programs.now.changes.items) }
    ensures gate { G.never ≡ true → NoGate result }
{
    let openings = programs.volumes.as_slice();
    let programs_asked = programs.sessions.as_slice();
    let volumes = slice_copied(alloc, openings)?;
    let list = slice_copied(alloc, programs.changes.as_slice())?;
    let ServerChannels {
        letters,
        orders,
        inboxes,
    } = ServerChannels::new(alloc, plan.grid().servers())?;
    let SessionStates {
        session_states,
        mailboxes,
    } = all_session_states(rt, alloc, plan, desk, programs_asked, letters.as_slice())?;
    drop(letters);
    let schedule = Mutex::new(Schedule::new(alloc, plan.grid(), list));
    let AllEnds {
        servers,
        sessions,
        fault,
        ..
    } = run_all(
        rt,
        alloc,
        plan,
        programs,
        gate,
        &schedule,
        &mailboxes,
        inboxes,
        session_states,
        orders,
    )?;
    let met = journals(alloc, servers);
    let kept = entries(alloc, programs_asked, sessions);
    let (cells, sessions) = all_or_least(met, kept, fault)?;
    if cells.len() != plan.grid().servers() || sessions.len() != programs.sessions.len() {
        return Err(LiveFault::Letter);
    }
    match schedule.into_inner().close(programs.changes.as_slice()) {
        Some(board) => Ok(Records {
            volumes,
            cells,
            board,
            sessions,
        }),
        None => Err(LiveFault::Letter),
    }
}

/// Opens the volumes in order, and then runs the programs in threads: one with two workers for each server, one for each
/// session, and one fault injector for the servers' changes. It gives what was recorded under the locks. It may wait for ever.
///
/// `Volume` tells the first volume that is refused, before any thread starts, and comes only then. `Gate` comes only where
/// the gate gave up; of several threads' faults the first in the order of [`LiveFault`] is told.
pub fn live<G: Gate + Send + Sync, R: Threads + Wait + Sync>(
    rt: &R,
    alloc: Global,
    plan: &Plan,
    programs: &Programs,
    gate: &G,
) -> Result<Records, LiveFault>
    requires fits { FitsPlan plan.now programs.now }
    ensures volumes { IfOk result (λ r. r.volumes.items ≡ programs.now.volumes.items) }
    ensures cells { IfOk result (λ r. vec_len r.cells ≡ plan.now.grid.rows * plan.now.grid.cols) }
    ensures lawful { IfOk result (λ r. AllLawful r.cells.items) }
    ensures sessions { IfOk result (λ r. vec_len r.sessions ≡ vec_len programs.now.sessions) }
    ensures asked { IfOk result (λ r. AllAsked programs.now.sessions.items r.sessions.items) }
    ensures gave_up { IfOk result (λ r. All GivesUpWhereStuck r.sessions.items) }
    ensures changes { IfOk result (λ r. IsSubsequence (changes_of r.board.items) programs.now.changes.items) }
    ensures opens { OnOk result (refused_volume plan.now programs.now.volumes.items ≡ None) }
    ensures volume { IfErr result (TellsOfVolume plan.now programs.now.volumes.items) }
    ensures gate { G.never ≡ true → NoGate result }
{
    let desk = open_all(alloc, plan, programs.volumes.as_slice())?;
    match run_opened(rt, alloc, plan, programs, &desk, gate) {
        Ok(records) => Ok(records),
        Err(fault) => Err(met_by_threads(fault)),
    }
}
