//! A server's thread and its workers.
ghost use Rattle.std.specs.Prelude.{◌≡◌, ◌<◌, true, IfOk, OnOk, Err, None, length};
ghost use Rattle.std.specs.Option.{ForSome};
ghost use Rattle.gq_store.specs.Copies.{empty_store, store_accounts};
ghost use Rattle.gq_session.specs.Faults.{NoGate};
ghost use Rattle.gq_live.specs.Faults.{fault_in};
ghost use Rattle.gq_live.specs.Notes.{note_for};

use crate::held::HeldCell;
use crate::starts::{Note, Order, ServerInbox, Site, post};
use crate::thread_ends::{CellRecord, GatedEnd, both_or_least};
use crossbeam_channel::Receiver;
use gq_cell::{Cell, Letter, Served, Share};
use gq_desk::{Desk, OpenRefused, Plan};
use gq_session::{Gate, LiveFault, Opening, Schedule};
use std::alloc::Global;
use std::marker::Brand;
use std::sync::ledger::{Blank, Ledger};
use std::sync::{Mutex, Wait};
use std::thread;
use std::thread::{JoinHandle, Threads};

// Sends the note to the session. One to a closed mailbox is dropped.
fn send<G: Gate, R: Wait>(
    rt: &R,
    site: &Site<'_, G>,
    tenant: u8,
    session: u8,
    note: Note,
) -> Result<(), LiveFault>
    ensures { NoGate result }
{
    match site.mailboxes.of(tenant, session) {
        Some(to) => post(rt, to, note),
        None => Err(LiveFault::Letter),
    }
}

// What the letter's session is told: the reply, or that the server is down.
fn note_of(served: Served, letter: Letter) -> Note
    ensures { result ≡ note_for letter served }
{
    match served {
        Served::Reply(reply) => Note::Letter(reply),
        Served::Down => Note::Returned(letter),
    }
}

// One hold of the cell's lock, and the note to the letter's session.
fn serve_one<L: Ledger, G: Gate, R: Wait>(
    rt: &R,
    site: &Site<'_, G>,
    cell: &Mutex<HeldCell<L>>,
    share: &mut Share<L>,
    letter: Letter,
) -> Result<(), LiveFault>
    ensures { G.never ≡ true → NoGate result }
{
    if site.gate.before(u32::from(site.server)).is_err() {
        return Err(LiveFault::Gate);
    }
    let mut held = cell.lock(rt);
    let served = (*held).serve(site.gate, share, &letter);
    drop(held);
    let tenant = letter.message.tenant;
    let session = letter.message.session;
    send(rt, site, tenant, session, note_of(served?, letter))
}

// What a worker did: its share, and its fault, if it met one.
#[derive(Drop)]
struct WorkerEnd<L: Ledger, G: Gate> {
    share: Share<L>,
    end: GatedEnd<(), G>,
}

// Serves letters until no one can send any more, or a fault.
fn work<L: Ledger, G: Gate, R: Wait>(
    rt: &R,
    site: &Site<'_, G>,
    cell: &Mutex<HeldCell<L>>,
    letters: &Receiver<Letter>,
    share: Share<L>,
) -> WorkerEnd<L, G> {
    let mut share = share;
    for _ in rt.forever() {
        let Ok(letter) = letters.recv(rt) else {
            break;
        };
        let served = serve_one(rt, site, cell, &mut share, letter);
        if served.is_err() {
            site.mailboxes.quit(rt);
            return WorkerEnd {
                share,
                end: GatedEnd::of(served),
            };
        }
    }
    WorkerEnd {
        share,
        end: GatedEnd::of(Ok(())),
    }
}

// Does the changes that the fault injector hands out. The board's lock is taken before the cell's.
fn do_orders<L: Ledger, R: Wait>(
    rt: &R,
    schedule: &Mutex<Schedule>,
    cell: &Mutex<HeldCell<L>>,
    orders: &Receiver<Order>,
) -> Result<(), LiveFault>
    ensures { NoGate result }
{
    for _ in rt.forever() {
        let Ok(order) = orders.recv(rt) else {
            break;
        };
        let mut schedule = schedule.lock(rt);
        let mut cell = cell.lock(rt);
        let changed = (*cell).change(&mut *schedule);
        drop(cell);
        drop(schedule);
        changed?;
        let _ = order.done.send(rt, ());
    }
    Ok(())
}

// How the workers of a cell ended, if they could be started, and its orders. The fault of the orders is not the gate's.
#[derive(Drop)]
struct CellEnds<L: Ledger, G: Gate> {
    first: Option<WorkerEnd<L, G>>,
    second: Option<WorkerEnd<L, G>>,
    ordered: Result<(), LiveFault>,
    ghost no_gate: { NoGate ordered },
}

// Two workers of one cell, until they have ended.
fn work_both<'x, L: Ledger + Send + Sync, G: Gate + Send + Sync, R: Threads + Wait + Sync>(
    rt: &'x R,
    site: &'x Site<'x, G>,
    cell: &'x Mutex<HeldCell<L>>,
    inbox: &'x ServerInbox,
    one: Share<L>,
    two: Share<L>,
) -> CellEnds<L, G> {
    thread::scope(thread::scope_env(), rt, move |scope| {
        let letters = &inbox.letters;
        let first = scope.spawn(move || work(rt, site, cell, letters, one)).ok();
        let second = scope.spawn(move || work(rt, site, cell, letters, two)).ok();
        if first.is_none() || second.is_none() {
            site.mailboxes.quit(rt);
        }
        let ordered = do_orders(rt, site.schedule, cell, &inbox.orders);
        if ordered.is_err() {
            site.mailboxes.quit(rt);
        }
        CellEnds {
            first: join(rt, first),
            second: join(rt, second),
            ordered,
        }
    })
}

// Joins a worker, if it could be started.
fn join<L: Ledger, G: Gate, R: Threads>(
    rt: &R,
    worker: Option<JoinHandle<WorkerEnd<L, G>>>,
) -> Option<WorkerEnd<L, G>> {
    match worker {
        Some(worker) => Some(worker.join(rt)),
        None => None,
    }
}

// A worker's share, where it met no fault. One that could not be started is `Thread`.
fn share_of<L: Ledger, G: Gate>(worker: Option<WorkerEnd<L, G>>) -> Result<Share<L>, LiveFault>
    ensures share { IfOk result (λ share. ForSome worker (λ w. share ≡ w.share)) }
    ensures thread { worker ≡ None → result ≡ Err LiveFault.Thread }
    ensures fault { ForSome worker (λ w. fault_in result ≡ fault_in w.end.result) }
    ensures gate { G.never ≡ true → NoGate result }
{
    match worker {
        None => Err(LiveFault::Thread),
        Some(worker) => {
            let WorkerEnd { share, end } = worker;
            let GatedEnd { result: given, .. } = end;
            match given {
                Ok(()) => Ok(share),
                Err(met) => Err(met),
            }
        }
    }
}

// Adds the files of all volumes. A desk tells again that each may be opened.
fn add_all<L: Ledger>(
    alloc: Global,
    plan: &Plan,
    volumes: &[Opening],
    cell: &mut Cell<L>,
) -> Result<(), LiveFault>
    requires { cell.old.accounts ≡ store_accounts (empty_store plan.now) }
    ensures { NoGate result }
{
    let mut desk = Desk::new(alloc, plan)?;
    for opening in volumes {
        if opening.tenant as usize >= plan.tenants() {
            return Err(LiveFault::Letter);
        }
        add_one(&mut desk, cell, *opening)?;
    }
    Ok(())
}

// Adds the files of one volume.
fn add_one<L: Ledger>(
    desk: &mut Desk,
    cell: &mut Cell<L>,
    opening: Opening,
) -> Result<(), LiveFault>
    requires tenant { opening.tenant < length desk.old }
    requires same { cell.old.accounts ≡ desk.old }
    ensures same { OnOk result (cell.new.accounts ≡ desk.new) }
    ensures tenants { OnOk result (length desk.new ≡ length desk.old) }
    ensures gate { NoGate result }
{
    match desk.open_volume(opening.tenant, opening.files, opening.blocks) {
        Ok(_) => match cell.add_files(opening.tenant, opening.files, opening.blocks) {
            Ok(()) => Ok(()),
            Err(refused) => Err(LiveFault::Memory(refused)),
        },
        Err(OpenRefused::Memory(refused)) => Err(LiveFault::Memory(refused)),
        Err(_) => Err(LiveFault::Letter),
    }
}

// The cell of the site's server with the files of all volumes, and its workers' shares.
fn make_cell<L: Ledger, G: Gate>(
    alloc: Global,
    site: &Site<'_, G>,
    blank: Blank,
) -> Result<(Cell<L>, Share<L>, Share<L>), LiveFault>
    requires name { blank.name ≡ L.name }
    requires parts { blank.parts ≡ L.parts }
    requires two { L.parts ≡ 2 }
    ensures { NoGate result }
{
    if site.server as usize >= site.plan.grid().servers() {
        return Err(LiveFault::Letter);
    }
    let (mut cell, one, two) = Cell::<L>::new(alloc, site.plan, site.server, blank)?;
    add_all(alloc, site.plan, site.volumes, &mut cell)?;
    Ok((cell, one, two))
}

// Two workers on one mailbox, until it is closed.
fn serve_as<'x, L: Ledger + Send + Sync, G: Gate + Send + Sync, R: Threads + Wait + Sync>(
    rt: &'x R,
    alloc: Global,
    site: &'x Site<'x, G>,
    inbox: ServerInbox,
    blank: Blank,
) -> Result<CellRecord, LiveFault>
    requires name { blank.name ≡ L.name }
    requires parts { blank.parts ≡ L.parts }
    requires two { L.parts ≡ 2 }
    ensures { G.never ≡ true → NoGate result }
{
    let made = make_cell::<L, G>(alloc, site, blank);
    if made.is_err() {
        site.mailboxes.quit(rt);
    }
    let (cell, one, two) = made?;
    let cell = Mutex::new(HeldCell::new(cell));
    let CellEnds {
        first,
        second,
        ordered,
        ..
    } = work_both(rt, site, &cell, &inbox, one, two);
    let shares = both_or_least(share_of(first), share_of(second));
    let ((one, two), ()) = both_or_least(shares, ordered)?;
    Ok(cell.into_inner().record(one, two))
}

/// A server's thread.
pub(crate) fn serve<'x, G: Gate + Send + Sync, R: Threads + Wait + Sync>(
    rt: &'x R,
    alloc: Global,
    site: &'x Site<'x, G>,
    inbox: ServerInbox,
) -> GatedEnd<CellRecord, G> {
    GatedEnd::of(serve_as::<Brand, G, R>(rt, alloc, site, inbox, Blank::new(2)))
}
