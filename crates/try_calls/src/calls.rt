//! The calls that take memory, one kind after another. What can be seen of a value is told before a call, and once more
//! where memory is refused to the call, which then is made again.

ghost use Rattle.std.specs.Prelude.{◌≡◌, ◌<◌, [], ◌∷◌, length, IfOk, OnOk};
ghost use Rattle.gq_store.specs.Copies.{empty_store, store_accounts};

use crate::{Fault, cells, histories, operations, records, texts};
use gq_desk::{Desk, Name, Plan, TenantRow};
use gq_grid::Grid;
use gq_memory::{OutOfMemory, RoomInVec};
use gq_pool::Pool;
use gq_post::Post;
use gq_store::ServerStore;
use gq_tag::{Body, FileId, Message, Tag};
use gq_world::World;
use std::alloc::Global;
use std::fmt::Debug;
use std::io::Write;

// Room for all that is told, so that telling takes no memory between the calls.
const ROOM: usize = 65_536;

const FILE: FileId = FileId {
    tenant: 0,
    volume: 0,
    file: 1,
};

/// Tells what can be seen of a value. There is room for it ([`make`] reserves that); were there none, it would be missing in
/// what is told.
pub fn tell<T: Debug>(out: &mut Vec<u8>, seen: &T) {
    let _ = writeln!(out, "{seen:?}");
}

/// Tells that memory was refused to a call.
pub fn tell_refused(out: &mut Vec<u8>, call: &str) {
    let _ = writeln!(out, "refused {call}");
}

/// Tells that memory was refused to a call, and what can be seen of the value then.
pub fn tell_kept<T: Debug>(out: &mut Vec<u8>, call: &str, seen: &T) {
    tell_refused(out, call);
    tell(out, seen);
}

// What a call gives that is made once more, after memory was refused to it, which is told.
macro_rules! again {
    ($out:ident, $call:literal, $seen:expr, $make:expr) => {{
        $crate::calls::tell_kept($out, $call, $seen);
        match $make {
            Ok(value) => value,
            Err(_) => return Err(Fault::Memory),
        }
    }};
}

pub(crate) use again;

// What a call gives. Where memory is refused to it, it is made again. Of a call that has other faults, the one that tells
// so is named.
macro_rules! retry {
    ($out:ident, $call:literal, $seen:expr, $make:expr) => {{
        tell($out, $seen);
        match $make {
            Ok(value) => value,
            Err(_) => $crate::calls::again!($out, $call, $seen, $make),
        }
    }};
    ($out:ident, $call:literal, $seen:expr, $make:expr, $wanting:pat) => {{
        tell($out, $seen);
        match $make {
            Ok(value) => value,
            Err($wanting) => $crate::calls::again!($out, $call, $seen, $make),
            Err(_) => return Err(Fault::Other),
        }
    }};
}

pub(crate) use retry;

fn grid() -> Result<Grid, Fault> {
    match Grid::new(1, 2) {
        Ok(grid) => Ok(grid),
        Err(_) => Err(Fault::Usage),
    }
}

// The row of a tenant whose share is 8 blocks.
fn row() -> Result<TenantRow, Fault>
    ensures share { IfOk result (λ row. row.share ≡ 8) }
    ensures most { IfOk result (λ row. row.most_blocks ≡ 16) }
    ensures volumes { IfOk result (λ row. row.most_volumes ≡ 64) }
{
    let Some(name) = Name::new(b"ann") else {
        return Err(Fault::Usage);
    };
    Ok(TenantRow {
        name,
        share: 8,
        sessions: 2,
        steps: 9,
        most_blocks: 16,
        most_volumes: 64,
    })
}

// A plan of the one tenant.
fn plan(alloc: Global, row: TenantRow, out: &mut Vec<u8>) -> Result<Plan, Fault>
    ensures { IfOk result (λ plan. plan.rows ≡ row ∷ []) }
{
    let rows = [row];
    let grid = grid()?;
    let plan = retry!(
        out,
        "Plan::check",
        &rows,
        Plan::check(alloc, grid, 8, &rows)
    );
    Ok(plan)
}

// A plan's copy. (Each call that is retried stands in a function that owns little: a proof follows each way out of it.)
fn copy(plan: &Plan, out: &mut Vec<u8>) -> Result<(), Fault> {
    let copy = retry!(out, "Plan::copy", &plan.rows(), plan.copy());
    tell(out, &copy);
    Ok(())
}

fn copy_of_a_plan(alloc: Global, out: &mut Vec<u8>) -> Result<(), Fault> {
    copy(&plan(alloc, row()?, out)?, out)
}

// Opens a volume of a file of so many blocks.
fn open(desk: &mut Desk, blocks: u32, out: &mut Vec<u8>) -> Result<(), Fault>
    requires { 0 < length desk.old }
    ensures { length desk.new ≡ length desk.old }
{
    let number = retry!(
        out,
        "Desk::open_volume",
        &(desk.volumes(0), desk.free(0), desk.limit(FILE)),
        desk.open_volume(0, 1, blocks)
    );
    tell(out, &number);
    Ok(())
}

fn new_desk(alloc: Global, plan: &Plan, out: &mut Vec<u8>) -> Result<Desk, Fault>
    ensures { IfOk result (λ desk. length desk ≡ length plan.now.rows) }
{
    let desk = retry!(out, "Desk::new", &plan.rows(), Desk::new(alloc, plan));
    Ok(desk)
}

fn open_three(desk: &mut Desk, out: &mut Vec<u8>) -> Result<(), Fault>
    requires { 0 < length desk.old }
{
    open(desk, 1, out)?;
    open(desk, 2, out)?;
    open(desk, 3, out)?;
    tell(out, &(desk.volumes(0), desk.free(0), desk.limit(FILE)));
    Ok(())
}

fn desk(alloc: Global, out: &mut Vec<u8>) -> Result<(), Fault> {
    let plan = plan(alloc, row()?, out)?;
    let mut desk = new_desk(alloc, &plan, out)?;
    open_three(&mut desk, out)
}

fn pool(alloc: Global, out: &mut Vec<u8>) -> Result<(), Fault> {
    let pool = retry!(out, "Pool::new", &(), Pool::new(alloc, 5));
    let free = pool.free();
    pool.close();
    tell(out, &free);
    Ok(())
}

fn store_of(alloc: Global, plan: &Plan, out: &mut Vec<u8>) -> Result<ServerStore, Fault>
    ensures { IfOk result (λ store. store ≡ empty_store plan.now) }
{
    let store = retry!(
        out,
        "ServerStore::new",
        &plan.rows(),
        ServerStore::new(alloc, plan)
    );
    Ok(store)
}

fn new_store(alloc: Global, out: &mut Vec<u8>) -> Result<ServerStore, Fault>
    ensures { IfOk result (λ store. store_accounts store ≡ record { share = 8; most_blocks = 16; most_volumes = 64; volumes = [] } ∷ []) }
{
    store_of(alloc, &plan(alloc, row()?, out)?, out)
}

fn add_two_files(store: &mut ServerStore, out: &mut Vec<u8>) -> Result<(), Fault>
    requires { store_accounts store.old ≡ record { share = 8; most_blocks = 16; most_volumes = 64; volumes = [] } ∷ [] }
    ensures { OnOk result (store_accounts store.new ≡ record { share = 8; most_blocks = 16; most_volumes = 64; volumes = record { files = 2; blocks = 2 } ∷ [] } ∷ []) }
{
    retry!(
        out,
        "ServerStore::add_files",
        &(store.free(), store.limit(FILE)),
        store.add_files(0, 2, 2)
    );
    Ok(())
}

fn store_of_two_files(alloc: Global, out: &mut Vec<u8>) -> Result<ServerStore, Fault>
    ensures { IfOk result (λ store. store_accounts store ≡ record { share = 8; most_blocks = 16; most_volumes = 64; volumes = record { files = 2; blocks = 2 } ∷ [] } ∷ []) }
{
    let mut store = new_store(alloc, out)?;
    add_two_files(&mut store, out)?;
    Ok(store)
}

// A message of the one session.
fn message(op: u32) -> Message
    ensures { result.body ≡ Body.Ask }
{
    Message {
        tenant: 0,
        session: 1,
        op,
        round: 1,
        server: 0,
        file: FILE,
        body: Body::Ask,
    }
}

fn store(alloc: Global, out: &mut Vec<u8>) -> Result<(), Fault> {
    let mut store = store_of_two_files(alloc, out)?;
    store.put(FILE, Tag::after(0, 1), b"content");
    let ask = message(1);
    let reply = retry!(
        out,
        "ServerStore::serve",
        &(store.free(), store.len(FILE), store.tag(FILE)),
        store.serve(&ask)
    );
    tell(out, &(store.free(), store.len(FILE), store.tag(FILE)));
    tell(out, &reply);
    Ok(())
}

fn send(post: &mut Post, op: u32, out: &mut Vec<u8>) -> Result<(), Fault>
    requires { 0 < length post.old }
    ensures { length post.new ≡ length post.old }
{
    let last = u64::from(op).saturating_sub(1);
    tell(out, &(post.sent(0), post.get(0, last)));
    let number = match post.send(0, message(op)) {
        Ok(number) => number,
        Err(unsent) => {
            tell_refused(out, "Post::send");
            tell(out, &(post.sent(0), post.get(0, last)));
            // (the message comes back)
            match post.send(0, unsent.message) {
                Ok(number) => number,
                Err(_) => return Err(Fault::Memory),
            }
        }
    };
    tell(out, &number);
    Ok(())
}

fn post(alloc: Global, out: &mut Vec<u8>) -> Result<(), Fault> {
    let mut post = retry!(out, "Post::new", &(), Post::new(alloc, 2));
    for op in 0..20u32 {
        send(&mut post, op, out)?;
    }
    tell(out, &(post.sent(0), post.get(0, 0)));
    Ok(())
}

// A world of a copy of the plan, which is given up where memory is refused.
fn world_of(alloc: Global, plan: &Plan) -> Result<World, OutOfMemory> {
    World::new(alloc, plan.copy()?)
}

fn new_world(alloc: Global, plan: &Plan, out: &mut Vec<u8>) -> Result<(), Fault> {
    let world = retry!(out, "World::new", &plan.rows(), world_of(alloc, plan));
    tell(out, &world.plan());
    Ok(())
}

fn world(alloc: Global, out: &mut Vec<u8>) -> Result<(), Fault> {
    new_world(alloc, &plan(alloc, row()?, out)?, out)
}

/// Makes the calls of the part of that name; those on texts with the script.
pub fn make(alloc: Global, part: &str, script: &[u8], out: &mut Vec<u8>) -> Result<(), Fault> {
    out.make_room(ROOM)?;
    match part {
        "plan" => copy_of_a_plan(alloc, out),
        "desk" => desk(alloc, out),
        "pool" => pool(alloc, out),
        "store" => store(alloc, out),
        "post" => post(alloc, out),
        "write" => operations::write(alloc, out),
        "read" => operations::read(alloc, out),
        "list" => operations::list(alloc, out),
        "world" => world(alloc, out),
        "cell" => cells::cell(alloc, out),
        "board" => cells::board(alloc, out),
        "records" => records::make(alloc, out),
        "programs" => texts::programs(alloc, script, out),
        "history" => histories::make(alloc, script, out),
        "texts" => texts::make(alloc, script, out),
        _ => Err(Fault::Usage),
    }
}
