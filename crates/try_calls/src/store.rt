//! The calls of a store.

ghost use Rattle.std.specs.Prelude.{◌≡◌, ◌≤◌, [], ◌∷◌, IfOk};
ghost use Rattle.gq_store.specs.Copies.{store_accounts};

use crate::Fault;
use gq_desk::{MOST_BLOCKS, Name, Plan, PlanFault, TenantRow};
use gq_grid::Grid;
use gq_memory::{GrowCopies, GrowVec, copied_bytes};
use gq_store::{ServeRefused, ServerStore};
use gq_tag::{Body, FileId, MOST_FILES, Message, StoredCopy, Tag};
use std::alloc::Global;

const FILE: FileId = FileId {
    tenant: 0,
    volume: 0,
    file: 0,
};

// The store of a server of so many blocks, all of them the share of one tenant.
fn new_store(alloc: Global, blocks: u32) -> Result<ServerStore, Fault>
    ensures { IfOk result (λ store. store_accounts store ≡ record { share = blocks; most_blocks = 16; most_volumes = 64; volumes = [] } ∷ []) }
{
    if blocks < 1 || blocks > MOST_BLOCKS {
        return Err(Fault::Usage);
    }
    let Ok(grid) = Grid::new(1, 1) else {
        return Err(Fault::Usage);
    };
    let Some(name) = Name::new(b"ann") else {
        return Err(Fault::Usage);
    };
    let row = TenantRow {
        name,
        share: blocks,
        sessions: 1,
        steps: 1,
        most_blocks: 16,
        most_volumes: 64,
    };
    match Plan::check(alloc, grid, blocks, &[row]) {
        Ok(plan) => Ok(ServerStore::new(alloc, &plan)?),
        Err(PlanFault::Memory(_)) => Err(Fault::Memory),
        Err(_) => Err(Fault::Usage),
    }
}

// The number of free blocks of the store, which is closed.
fn free_then_closed(store: ServerStore) -> usize {
    let free = store.free();
    store.close();
    free
}

// A store of 64 blocks with a volume of so many files of a block.
fn add_files(alloc: Global, files: u32) -> Result<usize, Fault> {
    if files > MOST_FILES {
        return Err(Fault::Usage);
    }
    let mut store = new_store(alloc, MOST_FILES)?;
    store.add_files(0, files, 1)?;
    Ok(store.free())
}

// A store with one file of two blocks.
fn store_of_a_file(alloc: Global) -> Result<ServerStore, Fault>
    ensures { IfOk result (λ store. store_accounts store ≡ record { share = 4; most_blocks = 16; most_volumes = 64; volumes = record { files = 1; blocks = 2 } ∷ [] } ∷ []) }
{
    let mut store = new_store(alloc, 4)?;
    store.add_files(0, 1, 2)?;
    Ok(store)
}

// Puts a content and the empty one in turn, so many times.
fn put(alloc: Global, times: u32) -> Result<usize, Fault> {
    let mut store = store_of_a_file(alloc)?;
    for number in 0..times {
        let tag = Tag {
            number: u64::from(number),
            session: 1,
        };
        let content = if number % 2 == 0 {
            [7; 65].as_slice()
        } else {
            [].as_slice()
        };
        store.put(FILE, tag, content);
    }
    Ok(free_then_closed(store))
}

fn message(body: Body) -> Message
    ensures body { result.body ≡ body }
    ensures file { result.file ≡ FILE }
{
    Message {
        tenant: 0,
        session: 1,
        op: 1,
        round: 1,
        server: 0,
        file: FILE,
        body,
    }
}

// Serves a store and an ask.
fn serve(alloc: Global) -> Result<usize, Fault> {
    let mut store = store_of_a_file(alloc)?;
    let copy = StoredCopy {
        tag: Tag {
            number: 1,
            session: 1,
        },
        bytes: copied_bytes(alloc, &[7; 65])?,
    };
    for body in [Body::Store(copy), Body::Ask] {
        match store.serve(&message(body)) {
            Ok(_) => {}
            Err(ServeRefused::Memory(_)) => return Err(Fault::Memory),
            Err(_) => return Err(Fault::Usage),
        }
    }
    Ok(store.free())
}

// The number of free blocks at the end of the way of that name.
fn free_at_the_end(alloc: Global, way: &str, most: u32) -> Result<usize, Fault> {
    match way {
        "new" => Ok(free_then_closed(new_store(alloc, most)?)),
        "add" => add_files(alloc, most),
        "put" => put(alloc, most),
        "serve" => serve(alloc),
        _ => Err(Fault::Usage),
    }
}

/// Goes the way of that name, and appends how many blocks are free at its end.
pub fn make(alloc: Global, way: &str, most: usize, out: &mut Vec<u8>) -> Result<(), Fault> {
    let Ok(most) = u32::try_from(most) else {
        return Err(Fault::Usage);
    };
    let free = free_at_the_end(alloc, way, most)?;
    out.grow_by(b"free ")?;
    out.grow_by(itoa::Buffer::new().format(free).as_bytes())?;
    out.grow(b'\n')?;
    Ok(())
}
