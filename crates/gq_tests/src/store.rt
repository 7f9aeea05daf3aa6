//! A store of four blocks and one tenant; two such stores, of which one takes the other's copies; that a store is let go within something
//! larger, and may go to another thread.
ghost use Rattle.std.specs.Prelude.{◌≡◌, ℕ, [], ◌∷◌, IsSome, IsTrue};
ghost use Rattle.gq_tag.specs.Tag.{to_server};
ghost use Rattle.gq_store.specs.Copies.{file_limit, store_accounts};

use bytes::Bytes;
use gq_desk::{MOST_BLOCKS, Name, Plan, TenantRow};
use gq_grid::Grid;
use gq_memory::{GrowVec, slice_copied};
use gq_store::*;
use gq_tag::{Body, FileId, Message, StoredCopy, Tag};
use std::alloc::Global;
use std::marker::Send;
use std::process::Abort;
use std::test::Fail;

// The store of a server of the plan of one tenant.
fn store_of_ann(rt: &impl Abort, alloc: Global, blocks: u32, share: u32) -> ServerStore
    ensures accounts { store_accounts result ≡ record { share = share; most_blocks = 16; most_volumes = 64; volumes = [] } ∷ [] }
    ensures blocks { result.blocks ≡ blocks }
{
    assert!(rt; 1 <= blocks && blocks <= MOST_BLOCKS);
    let grid = Grid::new(1, 1).expect(rt, "a grid");
    let name = Name::new(b"ann").expect(rt, "a name");
    let row = TenantRow {
        name,
        share,
        sessions: 1,
        steps: 10,
        most_blocks: 16,
        most_volumes: 64,
    };
    let plan = Plan::check(alloc, grid, blocks, &[row]).expect(rt, "a plan");
    ServerStore::new(alloc, &plan).expect(rt, "memory")
}

const FIRST: FileId = FileId {
    tenant: 0,
    volume: 0,
    file: 0,
};

const SECOND: FileId = FileId {
    tenant: 0,
    volume: 0,
    file: 1,
};

// The store with one volume of two files of two blocks.
fn store_of_two_files(rt: &impl Abort, alloc: Global) -> ServerStore
    ensures blocks { result.blocks ≡ 4 }
    ensures accounts { store_accounts result ≡ record { share = 4; most_blocks = 16; most_volumes = 64; volumes = record { files = 2; blocks = 2 } ∷ [] } ∷ [] }
{
    let mut store = store_of_ann(rt, alloc, 4, 4);
    store.add_files(0, 2, 2).expect(rt, "memory");
    store
}

fn tag(number: u64, session: u8) -> Tag {
    Tag { number, session }
}

// A message of session 1 in round 2 of its third operation.
fn message(file: FileId, body: Body) -> Message
    ensures { result.body ≡ body }
{
    Message {
        tenant: 0,
        session: 1,
        op: 3,
        round: 2,
        server: 0,
        file,
        body,
    }
}

fn copy(tag: Tag, bytes: &'static [u8]) -> StoredCopy {
    StoredCopy {
        tag,
        bytes: Bytes::from_static(bytes),
    }
}

// The store after four puts, of which three are kept.
fn store_after_puts(rt: &impl Abort, alloc: Global) -> ServerStore
    ensures { store_accounts result ≡ record { share = 4; most_blocks = 16; most_volumes = 64; volumes = record { files = 2; blocks = 2 } ∷ [] } ∷ [] }
{
    let mut store = store_of_two_files(rt, alloc);
    assert!(rt; store.free() == 4);
    assert!(rt; store.tag(FIRST) == Tag::first());
    assert!(rt; store.put(FIRST, tag(1, 1), &[7; 128]) == Put::Kept);
    assert!(rt; store.free() == 2);
    assert!(rt; store.put(FIRST, tag(1, 1), &[]) == Put::Older);
    assert!(rt; store.free() == 2);
    assert!(rt; store.put(SECOND, tag(1, 0), &[8; 65]) == Put::Kept);
    assert!(rt; store.free() == 0);
    assert!(rt; store.put(FIRST, tag(1, 2), &[]) == Put::Kept);
    assert!(rt; store.free() == 2);
    store
}

#[test]
fn keeps_the_greatest_copy(rt: HostRuntime) {
    let store = store_after_puts(&rt, rt.alloc());
    assert!(rt; store.len(SECOND) == 65);
    store.close();
}

#[test]
fn gives_the_content(rt: HostRuntime) {
    let mut store = store_of_two_files(&rt, rt.alloc());
    store.put(SECOND, tag(1, 0), b"abc");
    let mut out = [0; 3];
    assert!(rt; store.len(SECOND) == 3);
    store.get(SECOND, &mut out);
    assert!(rt; out == *b"abc");
    assert!(rt; store.tag(SECOND) == tag(1, 0));
}

// What is read is this, in place of what was there.
fn reads(
    rt: &impl Abort,
    store: &ServerStore,
    file: FileId,
    out: &mut Vec<u8>,
    tag: Tag,
    content: &[u8],
)
    requires { IsSome (file_limit store.now file) }
{
    assert!(rt; store.read(file, out).ok() == Some(tag));
    assert!(rt; out.as_slice() == content);
}

#[test]
fn reads_the_content_in_place_of_what_was_there(rt: HostRuntime) -> Result<(), Fail> {
    let mut store = store_of_two_files(&rt, rt.alloc());
    let mut out = slice_copied(rt.alloc(), b"longer than that")?;
    store.put(SECOND, tag(1, 0), b"abc");
    reads(&rt, &store, SECOND, &mut out, tag(1, 0), b"abc");
    store.put(SECOND, tag(2, 0), &[7; 65]);
    reads(&rt, &store, SECOND, &mut out, tag(2, 0), &[7; 65]);
    reads(&rt, &store, FIRST, &mut out, tag(0, 0), &[]);
    Ok(())
}

#[test]
fn has_a_hint_beside_each_file(rt: HostRuntime) {
    let mut store = store_of_two_files(&rt, rt.alloc());
    assert!(rt; store.hint(SECOND) == 0);
    store.leave_hint(SECOND, 7);
    store.put(SECOND, tag(1, 0), b"abc");
    assert!(rt; (store.hint(FIRST), store.hint(SECOND)) == (0, 7));
}

#[test]
fn loses_all_copies(rt: HostRuntime) -> Result<(), Fail> {
    let mut store = store_of_two_files(&rt, rt.alloc());
    let mut out = Vec::new(rt.alloc());
    store.put(FIRST, tag(1, 1), &[7; 128]);
    store.put(SECOND, tag(1, 0), b"abc");
    store.leave_hint(SECOND, 7);
    assert!(rt; store.free() == 1);
    store.lose();
    assert!(rt; store.free() == 4);
    reads(&rt, &store, FIRST, &mut out, tag(0, 0), &[]);
    reads(&rt, &store, SECOND, &mut out, tag(0, 0), &[]);
    assert!(rt; store.hint(SECOND) == 0);
    assert!(rt; store.put(SECOND, tag(1, 0), b"abc") == Put::Kept);
    reads(&rt, &store, SECOND, &mut out, tag(1, 0), b"abc");
    Ok(())
}

// A content of two blocks, which differ.
const TEXT: &[u8] =
    b"The first block of this text ends within it, and the second block has the rest.";

#[test]
fn takes_all_copies_from_a_peer(rt: HostRuntime) -> Result<(), Fail> {
    let mut store = store_of_two_files(&rt, rt.alloc());
    let mut peer = store_of_two_files(&rt, rt.alloc());
    let mut out = Vec::new(rt.alloc());
    store.put(FIRST, tag(9, 1), &[7; 128]);
    store.put(SECOND, tag(9, 1), &[8; 128]);
    peer.put(FIRST, tag(1, 0), b"abc");
    peer.put(SECOND, tag(2, 1), TEXT);
    store.take_from(&peer);
    assert!(rt; (store.free(), peer.free()) == (1, 1));
    reads(&rt, &peer, FIRST, &mut out, tag(1, 0), b"abc");
    reads(&rt, &peer, SECOND, &mut out, tag(2, 1), TEXT);
    peer.close();
    reads(&rt, &store, FIRST, &mut out, tag(1, 0), b"abc");
    reads(&rt, &store, SECOND, &mut out, tag(2, 1), TEXT);
    assert!(rt; store.put(FIRST, tag(3, 0), &[9; 128]) == Put::Kept);
    reads(&rt, &store, FIRST, &mut out, tag(3, 0), &[9; 128]);
    assert!(rt; store.free() == 0);
    Ok(())
}

// The body of the reply.
fn served(store: &mut ServerStore, file: FileId, body: Body) -> Result<Body, ServeRefused>
    requires { IsTrue (to_server body) }
    ensures { store_accounts store.new ≡ store_accounts store.old }
{
    match store.serve(&message(file, body)) {
        Ok(reply) => Ok(reply.body),
        Err(refused) => Err(refused),
    }
}

#[test]
fn serves(rt: HostRuntime) {
    let mut store = store_after_puts(&rt, rt.alloc());
    let other_volume = FileId {
        tenant: 0,
        volume: 1,
        file: 0,
    };
    assert!(rt;
        matches!(
            served(&mut store, other_volume, Body::Ask),
            Err(ServeRefused::File)
        )
    );
    let long = Body::Store(copy(tag(2, 1), &[9; 129]));
    assert!(rt; matches!(served(&mut store, FIRST, long), Err(ServeRefused::Long)));
    let late = Body::Store(copy(tag(1, 1), &[9; 64]));
    assert!(rt; matches!(served(&mut store, FIRST, late), Ok(Body::Stored)));
    assert!(rt; store.tag(FIRST) == tag(1, 2));
}

#[test]
fn serves_the_copy(rt: HostRuntime) {
    let mut store = store_of_two_files(&rt, rt.alloc());
    store.put(SECOND, tag(1, 0), b"abc");
    let told = Body::Copy(copy(tag(1, 0), b"abc"));
    assert!(rt; served(&mut store, SECOND, Body::Ask).ok() == Some(told));
}

#[derive(Drop)]
struct Servers {
    stores: Vec<ServerStore>,
}

fn crosses<T: Send>(value: T) -> T {
    value
}

#[test]
fn is_let_go_within_others(rt: HostRuntime) -> Result<(), Fail> {
    let mut servers = Servers {
        stores: Vec::new(rt.alloc()),
    };
    let mut store = store_of_two_files(&rt, rt.alloc());
    store.put(FIRST, tag(1, 1), &[7; 128]);
    servers.stores.grow(store)?;
    let _servers = crosses(servers);
    Ok(())
}
