//! Setups read, written, and compared, by hand.

use gq_keeper::Plan;
use gq_memory::{GrowCopies, slice_copied};
use gq_setup::{NodePlan, Opening, Setup, read_node_plan, read_setup};
use std::alloc::Global;
use std::process::Abort;

const TEXT: &[u8] =
    b"grid 2 2\nblocks 16\ntenant ann 6 2 10\ntenant bob 4 1 10\ngo\nann open 2 1\nbob open 1 2\nann open 1 1\n";

const NODE_TEXT: &[u8] =
    b"node 3 of 2 by 2\ngrid 2 2\nblocks 16\ntenant ann 6 2 10\ntenant bob 4 1 10\ngo\nann open 2 1\nbob open 1 2\nann open 1 1\n";

// with losses among the openings, and a tenant named as they begin
const LOSSES: &[u8] =
    b"grid 2 2\nblocks 16\ntenant replace 6 1 10\ngo\nreplace 3\nreplace open 2 1\nreplace 0\nreplace open 1 1\nreplace 3\n";

const NODE_LOSSES: &[u8] =
    b"node 131 of 2 by 2\ngrid 2 2\nblocks 16\ntenant replace 6 1 10\ngo\nreplace open 2 1\nreplace open 1 1\nreplace 3\nreplace 0\nreplace 3\n";

fn setup(rt: &impl Abort, alloc: Global, text: &[u8]) -> Setup {
    read_setup(alloc, text).ok().expect(rt, "a setup")
}

fn node_plan(rt: &impl Abort, alloc: Global, number: u16, text: &[u8]) -> NodePlan {
    let made = NodePlan::new(alloc, number, setup(rt, alloc, text)).ok();
    made.expect(rt, "memory").expect(rt, "a text for a journal")
}

// The setup opens so, in this order: for which tenant, files and blocks.
fn opens(rt: &impl Abort, read: &Setup, openings: &[(u8, u32, u32)]) {
    assert!(rt; read.openings().len() == openings.len());
    for (opening, (tenant, files, blocks)) in read.openings().iter().zip(openings) {
        let wanted = Opening {
            tenant: *tenant,
            files: *files,
            blocks: *blocks,
        };
        assert!(rt; *opening == wanted, "{opening:?}");
    }
}

// This is the text of the plan of the node of this number.
fn writes(rt: &impl Abort, alloc: Global, number: u16, text: &[u8], want: &[u8]) {
    assert!(rt;
        node_plan(rt, alloc, number, text).text() == want,
        "{number}"
    );
}

#[test]
fn reads_and_writes_a_setup(rt: HostRuntime) {
    let alloc = rt.alloc();
    let read = setup(&rt, alloc, TEXT);
    assert!(rt; read.plan().tenants() == 2);
    opens(&rt, &read, &[(0, 2, 1), (1, 1, 2), (0, 1, 1)]);
    writes(&rt, alloc, 3, TEXT, NODE_TEXT);
    // the last line may lack its newline
    writes(&rt, alloc, 3, &TEXT[..TEXT.len() - 1], NODE_TEXT);
}

// A line that opens several volumes is as many lines.
const MANY: &[u8] =
    b"grid 2 2\nblocks 16\ntenant ann 6 2 10\ntenant bob 4 1 10\ngo\nann open 2 1 times 1\nbob open 1 2\nann open 1 1 times 3\n";

const NODE_MANY: &[u8] =
    b"node 3 of 2 by 2\ngrid 2 2\nblocks 16\ntenant ann 6 2 10\ntenant bob 4 1 10\ngo\nann open 2 1\nbob open 1 2\nann open 1 1\nann open 1 1\nann open 1 1\n";

#[test]
fn reads_several_volumes_of_a_line(rt: HostRuntime) {
    let alloc = rt.alloc();
    let read = setup(&rt, alloc, MANY);
    opens(
        &rt,
        &read,
        &[(0, 2, 1), (1, 1, 2), (0, 1, 1), (0, 1, 1), (0, 1, 1)],
    );
    assert!(rt; read.volumes(0) == 4);
    writes(&rt, alloc, 3, MANY, NODE_MANY);
    let plan = node_plan(&rt, alloc, 3, MANY);
    assert!(rt; plan.goes_on(NODE_TEXT).ok() == Some(true));
}

// Room for chunks, among other lines; a tenant is named as its line says.
const CHUNKS: &[u8] =
    b"grid 2 2\nblocks 16\ntenant ann 6 2 10\ntenant chunks 4 1 10\ngo\nreplace 3\nchunks chunks 4294967295\nann open 2 1\nann chunks 7\n";

const NODE_CHUNKS: &[u8] =
    b"node 67 of 2 by 2\ngrid 2 2\nblocks 16\ntenant ann 6 2 10\ntenant chunks 4 1 10\ngo\nann open 2 1\nchunks chunks 4294967295\nann chunks 7\nreplace 3\n";

#[test]
fn reads_and_writes_room_for_chunks(rt: HostRuntime) {
    let alloc = rt.alloc();
    let read = setup(&rt, alloc, CHUNKS);
    assert!(rt; read.chunk_bytes(0) == 7 * 1024);
    assert!(rt; read.chunk_kib(1) == u32::MAX);
    assert!(rt; read.chunk_kib(2) == 0);
    writes(&rt, alloc, 67, CHUNKS, NODE_CHUNKS);
    assert!(rt; setup(&rt, alloc, TEXT).chunk_bytes(0) == 0);
}

// Whether the setup is that of LOSSES.
fn has_losses(read: &Setup) -> bool {
    read.lost().places() == [3u8, 0, 3].as_slice()
        && read.openings().len() == 2
        && read.plan().tenants() == 1
        && read.volumes(0) == 2
}

#[test]
fn reads_and_writes_losses(rt: HostRuntime) {
    let alloc = rt.alloc();
    assert!(rt; has_losses(&setup(&rt, alloc, LOSSES)));
    writes(&rt, alloc, 131, LOSSES, NODE_LOSSES);
}

fn has_these_nodes(rt: &impl Abort, read: &Setup) {
    for (number, there) in [
        (131, true),
        (64, true),
        (1, true),
        (2, true),
        (3, false),
        (67, false),
        (195, false),
        (0, false),
        (128, false),
        (4, false),
        (68, false),
        (65, false),
        (u32::MAX, false),
    ] {
        assert!(rt; read.has_node(number) == there, "{number}");
    }
}

#[test]
fn knows_its_nodes(rt: HostRuntime) {
    let read = setup(&rt, rt.alloc(), LOSSES);
    has_these_nodes(&rt, &read);
}

fn plan_of_a_journal(rt: &impl Abort, alloc: Global, text: &[u8]) -> Option<Setup> {
    read_node_plan(alloc, text).ok().expect(rt, "memory")
}

fn is_of_no_node(rt: &impl Abort, alloc: Global, text: &[u8]) {
    assert!(rt; plan_of_a_journal(rt, alloc, text).is_none());
}

#[test]
fn reads_a_plan_of_a_journal(rt: HostRuntime) {
    let alloc = rt.alloc();
    is_of_no_node(&rt, alloc, TEXT);
    let read = plan_of_a_journal(&rt, alloc, NODE_LOSSES).expect(&rt, "a setup");
    assert!(rt; has_losses(&read));
}

// The plan of one tenant with so many losses at each of the first places, in turn.
fn text_of_losses(rt: &impl Abort, alloc: Global, times: u32, places: u32) -> Vec<u8> {
    let mut text = slice_copied(alloc, b"grid 8 8\nblocks 4\ntenant ann 4 1 1\ngo\n")
        .ok()
        .expect(rt, "memory");
    for _ in 0..times {
        for place in 0..places {
            let line = format!(in alloc; "replace {place}\n").ok();
            let line = line.expect(rt, "memory");
            text.grow_by(line.as_bytes()).ok().expect(rt, "memory");
        }
    }
    text
}

// What is told of a text that is no setup.
fn fault_of(rt: &impl Abort, alloc: Global, text: &[u8]) -> Vec<u8> {
    let fault = read_setup(alloc, text).err().expect(rt, "a fault");
    let line = format!(in alloc; "{fault}").ok().expect(rt, "memory");
    slice_copied(alloc, line.as_bytes())
        .ok()
        .expect(rt, "memory")
}

// This is told of too many losses.
fn refuses(rt: &impl Abort, alloc: Global, times: u32, places: u32, want: &[u8]) {
    let text = text_of_losses(rt, alloc, times, places);
    assert!(rt; fault_of(rt, alloc, text.as_slice()).as_slice() == want);
}

// So many losses are read, and this node is the last.
fn takes(rt: &impl Abort, alloc: Global, times: u32, places: u32, losses: usize, last: u32) {
    let text = text_of_losses(rt, alloc, times, places);
    let read = setup(rt, alloc, text.as_slice());
    assert!(rt; read.lost().places().len() == losses);
    assert!(rt; read.has_node(last));
}

#[test]
fn tells_too_many_losses(rt: HostRuntime) {
    let alloc = rt.alloc();
    // at one place 14 nodes may be lost
    takes(&rt, alloc, 14, 1, 14, 896);
    refuses(&rt, alloc, 15, 1, b"line 19: replace");
    // and 255 in all
    takes(&rt, alloc, 5, 51, 255, 370);
    refuses(&rt, alloc, 4, 64, b"line 260: replace");
}

#[test]
fn tells_the_first_line_at_fault(rt: HostRuntime) {
    let alloc = rt.alloc();
    for (text, told) in [
        (
            b"grid 0 2\nblocks 16\n".as_slice(),
            b"line 1: rows".as_slice(),
        ),
        (b"grid 2 2\nblocks 16\n", b"line 3: end"),
        (b"grid 2 2\nblocks 16\ngo\n", b"line 3: notenant"),
        (
            b"grid 2 2\nblocks 4\ntenant ann 4 1 1\ngo\nann volumes\n",
            b"line 5: live",
        ),
        (
            b"grid 2 2\nblocks 4\ntenant ann 4 1 1\ngo\n\n",
            b"line 5: live",
        ),
        (
            b"grid 2 2\nblocks 4\ntenant ann 4 1 1\ngo\nserver 0 down\n",
            b"line 5: live",
        ),
        (
            b"grid 2 2\nblocks 4\ntenant ann 4 1 1\ngo\nann open 2 2\nann open 1 1\nann volumes\n",
            b"line 6: open: share, 0 blocks are left",
        ),
        (
            b"grid 2 2\nblocks 4\ntenant ann 4 1 1\ngo\nann open 0 2\n",
            b"line 5: open: files or blocks of a file",
        ),
        // several by one line
        (
            b"grid 2 2\nblocks 4\ntenant ann 4 1 1\ngo\nann open 1 1\nann open 1 2 times 2\n",
            b"line 6: open: share, 1 blocks are left",
        ),
        (
            b"grid 2 2\nroom 9\ntenant ann 9 1 1 1 3\ngo\nann open 1 1 times 4294967295\n",
            b"line 5: open: volumes",
        ),
        (
            b"grid 2 2\nblocks 4\ntenant ann 4 1 1\ngo\nann open 1 1 times 0\n",
            b"line 5: live",
        ),
        (
            b"grid 2 2\nblocks 4\ntenant ann 4 1 1\ngo\nann open 1 1 times 1 \n",
            b"line 5: live",
        ),
        (
            b"grid 2 2\nblocks 4\ntenant ann 4 1 1\ngo\neve open 1 1 times 1\n",
            b"line 5: live",
        ),
        // no number, none of the grid, one row
        (
            b"grid 2 2\nblocks 4\ntenant ann 4 1 1\ngo\nreplace one\n",
            b"line 5: replace",
        ),
        (
            b"grid 2 2\nblocks 4\ntenant ann 4 1 1\ngo\nann open 1 1\nreplace 01\n",
            b"line 6: replace",
        ),
        (
            b"grid 2 2\nblocks 4\ntenant ann 4 1 1\ngo\nreplace 3\nreplace 4\n",
            b"line 6: replace",
        ),
        (
            b"grid 1 4\nblocks 4\ntenant ann 4 1 1\ngo\nreplace 0\n",
            b"line 5: replace",
        ),
        // no tenant, none, no number of 32 bits, a second line, other words
        (
            b"grid 2 2\nblocks 4\ntenant ann 4 1 1\ngo\neve chunks 1\n",
            b"line 5: chunks",
        ),
        (
            b"grid 2 2\nblocks 4\ntenant ann 4 1 1\ngo\nann chunks 0\n",
            b"line 5: chunks",
        ),
        (
            b"grid 2 2\nblocks 4\ntenant ann 4 1 1\ngo\nann chunks 4294967296\n",
            b"line 5: chunks",
        ),
        (
            b"grid 2 2\nblocks 4\ntenant ann 4 1 1\ngo\nann chunks 5\nann open 1 1\nann chunks 6\n",
            b"line 7: chunks",
        ),
        (
            b"grid 2 2\nblocks 4\ntenant ann 4 1 1\ngo\nann chunks 1 1\n",
            b"line 5: live",
        ),
        // no line of two words
        (
            b"grid 2 2\nblocks 4\ntenant ann 4 1 1\ngo\nreplace\n",
            b"line 5: live",
        ),
        (
            b"grid 2 2\nblocks 4\ntenant ann 4 1 1\ngo\nreplace 1 \n",
            b"line 5: live",
        ),
        (
            b"grid 2 2\nblocks 4\ntenant replace 4 1 1\ngo\nreplace 1 1\n",
            b"line 5: live",
        ),
        (
            b"grid 2 2\nblocks 4\ntenant replace 4 1 1\ngo\nreplace volumes\n",
            b"line 5: replace",
        ),
    ] {
        let line = fault_of(&rt, alloc, text);
        assert!(rt; line.as_slice() == told, "{told:?}");
    }
}

// The plan goes on from a journal of which each of these is the last plan, or from none of them.
fn goes_on(rt: &impl Abort, plan: &NodePlan, last: &[&str], goes: bool) {
    for last in last {
        let told = plan.goes_on(last.as_bytes()).ok();
        assert!(rt; told == Some(goes), "{last}");
    }
}

// Last plans from which the plan of TEXT goes on.
const BEFORE_TEXT: [&str; 5] = [
    "node 3 of 2 by 2\ngrid 2 2\nblocks 16\ntenant ann 6 2 10\ngo\n",
    "x\ngrid 2 2\nblocks 16\ntenant ann 6 2 10\ntenant bob 4 1 10\ngo\n",
    "x\ngrid 2 2\nblocks 16\ntenant ann 5 2 10\ntenant bob 4 1 99\ngo\nbob open 1 2\nann open 2 1\n",
    "x\ngrid 2 2\nblocks 16\ntenant ann 6 2 10\ngo\nann open 2 1\nann open 1 1\n",
    // fewer blocks
    "x\ngrid 2 2\nblocks 15\ntenant ann 6 2 10\ngo\n",
];

// Some from which it does not.
const NOT_BEFORE_TEXT: [&str; 13] = [
    // a volume more, another volume, another order
    "x\ngrid 2 2\nblocks 16\ntenant ann 6 2 10\ngo\nann open 2 1\nann open 1 1\nann open 1 1\n",
    "x\ngrid 2 2\nblocks 16\ntenant ann 6 2 10\ngo\nann open 1 2\n",
    "x\ngrid 2 2\nblocks 16\ntenant ann 6 2 10\ngo\nann open 1 1\nann open 2 1\n",
    // a larger share, other sessions, another name, another place, a tenant more
    "x\ngrid 2 2\nblocks 16\ntenant ann 7 2 10\ngo\n",
    "x\ngrid 2 2\nblocks 16\ntenant ann 6 1 10\ngo\n",
    "x\ngrid 2 2\nblocks 16\ntenant eve 6 2 10\ngo\n",
    "x\ngrid 2 2\nblocks 16\ntenant bob 4 1 10\ntenant ann 6 2 10\ngo\n",
    "x\ngrid 2 2\nblocks 16\ntenant ann 6 2 10\ntenant bob 4 1 10\ntenant eve 1 1 10\ngo\n",
    // another grid, more blocks, no setup
    "x\ngrid 2 3\nblocks 16\ntenant ann 6 2 10\ngo\n",
    "x\ngrid 2 2\nblocks 17\ntenant ann 6 2 10\ngo\n",
    "x\ngrid 2 2\nblocks 16\ntenant ann 6 2 10\ngo\nann volumes\n",
    "x",
    "",
];

#[test]
fn goes_on_where_no_home_and_no_volume_moves(rt: HostRuntime) {
    let plan = node_plan(&rt, rt.alloc(), 3, TEXT);
    goes_on(&rt, &plan, &BEFORE_TEXT, true);
    goes_on(&rt, &plan, &NOT_BEFORE_TEXT, false);
    let own = plan.goes_on(NODE_TEXT).ok();
    assert!(rt; own == Some(true));
}

// Last plans from which the plan of CHUNKS goes on.
const BEFORE_CHUNKS: [&str; 3] = [
    "x\ngrid 2 2\nblocks 16\ntenant ann 6 2 10\ngo\n",
    "x\ngrid 2 2\nblocks 16\ntenant ann 6 2 10\ntenant chunks 4 1 10\ngo\nann chunks 7\nchunks chunks 1\n",
    "x\ngrid 2 2\nblocks 16\ntenant ann 6 2 10\ngo\nann chunks 6\nreplace 3\n",
];

// Some from which it does not: more room, also of the later tenant alone.
const NOT_BEFORE_CHUNKS: [&str; 2] = [
    "x\ngrid 2 2\nblocks 16\ntenant ann 6 2 10\ngo\nann chunks 8\n",
    "x\ngrid 2 2\nblocks 16\ntenant ann 6 2 10\ntenant chunks 4 1 10\ngo\nchunks chunks 4294967295\nann chunks 8\n",
];

#[test]
fn goes_on_with_no_less_room_for_chunks(rt: HostRuntime) {
    let plan = node_plan(&rt, rt.alloc(), 67, CHUNKS);
    goes_on(&rt, &plan, &BEFORE_CHUNKS, true);
    goes_on(&rt, &plan, &NOT_BEFORE_CHUNKS, false);
}

// Last plans from which the plan of LOSSES goes on.
const BEFORE_LOSSES: [&str; 2] = [
    "x\ngrid 2 2\nblocks 16\ntenant replace 6 1 10\ngo\nreplace open 2 1\n",
    "x\ngrid 2 2\nblocks 16\ntenant replace 6 1 10\ngo\nreplace 3\nreplace 0\n",
];

// Some from which it does not.
const NOT_BEFORE_LOSSES: [&str; 3] = [
    // other losses, another order, one more
    "x\ngrid 2 2\nblocks 16\ntenant replace 6 1 10\ngo\nreplace 2\n",
    "x\ngrid 2 2\nblocks 16\ntenant replace 6 1 10\ngo\nreplace 0\nreplace 3\n",
    "x\ngrid 2 2\nblocks 16\ntenant replace 6 1 10\ngo\nreplace 3\nreplace 0\nreplace 3\nreplace 3\n",
];

#[test]
fn goes_on_with_more_losses(rt: HostRuntime) {
    let plan = node_plan(&rt, rt.alloc(), 131, LOSSES);
    goes_on(&rt, &plan, &BEFORE_LOSSES, true);
    goes_on(&rt, &plan, &NOT_BEFORE_LOSSES, false);
}
