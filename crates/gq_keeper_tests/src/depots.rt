//! A machine of chunks, line by line.

use gq_chunks::{ChunkMachine, Sweep, is_chunk_fact, taker_of};
use gq_keeper::{Lasting, Machine};
use gq_pair::Taker;
use gq_setup::{Setup, read_setup};
use gq_shelf::MemoryShelf;
use std::alloc::Global;
use std::process::Abort;

// Ann has room for 2,048 bytes, bob for none. One node of the column was lost.
const PLAN: &[u8] =
    b"grid 2 1\nblocks 16\ntenant ann 6 2 10\ntenant bob 4 1 10\ngo\nann chunks 2\nreplace 1\n";

fn setup(rt: &impl Abort, alloc: Global) -> Setup {
    read_setup(alloc, PLAN).ok().expect(rt, "a setup")
}

fn machine(rt: &impl Abort, alloc: Global, node: u16) -> ChunkMachine<MemoryShelf> {
    let first = Some(setup(rt, alloc));
    let shelf = MemoryShelf::new(alloc);
    let made = ChunkMachine::new(alloc, &setup(rt, alloc), &first, node, shelf, 0);
    made.expect(rt, "memory")
}

// The line is told this, and gives these facts.
fn tells(
    rt: &impl Abort,
    alloc: Global,
    machine: &mut ChunkMachine<MemoryShelf>,
    line: &str,
    told: &str,
    given: &str,
) {
    let mut facts = Vec::new(alloc);
    let mut out = Vec::new(alloc);
    let taken = machine.take(line.as_bytes(), &mut facts, &mut out);
    assert!(rt; taken.is_ok());
    assert_eq!(rt; std::str::from_utf8(out.as_slice()).ok(), Some(told));
    assert_eq!(rt; std::str::from_utf8(facts.as_slice()).ok(), Some(given));
}

// The line is told this, and gives no fact.
fn says(
    rt: &impl Abort,
    alloc: Global,
    machine: &mut ChunkMachine<MemoryShelf>,
    line: &str,
    told: &str,
) {
    tells(rt, alloc, machine, line, told, "")
}

fn reads(rt: &impl Abort, machine: &mut ChunkMachine<MemoryShelf>, line: &str) {
    assert!(rt; machine.recall(line.as_bytes()).is_ok(), "{line}");
}

// It keeps two contents, and forgets the first.
fn keep_two(rt: &impl Abort, alloc: Global, machine: &mut ChunkMachine<MemoryShelf>) {
    tells(
        rt,
        alloc,
        machine,
        "0 ann keep 1 5 ~a\\040b",
        "ann 0 kept 1 5 1\n",
        "chunk ann 1 5 1 =a\\sb\n",
    );
    tells(
        rt,
        alloc,
        machine,
        "0 ann keep 1 7 ~abc",
        "ann 0 kept 1 7 1\n",
        "chunk ann 1 7 1 =abc\n",
    );
}

fn forget_first(rt: &impl Abort, alloc: Global, machine: &mut ChunkMachine<MemoryShelf>) {
    tells(
        rt,
        alloc,
        machine,
        "0 ann forget 1 5 5 5",
        "ann 0 forgot 1 5 5 5\n",
        "forgot ann 1 5 5 5\n",
    );
}

#[test]
fn keeps_and_tells_chunks(rt: HostRuntime) {
    let alloc = rt.alloc();
    let mut machine = machine(&rt, alloc, 0);
    let it = &mut machine;
    keep_two(&rt, alloc, it);
    says(&rt, alloc, it, "0 ann keep 1 7 ~abc", "ann 0 kept 1 7 1\n");
    says(
        &rt,
        alloc,
        it,
        "0 ann keep 1 5 ~a",
        "ann 0 refused differs 1 5\n",
    );
    says(
        &rt,
        alloc,
        it,
        "0 ann get 1 5 0 9",
        "ann 0 got 1 5 3 0 ~a\\040b\n",
    );
    says(
        &rt,
        alloc,
        it,
        "0 ann get 1 5 1 9",
        "ann 0 got 1 5 3 1 =\\sb\n",
    );
    says(&rt, alloc, it, "0 ann get 1 6 0 9", "ann 0 none 1 6\n");
    says(&rt, alloc, it, "0 ann room", "ann 0 room 1030 2048 1 0\n");
    forget_first(&rt, alloc, it);
    says(
        &rt,
        alloc,
        it,
        "0 ann keep 1 5 ~a",
        "ann 0 refused below 1 5 5\n",
    );
    says(
        &rt,
        alloc,
        it,
        "0 ann chunks 1 0",
        "ann 0 chunks 1 0 5 7.3 end\n",
    );
}

#[test]
fn refuses_what_no_chunk_may_be(rt: HostRuntime) {
    let alloc = rt.alloc();
    let mut machine = machine(&rt, alloc, 0);
    let it = &mut machine;
    says(
        &rt,
        alloc,
        it,
        "0 ann keep 3 5 ~a",
        "ann 0 refused nosession 3 5\n",
    );
    says(
        &rt,
        alloc,
        it,
        "0 ann keep 1 5 ~",
        "ann 0 refused toolong 1 5 0\n",
    );
    says(
        &rt,
        alloc,
        it,
        "0 bob keep 1 5 ~a",
        "bob 0 refused room 1 5 0\n",
    );
    says(
        &rt,
        alloc,
        it,
        "0 ann forget 1 5 4 8",
        "ann 0 refused bad\n",
    );
    says(&rt, alloc, it, "1 ann room", "");
    says(&rt, alloc, it, "0 eve room", "");
}

#[test]
fn starts_with_the_same_chunks(rt: HostRuntime) {
    let alloc = rt.alloc();
    let mut before = machine(&rt, alloc, 0);
    keep_two(&rt, alloc, &mut before);
    forget_first(&rt, alloc, &mut before);
    let mut facts = Vec::new(alloc);
    assert!(rt; before.put_needed(&mut facts).is_ok());
    assert!(rt; facts.as_slice() == b"forgot ann 1 5 1 0\nchunk ann 1 7 1 =abc\n".as_slice());
    assert!(rt; before.content_bytes() > 0);
    let mut after = machine(&rt, alloc, 0);
    reads(&rt, &mut after, "forgot ann 1 5 1 0");
    reads(&rt, &mut after, "chunk ann 1 7 1 =abc");
    assert!(rt; after.recall(b"chunk ann 3 7 1 =abc").is_err());
    assert!(rt; after.facts() == 3);
    says(
        &rt,
        alloc,
        &mut after,
        "0 ann get 1 7 0 9",
        "ann 0 got 1 7 3 0 ~abc\n",
    );
    says(
        &rt,
        alloc,
        &mut after,
        "0 ann keep 1 5 ~a",
        "ann 0 refused below 1 5 5\n",
    );
}

#[test]
fn lacks_chunks_until_it_is_filled(rt: HostRuntime) {
    let alloc = rt.alloc();
    let mut machine = machine(&rt, alloc, 65);
    let it = &mut machine;
    assert!(rt; it.lacking() > 0);
    tells(
        &rt,
        alloc,
        it,
        "65 ann keep 1 5 ~a",
        "ann 65 kept 1 5 1\n",
        "chunk ann 1 5 0 =a\n",
    );
    says(&rt, alloc, it, "65 ann get 1 5 0 9", "ann 65 lacks 1 5\n");
    reads(&rt, it, "filled ann");
    says(
        &rt,
        alloc,
        it,
        "65 ann get 1 5 0 9",
        "ann 65 got 1 5 1 0 ~a\n",
    );
    assert!(rt; it.lacking() == 0);
}

// What a start needs is this.
fn needs(rt: &impl Abort, alloc: Global, machine: &ChunkMachine<MemoryShelf>, lines: &[u8]) {
    let mut facts = Vec::new(alloc);
    assert!(rt; machine.put_needed(&mut facts).is_ok());
    assert!(rt; facts.as_slice() == lines);
}

#[test]
fn notes_what_is_forgotten_until_it_is_filled(rt: HostRuntime) {
    let alloc = rt.alloc();
    let mut machine = machine(&rt, alloc, 65);
    let it = &mut machine;
    tells(
        &rt,
        alloc,
        it,
        "65 ann forget 1 9 5 6",
        "ann 65 forgot 1 9 5 6\n",
        "forgot ann 1 9 5 6\n",
    );
    tells(
        &rt,
        alloc,
        it,
        "65 ann forget 1 9 6 6",
        "ann 65 forgot 1 9 6 6\n",
        "forgot ann 1 9 6 6\n",
    );
    reads(&rt, it, "chunk ann 1 7 1 =abc");
    needs(
        &rt,
        alloc,
        it,
        b"forgot ann 1 9 1 0\nforgot ann 1 9 5 6\nchunk ann 1 7 1 =abc\n",
    );
    reads(&rt, it, "filled ann");
    needs(
        &rt,
        alloc,
        it,
        b"forgot ann 1 9 1 0\nchunk ann 1 7 1 =abc\nfilled ann\n",
    );
    let mut sweep = Sweep::new(alloc);
    for _ in 0..9 {
        assert!(&rt; matches!(it.sweep(&mut sweep), Ok(None)));
    }
}

#[test]
fn tells_lines_of_chunks_apart(rt: HostRuntime) {
    assert!(rt; matches!(taker_of(b"0 ann keep 1 5 ~a"), Taker::Second));
    assert!(rt; matches!(taker_of(b"0 ann write 1 1 0 0 61"), Taker::First));
    assert!(rt; matches!(taker_of(b"0 3 room"), Taker::First));
    assert!(rt; matches!(taker_of(b"0 0 tick"), Taker::Both));
    assert!(rt; matches!(taker_of(b"0 0 greet"), Taker::First));
    assert!(rt; matches!(taker_of(b"0 65 ann wants 1 5"), Taker::Second));
    assert!(rt; matches!(taker_of(b"0 65 ann fetch 1 5"), Taker::First));
    assert!(rt; is_chunk_fact(b"filled ann") && !is_chunk_fact(b"began ann 1 1024"));
}

#[test]
fn gives_its_chunks_to_a_peer(rt: HostRuntime) {
    let alloc = rt.alloc();
    let mut machine = machine(&rt, alloc, 0);
    let it = &mut machine;
    keep_two(&rt, alloc, it);
    forget_first(&rt, alloc, it);
    says(
        &rt,
        alloc,
        it,
        "0 65 ann seeks 1 1 0",
        "65 0 ann found 1 0 5 1 7 3\n",
    );
    says(
        &rt,
        alloc,
        it,
        "0 65 ann wants 1 7",
        "65 0 ann gives 1 7 ~abc\n",
    );
    says(
        &rt,
        alloc,
        it,
        "0 65 ann wants 1 5",
        "65 0 ann misses 1 5\n",
    );
    // more losses than it knows of, a node that is lost, itself, another place, no session
    for line in [
        "0 65 ann seeks 2 1 0",
        "0 1 ann wants 1 7",
        "0 0 ann wants 1 7",
        "0 2 ann wants 1 7",
        "0 65 ann wants 3 7",
    ] {
        says(&rt, alloc, it, line, "");
    }
}

#[test]
fn is_given_chunks_by_a_peer(rt: HostRuntime) {
    let alloc = rt.alloc();
    let mut machine = machine(&rt, alloc, 65);
    let it = &mut machine;
    assert!(rt; it.lacking() == 1);
    says(&rt, alloc, it, "65 0 ann wants 1 7", "");
    says(&rt, alloc, it, "65 65 tick", "0 65 ann seeks 1 1 0\n");
    tells(
        &rt,
        alloc,
        it,
        "65 0 ann found 1 0 5 1 7 3 8 1 9 2",
        "0 65 ann wants 1 7\n0 65 ann wants 1 8\n0 65 ann wants 1 9\n",
        "forgot ann 1 5 1 0\n",
    );
    tells(
        &rt,
        alloc,
        it,
        "65 0 ann gives 1 7 ~abc",
        "",
        "chunk ann 1 7 1 =abc\n",
    );
    says(&rt, alloc, it, "65 0 ann misses 1 9", "");
    says(
        &rt,
        alloc,
        it,
        "65 0 ann spoilt 1 8",
        "0 65 ann seeks 1 2 0\n",
    );
    says(&rt, alloc, it, "65 0 ann found 2 0 0 1", "");
    // one was spoilt: all is sought once more
    says(&rt, alloc, it, "65 65 tick", "");
    assert!(rt; it.lacking() == 1 && it.contents_came() == 3);
    for _pause in 0..16 {
        says(&rt, alloc, it, "65 65 tick", "");
    }
    says(&rt, alloc, it, "65 65 tick", "0 65 ann seeks 1 1 0\n");
    says(
        &rt,
        alloc,
        it,
        "65 0 ann found 1 0 5 1 7 3",
        "0 65 ann seeks 1 2 0\n",
    );
    says(&rt, alloc, it, "65 0 ann found 2 0 0 1", "");
    tells(&rt, alloc, it, "65 65 tick", "", "filled ann\n");
    assert!(rt; it.lacking() == 0);
    says(
        &rt,
        alloc,
        it,
        "65 ann get 1 7 0 9",
        "ann 65 got 1 7 3 0 ~abc\n",
    );
}
