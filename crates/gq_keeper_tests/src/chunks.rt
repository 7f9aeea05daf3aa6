//! Each fact of chunks as a line, and each request, by hand.

use crate::facts::plan;
use gq_chunks::{
    ChunkRequest, put_chunk_fact, put_peer_line, read_chunk_fact, read_chunk_request,
    read_peer_line,
};
use gq_memory::GrowCopies;
use std::alloc::Global;
use std::process::Abort;

// The line that is read of the line without its newline, or nothing.
fn again(rt: &impl Abort, alloc: Global, line: &[u8]) -> Vec<u8> {
    let plan = plan(rt, alloc);
    let mut out = Vec::new(alloc);
    if let Some((tenant, fact)) = read_chunk_fact(alloc, line, &plan).expect(rt, "memory") {
        put_chunk_fact(&mut out, &plan, tenant, &fact).expect(rt, "memory");
    }
    out
}

fn is_kept(rt: &impl Abort, alloc: Global, text: &[u8], content: &[u8]) -> bool {
    match read_chunk_request(alloc, text).expect(rt, "memory") {
        Some(
            ChunkRequest::Keep {
                session,
                number,
                bytes,
            },
        ) => session == 2 && number == 5 && bytes.as_slice() == content,
        _ => false,
    }
}

fn is_request(rt: &impl Abort, alloc: Global, text: &[u8]) -> bool {
    read_chunk_request(alloc, text)
        .expect(rt, "memory")
        .is_some()
}

#[test]
fn reads_and_writes_facts_of_chunks(rt: HostRuntime) {
    let alloc = rt.alloc();
    let fresh = again(&rt, alloc, b"chunk ann 2 18446744073709551615 1 =\\na");
    assert!(rt; fresh.as_slice() == b"chunk ann 2 18446744073709551615 1 =\\na\n".as_slice());
    let shelved = again(
        &rt,
        alloc,
        b"extent ann 1 7 0 3 268435456 1048576 18446744073709551615",
    );
    assert!(rt;
        shelved.as_slice()
            == b"extent ann 1 7 0 3 268435456 1048576 18446744073709551615\n".as_slice()
    );
    let forgot = again(&rt, alloc, b"forgot ann 1 9 4 8");
    assert!(rt; forgot.as_slice() == b"forgot ann 1 9 4 8\n".as_slice());
    assert!(rt; again(&rt, alloc, b"filled ann").as_slice() == b"filled ann\n".as_slice());
    assert!(rt; again(&rt, alloc, b"chunk ann 1 7 2 =a").is_empty());
    assert!(rt; again(&rt, alloc, b"filled bob").is_empty());
}

#[test]
fn reads_requests_of_chunks(rt: HostRuntime) {
    let alloc = rt.alloc();
    assert!(rt; is_kept(&rt, alloc, b" keep 2 5 ~a\\040b\\n", b"a b\n"));
    assert!(rt; is_kept(&rt, alloc, b" keep 2 5 =\\sb", b" b"));
    assert!(rt; is_kept(&rt, alloc, b" keep 2 5 6162", b"ab"));
    assert!(rt; is_request(&rt, alloc, b" get 1 7 0 1048576"));
    assert!(rt;
        is_request(&rt, alloc, b" forget 1 9 4 9") && !is_request(&rt, alloc, b" forget 1 9 4 10")
    );
    assert!(rt; is_request(&rt, alloc, b" chunks 1 0") && is_request(&rt, alloc, b" room"));
    assert!(rt;
        !is_request(&rt, alloc, b" keep 2 5 ~a\\041") && !is_request(&rt, alloc, b" room 1")
    );
}

// The line that is read of these words, to node 2 by node 65 about ann, or nothing.
fn said(rt: &impl Abort, alloc: Global, text: &[u8]) -> Vec<u8> {
    let plan = plan(rt, alloc);
    let mut out = Vec::new(alloc);
    if let Some(line) = read_peer_line(alloc, text).expect(rt, "memory") {
        put_peer_line(&mut out, &plan, 65, 2, 0, &line).expect(rt, "memory");
    }
    out
}

#[test]
fn reads_and_writes_lines_between_peers(rt: HostRuntime) {
    let alloc = rt.alloc();
    for text in [
        b" seeks 3 1 18446744073709551615".as_slice(),
        b" found 1 0 7 0 8 1048576 9 1",
        b" found 1 0 7 1",
        b" wants 1 8",
        b" gives 1 8 ~a\\040b",
        b" misses 1 8",
        b" spoilt 1 8",
    ] {
        let mut line = Vec::new(alloc);
        line.grow_by(b"2 65 ann").expect(&rt, "memory");
        line.grow_by(text).expect(&rt, "memory");
        line.grow_by(b"\n").expect(&rt, "memory");
        assert!(rt; said(&rt, alloc, text).as_slice() == line.as_slice());
    }
    for text in [
        b" found 1 0 7 2".as_slice(),
        b" found 1 0 7 1 8",
        b" seeks 1 0",
        b" wants 1 8 9",
        b" gives 1 8 x",
        b" gave 1 8 ~a",
    ] {
        assert!(rt; said(&rt, alloc, text).is_empty());
    }
}
