//! The order by tag.

use bytes::Bytes;
use gq_order::{Kind, Op, OpRef, check_order, order};
use gq_tag::Tag;
use std::alloc::Global;
use std::process::Abort;

fn wrote(content: &'static [u8]) -> Kind {
    Kind::Write(Bytes::from_static(content))
}

fn gave(content: &'static [u8]) -> Kind {
    Kind::Read(Some(Bytes::from_static(content)))
}

// The first operation of a session, with a tag of session 1.
fn op(kind: Kind, session: u8, begin: usize, end: Option<usize>, number: u64) -> Op {
    Op {
        kind,
        session,
        op: 1,
        begin,
        end,
        tag: Some(Tag { number, session: 1 }),
    }
}

// They are put in that order, which is legal.
fn has_order(rt: &impl Abort, alloc: Global, ops: &[Op], places: &[OpRef]) {
    match order(alloc, ops) {
        Ok(order) => assert!(rt; order.as_slice() == places && check_order(ops, places)),
        Err(_) => panic!(rt; "memory"),
    }
}

// An open write that a read gave, its read, an open write that none gave, and a completed write of a smaller tag.
#[test]
fn the_order_is_by_tag(rt: HostRuntime) {
    let ops = [
        op(wrote(b"b"), 1, 1, None, 2),
        op(gave(b"b"), 2, 2, Some(9), 2),
        op(wrote(b"c"), 3, 3, None, 3),
        op(wrote(b"a"), 4, 4, Some(8), 1),
    ];
    has_order(&rt, rt.alloc(), &ops, &[3, 0, 1]);
}
