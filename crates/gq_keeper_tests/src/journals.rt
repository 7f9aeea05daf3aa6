//! A journal of two batches, cut and turned at each byte. The first digest is that of `sha256sum`. The second batch has a content in
//! bytes; its sum is that of `tests/nodes/journals.py`.

use gq_journal::{can_be_sealed, first_batch, has_right_batch, is_batch_line, seal_batch};
use gq_memory::{GrowCopies, GrowVec};
use std::alloc::Global;
use std::process::Abort;

const FIRST: &str = "numbered ann 1 7\nsync 1 17 1293ef1db4f78f4e\n";

const SECOND: &str = "began ann 1 1\nkept ann 1 2 7 1 =a\\sb\nsync 2 37 008f733a4bbfc053\n";

// The text of both batches, as they are sealed.
fn journal(rt: &impl Abort, alloc: Global) -> Vec<u8> {
    let mut first = Vec::new(alloc);
    first.grow_by(b"numbered ann 1 7\n").expect(rt, "memory");
    seal_batch(&mut first, 1).expect(rt, "memory");
    let mut second = Vec::new(alloc);
    second
        .grow_by(b"began ann 1 1\nkept ann 1 2 7 1 =a\\sb\n")
        .expect(rt, "memory");
    seal_batch(&mut second, 2).expect(rt, "memory");
    first.grow_by(second.as_slice()).expect(rt, "memory");
    first
}

// How many right batches a text begins with, three at most, and what is behind them.
fn read<'x>(rt: &impl Abort, alloc: Global, text: &'x [u8]) -> (u64, &'x [u8]) {
    let mut rest = text;
    for number in 0..3u64 {
        match first_batch(alloc, rest, number + 1).expect(rt, "memory") {
            Some((_, after)) => rest = after,
            None => return (number, rest),
        }
    }
    (3, rest)
}

// The bytes, one of them turned.
fn turned(rt: &impl Abort, alloc: Global, bytes: &[u8], place: usize) -> Vec<u8> {
    let mut out = Vec::new(alloc);
    for (i, byte) in bytes.iter().enumerate() {
        let byte = if i == place { *byte ^ 1 } else { *byte };
        out.grow(byte).expect(rt, "memory");
    }
    out
}

fn is_text(rt: &impl Abort, bytes: &[u8], text: &str) {
    assert_eq!(rt; std::str::from_utf8(bytes).ok(), Some(text));
}

#[test]
fn seals_as_another_program_does(rt: HostRuntime) {
    let alloc = rt.alloc();
    let text = journal(&rt, alloc);
    let text = text.as_slice();
    let end = FIRST.len().min(text.len());
    is_text(&rt, &text[..end], FIRST);
    is_text(&rt, &text[end..], SECOND);
    let (count, rest) = read(&rt, alloc, text);
    assert_eq!(rt; (count, rest.len()), (2, 0));
}

// A text begins with so many right batches; behind these is a right one, or none.
fn has_batches(rt: &impl Abort, alloc: Global, text: &[u8], count: u64, behind: bool) {
    let (seen, rest) = read(rt, alloc, text);
    assert_eq!(rt; seen, count);
    let found = has_right_batch(alloc, rest).ok();
    assert_eq!(rt; found, Some(behind));
}

#[test]
fn passes_over_a_torn_end(rt: HostRuntime) {
    let alloc = rt.alloc();
    let text = journal(&rt, alloc);
    for end in 0..text.len() {
        let count = if end < FIRST.len() { 0 } else { 1 };
        has_batches(&rt, alloc, &text[..end], count, false);
    }
}

#[test]
fn sees_damage_before_a_right_batch(rt: HostRuntime) {
    let alloc = rt.alloc();
    let text = journal(&rt, alloc);
    for place in 0..FIRST.len() {
        let bytes = turned(&rt, alloc, text.as_slice(), place);
        has_batches(&rt, alloc, bytes.as_slice(), 0, true);
    }
}

#[test]
fn tells_which_lines_stand_in_a_batch(rt: HostRuntime) {
    let cases: [(&str, bool); 6] = [
        ("began ann 1 1", true),
        ("", true),
        ("sync open 1 1", true),
        ("sync 1 0 0", false),
        ("sync 9", false),
        ("began ann 1 1\nbegan ann 1 2", false),
    ];
    for (line, want) in cases {
        assert_eq!(rt; is_batch_line(line.as_bytes()), want, "{line}");
    }
    assert!(rt; can_be_sealed(b"began ann 1 1\nsync open 1 1\n"));
    assert!(rt; can_be_sealed(b""));
    assert!(rt; !can_be_sealed(b"began ann 1 1"));
    assert!(rt; !can_be_sealed(b"began ann 1 1\nsync 1 0 0\n"));
}
