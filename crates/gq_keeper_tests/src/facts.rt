//! Each fact as a line, by hand.

ghost use Rattle.std.specs.Prelude.{◌≡◌};
ghost use Rattle.gq_node.specs.Recalling.{tenant_of};

use gq_desk::{Name, Plan, TenantRow};
use gq_facts::{put_fact, read_fact};
use gq_grid::Grid;
use gq_memory::{bytes_of, slice_copied};
use gq_node::Fact;
use gq_tag::{FileId, StoredCopy, Tag};
use std::alloc::Global;
use std::process::Abort;

pub(crate) fn plan(rt: &impl Abort, alloc: Global) -> Plan {
    let grid = Grid::new(2, 2).expect(rt, "a grid");
    let row = TenantRow {
        name: Name::new(b"ann").expect(rt, "a name"),
        share: 8,
        sessions: 2,
        steps: 10,
        most_blocks: 16,
        most_volumes: 64,
    };
    Plan::check(alloc, grid, 16, &[row]).expect(rt, "a plan")
}

// The line that is read of the line without its newline, or nothing.
fn again(rt: &impl Abort, alloc: Global, line: &[u8]) -> Vec<u8> {
    let plan = plan(rt, alloc);
    let mut out = Vec::new(alloc);
    if let Some(fact) = read_fact(alloc, line, &plan).expect(rt, "memory") {
        put_fact(&mut out, &plan, &fact).expect(rt, "memory");
    }
    out
}

// The line of the fact is this.
fn writes(rt: &impl Abort, alloc: Global, fact: &Fact, line: &str)
    requires { tenant_of fact.now ≡ 0 }
{
    let mut out = Vec::new(alloc);
    put_fact(&mut out, &plan(rt, alloc), fact).expect(rt, "memory");
    assert_eq!(rt; std::str::from_utf8(out.as_slice()).ok(), Some(line));
}

#[test]
fn writes_each_fact(rt: HostRuntime) {
    let alloc = rt.alloc();
    let began = Fact::Began {
        tenant: 0,
        session: 1,
        op: 4_294_967_295,
    };
    writes(&rt, alloc, &began, "began ann 1 4294967295\n");
    let numbered = Fact::Numbered {
        tenant: 0,
        session: 2,
        number: 18_446_744_073_709_551_615,
    };
    let line = "numbered ann 2 18446744073709551615\n";
    writes(&rt, alloc, &numbered, line);
    let content = slice_copied(alloc, b"\na").ok().expect(&rt, "memory");
    let kept = Fact::Kept {
        file: FileId {
            tenant: 0,
            volume: 1,
            file: 3,
        },
        copy: StoredCopy {
            tag: Tag {
                number: 18_446_744_073_709_551_615,
                session: 2,
            },
            bytes: bytes_of(content).ok().expect(&rt, "memory"),
        },
    };
    let line = "kept ann 1 3 18446744073709551615 2 =\\na\n";
    writes(&rt, alloc, &kept, line);
}

// Each line, and what is written of the fact that was read of it: nothing where it tells none.
const LINES: [(&str, &str); 18] = [
    ("began ann 1 5", "began ann 1 5\n"),
    (
        "numbered ann 1 18446744073709551615",
        "numbered ann 1 18446744073709551615\n",
    ),
    ("kept ann 0 3 7 1 0a6F", "kept ann 0 3 7 1 =\\no\n"),
    ("kept ann 0 3 7 1 -", "kept ann 0 3 7 1 -\n"),
    ("kept ann 0 3 7 1 =a\\sb", "kept ann 0 3 7 1 =a\\sb\n"),
    ("", ""),
    ("began", ""),
    ("began ann", ""),
    ("began ann 1", ""),
    ("began ann 1 5 6", ""),
    ("began ann 256 5", ""),
    ("began bob 1 5", ""),
    ("began ann 1 4294967296", ""),
    ("numbered ann 1 18446744073709551616", ""),
    ("kept ann 0 3 7 1", ""),
    ("kept ann 0 3 7 1 0aF", ""),
    ("kept ann 0 3 7 1 =a\\", ""),
    ("sync 1 2 3", ""),
];

// What is read of the line is written so.
fn reads(rt: &impl Abort, alloc: Global, line: &str, want: &str) {
    let out = again(rt, alloc, line.as_bytes());
    let seen = std::str::from_utf8(out.as_slice()).ok();
    assert_eq!(rt; seen, Some(want), "{line}");
}

#[test]
fn reads_each_fact(rt: HostRuntime) {
    let alloc = rt.alloc();
    for (line, want) in LINES {
        reads(&rt, alloc, line, want);
    }
}
