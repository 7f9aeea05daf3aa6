//! The moments of operations: each begins, and ends or stays open.

ghost use Rattle.std.specs.Prelude.{◌≡◌, ◌++◌, ◌∷◌, [], List, IfOk, OnOk};
ghost use Rattle.gq_laws.specs.declared.ops.Op.{Op};
ghost use Rattle.gq_history.specs.Moments.{IsHistory, begins, ends, moments, process};
ghost use Rattle.gq_history.specs.Tables.{IsTable};

use gq_desk::MOST_SESSIONS;
use gq_laws::Op;
use gq_memory::{GrowVec, OutOfMemory, SortVec, filled};
use std::alloc::Global;

/// What becomes of an operation.
#[derive(Clone, Copy, PartialEq, Eq, PartialOrd, Ord)]
pub enum Stage {
    /// It begins.
    Begins,
    /// It ends.
    Ends,
    /// It was given up, or goes on when the lines end.
    StaysOpen,
}

/// What becomes in a line of the operation at a place of a list, and which process its session is then. Lines are those
/// behind the plan, counted from 0; what stays open stands behind the last.
#[derive(Clone, Copy, PartialEq, Eq, PartialOrd, Ord)]
pub struct Moment {
    pub line: usize,
    pub place: usize,
    pub stage: Stage,
    pub process: u64,
}

// The process that the operation's session is, where each session gave up last the operation of this number, 0 being none.
fn process_in(given_up: &[u32], a: &Op) -> u64
    ensures { (before : List Op) → IsTable before given_up.now → result ≡ process before a.now }
{
    let last = match given_up.get(a.session as usize) {
        Some(last) => *last,
        None => 0,
    };
    u64::from(a.session) + u64::from(MOST_SESSIONS) * u64::from(last)
}

// The table after one more operation.
fn note(given_up: &mut Vec<u32>, a: &Op)
    ensures { (before : List Op) → IsTable before given_up.old.items → IsTable (before ++ a.now ∷ []) given_up.new.items }
{
    let session = a.session as usize;
    if a.end.is_none() && session < given_up.len() {
        given_up[session] = a.op;
    }
}

// How the operation at the place begins.
fn begins(place: usize, a: &Op, process: u64) -> Moment
    ensures { result ≡ begins place a.now process }
{
    Moment {
        line: a.begin,
        place,
        stage: Stage::Begins,
        process,
    }
}

// How it ends, where there are so many lines.
fn ends(lines: usize, place: usize, a: &Op, process: u64) -> Moment
    ensures { result ≡ ends lines place a.now process }
{
    match a.end {
        Some(line) => Moment {
            line,
            place,
            stage: Stage::Ends,
            process,
        },
        None => Moment {
            line: lines,
            place,
            stage: Stage::StaysOpen,
            process,
        },
    }
}

// Two more moments.
fn put_both(
    all: &mut Vec<Moment>,
    lines: usize,
    place: usize,
    a: &Op,
    process: u64,
) -> Result<(), OutOfMemory>
    ensures { OnOk result (all.new.items ≡ all.old.items ++ begins place a.now process ∷ ends lines place a.now process ∷ []) }
{
    all.grow(begins(place, a, process))?;
    all.grow(ends(lines, place, a, process))?;
    Ok(())
}

// The moments of the operations in the order of these. The size of the table, one number for each session that a byte can
// tell, is a parameter, so that no proof computes a list of that length.
fn moments(alloc: Global, lines: usize, ops: &[Op], size: usize) -> Result<Vec<Moment>, OutOfMemory>
    requires { size ≡ 256 }
    ensures { IfOk result (λ all. all.items ≡ moments lines ops.now) }
{
    let mut given_up = filled(alloc, 0u32, size)?;
    let mut all = Vec::new(alloc);
    for (place, a) in ops.iter().enumerate() {
        let process = process_in(given_up.as_slice(), a);
        put_both(&mut all, lines, place, a, process)?;
        note(&mut given_up, a);
    }
    Ok(all)
}

/// The history of these operations, which stand in order of beginning, in so many lines: the beginning and the end of each,
/// in the order of the lines. An operation that did not end stays open behind the last line. A session is the process of its
/// own number, until it gave an operation up; from then on it is that number and [`MOST_SESSIONS`] times the number of the
/// operation that it gave up last. Where sessions are numbered from 1 to [`MOST_SESSIONS`], as a plan's are, no two have the same.
pub fn history(alloc: Global, lines: usize, ops: &[Op]) -> Result<Vec<Moment>, OutOfMemory>
    ensures { IfOk result (λ all. IsHistory lines ops.now all.items) }
{
    let mut all = moments(alloc, lines, ops, 256)?;
    all.sort_items()?;
    Ok(all)
}
