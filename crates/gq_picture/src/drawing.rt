//! A drawing of operations on a file, in the order in which a single register gives the same answers.

ghost use Rattle.std.specs.Prelude.{◌≡◌, List, IfOk, map};
ghost use Rattle.gq_laws.specs.declared.ops.Op.{Op};
ghost use Rattle.gq_laws.specs.Operations.{Legal, ops_at};
ghost use Rattle.gq_picture.specs.Counts.{AreColumns};
ghost use Rattle.gq_picture.specs.Drawing.{IsDrawing, bar_of, bars, is_write_at, outage_of, values_from};
ghost use Rattle.gq_picture.specs.Laws.{TellsNoLie};

use crate::Absence;
use crate::columns::Columns;
use gq_laws::{Kind, Op};
use gq_memory::{GrowVec, OutOfMemory};
use std::alloc::Global;

/// An operation drawn, by its place in the list of operations: the columns of the left side of its bar, of its point, and of
/// the right side, which is that of its end, or behind all others where it did not end.
#[derive(Clone, Copy)]
pub struct Bar {
    pub place: usize,
    pub left: u128,
    pub point: u128,
    pub right: u128,
}

/// What the register holds from column to column: what the write at this place wrote, or nothing before the first one.
#[derive(Clone, Copy)]
pub struct Value {
    pub write: Option<usize>,
    pub left: u128,
    pub right: u128,
}

/// From which column to which a server was down.
#[derive(Clone, Copy)]
pub struct Outage {
    pub server: u8,
    pub left: u128,
    pub right: u128,
}

/// What is drawn: the bars in the order of the operations, what the register holds between the points of writes, when servers
/// were down, and how many columns there are. Bars and values name operations by their places in the list of them.
#[derive(Drop)]
pub struct Drawing {
    pub ops: Vec<Op>,
    pub bars: Vec<Bar>,
    pub values: Vec<Value>,
    pub outages: Vec<Outage>,
    pub columns: u128,
}

// Whether the operation at the place is there, and a write.
fn is_write_at(ops: &[Op], place: usize) -> bool
    ensures { result ≡ is_write_at ops.now place }
{
    match ops.get(place) {
        Some(a) => matches!(a.kind, Kind::Write(_)),
        None => false,
    }
}

// The bar of the operation at the place, which has so many before it, and up to which the last one begins there.
fn bar_of(columns: &Columns, before: usize, last: usize, place: usize, a: &Op) -> Bar
    ensures { (seq : List Op) → AreColumns seq columns.now → result ≡ bar_of seq before last place a.now }
{
    Bar {
        place,
        left: columns.begin(a.begin),
        point: columns.point(before, last),
        right: columns.last(a.end),
    }
}

// The bars of the operations in this order.
fn bars(
    alloc: Global,
    ops: &[Op],
    order: &[usize],
    columns: &Columns,
) -> Result<Vec<Bar>, OutOfMemory>
    requires { AreColumns (ops_at ops.now order.now) columns.now }
    ensures { IfOk result (λ drawn. drawn.items ≡ bars ops.now order.now) }
{
    let mut drawn = Vec::new(alloc);
    let mut last: usize = 0;
    for place in order {
        if let Some(a) = ops.get(*place) {
            last = last.max(a.begin);
            let bar = bar_of(columns, drawn.len(), last, *place, a);
            drawn.grow(bar)?;
        }
    }
    Ok(drawn)
}

// What the register holds between the points of these bars, of which the columns are so many.
fn values(alloc: Global, ops: &[Op], columns: u128, bars: &[Bar]) -> Result<Vec<Value>, OutOfMemory>
    ensures { IfOk result (λ drawn. drawn.items ≡ values_from ops.now columns None 0 bars.now) }
{
    let mut drawn = Vec::new(alloc);
    let mut write = None;
    let mut left: u128 = 0;
    for bar in bars {
        if is_write_at(ops, bar.place) {
            drawn.grow(Value {
                write,
                left,
                right: bar.point,
            })?;
            write = Some(bar.place);
            left = bar.point;
        }
    }
    drawn.grow(Value {
        write,
        left,
        right: columns,
    })?;
    Ok(drawn)
}

// From which column to which the server was absent.
fn outage_of(columns: &Columns, absence: &Absence) -> Outage
    ensures { (seq : List Op) → AreColumns seq columns.now → result ≡ outage_of seq absence.now }
{
    let right = match absence.until {
        Some(place) => columns.begin(place),
        None => columns.count(),
    };
    Outage {
        server: absence.server,
        left: columns.begin(absence.from),
        right,
    }
}

// The same of each absence.
fn outages(
    alloc: Global,
    columns: &Columns,
    absences: &[Absence],
) -> Result<Vec<Outage>, OutOfMemory>
    ensures { IfOk result (λ drawn. (seq : List Op) → AreColumns seq columns.now → drawn.items ≡ map (outage_of seq) absences.now) }
{
    let mut drawn = Vec::new(alloc);
    for absence in absences {
        drawn.grow(outage_of(columns, absence))?;
    }
    Ok(drawn)
}

/// The drawing of the operations in this order, which names them by their places, beside these absences of servers. Where the
/// order is legal the drawing tells no lie. It is made in a time that grows as n log n with the number of operations.
pub fn draw(
    alloc: Global,
    ops: Vec<Op>,
    order: &[usize],
    absences: &[Absence],
) -> Result<Drawing, OutOfMemory>
    ensures drawing { IfOk result (λ drawing. IsDrawing ops.items order.now absences.now drawing) }
    ensures truth { IfOk result (λ drawing. Legal ops.items order.now → TellsNoLie ops.items order.now absences.now drawing) }
{
    let columns = Columns::new(alloc, ops.as_slice(), order)?;
    let bars = bars(alloc, ops.as_slice(), order, &columns)?;
    let count = columns.count();
    let values = values(alloc, ops.as_slice(), count, bars.as_slice())?;
    let outages = outages(alloc, &columns, absences)?;
    Ok(Drawing {
        ops,
        bars,
        values,
        outages,
        columns: count,
    })
}
