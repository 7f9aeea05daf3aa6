//! Where operations stand in a picture.

ghost use Rattle.std.specs.List.Sorted.{IsNonDecreasing};

use crate::counting::{below, up_to};
use crate::places::{begins, ends, latest};
use gq_laws::Op;
use gq_memory::{OutOfMemory, SortVec};
use std::alloc::Global;

/// The places of the beginnings and the ends of operations, and for each operation that of the last beginning up to its own,
/// each in ascending order.
#[derive(Drop)]
pub struct Columns {
    begins: Vec<usize>,
    ends: Vec<usize>,
    latest: Vec<usize>,
    ghost begins_rise: { IsNonDecreasing begins.items },
    ghost ends_rise: { IsNonDecreasing ends.items },
    ghost latest_rise: { IsNonDecreasing latest.items },
}

impl Columns {
    ghost use Rattle.std.specs.Prelude.{◌≡◌, List, IfOk};
    ghost use Rattle.gq_laws.specs.declared.ops.Op.{Op};
    ghost use Rattle.gq_laws.specs.Operations.{ops_at};
    ghost use Rattle.gq_picture.specs.Columns.{begin_column, columns, end_column, last_column, point_column};
    ghost use Rattle.gq_picture.specs.Counts.{AreColumns};

    /// The columns of the operations in this order.
    pub fn new(alloc: Global, ops: &[Op], order: &[usize]) -> Result<Columns, OutOfMemory>
        ensures { IfOk result (λ columns. AreColumns (ops_at ops.now order.now) columns) }
    {
        let mut begins = begins(alloc, ops, order)?;
        let mut ends = ends(alloc, ops, order)?;
        let latest = latest(alloc, ops, order)?;
        begins.sort_items()?;
        ends.sort_items()?;
        Ok(Columns {
            begins,
            ends,
            latest,
        })
    }

    /// The column of what begins at the place.
    pub fn begin(&self, place: usize) -> u128
        ensures { (seq : List Op) → AreColumns seq self.now → result ≡ begin_column seq place }
    {
        below(self.begins.as_slice(), place) as u128
            + below(self.ends.as_slice(), place) as u128
            + below(self.latest.as_slice(), place) as u128
    }

    // The column of what ends there.
    fn end(&self, place: usize) -> u128
        ensures { (seq : List Op) → AreColumns seq self.now → result ≡ end_column seq place }
    {
        up_to(self.begins.as_slice(), place) as u128
            + below(self.ends.as_slice(), place) as u128
            + up_to(self.latest.as_slice(), place) as u128
    }

    /// The column of a point with so many before it, right behind the place.
    pub fn point(&self, before: usize, place: usize) -> u128
        ensures { (seq : List Op) → AreColumns seq self.now → result ≡ point_column seq before place }
    {
        up_to(self.begins.as_slice(), place) as u128
            + below(self.ends.as_slice(), place) as u128
            + before as u128
    }

    /// How many columns there are.
    pub fn count(&self) -> u128
        ensures { (seq : List Op) → AreColumns seq self.now → result ≡ columns seq }
    {
        self.begins.len() as u128 + self.ends.len() as u128 + self.latest.len() as u128
    }

    /// The column of an end, or that behind all others where there is none.
    pub fn last(&self, end: Option<usize>) -> u128
        ensures { (seq : List Op) → AreColumns seq self.now → result ≡ last_column seq end }
    {
        match end {
            Some(place) => self.end(place),
            None => self.count(),
        }
    }
}
