//! The growths of an index set.
ghost use Rattle.std.specs.Prelude.{◌≡◌, ◌+◌, ◌<◌, ◌≤◌, true, false, not, if◌then◌else◌, IsOk, IfOk, OnOk, OnErr};
ghost use Rattle.indexmap.specs.IndexSet.{keys, index_set_len, spare, hasher_of, contains, insert_key, IsUnique, IsUnchanged, Updates};

use crate::OutOfMemory;
use indexmap::IndexSet;
use std::hash::Hash;

/// A set that grows.
pub trait GrowIndexSet<T> {
    /// Adds the value, and answers whether it is new.
    fn grow(&mut self, value: T) -> Result<bool, OutOfMemory>;
}

impl<T: Eq + Hash + Drop> GrowIndexSet<T> for IndexSet<T> {
    #[inline(always)]
    fn grow(&mut self, value: T) -> Result<bool, OutOfMemory>
        ensures added { IfOk result (λ r. r ≡ not (contains T.eq self.old value)) }
        ensures updates { OnOk result (Updates T.eq self.old self.new value true) }
        ensures keys { IfOk result (λ r. self.new.keys ≡ insert_key T.eq self.old.keys value) }
        ensures len { IfOk result (λ r. index_set_len self.new ≡ index_set_len self.old + (if r then 1 else 0)) }
        ensures err { OnErr result (IsUnchanged self.old self.new) }
        ensures absent { OnErr result (contains T.eq self.old value ≡ false) }
        ensures succeeds { 0 < spare self.old → IsOk result }
        ensures unique { IsUnique T.eq self.new }
    {
        match self.insert(value) {
            Ok(added) => Ok(added),
            Err(failed) => Err(OutOfMemory {
                refused: failed.into(),
            }),
        }
    }
}

/// A set of the same numbers.
pub fn set_copied(set: &IndexSet<u128>) -> Result<IndexSet<u128>, OutOfMemory>
    ensures keys { IfOk result (λ copy. copy.keys ≡ set.now.keys) }
{
    match set.clone() {
        Ok(copy) => Ok(copy),
        Err(refused) => Err(OutOfMemory { refused }),
    }
}
