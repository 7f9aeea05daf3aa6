//! The growth of a map that is kept in order.
ghost use Rattle.std.specs.Prelude.{◌≡◌, Some, OnOk, OnErr};
ghost use Rattle.std.specs.BTreeMap.{insert_entry, IsOrdered, IsUnchanged, Updates};

use crate::OutOfMemory;
use std::collections::BTreeMap;

/// A map that grows.
pub trait GrowMap<K, V> {
    /// Puts the value at the key, in place of what is there. A map whose growth is refused is as it was.
    fn grow_at(&mut self, key: K, value: V) -> Result<(), OutOfMemory>;
}

impl<K: Ord + Drop, V: Drop> GrowMap<K, V> for BTreeMap<K, V> {
    fn grow_at(&mut self, key: K, value: V) -> Result<(), OutOfMemory>
        ensures updates { OnOk result (Updates K.cmp self.old self.new key (Some value)) }
        ensures entries { OnOk result (self.new.entries ≡ insert_entry K.cmp self.old.entries key value) }
        ensures err { OnErr result (IsUnchanged self.old self.new) }
        ensures was_ordered { IsOrdered K.cmp self.old }
    {
        match self.insert(key, value) {
            Ok(_) => Ok(()),
            Err(failed) => Err(OutOfMemory {
                refused: failed.into(),
            }),
        }
    }
}
