//! Rows of tenants, by place and by name.

ghost use Rattle.std.specs.Prelude.{◌≡◌, ◌++◌, ◌∷◌, ◌<◌, [], false, true, IfOk, IfSome, OnOk, OnErr, length};
ghost use Rattle.std.specs.List.{list_all, list_any, position_from};
ghost use Rattle.gq_desk.specs.Plans.{is_of, is_named};

use crate::names::word_number;
use crate::plans::TenantRow;
use gq_memory::{GrowIndexSet, OutOfMemory, RoomInVec, set_copied, slice_copied};
use indexmap::IndexSet;
use std::alloc::Global;
use std::marker::Model;

// Rows in order. A name is found without a walk, by its number.
#[derive(Debug, Drop)]
pub struct Rows {
    rows: Vec<TenantRow>,
    numbers: IndexSet<u128>,
}

impl Model for Rows {
    ghost use Rattle.std.specs.Prelude.{◌≡◌, List, map, true};
    ghost use Rattle.std.specs.List.{list_all};
    ghost use Rattle.indexmap.specs.IndexSet.{keys};
    ghost use Rattle.gq_desk.specs.declared.plans.TenantRow.{TenantRow};
    ghost use Rattle.gq_desk.specs.NameNumbers.{word_number};
    ghost use Rattle.gq_desk.specs.Plans.{is_named};

    ghost Value = { List TenantRow };

    ghost view = { λ r. r.rows.items };

    ghost invariant = { λ r. (keys r.numbers ≡ map (λ row. word_number row.name) r.rows.items) × (list_all is_named r.rows.items ≡ true) };
}

impl Rows {
    // No row.
    pub fn new(alloc: Global) -> Rows
        ensures { result ≡ [] }
    {
        Rows {
            rows: Vec::new(alloc),
            numbers: IndexSet::new(alloc),
        }
    }

    // Whether a row is of the word.
    pub fn has(&self, word: &[u8]) -> bool
        ensures { result ≡ list_any (is_of word.now) self.now }
    {
        self.place(word).is_some()
    }

    // The place of the first row of the word.
    pub fn place(&self, word: &[u8]) -> Option<usize>
        ensures place { result ≡ position_from (is_of word.now) 0 self.now }
        ensures within { IfSome result (λ place. place < length self.now) }
    {
        let numbers = &self.numbers;
        numbers.get_index_of(&word_number(word)?)
    }

    // Adds a row of a new name.
    pub fn push(&mut self, row: TenantRow) -> Result<(), OutOfMemory>
        requires { list_any (is_of row.name) self.old ≡ false }
        ensures ok { OnOk result (self.new ≡ self.old ++ row ∷ []) }
        ensures err { OnErr result (self.new ≡ self.old) }
    {
        self.rows.make_room(1)?;
        self.numbers.grow(row.name.number())?;
        self.rows.push_reserved(row);
        Ok(())
    }

    // The rows in order.
    pub fn as_slice(&self) -> &[TenantRow]
        ensures rows { result.now ≡ self.now }
        ensures named { list_all is_named result.now ≡ true }
    {
        self.rows.as_slice()
    }

    // The same rows.
    pub fn copy(&self, alloc: Global) -> Result<Rows, OutOfMemory>
        ensures { IfOk result (λ rows. rows ≡ self.now) }
    {
        Ok(Rows {
            rows: slice_copied(alloc, self.rows.as_slice())?,
            numbers: set_copied(&self.numbers)?,
        })
    }
}
