//! What a shelf is taken to hold: notes that only clauses read.

ghost use Rattle.std.specs.Prelude.{◌≡◌};
ghost use Rattle.std.specs.Borrow.{ftrue};
ghost use Rattle.gq_shelf.specs.Notes.{Noted, none_noted, after_put, after_read, after_sync, after_damage, after_failure, after_refusal, noted_by};

use crate::{Extent, ShelfFault};
use std::marker::{Model, PhantomData};

/// What a shelf was taken to hold. No memory holds it: what it says of a file is argued at each note.
#[derive(Drop)]
pub struct Notes {
    marker: PhantomData<u8>,
    pub ghost noted: { Noted },
}

impl Model for Notes {
    ghost also_owns = { λ _. ftrue };
}

impl Notes {
    /// Nothing was noted.
    pub(crate) fn new() -> Notes
        ensures { result.noted ≡ none_noted }
    {
        Notes {
            marker: PhantomData,
        }
    }

    // Which note it is, and an extent; bytes.
    fn note(&mut self, _numbers: &[u64], _bytes: &[u8])
        ensures { self.new.noted ≡ noted_by _numbers.now _bytes.now self.old.noted }
    {}

    // The content was put there.
    pub(crate) fn puts(&mut self, extent: &Extent, bytes: &[u8])
        ensures { self.new.noted ≡ after_put extent.now bytes.now self.old.noted }
    {
        self.note(
            &[
                0,
                u64::from(extent.segment),
                extent.at,
                u64::from(extent.len),
                extent.sum,
            ],
            bytes,
        )
    }

    // The content was read there.
    pub(crate) fn reads(&mut self, extent: &Extent, bytes: &[u8])
        ensures { self.new.noted ≡ after_read extent.now bytes.now self.old.noted }
    {
        self.note(
            &[
                1,
                u64::from(extent.segment),
                extent.at,
                u64::from(extent.len),
                extent.sum,
            ],
            bytes,
        )
    }

    // It was made sure of all that was put.
    pub(crate) fn makes_sure(&mut self)
        ensures { self.new.noted ≡ after_sync self.old.noted }
    {
        self.note(&[2], &[])
    }

    // A read found damage there.
    pub(crate) fn finds_damage(&mut self, extent: &Extent)
        ensures { self.new.noted ≡ after_damage extent.now self.old.noted }
    {
        self.note(
            &[
                3,
                u64::from(extent.segment),
                extent.at,
                u64::from(extent.len),
                extent.sum,
            ],
            &[],
        )
    }

    // A call was refused by memory or the system.
    pub(crate) fn is_refused(&mut self)
        ensures { self.new.noted ≡ after_refusal self.old.noted }
    {
        self.note(&[4], &[])
    }

    // A read failed there.
    pub(crate) fn fails(&mut self, extent: &Extent, fault: &ShelfFault)
        ensures { self.new.noted ≡ after_failure fault.now extent.now self.old.noted }
    {
        match fault {
            ShelfFault::Damaged(_) => self.finds_damage(extent),
            ShelfFault::Memory(_) | ShelfFault::Read | ShelfFault::Write | ShelfFault::Full => {
                self.is_refused()
            }
        }
    }
}
