//! A journal in memory, for tests: it stops at a call.

ghost use Rattle.std.specs.Prelude.{◌≡◌, ◌≤◌, [], length, take, IfOk, IsErrOf, OnOk, OnErr};
ghost use Rattle.gq_keeper.specs.Notes.{seen_in, synced_in, appended};

use crate::notes::Notes;
use crate::{Disk, Fault, Log};
use gq_memory::{GrowCopies, slice_copied};
use std::alloc::Global;

/// A journal in memory. After so many calls each one fails; an append that fails has put half of the bytes.
#[derive(Drop)]
pub struct MemoryDisk {
    bytes: Vec<u8>,
    sure: usize,
    calls: usize,
    notes: Notes,
    ghost within: { sure ≤ length bytes.items },
    ghost seen_is: { seen_in notes.instants ≡ bytes.items },
    ghost synced_is: { synced_in notes.instants ≡ take sure bytes.items },
}

impl MemoryDisk {
    /// A journal that a crash left, which answers so many calls.
    pub fn new(bytes: Vec<u8>, calls: usize) -> MemoryDisk {
        let mut notes = Notes::new();
        notes.is_opened(bytes.as_slice());
        MemoryDisk {
            bytes,
            sure: 0,
            calls,
            notes,
        }
    }

    /// What a crash leaves that loses nothing.
    pub fn bytes(&self) -> &[u8]
        ensures { result.now ≡ self.now.bytes.items }
    {
        self.bytes.as_slice()
    }

    /// What a crash leaves that loses all that it may.
    pub fn sure_bytes(&self) -> &[u8]
        ensures { result.now ≡ take self.now.sure self.now.bytes.items }
    {
        &self.bytes[..self.sure]
    }

    // Whether the call is answered.
    fn goes(&mut self) -> bool
        ensures bytes { self.new.bytes ≡ self.old.bytes }
        ensures sure { self.new.sure ≡ self.old.sure }
        ensures notes { self.new.notes ≡ self.old.notes }
    {
        if self.calls == 0 {
            return false;
        }
        self.calls -= 1;
        true
    }

    // Puts the bytes.
    fn put(&mut self, bytes: &[u8]) -> Result<(), Fault>
        ensures ok { OnOk result (self.new.notes.instants ≡ appended bytes.now self.old.notes.instants) }
        ensures err { OnErr result (self.new.notes.instants ≡ self.old.notes.instants) }
        ensures full { ¬ IsErrOf result Fault.Full }
    {
        self.bytes.grow_by(bytes)?;
        self.notes.appends(bytes);
        Ok(())
    }
}

impl Log for MemoryDisk {
    ghost use Rattle.gq_keeper.specs.Instants.{LeftSince, only_now};

    ghost seen = { λ d. seen_in d.notes.instants };

    ghost synced = { λ d. synced_in d.notes.instants };

    ghost instant = { λ d. length d.notes.instants };

    ghost left_since = { λ d. LeftSince d.notes.instants };

    ghost only_now = { λ d left now. only_now d.notes.instants left now };

    fn size(&self) -> usize {
        self.bytes.len()
    }

    fn append(&mut self, bytes: &[u8]) -> Result<(), Fault> {
        if !self.goes() {
            self.put(&bytes[..bytes.len() / 2])?;
            return Err(Fault::JournalWrite);
        }
        self.put(bytes)
    }

    fn sync(&mut self) -> Result<(), Fault> {
        if !self.goes() {
            return Err(Fault::JournalWrite);
        }
        self.sure = self.bytes.len();
        self.notes.makes_sure();
        Ok(())
    }
}

impl Disk for MemoryDisk {
    fn read(&mut self, alloc: Global) -> Result<Vec<u8>, Fault> {
        if !self.goes() {
            return Err(Fault::JournalRead);
        }
        self.sure = self.bytes.len();
        self.notes.makes_sure();
        Ok(slice_copied(alloc, self.bytes.as_slice())?)
    }

    fn cut(&mut self, len: usize) -> Result<(), Fault> {
        self.sure = self.sure.min(len);
        self.bytes.truncate(len);
        self.notes.may_be_cut(len);
        self.notes.is_cut(len);
        if !self.goes() {
            return Err(Fault::JournalWrite);
        }
        Ok(())
    }

    fn replace(&mut self, bytes: &[u8]) -> Result<(), Fault> {
        if !self.goes() {
            return Err(Fault::JournalWrite);
        }
        let next = slice_copied(*self.bytes.allocator(), bytes)?;
        self.notes.may_be_replaced(bytes);
        self.sure = next.len();
        self.bytes = next;
        self.notes.is_replaced(bytes);
        Ok(())
    }
}
