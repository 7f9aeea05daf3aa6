//! A shelf in memory, for tests.

ghost use Rattle.std.specs.Prelude.{◌≡◌, ◌+◌, ◌≤◌, length, true, IfOk, IfSome};
ghost use Rattle.gq_shelf.specs.Extents.{Describes, place_of};

use crate::notes::Notes;
use crate::{Extent, Shelf, ShelfFault};
use bytes::Bytes;
use gq_memory::{GrowCopies, copied_bytes};
use gq_sum::sum_of;
use std::alloc::Global;

/// A shelf in memory: one segment, which is never removed.
#[derive(Drop)]
pub struct MemoryShelf {
    alloc: Global,
    bytes: Vec<u8>,
    is_broken: bool,
    notes: Notes,
}

impl MemoryShelf {
    /// Nothing is on it.
    pub fn new(alloc: Global) -> MemoryShelf {
        MemoryShelf {
            alloc,
            bytes: Vec::new(alloc),
            is_broken: false,
            notes: Notes::new(),
        }
    }

    // The bytes that lie there.
    fn found(&self, extent: &Extent) -> Option<&[u8]>
        ensures { IfSome result (λ bytes. Describes extent.now bytes.now) }
    {
        if extent.segment != 1 || extent.at > self.bytes.len() as u64 {
            return None;
        }
        let behind = &self.bytes.as_slice()[extent.at as usize..];
        if behind.len() < extent.len as usize {
            return None;
        }
        let bytes = &behind[..extent.len as usize];
        if !extent.describes(bytes) {
            return None;
        }
        Some(bytes)
    }

    // The content there.
    fn content(&self, extent: &Extent) -> Result<Bytes, ShelfFault>
        ensures { IfOk result (λ bytes. Describes extent.now bytes) }
    {
        match self.found(extent) {
            Some(bytes) => Ok(copied_bytes(self.alloc, bytes)?),
            None => Err(ShelfFault::Damaged(extent.segment)),
        }
    }
}

impl Shelf for MemoryShelf {
    ghost noted = { λ s. s.notes.noted };

    ghost end = { λ s. place_of 1 (length s.bytes.items) };

    ghost is_broken = { λ s. s.is_broken };

    fn append(&mut self, bytes: &[u8]) -> Result<Extent, ShelfFault> {
        let at = self.bytes.len() as u64;
        if self.is_broken {
            self.notes.is_refused();
            return Err(ShelfFault::Write);
        }
        if let Err(refused) = self.bytes.grow_by(bytes) {
            self.is_broken = true;
            self.notes.is_refused();
            return Err(ShelfFault::Memory(refused));
        }
        let extent = Extent {
            segment: 1,
            at,
            len: bytes.len() as u32,
            sum: sum_of(at, bytes),
        };
        self.notes.puts(&extent, bytes);
        Ok(extent)
    }

    fn sync(&mut self) -> Result<(), ShelfFault> {
        if self.is_broken {
            self.notes.is_refused();
            return Err(ShelfFault::Write);
        }
        self.notes.makes_sure();
        Ok(())
    }

    fn read(&mut self, extent: &Extent) -> Result<Bytes, ShelfFault> {
        match self.content(extent) {
            Ok(bytes) => {
                self.notes.reads(extent, bytes.as_slice());
                Ok(bytes)
            }
            Err(fault) => {
                self.notes.fails(extent, &fault);
                Err(fault)
            }
        }
    }

    fn vouch(&mut self, extent: &Extent, bytes: &[u8]) -> bool {
        let is_described = extent.describes(bytes);
        if is_described {
            self.notes.reads(extent, bytes);
        }
        is_described
    }

    fn segments(&self) -> Result<Vec<u32>, ShelfFault> {
        Ok(Vec::new(self.alloc))
    }

    fn length(&self, segment: u32) -> Result<u64, ShelfFault> {
        if segment != 1 {
            return Err(ShelfFault::Read);
        }
        Ok(self.bytes.len() as u64)
    }

    fn remove(&self, _segment: u32) -> Result<bool, ShelfFault> {
        Ok(false)
    }
}
