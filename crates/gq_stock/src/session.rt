//! The chunks of one session at a server.

ghost use Rattle.std.specs.Prelude.{◌≡◌, ◌<◌, ◌≤◌, ℕ, None, Some, true, false, IfNone, IfSome, IsSome, length};
ghost use Rattle.std.specs.Option.{option_copied};
ghost use Rattle.gq_stock.specs.Segments.{lies_in, has_in, NoneIn, SomeIn};

use crate::Chunk;
use gq_ledger::Ledger;
use gq_shelf::Place;
use std::alloc::Global;

/// The chunks of one session at a server. Contracts see them as a book of what is held (`gq_ledger`).
#[derive(Drop)]
pub struct Session {
    pub(crate) chunks: Ledger<Chunk>,
}

// Whether the content lies in this segment of the shelf.
fn lies_in(place: &Place, segment: u32) -> bool
    ensures { result ≡ lies_in segment place.now }
{
    match place {
        Place::Fresh(_) => false,
        Place::Shelved(extent) => extent.segment == segment,
    }
}

impl Session {
    ghost use Rattle.gq_ledger.specs.Ledgers.{book_of, all_bytes, all_fresh};

    /// Nothing is there, and the floor is at 0.
    pub fn new(alloc: Global) -> Session
        ensures empty { (n : ℕ) → (book_of result.chunks).at n ≡ None }
        ensures floor { (book_of result.chunks).floor ≡ 0 }
        ensures used { all_bytes result.chunks ≡ 0 }
        ensures fresh { all_fresh result.chunks ≡ 0 }
    {
        Session {
            chunks: Ledger::new(alloc),
        }
    }

    /// What is absent and not above this number is never kept.
    pub fn floor(&self) -> u64
        ensures { result ≡ (book_of self.now.chunks).floor }
    {
        self.chunks.floor()
    }

    /// How many bytes the chunks are charged in all.
    pub fn used(&self) -> u64
        ensures { result ≡ all_bytes self.now.chunks }
    {
        self.chunks.used()
    }

    /// How many bytes of the chunks are in memory.
    pub fn fresh(&self) -> u64
        ensures { result ≡ all_fresh self.now.chunks }
    {
        self.chunks.fresh()
    }

    /// How many chunks there are.
    pub fn count(&self) -> usize
        ensures { result ≡ length self.now.chunks.chunks.entries }
    {
        self.chunks.count()
    }

    /// The chunk of this number.
    pub fn get(&self, number: u64) -> Option<&Chunk>
        ensures { option_copied result ≡ (book_of self.now.chunks).at number }
    {
        self.chunks.get(number)
    }

    /// The first chunk above this number.
    pub fn after(&self, number: u64) -> Option<(u64, &Chunk)>
        ensures there { IfSome result (λ x. (book_of self.now.chunks).at x.0 ≡ Some x.1.now) }
        ensures above { IfSome result (λ x. number < x.0) }
        ensures least { IfSome result (λ x. (m : ℕ) → number < m → IsSome ((book_of self.now.chunks).at m) → x.0 ≤ m) }
        ensures none { IfNone result ((m : ℕ) → number < m → (book_of self.now.chunks).at m ≡ None) }
    {
        self.chunks.after(number)
    }

    // Whether the chunk of this number lies in this segment.
    fn has_in(&self, number: u64, segment: u32) -> bool
        ensures { result ≡ has_in segment ((book_of self.now.chunks).at number) }
    {
        match self.chunks.get(number) {
            Some(chunk) => lies_in(&chunk.place, segment),
            None => false,
        }
    }

    /// Whether a chunk lies in this segment of the shelf. It looks at each of them.
    pub fn lies_in(&self, segment: u32) -> bool
        ensures some { result ≡ true → SomeIn segment (book_of self.now.chunks) }
        ensures none { result ≡ false → NoneIn segment (book_of self.now.chunks) }
    {
        if self.has_in(0, segment) {
            return true;
        }
        let mut last = 0;
        while let Some((number, chunk)) = self.after(last) {
            if lies_in(&chunk.place, segment) {
                return true;
            }
            last = number;
        }
        false
    }
}
