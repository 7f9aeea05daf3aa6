//! The chunks of one session at a server, by their numbers.

ghost use Rattle.std.specs.Prelude.{◌≡◌, ◌+◌, ◌<◌, ◌≤◌, ◌^◌, ℕ, None, Some, IfOk, IfNone, IfSome, IsSome, OnOk, OnErr, length};
ghost use Rattle.std.specs.Option.{option_copied};
ghost use Rattle.gq_ledger.specs.Used.{used_of};

use crate::{Long, Verdict};
use gq_memory::{GrowMap, OutOfMemory};
use std::alloc::Global;
use std::collections::BTreeMap;
use std::ops::Bound;

/// The chunks of one session at a server, by their numbers: what each is, and the floor. What is absent and not above the floor is never kept.
#[derive(Drop)]
pub struct Ledger<T: Long + Drop> {
    chunks: BTreeMap<u64, T>,
    floor: u64,
    used: u64,
    fresh: u64,
    ghost counted: { used ≡ used_of T.length chunks.entries },
    ghost fresh_counted: { fresh ≡ used_of T.fresh_length chunks.entries },
}

impl<T: Long + Drop> Ledger<T> {
    ghost use Rattle.gq_ledger.specs.Steps.{Book, Leads, Keeps, Forgets, Raises, Gives};
    ghost use Rattle.gq_ledger.specs.Ledgers.{book_of, verdict_of, all_bytes, bytes_under, all_fresh, fresh_under, taken_by};
    ghost use Rattle.gq_ledger.specs.declared.verdict.Verdict.TheVariants.{Kept};

    /// Nothing is there, and the floor is at 0.
    pub fn new(alloc: Global) -> Ledger<T>
        ensures empty { (n : ℕ) → (book_of result).at n ≡ None }
        ensures floor { (book_of result).floor ≡ 0 }
        ensures used { all_bytes result ≡ 0 }
        ensures fresh { all_fresh result ≡ 0 }
    {
        Ledger {
            chunks: BTreeMap::new(alloc),
            floor: 0,
            used: 0,
            fresh: 0,
        }
    }

    /// What is absent and not above this number is never kept.
    pub fn floor(&self) -> u64
        ensures { result ≡ (book_of self.now).floor }
    {
        self.floor
    }

    /// How many bytes the chunks have in all.
    pub fn used(&self) -> u64
        ensures { result ≡ all_bytes self.now }
    {
        self.used
    }

    /// How many bytes of the chunks are in memory.
    pub fn fresh(&self) -> u64
        ensures { result ≡ all_fresh self.now }
    {
        self.fresh
    }

    /// The chunk of this number.
    pub fn get(&self, number: u64) -> Option<&T>
        ensures { option_copied result ≡ (book_of self.now).at number }
    {
        self.chunks.get(&number)
    }

    /// What would come of a content of so many bytes that is to be kept under this number, where so many are free.
    pub fn verdict(&self, number: u64, long: u64, free: u64) -> Verdict
        ensures { result ≡ verdict_of (book_of self.now) number long free }
    {
        if self.chunks.contains_key(&number) {
            Verdict::There
        } else if number <= self.floor {
            Verdict::Below
        } else if long > free {
            Verdict::Full
        } else {
            Verdict::Kept
        }
    }

    /// Keeps the chunk, if none is there under the number, this is above the floor, and it has no more bytes than are free. `Full` comes exactly where room
    /// alone is wanting. Where memory is refused nothing changes.
    pub fn keep(&mut self, number: u64, chunk: T, free: u64) -> Result<Verdict, OutOfMemory>
        requires { all_bytes self.old + free < 2 ^ 64 }
        ensures told { IfOk result (λ verdict. verdict ≡ verdict_of (book_of self.old) number (T.length chunk) free) }
        ensures leads { IfOk result (λ verdict. verdict ≡ Kept → Leads (book_of self.old) (Keeps number chunk) (book_of self.new)) }
        ensures stays { IfOk result (λ verdict. ¬ (verdict ≡ Kept) → book_of self.new ≡ book_of self.old) }
        ensures used { IfOk result (λ verdict. all_bytes self.new ≡ all_bytes self.old + taken_by verdict (T.length chunk)) }
        ensures fresh { IfOk result (λ verdict. all_fresh self.new ≡ all_fresh self.old + taken_by verdict (T.fresh_length chunk)) }
        ensures unchanged { OnErr result (book_of self.new ≡ book_of self.old) }
        ensures as_used { OnErr result (all_bytes self.new ≡ all_bytes self.old) }
        ensures as_fresh { OnErr result (all_fresh self.new ≡ all_fresh self.old) }
    {
        let long = chunk.len();
        let fresh = chunk.fresh_len();
        let verdict = self.verdict(number, long, free);
        if verdict == Verdict::Kept {
            self.chunks.grow_at(number, chunk)?;
            self.used += long;
            self.fresh += fresh;
        }
        Ok(verdict)
    }

    // How many bytes the chunk of this number has; none where none is there.
    fn long_at(&self, number: u64) -> u64
        ensures { result ≡ bytes_under self.now number }
    {
        match self.chunks.get(&number) {
            Some(chunk) => chunk.len(),
            None => 0,
        }
    }

    // How many bytes of the chunk of this number are in memory; none where none is there.
    fn fresh_at(&self, number: u64) -> u64
        ensures { result ≡ fresh_under self.now number }
    {
        match self.chunks.get(&number) {
            Some(chunk) => chunk.fresh_len(),
            None => 0,
        }
    }

    /// Puts the chunk there, whatever was there: one that a peer gives, or the same in another place. Where memory is refused nothing changes.
    pub fn give(&mut self, number: u64, chunk: T) -> Result<(), OutOfMemory>
        requires { all_bytes self.old + T.length chunk < 2 ^ 64 + bytes_under self.old number }
        ensures leads { OnOk result (Leads (book_of self.old) (Gives number chunk) (book_of self.new)) }
        ensures used { OnOk result (all_bytes self.new + bytes_under self.old number ≡ all_bytes self.old + T.length chunk) }
        ensures fresh { OnOk result (all_fresh self.new + fresh_under self.old number ≡ all_fresh self.old + T.fresh_length chunk) }
        ensures unchanged { OnErr result (book_of self.new ≡ book_of self.old) }
        ensures as_used { OnErr result (all_bytes self.new ≡ all_bytes self.old) }
        ensures as_fresh { OnErr result (all_fresh self.new ≡ all_fresh self.old) }
    {
        let long = chunk.len();
        let fresh = chunk.fresh_len();
        let before = self.long_at(number);
        let fresh_before = self.fresh_at(number);
        self.chunks.grow_at(number, chunk)?;
        self.used = self.used - before + long;
        self.fresh = self.fresh - fresh_before + fresh;
        Ok(())
    }

    /// The floor is at this number, or where it was if that is above it.
    pub fn raise(&mut self, floor: u64)
        ensures leads { Leads (book_of self.old) (Raises floor) (book_of self.new) }
        ensures fresh { all_fresh self.new ≡ all_fresh self.old }
    {
        if self.floor < floor {
            self.floor = floor;
        }
    }

    /// Takes away the chunk of a number that is not above the floor.
    pub fn forget(&mut self, number: u64) -> Option<T>
        requires { number ≤ (book_of self.old).floor }
        ensures was { result ≡ (book_of self.old).at number }
        ensures leads { Leads (book_of self.old) (Forgets number) (book_of self.new) }
        ensures used { all_bytes self.new + bytes_under self.old number ≡ all_bytes self.old }
        ensures fresh { all_fresh self.new + fresh_under self.old number ≡ all_fresh self.old }
    {
        let before = self.long_at(number);
        let fresh_before = self.fresh_at(number);
        let was = self.chunks.remove(&number);
        self.used -= before;
        self.fresh -= fresh_before;
        was
    }

    /// The first chunk above this number.
    pub fn after(&self, number: u64) -> Option<(u64, &T)>
        ensures there { IfSome result (λ x. (book_of self.now).at x.0 ≡ Some x.1.now) }
        ensures above { IfSome result (λ x. number < x.0) }
        ensures least { IfSome result (λ x. (m : ℕ) → number < m → IsSome ((book_of self.now).at m) → x.0 ≤ m) }
        ensures none { IfNone result ((m : ℕ) → number < m → (book_of self.now).at m ≡ None) }
    {
        match self
            .chunks
            .range((Bound::Excluded(number), Bound::Unbounded))
            .next()
        {
            Some((number, chunk)) => Some((*number, chunk)),
            None => None,
        }
    }

    /// How many chunks there are.
    pub fn count(&self) -> usize
        ensures { result ≡ length self.now.chunks.entries }
    {
        self.chunks.len()
    }
}
