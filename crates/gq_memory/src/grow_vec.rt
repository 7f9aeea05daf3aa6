//! The growths of a `Vec`.
ghost use Rattle.std.specs.Prelude.{◌≡◌, ◌+◌, ◌<◌, ◌≤◌, ◌-◌, ◌^◌, ◌⊎◌, ◌++◌, ◌∷◌, [], length, replicate, take, if◌then◌else◌, is_ok, IsOk, IfOk, OnOk, OnErr};
ghost use Rattle.std.specs.List.Sorted.{IsPermutation, IsSorted, IsStable};
ghost use Rattle.std.specs.Vec.{vec_len, vec_capacity};

use crate::OutOfMemory;
use std::alloc::{AllocError, Global};

/// A vector that grows. What a refusal leaves is said at each.
pub trait GrowVec<T> {
    /// Appends the value.
    fn grow(&mut self, value: T) -> Result<(), OutOfMemory>;
}

impl<T: Drop> GrowVec<T> for Vec<T> {
    #[inline(always)]
    fn grow(&mut self, value: T) -> Result<(), OutOfMemory>
        ensures items { self.new.items ≡ (if is_ok result then self.old.items ++ value ∷ [] else self.old.items) }
        ensures len { vec_len self.new ≡ (if is_ok result then vec_len self.old + 1 else vec_len self.old) }
        ensures capacity { vec_capacity self.old ≤ vec_capacity self.new }
        ensures succeeds { vec_len self.old < vec_capacity self.old → IsOk result }
        ensures full { OnErr result (vec_capacity self.old ≤ vec_len self.old) }
    {
        match self.push(value) {
            Ok(()) => Ok(()),
            Err(failed) => Err(OutOfMemory {
                refused: failed.into(),
            }),
        }
    }
}

/// A vector that grows, and of which places are kept in 32 bits.
pub trait GrowPlaces<T> {
    /// Appends the value, and answers its place. A vector whose places take all 32 bits grows no further, as one that fills
    /// the memory.
    fn grow_place(&mut self, value: T) -> Result<u32, OutOfMemory>;
}

impl<T: Drop> GrowPlaces<T> for Vec<T> {
    #[inline(always)]
    fn grow_place(&mut self, value: T) -> Result<u32, OutOfMemory>
        ensures place { IfOk result (λ place. place ≡ vec_len self.old) }
        ensures items { self.new.items ≡ (if is_ok result then self.old.items ++ value ∷ [] else self.old.items) }
        ensures full { OnErr result ((vec_capacity self.old ≤ vec_len self.old) ⊎ (2 ^ 32 ≤ vec_len self.old)) }
    {
        let Ok(place) = u32::try_from(self.len()) else {
            return Err(OutOfMemory {
                refused: AllocError,
            });
        };
        self.grow(value)?;
        Ok(place)
    }
}

/// A vector of lengths in 32 bits.
pub trait GrowLengths {
    /// Appends the length of the text in bytes. A text that takes more than 32 bits can tell is refused, as one that fills the
    /// memory.
    fn grow_length(&mut self, text: &[u8]) -> Result<(), OutOfMemory>;
}

impl GrowLengths for Vec<u32> {
    #[inline(always)]
    fn grow_length(&mut self, text: &[u8]) -> Result<(), OutOfMemory>
        ensures items { self.new.items ≡ (if is_ok result then self.old.items ++ length text.now ∷ [] else self.old.items) }
        ensures full { OnErr result ((vec_capacity self.old ≤ vec_len self.old) ⊎ (2 ^ 32 ≤ length text.now)) }
    {
        let Ok(length) = u32::try_from(text.len()) else {
            return Err(OutOfMemory {
                refused: AllocError,
            });
        };
        self.grow(length)
    }
}

/// A vector that is put in order.
pub trait SortVec<T: Ord> {
    /// Sorts the items. Equal ones keep their order, and where memory is wanting all do.
    fn sort_items(&mut self) -> Result<(), OutOfMemory>;
}

impl<T: Ord> SortVec<T> for Vec<T> {
    fn sort_items(&mut self) -> Result<(), OutOfMemory>
        ensures permutation { IsPermutation self.old.items self.new.items }
        ensures len { vec_len self.new ≡ vec_len self.old }
        ensures capacity { vec_capacity self.new ≡ vec_capacity self.old }
        ensures sorted { OnOk result (IsSorted T.cmp self.new.items) }
        ensures stable { IsStable T.cmp self.old.items self.new.items }
        ensures err { OnErr result (self.new.items ≡ self.old.items) }
        ensures succeeds { vec_len self.old ≤ 20 → IsOk result }
    {
        match self.sort() {
            Ok(()) => Ok(()),
            Err(refused) => Err(OutOfMemory { refused }),
        }
    }
}

/// A vector that makes room.
pub trait RoomInVec<T> {
    /// Makes room for so many more.
    fn make_room(&mut self, additional: usize) -> Result<(), OutOfMemory>;
}

impl<T> RoomInVec<T> for Vec<T> {
    #[inline(always)]
    fn make_room(&mut self, additional: usize) -> Result<(), OutOfMemory>
        ensures items { self.new.items ≡ self.old.items }
        ensures len { vec_len self.new ≡ vec_len self.old }
        ensures ok { OnOk result (vec_len self.new + additional ≤ vec_capacity self.new) }
        ensures capacity { vec_capacity self.old ≤ vec_capacity self.new }
        ensures succeeds { vec_len self.old + additional ≤ vec_capacity self.old → IsOk result }
        ensures full { OnErr result (vec_capacity self.old < vec_len self.old + additional) }
        ensures err { OnErr result (vec_capacity self.new ≡ vec_capacity self.old) }
    {
        match self.reserve(additional) {
            Ok(()) => Ok(()),
            Err(refused) => Err(OutOfMemory { refused }),
        }
    }
}

/// A vector that grows by copies.
pub trait GrowCopies<T> {
    /// An equal vector.
    fn same_items(&self) -> Result<Vec<T>, OutOfMemory>;

    /// Appends copies of the items.
    fn grow_by(&mut self, items: &[T]) -> Result<(), OutOfMemory>;

    /// Keeps the first `n`, and fills up to `n` with copies of the value.
    fn grow_to(&mut self, n: usize, value: T) -> Result<(), OutOfMemory>;
}

impl<T: Copy> GrowCopies<T> for Vec<T> {
    #[inline(always)]
    fn same_items(&self) -> Result<Vec<T>, OutOfMemory>
        ensures items { IfOk result (λ v. v.items ≡ self.now.items) }
    {
        slice_copied(*self.allocator(), self.as_slice())
    }

    #[inline(always)]
    fn grow_by(&mut self, items: &[T]) -> Result<(), OutOfMemory>
        ensures items { self.new.items ≡ (if is_ok result then self.old.items ++ items.now else self.old.items) }
        ensures len { vec_len self.new ≡ (if is_ok result then vec_len self.old + length items.now else vec_len self.old) }
        ensures capacity { vec_capacity self.old ≤ vec_capacity self.new }
        ensures succeeds { vec_len self.old + length items.now ≤ vec_capacity self.old → IsOk result }
        ensures full { OnErr result (vec_capacity self.old < vec_len self.old + length items.now) }
    {
        match self.extend_from_slice(items) {
            Ok(()) => Ok(()),
            Err(refused) => Err(OutOfMemory { refused }),
        }
    }

    #[inline(always)]
    fn grow_to(&mut self, n: usize, value: T) -> Result<(), OutOfMemory>
        ensures items { self.new.items ≡ (if is_ok result then take n self.old.items ++ replicate (n - vec_len self.old) value else self.old.items) }
        ensures len { vec_len self.new ≡ (if is_ok result then n else vec_len self.old) }
        ensures capacity { vec_capacity self.old ≤ vec_capacity self.new }
        ensures succeeds { n ≤ vec_capacity self.old → IsOk result }
        ensures full { OnErr result (vec_capacity self.old < n) }
    {
        match self.resize(n, value) {
            Ok(()) => Ok(()),
            Err(refused) => Err(OutOfMemory { refused }),
        }
    }
}

/// An empty vector with room for `n`.
#[inline(always)]
pub fn room_for<T>(alloc: Global, n: usize) -> Result<Vec<T>, OutOfMemory>
    ensures items { IfOk result (λ v. v.items ≡ []) }
    ensures len { IfOk result (λ v. vec_len v ≡ 0) }
    ensures capacity { IfOk result (λ v. n ≤ vec_capacity v) }
    ensures exact { IfOk result (λ v. vec_capacity v ≡ n) }
    ensures succeeds { n ≡ 0 → IsOk result }
{
    match Vec::with_capacity(alloc, n) {
        Ok(made) => Ok(made),
        Err(refused) => Err(OutOfMemory { refused }),
    }
}

/// A vector of `n` copies of the value.
#[inline(always)]
pub fn filled<T: Copy>(alloc: Global, value: T, n: usize) -> Result<Vec<T>, OutOfMemory>
    ensures items { IfOk result (λ v. v.items ≡ replicate n value) }
    ensures len { IfOk result (λ v. vec_len v ≡ n) }
{
    let mut made = Vec::new(alloc);
    made.grow_to(n, value)?;
    Ok(made)
}

/// A vector of copies of the items.
#[inline(always)]
pub fn slice_copied<T: Copy>(alloc: Global, items: &[T]) -> Result<Vec<T>, OutOfMemory>
    ensures items { IfOk result (λ v. v.items ≡ items.now) }
    ensures len { IfOk result (λ v. vec_len v ≡ length items.now) }
{
    match Vec::from_slice(alloc, items) {
        Ok(made) => Ok(made),
        Err(refused) => Err(OutOfMemory { refused }),
    }
}
