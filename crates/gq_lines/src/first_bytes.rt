//! Bytes near the front of a text, found in one look at 32 bytes.

ghost use Rattle.std.specs.Prelude.{◌≡◌, ◌↔◌, ℕ, ◌<◌, ◌≤◌, ◌==◌, if◌then◌else◌, length, slice_index};
ghost use Rattle.std.specs.Int.{bit_at};
ghost use Rattle.memchr.specs.Lanes.{HasLanes};

use std::simd::prelude::*;

// The first 32 bytes.
#[inline(always)]
fn front(text: &[u8]) -> u8x32
    requires { 32 ≤ length text.now }
    ensures { HasLanes result (λ k. slice_index text.now k) }
{
    u8x32::from_slice(text)
}

// Ones in the lanes that hold the byte.
#[inline(always)]
fn equal_to(lanes: u8x32, byte: u8) -> u8x32
    ensures { HasLanes result (λ k. if slice_index lanes k == byte then 255 else 0) }
{
    lanes
        .simd_eq(u8x32::splat(byte))
        .select(u8x32::splat(255), u8x32::splat(0))
}

// Bit k is the top bit of lane k.
#[inline(always)]
fn top_bits(lanes: u8x32) -> u64
    ensures { (k : ℕ) → (bit_at result k ≡ 1) ↔ (128 ≤ slice_index lanes k) }
{
    lanes.simd_ge(u8x32::splat(128)).to_bitmask()
}

// The bits of the places of the byte among the first 32.
#[inline(always)]
fn marks(byte: u8, text: &[u8]) -> u64
    requires { 32 ≤ length text.now }
    ensures { (k : ℕ) → (bit_at result k ≡ 1) ↔ ((k < 32) × (slice_index text.now k ≡ byte)) }
{
    top_bits(equal_to(front(text), byte))
}

// The place of the lowest bit, or 64.
#[inline(always)]
fn lowest(bits: u64) -> usize
    ensures below { (k : ℕ) → k < result → bit_at bits k ≡ 0 }
    ensures here { result < 64 → bit_at bits result ≡ 1 }
{
    if bits == 0 {
        64
    } else {
        bits.trailing_zeros() as usize
    }
}

// The first place of the byte, if that is below 32; else a place past it.
#[inline(always)]
pub fn near(byte: u8, text: &[u8]) -> usize
    requires { 32 ≤ length text.now }
    ensures before { (k : ℕ) → k < result → k < 32 → slice_index text.now k ≡ byte → ⊥ }
    ensures here { result < 32 → slice_index text.now result ≡ byte }
{
    lowest(marks(byte, text))
}
