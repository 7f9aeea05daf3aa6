//! A sum of 64 bits over a text, taken eight bytes at a time.
#![tactic(auto)]

ghost use Rattle.std.specs.Prelude.{◌≡◌, ◌+◌, ◌*◌, ◌/◌, ◌≤◌, length, slice_index};
ghost use Rattle.gq_sum.specs.Sums.{word_at, sum_with, sum_after, sum_of};

pub mod laws;

// It is odd, so that no two numbers have the same product.
const FACTOR: u64 = 0x9e37_79b9_7f4a_7c15;

// The sum after one word more.
#[inline(always)]
fn sum_with(sum: u64, word: u64) -> u64
    ensures { result ≡ sum_with sum word }
{
    let product = (sum ^ word).wrapping_mul(FACTOR);
    product ^ (product >> 32)
}

// The word of the eight bytes from this place on.
#[inline(always)]
fn word_at(text: &[u8], i: usize) -> u64
    requires { i + 8 ≤ length text.now }
    ensures { result ≡ word_at text.now i }
{
    u64::from_le_bytes([
        text[i],
        text[i + 1],
        text[i + 2],
        text[i + 3],
        text[i + 4],
        text[i + 5],
        text[i + 6],
        text[i + 7],
    ])
}

// The byte at this place, or 0 after the end.
fn byte_or_zero(text: &[u8], i: usize) -> u8
    ensures { result ≡ slice_index text.now i }
{
    if i < text.len() { text[i] } else { 0 }
}

// The word of the last bytes, fewer than eight, and of zeros after them.
fn last_word(text: &[u8], i: usize) -> u64
    requires { i ≤ length text.now }
    ensures { result ≡ word_at text.now i }
{
    u64::from_le_bytes([
        byte_or_zero(text, i),
        byte_or_zero(text, i + 1),
        byte_or_zero(text, i + 2),
        byte_or_zero(text, i + 3),
        byte_or_zero(text, i + 4),
        byte_or_zero(text, i + 5),
        byte_or_zero(text, i + 6),
        byte_or_zero(text, i + 7),
    ])
}

// The sum after all words of the text, where this is the sum before them.
#[tactic(auto, unfolding(crate::specs::Sums::sum_after))]
fn sum_from(first: u64, text: &[u8]) -> u64
    ensures { result ≡ sum_after first text.now (length text.now / 8 + 1) }
{
    let count = text.len() / 8;
    let mut sum = first;
    'words: for i in 0..count {
        sum = sum_with(sum, word_at(text, 8 * i));
    }
    sum_with(sum, last_word(text, 8 * count))
}

/// The sum of the number and the text.
pub fn sum_of(n: u64, text: &[u8]) -> u64
    ensures { result ≡ sum_of n text.now }
{
    sum_from(sum_with(sum_with(0, n), text.len() as u64), text)
}
