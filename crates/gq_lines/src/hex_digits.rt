//! The bytes that hexadecimal digits write, 32 digits at a time.

ghost use Rattle.std.specs.Prelude.{◌≡◌, ℕ, ◌*◌, ◌<◌, map, length, nat_lt, Some, None, MatchBool, true};
ghost use Rattle.std.specs.List.{list_all};
ghost use Rattle.hex.specs.Hex.{decode_of};
ghost use Rattle.gq_lines.specs.Digits.{value_or_more, pairs_joined};
ghost use Rattle.gq_lines.specs.Words.{bytes_from};

use std::simd::prelude::*;

// The value of each digit, and 255 for any other byte.
#[inline(always)]
fn values(lanes: u8x32) -> u8x32
    ensures { result ≡ map value_or_more lanes }
{
    let digit = lanes - u8x32::splat(b'0');
    // (with this bit a capital letter is the small one)
    let small = lanes | u8x32::splat(0x20);
    let letter = small - u8x32::splat(b'a');
    let other = letter
        .simd_lt(u8x32::splat(6))
        .select(letter + u8x32::splat(10), u8x32::splat(255));
    digit.simd_lt(u8x32::splat(10)).select(digit, other)
}

// Whether all are values of digits.
#[inline(always)]
fn are_digits(values: u8x32) -> bool
    ensures { result ≡ list_all (λ v. nat_lt v 16) values }
{
    values.simd_ge(u8x32::splat(16)).to_bitmask() == 0
}

// The byte of each pair of values.
#[inline(always)]
fn joined(values: u8x32) -> u8x16
    requires { list_all (λ v. nat_lt v 16) values ≡ true }
    ensures { result ≡ pairs_joined values }
{
    let high: u8x16 = values.swizzle([0, 2, 4, 6, 8, 10, 12, 14, 16, 18, 20, 22, 24, 26, 28, 30]);
    let low: u8x16 = values.swizzle([1, 3, 5, 7, 9, 11, 13, 15, 17, 19, 21, 23, 25, 27, 29, 31]);
    high * u8x16::splat(16) + low
}

/// Reads two digits of either case for each byte, and answers whether all are digits. Where one is not, `out` may have anything.
pub fn read_digits(digits: &[u8], out: &mut [u8]) -> bool
    requires { length digits.now ≡ 2 * length out.old }
    ensures { MatchBool result (bytes_from (decode_of digits.now) ≡ Some out.new)
        (bytes_from (decode_of digits.now) ≡ None) }
{
    let mut i = 0;
    'lanes: while out.len() - i >= 16 {
        let values = values(u8x32::from_slice(&digits[2 * i..]));
        if !are_digits(values) {
            return false;
        }
        joined(values).copy_to_slice(&mut out[i..]);
        i += 16;
    }
    hex::decode_to_slice(&digits[2 * i..], &mut out[i..]).is_ok()
}
