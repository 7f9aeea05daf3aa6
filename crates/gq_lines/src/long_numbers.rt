//! Numbers of 64 bits.

ghost use Rattle.std.specs.Prelude.{◌≡◌};
ghost use Rattle.gq_lines.specs.Words.{number_after, long_number_of};

// The greatest number of 64 bits, in a type that has room for one digit more.
pub const MOST_LONG: u128 = 18_446_744_073_709_551_615;

/// The number of 64 bits that a word writes.
#[tactic(auto, unfolding(crate::specs::Words::number_up_to))]
pub fn long_number(word: &[u8]) -> Option<u64>
    ensures { result ≡ long_number_of word.now }
{
    match word {
        [] => None,
        [first, _, ..] if *first == b'0' => None,
        _ => long_from_digits(word),
    }
}

// The number that digits write, up to the largest.
fn long_from_digits(word: &[u8]) -> Option<u64>
    ensures { result ≡ number_after MOST_LONG 0 word.now }
{
    let mut n: u128 = 0;
    for c in word {
        if *c < b'0' || *c > b'9' {
            return None;
        }
        n = n * 10 + u128::from(*c - b'0');
        if n > MOST_LONG {
            return None;
        }
    }
    Some(n as u64)
}
