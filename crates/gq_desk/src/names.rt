//! Names of tenants.

ghost use Rattle.std.specs.Prelude.{◌≡◌, ◌≤◌, IfSome, IfNone, is_some, length, true, false};
ghost use Rattle.std.specs.List.{list_all};
ghost use Rattle.std.specs.Str.{bytes_eq};
ghost use Rattle.gq_desk.specs.Names.{is_name, is_letter, padded};
ghost use Rattle.gq_desk.specs.NameNumbers.{word_number};

use crate::limits::MOST_LETTERS;
use std::marker::Model;

/// 1 to 16 letters that aren't the word `server`.
#[derive(Clone, Copy, Debug)]
pub struct Name {
    bytes: [u8; MOST_LETTERS],
    len: usize,
}

impl Model for Name {
    ghost use Rattle.std.specs.Prelude.{◌≡◌, ℕ, ◌-◌, ◌≤◌, List, take, drop, length, replicate, true};
    ghost use Rattle.gq_desk.specs.declared.limits.TheConstants.{MOST_LETTERS};
    ghost use Rattle.gq_desk.specs.Names.{padded, is_name};
    ghost use Rattle.gq_desk.specs.NameBack.{unpadded};

    ghost Value = { List ℕ };

    ghost view = { λ n. take n.len n.bytes };

    ghost inverse = { λ bytes. record { bytes = padded bytes; len = length bytes } };

    ghost inverse_ok = { λ n known. unpadded n.bytes n.len known };

    ghost invariant = { λ n. (n.len ≤ MOST_LETTERS) × (length n.bytes ≡ MOST_LETTERS) × (drop n.len n.bytes ≡ replicate (MOST_LETTERS - n.len) 0) × (is_name (take n.len n.bytes) ≡ true) };
}

impl Name {
    /// The name of these bytes, if they are one.
    pub fn new(bytes: &[u8]) -> Option<Name>
        ensures same { IfSome result (λ name. name ≡ bytes.now) }
        ensures some { is_some result ≡ is_name bytes.now }
    {
        if bytes.is_empty()
            || bytes.len() > MOST_LETTERS
            || !are_letters(bytes)
            || bytes == b"server".as_slice()
        {
            return None;
        }
        Some(Name {
            bytes: with_zeros(bytes),
            len: bytes.len(),
        })
    }

    /// The letters, 1 to 16 bytes.
    pub fn as_bytes(&self) -> &[u8]
        ensures bytes { result.now ≡ self.now }
        ensures name { is_name self.now ≡ true }
    {
        &self.bytes[..self.len]
    }

    /// Whether the bytes are the name.
    pub fn is(&self, bytes: &[u8]) -> bool
        ensures { result ≡ bytes_eq bytes.now self.now }
    {
        bytes == self.as_bytes()
    }

    /// The number of letters, 1 to [`MOST_LETTERS`].
    pub fn len(&self) -> usize
        ensures value { result ≡ length self.now }
        ensures bound { result ≤ MOST_LETTERS }
    {
        self.len
    }

    /// The letters, and zeros up to [`MOST_LETTERS`] bytes: a copy of so many bytes is made at once.
    pub fn padded(&self) -> &[u8; MOST_LETTERS]
        ensures { result.now ≡ padded self.now }
    {
        &self.bytes
    }

    // The letters as one number.
    pub fn number(&self) -> u128
        ensures number { result ≡ word_number self.now }
        ensures name { is_name self.now ≡ true }
    {
        match word_number(self.as_bytes()) {
            Some(number) => number,
            None => unreachable!(),
        }
    }
}

impl PartialEq for Name {
    ghost use Rattle.std.specs.Str.{bytes_eq};
    ghost use Rattle.std.specs.Cmp.Rules.{comparing};
    ghost use Rattle.std.proofs.Common.{rules};

    ghost eq = { bytes_eq };

    ghost laws = { Prim.search (comparing, rules) };

    fn eq(&self, other: &Name) -> bool {
        self.as_bytes() == other.as_bytes()
    }
}

impl Eq for Name {
    ghost use Rattle.std.specs.Cmp.Rules.{comparing};
    ghost use Rattle.std.proofs.Common.{rules};

    ghost laws = { Prim.search (comparing, rules) };
}

// Whether all bytes are letters from a to z.
fn are_letters(bytes: &[u8]) -> bool
    ensures { result ≡ list_all is_letter bytes.now }
{
    bytes.iter().all(|byte| matches!(*byte, b'a'..=b'z'))
}

// The bytes, and zeros to the end.
fn with_zeros(bytes: &[u8]) -> [u8; MOST_LETTERS]
    requires { length bytes.now ≤ MOST_LETTERS }
    ensures { result ≡ padded bytes.now }
{
    let mut held = [0; MOST_LETTERS];
    for (place, byte) in bytes.iter().enumerate() {
        held[place] = *byte;
    }
    held
}

// A word of at most 16 letters as one number, by which names are hashed and compared: five bits for each letter.
pub fn word_number(word: &[u8]) -> Option<u128>
    ensures number { IfSome result (λ number. number ≡ word_number word.now) }
    ensures letters { IfSome result (λ number. list_all is_letter word.now ≡ true) }
    ensures none { IfNone result (is_name word.now ≡ false) }
{
    if word.len() > MOST_LETTERS {
        return None;
    }
    let mut number = 0;
    let mut place = word.len();
    'letters: while place > 0 {
        place -= 1;
        let letter = word[place];
        if letter < b'a' || letter > b'z' {
            return None;
        }
        number = number * 32 + u128::from(letter - b'a' + 1);
    }
    Some(number)
}
