//! The line that seals a batch.

ghost use Rattle.std.specs.Prelude.{◌≡◌, ◌∷◌, ◌++◌, [], codes, decimal, length, take, drop, ◌≤◌, IfOk, OnOk, OnErr};
ghost use Rattle.std.specs.Str.{bytes_eq};
ghost use Rattle.sha2.specs.Sha256.{sha256};
ghost use Rattle.gq_lines.specs.Written.{content_word, ended, Extends};
ghost use Rattle.gq_journal.specs.Batches.{ended_line, digest_of, digest_word, may_have_bytes, seal, sealed_text};

use gq_lines::{put_content, put_spaced_number};
use gq_memory::{GrowCopies, GrowVec, OutOfMemory};
use gq_sum::sum_of;
use itoa::Buffer;
use memchr::memchr;
use sha2::{Digest, Sha256};
use std::alloc::Global;

// The first eight bytes of a digest.
fn first_eight(digest: [u8; 32]) -> [u8; 8]
    ensures { result ≡ take 8 digest }
{
    let [a, b, c, d, e, f, g, h, ..] = digest;
    [a, b, c, d, e, f, g, h]
}

// The first eight bytes of SHA-256 of the text as batch n.
fn sha_of(n: u64, text: &[u8]) -> [u8; 8]
    ensures { result ≡ take 8 (sha256 (sealed_text n text.now)) }
{
    let mut hasher = Sha256::new();
    hasher.update(Buffer::new().format(n).as_bytes());
    hasher.update(b" ".as_slice());
    hasher.update(Buffer::new().format(text.len() as u64).as_bytes());
    hasher.update(b"\n".as_slice());
    hasher.update(text);
    first_eight(hasher.finalize())
}

// Whether the text may have a content as bytes.
fn may_have_bytes(text: &[u8]) -> bool
    ensures { result ≡ may_have_bytes text.now }
{
    memchr(b'=', text).is_some()
}

// The eight bytes by which the text is known as batch n. A content may be long, and a sum takes a twentieth of the time of SHA-256.
#[tactic(auto, unfolding(crate::specs::Batches::digest_of))]
fn digest_of(n: u64, text: &[u8]) -> [u8; 8]
    ensures { result ≡ digest_of n text.now }
{
    if may_have_bytes(text) {
        sum_of(n, text).to_be_bytes()
    } else {
        sha_of(n, text)
    }
}

// Appends the line that seals the text as batch n.
#[tactic(auto, unfolding(crate::specs::Batches::digest_word))]
pub(crate) fn put_seal(out: &mut Vec<u8>, n: u64, text: &[u8]) -> Result<(), OutOfMemory>
    ensures ok { OnOk result (out.new.items ≡ out.old.items ++ ended_line (seal n text.now)) }
{
    let digest = digest_of(n, text);
    put_digest(out, n, text.len() as u64, &digest)
}

// Appends it, of its number, its length and the first bytes of its digest.
fn put_digest(out: &mut Vec<u8>, n: u64, len: u64, digest: &[u8]) -> Result<(), OutOfMemory>
    ensures ok { OnOk result (out.new.items ≡ out.old.items ++ codes "sync" ++ ended (decimal n ∷ decimal len ∷ content_word digest.now ∷ [])) }
    ensures err { OnErr result (Extends out.old.items out.new.items) }
{
    out.grow_by(b"sync")?;
    put_spaced_number(out, n)?;
    put_spaced_number(out, len)?;
    put_content(out, digest)?;
    out.grow(b'\n')
}

// Whether the line is the one that seals the text as batch n.
pub(crate) fn is_seal(alloc: Global, line: &[u8], n: u64, text: &[u8]) -> Result<bool, OutOfMemory>
    ensures { IfOk result (λ right. right ≡ bytes_eq line.now (seal n text.now)) }
{
    let mut sealing = Vec::new(alloc);
    put_seal(&mut sealing, n, text)?;
    let end = sealing.len() - 1;
    Ok(line == &sealing[..end])
}

/// Seals what stands behind a place of the text as batch n: appends the line that seals it. Where memory is wanting a part of that line
/// may have been appended.
#[tactic(auto, unfolding(crate::specs::Batches::digest_word))]
pub fn seal_behind(out: &mut Vec<u8>, at: usize, n: u64) -> Result<(), OutOfMemory>
    requires { at ≤ length out.old.items }
    ensures ok { OnOk result (out.new.items ≡ out.old.items ++ ended_line (seal n (drop at out.old.items))) }
    ensures err { OnErr result (Extends out.old.items out.new.items) }
{
    let behind = &out.as_slice()[at..];
    let len = behind.len() as u64;
    let digest = digest_of(n, behind);
    put_digest(out, n, len, &digest)
}

/// Seals the text as batch n: appends the line that seals it. Where memory is wanting a part of that line may have been appended.
pub fn seal_batch(out: &mut Vec<u8>, n: u64) -> Result<(), OutOfMemory>
    ensures ok { OnOk result (out.new.items ≡ out.old.items ++ ended_line (seal n out.old.items)) }
    ensures err { OnErr result (Extends out.old.items out.new.items) }
{
    seal_behind(out, 0, n)
}
