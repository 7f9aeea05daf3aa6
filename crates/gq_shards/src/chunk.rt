//! Bytes that wait to be written together.

ghost use Rattle.std.specs.Prelude.{◌≡◌, ◌+◌, ◌≤◌, ◌++◌, [], false, true, length, take, vec_len, IfOk, IfErr, OnOk, OnErr};
ghost use Rattle.std.specs.Io.KnownBytes.{Appends};
ghost use Rattle.gq_streams.specs.Watched.{inner_of, has_failed, AppendsPrefix};

use gq_memory::{OutOfMemory, filled};
use gq_streams::{Watched, WriteFault, write_whole};
use std::alloc::Global;
use std::io::Write;

// A short part of a text is copied as so many bytes.
const NEAR: usize = 64;

/// Bytes that wait to be written together. It takes its memory when it is made, so that none is wanted between two writes.
#[derive(Drop)]
pub struct Chunk {
    pub bytes: Vec<u8>,
    pub filled: usize,
    ghost within: { filled ≤ vec_len bytes },
}

impl Chunk {
    ghost use Rattle.gq_shards.specs.Shards.{waiting, Passes};

    /// No byte waits, and there is room for so many.
    pub fn new(alloc: Global, room: usize) -> Result<Chunk, OutOfMemory>
        ensures { IfOk result (λ chunk. waiting chunk ≡ []) }
    {
        let bytes = filled(alloc, 0u8, room)?;
        Ok(Chunk { bytes, filled: 0 })
    }

    /// Writes what waits. After a fault a prefix of it was written.
    pub fn flush<W: Write>(&mut self, writer: &mut Watched<W>) -> Result<(), WriteFault>
        requires { has_failed writer.old ≡ false }
        ensures ok { OnOk result (Appends (W.contents (inner_of writer.old))
            (W.contents (inner_of writer.new)) (waiting self.old)) }
        ensures empty { OnOk result (waiting self.new ≡ []) }
        ensures fine { OnOk result (has_failed writer.new ≡ false) }
        ensures failed { OnErr result (has_failed writer.new ≡ true) }
        ensures prefix { OnErr result (AppendsPrefix (W.contents (inner_of writer.old))
            (W.contents (inner_of writer.new)) (waiting self.old)) }
    {
        write_whole(writer, &self.bytes[..self.filled])?;
        self.filled = 0;
        Ok(())
    }

    /// Takes the bytes behind those that wait. Where there is no room for them, what waits is written first, and bytes that no
    /// chunk has room for are written at once. After a fault a prefix of all these was written.
    #[inline(always)]
    pub fn put<W: Write>(&mut self, writer: &mut Watched<W>, bytes: &[u8]) -> Result<(), WriteFault>
        requires { has_failed writer.old ≡ false }
        ensures ok { OnOk result (Passes (W.contents (inner_of writer.old))
            (W.contents (inner_of writer.new)) (waiting self.old ++ bytes.now) (waiting self.new)) }
        ensures fine { OnOk result (has_failed writer.new ≡ false) }
        ensures failed { OnErr result (has_failed writer.new ≡ true) }
        ensures prefix { OnErr result (AppendsPrefix (W.contents (inner_of writer.old))
            (W.contents (inner_of writer.new)) (waiting self.old ++ bytes.now)) }
    {
        if bytes.len() > self.bytes.len() - self.filled {
            return self.put_far(writer, bytes);
        }
        self.take(bytes);
        Ok(())
    }

    /// Takes the first bytes of a text, so many, as [`Chunk::put`] takes all. A short part is copied with what lies behind it, which
    /// the next one covers: a copy of a size that is known in advance takes a few instructions.
    #[inline(always)]
    pub fn put_part<W: Write>(
        &mut self,
        writer: &mut Watched<W>,
        text: &[u8],
        size: usize,
    ) -> Result<(), WriteFault>
        requires fine { has_failed writer.old ≡ false }
        requires within { size ≤ length text.now }
        ensures ok { OnOk result (Passes (W.contents (inner_of writer.old))
            (W.contents (inner_of writer.new)) (waiting self.old ++ take size text.now) (waiting self.new)) }
        ensures fine { OnOk result (has_failed writer.new ≡ false) }
        ensures failed { OnErr result (has_failed writer.new ≡ true) }
        ensures prefix { OnErr result (AppendsPrefix (W.contents (inner_of writer.old))
            (W.contents (inner_of writer.new)) (waiting self.old ++ take size text.now)) }
    {
        if size <= NEAR && NEAR <= text.len() && NEAR <= self.bytes.len() - self.filled {
            self.take_near(text, size);
            return Ok(());
        }
        self.put(writer, &text[..size])
    }

    // Takes the first bytes of a text, at most as many as are copied at once.
    #[inline(always)]
    fn take_near(&mut self, text: &[u8], size: usize)
        requires short { size ≤ NEAR }
        requires text { NEAR ≤ length text.now }
        requires room { self.old.filled + NEAR ≤ vec_len self.old.bytes }
        ensures { waiting self.new ≡ waiting self.old ++ take size text.now }
    {
        let end = self.filled + NEAR;
        self.bytes[self.filled..end].copy_from_slice(&text[..NEAR]);
        self.filled += size;
    }

    // Takes bytes for which there is room.
    #[inline(always)]
    fn take(&mut self, bytes: &[u8])
        requires { self.old.filled + length bytes.now ≤ vec_len self.old.bytes }
        ensures { waiting self.new ≡ waiting self.old ++ bytes.now }
    {
        let end = self.filled + bytes.len();
        self.bytes[self.filled..end].copy_from_slice(bytes);
        self.filled = end;
    }

    // Writes what waits, and then takes the bytes, or writes them too.
    fn put_far<W: Write>(&mut self, writer: &mut Watched<W>, bytes: &[u8]) -> Result<(), WriteFault>
        requires { has_failed writer.old ≡ false }
        ensures ok { OnOk result (Passes (W.contents (inner_of writer.old))
            (W.contents (inner_of writer.new)) (waiting self.old ++ bytes.now) (waiting self.new)) }
        ensures fine { OnOk result (has_failed writer.new ≡ false) }
        ensures failed { OnErr result (has_failed writer.new ≡ true) }
        ensures prefix { OnErr result (AppendsPrefix (W.contents (inner_of writer.old))
            (W.contents (inner_of writer.new)) (waiting self.old ++ bytes.now)) }
    {
        self.flush(writer)?;
        if bytes.len() > self.bytes.len() {
            return write_whole(writer, bytes);
        }
        self.take(bytes);
        Ok(())
    }
}
