//! The lines of all shards, put together and written.

ghost use Rattle.std.specs.Prelude.{◌≡◌, [], ◌∷◌, ◌≤◌, ℕ, List, length, replicate, take, true, false, IfErr, OnOk, OnErr, IsErrOf};
ghost use Rattle.std.specs.Io.KnownBytes.{Appends};
ghost use Rattle.gq_shards.specs.declared.merging.AnswersFault.{AnswersFault};
ghost use Rattle.gq_lines.specs.Lines.{joined};
ghost use Rattle.gq_streams.specs.Watched.{inner_of, has_failed, AppendsPrefix};
ghost use Rattle.gq_shards.specs.Shards.{first_place, waiting, IsLeft, AreTold};

use crate::chunk::Chunk;
use crate::lengths::{FIRST_LENGTH, LengthPlace};
use crate::telling::Told;
use gq_memory::{OutOfMemory, filled};
use gq_script::RunFault;
use gq_streams::{Watched, WriteFault};
use std::alloc::Global;
use std::io::Write;

/// Why answers were not written.
#[derive(Drop)]
pub enum AnswersFault {
    /// Memory is wanting. Nothing was written.
    Memory(OutOfMemory),
    /// The writer failed. A prefix was written.
    Write,
}

impl From<OutOfMemory> for AnswersFault {
    ghost use Rattle.gq_shards.specs.declared.merging.AnswersFault.TheVariants.{Memory};

    ghost from_gives = { λ refused e. e ≡ Memory refused };

    fn from(refused: OutOfMemory) -> AnswersFault {
        AnswersFault::Memory(refused)
    }
}

impl From<WriteFault> for AnswersFault {
    ghost use Rattle.gq_shards.specs.declared.merging.AnswersFault.TheVariants.{Write};

    ghost from_gives = { λ fault e. e ≡ Write };

    fn from(_: WriteFault) -> AnswersFault {
        AnswersFault::Write
    }
}

impl From<AnswersFault> for RunFault {
    ghost use Rattle.gq_shards.specs.Shards.{of_answers};

    ghost from_gives = { λ fault e. e ≡ of_answers fault };

    fn from(fault: AnswersFault) -> RunFault {
        match fault {
            AnswersFault::Memory(refused) => RunFault::Memory(refused),
            AnswersFault::Write => RunFault::Write,
        }
    }
}

// The bytes that are written together.
const CHUNK: usize = 65_536;

// Where the next line of a shard is.
#[derive(Clone, Copy, Drop)]
pub struct Place {
    pub length: LengthPlace,
    pub byte: usize,
}

// The place of a shard's first line.
pub const FIRST_PLACE: Place = Place {
    length: FIRST_LENGTH,
    byte: 0,
};

// The next line of what is told, as the first bytes of a text, so many, and the place behind it.
#[inline(always)]
fn next_line<'a>(told: &'a Told, place: Place) -> (&'a [u8], usize, Place)
    requires { (line : List ℕ) × (lines : List (List ℕ)) × IsLeft told.now place (line ∷ lines) }
    ensures within { result.1 ≤ length result.0.now }
    ensures line { (line : List ℕ) (lines : List (List ℕ)) → IsLeft told.now place (line ∷ lines) →
        (take result.1 result.0.now ≡ line) × IsLeft told.now result.2 lines }
{
    let (size, length) = told.lengths.next_length(place.length);
    let after = Place {
        length,
        byte: place.byte + size,
    };
    (&told.text[place.byte..], size, after)
}

// Writes the lines of all shards in the order of their marks. The chunk is empty, and each shard is at its first line.
fn write_lines<W: Write>(
    writer: &mut Watched<W>,
    chunk: &mut Chunk,
    places: &mut [Place],
    marks: &[u8],
    all: &[Told],
) -> Result<(), WriteFault>
    requires fine { has_failed writer.old ≡ false }
    requires empty { waiting chunk.old ≡ [] }
    requires first { places.old ≡ replicate (length all.now) first_place }
    requires told { (lines : List (List ℕ)) × AreTold marks.now lines all.now }
    ensures ok { OnOk result ((lines : List (List ℕ)) → AreTold marks.now lines all.now →
        Appends (W.contents (inner_of writer.old)) (W.contents (inner_of writer.new)) (joined lines)) }
    ensures fine { OnOk result (has_failed writer.new ≡ false) }
    ensures failed { OnErr result (has_failed writer.new ≡ true) }
    ensures prefix { OnErr result ((lines : List (List ℕ)) → AreTold marks.now lines all.now →
        AppendsPrefix (W.contents (inner_of writer.old)) (W.contents (inner_of writer.new)) (joined lines)) }
{
    for mark in marks {
        let shard = mark.saturating_sub(1) as usize;
        let (text, size, after) = next_line(&all[shard], places[shard]);
        places[shard] = after;
        chunk.put_part(writer, text, size)?;
    }
    chunk.flush(writer)
}

/// Writes the lines of all shards in the order of their marks. The faults are `Memory`, before the first write, and `Write`,
/// after a prefix was written.
pub fn write_told<W: Write>(
    alloc: Global,
    writer: &mut Watched<W>,
    marks: &[u8],
    all: &[Told],
) -> Result<(), AnswersFault>
    requires fine { has_failed writer.old ≡ false }
    requires told { (lines : List (List ℕ)) × AreTold marks.now lines all.now }
    ensures ok { OnOk result ((lines : List (List ℕ)) → AreTold marks.now lines all.now →
        Appends (W.contents (inner_of writer.old)) (W.contents (inner_of writer.new)) (joined lines)) }
    ensures fine { OnOk result (has_failed writer.new ≡ false) }
    ensures failed { IsErrOf result AnswersFault.Write → has_failed writer.new ≡ true }
    ensures nothing { IsErrOf result (AnswersFault.Memory tt) → writer.new ≡ writer.old }
    ensures prefix { IsErrOf result AnswersFault.Write → (lines : List (List ℕ)) → AreTold marks.now lines all.now →
        AppendsPrefix (W.contents (inner_of writer.old)) (W.contents (inner_of writer.new)) (joined lines) }
{
    let mut places = filled(alloc, FIRST_PLACE, all.len())?;
    let mut chunk = Chunk::new(alloc, CHUNK)?;
    write_lines(writer, &mut chunk, places.as_mut_slice(), marks, all)?;
    Ok(())
}
