//! Facts as they are written.

ghost use Rattle.std.specs.Prelude.{◌≡◌, ◌<◌, ◌++◌, [], ◌∷◌, length, OnOk, OnErr};
ghost use Rattle.gq_lines.specs.Written.{line_text, Extends};
ghost use Rattle.gq_shelf.specs.declared.place.Place.TheVariants.{Fresh, Shelved};
ghost use Rattle.gq_chunks.specs.Facts.{held_words, chunk_fact_text};

use crate::ChunkFact;
use gq_desk::Plan;
use gq_memory::{GrowCopies, OutOfMemory};
use gq_shelf::{Extent, Place};
use gq_text::{Piece, put_words};

// Appends what stands behind the verb in the line of a content that is in memory.
fn put_fresh<'x>(
    out: &mut Vec<u8>,
    name: &'x [u8],
    session: u32,
    number: u64,
    is_sure: bool,
    bytes: &'x [u8],
) -> Result<(), OutOfMemory>
    ensures ok { OnOk result (out.new.items ≡ out.old.items ++ line_text [] (name.now ∷ held_words session number is_sure (Fresh bytes.now))) }
    ensures err { OnErr result (Extends out.old.items out.new.items) }
{
    put_words(
        out,
        &[
            Piece::Text(name),
            Piece::Number(u64::from(session)),
            Piece::Number(number),
            Piece::Number(u64::from(is_sure)),
            Piece::Bytes(bytes),
        ],
    )
}

// Of one that lies on the shelf.
fn put_shelved(
    out: &mut Vec<u8>,
    name: &[u8],
    session: u32,
    number: u64,
    is_sure: bool,
    extent: &Extent,
) -> Result<(), OutOfMemory>
    ensures ok { OnOk result (out.new.items ≡ out.old.items ++ line_text [] (name.now ∷ held_words session number is_sure (Shelved extent.now))) }
    ensures err { OnErr result (Extends out.old.items out.new.items) }
{
    put_words(
        out,
        &[
            Piece::Text(name),
            Piece::Number(u64::from(session)),
            Piece::Number(number),
            Piece::Number(u64::from(is_sure)),
            Piece::Number(u64::from(extent.segment)),
            Piece::Number(extent.at),
            Piece::Number(u64::from(extent.len)),
            Piece::Number(extent.sum),
        ],
    )
}

/// Appends the line of the tenant's fact, with its newline, to a text. Where memory is wanting a part of the line may have been appended.
pub fn put_chunk_fact(
    out: &mut Vec<u8>,
    plan: &Plan,
    tenant: u8,
    fact: &ChunkFact,
) -> Result<(), OutOfMemory>
    requires { tenant < length plan.now.rows }
    ensures ok { OnOk result (out.new.items ≡ out.old.items ++ chunk_fact_text plan.now tenant fact.now) }
    ensures err { OnErr result (Extends out.old.items out.new.items) }
{
    let name = plan.row(tenant).name.as_bytes();
    match fact {
        ChunkFact::Put {
            session,
            number,
            is_sure,
            place: Place::Fresh(bytes),
        } => {
            out.grow_by(b"chunk")?;
            put_fresh(out, name, *session, *number, *is_sure, bytes.as_slice())
        }
        ChunkFact::Put {
            session,
            number,
            is_sure,
            place: Place::Shelved(extent),
        } => {
            out.grow_by(b"extent")?;
            put_shelved(out, name, *session, *number, *is_sure, extent)
        }
        ChunkFact::Forgot {
            session,
            floor,
            run,
        } => {
            out.grow_by(b"forgot")?;
            put_words(
                out,
                &[
                    Piece::Text(name),
                    Piece::Number(u64::from(*session)),
                    Piece::Number(*floor),
                    Piece::Number(run.first),
                    Piece::Number(run.last),
                ],
            )
        }
        ChunkFact::Filled => {
            out.grow_by(b"filled")?;
            put_words(out, &[Piece::Text(name)])
        }
    }
}
