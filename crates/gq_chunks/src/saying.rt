//! What nodes of a column say to each other, written.

ghost use Rattle.std.specs.Prelude.{◌≡◌, ◌<◌, ◌++◌, [], ◌∷◌, length, codes, decimal, option_map, OnOk, OnErr};
ghost use Rattle.gq_desk.specs.CheckedPlan.{row_at};
ghost use Rattle.gq_lines.specs.Written.{ended, spaced, Extends};
ghost use Rattle.gq_chunks.specs.Answers.{told_content};
ghost use Rattle.gq_chunks.specs.Facts.{sure_digit};
ghost use Rattle.gq_chunks.specs.PeerLines.{saying_of, pair_words, saying_words, saying_text, saying_of_ask, asks_text, saying_of_answer, peer_answer_text};

use crate::PeerLine;
use crate::answering::{put_content, put_spaced};
use gq_depot::{Ask, ChunkAnswer, ListedChunk};
use gq_desk::Plan;
use gq_lines::put_number;
use gq_memory::{GrowCopies, GrowVec, OutOfMemory};
use gq_stock::Found;
use gq_text::{Piece, put_words};

// Appends whom it is said, by which node, and of which tenant.
fn put_head(
    out: &mut Vec<u8>,
    plan: &Plan,
    from: u16,
    to: u16,
    tenant: u8,
) -> Result<(), OutOfMemory>
    requires { tenant < length plan.now.rows }
    ensures ok { OnOk result (out.new.items ≡ out.old.items ++ decimal to ++ spaced (decimal from ∷ (row_at plan.now tenant).name ∷ [])) }
    ensures err { OnErr result (Extends out.old.items out.new.items) }
{
    put_number(out, u64::from(to))?;
    put_spaced(out, u64::from(from))?;
    out.grow(b' ')?;
    out.grow_by(plan.row(tenant).name.as_bytes())
}

// Appends a number and a length.
fn put_pair(out: &mut Vec<u8>, chunk: &ListedChunk) -> Result<(), OutOfMemory>
    ensures ok { OnOk result (out.new.items ≡ out.old.items ++ spaced (pair_words (chunk.now ∷ []))) }
    ensures err { OnErr result (Extends out.old.items out.new.items) }
{
    put_spaced(out, chunk.number)?;
    put_spaced(out, chunk.size)
}

// Appends numbers and lengths.
fn put_pairs(out: &mut Vec<u8>, chunks: &[ListedChunk]) -> Result<(), OutOfMemory>
    ensures ok { OnOk result (out.new.items ≡ out.old.items ++ spaced (pair_words chunks.now)) }
    ensures err { OnErr result (Extends out.old.items out.new.items) }
{
    for chunk in chunks {
        put_pair(out, chunk)?;
    }
    Ok(())
}

// Appends the words of a listing.
fn put_found(
    out: &mut Vec<u8>,
    session: u32,
    after: u64,
    floor: u64,
    is_all: bool,
    chunks: &[ListedChunk],
) -> Result<(), OutOfMemory>
    ensures ok { OnOk result (out.new.items ≡ out.old.items ++ ended (codes "found" ∷ decimal session ∷ decimal after ∷ decimal floor ∷ decimal (sure_digit is_all) ∷ pair_words chunks.now)) }
    ensures err { OnErr result (Extends out.old.items out.new.items) }
{
    out.grow_by(b" found")?;
    put_spaced(out, u64::from(session))?;
    put_spaced(out, after)?;
    put_spaced(out, floor)?;
    put_spaced(out, u64::from(is_all))?;
    put_pairs(out, chunks)?;
    out.grow(b'\n')
}

// Appends the words of a content that is given.
fn put_gives(out: &mut Vec<u8>, session: u32, number: u64, bytes: &[u8]) -> Result<(), OutOfMemory>
    ensures ok { OnOk result (out.new.items ≡ out.old.items ++ ended (codes "gives" ∷ decimal session ∷ decimal number ∷ told_content bytes.now ∷ [])) }
    ensures err { OnErr result (Extends out.old.items out.new.items) }
{
    out.grow_by(b" gives")?;
    put_spaced(out, u64::from(session))?;
    put_spaced(out, number)?;
    put_content(out, bytes)?;
    out.grow(b'\n')
}

// Appends the words, to the end of the line.
fn put_saying(out: &mut Vec<u8>, line: &PeerLine) -> Result<(), OutOfMemory>
    ensures ok { OnOk result (out.new.items ≡ out.old.items ++ ended (saying_words (saying_of line.now))) }
    ensures err { OnErr result (Extends out.old.items out.new.items) }
{
    match line {
        PeerLine::Seeks {
            losses,
            session,
            after,
        } => put_words(
            out,
            &[
                Piece::Text(b"seeks"),
                Piece::Number(*losses),
                Piece::Number(u64::from(*session)),
                Piece::Number(*after),
            ],
        ),
        PeerLine::Found {
            session,
            after,
            floor,
            is_all,
            chunks,
        } => put_found(out, *session, *after, *floor, *is_all, chunks.as_slice()),
        PeerLine::Wants { session, number } => put_words(
            out,
            &[
                Piece::Text(b"wants"),
                Piece::Number(u64::from(*session)),
                Piece::Number(*number),
            ],
        ),
        PeerLine::Gives {
            session,
            number,
            bytes,
        } => put_gives(out, *session, *number, bytes.as_slice()),
        PeerLine::Misses { session, number } => put_words(
            out,
            &[
                Piece::Text(b"misses"),
                Piece::Number(u64::from(*session)),
                Piece::Number(*number),
            ],
        ),
        PeerLine::Spoilt { session, number } => put_words(
            out,
            &[
                Piece::Text(b"spoilt"),
                Piece::Number(u64::from(*session)),
                Piece::Number(*number),
            ],
        ),
    }
}

/// Appends the line by which the node of the one number says this to that of the other about the tenant, with its newline. Where memory is wanting a part of the line may
/// have been appended.
pub fn put_peer_line(
    out: &mut Vec<u8>,
    plan: &Plan,
    from: u16,
    to: u16,
    tenant: u8,
    line: &PeerLine,
) -> Result<(), OutOfMemory>
    requires { tenant < length plan.now.rows }
    ensures ok { OnOk result (out.new.items ≡ out.old.items ++ saying_text plan.now from to tenant (saying_of line.now)) }
    ensures err { OnErr result (Extends out.old.items out.new.items) }
{
    put_head(out, plan, from, to, tenant)?;
    put_saying(out, line)
}

// What a node asks whose plan tells so many losses.
fn line_of_ask(losses: u64, ask: Ask) -> PeerLine
    ensures { saying_of result ≡ saying_of_ask losses ask }
{
    match ask {
        Ask::Seeks { session, after } => PeerLine::Seeks {
            losses,
            session,
            after,
        },
        Ask::Wants { session, number } => PeerLine::Wants { session, number },
    }
}

/// Appends the lines of these asks, as [`put_peer_line`] does.
pub(crate) fn put_ask_lines(
    out: &mut Vec<u8>,
    plan: &Plan,
    from: u16,
    to: u16,
    tenant: u8,
    losses: u64,
    asks: &[Ask],
) -> Result<(), OutOfMemory>
    requires { tenant < length plan.now.rows }
    ensures { OnOk result (out.new.items ≡ out.old.items ++ asks_text plan.now from to tenant losses asks.now) }
{
    for ask in asks {
        put_peer_line(out, plan, from, to, tenant, &line_of_ask(losses, *ask))?;
    }
    Ok(())
}

// What a peer says of which a tenant would be told this; none of a session that is not there.
fn line_of_answer(answer: ChunkAnswer) -> Option<PeerLine>
    ensures { option_map saying_of result ≡ saying_of_answer answer }
{
    match answer {
        ChunkAnswer::Listed {
            session,
            after,
            floor,
            chunks,
            is_all,
        } => Some(PeerLine::Found {
            session,
            after,
            floor,
            is_all,
            chunks,
        }),
        ChunkAnswer::Found {
            session,
            number,
            found: Found::There(bytes),
            ..
        } => Some(PeerLine::Gives {
            session,
            number,
            bytes,
        }),
        ChunkAnswer::Found {
            session,
            number,
            found: Found::Damaged,
            ..
        } => Some(PeerLine::Spoilt { session, number }),
        ChunkAnswer::Found {
            session,
            number,
            found: Found::Nothing,
            ..
        } => Some(PeerLine::Misses { session, number }),
        _ => None,
    }
}

/// Appends the line by which a peer answers, of which a tenant would be told this, if there is one.
pub(crate) fn put_peer_answer(
    out: &mut Vec<u8>,
    plan: &Plan,
    from: u16,
    to: u16,
    tenant: u8,
    answer: ChunkAnswer,
) -> Result<(), OutOfMemory>
    requires { tenant < length plan.now.rows }
    ensures { OnOk result (out.new.items ≡ out.old.items ++ peer_answer_text plan.now from to tenant answer) }
{
    match line_of_answer(answer) {
        Some(line) => put_peer_line(out, plan, from, to, tenant, &line),
        None => Ok(()),
    }
}
