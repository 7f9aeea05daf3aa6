//! Answers as they are written.

ghost use Rattle.std.specs.Prelude.{◌≡◌, ◌<◌, ◌++◌, [], ◌∷◌, map, length, codes, decimal, IfOk, OnOk, OnErr};
ghost use Rattle.gq_desk.specs.CheckedPlan.{row_at};
ghost use Rattle.gq_lines.specs.Written.{bytes_word, ended, spaced, Extends};
ghost use Rattle.gq_chunks.specs.Requests.{quoted_word};
ghost use Rattle.gq_chunks.specs.Answers.{part_of, quotes_short, told_content, kept_words, nothing_word, found_words, chunk_word, end_words, answer_words, chunk_answer_text};

use gq_depot::{ChunkAnswer, ListedChunk};
use gq_desk::Plan;
use gq_escape::put_escaped;
use gq_lines::put_number;
use gq_memory::{GrowCopies, GrowVec, OutOfMemory};
use gq_quote::put_quoted;
use gq_stock::{Found, Keeping};
use gq_text::{Piece, put_words};

// Appends whom it is told, and by which node.
fn put_head(out: &mut Vec<u8>, plan: &Plan, node: u16, tenant: u8) -> Result<(), OutOfMemory>
    requires { tenant < length plan.now.rows }
    ensures ok { OnOk result (out.new.items ≡ out.old.items ++ (row_at plan.now tenant).name ++ spaced (decimal node ∷ [])) }
    ensures err { OnErr result (Extends out.old.items out.new.items) }
{
    out.grow_by(plan.row(tenant).name.as_bytes())?;
    out.grow(b' ')?;
    put_number(out, u64::from(node))
}

// Appends a space and a number.
pub(crate) fn put_spaced(out: &mut Vec<u8>, n: u64) -> Result<(), OutOfMemory>
    ensures ok { OnOk result (out.new.items ≡ out.old.items ++ spaced (decimal n ∷ [])) }
    ensures err { OnErr result (Extends out.old.items out.new.items) }
{
    out.grow(b' ')?;
    put_number(out, n)
}

// Appends a content in the form of other lines.
fn put_bytes(out: &mut Vec<u8>, bytes: &[u8]) -> Result<(), OutOfMemory>
    ensures ok { OnOk result (out.new.items ≡ out.old.items ++ spaced (bytes_word bytes.now ∷ [])) }
    ensures err { OnErr result (Extends out.old.items out.new.items) }
{
    if bytes.is_empty() {
        return out.grow_by(b" -");
    }
    out.grow_by(b" =")?;
    put_escaped(out, bytes)
}

// Appends a content with Python's escapes, and says whether these are short.
fn put_short(out: &mut Vec<u8>, bytes: &[u8]) -> Result<bool, OutOfMemory>
    ensures short { IfOk result (λ short. short ≡ quotes_short bytes.now) }
    ensures ok { OnOk result (out.new.items ≡ out.old.items ++ spaced (quoted_word bytes.now ∷ [])) }
    ensures err { OnErr result (Extends out.old.items out.new.items) }
{
    out.grow_by(b" ~")?;
    let start = out.len();
    put_quoted(out, bytes)?;
    Ok(out.len() - start <= 2 * bytes.len())
}

// Appends the word of a content.
pub(crate) fn put_content(out: &mut Vec<u8>, bytes: &[u8]) -> Result<(), OutOfMemory>
    ensures ok { OnOk result (out.new.items ≡ out.old.items ++ spaced (told_content bytes.now ∷ [])) }
    ensures err { OnErr result (Extends out.old.items out.new.items) }
{
    let start = out.len();
    if put_short(out, bytes)? {
        return Ok(());
    }
    out.truncate(start);
    put_bytes(out, bytes)
}

// Appends the words of a content that was to be kept.
fn put_kept(
    out: &mut Vec<u8>,
    session: u32,
    number: u64,
    losses: u64,
    floor: u64,
    free: u64,
    told: Keeping,
) -> Result<(), OutOfMemory>
    ensures ok { OnOk result (out.new.items ≡ out.old.items ++ ended (kept_words session number losses floor free told)) }
    ensures err { OnErr result (Extends out.old.items out.new.items) }
{
    let session = Piece::Number(u64::from(session));
    let number = Piece::Number(number);
    match told {
        Keeping::New | Keeping::Same => put_words(
            out,
            &[Piece::Text(b"kept"), session, number, Piece::Number(losses)],
        ),
        Keeping::Differs => put_words(
            out,
            &[
                Piece::Text(b"refused"),
                Piece::Text(b"differs"),
                session,
                number,
            ],
        ),
        Keeping::Damaged => put_words(out, &[Piece::Text(b"damaged"), session, number]),
        Keeping::Below => put_words(
            out,
            &[
                Piece::Text(b"refused"),
                Piece::Text(b"below"),
                session,
                number,
                Piece::Number(floor),
            ],
        ),
        Keeping::Full => put_words(
            out,
            &[
                Piece::Text(b"refused"),
                Piece::Text(b"room"),
                session,
                number,
                Piece::Number(free),
            ],
        ),
        Keeping::NoSpace => put_words(
            out,
            &[
                Piece::Text(b"refused"),
                Piece::Text(b"full"),
                session,
                number,
            ],
        ),
    }
}

// The bytes from this place on, at most so many.
fn part_of(bytes: &[u8], from: u64, long: u64) -> &[u8]
    ensures { result.now ≡ part_of from long bytes.now }
{
    let rest = if from >= bytes.len() as u64 {
        &bytes[bytes.len()..]
    } else {
        &bytes[from as usize..]
    };
    if long >= rest.len() as u64 {
        rest
    } else {
        &rest[..long as usize]
    }
}

// Appends the words of a content that is found.
fn put_got(
    out: &mut Vec<u8>,
    session: u32,
    number: u64,
    from: u64,
    long: u64,
    bytes: &[u8],
) -> Result<(), OutOfMemory>
    ensures ok { OnOk result (out.new.items ≡ out.old.items ++ ended (codes "got" ∷ decimal session ∷ decimal number ∷ decimal (length bytes.now) ∷ decimal from ∷ told_content (part_of from long bytes.now) ∷ [])) }
    ensures err { OnErr result (Extends out.old.items out.new.items) }
{
    out.grow_by(b" got")?;
    put_spaced(out, u64::from(session))?;
    put_spaced(out, number)?;
    put_spaced(out, bytes.len() as u64)?;
    put_spaced(out, from)?;
    put_content(out, part_of(bytes, from, long))?;
    out.grow(b'\n')
}

// Appends the words of what is found.
fn put_found(
    out: &mut Vec<u8>,
    session: u32,
    number: u64,
    from: u64,
    long: u64,
    lacks: bool,
    found: &Found,
) -> Result<(), OutOfMemory>
    ensures ok { OnOk result (out.new.items ≡ out.old.items ++ ended (found_words session number from long lacks found.now)) }
    ensures err { OnErr result (Extends out.old.items out.new.items) }
{
    let word: &[u8] = match found {
        Found::There(bytes) => {
            return put_got(out, session, number, from, long, bytes.as_slice());
        }
        Found::Damaged => b"damaged",
        Found::Nothing => { if lacks { b"lacks" } else { b"none" } }
    };
    put_words(
        out,
        &[
            Piece::Text(word),
            Piece::Number(u64::from(session)),
            Piece::Number(number),
        ],
    )
}

// Appends a chunk of a listing.
fn put_chunk(out: &mut Vec<u8>, chunk: &ListedChunk) -> Result<(), OutOfMemory>
    ensures ok { OnOk result (out.new.items ≡ out.old.items ++ spaced (chunk_word chunk.now ∷ [])) }
    ensures err { OnErr result (Extends out.old.items out.new.items) }
{
    put_spaced(out, chunk.number)?;
    out.grow(b'.')?;
    put_number(out, chunk.size)
}

// Appends the chunks of a listing.
fn put_chunks(out: &mut Vec<u8>, chunks: &[ListedChunk]) -> Result<(), OutOfMemory>
    ensures ok { OnOk result (out.new.items ≡ out.old.items ++ spaced (map chunk_word chunks.now)) }
    ensures err { OnErr result (Extends out.old.items out.new.items) }
{
    for chunk in chunks {
        put_chunk(out, chunk)?;
    }
    Ok(())
}

// Appends the words of a listing.
fn put_listed(
    out: &mut Vec<u8>,
    session: u32,
    after: u64,
    floor: u64,
    chunks: &[ListedChunk],
    is_all: bool,
) -> Result<(), OutOfMemory>
    ensures ok { OnOk result (out.new.items ≡ out.old.items ++ ended (codes "chunks" ∷ decimal session ∷ decimal after ∷ decimal floor ∷ map chunk_word chunks.now ++ end_words is_all)) }
    ensures err { OnErr result (Extends out.old.items out.new.items) }
{
    out.grow_by(b" chunks")?;
    put_spaced(out, u64::from(session))?;
    put_spaced(out, after)?;
    put_spaced(out, floor)?;
    put_chunks(out, chunks)?;
    if is_all {
        out.grow_by(b" end")?;
    }
    out.grow(b'\n')
}

// Appends the words of an answer, to the end of the line.
fn put_answer(out: &mut Vec<u8>, answer: &ChunkAnswer) -> Result<(), OutOfMemory>
    ensures ok { OnOk result (out.new.items ≡ out.old.items ++ ended (answer_words answer.now)) }
    ensures err { OnErr result (Extends out.old.items out.new.items) }
{
    match answer {
        ChunkAnswer::Bad => put_words(out, &[Piece::Text(b"refused"), Piece::Text(b"bad")]),
        ChunkAnswer::NoSession { session, number } => put_words(
            out,
            &[
                Piece::Text(b"refused"),
                Piece::Text(b"nosession"),
                Piece::Number(u64::from(*session)),
                Piece::Number(*number),
            ],
        ),
        ChunkAnswer::TooLong {
            session,
            number,
            length,
        } => put_words(
            out,
            &[
                Piece::Text(b"refused"),
                Piece::Text(b"toolong"),
                Piece::Number(u64::from(*session)),
                Piece::Number(*number),
                Piece::Number(*length),
            ],
        ),
        ChunkAnswer::Kept {
            session,
            number,
            told,
            losses,
            floor,
            free,
        } => put_kept(out, *session, *number, *losses, *floor, *free, *told),
        ChunkAnswer::Found {
            session,
            number,
            from,
            length,
            found,
            lacks,
        } => put_found(out, *session, *number, *from, *length, *lacks, found),
        ChunkAnswer::Forgot {
            session,
            floor,
            run,
        } => put_words(
            out,
            &[
                Piece::Text(b"forgot"),
                Piece::Number(u64::from(*session)),
                Piece::Number(*floor),
                Piece::Number(run.first),
                Piece::Number(run.last),
            ],
        ),
        ChunkAnswer::Lacking { session, floor } => put_words(
            out,
            &[
                Piece::Text(b"refused"),
                Piece::Text(b"lacks"),
                Piece::Number(u64::from(*session)),
                Piece::Number(*floor),
            ],
        ),
        ChunkAnswer::Listed {
            session,
            after,
            floor,
            chunks,
            is_all,
        } => put_listed(out, *session, *after, *floor, chunks.as_slice(), *is_all),
        ChunkAnswer::Room {
            used,
            allowed,
            losses,
            lacks,
        } => put_words(
            out,
            &[
                Piece::Text(b"room"),
                Piece::Number(*used),
                Piece::Number(*allowed),
                Piece::Number(*losses),
                Piece::Number(u64::from(*lacks)),
            ],
        ),
    }
}

/// Appends the line by which the node of that number tells the tenant this, with its newline. Where memory is wanting a part of the line may have been appended.
pub fn put_chunk_answer(
    out: &mut Vec<u8>,
    plan: &Plan,
    node: u16,
    tenant: u8,
    answer: &ChunkAnswer,
) -> Result<(), OutOfMemory>
    requires { tenant < length plan.now.rows }
    ensures ok { OnOk result (out.new.items ≡ out.old.items ++ chunk_answer_text plan.now node tenant answer.now) }
    ensures err { OnErr result (Extends out.old.items out.new.items) }
{
    put_head(out, plan, node, tenant)?;
    put_answer(out, answer)
}
