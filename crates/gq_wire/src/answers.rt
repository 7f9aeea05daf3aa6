//! The lines by which a node tells a tenant.
//!
//! Volumes are told by runs only where there are more than 64, so that older clients read each answer `plan` that they could
//! read.

ghost use Rattle.std.specs.Prelude.{◌≡◌, [], ◌∷◌, ◌++◌, ◌<◌, length, map, codes, decimal, OnOk, OnErr};
ghost use Rattle.std.specs.List.{flat_map};
ghost use Rattle.gq_desk.specs.CheckedPlan.{row_at};
ghost use Rattle.gq_lines.specs.Written.{line_text, spaced, Extends};
ghost use Rattle.gq_text.specs.AnswerText.{outcome_words};
ghost use Rattle.gq_text.specs.Pieces.{words_in};
ghost use Rattle.gq_wire.specs.Texts.{volume_in, file_in, length_in, word_of, refusal_words_of, volume_word, are_alike, run_word, runs_behind, run_words, volumes_words, holding_words, form_word, grid_words, held_word, looked_words, told_words, told_line};

use crate::incoming::LINE_FORM;
use gq_desk::{Plan, VolumeRow};
use gq_grid::Grid;
use gq_lines::put_number;
use gq_memory::{GrowCopies, GrowVec, OutOfMemory};
use gq_model::{Line, Refusal};
use gq_node::{Answer, Holding, Look};
use gq_phase::{Outcome, Row};
use gq_text::{Piece, put_done, put_words};

/// The most open volumes of a tenant that are told one by one. Where there are more, those that are alike, one after another, are told at once.
pub const VOLUMES_ONE_BY_ONE: usize = 64;

// The volume that the request names.
fn volume_in(line: &Line) -> u32
    ensures { result ≡ volume_in line.now }
{
    match line {
        Line::Write { volume, .. } => *volume,
        Line::Read { volume, .. } => *volume,
        Line::List { volume, .. } => *volume,
        _ => 0,
    }
}

// The file that the request names.
fn file_in(line: &Line) -> u32
    ensures { result ≡ file_in line.now }
{
    match line {
        Line::Write { file, .. } => *file,
        Line::Read { file, .. } => *file,
        _ => 0,
    }
}

// The length of the content that the request has.
fn length_in(line: &Line) -> u64
    ensures { result ≡ length_in line.now }
{
    match line {
        Line::Write { bytes, .. } => bytes.len() as u64,
        _ => 0,
    }
}

// The first word by which a script is told the refusal.
fn refusal_word(refusal: Refusal) -> &'static [u8]
    ensures { word_of refusal ≡ result.now }
{
    match refusal {
        Refusal::Spent => b"spent",
        Refusal::Bad => b"bad",
        Refusal::NoSession => b"nosession",
        Refusal::Busy => b"busy",
        Refusal::Idle => b"idle",
        Refusal::NoVolume => b"novolume",
        Refusal::NoFile => b"nofile",
        Refusal::TooLong => b"toolong",
        Refusal::NoQuorum => b"noquorum",
        Refusal::NoMessage => b"nomessage",
        Refusal::Size => b"size",
        Refusal::Volumes => b"volumes",
        Refusal::Share { .. } => b"share",
    }
}

// Appends to whom a line goes, and from which node.
fn put_head(out: &mut Vec<u8>, plan: &Plan, from: u16, tenant: u8) -> Result<(), OutOfMemory>
    requires { tenant < length plan.now.rows }
    ensures ok { OnOk result (out.new.items ≡ out.old.items ++ (row_at plan.now tenant).name ++ 32 ∷ decimal from) }
    ensures err { OnErr result (Extends out.old.items out.new.items) }
{
    out.grow_by(plan.row(tenant).name.as_bytes())?;
    out.grow(b' ')?;
    put_number(out, u64::from(from))
}

// Appends a line to the tenant from that node.
fn put_line(
    out: &mut Vec<u8>,
    plan: &Plan,
    from: u16,
    tenant: u8,
    words: &[Piece],
) -> Result<(), OutOfMemory>
    requires { tenant < length plan.now.rows }
    ensures ok { OnOk result (out.new.items ≡ out.old.items ++ line_text (row_at plan.now tenant).name (decimal from ∷ flat_map words_in words.now)) }
    ensures err { OnErr result (Extends out.old.items out.new.items) }
{
    put_head(out, plan, from, tenant)?;
    put_words(out, words)
}

// Appends the line of how an operation ended.
fn put_ended(
    out: &mut Vec<u8>,
    plan: &Plan,
    from: u16,
    tenant: u8,
    outcome: &Outcome,
) -> Result<(), OutOfMemory>
    requires { tenant < length plan.now.rows }
    ensures ok { OnOk result (out.new.items ≡ out.old.items ++ line_text (row_at plan.now tenant).name (decimal from ∷ codes "done" ∷ outcome_words outcome.now)) }
    ensures err { OnErr result (Extends out.old.items out.new.items) }
{
    put_head(out, plan, from, tenant)?;
    put_done(out, outcome)
}

// Appends the line by which the request `asked` is refused, whose operation was to have that number.
fn put_refused(
    out: &mut Vec<u8>,
    plan: &Plan,
    from: u16,
    tenant: u8,
    session: u32,
    op: u32,
    refusal: Refusal,
    asked: &Line,
) -> Result<(), OutOfMemory>
    requires { tenant < length plan.now.rows }
    ensures ok { OnOk result (out.new.items ≡ out.old.items ++ line_text (row_at plan.now tenant).name (decimal from ∷ codes "refused" ∷ refusal_words_of session op refusal asked.now)) }
    ensures err { OnErr result (Extends out.old.items out.new.items) }
{
    let session = Piece::Number(u64::from(session));
    let op = Piece::Number(u64::from(op));
    let volume = Piece::Number(u64::from(volume_in(asked)));
    let file = Piece::Number(u64::from(file_in(asked)));
    let length = Piece::Number(length_in(asked));
    match refusal {
        Refusal::NoVolume => put_line(
            out,
            plan,
            from,
            tenant,
            &[Piece::Text(b"refused novolume"), session, op, volume],
        ),
        Refusal::NoFile => put_line(
            out,
            plan,
            from,
            tenant,
            &[Piece::Text(b"refused nofile"), session, op, volume, file],
        ),
        Refusal::TooLong => put_line(
            out,
            plan,
            from,
            tenant,
            &[
                Piece::Text(b"refused toolong"),
                session,
                op,
                volume,
                file,
                length,
            ],
        ),
        refusal => put_line(
            out,
            plan,
            from,
            tenant,
            &[
                Piece::Text(b"refused"),
                Piece::Text(refusal_word(refusal)),
                session,
                op,
            ],
        ),
    }
}

// Appends the line by which a number that can't begin is refused for this word, with the number of the session's last
// operation behind it.
fn put_last(
    out: &mut Vec<u8>,
    plan: &Plan,
    from: u16,
    tenant: u8,
    word: &[u8],
    session: u32,
    op: u32,
    last: u32,
) -> Result<(), OutOfMemory>
    requires { tenant < length plan.now.rows }
    ensures ok { OnOk result (out.new.items ≡ out.old.items ++ line_text (row_at plan.now tenant).name (decimal from ∷ codes "refused" ∷ word.now ∷ decimal session ∷ decimal op ∷ decimal last ∷ [])) }
    ensures err { OnErr result (Extends out.old.items out.new.items) }
{
    put_line(
        out,
        plan,
        from,
        tenant,
        &[
            Piece::Text(b"refused"),
            Piece::Text(word),
            Piece::Number(u64::from(session)),
            Piece::Number(u64::from(op)),
            Piece::Number(u64::from(last)),
        ],
    )
}

// Appends a volume.
fn put_volume(out: &mut Vec<u8>, volume: &VolumeRow) -> Result<(), OutOfMemory>
    ensures ok { OnOk result (out.new.items ≡ out.old.items ++ 32 ∷ volume_word volume.now) }
    ensures err { OnErr result (Extends out.old.items out.new.items) }
{
    out.grow(b' ')?;
    put_number(out, u64::from(volume.files))?;
    out.grow(b'.')?;
    put_number(out, u64::from(volume.blocks))
}

// Appends volumes.
fn put_volumes(out: &mut Vec<u8>, volumes: &[VolumeRow]) -> Result<(), OutOfMemory>
    ensures ok { OnOk result (out.new.items ≡ out.old.items ++ spaced (map volume_word volumes.now)) }
    ensures err { OnErr result (Extends out.old.items out.new.items) }
{
    for volume in volumes {
        put_volume(out, volume)?;
    }
    Ok(())
}

// Appends a run of volumes that are alike.
fn put_run(out: &mut Vec<u8>, volume: &VolumeRow, times: usize) -> Result<(), OutOfMemory>
    ensures ok { OnOk result (out.new.items ≡ out.old.items ++ 32 ∷ run_word volume.now times) }
    ensures err { OnErr result (Extends out.old.items out.new.items) }
{
    put_volume(out, volume)?;
    out.grow(b'.')?;
    put_number(out, times as u64)
}

fn are_alike(a: &VolumeRow, b: &VolumeRow) -> bool
    ensures { result ≡ are_alike a.now b.now }
{
    a.files == b.files && a.blocks == b.blocks
}

// Appends the first volume and those behind it by runs.
fn put_runs_from(
    out: &mut Vec<u8>,
    first: &VolumeRow,
    volumes: &[VolumeRow],
) -> Result<(), OutOfMemory>
    ensures ok { OnOk result (out.new.items ≡ out.old.items ++ spaced (runs_behind first.now 1 volumes.now)) }
    ensures err { OnErr result (Extends out.old.items out.new.items) }
{
    let mut run = *first;
    let mut times = 1usize;
    for volume in volumes {
        if are_alike(volume, &run) {
            times += 1;
        } else {
            put_run(out, &run, times)?;
            run = *volume;
            times = 1;
        }
    }
    put_run(out, &run, times)
}

// Appends volumes by runs.
fn put_runs(out: &mut Vec<u8>, volumes: &[VolumeRow]) -> Result<(), OutOfMemory>
    ensures ok { OnOk result (out.new.items ≡ out.old.items ++ spaced (run_words volumes.now)) }
    ensures err { OnErr result (Extends out.old.items out.new.items) }
{
    match volumes {
        [] => Ok(()),
        [first, rest @ ..] => put_runs_from(out, first, rest),
    }
}

// Appends the volumes that are open.
fn put_open_volumes(out: &mut Vec<u8>, volumes: &[VolumeRow]) -> Result<(), OutOfMemory>
    ensures ok { OnOk result (out.new.items ≡ out.old.items ++ spaced (volumes_words volumes.now)) }
    ensures err { OnErr result (Extends out.old.items out.new.items) }
{
    if volumes.len() <= VOLUMES_ONE_BY_ONE {
        put_volumes(out, volumes)
    } else {
        put_runs(out, volumes)
    }
}

// Appends a number after a space.
fn put_spaced(out: &mut Vec<u8>, n: u64) -> Result<(), OutOfMemory>
    ensures ok { OnOk result (out.new.items ≡ out.old.items ++ 32 ∷ decimal n) }
    ensures err { OnErr result (Extends out.old.items out.new.items) }
{
    out.grow(b' ')?;
    put_number(out, n)
}

// Appends numbers, each after a space.
fn put_numbers(out: &mut Vec<u8>, numbers: &[u64]) -> Result<(), OutOfMemory>
    ensures ok { OnOk result (out.new.items ≡ out.old.items ++ spaced (map decimal numbers.now)) }
    ensures err { OnErr result (Extends out.old.items out.new.items) }
{
    for number in numbers {
        put_spaced(out, *number)?;
    }
    Ok(())
}

// Appends numbers of nodes, each after a space.
fn put_nodes(out: &mut Vec<u8>, nodes: &[u16]) -> Result<(), OutOfMemory>
    ensures ok { OnOk result (out.new.items ≡ out.old.items ++ spaced (map decimal nodes.now)) }
    ensures err { OnErr result (Extends out.old.items out.new.items) }
{
    for node in nodes {
        put_spaced(out, u64::from(*node))?;
    }
    Ok(())
}

// Appends how the nodes are arranged.
fn put_grid(out: &mut Vec<u8>, grid: &Grid) -> Result<(), OutOfMemory>
    ensures ok { OnOk result (out.new.items ≡ out.old.items ++ spaced (grid_words grid.now)) }
    ensures err { OnErr result (Extends out.old.items out.new.items) }
{
    out.grow_by(b" rows=")?;
    put_number(out, grid.rows() as u64)?;
    out.grow_by(b" columns=")?;
    put_number(out, grid.cols() as u64)
}

// Appends the form of lines that the node speaks, and how the nodes are arranged.
fn put_form(out: &mut Vec<u8>, grid: &Grid) -> Result<(), OutOfMemory>
    ensures ok { OnOk result (out.new.items ≡ out.old.items ++ spaced (form_word ∷ grid_words grid.now)) }
    ensures err { OnErr result (Extends out.old.items out.new.items) }
{
    out.grow_by(b" lines=")?;
    put_number(out, u64::from(LINE_FORM))?;
    put_grid(out, grid)
}

// Appends what a tenant has.
fn put_holding(out: &mut Vec<u8>, holding: &Holding) -> Result<(), OutOfMemory>
    ensures ok { OnOk result (out.new.items ≡ out.old.items ++ spaced (codes "plan" ∷ holding_words holding.now)) }
    ensures err { OnErr result (Extends out.old.items out.new.items) }
{
    out.grow_by(b" plan")?;
    let numbers = [
        u64::from(holding.servers),
        u64::from(holding.home),
        u64::from(holding.sessions),
        u64::from(holding.share),
        u64::from(holding.most_blocks),
    ];
    put_numbers(out, &numbers)?;
    put_open_volumes(out, holding.volumes.items.as_slice())?;
    put_nodes(out, holding.nodes.items.as_slice())
}

// Appends the line of what a tenant has, of the form of lines that the node speaks, and of how the nodes are arranged.
fn put_has(
    out: &mut Vec<u8>,
    plan: &Plan,
    from: u16,
    tenant: u8,
    holding: &Holding,
) -> Result<(), OutOfMemory>
    requires { tenant < length plan.now.rows }
    ensures ok { OnOk result (out.new.items ≡ out.old.items ++ line_text (row_at plan.now tenant).name (decimal from ∷ codes "plan" ∷ holding_words holding.now ++ form_word ∷ grid_words plan.now.grid)) }
    ensures err { OnErr result (Extends out.old.items out.new.items) }
{
    put_head(out, plan, from, tenant)?;
    put_holding(out, holding)?;
    put_form(out, plan.grid())?;
    out.grow(b'\n')
}

// Appends what the server has of a file, after a space.
fn put_held(out: &mut Vec<u8>, row: &Option<Row>) -> Result<(), OutOfMemory>
    ensures ok { OnOk result (out.new.items ≡ out.old.items ++ 32 ∷ held_word row.now) }
    ensures err { OnErr result (Extends out.old.items out.new.items) }
{
    let Some(row) = row else {
        return out.grow_by(b" -");
    };
    put_spaced(out, row.length)?;
    out.grow(b':')?;
    put_number(out, row.tag.number)?;
    out.grow(b'.')?;
    put_number(out, u64::from(row.tag.session))
}

// Appends what it has of each file.
fn put_rows(out: &mut Vec<u8>, rows: &[Option<Row>]) -> Result<(), OutOfMemory>
    ensures ok { OnOk result (out.new.items ≡ out.old.items ++ spaced (map held_word rows.now)) }
    ensures err { OnErr result (Extends out.old.items out.new.items) }
{
    for row in rows {
        put_held(out, row)?;
    }
    Ok(())
}

// Appends the line of what the server has of a volume.
fn put_looked(
    out: &mut Vec<u8>,
    plan: &Plan,
    from: u16,
    tenant: u8,
    look: &Look,
) -> Result<(), OutOfMemory>
    requires { tenant < length plan.now.rows }
    ensures ok { OnOk result (out.new.items ≡ out.old.items ++ line_text (row_at plan.now tenant).name (decimal from ∷ looked_words look.now)) }
    ensures err { OnErr result (Extends out.old.items out.new.items) }
{
    put_head(out, plan, from, tenant)?;
    out.grow_by(b" looked")?;
    let numbers = [look.mark, u64::from(look.volume), look.losses as u64];
    put_numbers(out, &numbers)?;
    put_rows(out, look.rows.items.as_slice())?;
    out.grow(b'\n')
}

/// Appends the line by which the node of that number tells the tenant this, or a part of it where memory is refused. `asked` is
/// the request that is answered; where an operation is done by a letter, and where a question is answered, it is not looked at.
pub fn put_told(
    out: &mut Vec<u8>,
    plan: &Plan,
    from: u16,
    tenant: u8,
    asked: &Line,
    answer: &Answer,
) -> Result<(), OutOfMemory>
    requires { tenant < length plan.now.rows }
    ensures ok { OnOk result (out.new.items ≡ out.old.items ++ told_line plan.now from tenant asked.now answer.now) }
    ensures err { OnErr result (Extends out.old.items out.new.items) }
{
    match answer {
        Answer::Done(outcome) => put_ended(out, plan, from, tenant, outcome),
        Answer::Gone { session, op } => put_line(
            out,
            plan,
            from,
            tenant,
            &[
                Piece::Text(b"gone"),
                Piece::Number(u64::from(*session)),
                Piece::Number(u64::from(*op)),
            ],
        ),
        Answer::Refused {
            session,
            op,
            refusal,
        } => put_refused(out, plan, from, tenant, *session, *op, *refusal, asked),
        Answer::Old { session, op, last } => {
            put_last(out, plan, from, tenant, b"old", *session, *op, *last)
        }
        Answer::Early { session, op, last } => {
            put_last(out, plan, from, tenant, b"early", *session, *op, *last)
        }
        Answer::Busy { session, op, last } => {
            put_last(out, plan, from, tenant, b"busy", *session, *op, *last)
        }
        Answer::Away { session, op, home } => put_line(
            out,
            plan,
            from,
            tenant,
            &[
                Piece::Text(b"refused home"),
                Piece::Number(u64::from(*home)),
                Piece::Number(u64::from(*session)),
                Piece::Number(u64::from(*op)),
            ],
        ),
        Answer::Has(holding) => put_has(out, plan, from, tenant, holding),
        Answer::Looked(look) => put_looked(out, plan, from, tenant, look),
        Answer::NotLooked { mark, volume } => put_line(
            out,
            plan,
            from,
            tenant,
            &[
                Piece::Text(b"refused novolume"),
                Piece::Number(*mark),
                Piece::Number(u64::from(*volume)),
            ],
        ),
        Answer::Bad => put_line(out, plan, from, tenant, &[Piece::Text(b"refused bad")]),
    }
}
