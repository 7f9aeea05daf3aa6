//! The canonical script of a plan and events.

ghost use Rattle.std.specs.Prelude.{◌≡◌, ◌++◌, codes, true, OnOk, OnErr};
ghost use Rattle.std.specs.List.{All, flat_map, list_all};
ghost use Rattle.hex.specs.Hex.{IsBytes};
ghost use Rattle.gq_grid.specs.Grid.{is_side};
ghost use Rattle.gq_model.specs.Events.{IsIn};
ghost use Rattle.gq_model.specs.declared.events.Line.TheVariants.{Write};
ghost use Rattle.gq_lines.specs.Written.{line_text, Extends};
ghost use Rattle.gq_text.specs.Pieces.{words_in};
ghost use Rattle.gq_text.specs.Canonical.{line_words, server_line_words, event_line, is_plain_row, has_room, row_line, head_text, plan_text, script_text, IsPlan, FitsLine, FitsServerLine, Fits, IsScriptOf};

use crate::pieces::{Piece, put_words};
use crate::plan_text::{BLOCKS_WITHOUT_ROOM, FILE_BLOCKS_WITHOUT_ROOM, VOLUMES_WHERE_UNSAID};
use gq_desk::{Plan, TenantRow};
use gq_memory::{GrowCopies, OutOfMemory};
use gq_model::{Event, Line, ServerLine};

// Appends a line of words.
fn put_line(out: &mut Vec<u8>, first: &[u8], words: &[Piece]) -> Result<(), OutOfMemory>
    ensures ok { OnOk result (out.new.items ≡
        out.old.items ++ line_text first.now (flat_map words_in words.now)) }
    ensures err { OnErr result (Extends out.old.items out.new.items) }
{
    out.grow_by(first)?;
    put_words(out, words)
}

// Whether each row says no more than one in a plan with `blocks`.
fn are_plain_rows(rows: &[TenantRow]) -> bool
    ensures { result ≡ list_all is_plain_row rows.now }
{
    rows.iter().all(|row| {
        row.most_blocks == FILE_BLOCKS_WITHOUT_ROOM && row.most_volumes == VOLUMES_WHERE_UNSAID
    })
}

// Whether the text of the plan is one with `room`.
fn has_room(plan: &Plan) -> bool
    ensures { result ≡ has_room plan.now }
{
    plan.blocks() > BLOCKS_WITHOUT_ROOM || !are_plain_rows(plan.rows())
}

// Appends the line of a tenant's row.
fn put_row(out: &mut Vec<u8>, room: bool, row: &TenantRow) -> Result<(), OutOfMemory>
    ensures ok { OnOk result (out.new.items ≡ out.old.items ++ row_line room row.now) }
    ensures err { OnErr result (Extends out.old.items out.new.items) }
{
    let name = Piece::Text(row.name.as_bytes());
    let share = Piece::Number(u64::from(row.share));
    let sessions = Piece::Number(u64::from(row.sessions));
    let steps = Piece::Number(u64::from(row.steps));
    if !room {
        return put_line(out, b"tenant", &[name, share, sessions, steps]);
    }
    let most_blocks = Piece::Number(u64::from(row.most_blocks));
    if row.most_volumes == VOLUMES_WHERE_UNSAID {
        return put_line(out, b"tenant", &[name, share, sessions, steps, most_blocks]);
    }
    let most_volumes = Piece::Number(u64::from(row.most_volumes));
    put_line(
        out,
        b"tenant",
        &[name, share, sessions, steps, most_blocks, most_volumes],
    )
}

// Appends the lines of rows.
fn put_rows(out: &mut Vec<u8>, room: bool, rows: &[TenantRow]) -> Result<(), OutOfMemory>
    ensures ok { OnOk result (out.new.items ≡ out.old.items ++ flat_map (row_line room) rows.now) }
    ensures err { OnErr result (Extends out.old.items out.new.items) }
{
    for row in rows {
        put_row(out, room, row)?;
    }
    Ok(())
}

// Appends the first two lines of a plan.
fn put_head(out: &mut Vec<u8>, room: bool, plan: &Plan) -> Result<(), OutOfMemory>
    requires { room ≡ has_room plan.now }
    ensures ok { OnOk result (out.new.items ≡ out.old.items ++ head_text plan.now) }
    ensures err { OnErr result (Extends out.old.items out.new.items) }
    ensures rows { is_side plan.now.grid.rows ≡ true }
    ensures cols { is_side plan.now.grid.cols ≡ true }
{
    let grid = plan.grid();
    put_line(
        out,
        b"grid",
        &[
            Piece::Number(grid.rows() as u64),
            Piece::Number(grid.cols() as u64),
        ],
    )?;
    let blocks = Piece::Number(u64::from(plan.blocks()));
    if room {
        put_line(out, b"room", &[blocks])
    } else {
        put_line(out, b"blocks", &[blocks])
    }
}

// Appends the lines of a plan, up to `go`.
fn put_plan(out: &mut Vec<u8>, plan: &Plan) -> Result<(), OutOfMemory>
    ensures ok { OnOk result (out.new.items ≡ out.old.items ++ plan_text plan.now) }
    ensures err { OnErr result (Extends out.old.items out.new.items) }
    ensures is { OnOk result (IsPlan plan.now) }
{
    let room = has_room(plan);
    put_head(out, room, plan)?;
    put_rows(out, room, plan.rows())?;
    put_line(out, b"go", &[])
}

// Appends the line of a write by a tenant of this name.
fn put_write(
    out: &mut Vec<u8>,
    name: &[u8],
    session: u32,
    volume: u32,
    file: u32,
    bytes: &[u8],
) -> Result<(), OutOfMemory>
    ensures ok { OnOk result (out.new.items ≡
        out.old.items ++ line_text name.now (line_words (Write session volume file bytes.now))) }
    ensures err { OnErr result (Extends out.old.items out.new.items) }
    ensures fits { IsBytes bytes.now }
{
    put_line(
        out,
        name,
        &[
            Piece::Text(b"write"),
            Piece::Number(u64::from(session)),
            Piece::Number(u64::from(volume)),
            Piece::Number(u64::from(file)),
            Piece::Content(bytes),
        ],
    )
}

/// Appends the canonical line of a tenant of this name, or a part of it where memory is refused.
pub fn put_tenant_line(out: &mut Vec<u8>, name: &[u8], line: &Line) -> Result<(), OutOfMemory>
    ensures ok { OnOk result (out.new.items ≡ out.old.items ++ line_text name.now (line_words line.now)) }
    ensures err { OnErr result (Extends out.old.items out.new.items) }
    ensures fits { FitsLine line.now }
{
    match line {
        Line::Bad => put_line(out, name, &[Piece::Text(b"bad")]),
        Line::Quorum => put_line(out, name, &[Piece::Text(b"quorum")]),
        Line::NewVolume { files, blocks } => put_line(
            out,
            name,
            &[
                Piece::Text(b"open"),
                Piece::Number(u64::from(*files)),
                Piece::Number(u64::from(*blocks)),
            ],
        ),
        Line::Volumes => put_line(out, name, &[Piece::Text(b"volumes")]),
        Line::Write {
            session,
            volume,
            file,
            bytes,
        } => put_write(out, name, *session, *volume, *file, bytes.as_slice()),
        Line::Read {
            session,
            volume,
            file,
        } => put_line(
            out,
            name,
            &[
                Piece::Text(b"read"),
                Piece::Number(u64::from(*session)),
                Piece::Number(u64::from(*volume)),
                Piece::Number(u64::from(*file)),
            ],
        ),
        Line::List { session, volume } => put_line(
            out,
            name,
            &[
                Piece::Text(b"list"),
                Piece::Number(u64::from(*session)),
                Piece::Number(u64::from(*volume)),
            ],
        ),
        Line::Deliver { number } => put_line(
            out,
            name,
            &[Piece::Text(b"deliver"), Piece::Number(u64::from(*number))],
        ),
        Line::Lose { number } => put_line(
            out,
            name,
            &[Piece::Text(b"lose"), Piece::Number(u64::from(*number))],
        ),
        Line::Retry { session } => put_line(
            out,
            name,
            &[Piece::Text(b"retry"), Piece::Number(u64::from(*session))],
        ),
        Line::Abandon { session } => put_line(
            out,
            name,
            &[Piece::Text(b"abandon"), Piece::Number(u64::from(*session))],
        ),
    }
}

// Appends a server line.
fn put_server_line(out: &mut Vec<u8>, line: ServerLine) -> Result<(), OutOfMemory>
    ensures ok { OnOk result (out.new.items ≡ out.old.items ++ line_text (codes "server") (server_line_words line)) }
    ensures err { OnErr result (Extends out.old.items out.new.items) }
    ensures fits { FitsServerLine line }
{
    match line {
        ServerLine::Bad => put_line(out, b"server", &[Piece::Text(b"bad")]),
        ServerLine::Down { server } => put_line(
            out,
            b"server",
            &[Piece::Number(u64::from(server)), Piece::Text(b"down")],
        ),
        ServerLine::Up { server } => put_line(
            out,
            b"server",
            &[Piece::Number(u64::from(server)), Piece::Text(b"up")],
        ),
        ServerLine::Lost { server } => put_line(
            out,
            b"server",
            &[Piece::Number(u64::from(server)), Piece::Text(b"lost")],
        ),
        ServerLine::Repaired { server } => put_line(
            out,
            b"server",
            &[Piece::Number(u64::from(server)), Piece::Text(b"repaired")],
        ),
    }
}

// Appends the line of an event.
fn put_event(out: &mut Vec<u8>, plan: &Plan, event: &Event) -> Result<(), OutOfMemory>
    requires { IsIn plan.now event.now }
    ensures ok { OnOk result (out.new.items ≡ out.old.items ++ event_line plan.now event.now) }
    ensures err { OnErr result (Extends out.old.items out.new.items) }
    ensures fits { Fits plan.now event.now }
{
    match event {
        Event::Tenant { tenant, line } => {
            put_tenant_line(out, plan.row(*tenant).name.as_bytes(), line)
        }
        Event::Server { line } => put_server_line(out, *line),
        Event::Stray => put_line(out, b"", &[]),
    }
}

// Appends the lines of events.
fn put_events(out: &mut Vec<u8>, plan: &Plan, events: &[Event]) -> Result<(), OutOfMemory>
    requires { All (IsIn plan.now) events.now }
    ensures ok { OnOk result (out.new.items ≡ out.old.items ++ flat_map (event_line plan.now) events.now) }
    ensures err { OnErr result (Extends out.old.items out.new.items) }
    ensures fits { OnOk result (All (Fits plan.now) events.now) }
{
    for event in events {
        put_event(out, plan, event)?;
    }
    Ok(())
}

// Appends the canonical script.
fn put_script(out: &mut Vec<u8>, plan: &Plan, events: &[Event]) -> Result<(), OutOfMemory>
    requires { All (IsIn plan.now) events.now }
    ensures ok { OnOk result (out.new.items ≡ out.old.items ++ script_text plan.now events.now) }
    ensures err { OnErr result (Extends out.old.items out.new.items) }
    ensures back { OnOk result (IsScriptOf (script_text plan.now events.now) plan.now events.now) }
{
    put_plan(out, plan)?;
    put_events(out, plan, events)
}

/// Appends the canonical script of a plan and events, or nothing where memory is refused: the lines of the plan up to
/// `go`, then one line for each event, with contents in small letters. A tenant's bad line is written `NAME bad`, a bad
/// server line `server bad`, and a line of nobody is empty. Reading the script gives the plan and the events again.
pub fn write_script(plan: &Plan, events: &[Event], out: &mut Vec<u8>) -> Result<(), OutOfMemory>
    requires { All (IsIn plan.now) events.now }
    ensures ok { OnOk result (out.new.items ≡ out.old.items ++ script_text plan.now events.now) }
    ensures back { OnOk result (IsScriptOf (script_text plan.now events.now) plan.now events.now) }
    ensures err { OnErr result (out.new.items ≡ out.old.items) }
{
    let start = out.len();
    let done = put_script(out, plan, events);
    if done.is_err() {
        out.truncate(start);
    }
    done
}
