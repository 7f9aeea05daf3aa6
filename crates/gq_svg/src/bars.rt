//! The bars of operations.

ghost use Rattle.std.specs.Prelude.{◌≡◌, ◌<◌, ◌++◌, OnOk};
ghost use Rattle.std.specs.List.{flat_map};
ghost use Rattle.gq_svg.specs.Bars.{bar_body, bar_box, bar_class, bar_head, bar_in, bar_text, bars_text, circle, deed, doer, drop_in, drop_line, is_among, kind_class, label, lines_text, open_class, operations_text, point_in, point_text, points_text, tag_text, telling};

use crate::contents::{put_content, put_content_label, put_length, put_length_label};
use crate::layout::{label_room, lane_top};
use crate::parts::{Part, put_parts};
use gq_laws::{Kind, Op};
use gq_memory::{GrowCopies, OutOfMemory};
use gq_picture::Bar;
use gq_tag::Tag;

fn kind_class(kind: &Kind) -> &'static [u8]
    ensures { result.now ≡ kind_class kind.now }
{
    match kind {
        Kind::Write(_) => b"write",
        Kind::Read(_) => b"read",
        Kind::Row(_) => b"row",
    }
}

fn open_class(end: Option<usize>) -> &'static [u8]
    ensures { result.now ≡ open_class end }
{
    match end {
        Some(_) => b"",
        None => b" open",
    }
}

// Appends the class of a bar.
fn put_class(out: &mut Vec<u8>, op: &Op) -> Result<(), OutOfMemory>
    ensures { OnOk result (out.new.items ≡ out.old.items ++ bar_class op.now) }
{
    out.grow_by(kind_class(&op.kind))?;
    out.grow_by(open_class(op.end))
}

// Appends which operation it is, and of which session.
fn put_doer(out: &mut Vec<u8>, index: usize, op: &Op) -> Result<(), OutOfMemory>
    ensures { OnOk result (out.new.items ≡ out.old.items ++ doer index op.now) }
{
    put_parts(
        out,
        &[
            Part::Number(index as u128 + 1),
            Part::Text(b". Session "),
            Part::Number(u128::from(op.session)),
            Part::Text(b", operation "),
            Part::Number(u128::from(op.op)),
            Part::Text(b": "),
        ],
    )
}

// Appends what it wrote or gave.
fn put_deed(out: &mut Vec<u8>, kind: &Kind) -> Result<(), OutOfMemory>
    ensures { OnOk result (out.new.items ≡ out.old.items ++ deed kind.now) }
{
    match kind {
        Kind::Write(bytes) => {
            out.grow_by(b"write ")?;
            put_content(out, bytes.as_slice())
        }
        Kind::Read(Some(bytes)) => {
            out.grow_by(b"read ")?;
            put_content(out, bytes.as_slice())
        }
        Kind::Read(None) => out.grow_by(b"read"),
        Kind::Row(Some(length)) => {
            out.grow_by(b"row of ")?;
            put_length(out, *length)
        }
        Kind::Row(None) => out.grow_by(b"row"),
    }
}

// Appends its tag, where it is known.
fn put_tag(out: &mut Vec<u8>, tag: Option<Tag>) -> Result<(), OutOfMemory>
    ensures { OnOk result (out.new.items ≡ out.old.items ++ tag_text tag) }
{
    match tag {
        Some(tag) => put_parts(
            out,
            &[
                Part::Text(b", tag "),
                Part::Number(u128::from(tag.number)),
                Part::Text(b" "),
                Part::Number(u128::from(tag.session)),
            ],
        ),
        None => Ok(()),
    }
}

// Appends in which lines it began and ended.
fn put_lines(
    out: &mut Vec<u8>,
    first: u32,
    begin: usize,
    end: Option<usize>,
) -> Result<(), OutOfMemory>
    ensures { OnOk result (out.new.items ≡ out.old.items ++ lines_text first begin end) }
{
    let begin = begin as u128 + u128::from(first);
    match end {
        Some(end) => put_parts(
            out,
            &[
                Part::Text(b", lines "),
                Part::Number(begin),
                Part::Text(b" to "),
                Part::Number(end as u128 + u128::from(first)),
            ],
        ),
        None => put_parts(
            out,
            &[
                Part::Text(b", from line "),
                Part::Number(begin),
                Part::Text(b" on, not completed"),
            ],
        ),
    }
}

// Appends an operation in words.
fn put_telling(out: &mut Vec<u8>, first: u32, index: usize, op: &Op) -> Result<(), OutOfMemory>
    ensures { OnOk result (out.new.items ≡ out.old.items ++ telling first index op.now) }
{
    put_doer(out, index, op)?;
    put_deed(out, &op.kind)?;
    put_tag(out, op.tag)?;
    put_lines(out, first, op.begin, op.end)
}

// Appends the box of a bar.
fn put_box(out: &mut Vec<u8>, bar: Bar, top: u128) -> Result<(), OutOfMemory>
    requires { top < 65536 }
    ensures { OnOk result (out.new.items ≡ out.old.items ++ bar_box bar top) }
{
    put_parts(
        out,
        &[
            Part::Text(b"</title><path d=\"M"),
            Part::Column(bar.left),
            Part::Text(b" "),
            Part::Number(top),
            Part::Text(b"H"),
            Part::Column(bar.right),
            Part::Text(b"V"),
            Part::Number(top + 34),
            Part::Text(b"H"),
            Part::Column(bar.left),
            Part::Text(b"z\"/><text dx=\"5\" x=\""),
            Part::Column(bar.left),
            Part::Text(b"\" y=\""),
            Part::Number(top + 15),
            Part::Text(b"\">"),
        ],
    )
}

// Appends the label of an operation.
fn put_label(out: &mut Vec<u8>, room: usize, kind: &Kind) -> Result<(), OutOfMemory>
    ensures { OnOk result (out.new.items ≡ out.old.items ++ label room kind.now) }
{
    match kind {
        Kind::Write(bytes) => put_content_label(out, room, bytes.as_slice()),
        Kind::Read(Some(bytes)) => put_content_label(out, room, bytes.as_slice()),
        Kind::Row(Some(length)) => put_length_label(out, room, *length),
        _ => Ok(()),
    }
}

// Appends the beginning of a bar, up to its title.
fn put_bar_head(out: &mut Vec<u8>, first: u32, index: usize, op: &Op) -> Result<(), OutOfMemory>
    ensures { OnOk result (out.new.items ≡ out.old.items ++ bar_head first index op.now) }
{
    out.grow_by(b"<g class=\"")?;
    put_class(out, op)?;
    out.grow_by(b"\"><title>")?;
    put_telling(out, first, index, op)?;
    Ok(())
}

// Appends what is seen of a bar.
fn put_bar_body(out: &mut Vec<u8>, bar: Bar, top: u128, kind: &Kind) -> Result<(), OutOfMemory>
    requires { top < 65536 }
    ensures { OnOk result (out.new.items ≡ out.old.items ++ bar_body bar top kind.now) }
{
    put_box(out, bar, top)?;
    put_label(out, label_room(bar.left, bar.right), kind)?;
    out.grow_by(b"</text></g>\n")?;
    Ok(())
}

// Appends the bar of the operation.
fn put_bar(
    out: &mut Vec<u8>,
    first: u32,
    index: usize,
    bar: Bar,
    op: &Op,
) -> Result<(), OutOfMemory>
    ensures { OnOk result (out.new.items ≡ out.old.items ++ bar_text first index bar op.now) }
{
    put_bar_head(out, first, index, op)?;
    put_bar_body(out, bar, lane_top(op.session), &op.kind)?;
    Ok(())
}

// Whether the operation is one of those: the open ones, or those that ended.
fn is_among(are_open: bool, op: &Op) -> bool
    ensures { result ≡ is_among are_open op.now }
{
    if are_open {
        op.end.is_none()
    } else {
        op.end.is_some()
    }
}

// Appends the bar, where its operation is there and one of those.
fn put_bar_in(
    out: &mut Vec<u8>,
    are_open: bool,
    first: u32,
    ops: &[Op],
    index: usize,
    bar: Bar,
) -> Result<(), OutOfMemory>
    ensures { OnOk result (out.new.items ≡ out.old.items ++ bar_in are_open first ops.now index bar) }
{
    match ops.get(bar.place) {
        Some(op) => {
            if is_among(are_open, op) {
                put_bar(out, first, index, bar, op)
            } else {
                Ok(())
            }
        }
        None => Ok(()),
    }
}

// Appends the bars of operations that are open, or of those that ended.
fn put_bars(
    out: &mut Vec<u8>,
    are_open: bool,
    first: u32,
    ops: &[Op],
    bars: &[Bar],
) -> Result<(), OutOfMemory>
    ensures { OnOk result (out.new.items ≡ out.old.items ++ bars_text are_open first ops.now 0 bars.now) }
{
    for (index, bar) in bars.iter().enumerate() {
        put_bar_in(out, are_open, first, ops, index, *bar)?;
    }
    Ok(())
}

// Appends the circle of a point.
fn put_circle(
    out: &mut Vec<u8>,
    index: usize,
    bar: Bar,
    op: &Op,
    top: u128,
) -> Result<(), OutOfMemory>
    requires { top < 65536 }
    ensures { OnOk result (out.new.items ≡ out.old.items ++ circle index bar op.now top) }
{
    put_parts(
        out,
        &[
            Part::Text(b"\"><title>Point of "),
            Part::Number(index as u128 + 1),
            Part::Text(b". Session "),
            Part::Number(op.session as u128),
            Part::Text(b", operation "),
            Part::Number(op.op as u128),
            Part::Text(b"</title><circle cx=\""),
            Part::Column(bar.point),
            Part::Text(b"\" cy=\""),
            Part::Number(top + 26),
            Part::Text(b"\" r=\"5\"/></g>\n"),
        ],
    )
}

// Appends the point of the operation.
fn put_point(
    out: &mut Vec<u8>,
    index: usize,
    bar: Bar,
    op: &Op,
    top: u128,
) -> Result<(), OutOfMemory>
    requires { top < 65536 }
    ensures { OnOk result (out.new.items ≡ out.old.items ++ point_text index bar op.now top) }
{
    out.grow_by(b"<g class=\"")?;
    put_class(out, op)?;
    put_circle(out, index, bar, op, top)?;
    Ok(())
}

// Appends the point, where the operation of the bar is there.
fn put_point_in(out: &mut Vec<u8>, ops: &[Op], index: usize, bar: Bar) -> Result<(), OutOfMemory>
    ensures { OnOk result (out.new.items ≡ out.old.items ++ point_in ops.now index bar) }
{
    match ops.get(bar.place) {
        Some(op) => put_point(out, index, bar, op, lane_top(op.session)),
        None => Ok(()),
    }
}

// Appends the points.
fn put_points(out: &mut Vec<u8>, ops: &[Op], bars: &[Bar]) -> Result<(), OutOfMemory>
    ensures { OnOk result (out.new.items ≡ out.old.items ++ points_text ops.now 0 bars.now) }
{
    for (index, bar) in bars.iter().enumerate() {
        put_point_in(out, ops, index, *bar)?;
    }
    Ok(())
}

/// Appends the operations: the open ones below those that ended, which may lie over them in the lane of a session, and on top
/// the points.
pub fn put_operations(
    out: &mut Vec<u8>,
    first: u32,
    ops: &[Op],
    bars: &[Bar],
) -> Result<(), OutOfMemory>
    ensures { OnOk result (out.new.items ≡ out.old.items ++ operations_text first ops.now bars.now) }
{
    put_bars(out, true, first, ops, bars)?;
    put_bars(out, false, first, ops, bars)?;
    put_points(out, ops, bars)?;
    Ok(())
}

// Appends the line from the register down to a point.
fn put_drop_line(out: &mut Vec<u8>, bar: Bar, top: u128) -> Result<(), OutOfMemory>
    requires { top < 65536 }
    ensures { OnOk result (out.new.items ≡ out.old.items ++ drop_line bar top) }
{
    put_parts(
        out,
        &[
            Part::Text(b"<path class=\"drop\" d=\"M"),
            Part::Column(bar.point),
            Part::Text(b" 112V"),
            Part::Number(top + 26),
            Part::Text(b"\"/>\n"),
        ],
    )
}

// Appends it, where the operation of the bar is there.
fn put_drop_in(out: &mut Vec<u8>, ops: &[Op], bar: Bar) -> Result<(), OutOfMemory>
    ensures { OnOk result (out.new.items ≡ out.old.items ++ drop_in ops.now bar) }
{
    match ops.get(bar.place) {
        Some(op) => put_drop_line(out, bar, lane_top(op.session)),
        None => Ok(()),
    }
}

/// Appends the lines from the register down to the points.
pub fn put_drop_lines(out: &mut Vec<u8>, ops: &[Op], bars: &[Bar]) -> Result<(), OutOfMemory>
    ensures { OnOk result (out.new.items ≡ out.old.items ++ flat_map (drop_in ops.now) bars.now) }
{
    for bar in bars {
        put_drop_in(out, ops, *bar)?;
    }
    Ok(())
}
