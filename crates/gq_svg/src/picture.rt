//! The whole text.

ghost use Rattle.std.specs.Prelude.{◌≡◌, ◌<◌, ◌++◌, ◌^◌, length, OnOk};
ghost use Rattle.gq_svg.specs.Svg.{beginning, caption, ground, head, height, picture_text, subject, things, top, width};

use crate::bars::{put_drop_lines, put_operations};
use crate::lanes::{count_down, put_server_lanes, put_session_lanes};
use crate::layout::{server_top, wide, x_of};
use crate::parts::{Part, put_parts};
use crate::register::put_values;
use gq_memory::{GrowCopies, OutOfMemory};
use gq_picture::{Bar, Drawing};

/// Whose operations a picture shows: those on the file of the volume; how many sessions and servers there are; and which line
/// of the input, counted from 1, stands at place 0 of the operations' places.
#[derive(Clone, Copy)]
pub struct Heading {
    pub volume: u32,
    pub file: u32,
    pub sessions: u8,
    pub servers: u8,
    pub first_line: u32,
}

// How things look, also where it is dark. An open operation is dashed and the point of a write is filled, so that nothing rests
// on colours alone.
const STYLE: &[u8] = b"<style>
svg{font:12px system-ui,sans-serif}
text{fill:#1f2328}.head{font-size:15px;font-weight:600}.soft{fill:#59636e}
g text{font:11px ui-monospace,SFMono-Regular,Menlo,Consolas,monospace}
.ground{fill:#fff}.lane{stroke:#d1d9e0}.drop{stroke:#818b98;stroke-dasharray:2 3}
.value path{fill:#f6f8fa;stroke:#818b98}.outage path{fill:#818b98;stroke:#818b98}
.write path{fill:#cfe3ff;stroke:#0b5cad}.write circle{fill:#0b5cad;stroke:#0b5cad}
.read path{fill:#ffe6c7;stroke:#a84b00}.read circle{fill:#fff;stroke:#a84b00;stroke-width:2}
.row path{fill:#f3dff2;stroke:#8a3a8a}.row circle{fill:#fff;stroke:#8a3a8a;stroke-width:2}
.open path{stroke-dasharray:4 3;fill-opacity:.4}.open circle{stroke-dasharray:3 2;stroke-width:2;fill-opacity:.4}
@media(prefers-color-scheme:dark){
text{fill:#e6edf3}.soft{fill:#9198a1}.ground{fill:#0d1117}.lane{stroke:#3d444d}.drop{stroke:#656c76}
.value path{fill:#161b22;stroke:#656c76}.outage path{fill:#656c76;stroke:#656c76}
.write path{fill:#123a6b;stroke:#6cb0ff}.write circle{fill:#6cb0ff;stroke:#6cb0ff}
.read path{fill:#573208;stroke:#f0a24a}.read circle{fill:#0d1117;stroke:#f0a24a}
.row path{fill:#48224d;stroke:#d896da}.row circle{fill:#0d1117;stroke:#d896da}
}
</style>
";

// What the colours stand for, and the name of the register's strip.
const LEGEND: &[u8] =
    b"<g class=\"write\"><path d=\"M16 58H34V72H16z\"/><circle cx=\"25\" cy=\"65\" r=\"4\"/></g><text x=\"40\" y=\"69\">write</text>
<g class=\"read\"><path d=\"M86 58H104V72H86z\"/><circle cx=\"95\" cy=\"65\" r=\"4\"/></g><text x=\"110\" y=\"69\">read</text>
<g class=\"row\"><path d=\"M152 58H170V72H152z\"/><circle cx=\"161\" cy=\"65\" r=\"4\"/></g><text x=\"176\" y=\"69\">row of a listing</text>
<g class=\"write open\"><path d=\"M278 58H296V72H278z\"/></g><text x=\"302\" y=\"69\">not completed</text>
<g class=\"outage\"><path d=\"M398 58H416V72H398z\"/></g><text x=\"422\" y=\"69\">server is down</text>
<text x=\"16\" y=\"102\">register</text>
";

// Appends what the picture shows.
fn put_subject(out: &mut Vec<u8>, name: &[u8], heading: Heading) -> Result<(), OutOfMemory>
    ensures { OnOk result (out.new.items ≡ out.old.items ++ subject name.now heading) }
{
    put_parts(
        out,
        &[
            Part::Text(b"Operations on file "),
            Part::Number(heading.file as u128),
            Part::Text(b" of volume "),
            Part::Number(heading.volume as u128),
            Part::Text(b" of "),
            Part::Escaped(name),
        ],
    )
}

// Appends the beginning of a picture of this size.
fn put_beginning(out: &mut Vec<u8>, width: u128, height: u128) -> Result<(), OutOfMemory>
    ensures { OnOk result (out.new.items ≡ out.old.items ++ beginning width height) }
{
    put_parts(
        out,
        &[
            Part::Text(b"<svg xmlns=\"http://www.w3.org/2000/svg\" width=\""),
            Part::Number(width),
            Part::Text(b"\" height=\""),
            Part::Number(height),
            Part::Text(b"\" viewBox=\"0 0 "),
            Part::Number(width),
            Part::Text(b" "),
            Part::Number(height),
            Part::Text(b"\" role=\"img\">\n<title>"),
        ],
    )
}

// Appends the ground of a picture of this size.
fn put_ground(out: &mut Vec<u8>, width: u128, height: u128) -> Result<(), OutOfMemory>
    ensures { OnOk result (out.new.items ≡ out.old.items ++ ground width height) }
{
    put_parts(
        out,
        &[
            Part::Text(b"<path class=\"ground\" d=\"M0 0H"),
            Part::Number(width),
            Part::Text(b"V"),
            Part::Number(height),
            Part::Text(b"H0z\"/>\n<text class=\"head\" x=\"16\" y=\"26\">"),
        ],
    )
}

// Appends the line below the heading.
fn put_caption(out: &mut Vec<u8>, bars: &[Bar]) -> Result<(), OutOfMemory>
    ensures { OnOk result (out.new.items ≡ out.old.items ++ caption (length bars.now)) }
{
    put_parts(
        out,
        &[
            Part::Text(b"</text>\n<text class=\"soft\" x=\"16\" y=\"46\">"),
            Part::Number(bars.len() as u128),
            Part::Text(
                b" in all, in the order of a single register; each has its point between its beginning and its end</text>\n",
            ),
        ],
    )
}

// Appends the beginning, what the picture shows and how things look.
fn put_head(
    out: &mut Vec<u8>,
    name: &[u8],
    heading: Heading,
    width: u128,
    height: u128,
) -> Result<(), OutOfMemory>
    ensures { OnOk result (out.new.items ≡ out.old.items ++ head name.now heading width height) }
{
    put_beginning(out, width, height)?;
    put_subject(out, name, heading)?;
    out.grow_by(b"</title>\n")?;
    out.grow_by(STYLE)?;
    Ok(())
}

// Appends the ground and the heading.
fn put_top(
    out: &mut Vec<u8>,
    name: &[u8],
    heading: Heading,
    width: u128,
    height: u128,
) -> Result<(), OutOfMemory>
    ensures { OnOk result (out.new.items ≡ out.old.items ++ top name.now heading width height) }
{
    put_ground(out, width, height)?;
    put_subject(out, name, heading)?;
    Ok(())
}

// Appends what stands in the picture.
fn put_things(out: &mut Vec<u8>, heading: Heading, drawing: &Drawing) -> Result<(), OutOfMemory>
    ensures { OnOk result (out.new.items ≡ out.old.items ++ things heading drawing.now) }
{
    let ops = drawing.ops.as_slice();
    let bars = drawing.bars.as_slice();
    let edge = wide(drawing.columns);
    put_values(out, ops, drawing.values.as_slice())?;
    put_session_lanes(out, edge, heading.sessions)?;
    put_server_lanes(
        out,
        edge,
        heading.sessions,
        drawing.outages.as_slice(),
        heading.servers,
    )?;
    put_drop_lines(out, ops, bars)?;
    put_operations(out, heading.first_line, ops, bars)
}

// How wide the picture is.
fn width(drawing: &Drawing) -> u128
    ensures { result ≡ width drawing.now }
{
    x_of(wide(drawing.columns)) + 16
}

// How high it is.
fn height(heading: Heading, drawing: &Drawing) -> u128
    ensures { result ≡ height heading drawing.now }
{
    let down = count_down(drawing.outages.as_slice(), heading.servers);
    server_top(heading.sessions, down) + 12
}

/// Appends the picture of a drawing: an SVG that stands alone, drawn to the heading. `name` is that of the tenant. After want
/// of memory a part of it may have been appended.
#[tactic(auto, unfolding(crate::specs::Svg::picture_text))]
pub fn put_picture(
    out: &mut Vec<u8>,
    name: &[u8],
    heading: Heading,
    drawing: &Drawing,
) -> Result<(), OutOfMemory>
    ensures { OnOk result (out.new.items ≡ out.old.items ++ picture_text name.now heading drawing.now) }
{
    let width = width(drawing);
    let height = height(heading, drawing);
    put_head(out, name, heading, width, height)?;
    put_top(out, name, heading, width, height)?;
    put_caption(out, drawing.bars.as_slice())?;
    out.grow_by(LEGEND)?;
    put_things(out, heading, drawing)?;
    out.grow_by(b"</svg>\n")?;
    Ok(())
}
