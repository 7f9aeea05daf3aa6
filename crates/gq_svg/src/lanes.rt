//! The lanes of sessions, and of servers that were down.

ghost use Rattle.std.specs.Prelude.{◌≡◌, ◌<◌, ◌++◌, ◌^◌, length, OnOk};
ghost use Rattle.std.specs.List.{flat_map};
ghost use Rattle.gq_svg.specs.Lanes.{down_servers, is_down, outage_box, outage_in, server_lane, server_lanes, server_text, session_lane, session_lanes};

use crate::layout::{lane_top, server_top};
use crate::parts::{Part, put_parts};
use gq_memory::OutOfMemory;
use gq_picture::Outage;

// Appends the lane of a session.
fn put_session_lane(
    out: &mut Vec<u8>,
    edge: u128,
    top: u128,
    session: u8,
) -> Result<(), OutOfMemory>
    requires { top < 65536 }
    ensures { OnOk result (out.new.items ≡ out.old.items ++ session_lane edge top session) }
{
    put_parts(
        out,
        &[
            Part::Text(b"<text x=\"16\" y=\""),
            Part::Number(top + 21),
            Part::Text(b"\">session "),
            Part::Number(u128::from(session)),
            Part::Text(b"</text><path class=\"lane\" d=\"M96 "),
            Part::Number(top + 40),
            Part::Text(b"H"),
            Part::Column(edge),
            Part::Text(b"\"/>\n"),
        ],
    )
}

/// Appends the lanes of so many sessions, which end at the column.
pub fn put_session_lanes(out: &mut Vec<u8>, edge: u128, sessions: u8) -> Result<(), OutOfMemory>
    ensures { OnOk result (out.new.items ≡ out.old.items ++ session_lanes edge sessions) }
{
    for before in 0..sessions {
        put_session_lane(out, edge, lane_top(before + 1), before + 1)?;
    }
    Ok(())
}

// Whether the server was down.
fn is_down(outages: &[Outage], server: u8) -> bool
    ensures { result ≡ is_down outages.now server }
{
    outages.iter().any(|outage| outage.server == server)
}

/// How many of so many servers were down.
pub fn count_down(outages: &[Outage], servers: u8) -> usize
    ensures { result ≡ length (down_servers outages.now servers) }
{
    let mut count = 0;
    for server in 0..servers {
        if is_down(outages, server) {
            count += 1;
        }
    }
    count
}

// Appends the lane of a server.
fn put_server_lane(out: &mut Vec<u8>, edge: u128, top: u128, server: u8) -> Result<(), OutOfMemory>
    requires { top < 2 ^ 72 }
    ensures { OnOk result (out.new.items ≡ out.old.items ++ server_lane edge top server) }
{
    put_parts(
        out,
        &[
            Part::Text(b"<text x=\"16\" y=\""),
            Part::Number(top + 14),
            Part::Text(b"\">server "),
            Part::Number(u128::from(server)),
            Part::Text(b"</text><path class=\"lane\" d=\"M96 "),
            Part::Number(top + 18),
            Part::Text(b"H"),
            Part::Column(edge),
            Part::Text(b"\"/>\n"),
        ],
    )
}

// Appends the box of an outage.
fn put_outage_box(out: &mut Vec<u8>, top: u128, outage: Outage) -> Result<(), OutOfMemory>
    requires { top < 2 ^ 72 }
    ensures { OnOk result (out.new.items ≡ out.old.items ++ outage_box top outage) }
{
    put_parts(
        out,
        &[
            Part::Text(b"<g class=\"outage\"><title>Server "),
            Part::Number(u128::from(outage.server)),
            Part::Text(b" is down</title><path d=\"M"),
            Part::Column(outage.left),
            Part::Text(b" "),
            Part::Number(top + 4),
            Part::Text(b"H"),
            Part::Column(outage.right),
            Part::Text(b"V"),
            Part::Number(top + 18),
            Part::Text(b"H"),
            Part::Column(outage.left),
            Part::Text(b"z\"/></g>\n"),
        ],
    )
}

// Appends it, where it is one of this server.
fn put_outage_in(
    out: &mut Vec<u8>,
    top: u128,
    server: u8,
    outage: Outage,
) -> Result<(), OutOfMemory>
    requires { top < 2 ^ 72 }
    ensures { OnOk result (out.new.items ≡ out.old.items ++ outage_in top server outage) }
{
    if outage.server == server {
        put_outage_box(out, top, outage)
    } else {
        Ok(())
    }
}

// Appends the outages of a server.
fn put_outages(
    out: &mut Vec<u8>,
    top: u128,
    server: u8,
    outages: &[Outage],
) -> Result<(), OutOfMemory>
    requires { top < 2 ^ 72 }
    ensures { OnOk result (out.new.items ≡ out.old.items ++ flat_map (outage_in top server) outages.now) }
{
    for outage in outages {
        put_outage_in(out, top, server, *outage)?;
    }
    Ok(())
}

// Appends the lane of a server and its outages.
fn put_server(
    out: &mut Vec<u8>,
    edge: u128,
    top: u128,
    outages: &[Outage],
    server: u8,
) -> Result<(), OutOfMemory>
    requires { top < 2 ^ 72 }
    ensures { OnOk result (out.new.items ≡ out.old.items ++ server_text edge top outages.now server) }
{
    put_server_lane(out, edge, top, server)?;
    put_outages(out, top, server, outages)
}

/// Appends a lane for each of so many servers that was down, below the lanes of so many sessions.
pub fn put_server_lanes(
    out: &mut Vec<u8>,
    edge: u128,
    sessions: u8,
    outages: &[Outage],
    servers: u8,
) -> Result<(), OutOfMemory>
    ensures { OnOk result (out.new.items ≡ out.old.items ++ server_lanes edge sessions outages.now servers) }
{
    let mut before = 0;
    for server in 0..servers {
        if is_down(outages, server) {
            put_server(out, edge, server_top(sessions, before), outages, server)?;
            before += 1;
        }
    }
    Ok(())
}
