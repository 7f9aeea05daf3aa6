//! What a session did so far.
ghost use Rattle.std.specs.Prelude.{◌≡◌, ◌≢◌, ◌↔◌, ◌+◌, ◌<◌, ◌≤◌, [], ◌∷◌, ◌++◌, All, Some, IfSome, IfNone, IsTrue, OnErr, OnOk, take, drop, length, slice_get, true, vec_len, vec_capacity};
ghost use Rattle.gq_session.specs.Asked.{asked_of, asks};
ghost use Rattle.gq_session.specs.Fitting.{IsRequest};

use crate::records::{Did, SessionEntry};
use gq_memory::{OutOfMemory, RoomInVec};
use gq_model::{Line, Said};
use std::alloc::Global;

/// A session's requests, and its steps so far, which asked the first of the requests, in order.
#[derive(Drop)]
pub(crate) struct EventLog {
    lines: Vec<Line>,
    asked: usize,
    entries: Vec<SessionEntry>,
    ghost requests: { All IsRequest lines.items },
    ghost within: { asked ≤ length lines.items },
    ghost prefix: { asked_of entries.items ≡ take asked lines.items },
}

// Whether these are one request.
fn same_line(one: &Line, two: &Line) -> bool
    requires { IsRequest one.now }
    ensures { IsTrue result ↔ (one.now ≡ two.now) }
{
    match (one, two) {
        (
            Line::Write {
                session: a,
                volume: b,
                file: c,
                bytes: d,
            },
            Line::Write {
                session: e,
                volume: f,
                file: g,
                bytes: h,
            },
        ) => a == e && b == f && c == g && d.as_slice() == h.as_slice(),
        (
            Line::Read {
                session: a,
                volume: b,
                file: c,
            },
            Line::Read {
                session: e,
                volume: f,
                file: g,
            },
        ) => a == e && b == f && c == g,
        (
            Line::List {
                session: a,
                volume: b,
            },
            Line::List {
                session: e,
                volume: f,
            },
        ) => a == e && b == f,
        _ => false,
    }
}

// Whether the lists have the same requests.
fn same_lines(one: &[Line], two: &[Line]) -> bool
    requires { All IsRequest one.now }
    ensures { IsTrue result ↔ (one.now ≡ two.now) }
{
    if one.len() != two.len() {
        return false;
    }
    for place in 0..one.len() {
        if !same_line(&one[place], &two[place]) {
            return false;
        }
    }
    true
}

impl EventLog {
    ghost use Rattle.gq_session.specs.Diaries.{HasRoom, IsSameEventLog, left_in};

    // Nothing was done.
    pub(crate) fn new(alloc: Global, lines: Vec<Line>) -> EventLog
        requires { All IsRequest lines.items }
        ensures lines { result.lines.items ≡ lines.items }
        ensures asked { result.asked ≡ 0 }
        ensures entries { result.entries.items ≡ [] }
    {
        EventLog {
            lines,
            asked: 0,
            entries: Vec::new(alloc),
        }
    }

    // Makes room for one entry.
    pub(crate) fn reserve(&mut self) -> Result<(), OutOfMemory>
        ensures room { OnOk result (HasRoom self.new) }
        ensures same { IsSameEventLog self.old self.new }
    {
        self.entries.make_room(1)
    }

    // The next request, if one is left.
    pub(crate) fn next(&self) -> Option<&Line>
        ensures request { IfSome result (λ line. IsRequest line.now) }
        ensures next { IfSome result (λ line. left_in self.now ≡ line.now ∷ drop (self.now.asked + 1) self.now.lines.items) }
        ensures none { IfNone result (left_in self.now ≡ []) }
    {
        self.lines.get(self.asked)
    }

    // The next request was asked, a copy of which this is.
    pub(crate) fn ask(&mut self, stamp: u64, line: Line, said: Said)
        requires room { HasRoom self.old }
        requires next { left_in self.old ≡ line ∷ drop (self.old.asked + 1) self.old.lines.items }
        ensures left { left_in self.old ≡ line ∷ left_in self.new }
        ensures entry { self.new.entries.items ≡ self.old.entries.items ++ record { stamp = stamp; did = Did.Asked line; said = said } ∷ [] }
    {
        let EventLog { asked, entries, .. } = self;
        *asked += 1;
        entries.push_reserved(SessionEntry {
            stamp,
            did: Did::Asked(line),
            said,
        });
    }

    // Something else was done.
    pub(crate) fn note(&mut self, stamp: u64, did: Did, said: Said)
        requires room { HasRoom self.old }
        requires asks { asks did ≡ [] }
        ensures left { left_in self.new ≡ left_in self.old }
        ensures entry { self.new.entries.items ≡ self.old.entries.items ++ record { stamp = stamp; did = did; said = said } ∷ [] }
    {
        let entries = &mut self.entries;
        entries.push_reserved(SessionEntry { stamp, did, said });
    }

    // The steps, where they asked the whole program.
    pub(crate) fn close(self, program: &[Line]) -> Option<Vec<SessionEntry>>
        ensures entries { IfSome result (λ entries. entries.items ≡ self.entries.items) }
        ensures asked { IfSome result (λ entries. asked_of entries.items ≡ program.now) }
        ensures whole { IfSome result (λ entries. left_in self ≡ []) }
        ensures none { IfNone result (left_in self ≡ [] → asked_of self.entries.items ≢ program.now) }
    {
        let EventLog {
            lines,
            asked,
            entries,
            ..
        } = self;
        if asked != lines.len() || !same_lines(lines.as_slice(), program) {
            return None;
        }
        Some(entries)
    }
}
