//! The operations on a file, read off the history of a run: its events, and what was answered to them.

ghost use Rattle.std.specs.Prelude.{◌≡◌, ◌++◌, ◌≤◌, length, map, IsTrue, reverse, IfOk, option_copied};
ghost use Rattle.gq_tag.specs.Tag.{file_place};
ghost use Rattle.gq_laws.specs.Operations.{operations, Tagged};
ghost use Rattle.gq_laws.specs.Tenants.{seen, tenant_operations};
ghost use Rattle.gq_model.specs.Shown.{shown};
ghost use Rattle.gq_order.specs.Runs.{IsRun, sessions_are_bytes, HasFewSessions};
ghost use Rattle.gq_order.specs.Passes.{opens, files_from, ending_in, as_list, answer_in, copy_given_at, row_given_at, write_begun, read_begun, row_begun, begins, begun_by, ops_from, read_off};

use crate::endings::{Ending, ending_in, enter_by, no_ending};
use crate::sessions::sessions_of;
use bytes::Bytes;
use gq_desk::Plan;
use gq_laws::{Kind, Op};
use gq_memory::{GrowBytes, GrowVec, OutOfMemory, filled};
use gq_model::{Answer, Event, Line};
use gq_phase::{Outcome, Row};
use gq_tag::{FileId, StoredCopy};
use std::alloc::Global;

// How many files the volume has that is opened here, if one is opened.
fn opens(tenant: u8, event: &Event, answer: &Answer) -> Option<u32>
    ensures { result ≡ opens tenant event.now answer.now }
{
    let Event::Tenant {
        tenant: other,
        line,
    } = event
    else {
        return None;
    };
    let Line::NewVolume { files, .. } = line else {
        return None;
    };
    let Answer::Volume { .. } = answer else {
        return None;
    };
    if *other == tenant { Some(*files) } else { None }
}

// How many files the volume has, none where there is no such volume.
fn files(tenant: u8, volume: u32, events: &[Event], answers: &[Answer]) -> u32
    ensures { result ≡ files_from tenant events.now answers.now volume }
{
    let mut left = volume;
    for (place, event) in events.iter().enumerate() {
        let Some(answer) = answers.get(place) else {
            return 0;
        };
        if let Some(files) = opens(tenant, event, answer) {
            if left == 0 {
                return files;
            }
            left -= 1;
        }
    }
    0
}

// One more operation, if there is one.
fn keep(ops: &mut Vec<Op>, op: Option<Op>) -> Result<(), OutOfMemory>
    ensures { IfOk result (λ _. ops.new.items ≡ ops.old.items ++ as_list op) }
{
    if let Some(op) = op {
        ops.grow(op)?;
    }
    Ok(())
}

// The answer at the place, if there is one.
fn answer_at<'a>(answers: &'a [Answer], place: Option<usize>) -> Option<&'a Answer>
    ensures { option_copied result ≡ answer_in answers.now place }
{
    match place {
        Some(place) => answers.get(place),
        None => None,
    }
}

// The copy that the answer at the place gives.
fn copy_at<'a>(answers: &'a [Answer], place: Option<usize>) -> Option<&'a StoredCopy>
    ensures { option_copied result ≡ copy_given_at answers.now place }
{
    match answer_at(answers, place) {
        Some(Answer::Done(Outcome::Gave { copy, .. })) => Some(copy),
        _ => None,
    }
}

// The row of the file in the listing that the answer at the place gives.
fn row_at(file: u32, answers: &[Answer], place: Option<usize>) -> Option<Row>
    ensures { result ≡ row_given_at file answers.now place }
{
    match answer_at(answers, place) {
        Some(Answer::Done(Outcome::Listed { rows, .. })) => rows.items.get(file as usize).copied(),
        _ => None,
    }
}

// The write with this ending that begins at the place.
fn write_begun(
    session: u8,
    op: u32,
    place: usize,
    bytes: &Bytes,
    ending: Ending,
) -> Result<Op, OutOfMemory>
    ensures { IfOk result (λ a. a ≡ write_begun session op place bytes.now ending) }
{
    Ok(Op {
        kind: Kind::Write(bytes.share()?),
        session,
        op,
        begin: place,
        end: ending.end,
        tag: ending.tag,
    })
}

// The read that begins at the place, ends at this one, and gives the copy.
fn read_begun(
    session: u8,
    op: u32,
    place: usize,
    end: Option<usize>,
    copy: Option<&StoredCopy>,
) -> Result<Op, OutOfMemory>
    ensures { IfOk result (λ a. a ≡ read_begun session op place end (option_copied copy.entry)) }
{
    let Some(copy) = copy else {
        return Ok(Op {
            kind: Kind::Read(None),
            session,
            op,
            begin: place,
            end,
            tag: None,
        });
    };
    Ok(Op {
        kind: Kind::Read(Some(copy.bytes.share()?)),
        session,
        op,
        begin: place,
        end,
        tag: Some(copy.tag),
    })
}

// The row of a listing that begins at the place, ends at this one, and gives the row.
fn row_begun(session: u8, op: u32, place: usize, end: Option<usize>, row: Option<Row>) -> Op
    ensures { result ≡ row_begun session op place end row }
{
    Op {
        kind: Kind::Row(row.map(|r| r.length)),
        session,
        op,
        begin: place,
        end,
        tag: row.map(|r| r.tag),
    }
}

// The operation on the file that the line begins.
fn begins(
    file: FileId,
    answers: &[Answer],
    place: usize,
    op: u32,
    line: &Line,
    ends: &[Ending],
) -> Result<Option<Op>, OutOfMemory>
    ensures { IfOk result (λ a. a ≡ begins (file_place file) answers.now place op line.now (ending_in ends.now)) }
{
    match line {
        Line::Write {
            session,
            volume,
            file: other,
            bytes,
        } => {
            if *session < 256 && (*volume == file.volume && *other == file.file) {
                let ending = ending_in(ends, *session as usize);
                Ok(Some(write_begun(*session as u8, op, place, bytes, ending)?))
            } else {
                Ok(None)
            }
        }
        Line::Read {
            session,
            volume,
            file: other,
        } => {
            if *session < 256 && (*volume == file.volume && *other == file.file) {
                let end = ending_in(ends, *session as usize).end;
                Ok(Some(read_begun(*session as u8, op, place, end, copy_at(answers, end))?))
            } else {
                Ok(None)
            }
        }
        Line::List { session, volume } => {
            if *session < 256 && *volume == file.volume {
                let end = ending_in(ends, *session as usize).end;
                Ok(Some(row_begun(
                    *session as u8,
                    op,
                    place,
                    end,
                    row_at(file.file, answers, end),
                )))
            } else {
                Ok(None)
            }
        }
        _ => Ok(None),
    }
}

// The operation on the file that the event begins.
fn begun_by(
    file: FileId,
    answers: &[Answer],
    place: usize,
    event: &Event,
    answer: &Answer,
    ends: &[Ending],
) -> Result<Option<Op>, OutOfMemory>
    ensures { IfOk result (λ a. a ≡ begun_by file.tenant (file_place file) answers.now place event.now answer.now (ending_in ends.now)) }
{
    let Event::Tenant { tenant, line } = event else {
        return Ok(None);
    };
    let Answer::Began { op, .. } = answer else {
        return Ok(None);
    };
    if *tenant == file.tenant {
        begins(file, answers, place, *op, line, ends)
    } else {
        Ok(None)
    }
}

// The operations on the file that begin from the last event on, back to the first.
fn read_back(
    alloc: Global,
    file: FileId,
    events: &[Event],
    answers: &[Answer],
    sessions: &[u32],
    size: usize,
) -> Result<Vec<Op>, OutOfMemory>
    requires size { size ≡ 256 }
    requires events { length sessions.now ≤ length events.now }
    requires answers { length sessions.now ≤ length answers.now }
    ensures { IfOk result (λ ops. ops.items ≡ reverse (ops_from file.tenant (file_place file) answers.now 0 events.now answers.now sessions.now)) }
{
    let mut ends = filled(alloc, no_ending(), size)?;
    let mut ops = Vec::new(alloc);
    for place in (0..sessions.len()).rev() {
        let event = &events[place];
        let answer = &answers[place];
        keep(
            &mut ops,
            begun_by(file, answers, place, event, answer, ends.as_slice())?,
        )?;
        enter_by(
            file.tenant,
            &mut ends,
            place,
            event,
            answer,
            sessions[place] as usize,
        );
    }
    Ok(ops)
}

// The operations on the file in order of beginning, none where there is no such file.
fn read_off(
    alloc: Global,
    file: FileId,
    events: &[Event],
    answers: &[Answer],
) -> Result<Vec<Op>, OutOfMemory>
    ensures { IfOk result (λ ops. ops.items ≡ read_off file.tenant (file_place file) events.now answers.now) }
{
    if files(file.tenant, file.volume, events, answers) <= file.file {
        return Ok(Vec::new(alloc));
    }
    let sessions = sessions_of(alloc, file.tenant, events, answers)?;
    let mut ops = read_back(alloc, file, events, answers, sessions.as_slice(), 256)?;
    ops.reverse();
    Ok(ops)
}

// Each tenant of a plan has at most `gq_desk::MOST_SESSIONS` sessions, so that a byte numbers them.
fn few_sessions(plan: &Plan)
    ensures { HasFewSessions plan.now }
{
    let _rows = plan.rows();
}

/// The operations on the file in order of beginning, none where there is no such file, read off events and what was
/// answered to them. Each event is looked at once in each of three passes: for the file, for whose each message is, and
/// back again for how each operation ends. Of a run of the plan they are the operations that the model has, and tagged;
/// of any other events and answers they are the definition's where a byte numbers each session that begins an operation.
pub fn operations(
    alloc: Global,
    plan: &Plan,
    events: &[Event],
    answers: &[Answer],
    file: FileId,
) -> Result<Vec<Op>, OutOfMemory>
    ensures fitting { IfOk result (λ ops. IsTrue (sessions_are_bytes events.now answers.now) → ops.items ≡ operations (seen file.tenant events.now (map shown answers.now)) (file_place file)) }
    ensures run { IfOk result (λ ops. IsRun plan.now events.now answers.now → ops.items ≡ tenant_operations plan.now events.now file.tenant (file_place file)) }
    ensures tagged { IfOk result (λ ops. IsRun plan.now events.now answers.now → Tagged ops.items) }
{
    few_sessions(plan);
    read_off(alloc, file, events, answers)
}
