//! Lines of the output.

ghost use Rattle.std.specs.Prelude.{◌≡◌, [], ◌∷◌, ◌++◌, codes, decimal, map, Some, None, OnOk, OnErr};
ghost use Rattle.gq_model.specs.Events.{IsIn};
ghost use Rattle.gq_model.specs.Shown.{shown};
ghost use Rattle.gq_lines.specs.Written.{Extends, ended};
ghost use Rattle.gq_phase.specs.declared.Outcome.TheVariants.{Wrote, Gave, Listed};
ghost use Rattle.gq_text.specs.AnswerText.{answer_line, told_words, outcome_words, refusal_words, server_refusal_word, who, volume_word, range_words, round_words};

use crate::pieces::{Piece, put_words};
use crate::quorum_text::{QuorumText, put_quorum};
use gq_desk::{MOST_LETTERS, Name, Plan, VolumeRow};
use gq_grid::{Choice, Grid};
use gq_lines::put_last_number;
use gq_memory::{GrowCopies, OutOfMemory};
use gq_model::{Answer, Event, Refusal, ServerRefusal};
use gq_phase::{Outcome, Row};
use gq_tag::Tag;

// Appends the words of a tenant's refusal, and the newline.
fn put_refusal(out: &mut Vec<u8>, refusal: Refusal) -> Result<(), OutOfMemory>
    ensures ok { OnOk result (out.new.items ≡
        out.old.items ++ ended (codes "refused" ∷ refusal_words refusal)) }
    ensures err { OnErr result (Extends out.old.items out.new.items) }
{
    match refusal {
        Refusal::Spent => out.grow_by(b" refused spent\n"),
        Refusal::Bad => out.grow_by(b" refused bad\n"),
        Refusal::NoSession => out.grow_by(b" refused nosession\n"),
        Refusal::Busy => out.grow_by(b" refused busy\n"),
        Refusal::Idle => out.grow_by(b" refused idle\n"),
        Refusal::NoVolume => out.grow_by(b" refused novolume\n"),
        Refusal::NoFile => out.grow_by(b" refused nofile\n"),
        Refusal::TooLong => out.grow_by(b" refused toolong\n"),
        Refusal::NoQuorum => out.grow_by(b" refused noquorum\n"),
        Refusal::NoMessage => out.grow_by(b" refused nomessage\n"),
        Refusal::Size => out.grow_by(b" refused size\n"),
        Refusal::Volumes => out.grow_by(b" refused volumes\n"),
        Refusal::Share { free } => put_words(
            out,
            &[
                Piece::Text(b"refused share"),
                Piece::Number(u64::from(free)),
            ],
        ),
    }
}

// Appends the words of a server line's refusal, and the newline.
fn put_server_refusal(out: &mut Vec<u8>, refusal: ServerRefusal) -> Result<(), OutOfMemory>
    ensures ok { OnOk result (out.new.items ≡
        out.old.items ++ ended (codes "refused" ∷ server_refusal_word refusal ∷ [])) }
    ensures err { OnErr result (Extends out.old.items out.new.items) }
{
    match refusal {
        ServerRefusal::Bad => out.grow_by(b" refused bad\n"),
        ServerRefusal::NoServer => out.grow_by(b" refused noserver\n"),
        ServerRefusal::Lost => out.grow_by(b" refused lost\n"),
        ServerRefusal::Same => out.grow_by(b" refused same\n"),
        ServerRefusal::Last => out.grow_by(b" refused last\n"),
        ServerRefusal::NoPeer => out.grow_by(b" refused nomate\n"),
    }
}

// Each of the answers that follow is put together by a call of its own, which is lent no answer: so no answer has to lie in
// memory whole, and only the answer that is told makes room for its pieces.

// Appends the words of a write that is done, and the newline.
#[inline(never)]
fn put_wrote(out: &mut Vec<u8>, session: u8, op: u32, tag: Tag) -> Result<(), OutOfMemory>
    ensures ok { OnOk result (out.new.items ≡
        out.old.items ++ ended (codes "done" ∷ outcome_words (Wrote session op tag))) }
    ensures err { OnErr result (Extends out.old.items out.new.items) }
{
    put_words(
        out,
        &[
            Piece::Text(b"done write"),
            Piece::Number(u64::from(session)),
            Piece::Number(u64::from(op)),
            Piece::OfTag(tag),
        ],
    )
}

// Appends the words of a read that is done, and the newline.
#[inline(never)]
fn put_gave(
    out: &mut Vec<u8>,
    session: u8,
    op: u32,
    tag: Tag,
    bytes: &[u8],
) -> Result<(), OutOfMemory>
    ensures ok { OnOk result (out.new.items ≡
        out.old.items ++ ended (codes "done" ∷ outcome_words (Gave session op (record { tag = tag; bytes = bytes.now })))) }
    ensures err { OnErr result (Extends out.old.items out.new.items) }
{
    put_words(
        out,
        &[
            Piece::Text(b"done read"),
            Piece::Number(u64::from(session)),
            Piece::Number(u64::from(op)),
            Piece::OfTag(tag),
            Piece::Content(bytes),
        ],
    )
}

// Appends the words of a listing that is done, and the newline.
#[inline(never)]
fn put_listed(out: &mut Vec<u8>, session: u8, op: u32, files: &[Row]) -> Result<(), OutOfMemory>
    ensures ok { OnOk result (out.new.items ≡
        out.old.items ++ ended (codes "done" ∷ outcome_words (Listed session op files.now))) }
    ensures err { OnErr result (Extends out.old.items out.new.items) }
{
    put_words(
        out,
        &[
            Piece::Text(b"done list"),
            Piece::Number(u64::from(session)),
            Piece::Number(u64::from(op)),
            Piece::Files(files),
        ],
    )
}

/// Appends the words of how an operation ended, each after one space, and a newline. After want of memory a part of them may have
/// been appended.
#[inline(always)]
pub fn put_done(out: &mut Vec<u8>, outcome: &Outcome) -> Result<(), OutOfMemory>
    ensures ok { OnOk result (out.new.items ≡
        out.old.items ++ ended (codes "done" ∷ outcome_words outcome.now)) }
    ensures err { OnErr result (Extends out.old.items out.new.items) }
{
    match outcome {
        Outcome::Wrote { session, op, tag } => put_wrote(out, *session, *op, *tag),
        Outcome::Gave { session, op, copy } => {
            put_gave(out, *session, *op, copy.tag, copy.bytes.as_slice())
        }
        Outcome::Listed { session, op, rows } => {
            put_listed(out, *session, *op, rows.items.as_slice())
        }
    }
}

// Appends the words of the number of a new volume, and the newline.
#[inline(never)]
fn put_volume(out: &mut Vec<u8>, number: u32) -> Result<(), OutOfMemory>
    ensures ok { OnOk result (out.new.items ≡
        out.old.items ++ ended (codes "volume" ∷ decimal number ∷ [])) }
    ensures err { OnErr result (Extends out.old.items out.new.items) }
{
    put_words(
        out,
        &[Piece::Text(b"volume"), Piece::Number(u64::from(number))],
    )
}

// Appends the words of the volumes, and the newline.
#[inline(never)]
fn put_volumes(out: &mut Vec<u8>, free: u32, volumes: &[VolumeRow]) -> Result<(), OutOfMemory>
    ensures ok { OnOk result (out.new.items ≡
        out.old.items ++ ended (codes "volumes" ∷ codes "free" ∷ decimal free ∷ map volume_word volumes.now)) }
    ensures err { OnErr result (Extends out.old.items out.new.items) }
{
    put_words(
        out,
        &[
            Piece::Text(b"volumes free"),
            Piece::Number(u64::from(free)),
            Piece::Volumes(volumes),
        ],
    )
}

// Appends the words of an operation that begins, and the newline.
#[inline(never)]
fn put_began(out: &mut Vec<u8>, op: u32, first: u64, count: u32) -> Result<(), OutOfMemory>
    ensures ok { OnOk result (out.new.items ≡
        out.old.items ++ ended (codes "op" ∷ decimal op ∷ codes "sent" ∷ range_words first count)) }
    ensures err { OnErr result (Extends out.old.items out.new.items) }
{
    put_words(
        out,
        &[
            Piece::Text(b"op"),
            Piece::Number(u64::from(op)),
            Piece::Text(b"sent"),
            Piece::Range(first, count),
        ],
    )
}

// Appends the words of a round with a tag that begins, and the newline.
#[inline(never)]
fn put_round(
    out: &mut Vec<u8>,
    round: u32,
    tag: Tag,
    first: u64,
    count: u32,
) -> Result<(), OutOfMemory>
    ensures ok { OnOk result (out.new.items ≡
        out.old.items ++ ended (codes "round" ∷ decimal round ∷ round_words (Some tag) ++ codes "sent" ∷ range_words first count)) }
    ensures err { OnErr result (Extends out.old.items out.new.items) }
{
    put_words(
        out,
        &[
            Piece::Text(b"round"),
            Piece::Number(u64::from(round)),
            Piece::OfTag(tag),
            Piece::Text(b"sent"),
            Piece::Range(first, count),
        ],
    )
}

// Appends the words of a round without a tag that begins, and the newline.
#[inline(never)]
fn put_collect_round(
    out: &mut Vec<u8>,
    round: u32,
    first: u64,
    count: u32,
) -> Result<(), OutOfMemory>
    ensures ok { OnOk result (out.new.items ≡
        out.old.items ++ ended (codes "round" ∷ decimal round ∷ round_words None ++ codes "sent" ∷ range_words first count)) }
    ensures err { OnErr result (Extends out.old.items out.new.items) }
{
    put_words(
        out,
        &[
            Piece::Text(b"round"),
            Piece::Number(u64::from(round)),
            Piece::Text(b"sent"),
            Piece::Range(first, count),
        ],
    )
}

// Appends the words of messages that are sent once more, and the newline.
#[inline(never)]
fn put_resent(out: &mut Vec<u8>, first: u64, count: u32) -> Result<(), OutOfMemory>
    ensures ok { OnOk result (out.new.items ≡
        out.old.items ++ ended (codes "resent" ∷ range_words first count)) }
    ensures err { OnErr result (Extends out.old.items out.new.items) }
{
    put_words(out, &[Piece::Text(b"resent"), Piece::Range(first, count)])
}

// Appends the words of a reply, and the newline. It is the most frequent answer, and put together by hand.
#[inline(always)]
fn put_reply(out: &mut Vec<u8>, number: u64) -> Result<(), OutOfMemory>
    ensures ok { OnOk result (out.new.items ≡
        out.old.items ++ ended (codes "reply" ∷ decimal number ∷ [])) }
    ensures err { OnErr result (Extends out.old.items out.new.items) }
{
    out.grow_by(b" reply ")?;
    put_last_number(out, number)
}

// Appends the words of an answer, and the newline.
#[inline(always)]
#[tactic(auto, unfolding(crate::specs::AnswerText::told_words))]
fn put_answer(out: &mut Vec<u8>, grid: &Grid, answer: &Answer) -> Result<(), OutOfMemory>
    ensures ok { OnOk result (out.new.items ≡
        out.old.items ++ ended (told_words grid.now (shown answer.now))) }
    ensures err { OnErr result (Extends out.old.items out.new.items) }
{
    match answer {
        Answer::Quorum(choice) => put_quorum(out, grid, *choice),
        Answer::Volume { number } => put_volume(out, *number),
        Answer::Volumes { free, rows } => put_volumes(out, *free, rows.items.as_slice()),
        Answer::Began { op, first, count } => put_began(out, *op, *first, *count),
        Answer::Reply { number } => put_reply(out, *number),
        Answer::Down => out.grow_by(b" down\n"),
        Answer::Stale => out.grow_by(b" stale\n"),
        Answer::Noted => out.grow_by(b" noted\n"),
        Answer::Round {
            round,
            tag: Some(tag),
            first,
            count,
        } => put_round(out, *round, *tag, *first, *count),
        Answer::Round {
            round,
            tag: None,
            first,
            count,
        } => put_collect_round(out, *round, *first, *count),
        Answer::Done(outcome) => put_done(out, outcome),
        Answer::Lost => out.grow_by(b" lost\n"),
        Answer::Resent { first, count } => put_resent(out, *first, *count),
        Answer::Abandoned => out.grow_by(b" abandoned\n"),
        Answer::Refused(refusal) => put_refusal(out, *refusal),
        Answer::ServerOk => out.grow_by(b" ok\n"),
        Answer::Repaired { .. } => out.grow_by(b" ok\n"),
        Answer::ServerRefused(refusal) => put_server_refusal(out, *refusal),
        Answer::StrayBad => out.grow_by(b" refused bad\n"),
    }
}

// Appends a name. A copy of all its bytes, cut, is faster than one of the letters alone.
#[inline(always)]
fn put_name(out: &mut Vec<u8>, name: &Name) -> Result<(), OutOfMemory>
    ensures ok { OnOk result (out.new.items ≡ out.old.items ++ name.now) }
    ensures err { OnErr result (Extends out.old.items out.new.items) }
{
    out.grow_by(name.padded())?;
    let over = MOST_LETTERS - name.len();
    out.truncate(out.len() - over);
    Ok(())
}

// Appends whose line it is.
#[inline(always)]
fn put_who(out: &mut Vec<u8>, plan: &Plan, event: &Event) -> Result<(), OutOfMemory>
    requires { IsIn plan.now event.now }
    ensures ok { OnOk result (out.new.items ≡ out.old.items ++ who plan.now event.now) }
    ensures err { OnErr result (Extends out.old.items out.new.items) }
{
    match event {
        Event::Tenant { tenant, .. } => put_name(out, &plan.row(*tenant).name),
        Event::Server { .. } => out.grow_by(b"server"),
        Event::Stray => out.grow_by(b"?"),
    }
}

// Appends the line of the answer to an event.
#[inline(always)]
fn put_line(
    out: &mut Vec<u8>,
    plan: &Plan,
    event: &Event,
    answer: &Answer,
) -> Result<(), OutOfMemory>
    requires { IsIn plan.now event.now }
    ensures ok { OnOk result (out.new.items ≡
        out.old.items ++ answer_line plan.now event.now (shown answer.now)) }
    ensures err { OnErr result (Extends out.old.items out.new.items) }
{
    put_who(out, plan, event)?;
    put_answer(out, plan.grid(), answer)
}

// Appends the line of a chosen quorum, whose words are put together only where they are not those of the last one.
#[inline(always)]
#[tactic(auto, unfolding(crate::specs::AnswerText::told_words))]
fn put_quorum_line(
    out: &mut Vec<u8>,
    plan: &Plan,
    event: &Event,
    choice: Choice,
    last: &mut QuorumText,
) -> Result<(), OutOfMemory>
    requires event { IsIn plan.now event.now }
    requires grid { last.old.grid ≡ plan.now.grid }
    ensures grid { last.new.grid ≡ last.old.grid }
    ensures ok { OnOk result (out.new.items ≡
        out.old.items ++ answer_line plan.now event.now (shown (Answer.Quorum choice))) }
{
    put_who(out, plan, event)?;
    last.hold(choice)?;
    out.grow_by(last.text())
}

/// Appends the line of the answer to an event, or nothing where memory is refused. The line begins with the tenant's
/// name, `server` or `?`. A quorum's servers are printed in rising number, a content in hexadecimal with small letters, and
/// messages that were sent by the numbers of the first and the last.
pub fn write_answer(
    plan: &Plan,
    event: &Event,
    answer: &Answer,
    out: &mut Vec<u8>,
) -> Result<(), OutOfMemory>
    requires { IsIn plan.now event.now }
    ensures ok { OnOk result (out.new.items ≡
        out.old.items ++ answer_line plan.now event.now (shown answer.now)) }
    ensures err { OnErr result (out.new.items ≡ out.old.items) }
{
    let start = out.len();
    let done = put_line(out, plan, event, answer);
    if done.is_err() {
        out.truncate(start);
    }
    done
}

/// As [`write_answer`], of one answer after another: the words of a quorum are put together only where they are not those of
/// the last one. After want of memory a part of the line may have been appended.
#[inline(always)]
pub fn write_next_answer(
    plan: &Plan,
    event: &Event,
    answer: &Answer,
    last: &mut QuorumText,
    out: &mut Vec<u8>,
) -> Result<(), OutOfMemory>
    requires event { IsIn plan.now event.now }
    requires grid { last.old.grid ≡ plan.now.grid }
    ensures grid { last.new.grid ≡ last.old.grid }
    ensures ok { OnOk result (out.new.items ≡
        out.old.items ++ answer_line plan.now event.now (shown answer.now)) }
{
    match answer {
        Answer::Quorum(choice) => put_quorum_line(out, plan, event, *choice, last),
        _ => put_line(out, plan, event, answer),
    }
}
