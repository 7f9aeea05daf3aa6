//! Whether two values are one.

ghost use Rattle.std.specs.Prelude.{◌≡◌, true};
ghost use Rattle.gq_tag.specs.View.{body_of};

use gq_model::Said;
use gq_phase::{Outcome, Row};
use gq_tag::{Body, BodyView, Message, MessageView};

// Whether these are the same rows.
fn are_rows(one: &[Row], two: &[Row]) -> bool
    ensures { result ≡ true → one.now ≡ two.now }
{
    if one.len() != two.len() {
        return false;
    }
    for place in 0..one.len() {
        if one[place] != two[place] {
            return false;
        }
    }
    true
}

// Whether these are one outcome.
fn is_outcome(one: &Outcome, two: &Outcome) -> bool
    ensures { result ≡ true → one.now ≡ two.now }
{
    match (one, two) {
        (
            Outcome::Wrote {
                session: a,
                op: b,
                tag: c,
            },
            Outcome::Wrote {
                session: d,
                op: e,
                tag: f,
            },
        ) => a == d && b == e && c == f,
        (
            Outcome::Gave {
                session: a,
                op: b,
                copy: c,
            },
            Outcome::Gave {
                session: d,
                op: e,
                copy: f,
            },
        ) => a == d && b == e && c == f,
        (
            Outcome::Listed {
                session: a,
                op: b,
                rows: c,
            },
            Outcome::Listed {
                session: d,
                op: e,
                rows: f,
            },
        ) => a == d && b == e && are_rows(c.items.as_slice(), f.items.as_slice()),
        _ => false,
    }
}

// Whether the same is said.
pub(crate) fn is_said(one: &Said, two: &Said) -> bool
    ensures { result ≡ true → one.now ≡ two.now }
{
    match (one, two) {
        (Said::Began { op: a, sent: b }, Said::Began { op: c, sent: d }) => a == c && b == d,
        (Said::Stale, Said::Stale) => true,
        (Said::Noted, Said::Noted) => true,
        (
            Said::Round {
                round: a,
                tag: b,
                sent: c,
            },
            Said::Round {
                round: d,
                tag: e,
                sent: f,
            },
        ) => a == d && b == e && c == f,
        (Said::Done(a), Said::Done(b)) => is_outcome(a, b),
        (Said::Resent { sent: a }, Said::Resent { sent: b }) => a == b,
        (Said::Abandoned, Said::Abandoned) => true,
        (Said::Refused(a), Said::Refused(b)) => a == b,
        _ => false,
    }
}

// Whether that is what the message says.
fn is_body(lent: &BodyView<'_>, body: &Body) -> bool
    ensures { result ≡ true → body_of lent.now ≡ body.now }
{
    match (lent, body) {
        (BodyView::Ask, Body::Ask) => true,
        (BodyView::Copy(a), Body::Copy(b)) => **a == *b,
        (BodyView::Store(a), Body::Store(b)) => **a == *b,
        (BodyView::Stored, Body::Stored) => true,
        _ => false,
    }
}

// Whether that is the message.
pub(crate) fn is_message(lent: &MessageView<'_>, message: &Message) -> bool
    ensures { result ≡ true → lent.now ≡ message.now }
{
    lent.tenant == message.tenant
        && lent.session == message.session
        && lent.op == message.op
        && lent.round == message.round
        && lent.server == message.server
        && lent.file == message.file
        && is_body(&lent.body, &message.body)
}
