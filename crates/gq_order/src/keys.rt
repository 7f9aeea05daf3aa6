//! The keys by which operations are ordered.

ghost use Rattle.std.specs.Prelude.{◌≡◌, if◌then◌else◌};
ghost use Rattle.gq_laws.specs.Operations.{is_write};
ghost use Rattle.gq_laws.specs.Orders.{tag_of};
ghost use Rattle.gq_order.specs.Keys.{key_of};

use crate::OpRef;
use crate::ops::is_write;
use gq_laws::Op;
use gq_tag::Tag;

/// The numbers by which the operation at a place stands, in the order in which they are compared.
#[derive(Clone, Copy, PartialEq, Eq, PartialOrd, Ord)]
pub struct Key {
    pub number: u64,
    pub session: u8,
    pub rank: u8,
    pub begin: usize,
    pub place: usize,
}

// The operation's tag, the first tag where it has none.
fn tag_of(a: &Op) -> Tag
    ensures { result ≡ tag_of a.now }
{
    match a.tag {
        None => Tag::first(),
        Some(tag) => tag,
    }
}

// Of operations with one tag a write comes first.
fn rank(a: &Op) -> u8
    ensures { result ≡ (if is_write a.now then 0 else 1) }
{
    if is_write(a) { 0 } else { 1 }
}

// The key of the operation at the place.
pub fn key_of(place: OpRef, a: &Op) -> Key
    ensures { result ≡ key_of place a.now }
{
    let tag = tag_of(a);
    Key {
        number: tag.number,
        session: tag.session,
        rank: rank(a),
        begin: a.begin,
        place,
    }
}
