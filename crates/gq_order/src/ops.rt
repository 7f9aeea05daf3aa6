//! What kind of operation it is.

ghost use Rattle.std.specs.Prelude.{◌≡◌};
ghost use Rattle.gq_laws.specs.Operations.{is_write};
ghost use Rattle.gq_order.specs.Walk.{is_done};

use crate::OpRef;
use gq_laws::{Kind, Op};

// Whether the operation is a write.
pub fn is_write(a: &Op) -> bool
    ensures { result ≡ is_write a.now }
{
    matches!(a.kind, Kind::Write(_))
}

// Whether the operation at the place is completed.
pub fn is_done(ops: &[Op], place: OpRef) -> bool
    ensures { result ≡ is_done ops.now place }
{
    match ops.get(place) {
        Some(a) => a.end.is_some(),
        None => false,
    }
}
