//! What holds of values by their types alone: a range is a fact once a number is read.

ghost use Rattle.std.specs.Prelude.{◌<◌, ◌^◌};
ghost use Rattle.hex.specs.Hex.{IsBytes};
ghost use Rattle.gq_text.specs.Canonical.{IsPlan};
ghost use Rattle.gq_node.specs.Recalling.{own_fact};
ghost use Rattle.gq_facts.specs.Laws.{FitsOwn};

use gq_desk::Plan;
use gq_node::Fact;

/// The plan is one that `Plan::check` accepts, of a grid that `Grid::new` accepts.
pub(crate) fn plan_is_sound(plan: &Plan)
    ensures { IsPlan plan.now }
{
    let _rows = plan.rows();
    let _grid = (plan.grid().rows(), plan.grid().cols());
}

// The numbers of a file fit in words of a line.
fn file_fits(volume: u32, file: u32)
    ensures volume { volume < 2 ^ 32 }
    ensures file { file < 2 ^ 32 }
{}

// The numbers of a copy fit in words of a line, and its bytes are bytes.
fn copy_fits(number: u64, session: u8, bytes: &[u8])
    ensures number { number < 2 ^ 64 }
    ensures session { session < 256 }
    ensures bytes { IsBytes bytes.now }
{}

/// The numbers of the fact fit in words of a line.
pub(crate) fn fact_fits(fact: &Fact)
    ensures { FitsOwn (own_fact fact.now) }
{
    match fact {
        Fact::Began { session, op, .. } => {
            let _numbers = (*session, *op);
        }
        Fact::Numbered {
            session,
            number,
            ..
        } => {
            let _numbers = (*session, *number);
        }
        Fact::Kept { file, copy } | Fact::Had { file, copy } => {
            file_fits(file.volume, file.file);
            copy_fits(copy.tag.number, copy.tag.session, copy.bytes.as_slice());
        }
    }
}
