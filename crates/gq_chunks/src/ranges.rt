//! What holds of values by their types alone: a range is a fact once a number is read.

ghost use Rattle.std.specs.Prelude.{◌≡◌, ◌<◌, ◌^◌, ◌++◌, [], ◌∷◌, length, Some, OnOk};
ghost use Rattle.gq_text.specs.Canonical.{IsPlan};
ghost use Rattle.gq_journal.specs.Batches.{lines_text};
ghost use Rattle.gq_chunks.specs.Facts.{chunk_fact_line};
ghost use Rattle.gq_chunks.specs.Laws.{FitsPlace, FitsFact};
ghost use Rattle.gq_chunks.specs.Machines.{FactStands};

use crate::{ChunkFact, put_chunk_fact};
use gq_desk::Plan;
use gq_memory::OutOfMemory;
use gq_shelf::Place;

/// The plan is one that `Plan::check` accepts, of a grid that `Grid::new` accepts.
pub(crate) fn plan_is_sound(plan: &Plan)
    ensures { IsPlan plan.now }
{
    let _rows = plan.rows();
    let _grid = (plan.grid().rows(), plan.grid().cols());
}

// Two numbers of 32 bits.
fn lengths_fit(one: u32, other: u32)
    ensures one { one < 2 ^ 32 }
    ensures other { other < 2 ^ 32 }
{}

// Two numbers of 64 bits.
fn sums_fit(one: u64, other: u64)
    ensures one { one < 2 ^ 64 }
    ensures other { other < 2 ^ 64 }
{}

// The numbers of a place fit in words of a line.
fn place_fits(place: &Place)
    ensures { FitsPlace place.now }
{
    match place {
        Place::Fresh(_) => {}
        Place::Shelved(extent) => {
            lengths_fit(extent.segment, extent.len);
            sums_fit(extent.at, extent.sum);
        }
    }
}

// The numbers of the fact fit in words of a line.
fn fact_fits(fact: &ChunkFact)
    ensures { FitsFact fact.now }
{
    match fact {
        ChunkFact::Put {
            session,
            number,
            place,
            ..
        } => {
            let _numbers = (*session, *number);
            place_fits(place);
        }
        ChunkFact::Forgot {
            session,
            floor,
            run,
        } => {
            let _numbers = (*session, *floor);
            sums_fit(run.first, run.last);
        }
        ChunkFact::Filled => {}
    }
}

/// Appends the line of the tenant's fact, which says it, and may stand in a batch of a journal.
pub(crate) fn put_sound_fact(
    facts: &mut Vec<u8>,
    plan: &Plan,
    tenant: u8,
    fact: &ChunkFact,
) -> Result<(), OutOfMemory>
    requires tenant { tenant < length plan.now.rows }
    requires sound { IsPlan plan.now }
    ensures text { OnOk result (facts.new.items ≡ facts.old.items ++ lines_text (chunk_fact_line plan.now tenant fact.now ∷ [])) }
    ensures stands { FactStands plan.now tenant (Some fact.now) }
{
    fact_fits(fact);
    put_chunk_fact(facts, plan, tenant, fact)
}
