//! Tenants that went: gone by the node's plan, and not by the last plan of its journal.

ghost use Rattle.std.specs.Prelude.{◌≡◌, length, nat_lt, Some, IfOk};
ghost use Rattle.gq_setup.specs.Leaving.{without};
ghost use Rattle.gq_setup.specs.Setups.{Setup as TheSetup, SetupReading};
ghost use Rattle.gq_setup.specs.Texts.{setup_of_node_text};
ghost use Rattle.gq_service.specs.Gone.{IsRead, somebody_went, read_left, read_without};

use gq_keeper::{LeavesOut, last_plan};
use gq_lines::{first_word, next_word};
use gq_memory::OutOfMemory;
use gq_setup::{Setup, read_node_plan};
use std::alloc::Global;

/// Which facts a start leaves out where tenants went: each that names one who is gone by this setup.
#[derive(Drop)]
pub(crate) struct OfGone<'x> {
    pub setup: &'x Setup,
}

impl LeavesOut for OfGone<'_> {
    ghost use Rattle.gq_service.specs.Gone.{is_of_gone};

    ghost leaves_out = { λ it. is_of_gone it.setup.now.gone };

    #[tactic(auto, unfolding(crate::specs::Gone::names_gone))]
    fn leaves_out(&self, line: &[u8]) -> bool {
        let (_, rest) = first_word(line);
        match next_word(rest) {
            Some((name, _)) => self.setup.is_gone(name),
            None => false,
        }
    }
}

// Whether more tenants are gone by the setup than by the older one.
fn are_more(old: &Setup, setup: &Setup) -> bool
    ensures { result ≡ nat_lt (length old.now.gone) (length setup.now.gone) }
{
    old.gone().len() < setup.gone().len()
}

/// Whether more tenants are gone by the setup than by the last plan of the journal of this text.
pub(crate) fn somebody_went(
    alloc: Global,
    setup: &Setup,
    journal: &[u8],
) -> Result<bool, OutOfMemory>
    ensures { IfOk result (λ went. went ≡ somebody_went setup.now journal.now) }
{
    if setup.gone().is_empty() {
        return Ok(false);
    }
    let last = last_plan(alloc, journal)?;
    let read = read_node_plan(alloc, last)?;
    match read {
        Some(old) => Ok(are_more(&old, setup)),
        None => Ok(false),
    }
}

// What is left of the plan without those who are gone by the setup.
fn left_of(alloc: Global, setup: &Setup, begun: &Setup) -> Result<Option<Setup>, OutOfMemory>
    ensures { IfOk result (λ left. left ≡ Some (without setup.now.gone begun.now)) }
{
    let left = begun.without(alloc, setup.gone())?;
    Ok(Some(left))
}

// The same of one that was read, if one was.
fn without_gone(
    alloc: Global,
    setup: &Setup,
    read: &Option<Setup>,
) -> Result<Option<Setup>, OutOfMemory>
    ensures { IfOk result (λ left. (reading : SetupReading TheSetup) → IsRead reading read.now → IsRead (read_without setup.now.gone reading) left) }
{
    match read {
        Some(begun) => left_of(alloc, setup, begun),
        None => Ok(None),
    }
}

/// The plan of this text, with which the journal begins, if it tells one: as it is, or where tenants went without those who are gone by the
/// setup.
pub(crate) fn first_setup(
    alloc: Global,
    setup: &Setup,
    went: bool,
    first: &[u8],
) -> Result<Option<Setup>, OutOfMemory>
    ensures { IfOk result (IsRead (read_left went setup.now (setup_of_node_text first.now))) }
{
    let read = read_node_plan(alloc, first)?;
    if went {
        return without_gone(alloc, setup, &read);
    }
    Ok(read)
}
