//! What of a setup is left once tenants are gone.
//!
//! The place of who went has another tenant at once, if only a vacant one. So a plan with lines `gone` is a plan as any
//! other, and no law has a case for it. A share is 1 block at least.

ghost use Rattle.std.specs.Prelude.{◌≡◌, ◌<◌, length, None, IfOk, OnOk};
ghost use Rattle.std.specs.List.{All};
ghost use Rattle.gq_setup.specs.Leaving.{openings_left, rooms_left};
ghost use Rattle.gq_setup.specs.Setups.{after_opening, after_openings, opening_fault, is_gone_at, CanOpen};

use crate::openings::{ChunkRoom, Opening, is_gone};
use gq_desk::{Desk, Name, OpenRefused, Plan};
use gq_memory::{GrowCopies, GrowVec, OutOfMemory};
use std::alloc::Global;

// Whether the tenant at that place is gone.
fn is_gone_at(gone: &[Name], plan: &Plan, tenant: u8) -> bool
    requires { tenant < length plan.now.rows }
    ensures { result ≡ is_gone_at gone.now plan.now tenant }
{
    is_gone(gone, plan.row(tenant).name.as_bytes())
}

// What is opened for tenants that are not gone.
pub(crate) fn openings_left(
    alloc: Global,
    gone: &[Name],
    plan: &Plan,
    openings: &[Opening],
) -> Result<Vec<Opening>, OutOfMemory>
    requires { All (λ opening. opening.tenant < length plan.now.rows) openings.now }
    ensures { IfOk result (λ left. left.items ≡ openings_left gone.now plan.now openings.now) }
{
    let mut left = Vec::new(alloc);
    for opening in openings {
        if !is_gone_at(gone, plan, opening.tenant) {
            left.grow(*opening)?;
        }
    }
    Ok(left)
}

// The room for chunks of tenants that are not gone.
pub(crate) fn rooms_left(
    alloc: Global,
    gone: &[Name],
    plan: &Plan,
    rooms: &[ChunkRoom],
) -> Result<Vec<ChunkRoom>, OutOfMemory>
    requires { All (λ room. room.tenant < length plan.now.rows) rooms.now }
    ensures { IfOk result (λ left. left.items ≡ rooms_left gone.now plan.now rooms.now) }
{
    let mut left = Vec::new(alloc);
    for room in rooms {
        if !is_gone_at(gone, plan, room.tenant) {
            left.grow(*room)?;
        }
    }
    Ok(left)
}

// Opens the volume, which can be opened.
fn open_again(desk: &mut Desk, opening: Opening) -> Result<(), OutOfMemory>
    requires tenant { opening.tenant < length desk.old }
    requires sound { opening_fault desk.old opening ≡ None }
    ensures { OnOk result (desk.new ≡ after_opening desk.old opening) }
{
    match desk.open_volume(opening.tenant, opening.files, opening.blocks) {
        Ok(_) => Ok(()),
        Err(OpenRefused::Memory(refused)) => Err(refused),
        Err(OpenRefused::Size) => unreachable!(),
        Err(OpenRefused::Volumes) => unreachable!(),
        Err(OpenRefused::Share { .. }) => unreachable!(),
    }
}

// Opens the volumes, which can be opened one behind another.
pub(crate) fn open_all(desk: &mut Desk, openings: &[Opening]) -> Result<(), OutOfMemory>
    requires { CanOpen desk.old openings.now }
    ensures { OnOk result (desk.new ≡ after_openings desk.old openings.now) }
{
    for opening in openings {
        open_again(desk, *opening)?;
    }
    Ok(())
}
