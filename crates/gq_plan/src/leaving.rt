//! Who leaves where a plan follows an older one, and what is free again.

ghost use Rattle.std.specs.Prelude.{◌≡◌, ◌++◌, ◌<◌, length, OnOk};
ghost use Rattle.std.specs.List.{flat_map};
ghost use Rattle.gq_plan.specs.PlanWords.{tenants_of};
ghost use Rattle.gq_plan.specs.Leaving.{freed_line, freed_text, next_text};

use crate::line::{Named, put_line};
use gq_desk::TenantRow;
use gq_memory::{GrowCopies, OutOfMemory};
use gq_setup::Setup;

// Appends that the tenant of this row is gone, with its share, and so many KiB of chunks.
fn put_freed(out: &mut Vec<u8>, row: &TenantRow, chunks: u32) -> Result<(), OutOfMemory>
    ensures { OnOk result (out.new.items ≡ out.old.items ++ freed_line row.now chunks) }
{
    put_line(
        out,
        Named::Word(b"gone", row.name.as_bytes()),
        &[
            Named::Number(b"freed", u64::from(row.share)),
            Named::Number(b"chunks", u64::from(chunks)),
        ],
    )
}

// Appends what is free again of the older plan's tenant, if it is gone by the newer one.
fn put_leaver(
    out: &mut Vec<u8>,
    before: &Setup,
    after: &Setup,
    tenant: u8,
) -> Result<(), OutOfMemory>
    requires { tenant < length before.now.plan.rows }
    ensures { OnOk result (out.new.items ≡ out.old.items ++ freed_text before.now after.now tenant) }
{
    let row = before.plan().row(tenant);
    if after.is_gone(row.name.as_bytes()) {
        put_freed(out, row, before.chunk_kib(tenant))
    } else {
        Ok(())
    }
}

// Appends what is free again of all who leave.
fn put_leavers(out: &mut Vec<u8>, before: &Setup, after: &Setup) -> Result<(), OutOfMemory>
    ensures { OnOk result (out.new.items ≡ out.old.items ++ flat_map (freed_text before.now after.now) (tenants_of before.now)) }
{
    for tenant in 0..before.plan().tenants() {
        put_leaver(out, before, after, tenant as u8)?;
    }
    Ok(())
}

// Appends that the newer plan follows, and who leaves by it.
pub(crate) fn put_next(out: &mut Vec<u8>, before: &Setup, after: &Setup) -> Result<(), OutOfMemory>
    ensures { OnOk result (out.new.items ≡ out.old.items ++ next_text before.now after.now) }
{
    out.grow_by(b"follows=yes\n")?;
    put_leavers(out, before, after)
}
