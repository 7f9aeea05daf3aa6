//! How much a node of a plan has, and takes.

ghost use Rattle.std.specs.Prelude.{◌≡◌, ◌≤◌, ◌<◌, ◌^◌, length, IfOk};
ghost use Rattle.gq_desk.specs.declared.limits.TheConstants.{MOST_VOLUMES};
ghost use Rattle.gq_plan.specs.PlanWords.{files_of, files_in, short_of, short_in, most_runs, answer, memory, peak};

use crate::runs::runs_of;
use gq_desk::VolumeRow;
use gq_memory::OutOfMemory;
use gq_setup::Setup;
use gq_stock::MOST_FRESH_BYTES;
use std::alloc::Global;

/// The bytes of memory that a node takes as it starts, for each block of its server: 64 of content, and what keeps them together.
pub const BLOCK_MEMORY: u64 = 80;

/// The same for each file that is open.
pub const FILE_MEMORY: u64 = 32;

/// The bytes of memory that a node takes at most for each block, also while it starts from the longest journal or writes it anew.
pub const PEAK_BLOCK_MEMORY: u64 = 384;

/// The same for each file that is open.
pub const PEAK_FILE_MEMORY: u64 = 300;

/// The same for each byte of short chunks that may be in memory.
pub const PEAK_SHORT_MEMORY: u64 = 6;

/// And so many bytes beside that, whatever the plan.
pub const PEAK_SPARE: u64 = 134_217_728;

/// The most bytes of an answer `plan`, but for its volumes.
pub const ANSWER_BYTES: u64 = 400;

/// The most bytes of a run of volumes in that answer.
pub const RUN_BYTES: u64 = 15;

// The files of these volumes.
pub(crate) fn files_of(volumes: &[VolumeRow]) -> u64
    requires { length volumes.now ≤ MOST_VOLUMES }
    ensures files { result ≡ files_of volumes.now }
    ensures bound { result ≤ 2 ^ 48 }
{
    let mut files = 0;
    for volume in volumes {
        files += u64::from(volume.files);
    }
    files
}

// The files that are open.
pub(crate) fn files_in(setup: &Setup) -> u64
    ensures files { result ≡ files_in setup.now }
    ensures bound { result ≤ 2 ^ 54 }
{
    let mut files = 0;
    for tenant in 0..setup.plan().tenants() {
        files += files_of(setup.volume_rows(tenant as u8));
    }
    files
}

// How many bytes of the tenant's short chunks may be in memory.
fn short_of(setup: &Setup, tenant: u8) -> u64
    ensures short { result ≡ short_of setup.now tenant }
    ensures bound { result ≤ MOST_FRESH_BYTES }
{
    setup.chunk_bytes(tenant).min(MOST_FRESH_BYTES)
}

// How many bytes of short chunks may be in memory.
pub(crate) fn short_in(setup: &Setup) -> u64
    ensures short { result ≡ short_in setup.now }
    ensures bound { result ≤ 2 ^ 28 }
{
    let mut short = 0;
    for tenant in 0..setup.plan().tenants() {
        short += short_of(setup, tenant as u8);
    }
    short
}

// How many runs the volumes of a tenant are at most.
fn most_runs(alloc: Global, setup: &Setup) -> Result<usize, OutOfMemory>
    ensures runs { IfOk result (λ runs. runs ≡ most_runs setup.now) }
    ensures few { IfOk result (λ runs. runs ≤ MOST_VOLUMES) }
{
    let mut most = 0;
    for tenant in 0..setup.plan().tenants() {
        let runs = runs_of(alloc, setup.volume_rows(tenant as u8))?;
        most = runs.as_slice().len().max(most);
    }
    Ok(most)
}

// The most bytes of an answer `plan`.
pub(crate) fn answer(alloc: Global, setup: &Setup) -> Result<u64, OutOfMemory>
    ensures { IfOk result (λ bytes. bytes ≡ answer setup.now) }
{
    let runs = most_runs(alloc, setup)? as u64;
    Ok(ANSWER_BYTES + RUN_BYTES * runs)
}

// The bytes of memory that a node takes as it starts.
pub(crate) fn memory(blocks: u32, files: u64) -> u64
    requires { files ≤ 2 ^ 54 }
    ensures { result ≡ memory blocks files }
{
    BLOCK_MEMORY * u64::from(blocks) + FILE_MEMORY * files
}

// The most that it takes.
pub(crate) fn peak(blocks: u32, files: u64, short: u64) -> u64
    requires files { files ≤ 2 ^ 54 }
    requires short { short ≤ 2 ^ 28 }
    ensures { result ≡ peak blocks files short }
{
    PEAK_BLOCK_MEMORY * u64::from(blocks)
        + PEAK_FILE_MEMORY * files
        + PEAK_SHORT_MEMORY * short
        + PEAK_SPARE
}
