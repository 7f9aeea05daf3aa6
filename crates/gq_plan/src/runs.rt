//! Volumes that are alike and follow one another.

ghost use Rattle.std.specs.Prelude.{◌≡◌, ◌+◌, ◌≤◌, ◌<◌, ◌^◌, length, IfOk};
ghost use Rattle.gq_desk.specs.declared.limits.TheConstants.{MOST_VOLUMES};
ghost use Rattle.gq_plan.specs.PlanWords.{is_more, one_run, runs_from, runs_of};

use gq_desk::VolumeRow;
use gq_memory::{GrowVec, OutOfMemory};
use std::alloc::Global;

/// Volumes that are alike and follow one another: so many of so many files of so many blocks each.
#[derive(Clone, Copy, Debug, Drop)]
pub struct Run {
    pub files: u32,
    pub blocks: u32,
    pub times: u32,
}

// A volume alone.
fn one_run(volume: &VolumeRow) -> Run
    ensures { result ≡ one_run volume.now }
{
    Run {
        files: volume.files,
        blocks: volume.blocks,
        times: 1,
    }
}

// Whether the volume is like those of the run.
fn is_more(run: &Run, volume: &VolumeRow) -> bool
    ensures { result ≡ is_more run.now volume.now }
{
    run.files == volume.files && run.blocks == volume.blocks
}

// The runs of a first volume and those behind it.
fn runs_from(
    alloc: Global,
    first: &VolumeRow,
    volumes: &[VolumeRow],
) -> Result<Vec<Run>, OutOfMemory>
    requires { length volumes.now < 2 ^ 31 }
    ensures runs { IfOk result (λ runs. runs.items ≡ runs_from (one_run first.now) volumes.now) }
    ensures few { IfOk result (λ runs. length runs.items ≤ length volumes.now + 1) }
{
    let mut runs = Vec::new(alloc);
    let mut run = one_run(first);
    for volume in volumes {
        if is_more(&run, volume) {
            run.times += 1;
        } else {
            runs.grow(run)?;
            run = one_run(volume);
        }
    }
    runs.grow(run)?;
    Ok(runs)
}

// The runs of volumes, in order.
pub(crate) fn runs_of(alloc: Global, volumes: &[VolumeRow]) -> Result<Vec<Run>, OutOfMemory>
    requires { length volumes.now ≤ MOST_VOLUMES }
    ensures runs { IfOk result (λ runs. runs.items ≡ runs_of volumes.now) }
    ensures few { IfOk result (λ runs. length runs.items ≤ length volumes.now) }
{
    match volumes {
        [] => Ok(Vec::new(alloc)),
        [first, rest @ ..] => runs_from(alloc, first, rest),
    }
}
