//! A live run, and the script that it was.

ghost use Rattle.std.specs.Prelude.{◌≡◌, ◌≢◌, ◌↔◌, ◌≤◌, length, true, false, IfOk, IfErr, IfSome, OnOk, IsErrOf};
ghost use Rattle.gq_streams.specs.Watched.{inner_of, has_failed};
ghost use Rattle.gq_session.specs.Fitting.{FitsPlan};
ghost use Rattle.gq_runs.specs.LiveRuns.{IsLiveScript, IsScriptOfRun, IsLiveFaultOf, IsMismatchOf, IsFaultOfRun, IsFaultOfScript, AppendsLive, AppendsLivePrefix, GivesPrograms, NoGateFault};

use crate::programs::{ProgramFault, read_programs};
use gq_desk::{Name, Plan};
use gq_inspect::{Mismatch, inspect};
use gq_live::{Gate, LiveFault, Programs, live};
use gq_memory::OutOfMemory;
use gq_script::{MOST_INPUT, ReadFault, read_whole};
use gq_streams::{Watched, WriteFault, write_whole};
use gq_text::write_script;
use std::alloc::Global;
use std::fmt::{Display, Error as FormatError, Formatter, Write as FormatWrite};
use std::io::{Read, Write};
use std::sync::Wait;
use std::thread::Threads;
use thiserror::Error;

/// Why the records of a live run are no run, with the name of the tenant whose session's step it is.
#[derive(Debug, Drop)]
pub struct NamedMismatch {
    pub mismatch: Mismatch,
    pub name: Option<Name>,
}

impl Display for NamedMismatch {
    fn fmt<W: FormatWrite>(&self, f: &mut Formatter<W>) -> Result<(), FormatError> {
        match (&self.mismatch, &self.name) {
            (Mismatch::Answer { session, at, .. }, Some(name)) => {
                let word = std::str::from_utf8(name.as_bytes()).unwrap_or("?");
                write!(f, "mismatch answer {word} {session} {at}")
            }
            (mismatch, _) => write!(f, "{mismatch}"),
        }
    }
}

/// Why a live run gave no script. After each fault but that of writing nothing was written.
#[derive(Debug, Drop, Error)]
pub enum LiveRunFault {
    /// The reader failed.
    #[error("read fault")]
    Read,
    /// The input has more than [`MOST_INPUT`] bytes.
    #[error("input over 16777216 bytes")]
    TooBig,
    /// The input gives no programs. It is not `Memory`.
    #[error("{0}")]
    Program(ProgramFault),
    /// The run gave no records. It is not `Memory`.
    #[error("{0}")]
    Live(LiveFault),
    /// What was recorded is no run of the service. It is not `Memory`.
    #[error("{0}")]
    Mismatch(NamedMismatch),
    /// Memory is wanting.
    #[error("out of memory")]
    Memory(OutOfMemory),
    /// The writer failed, or took none of some bytes. A prefix of the output was written.
    #[error("write fault")]
    Write,
}

// The fault of the threads.
fn live_fault(fault: LiveFault) -> LiveRunFault
    ensures told { fault ≢ LiveFault.Memory tt → result ≡ LiveRunFault.Live fault }
    ensures run { IsFaultOfRun result }
    ensures gate { fault ≢ LiveFault.Gate → NoGateFault result }
{
    match fault {
        LiveFault::Memory(refused) => LiveRunFault::Memory(refused),
        fault => LiveRunFault::Live(fault),
    }
}

// The fault of the inspection, with the name of its tenant.
fn inspection_fault(plan: &Plan, mismatch: Mismatch) -> LiveRunFault
    ensures told { mismatch ≢ Mismatch.Memory tt → IsMismatchOf plan.now mismatch result }
    ensures run { IsFaultOfRun result }
    ensures gate { NoGateFault result }
{
    let name = match mismatch {
        Mismatch::Memory(refused) => return LiveRunFault::Memory(refused),
        Mismatch::Answer { tenant, .. } if (tenant as usize) < plan.tenants() => {
            Some(plan.row(tenant).name)
        }
        _ => None,
    };
    LiveRunFault::Mismatch(NamedMismatch { mismatch, name })
}

impl From<ReadFault> for LiveRunFault {
    ghost use Rattle.gq_runs.specs.LiveRuns.{live_of_reading};

    ghost from_gives = { λ fault e. e ≡ live_of_reading fault };

    fn from(fault: ReadFault) -> LiveRunFault {
        match fault {
            ReadFault::Read => LiveRunFault::Read,
            ReadFault::TooBig => LiveRunFault::TooBig,
            ReadFault::Memory(refused) => LiveRunFault::Memory(refused),
        }
    }
}

impl From<WriteFault> for LiveRunFault {
    ghost use Rattle.gq_runs.specs.declared.live.LiveRunFault.TheVariants.{Write};

    ghost from_gives = { λ fault e. e ≡ Write };

    fn from(_: WriteFault) -> LiveRunFault {
        LiveRunFault::Write
    }
}

// Runs the programs in threads, inspects what was recorded, and gives the run's script.
fn recorded_script<G: Gate + Send + Sync, T: Threads + Wait + Sync>(
    rt: &T,
    alloc: Global,
    plan: &Plan,
    programs: &Programs,
    gate: &G,
) -> Result<Vec<u8>, LiveRunFault>
    requires fits { FitsPlan plan.now programs.now }
    ensures script { IfOk result (λ text. IsScriptOfRun plan.now programs.now text.items) }
    ensures fault { IfErr result IsFaultOfRun }
    ensures gate { G.never ≡ true → IfErr result NoGateFault }
{
    let records = match live(rt, alloc, plan, programs, gate) {
        Ok(records) => records,
        Err(fault) => return Err(live_fault(fault)),
    };
    let events = match inspect(alloc, plan, &records) {
        Ok(events) => events,
        Err(mismatch) => return Err(inspection_fault(plan, mismatch)),
    };
    let mut text = Vec::new(alloc);
    match write_script(plan, events.as_slice(), &mut text) {
        Ok(()) => Ok(text),
        Err(refused) => Err(LiveRunFault::Memory(refused)),
    }
}

// The script of a live run of an input.
fn live_script<G: Gate + Send + Sync, T: Threads + Wait + Sync>(
    rt: &T,
    alloc: Global,
    input: &[u8],
    gate: &G,
) -> Result<Vec<u8>, LiveRunFault>
    requires { length input.now ≤ MOST_INPUT }
    ensures script { IfOk result (λ text. IsLiveScript input.now text.items) }
    ensures accepted { OnOk result (GivesPrograms input.now) }
    ensures fault { IfErr result (IsFaultOfScript input.now) }
    ensures gate { G.never ≡ true → IfErr result NoGateFault }
{
    match read_programs(alloc, input) {
        Ok((plan, programs)) => recorded_script(rt, alloc, &plan, &programs, gate),
        Err(ProgramFault::Memory(refused)) => Err(LiveRunFault::Memory(refused)),
        Err(fault) => Err(LiveRunFault::Program(fault)),
    }
}

/// Reads the plan and the programs of a live run, runs them in threads, has what was recorded inspected, and writes the run
/// as a script for [`gq_script::run`], which takes it where it has at most [`MOST_INPUT`] bytes: the plan, the opens, and
/// each request, delivery, retry and abandonment, each stop and return of a server, in the order in which they took place.
/// Its answers are what the sessions were told and the letters that the servers sent. It may wait for ever.
///
/// `Program` tells the first fault of the input; `Live` and `Mismatch` that the threads or the inspection of their records
/// failed. After each fault but `Write` nothing was written, after that a prefix of the script. A writer that buffers is
/// flushed by the caller.
pub fn live_run<R: Read, W: Write, G: Gate + Send + Sync, T: Threads + Wait + Sync>(
    rt: &T,
    alloc: Global,
    reader: &mut Watched<R>,
    writer: &mut Watched<W>,
    gate: &G,
) -> Result<(), LiveRunFault>
    requires reader { has_failed reader.old ≡ false }
    requires writer { has_failed writer.old ≡ false }

    // Ok: the script of a live run of the input was appended.
    ensures ok { OnOk result (IfSome (R.remaining (inner_of reader.old)) (λ input.
        AppendsLive input (W.contents (inner_of writer.old)) (W.contents (inner_of writer.new)))) }

    // When each fault comes.
    ensures read { IsErrOf result LiveRunFault.Read ↔ (has_failed reader.new ≡ true) }
    ensures fault { IfErr result (λ e. IfSome (R.remaining (inner_of reader.old)) (λ input. IsLiveFaultOf input e)) }
    ensures gate { G.never ≡ true → IfErr result NoGateFault }
    ensures write { IsErrOf result LiveRunFault.Write ↔ (has_failed writer.new ≡ true) }

    // What was written at a fault.
    ensures nothing { IfErr result (λ e. e ≢ LiveRunFault.Write → writer.new ≡ writer.old) }
    ensures prefix { IsErrOf result LiveRunFault.Write → IfSome (R.remaining (inner_of reader.old)) (λ input.
        AppendsLivePrefix input (W.contents (inner_of writer.old)) (W.contents (inner_of writer.new))) }
{
    let input = read_whole(alloc, reader)?;
    let text = live_script(rt, alloc, input.as_slice(), gate)?;
    write_whole(writer, text.as_slice())?;
    Ok(())
}
