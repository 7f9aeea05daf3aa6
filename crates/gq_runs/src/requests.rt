//! What a command line asks for, done.

ghost use Rattle.std.specs.Prelude.{◌≡◌, ◌≤◌, ◌↔◌, ℕ, List, false, true, Some, IfErr, IfSome, IsErrAnd, IsErrOf, OnOk};
ghost use Rattle.std.specs.Io.KnownBytes.{Consumes};
ghost use Rattle.gq_script.specs.Stepping.{AnswersEnded};
ghost use Rattle.gq_streams.specs.Watched.{inner_of, has_failed};
ghost use Rattle.gq_script.specs.declared.script.RunFault.{RunFault};
ghost use Rattle.gq_runs.specs.Requests.{Writes, WritesPrefix, MayHaveWritten, IsFaultFor, run_fault, status_of};
ghost use Rattle.gq_runs.specs.declared.requests.RequestFault.{RequestFault};

use crate::live::{LiveRunFault, live_run};
use gq_files::{OrderFault, history_run, order_run, picture_run};
use gq_finish::{FinishFault, finish_run};
use gq_live::{LiveFault, OpenGate};
use gq_script::{Notice, RunFault, step};
use gq_script_words::Request;
use gq_shards::{SHORT, run_in_shards};
use gq_streams::Watched;
use std::alloc::Global;
use std::io::{Read, Write};
use std::sync::Wait;
use std::thread;
use std::thread::Threads;
use thiserror::Error;

// A fault of the input, of reading or of writing, or what was asked for is not there.
const FAULT: u8 = 1;
// Memory is wanting, or a thread could not be started.
const MEMORY: u8 = 3;
// What a live run recorded, or the run itself, is not what it should be.
const REFUSED: u8 = 4;

/// Why a request ended early.
#[derive(Debug, Drop, Error)]
pub enum RequestFault {
    /// A run did.
    #[error("{0}")]
    Run(RunFault),
    /// A run that answers each line as it comes did.
    #[error("{0}")]
    Step(RunFault),
    /// A run with the order of a file's operations did.
    #[error("{0}")]
    Order(OrderFault),
    /// The history of a file's operations was not told.
    #[error("{0}")]
    History(OrderFault),
    /// The picture of a file's operations was not drawn.
    #[error("{0}")]
    Picture(OrderFault),
    /// The lines that complete an operation were not told.
    #[error("{0}")]
    Finish(FinishFault),
    /// A live run did.
    #[error("{0}")]
    Live(LiveRunFault),
}

fn run_status(fault: &RunFault) -> u8
    ensures { result ≡ status_of (RequestFault.Run fault.now) }
{
    match fault {
        RunFault::Memory(_) => MEMORY,
        _ => FAULT,
    }
}

fn live_status(fault: &LiveRunFault) -> u8
    ensures { result ≡ status_of (RequestFault.Live fault.now) }
{
    match fault {
        LiveRunFault::Memory(_) | LiveRunFault::Live(LiveFault::Memory(_) | LiveFault::Thread) => {
            MEMORY
        }
        LiveRunFault::Live(LiveFault::Gate | LiveFault::Stamps | LiveFault::Letter)
        | LiveRunFault::Mismatch(_) => REFUSED,
        _ => FAULT,
    }
}

impl RequestFault {
    /// The status that the program ends with.
    pub fn status(&self) -> u8
        ensures { result ≡ status_of self.now }
    {
        match self {
            RequestFault::Run(fault)
            | RequestFault::Step(fault)
            | RequestFault::Order(OrderFault::Run(fault))
            | RequestFault::History(OrderFault::Run(fault))
            | RequestFault::Picture(OrderFault::Run(fault))
            | RequestFault::Finish(FinishFault::Run(fault)) => run_status(fault),
            RequestFault::Live(fault) => live_status(fault),
            _ => FAULT,
        }
    }
}

// How many shards a number of jobs is: 0 is one for each core, where it is known how many there are.
fn shards_of(rt: &impl Threads, jobs: u32) -> usize
    ensures { 1 ≤ jobs → result ≡ jobs }
{
    if jobs > 0 {
        return jobs as usize;
    }
    match thread::available_parallelism(rt) {
        Ok(cores) => cores.get(),
        Err(_) => 1,
    }
}

/// Does what a command line asks for between a reader and a writer. What is written is what the words ask for, or at a fault of
/// writing a beginning of it; the faults, when each comes, and what was written at each, are those of [`gq_shards::run_in_shards`], [`gq_script::step`], [`gq_files::order_run`],
/// [`gq_files::history_run`], [`gq_files::picture_run`], [`gq_finish::finish_run`] and [`crate::live_run`]. The notice is told by a run that
/// answers each line as it comes. How many shards a run has depends on the machine where the words say 0, and no answer does.
pub fn carry_out<T: Threads + Wait + Sync, N: Notice, R: Read, W: Write>(
    rt: &T,
    alloc: Global,
    notice: &N,
    reader: &mut Watched<R>,
    writer: &mut Watched<W>,
    request: Request,
) -> Result<(), RequestFault>
    requires reader { has_failed reader.old ≡ false }
    requires writer { has_failed writer.old ≡ false }

    // Ok: what was asked for was appended.
    ensures ok { OnOk result (IfSome (R.remaining (inner_of reader.old)) (λ input.
        Writes request.entry input (W.contents (inner_of writer.old)) (W.contents (inner_of writer.new)))) }

    // When each fault comes.
    ensures read { IsErrAnd result (λ fault. run_fault fault ≡ Some RunFault.Read) ↔ (has_failed reader.new ≡ true) }
    ensures cause { IfErr result (λ fault. IfSome (R.remaining (inner_of reader.old)) (λ input.
        IsFaultFor request.entry input fault)) }
    ensures write { IsErrAnd result (λ fault. run_fault fault ≡ Some RunFault.Write) ↔ (has_failed writer.new ≡ true) }

    // What was written at a fault.
    ensures nothing { IfErr result (λ fault. (MayHaveWritten fault → ⊥) → writer.new ≡ writer.old) }
    ensures part { IfErr result (λ fault. MayHaveWritten fault → IfSome (R.remaining (inner_of reader.old)) (λ input.
        WritesPrefix request.entry input (W.contents (inner_of writer.old)) (W.contents (inner_of writer.new)))) }
    ensures answered { IsErrOf result (RequestFault.Step RunFault.Read) → (input : List ℕ) ×
        Consumes (R.remaining (inner_of reader.old)) (R.remaining (inner_of reader.new)) input ×
        AnswersEnded input (W.contents (inner_of writer.old)) (W.contents (inner_of writer.new)) }
{
    match request {
        Request::Run { jobs } => {
            let shards = shards_of(rt, jobs);
            match run_in_shards(rt, alloc, shards, SHORT, reader, writer) {
                Ok(()) => Ok(()),
                Err(fault) => Err(RequestFault::Run(fault)),
            }
        }
        Request::Step => match step(alloc, notice, reader, writer) {
            Ok(()) => Ok(()),
            Err(fault) => Err(RequestFault::Step(fault)),
        },
        Request::Order { name, volume, file } => {
            match order_run(alloc, reader, writer, name, volume, file) {
                Ok(()) => Ok(()),
                Err(fault) => Err(RequestFault::Order(fault)),
            }
        }
        Request::History { name, volume, file } => {
            match history_run(alloc, reader, writer, name, volume, file) {
                Ok(()) => Ok(()),
                Err(fault) => Err(RequestFault::History(fault)),
            }
        }
        Request::Picture { name, volume, file } => {
            match picture_run(alloc, reader, writer, name, volume, file) {
                Ok(()) => Ok(()),
                Err(fault) => Err(RequestFault::Picture(fault)),
            }
        }
        Request::Finish { name, session } => {
            match finish_run(alloc, reader, writer, name, session) {
                Ok(()) => Ok(()),
                Err(fault) => Err(RequestFault::Finish(fault)),
            }
        }
        Request::Live => match live_run(rt, alloc, reader, writer, &OpenGate) {
            Ok(()) => Ok(()),
            Err(fault) => Err(RequestFault::Live(fault)),
        },
    }
}
