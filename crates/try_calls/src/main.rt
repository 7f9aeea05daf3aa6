//! Makes public calls one by one, for tests in which memory or a stream is refused to them.
//!
//! Of a store: `new BLOCKS` makes one of so many blocks; `add FILES` adds a volume of so many files to one; `put TIMES`
//! puts a content so many times; `serve 1` has a store and an ask answered. Each prints how many blocks are free at the
//! end. `new` and `put` close the store, the others let it go.
//!
//! `calls PART` makes the calls of one part that take memory, one kind after another, and prints what can be seen of each
//! value before its call and what the call gave; those on texts with the script that it reads. A call to which memory is
//! refused is told, what can be seen of the value after it too, and then the call is made once more.
//!
//! `play` reads a script, has a world answer its lines one by one, and prints each answer, `ended` for each line after want
//! of memory, and at the end how many blocks of each server are free.
//!
//! `live` reads the programs of a live run, runs them in threads, and prints the script of that run, then a line `answers`, and
//! then for each session a line `session TENANT SESSION` (the tenant's place in the plan) and what it was told; in each answer
//! the messages are numbered from 0. `live shut` runs them under a gate that gives up, and prints the fault.
//!
//! `stream READ_EACH READ_ALL WRITE_EACH WRITE_ALL END run` runs a script between a reader that gives at most so many bytes
//! a call and fails after so many in all, and a writer that takes at most so many; where END is `fails` it fails after
//! these, where it is `none` it takes none. It prints what the writer took, and on standard error how often the reader was
//! called and how often it failed, and the same of the writer. With `order NAME VOLUME FILE` in place of `run`
//! it asks for the order of the operations on a file too, with `shards N` it runs the script in so many shards, with `step`
//! each line is answered as it comes, and with `live` it runs the programs of a live run and writes the script of that run.
//!
//! `shelf FOLDER` does what lines ask with the shelf of that folder: `append CONTENT`, `sync`, `read SEGMENT AT LEN SUM`,
//! `remove SEGMENT`. It tells each as it is done: `at SEGMENT AT LEN SUM`, `synced`, `read CONTENT`, `removed` or `stays`,
//! `damaged SEGMENT`, or `fault` and which. With `new` behind it no segment may be there.
//!
//! `run` runs a script by one world on the standard streams, and `shards N` in so many shards, also a short one.
//!
//! The status is 0, 1 after a fault of the input, of reading or of writing, 2 where the words are none of these, and 3
//! where memory was wanting.
#![tactic(auto)]

mod calls;
mod cells;
mod histories;
mod live;
mod operations;
mod play;
mod records;
mod shelf;
mod store;
mod streams;
mod texts;

use gq_files::OrderFault;
use gq_inspect::Mismatch;
use gq_live::LiveFault;
use gq_memory::OutOfMemory;
use gq_runs::{LiveRunFault, ProgramFault};
use gq_script::{RunFault, run};
use gq_shards::run_in_shards;
use gq_streams::Watched;
use gq_text::PlanText;
use std::alloc::{AllocError, Global};
use std::fmt::{Display, Error as FormatError, Formatter, Write as FormatWrite};
use std::io::{Read, Write};
use std::process::ExitCode;
use std::sync::Wait;
use std::thread::Threads;
use std::{env, io};
use streams::{Sink, Source, Streams};

// A fault of the input, of reading or of writing.
const FAULT: u8 = 1;
// Words that name no way.
const USAGE: u8 = 2;
// Memory is wanting.
const MEMORY: u8 = 3;

// Why a call was not made. (It owns nothing, so that a call that is tried leaves nothing to let go.)
#[derive(Clone, Copy)]
enum Fault {
    // The words name no way.
    Usage,
    // A call has a fault that it should not have.
    Other,
    // What was read is at fault.
    Input,
    // A standard stream failed.
    Stream,
    // Memory is wanting. No other fault tells so.
    Memory,
}

impl Display for Fault {
    fn fmt<W: FormatWrite>(&self, f: &mut Formatter<W>) -> Result<(), FormatError> {
        match self {
            Fault::Usage => f.write_str("the words name no way"),
            Fault::Other => f.write_str("another fault than want of memory"),
            Fault::Input => f.write_str("the input is at fault"),
            Fault::Stream => f.write_str("a standard stream failed"),
            Fault::Memory => f.write_str("out of memory"),
        }
    }
}

impl From<OutOfMemory> for Fault {
    fn from(_refused: OutOfMemory) -> Fault {
        Fault::Memory
    }
}

impl From<AllocError> for Fault {
    fn from(_: AllocError) -> Fault {
        Fault::Memory
    }
}

impl From<PlanText> for Fault {
    fn from(fault: PlanText) -> Fault {
        match fault {
            PlanText::Memory(_) => Fault::Memory,
            _ => Fault::Input,
        }
    }
}

impl From<ProgramFault> for Fault {
    fn from(fault: ProgramFault) -> Fault {
        match fault {
            ProgramFault::Memory(_) => Fault::Memory,
            _ => Fault::Input,
        }
    }
}

impl From<LiveFault> for Fault {
    fn from(fault: LiveFault) -> Fault {
        match fault {
            LiveFault::Memory(_) => Fault::Memory,
            _ => Fault::Input,
        }
    }
}

impl From<io::Error> for Fault {
    fn from(error: io::Error) -> Fault {
        match error.kind() {
            io::ErrorKind::OutOfMemory => Fault::Memory,
            _ => Fault::Stream,
        }
    }
}

// Why what the words ask for was not done to its end.
#[derive(Drop)]
enum End {
    // A call was not made.
    Call(Fault),
    // The run ended early. Want of memory is told as a call's, here and below.
    Run(OrderFault),
    // The live run gave no records.
    Live(LiveFault),
    // The records are no run.
    Records(Mismatch),
}

impl Display for End {
    fn fmt<W: FormatWrite>(&self, f: &mut Formatter<W>) -> Result<(), FormatError> {
        match self {
            End::Call(fault) => fault.fmt(f),
            End::Run(fault) => fault.fmt(f),
            End::Live(fault) => fault.fmt(f),
            End::Records(fault) => fault.fmt(f),
        }
    }
}

impl From<Fault> for End {
    fn from(fault: Fault) -> End {
        End::Call(fault)
    }
}

impl From<RunFault> for End {
    fn from(fault: RunFault) -> End {
        End::from(OrderFault::Run(fault))
    }
}

impl From<OrderFault> for End {
    fn from(fault: OrderFault) -> End {
        match fault {
            OrderFault::Run(RunFault::Memory(_)) => End::Call(Fault::Memory),
            fault => End::Run(fault),
        }
    }
}

impl From<ProgramFault> for End {
    fn from(fault: ProgramFault) -> End {
        End::Call(Fault::from(fault))
    }
}

impl From<LiveFault> for End {
    fn from(fault: LiveFault) -> End {
        match fault {
            LiveFault::Memory(_) => End::Call(Fault::Memory),
            fault => End::Live(fault),
        }
    }
}

impl From<LiveRunFault> for End {
    fn from(fault: LiveRunFault) -> End {
        match fault {
            LiveRunFault::Read => End::from(RunFault::Read),
            LiveRunFault::TooBig => End::from(RunFault::TooBig),
            LiveRunFault::Program(fault) => End::from(fault),
            LiveRunFault::Live(fault) => End::from(fault),
            LiveRunFault::Mismatch(named) => End::from(named.mismatch),
            LiveRunFault::Memory(refused) => End::from(RunFault::Memory(refused)),
            LiveRunFault::Write => End::from(RunFault::Write),
        }
    }
}

impl From<Mismatch> for End {
    fn from(fault: Mismatch) -> End {
        match fault {
            Mismatch::Memory(_) => End::Call(Fault::Memory),
            fault => End::Records(fault),
        }
    }
}

// The number that a word tells.
fn number(word: &String) -> Result<usize, Fault> {
    match word.as_str().parse::<usize>() {
        Ok(number) => Ok(number),
        Err(_) => Err(Fault::Usage),
    }
}

// The number of a volume or a file that a word tells.
fn place(word: &String) -> Result<u32, Fault> {
    match word.as_str().parse::<u32>() {
        Ok(place) => Ok(place),
        Err(_) => Err(Fault::Usage),
    }
}

// All of standard input.
fn input(rt: &HostRuntime) -> Result<Vec<u8>, Fault> {
    let mut text = Vec::new(rt.alloc());
    rt.reader().read_to_end(&mut text)?;
    Ok(text)
}

// What is run between a reader and a writer.
#[derive(Clone, Copy)]
enum Run<'a> {
    Plain,
    // Each line is answered as it comes.
    Step,
    Shards(usize),
    // The programs of a live run, in threads.
    Live,
    // With the order of the operations on a file of the tenant of this name.
    Order(&'a str, u32, u32),
}

// What the words ask to be run.
fn run_of<'a>(words: &'a [String]) -> Result<Run<'a>, Fault> {
    match words {
        [run] if run.as_str() == "run" => Ok(Run::Plain),
        [step] if step.as_str() == "step" => Ok(Run::Step),
        [live] if live.as_str() == "live" => Ok(Run::Live),
        [shards, count] if shards.as_str() == "shards" => Ok(Run::Shards(number(count)?)),
        [order, name, volume, file] if order.as_str() == "order" => {
            Ok(Run::Order(name.as_str(), place(volume)?, place(file)?))
        }
        _ => Err(Fault::Usage),
    }
}

// Does what is asked for between the reader and the writer, and tells their calls. What the writer took comes into `out`.
fn between<R: Threads + Wait + Sync>(
    threads: &R,
    alloc: Global,
    source: Source,
    sink: Sink,
    asked: Run<'_>,
    out: &mut Vec<u8>,
) -> (Streams, Result<(), End>) {
    match asked {
        Run::Plain => {
            let (calls, ended) = streams::run_between(alloc, source, sink, out);
            (calls, ended.map_err(End::from))
        }
        Run::Step => {
            let (calls, ended) = streams::step_between(alloc, source, sink, out);
            (calls, ended.map_err(End::from))
        }
        Run::Shards(shards) => {
            let (calls, ended) = streams::shards_between(threads, alloc, shards, source, sink, out);
            (calls, ended.map_err(End::from))
        }
        Run::Live => {
            let (calls, ended) = streams::live_between(threads, alloc, source, sink, out);
            (calls, ended.map_err(End::from))
        }
        Run::Order(name, volume, file) => {
            let (calls, ended) = streams::order_between(
                alloc, source, sink, name, volume, file, out,
            );
            (calls, ended.map_err(End::from))
        }
    }
}

// Tells on standard error how often each was called, and how often it failed.
fn tell_calls(rt: &HostRuntime, calls: Streams) {
    let Streams { reader, writer } = calls;
    let _ = eprintln!(rt;
        "reader {} {} writer {} {}",
        reader.made, reader.failed, writer.made, writer.failed
    );
}

// The same with the reader and the writer that the words name; the reader gives standard input.
fn stream<R: Threads + Wait + Sync>(
    rt: &HostRuntime,
    threads: &R,
    words: &[String],
    out: &mut Vec<u8>,
) -> Result<(), End> {
    let [
        read_each,
        read_all,
        write_each,
        write_all,
        end,
        request @ ..,
    ] = words
    else {
        return Err(End::Call(Fault::Usage));
    };
    let asked = run_of(request)?;
    let (read_each, read_all) = (number(read_each)?, number(read_all)?);
    let (write_each, write_all) = (number(write_each)?, number(write_all)?);
    let fails = end.as_str() == "fails";
    let script = input(rt)?;
    let source = Source::new(script.as_slice(), read_each, read_all);
    let sink = Sink::new(rt.alloc(), write_each, write_all, fails);
    let (calls, ended) = between(threads, rt.alloc(), source, sink, asked, out);
    tell_calls(rt, calls);
    ended
}

// Runs a script on the standard streams.
fn run_script(rt: &HostRuntime) -> Result<(), End> {
    let mut reader = Watched::new(rt.reader());
    let mut writer = Watched::new(io::writer(rt));
    Ok(run(rt.alloc(), &mut reader, &mut writer)?)
}

// Runs a script in so many shards on the standard streams.
fn shards<R: Threads + Sync>(rt: &HostRuntime, threads: &R, count: usize) -> Result<(), End> {
    let mut reader = Watched::new(rt.reader());
    let mut writer = Watched::new(io::writer(rt));
    Ok(run_in_shards(threads, rt.alloc(), count, 0, &mut reader, &mut writer)?)
}

fn play_input(rt: &HostRuntime, out: &mut Vec<u8>) -> Result<(), End> {
    *out = play::play(rt.alloc(), input(rt)?.as_slice())?;
    Ok(())
}

fn live_run<R: Threads + Wait + Sync>(
    rt: &HostRuntime,
    threads: &R,
    out: &mut Vec<u8>,
) -> Result<(), End> {
    *out = live::run(threads, rt.alloc(), input(rt)?.as_slice())?;
    Ok(())
}

fn live_run_shut<R: Threads + Wait + Sync>(rt: &HostRuntime, threads: &R) -> Result<(), End> {
    live::run_shut(threads, rt.alloc(), input(rt)?.as_slice())
}

fn use_shelf(rt: &HostRuntime, folder: &str, is_new: bool) -> Result<(), End> {
    Ok(shelf::make(rt, folder, is_new, input(rt)?.as_slice())?)
}

fn make_calls(rt: &HostRuntime, part: &str, out: &mut Vec<u8>) -> Result<(), End> {
    Ok(calls::make(rt.alloc(), part, input(rt)?.as_slice(), out)?)
}

// Goes the way that the words name, and gives what is printed.
fn go<R: Threads + Wait + Sync>(
    rt: &HostRuntime,
    threads: &R,
    words: &[String],
    out: &mut Vec<u8>,
) -> Result<(), End> {
    let [_, way, rest @ ..] = words else {
        return Err(End::Call(Fault::Usage));
    };
    match (way.as_str(), rest) {
        ("run", []) => run_script(rt),
        ("play", []) => play_input(rt, out),
        ("live", []) => live_run(rt, threads, out),
        ("live", [gate]) if gate.as_str() == "shut" => live_run_shut(rt, threads),
        ("calls", [part]) => make_calls(rt, part.as_str(), out),
        ("shelf", [folder]) => use_shelf(rt, folder.as_str(), false),
        ("shelf", [folder, new]) if new.as_str() == "new" => use_shelf(rt, folder.as_str(), true),
        ("stream", words) => stream(rt, threads, words, out),
        ("shards", [count]) => shards(rt, threads, number(count)?),
        (way, [most]) => Ok(store::make(rt.alloc(), way, number(most)?, out)?),
        _ => Err(End::Call(Fault::Usage)),
    }
}

// The status that tells it.
fn status(end: &End) -> ExitCode {
    match end {
        End::Call(Fault::Usage) => ExitCode::from(USAGE),
        End::Call(Fault::Memory) => ExitCode::from(MEMORY),
        _ => ExitCode::from(FAULT),
    }
}

// The words of the command line.
fn words_given(rt: &HostRuntime) -> Result<Vec<String>, Fault> {
    match env::args(rt)?.collect::<Vec<String>>(rt.alloc()) {
        Ok(words) => Ok(words),
        Err(_) => Err(Fault::Memory),
    }
}

// Writes it to standard output.
fn write_all(rt: &HostRuntime, text: &[u8]) -> Result<(), Fault> {
    Ok(io::writer(rt).write_all(text)?)
}

// Goes the way that the words name, and prints what comes of it, also before a fault.
fn print<R: Threads + Wait + Sync>(rt: &HostRuntime, threads: &R) -> Result<(), End> {
    let words = words_given(rt)?;
    let mut out = Vec::new(rt.alloc());
    let outcome = go(rt, threads, words.as_slice(), &mut out);
    write_all(rt, out.as_slice())?;
    outcome
}

fn main(rt: HostRuntime) -> ExitCode {
    match print(&rt, &rt) {
        Ok(()) => ExitCode::SUCCESS,
        Err(end) => {
            let _ = eprintln!(rt; "try_calls: {end}");
            status(&end)
        }
    }
}
