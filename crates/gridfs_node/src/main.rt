//! The program of a node: the words, the files, the standard streams and the runtime go down, and a status comes back.
#![tactic(auto)]

mod built;

use built::BUILD_NOTE;
use gq_keeper::Stream;
use gq_node_words::{NodeCommand, NodeRequest, PlanRequest, read_words};
use gq_plan::{ToldFault, answer_plan};
use gq_service::{Console, Durable, Standard, Told, WithChunks, run_node};
use gq_shelf::FileShelf;
use gq_streams::Watched;
use gq_words::{MEMORY, NO_MEMORY, USAGE, shown, told, words_of};
use std::alloc::Global;
use std::fs::File;
use std::io::Read;
use std::process::ExitCode;
use std::rt::Files;
use std::{env, io};

// Is the node that was asked for, on its files, to the end of the input. `files` are those in which its chunks are.
fn serves_on<
    S: Files<File = File> + Drop,
    R: Files<File = File> + Print + Eprint + Drop,
    C: Console,
    I: Read,
>(
    files: S,
    rt: &R,
    alloc: Global,
    asked: &NodeRequest<'_>,
    console: &C,
    input: &mut I,
) -> ExitCode {
    let chunks = WithChunks::new(files, asked.journal, asked.scrub);
    let mut out: Stream<_, Durable<FileShelf<S>>> = Stream::new(io::writer(rt));
    match run_node(rt, alloc, asked, console, chunks, input, &mut out) {
        Ok(()) => ExitCode::SUCCESS,
        Err(fault) => {
            let status = fault.status();
            told(
                rt,
                &Told {
                    fault: &fault,
                    asked,
                },
                status,
            )
        }
    }
}

// The same on the standard streams.
fn serves(rt: &HostRuntime, alloc: Global, asked: &NodeRequest<'_>) -> ExitCode {
    let console = Standard::new(rt.stdin(), rt.stdout(), rt.stderr(), asked.journal);
    let mut input = rt.stdin();
    serves_on(rt, rt, alloc, asked, &console, &mut input)
}

// Tells what the plan says that is asked for, or whether it may follow another.
fn tells(rt: &HostRuntime, alloc: Global, asked: &PlanRequest<'_>) -> ExitCode {
    let mut writer = Watched::new(io::writer(rt));
    match answer_plan(rt, alloc, asked, &mut writer) {
        Ok(()) => ExitCode::SUCCESS,
        Err(fault) => {
            let status = fault.status();
            told(
                rt,
                &ToldFault {
                    fault: &fault,
                    asked,
                },
                status,
            )
        }
    }
}

fn main(rt: HostRuntime) -> ExitCode {
    let alloc = rt.alloc();
    let given = match env::args(&rt) {
        Ok(words) => words.collect(alloc).ok(),
        Err(error) if error.kind() == io::ErrorKind::OutOfMemory => None,
        Err(_) => return told(&rt, &"the words are no text in UTF-8", USAGE),
    };
    let Some(given) = given else {
        return told(&rt, &NO_MEMORY, MEMORY);
    };
    let Some(words) = words_of(alloc, &given) else {
        return told(&rt, &NO_MEMORY, MEMORY);
    };
    match read_words(alloc, words.as_slice()) {
        Ok(NodeCommand::Node(asked)) => serves(&rt, alloc, &asked),
        Ok(NodeCommand::Plan(asked)) => tells(&rt, alloc, &asked),
        Err(usage) => shown(&rt, usage, BUILD_NOTE),
    }
}
