//! The reference: the words, the standard streams and the runtime go down, and a status comes back.
#![tactic(auto)]

mod built;

use built::BUILD_NOTE;
use gq_cli::carry_out;
use gq_script::Notice;
use gq_script_words::{Request, read_words};
use gq_streams::Watched;
use gq_words::{MEMORY, NO_MEMORY, USAGE, shown, told, words_of};
use std::alloc::Global;
use std::io::IsTerminal;
use std::process::ExitCode;
use std::sync::Wait;
use std::thread::Threads;
use std::{env, io};

// Whoever types the lines of a script: told on standard error that they are awaited, where standard input is a terminal.
#[derive(Drop)]
struct Typist<'a, R> {
    rt: &'a R,
    is_there: bool,
}

impl<R: Eprint> Notice for Typist<'_, R> {
    fn lines_awaited(&self) {
        if self.is_there {
            let _ = eprintln!(self.rt;
                "gridfs: the plan is accepted; each line is answered (their forms: gridfs --help)"
            );
        }
    }
}

// Does what was asked for, on the standard streams.
fn answered<R: Input + Print + Eprint + Threads + Wait + Sync>(
    rt: &R,
    alloc: Global,
    is_terminal: bool,
    request: Request,
) -> ExitCode {
    let typist = Typist {
        rt,
        is_there: is_terminal,
    };
    let mut reader = Watched::new(rt.reader());
    let mut writer = Watched::new(io::writer(rt));
    match carry_out(rt, alloc, &typist, &mut reader, &mut writer, request) {
        Ok(()) => ExitCode::SUCCESS,
        Err(fault) => told(rt, &fault, fault.status()),
    }
}

fn main(rt: HostRuntime) -> ExitCode {
    let alloc = rt.alloc();
    let given = match env::args(&rt) {
        Ok(words) => words.collect(alloc).ok(),
        Err(error) if error.kind() == io::ErrorKind::OutOfMemory => None,
        Err(_) => return told(&rt, &"the words are no text in UTF-8", USAGE),
    };
    let Some(given) = given else {
        return told(&rt, &NO_MEMORY, MEMORY);
    };
    let Some(words) = words_of(alloc, &given) else {
        return told(&rt, &NO_MEMORY, MEMORY);
    };
    match read_words(alloc, words.as_slice()) {
        Ok(request) => answered(&rt, alloc, rt.stdin().is_terminal(), request),
        Err(usage) => shown(&rt, usage, BUILD_NOTE),
    }
}
