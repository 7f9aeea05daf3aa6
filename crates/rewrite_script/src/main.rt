//! Writes a script in its canonical form: reads a script from standard input, and writes the canonical script of its plan
//! and its lines to standard output, for the comparison of the answers to both.
//!
//! The status is 0, 1 where the plan is at fault (and nothing is written) or a stream fails, and 3 where memory was wanting.
#![tactic(auto)]

ghost use Rattle.std.specs.Prelude.{◌≡◌, map, IfOk};
ghost use Rattle.std.specs.List.{All};
ghost use Rattle.gq_model.specs.Events.{IsIn};
ghost use Rattle.gq_lines.specs.Lines.{lines_of};
ghost use Rattle.gq_text.specs.Input.{event_of};
ghost use Rattle.rewrite_script.specs.Rewriting.{IsRewriting};

use gq_desk::Plan;
use gq_lines::first_line;
use gq_memory::{GrowVec, OutOfMemory};
use gq_model::Event;
use gq_text::{PlanText, read_line, read_plan, write_script};
use std::alloc::Global;
use std::fmt::{Display, Error as FormatError, Formatter, Write as FormatWrite};
use std::io;
use std::io::{Read, Write};
use std::process::ExitCode;

// A fault of the plan, of reading or of writing.
const FAULT: u8 = 1;
// Memory is wanting.
const MEMORY: u8 = 3;

// Why no script was written.
#[derive(Drop)]
enum Fault {
    // The plan is at fault. It is not `Memory`.
    Plan(PlanText),
    // A stream failed.
    Stream,
    // A growth was refused.
    Memory(OutOfMemory),
    // A stream tells that memory is wanting.
    StreamMemory,
}

impl Display for Fault {
    fn fmt<W: FormatWrite>(&self, f: &mut Formatter<W>) -> Result<(), FormatError> {
        match self {
            Fault::Plan(fault) => fault.fmt(f),
            Fault::Stream => f.write_str("a stream failed"),
            Fault::Memory(_) | Fault::StreamMemory => f.write_str("out of memory"),
        }
    }
}

impl From<PlanText> for Fault {
    fn from(fault: PlanText) -> Fault {
        match fault {
            PlanText::Memory(refused) => Fault::Memory(refused),
            fault => Fault::Plan(fault),
        }
    }
}

impl From<OutOfMemory> for Fault {
    fn from(refused: OutOfMemory) -> Fault {
        Fault::Memory(refused)
    }
}

impl From<io::Error> for Fault {
    fn from(error: io::Error) -> Fault {
        match error.kind() {
            io::ErrorKind::OutOfMemory => Fault::StreamMemory,
            _ => Fault::Stream,
        }
    }
}

// The events of the lines after a plan.
fn read_lines(alloc: Global, lines: &[u8], plan: &Plan) -> Result<Vec<Event>, OutOfMemory>
    ensures events { IfOk result (λ events. events.items ≡ map (event_of plan.now) (lines_of lines.now)) }
    ensures within { IfOk result (λ events. All (IsIn plan.now) events.items) }
{
    let mut events = Vec::new(alloc);
    let mut rest = lines;
    while !rest.is_empty() {
        let (line, after) = first_line(rest);
        events.grow(read_line(alloc, line, plan)?)?;
        rest = after;
    }
    Ok(events)
}

// The canonical script of what a script tells.
fn rewritten(alloc: Global, script: &[u8]) -> Result<Vec<u8>, Fault>
    ensures { IfOk result (λ text. IsRewriting script.now text.items) }
{
    let (plan, place) = read_plan(alloc, script)?;
    let events = read_lines(alloc, &script[place..], &plan)?;
    let mut text = Vec::new(alloc);
    write_script(&plan, events.as_slice(), &mut text)?;
    Ok(text)
}

// Reads the whole of standard input, and writes its canonical script to standard output.
fn rewrite(rt: &HostRuntime) -> Result<(), Fault> {
    let alloc = rt.alloc();
    let mut script = Vec::new(alloc);
    rt.reader().read_to_end(&mut script)?;
    let text = rewritten(alloc, script.as_slice())?;
    io::writer(rt).write_all(text.as_slice())?;
    Ok(())
}

// The status of a fault.
fn status(fault: Fault) -> ExitCode {
    match fault {
        Fault::Memory(_) | Fault::StreamMemory => ExitCode::from(MEMORY),
        Fault::Plan(_) | Fault::Stream => ExitCode::from(FAULT),
    }
}

fn main(rt: HostRuntime) -> ExitCode {
    match rewrite(&rt) {
        Ok(()) => ExitCode::SUCCESS,
        Err(fault) => {
            let _ = eprintln!(rt; "rewrite_script: {fault}");
            status(fault)
        }
    }
}
