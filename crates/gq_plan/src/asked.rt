//! What is asked of the files of plans, answered.

ghost use Rattle.std.specs.Prelude.{◌≡◌, ◌≢◌, false, IfErr, OnOk};
ghost use Rattle.std.specs.Io.KnownBytes.{Appends};
ghost use Rattle.gq_streams.specs.Watched.{inner_of, has_failed};
ghost use Rattle.gq_plan.specs.Answers.{Answers, TellsFollows, TellsPlan, status_of};

use crate::told::{FollowFault, told_next, told_plan};
use gq_node_words::PlanRequest;
use gq_setup::SetupFault;
use gq_streams::{Watched, write_whole};
use std::alloc::Global;
use std::fmt::{self, Display, Formatter};
use std::io::Write;
use std::rt::Files;
use std::{fs, io};

// A fault of a plan, of a file or of the output.
const FAULT: u8 = 1;
// Memory is wanting.
const MEMORY: u8 = 3;

/// Why nothing is told, or not all of it.
#[derive(Drop)]
pub enum PlanAskedFault {
    /// Memory is wanting for a file.
    Memory,
    /// The plan's file could not be read.
    Read,
    /// The older plan's file could not be read.
    ReadOld,
    /// The file is no plan, or memory is wanting.
    Plan(SetupFault),
    /// The plan may not follow the older one, one of the two is none, or memory is wanting.
    Next(FollowFault),
    /// The output failed. A beginning of what is told may have been written.
    Write,
}

impl PlanAskedFault {
    /// The status that the program ends with: 3 where memory is wanting, else 1.
    pub fn status(&self) -> u8
        ensures { result ≡ status_of self.now }
    {
        match self {
            PlanAskedFault::Memory
            | PlanAskedFault::Plan(SetupFault::Memory(_))
            | PlanAskedFault::Next(
                FollowFault::Old(SetupFault::Memory(_)) | FollowFault::New(SetupFault::Memory(_)),
            ) => MEMORY,
            _ => FAULT,
        }
    }
}

/// A fault as it is told to whoever asked: with the file that it is of.
#[derive(Drop)]
pub struct ToldFault<'x, 'r> {
    pub fault: &'x PlanAskedFault,
    pub asked: &'x PlanRequest<'r>,
}

impl Display for ToldFault<'_, '_> {
    fn fmt<W: fmt::Write>(&self, f: &mut Formatter<W>) -> fmt::Result {
        let (plan, old) = (self.asked.plan, self.asked.old.unwrap_or(""));
        match self.fault {
            PlanAskedFault::Memory
            | PlanAskedFault::Plan(SetupFault::Memory(_))
            | PlanAskedFault::Next(
                FollowFault::Old(SetupFault::Memory(_)) | FollowFault::New(SetupFault::Memory(_)),
            ) => write!(f, "out of memory"),
            PlanAskedFault::Read => write!(f, "{plan}: read fault"),
            PlanAskedFault::ReadOld => write!(f, "{old}: read fault"),
            PlanAskedFault::Plan(fault) => write!(f, "{plan}: {fault}"),
            PlanAskedFault::Next(FollowFault::Old(fault)) => write!(f, "{old}: {fault}"),
            PlanAskedFault::Next(FollowFault::New(fault)) => write!(f, "{plan}: {fault}"),
            PlanAskedFault::Next(FollowFault::NotKept(what)) => {
                write!(f, "{plan}: does not go on from {old}: {what}")
            }
            PlanAskedFault::Write => write!(f, "write fault"),
        }
    }
}

// The bytes of the plan's file.
fn read_plan<R: Files + Alloc<A = Global>>(rt: &R, path: &str) -> Result<Vec<u8>, PlanAskedFault> {
    match fs::read(rt, path) {
        Ok(text) => Ok(text),
        Err(error) if error.kind() == io::ErrorKind::OutOfMemory => Err(PlanAskedFault::Memory),
        Err(_) => Err(PlanAskedFault::Read),
    }
}

// Those of the older plan's.
fn read_old<R: Files + Alloc<A = Global>>(rt: &R, path: &str) -> Result<Vec<u8>, PlanAskedFault> {
    match read_plan(rt, path) {
        Ok(text) => Ok(text),
        Err(PlanAskedFault::Memory) => Err(PlanAskedFault::Memory),
        Err(_) => Err(PlanAskedFault::ReadOld),
    }
}

// Writes the whole text.
fn write_text<W: Write>(writer: &mut Watched<W>, text: &[u8]) -> Result<(), PlanAskedFault>
    requires { has_failed writer.old ≡ false }
    ensures ok { OnOk result (Appends (W.contents (inner_of writer.old)) (W.contents (inner_of writer.new)) text.now) }
    ensures fault { IfErr result (λ fault. fault ≡ PlanAskedFault.Write) }
{
    match write_whole(writer, text) {
        Ok(()) => Ok(()),
        Err(_) => Err(PlanAskedFault::Write),
    }
}

// Writes what the plan says.
fn tell_plan<R: Files + Alloc<A = Global>, W: Write>(
    rt: &R,
    alloc: Global,
    plan: &str,
    writer: &mut Watched<W>,
) -> Result<(), PlanAskedFault>
    requires { has_failed writer.old ≡ false }
    ensures told { OnOk result (TellsPlan (W.contents (inner_of writer.old)) (W.contents (inner_of writer.new))) }
    ensures nothing { IfErr result (λ fault. fault ≢ PlanAskedFault.Write → writer.new ≡ writer.old) }
{
    let text = read_plan(rt, plan)?;
    match told_plan(alloc, text.as_slice()) {
        Ok(told) => write_text(writer, told.as_slice()),
        Err(fault) => Err(PlanAskedFault::Plan(fault)),
    }
}

// Writes that the plan may follow the older one, and who leaves by it.
fn tell_next<R: Files + Alloc<A = Global>, W: Write>(
    rt: &R,
    alloc: Global,
    old: &str,
    plan: &str,
    writer: &mut Watched<W>,
) -> Result<(), PlanAskedFault>
    requires { has_failed writer.old ≡ false }
    ensures told { OnOk result (TellsFollows (W.contents (inner_of writer.old)) (W.contents (inner_of writer.new))) }
    ensures nothing { IfErr result (λ fault. fault ≢ PlanAskedFault.Write → writer.new ≡ writer.old) }
{
    let before = read_old(rt, old)?;
    let text = read_plan(rt, plan)?;
    match told_next(alloc, before.as_slice(), text.as_slice()) {
        Ok(told) => write_text(writer, told.as_slice()),
        Err(fault) => Err(PlanAskedFault::Next(fault)),
    }
}

/// Tells what the plan says that is asked for (see [`crate::told_plan`]); or where an older one is named, that the plan may follow it, and who
/// leaves by it (see [`crate::told_next`]). The older plan's file is read first. After each fault but `Write` nothing was written.
pub fn answer_plan<R: Files + Alloc<A = Global>, W: Write>(
    rt: &R,
    alloc: Global,
    asked: &PlanRequest<'_>,
    writer: &mut Watched<W>,
) -> Result<(), PlanAskedFault>
    requires { has_failed writer.old ≡ false }
    ensures told { OnOk result (Answers asked.now (W.contents (inner_of writer.old)) (W.contents (inner_of writer.new))) }
    ensures nothing { IfErr result (λ fault. fault ≢ PlanAskedFault.Write → writer.new ≡ writer.old) }
{
    let Some(old) = asked.old else {
        return tell_plan(rt, alloc, asked.plan, writer);
    };
    tell_next(rt, alloc, old, asked.plan, writer)
}
