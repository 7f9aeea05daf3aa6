//! A run between a reader and a writer that give and take little at a time, and fail.

use gq_files::{OrderFault, order_run};
use gq_live::OpenGate;
use gq_runs::{LiveRunFault, live_run};
use gq_script::{NoNotice, RunFault, run, step};
use gq_shards::run_in_shards;
use gq_streams::Watched;
use std::alloc::Global;
use std::io;
use std::io::{Read, Write};
use std::sync::Wait;
use std::thread::Threads;

/// How often a reader or a writer was called, and how often it failed, or took none of some bytes.
#[derive(Clone, Copy)]
pub struct Calls {
    pub made: usize,
    pub failed: usize,
}

impl Calls {
    fn none() -> Calls {
        Calls { made: 0, failed: 0 }
    }

    fn count(&mut self, fails: bool) {
        self.made = self.made.saturating_add(1);
        if fails {
            self.failed = self.failed.saturating_add(1);
        }
    }
}

/// The calls of the reader and the writer of a run.
#[derive(Clone, Copy)]
pub struct Streams {
    pub reader: Calls,
    pub writer: Calls,
}

/// Gives at most so many bytes a call, and fails after so many in all.
#[derive(Drop)]
pub struct Source<'a> {
    text: &'a [u8],
    each: usize,
    left: usize,
    calls: Calls,
}

impl<'a> Source<'a> {
    /// A reader of the text.
    pub fn new(text: &'a [u8], each: usize, left: usize) -> Source<'a> {
        Source {
            text,
            each,
            left,
            calls: Calls::none(),
        }
    }
}

impl<'a> Read for Source<'a> {
    fn read(&mut self, buf: &mut [u8]) -> io::Result<usize> {
        self.calls.count(self.left == 0);
        if self.left == 0 {
            return Err(io::Error::from(io::ErrorKind::Other));
        }
        let n = buf.len().min(self.each).min(self.left).min(self.text.len());
        let (given, rest) = self.text.split_at(n);
        buf[..n].copy_from_slice(given);
        self.text = rest;
        self.left -= n;
        Ok(n)
    }
}

/// Takes at most so many bytes a call, and after so many in all fails, or takes none.
#[derive(Drop)]
pub struct Sink {
    held: Vec<u8>,
    each: usize,
    left: usize,
    fails: bool,
    calls: Calls,
}

impl Sink {
    /// A writer that has taken nothing yet.
    pub fn new(alloc: Global, each: usize, left: usize, fails: bool) -> Sink {
        Sink {
            held: Vec::new(alloc),
            each,
            left,
            fails,
            calls: Calls::none(),
        }
    }
}

impl Write for Sink {
    fn write(&mut self, buf: &[u8]) -> io::Result<usize> {
        let n = buf.len().min(self.each).min(self.left);
        self.calls.count(n == 0 && !buf.is_empty());
        if self.left == 0 && self.fails {
            return Err(io::Error::from(io::ErrorKind::Other));
        }
        self.held.extend_from_slice(&buf[..n])?;
        self.left -= n;
        Ok(n)
    }

    fn flush(&mut self) -> io::Result<()> {
        Ok(())
    }
}

// The calls of both, and what the writer took, which comes into `out`.
fn taken(reader: Watched<Source>, writer: Watched<Sink>, out: &mut Vec<u8>) -> Streams {
    let source = reader.into_inner();
    let sink = writer.into_inner();
    *out = sink.held;
    Streams {
        reader: source.calls,
        writer: sink.calls,
    }
}

/// Runs the script that the reader gives. What the writer took comes into `out`, however the run ended.
pub fn run_between(
    alloc: Global,
    source: Source,
    sink: Sink,
    out: &mut Vec<u8>,
) -> (Streams, Result<(), RunFault>) {
    let mut reader = Watched::new(source);
    let mut writer = Watched::new(sink);
    let ended = run(alloc, &mut reader, &mut writer);
    (taken(reader, writer, out), ended)
}

/// The same, each line answered as it comes.
pub fn step_between(
    alloc: Global,
    source: Source,
    sink: Sink,
    out: &mut Vec<u8>,
) -> (Streams, Result<(), RunFault>) {
    let mut reader = Watched::new(source);
    let mut writer = Watched::new(sink);
    let ended = step(alloc, &NoNotice, &mut reader, &mut writer);
    (taken(reader, writer, out), ended)
}

/// The same in so many shards, also of a short input.
pub fn shards_between<T: Threads + Sync>(
    rt: &T,
    alloc: Global,
    shards: usize,
    source: Source,
    sink: Sink,
    out: &mut Vec<u8>,
) -> (Streams, Result<(), RunFault>) {
    let mut reader = Watched::new(source);
    let mut writer = Watched::new(sink);
    let ended = run_in_shards(rt, alloc, shards, 0, &mut reader, &mut writer);
    (taken(reader, writer, out), ended)
}

/// Runs the script with the order of the operations on the file of the tenant of this name behind it.
pub fn order_between(
    alloc: Global,
    source: Source,
    sink: Sink,
    name: &str,
    volume: u32,
    file: u32,
    out: &mut Vec<u8>,
) -> (Streams, Result<(), OrderFault>) {
    let mut reader = Watched::new(source);
    let mut writer = Watched::new(sink);
    let ended = order_run(alloc, &mut reader, &mut writer, name, volume, file);
    (taken(reader, writer, out), ended)
}

/// Runs the programs in threads, and writes the script of that run.
pub fn live_between<T: Threads + Wait + Sync>(
    threads: &T,
    alloc: Global,
    source: Source,
    sink: Sink,
    out: &mut Vec<u8>,
) -> (Streams, Result<(), LiveRunFault>) {
    let mut reader = Watched::new(source);
    let mut writer = Watched::new(sink);
    let ended = live_run(threads, alloc, &mut reader, &mut writer, &OpenGate);
    (taken(reader, writer, out), ended)
}
