//! A reader or a writer that remembers its failure.

ghost use Rattle.std.specs.Prelude.{◌≡◌, ◌<◌, true, false, length, IfOk, OnErr, OnOk};
ghost use Rattle.std.specs.Io.{ReadsAtMost, WritesAtMost};
ghost use Rattle.std.specs.Io.KnownBytes.{ReadConsumes, WriteAppends};

use std::io;
use std::io::{Read, Write};

/// A reader or a writer that remembers whether a read or a write failed, or a write of some bytes took none.
#[derive(Drop)]
pub struct Watched<R> {
    inner: R,
    failed: bool,
}

ghost use Rattle.gq_streams.specs.Watched.{inner_of, has_failed};

impl<R> Watched<R> {
    /// Watches a reader or a writer of which nothing has failed yet.
    pub fn new(inner: R) -> Watched<R>
        ensures inner { inner_of result ≡ inner }
        ensures fresh { has_failed result ≡ false }
    {
        Watched {
            inner,
            failed: false,
        }
    }

    /// Whether a read or a write failed, or a write of some bytes took none.
    pub fn failed(&self) -> bool
        ensures { result ≡ has_failed self.now }
    {
        self.failed
    }

    /// The reader or writer inside.
    pub fn into_inner(self) -> R
        ensures { result ≡ inner_of self }
    {
        let Watched { inner, failed: _ } = self;
        inner
    }
}

impl<R: Read> Watched<R> {
    /// Reads once, as the reader inside does, and remembers a failure.
    pub fn read(&mut self, buf: &mut [u8]) -> io::Result<usize>
        ensures bound { ReadsAtMost result buf.new }
        ensures bytes { ReadConsumes (R.remaining (inner_of self.old))
            (R.remaining (inner_of self.new)) result buf.new }
        ensures ok { OnOk result (has_failed self.new ≡ has_failed self.old) }
        ensures err { OnErr result (has_failed self.new ≡ true) }
    {
        let result = self.inner.read(buf);
        if result.is_err() {
            self.failed = true;
        }
        result
    }
}

impl<W: Write> Watched<W> {
    /// Writes once, as the writer inside does, and remembers a failure, or that some bytes were given and none taken.
    pub fn write(&mut self, buf: &[u8]) -> io::Result<usize>
        ensures bound { WritesAtMost result buf.now }
        ensures bytes { WriteAppends (W.contents (inner_of self.old))
            (W.contents (inner_of self.new)) result buf.now }
        ensures some { IfOk result (λ n. 0 < n → has_failed self.new ≡ has_failed self.old) }
        ensures none { IfOk result (λ n. n ≡ 0 → 0 < length buf.now → has_failed self.new ≡ true) }
        ensures empty { IfOk result (λ n. length buf.now ≡ 0 → has_failed self.new ≡ has_failed self.old) }
        ensures err { OnErr result (has_failed self.new ≡ true) }
    {
        let result = self.inner.write(buf);
        match &result {
            Ok(n) => {
                if *n == 0 && !buf.is_empty() {
                    self.failed = true;
                }
            }
            Err(_) => self.failed = true,
        }
        result
    }
}
