ghost use Rattle.std.specs.Prelude.{◌≡◌, ◌<◌, IfOk, OnOk, length};
ghost use Rattle.std.specs.Io.{ReadsAtMost, WritesAtMost};
ghost use Rattle.std.specs.Io.KnownBytes.{ReadConsumes, WriteAppends};
ghost use Rattle.fs_io.specs.Answers.{read_answer, write_answer};
ghost use Rattle.fs_io.specs.Causes.{HasIoCause, count_after};

use crate::traits::{Sink, SinkFailed, Source, SourceFailed};
use std::io::{self, Read, Write};

/// A reader of std as a source. Each `Err` of the reader is a fault.
#[derive(Drop)]
pub struct StdSource<R> {
    inner: R,
    faults: u64,
}

impl<R> StdSource<R> {
    ghost use Rattle.fs_io.specs.Standard.{reader_of, read_faults};

    /// A source of what the reader still gives, with no faults so far.
    pub fn new(inner: R) -> StdSource<R>
        ensures reader { reader_of result ≡ inner }
        ensures faults { read_faults result ≡ 0 }
    {
        StdSource { inner, faults: 0 }
    }
}

impl<R: Read> Source for StdSource<R> {
    ghost use Rattle.fs_io.specs.Standard.{reader_of, read_faults};

    ghost left = { λ s. R.remaining (reader_of s) };

    ghost faults = { λ s. read_faults s };

    fn take(&mut self, into: &mut [u8]) -> Result<usize, SourceFailed>
        ensures bound { ReadsAtMost result into.new }
        ensures bytes { ReadConsumes
            (R.remaining (reader_of self.old)) (R.remaining (reader_of self.new)) result into.new }
        ensures cause { HasIoCause (read_faults self.old) (read_faults self.new) result }
        ensures quiet { OnOk result (read_faults self.new ≡ read_faults self.old) }

        // Each error raises the count by one, and nothing else does.
        ensures count { read_faults self.new ≡ count_after (read_faults self.old) result }
    {
        let answer = read_answer(self.inner.read(into));
        if answer.is_err() {
            self.faults = self.faults.saturating_add(1);
        }
        answer
    }
}

/// A source's answer, where its reader gave this one.
fn read_answer(answer: io::Result<usize>) -> Result<usize, SourceFailed>
    ensures { result ≡ read_answer answer }
{
    match answer {
        Ok(count) => Ok(count),
        Err(_) => Err(SourceFailed),
    }
}

/// A writer of std as a sink. Each `Err` of the writer is a fault, and so is a write that takes none of the
/// bytes that it is given: else writing all of them might never end.
#[derive(Drop)]
pub struct StdSink<W> {
    inner: W,
    faults: u64,
}

impl<W> StdSink<W> {
    ghost use Rattle.fs_io.specs.Standard.{writer_of, write_faults};

    /// A sink to the writer, with no faults so far. Nothing is flushed: a writer that keeps bytes
    /// back is flushed by its owner.
    pub fn new(inner: W) -> StdSink<W>
        ensures writer { writer_of result ≡ inner }
        ensures faults { write_faults result ≡ 0 }
    {
        StdSink { inner, faults: 0 }
    }
}

impl<W: Write> Sink for StdSink<W> {
    ghost use Rattle.fs_io.specs.Standard.{writer_of, write_faults};

    ghost written = { λ s. W.contents (writer_of s) };

    ghost faults = { λ s. write_faults s };

    fn put(&mut self, bytes: &[u8]) -> Result<usize, SinkFailed>
        ensures bound { WritesAtMost result bytes.now }
        ensures some { IfOk result (λ n. 0 < length bytes.now → 0 < n) }
        ensures bytes { WriteAppends
            (W.contents (writer_of self.old)) (W.contents (writer_of self.new)) result bytes.now }
        ensures cause { HasIoCause (write_faults self.old) (write_faults self.new) result }
        ensures quiet { OnOk result (write_faults self.new ≡ write_faults self.old) }

        // Each error raises the count by one, and nothing else does.
        ensures count { write_faults self.new ≡ count_after (write_faults self.old) result }
    {
        let answer = write_answer(self.inner.write(bytes), bytes.len());
        if answer.is_err() {
            self.faults = self.faults.saturating_add(1);
        }
        answer
    }
}

/// A sink's answer, where its writer gave this one to a piece of so many bytes.
fn write_answer(answer: io::Result<usize>, given: usize) -> Result<usize, SinkFailed>
    ensures { result ≡ write_answer given answer }
{
    match answer {
        Ok(count) if count > 0 || given == 0 => Ok(count),
        _ => Err(SinkFailed),
    }
}
