//! A reader and a writer of std that fail, and then go on: a source and a sink over them answer as they did, call by call.

use fs_io::{Sink, SinkFailed, Source, SourceFailed, StdSink, StdSource};
use std::io::{self, ErrorKind, Read, Write};
use std::process::Abort;
use std::test::Fail;

const KINDS: [ErrorKind; 4] = [
    ErrorKind::Interrupted,
    ErrorKind::WouldBlock,
    ErrorKind::UnexpectedEof,
    ErrorKind::OutOfMemory,
];

/// Its second call fails, and its fourth. The first and the third give a byte, and behind the fourth the input ends.
#[derive(Drop)]
struct FaultyReader {
    kind: ErrorKind,
    calls: u8,
}

impl Read for FaultyReader {
    fn read(&mut self, into: &mut [u8]) -> io::Result<usize> {
        self.calls = self.calls.saturating_add(1);
        match self.calls {
            2 | 4 => Err(io::Error::from(self.kind)),
            1 | 3 if !into.is_empty() => {
                into[0] = self.calls;
                Ok(1)
            }
            _ => Ok(0),
        }
    }
}

/// Its second call fails, its fourth takes nothing, and each other takes a byte.
#[derive(Drop)]
struct FaultyWriter {
    kind: ErrorKind,
    calls: u8,
}

impl Write for FaultyWriter {
    fn write(&mut self, bytes: &[u8]) -> io::Result<usize> {
        self.calls = self.calls.saturating_add(1);
        match self.calls {
            2 => Err(io::Error::from(self.kind)),
            4 => Ok(0),
            _ => Ok(bytes.len().min(1)),
        }
    }

    fn flush(&mut self) -> io::Result<()> {
        Ok(())
    }
}

fn reads_on(rt: &impl Abort, kind: ErrorKind) {
    let mut source = StdSource::new(FaultyReader { kind, calls: 0 });
    let mut piece = [0u8; 4];
    assert_eq!(rt; source.take(&mut piece), Ok(1));
    assert_eq!(rt; source.take(&mut piece), Err(SourceFailed));
    assert_eq!(rt; piece[0], 1);
    assert_eq!(rt; source.take(&mut piece), Ok(1));
    assert_eq!(rt; piece[0], 3);
    assert_eq!(rt; source.take(&mut piece), Err(SourceFailed));
    assert_eq!(rt; source.take(&mut piece), Ok(0));
    assert_eq!(rt; source.take(&mut piece), Ok(0));
}

fn writes_on(rt: &impl Abort, kind: ErrorKind) {
    let mut sink = StdSink::new(FaultyWriter { kind, calls: 0 });
    assert_eq!(rt; sink.put(b"abc"), Ok(1));
    assert_eq!(rt; sink.put(b"abc"), Err(SinkFailed));
    assert_eq!(rt; sink.put(b"abc"), Ok(1));
    assert_eq!(rt; sink.put(b"abc"), Err(SinkFailed));
    assert_eq!(rt; sink.put(b"abc"), Ok(1));
    assert_eq!(rt; sink.put(b""), Ok(0));
    assert_eq!(rt; sink.put(b"abc"), Ok(1));
}

#[test]
fn a_source_tells_each_error_and_reads_on(rt: HostRuntime) -> Result<(), Fail> {
    for kind in KINDS {
        reads_on(&rt, kind);
    }
    Ok(())
}

#[test]
fn a_sink_tells_each_error_and_writes_on(rt: HostRuntime) -> Result<(), Fail> {
    for kind in KINDS {
        writes_on(&rt, kind);
    }
    Ok(())
}
