//! Readers and writers of std, and calls that fail.

use fs_io::{MemSink, MemSource, ReadAllError, StdSink, StdSource, read_all, write_all};
use std::test::Fail;

#[test]
fn copies_through_std(rt: HostRuntime) -> Result<(), Fail> {
    let mut source = StdSource::new(b"one two three".as_slice());
    let bytes = read_all(rt.alloc(), &mut source, 13)?;
    let mut out = Vec::new(rt.alloc());
    {
        let mut sink = StdSink::new(&mut out);
        assert!(rt; write_all(&mut sink, bytes.as_slice()).is_ok());
    }
    assert_eq!(rt; out.as_slice(), b"one two three".as_slice());
    Ok(())
}

#[test]
fn fails_at_the_listed_calls(rt: HostRuntime) -> Result<(), Fail> {
    let input = b"abcdef".as_slice().to_vec(rt.alloc())?;
    let mut source = MemSource::new(input, 2, [2].to_vec(rt.alloc())?);
    assert_eq!(rt;
        read_all(rt.alloc(), &mut source, 9).err(),
        Some(ReadAllError::ReadFault)
    );
    let rest = read_all(rt.alloc(), &mut source, 9)?;
    assert_eq!(rt; rest.as_slice(), b"cdef".as_slice());
    let mut sink = MemSink::new(rt.alloc(), 3, Vec::new(rt.alloc()))?;
    assert_eq!(rt; write_all(&mut sink, rest.as_slice()), Err(3));
    assert_eq!(rt; sink.bytes(), b"cde".as_slice());
    Ok(())
}
