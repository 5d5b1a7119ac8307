//! Fakes that fail in mid-stream, and the adapters over what `std` has in memory.

use crate::{IoError, MemSink, MemSource, Sink, Source, StdSink, StdSource};
use std::test::Fail;

/// What one read of at most four bytes gave.
fn read_four<S: Source>(source: &mut S, buffer: &mut [u8; 4]) -> Result<usize, IoError> {
    source.read(buffer)
}

fn write_to<K: Sink>(sink: &mut K, bytes: &[u8]) -> Result<usize, IoError> {
    sink.write(bytes)
}

#[test]
fn a_source_in_memory_gives_steps_and_fails_where_it_is_told(rt: HostRuntime) -> Result<(), Fail> {
    let bytes = Vec::from_slice(rt.alloc(), b"abcde")?;
    let mut source = MemSource::new(bytes, 3, vec![in rt.alloc(); 2u64]?);
    let mut buffer = [0; 4];
    assert_eq!(rt; read_four(&mut source, &mut buffer), Ok(3));
    assert_eq!(rt; buffer, [b'a', b'b', b'c', 0]);
    assert_eq!(rt; read_four(&mut source, &mut buffer), Err(IoError::Failed));
    assert_eq!(rt; read_four(&mut source, &mut buffer), Ok(2));
    assert_eq!(rt; buffer, [b'd', b'e', b'c', 0]);
    assert_eq!(rt; read_four(&mut source, &mut buffer), Ok(0));
    Ok(())
}

#[test]
fn a_sink_in_memory_keeps_pieces_and_fails_where_it_is_told(rt: HostRuntime) -> Result<(), Fail> {
    let mut sink = MemSink::new(rt.alloc(), vec![in rt.alloc(); 2u64]?);
    assert_eq!(rt; write_to(&mut sink, b"ab"), Ok(2));
    assert_eq!(rt; write_to(&mut sink, b"cd"), Err(IoError::Failed));
    assert_eq!(rt; write_to(&mut sink, b"ef"), Ok(2));
    assert_eq!(rt; sink.bytes(), b"abef".as_slice());
    Ok(())
}

#[test]
fn readers_and_writers_of_std_are_adapted(rt: HostRuntime) -> Result<(), Fail> {
    let mut source = StdSource::new(b"xyz".as_slice());
    let mut buffer = [0; 4];
    assert_eq!(rt; read_four(&mut source, &mut buffer), Ok(3));
    assert_eq!(rt; buffer, [b'x', b'y', b'z', 0]);
    assert_eq!(rt; read_four(&mut source, &mut buffer), Ok(0));
    let mut sink = StdSink::new(Vec::new(rt.alloc()));
    assert_eq!(rt; write_to(&mut sink, b"xyz"), Ok(3));
    Ok(())
}
