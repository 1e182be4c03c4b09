//! Whole reads and writes, with each call failing in turn, and in pieces of one byte.
ghost use Rattle.std.specs.Prelude.{◌<◌};

use crate::{
    MemSink, MemSource, NumberList, ReadError, ReadSource, SureSink, SureSource, WriteError,
    WriteSink, read_all, write_all,
};
use bd_base::{Bytes, List};
use std::alloc::{AllocError, Global};
use std::io;
use std::io::{ErrorKind, Read, Write};
use std::process::Abort;
use std::test::Fail;

fn bytes(alloc: Global, items: &[u8]) -> Result<Bytes, AllocError> {
    Ok(List::from_vec(items.to_vec(alloc)?))
}

fn only(alloc: Global, number: u64) -> Result<NumberList, AllocError> {
    Ok(List::from_vec([number].to_vec(alloc)?))
}

/// Expects that three bytes are read in pieces of at most so many bytes.
fn is_read_in_pieces(rt: &(impl Abort + AllocGlobal), most: usize) -> Result<(), Fail>
    requires { 0 < most }
{
    let alloc = rt.alloc();
    let mut source = MemSource::new(bytes(alloc, b"abc")?, most, List::new(alloc));
    let read = read_all(alloc, &mut source, 3)?;
    assert_eq!(rt; read.as_slice(), b"abc".as_slice(), "in pieces of {most}");
    Ok(())
}

/// Expects that three bytes, a byte a call, are read up to the call that fails, and after it to their end.
fn is_read_but_for(rt: &(impl Abort + AllocGlobal), call: u64) -> Result<(), Fail> {
    let alloc = rt.alloc();
    let mut source = MemSource::new(bytes(alloc, b"abc")?, 1, only(alloc, call)?);
    let answer = read_all(alloc, &mut source, 3).err();
    assert_eq!(rt; answer, Some(ReadError::Fault), "at call {call}");
    let rest = read_all(alloc, &mut source, 3)?;
    assert_eq!(rt; rest.len() as u64, 3 - call.min(3), "after call {call}");
    Ok(())
}

#[test]
fn reads_to_the_end_unless_a_read_fails(rt: HostRuntime) -> Result<(), Fail> {
    for most in [1, 2, 3, 100] {
        is_read_in_pieces(&rt, most)?;
    }
    // Three reads of a byte, and one that meets the end.
    for call in 0..4 {
        is_read_but_for(&rt, call)?;
    }
    let alloc = rt.alloc();
    let mut source = MemSource::new(bytes(alloc, b"abc")?, 1, only(alloc, 4)?);
    assert_eq!(rt; read_all(alloc, &mut source, 3)?.len(), 3);
    Ok(())
}

#[test]
fn takes_one_byte_more_than_the_limit(rt: HostRuntime) -> Result<(), Fail> {
    let alloc = rt.alloc();
    for most in [1, 100] {
        let mut exact = SureSource::new(bytes(alloc, b"abcd")?, most);
        assert_eq!(rt;
            read_all(alloc, &mut exact, 4)?.as_slice(),
            b"abcd".as_slice()
        );
        let mut passed = SureSource::new(bytes(alloc, b"abcd")?, most);
        assert_eq!(rt;
            read_all(alloc, &mut passed, 2).err(),
            Some(ReadError::TooLong)
        );
        assert_eq!(rt;
            read_all(alloc, &mut passed, 2)?.as_slice(),
            b"d".as_slice()
        );
    }
    let mut empty = SureSource::new(List::new(alloc), 1);
    assert!(rt; read_all(alloc, &mut empty, 0)?.is_empty());
    Ok(())
}

#[test]
fn reads_more_than_one_buffer(rt: HostRuntime) -> Result<(), Fail> {
    let alloc = rt.alloc();
    let long = vec![in alloc; 7u8; 200_000]?;
    let mut source = SureSource::new(List::from_vec(long), usize::MAX);
    let read = read_all(alloc, &mut source, usize::MAX)?;
    assert_eq!(rt; read.len(), 200_000);
    assert!(rt; read.as_slice().iter().all(|byte| *byte == 7));
    Ok(())
}

/// Expects that three texts are written whole in pieces of at most so many bytes.
fn is_written_in_pieces(rt: &(impl Abort + AllocGlobal), most: usize) -> Result<(), Fail>
    requires { 0 < most }
{
    let mut sink = SureSink::new(rt.alloc(), most);
    for text in ["abc", "", "d"] {
        write_all(&mut sink, text.as_bytes())?;
    }
    assert_eq!(rt; sink.held(), b"abcd".as_slice(), "in pieces of {most}");
    Ok(())
}

/// Expects that three bytes, a byte a call, are written up to the call that fails.
fn is_written_up_to(rt: &(impl Abort + AllocGlobal), call: u64, held: &str) -> Result<(), Fail> {
    let mut sink = MemSink::new(rt.alloc(), 1, only(rt.alloc(), call)?);
    let answer = write_all(&mut sink, b"abc");
    assert_eq!(rt; answer, Err(WriteError::Fault), "at call {call}");
    assert_eq!(rt; sink.held(), held.as_bytes(), "at call {call}");
    Ok(())
}

#[test]
fn writes_all_unless_a_write_fails(rt: HostRuntime) -> Result<(), Fail> {
    for most in [1, 2, 3, 100] {
        is_written_in_pieces(&rt, most)?;
    }
    for (call, held) in [(0, ""), (1, "a"), (2, "ab")] {
        is_written_up_to(&rt, call, held)?;
    }
    let alloc = rt.alloc();
    let mut sink = MemSink::new(alloc, 1, only(alloc, 3)?);
    write_all(&mut sink, b"abc")?;
    assert_eq!(rt; sink.held(), b"abc".as_slice());
    Ok(())
}

// A reader of the bytes 1, 2 and 3, of which the second read fails.
#[derive(Drop)]
struct Flaky {
    next: u8,
    failed: bool,
}

impl Read for Flaky {
    fn read(&mut self, buf: &mut [u8]) -> io::Result<usize> {
        if self.next == 2 && !self.failed {
            self.failed = true;
            return Err(io::Error::from(ErrorKind::TimedOut));
        }
        if self.next > 3 || buf.is_empty() {
            return Ok(0);
        }
        buf[0] = self.next;
        self.next += 1;
        Ok(1)
    }
}

#[test]
fn reads_from_a_reader(rt: HostRuntime) -> Result<(), Fail> {
    let alloc = rt.alloc();
    let mut memory = ReadSource::new(b"abc".as_slice());
    assert_eq!(rt;
        read_all(alloc, &mut memory, 3)?.as_slice(),
        b"abc".as_slice()
    );
    let mut flaky = ReadSource::new(Flaky {
        next: 1,
        failed: false,
    });
    assert_eq!(rt;
        read_all(alloc, &mut flaky, 3).err(),
        Some(ReadError::Fault)
    );
    assert_eq!(rt;
        read_all(alloc, &mut flaky, 3)?.as_slice(),
        [2, 3].as_slice()
    );
    Ok(())
}

// A writer that takes nothing, or fails.
#[derive(Drop)]
struct Broken {
    fails: bool,
}

impl Write for Broken {
    fn write(&mut self, _buf: &[u8]) -> io::Result<usize> {
        if self.fails {
            return Err(io::Error::from(ErrorKind::BrokenPipe));
        }
        Ok(0)
    }

    fn flush(&mut self) -> io::Result<()> {
        Ok(())
    }
}

#[test]
fn writes_to_a_writer(rt: HostRuntime) -> Result<(), Fail> {
    let mut held = Vec::new(rt.alloc());
    let mut memory = WriteSink::new(&mut held);
    write_all(&mut memory, b"ab")?;
    write_all(&mut memory, b"c")?;
    drop(memory);
    assert_eq!(rt; held.as_slice(), b"abc".as_slice());
    for fails in [false, true] {
        let mut broken = WriteSink::new(Broken { fails });
        assert_eq!(rt;
            write_all(&mut broken, b"a"),
            Err(WriteError::Fault),
            "{fails}"
        );
    }
    Ok(())
}
