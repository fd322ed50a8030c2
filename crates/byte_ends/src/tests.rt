use crate::retry::{read_again, write_again};
use crate::{Failed, InputSource, MemorySource, OutputSink, Sink, Source, read_most};
use std::alloc::Allocator;
use std::fmt::Display;
use std::io::{self, BufRead, ErrorKind, Input, Lines, Print, Read, Write};
use std::test::Fail;

// A stream whose first two calls are interrupted and whose fourth fails.
#[derive(Drop)]
struct Halting {
    calls: u64,
}

impl Halting {
    fn call(&mut self) -> io::Result<()> {
        self.calls = self.calls.saturating_add(1);
        match self.calls {
            1 | 2 => Err(ErrorKind::Interrupted.into()),
            4 => Err(ErrorKind::BrokenPipe.into()),
            _ => Ok(()),
        }
    }
}

impl Read for Halting {
    fn read(&mut self, room: &mut [u8]) -> io::Result<usize> {
        self.call()?;
        Ok(room.len())
    }
}

impl Write for Halting {
    fn write(&mut self, bytes: &[u8]) -> io::Result<usize> {
        self.call()?;
        Ok(bytes.len())
    }

    fn flush(&mut self) -> io::Result<()> {
        Ok(())
    }
}

#[test]
fn interrupted_calls_are_made_again(rt: HostRuntime) {
    let mut input = Halting { calls: 0 };
    let mut output = Halting { calls: 0 };
    let mut room = [0u8; 3];
    assert!(rt; matches!(read_again(&mut input, &mut room), Ok(3)));
    assert!(rt; read_again(&mut input, &mut room).is_err());
    assert!(rt; matches!(write_again(&mut output, b"abc"), Ok(3)));
    assert!(rt; write_again(&mut output, b"abc").is_err());
    assert!(rt; input.calls == 4 && output.calls == 4);
}

// A runtime whose output is closed and whose input can't be read.
#[derive(Clone, Copy, Drop)]
struct Broken;

#[derive(Clone, Copy, Drop)]
struct BrokenInput;

impl Print for Broken {
    fn print<D: Display + Drop>(&self, _value: D) -> io::Result<()> {
        Err(ErrorKind::BrokenPipe.into())
    }

    fn println<D: Display + Drop>(&self, _value: D) -> io::Result<()> {
        Err(ErrorKind::BrokenPipe.into())
    }

    fn write_all(&self, _bytes: &[u8]) -> io::Result<()> {
        Err(ErrorKind::BrokenPipe.into())
    }
}

impl Read for BrokenInput {
    fn read(&mut self, _room: &mut [u8]) -> io::Result<usize> {
        Err(ErrorKind::InvalidInput.into())
    }
}

impl BufRead for BrokenInput {
    fn fill_buf(&mut self) -> io::Result<&[u8]> {
        Err(ErrorKind::InvalidInput.into())
    }

    fn consume(&mut self, _amount: usize) {}
}

impl Input for Broken {
    type Reader = BrokenInput;

    fn read_line<A: Allocator + Clone>(&self, _text: &mut String<A>) -> io::Result<usize> {
        Err(ErrorKind::InvalidInput.into())
    }

    fn lines<A: Allocator>(&self, alloc: A) -> Lines<BrokenInput, A> {
        BrokenInput.lines(alloc)
    }

    fn reader(&self) -> BrokenInput {
        BrokenInput
    }
}

#[test]
fn failures_of_the_standard_streams_are_told(rt: HostRuntime) {
    assert_eq!(rt; InputSource::new(Broken).read(&mut [0u8; 3]), Err(Failed));
    assert_eq!(rt; OutputSink::new(Broken).write(b"abc"), Err(Failed));
}

#[test]
fn pieces_are_read_until_the_end(rt: HostRuntime) -> Result<(), Fail> {
    let bytes = Vec::from_slice(rt.alloc(), b"abcdefg")?;
    let mut source = MemorySource::new(bytes, 3, Vec::new(rt.alloc()));
    let mut room = [0u8; 9];
    assert_eq!(rt; read_most(&mut source, &mut room), Ok(7));
    assert_eq!(rt; &room[..7], b"abcdefg".as_slice());
    Ok(())
}
