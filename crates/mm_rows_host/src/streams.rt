//! Standard input and output, and ones that give and take little.

use crate::outside::{read, written};
use mm_host::{StdinSource, StdoutSink};
use std::alloc::{AllocError, Allocator, Global};
use std::fmt::Display;
use std::io::{self, BufRead, ErrorKind, Lines, Read};
use std::test::Fail;

/// What reads of an input answer.
fn read_of<R: Input + Drop>(rt: R, alloc: Global, lens: &[usize]) -> Result<String, AllocError> {
    let mut source = StdinSource::new(rt);
    read(alloc, &mut source, lens)
}

/// What writes to an output answer.
fn written_to<R: Print + Drop>(
    rt: R,
    alloc: Global,
    texts: &[&[u8]],
) -> Result<String, AllocError> {
    let mut sink = StdoutSink::new(rt);
    written(alloc, &mut sink, texts)
}

/// Tests are run on an empty input.
#[test]
fn standard_streams(rt: HostRuntime) -> Result<(), Fail> {
    let mut text = read_of(rt, rt.alloc(), &[4])?;
    text.push_str(written_to(rt, rt.alloc(), &[b"written by a test\n"])?.as_str())?;
    assert_eq!(rt; text.as_str(), "0 [7, 7, 7, 7]; 18; ");
    Ok(())
}

/// An input that gives one byte, and then fails, and an output that takes so many bytes.
#[derive(Clone, Copy)]
struct Odd {
    most: usize,
}

#[derive(Drop)]
struct OneByte {
    is_given: bool,
}

impl Read for OneByte {
    fn read(&mut self, buf: &mut [u8]) -> io::Result<usize> {
        if self.is_given || buf.is_empty() {
            return Err(io::Error::from(ErrorKind::BrokenPipe));
        }
        self.is_given = true;
        buf[0] = b'x';
        Ok(1)
    }
}

impl BufRead for OneByte {
    fn fill_buf(&mut self) -> io::Result<&[u8]> {
        Ok(&[])
    }

    fn consume(&mut self, _amount: usize) {}
}

impl Input for Odd {
    type Reader = OneByte;

    fn read_line<A: Allocator + Clone>(&self, _buf: &mut String<A>) -> io::Result<usize> {
        Ok(0)
    }

    fn lines<A: Allocator>(&self, alloc: A) -> Lines<OneByte, A> {
        self.reader().lines(alloc)
    }

    fn reader(&self) -> OneByte {
        OneByte { is_given: false }
    }
}

impl Print for Odd {
    fn print<D: Display + Drop>(&self, _value: D) -> io::Result<()> {
        Ok(())
    }

    fn println<D: Display + Drop>(&self, _value: D) -> io::Result<()> {
        Ok(())
    }

    fn write_all(&self, _bytes: &[u8]) -> io::Result<()> {
        Ok(())
    }

    fn write_some(&self, bytes: &[u8]) -> io::Result<usize> {
        Ok(self.most.min(bytes.len()))
    }
}

/// A short read and a short write are handed on, and an error and a write of no bytes are faults.
#[test]
fn odd_streams(rt: HostRuntime) -> Result<(), Fail> {
    let mut text = read_of(Odd { most: 0 }, rt.alloc(), &[2, 2])?;
    for most in [2, 0] {
        text.push_str(written_to(Odd { most }, rt.alloc(), &[b"abc"])?.as_str())?;
    }
    assert_eq!(rt; text.as_str(), "1 [120, 7, 7, 7]; fault; 2; fault; ");
    Ok(())
}
