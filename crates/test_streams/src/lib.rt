//! Readers and writers in memory that are slow, fail once, count, or never end, for tests.
#![tactic(auto)]

use std::io;
use std::io::{ErrorKind, Read, Write};

/// Returns at most `step` of its bytes for each read, and fails once with `error`, at the read numbered `failing` from 0.
#[derive(Drop)]
pub struct Stream<'a> {
    /// The bytes that were not read yet.
    pub rest: &'a [u8],
    /// The maximum number of bytes for each read.
    pub step: usize,
    /// The number of the read that fails, from 0.
    pub failing: u32,
    /// The error of the read that fails.
    pub error: ErrorKind,
    /// How many reads were made.
    pub reads: u32,
}

impl<'a> Stream<'a> {
    /// A reader of these bytes, before the first read. It fails as a connection that was reset does.
    pub fn new(rest: &'a [u8], step: usize, failing: u32) -> Stream<'a> {
        Stream {
            rest,
            step,
            failing,
            error: ErrorKind::ConnectionReset,
            reads: 0,
        }
    }
}

impl<'a> Read for Stream<'a> {
    fn read(&mut self, buf: &mut [u8]) -> io::Result<usize> {
        let number = self.reads;
        self.reads = number.saturating_add(1);
        if number == self.failing {
            return Err(io::Error::from(self.error));
        }
        let count = self.rest.len().min(self.step).min(buf.len());
        buf[..count].copy_from_slice(&self.rest[..count]);
        self.rest = &self.rest[count..];
        Ok(count)
    }
}

/// Takes at most `step` bytes for each write, and fails once with `error`, at the write numbered `failing` from 0.
#[derive(Drop)]
pub struct Sink {
    /// The bytes that were written.
    pub taken: Vec<u8>,
    /// The maximum number of bytes for each write.
    pub step: usize,
    /// The number of the write that fails, from 0.
    pub failing: u32,
    /// The error of the write that fails.
    pub error: ErrorKind,
    /// How many writes were made.
    pub writes: u32,
    /// How many flushes were made.
    pub flushes: u32,
    /// How many of the bytes had been written at the last flush.
    pub flushed: usize,
}

impl Sink {
    /// A writer after these bytes, which fails as a broken pipe does.
    pub fn new(taken: Vec<u8>, step: usize, failing: u32) -> Sink {
        Sink {
            taken,
            step,
            failing,
            error: ErrorKind::BrokenPipe,
            writes: 0,
            flushes: 0,
            flushed: 0,
        }
    }
}

impl Write for Sink {
    fn write(&mut self, buf: &[u8]) -> io::Result<usize> {
        let number = self.writes;
        self.writes = number.saturating_add(1);
        if number == self.failing {
            return Err(io::Error::from(self.error));
        }
        let count = buf.len().min(self.step);
        self.taken.extend_from_slice(&buf[..count])?;
        Ok(count)
    }

    fn flush(&mut self) -> io::Result<()> {
        self.flushes = self.flushes.saturating_add(1);
        self.flushed = self.taken.len();
        Ok(())
    }
}

/// Returns one of its chunks for each read, or as much of a long one as the buffer holds. Empty ones are skipped.
#[derive(Drop)]
pub struct Chunks<'a> {
    chunks: &'a [&'a [u8]],
    // The current chunk, and how many of its bytes were returned.
    number: usize,
    given: usize,
}

impl<'a> Chunks<'a> {
    /// A reader of these chunks, from the first on.
    pub fn new(chunks: &'a [&'a [u8]]) -> Chunks<'a> {
        Chunks {
            chunks,
            number: 0,
            given: 0,
        }
    }
}

impl<'a> Read for Chunks<'a> {
    fn read(&mut self, buf: &mut [u8]) -> io::Result<usize> {
        for _ in 0..self.chunks.len() {
            let Some(chunk) = self.chunks.get(self.number) else {
                return Ok(0);
            };
            let rest = chunk.get(self.given..).unwrap_or(&[]);
            if !rest.is_empty() {
                let count = rest.len().min(buf.len());
                buf[..count].copy_from_slice(&rest[..count]);
                self.given = self.given.saturating_add(count);
                return Ok(count);
            }
            self.number = self.number.saturating_add(1);
            self.given = 0;
        }
        Ok(0)
    }
}

/// Returns its first bytes once, and then those of a round again and again, without an end.
#[derive(Drop)]
pub struct Endless<'a> {
    rest: &'a [u8],
    round: &'a [u8],
}

impl<'a> Endless<'a> {
    /// A reader that returns these bytes first, and then the round again and again.
    pub fn new(first: &'a [u8], round: &'a [u8]) -> Endless<'a> {
        Endless { rest: first, round }
    }
}

impl<'a> Read for Endless<'a> {
    fn read(&mut self, buf: &mut [u8]) -> io::Result<usize> {
        if self.rest.is_empty() {
            self.rest = self.round;
        }
        let count = self.rest.len().min(buf.len());
        buf[..count].copy_from_slice(&self.rest[..count]);
        self.rest = &self.rest[count..];
        Ok(count)
    }
}
