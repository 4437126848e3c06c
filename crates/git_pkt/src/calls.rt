//! Calls of readers and writers, each with a relation that only the call itself shows.
ghost use Rattle.std.specs.Prelude.{ℕ, List};
ghost use Rattle.std.specs.Io.{ReadsAtMost, WritesAtMost};
ghost use Rattle.std.specs.Io.KnownBytes.{Keeps, ReadConsumes, WriteAppends};
ghost use Rattle.git_pkt.specs.Machine.Calls.{FlushCall, ReadCall, WriteCall};

use std::io;
use std::io::{Read, Write};

/// A reader whose reads a contract can state: into which buffer, and with what result. Every reader is one.
///
/// Generic code knows of `is_read` only that `call_read` shows it. So if a wrapper's contract states it, the wrapper made
/// that call, exactly once, with exactly that buffer, and returns the result of the call.
pub trait ReadCalls: Read {
    // A read: the reader and the buffer before it, its result, and both after it.
    ghost is_read: { ReadCall Self };

    /// Reads as [`Read::read`] does.
    fn call_read(&mut self, buf: &mut [u8]) -> io::Result<usize>
        ensures call { is_read self.old buf.old result buf.new self.new }
        ensures bound { ReadsAtMost result buf.new }
        ensures bytes { ReadConsumes (Self.remaining self.old) (Self.remaining self.new) result buf.new };
}

impl<R: Read> ReadCalls for R {
    ghost is_read = { λ old before result after new. ReadsAtMost result after × ReadConsumes (R.remaining old) (R.remaining new) result after };

    fn call_read(&mut self, buf: &mut [u8]) -> io::Result<usize> {
        self.read(buf)
    }
}

/// A writer whose writes and flushes a contract can state, as [`ReadCalls`] does for reads. Every writer is one.
pub trait WriteCalls: Write {
    // A write: the writer before it, the bytes passed to it, its result, and the writer after it.
    ghost is_write: { WriteCall Self };

    // A flush: the writer before it, its result, and the writer after it.
    ghost is_flush: { FlushCall Self };

    /// Writes as [`Write::write`] does.
    fn call_write(&mut self, buf: &[u8]) -> io::Result<usize>
        ensures call { is_write self.old buf.now result self.new }
        ensures bound { WritesAtMost result buf.now }
        ensures bytes { WriteAppends (Self.contents self.old) (Self.contents self.new) result buf.now };

    /// Flushes as [`Write::flush`] does.
    fn call_flush(&mut self) -> io::Result<()>
        ensures call { is_flush self.old result self.new }
        ensures bytes { Keeps (Self.contents self.old) (Self.contents self.new) };
}

impl<W: Write> WriteCalls for W {
    ghost is_write = { λ old bytes result new. WritesAtMost result bytes × WriteAppends (W.contents old) (W.contents new) result bytes };

    ghost is_flush = { λ old result new. Keeps (W.contents old) (W.contents new) };

    fn call_write(&mut self, buf: &[u8]) -> io::Result<usize> {
        self.write(buf)
    }

    fn call_flush(&mut self) -> io::Result<()> {
        self.flush()
    }
}
