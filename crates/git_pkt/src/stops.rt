//! Readers and writers that stop at a call, to test the code that runs over them.
ghost use Rattle.std.specs.Prelude.{◌≡◌, ◌-◌, ◌<◌, IsErr};
ghost use Rattle.std.specs.Io.{ReadsAtMost, WritesAtMost};
ghost use Rattle.std.specs.Io.KnownBytes.{Keeps, ReadConsumes, WriteAppends};

use crate::calls::{ReadCalls, WriteCalls};
use std::io;
use std::io::{ErrorKind, Read, Write};

/// A reader or a writer that stops: it passes on so many calls, reads, writes and flushes counted together. Each later call
/// fails, with no call inside.
///
/// Use it to test programs that have to withstand failing streams: one run for each number of calls makes each call fail in turn.
#[derive(Debug, Drop)]
pub struct Stops<T> {
    inner: T,
    calls_left: u32,
}

impl<T> Stops<T> {
    ghost use Rattle.git_pkt.specs.Machine.Stops.{calls_left, inner_of};

    /// Wraps a reader or a writer, and passes so many calls on to it.
    pub fn new(inner: T, calls: u32) -> Stops<T>
        ensures inner { inner_of result ≡ inner }
        ensures calls { calls_left result ≡ calls }
    {
        Stops {
            inner,
            calls_left: calls,
        }
    }

    /// Returns what it wraps.
    pub fn into_inner(self) -> T
        ensures { result ≡ inner_of self }
    {
        let Stops { inner, .. } = self;
        inner
    }
}

impl<R: ReadCalls> Read for Stops<R> {
    ghost use Rattle.git_pkt.specs.Machine.Stops.{calls_left, inner_of};

    ghost remaining = { λ stops. R.remaining (inner_of stops) };

    fn read(&mut self, buf: &mut [u8]) -> io::Result<usize>
        ensures bound { ReadsAtMost result buf.new }
        ensures bytes { ReadConsumes (R.remaining (inner_of self.old)) (R.remaining (inner_of self.new)) result buf.new }

        ensures passes { 0 < calls_left self.old → R.is_read (inner_of self.old) buf.old result buf.new (inner_of self.new) }
        ensures stopped { calls_left self.old ≡ 0 → IsErr result × (self.new ≡ self.old) }
        ensures counted { calls_left self.new ≡ calls_left self.old - 1 }
    {
        if self.calls_left == 0 {
            return Err(io::Error::from(ErrorKind::ConnectionReset));
        }
        self.calls_left -= 1;
        self.inner.call_read(buf)
    }
}

impl<W: WriteCalls> Write for Stops<W> {
    ghost use Rattle.git_pkt.specs.Machine.Stops.{calls_left, inner_of};

    ghost contents = { λ stops. W.contents (inner_of stops) };

    fn write(&mut self, buf: &[u8]) -> io::Result<usize>
        ensures bound { WritesAtMost result buf.now }
        ensures bytes { WriteAppends (W.contents (inner_of self.old)) (W.contents (inner_of self.new)) result buf.now }

        ensures passes { 0 < calls_left self.old → W.is_write (inner_of self.old) buf.now result (inner_of self.new) }
        ensures stopped { calls_left self.old ≡ 0 → IsErr result × (self.new ≡ self.old) }
        ensures counted { calls_left self.new ≡ calls_left self.old - 1 }
    {
        if self.calls_left == 0 {
            return Err(io::Error::from(ErrorKind::BrokenPipe));
        }
        self.calls_left -= 1;
        self.inner.call_write(buf)
    }

    fn flush(&mut self) -> io::Result<()>
        ensures bytes { Keeps (W.contents (inner_of self.old)) (W.contents (inner_of self.new)) }

        ensures passes { 0 < calls_left self.old → W.is_flush (inner_of self.old) result (inner_of self.new) }
        ensures stopped { calls_left self.old ≡ 0 → IsErr result × (self.new ≡ self.old) }
        ensures counted { calls_left self.new ≡ calls_left self.old - 1 }
    {
        if self.calls_left == 0 {
            return Err(io::Error::from(ErrorKind::BrokenPipe));
        }
        self.calls_left -= 1;
        self.inner.call_flush()
    }
}
