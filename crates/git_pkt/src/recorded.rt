//! Readers and writers that record the results of the calls made through them.
ghost use Rattle.std.specs.Prelude.{◌≡◌, ◌+◌, ◌==◌, min, ◌||◌, OnOk, OnErr, is_err, length};
ghost use Rattle.std.specs.Io.{ReadsAtMost, WritesAtMost};
ghost use Rattle.std.specs.Io.KnownBytes.{Appends, Keeps, ReadConsumes, WriteAppends};
ghost use Rattle.git_pkt.specs.Machine.Recorded.{inner_of, reads_of, has_failed, has_ended, has_wasted, gave_nothing, IsNew, ReadsNothing};
ghost use Rattle.git_pkt.specs.Machine.Calls.{WritesWhole};
ghost use Rattle.git_pkt.specs.Streams.{AppendsFront};

use crate::calls::{ReadCalls, WriteCalls};
use std::io;
use std::io::{ErrorKind, Read, Write};

/// A reader or a writer that records the results of the calls made through it: how many reads there were, whether a call
/// failed, whether the input ended, and whether a read was wasted.
#[derive(Debug, Drop)]
pub struct Recorded<T> {
    inner: T,
    reads: u64,
    has_failed: bool,
    has_ended: bool,
    has_wasted: bool,
}

impl<T> Recorded<T> {
    /// Wraps a reader or a writer, before its first call.
    pub fn new(inner: T) -> Recorded<T>
        ensures inner { inner_of result ≡ inner }
        ensures fresh { IsNew result }
    {
        Recorded {
            inner,
            reads: 0,
            has_failed: false,
            has_ended: false,
            has_wasted: false,
        }
    }

    /// How many reads were made, including failed ones. The count stops at `u64::MAX`.
    pub fn reads(&self) -> u64
        ensures { result ≡ reads_of self.now }
    {
        self.reads
    }

    /// Whether a call made through this has failed.
    pub fn failed(&self) -> bool
        ensures { result ≡ has_failed self.now }
    {
        self.has_failed
    }

    /// Whether a read into a non-empty buffer returned no bytes.
    pub fn ended(&self) -> bool
        ensures { result ≡ has_ended self.now }
    {
        self.has_ended
    }

    /// Whether a read was made that could not return any bytes: into an empty buffer, or after the end of the input.
    pub fn wasted(&self) -> bool
        ensures { result ≡ has_wasted self.now }
    {
        self.has_wasted
    }
}

impl<R: ReadCalls> Read for Recorded<R> {
    ghost remaining = { λ announced. R.remaining (inner_of announced) };

    fn read(&mut self, buf: &mut [u8]) -> io::Result<usize>
        ensures bound { ReadsAtMost result buf.new }
        ensures bytes { ReadConsumes (R.remaining (inner_of self.old)) (R.remaining (inner_of self.new)) result buf.new }
        ensures call { R.is_read (inner_of self.old) buf.old result buf.new (inner_of self.new) }

        ensures counted { reads_of self.new ≡ min (reads_of self.old + 1) u64.MAX }
        ensures failed { has_failed self.new ≡ (has_failed self.old || is_err result) }
        ensures ended { has_ended self.new ≡ (has_ended self.old || gave_nothing result buf.new) }
        ensures wasted { has_wasted self.new ≡ (has_wasted self.old || (has_ended self.old || (length buf.old == 0))) }
    {
        self.has_wasted |= self.has_ended || buf.is_empty();
        self.reads = self.reads.saturating_add(1);
        match self.inner.call_read(buf) {
            Ok(count) => {
                if count == 0 && !buf.is_empty() {
                    self.has_ended = true;
                }
                Ok(count)
            }
            Err(error) => {
                self.has_failed = true;
                Err(error)
            }
        }
    }
}

impl<W: WriteCalls> Write for Recorded<W> {
    ghost contents = { λ announced. W.contents (inner_of announced) };

    fn write(&mut self, buf: &[u8]) -> io::Result<usize>
        ensures bound { WritesAtMost result buf.now }
        ensures bytes { WriteAppends (W.contents (inner_of self.old)) (W.contents (inner_of self.new)) result buf.now }
        ensures call { W.is_write (inner_of self.old) buf.now result (inner_of self.new) }

        ensures failed { has_failed self.new ≡ (has_failed self.old || is_err result) }
        ensures reads { ReadsNothing self.old self.new }
    {
        let written = self.inner.call_write(buf);
        self.has_failed |= written.is_err();
        written
    }

    fn flush(&mut self) -> io::Result<()>
        ensures bytes { Keeps (W.contents (inner_of self.old)) (W.contents (inner_of self.new)) }
        ensures call { W.is_flush (inner_of self.old) result (inner_of self.new) }

        ensures failed { has_failed self.new ≡ (has_failed self.old || is_err result) }
        ensures reads { ReadsNothing self.old self.new }
    {
        let flushed = self.inner.call_flush();
        self.has_failed |= flushed.is_err();
        flushed
    }

    /// Writes all the bytes, in as many writes as it takes. Repeats a write that a signal interrupted.
    fn write_all(&mut self, buf: &[u8]) -> io::Result<()>
        ensures bytes { OnOk result (Appends (W.contents (inner_of self.old)) (W.contents (inner_of self.new)) buf.now) }
        ensures front { OnErr result (AppendsFront (W.contents (inner_of self.old)) (W.contents (inner_of self.new)) buf.now) }
        ensures calls { WritesWhole W.is_write (inner_of self.old) buf.now result (inner_of self.new) }

        ensures failed { has_failed self.new ≡ (has_failed self.old || is_err result) }
        ensures reads { ReadsNothing self.old self.new }
    {
        let whole = write_whole(&mut self.inner, buf);
        self.has_failed |= whole.is_err();
        whole
    }
}

// Unlike the contract of the trait's own `write_all`, this one also covers what was written before a failure.
fn write_whole<W: WriteCalls>(writer: &mut W, bytes: &[u8]) -> io::Result<()>
    ensures ok { OnOk result (Appends (W.contents writer.old) (W.contents writer.new) bytes.now) }
    ensures err { OnErr result (AppendsFront (W.contents writer.old) (W.contents writer.new) bytes.now) }
    ensures calls { WritesWhole W.is_write writer.old bytes.now result writer.new }
{
    let mut rest = bytes;
    for _ in 0..u64::MAX {
        if rest.is_empty() {
            return Ok(());
        }
        match writer.call_write(rest) {
            Ok(0) => {
                let message = "failed to write whole buffer";
                return Err(io::Error::new(ErrorKind::WriteZero, message));
            }
            Ok(written) => rest = &rest[written..],
            Err(error) => {
                if error.kind() != ErrorKind::Interrupted {
                    return Err(error);
                }
            }
        }
    }
    Err(io::Error::other("too many tries"))
}
