//! Readers that repeat interrupted reads.
ghost use Rattle.std.specs.Prelude.{◌≡◌, ◌≢◌, IfErr};
ghost use Rattle.std.specs.Io.{ReadsAtMost};
ghost use Rattle.std.specs.Io.KnownBytes.{ReadConsumes};
ghost use Rattle.std.specs.IoError.{error_kind};
ghost use Rattle.git_pkt.specs.Machine.Calls.{ReadsUninterrupted};
ghost use Rattle.git_pkt.specs.Machine.Retries.{inner_of};

use crate::calls::ReadCalls;
use std::io;
use std::io::{ErrorKind, Read};

/// A reader that repeats a read if a signal interrupted it, so that a run over it sees no fault in that. Every other failure
/// is passed on.
#[derive(Debug, Drop)]
pub struct Retries<R> {
    inner: R,
}

impl<R> Retries<R> {
    /// Wraps a reader.
    pub fn new(inner: R) -> Retries<R>
        ensures inner { inner_of result ≡ inner }
    {
        Retries { inner }
    }
}

impl<R: ReadCalls> Read for Retries<R> {
    ghost remaining = { λ retries. R.remaining (inner_of retries) };

    fn read(&mut self, buf: &mut [u8]) -> io::Result<usize>
        ensures bound { ReadsAtMost result buf.new }
        ensures bytes { ReadConsumes (R.remaining (inner_of self.old)) (R.remaining (inner_of self.new)) result buf.new }

        ensures calls { ReadsUninterrupted R.is_read (inner_of self.old) buf.old result buf.new (inner_of self.new) }
        ensures retried { IfErr result (λ error. error_kind error ≢ ErrorKind.Interrupted) }
    {
        for _ in 0..u64::MAX {
            match self.inner.call_read(buf) {
                Ok(count) => return Ok(count),
                Err(error) => {
                    if error.kind() != ErrorKind::Interrupted {
                        return Err(error);
                    }
                }
            }
        }
        Err(io::Error::other("too many tries"))
    }
}
