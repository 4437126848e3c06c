//! Where the bytes of a run go: to a writer, or nowhere.
ghost use Rattle.std.specs.Prelude.{◌≡◌, ◌||◌, List, ℕ, Option, Bool, None, false, OnOk, OnErr, IfErr, is_err};
ghost use Rattle.std.specs.Io.KnownBytes.{Appends, Keeps};
ghost use Rattle.git_pkt.specs.Machine.Recorded.{inner_of, has_failed};
ghost use Rattle.git_pkt.specs.Streams.{AppendsFront};

use crate::engine;
use crate::fault::RunFault;
use crate::recorded::Recorded;
use std::io::Write;

/// Takes the output of a run: a [`Recorded`] writer, or [`Discard`].
pub trait Output {
    // The bytes that it holds, if they are known.
    ghost contents: { Self → Option (List ℕ) };
    // Whether a write or a flush has failed.
    ghost failed: { Self → Bool };

    /// Takes all the bytes.
    ///
    /// The fault is `WriteFault`, exactly if the writing fails; then a prefix of the bytes was written.
    fn send(&mut self, bytes: &[u8]) -> Result<(), RunFault>
        ensures ok { OnOk result (Appends (contents self.old) (contents self.new) bytes.now) }
        ensures err { OnErr result (AppendsFront (contents self.old) (contents self.new) bytes.now) }
        ensures fault { IfErr result (λ fault. fault ≡ RunFault.WriteFault) }
        ensures failed { failed self.new ≡ (failed self.old || is_err result) };

    /// Flushes the bytes that were taken.
    ///
    /// The fault is `WriteFault`, exactly if the flush fails.
    fn flush(&mut self) -> Result<(), RunFault>
        ensures bytes { Keeps (contents self.old) (contents self.new) }
        ensures fault { IfErr result (λ fault. fault ≡ RunFault.WriteFault) }
        ensures failed { failed self.new ≡ (failed self.old || is_err result) };
}

impl<W: Write> Output for Recorded<W> {
    ghost contents = { λ announced. W.contents (inner_of announced) };

    ghost failed = { λ announced. has_failed announced };

    fn send(&mut self, bytes: &[u8]) -> Result<(), RunFault> {
        engine::send(self, bytes)
    }

    fn flush(&mut self) -> Result<(), RunFault> {
        engine::flush(self)
    }
}

/// Drops all bytes that it takes, and never fails.
#[derive(Clone, Copy, Debug)]
pub struct Discard;

impl Output for Discard {
    ghost contents = { λ discard. None };

    ghost failed = { λ discard. false };

    fn send(&mut self, _bytes: &[u8]) -> Result<(), RunFault> {
        Ok(())
    }

    fn flush(&mut self) -> Result<(), RunFault> {
        Ok(())
    }
}
