//! The outputs of a receiver: the transcript, the pack and the progress, each to a writer of its own.

ghost use Rattle.std.specs.Prelude.{◌<◌, ◌||◌};
ghost use Rattle.git_pkt.specs.Machine.Recorded.{inner_of, has_failed};
ghost use Rattle.git_client.specs.Machine.WriterStates.{HaveSameWriters, same_further, same_itself, three_outputs};

use git_loop::Outputs;
use git_pkt::{Output, Recorded, RunFault, flush, send};
use std::io::Write;

/// The three writers. Their numbers are those of a receiver's outputs.
#[derive(Drop)]
pub(crate) struct Writers<'o, 'p, 'e, O, P, E> {
    pub(crate) out: &'o mut Recorded<O>,
    pub(crate) pack: &'p mut P,
    pub(crate) progress: &'e mut E,
    pub(crate) flushed: bool,
}

impl<'o, 'p, 'e, O: Write, P: Output, E: Output> Outputs for Writers<'o, 'p, 'e, O, P, E> {
    ghost has = { λ k. k < 3 };

    ghost contents = { λ writers k.
        three_outputs (O.contents (inner_of writers.out.now)) (P.contents writers.pack.now) (E.contents writers.progress.now) k };

    ghost failed = { λ writers. has_failed writers.out.now || (P.failed writers.pack.now || E.failed writers.progress.now) };

    ghost flushed = { λ writers. writers.flushed };

    ghost same_writers = { λ old new. HaveSameWriters old new };

    ghost same_itself = { λ writers. same_itself writers };

    ghost same_further = { λ old middle new first second. same_further old middle new first second };

    fn send(&mut self, to: u8, bytes: &[u8]) -> Result<(), RunFault> {
        self.flushed = false;
        match to {
            0 => send(self.out, bytes),
            1 => self.pack.send(bytes),
            _ => self.progress.send(bytes),
        }
    }

    // The progress is first, so that the line at the end of a response is seen after it.
    fn flush(&mut self) -> Result<(), RunFault> {
        self.progress.flush()?;
        flush(self.out)?;
        self.pack.flush()?;
        self.flushed = true;
        Ok(())
    }
}
