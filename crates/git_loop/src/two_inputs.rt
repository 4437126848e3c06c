//! Two readers as the inputs of a run.

ghost use Rattle.std.specs.Prelude.{◌≡◌, ◌≤◌, ◌<◌, ◌+◌, ◌-◌, [], length};
ghost use Rattle.std.proofs.Common.{refl, ◌∙◌};
ghost use Rattle.git_pkt.specs.Machine.Recorded.{reads_of};
ghost use Rattle.git_loop.specs.Streams.{recorded_input, two_inputs};

use crate::streams::Inputs;
use git_pkt::{Recorded, RunFault, receive};
use std::io::Read;

/// Two readers as the inputs of a machine, of the numbers 0 and 1, each with memory of its own for its window.
#[derive(Drop)]
pub struct TwoInputs<'a, Q, R> {
    first: &'a mut Recorded<Q>,
    first_buffer: &'a mut [u8],
    // The first window lies between these indices, and the second one between those below.
    first_start: usize,
    first_end: usize,
    second: &'a mut Recorded<R>,
    second_buffer: &'a mut [u8],
    second_start: usize,
    second_end: usize,
    ghost first_space: { 0 < length first_buffer.now },
    ghost first_ordered: { first_start ≤ first_end },
    ghost first_within: { first_end ≤ length first_buffer.now },
    ghost second_space: { 0 < length second_buffer.now },
    ghost second_ordered: { second_start ≤ second_end },
    ghost second_within: { second_end ≤ length second_buffer.now },
}

impl<'a, Q: Read, R: Read> TwoInputs<'a, Q, R> {
    ghost use Rattle.git_loop.specs.TwoStreams.{ReadsFirstFrom, ReadsFirstInto, ReadsSecondFrom, ReadsSecondInto};
    ghost use Rattle.git_loop.specs.TwoStreams.{first_reader_of, first_waiting, second_reader_of, second_waiting};

    /// The inputs of two readers, with no bytes waiting. Each read goes into the whole buffer of its reader, which may not be empty.
    pub fn new(
        first: &'a mut Recorded<Q>,
        first_buffer: &'a mut [u8],
        second: &'a mut Recorded<R>,
        second_buffer: &'a mut [u8],
    ) -> TwoInputs<'a, Q, R>
        requires first_space { 0 < length first_buffer.old }
        requires second_space { 0 < length second_buffer.old }
        ensures first { first_reader_of result ≡ first.old }
        ensures second { second_reader_of result ≡ second.old }
        ensures first_empty { first_waiting result ≡ [] }
        ensures second_empty { second_waiting result ≡ [] }
        ensures first_from { ReadsFirstFrom result first.entry }
        ensures first_into { ReadsFirstInto result first_buffer.entry }
        ensures second_from { ReadsSecondFrom result second.entry }
        ensures second_into { ReadsSecondInto result second_buffer.entry }
    {
        TwoInputs {
            first,
            first_buffer,
            first_start: 0,
            first_end: 0,
            second,
            second_buffer,
            second_start: 0,
            second_end: 0,
        }
    }
}

impl<'a, Q: Read, R: Read> Inputs for TwoInputs<'a, Q, R> {
    ghost use Rattle.git_loop.specs.TwoStreams.{HaveSameReaders, IsOneOfTwo, first_reader_of, first_waiting, second_reader_of, second_waiting};

    ghost has = { λ k. IsOneOfTwo k };

    ghost input = { λ two k. two_inputs (recorded_input Q.remaining (first_reader_of two) (first_waiting two))
        (recorded_input R.remaining (second_reader_of two) (second_waiting two)) k };

    ghost reads = { λ two. reads_of (first_reader_of two) + reads_of (second_reader_of two) };

    ghost waiting = { λ two. (two.first_end - two.first_start) + (two.second_end - two.second_start) };

    ghost same_readers = { λ old new. HaveSameReaders old new };

    ghost same_itself = { λ two. ((refl, refl), (refl, refl)) };

    ghost same_further = { λ old middle new first second. (
      (second.0.0 ∙ first.0.0, second.0.1 ∙ first.0.1),
      (second.1.0 ∙ first.1.0, second.1.1 ∙ first.1.1),
    ) };

    fn window(&self, from: u8) -> &[u8] {
        match from {
            0 => &self.first_buffer[self.first_start..self.first_end],
            _ => &self.second_buffer[self.second_start..self.second_end],
        }
    }

    fn fill(&mut self, from: u8) -> Result<bool, RunFault> {
        match from {
            0 => {
                self.first_start = 0;
                self.first_end = 0;
                let count = receive(self.first, self.first_buffer)?;
                self.first_end = count;
                Ok(count > 0)
            }
            _ => {
                self.second_start = 0;
                self.second_end = 0;
                let count = receive(self.second, self.second_buffer)?;
                self.second_end = count;
                Ok(count > 0)
            }
        }
    }

    fn consume(&mut self, from: u8, count: usize) {
        match from {
            0 => self.first_start += count,
            _ => self.second_start += count,
        }
    }
}
