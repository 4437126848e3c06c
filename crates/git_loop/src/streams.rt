//! The inputs and the outputs of a run, each with its number, from 0.

ghost use Rattle.std.specs.Prelude.{◌≡◌, ◌≢◌, ◌≤◌, ◌<◌, ◌+◌, ◌-◌, ◌||◌, ℕ, Bool, true, false, List, [], length, take, drop, Option};
ghost use Rattle.std.specs.Prelude.{None, OnErr, OnOk, IfErr, is_err};
ghost use Rattle.std.proofs.Common.{refl, ◌∙◌};
ghost use Rattle.std.specs.Io.KnownBytes.{Keeps};
ghost use Rattle.git_pkt.specs.Machine.Recorded.{inner_of, reads_of, has_failed};
ghost use Rattle.git_loop.specs.Streams.{Consumed, CountsOne, Fills, InputState, KeepsOthers, Sends, one_input, one_output, recorded_input};

use git_pkt::{Recorded, RunFault, flush, receive, send};
use std::io::{Read, Write};

/// Some inputs. Each has a window of the bytes that were read and not used yet, so that one that is not needed now may wait.
pub trait Inputs {
    /// There is an input of this number.
    ghost has: { ℕ → Type 0 };
    /// The input of this number.
    ghost input: { Self → ℕ → InputState };
    /// How many reads were made, of all inputs.
    ghost reads: { Self → ℕ };
    /// How many bytes wait in all windows.
    ghost waiting: { Self → ℕ };
    /// Both have the same readers.
    ghost same_readers: { Self → Self → Type 0 };

    /// The bytes that wait of one of them.
    fn window(&self, from: u8) -> &[u8]
        requires { has from }
        ensures { result.now ≡ (input self.now from).window };

    /// Reads once, of an input that has no bytes waiting. Returns whether any came: none come at the end, and only there. The fault is
    /// `ReadFault`, exactly if the read fails.
    fn fill(&mut self, from: u8) -> Result<bool, RunFault>
        requires exists { has from }
        requires empty { (input self.old from).window ≡ [] }
        ensures fills { Fills result (input self.old from) (input self.new from) }
        ensures others { KeepsOthers from (input self.old) (input self.new) }
        ensures counted { CountsOne (reads self.old) (reads self.new) }
        ensures fault { IfErr result (λ fault. fault ≡ RunFault.ReadFault) }
        ensures same_readers { same_readers self.old self.new };

    /// Takes so many bytes that wait of one of them: they were used.
    fn consume(&mut self, from: u8, count: usize)
        requires exists { has from }
        requires within { count ≤ length (input self.old from).window }
        ensures consumed { Consumed count (input self.old from) (input self.new from) }
        ensures others { KeepsOthers from (input self.old) (input self.new) }
        ensures counted { reads self.new ≡ reads self.old }
        ensures waiting { waiting self.new + count ≡ waiting self.old }
        ensures same_readers { same_readers self.old self.new };

    /// Each has the readers that it has.
    ghost same_itself: { (inputs : Self) → same_readers inputs inputs };
    /// What has the readers of another has those of a third.
    ghost same_further: { (old middle new : Self) → same_readers old middle → same_readers middle new → same_readers old new };
}

/// Some outputs.
pub trait Outputs {
    /// There is an output of this number.
    ghost has: { ℕ → Type 0 };
    /// The bytes that the output of this number holds, if known.
    ghost contents: { Self → ℕ → Option (List ℕ) };
    /// A write or a flush has failed.
    ghost failed: { Self → Bool };
    /// Nothing was sent since the last flush.
    ghost flushed: { Self → Bool };
    /// Both have the same writers.
    ghost same_writers: { Self → Self → Type 0 };

    /// Writes all the bytes to the output of this number. The fault is `WriteFault`, exactly if the writing fails.
    fn send(&mut self, to: u8, bytes: &[u8]) -> Result<(), RunFault>
        requires exists { has to }
        ensures ok { OnOk result (Sends false to bytes.now (contents self.old) (contents self.new)) }
        ensures front { OnErr result (Sends true to bytes.now (contents self.old) (contents self.new)) }
        ensures fault { IfErr result (λ fault. fault ≡ RunFault.WriteFault) }
        ensures failed { failed self.new ≡ (failed self.old || is_err result) }
        ensures unflushed { flushed self.new ≡ false }
        ensures same_writers { same_writers self.old self.new };

    /// Flushes them all. The fault is `WriteFault`, exactly if that fails.
    fn flush(&mut self) -> Result<(), RunFault>
        ensures kept { (k : ℕ) → Keeps (contents self.old k) (contents self.new k) }
        ensures flushed { OnOk result (flushed self.new ≡ true) }
        ensures fault { IfErr result (λ fault. fault ≡ RunFault.WriteFault) }
        ensures failed { failed self.new ≡ (failed self.old || is_err result) }
        ensures same_writers { same_writers self.old self.new };

    /// Each has the writers that it has.
    ghost same_itself: { (outputs : Self) → same_writers outputs outputs };
    /// What has the writers of another has those of a third.
    ghost same_further: { (old middle new : Self) → same_writers old middle → same_writers middle new → same_writers old new };
}

/// A reader as the only input of a machine, of the number 0, with the memory for its window.
#[derive(Drop)]
pub struct OneInput<'a, R> {
    pub(crate) reader: &'a mut Recorded<R>,
    pub(crate) buffer: &'a mut [u8],
    // The window lies between these indices.
    pub(crate) start: usize,
    pub(crate) end: usize,
    ghost space: { 0 < length buffer.now },
    ghost ordered: { start ≤ end },
    ghost within: { end ≤ length buffer.now },
}

impl<'a, R: Read> OneInput<'a, R> {
    ghost use Rattle.git_loop.specs.OneStreams.{ReadsFrom, ReadsInto, reader_of, waiting_in};

    /// The input of a reader, with no bytes waiting. Each read goes into the whole buffer, which may not be empty.
    pub fn new(reader: &'a mut Recorded<R>, buffer: &'a mut [u8]) -> OneInput<'a, R>
        requires space { 0 < length buffer.old }
        ensures reader { reader_of result ≡ reader.old }
        ensures empty { waiting_in result ≡ [] }
        ensures reads_from { ReadsFrom result reader.entry }
        ensures reads_into { ReadsInto result buffer.entry }
    {
        OneInput {
            reader,
            buffer,
            start: 0,
            end: 0,
        }
    }
}

impl<'a, R> OneInput<'a, R> {
    ghost use Rattle.git_loop.specs.OneStreams.{reader_of};

    /// How many reads its reader has made.
    pub fn reads(&self) -> u64
        ensures { result ≡ reads_of (reader_of self.now) }
    {
        self.reader.reads()
    }
}

impl<'a, R: Read> Inputs for OneInput<'a, R> {
    ghost use Rattle.git_loop.specs.OneStreams.{HaveSameReader, reader_of, waiting_in};

    ghost has = { λ k. k ≡ 0 };

    ghost input = { λ one k. one_input (recorded_input R.remaining (reader_of one) (waiting_in one)) k };

    ghost reads = { λ one. reads_of (reader_of one) };

    ghost waiting = { λ one. one.end - one.start };

    ghost same_readers = { λ old new. HaveSameReader old new };

    ghost same_itself = { λ one. (refl, refl) };

    ghost same_further = { λ old middle new first second. (second.0 ∙ first.0, second.1 ∙ first.1) };

    fn window(&self, from: u8) -> &[u8] {
        &self.buffer[self.start..self.end]
    }

    fn fill(&mut self, from: u8) -> Result<bool, RunFault> {
        self.start = 0;
        self.end = 0;
        let count = receive(self.reader, self.buffer)?;
        self.end = count;
        Ok(count > 0)
    }

    fn consume(&mut self, from: u8, count: usize) {
        self.start += count;
    }
}

/// A writer as the only output of a machine, of the number 0.
#[derive(Drop)]
pub struct OneOutput<'a, W> {
    writer: &'a mut Recorded<W>,
    flushed: bool,
}

impl<'a, W: Write> OneOutput<'a, W> {
    ghost use Rattle.git_loop.specs.OneStreams.{WritesTo, is_flushed, writer_of};

    /// The output to a writer.
    pub fn new(writer: &'a mut Recorded<W>) -> OneOutput<'a, W>
        ensures writer { writer_of result ≡ writer.old }
        ensures unflushed { is_flushed result ≡ false }
        ensures writes_to { WritesTo result writer.entry }
    {
        OneOutput {
            writer,
            flushed: false,
        }
    }
}

impl<'a, W: Write> Outputs for OneOutput<'a, W> {
    ghost use Rattle.git_loop.specs.OneStreams.{HaveSameWriter, is_flushed, writer_of};

    ghost has = { λ k. k ≡ 0 };

    ghost contents = { λ one k. one_output (W.contents (inner_of (writer_of one))) k };

    ghost failed = { λ one. has_failed (writer_of one) };

    ghost flushed = { λ one. is_flushed one };

    ghost same_writers = { λ old new. HaveSameWriter old new };

    ghost same_itself = { λ one. refl };

    ghost same_further = { λ old middle new first second. second ∙ first };

    fn send(&mut self, to: u8, bytes: &[u8]) -> Result<(), RunFault> {
        self.flushed = false;
        send(self.writer, bytes)
    }

    fn flush(&mut self) -> Result<(), RunFault> {
        flush(self.writer)?;
        self.flushed = true;
        Ok(())
    }
}

/// Outputs for a machine that gives nothing: what is sent to them is let go.
#[derive(Drop)]
pub struct NoOutput {
    flushed: bool,
}

impl NoOutput {
    /// Makes them, before the first flush.
    pub fn new() -> NoOutput {
        NoOutput { flushed: false }
    }
}

impl Outputs for NoOutput {
    ghost has = { λ k. Unit {0} };

    ghost contents = { λ none k. None };

    ghost failed = { λ none. false };

    ghost flushed = { λ none. none.flushed };

    ghost same_writers = { λ old new. Unit {0} };

    ghost same_itself = { λ none. tt };

    ghost same_further = { λ old middle new first second. tt };

    fn send(&mut self, to: u8, bytes: &[u8]) -> Result<(), RunFault> {
        self.flushed = false;
        Ok(())
    }

    fn flush(&mut self) -> Result<(), RunFault> {
        self.flushed = true;
        Ok(())
    }
}
