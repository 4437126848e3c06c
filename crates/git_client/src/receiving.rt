//! Receives a response over a reader, and writes its transcript, its pack and its progress.

ghost use Rattle.std.specs.Prelude.{[], ◌≡◌, ◌≤◌, ◌||◌, true, false, IsTrue, OnOk, IfErr, is_err};
ghost use Rattle.std.specs.Io.KnownBytes.{Appends};
ghost use Rattle.git_pkt.specs.Machine.Recorded.{inner_of, reads_of, has_failed, has_ended, has_wasted};
ghost use Rattle.git_pkt.specs.Machine.Engine.{FailsAs, IsShownBy, IsSpent};
ghost use Rattle.git_pkt.specs.Streams.{flow, is_broken, WrittenAs};
ghost use Rattle.git_client.specs.Machine.Client.{wants_input};
ghost use Rattle.git_client.specs.Events.{pack_bytes, progress_bytes};
ghost use Rattle.git_client.specs.Machine.LineParts.{PutAs};
ghost use Rattle.git_client.specs.Machine.RunSteps.{counts_with, no_counts, CanCount, ReceivesChunkTo};
ghost use Rattle.git_client.specs.Machine.Messages.{ReceivesMessage};
ghost use Rattle.git_client.specs.Machine.ReceiverStates.{HasReceived, Waits, received_first};
ghost use Rattle.git_client.specs.Machine.WriterStates.{HaveSameWriters};
ghost use Rattle.git_loop.specs.OneStreams.{HaveSameReader, reader_of, waiting_in};
ghost use Rattle.git_client.specs.Transcript.{lines_of};
ghost use Rattle.git_client.specs.Machine.Turns.{values_of};

use crate::client::Client;
use crate::events::{Event, ReceivedGot};
use crate::gathered::GatheredLines;
use crate::line::Lines;
use crate::outputs::Writers;
use crate::receiver::Receiver;
use crate::transcript::put_event;
use git_loop::{OneInput, run_streams};
use git_names::Steps;
use git_pkt::{Output, Recorded, RunFault, flush};
use std::alloc::Allocator;
use std::io::{Read, Write};

/// The number of bytes of the pack and of the progress in a response so far. A response begins with none.
#[derive(Clone, Copy, Debug)]
pub struct Counts {
    /// The bytes of the pack.
    pub pack: u64,
    /// The bytes of the progress.
    pub progress: u64,
}

/// Receives the expected message, the advertisement or a response, or the rest of it, until the client can ask. The lines of the transcript
/// are written to `out`, the bytes of the pack to `pack`, and those of the server's progress to `progress`; all three are flushed before
/// each read and at the end. The line at the end of a response counts only the bytes that this call received. Lines are gathered in `lines`, in
/// place of those that lie there. The bytes that were not used wait in the input.
///
/// The error is `Refused` with the first error in the received bytes; `ReadFault` if a read fails; `WriteFault` if a write or a flush
/// fails; and `ReadLimit` if the reader has made `turns` reads and needs one more. After `ReadFault` and `ReadLimit` the
/// client waits for the rest; after `WriteFault` it is spent, since it may have received more than was written.
pub(crate) fn receive_response<R: Read, O: Write, P: Output, E: Output, A: Allocator + Copy>(
    client: &mut Client<A>,
    input: &mut OneInput<'_, R>,
    lines: &mut GatheredLines,
    out: &mut Recorded<O>,
    pack: &mut P,
    progress: &mut E,
    turns: u64,
) -> Result<(), RunFault>
    requires waits { wants_input client.old ≡ true }
    requires sound_reader { has_failed (reader_of input.old) ≡ false }
    requires open_ended { has_ended (reader_of input.old) ≡ false }
    requires turns { reads_of (reader_of input.old) ≤ turns }
    requires sound_out { has_failed out.old ≡ false }
    requires sound_pack { P.failed pack.old ≡ false }
    requires sound_progress { E.failed progress.old ≡ false }

    ensures reads { reads_of (reader_of input.new) ≤ turns }
    ensures useful { has_wasted (reader_of input.new) ≡ has_wasted (reader_of input.old) }
    ensures arrived { ReceivesMessage result (has_ended (reader_of input.new)) client.old client.new (waiting_in input.old) (waiting_in input.new)
        (flow (R.remaining (inner_of (reader_of input.old))) (R.remaining (inner_of (reader_of input.new))))
        (flow (O.contents (inner_of out.old)) (O.contents (inner_of out.new)))
        (flow (P.contents pack.old) (P.contents pack.new)) (flow (E.contents progress.old) (E.contents progress.new)) }
    ensures goes_on { OnOk result (has_ended (reader_of input.new) ≡ false) }
    ensures fault { IfErr result (IsShownBy (IsTrue (has_failed (reader_of input.new)))
        (IsTrue (has_failed out.new || (P.failed pack.new || E.failed progress.new))) (IsSpent (reader_of input.new) turns)) }
    ensures announced { FailsAs result (has_failed (reader_of input.new)) (has_failed out.new || (P.failed pack.new || E.failed progress.new)) }
    ensures same_reader { HaveSameReader input.old input.new }
{
    let mut receiver = Receiver::new(client, lines);
    let mut writers = Writers {
        out,
        pack,
        progress,
        flushed: false,
    };
    run_receiver(input, &mut receiver, &mut writers, turns)
}

/// Runs the machine over its input and its outputs.
fn run_receiver<R: Read, O: Write, P: Output, E: Output, A: Allocator + Copy>(
    input: &mut OneInput<'_, R>,
    receiver: &mut Receiver<'_, '_, A>,
    writers: &mut Writers<'_, '_, '_, O, P, E>,
    turns: u64,
) -> Result<(), RunFault>
    requires begun { HasReceived (received_first receiver.old.client.now no_counts) receiver.old }
    requires waits { Waits receiver.old }
    requires sound_reader { has_failed (reader_of input.old) ≡ false }
    requires open_ended { has_ended (reader_of input.old) ≡ false }
    requires turns { reads_of (reader_of input.old) ≤ turns }
    requires sound_out { has_failed writers.old.out.now ≡ false }
    requires sound_pack { P.failed writers.old.pack.now ≡ false }
    requires sound_progress { E.failed writers.old.progress.now ≡ false }

    ensures reads { reads_of (reader_of input.new) ≤ turns }
    ensures useful { has_wasted (reader_of input.new) ≡ has_wasted (reader_of input.old) }
    ensures arrived { ReceivesMessage result (has_ended (reader_of input.new)) receiver.old.client.now receiver.new.client.now (waiting_in input.old)
        (waiting_in input.new) (flow (R.remaining (inner_of (reader_of input.old))) (R.remaining (inner_of (reader_of input.new))))
        (flow (O.contents (inner_of writers.old.out.now)) (O.contents (inner_of writers.new.out.now)))
        (flow (P.contents writers.old.pack.now) (P.contents writers.new.pack.now))
        (flow (E.contents writers.old.progress.now) (E.contents writers.new.progress.now)) }
    ensures goes_on { OnOk result (has_ended (reader_of input.new) ≡ false) }
    ensures fault { IfErr result (IsShownBy (IsTrue (has_failed (reader_of input.new)))
        (IsTrue (has_failed writers.new.out.now || (P.failed writers.new.pack.now || E.failed writers.new.progress.now)))
        (IsSpent (reader_of input.new) turns)) }
    ensures announced { FailsAs result (has_failed (reader_of input.new))
        (has_failed writers.new.out.now || (P.failed writers.new.pack.now || E.failed writers.new.progress.now)) }
    ensures same_reader { HaveSameReader input.old input.new }
    ensures same_client { receiver.new.client.ghost_name ≡ receiver.old.client.ghost_name }
    ensures same_writers { HaveSameWriters writers.old writers.new }
{
    let allowed = turns - input.reads();
    run_streams(receiver, input, writers, allowed)?;
    match receiver.fault() {
        Some(fault) => Err(RunFault::Refused(fault)),
        None => Ok(()),
    }
}

/// Receives the messages in a chunk, until the client can ask. The count starts at `counts`, the bytes of the response so far. Returns how
/// many bytes were used. Everything that was written before an error is flushed.
///
/// The error is `Refused` with the first error in the received bytes, or `WriteFault` if a write or a flush fails: then the client is
/// spent, since it may have received more than was written.
pub fn receive_chunk<O: Write, P: Output, E: Output, A: Allocator + Copy>(
    client: &mut Client<A>,
    counts: &mut Counts,
    chunk: &[u8],
    out: &mut Recorded<O>,
    pack: &mut P,
    progress: &mut E,
) -> Result<usize, RunFault>
    requires waits { wants_input client.old ≡ true }
    requires sound_out { has_failed out.old ≡ false }
    requires sound_pack { P.failed pack.old ≡ false }
    requires sound_progress { E.failed progress.old ≡ false }
    ensures arrived { ReceivesChunkTo result client.old client.new counts.old counts.new chunk.now
        (flow (O.contents (inner_of out.old)) (O.contents (inner_of out.new)))
        (flow (P.contents pack.old) (P.contents pack.new)) (flow (E.contents progress.old) (E.contents progress.new)) }
    ensures fault { IfErr result (IsShownBy ⊥ (IsTrue (has_failed out.new || (P.failed pack.new || E.failed progress.new))) ⊥) }
    ensures announced { FailsAs result false (has_failed out.new || (P.failed pack.new || E.failed progress.new)) }
{
    let mut lines = Lines::new();
    let mut used = 0;
    let mut steps = Steps::new();
    while used < chunk.len() && client.wants_input() {
        let arrived = client.feed(&chunk[used..], &mut steps);
        match arrived.got {
            ReceivedGot::More => {
                lines.drain(out)?;
                return Ok(chunk.len());
            }
            ReceivedGot::Failed(fault) => {
                lines.drain(out)?;
                flush_all(out, pack, progress)?;
                return Err(RunFault::Refused(fault));
            }
            ReceivedGot::Event(event) => announce(&event, counts, &mut lines, out, pack, progress)?,
        }
        used += arrived.used;
    }
    lines.drain(out)?;
    Ok(used)
}

/// Writes an event: its bytes of the pack and of the progress, and its line, which shows the counts so far and may wait
/// with the lines before it. Counts the bytes of the event.
fn announce<O: Write, P: Output, E: Output>(
    event: &Event<'_>,
    counts: &mut Counts,
    lines: &mut Lines,
    out: &mut Recorded<O>,
    pack: &mut P,
    progress: &mut E,
) -> Result<(), RunFault>
    ensures announced { PutAs (is_broken result) (flow (O.contents (inner_of out.old)) (O.contents (inner_of out.new))) lines.old
        (lines_of (values_of event.now) counts.old.pack counts.old.progress) lines.new }
    ensures sent { WrittenAs (is_broken result) (flow (P.contents pack.old) (P.contents pack.new))
        (pack_bytes (values_of event.now)) }
    ensures reported { WrittenAs (is_broken result) (flow (E.contents progress.old) (E.contents progress.new))
        (progress_bytes (values_of event.now)) }
    ensures counts { CanCount counts.old (values_of event.now) → counts.new ≡ counts_with counts.old (values_of event.now) }
    ensures fault { IfErr result (λ fault. fault ≡ RunFault.WriteFault) }
    ensures failed { (has_failed out.new || (P.failed pack.new || E.failed progress.new))
        ≡ ((has_failed out.old || (P.failed pack.old || E.failed progress.old)) || is_err result) }
{
    // Both are read in every case: a number behind a reference is known to fit its type once it was read.
    let Counts {
        pack: packed,
        progress: announced,
    } = *counts;
    match event {
        Event::Pack(bytes) => {
            counts.pack = packed.saturating_add(bytes.len() as u64);
            send_after(lines, out, pack, bytes)
        }
        Event::Progress(bytes) => {
            counts.progress = announced.saturating_add(bytes.len() as u64);
            send_after(lines, out, progress, bytes)
        }
        event => put_event(lines, out, event, packed, announced),
    }
}

/// Sends bytes to another stream, after all lines that wait: none of these lines is lost if the bytes cannot be written.
fn send_after<O: Write, P: Output>(
    waiting: &mut Lines,
    out: &mut Recorded<O>,
    to: &mut P,
    bytes: &[u8],
) -> Result<(), RunFault>
    ensures announced { PutAs (is_broken result) (flow (O.contents (inner_of out.old)) (O.contents (inner_of out.new))) waiting.old [] waiting.new }
    ensures first { has_failed out.new ≡ false → Appends (O.contents (inner_of out.old)) (O.contents (inner_of out.new)) waiting.old }
    ensures sent { WrittenAs (is_broken result) (flow (P.contents to.old) (P.contents to.new)) bytes.now }
    ensures fault { IfErr result (λ fault. fault ≡ RunFault.WriteFault) }
    ensures failed { (has_failed out.new || P.failed to.new) ≡ ((has_failed out.old || P.failed to.old) || is_err result) }
{
    waiting.drain(out)?;
    to.send(bytes)
}

/// Flushes the three writers, up to the first that fails. The progress is first, so that the line at the end of a response is seen after it.
fn flush_all<O: Write, P: Output, E: Output>(
    out: &mut Recorded<O>,
    pack: &mut P,
    progress: &mut E,
) -> Result<(), RunFault>
    ensures announced { WrittenAs false (flow (O.contents (inner_of out.old)) (O.contents (inner_of out.new))) [] }
    ensures sent { WrittenAs false (flow (P.contents pack.old) (P.contents pack.new)) [] }
    ensures reported { WrittenAs false (flow (E.contents progress.old) (E.contents progress.new)) [] }
    ensures fault { IfErr result (λ fault. fault ≡ RunFault.WriteFault) }
    ensures failed { (has_failed out.new || (P.failed pack.new || E.failed progress.new))
        ≡ ((has_failed out.old || (P.failed pack.old || E.failed progress.old)) || is_err result) }
{
    progress.flush()?;
    flush(out)?;
    pack.flush()
}
