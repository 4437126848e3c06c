//! A client run over a reader and a writer.

ghost use Rattle.std.specs.Prelude.{◌≡◌, ◌≤◌, ◌<◌, ◌||◌, ◌∷◌, [], length, None, true, false, IsTrue, IfErr, MatchResult, is_err};
ghost use Rattle.git_pkt.specs.Machine.Recorded.{inner_of, reads_of, has_failed, has_ended, has_wasted, IsNew};
ghost use Rattle.git_pkt.specs.Machine.Engine.{FailsAs, IsShownBy, IsSpent};
ghost use Rattle.git_pkt.specs.Streams.{flow, is_broken, Moves};
ghost use Rattle.git_loop.specs.OneStreams.{HaveSameReader, reader_of, waiting_in};
ghost use Rattle.git_client.specs.Parts.{Terms};
ghost use Rattle.git_client.specs.Machine.Client.{Converses, nothing_yet, can_ask, wants_input, fault_of};
ghost use Rattle.git_client.specs.Machine.Gathered.{dropped};
ghost use Rattle.git_client.specs.Machine.RunSteps.{AsksNext, AsksNot, AsksTo, SendsPackets};
ghost use Rattle.git_client.specs.Machine.Runs.{Conversed, IsHandedBack};

use crate::client::Client;
use crate::events::{Ending, Sent};
use crate::gathered::GatheredLines;
use crate::receiving::receive_response;
use crate::transcript::write_asked;
use git_loop::OneInput;
use git_msg::Request;
use git_pkt::{Discard, Fault, Output, Recorded, RunFault, flush};
use std::alloc::Allocator;
use std::io::{Read, Write};

/// Runs a new client over a reader of the server's bytes and a writer to the server: it receives the advertisement, sends the
/// requests in their order, receives the response to each, and leaves after the last, unless each request has a connection of its
/// own. The transcript is written to `out`, the bytes of packs, in order, to `pack`, and the server's progress, which comes on the
/// second side band, unchanged to `progress`. The bytes that are read go to the `chunk`, which must not be empty.
///
/// The writer is flushed before each read and at the end, and so are `out`, `pack` and `progress`.
///
/// The error is `Refused` with the first error in the server's bytes, or with the error of [`Client::ask`] for a request, after the
/// responses to the earlier ones; `ReadFault` if a read fails; `WriteFault` if a write or a flush fails; and
/// `ReadLimit` if another read would exceed the number `turns` of reads that are allowed. After `WriteFault` the client is spent, since it
/// may have received or returned more than was written.
pub fn converse<R: Read, W: Write, O: Write, P: Write, E: Output, A: Allocator + Copy>(
    reader: &mut Recorded<R>,
    writer: &mut Recorded<W>,
    chunk: &mut [u8],
    client: &mut Client<A>,
    requests: Vec<Request<A>>,
    out: &mut Recorded<O>,
    pack: &mut Recorded<P>,
    progress: &mut E,
    turns: u64,
) -> Result<(), RunFault>
    requires space { 0 < length chunk.old }
    requires new_reader { IsNew reader.old }
    requires waits { wants_input client.old ≡ true }
    requires sound_writer { has_failed writer.old ≡ false }
    requires sound_out { has_failed out.old ≡ false }
    requires sound_pack { has_failed pack.old ≡ false }
    requires sound_progress { E.failed progress.old ≡ false }

    ensures reads { reads_of reader.new ≤ turns }
    ensures useful { has_wasted reader.new ≡ false }
    ensures conversed { (t : Terms) → Converses t nothing_yet client.old
        → Moves (is_broken result) (Conversed t requests.items result (has_ended reader.new) client.new)
        (flow (R.remaining (inner_of reader.old)) (R.remaining (inner_of reader.new)) ∷ [])
        (flow (W.contents (inner_of writer.old)) (W.contents (inner_of writer.new))
        ∷ flow (O.contents (inner_of out.old)) (O.contents (inner_of out.new))
        ∷ flow (P.contents (inner_of pack.old)) (P.contents (inner_of pack.new))
        ∷ flow (E.contents progress.old) (E.contents progress.new) ∷ []) }
    ensures fault { IfErr result (IsShownBy (IsTrue (has_failed reader.new))
        (IsTrue (has_failed writer.new || (has_failed out.new || (has_failed pack.new || E.failed progress.new)))) (IsSpent reader.new turns)) }
    ensures announced { FailsAs result (has_failed reader.new)
        (has_failed writer.new || (has_failed out.new || (has_failed pack.new || E.failed progress.new))) }
    ensures handed_back { IsHandedBack result client.new }
{
    let mut input = OneInput::new(reader, chunk);
    converse_over(
        &mut input, writer, client, requests, out, pack, progress, turns,
    )
}

/// Runs a client as [`converse`] does, over an input with no bytes waiting.
fn converse_over<R: Read, W: Write, O: Write, P: Write, E: Output, A: Allocator + Copy>(
    input: &mut OneInput<'_, R>,
    writer: &mut Recorded<W>,
    client: &mut Client<A>,
    requests: Vec<Request<A>>,
    out: &mut Recorded<O>,
    pack: &mut Recorded<P>,
    progress: &mut E,
    turns: u64,
) -> Result<(), RunFault>
    requires empty { waiting_in input.old ≡ [] }
    requires new_reader { IsNew (reader_of input.old) }
    requires waits { wants_input client.old ≡ true }
    requires sound_writer { has_failed writer.old ≡ false }
    requires sound_out { has_failed out.old ≡ false }
    requires sound_pack { has_failed pack.old ≡ false }
    requires sound_progress { E.failed progress.old ≡ false }

    ensures reads { reads_of (reader_of input.new) ≤ turns }
    ensures useful { has_wasted (reader_of input.new) ≡ false }
    ensures conversed { (t : Terms) → Converses t nothing_yet client.old
        → Moves (is_broken result) (Conversed t requests.items result (has_ended (reader_of input.new)) client.new)
        (flow (R.remaining (inner_of (reader_of input.old))) (R.remaining (inner_of (reader_of input.new))) ∷ [])
        (flow (W.contents (inner_of writer.old)) (W.contents (inner_of writer.new))
        ∷ flow (O.contents (inner_of out.old)) (O.contents (inner_of out.new))
        ∷ flow (P.contents (inner_of pack.old)) (P.contents (inner_of pack.new))
        ∷ flow (E.contents progress.old) (E.contents progress.new) ∷ []) }
    ensures fault { IfErr result (IsShownBy (IsTrue (has_failed (reader_of input.new)))
        (IsTrue (has_failed writer.new || (has_failed out.new || (has_failed pack.new || E.failed progress.new))))
        (IsSpent (reader_of input.new) turns)) }
    ensures announced { FailsAs result (has_failed (reader_of input.new))
        (has_failed writer.new || (has_failed out.new || (has_failed pack.new || E.failed progress.new))) }
    ensures handed_back { IsHandedBack result client.new }
    ensures same_reader { HaveSameReader input.old input.new }
{
    flush(writer)?;
    let mut lines = GatheredLines::new();
    receive_response(client, input, &mut lines, out, pack, progress, turns)?;
    for request in requests {
        ask_next(client, request, writer, out)?;
        receive_response(client, input, &mut lines, out, pack, progress, turns)?;
    }
    if client.ending == Ending::FlushOnly {
        client.leave();
        send_all(client, writer)?;
    }
    flush(writer)
}

/// Asks a request: sends its packets to `writer`, flushes them, and writes the transcript line of the request to `out`. A request that is
/// refused is not sent, and has no line.
///
/// The error is `Refused` with the error of [`Client::ask`], or `WriteFault` if a write or a flush fails.
pub fn ask_next<W: Output, O: Write, A: Allocator + Copy>(
    client: &mut Client<A>,
    request: Request<A>,
    writer: &mut W,
    out: &mut Recorded<O>,
) -> Result<(), RunFault>
    requires ready { can_ask client.old ≡ true }
    requires sound_writer { W.failed writer.old ≡ false }
    requires sound_out { has_failed out.old ≡ false }
    ensures asked { AsksTo result client.old client.new request
        (flow (W.contents writer.old) (W.contents writer.new))
        (flow (O.contents (inner_of out.old)) (O.contents (inner_of out.new))) }
    ensures fault { IfErr result (IsShownBy ⊥ (IsTrue (W.failed writer.new || has_failed out.new)) ⊥) }
    ensures announced { FailsAs result false (W.failed writer.new || has_failed out.new) }
{
    let command = request.command();
    if let Err((_, fault)) = client.ask(request) {
        return Err(RunFault::Refused(fault));
    }
    write_asked(out, command)?;
    send_all(client, writer)
}

/// Asks a request whose packets nobody needs: the client receives the response next.
///
/// The error is that of [`Client::ask`].
pub fn ask_unsent<A: Allocator + Copy>(
    client: &mut Client<A>,
    request: Request<A>,
) -> Result<(), Fault>
    requires { can_ask client.old ≡ true }
    ensures { MatchResult result (λ _. AsksNext false client.old client.new request dropped dropped × (wants_input client.new ≡ true))
        (λ fault. AsksNot fault client.old client.new request dropped dropped) }
{
    if let Err((_, refusal)) = client.ask(request) {
        return Err(refusal);
    }
    match send_all(client, &mut Discard) {
        Ok(()) => Ok(()),
        Err(_) => unreachable!(),
    }
}

/// Sends all packets that the client has to send.
fn send_all<W: Output, A: Allocator + Copy>(
    client: &mut Client<A>,
    writer: &mut W,
) -> Result<(), RunFault>
    requires speaks { can_ask client.old ≡ false }
    requires sound { fault_of client.old ≡ None }
    ensures conveys { SendsPackets (is_broken result) client.old client.new (flow (W.contents writer.old) (W.contents writer.new)) }
    ensures fault { IfErr result (λ fault. fault ≡ RunFault.WriteFault) }
    ensures failed { W.failed writer.new ≡ (W.failed writer.old || is_err result) }
{
    while let Sent::Packet(packet) = client.pull() {
        writer.send(packet)?;
    }
    writer.flush()
}
