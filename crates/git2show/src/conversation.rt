//! Both streams of a recorded conversation in the order of what was sent, in columns.

ghost use Rattle.std.specs.Prelude.{◌≡◌, ◌≤◌, IfOk, false, length};
ghost use Rattle.git_pkt.specs.Machine.PacketReader.{passes_of};

use git_client::Ending;
use git_names::Steps;
use git_pkt::{Got, Packet, PacketReader, Recorded, RunFault};
use git2show_lib::{Look, Tally, show_packet, summarize};
use std::io::{BufRead, Write};

/// How the packets of a conversation are shown.
#[derive(Clone, Copy, Debug)]
pub(crate) struct Columns {
    /// What a line looks like after the mark of its direction.
    pub(crate) look: Look,
    /// Whether packets with bytes of a pack are left out.
    pub(crate) no_pack: bool,
}

/// One of the two streams. It is read packet by packet.
#[derive(Drop)]
pub(crate) struct Half<R> {
    input: R,
    packets: PacketReader,
    tally: Tally,
    /// The mark of its direction, with which its lines begin.
    mark: &'static [u8],
    /// The offset at which it is refused, if it is refused: nothing is shown after the packet at that offset.
    refused: Option<u64>,
}

/// What was shown of a stream.
#[derive(Clone, Copy, Debug, PartialEq, Eq)]
enum Shown {
    /// A flush packet.
    Flush,
    /// A response-end packet.
    End,
    /// Any other packet.
    Packet,
    /// The last packet that is to be shown.
    Last,
    /// Nothing: the stream ends here, or bytes follow that are no packet.
    Nothing,
}

/// How far a message was shown.
#[derive(Clone, Copy, Debug, PartialEq, Eq)]
enum Reached {
    /// To its end, which is not its only packet.
    End,
    /// To its end, which is its only packet.
    EndAlone,
    /// There is no message: the stream ended before it.
    Nothing,
    /// To the last packet that is to be shown, or to the end of a stream that ends in the message.
    Stop,
}

impl<R: BufRead> Half<R> {
    /// What a client sent, and the offset at which that is refused, if it is.
    pub(crate) fn of_client(input: R, refused: Option<u64>) -> Half<R>
        ensures gathers { passes_of result.packets ≡ false }
    {
        Half::new(input, b"> ", refused)
    }

    /// What a server sent, and the offset at which that is refused, if it is.
    pub(crate) fn of_server(input: R, refused: Option<u64>) -> Half<R>
        ensures gathers { passes_of result.packets ≡ false }
    {
        Half::new(input, b"< ", refused)
    }

    fn new(input: R, mark: &'static [u8], refused: Option<u64>) -> Half<R>
        ensures gathers { passes_of result.packets ≡ false }
    {
        Half {
            input,
            packets: PacketReader::new(),
            tally: Tally::START,
            mark,
            refused,
        }
    }

    /// Shows the next packet.
    fn show_next<W: Write>(
        &mut self,
        columns: Columns,
        writer: &mut Recorded<W>,
    ) -> Result<Shown, RunFault>
        requires gathers { passes_of self.old.packets ≡ false }
        ensures gathers { passes_of self.new.packets ≡ false }
    {
        for _ in 0..u64::MAX {
            let chunk = self.input.fill_buf().map_err(|_| RunFault::ReadFault)?;
            if chunk.is_empty() {
                return Ok(Shown::Nothing);
            }
            let step = show_first(
                columns,
                self.mark,
                self.refused,
                &mut self.packets,
                chunk,
                &mut self.tally,
                writer,
            )?;
            self.input.consume(step.used);
            if let Some(shown) = step.shown {
                return Ok(shown);
            }
        }
        Err(RunFault::ReadLimit)
    }

    /// Shows a message, up to the packet that ends it.
    fn show_message<W: Write>(
        &mut self,
        end: Shown,
        columns: Columns,
        writer: &mut Recorded<W>,
    ) -> Result<Reached, RunFault>
        requires gathers { passes_of self.old.packets ≡ false }
        ensures gathers { passes_of self.new.packets ≡ false }
    {
        let mut is_first = true;
        for _ in 0..u64::MAX {
            let shown = self.show_next(columns, writer)?;
            if let Some(reached) = reached_by(shown, end, is_first) {
                return Ok(reached);
            }
            is_first = false;
        }
        Err(RunFault::ReadLimit)
    }

    /// Shows what is left of the stream.
    fn show_rest<W: Write>(
        &mut self,
        columns: Columns,
        writer: &mut Recorded<W>,
    ) -> Result<(), RunFault>
        requires gathers { passes_of self.old.packets ≡ false }
        ensures gathers { passes_of self.new.packets ≡ false }
    {
        for _ in 0..u64::MAX {
            match self.show_next(columns, writer)? {
                Shown::Last | Shown::Nothing => return Ok(()),
                Shown::Flush | Shown::End | Shown::Packet => {}
            }
        }
        Err(RunFault::ReadLimit)
    }
}

/// How many bytes of a chunk were used, and what was shown of them.
#[derive(Clone, Copy, Debug)]
struct Step {
    used: usize,
    /// What was shown, if a packet was whole or the stream is refused.
    shown: Option<Shown>,
}

/// Shows the packet that the first bytes of a chunk complete.
fn show_first<W: Write>(
    columns: Columns,
    mark: &[u8],
    refused: Option<u64>,
    packets: &mut PacketReader,
    chunk: &[u8],
    tally: &mut Tally,
    writer: &mut Recorded<W>,
) -> Result<Step, RunFault>
    requires gathers { passes_of packets.old ≡ false }
    ensures gathers { passes_of packets.new ≡ false }
    ensures used { IfOk result (λ step. step.used ≤ length chunk.now) }
{
    let fed = packets.feed(chunk, &mut Steps::new());
    let used = fed.used;
    let shown = match fed.got {
        Got::More => None,
        Got::Failed(_) => Some(Shown::Nothing),
        Got::Packet(packet, offset) => {
            show_packet(
                writer,
                columns.look,
                columns.no_pack,
                mark,
                tally,
                packet,
                offset,
            )?;
            Some(shown_of(packet, is_at_end(offset, refused)))
        }
    };
    Ok(Step { used, shown })
}

/// Whether the packet at this offset is the last that is shown: the stream is refused at this offset, or before it.
fn is_at_end(offset: u64, refused: Option<u64>) -> bool {
    match refused {
        Some(end) => offset >= end,
        None => false,
    }
}

/// What a packet that was shown is.
fn shown_of(packet: Packet<'_>, is_last: bool) -> Shown {
    if is_last {
        return Shown::Last;
    }
    match packet {
        Packet::Flush => Shown::Flush,
        Packet::RespEnd => Shown::End,
        Packet::Delim | Packet::Payload(_) => Shown::Packet,
    }
}

/// How far a message that has this end was shown, if it does not go on.
fn reached_by(shown: Shown, end: Shown, is_first: bool) -> Option<Reached> {
    if shown == end {
        return Some(match is_first {
            true => Reached::EndAlone,
            false => Reached::End,
        });
    }
    match shown {
        Shown::Nothing if is_first => Some(Reached::Nothing),
        Shown::Nothing | Shown::Last => Some(Reached::Stop),
        Shown::Flush | Shown::End | Shown::Packet => None,
    }
}

/// Shows a conversation, and below it what was counted of both streams: the advertisement, and after each request the response to it, up to
/// the packet that is refused. What belongs to no request is shown after all others.
pub(crate) fn show_conversation<Q: BufRead, R: BufRead, W: Write>(
    requests: &mut Half<Q>,
    responses: &mut Half<R>,
    ending: Ending,
    columns: Columns,
    writer: &mut Recorded<W>,
) -> Result<(), RunFault>
    requires requests { passes_of requests.old.packets ≡ false }
    requires responses { passes_of responses.old.packets ≡ false }
{
    let are_whole = show_messages(requests, responses, ending, columns, writer)?;
    if are_whole && requests.refused.is_none() {
        requests.show_rest(columns, writer)?;
        responses.show_rest(columns, writer)?;
    }
    let total = sum_of(requests.tally, responses.tally);
    summarize(total, writer)
}

/// Shows the advertisement, the requests and the responses to them. Returns whether all of them were whole, so that what is left belongs to
/// none.
fn show_messages<Q: BufRead, R: BufRead, W: Write>(
    requests: &mut Half<Q>,
    responses: &mut Half<R>,
    ending: Ending,
    columns: Columns,
    writer: &mut Recorded<W>,
) -> Result<bool, RunFault>
    requires requests { passes_of requests.old.packets ≡ false }
    requires responses { passes_of responses.old.packets ≡ false }
    ensures requests { passes_of requests.new.packets ≡ false }
    ensures responses { passes_of responses.new.packets ≡ false }
{
    let end = match ending {
        Ending::FlushOnly => Shown::Flush,
        Ending::ResponseEnd => Shown::End,
    };
    let mut last_end = Shown::Flush;
    for _ in 0..u64::MAX {
        match responses.show_message(last_end, columns, writer)? {
            Reached::End | Reached::EndAlone => {}
            Reached::Nothing | Reached::Stop => return Ok(false),
        }
        match requests.show_message(Shown::Flush, columns, writer)? {
            Reached::End => {}
            Reached::EndAlone | Reached::Nothing => return Ok(true),
            Reached::Stop => return Ok(false),
        }
        last_end = end;
    }
    Err(RunFault::ReadLimit)
}

/// What was counted of both streams: the requests of the client, and the packs of the server.
fn sum_of(requests: Tally, responses: Tally) -> Tally {
    Tally {
        bytes: requests.bytes.saturating_add(responses.bytes),
        packets: requests.packets.saturating_add(responses.packets),
        requests: requests.requests,
        pack: responses.pack,
        ..Tally::START
    }
}
