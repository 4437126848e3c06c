//! What is shown of a stream with options, and what is counted.

ghost use Rattle.std.specs.Prelude.{◌≡◌, ◌≤◌, ◌+◌, ◌++◌, ◌&&◌, None, decimal, length, take};
ghost use Rattle.git_pkt.specs.Machine.Sends.{Sends};
ghost use Rattle.git_pkt.specs.Packets.{seen};
ghost use Rattle.git2show_lib.specs.PacketViews.{begins_request, counted, goes_on, is_asked, is_command, is_flush, is_pack, leaves_out, marked_line};
ghost use Rattle.git2show_lib.specs.PacketViews.{pack_in, request_after, request_at, requests_in, stray_after, summary_of};
ghost use Rattle.git2show_lib.specs.PrettyLines.{label_of};

use crate::pretty::{LINE, Label, Look, body, write_pretty};
use git_pkt::{Packet, Recorded, RunFault, put_at, send, text};
use itoa::Buffer;
use std::io::Write;

/// Space for the line below all others.
const SUMMARY: usize = 160;

/// How packets are shown.
#[derive(Clone, Copy, Debug, PartialEq, Eq)]
pub struct View<'a> {
    /// What the line of a packet is.
    pub form: Form,
    /// Packets before this offset are left out.
    pub from: u64,
    /// Whether packets with bytes of a pack are left out.
    pub no_pack: bool,
    /// The command whose requests alone are shown, as `fetch`. Only a client's stream has requests.
    pub only: Option<&'a [u8]>,
}

/// What the line of a packet is.
#[derive(Clone, Copy, Debug, PartialEq, Eq)]
pub enum Form {
    /// That of [`show`](crate::show).
    Lines,
    /// A line of columns, which names what the packet is.
    Columns(Look),
    /// A JSON object.
    Json,
}

/// What was counted of the packets so far. A count that would be larger than a `u64` stays at the largest.
#[derive(Clone, Copy, Debug, PartialEq, Eq)]
pub struct Tally {
    /// The offset after the last packet.
    pub bytes: u64,
    /// How many packets there were.
    pub packets: u64,
    /// How many of them were the line of a command, one for each request.
    pub requests: u64,
    /// How many bytes of packs there were.
    pub pack: u64,
    /// Whether the packfile section goes on.
    pub in_pack: bool,
    /// Where the stream stands, if the requests with one command are looked for.
    pub request: RequestState,
    /// The offset of the first packet that stands at the beginning of a request and begins none, if requests are looked for. A client sends none.
    pub stray: Option<u64>,
}

/// Where a client's stream stands.
#[derive(Clone, Copy, Debug, PartialEq, Eq)]
pub enum RequestState {
    /// Between two requests: the next packet begins one.
    Between,
    /// In a request with the command that is looked for.
    Wanted,
    /// In any other request.
    Unwanted,
}

impl Tally {
    /// Nothing was counted yet.
    pub const START: Self = Tally {
        bytes: 0,
        packets: 0,
        requests: 0,
        pack: 0,
        in_pack: false,
        request: RequestState::Between,
        stray: None,
    };

    /// With one packet more.
    pub(crate) fn count(self, only: Option<&[u8]>, packet: Packet<'_>, offset: u64) -> Self
        ensures { result ≡ counted only.entry self (record { packet = seen packet.entry; offset = offset }) }
    {
        let label = Label::of(self.in_pack, packet);
        let body = body(packet);
        Tally {
            bytes: offset.saturating_add(body.len() as u64 + 4),
            packets: self.packets.saturating_add(1),
            requests: self.requests.saturating_add(requests_in(label)),
            pack: self.pack.saturating_add(pack_in(label, body)),
            in_pack: goes_on(self.in_pack, packet),
            request: self.request.after(only, packet),
            stray: self.stray_after(only, packet, offset),
        }
    }

    /// The first packet that begins no request, with one packet more.
    fn stray_after(self, only: Option<&[u8]>, packet: Packet<'_>, offset: u64) -> Option<u64>
        ensures { result ≡ stray_after only.entry self.stray self.request (record { packet = seen packet.entry; offset = offset }) }
    {
        match (self.stray, only, self.request) {
            (None, Some(_), RequestState::Between) if !begins_request(packet) => Some(offset),
            _ => self.stray,
        }
    }
}

impl RequestState {
    /// Where the stream stands with a packet.
    fn at(self, only: Option<&[u8]>, packet: Packet<'_>) -> Self
        ensures { result ≡ request_at only.entry self (seen packet.entry) }
    {
        match (only, self) {
            (Some(command), RequestState::Between) if is_command(command, packet) =>
                RequestState::Wanted,
            (Some(_), RequestState::Between) => RequestState::Unwanted,
            _ => self,
        }
    }

    /// Where the stream stands after a packet.
    fn after(self, only: Option<&[u8]>, packet: Packet<'_>) -> Self
        ensures { result ≡ request_after only.entry self (seen packet.entry) }
    {
        match is_flush(packet) {
            true => RequestState::Between,
            false => self.at(only, packet),
        }
    }

    /// Whether a packet is one of those that are looked for.
    fn asks(self, only: Option<&[u8]>, packet: Packet<'_>) -> bool
        ensures { result ≡ is_asked only.entry self (seen packet.entry) }
    {
        only.is_none() || self.at(only, packet) == RequestState::Wanted
    }
}

fn is_flush(packet: Packet<'_>) -> bool
    ensures { result ≡ is_flush (seen packet.entry) }
{
    match packet {
        Packet::Flush => true,
        Packet::Delim | Packet::RespEnd | Packet::Payload(_) => false,
    }
}

/// Whether a packet is the line of a request that names this command.
fn is_command(command: &[u8], packet: Packet<'_>) -> bool
    ensures { result ≡ is_command command.now (seen packet.entry) }
{
    match packet {
        Packet::Payload(payload) => match text(payload).strip_prefix(b"command=") {
            Some(word) => word == command,
            None => false,
        },
        Packet::Flush | Packet::Delim | Packet::RespEnd => false,
    }
}

/// Whether a request begins with a packet.
fn begins_request(packet: Packet<'_>) -> bool
    ensures { result ≡ begins_request (seen packet.entry) }
{
    match packet {
        Packet::Payload(payload) => text(payload).starts_with(b"command="),
        Packet::Flush => true,
        Packet::Delim | Packet::RespEnd => false,
    }
}

/// How many requests begin with a packet.
fn requests_in(label: Label) -> u64
    ensures { result ≡ requests_in label }
{
    match label {
        Label::Command => 1,
        _ => 0,
    }
}

/// How many bytes of a pack a payload has.
fn pack_in(label: Label, payload: &[u8]) -> u64
    ensures { result ≡ pack_in label payload.now }
{
    match label {
        Label::Pack => payload.len().saturating_sub(1) as u64,
        _ => 0,
    }
}

/// Whether the packfile section goes on after a packet.
fn goes_on(in_pack: bool, packet: Packet<'_>) -> bool
    ensures { result ≡ goes_on in_pack (seen packet.entry) }
{
    match packet {
        Packet::Payload(payload) => in_pack || text(payload) == b"packfile".as_slice(),
        Packet::Flush | Packet::Delim | Packet::RespEnd => false,
    }
}

impl View<'_> {
    /// Whether a packet is left out, after those that were counted.
    pub(crate) fn leaves_out(self, before: Tally, packet: Packet<'_>, offset: u64) -> bool
        ensures { result ≡ leaves_out self.entry before (record { packet = seen packet.entry; offset = offset }) }
    {
        offset < self.from
            || (self.no_pack && Label::of(before.in_pack, packet) == Label::Pack)
            || !before.request.asks(self.only, packet)
    }
}

/// Writes the line of columns of a packet, after those that were counted, behind a mark, and counts the packet. With `no_pack` a packet with
/// bytes of a pack is counted alone. So the packets of several streams, each with a mark and a count of its own, can be shown in one text.
pub fn show_packet<W: Write>(
    writer: &mut Recorded<W>,
    look: Look,
    no_pack: bool,
    mark: &[u8],
    tally: &mut Tally,
    packet: Packet<'_>,
    offset: u64,
) -> Result<(), RunFault>
    ensures shown { Sends W.contents writer.old
        (marked_line look no_pack mark.now tally.old (record { packet = seen packet.entry; offset = offset })) result writer.new }
    ensures tally { tally.new ≡ counted None tally.old (record { packet = seen packet.entry; offset = offset }) }
{
    let in_pack = tally.in_pack;
    *tally = tally.count(None, packet, offset);
    if is_left_out(no_pack, in_pack, packet) {
        return Ok(());
    }
    let mut line = [0; LINE];
    let end = write_pretty(look, in_pack, packet, offset, &mut line);
    send_marked(writer, mark, &line[..end])
}

/// Whether a packet has bytes of a pack, and these are left out.
fn is_left_out(no_pack: bool, in_pack: bool, packet: Packet<'_>) -> bool
    ensures { result ≡ (no_pack && is_pack (label_of in_pack (seen packet.entry))) }
{
    no_pack && Label::of(in_pack, packet) == Label::Pack
}

/// Writes a line behind a mark.
fn send_marked<W: Write>(writer: &mut Recorded<W>, mark: &[u8], line: &[u8]) -> Result<(), RunFault>
    ensures { Sends W.contents writer.old (mark.now ++ line.now) result writer.new }
{
    send(writer, mark)?;
    send(writer, line)
}

/// Writes a line with what was counted.
pub fn summarize<W: Write>(tally: Tally, writer: &mut Recorded<W>) -> Result<(), RunFault>
    ensures { Sends W.contents writer.old (summary_of tally) result writer.new }
{
    let mut line = [0; SUMMARY];
    let end = write_summary(tally, &mut line);
    send(writer, &line[..end])
}

fn write_summary(tally: Tally, out: &mut [u8]) -> usize
    requires { SUMMARY ≤ length out.old }
    ensures within { result ≤ SUMMARY }
    ensures summary { take result out.new ≡ summary_of tally }
{
    let at = put_count(tally.bytes, b" bytes, ", out, 0);
    let at = put_count(tally.packets, b" packets, ", out, at);
    let at = put_count(tally.requests, b" requests, ", out, at);
    put_count(tally.pack, b" bytes of packs\n", out, at)
}

/// Writes a number and what it counts.
fn put_count(count: u64, what: &[u8], out: &mut [u8], at: usize) -> usize
    requires short { length what.now ≤ 20 }
    requires space { at + 40 ≤ length out.old }
    ensures within { result ≤ at + 40 }
    ensures put { take result out.new ≡ take at out.old ++ decimal count ++ what.now }
{
    let mut digits = Buffer::new();
    let at = put_at(out, at, digits.format(count).as_bytes());
    put_at(out, at, what)
}
