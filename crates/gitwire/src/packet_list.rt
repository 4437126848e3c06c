//! Several packets of a chunk by one call of C.

ghost use Rattle.std.specs.Prelude.{◌+◌, ◌≤◌, ◌<◌, MatchResult, length};
ghost use Rattle.git_pkt.specs.Packets.{longest_payload};
ghost use Rattle.gitwire.specs.Calls.{On};
ghost use Rattle.gitwire.specs.Handles.{packet_reader_in};
ghost use Rattle.gitwire.specs.PacketLists.{EndsHere, GivesPacket, ListsInBuffer, ListsNothing, ListsPackets};
ghost use Rattle.gitwire.specs.PacketsInPlace.{GivesListed, GivesNoneListed};

use crate::answer::{GitwireAnswer, What};
use crate::gatherer::Gatherer;
use crate::handles::{GitwirePacketReader, Holds, on};
use crate::packets::LONGEST_PAYLOAD;
use git_names::Steps;
use git_pkt::{Got, Packet};
use std::alloc::Global;

/// Fills the array with the packets of the chunk: those that `gitwire_packet_reader_feed` would give, call after call, but for `used`, which is
/// how many bytes of the chunk are used up to the packet's end. Their payloads stay in the chunk, as the last of these bytes; a payload that has more
/// bytes than these, which only the first packet can have, is written to the front of the buffer. `length` is how many packets are in the array,
/// and `used` how many bytes were used. `More`: the chunk is used up, or the array is full; `Failed`; `NoRequest`; and `BufferTooSmall` if
/// the array has no place, or the buffer has fewer than 65,516 bytes.
#[unsafe(no_mangle)]
pub extern "C" fn gitwire_packet_reader_packets(
    alloc: Global,
    reader: &mut GitwirePacketReader,
    chunk: &[u8],
    packets: &mut [GitwireAnswer],
    buffer: &mut [u8],
) -> GitwireAnswer
    ensures { On (packet_reader_in reader.old) (packet_reader_in reader.new)
        (λ old new. ListsInBuffer old chunk.now packets.old buffer.old result packets.new buffer.new new)
        (ListsNothing packets.old buffer.old result packets.new buffer.new) }
{
    on!(reader, alloc; list_packets(reader, chunk, packets, buffer))
}

fn list_packets(
    gatherer: &mut Gatherer,
    chunk: &[u8],
    packets: &mut [GitwireAnswer],
    buffer: &mut [u8],
) -> GitwireAnswer
    ensures { ListsInBuffer gatherer.old.reader chunk.now packets.old buffer.old result packets.new buffer.new gatherer.new.reader }
{
    if packets.is_empty() || buffer.len() < LONGEST_PAYLOAD {
        return GitwireAnswer::of(What::BufferTooSmall);
    }
    fill_packets(gatherer, chunk, packets, buffer)
}

/// Calls `feed` until it gives no packet, or the array is full.
fn fill_packets(
    gatherer: &mut Gatherer,
    chunk: &[u8],
    packets: &mut [GitwireAnswer],
    buffer: &mut [u8],
) -> GitwireAnswer
    requires place { 0 < length packets.old }
    requires suffices { longest_payload ≤ length buffer.old }
    ensures { ListsPackets gatherer.old.reader chunk.now packets.old buffer.old result packets.new buffer.new gatherer.new.reader }
{
    let mut used = 0;
    let mut count = 0;
    while count < packets.len() {
        match next(gatherer, chunk, used, count, buffer) {
            Ok(packet) => {
                packets[count] = packet;
                used = packet.used;
                count += 1;
            }
            Err(answer) => return answer,
        }
    }
    GitwireAnswer::of_packet(used, 0, count, What::More)
}

/// The next packet; if the chunk has not all of its payload, that is written to the front of the buffer.
#[inline(always)]
fn next(
    gatherer: &mut Gatherer,
    chunk: &[u8],
    from: usize,
    count: usize,
    buffer: &mut [u8],
) -> Result<GitwireAnswer, GitwireAnswer>
    requires within { from ≤ length chunk.now }
    requires suffices { longest_payload ≤ length buffer.old }
    ensures { MatchResult result (λ packet. GivesPacket gatherer.old.reader chunk.now from buffer.old packet buffer.new gatherer.new.reader)
        (λ answer. EndsHere gatherer.old.reader chunk.now from count buffer.old answer buffer.new gatherer.new.reader) }
{
    let packet = next_packet(gatherer, chunk, from, count)?;
    if packet.used - from < packet.length {
        buffer[..packet.length].copy_from_slice(gatherer.payload());
    }
    Ok(packet)
}

/// One call of `feed`, on the bytes of the chunk from this place on: the packet, or what is reported after so many packets if there is none.
#[inline(always)]
pub(crate) fn next_packet(
    gatherer: &mut Gatherer,
    chunk: &[u8],
    from: usize,
    count: usize,
) -> Result<GitwireAnswer, GitwireAnswer>
    requires within { from ≤ length chunk.now }
    ensures { MatchResult result (λ packet. GivesListed gatherer.old.reader chunk.now from packet gatherer.new.reader)
        (λ answer. GivesNoneListed gatherer.old.reader chunk.now from count answer gatherer.new.reader) }
{
    let fed = gatherer.reader.feed(&chunk[from..], &mut Steps::new());
    let used = from + fed.used;
    match fed.got {
        Got::More => Err(GitwireAnswer::of_packet(used, 0, count, What::More)),
        Got::Failed(fault) => Err(GitwireAnswer {
            length: count,
            ..GitwireAnswer::of_fault(used, fault)
        }),
        Got::Packet(packet, offset) => Ok(match packet {
            Packet::Flush => GitwireAnswer::of_packet(used, offset, 0, What::Flush),
            Packet::Delim => GitwireAnswer::of_packet(used, offset, 0, What::Delim),
            Packet::RespEnd => GitwireAnswer::of_packet(used, offset, 0, What::ResponseEnd),
            Packet::Payload(bytes) => {
                GitwireAnswer::of_packet(used, offset, bytes.len(), What::Payload)
            }
        }),
    }
}
