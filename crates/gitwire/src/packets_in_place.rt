//! Several packets of a chunk by one call of C that has no buffer: a payload that is cut stays in the reader, which lends it.

ghost use Rattle.std.specs.Prelude.{◌≡◌, ◌<◌, length};
ghost use Rattle.gitwire.specs.Calls.{On};
ghost use Rattle.gitwire.specs.Handles.{packet_reader_in};
ghost use Rattle.gitwire.specs.PacketsInPlace.{ListsHeld, ListsInPlace, ListsNoneInPlace};
ghost use Rattle.gitwire.specs.PayloadsLent.{payload_lent};

use crate::answer::{GitwireAnswer, What};
use crate::gatherer::Gatherer;
use crate::handles::{GitwirePacketReader, Holds, on};
use crate::packet_list::next_packet;
use std::alloc::Global;

/// A payload that a reader lends.
#[repr(C)]
#[derive(Drop)]
pub struct GitwirePayload<'a> {
    /// Its bytes.
    pub bytes: &'a [u8],
}

/// Fills the array with the packets of the chunk as `gitwire_packet_reader_packets` does, with no buffer: a payload that has more bytes than were
/// used, which only the first packet can have, stays in the reader, and the array ends with that packet. `gitwire_packet_reader_lend` lends it.
/// `More`: the chunk is used up, the array is full, or it ends with such a packet; `Failed`; `NoRequest`; and `BufferTooSmall` if the array has no
/// place.
#[unsafe(no_mangle)]
pub extern "C" fn gitwire_packet_reader_packets_in_place(
    alloc: Global,
    reader: &mut GitwirePacketReader,
    chunk: &[u8],
    packets: &mut [GitwireAnswer],
) -> GitwireAnswer
    ensures { On (packet_reader_in reader.old) (packet_reader_in reader.new)
        (λ old new. ListsInPlace old chunk.now packets.old result packets.new new)
        (ListsNoneInPlace packets.old result packets.new) }
{
    on!(reader, alloc; list_in_place(reader, chunk, packets))
}

/// Lends the payload of the packet that the reader gave last, until the reader is called again; no bytes if the handle has no reader.
#[unsafe(no_mangle)]
pub extern "C" fn gitwire_packet_reader_lend<'a>(
    reader: &'a mut GitwirePacketReader,
    payload: &mut GitwirePayload<'a>,
)
    ensures { payload.new.bytes.now ≡ payload_lent (packet_reader_in reader.old) }
{
    *payload = GitwirePayload {
        bytes: reader.payload(),
    };
}

fn list_in_place(
    gatherer: &mut Gatherer,
    chunk: &[u8],
    packets: &mut [GitwireAnswer],
) -> GitwireAnswer
    ensures { ListsInPlace gatherer.old.reader chunk.now packets.old result packets.new gatherer.new.reader }
{
    if packets.is_empty() {
        return GitwireAnswer::of(What::BufferTooSmall);
    }
    fill_in_place(gatherer, chunk, packets)
}

/// Calls `feed` until it gives no packet, the array is full, or the reader has to keep a payload.
fn fill_in_place(
    gatherer: &mut Gatherer,
    chunk: &[u8],
    packets: &mut [GitwireAnswer],
) -> GitwireAnswer
    requires place { 0 < length packets.old }
    ensures { ListsHeld gatherer.old.reader chunk.now packets.old result packets.new gatherer.new.reader }
{
    let mut used = 0;
    let mut count = 0;
    while count < packets.len() {
        match next_packet(gatherer, chunk, used, count) {
            Ok(packet) => {
                packets[count] = packet;
                used = packet.used;
                count += 1;
                if used < packet.length {
                    return GitwireAnswer::of_packet(used, 0, 1, What::More);
                }
            }
            Err(answer) => return answer,
        }
    }
    GitwireAnswer::of_packet(used, 0, count, What::More)
}
