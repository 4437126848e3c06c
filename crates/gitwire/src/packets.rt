//! A packet reader that C holds.

ghost use Rattle.std.specs.Prelude.{◌≡◌, None};
ghost use Rattle.gitwire.specs.Calls.{HasNone, On};
ghost use Rattle.gitwire.specs.Handles.{packet_reader_in};
ghost use Rattle.gitwire.specs.PacketAnswers.{Begins, ClosesAnswers, FeedsInBuffer};
ghost use Rattle.gitwire.specs.Answers.{answering};

use crate::answer::{GitwireAnswer, What};
use crate::gatherer::Gatherer;
use crate::handles::{GitwirePacketReader, Holds, fill, on};
use git_names::Steps;
use git_pkt::{Got, Packet, PacketReader};
use std::alloc::Global;
use std::mem::replace;

/// How many bytes the longest payload has.
pub(crate) const LONGEST_PAYLOAD: usize = 65_516;

/// Makes the handle's reader a new one, of a stream that starts at offset 0. What it had before is freed. `Done`; or
/// `OutOfMemory`, and the handle has none.
#[unsafe(no_mangle)]
pub extern "C" fn gitwire_packet_reader_init(alloc: Global, reader: &mut GitwirePacketReader) -> u32
    ensures { Begins result (packet_reader_in reader.new) }
{
    *reader = GitwirePacketReader::none(alloc);
    let gatherer = Gatherer {
        reader: PacketReader::new(),
    };
    let Ok(made) = Box::new(alloc, gatherer) else {
        return What::OutOfMemory.number();
    };
    fill(reader, alloc, made).number()
}

/// Reads up to the end of the next packet, and copies its payload to the front of the buffer. `More`, `Payload`, `Flush`, `Delim`,
/// `ResponseEnd` or `Failed`; `NoRequest`; and `BufferTooSmall` if the buffer has fewer than 65,516 bytes.
#[unsafe(no_mangle)]
pub extern "C" fn gitwire_packet_reader_feed(
    alloc: Global,
    reader: &mut GitwirePacketReader,
    chunk: &[u8],
    buffer: &mut [u8],
) -> GitwireAnswer
    ensures { On (packet_reader_in reader.old) (packet_reader_in reader.new) (λ old new. FeedsInBuffer old chunk.now buffer.old result buffer.new new)
        (HasNone buffer.old result buffer.new) }
{
    on!(reader, alloc; feed(reader, chunk, buffer))
}

fn feed(gatherer: &mut Gatherer, chunk: &[u8], buffer: &mut [u8]) -> GitwireAnswer
    ensures { FeedsInBuffer gatherer.old.reader chunk.now buffer.old result buffer.new gatherer.new.reader }
{
    if buffer.len() < LONGEST_PAYLOAD {
        return GitwireAnswer::of(What::BufferTooSmall);
    }
    let fed = gatherer.reader.feed(chunk, &mut Steps::new());
    match fed.got {
        Got::More => GitwireAnswer::of_used(fed.used, What::More),
        Got::Failed(fault) => GitwireAnswer::of_fault(fed.used, fault),
        Got::Packet(packet, offset) => match packet {
            Packet::Flush => GitwireAnswer::of_packet(fed.used, offset, 0, What::Flush),
            Packet::Delim => GitwireAnswer::of_packet(fed.used, offset, 0, What::Delim),
            Packet::RespEnd => GitwireAnswer::of_packet(fed.used, offset, 0, What::ResponseEnd),
            Packet::Payload(bytes) => {
                buffer[..bytes.len()].copy_from_slice(bytes);
                GitwireAnswer::of_packet(fed.used, offset, bytes.len(), What::Payload)
            }
        },
    }
}

/// The stream ends here. `Done` between packets; else `Failed`, or `NoRequest`.
#[unsafe(no_mangle)]
pub extern "C" fn gitwire_packet_reader_close(
    alloc: Global,
    reader: &mut GitwirePacketReader,
) -> GitwireAnswer
    ensures { On (packet_reader_in reader.old) (packet_reader_in reader.new) (λ old new. ClosesAnswers old result new) (result ≡ answering What.NoRequest) }
{
    on!(reader, alloc; close(reader))
}

fn close(gatherer: &mut Gatherer) -> GitwireAnswer
    ensures { ClosesAnswers gatherer.old.reader result gatherer.new.reader }
{
    match gatherer.reader.close() {
        Ok(()) => GitwireAnswer::of(What::Done),
        Err(fault) => GitwireAnswer::of_fault(0, fault),
    }
}

/// Frees the reader. The handle has none from then on.
#[unsafe(no_mangle)]
pub extern "C" fn gitwire_packet_reader_clear(alloc: Global, reader: &mut GitwirePacketReader)
    ensures { packet_reader_in reader.new ≡ None }
{
    drop(replace(reader, GitwirePacketReader::none(alloc)));
}
