//! Packets of any subject, written for C.

ghost use Rattle.std.specs.Prelude.{◌≡◌, ◌≢◌, ◌≤◌, ◌++◌, MatchOption, length};
ghost use Rattle.git_pkt.specs.Bands.{byte_of};
ghost use Rattle.git_pkt.specs.declared.band.Band.{Band as SideBand};
ghost use Rattle.gitwire.specs.Handles.{writer_in};
ghost use Rattle.gitwire.specs.Offers.{offer_meant};
ghost use Rattle.gitwire.specs.WrittenForC.{Advertises, Makes, MeansBand, MeansError, MeansLine, MeansPacket, Writes, WritesIn};

use crate::answer::{GitwireAnswer, What};
use crate::buffers::fill;
use crate::handles::{GitwireWriter, Holds, on};
use crate::offer::{agent_named, offer_numbered};
use crate::packets::LONGEST_PAYLOAD;
use crate::written::{Unwritten, hand_out, write_packet};
use git_msg::{Offer, put_line};
use git_pkt::{Band, Hold, Kind, Packet, put, put_band};
use git_server::put_advertisement;
use std::alloc::Global;

/// Writes a packet to the front of the buffer. Its kind is the number of PAYLOAD, FLUSH, DELIM or RESPONSE_END. Another number is BadValue,
/// and so are bytes with a kind other than PAYLOAD. More than 65,516 bytes are TooLong.
#[tactic(auto, using(crate::proofs::Handing::writes))]
#[unsafe(no_mangle)]
pub extern "C" fn gitwire_put_packet(
    alloc: Global,
    writer: &mut GitwireWriter,
    kind: u32,
    payload: &[u8],
    buffer: &mut [u8],
) -> GitwireAnswer
    ensures { WritesIn (writer_in writer.old) (Writes (MeansPacket kind payload.now)) buffer.old result buffer.new (writer_in writer.new) }
{
    write_packet!(writer, alloc; make_packet(&mut writer.hold, kind, payload), buffer)
}

/// Writes a packet with these bytes on a band, 1, 2 or 3, to the front of the buffer. Another number is BadValue, and then
/// more than 65,515 bytes are TooLong.
#[tactic(auto, using(crate::proofs::Handing::writes))]
#[unsafe(no_mangle)]
pub extern "C" fn gitwire_put_band(
    alloc: Global,
    writer: &mut GitwireWriter,
    band: u32,
    bytes: &[u8],
    buffer: &mut [u8],
) -> GitwireAnswer
    ensures { WritesIn (writer_in writer.old) (Writes (MeansBand band bytes.now)) buffer.old result buffer.new (writer_in writer.new) }
{
    write_packet!(writer, alloc; make_band(&mut writer.hold, band, bytes), buffer)
}

/// Writes the packet of a line to the front of the buffer: the text and LF. More than 65,515 bytes are BadLine.
#[tactic(auto, using(crate::proofs::Handing::writes))]
#[unsafe(no_mangle)]
pub extern "C" fn gitwire_put_line(
    alloc: Global,
    writer: &mut GitwireWriter,
    text: &[u8],
    buffer: &mut [u8],
) -> GitwireAnswer
    ensures { WritesIn (writer_in writer.old) (Writes (MeansLine text.now)) buffer.old result buffer.new (writer_in writer.new) }
{
    write_packet!(writer, alloc; make_line(&mut writer.hold, b"", text), buffer)
}

/// Writes an error packet, gitprotocol-pack(5), to the front of the buffer: `ERR `, the text and LF. More than 65,511 bytes
/// are BadLine.
#[tactic(auto, using(crate::proofs::Handing::writes))]
#[unsafe(no_mangle)]
pub extern "C" fn gitwire_put_error(
    alloc: Global,
    writer: &mut GitwireWriter,
    text: &[u8],
    buffer: &mut [u8],
) -> GitwireAnswer
    ensures { WritesIn (writer_in writer.old) (Writes (MeansError text.now)) buffer.old result buffer.new (writer_in writer.new) }
{
    write_packet!(writer, alloc; make_line(&mut writer.hold, b"ERR ", text), buffer)
}

/// Writes the whole advertisement of a format and the features of a sum by this agent, or by this library's own if the name is empty, each
/// packet up to its flush, to the front of the buffer: fewer than 257 bytes. A number of no format, a bit of no feature and a text that is no
/// agent's name are BadValue.
#[unsafe(no_mangle)]
pub extern "C" fn gitwire_put_advertisement_named(
    alloc: Global,
    writer: &mut GitwireWriter,
    format: u32,
    features: u32,
    agent: &[u8],
    buffer: &mut [u8],
) -> GitwireAnswer
    ensures { WritesIn (writer_in writer.old) (Advertises (offer_meant format features) agent.now) buffer.old result buffer.new (writer_in writer.new) }
{
    on!(writer, alloc; advertise(&mut writer.hold, format, features, agent, buffer))
}

fn advertise(
    hold: &mut Hold,
    format: u32,
    features: u32,
    agent: &[u8],
    buffer: &mut [u8],
) -> GitwireAnswer
    ensures { Advertises (offer_meant format features) agent.now buffer.old result buffer.new }
{
    let Some(offer) = offer_numbered(format, features) else {
        return GitwireAnswer::of(What::BadValue);
    };
    let Some(agent) = agent_named(agent) else {
        return GitwireAnswer::of(What::BadValue);
    };
    put_advertisement(hold, &Offer { agent, ..offer });
    fill(hold.as_slice(), buffer)
}

fn make_packet(hold: &mut Hold, kind: u32, payload: &[u8]) -> Result<(), Unwritten>
    ensures { Makes (MeansPacket kind payload.now) result hold.new.items }
{
    let packet = match (kind, payload) {
        (9, _) => Packet::Payload(payload),
        (10, []) => Packet::Flush,
        (11, []) => Packet::Delim,
        (12, []) => Packet::RespEnd,
        _ => return Err(Unwritten::BadValue),
    };
    if payload.len() > LONGEST_PAYLOAD {
        return Err(Unwritten::Refused(Kind::TooLong));
    }
    put(hold, packet);
    Ok(())
}

fn make_band(hold: &mut Hold, band: u32, bytes: &[u8]) -> Result<(), Unwritten>
    ensures { Makes (MeansBand band bytes.now) result hold.new.items }
{
    let Some(band) = band_numbered(band) else {
        return Err(Unwritten::BadValue);
    };
    if bytes.len() >= LONGEST_PAYLOAD {
        return Err(Unwritten::Refused(Kind::TooLong));
    }
    put_band(hold, band, bytes);
    Ok(())
}

fn band_numbered(number: u32) -> Option<Band>
    ensures { MatchOption result ((band : SideBand) → number ≢ byte_of band) (λ band. number ≡ byte_of band) }
{
    match number {
        1 => Some(Band::Pack),
        2 => Some(Band::Progress),
        3 => Some(Band::Fatal),
        _ => None,
    }
}

fn make_line(hold: &mut Hold, word: &[u8], text: &[u8]) -> Result<(), Unwritten>
    requires { length word.now ≤ 4 }
    ensures { Makes (MeansLine (word.now ++ text.now)) result hold.new.items }
{
    if word.len() + text.len() >= LONGEST_PAYLOAD {
        return Err(Unwritten::Refused(Kind::BadLine));
    }
    put_line(hold, word, text);
    Ok(())
}
