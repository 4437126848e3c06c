//! The section of the pack in an answer to `fetch`, one packet at a time.

ghost use Rattle.std.specs.Prelude.{◌≡◌, drop, length, false};
ghost use Rattle.std.specs.Io.{StartsWith};
ghost use Rattle.git_pkt.specs.Machine.PacketReader.{is_open};
ghost use Rattle.git_pkt.specs.Packets.{spelling_of};
ghost use Rattle.git_server.specs.Machine.AnsweredRequest.{WritesPack};
ghost use Rattle.git_server.specs.Machine.FullParts.{FillsPart};
ghost use Rattle.git_server.specs.Machine.PackParts.{FitsBuffer, PutsPart, ReadsPart, WritesPart, part_packet};
ghost use Rattle.git_server.specs.Machine.WrittenPackets.{IsAtFront};

use crate::answer::Answered;
use crate::packets::write_line;
use crate::repo::{PackFault, Repo};
use git_msg::Fetch;
use git_pkt::{BAND_HEAD, Band, Hold, Packet, PacketReader, close_band, open_band, put, put_band};
use std::alloc::Allocator;

/// The part of the section of the pack that is sent next, gitprotocol-v2(5).
#[derive(Clone, Copy, Debug)]
pub(crate) enum PackPlace {
    /// The header.
    Header,
    /// The bytes of the pack from this offset on.
    Pack(u64),
}

// The result of reading a pack into the part of a packet that is for its bytes.
#[derive(Clone, Copy, Debug)]
enum PartRead {
    // This many bytes, at least one.
    Bytes(usize),
    // No bytes: the pack has ended.
    End,
    // The read failed.
    Failed,
}

/// Writes the next packet of the section into the reader's buffer, and advances to the part after it.
pub(crate) fn write_pack<R: Repo, A: Allocator + Copy>(
    repo: &mut R,
    request: &Fetch<A>,
    place: &mut PackPlace,
    reader: &mut PacketReader,
) -> Answered
    requires { is_open reader.old ≡ false }
    ensures written { WritesPack ((R.state repo.old).answers.pack request.now.asked)
        (R.state repo.old) place.old reader.old result (R.state repo.new) place.new reader.new }
    ensures full { FillsPart (R.read_gives repo.old request.now.asked) place.old (IsAtFront reader.new) }
{
    match *place {
        PackPlace::Header => {
            write_line(reader, b"packfile", b"");
            *place = PackPlace::Pack(0);
            Answered::Part
        }
        PackPlace::Pack(offset) => match write_part(repo, request, offset, reader) {
            PartRead::Bytes(count) => {
                *place = PackPlace::Pack(offset + count as u64);
                Answered::Part
            }
            PartRead::End => Answered::Whole,
            PartRead::Failed => Answered::Broken,
        },
    }
}

// Writes the packet of the next part of the pack into the reader's buffer, and returns what was read for it.
fn write_part<R: Repo, A: Allocator + Copy>(
    repo: &mut R,
    request: &Fetch<A>,
    offset: u64,
    reader: &mut PacketReader,
) -> PartRead
    requires { is_open reader.old ≡ false }
    ensures { WritesPart (R.read_gives repo.old request.now.asked offset) ((R.state repo.old).answers.pack request.now.asked) offset
        (R.state repo.old) reader.old result (R.state repo.new) reader.new }
{
    let part = put_part(repo, request, offset, reader.lend());
    let _ = reader.hold();
    part
}

// Puts the packet of the next part of the pack at the front of the buffer. The part is read directly to its place there.
fn put_part<R: Repo, A: Allocator + Copy>(
    repo: &mut R,
    request: &Fetch<A>,
    offset: u64,
    hold: &mut Hold,
) -> PartRead
    ensures { PutsPart (R.read_gives repo.old request.now.asked offset) ((R.state repo.old).answers.pack request.now.asked) offset
        (R.state repo.old) result (R.state repo.new) hold.new.items }
{
    open_band(hold);
    let part = read_part(repo, request, offset, &mut hold.as_mut_slice()[BAND_HEAD..]);
    close_part(hold, part);
    part
}

// Reads as much of the pack as fits into a packet, or as the repository returns.
fn read_part<R: Repo, A: Allocator + Copy>(
    repo: &mut R,
    request: &Fetch<A>,
    offset: u64,
    buffer: &mut [u8],
) -> PartRead
    requires full { length buffer.old ≡ 65515 }
    ensures { ReadsPart (R.read_gives repo.old request.now.asked offset) ((R.state repo.old).answers.pack request.now.asked) offset
        (R.state repo.old) result (R.state repo.new) buffer.new }
{
    match repo.pack_read(request, offset, buffer) {
        Ok(0) => PartRead::End,
        Ok(count) => PartRead::Bytes(count),
        Err(PackFault) => PartRead::Failed,
    }
}

// Completes the packet at the front of the buffer, after its payload was read to the place behind its first bytes.
fn close_part(hold: &mut Hold, part: PartRead)
    requires long { length hold.old.items ≡ 65520 }
    requires within { FitsBuffer part }
    ensures { StartsWith hold.new.items (spelling_of (part_packet (drop 5 hold.old.items) part)) }
{
    match part {
        PartRead::Bytes(count) => close_band(hold, Band::Pack, count),
        PartRead::End => put(hold, Packet::Flush),
        PartRead::Failed => put_band(hold, Band::Fatal, b"PackSource"),
    }
}
