//! Answers to `object-info`, one packet at a time.

ghost use Rattle.std.specs.Prelude.{◌≡◌, false};
ghost use Rattle.git_pkt.specs.Machine.PacketReader.{is_open};
ghost use Rattle.git_server.specs.Answers.{info_packet};
ghost use Rattle.git_server.specs.Machine.AnsweredRequest.{sizes_after, sizes_from};
ghost use Rattle.git_server.specs.Machine.WrittenPackets.{Writes, WritesFirst};

use crate::packets::{write_line, write_packet};
use crate::repo::Repo;
use git_msg::{Info, ObjectInfo, put_info};
use git_names::Oid;
use git_pkt::{Packet, PacketReader};
use std::alloc::Allocator;

/// The part of the answer that is sent next, gitprotocol-v2(5).
#[derive(Clone, Copy, Debug)]
pub(crate) enum SizesPlace {
    /// The header line, which names the attribute that follows for each object.
    Header,
    /// The line of the object at this index.
    Object(usize),
}

/// Writes the next packet of the answer into the reader's buffer, and returns the part after it. Nothing comes
/// after the flush that ends the answer.
pub(crate) fn write_sizes<R: Repo, A: Allocator + Copy>(
    repo: &R,
    request: &ObjectInfo<A>,
    place: SizesPlace,
    reader: &mut PacketReader,
) -> Option<SizesPlace>
    requires { is_open reader.old ≡ false }
    ensures { WritesFirst (sizes_from request.now.asked (R.state repo.now).answers place) reader.old
        (sizes_after request.now.asked (R.state repo.now).answers result) reader.new }
{
    match place {
        SizesPlace::Header => {
            write_line(reader, b"size", b"");
            Some(SizesPlace::Object(0))
        }
        SizesPlace::Object(at) => match request.oids().get(at) {
            Some(id) => {
                write_size(repo, id, reader);
                Some(SizesPlace::Object(at + 1))
            }
            None => {
                write_packet(reader, Packet::Flush);
                None
            }
        },
    }
}

// Sets the buffer to the line of an object.
#[tactic(auto, using(crate::proofs::WrittenHolds::line_written))]
fn write_size<R: Repo>(repo: &R, id: &Oid, reader: &mut PacketReader)
    requires { is_open reader.old ≡ false }
    ensures { Writes reader.old (info_packet (R.state repo.now).answers id.now) reader.new }
{
    let info = Info {
        id: *id,
        size: repo.object_size(id),
    };
    put_info(reader.lend(), &info);
    let _ = reader.hold();
}
