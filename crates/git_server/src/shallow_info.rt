//! The section `shallow-info` in an answer to `fetch`, one packet at a time.

ghost use Rattle.std.specs.Prelude.{◌≡◌, false};
ghost use Rattle.git_pkt.specs.Machine.PacketReader.{is_open};
ghost use Rattle.git_server.specs.FetchAnswers.{boundary_packet};
ghost use Rattle.git_server.specs.Machine.FetchPlaces.{WritesSection, boundary_from};
ghost use Rattle.git_server.specs.Machine.WrittenPackets.{Writes};

use crate::packets::{write_line, write_packet};
use crate::repo::Repo;
use crate::sections::{SectionPart, SectionPlace};
use git_msg::{Boundary, Fetch, put_boundary};
use git_pkt::{Packet, PacketReader};
use std::alloc::Allocator;

/// Writes the next packet of the section into the reader's buffer, and returns what comes after it. An answer has the section
/// if the shallow boundary for the request has commits.
pub(crate) fn write_shallow_info<R: Repo, A: Allocator + Copy>(
    repo: &R,
    request: &Fetch<A>,
    place: SectionPlace,
    reader: &mut PacketReader,
) -> SectionPart
    requires { is_open reader.old ≡ false }
    ensures { WritesSection (boundary_from ((R.state repo.now).answers.boundaries request.now.asked)) place reader.old result reader.new }
{
    let count = repo.boundaries(request);
    match place {
        SectionPlace::Header => {
            if count == 0 {
                return SectionPart::Absent;
            }
            write_line(reader, b"shallow-info", b"");
            SectionPart::Line(0)
        }
        SectionPlace::Line(at) => {
            if at < count {
                write_boundary(reader, &repo.boundary(request, at));
                return SectionPart::Line(at + 1);
            }
            write_packet(reader, Packet::Delim);
            SectionPart::Over
        }
    }
}

// Sets the buffer to the line of a commit at the shallow boundary.
#[tactic(auto, using(crate::proofs::WrittenHolds::line_written))]
fn write_boundary(reader: &mut PacketReader, boundary: &Boundary)
    requires { is_open reader.old ≡ false }
    ensures { Writes reader.old (boundary_packet boundary.now) reader.new }
{
    put_boundary(reader.lend(), boundary);
    let _ = reader.hold();
}
