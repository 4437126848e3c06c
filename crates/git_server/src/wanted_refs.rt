//! The section `wanted-refs` in an answer to `fetch`, one packet at a time.

ghost use Rattle.std.specs.Prelude.{◌≡◌, false};
ghost use Rattle.git_names.specs.RefName.{IsRefName};
ghost use Rattle.git_pkt.specs.Machine.PacketReader.{is_open};
ghost use Rattle.git_msg.specs.ResponseLines.{wanted_of, wanted_text};
ghost use Rattle.git_msg.specs.WrittenRequest.{text_line};
ghost use Rattle.git_server.specs.Machine.FetchPlaces.{WritesSection, wanted_from};
ghost use Rattle.git_server.specs.Machine.WrittenPackets.{Writes};
ghost use Rattle.git_msg.specs.Asked.{want_refs_in};

use crate::packets::{write_line, write_packet};
use crate::repo::Repo;
use crate::sections::{SectionPart, SectionPlace};
use git_msg::{Fetch, WantedRef, put_wanted};
use git_names::Oid;
use git_pkt::{Packet, PacketReader};
use std::alloc::Allocator;

/// Writes the next packet of the section into the reader's buffer, and returns what comes after it. An answer has the section
/// if the request has want-ref lines, with one line for each of them whose reference exists.
pub(crate) fn write_wanted_refs<R: Repo, A: Allocator + Copy>(
    repo: &R,
    request: &Fetch<A>,
    place: SectionPlace,
    reader: &mut PacketReader,
) -> SectionPart
    requires { is_open reader.old ≡ false }
    ensures { WritesSection (wanted_from (R.state repo.now).answers (want_refs_in request.now.asked)) place reader.old result reader.new }
{
    match place {
        SectionPlace::Header => {
            if request.want_ref(0).is_none() {
                return SectionPart::Absent;
            }
            write_line(reader, b"wanted-refs", b"");
            SectionPart::Line(0)
        }
        SectionPlace::Line(from) => write_from(repo, request, from, reader),
    }
}

// Writes the line of the first want-ref at `from` or after it whose reference exists, or else the delimiter.
fn write_from<R: Repo, A: Allocator + Copy>(
    repo: &R,
    request: &Fetch<A>,
    from: usize,
    reader: &mut PacketReader,
) -> SectionPart
    requires { is_open reader.old ≡ false }
    ensures { WritesSection (wanted_from (R.state repo.now).answers (want_refs_in request.now.asked)) (SectionPlace.Line from) reader.old result reader.new }
{
    let mut at = from;
    while let Some(name) = request.want_ref(at) {
        if let Some(id) = repo.find(name) {
            write_wanted(reader, id, name);
            return SectionPart::Line(at + 1);
        }
        at += 1;
    }
    write_packet(reader, Packet::Delim);
    SectionPart::Over
}

// Sets the buffer to the line of a wanted reference.
#[tactic(auto, using(crate::proofs::WrittenHolds::line_written))]
fn write_wanted(reader: &mut PacketReader, id: Oid, name: &[u8])
    requires between { is_open reader.old ≡ false }
    requires named { IsRefName name.now }
    ensures { Writes reader.old (text_line (wanted_text (wanted_of id name.now))) reader.new }
{
    put_wanted(reader.lend(), WantedRef { id, name });
    let _ = reader.hold();
}
