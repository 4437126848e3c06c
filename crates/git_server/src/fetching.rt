//! The answer to `fetch`, one packet at a time: its sections, one after another.

ghost use Rattle.std.specs.Prelude.{◌≡◌, false, MatchBool};
ghost use Rattle.git_pkt.specs.Machine.PacketReader.{is_open};
ghost use Rattle.git_server.specs.Machine.AnsweredRequest.{WritesFetch};
ghost use Rattle.git_server.specs.Machine.FetchPlaces.{first_place};
ghost use Rattle.git_server.specs.Machine.FullParts.{FillsFetch, FillsPart};
ghost use Rattle.git_server.specs.Machine.LatePacks.{HasNoPackFrom};
ghost use Rattle.git_server.specs.Machine.WrittenPackets.{IsAtFront};

use crate::acknowledgments::{
    Acknowledged, AcknowledgmentsPlace, pack_follows, write_acknowledgments,
};
use crate::answer::Answered;
use crate::packets::write_packet;
use crate::packfile::{PackPlace, write_pack};
use crate::repo::Repo;
use crate::sections::{SectionPart, SectionPlace};
use crate::shallow_info::write_shallow_info;
use crate::wanted_refs::write_wanted_refs;
use git_msg::Fetch;
use git_pkt::{Packet, PacketReader};
use std::alloc::Allocator;

/// The part of an answer to `fetch` that is sent next, gitprotocol-v2(5).
#[derive(Clone, Copy, Debug)]
pub(crate) enum FetchPlace {
    /// This part of the acknowledgments.
    Acknowledgments(AcknowledgmentsPlace),
    /// The delimiter after the acknowledgments.
    Delimiter,
    /// This part of the section of the shallow boundary.
    ShallowInfo(SectionPlace),
    /// This part of the section of wanted references.
    WantedRefs(SectionPlace),
    /// This part of the section of the pack.
    Packfile(PackPlace),
}

impl FetchPlace {
    /// Whether the rest of the answer to the request has a pack.
    pub(crate) fn has_pack<R: Repo, A: Allocator + Copy>(
        &self,
        repo: &R,
        request: &Fetch<A>,
    ) -> bool
        ensures { MatchBool result (¬ HasNoPackFrom (R.state repo.now).answers request.now.asked self.now)
            (HasNoPackFrom (R.state repo.now).answers request.now.asked self.now) }
    {
        match self {
            FetchPlace::Acknowledgments(_) => pack_follows(repo, request),
            _ => true,
        }
    }

    /// The first part of the answer to a request: the acknowledgments, if the request negotiates.
    pub(crate) fn first<A: Allocator + Copy>(request: &Fetch<A>) -> FetchPlace
        ensures { result ≡ first_place request.now.asked }
    {
        if request.done() {
            return FetchPlace::ShallowInfo(SectionPlace::Header);
        }
        if request.haves().is_empty() && !request.wait_for_done() {
            return FetchPlace::ShallowInfo(SectionPlace::Header);
        }
        FetchPlace::Acknowledgments(AcknowledgmentsPlace::Header)
    }
}

/// Writes the next packet of the answer into the reader's buffer, and advances to the part after it.
pub(crate) fn write_fetch<R: Repo, A: Allocator + Copy>(
    repo: &mut R,
    request: &Fetch<A>,
    place: &mut FetchPlace,
    reader: &mut PacketReader,
) -> Answered
    requires { is_open reader.old ≡ false }
    ensures written { WritesFetch request.now.asked (R.state repo.old) place.old reader.old result (R.state repo.new) place.new reader.new }
    ensures full { FillsFetch (R.read_gives repo.old request.now.asked) place.old (IsAtFront reader.new) }
    ensures no_pack { HasNoPackFrom (R.state repo.old).answers request.now.asked place.old
        → HasNoPackFrom (R.state repo.old).answers request.now.asked place.new }
{
    match *place {
        FetchPlace::Acknowledgments(at) => match write_acknowledgments(repo, request, at, reader) {
            Acknowledged::Part(next) => {
                *place = FetchPlace::Acknowledgments(next);
                Answered::Part
            }
            Acknowledged::Ready => {
                *place = FetchPlace::Delimiter;
                Answered::Part
            }
            Acknowledged::Whole => Answered::Whole,
        },
        FetchPlace::Delimiter => {
            write_packet(reader, Packet::Delim);
            *place = FetchPlace::ShallowInfo(SectionPlace::Header);
            Answered::Part
        }
        FetchPlace::ShallowInfo(at) => write_from_boundary(repo, request, at, place, reader),
        FetchPlace::WantedRefs(at) => write_from_refs(repo, request, at, place, reader),
        FetchPlace::Packfile(at) => write_from_pack(repo, request, at, place, reader),
    }
}

// Writes the next packet, at or after this part of the section of the shallow boundary.
fn write_from_boundary<R: Repo, A: Allocator + Copy>(
    repo: &mut R,
    request: &Fetch<A>,
    at: SectionPlace,
    place: &mut FetchPlace,
    reader: &mut PacketReader,
) -> Answered
    requires { is_open reader.old ≡ false }
    ensures { WritesFetch request.now.asked (R.state repo.old) (FetchPlace.ShallowInfo at) reader.old result (R.state repo.new) place.new reader.new }
{
    match write_shallow_info(repo, request, at, reader) {
        SectionPart::Absent => {
            write_from_refs(repo, request, SectionPlace::Header, place, reader)
        }
        SectionPart::Line(next) => {
            *place = FetchPlace::ShallowInfo(SectionPlace::Line(next));
            Answered::Part
        }
        SectionPart::Over => {
            *place = FetchPlace::WantedRefs(SectionPlace::Header);
            Answered::Part
        }
    }
}

// Writes the next packet, at or after this part of the section of wanted references.
fn write_from_refs<R: Repo, A: Allocator + Copy>(
    repo: &mut R,
    request: &Fetch<A>,
    at: SectionPlace,
    place: &mut FetchPlace,
    reader: &mut PacketReader,
) -> Answered
    requires { is_open reader.old ≡ false }
    ensures { WritesFetch request.now.asked (R.state repo.old) (FetchPlace.WantedRefs at) reader.old result (R.state repo.new) place.new reader.new }
{
    match write_wanted_refs(repo, request, at, reader) {
        SectionPart::Absent => write_from_pack(repo, request, PackPlace::Header, place, reader),
        SectionPart::Line(next) => {
            *place = FetchPlace::WantedRefs(SectionPlace::Line(next));
            Answered::Part
        }
        SectionPart::Over => {
            *place = FetchPlace::Packfile(PackPlace::Header);
            Answered::Part
        }
    }
}

// Writes the next packet, which is in the section of the pack.
fn write_from_pack<R: Repo, A: Allocator + Copy>(
    repo: &mut R,
    request: &Fetch<A>,
    at: PackPlace,
    place: &mut FetchPlace,
    reader: &mut PacketReader,
) -> Answered
    requires { is_open reader.old ≡ false }
    ensures written { WritesFetch request.now.asked (R.state repo.old) (FetchPlace.Packfile at) reader.old result (R.state repo.new) place.new reader.new }
    ensures full { FillsPart (R.read_gives repo.old request.now.asked) at (IsAtFront reader.new) }
{
    let mut at = at;
    let answered = write_pack(repo, request, &mut at, reader);
    *place = FetchPlace::Packfile(at);
    answered
}
