//! Answers to requests, one packet at a time.

ghost use Rattle.std.specs.Prelude.{◌≡◌, ◌≤◌, false, MatchBool};
ghost use Rattle.git_pkt.specs.Machine.PacketReader.{is_open};
ghost use Rattle.git_server.specs.Machine.AnsweredRequest.{WritesAnswer, answer_to, kept_with, stored_with};
ghost use Rattle.git_server.specs.Machine.FullParts.{FillsAnswer};
ghost use Rattle.git_server.specs.Machine.LatePacks.{HasNoPack};
ghost use Rattle.git_server.specs.Machine.WrittenPackets.{IsAtFront};

use crate::fetching::{FetchPlace, write_fetch};
use crate::ls_refs::{ReferencesPlace, write_references};
use crate::object_info::{SizesPlace, write_sizes};
use crate::repo::Repo;
use git_msg::{Fetch, Listing, ObjectInfo, Request};
use git_pkt::PacketReader;
use std::alloc::Allocator;

/// A request that is being answered, and the part of its answer that is sent next.
#[derive(Drop)]
pub(crate) enum Answer<A: Allocator + Copy> {
    /// The answer to a request for references.
    References(Listing<A>, ReferencesPlace),
    /// The answer to a request for objects.
    Fetching(Fetch<A>, FetchPlace),
    /// The answer to a request for the sizes of objects.
    Sizes(ObjectInfo<A>, SizesPlace),
}

/// The result of writing a packet of an answer.
#[derive(Clone, Copy, Debug)]
pub(crate) enum Answered {
    /// The answer goes on.
    Part,
    /// The packet was the flush of the answer.
    Whole,
    /// The source of the pack failed: the packet was the last one of the answer.
    Broken,
}

impl<A: Allocator + Copy> Answer<A> {
    /// The answer to a request, before its first packet.
    pub(crate) fn new(request: Request<A>) -> Answer<A>
        ensures { result ≡ answer_to request }
    {
        match request {
            Request::LsRefs(request) => {
                Answer::References(Listing::new(request), ReferencesPlace::First)
            }
            Request::Fetch(request) => {
                let place = FetchPlace::first(&request);
                Answer::Fetching(request, place)
            }
            Request::ObjectInfo(request) => Answer::Sizes(request, SizesPlace::Header),
        }
    }

    /// Whether the rest of the answer has a pack.
    pub(crate) fn has_pack<R: Repo>(&self, repo: &R) -> bool
        ensures { MatchBool result (¬ HasNoPack (R.state repo.now).answers self.now) (HasNoPack (R.state repo.now).answers self.now) }
    {
        match self {
            Answer::Fetching(request, place) => place.has_pack(repo, request),
            Answer::References(_, _) | Answer::Sizes(_, _) => false,
        }
    }

    /// Writes the next packet of the answer into the reader's buffer, and advances to the one after it.
    pub(crate) fn write<R: Repo>(&mut self, repo: &mut R, reader: &mut PacketReader) -> Answered
        requires { is_open reader.old ≡ false }
        ensures writes { WritesAnswer (R.state repo.old) self.old reader.old result (R.state repo.new) self.new reader.new }
        ensures full { FillsAnswer (R.read_gives repo.old) self.old (IsAtFront reader.new) }
        ensures kept { kept_with self.new ≡ kept_with self.old }
        ensures stored { stored_with self.new ≤ stored_with self.old }
        ensures no_pack { HasNoPack (R.state repo.old).answers self.old → HasNoPack (R.state repo.old).answers self.new }
    {
        match self {
            Answer::References(listing, place) => {
                listing.put_in_order();
                match write_references(repo, listing, *place, reader) {
                    Some(after) => {
                        *place = after;
                        Answered::Part
                    }
                    None => Answered::Whole,
                }
            }
            Answer::Fetching(request, place) => write_fetch(repo, request, place, reader),
            Answer::Sizes(request, place) => match write_sizes(repo, request, *place, reader) {
                Some(after) => {
                    *place = after;
                    Answered::Part
                }
                None => Answered::Whole,
            },
        }
    }
}
