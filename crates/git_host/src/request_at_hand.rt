//! The request at hand of a host's server: the one that is asked about or answered.

ghost use Rattle.std.specs.Prelude.{◌≡◌};
ghost use Rattle.std.specs.Option.{option_map};
ghost use Rattle.git_msg.specs.Asked.{arguments_in, command_asked};
ghost use Rattle.git_msg.specs.Kept.{AreOf};
ghost use Rattle.git_host.specs.HostLookups.{answered_by, asked_in};

use crate::host_answer::HostAnswer;
use git_msg::{Command, Fetch, KeptArguments, Listing, ObjectInfo, Request};
use std::alloc::Allocator;

/// The request that is asked about or answered.
#[derive(Drop)]
pub enum RequestAtHand<'a, A: Allocator + Copy> {
    /// A request that waits to be accepted or refused.
    Asked(&'a Request<A>),
    /// A request for references that is answered: its prefixes are in the order of their bytes, without those that begin with another.
    Listing(&'a Listing<A>),
    /// A request for objects that is answered.
    Fetch(&'a Fetch<A>),
    /// A request for what is known of objects that is answered.
    ObjectInfo(&'a ObjectInfo<A>),
}

impl<'a, A: Allocator + Copy> RequestAtHand<'a, A> {
    /// The request's command.
    pub fn command(&self) -> Command
        ensures { result ≡ command_asked (asked_in self.now) }
    {
        match self {
            RequestAtHand::Asked(request) => request.command(),
            RequestAtHand::Listing(_) => Command::LsRefs,
            RequestAtHand::Fetch(_) => Command::Fetch,
            RequestAtHand::ObjectInfo(_) => Command::ObjectInfo,
        }
    }

    /// Its arguments. There is none of another command.
    pub fn arguments(&self) -> &KeptArguments<A>
        ensures asked { result.now.asked ≡ arguments_in (asked_in self.now) }
        ensures own { AreOf (command_asked (asked_in self.now)) result.now.asked }
    {
        match self {
            RequestAtHand::Asked(request) => request.arguments(),
            RequestAtHand::Listing(listing) => listing.arguments(),
            RequestAtHand::Fetch(request) => request.arguments(),
            RequestAtHand::ObjectInfo(request) => request.arguments(),
        }
    }
}

/// The request that is answered, until all was sent.
pub(crate) fn request_answered<A: Allocator + Copy>(
    answer: &HostAnswer<A>,
) -> Option<RequestAtHand<'_, A>>
    ensures { option_map asked_in result ≡ answered_by answer.now }
{
    match answer {
        HostAnswer::Admission(admission) => Some(RequestAtHand::Fetch(admission.request())),
        HostAnswer::Fetch(answer) => Some(RequestAtHand::Fetch(answer.request())),
        HostAnswer::References(answer) => Some(RequestAtHand::Listing(answer.listing())),
        HostAnswer::Sizes(answer) => Some(RequestAtHand::ObjectInfo(answer.request())),
        HostAnswer::Whole => None,
    }
}
