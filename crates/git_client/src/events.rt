//! What a client returns: events, and the next action.

use crate::sections::Section;
use git_msg::Capability;
use git_names::Oid;
use git_pkt::Fault;

/// How each response ends.
#[derive(Clone, Copy, Debug, PartialEq, Eq)]
pub enum Ending {
    /// With the flush alone, as on a connection that both sides keep open.
    FlushOnly,
    /// With a response-end packet after the flush, as when each request has a connection of its own.
    ResponseEnd,
}

/// A message of the server.
#[derive(Clone, Copy, Debug)]
pub enum Event<'a> {
    /// A line of the advertisement, whether its key is known or not.
    Capability(Capability<'a>),
    /// The advertisement is complete, and the server speaks the client's object format.
    Offered,
    /// A reference, in the response to `ls-refs`.
    Reference {
        /// The object that it points to. None if the reference is unborn.
        id: Option<&'a Oid>,
        /// Its name.
        name: &'a [u8],
        /// The name of the reference that a symbolic reference points to, if the server sent it.
        target: Option<&'a [u8]>,
        /// The object that an annotated tag peels to, if the server sent it.
        peeled: Option<&'a Oid>,
    },
    /// A section of the response to `fetch` begins. It ends where the next one begins, or with `Ended`.
    Section(Section),
    /// Both sides have this object: a line of `acknowledgments`, as all events up to `Ready` are.
    Ack(&'a Oid),
    /// The server has none of the objects that the request lists as the client's.
    Nak,
    /// The server has found enough common objects: a pack follows.
    Ready,
    /// The parents of this commit are not sent: a line of `shallow-info`.
    Shallow(&'a Oid),
    /// The client had this commit without its parents, which are sent now: a line of `shallow-info`.
    Unshallow(&'a Oid),
    /// A reference that was requested by its name: a line of `wanted-refs`.
    WantedRef {
        /// The object that it points to.
        id: &'a Oid,
        /// Its name.
        name: &'a [u8],
    },
    /// The answer of the server about an object, in the response to `object-info`.
    Info {
        /// The object.
        id: &'a Oid,
        /// The size of the object in bytes, if the server has it.
        size: Option<u64>,
    },
    /// Bytes of the pack: at least one.
    Pack(&'a [u8]),
    /// Bytes of a text for the user, on the second side band: at least one.
    Progress(&'a [u8]),
    /// The response is complete: the client can ask the next request.
    Ended,
}

/// The result of one call of [`Client::feed`](crate::Client::feed).
#[derive(Clone, Copy, Debug)]
pub struct Received<'a> {
    /// The number of bytes of the chunk that were used.
    pub used: usize,
    /// The result of using them.
    pub got: ReceivedGot<'a>,
}

/// The result of using bytes.
#[derive(Clone, Copy, Debug)]
pub enum ReceivedGot<'a> {
    /// No event is complete yet and the chunk was used up, or the client does not wait for input.
    More,
    /// One event.
    Event(Event<'a>),
    /// The conversation is refused; the client stays at this error.
    Failed(Fault),
}

/// The next action, as returned by [`Client::pull`](crate::Client::pull).
#[derive(Clone, Copy, Debug)]
pub enum Sent<'a> {
    /// Send these bytes, which are one packet.
    Packet(&'a [u8]),
    /// Read: bytes of the server are expected.
    NeedInput,
    /// The client can ask a request.
    CanAsk,
    /// Stop: nothing more has to be sent, and the last packet was returned.
    Finished,
    /// The conversation was refused.
    Failed(Fault),
}
