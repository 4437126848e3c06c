//! The phases of a conversation, and what a packet means in each.

ghost use Rattle.std.specs.Prelude.{◌≡◌, false, None};
ghost use Rattle.git_client.specs.Machine.Turns.{fault_in, is_asking, phase_in};

use crate::sections::{Acks, Allowed, Section};
use git_msg::{Info, ReferencePlaces, RequestWriter};
use git_names::Oid;
use git_pkt::Fault;

/// The phase of a conversation.
#[derive(Clone, Copy, Debug)]
pub(crate) enum Phase {
    /// Packets of the server are expected.
    Receiving(Expected),
    /// A request can be asked.
    Ready,
    /// The packets of the request have to be sent, and then its response is expected.
    Asking(RequestWriter),
    /// The flush that ends the conversation has to be sent.
    Leaving,
    /// Nothing more has to be sent.
    Left,
    /// The conversation was refused.
    Failed(Fault),
}

/// What is expected from the server.
#[derive(Clone, Copy, Debug)]
pub(crate) enum Expected {
    /// The line that begins an advertisement.
    Version,
    /// The lines of the advertisement, or its flush.
    Capabilities,
    /// References, or the flush.
    References,
    /// The header of a section of a response to `fetch`.
    Header(Allowed),
    Acknowledgments(Acks),
    /// Lines of the section, or the delimiter. After the delimiter these sections may begin.
    ShallowInfo(Allowed),
    WantedRefs(Allowed),
    Packfile,
    /// The line that names the attribute listed for each object, or the flush.
    SizeLine,
    /// The lines of the objects, or the flush.
    Sizes,
    /// The response-end packet after a response's flush.
    ResponseEnd,
}

/// The contents of a packet without an error, with their places in the payload: so no line is read twice. Bytes of the pack and of
/// the progress pass without this.
#[derive(Clone, Copy, Debug)]
pub(crate) enum LineContent {
    Nothing,
    Capability(CapabilityPlaces),
    Offered,
    Reference(ReferencePlaces),
    Section(Section),
    Ack(Oid),
    Nak,
    Ready,
    Shallow(Oid),
    Unshallow(Oid),
    /// The wanted reference that points to this object. Its name comes after the object's name.
    WantedRef(Oid),
    Info(Info),
    Ended,
}

/// The places of the parts of a capability line in its text: the key at its start, and the value after one `=`.
#[derive(Clone, Copy, Debug)]
pub(crate) struct CapabilityPlaces {
    pub(crate) key_length: usize,
    pub(crate) has_value: bool,
}

/// Whose turn it is after a packet without an error.
#[derive(Clone, Copy, Debug)]
pub(crate) enum Turn {
    /// The server has to send this next.
    Receiving(Expected),
    /// The client's turn: the message is complete, and a request can be asked.
    Ready,
}

impl Turn {
    /// The phase of the conversation in this turn.
    pub(crate) fn phase(self) -> Phase
        ensures value { result ≡ phase_in self }
        ensures has_unsent { is_asking result ≡ false }
        ensures sound { fault_in result ≡ None }
    {
        match self {
            Turn::Receiving(expected) => Phase::Receiving(expected),
            Turn::Ready => Phase::Ready,
        }
    }
}
