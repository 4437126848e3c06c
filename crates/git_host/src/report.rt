//! What a host reports of its store, and what came of it.

ghost use Rattle.std.specs.Prelude.{◌≡◌};
ghost use Rattle.git_host.specs.HostAnswers.{packet_where, taken_where};

use git_msg::Boundary;
use git_names::{Oid, RefName};
use git_server::{Outcome, RefEntry};

/// The most bytes of a pack or of progress that one packet has.
pub const LONGEST_PART: usize = 65_515;

/// One thing that a host reports of its store, where it is asked for it.
#[derive(Drop)]
pub enum Report<'a> {
    /// Whether the store has the wanted object that is asked about.
    Want(bool),
    /// The object of the wanted reference that is asked for, or that there is no such reference.
    WantRef(Option<Oid>),
    /// Whether the store has the object of the client's that is asked about.
    Have(bool),
    /// Whether the store is ready to send a pack.
    Ready(bool),
    /// A line of the shallow boundary.
    Boundary(Boundary),
    /// The boundary has no more lines.
    BoundaryEnd,
    /// Bytes of the pack. The first [`LONGEST_PART`] of them are used.
    Pack(&'a [u8]),
    /// A text for the client's user. The first [`LONGEST_PART`] bytes of it are used.
    Progress(&'a [u8]),
    /// The pack has no more bytes.
    PackEnd,
    /// What is asked cannot be had: the answer breaks off, and the session ends.
    Failed,
    /// A reference, which comes after those reported before it.
    Reference(RefEntry),
    /// `HEAD` is unborn, and points to this name: reported before any reference.
    Unborn(RefName<'a>),
    /// There are no more references.
    ReferencesEnd,
    /// The size of the object that is asked about, if the store has it.
    Size(Option<u64>),
}

/// What came of a report.
#[derive(Clone, Copy, Debug, PartialEq, Eq)]
pub enum HostReported {
    /// There is a packet to send.
    Packet,
    /// It was taken, and there is no packet to send.
    Taken,
    /// The request does not ask for it: there is no packet to send.
    Hidden,
    /// It was not asked for. Nothing changed.
    NotAsked,
    /// Its object names are not of the request's format. Nothing changed.
    MixedFormats,
    /// It does not come after the reference that was reported before it. Nothing changed.
    Unsorted,
    /// It is `HEAD`, which was reported as unborn. Nothing changed.
    HeadTwice,
    /// It is an `unshallow` line of a commit that the request does not call shallow. Nothing changed.
    NotShallow,
    /// Memory ran out. Nothing changed.
    OutOfMemory,
}

/// Why the texts of a reference are none.
#[derive(Clone, Copy, Debug, PartialEq, Eq)]
pub enum ReferenceFault {
    /// The digits are no object name of the request's format.
    BadObjectName,
    /// The name breaks a rule of reference names.
    BadRefName,
    /// Memory for a copy of the name ran out.
    OutOfMemory,
}

/// What a host is asked of its store.
#[derive(Clone, Copy, Debug, PartialEq, Eq)]
pub enum Need {
    /// Whether the store has the object of the `want` line at this place.
    Want(usize),
    /// The object of the reference of the `want-ref` line at this place, if there is such a reference.
    WantRef(usize),
    /// Whether the store has the object of the `have` line at this place.
    Have(usize),
    /// Whether the store is ready to send a pack.
    Ready,
    /// The next line of the shallow boundary, or that there is none.
    Boundary,
    /// Bytes of the pack or of progress, or that the pack has no more, or that it cannot be had.
    Pack,
    /// The next reference, or that there is none.
    Reference,
    /// The size of the object at this place of the request.
    Size(usize),
}

/// What is to be done next in a session.
#[derive(Clone, Copy, Debug, PartialEq, Eq)]
pub enum HostStep {
    /// There is a packet to send.
    Packet,
    /// More bytes of the client are to be fed, or the input is to be closed.
    NeedInput,
    /// A whole request came, which is to be accepted or refused.
    Asked,
    /// Something of the store is to be reported.
    Need(Need),
    /// The session ended so, and all was sent.
    Ended(Outcome),
}

/// A report whose packet is to be sent, if it was asked for.
pub(crate) fn packet_where(asked: bool) -> HostReported
    ensures { result ≡ packet_where asked }
{
    if !asked {
        return HostReported::NotAsked;
    }
    HostReported::Packet
}

/// A report that was taken, if it was asked for.
pub(crate) fn taken_where(asked: bool) -> HostReported
    ensures { result ≡ taken_where asked }
{
    if !asked {
        return HostReported::NotAsked;
    }
    HostReported::Taken
}
