//! What a call returns to C.

ghost use Rattle.std.specs.Prelude.{◌≡◌};

use git_client::EventKind;
use git_pkt::Fault;
use git_server::Outcome;

/// The result of one call. Fields without a meaning are 0.
#[repr(C)]
#[derive(Clone, Copy, Debug)]
pub struct GitwireAnswer {
    /// How many bytes of the chunk were used.
    pub used: usize,
    /// An offset in the stream, counted in bytes from 0; or the number that was asked for.
    pub offset: u64,
    /// How many bytes are at the front of the buffer; or how many packets or events are in the array.
    pub length: usize,
    /// The number of a [`What`].
    pub kind: u32,
    /// The number of an error, from 1 to 34.
    pub fault: u32,
}

/// The result of a call.
#[derive(Clone, Copy, Debug)]
pub enum What {
    /// All went well.
    Done,
    /// These bytes of the chunk were used, and nothing else is to be reported.
    More,
    /// The library refuses: `fault` is why, and `offset` where.
    Failed,
    /// The handle has nothing: it was never made, its request was taken, or it was freed. It is named for requests, since a program in C
    /// has no other handles with nothing in them.
    NoRequest,
    /// The buffer is too small. Nothing was used or changed.
    BufferTooSmall,
    /// The call may not be made at this moment. Nothing changed.
    NotNow,
    /// Memory ran out.
    OutOfMemory,
    /// A number means nothing, or a limit is above 1,073,741,824.
    BadValue,
    /// There is no such item.
    Nothing,
    /// A packet with a payload, which is in the buffer.
    Payload,
    /// A flush packet.
    Flush,
    /// A delimiter packet.
    Delim,
    /// A response-end packet.
    ResponseEnd,
    /// A whole request.
    Request,
    /// The peer leaves.
    Stop,
    /// A packet to be sent, which is in the buffer.
    Packet,
    /// Nothing is to be sent before more bytes have come.
    NeedInput,
    /// The conversation ended by a flush packet.
    EndedByFlush,
    /// The conversation ended with the input.
    EndedByClose,
    /// A request may be asked now.
    CanAsk,
    /// The client has left, and nothing more is to be sent.
    Finished,
    /// An event of a client.
    Event(EventKind),
    /// A whole request came, which is to be accepted or refused.
    Asked,
    /// Whether the store has a wanted object.
    NeedWant,
    /// The object of a wanted reference.
    NeedWantRef,
    /// Whether the store has an object of the client.
    NeedHave,
    /// Whether the store is ready to send a pack.
    NeedReady,
    /// The next line of the shallow boundary, or its end.
    NeedBoundary,
    /// Bytes of the pack or of progress, or the end of the pack.
    NeedPack,
    /// The next reference, or the end.
    NeedReference,
    /// The size of an object.
    NeedSize,
    /// A reference does not come after the one that was reported before it. Nothing changed.
    OutOfOrder,
    /// A line of the shallow boundary is an `unshallow` of a commit that the request does not call shallow. Nothing changed.
    NotShallow,
    /// Lines of a transcript, which are in the buffer.
    Lines,
    /// Bytes of the requests are needed, or their end.
    NeedRequests,
    /// Bytes of the responses are needed, or their end.
    NeedResponses,
    /// A conversation was checked to its end, and all of it is well-formed.
    Checked,
    /// The requests of a conversation are refused: `fault` is why, and `offset` where in the requests.
    FailedRequests,
    /// The responses of a conversation are refused: `fault` is why, and `offset` where in the responses.
    FailedResponses,
}

/// Each kind, with its number and its name in C: the macro `$reads` makes a `match` on `$from` of them.
macro_rules! kinds {
    ($reads:ident, $from:expr) => {
        $reads! { $from;
            Done = 0 "Done";
            More = 1 "More";
            Failed = 2 "Failed";
            NoRequest = 3 "NoRequest";
            BufferTooSmall = 4 "BufferTooSmall";
            NotNow = 5 "NotNow";
            OutOfMemory = 6 "OutOfMemory";
            BadValue = 7 "BadValue";
            Nothing = 8 "Nothing";
            Payload = 9 "Payload";
            Flush = 10 "Flush";
            Delim = 11 "Delim";
            ResponseEnd = 12 "ResponseEnd";
            Request = 13 "Request";
            Stop = 14 "Stop";
            Packet = 15 "Packet";
            NeedInput = 16 "NeedInput";
            EndedByFlush = 17 "EndedByFlush";
            EndedByClose = 18 "EndedByClose";
            CanAsk = 19 "CanAsk";
            Finished = 20 "Finished";
            Event(Capability) = 21 "Capability";
            Event(Offered) = 22 "Offered";
            Event(Reference) = 23 "Reference";
            Event(Ack) = 24 "Ack";
            Event(Nak) = 25 "Nak";
            Event(Ready) = 26 "Ready";
            Event(Shallow) = 27 "Shallow";
            Event(Unshallow) = 28 "Unshallow";
            Event(WantedRef) = 29 "WantedRef";
            Event(Info) = 30 "Info";
            Event(Pack) = 31 "Pack";
            Event(Progress) = 32 "Progress";
            Event(Ended) = 33 "Ended";
            Asked = 34 "Asked";
            NeedWant = 35 "NeedWant";
            NeedWantRef = 36 "NeedWantRef";
            NeedHave = 37 "NeedHave";
            NeedReady = 38 "NeedReady";
            NeedBoundary = 39 "NeedBoundary";
            NeedPack = 40 "NeedPack";
            NeedReference = 41 "NeedReference";
            NeedSize = 42 "NeedSize";
            OutOfOrder = 43 "OutOfOrder";
            NotShallow = 44 "NotShallow";
            Event(Section) = 45 "Section";
            Lines = 46 "Lines";
            NeedRequests = 47 "NeedRequests";
            NeedResponses = 48 "NeedResponses";
            Checked = 49 "Checked";
            FailedRequests = 50 "FailedRequests";
            FailedResponses = 51 "FailedResponses";
        }
    };
}

pub(crate) use kinds;

macro_rules! number_of {
    ($from:expr; $($what:ident$(($event:ident))? = $number:literal $name:literal;)+) => {
        match $from {
            $(What::$what$((EventKind::$event))? => $number,)+
        }
    };
}

impl What {
    ghost use Rattle.gitwire.specs.Answers.{more_of, what_number};

    /// What is reported for a chunk if nothing else is: more is to come, or none was expected.
    pub(crate) fn more(expected: bool) -> What
        ensures { result ≡ more_of expected }
    {
        match expected {
            true => What::More,
            false => What::NotNow,
        }
    }

    /// Its number in C, from 0 to 51.
    pub fn number(self) -> u32
        ensures { result ≡ what_number self }
    {
        kinds!(number_of, self)
    }
}

impl GitwireAnswer {
    ghost use Rattle.gitwire.specs.Answers.{answering, answering_used, answering_packet, answering_fault, answering_fault_in, ending};

    /// A result, and nothing more.
    pub(crate) fn of(what: What) -> GitwireAnswer
        ensures { result ≡ answering what }
    {
        GitwireAnswer::of_used(0, what)
    }

    /// The result of a chunk: this many of its bytes were used, and nothing more.
    pub(crate) fn of_used(used: usize, what: What) -> GitwireAnswer
        ensures { result ≡ answering_used used what }
    {
        GitwireAnswer::of_packet(used, 0, 0, what)
    }

    /// A packet at this offset, with this many bytes in the buffer.
    pub(crate) fn of_packet(used: usize, offset: u64, length: usize, what: What) -> GitwireAnswer
        ensures { result ≡ answering_packet used offset length what }
    {
        GitwireAnswer {
            used,
            offset,
            length,
            kind: what.number(),
            fault: 0,
        }
    }

    /// A refusal.
    pub(crate) fn of_fault(used: usize, fault: Fault) -> GitwireAnswer
        ensures { result ≡ answering_fault used fault }
    {
        GitwireAnswer {
            used,
            ..GitwireAnswer::of_fault_in(What::Failed, fault)
        }
    }

    /// A refusal of this kind.
    pub(crate) fn of_fault_in(what: What, fault: Fault) -> GitwireAnswer
        ensures { result ≡ answering_fault_in what fault }
    {
        GitwireAnswer {
            used: 0,
            offset: fault.offset,
            length: 0,
            kind: what.number(),
            fault: u32::from(fault.kind.number()),
        }
    }

    /// The end of a session.
    pub(crate) fn of_end(outcome: Outcome) -> GitwireAnswer
        ensures { result ≡ ending outcome }
    {
        match outcome {
            Outcome::Flush => GitwireAnswer::of(What::EndedByFlush),
            Outcome::Closed => GitwireAnswer::of(What::EndedByClose),
            Outcome::Refused(fault) => GitwireAnswer::of_fault(0, fault),
        }
    }
}
