//! Why an input can be refused, and where: each reason has a name and a number of its own.
ghost use Rattle.std.specs.Prelude.{◌≡◌, Some};
ghost use Rattle.git_pkt.specs.FaultNames.{kind_name, kind_number, fault_text, run_fault_text};
ghost use Rattle.git_pkt.specs.NameFaults.{kind_of};

use arrayvec::ArrayString;
use git_names::NameFault;
use itoa::Buffer;
use std::fmt;

/// The maximum length of a fault's text: 17 bytes of a name, ` at ` and 20 digits.
const LONGEST_TEXT: usize = 41;

/// Why an input was refused, or why a run over a reader and a writer ended early.
///
/// The names and numbers are this project's own. The rules are those of gitprotocol-common(5),
/// gitprotocol-v2(5), gitprotocol-pack(5) and git-check-ref-format(1).
#[derive(Clone, Copy, Debug, PartialEq, Eq)]
pub enum Kind {
    /// A byte of a packet's length is not a hexadecimal digit.
    BadDigit,
    /// The length digits are `0003`, which no packet has.
    BadLength,
    /// The length digits are above `fff0`, the longest packet.
    TooLong,
    /// The input ended inside a packet, or before all that was expected had come.
    Truncated,
    /// The stream goes on past the last position, 9,223,372,036,854,775,807.
    StreamTooLong,
    /// A packet of the packfile section has no band byte.
    NoBand,
    /// A packet of the packfile section has a band byte other than 1, 2 and 3.
    BadBand,
    /// A line is not a capability line.
    BadCapability,
    /// This end does not know the request's command.
    UnknownCommand,
    /// The request has a second command line.
    TwoCommands,
    /// The request has no command line.
    NoCommand,
    /// A command, a capability or an argument was used that was not advertised.
    NotAdvertised,
    /// A text that has to be an object name is not one.
    BadObjectName,
    /// A text that has to be a reference name is not one.
    BadRefName,
    /// A text that has to be a number is not one, or the number is out of range.
    BadNumber,
    /// `deepen` is used together with `deepen-since` or `deepen-not`.
    DeepenConflict,
    /// A fetch asks for no object and no reference, and does not negotiate alone.
    NoWants,
    /// An object-info request does not ask for the size.
    NoSize,
    /// The object format is not that of this end.
    WrongFormat,
    /// The request's command has no such argument line.
    UnknownArgument,
    /// The request's arguments exceed the limit on the bytes that are kept.
    TooMuchKept,
    /// A packet of this kind is not allowed here.
    UnexpectedPacket,
    /// The other end sent an error packet.
    RemoteError,
    /// The repository does not have a requested reference.
    UnknownRef,
    /// The repository does not have a requested object.
    NotOurs,
    /// The source of the pack failed.
    PackSource,
    /// The other end does not speak version 2 of the protocol.
    NotVersion2,
    /// A section of a response is unknown, repeated, or out of order.
    UnexpectedSection,
    /// A line is not one that its section may have.
    BadLine,
    /// Memory ran out while an argument was kept.
    OutOfMemory,
    /// The other end sent a packet of the fatal band.
    RemoteFatal,
    /// A reader failed.
    ReadFault,
    /// A writer failed.
    WriteFault,
    /// All reads that were allowed were made, but the input had not ended.
    ReadLimit,
}

impl Kind {
    /// The name that users see, as `BadDigit`: an error packet contains it too.
    pub fn name(self) -> &'static str
        ensures { result.now ≡ kind_name self }
    {
        match self {
            Kind::BadDigit => "BadDigit",
            Kind::BadLength => "BadLength",
            Kind::TooLong => "TooLong",
            Kind::Truncated => "Truncated",
            Kind::StreamTooLong => "StreamTooLong",
            Kind::NoBand => "NoBand",
            Kind::BadBand => "BadBand",
            Kind::BadCapability => "BadCapability",
            Kind::UnknownCommand => "UnknownCommand",
            Kind::TwoCommands => "TwoCommands",
            Kind::NoCommand => "NoCommand",
            Kind::NotAdvertised => "NotAdvertised",
            Kind::BadObjectName => "BadObjectName",
            Kind::BadRefName => "BadRefName",
            Kind::BadNumber => "BadNumber",
            Kind::DeepenConflict => "DeepenConflict",
            Kind::NoWants => "NoWants",
            Kind::NoSize => "NoSize",
            Kind::WrongFormat => "WrongFormat",
            Kind::UnknownArgument => "UnknownArgument",
            Kind::TooMuchKept => "TooMuchKept",
            Kind::UnexpectedPacket => "UnexpectedPacket",
            Kind::RemoteError => "RemoteError",
            Kind::UnknownRef => "UnknownRef",
            Kind::NotOurs => "NotOurs",
            Kind::PackSource => "PackSource",
            Kind::NotVersion2 => "NotVersion2",
            Kind::UnexpectedSection => "UnexpectedSection",
            Kind::BadLine => "BadLine",
            Kind::OutOfMemory => "OutOfMemory",
            Kind::RemoteFatal => "RemoteFatal",
            Kind::ReadFault => "ReadFault",
            Kind::WriteFault => "WriteFault",
            Kind::ReadLimit => "ReadLimit",
        }
    }

    /// The number of the refusal, from 1 to 34.
    pub fn number(self) -> u8
        ensures { result ≡ kind_number self }
    {
        match self {
            Kind::BadDigit => 1,
            Kind::BadLength => 2,
            Kind::TooLong => 3,
            Kind::Truncated => 4,
            Kind::StreamTooLong => 5,
            Kind::NoBand => 6,
            Kind::BadBand => 7,
            Kind::BadCapability => 8,
            Kind::UnknownCommand => 9,
            Kind::TwoCommands => 10,
            Kind::NoCommand => 11,
            Kind::NotAdvertised => 12,
            Kind::BadObjectName => 13,
            Kind::BadRefName => 14,
            Kind::BadNumber => 15,
            Kind::DeepenConflict => 16,
            Kind::NoWants => 17,
            Kind::NoSize => 18,
            Kind::WrongFormat => 19,
            Kind::UnknownArgument => 20,
            Kind::TooMuchKept => 21,
            Kind::UnexpectedPacket => 22,
            Kind::RemoteError => 23,
            Kind::UnknownRef => 24,
            Kind::NotOurs => 25,
            Kind::PackSource => 26,
            Kind::NotVersion2 => 27,
            Kind::UnexpectedSection => 28,
            Kind::BadLine => 29,
            Kind::OutOfMemory => 30,
            Kind::RemoteFatal => 31,
            Kind::ReadFault => 32,
            Kind::WriteFault => 33,
            Kind::ReadLimit => 34,
        }
    }
}

impl fmt::Display for Kind {
    ghost output = { λ kind. Some (kind_name kind) };

    fn fmt<W: fmt::Write>(&self, f: &mut fmt::Formatter<W>) -> fmt::Result {
        f.write_str(self.name())
    }
}

impl From<NameFault> for Kind {
    ghost from_gives = { λ fault kind. kind ≡ kind_of fault };

    fn from(fault: NameFault) -> Kind {
        match fault {
            NameFault::BadObjectName => Kind::BadObjectName,
            NameFault::BadRefName => Kind::BadRefName,
        }
    }
}

/// A refusal and its place.
#[derive(Clone, Copy, Debug, PartialEq, Eq)]
pub struct Fault {
    /// Why the input was refused.
    pub kind: Kind,
    /// The place in the reader's stream, in bytes from its start.
    pub offset: u64,
}

impl Fault {
    /// Its text for users: its name, ` at ` and its offset.
    pub fn text(&self) -> ArrayString<LONGEST_TEXT>
        ensures { result.bytes ≡ fault_text self.now }
    {
        let mut text = ArrayString::new();
        text.push_str(self.kind.name());
        text.push_str(" at ");
        text.push_str(Buffer::new().format(self.offset));
        text
    }
}

impl fmt::Display for Fault {
    ghost output = { λ fault. Some (fault_text fault) };

    fn fmt<W: fmt::Write>(&self, f: &mut fmt::Formatter<W>) -> fmt::Result {
        f.write_str(self.text().as_str())
    }
}

impl std::error::Error for Fault {}

/// Why a run over a reader and a writer ended early.
#[derive(Clone, Copy, Debug, PartialEq, Eq)]
pub enum RunFault {
    /// A reader failed.
    ReadFault,
    /// A writer failed. A prefix of the bytes passed to it was written.
    WriteFault,
    /// All reads that were allowed were made, but the input had not ended.
    ReadLimit,
    /// The input was refused.
    Refused(Fault),
}

impl fmt::Display for RunFault {
    ghost output = { λ fault. Some (run_fault_text fault) };

    fn fmt<W: fmt::Write>(&self, f: &mut fmt::Formatter<W>) -> fmt::Result {
        match self {
            RunFault::ReadFault => f.write_str("ReadFault"),
            RunFault::WriteFault => f.write_str("WriteFault"),
            RunFault::ReadLimit => f.write_str("ReadLimit"),
            RunFault::Refused(fault) => write!(f, "{fault}"),
        }
    }
}

impl std::error::Error for RunFault {}
