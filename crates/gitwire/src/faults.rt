//! What users see of errors, by their numbers.

ghost use Rattle.gitwire.specs.FaultAnswers.{IsKindOf, AnnouncesText};

use crate::buffers::put_bytes;
use git_pkt::{Fault, Kind};

/// Writes what users see of an error, such as `Truncated at 994`, to the front of the buffer, and returns its length: 0 if no error has the
/// number, or the buffer is too small.
#[unsafe(no_mangle)]
pub extern "C" fn gitwire_fault_text(fault: u32, offset: u64, buffer: &mut [u8]) -> usize
    ensures { AnnouncesText fault offset buffer.old result buffer.new }
{
    let Some(kind) = kind_of(fault) else {
        return 0;
    };
    let text = Fault { kind, offset }.text();
    put_bytes(text.as_bytes(), buffer)
}

/// The kind of error with this number.
pub(crate) fn kind_of(number: u32) -> Option<Kind>
    ensures { IsKindOf number result }
{
    match number {
        1 => Some(Kind::BadDigit),
        2 => Some(Kind::BadLength),
        3 => Some(Kind::TooLong),
        4 => Some(Kind::Truncated),
        5 => Some(Kind::StreamTooLong),
        6 => Some(Kind::NoBand),
        7 => Some(Kind::BadBand),
        8 => Some(Kind::BadCapability),
        9 => Some(Kind::UnknownCommand),
        10 => Some(Kind::TwoCommands),
        11 => Some(Kind::NoCommand),
        12 => Some(Kind::NotAdvertised),
        13 => Some(Kind::BadObjectName),
        14 => Some(Kind::BadRefName),
        15 => Some(Kind::BadNumber),
        16 => Some(Kind::DeepenConflict),
        17 => Some(Kind::NoWants),
        18 => Some(Kind::NoSize),
        19 => Some(Kind::WrongFormat),
        20 => Some(Kind::UnknownArgument),
        21 => Some(Kind::TooMuchKept),
        22 => Some(Kind::UnexpectedPacket),
        23 => Some(Kind::RemoteError),
        24 => Some(Kind::UnknownRef),
        25 => Some(Kind::NotOurs),
        26 => Some(Kind::PackSource),
        27 => Some(Kind::NotVersion2),
        28 => Some(Kind::UnexpectedSection),
        29 => Some(Kind::BadLine),
        30 => Some(Kind::OutOfMemory),
        31 => Some(Kind::RemoteFatal),
        32 => Some(Kind::ReadFault),
        33 => Some(Kind::WriteFault),
        34 => Some(Kind::ReadLimit),
        _ => None,
    }
}
