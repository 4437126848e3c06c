//! A packet on its way to a buffer of C, or why there is none.

ghost use Rattle.std.specs.Prelude.{◌≡◌, IfErr, OnOk};
ghost use Rattle.gitwire.specs.Buffers.{Fills};
ghost use Rattle.gitwire.specs.WrittenForC.{refused_name, announcing_why};

use crate::answer::{GitwireAnswer, What};
use crate::buffers::fill;
use git_names::NameFault;
use git_pkt::{Fault, Hold, Kind};

/// Why the values that C passes mean no packet.
#[derive(Clone, Copy, Debug)]
pub(crate) enum Unwritten {
    /// A number means nothing.
    BadValue,
    /// A text is not allowed in the packet, by this kind of error.
    Refused(Kind),
}

impl From<NameFault> for Unwritten {
    ghost from_gives = { λ fault why. why ≡ refused_name fault };

    fn from(fault: NameFault) -> Unwritten {
        Unwritten::Refused(Kind::from(fault))
    }
}

/// Makes a packet in the hold of the handle's writer, and copies it to the front of the buffer.
macro_rules! write_packet {
    ($writer:ident, $alloc:ident; $makes:expr, $buffer:ident) => {
        on!($writer, $alloc; {
            let made = $makes;
            hand_out(made, &$writer.hold, $buffer)
        })
    };
}

pub(crate) use write_packet;

/// Copies the packet that was made to the front of the buffer, or reports why there is none.
pub(crate) fn hand_out(made: Result<(), Unwritten>, hold: &Hold, buffer: &mut [u8]) -> GitwireAnswer
    ensures made { OnOk made (Fills hold.now.items buffer.old result buffer.new) }
    ensures unwritten { IfErr made (λ why. (result ≡ announcing_why why) × (buffer.new ≡ buffer.old)) }
{
    match made {
        Ok(()) => fill(hold.as_slice(), buffer),
        Err(Unwritten::BadValue) => GitwireAnswer::of(What::BadValue),
        Err(Unwritten::Refused(kind)) => GitwireAnswer::of_fault(0, Fault { kind, offset: 0 }),
    }
}
