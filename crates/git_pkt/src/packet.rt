//! Packets of the wire, as in gitprotocol-common(5), and how they are written.

ghost use Rattle.std.specs.Prelude.{◌≡◌, ◌+◌, ◌≤◌, ◌<◌, ◌++◌, ℕ, List, length};
ghost use Rattle.std.specs.Io.{StartsWith};
ghost use Rattle.git_pkt.specs.Digits.{digits_of};
ghost use Rattle.git_pkt.specs.Fronts.{HasFront};
ghost use Rattle.git_pkt.specs.Packets.{Pkt, Spells, body_of, seen, spelling_of, text_of, longest_payload};

use crate::digits::{Digits, read_digits};
use crate::hold::{Hold, append};
use git_names::lower_digit;

/// A packet with a borrowed payload.
#[derive(Clone, Copy, Debug)]
pub enum Packet<'a> {
    /// `0000`, the end of a message.
    Flush,
    /// `0001`, between two parts of a message.
    Delim,
    /// `0002`, the end of a response on a stateless connection.
    RespEnd,
    /// A data packet: the bytes after its four digits, at most 65,516.
    Payload(&'a [u8]),
}

/// Makes the hold the packet's spelling, with digits in lower case.
pub fn put(hold: &mut Hold, packet: Packet<'_>)
    requires { length (body_of (seen packet)) ≤ longest_payload }
    ensures { hold.new.items ≡ spelling_of (seen packet.entry) }
{
    match packet {
        Packet::Flush => spell(hold, 0, b""),
        Packet::Delim => spell(hold, 1, b""),
        Packet::RespEnd => spell(hold, 2, b""),
        Packet::Payload(payload) => spell(hold, payload.len() + 4, payload),
    }
}

/// A payload's text: the payload without the LF at its end, if it ends with one.
pub fn text(payload: &[u8]) -> &[u8]
    ensures { result.now ≡ text_of payload.now }
{
    match payload {
        [text @ .., b'\n'] => text,
        _ => payload,
    }
}

/// Makes the hold the four digits of a data packet. Append its payload, of `length` bytes, next.
pub fn begin(hold: &mut Hold, length: usize)
    requires { length ≤ longest_payload }
    ensures { hold.new.items ≡ digits_of (length + 4) }
{
    spell(hold, length + 4, b"");
}

/// The packet at the hold's front, with its four digits. The bytes after it are no part of it.
pub fn front_packet(hold: &Hold) -> &[u8]
    requires begins { HasFront hold.now.items }
    ensures front { (packet : Pkt) (bytes : List ℕ) → Spells packet bytes → StartsWith hold.now.items bytes → result.now ≡ bytes }
    ensures fits { length result.now ≤ 65520 }
{
    let bytes = hold.as_slice();
    match read_digits(bytes) {
        Digits::Number(field) => &bytes[..field.max(4)],
        Digits::Bad(_) => unreachable!(),
    }
}

/// A number below 65,536 as four digits.
pub(crate) fn digits(field: usize) -> [u8; 4]
    requires { field < 65536 }
    ensures { result ≡ digits_of field }
{
    [
        lower_digit(field / 4096),
        lower_digit(field / 256 % 16),
        lower_digit(field / 16 % 16),
        lower_digit(field % 16),
    ]
}

/// Four digits and the bytes after them.
fn spell(hold: &mut Hold, field: usize, body: &[u8])
    requires digits { field < 65536 }
    requires fits { length body.now ≤ longest_payload }
    ensures { hold.new.items ≡ digits_of field ++ body.now }
{
    hold.clear();
    append(hold, &digits(field));
    append(hold, body);
}
