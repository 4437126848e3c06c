//! The side bands of a packfile section, as in gitprotocol-v2(5): the first byte of a payload names the band of the others.

ghost use Rattle.std.specs.Prelude.{◌≡◌, ◌+◌, ◌≤◌, ◌<◌, ◌∷◌, MatchResult, drop, length, take};
ghost use Rattle.std.specs.Io.{StartsWith};
ghost use Rattle.arrayvec.specs.ArrayVec.{array_vec_len};
ghost use Rattle.git_pkt.specs.Bands.{IsNoBand, band_packet, byte_of};
ghost use Rattle.git_pkt.specs.Packets.{spelling_of, longest_payload};
ghost use Rattle.git_pkt.specs.Passed.{band_in};

use crate::fault::Kind;
use crate::hold::{Hold, LONGEST_PACKET, append, put_at};
use crate::packet::{begin, digits};

/// How many bytes of a packet come before those on its band: its four digits and the band's byte.
pub const BAND_HEAD: usize = 5;

/// How many blank bytes are appended to a hold at a time.
const BLANKS: usize = 1024;

/// The kind of a packet's bytes, inside a packfile section.
#[derive(Clone, Copy, Debug, PartialEq, Eq, Hash)]
pub enum Band {
    /// 1: bytes of the pack.
    Pack,
    /// 2: progress, a text for the user.
    Progress,
    /// 3: a fatal error; nothing follows it.
    Fatal,
}

impl Band {
    /// The band's byte.
    pub fn byte(self) -> u8
        ensures { result ≡ byte_of self }
    {
        match self {
            Band::Pack => 1,
            Band::Progress => 2,
            Band::Fatal => 3,
        }
    }
}

/// Makes the hold the packet of these bytes on a band. There are at most 65,515, for the payload begins with the band's byte.
pub fn put_band(hold: &mut Hold, band: Band, bytes: &[u8])
    requires { length bytes.now < longest_payload }
    ensures { hold.new.items ≡ spelling_of (band_packet band bytes.now) }
{
    begin(hold, bytes.len() + 1);
    append(hold, &[band.byte()]);
    append(hold, bytes);
}

/// Lengthens the hold for a packet on a band, so that 65,515 bytes come after the place of its first [`BAND_HEAD`]: write
/// over them, and then call [`close_band`]. A hold that is as long as the longest packet stays as it is.
pub fn open_band(hold: &mut Hold)
    ensures long { array_vec_len hold.new ≡ 65520 }
    ensures front { take (array_vec_len hold.old) hold.new.items ≡ hold.old.items }
{
    while hold.len() < LONGEST_PACKET {
        let more = (LONGEST_PACKET - hold.len()).min(BLANKS);
        append(hold, &[0; BLANKS][..more]);
    }
}

/// Makes the hold begin with the packet on a band of the first `count` bytes after the place of its first [`BAND_HEAD`].
/// These bytes are not moved, and the hold keeps its length.
pub fn close_band(hold: &mut Hold, band: Band, count: usize)
    requires within { count + 5 ≤ array_vec_len hold.old }
    ensures front { StartsWith hold.new.items (spelling_of (band_packet band (take count (drop 5 hold.old.items)))) }
    ensures behind { drop 5 hold.new.items ≡ drop 5 hold.old.items }
    ensures long { array_vec_len hold.new ≡ array_vec_len hold.old }
{
    let held = hold.as_mut_slice();
    let [a, b, c, d] = digits(count + BAND_HEAD);
    put_at(held, 0, &[a, b, c, d, band.byte()]);
}

/// The band of a payload inside a packfile section, and the bytes after it. An empty payload is `NoBand`, and one whose
/// first byte names no band is `BadBand`.
pub fn split_band(payload: &[u8]) -> Result<(Band, &[u8]), Kind>
    ensures { MatchResult result (λ parts. payload.now ≡ byte_of parts.0 ∷ parts.1.now) (IsNoBand payload.now) }
{
    match payload {
        [] => Err(Kind::NoBand),
        [1, bytes @ ..] => Ok((Band::Pack, bytes)),
        [2, bytes @ ..] => Ok((Band::Progress, bytes)),
        [3, bytes @ ..] => Ok((Band::Fatal, bytes)),
        _ => Err(Kind::BadBand),
    }
}

/// The band of a packet that begins with these bytes, if its bytes pass.
pub(crate) fn band_of(bytes: &[u8]) -> Option<Band>
    ensures { result ≡ band_in (drop 4 bytes.now) }
{
    match bytes {
        [_, _, _, _, 1, ..] => Some(Band::Pack),
        [_, _, _, _, 2, ..] => Some(Band::Progress),
        _ => None,
    }
}
