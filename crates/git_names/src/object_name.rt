//! Object names, read from digits and written as digits, as the crate `hex` does.

ghost use Rattle.std.specs.Prelude.{◌≡◌, ◌+◌, ◌*◌, Err, MatchResult, length, take, drop};
ghost use Rattle.hex.specs.Hex.{decode_sized};
ghost use Rattle.git_names.specs.ObjectFormat.{digits_of, width_of};
ghost use Rattle.git_names.specs.ObjectName.{IsObjectName, IsNoObjectName, IsOid, hex_of, name_bytes};
ghost use Rattle.git_names.specs.Steps.{TakesAtMost};

use crate::counter::Steps;
use crate::digits::{decode_20, decode_32, pairs_of};
use crate::fault::NameFault;
use crate::object_format::Format;
use hex::{FromHex, FromHexError, ToHex};
use std::alloc::{AllocError, Allocator};
use std::convert::AsSlice;
use std::fmt;
use std::marker::Model;

/// An object name, as in gitprotocol-common(5): the hash of an object, as a value of 33 bytes. Two names are equal if their
/// formats and bytes are equal; names of one format are ordered by their bytes.
#[derive(Clone, Copy, Hash, PartialEq, Eq, PartialOrd, Ord)]
pub struct Oid {
    format: Format,
    // The bytes after the format's width are zero.
    bytes: [u8; 32],
}

impl Model for Oid {
    ghost use Rattle.git_names.specs.ObjectName.{ObjectName, IsOid};

    ghost Value = { ObjectName };

    ghost view = { λ o. record { format = o.format; bytes = o.bytes } };

    ghost invariant = { λ o. IsOid (record { format = o.format; bytes = o.bytes }) };

    ghost inverse = { λ id. record { format = id.format; bytes = id.bytes } };
}

const _: () = prove!(size_of::<Oid>() == 33);

impl Oid {
    /// The object name that `text` spells: exactly as many hexadecimal digits as the format has,
    /// of either case. Any other text is `BadObjectName`.
    // Inlined into each caller: otherwise the name that it returns is stored once more and copied from there, which is slow
    // right after the store.
    #[inline(always)]
    pub fn read(format: Format, text: &[u8], steps: &mut Steps) -> Result<Oid, NameFault>
        ensures name { MatchResult result (IsObjectName format text.now)
            (λ fault. (fault ≡ NameFault.BadObjectName) × IsNoObjectName format text.now) }
        ensures cost { TakesAtMost (16 * (length text.now + 1)) steps.old steps.new }
    {
        let decoded = match format {
            Format::Sha1 => decode_20(text, steps),
            Format::Sha256 => decode_32(text, steps),
        };
        match decoded {
            Some(bytes) => Ok(Oid { format, bytes }),
            None => Err(NameFault::BadObjectName),
        }
    }

    /// The name in lower case digits, at the front: as many as its format has. The bytes after them mean nothing.
    pub fn hex(&self) -> [u8; 64]
        ensures text { take (digits_of self.now.format) result ≡ hex_of self.now }
    {
        pairs_of(&self.bytes)
    }

    /// Writes the name in lower case digits to the front of `out`, and returns how many there are.
    /// The bytes of `out` after them stay as they were.
    pub fn write(&self, out: &mut [u8; 64]) -> usize
        ensures count { result ≡ digits_of self.now.format }
        ensures text { take result out.new ≡ hex_of self.now }
        ensures rest { drop result out.new ≡ drop result out.old }
        ensures reads_back { IsObjectName self.now.format (hex_of self.now) self.now }
    {
        let digits = self.format.digits();
        out[..digits].copy_from_slice(&self.hex()[..digits]);
        digits
    }

    /// Writes the name in lower case digits to the front of `buffer`, and returns them. The bytes of `buffer` after them mean nothing.
    pub fn written<'a>(&self, buffer: &'a mut [u8; 64]) -> &'a [u8]
        ensures text { result.now ≡ hex_of self.now }
        ensures reads_back { IsObjectName self.now.format (hex_of self.now) self.now }
    {
        let count = self.write(buffer);
        &buffer[..count]
    }

    /// The format of the name.
    pub fn format(&self) -> Format
        ensures value { result ≡ self.now.format }
        ensures valid { IsOid self.now }
    {
        self.format
    }

    // The bytes of the name, as many as its format has.
    fn as_bytes(&self) -> &[u8]
        ensures { result.now ≡ name_bytes self.now }
    {
        &self.bytes[..self.format.width()]
    }
}

/// An object name of either format; the number of digits determines which. A text of another length is `OddLength` or
/// `InvalidStringLength`, as for an array of bytes.
impl FromHex for Oid {
    ghost use Rattle.git_names.specs.ObjectName.{HexReads};

    type Error = FromHexError;

    ghost from_hex_gives = { HexReads };

    fn from_hex<T: AsSlice<u8> + Drop>(hex: T) -> Result<Oid, FromHexError> {
        let text = hex.as_slice();
        let format = match text.len() {
            64 => Format::Sha256,
            _ => Format::Sha1,
        };
        match Oid::read(format, text, &mut Steps::new()) {
            Ok(id) => Ok(id),
            Err(_) => Err(fault_of(format, text)),
        }
    }
}

// The error of `hex` for a text that is no object name of the format.
#[cold]
fn fault_of(format: Format, text: &[u8]) -> FromHexError
    requires { IsNoObjectName format text.now }
    ensures { decode_sized text.now (width_of format) ≡ Err result }
{
    let mut bytes = [0; 32];
    hex::decode_to_slice(text, &mut bytes[..format.width()]).unwrap_err()
}

/// The digits of the name, as many as its format has.
impl ToHex for Oid {
    ghost use Rattle.git_names.specs.ObjectName.{name_bytes};

    ghost hex_input = { name_bytes };

    fn encode_hex<A: Allocator>(&self, alloc: A) -> Result<String<A>, AllocError> {
        let digits = Vec::from_slice(alloc, self.written(&mut [0; 64]))?;
        Ok(String::from_utf8(digits).unwrap())
    }

    fn encode_hex_upper<A: Allocator>(&self, alloc: A) -> Result<String<A>, AllocError> {
        hex::encode_upper(alloc, self.as_bytes())
    }
}

/// The name in lower case digits.
impl fmt::Debug for Oid {
    ghost use Rattle.std.specs.Prelude.{Some};
    ghost use Rattle.git_names.specs.ObjectName.{hex_of};

    ghost debug_output = { λ id. Some (hex_of id) };

    fn fmt<W: fmt::Write>(&self, f: &mut fmt::Formatter<W>) -> fmt::Result {
        let mut buffer = [0; 64];
        let digits = &mut buffer[..self.format.digits()];
        hex::encode_to_slice(self.as_bytes(), digits).unwrap();
        f.write_str(str::from_utf8(digits).unwrap())
    }
}
