//! The object formats, and their names.

ghost use Rattle.std.specs.Prelude.{◌≡◌, MatchOption};
ghost use Rattle.git_names.specs.ObjectFormat.{digits_of, name_of, width_of, NamesNoFormat};

/// The hash that object names are made with: an object format, as in gitformat-index(5) and gitprotocol-v2(5).
#[derive(Clone, Copy, Debug, Hash, PartialEq, Eq, PartialOrd, Ord)]
pub enum Format {
    /// SHA-1, with names of 20 bytes.
    Sha1,
    /// SHA-256, with names of 32 bytes.
    Sha256,
}

impl Format {
    /// The format that `text` names, as in the capability `object-format=sha1`.
    pub fn read(text: &[u8]) -> Option<Format>
        ensures { MatchOption result (NamesNoFormat text.now) (λ format. text.now ≡ name_of format) }
    {
        match text {
            b"sha1" => Some(Format::Sha1),
            b"sha256" => Some(Format::Sha256),
            _ => None,
        }
    }

    /// The number of hexadecimal digits in an object name of this format.
    pub fn digits(self) -> usize
        ensures { result ≡ digits_of self }
    {
        match self {
            Format::Sha1 => 40,
            Format::Sha256 => 64,
        }
    }

    // The number of bytes in an object name of this format.
    pub(crate) fn width(self) -> usize
        ensures { result ≡ width_of self }
    {
        match self {
            Format::Sha1 => 20,
            Format::Sha256 => 32,
        }
    }

    /// The name of the format in the protocol.
    pub fn name(self) -> &'static str
        ensures { result.now ≡ name_of self }
    {
        match self {
            Format::Sha1 => "sha1",
            Format::Sha256 => "sha256",
        }
    }
}
