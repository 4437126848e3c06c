//! The bytes of a pack in memory, and whose memory that is.

ghost use Rattle.std.specs.Prelude.{◌≡◌};

use std::fmt;

/// The bytes of a pack.
#[derive(Drop)]
pub enum Pack {
    /// They are the repository's own, which frees them.
    Owned(Vec<u8>),
    /// They are lent, for example from a file that is mapped, and last unchanged as long as the program.
    Lent(&'static [u8]),
}

impl Pack {
    ghost use Rattle.git_server.specs.PackBytes.{bytes_in};

    /// The bytes, whoever owns them.
    pub fn bytes(&self) -> &[u8]
        ensures { result.now ≡ bytes_in self.now }
    {
        match self {
            Pack::Owned(bytes) => bytes,
            Pack::Lent(bytes) => bytes,
        }
    }
}

/// Whose bytes they are, and how many: a pack may have millions.
impl fmt::Debug for Pack {
    fn fmt<W: fmt::Write>(&self, f: &mut fmt::Formatter<W>) -> fmt::Result {
        match self {
            Pack::Owned(bytes) => write!(f, "Owned({} bytes)", bytes.len()),
            Pack::Lent(bytes) => write!(f, "Lent({} bytes)", bytes.len()),
        }
    }
}
