//! Why a case does not pass.

use std::alloc::{AllocError, AllocFailed};
use std::io;

/// Why a case did not pass.
#[derive(Debug, Drop)]
pub enum Trouble {
    /// Its text is no case.
    BadCase(&'static str),
    /// The result is not the stated one: where the input was cut or ended, and the result.
    Differs(String),
    /// A side broke a rule that holds in every case.
    Breaks(&'static str),
    /// Memory ran out.
    OutOfMemory,
    /// A file that it names cannot be read.
    NoFile,
}

impl From<AllocError> for Trouble {
    fn from(_error: AllocError) -> Trouble {
        Trouble::OutOfMemory
    }
}

impl From<AllocFailed<u8>> for Trouble {
    fn from(_error: AllocFailed<u8>) -> Trouble {
        Trouble::OutOfMemory
    }
}

impl From<io::Error> for Trouble {
    fn from(error: io::Error) -> Trouble {
        match error.kind() {
            io::ErrorKind::OutOfMemory => Trouble::OutOfMemory,
            _ => Trouble::NoFile,
        }
    }
}
