//! Why a text is no name.

ghost use Rattle.std.specs.Prelude.{Some};
ghost use Rattle.git_names.specs.NameFaults.{name_fault_text};

use std::error::Error;
use std::fmt;

/// Why a text is no name.
#[derive(Clone, Copy, Debug, PartialEq, Eq, Hash)]
pub enum NameFault {
    /// The text is no object name of the requested format.
    BadObjectName,
    /// The text is no reference name.
    BadRefName,
}

impl fmt::Display for NameFault {
    ghost output = { λ fault. Some (name_fault_text fault) };

    fn fmt<W: fmt::Write>(&self, f: &mut fmt::Formatter<W>) -> fmt::Result {
        f.write_str(match self {
            NameFault::BadObjectName => "BadObjectName",
            NameFault::BadRefName => "BadRefName",
        })
    }
}

impl Error for NameFault {}
