//! What the texts of a report that C passes mean.

ghost use Rattle.std.specs.Prelude.{◌≡◌};
ghost use Rattle.gitwire.specs.HostAnswers.{unread_as};

use crate::answer::{GitwireAnswer, What};
use crate::host::refused_as;
use git_pkt::Kind;

/// Why texts mean no report.
#[derive(Clone, Copy, Debug)]
pub(crate) enum Unread {
    /// One is refused by this kind of error.
    Refused(Kind),
    /// There is no memory for a copy of them.
    OutOfMemory,
}

impl Unread {
    /// What is reported to C.
    pub(crate) fn answer(self) -> GitwireAnswer
        ensures { result ≡ unread_as self }
    {
        match self {
            Unread::Refused(kind) => refused_as(kind),
            Unread::OutOfMemory => GitwireAnswer::of(What::OutOfMemory),
        }
    }
}
