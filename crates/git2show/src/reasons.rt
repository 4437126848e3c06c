//! Why a line of a repository text or of a script is refused, in words.

use git_msg::Command;
use git_names::Format;
use git_pkt::escape_into;
use git_repository::LONGEST_LINE;
use std::fmt::{self, Display, Formatter};
use std::str;
use thiserror::Error;

/// The maximum number of bytes of a line that are shown.
const MOST_SHOWN: usize = 64;

/// The size of a buffer for them, each with its escape.
const SHOWN: usize = 4 * MOST_SHOWN;

/// Bytes of a text between quotes, as `show` shows them, and cut off if they are many.
#[derive(Clone, Copy, Debug)]
pub(crate) struct Shown<'a>(pub(crate) &'a [u8]);

impl Display for Shown<'_> {
    fn fmt<W: fmt::Write>(&self, f: &mut Formatter<W>) -> fmt::Result {
        let (front, dots) = match self.0.get(..MOST_SHOWN) {
            Some(front) => (front, "..."),
            None => (self.0, ""),
        };
        let mut shown = [0; SHOWN];
        let end = escape_into(front, &mut shown, 0);
        let text = shown.get(..end).and_then(|text| str::from_utf8(text).ok());
        let text = text.unwrap_or("");
        write!(f, "`{text}{dots}`")
    }
}

/// Why a line is refused.
#[derive(Clone, Copy, Debug, Error)]
pub(crate) enum Reason<'a> {
    /// It is the first of a repository text, and names no object format.
    #[error("{0} is not `format sha1` or `format sha256`")]
    NoFormat(Shown<'a>),
    /// It is empty.
    #[error("it is empty")]
    Empty,
    /// It has more bytes than a line may have.
    #[error("it is longer than {LONGEST_LINE} bytes")]
    TooLong,
    /// This word begins no line of a repository text.
    #[error("{0} is not `ref`, `object`, `ready`, `shallow` or `unshallow`")]
    UnknownWord(Shown<'a>),
    /// It ends after this word, which a further one has to follow.
    #[error("it ends after {0}")]
    EndsAfter(Shown<'a>),
    /// A word is no object name of the format.
    #[error("{0} is no object name of {name}, {digits} hexadecimal digits", name = .1.name(), digits = .1.digits())]
    NoObjectName(Shown<'a>, Format),
    /// A word is no reference name.
    #[error("{0} is no reference name, `HEAD` or one below `refs/`")]
    NoReferenceName(Shown<'a>),
    /// A word is no number that is allowed there.
    #[error("{0} is no number that is allowed there")]
    NoNumber(Shown<'a>),
    /// A reference that is unborn is not `HEAD`, or is without what it points to.
    #[error("{0} is unborn, which only `HEAD` with a `symref-target:` may be")]
    NoUnbornHead(Shown<'a>),
    /// A name does not come after the one before it, of a reference or of an object.
    #[error("names rise, and {name} does not come after {previous}")]
    NotRising {
        name: Shown<'a>,
        previous: Shown<'a>,
    },
    /// A number of common objects was there before.
    #[error("there is a line `ready` before it")]
    SecondReady,
    /// The line begins a request, and is no command.
    #[error("{0} is no command, `ls-refs`, `fetch` or `object-info`")]
    NoCommand(Shown<'a>),
    /// A word is no argument of the command.
    #[error("{0} is no argument of `{name}`", name = .1.name())]
    NoArgument(Shown<'a>, Command),
    /// The value of this argument is empty or too long.
    #[error("the value of {0} is empty or too long")]
    BadLength(Shown<'a>),
    /// The arguments of its request are longer than is allowed.
    #[error("the arguments of its request are too long together")]
    TooMuchKept,
    /// Another one, which none of its words shows.
    #[error("it may not come here")]
    Other,
}
