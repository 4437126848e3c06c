//! The words that name the kinds of packets in a trace.

ghost use Rattle.std.specs.Prelude.{◌≡◌, drop};
ghost use Rattle.std.specs.List.{list_any};
ghost use Rattle.std.specs.Str.{bytes_eq};
ghost use Rattle.git_trace.specs.ShownLines.{bytes_shown, colour_of, label_in, name_of, sections};

/// The kind of a packet, as it is named in columns.
#[derive(Clone, Copy, Debug, PartialEq, Eq)]
pub(crate) enum Label {
    /// A flush packet.
    Flush,
    /// A delimiter packet.
    Delim,
    /// A response-end packet.
    End,
    /// The line of a request that names its command.
    Command,
    /// The line that a section begins with.
    Section,
    /// The packet with which a pack begins.
    Pack,
    /// The server's progress.
    Progress,
    /// The error of the fatal band.
    Fatal,
    /// An error packet.
    Refusal,
    /// Any other data packet.
    Data,
}

impl Label {
    /// The label of a packet with these bytes.
    pub(crate) fn of_bytes(bytes: &[u8]) -> Self
        ensures { result ≡ label_in bytes.now }
    {
        if bytes.starts_with(b"\x02") {
            Label::Progress
        } else if bytes.starts_with(b"\x03") {
            Label::Fatal
        } else if bytes.starts_with(b"command=") {
            Label::Command
        } else if is_section(bytes) {
            Label::Section
        } else if bytes.starts_with(b"ERR ") {
            Label::Refusal
        } else {
            Label::Data
        }
    }

    /// The word for it.
    pub(crate) fn name(self) -> &'static [u8]
        ensures { result.now ≡ name_of self }
    {
        match self {
            Label::Flush => b"flush",
            Label::Delim => b"delim",
            Label::End => b"end",
            Label::Command => b"command",
            Label::Section => b"section",
            Label::Pack => b"pack",
            Label::Progress => b"progress",
            Label::Fatal | Label::Refusal => b"error",
            Label::Data => b"data",
        }
    }

    /// The escape sequence that switches its colour on.
    pub(crate) fn colour(self) -> &'static [u8]
        ensures { result.now ≡ colour_of self }
    {
        match self {
            Label::Flush | Label::Delim | Label::End => b"\x1b[2m",
            Label::Command => b"\x1b[1;36m",
            Label::Section => b"\x1b[33m",
            Label::Pack => b"\x1b[34m",
            Label::Progress => b"\x1b[32m",
            Label::Fatal | Label::Refusal => b"\x1b[1;31m",
            Label::Data => b"\x1b[0m",
        }
    }

    /// The bytes that are shown: all, except the byte that names a band.
    pub(crate) fn text(self, bytes: &[u8]) -> &[u8]
        ensures { result.now ≡ bytes_shown self bytes.now }
    {
        match self {
            Label::Progress | Label::Fatal => behind_band(bytes),
            _ => bytes,
        }
    }
}

/// Whether a section begins with the line.
fn is_section(line: &[u8]) -> bool
    ensures { result ≡ list_any (bytes_eq line.now) sections }
{
    is(line, b"acknowledgments")
        || is(line, b"shallow-info")
        || is(line, b"wanted-refs")
        || is(line, b"packfile-uris")
        || is(line, b"packfile")
}

fn is(text: &[u8], word: &[u8]) -> bool
    ensures { result ≡ bytes_eq text.now word.now }
{
    text == word
}

/// The bytes after the first.
fn behind_band(bytes: &[u8]) -> &[u8]
    ensures { result.now ≡ drop 1 bytes.now }
{
    match bytes {
        [_, rest @ ..] => rest,
        _ => bytes,
    }
}
