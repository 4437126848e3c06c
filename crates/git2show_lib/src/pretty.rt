//! A packet on a line of columns, for a reader who looks at a conversation.

ghost use Rattle.std.specs.Prelude.{◌≡◌, ◌+◌, ◌*◌, ◌≤◌, ◌++◌, ◌||◌, ◌-◌, length, take, drop};
ghost use Rattle.std.specs.List.{list_any};
ghost use Rattle.std.specs.Str.{bytes_eq};
ghost use Rattle.git_names.specs.Digits.{is_lower_digit};
ghost use Rattle.git_pkt.specs.Packets.{body_of, seen};
ghost use Rattle.git_pkt.specs.Escape.{escaped_of};
ghost use Rattle.git2show_lib.specs.PrettyLines.{label_of, band_label, line_label, sections, name_of, colour_of, named, text_shown, run_length, run_shown};
ghost use Rattle.git2show_lib.specs.PrettyLines.{shortened, right, spaces, columns, columns_before, cut, longest_front, in_column, pretty_line, length_shown};

use git_pkt::{Packet, escape_into, put_at, text};
use itoa::Buffer;

/// How many bytes of a text are shown, at most.
const FRONT: usize = 1024;

/// Space for a line.
pub(crate) const LINE: usize = 320;

/// The maximum number of columns.
const WIDEST: usize = 200;

/// Space for what a line has before its text.
const COLUMNS: usize = 64;

static SPACES: [u8; 10] = [b' '; 10];

/// How lines of columns look.
#[derive(Clone, Copy, Debug, PartialEq, Eq)]
pub struct Look {
    /// Whether what a packet is has a colour.
    pub colours: bool,
    /// How many columns a line has at most, which is 200 where it is more.
    pub width: u32,
}

/// What a packet is.
#[derive(Clone, Copy, Debug, PartialEq, Eq)]
pub(crate) enum Label {
    /// A flush packet.
    Flush,
    /// A delimiter packet.
    Delim,
    /// A response-end packet.
    End,
    /// The line of a request that names its command.
    Command,
    /// The line that a section begins with.
    Section,
    /// Bytes of a pack.
    Pack,
    /// The server's progress.
    Progress,
    /// The error of the fatal band.
    Fatal,
    /// An error packet.
    Refusal,
    /// Any other data packet.
    Data,
}

impl Label {
    /// What a packet is, by whether it stands in the packfile section.
    pub(crate) fn of(in_pack: bool, packet: Packet<'_>) -> Self
        ensures { result ≡ label_of in_pack (seen packet.entry) }
    {
        match packet {
            Packet::Flush => Label::Flush,
            Packet::Delim => Label::Delim,
            Packet::RespEnd => Label::End,
            Packet::Payload(payload) => match in_pack {
                true => Label::of_band(payload),
                false => Label::of_line(text(payload)),
            },
        }
    }

    /// The band of a payload.
    fn of_band(payload: &[u8]) -> Self
        ensures { result ≡ band_label payload.now }
    {
        if payload.starts_with(b"\x01") {
            Label::Pack
        } else if payload.starts_with(b"\x02") {
            Label::Progress
        } else if payload.starts_with(b"\x03") {
            Label::Fatal
        } else {
            Label::Data
        }
    }

    /// What a line of text begins.
    fn of_line(line: &[u8]) -> Self
        ensures { result ≡ line_label line.now }
    {
        if line.starts_with(b"command=") {
            Label::Command
        } else if is_section(line) {
            Label::Section
        } else if line.starts_with(b"ERR ") {
            Label::Refusal
        } else {
            Label::Data
        }
    }

    /// The word for it.
    fn name(self) -> &'static [u8]
        ensures { result.now ≡ name_of self }
    {
        match self {
            Label::Flush => b"flush",
            Label::Delim => b"delim",
            Label::End => b"end",
            Label::Command => b"command",
            Label::Section => b"section",
            Label::Pack => b"pack",
            Label::Progress => b"progress",
            Label::Fatal | Label::Refusal => b"error",
            Label::Data => b"data",
        }
    }

    /// What switches its colour on.
    fn colour(self) -> &'static [u8]
        ensures { result.now ≡ colour_of self }
    {
        match self {
            Label::Flush | Label::Delim | Label::End => b"\x1b[2m",
            Label::Command => b"\x1b[1;36m",
            Label::Section => b"\x1b[33m",
            Label::Pack => b"\x1b[34m",
            Label::Progress => b"\x1b[32m",
            Label::Fatal | Label::Refusal => b"\x1b[1;31m",
            Label::Data => b"\x1b[0m",
        }
    }

    /// What is shown of a payload: not its band, and not the LF at its end.
    fn text(self, payload: &[u8]) -> &[u8]
        ensures { result.now ≡ text_shown self payload.now }
    {
        match self {
            Label::Pack => behind_band(payload),
            Label::Progress | Label::Fatal => text(behind_band(payload)),
            _ => text(payload),
        }
    }
}

/// Whether a section begins with the line.
fn is_section(line: &[u8]) -> bool
    ensures { result ≡ list_any (bytes_eq line.now) sections }
{
    is(line, b"acknowledgments")
        || is(line, b"shallow-info")
        || is(line, b"wanted-refs")
        || is(line, b"packfile-uris")
        || is(line, b"packfile")
}

fn is(text: &[u8], word: &[u8]) -> bool
    ensures { result ≡ bytes_eq text.now word.now }
{
    text == word
}

/// A payload without its first byte.
fn behind_band(payload: &[u8]) -> &[u8]
    ensures { result.now ≡ drop 1 payload.now }
{
    match payload {
        [_, rest @ ..] => rest,
        _ => payload,
    }
}

/// Whether the byte is a digit in lower case.
fn is_digit(byte: u8) -> bool
    ensures { result ≡ is_lower_digit byte }
{
    matches!(byte, b'0'..=b'9' | b'a'..=b'f')
}

/// How many digits the bytes begin with.
fn count_digits(bytes: &[u8]) -> usize
    ensures within { result ≤ length bytes.now }
    ensures count { result ≡ run_length bytes.now }
{
    let mut count = 0;
    while count < bytes.len() && is_digit(bytes[count]) {
        count += 1;
    }
    count
}

/// How many bytes are shown of a run of digits, or of the byte that stands where none is.
fn run_shown(run: usize) -> usize
    ensures { result ≡ run_shown run }
{
    match run {
        0 => 1,
        40 | 64 => 12,
        _ => run,
    }
}

/// Writes a text to the start of `out`, and of each object name in it the first twelve digits alone. Returns how long it is.
fn shorten(text: &[u8], out: &mut [u8]) -> usize
    requires { length text.now ≤ length out.old }
    ensures within { result ≤ length text.now }
    ensures shortened { take result out.new ≡ shortened text.now }
{
    let mut at = 0;
    let mut end = 0;
    while at < text.len() {
        let run = count_digits(&text[at..]);
        end = put_at(out, end, &text[at..at + run_shown(run)]);
        at += run.max(1);
    }
    end
}

/// Writes spaces and a text of one column.
fn put_right(out: &mut [u8], at: usize, width: usize, text: &[u8]) -> usize
    requires column { width ≤ 10 }
    requires short { length text.now ≤ 20 }
    requires space { at + 20 ≤ length out.old }
    ensures within { result ≤ at + 20 }
    ensures put { take result out.new ≡ take at out.old ++ right width text.now }
{
    let at = put_spaces(out, at, width.saturating_sub(text.len()));
    put_at(out, at, text)
}

fn put_spaces(out: &mut [u8], at: usize, count: usize) -> usize
    requires column { count ≤ 10 }
    requires space { at + count ≤ length out.old }
    ensures end { result ≡ at + count }
    ensures put { take result out.new ≡ take at out.old ++ spaces count }
{
    put_at(out, at, &SPACES[..count])
}

fn put_name(colours: bool, label: Label, out: &mut [u8], at: usize) -> usize
    requires space { at + 20 ≤ length out.old }
    ensures within { result ≤ at + 20 }
    ensures put { take result out.new ≡ take at out.old ++ named colours label }
{
    if !colours {
        return put_at(out, at, label.name());
    }
    let at = put_at(out, at, label.colour());
    let at = put_at(out, at, label.name());
    put_at(out, at, b"\x1b[0m")
}

/// Writes what a line has before the text.
fn put_columns(
    colours: bool,
    label: Label,
    packet: Packet<'_>,
    offset: u64,
    out: &mut [u8],
) -> usize
    requires space { COLUMNS ≤ length out.old }
    ensures within { result ≤ COLUMNS }
    ensures put { take result out.new ≡ columns colours label (record { packet = seen packet.entry; offset = offset }) }
{
    let mut digits = Buffer::new();
    let at = put_right(out, 0, 8, digits.format(offset).as_bytes());
    let at = put_at(out, at, b" ");
    let at = put_length(packet, out, at);
    let at = put_at(out, at, b"  ");
    put_name(colours, label, out, at)
}

/// Writes the length of a payload in its column.
fn put_length(packet: Packet<'_>, out: &mut [u8], at: usize) -> usize
    requires space { at + 20 ≤ length out.old }
    ensures within { result ≤ at + 20 }
    ensures put { take result out.new ≡ take at out.old ++ right 5 (length_shown (seen packet.entry)) }
{
    let mut digits = Buffer::new();
    match packet {
        Packet::Payload(payload) => put_right(out, at, 5, digits.format(payload.len()).as_bytes()),
        Packet::Flush | Packet::Delim | Packet::RespEnd => put_right(out, at, 5, b""),
    }
}

/// Writes a text in its column, cut to its width.
fn put_in_column(label: Label, space: usize, text: &[u8], out: &mut [u8], at: usize) -> usize
    requires short { space ≤ WIDEST }
    requires space { at + WIDEST + 20 ≤ length out.old }
    ensures within { result ≤ at + WIDEST + 19 }
    ensures put { take result out.new ≡ take at out.old ++ in_column label space text.now }
{
    if text.is_empty() {
        return at;
    }
    let at = put_spaces(out, at, 10 - label.name().len());
    put_cut(space, text, out, at)
}

/// Writes a text, cut to its width.
fn put_cut(space: usize, text: &[u8], out: &mut [u8], at: usize) -> usize
    requires short { space ≤ WIDEST }
    requires space { at + WIDEST + 2 ≤ length out.old }
    ensures within { result ≤ at + WIDEST + 2 }
    ensures put { take result out.new ≡ take at out.old ++ cut space text.now }
{
    if text.len() <= space {
        return put_at(out, at, text);
    }
    let at = put_at(out, at, &text[..space.saturating_sub(2)]);
    put_at(out, at, b"..")
}

/// Writes the line of a packet to the start of `out`. Returns how long it is.
pub(crate) fn write_pretty(
    look: Look,
    in_pack: bool,
    packet: Packet<'_>,
    offset: u64,
    out: &mut [u8],
) -> usize
    requires space { LINE ≤ length out.old }
    ensures within { result ≤ LINE }
    ensures line { take result out.new ≡ pretty_line look.colours look.width in_pack (record { packet = seen packet.entry; offset = offset }) }
{
    let label = Label::of(in_pack, packet);
    let width = (look.width as usize).min(WIDEST);
    let space = width.saturating_sub(columns_before(offset));
    let at = put_columns(look.colours, label, packet, offset, out);
    let at = put_text(label, space, body(packet), out, at);
    put_at(out, at, b"\n")
}

/// How many columns a line has before the text.
fn columns_before(offset: u64) -> usize
    ensures { result ≡ columns_before offset }
{
    Buffer::new().format(offset).len().max(8) + 18
}

/// Writes the text of a payload in its column.
fn put_text(label: Label, space: usize, payload: &[u8], out: &mut [u8], at: usize) -> usize
    requires short { space ≤ WIDEST }
    requires space { at + WIDEST + 20 ≤ length out.old }
    ensures within { result ≤ at + WIDEST + 19 }
    ensures put { take result out.new ≡ take at out.old
        ++ in_column label space (escaped_of (shortened (take longest_front (text_shown label payload.now)))) }
{
    let mut names = [0; FRONT];
    let mut escapes = [0; 4 * FRONT];
    let text = label.text(payload);
    let length = shorten(&text[..text.len().min(FRONT)], &mut names);
    let end = escape_into(&names[..length], &mut escapes, 0);
    put_in_column(label, space, &escapes[..end], out, at)
}

/// The bytes after a packet's four digits.
pub(crate) fn body<'a>(packet: Packet<'a>) -> &'a [u8]
    ensures { result.now ≡ body_of (seen packet.entry) }
{
    match packet {
        Packet::Payload(payload) => payload,
        Packet::Flush | Packet::Delim | Packet::RespEnd => b"",
    }
}
