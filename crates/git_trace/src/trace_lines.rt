//! Lines of a trace that name packets.

ghost use Rattle.std.specs.Prelude.{◌≡◌, ◌++◌, ◌≤◌, None, Some, length, drop, take, MatchOption, OnOk, IfSome};
ghost use Rattle.std.specs.List.{prefix_len};
ghost use Rattle.std.specs.Str.{bytes_eq};
ghost use Rattle.git_trace.specs.TraceLines.{after_name, after_word, banded, bytes_in, has_band, in_parts, is_name_byte, is_space};
ghost use Rattle.git_trace.specs.TraceLines.{stated_by, content_in, seen_line, traced_in, without_return, without_spaces};

use crate::escapes::unescape;
use std::alloc::AllocError;

/// A line of a trace that names a packet.
#[derive(Clone, Copy, Debug)]
pub struct TraceLine<'a> {
    /// The name that the process gives itself, such as `clone`, `fetch`, `upload-pack` or `sideband`.
    pub name: &'a [u8],
    /// Whether it received or sent the packet.
    pub direction: Direction,
    /// What the line contains of the packet.
    pub packet: TracePacket<'a>,
}

/// The direction of a packet, as the process that wrote the line saw it.
#[derive(Clone, Copy, Debug, PartialEq, Eq)]
pub enum Direction {
    /// `<`: the process received it.
    Received,
    /// `>`: the process sent it.
    Sent,
}

/// What a line contains of a packet.
#[derive(Clone, Copy, Debug)]
pub enum TracePacket<'a> {
    /// `0000`, a flush packet.
    Flush,
    /// `0001`, a delimiter packet.
    Delim,
    /// `0002`, a response-end packet.
    RespEnd,
    /// `PACK ...`, the packet with which a pack begins. A trace leaves out its bytes, and the packets with the other bytes of the pack.
    Pack,
    /// A data packet, by the text that the trace has for its bytes.
    Text(&'a [u8]),
}

/// Reads a line of a trace, without its LF. Returns none if the line names no packet: the word `packet: ` or a part after it is missing, as in
/// the lines of other keys of GIT_TRACE.
pub fn read_trace_line(line: &[u8]) -> Option<TraceLine<'_>>
    ensures { MatchOption result (traced_in line.now ≡ None) (λ t. traced_in line.now ≡ Some (seen_line t)) }
{
    match after_word(without_return(line)) {
        Some(parts) => in_parts(without_spaces(parts)),
        None => None,
    }
}

/// A line without the CR that some systems write before its LF. Git writes none itself, since it escapes one in a packet.
fn without_return(line: &[u8]) -> &[u8]
    ensures { result.now ≡ without_return line.now }
{
    match line {
        [front @ .., b'\r'] => front,
        _ => line,
    }
}

/// What follows the first `packet: ` of a line.
fn after_word(line: &[u8]) -> Option<&[u8]>
    ensures { MatchOption result (after_word line.now ≡ None) (λ rest. after_word line.now ≡ Some rest.now) }
{
    let mut at = 0;
    while at < line.len() {
        if line[at..].starts_with(b"packet: ") {
            return Some(&line[at + 8..]);
        }
        at += 1;
    }
    None
}

fn without_spaces(text: &[u8]) -> &[u8]
    ensures { result.now ≡ without_spaces text.now }
{
    let mut count = 0;
    while count < text.len() && text[count] == b' ' {
        count += 1;
    }
    &text[count..]
}

/// What a line contains, by its parts from the name on.
fn in_parts(parts: &[u8]) -> Option<TraceLine<'_>>
    ensures { MatchOption result (in_parts parts.now ≡ None) (λ t. in_parts parts.now ≡ Some (seen_line t)) }
{
    let count = name_length(parts);
    if count == 0 {
        return None;
    }
    after_name(&parts[..count], &parts[count..])
}

fn name_length(parts: &[u8]) -> usize
    ensures within { result ≤ length parts.now }
    ensures count { result ≡ prefix_len is_name_byte parts.now }
{
    let mut count = 0;
    while count < parts.len() && is_name_byte(parts[count]) {
        count += 1;
    }
    count
}

/// Whether a process's name may have the byte: a printable one, but no space, `<` or `>`.
fn is_name_byte(byte: u8) -> bool
    ensures { result ≡ is_name_byte byte }
{
    byte > b' ' && byte < 0x7f && byte != b'<' && byte != b'>'
}

fn after_name<'a>(name: &'a [u8], content: &'a [u8]) -> Option<TraceLine<'a>>
    ensures { MatchOption result (after_name name.now content.now ≡ None) (λ t. after_name name.now content.now ≡ Some (seen_line t)) }
{
    if content.starts_with(b"< ") {
        return Some(TraceLine {
            name,
            direction: Direction::Received,
            packet: packet_of(&content[2..]),
        });
    }
    if content.starts_with(b"> ") {
        return Some(TraceLine {
            name,
            direction: Direction::Sent,
            packet: packet_of(&content[2..]),
        });
    }
    None
}

fn packet_of(content: &[u8]) -> TracePacket<'_>
    ensures { stated_by result ≡ content_in content.now }
{
    if is(content, b"0000") {
        TracePacket::Flush
    } else if is(content, b"0001") {
        TracePacket::Delim
    } else if is(content, b"0002") {
        TracePacket::RespEnd
    } else if is(content, b"PACK ...") {
        TracePacket::Pack
    } else {
        TracePacket::Text(content)
    }
}

fn is(text: &[u8], word: &[u8]) -> bool
    ensures { result ≡ bytes_eq text.now word.now }
{
    text == word
}

/// Appends the bytes that a data packet's text stands for, by the name of the process. The process `sideband` takes bands apart, and what it
/// received begins with the byte of a band.
pub(crate) fn read_bytes(name: &[u8], content: &[u8], out: &mut Vec<u8>) -> Result<(), AllocError>
    ensures { OnOk result (out.new.items ≡ out.old.items ++ bytes_in name.now content.now) }
{
    if is(name, b"sideband") && has_band(content) {
        out.push(content[1] - b'0')?;
        return unescape(&content[2..], out);
    }
    unescape(content, out)
}

fn has_band(content: &[u8]) -> bool
    ensures { result ≡ has_band content.now }
{
    content.starts_with(b"\\1") || content.starts_with(b"\\2") || content.starts_with(b"\\3")
}
