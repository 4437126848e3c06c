//! The line that is shown for a packet of a trace.

ghost use Rattle.std.specs.Prelude.{◌≡◌, ◌≤◌, ◌++◌, ◌-◌, [], min, length, take, IfOk, OnOk};
ghost use Rattle.git_pkt.specs.Escape.{escape_of, escaped_of};
ghost use Rattle.git_trace.specs.TraceLines.{seen_line, stated_by};
ghost use Rattle.git_trace.specs.TraceTexts.{is_packet_line};
ghost use Rattle.git_trace.specs.ShownLines.{arrow, column_line, cut, in_column, kind_word, label_of, line_with, name_column, named, process_columns};
ghost use Rattle.git_trace.specs.ShownLines.{payload_shown, plain_line, content_bytes, shown_line, spaces, text_column};

use crate::labels::Label;
use crate::trace_lines::{Direction, TraceLine, TracePacket, read_bytes, read_trace_line};
use git_pkt::escape_into;
use std::alloc::{AllocError, Global};

/// The maximum number of bytes of a packet that are shown in columns.
const FRONT: usize = 1024;

/// The maximum number of columns.
const WIDEST: usize = 200;

/// How many columns stand before the text.
const BEFORE: usize = 28;

/// How many columns a name has.
const NAME: usize = 14;

static SPACES: [u8; NAME] = [b' '; NAME];

/// How lines look.
#[derive(Clone, Copy, Debug, PartialEq, Eq)]
pub enum Look {
    /// The process's name, `<` or `>`, the packet's kind, and its bytes.
    Lines,
    /// Columns for a human reader.
    Columns {
        /// Whether the word for a packet's kind has a colour.
        colours: bool,
        /// The maximum number of columns of a line. A number above 200 counts as 200.
        width: u32,
    },
}

/// Appends what is shown for a line of a trace: one line if it names a packet, and otherwise nothing. Returns whether it names one.
pub fn show_trace_line(
    alloc: Global,
    look: Look,
    line: &[u8],
    out: &mut Vec<u8>,
) -> Result<bool, AllocError>
    ensures shown { OnOk result (out.new.items ≡ out.old.items ++ shown_line look line.now) }
    ensures found { IfOk result (λ found. found ≡ is_packet_line line.now) }
{
    let Some(traced) = read_trace_line(line) else {
        return Ok(false);
    };
    let mut bytes = Vec::new(alloc);
    read_packet(&traced, &mut bytes)?;
    put_line(look, &traced, &bytes, out)?;
    Ok(true)
}

/// Appends a packet's bytes.
fn read_packet(traced: &TraceLine<'_>, out: &mut Vec<u8>) -> Result<(), AllocError>
    ensures { OnOk result (out.new.items ≡ out.old.items ++ content_bytes traced.now.name.now (stated_by traced.now.packet)) }
{
    match traced.packet {
        TracePacket::Text(content) => read_bytes(traced.name, content, out),
        TracePacket::Flush | TracePacket::Delim | TracePacket::RespEnd | TracePacket::Pack => Ok(
            (),
        ),
    }
}

/// Appends the line of a packet with these bytes.
fn put_line(
    look: Look,
    traced: &TraceLine<'_>,
    bytes: &[u8],
    out: &mut Vec<u8>,
) -> Result<(), AllocError>
    ensures { OnOk result (out.new.items ≡ out.old.items ++ line_with look (seen_line traced.now) bytes.now) }
{
    match look {
        Look::Lines => put_plain(traced, bytes, out),
        Look::Columns { colours, width } => put_columns(colours, width, traced, bytes, out),
    }
}

fn put_plain(traced: &TraceLine<'_>, bytes: &[u8], out: &mut Vec<u8>) -> Result<(), AllocError>
    ensures { OnOk result (out.new.items ≡ out.old.items ++ plain_line (seen_line traced.now) bytes.now) }
{
    out.extend_from_slice(traced.name)?;
    out.extend_from_slice(b" ")?;
    out.extend_from_slice(arrow(traced.direction))?;
    out.extend_from_slice(kind_word(traced.packet))?;
    put_payload(bytes, out)?;
    out.extend_from_slice(b"\n")
}

fn arrow(direction: Direction) -> &'static [u8]
    ensures { result.now ≡ arrow direction }
{
    match direction {
        Direction::Received => b"<",
        Direction::Sent => b">",
    }
}

fn kind_word(packet: TracePacket<'_>) -> &'static [u8]
    ensures { result.now ≡ kind_word (stated_by packet.entry) }
{
    match packet {
        TracePacket::Flush => b" flush",
        TracePacket::Delim => b" delim",
        TracePacket::RespEnd => b" end",
        TracePacket::Pack => b" pack",
        TracePacket::Text(_) => b" data",
    }
}

/// Appends a space and the bytes as `show` escapes them. Appends nothing if there are no bytes.
fn put_payload(bytes: &[u8], out: &mut Vec<u8>) -> Result<(), AllocError>
    ensures { OnOk result (out.new.items ≡ out.old.items ++ payload_shown bytes.now) }
{
    if bytes.is_empty() {
        return Ok(());
    }
    out.extend_from_slice(b" ")?;
    put_escaped(bytes, out)
}

fn put_escaped(bytes: &[u8], out: &mut Vec<u8>) -> Result<(), AllocError>
    ensures { OnOk result (out.new.items ≡ out.old.items ++ escaped_of bytes.now) }
{
    for byte in bytes {
        put_escape(*byte, out)?;
    }
    Ok(())
}

fn put_escape(byte: u8, out: &mut Vec<u8>) -> Result<(), AllocError>
    ensures { OnOk result (out.new.items ≡ out.old.items ++ escape_of byte) }
{
    let mut escape = [0; 4];
    let end = escape_into(&[byte], &mut escape, 0);
    out.extend_from_slice(&escape[..end])
}

fn put_columns(
    colours: bool,
    width: u32,
    traced: &TraceLine<'_>,
    bytes: &[u8],
    out: &mut Vec<u8>,
) -> Result<(), AllocError>
    ensures { OnOk result (out.new.items ≡ out.old.items ++ column_line colours width (seen_line traced.now) bytes.now) }
{
    let label = label_of(traced.packet, bytes);
    put_process(traced.name, traced.direction, out)?;
    put_label(colours, label, out)?;
    put_text(width, label, bytes, out)?;
    out.extend_from_slice(b"\n")
}

/// Appends the columns of the process and of the direction.
fn put_process(name: &[u8], direction: Direction, out: &mut Vec<u8>) -> Result<(), AllocError>
    ensures { OnOk result (out.new.items ≡ out.old.items ++ process_columns name.now direction) }
{
    put_name(name, out)?;
    out.extend_from_slice(b" ")?;
    out.extend_from_slice(arrow(direction))?;
    out.extend_from_slice(b"  ")
}

/// The label of a packet with these bytes.
fn label_of(packet: TracePacket<'_>, bytes: &[u8]) -> Label
    ensures { result ≡ label_of (stated_by packet.entry) bytes.now }
{
    match packet {
        TracePacket::Flush => Label::Flush,
        TracePacket::Delim => Label::Delim,
        TracePacket::RespEnd => Label::End,
        TracePacket::Pack => Label::Pack,
        TracePacket::Text(_) => Label::of_bytes(bytes),
    }
}

/// Appends a process's name in its column.
fn put_name(name: &[u8], out: &mut Vec<u8>) -> Result<(), AllocError>
    ensures { OnOk result (out.new.items ≡ out.old.items ++ name_column name.now) }
{
    put_spaces(NAME.saturating_sub(name.len()), out)?;
    put_cut(NAME, name, out)
}

fn put_spaces(count: usize, out: &mut Vec<u8>) -> Result<(), AllocError>
    requires { count ≤ 14 }
    ensures { OnOk result (out.new.items ≡ out.old.items ++ spaces count) }
{
    out.extend_from_slice(&SPACES[..count])
}

/// Appends a text. One that is longer than the space is cut, and two dots stand for the rest.
fn put_cut(space: usize, text: &[u8], out: &mut Vec<u8>) -> Result<(), AllocError>
    ensures { OnOk result (out.new.items ≡ out.old.items ++ cut space text.now) }
{
    if text.len() <= space {
        return out.extend_from_slice(text);
    }
    out.extend_from_slice(&text[..space.saturating_sub(2)])?;
    out.extend_from_slice(b"..")
}

fn put_label(colours: bool, label: Label, out: &mut Vec<u8>) -> Result<(), AllocError>
    ensures { OnOk result (out.new.items ≡ out.old.items ++ named colours label) }
{
    if !colours {
        return out.extend_from_slice(label.name());
    }
    out.extend_from_slice(label.colour())?;
    out.extend_from_slice(label.name())?;
    out.extend_from_slice(b"\x1b[0m")
}

/// Appends the text of a packet in its column.
fn put_text(width: u32, label: Label, bytes: &[u8], out: &mut Vec<u8>) -> Result<(), AllocError>
    ensures { OnOk result (out.new.items ≡ out.old.items ++ text_column width label bytes.now) }
{
    let mut escapes = [0; 4 * FRONT];
    let text = label.text(bytes);
    let end = escape_into(&text[..text.len().min(FRONT)], &mut escapes, 0);
    let space = (width as usize).min(WIDEST).saturating_sub(BEFORE);
    put_in_column(label, space, &escapes[..end], out)
}

/// Appends a text in its column, cut to its width.
fn put_in_column(
    label: Label,
    space: usize,
    text: &[u8],
    out: &mut Vec<u8>,
) -> Result<(), AllocError>
    ensures { OnOk result (out.new.items ≡ out.old.items ++ in_column label space text.now) }
{
    if text.is_empty() {
        return Ok(());
    }
    put_spaces(10 - label.name().len(), out)?;
    put_cut(space, text, out)
}
