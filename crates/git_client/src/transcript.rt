//! The transcript of a conversation: one line of text for each event.

ghost use Rattle.std.specs.Prelude.{◌≡◌, ◌≤◌, ◌+◌, ◌*◌, [], length, IfSome, MatchOption};
ghost use Rattle.std.specs.Option.{option_copied, option_map_or};
ghost use Rattle.git_pkt.specs.Machine.Sends.{Puts, Sends};
ghost use Rattle.git_pkt.specs.Packets.{longest_payload};
ghost use Rattle.git_msg.specs.References.{peeled_text};
ghost use Rattle.git_client.specs.Machine.Turns.{values_of};
ghost use Rattle.git_client.specs.Events.{all_parts_length};
ghost use Rattle.git_client.specs.Transcript.{lines_of, shown_after, asked_line};
ghost use Rattle.git_client.specs.Machine.LineParts.{line_shown, longest_line, part_shown, count_after, object_shown};
ghost use Rattle.git_client.specs.Machine.LineParts.{space_for, space_of, size_after, text_word};

use crate::event_parts::EventKind;
use crate::events::Event;
use crate::line::{Lines, Part};
use git_msg::Command;
use git_names::Oid;
use git_pkt::{Recorded, RunFault};
use std::io::Write;

/// The parts of the line of an event, in their order. Parts that it does not have are empty.
#[derive(Clone, Copy, Debug)]
pub(crate) struct Row<'a> {
    pub(crate) parts: [Part<'a>; 8],
}

/// Writes the transcript line of an event, and nothing else. A section, and bytes of the pack or the progress, have no line. The numbers count
/// the pack and progress bytes of the response: the line at the end of the response shows them.
///
/// The error is `WriteFault` if writing fails; then a prefix of the line was written. A writer that had not
/// failed before has failed if and only if this is the result.
pub fn write_event<W: Write>(
    out: &mut Recorded<W>,
    event: &Event<'_>,
    pack: u64,
    progress: u64,
) -> Result<(), RunFault>
    ensures { Sends W.contents out.old (lines_of (values_of event.now) pack progress) result out.new }
{
    let mut lines = Lines::new();
    put_event(&mut lines, out, event, pack, progress)?;
    lines.drain(out)
}

/// Appends the line of an event to the bytes that wait for the writer, as [`write_event`] writes it.
pub(crate) fn put_event<W: Write>(
    lines: &mut Lines,
    out: &mut Recorded<W>,
    event: &Event<'_>,
    pack: u64,
    progress: u64,
) -> Result<(), RunFault>
    ensures { Puts W.contents out.old lines.old (lines_of (values_of event.now) pack progress) result out.new lines.new }
{
    match event {
        Event::Reference {
            id: Some(id),
            name,
            target: None,
            peeled: None,
        } => lines.put_reference(out, id, name),
        _ => put_parts(lines, out, event, pack, progress),
    }
}

/// Appends the line of any event.
#[inline(never)]
fn put_parts<W: Write>(
    lines: &mut Lines,
    out: &mut Recorded<W>,
    event: &Event<'_>,
    pack: u64,
    progress: u64,
) -> Result<(), RunFault>
    ensures { Puts W.contents out.old lines.old (lines_of (values_of event.now) pack progress) result out.new lines.new }
{
    match event_row(event, pack, progress) {
        Some(row) => lines.put_line(out, &row.parts),
        None => Ok(()),
    }
}

/// The parts of the line of an event: the word of its kind, and then each part that the event has. None if it has no line.
#[inline(always)]
pub(crate) fn event_row<'a>(event: &Event<'a>, pack: u64, progress: u64) -> Option<Row<'a>>
    ensures line { MatchOption result (lines_of (values_of event.now) pack progress ≡ [])
        (λ row. line_shown row.parts ≡ lines_of (values_of event.now) pack progress) }
    ensures space { all_parts_length (values_of event.now) ≤ longest_payload → IfSome result (λ row. space_for row.parts ≤ longest_line) }
{
    let parts = event.parts();
    let Some(word) = parts.kind.word() else {
        return None;
    };
    let parts = [
        Part::Word(word),
        object_part(parts.kind, parts.id),
        text_part(b" ", parts.name),
        text_part(text_word(parts.kind), parts.text),
        peeled_part(parts.peeled),
        size_part(parts.kind, parts.size),
        count_part(parts.kind, pack),
        count_part(parts.kind, progress),
    ];
    Some(Row { parts })
}

/// Writes the transcript line of a request, and nothing else, with the errors of [`write_event`].
pub fn write_asked<W: Write>(out: &mut Recorded<W>, command: Command) -> Result<(), RunFault>
    ensures { Sends W.contents out.old (asked_line command) result out.new }
{
    let mut lines = Lines::new();
    lines.put_line(out, &asked_row(command))?;
    lines.drain(out)
}

/// The parts of the line of a request.
pub(crate) fn asked_row(command: Command) -> [Part<'static>; 2]
    ensures line { line_shown result ≡ asked_line command }
    ensures space { space_for result ≤ longest_line }
{
    [
        Part::Word(b"request "),
        Part::Word(command.name().as_bytes()),
    ]
}

/// The object of the event. A reference without one is unborn.
fn object_part<'a>(kind: EventKind, id: Option<&'a Oid>) -> Part<'a>
    ensures shown { part_shown result ≡ object_shown kind (option_copied id.entry) }
    ensures space { space_of result ≤ 65 }
{
    match id {
        Some(id) => Part::Name(b" ", id),
        None => match kind {
            EventKind::Reference => Part::Word(b" unborn"),
            _ => Part::Word(b""),
        },
    }
}

/// The object that a tag peels to, if it is known.
fn peeled_part<'a>(id: Option<&'a Oid>) -> Part<'a>
    ensures shown { part_shown result ≡ peeled_text (option_copied id.entry) }
    ensures space { space_of result ≤ 72 }
{
    match id {
        Some(id) => Part::Name(b" peeled:", id),
        None => Part::Word(b""),
    }
}

/// The word and the text, if there is a text.
fn text_part<'a>(word: &'a [u8], text: Option<&'a [u8]>) -> Part<'a>
    ensures shown { part_shown result ≡ shown_after word.now (option_copied text.entry) }
    ensures space { space_of result ≤ length word.now + 4 * option_map_or length (option_copied text.entry) 0 }
{
    match text {
        Some(text) => Part::Text(word, text),
        None => Part::Word(b""),
    }
}

/// The word before the text of an event: the value of a capability, or the target of a reference.
fn text_word(kind: EventKind) -> &'static [u8]
    ensures word { result.now ≡ text_word kind }
    ensures space { length result.now ≤ 16 }
{
    match kind {
        EventKind::Capability => b"=",
        _ => b" symref-target:",
    }
}

/// The size of an object, or a dash in the line of an `Info` event without a size.
fn size_part<'a>(kind: EventKind, size: Option<u64>) -> Part<'a>
    ensures shown { part_shown result ≡ size_after kind size }
    ensures space { space_of result ≤ 21 }
{
    match size {
        Some(size) => Part::Number(b" ", size),
        None => match kind {
            EventKind::Info => Part::Word(b" -"),
            _ => Part::Word(b""),
        },
    }
}

/// A number in the line at the end of a response.
fn count_part<'a>(kind: EventKind, count: u64) -> Part<'a>
    ensures shown { part_shown result ≡ count_after kind count }
    ensures space { space_of result ≤ 21 }
{
    match kind {
        EventKind::Ended => Part::Number(b" ", count),
        _ => Part::Word(b""),
    }
}
