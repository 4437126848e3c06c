//! How an event is shown to C: its numbers, and its texts one after another at the front of a buffer.

ghost use Rattle.std.specs.Prelude.{◌≡◌, ◌+◌, ◌≤◌, ◌++◌, ℕ, List, length, take, drop};
ghost use Rattle.std.specs.Option.{option_copied};
ghost use Rattle.git_client.specs.EventParts.{of_text, parts_shown};
ghost use Rattle.gitwire.specs.EventAnswers.{digits_shown, text_shown};
ghost use Rattle.gitwire.specs.Buffers.{put_before};

use crate::answer::What;
use git_client::{EventKind, EventParts};
use git_names::Oid;
use git_pkt::{Fault, put_at};

/// The result of one call of `gitwire_client_feed`, and the event that came. Fields without a meaning are 0 or false. The texts are one after
/// another in the buffer: the object's name in lower case digits, the name, the text, and the digits of the object that a tag peels to. The
/// bytes of `Pack` and `Progress` are in the chunk.
#[repr(C)]
#[derive(Clone, Copy, Debug)]
pub struct GitwireEvent {
    /// How many bytes of the chunk were used.
    pub used: usize,
    /// Where the texts begin in the buffer or in the chunk; or the offset of the error in the stream.
    pub offset: u64,
    /// How many digits the object's name has: none if there is no object, as for an unborn reference.
    pub id_length: usize,
    /// How many bytes the name has: that of a reference or of a section, or the key of a capability.
    pub name_length: usize,
    /// How many bytes the text has: the value of a capability, the target of a symbolic reference, or bytes of the pack or
    /// the progress.
    pub text_length: usize,
    /// How many digits the name of the object that an annotated tag peels to has.
    pub peeled_length: usize,
    /// How many bytes the object has.
    pub size: u64,
    /// The number of a [`What`].
    pub kind: u32,
    /// The number of an error, from 1 to 34.
    pub fault: u32,
    /// Whether there is a text: it may be empty.
    pub has_text: bool,
    /// Whether there is a size.
    pub has_size: bool,
}

impl GitwireEvent {
    ghost use Rattle.gitwire.specs.EventAnswers.{bytes_shown, announcing_none, announcing_parts, answering_refusal};

    /// The event: its texts are written to the front of the buffer, one after another.
    pub(crate) fn of_parts(used: usize, parts: EventParts<'_>, buffer: &mut [u8]) -> GitwireEvent
        requires { length (bytes_shown (parts_shown parts)) ≤ length buffer.old }
        ensures answer { result ≡ announcing_parts used (parts_shown parts.entry) }
        ensures buffer { buffer.new ≡ put_before (bytes_shown (parts_shown parts.entry)) buffer.old }
    {
        let id_end = put_digits(buffer, 0, parts.id);
        let name_end = put_at(buffer, id_end, bytes_of(parts.name));
        let text_end = put_at(buffer, name_end, bytes_of(parts.text));
        let end = put_digits(buffer, text_end, parts.peeled);
        GitwireEvent {
            used,
            offset: 0,
            id_length: id_end,
            name_length: name_end - id_end,
            text_length: text_end - name_end,
            peeled_length: end - text_end,
            size: parts.size.unwrap_or(0),
            kind: What::Event(parts.kind).number(),
            fault: 0,
            has_text: parts.text.is_some(),
            has_size: parts.size.is_some(),
        }
    }

    /// No event.
    pub(crate) fn none(used: usize, what: What) -> GitwireEvent
        ensures { result ≡ announcing_none used what }
    {
        GitwireEvent {
            used,
            offset: 0,
            id_length: 0,
            name_length: 0,
            text_length: 0,
            peeled_length: 0,
            size: 0,
            kind: what.number(),
            fault: 0,
            has_text: false,
            has_size: false,
        }
    }

    /// So many bytes that lie elsewhere.
    pub(crate) fn of_bytes(used: usize, kind: EventKind, count: usize) -> GitwireEvent
        ensures { (bytes : List ℕ) → length bytes ≡ count → result ≡ announcing_parts used (of_text kind bytes) }
    {
        GitwireEvent {
            text_length: count,
            has_text: true,
            ..GitwireEvent::none(used, What::Event(kind))
        }
    }

    /// A refusal.
    pub(crate) fn of_fault(used: usize, fault: Fault) -> GitwireEvent
        ensures { result ≡ answering_refusal used fault }
    {
        GitwireEvent {
            offset: fault.offset,
            fault: u32::from(fault.kind.number()),
            ..GitwireEvent::none(used, What::Failed)
        }
    }
}

/// The bytes of a text that may be missing.
fn bytes_of(text: Option<&[u8]>) -> &[u8]
    ensures { result.now ≡ text_shown (option_copied text.entry) }
{
    match text {
        Some(text) => text,
        None => b"",
    }
}

/// Puts the digits of an object name, if there is one, at a place of the buffer, and returns where they end.
fn put_digits(buffer: &mut [u8], at: usize, id: Option<&Oid>) -> usize
    requires { at + length (digits_shown (option_copied id)) ≤ length buffer.old }
    ensures end { result ≡ at + length (digits_shown (option_copied id.entry)) }
    ensures placed { buffer.new ≡ take at buffer.old ++ digits_shown (option_copied id.entry)
        ++ drop (at + length (digits_shown (option_copied id.entry))) buffer.old }
{
    let Some(id) = id else {
        return at;
    };
    put_at(buffer, at, id.written(&mut [0; 64]))
}
