//! An event as a row of a table: its kind, and each part that events may have.

ghost use Rattle.std.specs.Prelude.{◌≡◌};
ghost use Rattle.std.specs.Option.{option_copied};
ghost use Rattle.git_client.specs.EventParts.{parts_of, parts_shown, word_of};

use crate::events::Event;
use git_names::Oid;

/// The kind of an event, without its parts.
#[derive(Clone, Copy, Debug, PartialEq, Eq)]
pub enum EventKind {
    /// A capability of the server.
    Capability,
    /// The advertisement is whole.
    Offered,
    /// A reference.
    Reference,
    /// A section of the response to `fetch` begins.
    Section,
    /// An object that both sides have.
    Ack,
    /// The server has none of the objects named so far.
    Nak,
    /// The server is ready to send the pack.
    Ready,
    /// A commit whose parents are left out.
    Shallow,
    /// A commit whose parents are no longer left out.
    Unshallow,
    /// A reference that was wanted by its name.
    WantedRef,
    /// The size of an object, if it is known.
    Info,
    /// Bytes of the pack.
    Pack,
    /// Progress, a text for the user.
    Progress,
    /// The response is whole.
    Ended,
}

impl EventKind {
    /// The word that begins the transcript line of such an event. None for a section, and for bytes of the pack and of the progress, which have
    /// no line.
    pub fn word(self) -> Option<&'static [u8]>
        ensures { option_copied result ≡ word_of self }
    {
        match self {
            EventKind::Capability => Some(b"capability"),
            EventKind::Offered => Some(b"offered"),
            EventKind::Reference => Some(b"ref"),
            EventKind::Section => None,
            EventKind::Ack => Some(b"ack"),
            EventKind::Nak => Some(b"nak"),
            EventKind::Ready => Some(b"ready"),
            EventKind::Shallow => Some(b"shallow"),
            EventKind::Unshallow => Some(b"unshallow"),
            EventKind::WantedRef => Some(b"wanted-ref"),
            EventKind::Info => Some(b"info"),
            EventKind::Pack => None,
            EventKind::Progress => None,
            EventKind::Ended => Some(b"end"),
        }
    }
}

/// The parts of an event, for code that shows events: lines of a transcript, or a struct of another language. A part is none if events of
/// this kind never have it, or if this event lacks it.
#[derive(Clone, Copy, Debug)]
pub struct EventParts<'a> {
    /// The kind of the event.
    pub kind: EventKind,
    /// The object of the event, or the object that the reference points to. None for a reference that is unborn.
    pub id: Option<&'a Oid>,
    /// The name of the reference or of the section, or the key of the capability.
    pub name: Option<&'a [u8]>,
    /// The value of the capability, the target of a symbolic reference, or bytes of the pack or the progress.
    pub text: Option<&'a [u8]>,
    /// The object that an annotated tag peels to.
    pub peeled: Option<&'a Oid>,
    /// The size of the object in bytes.
    pub size: Option<u64>,
}

impl<'a> Event<'a> {
    /// Its kind and its parts.
    #[inline]
    pub fn parts(self) -> EventParts<'a>
        ensures { parts_shown result ≡ parts_of self.entry }
    {
        match self {
            Event::Capability(capability) => EventParts {
                name: Some(capability.key),
                text: capability.value,
                ..EventParts::bare(EventKind::Capability)
            },
            Event::Offered => EventParts::bare(EventKind::Offered),
            Event::Reference {
                id,
                name,
                target,
                peeled,
            } => EventParts {
                id,
                name: Some(name),
                text: target,
                peeled,
                ..EventParts::bare(EventKind::Reference)
            },
            Event::Section(section) => EventParts {
                name: Some(section.name().as_bytes()),
                ..EventParts::bare(EventKind::Section)
            },
            Event::Ack(id) => EventParts::of_object(EventKind::Ack, id),
            Event::Nak => EventParts::bare(EventKind::Nak),
            Event::Ready => EventParts::bare(EventKind::Ready),
            Event::Shallow(id) => EventParts::of_object(EventKind::Shallow, id),
            Event::Unshallow(id) => EventParts::of_object(EventKind::Unshallow, id),
            Event::WantedRef { id, name } => EventParts {
                name: Some(name),
                ..EventParts::of_object(EventKind::WantedRef, id)
            },
            Event::Info { id, size } => EventParts {
                size,
                ..EventParts::of_object(EventKind::Info, id)
            },
            Event::Pack(bytes) => EventParts::of_text(EventKind::Pack, bytes),
            Event::Progress(bytes) => EventParts::of_text(EventKind::Progress, bytes),
            Event::Ended => EventParts::bare(EventKind::Ended),
        }
    }
}

impl<'a> EventParts<'a> {
    ghost use Rattle.git_client.specs.EventParts.{bare, of_object, of_text};

    /// An event of this kind without parts.
    fn bare(kind: EventKind) -> EventParts<'a>
        ensures { parts_shown result ≡ bare kind }
    {
        EventParts {
            kind,
            id: None,
            name: None,
            text: None,
            peeled: None,
            size: None,
        }
    }

    fn of_object(kind: EventKind, id: &'a Oid) -> EventParts<'a>
        ensures { parts_shown result ≡ of_object kind id.now }
    {
        EventParts {
            id: Some(id),
            ..EventParts::bare(kind)
        }
    }

    fn of_text(kind: EventKind, text: &'a [u8]) -> EventParts<'a>
        ensures { parts_shown result ≡ of_text kind text.now }
    {
        EventParts {
            text: Some(text),
            ..EventParts::bare(kind)
        }
    }
}
