//! Lines of the transcript that are gathered in one buffer, until they are taken from there.

ghost use Rattle.std.specs.Prelude.{◌≡◌, ◌+◌, ◌*◌, ◌≤◌, ◌<◌, ◌++◌, ◌∷◌, [], codes, decimal, length, true, IsTrue, ◌↔◌};
ghost use Rattle.git_names.specs.ObjectName.{hex_of};
ghost use Rattle.git_pkt.specs.Escape.{escaped_of};
ghost use Rattle.git_pkt.specs.Packets.{longest_payload};
ghost use Rattle.git_client.specs.Events.{all_parts_length};
ghost use Rattle.git_client.specs.Transcript.{asked_line, lines_of};
ghost use Rattle.git_client.specs.Machine.Client.{wants_input};
ghost use Rattle.git_client.specs.Machine.Gathered.{GathersChunk};
ghost use Rattle.git_client.specs.Machine.LineParts.{line_shown, part_shown, space_for, space_of};
ghost use Rattle.git_client.specs.Machine.RunSteps.{counts_with, CanCount};
ghost use Rattle.git_client.specs.Machine.Turns.{values_of};

use crate::client::Client;
use crate::events::{Event, ReceivedGot};
use crate::line::Part;
use crate::receiving::Counts;
use crate::transcript::{asked_row, event_row};
use git_msg::Command;
use git_names::{Oid, Steps};
use git_pkt::{Fault, escape_into, is_plain, put_at};
use itoa::Buffer;
use std::alloc::Allocator;
use std::marker::Model;

/// A further line is put while no more bytes than these wait.
pub(crate) const GATHERED: usize = 65_536;

/// The maximum length of a line: each byte of a packet as an escape of four, with words, names and numbers between them.
const LONGEST: usize = 4 * 65_516 + 256;

/// The space for what was gathered before a line, and for the line.
const SPACE: usize = GATHERED + LONGEST;

/// Whole lines of the transcript, in their order. The buffer lies where its owner does, and never grows.
#[derive(Drop)]
pub struct GatheredLines {
    bytes: [u8; SPACE],
    count: usize,
}

impl Model for GatheredLines {
    ghost use Rattle.std.specs.Prelude.{◌≤◌, ℕ, List, take};
    ghost use Rattle.git_client.specs.declared.gathered.TheConstants.{SPACE};

    ghost Value = { List ℕ };

    ghost view = { λ lines. take lines.count lines.bytes };

    ghost invariant = { λ lines. lines.count ≤ SPACE };
}

/// How far a chunk was gathered.
#[derive(Clone, Copy, Debug)]
pub struct Gathered {
    /// The number of bytes of the chunk that were used.
    pub used: usize,
    /// The first error in them, if there is one.
    pub fault: Option<Fault>,
}

impl GatheredLines {
    /// No lines.
    pub fn new() -> Self
        ensures { result ≡ [] }
    {
        GatheredLines {
            bytes: [0; SPACE],
            count: 0,
        }
    }

    /// Whether there is space for a further line, however long it is.
    pub fn has_space(&self) -> bool
        ensures { IsTrue result ↔ (length self.now ≤ GATHERED) }
    {
        self.count <= GATHERED
    }

    /// The lines.
    pub fn as_slice(&self) -> &[u8]
        ensures { result.now ≡ self.now }
    {
        &self.bytes[..self.count]
    }

    /// Removes all lines.
    pub fn clear(&mut self)
        ensures { self.new ≡ [] }
    {
        self.count = 0;
    }

    /// Adds the line of an event, with these numbers of bytes of the pack and of the progress in its response.
    pub fn put_event(&mut self, event: &Event<'_>, pack: u64, progress: u64)
        requires space { length self.old ≤ GATHERED }
        requires fits { all_parts_length (values_of event.now) ≤ longest_payload }
        ensures { self.new ≡ self.old ++ lines_of (values_of event.now) pack progress }
    {
        match event {
            Event::Reference {
                id: Some(id),
                name,
                target: None,
                peeled: None,
            } => self.put_reference(id, name),
            _ => {
                if let Some(row) = event_row(event, pack, progress) {
                    self.put_row(&row.parts);
                }
            }
        }
    }

    /// Adds the line of a request.
    pub fn put_asked(&mut self, command: Command)
        requires { length self.old ≤ GATHERED }
        ensures { self.new ≡ self.old ++ asked_line command }
    {
        self.put_row(&asked_row(command));
    }

    /// Adds the line of a reference that is neither symbolic nor a tag, as most are.
    fn put_reference(&mut self, id: &Oid, name: &[u8])
        requires space { length self.old ≤ GATHERED }
        requires fits { length name.now ≤ longest_payload }
        ensures { self.new ≡ self.old ++ (codes "ref " ++ hex_of id.now ++ codes " " ++ escaped_of name.now ++ codes "\n") }
    {
        self.append(b"ref ");
        self.append_name(id);
        self.append(b" ");
        self.append_text(name);
        self.append(b"\n");
    }

    /// Adds the line of these parts. There must be space for it.
    fn put_row(&mut self, parts: &[Part<'_>])
        requires { length self.old + space_for parts.now ≤ SPACE }
        ensures { self.new ≡ self.old ++ line_shown parts.now }
    {
        for part in parts {
            self.put_part(*part);
        }
        self.append(b"\n");
    }

    /// Adds a part of a line. There must be space for it.
    fn put_part(&mut self, part: Part<'_>)
        requires { length self.old + space_of part ≤ SPACE }
        ensures put { self.new ≡ self.old ++ part_shown part.entry }
        ensures within { length self.new ≤ length self.old + space_of part.entry }
    {
        match part {
            Part::Word(word) => self.append(word),
            Part::Text(word, text) => {
                self.append(word);
                self.append_text(text);
            }
            Part::Name(word, id) => {
                self.append(word);
                self.append_name(id);
            }
            Part::Number(word, number) => {
                self.append(word);
                self.append_number(number);
            }
        }
    }

    /// Adds bytes. They must fit.
    fn append(&mut self, bytes: &[u8])
        requires { length self.old + length bytes.now ≤ SPACE }
        ensures { self.new ≡ self.old ++ bytes.now }
    {
        self.count = put_at(&mut self.bytes, self.count, bytes);
    }

    /// Adds the escapes of bytes. There must be space for four bytes for each of them.
    fn append_text(&mut self, bytes: &[u8])
        requires { length self.old + 4 * length bytes.now ≤ SPACE }
        ensures put { self.new ≡ self.old ++ escaped_of bytes.now }
        ensures within { length self.new ≤ length self.old + 4 * length bytes.now }
    {
        if is_plain(bytes) {
            self.append(bytes);
            return;
        }
        self.count = escape_into(bytes, &mut self.bytes, self.count);
    }

    /// Adds the digits of an object name. There must be space for 64. The bytes after the last digit mean nothing.
    fn append_name(&mut self, id: &Oid)
        requires { length self.old + 64 ≤ SPACE }
        ensures put { self.new ≡ self.old ++ hex_of id.now }
        ensures within { length self.new ≤ length self.old + 64 }
    {
        put_at(&mut self.bytes, self.count, &id.hex());
        self.count += id.format().digits();
    }

    /// Adds the digits of a number. There must be space for 20.
    fn append_number(&mut self, number: u64)
        requires { length self.old + 20 ≤ SPACE }
        ensures put { self.new ≡ self.old ++ decimal number }
        ensures within { length self.new ≤ length self.old + 20 }
    {
        self.append(Buffer::new().format(number).as_bytes());
    }
}

/// Receives the messages in a chunk until the client can ask, or `lines` have no space for a further one, which is after some bytes if they have
/// space at first. The lines of the transcript are added to `lines`. The count starts at `counts`, the bytes of the response so far.
pub fn gather_chunk<A: Allocator + Copy>(
    client: &mut Client<A>,
    counts: &mut Counts,
    chunk: &[u8],
    lines: &mut GatheredLines,
) -> Gathered
    requires { wants_input client.old ≡ true }
    ensures used { result.used ≤ length chunk.now }
    ensures gathers { GathersChunk result.fault client.old client.new counts.old counts.new chunk.now result.used GATHERED lines.old lines.new }
{
    let mut used = 0;
    let mut steps = Steps::new();
    while used < chunk.len() && client.wants_input() && lines.has_space() {
        let arrived = client.feed(&chunk[used..], &mut steps);
        let after = used + arrived.used;
        match arrived.got {
            ReceivedGot::More => {
                return Gathered {
                    used: chunk.len(),
                    fault: None,
                };
            }
            ReceivedGot::Failed(fault) => {
                return Gathered {
                    used: after,
                    fault: Some(fault),
                };
            }
            ReceivedGot::Event(event) => gather_event(&event, counts, lines),
        }
        used = after;
    }
    Gathered { used, fault: None }
}

/// Adds the line of an event, and counts its bytes of the pack and of the progress.
pub(crate) fn gather_event(event: &Event<'_>, counts: &mut Counts, lines: &mut GatheredLines)
    requires space { length lines.old ≤ GATHERED }
    requires fits { all_parts_length (values_of event.now) ≤ longest_payload }
    ensures lines { lines.new ≡ lines.old ++ lines_of (values_of event.now) counts.old.pack counts.old.progress }
    ensures counts { CanCount counts.old (values_of event.now) → counts.new ≡ counts_with counts.old (values_of event.now) }
{
    // Both are read in every case: a number behind a reference is known to fit its type once it was read.
    let Counts {
        pack: packed,
        progress: announced,
    } = *counts;
    match event {
        Event::Pack(bytes) => counts.pack = packed.saturating_add(bytes.len() as u64),
        Event::Progress(bytes) => counts.progress = announced.saturating_add(bytes.len() as u64),
        event => lines.put_event(event, packed, announced),
    }
}
