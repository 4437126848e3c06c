//! What a request has that this project does not know, kept as the transcript shows it.

ghost use Rattle.std.specs.Prelude.{◌≡◌, ◌≢◌, ◌++◌, ◌≤◌, ◌<◌, [], length, OnOk, IfErr, codes};
ghost use Rattle.git_pkt.specs.Escape.{escaped_of};
ghost use Rattle.git_pkt.specs.Packets.{seen};
ghost use Rattle.git2show_lib.specs.OtherLines.{asks_line, asks_word, asks_nothing, line_with, name_shown, nothing_noted, noted_with, shown_at, shown_line};
ghost use Rattle.git2show_lib.specs.OtherLines.{asks_at, form_asked, is_fetch};
ghost use Rattle.git2show_lib.specs.Machine.KeptLines.{KeepsWithin, noted_in};

use crate::others::{Place, first_word, is_other_argument, is_other_capability, key_and_value};
use crate::sieve::Form;
use git_msg::{Command, is_word};
use git_names::Format;
use git_pkt::{Kind, Packet, escape_into, text};
use std::alloc::{AllocError, Allocator};
use std::mem::replace;

/// How many bytes are escaped at a time.
const BLOCK: usize = 64;

/// What a request for `fetch` asks that is not known and changes the packets of its response.
#[derive(Clone, Copy, Debug)]
pub(crate) struct Asks {
    /// By `packfile-uris`: a section of that name may come.
    pub(crate) uris: bool,
    /// By `sideband-all`: each packet of a section has a band.
    pub(crate) bands: bool,
}

impl Asks {
    fn nothing() -> Asks
        ensures { result ≡ asks_nothing }
    {
        Asks {
            uris: false,
            bands: false,
        }
    }

    /// The same with one more argument. This is its first word.
    #[tactic(auto, unfolding(crate::specs::OtherLines::asks_word))]
    fn with_word(self, word: &[u8]) -> Asks
        ensures { result ≡ asks_word self word.now }
    {
        Asks {
            uris: self.uris || is_word(word, b"packfile-uris"),
            bands: self.bands || is_word(word, b"sideband-all"),
        }
    }

    /// The same with a line of a request more.
    #[tactic(auto, unfolding(crate::specs::OtherLines::asks_line))]
    fn with_line(self, advertised: &[u8], place: Place, line: &[u8]) -> Asks
        ensures { result ≡ asks_line advertised.now place self line.now }
    {
        match place {
            Place::Arguments(command) => {
                if is_fetch(command) && is_other_argument(advertised, command, line) {
                    return self.with_word(first_word(line));
                }
                self
            }
            Place::Unnamed | Place::Named(_) => self,
        }
    }
}

fn is_fetch(command: Option<Command>) -> bool
    ensures { result ≡ is_fetch command }
{
    matches!(command, Some(Command::Fetch))
}

/// What a request has so far that is not known.
#[derive(Drop)]
pub(crate) struct OtherLines<A: Allocator + Copy> {
    alloc: A,
    lines: Vec<u8, A>,
    asks: Asks,
}

impl<A: Allocator + Copy> OtherLines<A> {
    /// Nothing yet. It takes memory from `alloc` only for a line that it keeps.
    pub(crate) fn new(alloc: A) -> OtherLines<A>
        ensures { noted_in result ≡ nothing_noted }
    {
        OtherLines {
            alloc,
            lines: Vec::new(alloc),
            asks: Asks::nothing(),
        }
    }

    /// The form in which the response comes, if it was asked for.
    pub(crate) fn form(&self, format: Format) -> Option<Form>
        ensures { result ≡ form_asked format (noted_in self.now).asks }
    {
        let Asks { uris, bands } = self.asks;
        if !uris && !bands {
            return None;
        }
        Some(Form {
            format,
            uris,
            on_bands: bands,
        })
    }

    /// The lines of the transcript.
    pub(crate) fn lines(&self) -> &[u8]
        ensures { result.now ≡ (noted_in self.now).lines }
    {
        &self.lines
    }

    /// Hands out all of it, and has nothing again.
    pub(crate) fn take(&mut self) -> OtherLines<A>
        ensures taken { result ≡ self.old }
        ensures empty { noted_in self.new ≡ nothing_noted }
    {
        let empty = OtherLines::new(self.alloc);
        replace(self, empty)
    }

    /// Forgets all of it.
    pub(crate) fn forget(&mut self)
        ensures { noted_in self.new ≡ nothing_noted }
    {
        *self = OtherLines::new(self.alloc);
    }

    /// Notes a packet of a request with which so many bytes count as kept. Answers why its line is not kept, if it is not: for the limit, or
    /// for want of memory.
    pub(crate) fn keep_within(
        &mut self,
        advertised: &[u8],
        place: Place,
        packet: Packet<'_>,
        kept: u64,
        limit: u32,
    ) -> Option<Kind>
        ensures { KeepsWithin result advertised.now place (seen packet.entry) kept limit (noted_in self.old) (noted_in self.new) }
    {
        if kept > u64::from(limit) {
            return Some(Kind::TooMuchKept);
        }
        match self.keep(advertised, place, packet) {
            Ok(()) => None,
            Err(_) => Some(Kind::OutOfMemory),
        }
    }

    fn keep(
        &mut self,
        advertised: &[u8],
        place: Place,
        packet: Packet<'_>,
    ) -> Result<(), AllocError>
        ensures ok { OnOk result (noted_in self.new ≡ noted_with advertised.now place (noted_in self.old) (seen packet.entry)) }
        ensures err { IfErr result (λ _. shown_at advertised.now place (seen packet.entry) ≢ []) }
    {
        match packet {
            Packet::Payload(payload) => {
                let line = text(payload);
                self.asks = self.asks.with_line(advertised, place, line);
                keep_line(&mut self.lines, advertised, place, line)
            }
            Packet::Flush | Packet::Delim | Packet::RespEnd => Ok(()),
        }
    }

    /// Keeps the line of a request whose command is not known, which the packet names.
    pub(crate) fn keep_name(&mut self, packet: Packet<'_>) -> Result<(), AllocError>
        ensures { OnOk result (noted_in self.new
            ≡ record { lines = (noted_in self.old).lines ++ name_shown (seen packet.entry); asks = (noted_in self.old).asks }) }
    {
        match packet {
            Packet::Payload(payload) => {
                push_line(&mut self.lines, b"request ", key_and_value(text(payload)).1)
            }
            Packet::Flush | Packet::Delim | Packet::RespEnd => Ok(()),
        }
    }
}

#[tactic(auto, unfolding(crate::specs::OtherLines::shown_line))]
fn keep_line<A: Allocator + Copy>(
    lines: &mut Vec<u8, A>,
    advertised: &[u8],
    place: Place,
    line: &[u8],
) -> Result<(), AllocError>
    ensures ok { OnOk result (lines.new.items ≡ lines.old.items ++ shown_line advertised.now place line.now) }
    ensures err { IfErr result (λ _. shown_line advertised.now place line.now ≢ []) }
{
    match place {
        Place::Arguments(command) => {
            if is_other_argument(advertised, command, line) {
                return push_line(lines, b"argument ", line);
            }
        }
        Place::Unnamed | Place::Named(_) => {
            if is_other_capability(advertised, line) {
                return push_line(lines, b"capability ", line);
            }
        }
    }
    Ok(())
}

/// Appends a word and the escapes of a text.
fn push_line<A: Allocator + Copy>(
    lines: &mut Vec<u8, A>,
    word: &[u8],
    text: &[u8],
) -> Result<(), AllocError>
    ensures { OnOk result (lines.new.items ≡ lines.old.items ++ line_with word.now text.now) }
{
    lines.extend_from_slice(word)?;
    for block in text.chunks(BLOCK) {
        push_escaped(lines, block)?;
    }
    lines.extend_from_slice(b"\n")?;
    Ok(())
}

fn push_escaped<A: Allocator + Copy>(lines: &mut Vec<u8, A>, block: &[u8]) -> Result<(), AllocError>
    requires { length block.now ≤ BLOCK }
    ensures { OnOk result (lines.new.items ≡ lines.old.items ++ escaped_of block.now) }
{
    let mut escaped = [0; 4 * BLOCK];
    let end = escape_into(block, &mut escaped, 0);
    lines.extend_from_slice(&escaped[..end])
}
