//! A packet as one JSON object on a line.

ghost use Rattle.std.specs.Prelude.{◌≡◌, ◌+◌, ◌*◌, ◌≤◌, ◌<◌, ◌∷◌, [], ◌++◌, length, take, flat_map};
ghost use Rattle.std.specs.Str.{is_utf8};
ghost use Rattle.git2show_lib.specs.JsonLines.{coded, coding_of, payload_key, kind_start, json_start, json_end, json_line};
ghost use Rattle.git_pkt.specs.Packets.{body_of, seen};
ghost use Rattle.json.specs.Print.{escape_letter};
ghost use Rattle.git_names.specs.Digits.{lower_digit};

use crate::lines::PAYLOAD;
use crate::pretty::body;
use git_names::lower_digit;
use git_pkt::{Packet, put_at};
use itoa::Buffer;
use std::str;

/// How the bytes of a payload are written inside the quotes.
#[derive(Clone, Copy, Debug, PartialEq, Eq)]
pub(crate) enum Coding {
    /// As text, with JSON's escapes.
    Text,
    /// Two hexadecimal digits for each byte.
    Hex,
}

/// How many bytes one byte becomes, at most.
const LONGEST: usize = 6;

/// Space for what comes before the bytes of a payload.
const START: usize = 128;

/// Space for what comes after them.
const END: usize = 3;

/// Space for the longest line.
pub(crate) const JSON_LINE: usize = START + LONGEST * PAYLOAD + END;

/// Space for the part of it that names the kind of a packet.
const KIND: usize = 64;

/// What one byte becomes, and how many of its bytes count.
#[derive(Clone, Copy, Debug)]
struct Coded {
    bytes: [u8; LONGEST],
    length: usize,
}

impl Coding {
    /// How a payload is written.
    fn of(payload: &[u8]) -> Self
        ensures { result ≡ coding_of (is_utf8 payload.now) }
    {
        match str::from_utf8(payload) {
            Ok(_) => Coding::Text,
            Err(_) => Coding::Hex,
        }
    }

    /// The key of a payload, up to its first quote.
    fn key(self) -> &'static [u8]
        ensures key { result.now ≡ payload_key self }
        ensures short { length result.now ≤ 12 }
    {
        match self {
            Coding::Text => b",\"payload\":\"",
            Coding::Hex => b",\"hex\":\"",
        }
    }

    /// What one byte becomes.
    fn code(self, byte: u8) -> Coded
        ensures within { result.length ≤ LONGEST }
        ensures space { length result.bytes ≡ LONGEST }
        ensures coded { take result.length result.bytes ≡ coded self byte }
    {
        match self {
            Coding::Text => escape(byte),
            Coding::Hex => Coded {
                bytes: [digit(byte / 16), digit(byte % 16), 0, 0, 0, 0],
                length: 2,
            },
        }
    }

    /// Writes what each byte becomes over the bytes of `out` from `at` on, and returns where that ends.
    fn write(self, bytes: &[u8], out: &mut [u8], at: usize) -> usize
        requires { at + LONGEST * length bytes.now ≤ length out.old }
        ensures within { result ≤ at + LONGEST * length bytes.now }
        ensures coded { take result out.new ≡ take at out.old ++ flat_map (coded self) bytes.now }
    {
        let mut end = at;
        for byte in bytes {
            let one = self.code(*byte);
            end = put_at(out, end, &one.bytes[..one.length]);
        }
        end
    }
}

/// A byte with JSON's escapes.
#[tactic(auto, unfolding(json::specs::Print::escape_byte))]
fn escape(byte: u8) -> Coded
    ensures within { result.length ≤ LONGEST }
    ensures space { length result.bytes ≡ LONGEST }
    ensures escaped { take result.length result.bytes ≡ coded Coding.Text byte }
{
    let letter = letter(byte);
    if letter > 0 {
        return short(letter);
    }
    if byte < 32 {
        return Coded {
            bytes: [b'\\', b'u', b'0', b'0', digit(byte / 16), digit(byte % 16)],
            length: 6,
        };
    }
    Coded {
        bytes: [byte, 0, 0, 0, 0, 0],
        length: 1,
    }
}

/// The letter of a byte's short escape, or 0 where it has none.
fn letter(byte: u8) -> u8
    ensures { result ≡ escape_letter byte }
{
    if byte == b'"' || byte == b'\\' {
        byte
    } else if byte == 8 {
        b'b'
    } else if byte == 12 {
        b'f'
    } else if byte == b'\n' {
        b'n'
    } else if byte == b'\r' {
        b'r'
    } else if byte == b'\t' {
        b't'
    } else {
        0
    }
}

/// A backslash and a letter.
fn short(letter: u8) -> Coded
    ensures { result ≡ record { bytes = 92 ∷ letter ∷ 0 ∷ 0 ∷ 0 ∷ 0 ∷ []; length = 2 } }
{
    Coded {
        bytes: [b'\\', letter, 0, 0, 0, 0],
        length: 2,
    }
}

/// The digit of a value below 16.
fn digit(value: u8) -> u8
    requires { value < 16 }
    ensures { result ≡ lower_digit value }
{
    lower_digit(usize::from(value))
}

/// What comes after the bytes of a payload.
fn json_end(packet: Packet<'_>) -> &'static [u8]
    ensures end { result.now ≡ json_end (seen packet.entry) }
    ensures short { length result.now ≤ END }
{
    match packet {
        Packet::Payload(_) => b"\"}\n",
        Packet::Flush | Packet::Delim | Packet::RespEnd => b"}\n",
    }
}

/// Writes the line of a packet over the bytes of `out` from `at` on, and returns where it ends.
pub(crate) fn write_json(packet: Packet<'_>, offset: u64, out: &mut [u8], at: usize) -> usize
    requires space { at + JSON_LINE ≤ length out.old }
    requires fits { length (body_of (seen packet)) ≤ PAYLOAD }
    ensures within { result ≤ at + JSON_LINE }
    ensures line { take result out.new ≡ take at out.old ++ json_line (record { packet = seen packet.entry; offset = offset }) }
{
    let at = write_json_start(packet, offset, out, at);
    let at = Coding::of(body(packet)).write(body(packet), out, at);
    put_at(out, at, json_end(packet))
}

/// Writes what comes before the bytes of a payload, over the bytes of `out` from `at` on, and returns where it ends.
fn write_json_start(packet: Packet<'_>, offset: u64, out: &mut [u8], at: usize) -> usize
    requires { at + START ≤ length out.old }
    ensures within { result ≤ at + START }
    ensures start { take result out.new ≡ take at out.old ++ json_start (record { packet = seen packet.entry; offset = offset }) }
{
    let mut digits = Buffer::new();
    let at = put_at(out, at, b"{\"offset\":");
    let at = put_at(out, at, digits.format(offset).as_bytes());
    let at = put_at(out, at, b",\"kind\":");
    write_kind(packet, out, at)
}

/// Writes what kind a packet is, and of a data packet the length and the key.
fn write_kind(packet: Packet<'_>, out: &mut [u8], at: usize) -> usize
    requires { at + KIND ≤ length out.old }
    ensures within { result ≤ at + KIND }
    ensures kind { take result out.new ≡ take at out.old ++ kind_start (seen packet.entry) }
{
    match packet {
        Packet::Flush => put_at(out, at, b"\"flush\""),
        Packet::Delim => put_at(out, at, b"\"delim\""),
        Packet::RespEnd => put_at(out, at, b"\"end\""),
        Packet::Payload(payload) => {
            let mut digits = Buffer::new();
            let at = put_at(out, at, b"\"data\",\"length\":");
            let at = put_at(out, at, digits.format(payload.len()).as_bytes());
            put_at(out, at, Coding::of(payload).key())
        }
    }
}
