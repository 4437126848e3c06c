//! The lines that wait to be given, and how a packet is written as one.

ghost use Rattle.std.specs.Prelude.{◌≡◌, ◌+◌, ◌*◌, ◌≤◌, ◌<◌, ◌++◌, ◌↔◌, [], length, take, true, false, decimal, IsTrue};
ghost use Rattle.git_pkt.specs.Packets.{body_of, seen};
ghost use Rattle.git_pkt.specs.Escape.{escaped_of};
ghost use Rattle.git2show_lib.specs.PacketLines.{kind_shown, line_of};
ghost use Rattle.git2show_lib.specs.PacketViews.{view_line};
ghost use Rattle.git2show_lib.specs.PrettyLines.{pretty_line};
ghost use Rattle.git2show_lib.specs.JsonLines.{json_line};

use crate::json_lines::{JSON_LINE, write_json};
use crate::pretty::{LINE, Look, body, write_pretty};
use crate::views::{Form, Tally, View};
use git_pkt::{Packet, escape_into, is_plain, put_at};
use itoa::Buffer;
use std::marker::Model;

/// With so many bytes the lines are full: they are sent before the next packet is read.
pub(crate) const FULL: usize = 65_536;

/// How many bytes a payload has at most.
pub(crate) const PAYLOAD: usize = 65_516;

/// Space for lines that are not full yet, and for one line more. The longest is one of JSON, where a byte of a payload becomes six at
/// most; in plain text it becomes four. So no line is ever cut.
const CAPACITY: usize = FULL + JSON_LINE;

/// How many bytes are escaped at a time.
const BLOCK: usize = 32;

/// How many bytes are tested at a time, whether each is its own escape.
const RUN: usize = 512;

/// How many bytes are in a packet's line before the payload, at the most.
const HEAD: usize = 64;

/// A buffer of lines. It lies where its owner does and never allocates.
#[derive(Drop)]
pub(crate) struct Lines {
    bytes: [u8; CAPACITY],
    /// How many bytes wait.
    count: usize,
    /// How many bytes were lent last. No line was put since, or they mean nothing.
    lent: usize,
}

impl Model for Lines {
    ghost use Rattle.std.specs.Prelude.{◌≤◌, take};
    ghost use Rattle.git2show_lib.specs.Machine.HeldLines.{HeldLines};
    ghost use Rattle.git2show_lib.specs.declared.lines.TheConstants.{CAPACITY};

    ghost Value = { HeldLines };

    ghost view = { λ lines. record { waiting = take lines.count lines.bytes; lent = take lines.lent lines.bytes } };

    ghost invariant = { λ lines. (lines.count ≤ CAPACITY) × (lines.lent ≤ CAPACITY) };
}

impl Lines {
    /// A buffer with no lines.
    pub(crate) fn new() -> Self
        ensures { result.waiting ≡ [] }
    {
        Lines {
            bytes: [0; CAPACITY],
            count: 0,
            lent: 0,
        }
    }

    /// Whether no further line may be put before these are lent.
    pub(crate) fn is_full(&self) -> bool
        ensures { IsTrue result ↔ (FULL ≤ length self.now.waiting) }
    {
        self.count >= FULL
    }

    /// Lends all that waits, if there is something.
    pub(crate) fn lend(&mut self) -> bool
        ensures none { result ≡ false → (self.old.waiting ≡ []) × (self.new ≡ self.old) }
        ensures some { result ≡ true → 0 < length self.old.waiting }
        ensures taken { self.new.waiting ≡ [] }
        ensures lent { result ≡ true → self.new.lent ≡ self.old.waiting }
    {
        if self.count == 0 {
            return false;
        }
        self.lent = self.count;
        self.count = 0;
        true
    }

    /// What was lent last.
    pub(crate) fn lent(&self) -> &[u8]
        ensures { result.now ≡ self.now.lent }
    {
        &self.bytes[..self.lent]
    }

    /// Puts the line of a packet behind the others.
    // Inlined, as all that it does once a packet: LLVM leaves what has two callers, a run with a view and one without, as calls.
    #[inline(always)]
    pub(crate) fn put(&mut self, packet: Packet<'_>, offset: u64)
        requires space { length self.old.waiting < FULL }
        requires fits { length (body_of (seen packet)) ≤ PAYLOAD }
        ensures { self.new.waiting ≡ self.old.waiting ++ line_of (record { packet = seen packet.entry; offset = offset }) }
    {
        self.count = write_line(packet, offset, &mut self.bytes, self.count);
    }

    /// Puts what a view shows of a packet, after those that were counted, behind the others.
    pub(crate) fn put_viewed(
        &mut self,
        view: View<'_>,
        before: Tally,
        packet: Packet<'_>,
        offset: u64,
    )
        requires space { length self.old.waiting < FULL }
        requires fits { length (body_of (seen packet)) ≤ PAYLOAD }
        ensures { self.new.waiting ≡ self.old.waiting ++ view_line view.entry before (record { packet = seen packet.entry; offset = offset }) }
    {
        if view.leaves_out(before, packet, offset) {
            return;
        }
        match view.form {
            Form::Lines => self.put(packet, offset),
            Form::Columns(look) => self.put_pretty(look, before.in_pack, packet, offset),
            Form::Json => self.put_json(packet, offset),
        }
    }

    /// Puts the line of columns of a packet behind the others.
    fn put_pretty(&mut self, look: Look, in_pack: bool, packet: Packet<'_>, offset: u64)
        requires space { length self.old.waiting < FULL }
        ensures { self.new.waiting
            ≡ self.old.waiting ++ pretty_line look.colours look.width in_pack (record { packet = seen packet.entry; offset = offset }) }
    {
        let mut line = [0; LINE];
        let end = write_pretty(look, in_pack, packet, offset, &mut line);
        self.count = put_at(&mut self.bytes, self.count, &line[..end]);
    }

    /// Puts the JSON object of a packet behind the others.
    fn put_json(&mut self, packet: Packet<'_>, offset: u64)
        requires space { length self.old.waiting < FULL }
        requires fits { length (body_of (seen packet)) ≤ PAYLOAD }
        ensures { self.new.waiting ≡ self.old.waiting ++ json_line (record { packet = seen packet.entry; offset = offset }) }
    {
        self.count = write_json(packet, offset, &mut self.bytes, self.count);
    }
}

/// Writes the line of a packet to a place, over what is there, and answers where it ends.
#[inline(always)]
fn write_line(packet: Packet<'_>, offset: u64, out: &mut [u8], at: usize) -> usize
    requires space { at + HEAD + 4 * length (body_of (seen packet)) + 1 ≤ length out.old }
    ensures within { result ≤ at + HEAD + 4 * length (body_of (seen packet.entry)) + 1 }
    ensures line { take result out.new ≡ take at out.old ++ line_of (record { packet = seen packet.entry; offset = offset }) }
{
    let at = write_head(packet, offset, out, at);
    let at = write_escaped(body(packet), out, at);
    put_at(out, at, b"\n")
}

/// Writes what a packet's line has before the payload to a place, over what is there, and answers where it ends.
#[inline(always)]
fn write_head(packet: Packet<'_>, offset: u64, out: &mut [u8], at: usize) -> usize
    requires { at + HEAD ≤ length out.old }
    ensures within { result ≤ at + HEAD }
    ensures head { take result out.new ≡ take at out.old ++ decimal offset ++ kind_shown (seen packet.entry) }
{
    let mut digits = Buffer::new();
    let at = put_at(out, at, digits.format(offset).as_bytes());
    match packet {
        Packet::Flush => put_at(out, at, b" flush"),
        Packet::Delim => put_at(out, at, b" delim"),
        Packet::RespEnd => put_at(out, at, b" end"),
        Packet::Payload(payload) => {
            let at = put_at(out, at, b" data ");
            let at = put_at(out, at, digits.format(payload.len()).as_bytes());
            if payload.is_empty() {
                return at;
            }
            put_at(out, at, b" ")
        }
    }
}

/// Writes the escapes of bytes to a place, a run at a time, and answers where they end.
#[inline(always)]
fn write_escaped(bytes: &[u8], out: &mut [u8], at: usize) -> usize
    requires { at + 4 * length bytes.now ≤ length out.old }
    ensures within { result ≤ at + 4 * length bytes.now }
    ensures escaped { take result out.new ≡ take at out.old ++ escaped_of bytes.now }
{
    let mut end = at;
    for run in bytes.chunks(RUN) {
        end = write_run(run, out, end);
    }
    end
}

/// Writes the escapes of a run: at once where each byte is its own escape.
#[inline(always)]
fn write_run(bytes: &[u8], out: &mut [u8], at: usize) -> usize
    requires { at + 4 * length bytes.now ≤ length out.old }
    ensures within { result ≤ at + 4 * length bytes.now }
    ensures escaped { take result out.new ≡ take at out.old ++ escaped_of bytes.now }
{
    if bytes.len() == RUN && is_plain(bytes) {
        return put_at(out, at, bytes);
    }
    write_blocks(bytes, out, at)
}

/// Writes the escapes of a run, a block at a time.
fn write_blocks(bytes: &[u8], out: &mut [u8], at: usize) -> usize
    requires { at + 4 * length bytes.now ≤ length out.old }
    ensures within { result ≤ at + 4 * length bytes.now }
    ensures escaped { take result out.new ≡ take at out.old ++ escaped_of bytes.now }
{
    let mut end = at;
    for block in bytes.chunks(BLOCK) {
        end = write_block(block, out, end);
    }
    end
}

/// Writes the escapes of one block: at once if it is a whole one and each of its bytes is its own escape.
fn write_block(block: &[u8], out: &mut [u8], at: usize) -> usize
    requires { at + 4 * length block.now ≤ length out.old }
    ensures within { result ≤ at + 4 * length block.now }
    ensures escaped { take result out.new ≡ take at out.old ++ escaped_of block.now }
{
    if block.len() == BLOCK && is_plain(block) {
        return put_at(out, at, block);
    }
    escape_into(block, out, at)
}
