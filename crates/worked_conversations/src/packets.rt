//! The packet reader and `show`: a line for each packet.

ghost use Rattle.std.specs.Prelude.{◌≡◌, false};
ghost use Rattle.git_pkt.specs.Machine.PacketReader.{passes_of};

use crate::escapes::escaped;
use crate::runs::Run;
use crate::script::Script;
use crate::setup::{LAST_POSITION, TURNS};
use crate::texts::append;
use crate::trouble::Trouble;
use git_names::Steps;
use git_pkt::{Fault, Got, Packet, PacketReader, Recorded, RunFault, put};
use git2show_lib::show;
use std::alloc::{AllocError, Global};
use test_streams::{Chunks, Sink};

// Appends the line of a packet.
fn append_line(
    alloc: Global,
    lines: &mut Vec<u8>,
    packet: Packet<'_>,
    offset: u64,
) -> Result<(), AllocError> {
    let line = match packet {
        Packet::Flush => format!(in alloc; "{offset} flush")?,
        Packet::Delim => format!(in alloc; "{offset} delim")?,
        Packet::RespEnd => format!(in alloc; "{offset} end")?,
        Packet::Payload(payload) => format!(in alloc; "{offset} data {}", payload.len())?,
    };
    append(lines, line.as_bytes())?;
    if let Packet::Payload(payload) = packet {
        if !payload.is_empty() {
            append(lines, b" ")?;
            append(lines, escaped(alloc, payload)?.as_slice())?;
        }
    }
    append(lines, b"\n")
}

// After a packet the hold has its bytes as they came, and an empty chunk leaves them. Then it may be written over.
fn check_hold(reader: &mut PacketReader, came: &[u8]) -> Result<(), Trouble>
    requires gathers { passes_of reader.old ≡ false }
    ensures gathers { passes_of reader.new ≡ false }
{
    if !came.ends_with(reader.hold().as_slice()) {
        return Err(Trouble::Breaks("the hold has not the packet as it came"));
    }
    let used = reader.feed(b"", &mut Steps::new()).used;
    if used != 0 || !came.ends_with(reader.hold().as_slice()) {
        return Err(Trouble::Breaks("an empty chunk changes the hold"));
    }
    if reader.is_open() {
        return Err(Trouble::Breaks("a packet is open after a whole one"));
    }
    put(reader.lend(), Packet::Payload(b"written between packets\n"));
    Ok(())
}

/// How far a chunk was used.
#[derive(Clone, Copy)]
enum Used<'a> {
    Whole,
    /// Up to the end of a packet: this is left.
    Front(&'a [u8]),
    /// Up to an error.
    Failed,
}

// Feeds a chunk up to the end of a packet, and appends the packet's line.
fn feed_packet<'a>(
    alloc: Global,
    reader: &mut PacketReader,
    chunk: &'a [u8],
    lines: &mut Vec<u8>,
) -> Result<Used<'a>, AllocError>
    requires gathers { passes_of reader.old ≡ false }
    ensures gathers { passes_of reader.new ≡ false }
{
    let fed = reader.feed(chunk, &mut Steps::new());
    let rest = &chunk[fed.used..];
    match fed.got {
        Got::More => Ok(Used::Whole),
        Got::Failed(_) => Ok(Used::Failed),
        Got::Packet(packet, offset) => {
            append_line(alloc, lines, packet, offset)?;
            Ok(Used::Front(rest))
        }
    }
}

// Feeds a whole chunk, also an empty one. Returns whether there was an error.
fn feed(
    alloc: Global,
    reader: &mut PacketReader,
    start: u64,
    input: &[u8],
    chunk: &[u8],
    lines: &mut Vec<u8>,
) -> Result<bool, Trouble>
    requires gathers { passes_of reader.old ≡ false }
    ensures gathers { passes_of reader.new ≡ false }
{
    let mut rest = chunk;
    for _ in 0..=chunk.len() {
        match feed_packet(alloc, reader, rest, lines)? {
            Used::Whole => return Ok(false),
            Used::Failed => return Ok(true),
            Used::Front(left) => rest = left,
        }
        let used = reader.position().saturating_sub(start) as usize;
        check_hold(reader, input.get(..used).unwrap_or(&[]))?;
    }
    Err(Trouble::Breaks("a chunk is never used up"))
}

// A reader that failed uses nothing more, has no packet open, and keeps reporting the same error.
fn check_failed(reader: &mut PacketReader, fault: Fault) -> Result<(), Trouble>
    requires gathers { passes_of reader.old ≡ false }
{
    let position = reader.position();
    for chunk in [b"0000".as_slice(), b"".as_slice()] {
        let fed = reader.feed(chunk, &mut Steps::new());
        let announced = match fed.got {
            Got::Failed(announced) => Some(announced),
            _ => None,
        };
        if fed.used != 0 || announced != Some(fault) {
            return Err(Trouble::Breaks("a reader goes on after its fault"));
        }
    }
    if reader.is_open() || reader.position() != position || reader.close() != Err(fault) {
        return Err(Trouble::Breaks("a failed reader changes"));
    }
    Ok(())
}

/// Reads the chunks, and then the input ends.
pub fn read(alloc: Global, start: u64, script: &Script, chunks: &[&[u8]]) -> Result<Run, Trouble> {
    if start > LAST_POSITION {
        return Err(Trouble::BadCase("an offset past the last position"));
    }
    let mut reader = PacketReader::at(start);
    let mut lines = Vec::new(alloc);
    for chunk in chunks {
        if feed(
            alloc,
            &mut reader,
            start,
            script.input.as_slice(),
            chunk,
            &mut lines,
        )? {
            break;
        }
    }
    let used = reader.position().saturating_sub(start) as usize;
    let ending = match reader.close() {
        Ok(()) => String::from_str(alloc, "closed\n")?,
        Err(fault) => {
            check_failed(&mut reader, fault)?;
            format!(in alloc; "refused {fault}\n")?
        }
    };
    Ok(Run::new(alloc, lines, ending, Some(used)))
}

/// How `show` ended.
pub fn ending_of(alloc: Global, answer: Result<(), RunFault>) -> Result<String, AllocError> {
    match answer {
        Ok(()) => String::from_str(alloc, "closed\n"),
        Err(RunFault::Refused(fault)) => format!(in alloc; "refused {fault}\n"),
        Err(fault) => format!(in alloc; "{fault}\n"),
    }
}

/// Shows the chunks.
pub fn shown(alloc: Global, chunks: &[&[u8]]) -> Result<Run, Trouble> {
    let mut sink = Sink::new(Vec::new(alloc), usize::MAX, u32::MAX);
    let mut chunk = [0; 4_096];
    let answer = show(
        &mut Recorded::new(Chunks::new(chunks)),
        &mut Recorded::new(&mut sink),
        &mut chunk,
        TURNS,
    );
    let ending = ending_of(alloc, answer)?;
    Ok(Run::new(alloc, sink.taken, ending, None))
}
