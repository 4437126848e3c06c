//! A request reader that keeps each argument, fed by a packet reader.

ghost use Rattle.std.specs.Prelude.{◌≡◌, false};
ghost use Rattle.git_pkt.specs.Machine.PacketReader.{passes_of};

use crate::escapes::escaped;
use crate::runs::Run;
use crate::setup::{MANY, limits};
use crate::texts::append;
use crate::trouble::Trouble;
use git_msg::{AdmitsAll, KeptArguments, Offer, ReadGot, Request, RequestReader, TextWord, Word};
use git_names::{Oid, Steps};
use git_pkt::{Fault, Got, Packet, PacketReader, text};
use hex::ToHex;
use std::alloc::{AllocError, Global};

/// A request reader, and whether the delimiter of its request has come.
#[derive(Drop)]
struct Keeper {
    reader: RequestReader<Global>,
    in_arguments: bool,
}

// Appends a line of a word and a text, without the spaces at its end.
fn append_text(
    alloc: Global,
    lines: &mut Vec<u8>,
    word: &[u8],
    text: &[u8],
) -> Result<(), AllocError> {
    append(lines, word)?;
    if !text.is_empty() {
        append(lines, b" ")?;
        append(lines, escaped(alloc, text)?.as_slice().trim_ascii_end())?;
    }
    append(lines, b"\n")
}

// Appends the lines of the arguments with the word.
fn append_word(
    alloc: Global,
    lines: &mut Vec<u8>,
    arguments: &KeptArguments<Global>,
    word: Word,
) -> Result<(), AllocError> {
    let name = word.keyword().trim_ascii_end();
    let name = name.strip_suffix(b"=").unwrap_or(name);
    match word {
        Word::Flag(flag) if !arguments.has(flag) => Ok(()),
        Word::Flag(_) => append_text(alloc, lines, name, b""),
        Word::Object(word) => append_objects(alloc, lines, name, arguments.ids(word)),
        Word::Text(word) => append_texts(alloc, lines, name, arguments, word),
        Word::Number(word) => match arguments.number(word) {
            Some(number) => {
                let number = format!(in alloc; "{number}")?;
                append_text(alloc, lines, name, number.as_bytes())
            }
            None => Ok(()),
        },
    }
}

// Appends lines of a word and an object name.
fn append_objects(
    alloc: Global,
    lines: &mut Vec<u8>,
    word: &[u8],
    ids: &[Oid],
) -> Result<(), AllocError> {
    for id in ids {
        append_text(alloc, lines, word, id.encode_hex(alloc)?.as_bytes())?;
    }
    Ok(())
}

// Appends lines of a word and a text.
fn append_texts(
    alloc: Global,
    lines: &mut Vec<u8>,
    name: &[u8],
    arguments: &KeptArguments<Global>,
    word: TextWord,
) -> Result<(), AllocError> {
    for i in 0..MANY {
        match arguments.text(word, i) {
            Some(text) => append_text(alloc, lines, name, text)?,
            None => break,
        }
    }
    Ok(())
}

// Appends what a request asks for, a line each.
fn append_request(
    alloc: Global,
    lines: &mut Vec<u8>,
    request: &Request<Global>,
) -> Result<(), AllocError> {
    let command = request.command().name();
    let (format, kept) = (request.format().name(), request.kept());
    let head = format!(in alloc; "request {command} {format} kept {kept}\n")?;
    append(lines, head.as_bytes())?;
    let options = Word::Text(TextWord::ServerOption);
    append_word(alloc, lines, request.arguments(), options)?;
    for word in request.command().words() {
        append_word(alloc, lines, request.arguments(), *word)?;
    }
    Ok(())
}

// Appends the line of a packet that was taken, if it is an argument.
fn append_kept(
    alloc: Global,
    lines: &mut Vec<u8>,
    keeper: &mut Keeper,
    packet: Packet<'_>,
) -> Result<(), AllocError> {
    match packet {
        Packet::Payload(payload) if keeper.in_arguments => {
            append_text(alloc, lines, b"kept", text(payload))
        }
        Packet::Delim => {
            keeper.in_arguments = true;
            Ok(())
        }
        _ => Ok(()),
    }
}

// How a reader ended with an error, which it keeps reporting.
fn refused(alloc: Global, keeper: &mut Keeper, fault: Fault) -> Result<String, Trouble> {
    let again = keeper
        .reader
        .take(&AdmitsAll, Packet::Flush, 7, &mut Steps::new());
    match again {
        ReadGot::Failed(same) if same == fault => Ok(format!(in alloc; "refused {fault}\n")?),
        _ => Err(Trouble::Breaks("a reader goes on after its fault")),
    }
}

// Gives the reader a packet, and appends the line of its result. Returns how the reader ended, if it did.
fn take_packet(
    alloc: Global,
    keeper: &mut Keeper,
    packet: Packet<'_>,
    offset: u64,
    lines: &mut Vec<u8>,
) -> Result<Option<String>, Trouble> {
    let got = keeper
        .reader
        .take(&AdmitsAll, packet, offset, &mut Steps::new());
    match got {
        ReadGot::More => append_kept(alloc, lines, keeper, packet)?,
        ReadGot::Request(request) => {
            keeper.in_arguments = false;
            append_request(alloc, lines, &request)?;
        }
        ReadGot::Stop => return Ok(Some(String::from_str(alloc, "stop\n")?)),
        ReadGot::Failed(fault) => return Ok(Some(refused(alloc, keeper, fault)?)),
    }
    Ok(None)
}

/// How far a chunk was used.
#[derive(Drop)]
enum Used<'a> {
    Whole,
    /// Up to the end of a packet: this is left.
    Front(&'a [u8]),
    /// Up to where the reader ended as this line reports.
    Ended(String),
}

// Feeds a chunk up to the end of a packet.
fn feed_packet<'a>(
    alloc: Global,
    packets: &mut PacketReader,
    keeper: &mut Keeper,
    chunk: &'a [u8],
    lines: &mut Vec<u8>,
) -> Result<Used<'a>, Trouble>
    requires gathers { passes_of packets.old ≡ false }
    ensures gathers { passes_of packets.new ≡ false }
{
    let fed = packets.feed(chunk, &mut Steps::new());
    let rest = &chunk[fed.used..];
    match fed.got {
        Got::More => Ok(Used::Whole),
        Got::Failed(fault) => Ok(Used::Ended(format!(in alloc; "refused {fault}\n")?)),
        Got::Packet(packet, offset) => match take_packet(alloc, keeper, packet, offset, lines)? {
            Some(ending) => Ok(Used::Ended(ending)),
            None => Ok(Used::Front(rest)),
        },
    }
}

// Feeds a whole chunk. Returns how the reader ended, if it did.
fn feed(
    alloc: Global,
    packets: &mut PacketReader,
    keeper: &mut Keeper,
    chunk: &[u8],
    lines: &mut Vec<u8>,
) -> Result<Option<String>, Trouble>
    requires gathers { passes_of packets.old ≡ false }
    ensures gathers { passes_of packets.new ≡ false }
{
    let mut rest = chunk;
    for _ in 0..=chunk.len() {
        match feed_packet(alloc, packets, keeper, rest, lines)? {
            Used::Whole => return Ok(None),
            Used::Front(left) => rest = left,
            Used::Ended(ending) => return Ok(Some(ending)),
        }
    }
    Err(Trouble::Breaks("a chunk is never used up"))
}

/// What a reader with this limit receives in the chunks. Then the input ends.
pub fn arrived(alloc: Global, offer: Offer, limit: u32, chunks: &[&[u8]]) -> Result<Run, Trouble> {
    let mut packets = PacketReader::new();
    let mut keeper = Keeper {
        reader: RequestReader::new(alloc, offer, limits(limit)),
        in_arguments: false,
    };
    let mut lines = Vec::new(alloc);
    let mut ending = None;
    for chunk in chunks {
        ending = feed(alloc, &mut packets, &mut keeper, chunk, &mut lines)?;
        if ending.is_some() {
            break;
        }
    }
    let ending = match (ending, packets.close()) {
        (Some(ending), _) => ending,
        (None, Ok(())) => String::from_str(alloc, "closed\n")?,
        (None, Err(fault)) => format!(in alloc; "refused {fault}\n")?,
    };
    Ok(Run::new(alloc, lines, ending, Some(packets.position() as usize)))
}
