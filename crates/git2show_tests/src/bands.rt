//! Bytes of a pack and of the progress, as they pass: what the packet reader returns for them, and what a client hands out.

ghost use Rattle.git_pkt.specs.Machine.BandReader.{MayPass};

use crate::clients::{ask_all, new_client, send_all};
use crate::expecting::{expect, expect_bytes};
use git_client::{Client, Event, ReceivedGot};
use git_names::Steps;
use git_pkt::{BandGot, Kind, Packet, PacketReader};
use std::alloc::{AllocError, Global};
use std::process::Abort;
use std::test::Fail;

/// More results than any of these chunks has.
const MANY: usize = 100;

/// Appends a line of a result: how many bytes were used, and what was returned for them.
fn note(
    lines: &mut Vec<u8>,
    alloc: Global,
    used: usize,
    got: &BandGot<'_>,
) -> Result<(), AllocError> {
    let (what, bytes) = match got {
        BandGot::More => (format!(in alloc; "{used} more ")?, b"".as_slice()),
        BandGot::Part(band, bytes) => (format!(in alloc; "{used} band {} ", band.byte())?, *bytes),
        BandGot::Packet(Packet::Payload(payload), offset) => {
            (format!(in alloc; "{used} packet at {offset} ")?, *payload)
        }
        BandGot::Packet(_, offset) => (
            format!(in alloc; "{used} mark at {offset} ")?,
            b"".as_slice(),
        ),
        BandGot::Failed(fault) => (format!(in alloc; "{used} {fault} ")?, b"".as_slice()),
    };
    lines.extend_from_slice(what.as_bytes())?;
    lines.extend_from_slice(bytes)?;
    lines.extend_from_slice(b"\n")
}

/// Feeds a chunk until it is used up.
fn feed_chunk(
    reader: &mut PacketReader,
    alloc: Global,
    chunk: &[u8],
    lines: &mut Vec<u8>,
) -> Result<(), AllocError>
    requires { MayPass reader.old }
    ensures { MayPass reader.new }
{
    let mut rest = chunk;
    for _ in 0..MANY {
        if rest.is_empty() {
            return Ok(());
        }
        let fed = reader.feed_band(rest, &mut Steps::new());
        note(lines, alloc, fed.used, &fed.got)?;
        rest = &rest[fed.used..];
    }
    Ok(())
}

/// What the reader returns for these chunks, and how the stream ends after them.
fn announced(alloc: Global, chunks: &[&[u8]]) -> Result<Vec<u8>, AllocError> {
    let mut lines = Vec::new(alloc);
    let mut reader = PacketReader::new();
    for chunk in chunks {
        feed_chunk(&mut reader, alloc, chunk, &mut lines)?;
    }
    if let Err(fault) = reader.close() {
        lines.extend_from_slice(format!(in alloc; "{fault}\n")?.as_bytes())?;
    }
    Ok(lines)
}

#[test]
fn a_reader_passes_the_bytes_of_both_bands(rt: HostRuntime) -> Result<(), Fail> {
    let lines = announced(rt.alloc(), &[b"0007\x01AB0005\x010006\x03x0000"])?;
    let wanted = b"7 band 1 AB\n11 packet at 12 \x03x\n4 mark at 18 \n".as_slice();
    expect_bytes(&rt, &lines, wanted);
    Ok(())
}

#[test]
fn a_part_is_all_that_the_chunk_has(rt: HostRuntime) -> Result<(), Fail> {
    let lines = announced(rt.alloc(), &[b"0007\x01A", b"B0006\x02x"])?;
    let wanted = b"6 band 1 A\n1 band 1 B\n6 band 2 x\n".as_slice();
    expect_bytes(&rt, &lines, wanted);
    let lines = announced(rt.alloc(), &[b"0007\x01A"])?;
    expect_bytes(&rt, &lines, b"6 band 1 A\nTruncated at 0\n");
    Ok(())
}

/// Appends the bytes of an event of side bands, the name of a section that begins, or the name of the end, and a bar.
fn append_event(arrived: &mut Vec<u8>, event: &Event<'_>) -> Result<(), AllocError> {
    match event {
        Event::Pack(bytes) => arrived.extend_from_slice(bytes)?,
        Event::Progress(bytes) => arrived.extend_from_slice(bytes)?,
        Event::Section(section) => arrived.extend_from_slice(section.name().as_bytes())?,
        Event::Ended => arrived.extend_from_slice(b"ended")?,
        _ => {}
    }
    arrived.extend_from_slice(b"|")
}

/// Feeds a client, and appends what it hands out.
fn receive_chunk(
    client: &mut Client<Global>,
    chunk: &[u8],
    arrived: &mut Vec<u8>,
) -> Result<(), AllocError> {
    match client.feed(chunk, &mut Steps::new()).got {
        ReceivedGot::Event(event) => append_event(arrived, &event),
        _ => Ok(()),
    }
}

/// Feeds a client until the chunk is used up.
fn feed_client(client: &mut Client<Global>, chunk: &[u8]) {
    let mut rest = chunk;
    for _ in 0..MANY {
        let used = client.feed(rest, &mut Steps::new()).used;
        rest = &rest[used..];
    }
}

/// A client that has asked for a pack.
fn asking(rt: &(impl Abort + AllocGlobal)) -> Result<Client<Global>, Fail> {
    let mut client = new_client();
    feed_client(&mut client, b"000eversion 2\n000afetch\n0000");
    let script = b"fetch\nwant aaaaaaaaaaaaaaaaaaaaaaaaaaaaaaaaaaaaaaaa\ndone\n";
    ask_all(rt, &mut client, script)?;
    send_all(&mut client, MANY);
    Ok(client)
}

#[test]
fn a_client_hands_out_each_byte_of_a_pack_as_it_comes(rt: HostRuntime) -> Result<(), Fail> {
    let mut client = asking(&rt)?;
    let mut arrived = Vec::new(rt.alloc());
    for byte in b"000dpackfile\n0008\x01ABC0006\x02x0005\x010000".chunks(1) {
        receive_chunk(&mut client, byte, &mut arrived)?;
    }
    expect_bytes(&rt, &arrived, b"packfile|A|B|C|x|ended|");
    assert!(rt; client.can_ask());
    Ok(())
}

#[test]
fn what_came_of_an_open_packet_was_handed_out(rt: HostRuntime) -> Result<(), Fail> {
    let mut client = asking(&rt)?;
    let mut arrived = Vec::new(rt.alloc());
    for chunk in [b"000dpackfile\n".as_slice(), b"0009\x01AB"] {
        receive_chunk(&mut client, chunk, &mut arrived)?;
    }
    expect_bytes(&rt, &arrived, b"packfile|AB|");
    assert!(rt; client.wants_input());
    let fault = client.close();
    assert!(rt; fault.kind == Kind::Truncated);
    expect(&rt, &fault.offset, &41);
    Ok(())
}
