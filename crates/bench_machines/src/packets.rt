//! Counts the packets of standard input and the bytes of their payloads, and prints one line, `packets bytes checksum`, or reports the
//! first error. This is `PacketReader` as a caller uses it, to be measured beside `bench/packets.c`. [`run_copied`] copies each payload into
//! a buffer of its own, as the library for C does, to be measured beside `bench/calls.c`. In [`run_bands`] bytes of the pack and of the
//! progress pass uncopied, and each part of them counts as a packet does: this is measured beside `bench/uncopied.c`.

ghost use Rattle.std.specs.Prelude.{◌≡◌, ◌+◌, ◌%◌, ◌^◌, false, length};
ghost use Rattle.git_pkt.specs.Packets.{body_of, seen};
ghost use Rattle.git_pkt.specs.Machine.PacketReader.{passes_of};
ghost use Rattle.git_pkt.specs.Machine.BandReader.{MayPass};

use crate::CHUNK_BYTES;
use git_names::Steps;
use git_pkt::{BandGot, Fault, Got, Packet, PacketReader};
use std::io::{self, Read};
use std::process::ExitCode;

/// The maximum number of bytes in a payload.
const PAYLOAD_BYTES: usize = 65_516;

/// What is reported of a stream; each number wraps at 2^64, as it does in C.
#[derive(Clone, Copy, Debug)]
struct Counts {
    packets: u64,
    bytes: u64,
    /// The checksum of the length and the first byte of each payload.
    checksum: u64,
}

impl Counts {
    fn none() -> Self
        ensures packets { result.packets ≡ 0 }
        ensures bytes { result.bytes ≡ 0 }
    {
        Counts {
            packets: 0,
            bytes: 0,
            checksum: 0,
        }
    }

    /// Counts one more packet.
    fn add(&mut self, packet: Packet<'_>)
        ensures packets { self.new.packets ≡ (self.old.packets + 1) % 2 ^ 64 }
        ensures bytes { self.new.bytes ≡ (self.old.bytes + length (body_of (seen packet.entry))) % 2 ^ 64 }
    {
        let (length, mark) = match packet {
            Packet::Flush => (0, 0x100_0000),
            Packet::Delim => (0, 0x100_0001),
            Packet::RespEnd => (0, 0x100_0002),
            Packet::Payload(payload) => {
                let length = payload.len() as u64;
                let first = payload.first().copied().unwrap_or(0);
                (length, (u64::from(first) * 65_536).wrapping_add(length))
            }
        };
        self.packets = self.packets.wrapping_add(1);
        self.bytes = self.bytes.wrapping_add(length);
        self.checksum = self.checksum.wrapping_mul(31).wrapping_add(mark);
    }
}

/// The same packet, with its payload borrowed from the buffer if it fits there.
fn copied<'a>(packet: Packet<'a>, buffer: &'a mut [u8]) -> Packet<'a>
    ensures { seen result ≡ seen packet.entry }
{
    match packet {
        Packet::Payload(payload) if payload.len() <= buffer.len() => {
            buffer[..payload.len()].copy_from_slice(payload);
            Packet::Payload(&buffer[..payload.len()])
        }
        _ => packet,
    }
}

/// Counts the packets that a chunk completes.
fn count_chunk(
    reader: &mut PacketReader,
    chunk: &[u8],
    buffer: &mut [u8],
    counts: &mut Counts,
) -> Result<(), Fault>
    requires gathers { passes_of reader.old ≡ false }
    ensures gathers { passes_of reader.new ≡ false }
{
    let mut rest = chunk;
    while !rest.is_empty() {
        let fed = reader.feed(rest, &mut Steps::new());
        match fed.got {
            Got::More => return Ok(()),
            Got::Packet(packet, _) => counts.add(copied(packet, buffer)),
            Got::Failed(fault) => return Err(fault),
        }
        rest = &rest[fed.used..];
    }
    Ok(())
}

/// Counts the packets of the whole input, which is read into the chunk. Returns the first error, if there is one.
fn count_input<R: Read>(
    input: &mut R,
    chunk: &mut [u8],
    buffer: &mut [u8],
    counts: &mut Counts,
) -> io::Result<Result<(), Fault>> {
    let mut reader = PacketReader::new();
    for _ in 0..u64::MAX {
        let count = input.read(chunk)?;
        if count == 0 {
            break;
        }
        if let Err(fault) = count_chunk(&mut reader, &chunk[..count], buffer, counts) {
            return Ok(Err(fault));
        }
    }
    Ok(reader.close())
}

/// Counts the packets that a chunk completes, and the parts of a pack and of a progress in it.
fn pass_chunk(reader: &mut PacketReader, chunk: &[u8], counts: &mut Counts) -> Result<(), Fault>
    requires { MayPass reader.old }
    ensures { MayPass reader.new }
{
    let mut rest = chunk;
    while !rest.is_empty() {
        let fed = reader.feed_band(rest, &mut Steps::new());
        match fed.got {
            BandGot::More => return Ok(()),
            BandGot::Part(_, bytes) => counts.add(Packet::Payload(bytes)),
            BandGot::Packet(packet, _) => counts.add(packet),
            BandGot::Failed(fault) => return Err(fault),
        }
        rest = &rest[fed.used..];
    }
    Ok(())
}

/// The same as [`count_input`], but bytes of a pack and of a progress pass.
fn pass_input<R: Read>(
    input: &mut R,
    chunk: &mut [u8],
    counts: &mut Counts,
) -> io::Result<Result<(), Fault>> {
    let mut reader = PacketReader::new();
    for _ in 0..u64::MAX {
        let count = input.read(chunk)?;
        if count == 0 {
            break;
        }
        if let Err(fault) = pass_chunk(&mut reader, &chunk[..count], counts) {
            return Ok(Err(fault));
        }
    }
    Ok(reader.close())
}

/// Reports an error on standard error.
fn refuse(rt: &impl Eprint, fault: Fault) -> io::Result<ExitCode> {
    eprintln!(rt; "bench_machines: {:?} at {}", fault.kind, fault.offset)?;
    Ok(ExitCode::FAILURE)
}

/// Prints the counts, or reports the first error. Returns the exit status.
fn announce(rt: &HostRuntime, counted: Result<(), Fault>, counts: Counts) -> io::Result<ExitCode> {
    if let Err(fault) = counted {
        return refuse(rt, fault);
    }
    println!(rt; "{} {} {}", counts.packets, counts.bytes, counts.checksum)?;
    Ok(ExitCode::SUCCESS)
}

/// Counts the packets of standard input, whose payloads are copied into a buffer of this many bytes if they fit there.
fn run_buffered(rt: &HostRuntime, buffered: usize) -> io::Result<ExitCode> {
    let mut input = rt.stdin();
    let mut chunk = vec![in rt.alloc(); 0; CHUNK_BYTES]?;
    let mut buffer = vec![in rt.alloc(); 0; buffered]?;
    let mut counts = Counts::none();
    let counted = count_input(
        &mut input,
        chunk.as_mut_slice(),
        buffer.as_mut_slice(),
        &mut counts,
    )?;
    announce(rt, counted, counts)
}

/// Counts the packets of standard input, each as the reader hands it out. Returns the exit status.
pub(crate) fn run_packets(rt: &HostRuntime) -> io::Result<ExitCode> {
    run_buffered(rt, 0)
}

/// Counts the packets of standard input, and copies each payload. Returns the exit status.
pub(crate) fn run_copied(rt: &HostRuntime) -> io::Result<ExitCode> {
    run_buffered(rt, PAYLOAD_BYTES)
}

/// Counts the packets of standard input, and the parts of a pack and of a progress. Returns the exit status.
pub(crate) fn run_bands(rt: &HostRuntime) -> io::Result<ExitCode> {
    let mut input = rt.stdin();
    let mut chunk = vec![in rt.alloc(); 0; CHUNK_BYTES]?;
    let mut counts = Counts::none();
    let counted = pass_input(&mut input, chunk.as_mut_slice(), &mut counts)?;
    announce(rt, counted, counts)
}
