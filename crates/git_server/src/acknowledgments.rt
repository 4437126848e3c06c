//! The section `acknowledgments` in an answer to `fetch`, one packet at a time.

ghost use Rattle.std.specs.Prelude.{◌≡◌, false};
ghost use Rattle.git_pkt.specs.Machine.PacketReader.{is_open};
ghost use Rattle.git_server.specs.FetchAnswers.{ack_packet, is_ready_for};
ghost use Rattle.git_server.specs.Machine.FetchPlaces.{Acknowledges, NextCommon};
ghost use Rattle.git_server.specs.Machine.WrittenPackets.{Writes};

use crate::packets::{write_line, write_packet};
use crate::repo::Repo;
use git_msg::{Fetch, put_ack};
use git_names::Oid;
use git_pkt::{Packet, PacketReader};
use std::alloc::Allocator;

/// The part of the section that is sent next, gitprotocol-v2(5).
#[derive(Clone, Copy, Debug)]
pub(crate) enum AcknowledgmentsPlace {
    /// The header.
    Header,
    /// The haves from this index on, and whether one before them was acknowledged.
    Have(usize, bool),
    /// The part that comes after all the haves.
    Through,
}

/// The result of writing a packet of the section.
#[derive(Clone, Copy, Debug)]
pub(crate) enum Acknowledged {
    /// The section goes on with this part.
    Part(AcknowledgmentsPlace),
    /// The packet was the `ready` line: the repository is ready to send a pack, and the pack follows.
    Ready,
    /// The packet was the flush of the answer: no pack follows.
    Whole,
}

/// Writes the next packet of the section into the reader's buffer, and returns what comes after it.
pub(crate) fn write_acknowledgments<R: Repo, A: Allocator + Copy>(
    repo: &R,
    request: &Fetch<A>,
    place: AcknowledgmentsPlace,
    reader: &mut PacketReader,
) -> Acknowledged
    requires { is_open reader.old ≡ false }
    ensures { Acknowledges (R.state repo.now).answers request.now.asked place reader.old result reader.new }
{
    match place {
        AcknowledgmentsPlace::Header => {
            write_line(reader, b"acknowledgments", b"");
            Acknowledged::Part(AcknowledgmentsPlace::Have(0, false))
        }
        AcknowledgmentsPlace::Have(from, announced) => write_ack(
            repo, request, from, announced, reader,
        ),
        AcknowledgmentsPlace::Through => write_end(repo, request, reader),
    }
}

// Writes the line of the first common object at `from` or after it. If there is none, and there was none before, it writes `NAK`.
fn write_ack<R: Repo, A: Allocator + Copy>(
    repo: &R,
    request: &Fetch<A>,
    from: usize,
    announced: bool,
    reader: &mut PacketReader,
) -> Acknowledged
    requires { is_open reader.old ≡ false }
    ensures { Acknowledges (R.state repo.now).answers request.now.asked (AcknowledgmentsPlace.Have from announced) reader.old result reader.new }
{
    let haves = request.haves();
    match next_common(repo, haves, from) {
        Some(at) => {
            write_common(reader, &haves[at]);
            Acknowledged::Part(AcknowledgmentsPlace::Have(at + 1, true))
        }
        None => {
            if announced {
                return write_end(repo, request, reader);
            }
            write_line(reader, b"NAK", b"");
            Acknowledged::Part(AcknowledgmentsPlace::Through)
        }
    }
}

// Sets the buffer to the line of an object that both sides have.
fn write_common(reader: &mut PacketReader, id: &Oid)
    requires { is_open reader.old ≡ false }
    ensures { Writes reader.old (ack_packet id.now) reader.new }
{
    put_ack(reader.lend(), id);
    let _ = reader.hold();
}

// The index of the first of these objects, at `from` or after it, that the repository has.
fn next_common<R: Repo>(repo: &R, haves: &[Oid], from: usize) -> Option<usize>
    ensures { NextCommon (R.state repo.now).answers.has haves.now from result }
{
    for at in from..haves.len() {
        if repo.has(&haves[at]) {
            return Some(at);
        }
    }
    None
}

/// Whether a pack follows the section: the request does more than negotiate, and the repository is ready.
pub(crate) fn pack_follows<R: Repo, A: Allocator + Copy>(repo: &R, request: &Fetch<A>) -> bool
    ensures { result ≡ is_ready_for (R.state repo.now).answers request.now.asked }
{
    let only_negotiates = request.wait_for_done() && !request.done();
    !only_negotiates && repo.is_ready(request)
}

// Writes the end of the section, which depends on whether a pack follows.
fn write_end<R: Repo, A: Allocator + Copy>(
    repo: &R,
    request: &Fetch<A>,
    reader: &mut PacketReader,
) -> Acknowledged
    requires { is_open reader.old ≡ false }
    ensures { Acknowledges (R.state repo.now).answers request.now.asked AcknowledgmentsPlace.Through reader.old result reader.new }
{
    if pack_follows(repo, request) {
        write_line(reader, b"ready", b"");
        return Acknowledged::Ready;
    }
    write_packet(reader, Packet::Flush);
    Acknowledged::Whole
}
