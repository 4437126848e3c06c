//! A pack whose packets are as full as they can be, and one whose reads fail.

ghost use Rattle.std.specs.Prelude.{◌≤◌};

use crate::expecting::expect;
use crate::servers::{converse, default_setup, object};
use git_msg::Offer;
use git_names::Format;
use git_pkt::{Fault, Kind, Recorded, RunFault};
use git_server::{Faulty, ListRepo, Outcome, Pack, Repo, Server, serve};
use std::process::Abort;
use std::test::Fail;

/// One byte more than fits into the longest packet.
const PACK_BYTES: usize = 65_516;

/// A clone of the one object, from a server that advertises nothing.
const REQUEST: &[u8] =
    b"0012command=fetch\n00010032want aaaaaaaaaaaaaaaaaaaaaaaaaaaaaaaaaaaaaaaa\n0009done\n00000000";

/// The length of the packet at the front of the bytes, by its four digits, and the bytes after it.
fn split_packet(bytes: &[u8]) -> (usize, &[u8]) {
    let mut length = 0usize;
    for digit in bytes.iter().take(4) {
        let value = char::from(*digit).to_digit(16).unwrap_or(0) as usize;
        length = length.saturating_mul(16).saturating_add(value);
    }
    (length, bytes.get(length.max(4)..).unwrap_or(&[]))
}

/// A repository of the one object and this pack.
fn repository(rt: &(impl Abort + AllocGlobal), pack: Vec<u8>) -> Result<ListRepo, Fail> {
    let mut objects = Vec::new(rt.alloc());
    objects.push((object(rt, Format::Sha1, b'a'), 12))?;
    let repo = ListRepo::new(
        Format::Sha1,
        Vec::new(rt.alloc()),
        objects,
        None,
        Vec::new(rt.alloc()),
        Pack::Owned(pack),
        None,
        None,
    );
    Ok(repo.expect(rt, "a repository"))
}

#[test]
fn a_pack_comes_in_full_packets(rt: HostRuntime) -> Result<(), Fail> {
    let repo = repository(&rt, vec![in rt.alloc(); b'p'; PACK_BYTES]?)?;
    let offer = Offer::everything(repo.format());
    let mut server = Server::new(rt.alloc(), repo, offer, default_setup().limits, false);
    let (given, outcome) = converse(&mut server, rt.alloc(), &[REQUEST])?;
    let mut rest = given.as_slice();
    for wanted in [13, 65_520, 6, 0] {
        let (length, later) = split_packet(rest);
        expect(&rt, &length, &wanted);
        rest = later;
    }
    assert!(rt; rest.is_empty());
    expect(&rt, &outcome, &Some(Outcome::Flush));
    Ok(())
}

/// A pack of this many bytes, in which no two packets are the same.
fn pack_of(rt: &(impl Abort + AllocGlobal), length: usize) -> Result<Vec<u8>, Fail> {
    let mut pack = Vec::new(rt.alloc());
    let mut byte = 0u8;
    for _ in 0..length {
        pack.push(byte)?;
        byte = if byte == 250 { 0 } else { byte.wrapping_add(1) };
    }
    Ok(pack)
}

/// What a server writes for the request if its reads of the pack fail from this one on, counted from 0, and return at most this many bytes;
/// and how its run ends.
fn serve_failing(
    rt: &(impl Abort + AllocGlobal),
    pack: &[u8],
    failing: u32,
    most: usize,
) -> Result<(Vec<u8>, Result<Outcome, RunFault>), Fail>
    requires { 1 ≤ most }
{
    let repo = repository(rt, Vec::from_slice(rt.alloc(), pack)?)?;
    let repo = Faulty::new(repo, failing, most);
    let offer = Offer::everything(repo.format());
    let mut server = Server::new(rt.alloc(), repo, offer, default_setup().limits, false);
    let mut given = Vec::new(rt.alloc());
    let run = serve(
        &mut Recorded::new(REQUEST),
        &mut Recorded::new(&mut given),
        &mut [0; 256],
        &mut server,
        100,
    );
    Ok((given, run))
}

/// Expects that an answer has the header, packets of the pack with these bytes joined, and after them only this packet.
fn expect_pack(
    rt: &(impl Abort + AllocGlobal),
    answer: &[u8],
    pack: &[u8],
    last: &[u8],
) -> Result<(), Fail> {
    let header = b"000dpackfile\n".as_slice();
    let end = answer.len().saturating_sub(last.len());
    assert!(rt; answer.starts_with(header));
    expect(rt, &answer.get(end..).unwrap_or(&[]), &last);
    let mut rest = answer.get(header.len()..end).unwrap_or(&[]);
    let mut given = Vec::new(rt.alloc());
    for _ in 0..pack.len() {
        if rest.is_empty() {
            break;
        }
        let (length, later) = split_packet(rest);
        expect(rt, &rest.get(4).copied(), &Some(1));
        given.extend_from_slice(rest.get(5..length).unwrap_or(&[]))?;
        rest = later;
    }
    assert!(rt; rest.is_empty());
    assert!(rt; given.as_slice() == pack);
    Ok(())
}

/// Expects that each read of a pack of this many bytes, in parts of at most `most`, fails in turn: what the reads before it returned is passed on.
fn expect_failures(rt: &(impl Abort + AllocGlobal), length: usize, most: usize) -> Result<(), Fail>
    requires { 1 ≤ most }
{
    let pack = pack_of(rt, length)?;
    let refused = Fault {
        kind: Kind::PackSource,
        offset: 81,
    };
    let mut read = 0usize;
    for failing in 0..100u32 {
        let (answer, run) = serve_failing(rt, &pack, failing, most)?;
        if run == Ok(Outcome::Flush) {
            expect(rt, &read, &length);
            return expect_pack(rt, &answer, &pack, b"0000");
        }
        expect(rt, &run, &Ok(Outcome::Refused(refused)));
        let whole = pack.get(..read).unwrap_or(&[]);
        expect_pack(rt, &answer, whole, b"000f\x03PackSource")?;
        read = read.saturating_add(most).min(length);
    }
    assert!(rt; false, "a run with fewer reads");
    Ok(())
}

#[test]
fn each_read_of_a_pack_fails_in_turn(rt: HostRuntime) -> Result<(), Fail> {
    expect_failures(&rt, 9, 1)?;
    expect_failures(&rt, 9, 2)?;
    // Two reads as long as the longest packet, and one of a byte.
    expect_failures(&rt, 131_031, 65_515)
}
