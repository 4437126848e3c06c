//! Memory of a server over a store: it keeps nothing of the references that are reported, and each growth of a session is refused in turn.
use crate::expecting::{expect, expect_bytes};
use crate::servers::{default_setup, entry, object};
use git_host::{HostReported, HostServer, HostStep, Need, Report};
use git_msg::Offer;
use git_names::{Format, Steps};
use git_pkt::Kind;
use git_server::Outcome;
use linked_list_allocator::LocalHeap;
use std::alloc::Allocator;
use std::process::Abort;
use std::test::Fail;

/// More than any of these sessions takes.
pub const ENOUGH: usize = 4_096;

/// So many references that one byte kept of each would not fit.
const REFERENCES: u32 = 100_000;

/// A request for references below two prefixes.
pub const LISTING: &[u8] =
    b"0014command=ls-refs\n0001001bref-prefix refs/heads/\n001aref-prefix refs/tags/\n0000";

/// The same, and then a fetch of an object and of five references.
const SESSION: &[u8] =
    b"0014command=ls-refs\n0001001bref-prefix refs/heads/\n001aref-prefix refs/tags/\n0000\
0012command=fetch\n00010032want aaaaaaaaaaaaaaaaaaaaaaaaaaaaaaaaaaaaaaaa\n001dwant-ref refs/heads/main\n\
001dwant-ref refs/heads/next\n001awant-ref refs/tags/v1\n001awant-ref refs/tags/v2\n001awant-ref refs/tags/v3\n0009done\n0000";

/// The packets for it from a store that has no reference to list, each wanted one, and a pack of no bytes.
const ANSWERS: &[u8] =
    b"00000010wanted-refs\n003daaaaaaaaaaaaaaaaaaaaaaaaaaaaaaaaaaaaaaaa refs/heads/main\n\
003daaaaaaaaaaaaaaaaaaaaaaaaaaaaaaaaaaaaaaaa refs/heads/next\n003aaaaaaaaaaaaaaaaaaaaaaaaaaaaaaaaaaaaaaaaa refs/tags/v1\n\
003aaaaaaaaaaaaaaaaaaaaaaaaaaaaaaaaaaaaaaaaa refs/tags/v2\n003aaaaaaaaaaaaaaaaaaaaaaaaaaaaaaaaaaaaaaaaa refs/tags/v3\n\
0001000dpackfile\n0000";

/// A host's server with the default limit, before any packet.
pub fn new_host<A: Allocator + Copy>(alloc: A) -> HostServer<A> {
    HostServer::new(
        alloc,
        Offer::everything(Format::Sha1),
        default_setup().limits,
        false,
    )
}

/// Only the request takes memory: each reference is freed once its packet was sent.
#[test]
fn many_references_are_reported_and_none_is_kept(rt: HostRuntime) -> Result<(), Fail> {
    let heap = LocalHeap::new(rt.alloc(), ENOUGH)?;
    let mut server = new_host(&heap);
    expect(
        &rt,
        &server.feed(LISTING, &mut Steps::new()),
        &LISTING.len(),
    );
    assert!(rt; server.accept());
    let taken = heap.used();
    assert!(rt; 0 < taken);
    let id = object(&rt, Format::Sha1, b'a');
    for number in 0..REFERENCES {
        let name = format!(in rt.alloc(); "refs/heads/{number:07}")?;
        let reference = entry(&rt, name.as_bytes(), id, None, None)?;
        let reported = server.report(Report::Reference(reference));
        expect(&rt, &reported, &HostReported::Packet);
        assert!(rt;
            server.packet().starts_with(b"0040aaaaaaaaaaaaaaaaaaaaaaaaaaaaaaaaaaaaaaaa refs/heads/")
        );
        expect(&rt, &heap.used(), &taken);
    }
    let reported = server.report(Report::ReferencesEnd);
    expect(&rt, &reported, &HostReported::Packet);
    expect_bytes(&rt, server.packet(), b"0000");
    assert!(rt; matches!(server.next(), HostStep::NeedInput));
    expect(&rt, &heap.used(), &0);
    Ok(())
}

/// What the store answers.
fn answer(rt: &impl Abort, need: Need) -> Report<'static> {
    match need {
        Need::Want(_) => Report::Want(true),
        Need::WantRef(_) => Report::WantRef(Some(object(rt, Format::Sha1, b'a'))),
        Need::Have(_) => Report::Have(false),
        Need::Ready => Report::Ready(false),
        Need::Boundary => Report::BoundaryEnd,
        Need::Pack => Report::PackEnd,
        Need::Reference => Report::ReferencesEnd,
        Need::Size(_) => Report::Size(None),
    }
}

/// Reports what is needed. If memory runs out, the server has to be unchanged and to need the same, and then the host gives up.
fn report(
    rt: &impl Abort,
    server: &mut HostServer<&LocalHeap>,
    need: Need,
    output: &mut Vec<u8>,
) -> Result<(), Fail> {
    let mut reported = server.report(answer(rt, need));
    if reported == HostReported::OutOfMemory {
        expect(rt, &server.next(), &HostStep::Need(need));
        reported = server.report(Report::Failed);
        expect(rt, &reported, &HostReported::Packet);
    }
    match reported {
        HostReported::Packet => output.extend_from_slice(server.packet())?,
        _ => expect(rt, &reported, &HostReported::Taken),
    }
    Ok(())
}

/// Takes the server's steps up to where it needs more bytes. Returns the outcome, if the session is over.
fn go_on(
    rt: &impl Abort,
    server: &mut HostServer<&LocalHeap>,
    output: &mut Vec<u8>,
) -> Result<Option<Outcome>, Fail> {
    for _ in 0..100 {
        match server.next() {
            HostStep::Packet => output.extend_from_slice(server.packet())?,
            HostStep::NeedInput => return Ok(None),
            HostStep::Asked => assert!(rt; server.accept()),
            HostStep::Need(need) => report(rt, server, need, output)?,
            HostStep::Ended(outcome) => return Ok(Some(outcome)),
        }
    }
    Ok(None)
}

/// The packets of the session with this much memory, and its outcome.
fn converse_with(
    rt: &(impl Abort + AllocGlobal),
    size: usize,
) -> Result<(Vec<u8>, Option<Outcome>), Fail> {
    let heap = LocalHeap::new(rt.alloc(), size)?;
    let mut server = new_host(&heap);
    let mut output = Vec::new(rt.alloc());
    let mut rest = SESSION;
    for _ in 0..10 {
        let used = server.feed(rest, &mut Steps::new());
        rest = &rest[used..];
        if let Some(outcome) = go_on(rt, &mut server, &mut output)? {
            return Ok((output, Some(outcome)));
        }
    }
    assert!(rt; server.close());
    Ok((output, server.outcome()))
}

/// Expects that the packets before the error packet are the first ones of the answers. Returns the kind of the error.
fn expect_front(
    rt: &(impl Abort + AllocGlobal),
    given: &[u8],
    outcome: Outcome,
) -> Result<Kind, Fail> {
    let Outcome::Refused(fault) = outcome else {
        expect(rt, &outcome, &Outcome::Closed);
        expect_bytes(rt, given, ANSWERS);
        return Ok(Kind::Truncated);
    };
    let line = format!(in rt.alloc(); "ERR {fault}\n")?;
    let error = format!(in rt.alloc(); "{:04x}{line}", line.len().saturating_add(4))?;
    let front = given
        .strip_suffix(error.as_bytes())
        .expect(rt, "an error packet");
    assert!(rt; ANSWERS.starts_with(front));
    Ok(fault.kind)
}

/// A growth of the request that is refused ends the session; one of the objects of wanted references is reported to the host.
#[test]
fn each_growth_of_a_host_is_refused_in_turn(rt: HostRuntime) -> Result<(), Fail> {
    let mut ends = Vec::new(rt.alloc());
    for size in (0..ENOUGH).step_by(8) {
        let (given, outcome) = converse_with(&rt, size)?;
        let outcome = outcome.expect(&rt, "an outcome");
        let kind = expect_front(&rt, given.as_slice(), outcome)?;
        if ends.as_slice().last() != Some(&(kind, outcome)) {
            ends.push((kind, outcome))?;
        }
    }
    let (last, earlier) = ends.as_slice().split_last().expect(&rt, "an end");
    expect(&rt, &last.1, &Outcome::Closed);
    assert!(rt; earlier.iter().any(|end| end.0 == Kind::OutOfMemory));
    assert!(rt; earlier.iter().any(|end| end.0 == Kind::PackSource));
    assert!(rt; earlier.iter().all(|end| end.0 == Kind::OutOfMemory || end.0 == Kind::PackSource));
    Ok(())
}
