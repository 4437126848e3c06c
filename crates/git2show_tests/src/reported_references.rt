//! References that a host reports by their texts.
use crate::expecting::{expect, expect_bytes};
use crate::host_memory::{ENOUGH, LISTING, new_host};
use git_host::{HostReported, HostServer, HostStep, Need, ReferenceFault, ReferenceTexts, Report};
use git_msg::Memory;
use git_names::Steps;
use linked_list_allocator::LocalHeap;
use std::process::Abort;
use std::test::Fail;

const A: &[u8] = b"aaaaaaaaaaaaaaaaaaaaaaaaaaaaaaaaaaaaaaaa";

const UPPER_B: &[u8] = b"BBBBBBBBBBBBBBBBBBBBBBBBBBBBBBBBBBBBBBBB";

/// The line of the first reference.
const MAIN: &[u8] = b"003daaaaaaaaaaaaaaaaaaaaaaaaaaaaaaaaaaaaaaaa refs/heads/main\n";

/// The line of the second, whose digits were reported in upper case.
const NEXT: &[u8] = b"003dbbbbbbbbbbbbbbbbbbbbbbbbbbbbbbbbbbbbbbbb refs/heads/next\n";

/// A request for references with their targets and peeled objects.
const LISTING_ALL: &[u8] = b"0014command=ls-refs\n00010009peel\n000csymrefs\n0000";

/// The line of `HEAD`, which points to a branch.
const HEAD: &[u8] =
    b"0050aaaaaaaaaaaaaaaaaaaaaaaaaaaaaaaaaaaaaaaa HEAD symref-target:refs/heads/main\n";

/// The line of a tag, whose peeled object was reported in upper case.
const TAG: &[u8] =
    b"006aaaaaaaaaaaaaaaaaaaaaaaaaaaaaaaaaaaaaaaaa refs/tags/v1 peeled:bbbbbbbbbbbbbbbbbbbbbbbbbbbbbbbbbbbbbbbb\n";

/// A reference with neither a target nor a peeled object.
fn plain<'a>(digits: &'a [u8], name: &'a [u8]) -> ReferenceTexts<'a> {
    ReferenceTexts {
        digits,
        name,
        target: None,
        peeled: None,
    }
}

/// A server that was asked for references.
fn new_listing<A: Memory + Copy>(rt: &impl Abort, alloc: A, request: &[u8]) -> HostServer<A> {
    let mut server = new_host(alloc);
    expect(rt, &server.feed(request, &mut Steps::new()), &request.len());
    assert!(rt; server.accept());
    server
}

/// Reports a reference, and expects what comes of it, and that this packet is the last one then.
fn expect_reported<M: Memory + Copy>(
    rt: &impl Abort,
    server: &mut HostServer<M>,
    texts: ReferenceTexts<'_>,
    expected: Result<HostReported, ReferenceFault>,
    packet: &[u8],
) {
    match (server.report_reference(texts), expected) {
        (Ok(reported), Ok(expected)) => expect(rt, &reported, &expected),
        (Err(fault), Err(expected)) => expect(rt, &fault, &expected),
        _ => assert!(rt; false),
    }
    expect_bytes(rt, server.packet(), packet);
}

/// A reference that the request asks for has a packet. One that is refused leaves the packet before it, and the next one is taken.
#[test]
fn references_are_given_as_they_are_reported(rt: HostRuntime) -> Result<(), Fail> {
    let mut server = new_listing(&rt, rt.alloc(), LISTING);
    let main = plain(A, b"refs/heads/main");
    let next = plain(UPPER_B, b"refs/heads/next");
    expect_reported(&rt, &mut server, main, Ok(HostReported::Packet), MAIN);
    expect_reported(&rt, &mut server, main, Ok(HostReported::Unsorted), MAIN);
    let short = plain(&A[1..], next.name);
    let no_object = Err(ReferenceFault::BadObjectName);
    expect_reported(&rt, &mut server, short, no_object, MAIN);
    let misnamed = plain(A, b"refs/heads/next.lock");
    let no_name = Err(ReferenceFault::BadRefName);
    expect_reported(&rt, &mut server, misnamed, no_name, MAIN);
    expect_reported(&rt, &mut server, next, Ok(HostReported::Packet), NEXT);
    let hidden = plain(A, b"refs/notes/commits");
    expect_reported(&rt, &mut server, hidden, Ok(HostReported::Hidden), NEXT);
    expect(
        &rt,
        &server.report(Report::ReferencesEnd),
        &HostReported::Packet,
    );
    expect_bytes(&rt, server.packet(), b"0000");
    let unasked = Ok(HostReported::NotAsked);
    expect_reported(&rt, &mut server, main, unasked, b"0000");
    Ok(())
}

/// Targets and peeled objects are sent if the request asks for them.
#[test]
fn targets_and_peeled_objects_are_given_where_they_are_asked_for(
    rt: HostRuntime,
) -> Result<(), Fail> {
    let head = ReferenceTexts {
        target: Some(b"refs/heads/main"),
        ..plain(A, b"HEAD")
    };
    let tag = ReferenceTexts {
        peeled: Some(UPPER_B),
        ..plain(A, b"refs/tags/v1")
    };
    let mut server = new_listing(&rt, rt.alloc(), LISTING_ALL);
    expect_reported(&rt, &mut server, head, Ok(HostReported::Packet), HEAD);
    expect_reported(&rt, &mut server, tag, Ok(HostReported::Packet), TAG);
    let mut server = new_listing(&rt, rt.alloc(), LISTING);
    let plain_tag = b"003aaaaaaaaaaaaaaaaaaaaaaaaaaaaaaaaaaaaaaaaa refs/tags/v1\n";
    expect_reported(&rt, &mut server, tag, Ok(HostReported::Packet), plain_tag);
    Ok(())
}

/// The texts are checked from left to right: of several that are refused the first counts, also after the end of the references.
#[test]
fn the_first_text_that_is_refused_counts(rt: HostRuntime) -> Result<(), Fail> {
    let no_object = Err(ReferenceFault::BadObjectName);
    let no_name = Err(ReferenceFault::BadRefName);
    let bad = ReferenceTexts {
        digits: b"a",
        name: b"refs/a..b",
        target: Some(b"refs"),
        peeled: Some(b"b"),
    };
    let with_digits = ReferenceTexts { digits: A, ..bad };
    let with_name = ReferenceTexts {
        name: b"refs/heads/main",
        ..with_digits
    };
    let with_target = ReferenceTexts {
        target: Some(b"HEAD"),
        ..with_name
    };
    let mut server = new_listing(&rt, rt.alloc(), LISTING_ALL);
    for _ in 0..2 {
        let sent = Vec::from_slice(rt.alloc(), server.packet())?;
        expect_reported(&rt, &mut server, bad, no_object, &sent);
        expect_reported(&rt, &mut server, with_digits, no_name, &sent);
        let misnamed = ReferenceTexts {
            target: None,
            ..with_digits
        };
        expect_reported(&rt, &mut server, misnamed, no_name, &sent);
        expect_reported(&rt, &mut server, with_name, no_name, &sent);
        expect_reported(&rt, &mut server, with_target, no_object, &sent);
        server.report(Report::ReferencesEnd);
    }
    Ok(())
}

/// With too little memory for a copy of its name a reference is refused, and asked for again; with more it is taken.
#[test]
fn memory_for_the_name_of_a_reference_is_refused(rt: HostRuntime) -> Result<(), Fail> {
    let mut name = Vec::from_slice(rt.alloc(), b"refs/heads/")?;
    name.extend_from_slice(&[b'n'; 500])?;
    let mut was_refused = false;
    let mut was_taken = false;
    for size in (0..ENOUGH).step_by(8) {
        let heap = LocalHeap::new(rt.alloc(), size)?;
        let mut server = new_host(&heap);
        server.feed(LISTING, &mut Steps::new());
        if server.accept() {
            match server.report_reference(plain(A, name.as_slice())) {
                Ok(reported) => {
                    expect(&rt, &reported, &HostReported::Packet);
                    was_taken = true;
                }
                Err(fault) => {
                    expect(&rt, &fault, &ReferenceFault::OutOfMemory);
                    expect(&rt, &server.next(), &HostStep::Need(Need::Reference));
                    was_refused = true;
                }
            }
        }
    }
    assert!(rt; was_refused);
    assert!(rt; was_taken);
    Ok(())
}
