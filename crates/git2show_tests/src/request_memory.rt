//! Memory that runs out at each allocation in turn.

use crate::adding::{add_filter, add_prefix, add_want, bytes_kept, filter_at, new_request};
use crate::expecting::expect;
use crate::servers::object;
use git_msg::{
    AdmitsAll, Argument, Command, Flag, Limits, ObjectWord, Offer, ReadGot, RequestReader, TextWord,
};
use git_names::{Format, Steps};
use git_pkt::{Fault, Kind, Packet};
use linked_list_allocator::LocalHeap;
use std::alloc::{AllocError, Allocator, Global};
use std::process::Abort;

/// An offer of everything but `object-info`, in SHA-1.
fn offer() -> Offer {
    Offer {
        object_info: false,
        ..Offer::everything(Format::Sha1)
    }
}

/// Adds two prefixes to a request that may use this much memory, and returns how many were kept.
fn kept_within(rt: &impl Abort, alloc: Global, size: usize) -> Result<u32, AllocError> {
    let heap = LocalHeap::new(alloc, size)?;
    let mut request = new_request(&heap, Command::LsRefs, Limits { args: 1000 });
    expect(rt, &request.add(&Argument::Flag(Flag::Symrefs)), &Ok(()));
    let mut kept = 0u32;
    for prefix in [b"refs/heads/".as_slice(), b"refs/tags/".as_slice()] {
        let before = bytes_kept(&request);
        match add_prefix(&mut request, prefix) {
            Ok(()) => kept = kept.saturating_add(1),
            Err(kind) => {
                expect(rt, &kind, &Kind::OutOfMemory);
                expect(rt, &bytes_kept(&request), &before);
                expect(
                    rt,
                    &request.arguments().text(TextWord::RefPrefix, kept as usize),
                    &None,
                );
                assert!(rt; request.arguments().has(Flag::Symrefs));
                assert!(rt; !request.arguments().has(Flag::Peel));
                break;
            }
        }
    }
    Ok(kept)
}

/// How many of the two prefixes a heap of this size can keep. It has blocks of 16 bytes and multiples of them. The first prefix takes two:
/// one for the ends of four texts, of four bytes each, and one for its bytes, 13 with those of its length. The second has space for its end
/// already, and moves the bytes to a block of 32, twice 13 rounded up, while the old block is still taken.
fn expected_within(size: usize) -> u32 {
    match size {
        0..=16 => 0,
        17..=48 => 1,
        _ => 2,
    }
}

#[test]
fn each_growth_of_a_request_is_refused_in_turn(rt: HostRuntime) -> Result<(), AllocError> {
    for size in 0..256 {
        let kept = kept_within(&rt, rt.alloc(), size)?;
        assert_eq!(&rt; kept, expected_within(size), "with {size} bytes");
    }
    Ok(())
}

/// Two filters, which take the same blocks as the two prefixes: their bytes are 14, and then 24, with those of their lengths.
const FILTERS: [&[u8]; 2] = [b"blob:limit=8", b"tree:100"];

/// Adds the filters to a fetch that may use this much memory, and returns how many were kept.
fn filters_within(rt: &impl Abort, alloc: Global, size: usize) -> Result<u32, AllocError> {
    let heap = LocalHeap::new(alloc, size)?;
    let mut request = new_request(&heap, Command::Fetch, Limits { args: 1000 });
    expect(
        rt,
        &request.add(&Argument::Flag(Flag::WaitForDone)),
        &Ok(()),
    );
    let mut kept = 0u32;
    for spec in FILTERS {
        let before = bytes_kept(&request);
        match add_filter(&mut request, spec) {
            Ok(()) => {
                expect(rt, &filter_at(&request, kept as usize), &Some(spec));
                kept = kept.saturating_add(1);
            }
            Err(kind) => {
                expect(rt, &kind, &Kind::OutOfMemory);
                expect(rt, &bytes_kept(&request), &before);
                break;
            }
        }
    }
    expect(rt, &filter_at(&request, kept as usize), &None);
    assert!(rt; request.arguments().has(Flag::WaitForDone));
    Ok(kept)
}

#[test]
fn each_growth_of_the_filters_is_refused_in_turn(rt: HostRuntime) -> Result<(), AllocError> {
    for size in 0..256 {
        let kept = filters_within(&rt, rt.alloc(), size)?;
        assert_eq!(&rt; kept, expected_within(size), "with {size} bytes");
    }
    Ok(())
}

#[test]
fn filters_are_kept_in_order(rt: HostRuntime) -> Result<(), AllocError> {
    let mut request = new_request(rt.alloc(), Command::Fetch, Limits { args: 57 });
    for spec in [FILTERS[0], FILTERS[1], FILTERS[0]] {
        expect(&rt, &add_filter(&mut request, spec), &Ok(()));
    }
    // Each counts with the seven bytes of its word and the space, and a repetition counts again.
    expect(&rt, &bytes_kept(&request), &53);
    expect(&rt, &filter_at(&request, 0), &Some(FILTERS[0]));
    expect(&rt, &filter_at(&request, 1), &Some(FILTERS[1]));
    expect(&rt, &filter_at(&request, 2), &Some(FILTERS[0]));
    expect(&rt, &filter_at(&request, 3), &None);
    expect(&rt, &add_filter(&mut request, b""), &Err(Kind::BadLine));
    expect(
        &rt,
        &add_filter(&mut request, b"x"),
        &Err(Kind::TooMuchKept),
    );
    expect(&rt, &bytes_kept(&request), &53);
    expect(&rt, &filter_at(&request, 3), &None);
    Ok(())
}

/// More wants than fit into the first block taken for them.
const MANY: usize = 20;

/// Adds wants to a request that may use this much memory, and returns how many were kept.
fn wants_within(rt: &impl Abort, alloc: Global, size: usize) -> Result<usize, AllocError> {
    let heap = LocalHeap::new(alloc, size)?;
    let mut request = new_request(&heap, Command::Fetch, Limits { args: 1000 });
    let id = object(rt, Format::Sha1, b'a');
    expect(rt, &request.add(&Argument::Flag(Flag::Done)), &Ok(()));
    for kept in 0..MANY {
        let before = bytes_kept(&request);
        let added = add_want(&mut request, id);
        if added.is_err() {
            expect(rt, &added, &Err(Kind::OutOfMemory));
            expect(rt, &bytes_kept(&request), &before);
            expect(rt, &request.arguments().ids(ObjectWord::Want).len(), &kept);
            assert!(rt; request.arguments().has(Flag::Done));
            return Ok(kept);
        }
    }
    Ok(MANY)
}

#[test]
fn each_growth_of_the_wants_is_refused_in_turn(rt: HostRuntime) -> Result<(), AllocError> {
    let mut most = 0;
    let mut kept_some = false;
    for size in (0..8192).step_by(8) {
        let kept = wants_within(&rt, rt.alloc(), size)?;
        assert!(&rt; most <= kept);
        most = kept;
        kept_some = kept_some | (0 < kept && kept < MANY);
    }
    expect(&rt, &wants_within(&rt, rt.alloc(), 32)?, &0);
    assert!(&rt; kept_some, "no later growth is refused alone");
    expect(&rt, &most, &MANY);
    Ok(())
}

/// A reader of the requests that are advertised.
fn new_reader<A: Allocator + Copy>(alloc: A) -> RequestReader<A> {
    RequestReader::new(alloc, offer(), Limits { args: 1000 })
}

/// Gives the reader a packet. It keeps its argument, if it is one.
fn take_packet<A: Allocator + Copy>(
    reader: &mut RequestReader<A>,
    packet: Packet<'_>,
    offset: u64,
) -> Result<(), Fault> {
    match reader.take(&AdmitsAll, packet, offset, &mut Steps::new()) {
        ReadGot::Failed(fault) => Err(fault),
        _ => Ok(()),
    }
}

/// Expects that the reader takes the packet, and keeps its argument, if it is one.
fn expect_kept<A: Allocator + Copy>(
    rt: &impl Abort,
    reader: &mut RequestReader<A>,
    packet: Packet<'_>,
    offset: u64,
) {
    expect(rt, &take_packet(reader, packet, offset), &Ok(()));
}

#[test]
fn a_reader_without_memory_refuses_the_first_prefix(rt: HostRuntime) -> Result<(), AllocError> {
    // The ends of four texts take all of it, and their bytes do not fit.
    let heap = LocalHeap::new(rt.alloc(), 16)?;
    let mut reader = new_reader(&heap);
    let refused = Err(Fault {
        kind: Kind::OutOfMemory,
        offset: 33,
    });
    expect_kept(&rt, &mut reader, Packet::Payload(b"command=ls-refs\n"), 0);
    expect_kept(&rt, &mut reader, Packet::Delim, 20);
    expect_kept(&rt, &mut reader, Packet::Payload(b"peel\n"), 24);
    expect(
        &rt,
        &take_packet(&mut reader, Packet::Payload(b"ref-prefix a\n"), 33),
        &refused,
    );
    expect(&rt, &take_packet(&mut reader, Packet::Flush, 50), &refused);
    Ok(())
}

#[test]
fn a_request_of_flags_takes_no_memory(rt: HostRuntime) -> Result<(), AllocError> {
    let heap = LocalHeap::new(rt.alloc(), 0)?;
    let mut request = new_request(&heap, Command::LsRefs, Limits { args: 1000 });
    expect(&rt, &request.add(&Argument::Flag(Flag::Peel)), &Ok(()));
    expect(&rt, &request.add(&Argument::Flag(Flag::Symrefs)), &Ok(()));
    expect(&rt, &bytes_kept(&request), &11);
    let added = add_prefix(&mut request, b"");
    expect(&rt, &added, &Err(Kind::OutOfMemory));
    let mut reader = new_reader(&heap);
    expect_kept(&rt, &mut reader, Packet::Payload(b"command=ls-refs\n"), 0);
    expect_kept(&rt, &mut reader, Packet::Delim, 20);
    expect_kept(&rt, &mut reader, Packet::Payload(b"symrefs\n"), 24);
    expect_kept(&rt, &mut reader, Packet::Payload(b"peel\n"), 36);
    expect_kept(&rt, &mut reader, Packet::Flush, 45);
    Ok(())
}

/// Lines of a fetch that take memory, one of each kind.
const KEPT: [&[u8]; 6] = [
    b"want aaaaaaaaaaaaaaaaaaaaaaaaaaaaaaaaaaaaaaaa\n",
    b"have aaaaaaaaaaaaaaaaaaaaaaaaaaaaaaaaaaaaaaaa\n",
    b"shallow aaaaaaaaaaaaaaaaaaaaaaaaaaaaaaaaaaaaaaaa\n",
    b"deepen-not v1\n",
    b"want-ref HEAD\n",
    b"filter blob:none\n",
];

/// Reads the flags and numbers of a fetch, and then this line, with this much memory. Returns the result of the line.
fn arrived_within(
    rt: &impl Abort,
    alloc: Global,
    size: usize,
    line: &[u8],
) -> Result<Result<(), Fault>, AllocError> {
    let heap = LocalHeap::new(alloc, size)?;
    let mut reader = new_reader(&heap);
    expect_kept(rt, &mut reader, Packet::Payload(b"command=fetch\n"), 0);
    expect_kept(rt, &mut reader, Packet::Delim, 18);
    expect_kept(rt, &mut reader, Packet::Payload(b"deepen 2147483647\n"), 22);
    expect_kept(rt, &mut reader, Packet::Payload(b"deepen-relative\n"), 44);
    expect_kept(rt, &mut reader, Packet::Payload(b"deepen-since 0\n"), 64);
    let arrived = take_packet(&mut reader, Packet::Payload(line), 100);
    if arrived.is_err() {
        expect(rt, &take_packet(&mut reader, Packet::Flush, 150), &arrived);
    }
    Ok(arrived)
}

#[test]
fn a_fetch_takes_memory_for_objects_and_texts_alone(rt: HostRuntime) -> Result<(), AllocError> {
    let refused = Err(Fault {
        kind: Kind::OutOfMemory,
        offset: 100,
    });
    for line in KEPT {
        expect(&rt, &arrived_within(&rt, rt.alloc(), 16, line)?, &refused);
        expect(&rt, &arrived_within(&rt, rt.alloc(), 8192, line)?, &Ok(()));
    }
    Ok(())
}
