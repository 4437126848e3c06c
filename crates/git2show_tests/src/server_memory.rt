//! Memory that runs out at each allocation in turn.
use crate::expecting::{expect, expect_bytes};
use crate::servers::{converse, default_setup, new_server, refusal, repository, server_of};
use git_names::Format;
use git_pkt::{Kind, Recorded, RunFault};
use git_server::{Outcome, serve};
use linked_list_allocator::LocalHeap;
use std::alloc::{AllocError, Global};
use std::process::Abort;
use std::test::Fail;

/// A request that keeps two texts.
struct Kept {
    request: &'static [u8],
    /// The offsets of the packets of both texts.
    places: [u64; 2],
    /// The answer to it.
    answer: &'static [u8],
}

/// Two prefixes.
const PREFIXES: Kept = Kept {
    request: b"0014command=ls-refs\n00010009peel\n001bref-prefix refs/heads/\n001aref-prefix refs/tags/\n0000",
    places: [33, 60],
    answer: b"003daaaaaaaaaaaaaaaaaaaaaaaaaaaaaaaaaaaaaaaa refs/heads/main\n\
006abbbbbbbbbbbbbbbbbbbbbbbbbbbbbbbbbbbbbbbb refs/tags/v1 peeled:aaaaaaaaaaaaaaaaaaaaaaaaaaaaaaaaaaaaaaaa\n0000",
};

/// Two filters.
const FILTERS: Kept = Kept {
    request: b"0012command=fetch\n00010012wait-for-done\n0018filter blob:limit=8\n0014filter tree:100\n0000",
    places: [40, 64],
    answer: b"0014acknowledgments\n0008NAK\n0000",
};

// What a server with this much memory writes for the input, which it reads from a stream, and how its run ends.
fn serve_with(
    rt: &(impl Abort + AllocGlobal),
    input: &[u8],
    size: usize,
) -> Result<(Vec<u8>, Result<Outcome, RunFault>), Fail> {
    let repo = repository(rt, Format::Sha1)?;
    let heap = LocalHeap::new(rt.alloc(), size)?;
    let mut written = Vec::new(rt.alloc());
    let mut chunk = [0; 7];
    let run = serve(
        &mut Recorded::new(input),
        &mut Recorded::new(&mut written),
        &mut chunk,
        &mut server_of(repo, &heap, default_setup()),
        100,
    );
    Ok((written, run))
}

// What a server with this much memory sends for the request, and how its session ends.
fn converse_with(
    rt: &(impl Abort + AllocGlobal),
    request: &[u8],
    size: usize,
) -> Result<(Vec<u8>, Option<Outcome>), Fail> {
    let repo = repository(rt, Format::Sha1)?;
    let heap = LocalHeap::new(rt.alloc(), size)?;
    Ok(converse(
        &mut server_of(repo, &heap, default_setup()),
        rt.alloc(),
        &[request],
    )?)
}

// What it sends with a heap of this size, and how the session ends. The first text takes two blocks of 16 bytes, for the ends of four texts
// and for its bytes; the second moves the bytes to a block of 32, while the old one is still taken.
fn expected_with(
    alloc: Global,
    kept: &Kept,
    size: usize,
) -> Result<(Vec<u8>, Outcome), AllocError> {
    let offset = match size {
        0..=16 => kept.places[0],
        17..=48 => kept.places[1],
        _ => return Ok((Vec::from_slice(alloc, kept.answer)?, Outcome::Closed)),
    };
    let announced = format!(in alloc; "001aERR OutOfMemory at {offset}\n")?;
    Ok((announced.into_bytes(), refusal(Kind::OutOfMemory, offset)))
}

// Expects that a server with each size of memory is refused the expected allocation.
fn expect_refusals(rt: &(impl Abort + AllocGlobal), kept: &Kept) -> Result<(), Fail> {
    for size in 0..256 {
        let (given, ended) = converse_with(rt, kept.request, size)?;
        let (written, run) = serve_with(rt, kept.request, size)?;
        let (expected, outcome) = expected_with(rt.alloc(), kept, size)?;
        assert_eq!(rt; given.as_slice(), expected.as_slice(), "with {size} bytes");
        assert_eq!(rt; ended, Some(outcome), "with {size} bytes");
        assert_eq!(rt;
            written.as_slice(),
            expected.as_slice(),
            "with {size} bytes"
        );
        assert_eq!(rt; run, Ok(outcome), "with {size} bytes");
    }
    Ok(())
}

#[test]
fn each_growth_of_the_prefixes_is_refused_in_turn(rt: HostRuntime) -> Result<(), Fail> {
    expect_refusals(&rt, &PREFIXES)
}

#[test]
fn each_growth_of_the_filters_is_refused_in_turn(rt: HostRuntime) -> Result<(), Fail> {
    expect_refusals(&rt, &FILTERS)
}

// A fetch that names the same object this many times.
fn fetch(alloc: Global, wants: u32) -> Result<Vec<u8>, AllocError> {
    let mut request = Vec::from_slice(alloc, b"0012command=fetch\n0001")?;
    for _ in 0..wants {
        request.extend_from_slice(b"0032want aaaaaaaaaaaaaaaaaaaaaaaaaaaaaaaaaaaaaaaa\n")?;
    }
    request.extend_from_slice(b"0009done\n0000")?;
    Ok(request)
}

#[test]
fn each_growth_of_the_wants_is_refused_in_turn(rt: HostRuntime) -> Result<(), Fail> {
    let request = fetch(rt.alloc(), 20)?;
    let mut last = None;
    let mut refused: u32 = 0;
    for size in (32..8192).step_by(8) {
        let (given, ended) = converse_with(&rt, &request, size)?;
        match ended {
            Some(Outcome::Refused(fault)) => {
                let line = format!(in rt.alloc(); "ERR OutOfMemory at {}\n", fault.offset)?;
                let announced = format!(in rt.alloc(); "{:04x}{line}", line.len() + 4)?;
                expect_bytes(&rt, &given, announced.as_bytes());
                expect(&rt, &fault.kind, &Kind::OutOfMemory);
            }
            _ => {
                expect_bytes(&rt, &given, b"000dpackfile\n000a\x01PACK!0000");
                expect(&rt, &ended, &Some(Outcome::Closed));
            }
        }
        if last != Some(ended) {
            last = Some(ended);
            refused = refused.saturating_add(1);
        }
    }
    // Refused at the first want, later on, and not at all.
    assert!(rt; 3 <= refused && refused <= 20);
    expect(&rt, &last, &Some(Some(Outcome::Closed)));
    Ok(())
}

/// A request that keeps a text after two flags.
const LATE_TEXT: &[u8] = b"0014command=ls-refs\n0016object-format=sha10001\
    0009peel\n000csymrefs\n001bref-prefix refs/heads/\n0000";

/// The error packet for it without memory.
const LATE_TEXT_REFUSED: &[u8] = b"001aERR OutOfMemory at 67\n";

/// Less than a text takes: the ends of four texts fit, and their bytes do not.
const NO_SPACE: usize = 16;

#[test]
fn without_memory_the_first_text_is_refused(rt: HostRuntime) -> Result<(), Fail> {
    let (given, ended) = converse_with(&rt, LATE_TEXT, NO_SPACE)?;
    expect_bytes(&rt, &given, LATE_TEXT_REFUSED);
    expect(&rt, &ended, &Some(refusal(Kind::OutOfMemory, 67)));
    Ok(())
}

#[test]
fn without_memory_a_run_ends_at_the_first_text(rt: HostRuntime) -> Result<(), Fail> {
    let (written, run) = serve_with(&rt, LATE_TEXT, NO_SPACE)?;
    expect_bytes(&rt, &written, LATE_TEXT_REFUSED);
    expect(&rt, &run, &Ok(refusal(Kind::OutOfMemory, 67)));
    Ok(())
}

#[test]
fn a_session_of_flags_takes_no_memory(rt: HostRuntime) -> Result<(), Fail> {
    let input = b"0014command=ls-refs\n00010009peel\n000csymrefs\n0000";
    let (given, ended) = converse_with(&rt, input, 0)?;
    let mut other = new_server(&rt, rt.alloc(), default_setup())?;
    let (expected, _) = converse(&mut other, rt.alloc(), &[input])?;
    expect(&rt, &ended, &Some(Outcome::Closed));
    expect_bytes(&rt, &given, &expected);
    Ok(())
}
