//! Memory that runs out while a script is read, at each allocation in turn.
use crate::expecting::expect;
use git_msg::{Agent, Caps, Limits, Request, RequestWriter};
use git_names::Format;
use git_pkt::Hold;
use git_repository::TextFault;
use git2show_lib::read_script;
use linked_list_allocator::LocalHeap;
use std::alloc::{AllocError, Allocator, Global};
use std::process::Abort;

/// A heap has blocks of this many bytes, and multiples of them.
const BLOCK: usize = 16;

/// More memory than the script takes.
const ENOUGH: usize = 16_384;

/// The lines of a script, and whether a line takes more memory than those before it. The first request takes space for four, and the fifth
/// takes space for eight; an object name or a text takes some if it is the first of its kind in its request.
const LINES: [(&[u8], bool); 22] = [
    (b"\n", false),
    (b"ls-refs\n", true),
    (b"symrefs\n", false),
    (b"peel\n", false),
    (b"ref-prefix refs/heads/\n", true),
    (b"\n", false),
    (b"fetch\n", false),
    (b"want aaaaaaaaaaaaaaaaaaaaaaaaaaaaaaaaaaaaaaaa\n", true),
    (b"have bbbbbbbbbbbbbbbbbbbbbbbbbbbbbbbbbbbbbbbb\n", true),
    (b"shallow cccccccccccccccccccccccccccccccccccccccc\n", true),
    (b"deepen-since 0\n", false),
    (b"deepen-not v1\n", true),
    (b"want-ref HEAD\n", true),
    (b"want dddddddddddddddddddddddddddddddddddddddd\n", false),
    (b"\n", false),
    (b"object-info\n", false),
    (b"size\n", false),
    (b"oid aaaaaaaaaaaaaaaaaaaaaaaaaaaaaaaaaaaaaaaa\n", true),
    (b"\n", false),
    (b"ls-refs\n", false),
    (b"\n", false),
    (b"ls-refs\n", true),
];

/// The packets of its requests, to a server that advertised nothing.
const WRITTEN: &[u8] =
    b"0014command=ls-refs\n00010009peel\n000csymrefs\n001bref-prefix refs/heads/\n0000\
0012command=fetch\n00010035shallow cccccccccccccccccccccccccccccccccccccccc\n0013deepen-since 0\n0012deepen-not v1\n\
0032want aaaaaaaaaaaaaaaaaaaaaaaaaaaaaaaaaaaaaaaa\n0032want dddddddddddddddddddddddddddddddddddddddd\n0012want-ref HEAD\n\
0032have bbbbbbbbbbbbbbbbbbbbbbbbbbbbbbbbbbbbbbbb\n0000\
0018command=object-info\n00010009size\n0031oid aaaaaaaaaaaaaaaaaaaaaaaaaaaaaaaaaaaaaaaa\n0000\
0014command=ls-refs\n000100000014command=ls-refs\n00010000";

/// More packets than a request has.
const PACKETS: usize = 100;

/// The packets of a request.
fn append_written<A: Allocator + Copy>(
    written: &mut Vec<u8>,
    request: &Request<A>,
) -> Result<(), AllocError> {
    let mut writer = RequestWriter::new(request, &Caps::new(), Agent::own());
    let mut hold = Hold::new();
    for _ in 0..PACKETS {
        if !writer.pull(request, &mut hold) {
            return Ok(());
        }
        written.extend_from_slice(hold.as_slice())?;
    }
    Ok(())
}

/// The minimum of memory with which the script is read. With less it is refused for lack of memory. All of it is given back in either case.
fn least_memory(rt: &impl Abort, alloc: Global, script: &[u8]) -> Result<usize, AllocError> {
    for size in (0..ENOUGH).step_by(BLOCK) {
        let heap = LocalHeap::new(alloc, size)?;
        let fault = read_script(&heap, script, Format::Sha1, Limits::DEFAULT).err();
        assert_eq!(rt; heap.used(), 0, "of {size} bytes");
        match fault {
            Some(fault) => expect(rt, &fault, &TextFault::OutOfMemory),
            None => return Ok(size),
        }
    }
    Ok(ENOUGH)
}

#[test]
fn each_growth_of_a_script_is_refused_in_turn(rt: HostRuntime) -> Result<(), AllocError> {
    let mut script = Vec::new(rt.alloc());
    let mut before = 0;
    for (line, takes_memory) in LINES {
        script.extend_from_slice(line)?;
        let least = least_memory(&rt, rt.alloc(), script.as_slice())?;
        assert!(&rt; before <= least && least < ENOUGH);
        assert_eq!(&rt;
            before < least,
            takes_memory,
            "up to {} bytes",
            script.len()
        );
        before = least;
    }
    Ok(())
}

#[test]
fn with_space_enough_a_script_gives_its_requests(rt: HostRuntime) -> Result<(), AllocError> {
    let mut script = Vec::new(rt.alloc());
    for (line, _) in LINES {
        script.extend_from_slice(line)?;
    }
    let least = least_memory(&rt, rt.alloc(), script.as_slice())?;
    for size in (least..ENOUGH).step_by(1_024) {
        let heap = LocalHeap::new(rt.alloc(), size)?;
        let requests = read_script(&heap, script.as_slice(), Format::Sha1, Limits::DEFAULT);
        let requests = requests.expect(&rt, "a script");
        let mut written = Vec::new(rt.alloc());
        for request in &requests {
            append_written(&mut written, request)?;
        }
        assert_eq!(&rt; written.as_slice(), WRITTEN, "with {size} bytes");
    }
    Ok(())
}

#[test]
fn a_script_of_empty_lines_takes_no_memory(rt: HostRuntime) -> Result<(), AllocError> {
    expect(&rt, &least_memory(&rt, rt.alloc(), b"")?, &0);
    expect(&rt, &least_memory(&rt, rt.alloc(), b"\n\n\n")?, &0);
    Ok(())
}
