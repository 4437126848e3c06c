//! Both sides in one memory. The client's request fits into it, and what the server keeps of it does not.
use crate::expecting::{expect, expect_bytes};
use crate::servers::repository;
use git_client::Ending;
use git_msg::{Limits, Request};
use git_names::Format;
use git_pkt::{Fault, Kind, Recorded, RunFault};
use git2show_lib::{play, read_script};
use linked_list_allocator::LocalHeap;
use std::process::Abort;
use std::test::Fail;

/// The client's request: a pack, with an object name and two texts, which both sides keep.
const SCRIPT: &[u8] =
    b"fetch\nfilter blob:none\nwant aaaaaaaaaaaaaaaaaaaaaaaaaaaaaaaaaaaaaaaa\ndeepen-not v1\ndone\n";

/// The transcript of the server's advertisement, and of the request.
const ASKED: &[u8] =
    b"capability agent=git2/1\ncapability ls-refs=unborn\ncapability fetch=shallow ref-in-want wait-for-done filter\n\
capability server-option\ncapability object-format=sha1\ncapability object-info\noffered\nrequest fetch\n";

/// And that of the response.
const ANSWERED: &[u8] = b"end 4 0\n";

/// Where the first response begins.
const OFFERED: u64 = 162;

/// More memory than both sides take.
const ENOUGH: usize = 8_192;

/// How a play ended, and what its two writers received.
#[derive(Drop)]
struct Played {
    ended: Result<(), RunFault>,
    out: Vec<u8>,
    pack: Vec<u8>,
}

/// The requests of the script, if they fit into the heap.
fn requests<'h>(heap: &'h LocalHeap) -> Option<Vec<Request<&'h LocalHeap>, &'h LocalHeap>> {
    read_script(heap, SCRIPT, Format::Sha1, Limits::DEFAULT).ok()
}

/// Plays the requests, in small chunks.
fn play_within<'h>(
    rt: &(impl Abort + AllocGlobal),
    heap: &'h LocalHeap,
    requests: Vec<Request<&'h LocalHeap>, &'h LocalHeap>,
    ending: Ending,
) -> Result<Played, Fail> {
    let repo = repository(rt, Format::Sha1)?;
    let mut out = Vec::new(rt.alloc());
    let mut pack = Vec::new(rt.alloc());
    let (_, ended) = play(
        heap,
        repo,
        requests,
        7,
        ending,
        &mut Recorded::new(&mut out),
        &mut Recorded::new(&mut pack),
    );
    Ok(Played { ended, out, pack })
}

/// Expects that the client received an error of the server, or the filtered pack. Returns whether it was an error.
fn is_refused(rt: &impl Abort, played: &Played) -> bool {
    assert!(rt; played.out.as_slice().starts_with(ASKED));
    let rest = &played.out.as_slice()[ASKED.len().min(played.out.len())..];
    match played.ended {
        Ok(()) => {
            expect(rt, &rest, &ANSWERED);
            expect_bytes(rt, &played.pack, b"TINY");
            false
        }
        Err(fault) => {
            let announced = RunFault::Refused(Fault {
                kind: Kind::RemoteError,
                offset: OFFERED,
            });
            expect(rt, &fault, &announced);
            expect(rt, &rest.len(), &0);
            expect(rt, &played.pack.len(), &0);
            true
        }
    }
}

#[test]
fn a_play_whose_server_has_no_memory_reports_its_error(rt: HostRuntime) -> Result<(), Fail> {
    for ending in [Ending::FlushOnly, Ending::ResponseEnd] {
        let mut refused = 0u32;
        let mut is_whole = false;
        for size in (0..ENOUGH).step_by(16) {
            let heap = LocalHeap::new(rt.alloc(), size)?;
            if let Some(requests) = requests(&heap) {
                let played = play_within(&rt, &heap, requests, ending)?;
                let came = is_refused(&rt, &played);
                assert!(rt; !(is_whole && came), "with {size} bytes");
                is_whole = !came;
                refused = refused.saturating_add(u32::from(came));
            }
            assert_eq!(rt; heap.used(), 0, "of {size} bytes");
        }
        assert!(rt; 0 < refused && is_whole);
    }
    Ok(())
}
