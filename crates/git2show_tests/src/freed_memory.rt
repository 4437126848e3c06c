//! Memory is given back: everything that a side or a reader took, wherever its input ends and whichever allocation fails.
use crate::adding::{add_filter, add_have, add_revision, add_want, new_request};
use crate::clients::{new_client, send_all};
use crate::expecting::expect;
use crate::servers::{default_setup, new_server, object};
use git_client::{Client, ReceivedGot};
use git_msg::{
    Agent, Caps, Command, Limits, Offer, ReadGot, Request, RequestStream, RequestWriter,
};
use git_names::{Format, Steps};
use git_pkt::{Hold, Kind};
use git_server::{ListRepo, Pulled, Server};
use linked_list_allocator::LocalHeap;
use std::process::Abort;
use std::test::Fail;

/// Two requests, and one that is refused once it has kept arguments of several kinds.
const REFUSED: &[u8] =
    b"0014command=ls-refs\n00010009peel\n001bref-prefix refs/heads/\n001aref-prefix refs/tags/\n0000\
0012command=fetch\n00010032want aaaaaaaaaaaaaaaaaaaaaaaaaaaaaaaaaaaaaaaa\n0032have bbbbbbbbbbbbbbbbbbbbbbbbbbbbbbbbbbbbbbbb\n0000\
0012command=fetch\n00010032want aaaaaaaaaaaaaaaaaaaaaaaaaaaaaaaaaaaaaaaa\n0012deepen-not v1\n0015filter blob:none\n0012want-ref HEAD\n000csymrefs\n0000";

/// A request for an object that the server does not have, after others.
const NOT_OURS: &[u8] =
    b"0012command=fetch\n00010032want aaaaaaaaaaaaaaaaaaaaaaaaaaaaaaaaaaaaaaaa\n\
0035shallow cccccccccccccccccccccccccccccccccccccccc\n0032want dddddddddddddddddddddddddddddddddddddddd\n0000";

/// What a server sends to a client: its advertisement, and the beginning of a pack.
const BROKEN_OFF: &[u8] =
    b"000eversion 2\n000cls-refs\n0019fetch=shallow filter\n0017object-format=sha1\n0000\
0014acknowledgments\n0031ACK bbbbbbbbbbbbbbbbbbbbbbbbbbbbbbbbbbbbbbbb\n000aready\n0001000dpackfile\n0007\x01AB0008\x02hi\n0008\x03no\n";

/// Whose memory it is.
#[derive(Clone, Copy, Debug)]
enum Of {
    Server,
    Client,
    Reader,
}

/// Who receives which bytes.
const GIVEN: [(Of, &[u8]); 5] = [
    (Of::Server, REFUSED),
    (Of::Server, NOT_OURS),
    (Of::Client, BROKEN_OFF),
    (Of::Reader, REFUSED),
    (Of::Reader, NOT_OURS),
];

/// More memory than any of them takes.
const ENOUGH: usize = 4_096;

/// More packets than any of them sends.
const PACKETS: usize = 100;

/// Takes all packets that the server has to send.
fn drain(server: &mut Server<ListRepo, &LocalHeap>) {
    for _ in 0..PACKETS {
        if !matches!(server.pull(), Pulled::Packet(_)) {
            return;
        }
    }
}

/// Feeds a server. Returns the bytes that it did not use.
fn feed<'a>(server: &mut Server<ListRepo, &LocalHeap>, chunk: &'a [u8]) -> &'a [u8] {
    let used = server.feed(chunk, &mut Steps::new());
    &chunk[used..]
}

/// Feeds a server, and drops it. Returns the maximum of the memory that it had.
fn serve(rt: &(impl Abort + AllocGlobal), heap: &LocalHeap, input: &[u8]) -> Result<usize, Fail> {
    let mut server = new_server(rt, heap, default_setup())?;
    let mut rest = input;
    let mut most = 0;
    for _ in 0..PACKETS {
        rest = feed(&mut server, rest);
        most = most.max(heap.used());
        drain(&mut server);
    }
    Ok(most)
}

/// Adds the arguments for a pack, if there is memory for them.
fn add_all(rt: &impl Abort, request: &mut Request<&LocalHeap>) -> Result<(), Kind> {
    let id = object(rt, Format::Sha1, b'a');
    add_want(request, id)?;
    add_have(request, id)?;
    add_revision(request, b"v1")?;
    add_filter(request, b"blob:none")
}

/// A request for a pack, if there is memory for it.
fn request<'h>(rt: &impl Abort, heap: &'h LocalHeap) -> Option<Request<&'h LocalHeap>> {
    let mut request = new_request(heap, Command::Fetch, Limits::DEFAULT);
    match add_all(rt, &mut request) {
        Ok(()) => Some(request),
        Err(_) => None,
    }
}

/// Feeds a client. Returns the bytes that it did not use, unless it fails.
fn feed_client<'a>(client: &mut Client<&LocalHeap>, chunk: &'a [u8]) -> Option<&'a [u8]> {
    let arrived = client.feed(chunk, &mut Steps::new());
    match arrived.got {
        ReceivedGot::Failed(_) => None,
        _ => chunk.get(arrived.used..),
    }
}

/// Asks for a pack if the client can ask, and sends this many packets of the request. Returns how much memory the request took, if there
/// was memory for it.
fn ask_where_expected<'h>(
    rt: &impl Abort,
    heap: &'h LocalHeap,
    client: &mut Client<&'h LocalHeap>,
    packets: usize,
) -> Option<usize> {
    if !client.can_ask() {
        return Some(0);
    }
    let request = request(rt, heap)?;
    assert!(rt; client.ask(request).is_ok());
    let taken = heap.used();
    send_all(client, packets);
    Some(taken)
}

/// Feeds a client that asks as soon as it can, sends this many packets of the request, and drops the client. Returns how much memory the request took.
fn ask(rt: &impl Abort, heap: &LocalHeap, input: &[u8], packets: usize) -> usize {
    let mut client = new_client();
    let mut rest = input;
    let mut most = 0;
    for _ in 0..PACKETS {
        let Some(unused) = feed_client(&mut client, rest) else {
            break;
        };
        rest = unused;
        let Some(taken) = ask_where_expected(rt, heap, &mut client, packets) else {
            break;
        };
        most = most.max(taken);
    }
    most
}

/// Feeds a reader of requests, drops each request, and then the reader. Returns the maximum of the memory taken.
fn read(heap: &LocalHeap, input: &[u8]) -> usize {
    let offer = Offer::everything(Format::Sha1);
    let mut reader = RequestStream::new(heap, offer, Limits::DEFAULT);
    let mut rest = input;
    let mut most = 0;
    for _ in 0..PACKETS {
        let arrived = reader.feed(rest, &mut Steps::new());
        rest = &rest[arrived.used.min(rest.len())..];
        most = most.max(heap.used());
        if matches!(arrived.got, ReadGot::Failed(_)) {
            break;
        }
    }
    most
}

/// How much memory a side or a reader took that received the bytes and was dropped.
fn taken(
    rt: &(impl Abort + AllocGlobal),
    of: Of,
    heap: &LocalHeap,
    input: &[u8],
) -> Result<usize, Fail> {
    match of {
        Of::Server => serve(rt, heap, input),
        Of::Client => Ok(ask(rt, heap, input, PACKETS)),
        Of::Reader => Ok(read(heap, input)),
    }
}

#[test]
fn all_is_given_back_wherever_the_input_ends(rt: HostRuntime) -> Result<(), Fail> {
    for (of, input) in GIVEN {
        let mut most = 0;
        for end in 0..=input.len() {
            let heap = LocalHeap::new(rt.alloc(), ENOUGH)?;
            most = most.max(taken(&rt, of, &heap, &input[..end])?);
            assert_eq!(rt; heap.used(), 0, "{of:?} after {end} bytes");
        }
        assert!(rt; 0 < most, "{of:?} took nothing");
    }
    Ok(())
}

#[test]
fn all_is_given_back_where_a_growth_is_refused(rt: HostRuntime) -> Result<(), Fail> {
    for (of, input) in GIVEN {
        for size in (0..ENOUGH).step_by(16) {
            let heap = LocalHeap::new(rt.alloc(), size)?;
            taken(&rt, of, &heap, input)?;
            assert_eq!(rt; heap.used(), 0, "{of:?} of {size} bytes");
        }
    }
    Ok(())
}

#[test]
fn a_request_is_given_back_wherever_it_breaks_off(rt: HostRuntime) -> Result<(), Fail> {
    for packets in 0..9 {
        let heap = LocalHeap::new(rt.alloc(), ENOUGH)?;
        let most = ask(&rt, &heap, BROKEN_OFF, packets);
        assert!(rt; 0 < most);
        assert_eq!(rt; heap.used(), 0, "after {packets} packets");
    }
    Ok(())
}

/// Writes a request, which takes no memory. Returns how many packets it has.
fn packets_of(rt: &impl Abort, heap: &LocalHeap, request: &Request<&LocalHeap>) -> u32 {
    let before = heap.used();
    let mut writer = RequestWriter::new(request, &Caps::new(), Agent::own());
    let mut hold = Hold::new();
    let mut packets = 0u32;
    for _ in 0..PACKETS {
        if !writer.pull(request, &mut hold) {
            break;
        }
        packets = packets.saturating_add(1);
        expect(rt, &heap.used(), &before);
    }
    packets
}

#[test]
fn a_request_is_written_without_memory(rt: HostRuntime) -> Result<(), Fail> {
    let heap = LocalHeap::new(rt.alloc(), ENOUGH)?;
    let request = request(&rt, &heap).expect(&rt, "a request");
    // The command, the delimiter, the filter, the revision, the wanted object, the client's object, and the flush.
    expect(&rt, &packets_of(&rt, &heap, &request), &7);
    Ok(())
}
