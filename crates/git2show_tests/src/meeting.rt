//! A server and a client that meet in a loop of the test: what the client receives if the server refuses.
use crate::clients::{ask_all, new_client};
use crate::expecting::{expect, expect_bytes};
use crate::servers::{advertising, new_server, repository, server_of};
use git_client::{Client, ReceivedGot, Sent};
use git_names::{Format, Steps};
use git_pkt::{Fault, Kind};
use git_server::{ListRepo, Pulled, Server};
use linked_list_allocator::LocalHeap;
use std::alloc::{Allocator, Global};
use std::process::Abort;
use std::test::Fail;

/// More packets than either side sends here.
const PACKETS: usize = 100;

/// Gives the client everything that the server has to send. Returns the error that ends the conversation, if one does.
fn receive_response<A: Allocator + Copy>(
    server: &mut Server<ListRepo, A>,
    client: &mut Client<Global>,
) -> Option<Fault> {
    for _ in 0..PACKETS {
        let Pulled::Packet(bytes) = server.pull() else {
            return None;
        };
        if let ReceivedGot::Failed(fault) = client.feed(bytes, &mut Steps::new()).got {
            return Some(fault);
        }
    }
    None
}

/// Gives the server all that the client has to send.
fn send_all<A: Allocator + Copy>(client: &mut Client<Global>, server: &mut Server<ListRepo, A>) {
    for _ in 0..PACKETS {
        let Sent::Packet(bytes) = client.pull() else {
            return;
        };
        server.feed(bytes, &mut Steps::new());
    }
}

/// The result of a meeting.
#[derive(Drop)]
struct Met {
    /// Why the server refused the request, if it did.
    refused: Option<Fault>,
    /// The error that the client received, if any.
    arrived: Option<Fault>,
    /// The client's message of that error, or nothing.
    message: Vec<u8>,
    /// Whether the client can ask again.
    can_ask: bool,
}

/// The client's message of its error, or nothing.
fn message_of(alloc: Global, client: &Client<Global>) -> Result<Vec<u8>, Fail> {
    let mut message = Vec::new(alloc);
    message.extend_from_slice(client.message().unwrap_or(b""))?;
    Ok(message)
}

/// Whether the client can ask.
fn is_ready(client: &Client<Global>) -> bool {
    client.can_ask()
}

/// The client receives the advertisement, sends all of a script to the server, and receives the answer.
fn meet<A: Allocator + Copy>(
    rt: &(impl Abort + AllocGlobal),
    server: &mut Server<ListRepo, A>,
    client: &mut Client<Global>,
    script: &[u8],
) -> Result<Met, Fail> {
    expect(rt, &receive_response(server, client), &None);
    ask_all(rt, client, script)?;
    send_all(client, server);
    let arrived = receive_response(server, client);
    Ok(Met {
        refused: server.fault(),
        arrived,
        message: message_of(rt.alloc(), client)?,
        can_ask: is_ready(client),
    })
}

/// The server refuses the third packet of a request, and the client receives its name and offset.
#[test]
fn a_client_reads_why_a_server_refuses(rt: HostRuntime) -> Result<(), Fail> {
    let script = b"fetch\nwant dddddddddddddddddddddddddddddddddddddddd\ndone\n";
    let mut server = new_server(&rt, rt.alloc(), advertising(Format::Sha1))?;
    let met = meet(&rt, &mut server, &mut new_client(), script)?;
    let refused = Fault {
        kind: Kind::NotOurs,
        offset: 62,
    };
    expect(&rt, &met.refused, &Some(refused));
    let announced = Fault {
        kind: Kind::RemoteError,
        offset: 146,
    };
    expect(&rt, &met.arrived, &Some(announced));
    expect_bytes(&rt, &met.message, b"NotOurs at 62");
    Ok(())
}

/// Asks a server with this much memory for a pack, with a revision and an object name.
fn meet_within(rt: &(impl Abort + AllocGlobal), size: usize) -> Result<Met, Fail> {
    let script = b"fetch\nwant aaaaaaaaaaaaaaaaaaaaaaaaaaaaaaaaaaaaaaaa\ndeepen-not v1\ndone\n";
    let repo = repository(rt, Format::Sha1)?;
    let heap = LocalHeap::new(rt.alloc(), size)?;
    let mut server = server_of(repo, &heap, advertising(Format::Sha1));
    meet(rt, &mut server, &mut new_client(), script)
}

/// The offset at which a server with this much memory refuses the request with OutOfMemory, as the client receives it; none if it answers.
fn refused_within(rt: &(impl Abort + AllocGlobal), size: usize) -> Result<Option<u64>, Fail> {
    let met = meet_within(rt, size)?;
    let Some(refused) = met.refused else {
        expect(rt, &met.arrived, &None);
        assert!(rt; met.can_ask);
        return Ok(None);
    };
    expect(rt, &refused.kind, &Kind::OutOfMemory);
    let announced = Fault {
        kind: Kind::RemoteError,
        offset: 146,
    };
    expect(rt, &met.arrived, &Some(announced));
    let message = format!(in rt.alloc(); "OutOfMemory at {}", refused.offset)?;
    expect_bytes(rt, &met.message, message.as_bytes());
    Ok(Some(refused.offset))
}

/// The revision comes before the object name. It takes two blocks of 16 bytes, and the space for four object names takes nine.
#[test]
fn a_client_reads_that_a_server_has_no_memory(rt: HostRuntime) -> Result<(), Fail> {
    for (size, refused) in [
        (0, Some(62)),
        (16, Some(62)),
        (32, Some(80)),
        (160, Some(80)),
        (176, None),
        (1_024, None),
    ] {
        assert_eq!(rt; refused_within(&rt, size)?, refused, "with {size} bytes");
    }
    Ok(())
}
