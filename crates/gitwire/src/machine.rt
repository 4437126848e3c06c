//! What a handle may have.

ghost use Rattle.std.specs.Prelude.{◌≡◌, Some};

use crate::gatherer::Gatherer;
use crate::judge::Judge;
use git_client::Client;
use git_host::HostServer;
use git_msg::{Request, RequestStream};
use git_pkt::Hold;
use git_server::{Server, SharedRepo};
use std::alloc::Global;

/// One of the library's values, in a box of its own, so that a call takes it out and puts it back by its pointer.
#[derive(Drop)]
pub(crate) enum Machine {
    PacketReader(Box<Gatherer, Global>),
    RequestReader(Box<RequestStream<Global>, Global>),
    Request(Box<Request<Global>, Global>),
    Repository(Box<SharedRepo, Global>),
    Server(Box<Server<SharedRepo, Global>, Global>),
    Client(Box<Client<Global>, Global>),
    Writer(Box<PacketBuffer, Global>),
    Host(Box<HostServer<Global>, Global>),
    Checker(Box<Judge, Global>),
    /// None of them, while a call has it.
    Empty,
}

impl Machine {
    ghost use Rattle.gitwire.specs.PayloadsLent.{payload_in};

    /// The payload of the packet that a packet reader gave last; no bytes for another machine.
    pub(crate) fn payload(&self) -> &[u8]
        ensures { result.now ≡ payload_in (Some self.now) }
    {
        match self {
            Machine::PacketReader(gatherer) => gatherer.payload(),
            _ => b"",
        }
    }
}

/// What a writer has: a buffer for one packet.
#[derive(Drop)]
pub(crate) struct PacketBuffer {
    pub(crate) hold: Hold,
}
