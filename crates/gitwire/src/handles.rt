//! What C holds: for each of the library's values a handle that has one, or none.

ghost use Rattle.std.specs.Prelude.{◌≡◌, Option, Some, None, MatchOption, true};
ghost use Rattle.gitwire.specs.Calls.{IsMade};
ghost use Rattle.gitwire.specs.Machines.{is_none_or, gatherer_of, request_reader_of, request_of, repository_of, server_of, client_of, buffer_of};
ghost use Rattle.gitwire.specs.Machines.{host_of, judge_of};

use crate::answer::What;
use crate::gatherer::Gatherer;
use crate::held::{Handle, Shell};
use crate::judge::Judge;
use crate::machine::{Machine, PacketBuffer};
use git_client::Client;
use git_host::HostServer;
use git_msg::{Request, RequestStream};
use git_server::{Server, SharedRepo};
use std::alloc::Global;
use std::mem::replace;

/// A handle, which has one value of its kind, or none.
pub(crate) trait Holds: Sized {
    type Inner: Drop;

    ghost has: { Self → Option Self.Inner };

    fn none(alloc: Global) -> Self
        ensures { has result ≡ None };

    /// Takes out what the handle has, to be put back before the call ends.
    fn take(&mut self, alloc: Global) -> Option<Taken<Self::Inner>>
        ensures taken { MatchOption result (has self.old ≡ None) (λ taken. has self.old ≡ Some taken.inner.value) }
        ensures empty { has self.new ≡ None };

    fn put(&mut self, taken: Taken<Self::Inner>)
        ensures { has self.new ≡ Some taken.inner.value };
}

/// What a call takes out of a handle, and the box in which it lay, so that putting it back needs no memory.
#[derive(Drop)]
pub(crate) struct Taken<T> {
    pub(crate) inner: Box<T, Global>,
    shell: Shell,
}

/// Gives the handle, which had none, what is in the box. `Done`; or `OutOfMemory`, and it has none.
pub(crate) fn fill<H: Holds>(handle: &mut H, alloc: Global, inner: Box<H::Inner, Global>) -> What
    requires { H.has handle.old ≡ None }
    ensures { IsMade result inner.value (H.has handle.new) }
{
    let Some(shell) = Shell::new(alloc) else {
        return What::OutOfMemory;
    };
    handle.put(Taken { inner, shell });
    What::Done
}

/// Does this with what the handle has, which is taken out before, goes by the handle's name meanwhile, and is put back after. If the handle has
/// nothing, the function in which this stands returns `$none`, or the answer `NoRequest`.
macro_rules! on {
    ($handle:ident, $alloc:ident; $does:expr) => {
        on!($handle, $alloc; $does, else GitwireAnswer::of(What::NoRequest))
    };
    ($handle:ident, $alloc:ident; $does:expr, else $none:expr) => {{
        let Some(mut taken) = $handle.take($alloc) else {
            return $none;
        };
        let answer = {
            let $handle = &mut *taken.inner;
            $does
        };
        $handle.put(taken);
        answer
    }};
}

pub(crate) use on;

// What is taken out of a handle that has a machine of this kind or none.
macro_rules! opened {
    ($kind:ident, $handle:expr) => {{
        let (machine, shell) = $handle.handle.open()?;
        match machine {
            Machine::$kind(inner) => Some(Taken { inner, shell }),
            _ => unreachable!(),
        }
    }};
}

/// A packet reader, or none.
#[repr(C)]
#[derive(Drop)]
pub struct GitwirePacketReader {
    handle: Handle,
    ghost kind: { is_none_or gatherer_of handle.held.machine ≡ true },
}

impl GitwirePacketReader {
    ghost use Rattle.gitwire.specs.Handles.{packet_reader_in};
    ghost use Rattle.gitwire.specs.PayloadsLent.{payload_lent};

    /// The payload of the packet that the reader gave last, where it is; no bytes if the handle has none.
    pub(crate) fn payload(&mut self) -> &[u8]
        ensures { result.now ≡ payload_lent (packet_reader_in self.old) }
    {
        self.handle.payload()
    }
}

impl Holds for GitwirePacketReader {
    ghost use Rattle.gitwire.specs.Handles.{gatherer_in};

    type Inner = Gatherer;

    ghost has = { gatherer_in };

    fn none(alloc: Global) -> Self {
        GitwirePacketReader {
            handle: Handle::none(alloc),
        }
    }

    fn take(&mut self, alloc: Global) -> Option<Taken<Self::Inner>> {
        opened!(PacketReader, replace(self, Self::none(alloc)))
    }

    fn put(&mut self, taken: Taken<Self::Inner>)
        ensures { gatherer_in self.new ≡ Some taken.inner.value }
    {
        self.handle = taken.shell.shut(Machine::PacketReader(taken.inner));
    }
}

/// A reader of requests, or none.
#[repr(C)]
#[derive(Drop)]
pub struct GitwireRequestReader {
    handle: Handle,
    ghost kind: { is_none_or request_reader_of handle.held.machine ≡ true },
}

impl Holds for GitwireRequestReader {
    ghost use Rattle.gitwire.specs.Handles.{request_reader_in};

    type Inner = RequestStream<Global>;

    ghost has = { request_reader_in };

    fn none(alloc: Global) -> Self {
        GitwireRequestReader {
            handle: Handle::none(alloc),
        }
    }

    fn take(&mut self, alloc: Global) -> Option<Taken<Self::Inner>> {
        opened!(RequestReader, replace(self, Self::none(alloc)))
    }

    fn put(&mut self, taken: Taken<Self::Inner>)
        ensures { request_reader_in self.new ≡ Some taken.inner.value }
    {
        self.handle = taken.shell.shut(Machine::RequestReader(taken.inner));
    }
}

/// A request, or none.
#[repr(C)]
#[derive(Drop)]
pub struct GitwireRequest {
    handle: Handle,
    ghost kind: { is_none_or request_of handle.held.machine ≡ true },
}

impl Holds for GitwireRequest {
    ghost use Rattle.gitwire.specs.Handles.{request_in};

    type Inner = Request<Global>;

    ghost has = { request_in };

    fn none(alloc: Global) -> Self {
        GitwireRequest {
            handle: Handle::none(alloc),
        }
    }

    fn take(&mut self, alloc: Global) -> Option<Taken<Self::Inner>> {
        opened!(Request, replace(self, Self::none(alloc)))
    }

    fn put(&mut self, taken: Taken<Self::Inner>)
        ensures { request_in self.new ≡ Some taken.inner.value }
    {
        self.handle = taken.shell.shut(Machine::Request(taken.inner));
    }
}

/// A repository that many servers may share, or none.
#[repr(C)]
#[derive(Drop)]
pub struct GitwireRepository {
    handle: Handle,
    ghost kind: { is_none_or repository_of handle.held.machine ≡ true },
}

impl Holds for GitwireRepository {
    ghost use Rattle.gitwire.specs.Handles.{repository_in};

    type Inner = SharedRepo;

    ghost has = { repository_in };

    fn none(alloc: Global) -> Self {
        GitwireRepository {
            handle: Handle::none(alloc),
        }
    }

    fn take(&mut self, alloc: Global) -> Option<Taken<Self::Inner>> {
        opened!(Repository, replace(self, Self::none(alloc)))
    }

    fn put(&mut self, taken: Taken<Self::Inner>)
        ensures { repository_in self.new ≡ Some taken.inner.value }
    {
        self.handle = taken.shell.shut(Machine::Repository(taken.inner));
    }
}

/// A server, or none.
#[repr(C)]
#[derive(Drop)]
pub struct GitwireServer {
    handle: Handle,
    ghost kind: { is_none_or server_of handle.held.machine ≡ true },
}

impl Holds for GitwireServer {
    ghost use Rattle.gitwire.specs.Handles.{server_in};

    type Inner = Server<SharedRepo, Global>;

    ghost has = { server_in };

    fn none(alloc: Global) -> Self {
        GitwireServer {
            handle: Handle::none(alloc),
        }
    }

    fn take(&mut self, alloc: Global) -> Option<Taken<Self::Inner>> {
        opened!(Server, replace(self, Self::none(alloc)))
    }

    fn put(&mut self, taken: Taken<Self::Inner>)
        ensures { server_in self.new ≡ Some taken.inner.value }
    {
        self.handle = taken.shell.shut(Machine::Server(taken.inner));
    }
}

/// A client, or none.
#[repr(C)]
#[derive(Drop)]
pub struct GitwireClient {
    handle: Handle,
    ghost kind: { is_none_or client_of handle.held.machine ≡ true },
}

impl Holds for GitwireClient {
    ghost use Rattle.gitwire.specs.Handles.{client_in};

    type Inner = Client<Global>;

    ghost has = { client_in };

    fn none(alloc: Global) -> Self {
        GitwireClient {
            handle: Handle::none(alloc),
        }
    }

    fn take(&mut self, alloc: Global) -> Option<Taken<Self::Inner>> {
        opened!(Client, replace(self, Self::none(alloc)))
    }

    fn put(&mut self, taken: Taken<Self::Inner>)
        ensures { client_in self.new ≡ Some taken.inner.value }
    {
        self.handle = taken.shell.shut(Machine::Client(taken.inner));
    }
}

/// A writer of packets, or none.
#[repr(C)]
#[derive(Drop)]
pub struct GitwireWriter {
    handle: Handle,
    ghost kind: { is_none_or buffer_of handle.held.machine ≡ true },
}

impl Holds for GitwireWriter {
    ghost use Rattle.gitwire.specs.Handles.{buffer_in};

    type Inner = PacketBuffer;

    ghost has = { buffer_in };

    fn none(alloc: Global) -> Self {
        GitwireWriter {
            handle: Handle::none(alloc),
        }
    }

    fn take(&mut self, alloc: Global) -> Option<Taken<Self::Inner>> {
        opened!(Writer, replace(self, Self::none(alloc)))
    }

    fn put(&mut self, taken: Taken<Self::Inner>)
        ensures { buffer_in self.new ≡ Some taken.inner.value }
    {
        self.handle = taken.shell.shut(Machine::Writer(taken.inner));
    }
}

/// A host's server, or none.
#[repr(C)]
#[derive(Drop)]
pub struct GitwireHost {
    handle: Handle,
    ghost kind: { is_none_or host_of handle.held.machine ≡ true },
}

impl Holds for GitwireHost {
    ghost use Rattle.gitwire.specs.Handles.{host_in};

    type Inner = HostServer<Global>;

    ghost has = { host_in };

    fn none(alloc: Global) -> Self {
        GitwireHost {
            handle: Handle::none(alloc),
        }
    }

    fn take(&mut self, alloc: Global) -> Option<Taken<Self::Inner>> {
        opened!(Host, replace(self, Self::none(alloc)))
    }

    fn put(&mut self, taken: Taken<Self::Inner>)
        ensures { host_in self.new ≡ Some taken.inner.value }
    {
        self.handle = taken.shell.shut(Machine::Host(taken.inner));
    }
}

/// A checker of a conversation, or none.
#[repr(C)]
#[derive(Drop)]
pub struct GitwireChecker {
    handle: Handle,
    ghost kind: { is_none_or judge_of handle.held.machine ≡ true },
}

impl Holds for GitwireChecker {
    ghost use Rattle.gitwire.specs.Handles.{judge_in};

    type Inner = Judge;

    ghost has = { judge_in };

    fn none(alloc: Global) -> Self {
        GitwireChecker {
            handle: Handle::none(alloc),
        }
    }

    fn take(&mut self, alloc: Global) -> Option<Taken<Self::Inner>> {
        opened!(Checker, replace(self, Self::none(alloc)))
    }

    fn put(&mut self, taken: Taken<Self::Inner>)
        ensures { judge_in self.new ≡ Some taken.inner.value }
    {
        self.handle = taken.shell.shut(Machine::Checker(taken.inner));
    }
}
