//! A host's server together with the store that it asks: a session that goes on by itself.

ghost use Rattle.git_host.specs.HostStates.{IsOfAHost};

use crate::asking::{answer_need, begin};
use crate::store::Store;
use git_host::{HostServer, HostStep, LONGEST_PART};
use git_msg::{Limits, Memory, Offer};
use git_names::Steps;
use git_server::Outcome;
use std::alloc::Allocator;

/// The server's end of a session over a host's own store. [`run`](git_loop::run) runs it, since it is a [`Machine`](git_loop::Machine).
///
/// It accepts each request. If the store fails, or replies what no sound repository does, the client receives the error packet, or
/// that of a pack that broke off, and the session ends as `PackSource`.
#[derive(Drop)]
pub struct Hosted<S, A: Allocator + Copy> {
    server: HostServer<A>,
    store: S,
    // How many more packets and replies there may be.
    left: u64,
    // Where the bytes of a reply lie.
    buffer: [u8; LONGEST_PART],
    ghost session: { ∥ IsOfAHost server ∥₁ },
}

/// What a server over its store does next.
#[derive(Clone, Copy, Debug)]
pub(crate) enum Turn {
    Packet,
    NeedInput,
    Finished,
}

impl<S: Store, A: Allocator + Copy> Hosted<S, A> {
    ghost use Rattle.std.specs.Prelude.{◌≡◌, ◌<◌, ◌≤◌, ◌⊎◌, [], true, false, IsSome};
    ghost use Rattle.git_host.specs.HostServer.{ClosesHost, Hosts, bytes_of, outcome_of, reads_on, setting_of};
    ghost use Rattle.git_host.specs.HostStates.{is_over};
    ghost use Rattle.git_store.specs.Hosted.{left_of, server_of, store_of};
    ghost use Rattle.git_store.specs.StoreMoves.{Reaches, StepsOver};

    /// A server at the beginning of a session over this store, as [`HostServer::new`] makes it. It gives at most 2^64 - 1 packets and takes
    /// as many replies at most.
    pub fn new(alloc: A, store: S, offer: Offer, limits: Limits, advertise: bool) -> Hosted<S, A>
        ensures hosts { Hosts (setting_of offer limits.args advertise) [] false [] [] (server_of result) }
        ensures store { store_of result ≡ store }
        ensures left { left_of result ≡ 18446744073709551615 }
    {
        Hosted {
            server: HostServer::new(alloc, offer, limits, advertise),
            store,
            left: u64::MAX,
            buffer: [0; LONGEST_PART],
        }
    }

    /// Its store.
    pub fn store(&self) -> &S
        ensures { result.now ≡ store_of self.now }
    {
        &self.store
    }

    /// Whether bytes of the client are wanted: all was sent that can be.
    pub fn wants_input(&self) -> bool
        ensures { result ≡ reads_on (server_of self.now) }
    {
        self.server.wants_input()
    }

    /// How the session ended, if it has, and all was sent.
    pub fn outcome(&self) -> Option<Outcome>
        ensures { result ≡ outcome_of (server_of self.now) }
    {
        self.server.outcome()
    }

    /// The bytes of the packet that was sent last.
    pub(crate) fn given(&self) -> &[u8]
        ensures { result.now ≡ bytes_of (server_of self.now) }
    {
        self.server.packet()
    }

    /// Goes on to the next packet, by as many questions as that takes.
    pub(crate) fn go_on(&mut self) -> Turn
        ensures packet { result ≡ Turn.Packet
            → Reaches S.begins S.replies [] (bytes_of (server_of self.new)) (server_of self.old) (store_of self.old) (server_of self.new) (store_of self.new) }
        ensures fewer { result ≡ Turn.Packet → left_of self.new < left_of self.old }
        ensures needs_input { result ≡ Turn.NeedInput → (reads_on (server_of self.new) ≡ true)
            × Reaches S.begins S.replies [] [] (server_of self.old) (store_of self.old) (server_of self.new) (store_of self.new) }
        ensures finished { result ≡ Turn.Finished → (IsSome (outcome_of (server_of self.new)) ⊎ (left_of self.new ≡ 0))
            × Reaches S.begins S.replies [] [] (server_of self.old) (store_of self.old) (server_of self.new) (store_of self.new) }
        ensures over { is_over (server_of self.old) ≡ true → is_over (server_of self.new) ≡ true }
    {
        'steps: while self.left > 0 {
            self.left -= 1;
            match self.step() {
                Some(next) => return next,
                None => {}
            }
        }
        Turn::Finished
    }

    // Takes one step of the server, and asks the store what that needs. None if nothing came of it yet.
    fn step(&mut self) -> Option<Turn>
        ensures left { left_of self.new ≡ left_of self.old }
        ensures steps { StepsOver S.begins S.replies result (server_of self.old) (store_of self.old) (server_of self.new) (store_of self.new) }
        ensures over { is_over (server_of self.old) ≡ true → is_over (server_of self.new) ≡ true }
    {
        match self.server.next() {
            HostStep::Packet => Some(Turn::Packet),
            HostStep::NeedInput => Some(Turn::NeedInput),
            HostStep::Ended(_) => Some(Turn::Finished),
            HostStep::Asked => {
                begin(&mut self.server, &mut self.store);
                None
            }
            HostStep::Need(need) => {
                if answer_need(&mut self.server, &mut self.store, &mut self.buffer, need) {
                    return Some(Turn::Packet);
                }
                None
            }
        }
    }

    /// The input ends here.
    pub(crate) fn end(&mut self)
        requires { reads_on (server_of self.old) ≡ true }
        ensures closes { ClosesHost (server_of self.old) true (server_of self.new) }
        ensures store { store_of self.new ≡ store_of self.old }
        ensures over { is_over (server_of self.new) ≡ true }
    {
        self.server.close();
    }
}

impl<S: Store, A: Memory + Copy> Hosted<S, A> {
    ghost use Rattle.std.specs.Prelude.{◌≡◌, ◌<◌, ◌≤◌, ◌⊎◌, [], true, length, take};
    ghost use Rattle.git_host.specs.HostServer.{reads_on};
    ghost use Rattle.git_host.specs.HostStates.{is_over};
    ghost use Rattle.git_store.specs.Hosted.{server_of, store_of};
    ghost use Rattle.git_store.specs.StoreMoves.{Reaches};

    /// Takes bytes of the input, and returns how many were used.
    pub(crate) fn take(&mut self, chunk: &[u8]) -> usize
        requires { reads_on (server_of self.old) ≡ true }
        ensures used { result ≤ length chunk.now }
        ensures some { 0 < length chunk.now → 0 < result ⊎ (is_over (server_of self.new) ≡ true) }
        ensures reaches { Reaches S.begins S.replies (take result chunk.now) [] (server_of self.old) (store_of self.old) (server_of self.new)
            (store_of self.new) }
    {
        self.server.feed(chunk, &mut Steps::new())
    }
}
