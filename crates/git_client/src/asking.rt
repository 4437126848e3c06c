//! The packets that a client sends: those of the requests that it asks, and the flush when it leaves.

ghost use Rattle.std.specs.Prelude.{◌≡◌, ◌≤◌, length, true, MatchResult};
ghost use Rattle.std.specs.Borrow.{sem};
ghost use Rattle.std.specs.Io.BufRead.{Rests};
ghost use Rattle.git_pkt.specs.Machine.PacketReader.{held_of};
ghost use Rattle.git_msg.specs.Checks.{Passes, Refuses};
ghost use Rattle.git_msg.specs.Machine.HeldRequest.{asked_of};
ghost use Rattle.git_client.specs.Machine.Turns.{first_expected, is_asking};

use crate::client::Client;
use crate::events::Sent;
use crate::phase::{Expected, Phase};
use crate::sections::Allowed;
use git_msg::{Request, RequestWriter};
use git_pkt::{Fault, Kind, Packet, put};
use std::alloc::Allocator;

impl<A: Allocator + Copy> Client<A> {
    ghost use Rattle.git_client.specs.Machine.Client.{Asks, RefusesToAsk, Leaves, Pulls, Puts, given_by, ask_checks, can_ask, caps_of};
    ghost use Rattle.git_client.specs.Machine.Client.{format_of, phase_of, reader_of};
    ghost use Rattle.git_client.specs.contracts.client.Client.{the_row};

    /// Starts a request: from now on its packets have to be pulled, and then its response is expected. The errors, checked in this order, are
    /// `WrongFormat` for a request with another object format, `NotAdvertised` for a command or an argument that was not advertised, and
    /// those of [`Request::check_end`](git_msg::Request::check_end). An error has the client's position as its offset; it returns the request,
    /// and the client stays unchanged.
    pub fn ask(&mut self, request: Request<A>) -> Result<(), (Request<A>, Fault)>
        requires { can_ask self.old ≡ true }
        ensures asked { MatchResult result (λ _. Asks self.old request self.new) (λ refusal. RefusesToAsk self.old request refusal.0 refusal.1 self.new) }
    {
        match self.check(&request) {
            Ok(()) => {
                let _ = request.kept();
                self.phase = Phase::Asking(RequestWriter::new(&request, &self.caps, self.agent));
                self.request = Some(request);
                Ok(())
            }
            Err(kind) => {
                let offset = self.position();
                Err((request, Fault { kind, offset }))
            }
        }
    }

    /// Leaves: the flush that ends the conversation has to be pulled, and no further request can be sent.
    pub fn leave(&mut self)
        requires { can_ask self.old ≡ true }
        ensures { Leaves self.old self.new }
    {
        self.phase = Phase::Leaving;
    }

    /// The next action: to send a packet, to read bytes of the server, to ask a request if the program has one, or to stop because nothing is
    /// left to do. Each packet is returned once.
    pub fn pull(&mut self) -> Sent<'_>
        ensures* after { sem 𝓛 (Rests (the_row A.row A.Allocator) self.entry (λ new. Pulls self.old result new)) }
        ensures fits { length (given_by result) ≤ 65520 }
    {
        match self.phase {
            Phase::Receiving(_) => Sent::NeedInput,
            Phase::Ready => Sent::CanAsk,
            Phase::Left => Sent::Finished,
            Phase::Failed(fault) => Sent::Failed(fault),
            Phase::Asking(_) => {
                self.put_question();
                Sent::Packet(self.held())
            }
            Phase::Leaving => {
                self.put_farewell();
                Sent::Packet(self.held())
            }
        }
    }

    /// Why the request is refused, if it is.
    fn check(&self, request: &Request<A>) -> Result<(), Kind>
        ensures { MatchResult result (λ _. Passes (ask_checks (format_of self.now) (caps_of self.now) request.now))
            (Refuses (ask_checks (format_of self.now) (caps_of self.now) request.now)) }
    {
        if request.format() != self.format {
            return Err(Kind::WrongFormat);
        }
        if !self.caps.offers(request.command()) {
            return Err(Kind::NotAdvertised);
        }
        request.check_features(&self.caps.offer(self.format))?;
        request.check_end()
    }

    /// Puts the next packet of the request into the buffer. After the last one the response is expected.
    fn put_question(&mut self)
        requires { is_asking (phase_of self.old) ≡ true }
        ensures { Puts self.old self.new }
    {
        let Phase::Asking(mut writer) = self.phase else {
            unreachable!()
        };
        let Some(request) = &self.request else {
            unreachable!()
        };
        writer.pull(request, self.reader.lend());
        let _ = self.reader.hold();
        if !writer.is_done() {
            self.phase = Phase::Asking(writer);
            return;
        }
        self.phase = Phase::Receiving(response_expected(request));
        self.request = None;
    }

    /// Puts the flush that ends the conversation into the buffer.
    fn put_farewell(&mut self)
        requires { phase_of self.old ≡ Phase.Leaving }
        ensures { Puts self.old self.new }
    {
        put(self.reader.lend(), Packet::Flush);
        let _ = self.reader.hold();
        self.phase = Phase::Left;
    }

    /// The bytes in the buffer.
    fn held(&self) -> &[u8]
        ensures value { result.now ≡ held_of (reader_of self.now) }
        ensures fits { length result.now ≤ 65520 }
    {
        self.reader.hold().as_slice()
    }
}

/// The first packet that is expected of the response to the request.
fn response_expected<A: Allocator + Copy>(request: &Request<A>) -> Expected
    ensures { result ≡ first_expected (asked_of request.now) }
{
    match request {
        Request::LsRefs(_) => Expected::References,
        Request::Fetch(fetch) => Expected::Header(Allowed::at_head(fetch.done())),
        Request::ObjectInfo(_) => Expected::SizeLine,
    }
}
