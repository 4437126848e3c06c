//! A host's server that C holds: a session over a store of the host's own.

ghost use Rattle.std.specs.Prelude.{◌≡◌, ◌≤◌, MatchOption, None, length};
ghost use Rattle.git_host.specs.HostLookups.{request_of};
ghost use Rattle.git_host.specs.HostServer.{bytes_of};
ghost use Rattle.gitwire.specs.Calls.{HasNone, On};
ghost use Rattle.gitwire.specs.Handles.{host_in};
ghost use Rattle.gitwire.specs.Answers.{answering, answering_packet, what_number};
ghost use Rattle.gitwire.specs.HostAnswers.{AcceptsAnswers, ClosesAnswers, FeedsAnswers, MakesHost, MeanHost, MeanNoHost, PullsInBuffer, RefusesInBuffer};
ghost use Rattle.gitwire.specs.HostAnswers.{asking, done_where, filled_at, needing, refused_as, stepping};
ghost use Rattle.gitwire.specs.Buffers.{put_before};

use crate::answer::{GitwireAnswer, What};
use crate::buffers::put_bytes;
use crate::handles::{GitwireHost, Holds, fill, on};
use crate::numbers::number_of_command;
use crate::offer::{agent_named, offer_numbered};
use crate::request::MOST_LIMIT;
use git_host::{HostServer, HostStep, LONGEST_REFUSAL, Need};
use git_msg::{Limits, Offer};
use git_names::Steps;
use git_pkt::{Fault, Kind, LONGEST_PACKET};
use std::alloc::Global;
use std::mem::replace;

/// Makes the handle's server a new one over a store that is asked. It advertises this format and the features of this sum, keeps at most
/// `limit` bytes of a request's arguments, and sends the advertisement first if `advertise` is set: by this agent, or by this library's own
/// if the name is empty. What the handle had before is freed. `Done`; `BadValue`, and the handle is unchanged, if the format's number means
/// none, a bit no feature, the limit is above 1,073,741,824, or the text is no agent's name; or `OutOfMemory`, and the handle has none.
#[unsafe(no_mangle)]
pub extern "C" fn gitwire_host_init(
    alloc: Global,
    host: &mut GitwireHost,
    format: u32,
    features: u32,
    limit: u32,
    advertise: bool,
    agent: &[u8],
) -> u32
    ensures { MakesHost format features limit advertise agent.now (host_in host.old) result (host_in host.new) }
{
    let Some(meant) = host_meant(alloc, format, features, limit, advertise, agent) else {
        return What::BadValue.number();
    };
    *host = GitwireHost::none(alloc);
    let Ok(made) = Box::new(alloc, meant) else {
        return What::OutOfMemory.number();
    };
    fill(host, alloc, made).number()
}

/// The server that these values mean; none if they mean no offer or the limit is above the maximum.
fn host_meant(
    alloc: Global,
    format: u32,
    features: u32,
    limit: u32,
    advertise: bool,
    agent: &[u8],
) -> Option<HostServer<Global>>
    ensures { MatchOption result (MeanNoHost format features limit agent.now) (MeanHost format features limit advertise agent.now) }
{
    let Some(offer) = offer_numbered(format, features) else {
        return None;
    };
    if limit > MOST_LIMIT {
        return None;
    }
    let Some(agent) = agent_named(agent) else {
        return None;
    };
    let named = Offer { agent, ..offer };
    Some(HostServer::new(alloc, named, Limits { args: limit }, advertise))
}

/// Takes bytes of the input: all of them, or those up to the end of a request, a flush instead of one, or an error. If the server expects
/// no bytes, none is used: `NotNow`. `More`, and how many were used; or `NoRequest`.
#[unsafe(no_mangle)]
pub extern "C" fn gitwire_host_feed(
    alloc: Global,
    host: &mut GitwireHost,
    chunk: &[u8],
) -> GitwireAnswer
    ensures { On (host_in host.old) (host_in host.new) (λ old new. FeedsAnswers old chunk.now result new) (result ≡ answering What.NoRequest) }
{
    on!(host, alloc; feed(host, chunk))
}

fn feed(server: &mut HostServer<Global>, chunk: &[u8]) -> GitwireAnswer
    ensures { FeedsAnswers server.old chunk.now result server.new }
{
    let expected = server.wants_input();
    let used = server.feed(chunk, &mut Steps::new());
    GitwireAnswer::of_used(used, What::more(expected))
}

/// The input ends here. `Done`; `NotNow` if the server expects no bytes, and nothing changed; or `NoRequest`.
#[unsafe(no_mangle)]
pub extern "C" fn gitwire_host_close(alloc: Global, host: &mut GitwireHost) -> u32
    ensures { On (host_in host.old) (host_in host.new) (λ old new. ClosesAnswers old result new) (result ≡ what_number What.NoRequest) }
{
    on!(host, alloc; close(host), else What::NoRequest.number())
}

fn close(server: &mut HostServer<Global>) -> u32
    ensures { ClosesAnswers server.old result server.new }
{
    done_where(server.close())
}

// What is reported for a call that does something or changes nothing.
fn done_where(done: bool) -> u32
    ensures { result ≡ done_where done }
{
    if done {
        return What::Done.number();
    }
    What::NotNow.number()
}

/// The next packet to be sent, copied to the front of the buffer, or what to do instead. `Packet`, `NeedInput`, `Asked`, `NeedWant` to
/// `NeedSize`, `EndedByFlush`, `EndedByClose` or `Failed`; `NoRequest`; and `BufferTooSmall` if the buffer has fewer than 65,520 bytes.
#[unsafe(no_mangle)]
pub extern "C" fn gitwire_host_pull(
    alloc: Global,
    host: &mut GitwireHost,
    buffer: &mut [u8],
) -> GitwireAnswer
    ensures { On (host_in host.old) (host_in host.new) (λ old new. PullsInBuffer old buffer.old result buffer.new new) (HasNone buffer.old result buffer.new) }
{
    on!(host, alloc; pull(host, buffer))
}

fn pull(server: &mut HostServer<Global>, buffer: &mut [u8]) -> GitwireAnswer
    ensures { PullsInBuffer server.old buffer.old result buffer.new server.new }
{
    if buffer.len() < LONGEST_PACKET {
        return GitwireAnswer::of(What::BufferTooSmall);
    }
    let step = server.next();
    show(server, step, buffer)
}

// Shows what to do next.
fn show(server: &HostServer<Global>, step: HostStep, buffer: &mut [u8]) -> GitwireAnswer
    requires { 65520 ≤ length buffer.old }
    ensures answer { result ≡ stepping step (request_of server.now) (bytes_of server.now) }
    ensures buffer { buffer.new ≡ filled_at step (bytes_of server.now) buffer.old }
{
    match step {
        HostStep::Packet => hand_out(server, 0, buffer),
        HostStep::NeedInput => GitwireAnswer::of(What::NeedInput),
        HostStep::Asked => show_asked(server),
        HostStep::Need(need) => show_need(need),
        HostStep::Ended(outcome) => GitwireAnswer::of_end(outcome),
    }
}

/// Copies the packet that was returned last to the front of the buffer.
pub(crate) fn hand_out(server: &HostServer<Global>, used: usize, buffer: &mut [u8]) -> GitwireAnswer
    requires { 65520 ≤ length buffer.old }
    ensures answer { result ≡ answering_packet used 0 (length (bytes_of server.now)) What.Packet }
    ensures buffer { buffer.new ≡ put_before (bytes_of server.now) buffer.old }
{
    let length = put_bytes(server.packet(), buffer);
    GitwireAnswer::of_packet(used, 0, length, What::Packet)
}

fn show_asked(server: &HostServer<Global>) -> GitwireAnswer
    ensures { result ≡ asking (request_of server.now) }
{
    match server.request() {
        Some(request) => {
            let command = u64::from(number_of_command(request.command()));
            GitwireAnswer::of_packet(0, command, 0, What::Asked)
        }
        None => GitwireAnswer::of(What::Asked),
    }
}

fn show_need(need: Need) -> GitwireAnswer
    ensures { result ≡ needing need }
{
    match need {
        Need::Want(at) => GitwireAnswer::of_packet(0, at as u64, 0, What::NeedWant),
        Need::WantRef(at) => GitwireAnswer::of_packet(0, at as u64, 0, What::NeedWantRef),
        Need::Have(at) => GitwireAnswer::of_packet(0, at as u64, 0, What::NeedHave),
        Need::Ready => GitwireAnswer::of(What::NeedReady),
        Need::Boundary => GitwireAnswer::of(What::NeedBoundary),
        Need::Pack => GitwireAnswer::of(What::NeedPack),
        Need::Reference => GitwireAnswer::of(What::NeedReference),
        Need::Size(at) => GitwireAnswer::of_packet(0, at as u64, 0, What::NeedSize),
    }
}

/// Accepts the request that came. `Done`; `NotNow` if none is `Asked`, and nothing changed; or `NoRequest`.
#[unsafe(no_mangle)]
pub extern "C" fn gitwire_host_accept(alloc: Global, host: &mut GitwireHost) -> u32
    ensures { On (host_in host.old) (host_in host.new) (λ old new. AcceptsAnswers old result new) (result ≡ what_number What.NoRequest) }
{
    on!(host, alloc; accept(host), else What::NoRequest.number())
}

fn accept(server: &mut HostServer<Global>) -> u32
    ensures { AcceptsAnswers server.old result server.new }
{
    done_where(server.accept())
}

/// Refuses the request that came: `Packet`, an error packet with this text is at the front of the buffer, and the session is over. `NotNow`
/// if none is `Asked`; `Failed` by `BadLine` for a text of more than 65,511 bytes; `BufferTooSmall` if the buffer has fewer than 65,520
/// bytes; or `NoRequest`: nothing changed.
#[unsafe(no_mangle)]
pub extern "C" fn gitwire_host_refuse(
    alloc: Global,
    host: &mut GitwireHost,
    text: &[u8],
    buffer: &mut [u8],
) -> GitwireAnswer
    ensures { On (host_in host.old) (host_in host.new) (λ old new. RefusesInBuffer text.now old buffer.old result buffer.new new)
        (HasNone buffer.old result buffer.new) }
{
    on!(host, alloc; refuse(host, text, buffer))
}

fn refuse(server: &mut HostServer<Global>, text: &[u8], buffer: &mut [u8]) -> GitwireAnswer
    ensures { RefusesInBuffer text.now server.old buffer.old result buffer.new server.new }
{
    if buffer.len() < LONGEST_PACKET {
        return GitwireAnswer::of(What::BufferTooSmall);
    }
    if text.len() > LONGEST_REFUSAL {
        return refused_as(Kind::BadLine);
    }
    if !server.refuse(text) {
        return GitwireAnswer::of(What::NotNow);
    }
    hand_out(server, 0, buffer)
}

/// A refusal by a kind of error, at offset 0.
pub(crate) fn refused_as(kind: Kind) -> GitwireAnswer
    ensures { result ≡ refused_as kind }
{
    GitwireAnswer::of_fault(0, Fault { kind, offset: 0 })
}

/// Frees the server. The handle has none from then on.
#[unsafe(no_mangle)]
pub extern "C" fn gitwire_host_clear(alloc: Global, host: &mut GitwireHost)
    ensures { host_in host.new ≡ None }
{
    drop(replace(host, GitwireHost::none(alloc)));
}
