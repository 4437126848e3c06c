//! A server that C holds.

ghost use Rattle.std.specs.Prelude.{◌≡◌, IfSome, None};
ghost use Rattle.gitwire.specs.Calls.{HasNone, On};
ghost use Rattle.gitwire.specs.Handles.{repository_in, server_in};
ghost use Rattle.gitwire.specs.Answers.{answering, what_number};
ghost use Rattle.gitwire.specs.ServerAnswers.{BeginsOver, BeginsWithin, ClosesAnswers, FeedsAnswers, PullsInBuffer, Starts};

use crate::answer::{GitwireAnswer, What};
use crate::handles::{GitwireRepository, GitwireServer, Holds, fill, on};
use crate::offer::agent_named;
use crate::request::MOST_LIMIT;
use git_msg::{Agent, Limits, Offer};
use git_names::Steps;
use git_pkt::LONGEST_PACKET;
use git_server::{Pulled, Repo, Server, SharedRepo};
use std::alloc::Global;
use std::mem::replace;

/// Makes the handle's server a new one over the repository, which stays with its own handle. It advertises all that the protocol has, keeps
/// at most `limit` bytes of a request's arguments, and sends the advertisement first if `advertise` is set: by this agent, or by this
/// library's own if the name is empty. What the handle had before is freed. `Done`; `NoRequest` if there is no repository and `BadValue` if
/// the limit is above 1,073,741,824 or the text is no agent's name, and the handle is unchanged; or `OutOfMemory`, and the handle has none.
#[unsafe(no_mangle)]
pub extern "C" fn gitwire_server_init(
    alloc: Global,
    server: &mut GitwireServer,
    repository: &mut GitwireRepository,
    limit: u32,
    advertise: bool,
    agent: &[u8],
) -> u32
    ensures begins { BeginsOver (repository_in repository.old) limit advertise agent.now (server_in server.old) result (server_in server.new) }
    ensures stays { repository_in repository.new ≡ repository_in repository.old }
{
    on!(repository, alloc; begin(alloc, server, repository, limit, advertise, agent), else What::NoRequest.number())
}

fn begin(
    alloc: Global,
    server: &mut GitwireServer,
    repo: &SharedRepo,
    limit: u32,
    advertise: bool,
    agent: &[u8],
) -> u32
    ensures { BeginsWithin repo.now limit advertise agent.now (server_in server.old) result (server_in server.new) }
{
    if limit > MOST_LIMIT {
        return What::BadValue.number();
    }
    let Some(agent) = agent_named(agent) else {
        return What::BadValue.number();
    };
    *server = GitwireServer::none(alloc);
    let Some(made) = make(alloc, repo, Limits { args: limit }, advertise, agent) else {
        return What::OutOfMemory.number();
    };
    fill(server, alloc, made).number()
}

/// A server at the beginning of its session; none if memory runs out.
fn make(
    alloc: Global,
    repo: &SharedRepo,
    limits: Limits,
    advertise: bool,
    agent: Agent,
) -> Option<Box<Server<SharedRepo, Global>, Global>>
    ensures { IfSome result (λ made. Starts repo.now limits.args advertise agent made.value) }
{
    let offer = Offer {
        agent,
        ..Offer::everything(repo.format())
    };
    let Ok(shared) = repo.share() else {
        return None;
    };
    let server = Server::new(alloc, shared, offer, limits, advertise);
    match Box::new(alloc, server) {
        Ok(made) => Some(made),
        Err(_) => None,
    }
}

/// Takes bytes of the input: all of them, or those up to the end of a request, a flush instead of one, or an error. None is used while a
/// packet waits to be pulled, nor after the end: `NotNow`. `More`, and how many were used; or `NoRequest`.
#[unsafe(no_mangle)]
pub extern "C" fn gitwire_server_feed(
    alloc: Global,
    server: &mut GitwireServer,
    chunk: &[u8],
) -> GitwireAnswer
    ensures { On (server_in server.old) (server_in server.new) (λ old new. FeedsAnswers old chunk.now result new) (result ≡ answering What.NoRequest) }
{
    on!(server, alloc; feed(server, chunk))
}

fn feed(server: &mut Server<SharedRepo, Global>, chunk: &[u8]) -> GitwireAnswer
    ensures { FeedsAnswers server.old chunk.now result server.new }
{
    let expected = server.wants_input();
    let used = server.feed(chunk, &mut Steps::new());
    GitwireAnswer::of_used(used, What::more(expected))
}

/// The input ends here. `Done`; `NotNow` if the server expects no bytes, and nothing changed; or `NoRequest`.
#[unsafe(no_mangle)]
pub extern "C" fn gitwire_server_close(alloc: Global, server: &mut GitwireServer) -> u32
    ensures { On (server_in server.old) (server_in server.new) (λ old new. ClosesAnswers old result new) (result ≡ what_number What.NoRequest) }
{
    on!(server, alloc; close(server), else What::NoRequest.number())
}

fn close(server: &mut Server<SharedRepo, Global>) -> u32
    ensures { ClosesAnswers server.old result server.new }
{
    if !server.wants_input() {
        return What::NotNow.number();
    }
    server.close();
    What::Done.number()
}

/// The next packet to be sent, copied to the front of the buffer, or what to do instead. `Packet`, `NeedInput`, `EndedByFlush`,
/// `EndedByClose` or `Failed`; `NoRequest`; and `BufferTooSmall` if the buffer has fewer than 65,520 bytes.
#[unsafe(no_mangle)]
pub extern "C" fn gitwire_server_pull(
    alloc: Global,
    server: &mut GitwireServer,
    buffer: &mut [u8],
) -> GitwireAnswer
    ensures { On (server_in server.old) (server_in server.new) (λ old new. PullsInBuffer old buffer.old result buffer.new new)
        (HasNone buffer.old result buffer.new) }
{
    on!(server, alloc; pull(server, buffer))
}

fn pull(server: &mut Server<SharedRepo, Global>, buffer: &mut [u8]) -> GitwireAnswer
    ensures { PullsInBuffer server.old buffer.old result buffer.new server.new }
{
    if buffer.len() < LONGEST_PACKET {
        return GitwireAnswer::of(What::BufferTooSmall);
    }
    match server.pull() {
        Pulled::NeedInput => GitwireAnswer::of(What::NeedInput),
        Pulled::Packet(bytes) => {
            buffer[..bytes.len()].copy_from_slice(bytes);
            GitwireAnswer::of_packet(0, 0, bytes.len(), What::Packet)
        }
        Pulled::Finished(outcome) => GitwireAnswer::of_end(outcome),
    }
}

/// Frees the server. The handle has none from then on.
#[unsafe(no_mangle)]
pub extern "C" fn gitwire_server_clear(alloc: Global, server: &mut GitwireServer)
    ensures { server_in server.new ≡ None }
{
    drop(replace(server, GitwireServer::none(alloc)));
}
