//! Both ends against each other in memory: the client asks requests of a server of a repository, and receives its answers.

ghost use Rattle.std.specs.Prelude.{◌≡◌, ◌<◌, ◌||◌, ◌∷◌, [], true, false, None, IsTrue, IfErr};
ghost use Rattle.std.specs.Io.KnownBytes.{Keeps};
ghost use Rattle.git_pkt.specs.Machine.Recorded.{inner_of, has_failed};
ghost use Rattle.git_pkt.specs.Machine.Engine.{FailsAs, IsShownBy};
ghost use Rattle.git_pkt.specs.Streams.{flow, is_broken, Moves};
ghost use Rattle.git_client.specs.Machine.Client.{can_ask, fault_of, wants_input};
ghost use Rattle.git_client.specs.Parts.{terms_of};
ghost use Rattle.git_client.specs.Machine.RunSteps.{ReceivesChunkTo};
ghost use Rattle.git_server.specs.Machine.Server.{outcome_of};
ghost use Rattle.git_laws.specs.Plays.{Played, setting_of};
ghost use Rattle.git2show_lib.specs.Machine.PlaySteps.{AnswersTo, AsksServerTo, EndsMessageTo, ReceivesMessageTo, ReceivesServerTo};
ghost use Rattle.git2show_lib.specs.Machine.PlaySteps.{Stands, StandsOn, AnnouncesAll, silent};

use git_client::{Client, Counts, Ending, Sent, receive_chunk, write_asked};
use git_msg::{Limits, Offer, Request};
use git_names::Steps;
use git_pkt::{Discard, Output, Recorded, RunFault, flush};
use git_server::{Pulled, Repo, Server};
use std::alloc::Allocator;
use std::io::Write;

/// Receives one whole packet, or nothing, in chunks of at most `cut` bytes, up to where the client can ask. The progress is dropped. Answers
/// how many bytes were used.
fn receive_next_packet<O: Write, P: Output, A: Allocator + Copy>(
    client: &mut Client<A>,
    counts: &mut Counts,
    packet: &[u8],
    cut: usize,
    out: &mut Recorded<O>,
    pack: &mut P,
) -> Result<usize, RunFault>
    requires waits { wants_input client.old ≡ true }
    requires cut { 0 < cut }
    requires sound_out { has_failed out.old ≡ false }
    requires sound_pack { P.failed pack.old ≡ false }
    ensures arrived { ReceivesChunkTo result client.old client.new counts.old counts.new packet.now
        (flow (O.contents (inner_of out.old)) (O.contents (inner_of out.new)))
        (flow (P.contents pack.old) (P.contents pack.new)) silent }
    ensures fault { IfErr result (IsShownBy ⊥ (IsTrue (has_failed out.new || P.failed pack.new)) ⊥) }
    ensures announced { FailsAs result false (has_failed out.new || P.failed pack.new) }
{
    let mut used = 0;
    while used < packet.len() && client.wants_input() {
        let left = &packet[used..];
        let chunk = &left[..cut.min(left.len())];
        used += receive_chunk(client, counts, chunk, out, pack, &mut Discard)?;
    }
    Ok(used)
}

/// Receives what a server gives, up to where the client can ask or the server gives nothing more.
fn receive_server<R: Repo, O: Write, P: Output, A: Allocator + Copy>(
    client: &mut Client<A>,
    counts: &mut Counts,
    server: &mut Server<R, A>,
    cut: usize,
    out: &mut Recorded<O>,
    pack: &mut P,
) -> Result<(), RunFault>
    requires waits { wants_input client.old ≡ true }
    requires cut { 0 < cut }
    requires sound_out { has_failed out.old ≡ false }
    requires sound_pack { P.failed pack.old ≡ false }
    ensures arrived { ReceivesServerTo R.state result client.old client.new counts.old counts.new server.old server.new
        (flow (O.contents (inner_of out.old)) (O.contents (inner_of out.new)))
        (flow (P.contents pack.old) (P.contents pack.new)) }
    ensures fault { IfErr result (IsShownBy ⊥ (IsTrue (has_failed out.new || P.failed pack.new)) ⊥) }
    ensures announced { FailsAs result false (has_failed out.new || P.failed pack.new) }
{
    while client.wants_input() {
        match server.pull() {
            Pulled::Packet(packet) => {
                receive_next_packet(client, counts, packet, cut, out, pack)?;
            }
            Pulled::NeedInput => return Ok(()),
            Pulled::Finished(_) => return Ok(()),
        }
    }
    Ok(())
}

/// Receives a message of a server, the advertisement or a response, and what comes after it: a response end, or nothing. Both writers are
/// flushed.
///
/// `Refused` with the first fault of what was received, truncated if the server sends nothing more and more is expected; `WriteFault` where a
/// write or a flush fails.
fn receive_message<R: Repo, O: Write, P: Output, A: Allocator + Copy>(
    client: &mut Client<A>,
    server: &mut Server<R, A>,
    end: &[u8],
    cut: usize,
    out: &mut Recorded<O>,
    pack: &mut P,
) -> Result<(), RunFault>
    requires waits { wants_input client.old ≡ true }
    requires cut { 0 < cut }
    requires sound_out { has_failed out.old ≡ false }
    requires sound_pack { P.failed pack.old ≡ false }
    ensures arrived { ReceivesMessageTo R.state result end.now client.old client.new server.old server.new
        (flow (O.contents (inner_of out.old)) (O.contents (inner_of out.new)))
        (flow (P.contents pack.old) (P.contents pack.new)) }
    ensures fault { IfErr result (IsShownBy ⊥ (IsTrue (has_failed out.new || P.failed pack.new)) ⊥) }
    ensures announced { FailsAs result false (has_failed out.new || P.failed pack.new) }
{
    let mut counts = Counts {
        pack: 0,
        progress: 0,
    };
    receive_server(client, &mut counts, server, cut, out, pack)?;
    if client.wants_input() {
        receive_next_packet(client, &mut counts, end, cut, out, pack)?;
    }
    end_message(client, out, pack)
}

/// Flushes both writers after the end of a message.
///
/// `Refused`, truncated, if more of it is expected; `WriteFault` if a flush fails.
fn end_message<O: Write, P: Output, A: Allocator + Copy>(
    client: &mut Client<A>,
    out: &mut Recorded<O>,
    pack: &mut P,
) -> Result<(), RunFault>
    requires sound_out { has_failed out.old ≡ false }
    requires sound_pack { P.failed pack.old ≡ false }
    ensures ends { EndsMessageTo result client.old client.new }
    ensures out_kept { Keeps (O.contents (inner_of out.old)) (O.contents (inner_of out.new)) }
    ensures pack_kept { Keeps (P.contents pack.old) (P.contents pack.new) }
    ensures fault { IfErr result (IsShownBy ⊥ (IsTrue (has_failed out.new || P.failed pack.new)) ⊥) }
    ensures announced { FailsAs result false (has_failed out.new || P.failed pack.new) }
{
    flush(out)?;
    pack.flush()?;
    if client.wants_input() {
        return Err(RunFault::Refused(client.close()));
    }
    Ok(())
}

/// Sends one packet to a server, in chunks of at most `cut` bytes. Bytes for which the server does not wait any more are dropped.
fn announce_packet<R: Repo, A: Allocator + Copy>(
    server: &mut Server<R, A>,
    packet: &[u8],
    cut: usize,
)
    requires cut { 0 < cut }
    ensures announced { StandsOn R.state server.old packet.now [] server.new }
{
    let mut used = 0;
    while used < packet.len() && server.wants_input() {
        let left = &packet[used..];
        let chunk = &left[..cut.min(left.len())];
        used += server.feed(chunk, &mut Steps::new());
    }
}

/// Sends all that the client has for a server.
fn announce_all<R: Repo, A: Allocator + Copy>(
    client: &mut Client<A>,
    server: &mut Server<R, A>,
    cut: usize,
)
    requires cut { 0 < cut }
    requires speaks { can_ask client.old ≡ false }
    requires sound { fault_of client.old ≡ None }
    ensures announced { AnnouncesAll R.state client.old client.new server.old server.new }
{
    while let Sent::Packet(packet) = client.pull() {
        announce_packet(server, packet, cut);
    }
}

/// Asks a request of a server. The request's line of the transcript is written to `out`; one that is refused is not asked, and has no line.
fn ask_server<R: Repo, O: Write, A: Allocator + Copy>(
    client: &mut Client<A>,
    request: Request<A>,
    server: &mut Server<R, A>,
    cut: usize,
    out: &mut Recorded<O>,
) -> Result<(), RunFault>
    requires ready { can_ask client.old ≡ true }
    requires cut { 0 < cut }
    requires sound_out { has_failed out.old ≡ false }
    ensures asked { AsksServerTo R.state result client.old client.new request server.old server.new
        (flow (O.contents (inner_of out.old)) (O.contents (inner_of out.new))) }
    ensures fault { IfErr result (IsShownBy ⊥ (IsTrue (has_failed out.new)) ⊥) }
    ensures announced { FailsAs result false (has_failed out.new) }
{
    let command = request.command();
    if let Err((_, fault)) = client.ask(request) {
        return Err(RunFault::Refused(fault));
    }
    write_asked(out, command)?;
    announce_all(client, server, cut);
    Ok(())
}

/// Asks a request of a server and receives the response, and what comes after it: a response end, or nothing.
fn answer_request<R: Repo, O: Write, P: Output, A: Allocator + Copy>(
    client: &mut Client<A>,
    request: Request<A>,
    server: &mut Server<R, A>,
    end: &[u8],
    cut: usize,
    out: &mut Recorded<O>,
    pack: &mut P,
) -> Result<(), RunFault>
    requires ready { can_ask client.old ≡ true }
    requires cut { 0 < cut }
    requires sound_out { has_failed out.old ≡ false }
    requires sound_pack { P.failed pack.old ≡ false }
    ensures answered { AnswersTo R.state result end.now client.old client.new request server.old server.new
        (flow (O.contents (inner_of out.old)) (O.contents (inner_of out.new)))
        (flow (P.contents pack.old) (P.contents pack.new)) }
    ensures fault { IfErr result (IsShownBy ⊥ (IsTrue (has_failed out.new || P.failed pack.new)) ⊥) }
    ensures announced { FailsAs result false (has_failed out.new || P.failed pack.new) }
{
    ask_server(client, request, server, cut, out)?;
    receive_message(client, server, end, cut, out, pack)
}

/// Plays both ends against each other in memory: a client of the repository's format asks the requests in their order of a server of the
/// repository that offers everything, by gitprotocol-v2(5), and each receives from the other in chunks of at most `cut` bytes. Where each
/// response ends with its flush alone one server answers all requests, and the client leaves it after the last. Where a response end comes
/// after each, the first server only advertises, and each request is answered by one that does not, and then the client gets the response
/// end. A server keeps arguments in memory from `alloc`, up to the default limit for each request.
///
/// The client's transcript is written to `out`, and what came of packs, in order, to `pack`. Both are flushed after each response. The
/// repository is handed back: a pack breaks off only where more of its reads have failed since.
///
/// `Refused` with the first fault of what the client received, truncated if the server sends nothing more and more is expected, or with
/// what [`Client::ask`] refused of a request; `WriteFault` where a write or a flush fails. No other fault is met.
pub fn play<R: Repo + Drop, O: Write, P: Output, A: Allocator + Copy>(
    alloc: A,
    repo: R,
    requests: Vec<Request<A>, A>,
    cut: usize,
    ending: Ending,
    out: &mut Recorded<O>,
    pack: &mut P,
) -> (R, Result<(), RunFault>)
    requires cut { 0 < cut }
    requires sound_out { has_failed out.old ≡ false }
    requires sound_pack { P.failed pack.old ≡ false }
    ensures played { Moves (is_broken result.1)
        (Played (R.state result.0).failures (terms_of (R.state repo).answers.format ending) Limits.DEFAULT_ARGS (R.state repo)
        requests.items result.1) []
        (flow (O.contents (inner_of out.old)) (O.contents (inner_of out.new)) ∷ flow (P.contents pack.old) (P.contents pack.new) ∷ []) }
    ensures fault { IfErr result.1 (IsShownBy ⊥ (IsTrue (has_failed out.new || P.failed pack.new)) ⊥) }
    ensures announced { FailsAs result.1 false (has_failed out.new || P.failed pack.new) }
{
    match ending {
        Ending::FlushOnly => play_one(alloc, repo, requests, cut, out, pack),
        Ending::ResponseEnd => play_each(alloc, repo, requests, cut, out, pack),
    }
}

/// One server answers all requests, and the client leaves it after the last.
fn play_one<R: Repo + Drop, O: Write, P: Output, A: Allocator + Copy>(
    alloc: A,
    repo: R,
    requests: Vec<Request<A>, A>,
    cut: usize,
    out: &mut Recorded<O>,
    pack: &mut P,
) -> (R, Result<(), RunFault>)
    requires cut { 0 < cut }
    requires sound_out { has_failed out.old ≡ false }
    requires sound_pack { P.failed pack.old ≡ false }
    ensures played { Moves (is_broken result.1)
        (Played (R.state result.0).failures (terms_of (R.state repo).answers.format Ending.FlushOnly) Limits.DEFAULT_ARGS
        (R.state repo) requests.items result.1) []
        (flow (O.contents (inner_of out.old)) (O.contents (inner_of out.new)) ∷ flow (P.contents pack.old) (P.contents pack.new) ∷ []) }
    ensures fault { IfErr result.1 (IsShownBy ⊥ (IsTrue (has_failed out.new || P.failed pack.new)) ⊥) }
    ensures announced { FailsAs result.1 false (has_failed out.new || P.failed pack.new) }
{
    let mut client = Client::new(repo.format(), Ending::FlushOnly);
    let mut server = new_server(alloc, repo, true);
    if let Err(fault) = receive_message(&mut client, &mut server, b"", cut, out, pack) {
        return (server.into_repo(), Err(fault));
    }
    for request in requests {
        if let Err(fault) = answer_request(&mut client, request, &mut server, b"", cut, out, pack) {
            return (server.into_repo(), Err(fault));
        }
    }
    client.leave();
    announce_all(&mut client, &mut server, cut);
    (server.into_repo(), Ok(()))
}

/// The first server only advertises. Each request is answered by one of its own, and a response end comes after the response.
fn play_each<R: Repo + Drop, O: Write, P: Output, A: Allocator + Copy>(
    alloc: A,
    repo: R,
    requests: Vec<Request<A>, A>,
    cut: usize,
    out: &mut Recorded<O>,
    pack: &mut P,
) -> (R, Result<(), RunFault>)
    requires cut { 0 < cut }
    requires sound_out { has_failed out.old ≡ false }
    requires sound_pack { P.failed pack.old ≡ false }
    ensures played { Moves (is_broken result.1)
        (Played (R.state result.0).failures (terms_of (R.state repo).answers.format Ending.ResponseEnd) Limits.DEFAULT_ARGS
        (R.state repo) requests.items result.1) []
        (flow (O.contents (inner_of out.old)) (O.contents (inner_of out.new)) ∷ flow (P.contents pack.old) (P.contents pack.new) ∷ []) }
    ensures fault { IfErr result.1 (IsShownBy ⊥ (IsTrue (has_failed out.new || P.failed pack.new)) ⊥) }
    ensures announced { FailsAs result.1 false (has_failed out.new || P.failed pack.new) }
{
    let mut client = Client::new(repo.format(), Ending::ResponseEnd);
    let mut server = new_server(alloc, repo, true);
    if let Err(fault) = receive_message(&mut client, &mut server, b"", cut, out, pack) {
        return (server.into_repo(), Err(fault));
    }
    for request in requests {
        server = new_server(alloc, server.into_repo(), false);
        if let Err(fault) = answer_request(
            &mut client,
            request,
            &mut server,
            b"0002",
            cut,
            out,
            pack,
        ) {
            return (server.into_repo(), Err(fault));
        }
    }
    (server.into_repo(), Ok(()))
}

/// A server that offers everything.
fn new_server<R: Repo, A: Allocator + Copy>(alloc: A, repo: R, advertise: bool) -> Server<R, A>
    ensures begins { Stands R.state (setting_of (terms_of (R.state repo).answers.format Ending.FlushOnly) Limits.DEFAULT_ARGS (R.state repo)
        advertise) [] [] result }
    ensures goes_on { outcome_of result ≡ None }
{
    let offer = Offer::everything(repo.format());
    Server::new(alloc, repo, offer, Limits::DEFAULT, advertise)
}
