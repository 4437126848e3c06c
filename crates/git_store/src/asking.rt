//! One question to a host's store, and the report of its reply to the host's server.

ghost use Rattle.std.specs.Prelude.{◌≡◌, ◌<◌, IsSome, MatchOption, None, Some, length, true};
ghost use Rattle.std.specs.Option.{option_map};
ghost use Rattle.git_msg.specs.Asked.{fetch};
ghost use Rattle.git_host.specs.HostLookups.{request_of};
ghost use Rattle.git_store.specs.Questions.{ask_have, ask_size, ask_want};
ghost use Rattle.git_host.specs.HostServer.{is_asked};
ghost use Rattle.git_store.specs.StoreMoves.{AnswersNeed, Asks, Begins, FailsNow, Settles, is_given, is_taken, question_at};

use crate::store::{Listed, Part, Store, StoreFault};
use git_host::{HostReported, HostServer, Need, Report, RequestAtHand};
use git_msg::{Fetch, ObjectWord, Request, TextWord};
use git_names::{Oid, RefName, Steps};
use std::alloc::Allocator;

/// Asks the store for what is needed, and reports its reply. If it has failed, or its report is refused, that is reported in its place.
/// Returns whether there is a packet to send.
pub(crate) fn answer_need<S: Store, A: Allocator + Copy>(
    server: &mut HostServer<A>,
    store: &mut S,
    buffer: &mut [u8],
    need: Need,
) -> bool
    requires asked { IsSome (question_at server.old need) }
    requires space { 0 < length buffer.old }
    ensures { AnswersNeed S.replies need result server.old store.old server.new store.new }
{
    match ask(server, store, buffer, need) {
        Ok(reported) => settle(server, reported),
        Err(_) => fail(server),
    }
}

// If a report was refused, the store has failed. Returns whether there is a packet to send.
fn settle<A: Allocator + Copy>(server: &mut HostServer<A>, reported: HostReported) -> bool
    ensures { Settles (is_taken reported) reported result server.old server.new }
{
    if is_taken(reported) {
        return is_given(reported);
    }
    fail(server)
}

// Reports that the store has failed. Returns whether there is a packet to send.
fn fail<A: Allocator + Copy>(server: &mut HostServer<A>) -> bool
    ensures { FailsNow result server.old server.new }
{
    is_given(server.report(Report::Failed))
}

// Asks the store for what is needed, and reports its reply.
fn ask<S: Store, A: Allocator + Copy>(
    server: &mut HostServer<A>,
    store: &mut S,
    buffer: &mut [u8],
    need: Need,
) -> Result<HostReported, StoreFault>
    requires asked { IsSome (question_at server.old need) }
    requires space { 0 < length buffer.old }
    ensures { Asks S.replies need result server.old store.old server.new store.new }
{
    match need {
        Need::Want(at) => ask_want(server, store, at),
        Need::WantRef(at) => ask_want_ref(server, store, at),
        Need::Have(at) => ask_have(server, store, at),
        Need::Ready => ask_ready(server, store),
        Need::Boundary => ask_boundary(server, store),
        Need::Pack => ask_pack(server, store, buffer),
        Need::Reference => ask_reference(server, store, buffer),
        Need::Size(at) => ask_size(server, store, at),
    }
}

fn ask_want<S: Store, A: Allocator + Copy>(
    server: &mut HostServer<A>,
    store: &mut S,
    at: usize,
) -> Result<HostReported, StoreFault>
    requires asked { IsSome (question_at server.old (Need.Want at)) }
    ensures { Asks S.replies (Need.Want at) result server.old store.old server.new store.new }
{
    let Some(id) = want_at(server, at) else {
        unreachable!()
    };
    let has = store.want(&id)?;
    Ok(server.report(Report::Want(has)))
}

fn ask_want_ref<S: Store, A: Allocator + Copy>(
    server: &mut HostServer<A>,
    store: &mut S,
    at: usize,
) -> Result<HostReported, StoreFault>
    requires asked { IsSome (question_at server.old (Need.WantRef at)) }
    ensures { Asks S.replies (Need.WantRef at) result server.old store.old server.new store.new }
{
    let Some(request) = server.request() else {
        unreachable!()
    };
    let Some(name) = request.arguments().text(TextWord::WantRef, at) else {
        unreachable!()
    };
    let id = store.want_ref(name)?;
    Ok(server.report(Report::WantRef(id)))
}

fn ask_have<S: Store, A: Allocator + Copy>(
    server: &mut HostServer<A>,
    store: &mut S,
    at: usize,
) -> Result<HostReported, StoreFault>
    requires asked { IsSome (question_at server.old (Need.Have at)) }
    ensures { Asks S.replies (Need.Have at) result server.old store.old server.new store.new }
{
    let Some(id) = have_at(server, at) else {
        unreachable!()
    };
    let has = store.have(&id)?;
    Ok(server.report(Report::Have(has)))
}

fn ask_ready<S: Store, A: Allocator + Copy>(
    server: &mut HostServer<A>,
    store: &mut S,
) -> Result<HostReported, StoreFault>
    requires asked { IsSome (question_at server.old Need.Ready) }
    ensures { Asks S.replies Need.Ready result server.old store.old server.new store.new }
{
    let Some(request) = fetch_asked(server) else {
        unreachable!()
    };
    let is_ready = store.is_ready(request)?;
    Ok(server.report(Report::Ready(is_ready)))
}

fn ask_boundary<S: Store, A: Allocator + Copy>(
    server: &mut HostServer<A>,
    store: &mut S,
) -> Result<HostReported, StoreFault>
    requires asked { IsSome (question_at server.old Need.Boundary) }
    ensures { Asks S.replies Need.Boundary result server.old store.old server.new store.new }
{
    let Some(request) = fetch_asked(server) else {
        unreachable!()
    };
    match store.boundary(request)? {
        Some(line) => Ok(server.report(Report::Boundary(line))),
        None => Ok(server.report(Report::BoundaryEnd)),
    }
}

fn ask_pack<S: Store, A: Allocator + Copy>(
    server: &mut HostServer<A>,
    store: &mut S,
    buffer: &mut [u8],
) -> Result<HostReported, StoreFault>
    requires asked { IsSome (question_at server.old Need.Pack) }
    requires space { 0 < length buffer.old }
    ensures { Asks S.replies Need.Pack result server.old store.old server.new store.new }
{
    let Some(request) = fetch_asked(server) else {
        unreachable!()
    };
    match store.pack(request, buffer)? {
        Part::Pack(count) => Ok(server.report(Report::Pack(&buffer[..count]))),
        Part::Progress(count) => Ok(server.report(Report::Progress(&buffer[..count]))),
        Part::End => Ok(server.report(Report::PackEnd)),
    }
}

fn ask_reference<S: Store, A: Allocator + Copy>(
    server: &mut HostServer<A>,
    store: &mut S,
    buffer: &mut [u8],
) -> Result<HostReported, StoreFault>
    requires asked { IsSome (question_at server.old Need.Reference) }
    requires space { 0 < length buffer.old }
    ensures { Asks S.replies Need.Reference result server.old store.old server.new store.new }
{
    match store.reference(buffer)? {
        Listed::Reference(entry) => Ok(server.report(Report::Reference(entry))),
        Listed::Unborn(count) => match RefName::read(&buffer[..count], &mut Steps::new()) {
            Ok(target) => Ok(server.report(Report::Unborn(target))),
            Err(_) => Err(StoreFault),
        },
        Listed::End => Ok(server.report(Report::ReferencesEnd)),
    }
}

fn ask_size<S: Store, A: Allocator + Copy>(
    server: &mut HostServer<A>,
    store: &mut S,
    at: usize,
) -> Result<HostReported, StoreFault>
    requires asked { IsSome (question_at server.old (Need.Size at)) }
    ensures { Asks S.replies (Need.Size at) result server.old store.old server.new store.new }
{
    let Some(id) = oid_at(server, at) else {
        unreachable!()
    };
    let size = store.size(&id)?;
    Ok(server.report(Report::Size(size)))
}

// The object of the `want` line at this place.
fn want_at<A: Allocator + Copy>(server: &HostServer<A>, at: usize) -> Option<Oid>
    ensures { option_map ask_want result ≡ question_at server.now (Need.Want at) }
{
    let request = server.request()?;
    request.arguments().ids(ObjectWord::Want).get(at).copied()
}

// The object of the `have` line at this place.
fn have_at<A: Allocator + Copy>(server: &HostServer<A>, at: usize) -> Option<Oid>
    ensures { option_map ask_have result ≡ question_at server.now (Need.Have at) }
{
    let request = server.request()?;
    request.arguments().ids(ObjectWord::Have).get(at).copied()
}

// The object of the `oid` line at this place.
fn oid_at<A: Allocator + Copy>(server: &HostServer<A>, at: usize) -> Option<Oid>
    ensures { option_map ask_size result ≡ question_at server.now (Need.Size at) }
{
    let request = server.request()?;
    request
        .arguments()
        .ids(ObjectWord::ObjectId)
        .get(at)
        .copied()
}

// The request at hand, if it is a fetch.
fn fetch_asked<A: Allocator + Copy>(server: &HostServer<A>) -> Option<&Fetch<A>>
    ensures { MatchOption result (question_at server.now Need.Ready ≡ None) (λ request. request_of server.now ≡ Some (fetch request.now.asked)) }
{
    match server.request()? {
        RequestAtHand::Fetch(request) => Some(request),
        RequestAtHand::Asked(Request::Fetch(request)) => Some(request),
        _ => None,
    }
}

// Whether a report was taken, with a packet or without.
fn is_taken(reported: HostReported) -> bool
    ensures { result ≡ is_taken reported }
{
    matches!(
        reported,
        HostReported::Packet | HostReported::Taken | HostReported::Hidden
    )
}

// Whether there is a packet to send for a report.
fn is_given(reported: HostReported) -> bool
    ensures { result ≡ is_given reported }
{
    matches!(reported, HostReported::Packet)
}

/// The request that came is accepted, after the store has received it.
pub(crate) fn begin<S: Store, A: Allocator + Copy>(server: &mut HostServer<A>, store: &mut S)
    requires { is_asked server.old.phase ≡ true }
    ensures { Begins S.begins server.old store.old server.new store.new }
{
    let Some(request) = server.request() else {
        unreachable!()
    };
    store.begin(&request);
    server.accept();
}
