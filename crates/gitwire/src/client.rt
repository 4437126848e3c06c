//! A client that C holds.

ghost use Rattle.std.specs.Prelude.{◌≡◌, None, MatchResult, false};
ghost use Rattle.gitwire.specs.Calls.{HasNone, Of, On};
ghost use Rattle.gitwire.specs.ClientAnswers.{AdvertisesAnswer, AsksIn, BeginsBy, ClosesAnswers, FeaturesAnswer, FeedsInBuffer, ReceivesNone};
ghost use Rattle.gitwire.specs.ClientAnswers.{LeavesRequest, LeavesAnswers, MessageAnswers, PullsInBuffer, TakesRequest, choices, endings, format_shown};
ghost use Rattle.gitwire.specs.Handles.{client_in, request_in};
ghost use Rattle.git_client.specs.Machine.Choosing.{format_known};
ghost use Rattle.gitwire.specs.Numbers.{numbered};
ghost use Rattle.gitwire.specs.Answers.{answering, what_number};

use crate::answer::{GitwireAnswer, What};
use crate::event::GitwireEvent;
use crate::event_list::list;
use crate::handles::{GitwireClient, GitwireRequest, Holds, fill, on};
use crate::numbers::number_of_format;
use crate::offer::{agent_named, features_noted, key_noted};
use git_client::{Client, Ending, ReceivedGot, Sent};
use git_msg::{Command, Limits, Request};
use git_names::{Format, Steps};
use git_pkt::LONGEST_PACKET;
use std::alloc::Global;
use std::mem::replace;

/// The maximum length of the parts of an event: that of the longest payload.
pub(crate) const LONGEST_PARTS: usize = 65_516;

/// Makes the handle's client a new one, before the first byte of the advertisement. What it had before is freed. The format is `SHA1`,
/// `SHA256` or `FORMAT_ANY`. The client names this agent, or this library's own if the name is empty. `Done`; `BadValue`, and the handle is
/// unchanged, for a number that means no format or no ending, and for a text that is no agent's name; or `OutOfMemory`, and the handle has
/// none.
#[unsafe(no_mangle)]
pub extern "C" fn gitwire_client_init(
    alloc: Global,
    client: &mut GitwireClient,
    format: u32,
    ending: u32,
    agent: &[u8],
) -> u32
    ensures { BeginsBy (numbered choices format) (numbered endings ending) agent.now (client_in client.old) result (client_in client.new) }
{
    let Some(choice) = choice_numbered(format) else {
        return What::BadValue.number();
    };
    let Some(ending) = ending_numbered(ending) else {
        return What::BadValue.number();
    };
    let Some(agent) = agent_named(agent) else {
        return What::BadValue.number();
    };
    *client = GitwireClient::none(alloc);
    let Ok(made) = Box::new(alloc, Client::with_agent(agent, choice, ending)) else {
        return What::OutOfMemory.number();
    };
    fill(client, alloc, made).number()
}

/// The format of a new client that C means by this number: one of the formats, or none for any of them; and none if there is no such choice.
fn choice_numbered(number: u32) -> Option<Option<Format>>
    ensures { result ≡ numbered choices number }
{
    match number {
        1 => Some(Some(Format::Sha1)),
        2 => Some(Some(Format::Sha256)),
        3 => Some(None),
        _ => None,
    }
}

/// The ending that C means by this number; none if there is no such ending.
pub(crate) fn ending_numbered(number: u32) -> Option<Ending>
    ensures { result ≡ numbered endings number }
{
    match number {
        1 => Some(Ending::FlushOnly),
        2 => Some(Ending::ResponseEnd),
        _ => None,
    }
}

/// Reads up to the next event, and writes its texts to the front of the buffer; but the bytes of `Pack` and `Progress` stay where they are, the
/// last `text_length` of those used of the chunk, and the buffer is unchanged for them. `More`, `Failed` or the event: `Capability` to
/// `Ended`; `NotNow` if no bytes are expected; `NoRequest`; and `BufferTooSmall` if the buffer has fewer than 65,516 bytes.
#[unsafe(no_mangle)]
pub extern "C" fn gitwire_client_feed(
    alloc: Global,
    client: &mut GitwireClient,
    chunk: &[u8],
    buffer: &mut [u8],
) -> GitwireEvent
    ensures { On (client_in client.old) (client_in client.new) (λ old new. FeedsInBuffer old chunk.now buffer.old result buffer.new new)
        (ReceivesNone buffer.old result buffer.new) }
{
    on!(client, alloc; feed(client, chunk, buffer), else GitwireEvent::none(0, What::NoRequest))
}

fn feed(client: &mut Client<Global>, chunk: &[u8], buffer: &mut [u8]) -> GitwireEvent
    ensures { FeedsInBuffer client.old chunk.now buffer.old result buffer.new client.new }
{
    if buffer.len() < LONGEST_PARTS {
        return GitwireEvent::none(0, What::BufferTooSmall);
    }
    let expected = client.wants_input();
    client.choose_format();
    let arrived = client.feed(chunk, &mut Steps::new());
    match arrived.got {
        ReceivedGot::More => GitwireEvent::none(arrived.used, What::more(expected)),
        ReceivedGot::Event(event) => {
            let mut shown = GitwireEvent::none(arrived.used, What::More);
            list(event, arrived.used, &mut shown, buffer, 0);
            shown
        }
        ReceivedGot::Failed(fault) => GitwireEvent::of_fault(arrived.used, fault),
    }
}

/// What to do next: `Packet`, and the packet to be sent is at the front of the buffer; `NeedInput`, `CanAsk`, `Finished` or `Failed`;
/// `NoRequest`; and `BufferTooSmall` if the buffer has fewer than 65,520 bytes.
#[unsafe(no_mangle)]
pub extern "C" fn gitwire_client_pull(
    alloc: Global,
    client: &mut GitwireClient,
    buffer: &mut [u8],
) -> GitwireAnswer
    ensures { On (client_in client.old) (client_in client.new) (λ old new. PullsInBuffer old buffer.old result buffer.new new)
        (HasNone buffer.old result buffer.new) }
{
    on!(client, alloc; pull(client, buffer))
}

fn pull(client: &mut Client<Global>, buffer: &mut [u8]) -> GitwireAnswer
    ensures { PullsInBuffer client.old buffer.old result buffer.new client.new }
{
    if buffer.len() < LONGEST_PACKET {
        return GitwireAnswer::of(What::BufferTooSmall);
    }
    match client.pull() {
        Sent::Packet(bytes) => {
            buffer[..bytes.len()].copy_from_slice(bytes);
            GitwireAnswer::of_packet(0, 0, bytes.len(), What::Packet)
        }
        Sent::NeedInput => GitwireAnswer::of(What::NeedInput),
        Sent::CanAsk => GitwireAnswer::of(What::CanAsk),
        Sent::Finished => GitwireAnswer::of(What::Finished),
        Sent::Failed(fault) => GitwireAnswer::of_fault(0, fault),
    }
}

/// Asks the request of a handle. `Done`, and that handle has none; or `NotNow`, if the client cannot ask, or `Failed`, and the request
/// stays there; or `NoRequest`, if one of the two has nothing.
#[unsafe(no_mangle)]
pub extern "C" fn gitwire_client_ask(
    alloc: Global,
    client: &mut GitwireClient,
    request: &mut GitwireRequest,
) -> GitwireAnswer
    ensures { AsksIn (client_in client.old) (request_in request.old) result (client_in client.new) (request_in request.new) }
{
    let Some(mut taken) = client.take(alloc) else {
        return GitwireAnswer::of(What::NoRequest);
    };
    let Some(mut asked) = request.take(alloc) else {
        client.put(taken);
        return GitwireAnswer::of(What::NoRequest);
    };
    let answer = ask(alloc, &mut taken.inner, &mut asked.inner);
    client.put(taken);
    match answer {
        Ok(()) => GitwireAnswer::of(What::Done),
        Err(answer) => {
            request.put(asked);
            answer
        }
    }
}

/// Asks the request of a handle. If the client takes it, an empty request is left in its place.
fn ask(
    alloc: Global,
    client: &mut Client<Global>,
    held: &mut Request<Global>,
) -> Result<(), GitwireAnswer>
    ensures { MatchResult result (λ _. TakesRequest client.old held.old client.new)
        (λ answer. LeavesRequest client.old held.old answer client.new held.new) }
{
    if !client.can_ask() {
        return Err(GitwireAnswer::of(What::NotNow));
    }
    let empty = Request::new(alloc, Command::LsRefs, Format::Sha1, Limits { args: 0 });
    let request = replace(held, empty);
    match client.ask(request) {
        Ok(()) => Ok(()),
        Err((request, fault)) => {
            *held = request;
            Err(GitwireAnswer::of_fault(0, fault))
        }
    }
}

/// Leaves: the flush that ends the conversation is to be pulled. `Done`, `NotNow` if the client cannot ask, or `NoRequest`.
#[unsafe(no_mangle)]
pub extern "C" fn gitwire_client_leave(alloc: Global, client: &mut GitwireClient) -> u32
    ensures { On (client_in client.old) (client_in client.new) (λ old new. LeavesAnswers old result new) (result ≡ what_number What.NoRequest) }
{
    on!(client, alloc; leave(client), else What::NoRequest.number())
}

fn leave(client: &mut Client<Global>) -> u32
    ensures { LeavesAnswers client.old result client.new }
{
    if !client.can_ask() {
        return What::NotNow.number();
    }
    client.leave();
    What::Done.number()
}

/// The input ends here. `Failed`, if more was expected; `NotNow` if the client expects no input: then all is well, or the conversation has
/// failed already; or `NoRequest`.
#[unsafe(no_mangle)]
pub extern "C" fn gitwire_client_close(alloc: Global, client: &mut GitwireClient) -> GitwireAnswer
    ensures { On (client_in client.old) (client_in client.new) (λ old new. ClosesAnswers old result new) (result ≡ answering What.NoRequest) }
{
    on!(client, alloc; close(client))
}

fn close(client: &mut Client<Global>) -> GitwireAnswer
    ensures { ClosesAnswers client.old result client.new }
{
    if !client.wants_input() {
        return GitwireAnswer::of(What::NotNow);
    }
    GitwireAnswer::of_fault(0, client.close())
}

/// Writes the server's message about the error that ended the conversation to the front of the buffer. `Done`, `Nothing` if there is none,
/// `BufferTooSmall` or `NoRequest`.
#[unsafe(no_mangle)]
pub extern "C" fn gitwire_client_message(
    alloc: Global,
    client: &mut GitwireClient,
    buffer: &mut [u8],
) -> GitwireAnswer
    ensures { Of (client_in client.old) (client_in client.new) (λ had. MessageAnswers had buffer.old result buffer.new) (HasNone buffer.old result buffer.new) }
{
    on!(client, alloc; message(client, buffer))
}

fn message(client: &Client<Global>, buffer: &mut [u8]) -> GitwireAnswer
    ensures { MessageAnswers client.now buffer.old result buffer.new }
{
    let Some(message) = client.message() else {
        return GitwireAnswer::of(What::Nothing);
    };
    if buffer.len() < message.len() {
        return GitwireAnswer::of(What::BufferTooSmall);
    }
    buffer[..message.len()].copy_from_slice(message);
    GitwireAnswer::of_packet(0, 0, message.len(), What::Done)
}

/// The sum of the features that were noted of the advertisement so far; 0 for a handle without a client.
#[unsafe(no_mangle)]
pub extern "C" fn gitwire_client_features(alloc: Global, client: &mut GitwireClient) -> u32
    ensures { Of (client_in client.old) (client_in client.new) (λ had. FeaturesAnswer had result) (result ≡ 0) }
{
    on!(client, alloc; features(client), else 0)
}

fn features(client: &Client<Global>) -> u32
    ensures { FeaturesAnswer client.now result }
{
    let caps = client.caps();
    features_noted(&caps)
}

/// Whether a line of the advertisement so far has the key of this number: `AGENT`, `LS_REFS`, `FETCH`, `OBJECT_FORMAT`, or that with the value
/// of `SHA1` or `SHA256`. For another number, and for a handle without a client, it is false.
#[unsafe(no_mangle)]
pub extern "C" fn gitwire_client_advertises(
    alloc: Global,
    client: &mut GitwireClient,
    key: u32,
) -> bool
    ensures { Of (client_in client.old) (client_in client.new) (λ had. AdvertisesAnswer key had result) (result ≡ false) }
{
    on!(client, alloc; advertises(client, key), else false)
}

fn advertises(client: &Client<Global>, key: u32) -> bool
    ensures { AdvertisesAnswer key client.now result }
{
    let caps = client.caps();
    key_noted(&caps, key)
}

/// The number of the conversation's object format; 0 until the advertisement is whole, after an error, and for a handle without a client.
#[unsafe(no_mangle)]
pub extern "C" fn gitwire_client_format(alloc: Global, client: &mut GitwireClient) -> u32
    ensures { Of (client_in client.old) (client_in client.new) (λ had. result ≡ format_shown (format_known had)) (result ≡ 0) }
{
    on!(client, alloc; format(client), else 0)
}

fn format(client: &Client<Global>) -> u32
    ensures { result ≡ format_shown (format_known client.now) }
{
    match client.format() {
        Some(format) => number_of_format(format),
        None => 0,
    }
}

/// Frees the client. The handle has none from then on.
#[unsafe(no_mangle)]
pub extern "C" fn gitwire_client_clear(alloc: Global, client: &mut GitwireClient)
    ensures { client_in client.new ≡ None }
{
    drop(replace(client, GitwireClient::none(alloc)));
}
