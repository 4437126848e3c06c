//! Several events of a chunk by one call of C.

ghost use Rattle.std.specs.Prelude.{◌≡◌, ◌+◌, ◌-◌, ◌≤◌, ◌<◌, ◌++◌, ℕ, List, MatchOption, MatchResult, false, length, take, drop};
ghost use Rattle.git_pkt.specs.Packets.{longest_payload};
ghost use Rattle.gitwire.specs.Calls.{On};
ghost use Rattle.git_client.specs.EventParts.{of_text, parts_shown};
ghost use Rattle.git_client.specs.Machine.Client.{can_ask};
ghost use Rattle.gitwire.specs.Answers.{answering_packet};
ghost use Rattle.gitwire.specs.EventAnswers.{announcing_parts, bytes_shown, copied_of, passed_of, shown_at};
ghost use Rattle.gitwire.specs.EventLists.{EndsHere, GivesEvent, ListsEvents, ListsInBuffer, ListsNothing};
ghost use Rattle.gitwire.specs.Handles.{client_in};

use crate::answer::{GitwireAnswer, What};
use crate::client::LONGEST_PARTS;
use crate::event::GitwireEvent;
use crate::handles::{GitwireClient, Holds, on};
use git_client::{Client, Event, EventKind, EventParts, ReceivedGot};
use git_names::Steps;
use std::alloc::Global;

/// How far a call has come.
#[derive(Clone, Copy, Debug)]
pub(crate) struct Extent {
    /// How many bytes of the chunk are used.
    used: usize,
    /// How many events are in the array.
    count: usize,
    /// How many bytes of the buffer their texts have.
    texts: usize,
}

/// Fills the array with the events of the chunk: those that `gitwire_client_feed` would give, call after call. Their texts are
/// written to the buffer one after another, and bytes of the pack and of progress stay in the chunk. `length` is how many events are in the
/// array, and `used` how many bytes were used. `More`: the chunk is used up, the array is full, or the buffer has fewer than 65,516 bytes
/// left; `CanAsk`: a request can be asked after the last event; `Failed`; `NotNow` if no bytes are expected; `NoRequest`; and
/// `BufferTooSmall` if the array has no place, or the buffer has fewer than 65,516 bytes.
#[unsafe(no_mangle)]
pub extern "C" fn gitwire_client_events(
    alloc: Global,
    client: &mut GitwireClient,
    chunk: &[u8],
    events: &mut [GitwireEvent],
    buffer: &mut [u8],
) -> GitwireAnswer
    ensures { On (client_in client.old) (client_in client.new)
        (λ old new. ListsInBuffer old chunk.now events.old buffer.old result events.new buffer.new new)
        (ListsNothing events.old buffer.old result events.new buffer.new) }
{
    on!(client, alloc; list_events(client, chunk, events, buffer))
}

fn list_events(
    client: &mut Client<Global>,
    chunk: &[u8],
    events: &mut [GitwireEvent],
    buffer: &mut [u8],
) -> GitwireAnswer
    ensures { ListsInBuffer client.old chunk.now events.old buffer.old result events.new buffer.new client.new }
{
    if events.is_empty() || buffer.len() < LONGEST_PARTS {
        return GitwireAnswer::of(What::BufferTooSmall);
    }
    fill_events(client, chunk, events, buffer)
}

/// Calls `feed` until it gives no event, the array is full, or the texts of a further event might not fit into the buffer.
fn fill_events(
    client: &mut Client<Global>,
    chunk: &[u8],
    events: &mut [GitwireEvent],
    buffer: &mut [u8],
) -> GitwireAnswer
    requires place { 0 < length events.old }
    requires suffices { longest_payload ≤ length buffer.old }
    ensures { ListsEvents client.old chunk.now events.old buffer.old result events.new buffer.new client.new }
{
    let mut so_far = Extent {
        used: 0,
        count: 0,
        texts: 0,
    };
    while so_far.count < events.len() && LONGEST_PARTS <= buffer.len() - so_far.texts {
        if let Some(end) = pass_next(client, chunk, so_far, events, buffer) {
            so_far = end;
            continue;
        }
        match next(client, chunk, so_far, events, buffer) {
            Ok(further) => {
                so_far = further;
                if client.can_ask() {
                    return so_far.answer(What::CanAsk);
                }
            }
            Err(answer) => return answer,
        }
    }
    so_far.answer(What::More)
}

impl Extent {
    /// What is reported if the calls stop here.
    fn answer(self, what: What) -> GitwireAnswer
        ensures { result ≡ answering_packet self.used 0 self.count what }
    {
        GitwireAnswer::of_packet(self.used, 0, self.count, what)
    }
}

/// One call of `feed`, on the other bytes of the chunk: how far that came, or what is reported if there is no event. The event is shown at its place in
/// the array, and its texts are written to the buffer. A client of any format chooses it first. This is a call of its own, so that the loop over the
/// packets of a pack has the registers.
#[inline(never)]
fn next(
    client: &mut Client<Global>,
    chunk: &[u8],
    so_far: Extent,
    events: &mut [GitwireEvent],
    buffer: &mut [u8],
) -> Result<Extent, GitwireAnswer>
    requires within { so_far.used ≤ length chunk.now }
    requires place { so_far.count < length events.old }
    requires suffices { so_far.texts + longest_payload ≤ length buffer.old }
    requires goes_on { 0 < so_far.count → can_ask client.old ≡ false }
    ensures { MatchResult result
        (λ further. GivesEvent client.old chunk.now so_far.used so_far.count so_far.texts events.old buffer.old further events.new buffer.new client.new)
        (λ answer. EndsHere client.old chunk.now so_far.used so_far.count events.old buffer.old answer events.new buffer.new client.new) }
{
    let expected = client.wants_input();
    client.choose_format();
    let arrived = client.feed(&chunk[so_far.used..], &mut Steps::new());
    let used = so_far.used + arrived.used;
    match arrived.got {
        ReceivedGot::More => {
            Err(GitwireAnswer::of_packet(used, 0, so_far.count, What::more(expected)))
        }
        ReceivedGot::Event(event) => {
            let place = &mut events[so_far.count];
            Ok(Extent {
                used,
                count: so_far.count + 1,
                texts: list(event, used, place, buffer, so_far.texts),
            })
        }
        ReceivedGot::Failed(fault) => Err(GitwireAnswer {
            length: so_far.count,
            ..GitwireAnswer::of_fault(used, fault)
        }),
    }
}

/// The same, if the other bytes begin with all of a packet whose bytes pass: its event is the one that `next` would show. Otherwise nothing changes.
#[inline(always)]
fn pass_next(
    client: &mut Client<Global>,
    chunk: &[u8],
    so_far: Extent,
    events: &mut [GitwireEvent],
    buffer: &mut [u8],
) -> Option<Extent>
    requires within { so_far.used ≤ length chunk.now }
    requires place { so_far.count < length events.old }
    requires suffices { so_far.texts + longest_payload ≤ length buffer.old }
    ensures { MatchOption result ((client.new ≡ client.old) × (events.new ≡ events.old) × (buffer.new ≡ buffer.old))
        (λ further. GivesEvent client.old chunk.now so_far.used so_far.count so_far.texts events.old buffer.old further events.new buffer.new client.new
        × (can_ask client.new ≡ false)) }
{
    let Some(arrived) = client.pass_whole(&chunk[so_far.used..], &mut Steps::new()) else {
        return None;
    };
    let ReceivedGot::Event(event) = arrived.got else {
        unreachable!()
    };
    let used = so_far.used + arrived.used;
    let shown = &mut events[so_far.count];
    Some(Extent {
        used,
        count: so_far.count + 1,
        texts: list(event, used, shown, buffer, so_far.texts),
    })
}

/// Shows the event at this place, when so many bytes of the chunk are used. Its texts are written to the buffer from `at` on. Returns how many bytes of
/// the buffer are used up to their end.
#[inline(always)]
pub(crate) fn list(
    event: Event<'_>,
    used: usize,
    place: &mut GitwireEvent,
    buffer: &mut [u8],
    at: usize,
) -> usize
    requires copied { at + length (copied_of event) ≤ length buffer.old }
    requires passed { length (passed_of event) ≤ used }
    ensures event { place.new ≡ shown_at event.entry used at }
    ensures texts { result ≡ at + length (copied_of event.entry) }
    ensures buffer { buffer.new ≡ take at buffer.old ++ copied_of event.entry ++ drop (at + length (copied_of event.entry)) buffer.old }
{
    match event {
        Event::Pack(bytes) => {
            *place = passed(used, EventKind::Pack, bytes.len());
            at
        }
        Event::Progress(bytes) => {
            *place = passed(used, EventKind::Progress, bytes.len());
            at
        }
        _ => list_texts(event.parts(), used, place, buffer, at),
    }
}

/// The same for an event of these parts that has no bytes in the chunk. This is a call of its own, so that the loop over the bytes of a pack has the registers.
#[inline(never)]
fn list_texts(
    parts: EventParts<'_>,
    used: usize,
    place: &mut GitwireEvent,
    buffer: &mut [u8],
    at: usize,
) -> usize
    requires { at + length (bytes_shown (parts_shown parts)) ≤ length buffer.old }
    ensures event { place.new ≡ record (announcing_parts used (parts_shown parts.entry)) { offset = at } }
    ensures texts { result ≡ at + length (bytes_shown (parts_shown parts.entry)) }
    ensures buffer { buffer.new ≡ take at buffer.old ++ bytes_shown (parts_shown parts.entry)
        ++ drop (at + length (bytes_shown (parts_shown parts.entry))) buffer.old }
{
    let event = GitwireEvent {
        offset: at as u64,
        ..GitwireEvent::of_parts(used, parts, &mut buffer[at..])
    };
    *place = event;
    at + event.id_length + event.name_length + event.text_length + event.peeled_length
}

/// An event of so many bytes, which are the last ones of the chunk that are used.
fn passed(used: usize, kind: EventKind, count: usize) -> GitwireEvent
    requires { count ≤ used }
    ensures { (bytes : List ℕ) → length bytes ≡ count
        → result ≡ record (announcing_parts used (of_text kind bytes)) { offset = used - count } }
{
    GitwireEvent {
        offset: (used - count) as u64,
        ..GitwireEvent::of_bytes(used, kind, count)
    }
}
