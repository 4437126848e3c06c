//! The client, as a state machine: it sends requests, reads what a server sends in chunks of any size, and returns events.
//!
//! The phases of a conversation, and the calls that move it on; each packet is judged by `expected`, which advances with it:
//!
//! ```text
//!                       feed: the last expected packet           leave             pull: the flush
//!  Receiving(expected) --------------------------------> Ready -------> Leaving -----------------> Left
//!    |  ^  |     ^                                         |
//!    |  |  +-----+ feed: one more packet                   | ask
//!    |  |                                                  v
//!    |  +------------- pull: the last packet -------- Asking(writer) --+
//!    |                                                     ^           | pull: one more packet
//!    | feed, close: an error                               +-----------+
//!    v
//!  Failed(fault)
//! ```

ghost use Rattle.std.specs.Prelude.{◌≡◌, ◌≢◌, ◌+◌, ◌-◌, ◌≤◌, ◌<◌, ◌↔◌, IsTrue, ℕ, suc, List, [], ◌∷◌, None, Err, true, false, length, take, drop};
ghost use Rattle.std.specs.Prelude.{IfSome, MatchOption, ◌*◌, is_none, unwrap_or};
ghost use Rattle.std.specs.Option.{ForSome};
ghost use Rattle.std.specs.Borrow.{sem};
ghost use Rattle.git_msg.specs.Machine.HeldRequest.{format_of as request_format, kept_of, limit_of, stored_of};
ghost use Rattle.std.specs.Io.BufRead.{Rests};
ghost use Rattle.git_names.specs.declared.object_format.Format.{Format};
ghost use Rattle.git_pkt.specs.Machine.Credit.{Pays, credit_of};
ghost use Rattle.git_pkt.specs.Packets.{longest_payload};
ghost use Rattle.git_pkt.specs.Splits.{Given, Splits};
ghost use Rattle.git_pkt.specs.Machine.BandReader.{MayPass};
ghost use Rattle.git_pkt.specs.Machine.PacketReader.{fault_of as reader_fault_of, held_of, is_open, passes_of};
ghost use Rattle.git_client.specs.Parts.{Terms, terms_by, terms_of};
ghost use Rattle.git_client.specs.Machine.Turns.{takes_packets, fault_in, is_asking, left_in, Fits, LiesIn, events_at, value_at, values_of, capability_value};
ghost use Rattle.git_client.specs.Machine.HandedOut.{HandsOut, HasPart, IsLent, Shows};
ghost use Rattle.git_client.specs.Machine.Turns.{takes_bands, wanted_at};
ghost use Rattle.git_client.specs.Events.{turns_of, all_parts_length, capability, reference, wanted_ref};
ghost use Rattle.git_names.specs.ObjectFormat.{digits_of};
ghost use Rattle.git_msg.specs.References.{FitsIn, reference_at};
ghost use Rattle.git_client.specs.Conversation.{HasNoted};
ghost use Rattle.git_client.specs.declared.events.Ending.{Ending};

use crate::events::{Ending, Event, Received, ReceivedGot};
use crate::judge::judge;
use crate::phase::{CapabilityPlaces, Expected, LineContent, Phase, Turn};
use git_msg::{Agent, Capability, Caps, ReferencePlaces, Request, error_message};
use git_names::{Format, Oid, Steps};
use git_pkt::{Band, BandGot, Fault, Got, Kind, Packet, PacketReader, text};
use std::alloc::Allocator;

/// The result of using some bytes of a chunk.
#[derive(Clone, Copy, Debug)]
pub(crate) enum Outcome {
    /// No event, and all bytes are used.
    More,
    /// An event: the contents of its packet are in the client, and the packet's bytes are in the reader's buffer.
    Event,
    /// Bytes on a band: the last ones of the bytes used.
    Passed(Passed),
    Failed(Fault),
}

/// This many bytes on a band.
#[derive(Clone, Copy, Debug)]
pub(crate) struct Passed {
    pub(crate) band: Band,
    pub(crate) count: usize,
}

/// The result of one step over a chunk.
#[derive(Clone, Copy, Debug)]
pub(crate) struct Advance {
    pub(crate) used: usize,
    pub(crate) outcome: Outcome,
}

impl Advance {
    /// The result of `feed` for this outcome over the chunk, if no event borrows from the buffer.
    fn arrived<'a>(self, chunk: &'a [u8]) -> Received<'a>
        requires part { HasPart self.outcome self.used }
        requires all { self.used ≤ length chunk.now }
        ensures used { result.used ≡ self.used }
        ensures got { HandsOut self.outcome self.used chunk.now result.got }
    {
        let used = self.used;
        let got = match self.outcome {
            Outcome::Passed(passed) => ReceivedGot::Event(passed.event(
                &chunk[used - passed.count..used],
            )),
            Outcome::Failed(fault) => ReceivedGot::Failed(fault),
            _ => ReceivedGot::More,
        };
        Received { used, got }
    }
}

impl Passed {
    /// The event of these bytes on the band.
    fn event<'a>(self, bytes: &'a [u8]) -> Event<'a>
        requires { self.band ≢ Band.Fatal }
        ensures { Shows self.band bytes.now result }
    {
        match self.band {
            Band::Pack => Event::Pack(bytes),
            Band::Progress => Event::Progress(bytes),
            Band::Fatal => unreachable!(),
        }
    }
}

/// The fetching side of a conversation, as in gitprotocol-v2(5). It returns the packets of the requests that it asks, reads what the server
/// sends from chunks of any size, and returns events. Its only buffer is that of its packet reader, and it takes no other memory: it keeps
/// a request until the last packet of it was pulled.
///
/// A program follows [`Client::pull`]: it sends the packets, reads if input is needed, and asks or leaves if it can.
#[derive(Drop)]
pub struct Client<A: Allocator + Copy> {
    pub(crate) reader: PacketReader,
    pub(crate) format: Format,
    // Whether the client takes the object format that the server advertises.
    pub(crate) of_any_format: bool,
    pub(crate) ending: Ending,
    // The name with which each request introduces the client, if the server names its own.
    pub(crate) agent: Agent,
    pub(crate) phase: Phase,
    pub(crate) caps: Caps,
    // The request whose packets have to be sent.
    pub(crate) request: Option<Request<A>>,
    // The contents of the last packet. Events borrow from it and from the reader's buffer.
    pub(crate) content: LineContent,
    ghost sound: { fault_in phase ≡ None → reader_fault_of reader ≡ None },
    ghost shut: { fault_in phase ≡ None → takes_packets phase ≡ false → is_open reader ≡ false },
    ghost gathers: { takes_bands phase ≡ false → passes_of reader ≡ false },
    ghost passes: { takes_bands phase ≡ true → MayPass reader },
    ghost has_unsent: { is_asking phase ≡ true → left_in phase request ≢ [] },
    ghost freed: { is_asking phase ≡ false → request ≡ None },
    ghost formats: { ForSome request (λ q. request_format q ≡ format) },
    ghost covered: { ForSome request (λ q. stored_of q ≤ kept_of q) },
    ghost within: { ForSome request (λ q. kept_of q ≤ limit_of q) },
}

impl<A: Allocator + Copy> Client<A> {
    ghost use Rattle.git_client.specs.Machine.Client.{content_last, Converses, History, nothing_yet, ReceivesOn, Feeds, events_of, EndsWithMessage};
    ghost use Rattle.git_client.specs.Machine.Client.{EndsWithoutMessage, fault_of, can_ask, wants_input, has_left, left_to_send, bytes_used, caps_of};
    ghost use Rattle.git_client.specs.Machine.Client.{is_of_any_format, phase_of, reader_of, Takes, Settles};
    ghost use Rattle.git_client.specs.Machine.Choosing.{may_choose};
    ghost use Rattle.git_client.specs.contracts.client.Client.{the_row};

    /// A client of this object format that names this library's own agent, before the first byte of the advertisement.
    pub fn new(format: Format, ending: Ending) -> Self
        ensures converses { Converses (terms_of format ending) nothing_yet result }
        ensures waits { wants_input result ≡ true }
        ensures credit { credit_of (reader_of result) ≡ 0 }
        ensures given { is_of_any_format result ≡ false }
    {
        Client::with_agent(Agent::own(), Some(format), ending)
    }

    /// A client that names this agent in each request to a server that names its own, before the first byte of the advertisement. With no
    /// object format it is of any format, as by [`Client::new_of_any_format`].
    pub fn with_agent(agent: Agent, format: Option<Format>, ending: Ending) -> Self
        ensures converses { Converses (terms_by agent (unwrap_or format Format.Sha1) ending) nothing_yet result }
        ensures waits { wants_input result ≡ true }
        ensures credit { credit_of (reader_of result) ≡ 0 }
        ensures any { is_of_any_format result ≡ is_none format }
    {
        Client {
            reader: PacketReader::new(),
            format: format.unwrap_or(Format::Sha1),
            of_any_format: format.is_none(),
            ending,
            agent,
            phase: Phase::Receiving(Expected::Version),
            caps: Caps::new(),
            request: None,
            content: LineContent::Nothing,
        }
    }

    /// Whether the client can ask a request or leave: after the advertisement, and after each response.
    pub fn can_ask(&self) -> bool
        ensures value { result ≡ can_ask self.now }
        ensures turn { (t : Terms) (h : History) → Converses t h self.now
            → IsTrue result ↔ ((fault_of self.now ≡ None) × (h.left ≡ false) × (turns_of h.events ≡ suc (length h.asked))) }
    {
        match self.phase {
            Phase::Ready => true,
            _ => false,
        }
    }

    /// Whether bytes of the server are expected: the client cannot ask, has neither left nor failed, and has no packet to send.
    pub fn wants_input(&self) -> bool
        ensures value { result ≡ wants_input self.now }
        ensures expected { IsTrue result ↔ ((can_ask self.now ≡ false) × (has_left self.now ≡ false) × (fault_of self.now ≡ None)
            × (left_to_send self.now ≡ [])) }
    {
        match self.phase {
            Phase::Receiving(_) => true,
            _ => false,
        }
    }

    /// The error that ended the conversation.
    pub(crate) fn fault(&self) -> Option<Fault>
        ensures { result ≡ fault_of self.now }
    {
        let Phase::Failed(fault) = self.phase else {
            return None;
        };
        Some(fault)
    }

    /// The number of bytes used.
    pub fn position(&self) -> u64
        ensures value { result ≡ bytes_used self.now }
        ensures stream { (t : Terms) (h : History) → Converses t h self.now → result ≡ length h.used }
    {
        self.reader.position()
    }

    /// The capabilities noted from the advertisement so far.
    pub fn caps(&self) -> Caps
        ensures value { result ≡ caps_of self.now }
        ensures noted { (t : Terms) (h : History) → Converses t h self.now → HasNoted t h.asked h.used result }
    {
        self.caps
    }

    /// The server's message with the error that ended the conversation: in an error packet the text after `ERR `, and in a fatal
    /// error of the packfile section the bytes after the band.
    pub fn message(&self) -> Option<&[u8]>
        ensures { (t : Terms) (h : History) → Converses t h self.now
            → MatchOption result (EndsWithoutMessage self.now) (λ message. EndsWithMessage t h.asked h.used message.now) }
    {
        let Phase::Failed(fault) = self.phase else {
            return None;
        };
        match fault.kind {
            Kind::RemoteError => error_message(text(self.payload())),
            Kind::RemoteFatal => self.payload().get(1..),
            _ => None,
        }
    }

    /// Reads on. It returns after one event, after the whole chunk, or at the first error. A client that does not
    /// wait for input uses nothing. Call it again with the bytes that it did not use.
    ///
    /// The bytes of the pack and of the progress are borrowed from the chunk: an event has all those of one packet that are in the
    /// chunk. The bytes of all other events are borrowed from the client.
    // Inlined into each loop that calls it, together with its own calls: a result that is returned is stored in parts and loaded whole, and a
    // load right after such a store is slow.
    #[inline(always)]
    pub fn feed<'a>(&'a mut self, chunk: &'a [u8], steps: &mut Steps) -> Received<'a>
        ensures* after { sem 𝓛 (Rests (the_row A.row A.Allocator) self.entry (λ new. Feeds self.old chunk.now result new
            × Pays result.used steps.old steps.new (credit_of (reader_of self.old)) (credit_of (reader_of new)))) }
        ensures used { result.used ≤ length chunk.now }
        ensures fits { all_parts_length (events_of result.got) ≤ longest_payload }
    {
        if let Phase::Failed(fault) = self.phase {
            return Received {
                used: 0,
                got: ReceivedGot::Failed(fault),
            };
        }
        if !self.wants_input() {
            return Received {
                used: 0,
                got: ReceivedGot::More,
            };
        }
        let step = self.advance(chunk, steps);
        match step.outcome {
            Outcome::Event => Received {
                used: step.used,
                got: ReceivedGot::Event(self.event()),
            },
            _ => step.arrived(chunk),
        }
    }

    /// One call of [`Client::feed`] that returns bytes of the pack or of the progress, if the packfile section is expected and the chunk
    /// begins with all of a packet that has some: a loop that tries this first reads a pack with fewer instructions. Otherwise nothing changes.
    #[inline(always)]
    pub fn pass_whole<'a>(&mut self, chunk: &'a [u8], steps: &mut Steps) -> Option<Received<'a>>
        ensures feeds { MatchOption result (self.new ≡ self.old) (λ received. Feeds self.old chunk.now received self.new) }
        ensures event { IfSome result (λ received. events_of received.got ≢ []) }
        ensures used { IfSome result (λ received. received.used ≤ length chunk.now) }
        ensures fits { IfSome result (λ received. all_parts_length (events_of received.got) ≤ longest_payload) }
        ensures chosen { IfSome result (λ received. may_choose self.old ≡ false) }
        ensures goes_on { IfSome result (λ received. can_ask self.new ≡ false) }
        ensures cost { MatchOption result (steps.new ≡ steps.old) (λ received.
            Pays received.used steps.old steps.new (credit_of (reader_of self.old)) (credit_of (reader_of self.new))) }
    {
        let Phase::Receiving(expected) = self.phase else {
            return None;
        };
        let Expected::Packfile = expected else {
            return None;
        };
        let Some(fed) = self.reader.pass_whole(chunk, steps) else {
            return None;
        };
        let BandGot::Part(band, bytes) = fed.got else {
            unreachable!()
        };
        let passed = Passed {
            band,
            count: bytes.len(),
        };
        let step = Advance {
            used: fed.used,
            outcome: Outcome::Passed(passed),
        };
        Some(step.arrived(chunk))
    }

    /// Ends the input although more was expected: the conversation is refused as truncated, at the end of
    /// its last whole packet.
    pub fn close(&mut self) -> Fault
        requires { wants_input self.old ≡ true }
        ensures carries { ReceivesOn self.old [] [] self.new }
        ensures announced { fault_of self.new ≡ Some result }
        ensures kind { result.kind ≡ Kind.Truncated }
        ensures offset { (t : Terms) (h : History) (given : List Given) (rest : List ℕ)
            → Converses t h self.old → Splits 0 h.used given rest → result.offset + length rest ≡ length h.used }
        ensures credit { credit_of (reader_of self.new) ≤ credit_of (reader_of self.old) }
    {
        let fault = match self.reader.close() {
            Ok(()) => Fault {
                kind: Kind::Truncated,
                offset: self.position(),
            },
            Err(fault) => fault,
        };
        self.phase = Phase::Failed(fault);
        fault
    }

    /// Uses bytes up to the first event or error, or all of them.
    #[inline(always)]
    fn advance(&mut self, chunk: &[u8], steps: &mut Steps) -> Advance
        requires { wants_input self.old ≡ true }
        ensures cost { Pays result.used steps.old steps.new (credit_of (reader_of self.old)) (credit_of (reader_of self.new)) }
        ensures used { result.used ≤ length chunk.now }
        ensures all { result.outcome ≡ Outcome.More → result.used ≡ length chunk.now }
        ensures takes { Takes self.old chunk.now result self.new }
    {
        let mut used = 0;
        while used < chunk.len() {
            let step = self.take(&chunk[used..], steps);
            used += step.used;
            match step.outcome {
                Outcome::More => {}
                outcome => return Advance { used, outcome },
            }
        }
        Advance {
            used,
            outcome: Outcome::More,
        }
    }

    /// Uses bytes up to the end of a packet, or all of them; in the packfile section up to the last bytes of the chunk that pass.
    #[inline(always)]
    fn take(&mut self, chunk: &[u8], steps: &mut Steps) -> Advance
        requires { wants_input self.old ≡ true }
        ensures cost { Pays result.used steps.old steps.new (credit_of (reader_of self.old)) (credit_of (reader_of self.new)) }
        ensures paid { result.outcome ≡ Outcome.More → result.used < length chunk.now
            → steps.new + credit_of (reader_of self.new) ≤ steps.old + credit_of (reader_of self.old) + 64 * result.used }
        ensures used { result.used ≤ length chunk.now }
        ensures takes { Takes self.old chunk.now result self.new }
    {
        let Phase::Receiving(expected) = self.phase else {
            unreachable!()
        };
        match expected {
            Expected::Packfile => self.take_band(chunk, steps),
            _ => self.take_packet(expected, chunk, steps),
        }
    }

    /// Uses bytes up to the end of a packet, or all of them.
    ///
    /// The bytes of a whole packet have paid for its steps.
    #[inline(never)]
    fn take_packet(&mut self, expected: Expected, chunk: &[u8], steps: &mut Steps) -> Advance
        requires arrives { phase_of self.old ≡ Phase.Receiving expected }
        requires no_band { expected ≢ Expected.Packfile }
        ensures cost { Pays result.used steps.old steps.new (credit_of (reader_of self.old)) (credit_of (reader_of self.new)) }
        ensures paid { result.outcome ≡ Outcome.More → result.used < length chunk.now
            → steps.new + credit_of (reader_of self.new) ≤ steps.old + credit_of (reader_of self.old) + 64 * result.used }
        ensures used { result.used ≤ length chunk.now }
        ensures takes { Takes self.old chunk.now result self.new }
    {
        steps.tick(1);
        let fed = self.reader.feed(chunk, steps);
        let used = fed.used;
        match fed.got {
            Got::More => Advance {
                used,
                outcome: Outcome::More,
            },
            Got::Packet(packet, offset) => {
                let judged = judge(
                    self.format,
                    self.ending,
                    expected,
                    &mut self.caps,
                    packet,
                    &mut self.content,
                    steps,
                );
                let outcome = self.settle(judged, offset);
                Advance { used, outcome }
            }
            Got::Failed(fault) => {
                self.phase = Phase::Failed(fault);
                Advance {
                    used,
                    outcome: Outcome::Failed(fault),
                }
            }
        }
    }

    /// Uses bytes of the packfile section: those that pass are returned as they come, and the contents of the last packet stay.
    #[inline(always)]
    fn take_band(&mut self, chunk: &[u8], steps: &mut Steps) -> Advance
        requires arrives { phase_of self.old ≡ Phase.Receiving Expected.Packfile }
        ensures cost { Pays result.used steps.old steps.new (credit_of (reader_of self.old)) (credit_of (reader_of self.new)) }
        ensures paid { result.outcome ≡ Outcome.More → result.used < length chunk.now
            → steps.new + credit_of (reader_of self.new) ≤ steps.old + credit_of (reader_of self.old) + 64 * result.used }
        ensures used { result.used ≤ length chunk.now }
        ensures takes { Takes self.old chunk.now result self.new }
    {
        steps.tick(1);
        let fed = self.reader.feed_band(chunk, steps);
        let used = fed.used;
        match fed.got {
            BandGot::More => Advance {
                used,
                outcome: Outcome::More,
            },
            BandGot::Part(band, bytes) => {
                let count = bytes.len();
                Advance {
                    used,
                    outcome: Outcome::Passed(Passed { band, count }),
                }
            }
            BandGot::Packet(packet, offset) => {
                let judged = judge(
                    self.format,
                    self.ending,
                    Expected::Packfile,
                    &mut self.caps,
                    packet,
                    &mut self.content,
                    steps,
                );
                let outcome = self.settle(judged, offset);
                Advance { used, outcome }
            }
            BandGot::Failed(fault) => {
                self.phase = Phase::Failed(fault);
                Advance {
                    used,
                    outcome: Outcome::Failed(fault),
                }
            }
        }
    }

    /// Goes on after a packet that was judged. The contents of the packet are in the client.
    fn settle(&mut self, judged: Result<Turn, Kind>, offset: u64) -> Outcome
        requires whole { is_open (reader_of self.old) ≡ false }
        requires sound { reader_fault_of (reader_of self.old) ≡ None }
        requires content { is_asking (phase_of self.old) ≡ false }
        ensures { Settles self.old judged offset result self.new }
    {
        match judged {
            Ok(turn) => {
                self.phase = turn.phase();
                match self.content {
                    LineContent::Nothing => Outcome::More,
                    _ => Outcome::Event,
                }
            }
            Err(kind) => self.fail(kind, offset),
        }
    }

    /// Ends the conversation: the packet at this offset is refused.
    fn fail(&mut self, kind: Kind, offset: u64) -> Outcome
        requires whole { is_open (reader_of self.old) ≡ false }
        requires content { is_asking (phase_of self.old) ≡ false }
        ensures { Settles self.old (Err kind) offset result self.new }
    {
        let fault = Fault { kind, offset };
        self.phase = Phase::Failed(fault);
        Outcome::Failed(fault)
    }

    /// The event for the contents of the last packet.
    #[inline(always)]
    fn event(&self) -> Event<'_>
        requires something { content_last self.now ≢ LineContent.Nothing }
        requires fits { Fits (content_last self.now) (drop 4 (held_of (reader_of self.now))) }
        ensures values { values_of result ≡ events_at (content_last self.now) (drop 4 (held_of (reader_of self.now))) }
        ensures lent { IsLent result }
    {
        let payload = self.payload();
        match &self.content {
            LineContent::Nothing => unreachable!(),
            LineContent::Capability(places) => Event::Capability(capability(places, text(payload))),
            LineContent::Offered => Event::Offered,
            LineContent::Reference(places) => reference(places, text(payload)),
            LineContent::Section(section) => Event::Section(*section),
            LineContent::Ack(id) => Event::Ack(id),
            LineContent::Nak => Event::Nak,
            LineContent::Ready => Event::Ready,
            LineContent::Shallow(id) => Event::Shallow(id),
            LineContent::Unshallow(id) => Event::Unshallow(id),
            LineContent::WantedRef(id) => wanted(id, text(payload)),
            LineContent::Info(info) => Event::Info {
                id: &info.id,
                size: info.size,
            },
            LineContent::Ended => Event::Ended,
        }
    }

    /// The bytes in the buffer after the four digits of a packet.
    fn payload(&self) -> &[u8]
        ensures { result.now ≡ drop 4 (held_of (reader_of self.now)) }
    {
        let held = self.reader.hold().as_slice();
        &held[4.min(held.len())..]
    }
}

/// The capability with its parts at these places in the line.
fn capability<'a>(places: &CapabilityPlaces, line: &'a [u8]) -> Capability<'a>
    requires { LiesIn places.now line.now }
    ensures { capability_value result ≡ capability (take places.now.key_length line.now) (value_at places.now line.now) }
{
    let value = if places.has_value {
        Some(&line[places.key_length + 1..])
    } else {
        None
    };
    Capability {
        key: &line[..places.key_length],
        value,
    }
}

/// The reference with its parts at these places in the line.
fn reference<'a>(places: &'a ReferencePlaces, line: &'a [u8]) -> Event<'a>
    requires { FitsIn places.now (length line.now) }
    ensures values { values_of result ≡ reference (reference_at places.now line.now) ∷ [] }
    ensures lent { IsLent result }
{
    let reference = places.reference(line);
    Event::Reference {
        id: places.id.as_ref(),
        name: reference.name,
        target: reference.target,
        peeled: places.peeled.as_ref(),
    }
}

/// The wanted reference that points to this object: its name is everything after the object's name and a space.
fn wanted<'a>(id: &'a Oid, line: &'a [u8]) -> Event<'a>
    requires { digits_of id.now.format < length line.now }
    ensures values { values_of result ≡ wanted_ref (wanted_at id.now line.now) ∷ [] }
    ensures lent { IsLent result }
{
    Event::WantedRef {
        id,
        name: &line[id.format().digits() + 1..],
    }
}
