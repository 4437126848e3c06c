//! A judge of a conversation as a machine: it is fed the bytes of both streams, and lends the lines of the transcript.
//!
//! ```text
//!  Opening -- the advertisement is whole --> Request
//!
//!  Request -- a request is asked ----------> Response --+
//!     |    -- one whose response is sieved -> Sieved ---+-- the response is whole --> Request
//!     |    -- a command that is not known --> Passing --+
//!     |
//!     +-- a flush instead of a request, or the end of the requests --> End -- the end of the responses --> Over
//!
//!  A fault leads from each turn to Over, and so does the end of a stream inside a message. In each turn lines may wait: they are taken before
//!  more bytes are used.
//! ```

ghost use Rattle.std.specs.Prelude.{◌≡◌, ◌≢◌, ◌⊎◌, ◌+◌, ◌∷◌, ◌≤◌, ◌<◌, [], ℕ, length, min, take, Err, IsSome, false, true};
ghost use Rattle.git_client.specs.Parts.{terms_of};
ghost use Rattle.git_client.specs.Machine.Client.{bytes_used};
ghost use Rattle.git_client.specs.Machine.RunSteps.{no_counts};
ghost use Rattle.git2show_lib.specs.Machine.CheckedStreams.{moved};
ghost use Rattle.git2show_lib.specs.Machine.CheckerTurns.{FitsTurn, FitsTurn-prop, IsSound, bytes_shown, one_sound, uses_no_more};
ghost use Rattle.git2show_lib.specs.declared.checking.CheckFault.TheVariants.{Responses};

use crate::checking::CheckFault;
use crate::judged_requests::{Judged, JudgedGot, JudgedRequests};
use crate::noting::Noting;
use crate::other_answers::{close, pass_chunk};
use crate::other_lines::OtherLines;
use crate::sieve::{Form, Sieve};
use git_client::{Client, Counts, Ending, GatheredLines, ask_unsent, gather_chunk};
use git_msg::Limits;
use git_names::{Format, Steps};
use git_pkt::{Fault, Got, Hold, Kind, PacketReader, put};
use std::alloc::Allocator;

/// A stream of a conversation.
#[derive(Clone, Copy, Debug, PartialEq, Eq)]
pub enum Stream {
    /// What the client sends.
    Requests,
    /// What the server sends.
    Responses,
}

/// What a checker needs next.
#[derive(Clone, Copy, Debug, PartialEq, Eq)]
pub enum Needed {
    /// That its lines are taken: it uses no bytes before.
    Lines,
    /// Bytes of this stream, or its end.
    Input(Stream),
    /// Nothing: it has a verdict.
    Nothing,
}

/// Where in the conversation a checker is.
#[derive(Clone, Copy, Debug)]
enum Turn {
    /// In the advertisement.
    Opening,
    /// Before a request, or in one.
    Request,
    /// In a response that comes as the client knows it.
    Response,
    /// In a response that is sieved, where the client had used so many bytes before.
    Sieved(u64),
    /// In the answer to a command that is not known.
    Passing,
    /// After the last request: nothing of the responses may be left.
    End,
    /// After the end, or a fault.
    Over(Result<(), CheckFault>),
}

/// Judges a conversation, as [`check`](crate::check) does over readers and a writer.
///
/// A program calls [`Checker::needed`]: it takes the lines, or feeds the stream that is needed. What a call did not use of a chunk has to be fed
/// again when that stream is needed next.
#[derive(Drop)]
pub struct Checker<A: Allocator + Copy> {
    alloc: A,
    format: Format,
    ending: Ending,
    limits: Limits,
    client: Client<A>,
    // The bytes of the pack and of the progress in the response so far.
    counts: Counts,
    noting: Noting<A>,
    requests: JudgedRequests<A>,
    // How many bytes of the responses passed by the client.
    passed: u64,
    // The packets of a response that passes or is sieved.
    packets: PacketReader,
    sieve: Sieve,
    // The packet that the sieve passed on last, how many bytes of it the client has received, and the offset of what it was.
    hold: Hold,
    received: usize,
    offset: u64,
    // The lines that wait: first these, and then those of a request that are not known.
    lines: GatheredLines,
    others: OtherLines<A>,
    turn: Turn,
    // Whether the advertisement is whole.
    opened: bool,
    requests_ended: bool,
    responses_ended: bool,
    ghost sound: { IsSound turn client noting requests packets received hold.items } by { one_sound turn client noting requests packets received hold.items },
    ghost fits: { FitsTurn turn opened requests_ended responses_ended } by { FitsTurn-prop turn opened requests_ended responses_ended },
}

impl<A: Allocator + Copy> Checker<A> {
    ghost use Rattle.git2show_lib.specs.Machine.Checker.{AsksOn, Carries, CarriesEnd, CarriesLines, Checks, PassesOn, StaysDone, StaysOpened};
    ghost use Rattle.git2show_lib.specs.Machine.Checker.{is_done_with, is_needed, lent_by, lines_left, needed_in, needed_of, nothing_fed};
    ghost use Rattle.git2show_lib.specs.Machine.Checker.{verdict_in, verdict_of, waiting_in};

    /// A checker before the first byte, of a conversation of this object format whose responses end so. Arguments are kept in memory from
    /// `alloc`, up to the limit for each request.
    pub fn new(alloc: A, format: Format, ending: Ending, limits: Limits) -> Checker<A>
        ensures { Checks (terms_of format ending) limits.args nothing_fed nothing_fed [] result }
    {
        let client = Client::new(format, ending);
        let offer = client.caps().offer(format);
        Checker {
            alloc,
            format,
            ending,
            limits,
            client,
            counts: no_counts(),
            noting: Noting::new(alloc),
            requests: JudgedRequests::new(alloc, offer, Vec::new(alloc), limits),
            passed: 0,
            packets: PacketReader::new(),
            sieve: Sieve::new(Form {
                format,
                uris: false,
                on_bands: false,
            }),
            hold: Hold::new(),
            received: 0,
            offset: 0,
            lines: GatheredLines::new(),
            others: OtherLines::new(alloc),
            turn: Turn::Opening,
            opened: false,
            requests_ended: false,
            responses_ended: false,
        }
    }

    /// What it needs next.
    pub fn needed(&self) -> Needed
        ensures { result ≡ needed_of self.now }
    {
        if !self.lines().is_empty() {
            return Needed::Lines;
        }
        match self.turn {
            Turn::Request => Needed::Input(Stream::Requests),
            Turn::Over(_) => Needed::Nothing,
            _ => Needed::Input(Stream::Responses),
        }
    }

    /// Whether it needs bytes of this stream, or its end.
    pub fn needs(&self, stream: Stream) -> bool
        ensures { result ≡ is_needed stream (needed_of self.now) }
    {
        match self.needed() {
            Needed::Input(Stream::Requests) => matches!(stream, Stream::Requests),
            Needed::Input(Stream::Responses) => matches!(stream, Stream::Responses),
            Needed::Lines | Needed::Nothing => false,
        }
    }

    /// The lines that wait, or the first of them: after [`Checker::lines_taken`] it may have more.
    pub fn lines(&self) -> &[u8]
        ensures { result.now ≡ lent_by self.now }
    {
        let gathered = self.lines.as_slice();
        if gathered.is_empty() {
            return self.others.lines();
        }
        gathered
    }

    /// Forgets the lines that [`Checker::lines`] lends.
    pub fn lines_taken(&mut self)
        ensures carries { CarriesLines self.old self.new }
        ensures fewer { lent_by self.old ≢ [] → lines_left self.new < lines_left self.old }
        ensures stays_opened { StaysOpened self.old self.new }
        ensures stays_done { StaysDone self.old self.new }
    {
        if self.lines.as_slice().is_empty() {
            self.others.forget();
        } else {
            self.lines.clear();
        }
        if !self.lines().is_empty() {
            return;
        }
        if let Turn::Sieved(start) = self.turn {
            self.pass_on(start);
        }
    }

    /// Uses bytes of a stream, if they are needed: up to where it needs something else, or all of them, or fewer, but some.
    pub fn feed(&mut self, from: Stream, chunk: &[u8]) -> usize
        ensures used { result ≤ length chunk.now }
        ensures carries { Carries from (take result chunk.now) self.old self.new }
        ensures stays_opened { StaysOpened self.old self.new }
        ensures stays_done { StaysDone self.old self.new }
        ensures moves { is_needed from (needed_of self.old) ≡ true → 0 < length chunk.now → (0 < result) ⊎ IsSome (verdict_of self.new) }
        ensures stays { is_needed from (needed_of self.old) ≡ false → (result ≡ 0) × (self.new ≡ self.old) }
    {
        if !self.needs(from) {
            return 0;
        }
        if chunk.is_empty() {
            return 0;
        }
        match self.turn {
            Turn::Opening => self.feed_opening(chunk),
            Turn::Request => self.feed_request(chunk),
            Turn::Response => self.feed_response(chunk),
            Turn::Sieved(start) => self.feed_sieved(start, chunk),
            Turn::Passing => self.feed_passing(chunk),
            Turn::End => self.feed_end(),
            Turn::Over(_) => 0,
        }
    }

    /// Ends a stream, if its bytes are needed. Where they are not, its end is yet to be fed, as bytes that were not used are.
    pub fn close(&mut self, from: Stream)
        ensures carries { is_needed from (needed_of self.old) ≡ true → CarriesEnd from self.old self.new }
        ensures stays_opened { StaysOpened self.old self.new }
        ensures stays_done { StaysDone self.old self.new }
        ensures ended { is_needed from (needed_of self.old) ≡ true → is_needed from (needed_of self.new) ≡ false }
        ensures done { is_needed from (needed_of self.old) ≡ true → is_done_with from self.new ≡ true }
        ensures stays { is_needed from (needed_of self.old) ≡ false → self.new ≡ self.old }
    {
        if !self.needs(from) {
            return;
        }
        match from {
            Stream::Requests => self.close_requests(),
            Stream::Responses => self.close_responses(),
        }
    }

    /// How the conversation was judged, once it is.
    pub fn verdict(&self) -> Option<Result<(), CheckFault>>
        ensures { result ≡ verdict_of self.now }
    {
        match self.turn {
            Turn::Over(result) => Some(result),
            _ => None,
        }
    }

    fn feed_opening(&mut self, chunk: &[u8]) -> usize
        requires turn { self.old.turn ≡ Turn.Opening }
        requires none_waits { waiting_in self.old ≡ [] }
        ensures used { result ≤ length chunk.now }
        ensures moves { 0 < length chunk.now → (0 < result) ⊎ IsSome (verdict_in self.new.turn) }
        ensures carries { Carries Stream.Responses (take result chunk.now) self.old self.new }
        ensures stays_opened { StaysOpened self.old self.new }
    {
        let gathered = gather_chunk(&mut self.client, &mut self.counts, chunk, &mut self.lines);
        if let Some(fault) = gathered.fault {
            self.turn = refused(fault, 0);
            return shown_by(fault, gathered.used, chunk);
        }
        self.noting.note(&chunk[..gathered.used]);
        if !self.client.can_ask() {
            return gathered.used;
        }
        match self.noting.take_text(self.alloc) {
            Ok(advertised) => {
                self.opened = true;
                let offer = self.client.caps().offer(self.format);
                self.requests = JudgedRequests::new(self.alloc, offer, advertised, self.limits);
                self.turn = Turn::Request;
                gathered.used
            }
            Err(kind) => {
                let offset = self.client.position();
                self.turn = refused(Fault { kind, offset }, 0);
                gathered.used
            }
        }
    }

    fn feed_request(&mut self, chunk: &[u8]) -> usize
        requires turn { self.old.turn ≡ Turn.Request }
        requires none_waits { waiting_in self.old ≡ [] }
        ensures used { result ≤ length chunk.now }
        ensures moves { 0 < length chunk.now → (0 < result) ⊎ IsSome (verdict_in self.new.turn) }
        ensures carries { Carries Stream.Requests (take result chunk.now) self.old self.new }
        ensures stays_opened { StaysOpened self.old self.new }
    {
        let read = self.requests.feed(chunk);
        let used = read.used;
        match read.got {
            JudgedGot::More => used,
            JudgedGot::Request(judged) => {
                self.ask(judged);
                used
            }
            JudgedGot::Other(others) => {
                self.others = others;
                self.packets = PacketReader::new();
                self.turn = Turn::Passing;
                used
            }
            JudgedGot::Stop => {
                self.turn = Turn::End;
                used
            }
            JudgedGot::Failed(fault) => {
                self.turn = Turn::Over(Err(CheckFault::Requests(fault)));
                shown_by(fault, used, chunk)
            }
        }
    }

    /// Asks a request, and has its lines wait.
    fn ask(&mut self, judged: Judged<A>)
        requires turn { self.old.turn ≡ Turn.Request }
        requires none_waits { waiting_in self.old ≡ [] }
        ensures asks { AsksOn judged self.old self.new }
        ensures stays_opened { StaysOpened self.old self.new }
    {
        let form = judged.others.form(self.format);
        let command = judged.request.command();
        let start = self.client.position();
        if let Err(fault) = ask_unsent(&mut self.client, judged.request) {
            self.turn = refused(fault, self.passed);
            return;
        }
        self.lines.put_asked(command);
        self.others = judged.others;
        self.counts = no_counts();
        match form {
            None => self.turn = Turn::Response,
            Some(form) => {
                self.sieve = Sieve::new(form);
                self.packets = PacketReader::new();
                self.hold.clear();
                self.received = 0;
                self.turn = Turn::Sieved(start);
            }
        }
    }

    fn feed_response(&mut self, chunk: &[u8]) -> usize
        requires turn { self.old.turn ≡ Turn.Response }
        requires none_waits { waiting_in self.old ≡ [] }
        ensures used { result ≤ length chunk.now }
        ensures moves { 0 < length chunk.now → (0 < result) ⊎ IsSome (verdict_in self.new.turn) }
        ensures carries { Carries Stream.Responses (take result chunk.now) self.old self.new }
        ensures stays_opened { StaysOpened self.old self.new }
    {
        let gathered = gather_chunk(&mut self.client, &mut self.counts, chunk, &mut self.lines);
        if let Some(fault) = gathered.fault {
            self.turn = refused(fault, self.passed);
            return shown_by(fault, gathered.used, chunk);
        }
        if self.client.can_ask() {
            self.turn = Turn::Request;
            return gathered.used;
        }
        gathered.used
    }

    /// Takes bytes up to the end of a packet, or all of them, and passes the packet on.
    fn feed_sieved(&mut self, start: u64, chunk: &[u8]) -> usize
        requires turn { self.old.turn ≡ Turn.Sieved start }
        requires none_waits { waiting_in self.old ≡ [] }
        ensures used { result ≤ length chunk.now }
        ensures moves { 0 < length chunk.now → (0 < result) ⊎ IsSome (verdict_in self.new.turn) }
        ensures carries { Carries Stream.Responses (take result chunk.now) self.old self.new }
        ensures stays_opened { StaysOpened self.old self.new }
    {
        let fed = self.packets.feed(chunk, &mut Steps::new());
        let used = fed.used;
        match fed.got {
            Got::More => used,
            Got::Failed(fault) => {
                self.turn = refused(fault, start.saturating_add(self.passed));
                shown_by(fault, used, chunk)
            }
            Got::Packet(packet, offset) => match self.sieve.take(packet) {
                Ok(None) => used,
                Ok(Some(packet)) => {
                    put(&mut self.hold, packet);
                    self.received = 0;
                    self.offset = offset;
                    self.pass_on(start);
                    used
                }
                Err(kind) => {
                    self.turn = refused(Fault { kind, offset }, start.saturating_add(self.passed));
                    used
                }
            },
        }
    }

    /// Has the client receive the rest of the packet that was passed on last, as far as there is space for its lines.
    fn pass_on(&mut self, start: u64)
        requires turn { self.old.turn ≡ Turn.Sieved start }
        requires none_waits { waiting_in self.old ≡ [] }
        ensures passes { PassesOn start self.old self.new }
        ensures no_more { lines_left self.new ≤ lines_left self.old }
        ensures stays_opened { StaysOpened self.old self.new }
    {
        let rest = &self.hold.as_slice()[self.received..];
        if rest.is_empty() {
            return;
        }
        let gathered = gather_chunk(&mut self.client, &mut self.counts, rest, &mut self.lines);
        self.received += gathered.used;
        if let Some(fault) = gathered.fault {
            let fault = Fault {
                kind: fault.kind,
                offset: self.offset,
            };
            self.turn = refused(fault, start.saturating_add(self.passed));
            return;
        }
        if self.client.can_ask() {
            let received = self.client.position().saturating_sub(start);
            let passed = self.packets.position().saturating_sub(received);
            self.passed = self.passed.saturating_add(passed);
            self.turn = Turn::Request;
        }
    }

    fn feed_passing(&mut self, chunk: &[u8]) -> usize
        requires turn { self.old.turn ≡ Turn.Passing }
        requires none_waits { waiting_in self.old ≡ [] }
        ensures used { result ≤ length chunk.now }
        ensures moves { 0 < length chunk.now → (0 < result) ⊎ IsSome (verdict_in self.new.turn) }
        ensures carries { Carries Stream.Responses (take result chunk.now) self.old self.new }
        ensures stays_opened { StaysOpened self.old self.new }
    {
        // It is asked for first: no invariant holds where the packets have failed.
        let place = self.place();
        match pass_chunk(&mut self.packets, self.ending, chunk) {
            Ok(Some(used)) => {
                self.passed = self.passed.saturating_add(self.packets.position());
                self.turn = Turn::Request;
                used
            }
            Ok(None) => chunk.len(),
            Err(fault) => {
                self.turn = refused(fault, place);
                chunk.len()
            }
        }
    }

    /// A byte is left over: it is the fault, and counts as used.
    fn feed_end(&mut self) -> usize
        requires turn { self.old.turn ≡ Turn.End }
        ensures used { result ≡ 1 }
        ensures over { IsSome (verdict_in self.new.turn) }
        ensures carries { (byte : ℕ) → Carries Stream.Responses (byte ∷ []) self.old self.new }
        ensures stays_opened { StaysOpened self.old self.new }
    {
        self.turn = Turn::Over(Err(CheckFault::Responses(Fault {
            kind: Kind::UnexpectedPacket,
            offset: self.place(),
        })));
        1
    }

    fn close_requests(&mut self)
        requires turn { self.old.turn ≡ Turn.Request }
        requires none_waits { waiting_in self.old ≡ [] }
        ensures carries { CarriesEnd Stream.Requests self.old self.new }
        ensures stays_opened { StaysOpened self.old self.new }
        ensures ended { is_needed Stream.Requests (needed_of self.new) ≡ false }
        ensures done { uses_no_more Stream.Requests self.new.turn ≡ true }
    {
        self.requests_ended = true;
        self.turn = match self.requests.close() {
            Ok(()) => Turn::End,
            Err(fault) => Turn::Over(Err(CheckFault::Requests(fault))),
        };
    }

    fn close_responses(&mut self)
        requires needs { needed_in self.old.turn ≡ Needed.Input Stream.Responses }
        requires none_waits { waiting_in self.old ≡ [] }
        ensures carries { CarriesEnd Stream.Responses self.old self.new }
        ensures stays_opened { StaysOpened self.old self.new }
        ensures ended { is_needed Stream.Responses (needed_of self.new) ≡ false }
        ensures over { IsSome (verdict_in self.new.turn) }
    {
        let place = self.place();
        self.responses_ended = true;
        match self.turn {
            Turn::Opening => self.turn = refused(self.client.close(), self.passed),
            Turn::Response => self.turn = refused(self.client.close(), self.passed),
            Turn::Sieved(start) => {
                let before = start.saturating_add(self.passed);
                self.turn = refused(close(&mut self.packets), before);
            }
            Turn::Passing => self.turn = refused(close(&mut self.packets), place),
            Turn::End => self.turn = Turn::Over(Ok(())),
            Turn::Request => {}
            Turn::Over(_) => {}
        }
    }

    /// How many bytes of the responses were used.
    fn place(&self) -> u64
        ensures { result ≡ min (bytes_used self.now.client + self.now.passed) 18446744073709551615 }
    {
        self.client.position().saturating_add(self.passed)
    }
}

/// The turn after a fault of the responses, whose offset counts what comes after so many bytes.
fn refused(fault: Fault, before: u64) -> Turn
    ensures { result ≡ Turn.Over (Err (Responses (moved before fault))) }
{
    let offset = fault.offset.saturating_add(before);
    Turn::Over(Err(CheckFault::Responses(Fault {
        kind: fault.kind,
        offset,
    })))
}

/// How many bytes of a chunk show the fault that was met after so many: a byte that is one too many is used, too.
fn shown_by(fault: Fault, used: usize, chunk: &[u8]) -> usize
    requires within { used ≤ length chunk.now }
    requires one_more { fault.kind ≡ Kind.StreamTooLong → used < length chunk.now }
    ensures shown { result ≡ bytes_shown fault.kind used }
    ensures within { result ≤ length chunk.now }
{
    match fault.kind {
        Kind::StreamTooLong => used + 1,
        _ => used,
    }
}

/// No bytes of a response.
fn no_counts() -> Counts
    ensures { result ≡ no_counts }
{
    Counts {
        pack: 0,
        progress: 0,
    }
}
