//! The server's side of a conversation, as a state machine: it takes bytes in chunks and returns packets.
//!
//! The phases of a session, and the calls that move it on:
//!
//! ```text
//!                pull: the flush            feed: the first packet
//!  Advertising ------------------> Between ------------------------> Within <--+ feed: one more
//!                                  |  ^  |                           |  |  |   |
//!      feed: a flush alone, close  |  |  |                           |  |  +---+
//!                  +---------------+  |  +-- feed: an error -+       |  |
//!                  v                  |                      v       |  | feed: the flush
//!                Ended         pull: the flush            Refusing <-+  |
//!                ^   ^                |                      |   feed, close: an error
//!                |   |                +------ Answering <----|----------+
//!                |   +-- pull: the pack is lost --+          |
//!                +-- pull: the error packet -----------------+
//!
//!  An error packet of the client leads to Ended at once. Each other pull gives a packet and stays; in Between and Within it asks for input.
//! ```

ghost use Rattle.std.specs.Prelude.{◌≡◌, true, false, None};
ghost use Rattle.git_pkt.specs.Machine.PacketReader.{is_open, passes_of};
ghost use Rattle.git_msg.specs.Machine.RequestReader.{fault_of};
ghost use Rattle.git_server.specs.Machine.Phases.{advertising_phase, lost_pack, outcome_in, has_unsent_in, phase_after, refusal_in, refused_by, turn_in};

use crate::admission::Admission;
use crate::advertisement::AdvertisementLine;
use crate::answer::{Answer, Answered};
use crate::late_repo::LateRepo;
use crate::outcome::Outcome;
use crate::refusal::write_error;
use crate::repo::Repo;
use git_msg::{Limits, Memory, Offer, ReadGot, RequestReader};
use git_names::Steps;
use git_pkt::{Fault, Got, Kind, PacketReader, front_packet};
use std::alloc::Allocator;
use std::io::Read;

/// The phase of a session.
enum Phase<A: Allocator + Copy> {
    // The advertisement has to be sent, from this line on.
    Advertising(AdvertisementLine),
    // Everything was sent, and no packet of another request has come.
    Between,
    // A request has begun.
    Within,
    // A whole request, whose flush was at this offset, is being answered.
    Answering(Answer<A>, u64),
    // This error has to be reported to the peer.
    Refusing(Fault),
    Ended(Outcome),
}

// By a call: a derived drop is written out, and proved, wherever a value goes out of scope.
impl<A: Allocator + Copy> Drop for Phase<A> {
    fn drop(self) {
        match self {
            Phase::Advertising(_line) => {}
            Phase::Between => {}
            Phase::Within => {}
            Phase::Answering(_answer, _flush) => {}
            Phase::Refusing(_fault) => {}
            Phase::Ended(_outcome) => {}
        }
    }
}

/// The server's side of a conversation: it reads requests and answers them from a repository, as in gitprotocol-v2(5).
#[derive(Drop)]
pub struct Server<R, A: Allocator + Copy> {
    reader: PacketReader,
    requests: RequestReader<A>,
    offer: Offer,
    repo: R,
    phase: Phase<A>,
    ghost sound: { outcome_in phase ≡ None → fault_of requests ≡ None },
    ghost between: { has_unsent_in phase ≡ true → is_open reader ≡ false },
    ghost gathers: { passes_of reader ≡ false },
}

/// The result of pulling from a server.
#[derive(Clone, Copy, Debug)]
pub enum Pulled<'a> {
    /// The bytes of one whole packet, which have to be sent to the client.
    Packet(&'a [u8]),
    /// Nothing, until more bytes are fed or the input is closed.
    NeedInput,
    /// The session ended with this outcome, and everything was pulled.
    Finished(Outcome),
}

/// The next action of a session.
#[derive(Clone, Copy, Debug)]
pub(crate) enum Turn {
    Packet,
    NeedInput,
    Finished(Outcome),
}

impl<R: Repo, A: Allocator + Copy> Server<R, A> {
    ghost use Rattle.std.specs.Prelude.{ℕ, List, ◌+◌, ◌*◌, ◌≤◌, ◌<◌, ◌⊎◌, ◌↔◌, [], length, take, IsTrue, IsSome, MatchBool};
    ghost use Rattle.std.specs.Borrow.{sem};
    ghost use Rattle.std.specs.Io.{StartsWith};
    ghost use Rattle.std.specs.Io.BufRead.{Rests};
    ghost use Rattle.git_server.specs.contracts.server.Server.{the_row};
    ghost use Rattle.git_pkt.specs.Machine.Credit.{Pays, credit_of};
    ghost use Rattle.git_pkt.specs.Fronts.{HasFront};
    ghost use Rattle.git_pkt.specs.Packets.{Pkt, Spells};
    ghost use Rattle.git_server.specs.Machine.Server.{IsFresh, Running, reader_of, repo_of, wants_input, outcome_of};
    ghost use Rattle.git_server.specs.Machine.LatePacks.{first_setting};
    ghost use Rattle.git_server.specs.Machine.ServerCalls.{Closes, ClosesUnread, FillsUnsent, Gives, Goes, GoesUnread, IsPulled, HasNoPackUnsent, AreUnsentNow};
    ghost use Rattle.git_server.specs.Machine.ServerCalls.{Pulls, RunsUnread, StopsInTime};
    ghost use Rattle.git_server.specs.Machine.WrittenPackets.{IsAtFront};
    ghost use Rattle.git_pkt.specs.Machine.PacketReader.{held_of};

    /// A server at the beginning of a session over this repository. It stores argument lines and server options of each request whose
    /// texts have at most `limits.args` bytes together, in memory from `alloc`. If `advertise` is set, it first sends the advertisement
    /// of the offer. The offer must have the repository's object format.
    pub fn new(alloc: A, repo: R, offer: Offer, limits: Limits, advertise: bool) -> Server<R, A>
        requires format { offer.format ≡ (R.state repo).answers.format }
        ensures running { Running R.state (first_setting R.state repo offer limits.args advertise) [] false [] result }
        ensures unread { RunsUnread R.state (first_setting R.state repo offer limits.args advertise) [] false [] result }
        ensures repo { repo_of result ≡ repo }
        ensures open_ended { outcome_of result ≡ None }
        ensures credit { credit_of (reader_of result) ≡ 0 }
    {
        if advertise {
            return Self::begin(
                alloc,
                repo,
                offer,
                limits,
                Phase::Advertising(AdvertisementLine::Version),
            );
        }
        Self::begin(alloc, repo, offer, limits, Phase::Between)
    }

    fn begin(alloc: A, repo: R, offer: Offer, limits: Limits, phase: Phase<A>) -> Server<R, A>
        requires open_ended { outcome_in phase ≡ None }
        ensures fresh { IsFresh repo offer limits.args phase result }
        ensures credit { credit_of (reader_of result) ≡ 0 }
    {
        Server {
            reader: PacketReader::new(),
            requests: RequestReader::new(alloc, offer, limits),
            offer,
            repo,
            phase,
        }
    }

    /// Ends the session, and returns the repository.
    pub fn into_repo(self) -> R
        ensures { result ≡ repo_of self }
    {
        let Server { repo, .. } = self;
        repo
    }

    /// Whether a pack is needed: the answer that has to be pulled has bytes of one, or may fail because there is none.
    pub fn wants_pack(&self) -> bool
        ensures { MatchBool result (¬ HasNoPackUnsent R.state self.now) (HasNoPackUnsent R.state self.now) }
    {
        match &self.phase {
            Phase::Answering(answer, _) => answer.has_pack(&self.repo),
            _ => false,
        }
    }

    /// Whether the server wants bytes: there is no outcome yet, and everything was pulled that has to be sent.
    pub fn wants_input(&self) -> bool
        ensures value { result ≡ wants_input self.now }
        ensures waits { IsTrue result ↔ ((outcome_of self.now ≡ None) × AreUnsentNow R.state self.now []) }
    {
        match self.phase {
            Phase::Between => true,
            Phase::Within => true,
            _ => false,
        }
    }

    /// The error that ended the session, if one did.
    pub fn fault(&self) -> Option<Fault>
        ensures { result ≡ refusal_in (outcome_of self.now) }
    {
        match self.phase {
            Phase::Refusing(fault) => Some(fault),
            Phase::Ended(Outcome::Refused(fault)) => Some(fault),
            _ => None,
        }
    }

    /// Ends the input. The server must want bytes. Between two requests the session ends well; inside a request
    /// it is refused as truncated, at the end of the last whole packet.
    pub fn close(&mut self)
        requires { wants_input self.old ≡ true }
        ensures closes { Closes R.state self.old self.new }
        ensures unread { ClosesUnread R.state self.old self.new }
        ensures credit { credit_of (reader_of self.new) ≤ credit_of (reader_of self.old) }
        ensures ended { IsSome (outcome_of self.new) }
    {
        let closed = self.reader.close();
        let _ = self.reader.hold();
        if let Err(fault) = closed {
            self.phase = refusal(fault);
            return;
        }
        if let Phase::Between = self.phase {
            self.phase = Phase::Ended(Outcome::Closed);
            return;
        }
        self.phase = refusal(Fault {
            kind: Kind::Truncated,
            offset: self.reader.position(),
        });
    }

    /// The next packet to be sent, or what to do in its place.
    ///
    /// No packet has more than 65,520 bytes. A packet of a pack has as many of its bytes as the repository returns for the 65,515 that fit
    /// into a packet, and is written only after they were read.
    pub fn pull(&mut self) -> Pulled<'_>
        ensures* after { sem 𝓛 (Rests (the_row R.row A.row A.Allocator) self.entry (λ new. Pulls R.state self.old result new)) }
        ensures full { FillsUnsent R.read_gives self.old (IsPulled result) }
    {
        match self.turn() {
            Turn::NeedInput => Pulled::NeedInput,
            Turn::Finished(outcome) => Pulled::Finished(outcome),
            Turn::Packet => {
                self.give();
                Pulled::Packet(self.packet())
            }
        }
    }

    /// Whether a packet has to be sent, and what to do if there is none.
    pub(crate) fn turn(&self) -> Turn
        ensures { result ≡ turn_in self.now.phase }
    {
        match self.phase {
            Phase::Between => Turn::NeedInput,
            Phase::Within => Turn::NeedInput,
            Phase::Ended(outcome) => Turn::Finished(outcome),
            _ => Turn::Packet,
        }
    }

    /// The packet at the front of the buffer.
    pub(crate) fn packet(&self) -> &[u8]
        requires { HasFront (held_of self.now.reader) }
        ensures front { (packet : Pkt) (bytes : List ℕ) → Spells packet bytes → StartsWith (held_of self.now.reader) bytes → result.now ≡ bytes }
        ensures fits { length result.now ≤ 65520 }
    {
        front_packet(self.reader.hold())
    }

    /// Puts the next packet that has to be sent at the front of the buffer.
    pub(crate) fn give(&mut self)
        requires { turn_in self.old.phase ≡ Turn.Packet }
        ensures gives { Gives R.state self.old self.new }
        ensures full { FillsUnsent R.read_gives self.old (IsAtFront self.new.reader) }
    {
        match &mut self.phase {
            Phase::Advertising(line) => {
                let line = *line;
                line.write(&self.offer, &mut self.reader);
                self.phase = advertising(line.next(&self.offer));
            }
            Phase::Answering(answer, flush) => {
                let flush = *flush;
                match answer.write(&mut self.repo, &mut self.reader) {
                    Answered::Part => {}
                    Answered::Whole => self.phase = Phase::Between,
                    Answered::Broken => self.phase = Phase::Ended(without_pack(flush)),
                }
            }
            Phase::Refusing(fault) => {
                let fault = *fault;
                write_error(&mut self.reader, fault);
                self.phase = Phase::Ended(Outcome::Refused(fault));
            }
            _ => unreachable!(),
        }
    }
}

impl<R: Repo, A: Memory + Copy> Server<R, A> {
    ghost use Rattle.std.specs.Prelude.{◌+◌, ◌*◌, ◌≤◌, ◌<◌, ◌⊎◌, [], length, take, IsSome, IsTrue};
    ghost use Rattle.git_pkt.specs.Machine.Credit.{Pays, credit_of};
    ghost use Rattle.git_server.specs.Machine.Server.{outcome_of, reader_of, wants_input};
    ghost use Rattle.git_server.specs.Machine.ServerCalls.{Goes, GoesUnread, KeepsToMemory, StopsInTime};

    /// Takes bytes of the input, and returns how many were used: all of them, or those up to the end of a request, a flush
    /// in place of a request, or an error. None is used while a packet waits to be pulled, nor after the session ended. An empty
    /// chunk changes nothing.
    pub fn feed(&mut self, chunk: &[u8], steps: &mut Steps) -> usize
        ensures used { result ≤ length chunk.now }
        ensures goes { Goes R.state (take result chunk.now) [] self.old self.new }
        ensures unread { GoesUnread R.state (take result chunk.now) [] self.old self.new }
        ensures whole { IsTrue (wants_input self.new) → result ≡ length chunk.now }
        ensures moves { wants_input self.old ≡ true → 0 < length chunk.now → 0 < result ⊎ IsSome (outcome_of self.new) }
        ensures in_time { StopsInTime R.state self.old result chunk.now (outcome_of self.new) }
        ensures stays { wants_input self.old ≡ false → (result ≡ 0) × (self.new ≡ self.old) }

        // The session ends for lack of memory only if memory for a list was refused that would have had no more bytes than the limit.
        ensures memory { KeepsToMemory R.state A.refuses self.old self.new }
        ensures nothing { length chunk.now ≡ 0 → (result ≡ 0) × (self.new ≡ self.old) }
        ensures cost { Pays result steps.old steps.new (credit_of (reader_of self.old)) (credit_of (reader_of self.new)) }
    {
        let mut used = 0;
        while used < chunk.len() && self.wants_input() {
            used += self.step(&chunk[used..], steps);
        }
        used
    }

    // Uses one packet, or the whole chunk. If the server wants more after a packet, the bytes of the packet have paid for its steps.
    fn step(&mut self, chunk: &[u8], steps: &mut Steps) -> usize
        requires wants { wants_input self.old ≡ true }
        requires some { 0 < length chunk.now }
        ensures used { result ≤ length chunk.now }
        ensures goes { Goes R.state (take result chunk.now) [] self.old self.new }
        ensures unread { GoesUnread R.state (take result chunk.now) [] self.old self.new }
        ensures moves { 0 < result ⊎ IsSome (outcome_of self.new) }
        ensures goes_on { wants_input self.new ≡ true → 0 < result }
        ensures cost { Pays result steps.old steps.new (credit_of (reader_of self.old)) (credit_of (reader_of self.new)) }
        ensures paid { wants_input self.new ≡ true → result < length chunk.now
            → steps.new + credit_of (reader_of self.new) ≤ steps.old + credit_of (reader_of self.old) + 64 * result }
        ensures in_time { StopsInTime R.state self.old result chunk.now (outcome_of self.new) }
        ensures memory { KeepsToMemory R.state A.refuses self.old self.new }
    {
        steps.tick(1);
        let fed = self.reader.feed(chunk, steps);
        let used = fed.used;
        match fed.got {
            Got::More => used,
            Got::Packet(packet, offset) => {
                let admission = Admission { repo: &self.repo };
                let brought = self.requests.take(&admission, packet, offset, steps);
                self.phase = following(brought, offset);
                used
            }
            Got::Failed(fault) => {
                self.phase = refusal(fault);
                used
            }
        }
    }
}

impl<P: Read + Drop, A: Allocator + Copy> Server<LateRepo<P>, A> {
    ghost use Rattle.std.specs.Prelude.{ℕ, Bool, List, IfSome};
    ghost use Rattle.git_server.specs.Sessions.{Setting};
    ghost use Rattle.git_server.specs.Machine.LatePacks.{setting_with};
    ghost use Rattle.git_server.specs.Machine.LateRepo.{AreReadOf, SettlesPacks, has_packs, late_lists, late_state, pack_failed, unread_in};
    ghost use Rattle.git_server.specs.Machine.Server.{Running, outcome_of, repo_of, wants_input};
    ghost use Rattle.git_server.specs.Machine.ServerCalls.{RunsUnread};

    /// Reads the packs, unless that was tried before. Call it as soon as [`Server::wants_pack`] is true, before you pull a packet of that
    /// answer: up to there the server sends what it would send if it had the packs. If a read fails, or if memory for the bytes is refused,
    /// the packs are lost, and the server sends `PackSource` in place of a pack. An interrupted read is tried again.
    pub fn read_packs(&mut self)
        ensures runs { (s : Setting) (used : List ℕ) (over : Bool) (given : List ℕ) → RunsUnread late_state s used over given self.old
            → Running late_state (setting_with (late_state (repo_of self.new)).answers.pack s) used over given self.new }
        ensures settles { SettlesPacks (late_state (repo_of self.old)) (late_state (repo_of self.new)) }
        ensures read { IfSome (unread_in (repo_of self.old)) (λ packs. (has_packs (repo_of self.new) ≡ true
            → AreReadOf P.remaining packs (late_lists (repo_of self.new)))) }
        ensures lost { has_packs (repo_of self.new) ≡ false → pack_failed (repo_of self.new) ≡ true }
        ensures tried { unread_in (repo_of self.new) ≡ None }
        ensures again { unread_in (repo_of self.old) ≡ None → repo_of self.new ≡ repo_of self.old }
        ensures wants { wants_input self.new ≡ wants_input self.old }
        ensures outcome { outcome_of self.new ≡ outcome_of self.old }
    {
        self.repo.read_packs();
    }
}

// The phase after a packet at this offset.
fn following<A: Allocator + Copy>(brought: ReadGot<A>, offset: u64) -> Phase<A>
    ensures { result ≡ phase_after offset brought }
{
    match brought {
        ReadGot::More => Phase::Within,
        ReadGot::Request(request) => Phase::Answering(Answer::new(request), offset),
        ReadGot::Stop => Phase::Ended(Outcome::Flush),
        ReadGot::Failed(fault) => refusal(fault),
    }
}

// An error packet of the peer is not answered; any other error is reported.
fn refusal<A: Allocator + Copy>(fault: Fault) -> Phase<A>
    ensures { result ≡ refused_by fault.kind fault }
{
    match fault.kind {
        Kind::RemoteError => Phase::Ended(Outcome::Refused(fault)),
        _ => Phase::Refusing(fault),
    }
}

// The source of the pack failed for the request whose flush was at this offset.
fn without_pack(flush: u64) -> Outcome
    ensures { result ≡ lost_pack flush }
{
    Outcome::Refused(Fault {
        kind: Kind::PackSource,
        offset: flush,
    })
}

// The phase after a line of the advertisement.
fn advertising<A: Allocator + Copy>(next: Option<AdvertisementLine>) -> Phase<A>
    ensures { result ≡ advertising_phase next }
{
    match next {
        Some(line) => Phase::Advertising(line),
        None => Phase::Between,
    }
}
