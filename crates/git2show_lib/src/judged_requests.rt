//! Requests of another client, read from bytes that come in chunks, against all that its server advertised.

ghost use Rattle.std.specs.Prelude.{◌≡◌, ◌≢◌, ◌<◌, ◌≤◌, [], length, true, false};
ghost use Rattle.git_pkt.specs.Packets.{seen};
ghost use Rattle.git2show_lib.specs.Others.{names_other};
ghost use Rattle.git2show_lib.specs.Machine.JudgedRequests.{got_as, got_passed, kept_brought, limited_got, noted_brought, noted_passed, place_brought};
ghost use Rattle.git2show_lib.specs.Machine.JudgedRequests.{stage_brought, stage_passed};
ghost use Rattle.git2show_lib.specs.Machine.KeptLines.{noted_in};

use crate::other_lines::OtherLines;
use crate::others::{Place, counted, judged_packet, names_other};
use git_msg::{AdmitsAll, Limits, Offer, ReadGot, Request, RequestReader};
use git_names::Steps;
use git_pkt::{Fault, Got, Kind, Packet, PacketReader};
use std::alloc::Allocator;

/// How far a reader of requests has come.
#[derive(Clone, Copy, Debug)]
enum Stage {
    /// Before the first packet of a request.
    Between,
    /// After a packet of a request, and before its flush.
    Within,
    /// The same of a request for a command that is not known.
    Passing,
    /// After a flush with nothing before it.
    Stopped,
    Failed(Fault),
}

/// A request, with what it has that is not known.
#[derive(Drop)]
pub(crate) struct Judged<A: Allocator + Copy> {
    /// The request.
    pub(crate) request: Request<A>,
    /// What is not known.
    pub(crate) others: OtherLines<A>,
}

/// What came of some bytes of a chunk.
#[derive(Drop)]
pub(crate) struct JudgedRead<A: Allocator + Copy> {
    /// How many bytes of the chunk were used.
    pub(crate) used: usize,
    /// What they brought.
    pub(crate) got: JudgedGot<A>,
}

/// What the bytes used brought.
#[derive(Drop)]
pub(crate) enum JudgedGot<A: Allocator + Copy> {
    /// Nothing whole yet: all of the chunk was used.
    More,
    /// A whole request.
    Request(Judged<A>),
    /// A whole request for a command that is not known, and was advertised, with its lines.
    Other(OtherLines<A>),
    /// A flush with nothing before it: the other end leaves. Nothing after it is read.
    Stop,
    /// The first fault of the bytes.
    Failed(Fault),
}

impl<A: Allocator + Copy> JudgedRead<A> {
    /// Bytes that brought nothing whole.
    fn more(used: usize) -> JudgedRead<A>
        ensures { result ≡ record { used = used; got = JudgedGot.More } }
    {
        JudgedRead {
            used,
            got: JudgedGot::More,
        }
    }
}

/// Reads requests, gitprotocol-v2(5), against what was offered, and takes what else was advertised as it comes.
#[derive(Drop)]
pub(crate) struct JudgedRequests<A: Allocator + Copy> {
    packets: PacketReader,
    judge: RequestJudge<A>,
}

impl<A: Allocator + Copy> JudgedRequests<A> {
    ghost use Rattle.git2show_lib.specs.Machine.JudgedRequests.{Closes, Feeds, HasRead, IsReady, Steps as StepsTo, advertised_by, is_between, is_within_packet};
    ghost use Rattle.git2show_lib.specs.Machine.JudgedRequests.{limit_of};

    /// A reader before the first byte.
    pub(crate) fn new(
        alloc: A,
        offer: Offer,
        advertised: Vec<u8, A>,
        limits: Limits,
    ) -> JudgedRequests<A>
        ensures reads { HasRead [] [] result }
        ensures ready { IsReady result }
        ensures between { is_between result ≡ true }
        ensures shut { is_within_packet result ≡ false }
        ensures advertised { advertised_by result ≡ record { offer = offer; text = advertised.items } }
        ensures limit { limit_of result ≡ limits.args }
    {
        JudgedRequests {
            packets: PacketReader::new(),
            judge: RequestJudge {
                alloc,
                offer,
                advertised,
                limits,
                requests: RequestReader::new(alloc, offer, limits),
                place: Place::first(),
                stage: Stage::Between,
                kept: 0,
                others: OtherLines::new(alloc),
            },
        }
    }

    /// Reads on. It returns after a whole request, at a flush instead of one, with the whole chunk used, or at the first
    /// fault. Call it again with the bytes that it did not use.
    pub(crate) fn feed(&mut self, chunk: &[u8]) -> JudgedRead<A>
        requires { IsReady self.old }
        ensures used { result.used ≤ length chunk.now }
        ensures feeds { Feeds self.old chunk.now result self.new }
    {
        let mut used = 0;
        while used < chunk.len() {
            let step = self.step(&chunk[used..]);
            used += step.used;
            match step.got {
                JudgedGot::More => {}
                got => return JudgedRead { used, got },
            }
        }
        JudgedRead::more(used)
    }

    /// The input ends here, where more could come. Between two requests that is well; inside one it is refused as
    /// truncated, at the end of the last whole packet.
    pub(crate) fn close(&mut self) -> Result<(), Fault>
        requires { IsReady self.old }
        ensures { Closes result self.old self.new }
    {
        if let Err(fault) = self.packets.close() {
            self.judge.stage = Stage::Failed(fault);
            return Err(fault);
        }
        if let Stage::Between = self.judge.stage {
            return Ok(());
        }
        let fault = Fault {
            kind: Kind::Truncated,
            offset: self.packets.position(),
        };
        self.judge.stage = Stage::Failed(fault);
        Err(fault)
    }

    /// Uses bytes up to the end of a packet, or all of them.
    fn step(&mut self, chunk: &[u8]) -> JudgedRead<A>
        requires ready { IsReady self.old }
        requires some { 0 < length chunk.now }
        ensures used { result.used ≤ length chunk.now }
        ensures steps { StepsTo self.old chunk.now result self.new }
    {
        let fed = self.packets.feed(chunk, &mut Steps::new());
        let used = fed.used;
        match fed.got {
            Got::More => JudgedRead::more(used),
            Got::Failed(fault) => {
                self.judge.stage = Stage::Failed(fault);
                JudgedRead {
                    used,
                    got: JudgedGot::Failed(fault),
                }
            }
            Got::Packet(packet, offset) => {
                let got = self.judge.take(packet, offset);
                JudgedRead { used, got }
            }
        }
    }
}

/// Takes the packets of requests.
#[derive(Drop)]
struct RequestJudge<A: Allocator + Copy> {
    alloc: A,
    offer: Offer,
    // The lines of the advertisement that have something which is not known, each with an LF after it.
    advertised: Vec<u8, A>,
    limits: Limits,
    requests: RequestReader<A>,
    place: Place,
    stage: Stage,
    // How many bytes count as kept of the request that has begun, within the limit.
    kept: u64,
    // What it has so far that is not known.
    others: OtherLines<A>,
}

impl<A: Allocator + Copy> RequestJudge<A> {
    ghost use Rattle.git2show_lib.specs.Machine.JudgedRequests.{IsJudging, TakesPacket};

    /// Takes a packet of a request.
    fn take(&mut self, packet: Packet<'_>, offset: u64) -> JudgedGot<A>
        requires { IsJudging self.old }
        ensures { TakesPacket self.old (record { packet = seen packet.entry; offset = offset }) result self.new }
    {
        if let Stage::Passing = self.stage {
            self.stage = stage_passed(packet);
            return got_passed(packet, &mut self.others);
        }
        if names_other(&self.advertised, self.place, packet) {
            return self.take_name(packet, offset);
        }
        self.take_line(packet, offset)
    }

    /// Takes the line that names a command which is not known: from here on the request passes.
    fn take_name(&mut self, packet: Packet<'_>, offset: u64) -> JudgedGot<A>
        requires judging { IsJudging self.old }
        requires lines { self.old.stage ≢ Stage.Passing }
        requires names { names_other self.old.advertised.items self.old.place (seen packet) ≡ true }
        ensures { TakesPacket self.old (record { packet = seen packet.entry; offset = offset }) result self.new }
    {
        if self.others.keep_name(packet).is_err() {
            return self.fail(Kind::OutOfMemory, offset);
        }
        self.requests = RequestReader::new(self.alloc, self.offer, self.limits);
        self.place = Place::first();
        self.kept = 0;
        self.stage = Stage::Passing;
        JudgedGot::More
    }

    /// Takes any other packet of a request that does not pass.
    fn take_line(&mut self, packet: Packet<'_>, offset: u64) -> JudgedGot<A>
        requires judging { IsJudging self.old }
        requires lines { self.old.stage ≢ Stage.Passing }
        requires unnamed { names_other self.old.advertised.items self.old.place (seen packet) ≡ false }
        ensures { TakesPacket self.old (record { packet = seen packet.entry; offset = offset }) result self.new }
    {
        let more = counted(&self.advertised, self.place, packet) as u64;
        let kept = self.kept.saturating_add(more);
        let limit = self.limits.args;
        let refused = self
            .others
            .keep_within(&self.advertised, self.place, packet, kept, limit);
        let next = self.place.after(packet);
        let Some(judged) = judged_packet(&self.advertised, self.place, packet) else {
            if let Some(kind) = refused {
                return self.fail(kind, offset);
            }
            self.place = next;
            self.kept = kept;
            return JudgedGot::More;
        };
        let taken = self
            .requests
            .take(&AdmitsAll, judged, offset, &mut Steps::new());
        let got = limited(taken, refused, offset);
        self.place = place_brought(&got, next);
        self.kept = kept_brought(&got, kept);
        self.stage = stage_after(&got);
        judged_got(got, &mut self.others)
    }

    /// Ends the reading at the packet at this offset.
    fn fail(&mut self, kind: Kind, offset: u64) -> JudgedGot<A>
        ensures got { result ≡ JudgedGot.Failed (record { kind = kind; offset = offset }) }
        ensures failed { self.new ≡ record self.old { stage = Stage.Failed (record { kind = kind; offset = offset }) } }
    {
        let fault = fault_at(kind, offset);
        self.stage = Stage::Failed(fault);
        JudgedGot::Failed(fault)
    }
}

/// The fault of a packet.
fn fault_at(kind: Kind, offset: u64) -> Fault
    ensures { result ≡ record { kind = kind; offset = offset } }
{
    Fault { kind, offset }
}

/// What a packet brought, unless it can't be kept, which comes after all else that refuses it.
fn limited<A: Allocator + Copy>(got: ReadGot<A>, refused: Option<Kind>, offset: u64) -> ReadGot<A>
    ensures { result ≡ limited_got refused offset got }
{
    let Some(kind) = refused else {
        return got;
    };
    match got {
        ReadGot::More | ReadGot::Request(_) => ReadGot::Failed(fault_at(kind, offset)),
        got => got,
    }
}

/// How many bytes count as kept after a packet that brought this: so many where the request goes on.
fn kept_brought<A: Allocator + Copy>(got: &ReadGot<A>, kept: u64) -> u64
    ensures { result ≡ kept_brought got.now kept }
{
    match got {
        ReadGot::Request(_) => 0,
        _ => kept,
    }
}

/// The stage of the reader after a packet that brought this.
fn stage_after<A: Allocator + Copy>(got: &ReadGot<A>) -> Stage
    ensures { result ≡ stage_brought got.now }
{
    match got {
        ReadGot::More => Stage::Within,
        ReadGot::Request(_) => Stage::Between,
        ReadGot::Stop => Stage::Stopped,
        ReadGot::Failed(fault) => Stage::Failed(*fault),
    }
}

/// Where the next packet is, after one that brought this: at `next` where the request goes on.
fn place_brought<A: Allocator + Copy>(got: &ReadGot<A>, next: Place) -> Place
    ensures { result ≡ place_brought got.now next }
{
    match got {
        ReadGot::Request(_) => Place::first(),
        _ => next,
    }
}

/// What a packet of a request brought. What was noted of the request goes with it.
fn judged_got<A: Allocator + Copy>(got: ReadGot<A>, others: &mut OtherLines<A>) -> JudgedGot<A>
    ensures got { result ≡ got_as got others.old }
    ensures noted { noted_in others.new ≡ noted_brought got (noted_in others.old) }
{
    match got {
        ReadGot::More => JudgedGot::More,
        ReadGot::Request(request) => {
            let others = others.take();
            JudgedGot::Request(Judged { request, others })
        }
        ReadGot::Stop => JudgedGot::Stop,
        ReadGot::Failed(fault) => JudgedGot::Failed(fault),
    }
}

/// The stage after a packet of a request that passes, which goes up to its flush.
fn stage_passed(packet: Packet<'_>) -> Stage
    ensures { result ≡ stage_passed (seen packet.entry) }
{
    match packet {
        Packet::Flush => Stage::Between,
        _ => Stage::Passing,
    }
}

/// And what it brought. The line of the request goes with its flush.
fn got_passed<A: Allocator + Copy>(packet: Packet<'_>, others: &mut OtherLines<A>) -> JudgedGot<A>
    ensures got { result ≡ got_passed (seen packet.entry) others.old }
    ensures noted { noted_in others.new ≡ noted_passed (seen packet.entry) (noted_in others.old) }
{
    match packet {
        Packet::Flush => JudgedGot::Other(others.take()),
        _ => JudgedGot::More,
    }
}
