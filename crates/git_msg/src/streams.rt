//! Requests, read from bytes that come in chunks.

ghost use Rattle.std.specs.Prelude.{◌≡◌, ◌<◌, ◌≤◌, ◌+◌, ◌*◌, [], None, true, false, length};
ghost use Rattle.git_pkt.specs.Machine.Credit.{Pays};
ghost use Rattle.git_pkt.specs.Machine.PacketReader.{passes_of, fault_of as packet_fault};
ghost use Rattle.git_msg.specs.Machine.RequestReader.{fault_of as reader_fault, kept_so_far, limit_in};
ghost use Rattle.git_msg.specs.Machine.StreamStages.{HasTaken, stage_brought, takes_bytes};

use crate::admits::AdmitsAll;
use crate::limits::Limits;
use crate::memory::Memory;
use crate::offers::Offer;
use crate::reader::{ReadGot, RequestReader};
use git_names::Steps;
use git_pkt::{Fault, Got, Hold, Kind, PacketReader};
use std::alloc::Allocator;

/// How far a reader of requests has come.
#[derive(Clone, Copy, Debug)]
enum Stage {
    /// Before the first packet of a request.
    Between,
    /// After a packet of a request, and before its flush.
    Within,
    /// After a flush with nothing before it.
    Stopped,
    Failed(Fault),
}

/// The result of reading some bytes of a chunk.
#[derive(Drop)]
pub struct ReadRequest<A: Allocator + Copy> {
    /// How many bytes of the chunk were used.
    pub used: usize,
    /// The result of reading them.
    pub got: ReadGot<A>,
}

/// Reads requests, as in gitprotocol-v2(5), from chunks of any size, against what was advertised. It keeps each argument as
/// it comes, within the limit.
#[derive(Drop)]
pub struct RequestStream<A: Allocator + Copy> {
    packets: PacketReader,
    requests: RequestReader<A>,
    stage: Stage,
    ghost sound: { takes_bytes stage ≡ true → packet_fault packets ≡ None },
    ghost open_ended: { takes_bytes stage ≡ true → reader_fault requests ≡ None },
    ghost gathers: { passes_of packets ≡ false },
    ghost taken: { takes_bytes stage ≡ true → ∥ HasTaken requests ∥₁ },
}

impl<A: Allocator + Copy> RequestStream<A> {
    ghost use denote.Param.{number};
    ghost use Rattle.std.specs.Borrow.{LendsSo, sem, u8, unit};
    ghost use Rattle.std.specs.Prelude.{◌↔◌, IfNone, IfSome, IsSome, OnSome};
    ghost use Rattle.arrayvec.specs.contracts.array_vec.ArrayVec.{the_row as array_vec_row};
    ghost use Rattle.git_msg.specs.contracts.streams.RequestStream.{the_row};
    ghost use Rattle.git_msg.specs.Machine.RequestStreams.{HasRead, Closes, wants_input, offer_of, limit_of, bytes_used};
    ghost use Rattle.git_msg.specs.Machine.RequestStreams.{IsLent, IsUnlent, hold_of, is_within_packet};

    /// A reader before the first byte. It takes memory from `alloc` when an argument with a text or an object name comes.
    pub fn new(alloc: A, offer: Offer, limits: Limits) -> RequestStream<A>
        ensures reads { HasRead [] [] result }
        ensures waits { wants_input result ≡ true }
        ensures offer { offer_of result ≡ offer }
        ensures limit { limit_of result ≡ limits.args }
    {
        RequestStream {
            packets: PacketReader::new(),
            requests: RequestReader::new(alloc, offer, limits),
            stage: Stage::Between,
        }
    }

    /// The number of bytes used.
    pub fn position(&self) -> u64
        ensures { result ≡ bytes_used self.now }
    {
        self.packets.position()
    }

    /// Whether the reader reads on: no fault came, and no flush in place of a request.
    pub fn wants_input(&self) -> bool
        ensures { result ≡ wants_input self.now }
    {
        matches!(self.stage, Stage::Between | Stage::Within)
    }

    /// The input ends here, where more could come. Between two requests that is correct; inside one, the request is refused
    /// as truncated, at the end of the last whole packet.
    pub fn close(&mut self) -> Result<(), Fault>
        requires { wants_input self.old ≡ true }
        ensures { Closes result self.old self.new }
    {
        if let Err(fault) = self.packets.close() {
            self.stage = Stage::Failed(fault);
            return Err(fault);
        }
        if let Stage::Between = self.stage {
            return Ok(());
        }
        let fault = Fault {
            kind: Kind::Truncated,
            offset: self.packets.position(),
        };
        self.stage = Stage::Failed(fault);
        Err(fault)
    }

    /// Lends the buffer of one packet for writing; none while a packet is open, since its bytes mean nothing to the reader
    /// only between packets.
    pub fn lend(&mut self) -> Option<&mut Hold>
        ensures* lends { sem 𝓛 (LendsSo (the_row A.row A.Allocator) (array_vec_row u8 (number 65520) unit) self.entry result
            (λ new hold. OnSome result (IsLent self.old hold new)) (λ new. IfNone result (IsUnlent self.old new))) }
        ensures between { IsSome result ↔ (is_within_packet self.old ≡ false) }
        ensures value { IfSome result (λ hold. hold.now.items ≡ hold_of self.old) }
    {
        if self.packets.is_open() {
            return None;
        }
        Some(self.packets.lend())
    }

    /// The buffer of one packet: after a packet, that packet's bytes as they came; after it was lent, what was written there.
    pub fn hold(&self) -> &Hold
        ensures value { result.now.items ≡ hold_of self.now }
        ensures fits { length result.now.items ≤ 65520 }
    {
        self.packets.hold()
    }
}

impl<A: Memory + Copy> RequestStream<A> {
    ghost use Rattle.std.specs.Prelude.{◌⊎◌, IsSome};
    ghost use Rattle.git_msg.specs.Machine.RequestStreams.{Feeds, credit_of, fault_of, limit_of, wants_input};
    ghost use Rattle.git_msg.specs.Machine.RequestStreamSteps.{Steps as StepsTo};
    ghost use Rattle.git_msg.specs.Memory.{FaultNeedsRefusal};

    /// Reads on. It returns after a whole request, at a flush in place of one, when the whole chunk is used, or at the first
    /// fault. Call it again with the bytes that it did not use.
    pub fn feed(&mut self, chunk: &[u8], steps: &mut Steps) -> ReadRequest<A>
        ensures used { result.used ≤ length chunk.now }
        ensures feeds { Feeds self.old chunk.now result self.new }
        ensures moves { wants_input self.old ≡ true → 0 < length chunk.now → 0 < result.used ⊎ IsSome (fault_of self.new) }
        ensures cost { Pays result.used steps.old steps.new (credit_of self.old) (credit_of self.new) }

        // It reports `OutOfMemory` only if memory for a list was refused, and the list was to have no more bytes than the limit.
        ensures memory { FaultNeedsRefusal A.refuses (limit_of self.old) (fault_of self.old)
            → FaultNeedsRefusal A.refuses (limit_of self.old) (fault_of self.new) }
    {
        if let Stage::Failed(fault) = self.stage {
            return ReadRequest {
                used: 0,
                got: ReadGot::Failed(fault),
            };
        }
        let mut used = 0;
        while used < chunk.len() && self.wants_input() {
            let step = self.step(&chunk[used..], steps);
            used += step.used;
            match step.got {
                ReadGot::More => {}
                got => return ReadRequest { used, got },
            }
        }
        ReadRequest {
            used,
            got: ReadGot::More,
        }
    }

    /// Uses bytes up to the end of a packet, or all of them. If more is wanted after a packet, the packet's own bytes have
    /// paid for it.
    fn step(&mut self, chunk: &[u8], steps: &mut Steps) -> ReadRequest<A>
        requires waits { wants_input self.old ≡ true }
        requires some { 0 < length chunk.now }
        ensures used { result.used ≤ length chunk.now }
        ensures steps { StepsTo self.old chunk.now result self.new }
        ensures moves { 0 < result.used ⊎ IsSome (fault_of self.new) }
        ensures memory { FaultNeedsRefusal A.refuses (limit_of self.old) (fault_of self.new) }
        ensures cost { Pays result.used steps.old steps.new (credit_of self.old) (credit_of self.new) }
        ensures paid { wants_input self.new ≡ true → result.used < length chunk.now
            → steps.new + credit_of self.new ≤ steps.old + credit_of self.old + 64 * result.used }
    {
        steps.tick(1);
        // The buffer has at most the bytes of the longest packet.
        let _ = self.packets.hold();
        let fed = self.packets.feed(chunk, steps);
        let used = fed.used;
        match fed.got {
            Got::More => ReadRequest {
                used,
                got: ReadGot::More,
            },
            Got::Failed(fault) => {
                self.stage = Stage::Failed(fault);
                ReadRequest {
                    used,
                    got: ReadGot::Failed(fault),
                }
            }
            Got::Packet(packet, offset) => {
                let got = self.requests.take(&AdmitsAll, packet, offset, steps);
                self.stage = stage_after(&got);
                ReadRequest { used, got }
            }
        }
    }
}

/// The stage of the reader after a packet with this result.
fn stage_after<A: Allocator + Copy>(got: &ReadGot<A>) -> Stage
    ensures { result ≡ stage_brought got.now }
{
    match got {
        ReadGot::More => Stage::Within,
        ReadGot::Request(_) => Stage::Between,
        ReadGot::Stop => Stage::Stopped,
        ReadGot::Failed(fault) => Stage::Failed(*fault),
    }
}
