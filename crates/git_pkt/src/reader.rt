//! Packets from chunks of any size.
//!
//! The states of a reader, and what moves it on. `feed` goes up and down on the left alone; `feed_band` passes a packet's
//! bytes on the right, once the fifth byte has named a band whose bytes pass.
//!
//! ```text
//!              the first byte                     the fifth byte
//!  Between ---------------------> Gathering(count) ------------> Passing(left)
//!     ^  ^                          |   |                          |   |
//!     |  +--- the last byte --------+   +--> Failed(fault) <-------+   |
//!     |                                   a fault, or the end          |
//!     +---------------------------- the last byte ---------------------+
//!
//!  The hold:  Between           the last packet that was returned, or what a writer put there
//!             Gathering(count)  so many bytes of the open packet, and after them some of an earlier one
//!             Passing(left)     the first five bytes of the open packet
//! ```

ghost use Rattle.std.specs.Prelude.{◌≡◌, ◌≢◌, ◌+◌, ◌-◌, ◌*◌, ◌≤◌, ◌<◌, ◌∷◌, [], drop, length, take, true, false, Some, None, Err, IfErr, IfSome, MatchOption};
ghost use Rattle.std.specs.Prelude.{OnOk, IsTrue, ◌↔◌, ℕ, List};
ghost use Rattle.std.specs.Borrow.{sem};
ghost use Rattle.std.specs.Io.BufRead.{Rests};
ghost use Rattle.git_names.specs.Steps.{TakesAtMost};
ghost use Rattle.git_pkt.specs.Packets.{Spells, longest_payload, seen};
ghost use Rattle.git_pkt.specs.Splits.{Given};
ghost use Rattle.git_pkt.specs.declared.fault.Fault.{Fault};
ghost use Rattle.git_pkt.specs.Faults.{last_position};
ghost use Rattle.git_pkt.specs.Passed.{band_in, begins_band};
ghost use Rattle.git_pkt.specs.Machine.HeldPacket.{IsWhole, AnnouncesField};
ghost use Rattle.git_pkt.specs.Machine.ReaderState.{IsGathered, IsPassing, gathers_in, held_in, left_in, passes_in};
ghost use Rattle.git_pkt.specs.declared.fault.Kind.TheVariants.{Truncated};

use crate::band::{Band, band_of};
use crate::digits::{Digits, read_digits};
use crate::fault::{Fault, Kind};
use crate::hold::{Hold, LONGEST_PACKET, place};
use crate::packet::Packet;
use crate::progress::{BandProgress, BandStep, Passed, Progress, Step};
use git_names::{Steps, digit_value};

/// The last position of a stream.
const LAST_POSITION: u64 = 9_223_372_036_854_775_807;

/// The result of one call of [`PacketReader::feed`].
#[derive(Clone, Copy, Debug)]
pub struct Fed<'a> {
    /// How many bytes of the chunk were used.
    pub used: usize,
    /// The result of reading them.
    pub got: Got<'a>,
}

/// The result of reading the bytes used.
#[derive(Clone, Copy, Debug)]
pub enum Got<'a> {
    /// No packet is whole yet: the chunk was used up.
    More,
    /// A packet, and the offset of its first byte.
    Packet(Packet<'a>, u64),
    /// The stream is refused; the reader stays at this fault.
    Failed(Fault),
}

/// The result of one call of [`PacketReader::feed_band`].
#[derive(Clone, Copy, Debug)]
pub struct BandFed<'a> {
    /// How many bytes of the chunk were used.
    pub used: usize,
    /// The result of reading them.
    pub got: BandGot<'a>,
}

/// The result of reading the bytes used, in a section of side bands.
#[derive(Clone, Copy, Debug)]
pub enum BandGot<'a> {
    /// The chunk was used up.
    More,
    /// Bytes of the pack or of the progress, as they lie in the chunk: at least one, and all that the chunk has of their
    /// packet from there on.
    Part(Band, &'a [u8]),
    /// Any other packet, and the offset of its first byte.
    Packet(Packet<'a>, u64),
    /// The stream is refused; the reader stays at this fault.
    Failed(Fault),
}

/// How much a reader has of the current packet, or the fault that stopped it.
#[derive(Clone, Copy, Debug)]
pub(crate) enum State {
    /// No packet is open.
    Between,
    /// So many bytes of the open packet have come, and all of them are at the hold's front. The bytes after them are of an
    /// earlier packet.
    Gathering(usize),
    /// A packet whose bytes pass is open, and so many of its bytes are still to come. Its first five bytes are the hold;
    /// those that came after them were handed out.
    Passing(usize),
    /// The stream is refused.
    Failed(Fault),
}

/// Reads the packets of a stream that comes in chunks. It has one buffer, for one packet, and takes no other memory.
#[derive(Drop)]
pub struct PacketReader {
    hold: Hold,
    /// The offset of the next byte.
    position: u64,
    /// The number in the four digits of the packet in the hold, once they are there.
    field: usize,
    state: State,
    ghost within: { position ≤ last_position },
    ghost gathered: { gathers_in state ≡ true → IsGathered (held_in state) hold.items field position },
    ghost passing: { passes_in state ≡ true → IsPassing (left_in state) hold.items field position },
}

impl PacketReader {
    ghost use Rattle.git_pkt.specs.Machine.PacketReader.{Reads, ReadsOn, Feeds, Holds};
    ghost use Rattle.git_pkt.specs.Machine.PacketReader.{position_of, fault_of, rest_of, open_length, held_of, is_open, passes_of};
    ghost use Rattle.git_pkt.specs.Machine.BandReader.{BandMoves, FeedsBand, MayPass, ReadsBandsOn, part_of};
    ghost use Rattle.git_pkt.specs.contracts.reader.PacketReader.{the_row};
    ghost use Rattle.git_pkt.specs.Machine.LentHold.{LendsHold};
    ghost use Rattle.git_pkt.specs.Machine.PacketReaderSteps.{Moves, IsStopped, IsOfPacket, IsShown};

    /// A reader of a stream that starts at offset 0.
    pub fn new() -> Self
        ensures reads { Reads result 0 [] [] [] }
        ensures sound { fault_of result ≡ None }
        ensures empty { held_of result ≡ [] }
        ensures gathers { passes_of result ≡ false }
        ensures passes { MayPass result }
    {
        Self::at(0)
    }

    /// A reader of a stream whose first byte has this offset.
    pub fn at(offset: u64) -> Self
        requires { offset ≤ last_position }
        ensures reads { Reads result offset [] [] [] }
        ensures sound { fault_of result ≡ None }
        ensures empty { held_of result ≡ [] }
        ensures gathers { passes_of result ≡ false }
        ensures passes { MayPass result }
    {
        PacketReader {
            hold: Hold::new(),
            position: offset,
            field: 0,
            state: State::Between,
        }
    }

    /// The offset of the next byte.
    pub fn position(&self) -> u64
        ensures { result ≡ position_of self.now }
    {
        self.position
    }

    /// Reads on. It returns after one packet, or when the whole chunk is used, or at the first fault, which it reports with
    /// the byte that shows it. Call it again with the bytes that it did not use.
    #[inline(always)]
    pub fn feed<'a>(&'a mut self, chunk: &'a [u8], steps: &mut Steps) -> Fed<'a>
        requires gathers { passes_of self.old ≡ false }
        ensures* after { sem 𝓛 (Rests the_row self.entry (λ new. Feeds self.old chunk.now result new)) }
        ensures used { result.used ≤ length chunk.now }
        ensures cost { TakesAtMost (8 * (result.used + 1)) steps.old steps.new }
    {
        if let State::Failed(fault) = self.state {
            return Fed {
                used: 0,
                got: Got::Failed(fault),
            };
        }
        let step = self.step(chunk, steps);
        let _ = self.hold.len();
        match step.progress {
            Progress::Open => Fed {
                used: step.used,
                got: Got::More,
            },
            Progress::Failed(fault) => Fed {
                used: step.used,
                got: Got::Failed(fault),
            },
            Progress::Whole => {
                let offset = self.position - self.hold.len() as u64;
                Fed {
                    used: step.used,
                    got: Got::Packet(self.packet(), offset),
                }
            }
        }
    }

    /// Reads on in a section of side bands, as [`feed`](PacketReader::feed) does, except for bytes of the pack and of the
    /// progress: these pass as they come, and the hold has only the first five bytes of their packets. Such a packet with no
    /// byte on its band gives nothing. The call that began a packet reads it on.
    #[inline(always)]
    pub fn feed_band<'a>(&'a mut self, chunk: &'a [u8], steps: &mut Steps) -> BandFed<'a>
        requires passes { MayPass self.old }
        ensures* after { sem 𝓛 (Rests the_row self.entry (λ new. FeedsBand self.old chunk.now result new)) }
        ensures used { result.used ≤ length chunk.now }
        ensures cost { TakesAtMost (8 * (result.used + 1)) steps.old steps.new }
    {
        if let State::Failed(fault) = self.state {
            return BandFed {
                used: 0,
                got: BandGot::Failed(fault),
            };
        }
        let step = self.band_steps(chunk, steps);
        match step.progress {
            BandProgress::Whole => {
                let offset = self.position - self.hold.len() as u64;
                BandFed {
                    used: step.used,
                    got: BandGot::Packet(self.packet(), offset),
                }
            }
            _ => step.fed(chunk),
        }
    }

    /// One call of [`feed_band`](PacketReader::feed_band) that returns bytes of the pack or of the progress, if no packet is open and
    /// the chunk begins with all of a packet that has some. Otherwise nothing changes.
    #[inline(always)]
    pub fn pass_whole<'a>(&mut self, chunk: &'a [u8], steps: &mut Steps) -> Option<BandFed<'a>>
        requires passes { MayPass self.old }
        ensures feeds { MatchOption result (self.new ≡ self.old) (λ fed. FeedsBand self.old chunk.now fed self.new) }
        ensures part { IfSome result (λ fed. part_of fed.got ≢ []) }
        ensures used { IfSome result (λ fed. fed.used ≤ length chunk.now) }
        ensures cost { MatchOption result (steps.new ≡ steps.old) (λ fed. TakesAtMost (8 * (fed.used + 1)) steps.old steps.new) }
    {
        let State::Between = self.state else {
            return None;
        };
        let Some(part) = self.pass_at_once(chunk, steps) else {
            return None;
        };
        Some(BandStep::of_part(part).fed(chunk))
    }

    /// The stream ends here. Between packets that is correct and changes nothing. If a packet is open, the stream is refused
    /// as truncated, at the end of its last whole packet.
    pub fn close(&mut self) -> Result<(), Fault>
        ensures carries { ReadsOn self.old [] [] self.new }
        ensures held { held_of self.new ≡ held_of self.old }
        ensures gathers { passes_of self.new ≡ false }
        ensures passes { MayPass self.new }
        ensures between { OnOk result ((self.new ≡ self.old) × (fault_of self.old ≡ None) × (is_open self.old ≡ false)) }
        ensures announced { IfErr result (λ f. fault_of self.new ≡ Some f) }
        ensures repeats { (f : Fault) → fault_of self.old ≡ Some f → (result ≡ Err f) × (self.new ≡ self.old) }
        ensures truncated { fault_of self.old ≡ None → IfErr result (λ f.
            (is_open self.old ≡ true) × (f.kind ≡ Truncated) × (f.offset + open_length self.old ≡ position_of self.old)) }
    {
        if let State::Failed(fault) = self.state {
            return Err(fault);
        }
        if !self.is_open() {
            return Ok(());
        }
        let fault = Fault {
            kind: Kind::Truncated,
            offset: self.position - self.come() as u64,
        };
        self.state = State::Failed(fault);
        Err(fault)
    }

    /// Whether a packet has begun and is not whole yet.
    pub fn is_open(&self) -> bool
        ensures value { result ≡ is_open self.now }
        ensures rest { (rest : List ℕ) → Holds self.now rest → IsTrue result ↔ (rest ≢ []) }
        ensures stream { (start : ℕ) (bytes : List ℕ) (given : List Given) (rest : List ℕ) → Reads self.now start bytes given rest
            → IsTrue result ↔ ((fault_of self.now ≡ None) × (rest ≢ [])) }
    {
        match self.state {
            State::Gathering(_) => true,
            State::Passing(_) => true,
            _ => false,
        }
    }

    /// The hold: after a packet, that packet's bytes as they came, until the next byte is read or `lend` is called.
    pub fn hold(&self) -> &Hold
        ensures value { result.now.items ≡ held_of self.now }
        ensures fits { length result.now.items ≤ 65520 }
    {
        let _ = self.hold.len();
        &self.hold
    }

    /// Lends the hold for writing. Between packets its bytes mean nothing to the reader.
    pub fn lend(&mut self) -> &mut Hold
        requires { is_open self.old ≡ false }
        ensures* lends { sem 𝓛 (LendsHold self.entry result) }
        ensures value { result.now.items ≡ held_of self.old }
    {
        &mut self.hold
    }

    /// The packet in the hold.
    fn packet(&self) -> Packet<'_>
        requires { IsWhole (held_of self.now) self.now.field }
        ensures spells { Spells (seen result) (held_of self.now) }
    {
        let bytes = self.hold.as_slice();
        match self.field {
            0 => Packet::Flush,
            1 => Packet::Delim,
            2 => Packet::RespEnd,
            _ => Packet::Payload(&bytes[4..]),
        }
    }

    /// Steps over the chunk, up to the first that gives something. If the chunk begins with all of a packet whose bytes pass, that is the first
    /// step, and it is inlined into the loop that reads a pack; any other is left to a call.
    #[inline(always)]
    fn band_steps(&mut self, chunk: &[u8], steps: &mut Steps) -> BandStep
        requires sound { fault_of self.old ≡ None }
        requires passes { MayPass self.old }
        ensures used { result.used ≤ length chunk.now }
        ensures some { result.progress ≢ BandProgress.Empty }
        ensures moves { BandMoves self.old chunk.now result.used result.progress self.new }
        ensures keeps { result.used ≡ 0 → held_of self.new ≡ held_of self.old }
        ensures cost { TakesAtMost (8 * (result.used + 1)) steps.old steps.new }
    {
        if !self.is_open() {
            if let Some(part) = self.pass_at_once(chunk, steps) {
                return BandStep::of_part(part);
            }
        }
        self.steps_between(chunk, steps)
    }

    /// Steps over the chunk, up to the first that gives something.
    #[inline(never)]
    fn steps_between(&mut self, chunk: &[u8], steps: &mut Steps) -> BandStep
        requires sound { fault_of self.old ≡ None }
        requires passes { MayPass self.old }
        ensures used { result.used ≤ length chunk.now }
        ensures some { result.progress ≢ BandProgress.Empty }
        ensures moves { BandMoves self.old chunk.now result.used result.progress self.new }
        ensures keeps { result.used ≡ 0 → held_of self.new ≡ held_of self.old }
        ensures cost { TakesAtMost (8 * (result.used + 1)) steps.old steps.new }
    {
        let mut used = 0;
        while used < chunk.len() {
            steps.tick(1);
            let step = self.next_band(&chunk[used..], steps);
            used += step.used;
            match step.progress {
                BandProgress::Empty => {}
                progress => return BandStep { used, progress },
            }
        }
        BandStep {
            used,
            progress: BandProgress::Open,
        }
    }

    /// One step: at once, if the chunk has all of a packet whose bytes pass.
    fn next_band(&mut self, chunk: &[u8], steps: &mut Steps) -> BandStep
        requires sound { fault_of self.old ≡ None }
        requires passes { MayPass self.old }
        ensures used { result.used ≤ length chunk.now }
        ensures moves { BandMoves self.old chunk.now result.used result.progress self.new }
        ensures keeps { result.used ≡ 0 → held_of self.new ≡ held_of self.old }
        ensures cost { TakesAtMost (6 * result.used + 1) steps.old steps.new }
    {
        if !self.is_open() {
            if let Some(part) = self.pass_at_once(chunk, steps) {
                return BandStep::of_part(part);
            }
        }
        self.band_step(chunk, steps)
    }

    /// The bytes that pass of the packet that the chunk begins with, if the chunk has all of it and some of its bytes pass.
    #[inline(always)]
    fn pass_at_once(&mut self, chunk: &[u8], steps: &mut Steps) -> Option<Passed>
        requires sound { fault_of self.old ≡ None }
        requires between { is_open self.old ≡ false }
        ensures fits { IfSome result (λ part. part.count < longest_payload) }
        ensures within { IfSome result (λ part. part.count + 5 ≤ length chunk.now) }
        ensures moves { MatchOption result (self.new ≡ self.old)
            (λ part. BandMoves self.old chunk.now (part.count + 5) (BandProgress.Part part) self.new) }
        ensures cost { MatchOption result (steps.new ≡ steps.old) (λ part. TakesAtMost 1 steps.old steps.new) }
    {
        if chunk.len() < 6 {
            return None;
        }
        let Some(band) = band_of(chunk) else {
            return None;
        };
        let Digits::Number(field) = read_digits(chunk) else {
            return None;
        };
        let most = chunk
            .len()
            .min((LAST_POSITION - self.position) as usize)
            .min(LONGEST_PACKET);
        if field < 6 || field > most {
            return None;
        }
        steps.tick(1);
        self.hold.truncate(5);
        self.position += field as u64;
        Some(Passed {
            band,
            count: field - 5,
        })
    }

    /// Reads one packet, or bytes of one that pass, or the whole chunk, or the chunk up to the stream's last position. The
    /// first five bytes of a packet are gathered: they show whether its bytes pass.
    fn band_step(&mut self, chunk: &[u8], steps: &mut Steps) -> BandStep
        requires sound { fault_of self.old ≡ None }
        requires passes { MayPass self.old }
        ensures used { result.used ≤ length chunk.now }
        ensures moves { BandMoves self.old chunk.now result.used result.progress self.new }
        ensures keeps { result.used ≡ 0 → held_of self.new ≡ held_of self.old }
        ensures cost { TakesAtMost (6 * result.used + 1) steps.old steps.new }
    {
        if let State::Passing(left) = self.state {
            return self.pass(left, chunk);
        }
        let lacks = 5 - self.gathered().min(5);
        let front = lacks.min(chunk.len());
        let first = self.step(&chunk[..front], steps);
        let _ = self.hold.len();
        match first.progress {
            Progress::Failed(fault) => BandStep {
                used: first.used,
                progress: BandProgress::Failed(fault),
            },
            Progress::Whole => {
                if self.band().is_some() {
                    return BandStep {
                        used: first.used,
                        progress: BandProgress::Empty,
                    };
                }
                BandStep {
                    used: first.used,
                    progress: BandProgress::Whole,
                }
            }
            Progress::Open => {
                if self.gathered() < 5 {
                    return BandStep {
                        used: front,
                        progress: BandProgress::Open,
                    };
                }
                let next = self.after_five(&chunk[front..], steps);
                BandStep {
                    used: front + next.used,
                    progress: next.progress,
                }
            }
        }
    }

    /// Goes on after the first five bytes of a packet.
    fn after_five(&mut self, chunk: &[u8], steps: &mut Steps) -> BandStep
        requires sound { fault_of self.old ≡ None }
        requires gathers { passes_of self.old ≡ false }
        requires five { 5 ≤ held_in self.old.state }
        requires first { begins_band (drop 4 (rest_of self.old)) ≡ true → held_in self.old.state ≡ 5 }
        ensures used { result.used ≤ length chunk.now }
        ensures moves { BandMoves self.old chunk.now result.used result.progress self.new }
        ensures keeps { begins_band (drop 4 (rest_of self.old)) ≡ false → result.used ≡ 0 → held_of self.new ≡ held_of self.old }
        ensures cost { TakesAtMost (6 * result.used + 1) steps.old steps.new }
    {
        if self.band().is_some() {
            let left = self.begin_passing(steps);
            return self.pass(left, chunk);
        }
        let step = self.step(chunk, steps);
        let _ = self.hold.len();
        match step.progress {
            Progress::Open => BandStep {
                used: step.used,
                progress: BandProgress::Open,
            },
            Progress::Whole => BandStep {
                used: step.used,
                progress: BandProgress::Whole,
            },
            Progress::Failed(fault) => BandStep {
                used: step.used,
                progress: BandProgress::Failed(fault),
            },
        }
    }

    /// Stops gathering: the hold keeps the first five bytes of the open packet, and gets no more of it. Returns how many
    /// bytes are still to come.
    fn begin_passing(&mut self, steps: &mut Steps) -> usize
        requires gathers { passes_of self.old ≡ false }
        requires five { held_in self.old.state ≡ 5 }
        requires on_band { begins_band (drop 4 (rest_of self.old)) ≡ true }
        ensures state { self.new.state ≡ State.Passing result }
        ensures goes { ReadsBandsOn self.old [] [] [] self.new }
        ensures rises { open_length self.new ≤ open_length self.old }
        ensures cost { TakesAtMost 1 steps.old steps.new }
    {
        let left = self.field - 5;
        self.state = State::Between;
        steps.tick(1);
        self.hold.truncate(5);
        self.state = State::Passing(left);
        left
    }

    /// The band of the packet in the hold, if its bytes pass.
    fn band(&self) -> Option<Band>
        ensures value { result ≡ band_in (drop 4 (held_of self.now)) }
    {
        band_of(self.hold.as_slice())
    }

    /// Passes bytes of the open packet: as many as are still to come, or as the chunk or the stream has.
    fn pass(&mut self, left: usize, chunk: &[u8]) -> BandStep
        requires passing { self.old.state ≡ State.Passing left }
        ensures used { result.used ≤ length chunk.now }
        ensures moves { BandMoves self.old chunk.now result.used result.progress self.new }
        ensures held { held_of self.new ≡ held_of self.old }
    {
        let Some(band) = self.band() else {
            unreachable!()
        };
        let most = left.min(chunk.len());
        if most == 0 {
            return BandStep {
                used: 0,
                progress: BandProgress::Open,
            };
        }
        let used = most.min((LAST_POSITION - self.position) as usize);
        if used == 0 {
            let fault = self.stop(Kind::StreamTooLong, LAST_POSITION);
            return BandStep {
                used: 0,
                progress: BandProgress::Failed(fault),
            };
        }
        self.position += used as u64;
        if used < left {
            self.state = State::Passing(left - used);
            return BandStep {
                used,
                progress: BandProgress::Part(Passed { band, count: used }),
            };
        }
        self.state = State::Between;
        BandStep {
            used,
            progress: BandProgress::Part(Passed { band, count: used }),
        }
    }

    /// Reads one packet, or the whole chunk, or the chunk up to the stream's last position.
    fn step(&mut self, chunk: &[u8], steps: &mut Steps) -> Step
        requires sound { fault_of self.old ≡ None }
        requires gathers { passes_of self.old ≡ false }
        ensures cost { TakesAtMost (6 * result.used) steps.old steps.new }
        ensures used { result.used ≤ length chunk.now }
        ensures all { result.progress ≡ Progress.Open → result.used ≡ length chunk.now }
        ensures moves { Moves self.old (take result.used chunk.now) result.progress self.new }
        ensures shown { IsShown result.progress result.used chunk.now }
        ensures keeps { result.used ≡ 0 → held_of self.new ≡ held_of self.old }
    {
        let space = (LAST_POSITION - self.position) as usize;
        if chunk.len() <= space {
            return self.gather(chunk, steps);
        }
        let step = self.gather(&chunk[..space], steps);
        match step.progress {
            Progress::Open => {
                let fault = self.stop(Kind::StreamTooLong, LAST_POSITION);
                Step {
                    used: step.used,
                    progress: Progress::Failed(fault),
                }
            }
            _ => step,
        }
    }

    /// Reads one packet, or the whole chunk, which ends within the stream's positions.
    fn gather(&mut self, chunk: &[u8], steps: &mut Steps) -> Step
        requires sound { fault_of self.old ≡ None }
        requires gathers { passes_of self.old ≡ false }
        requires space { position_of self.old + length chunk.now ≤ last_position }
        ensures cost { TakesAtMost (6 * result.used) steps.old steps.new }
        ensures used { result.used ≤ length chunk.now }
        ensures all { result.progress ≡ Progress.Open → result.used ≡ length chunk.now }
        ensures moves { Moves self.old (take result.used chunk.now) result.progress self.new }
        ensures kind { IsOfPacket result.progress }
        ensures keeps { result.used ≡ 0 → held_of self.new ≡ held_of self.old }
    {
        if chunk.len() >= 4 && !self.is_open() {
            return self.begin(chunk, steps);
        }
        for (used, byte) in chunk.iter().enumerate() {
            steps.tick(1);
            if self.gathered() >= 4 {
                let step = self.gather_body(&chunk[used..], steps);
                return Step {
                    used: used + step.used,
                    progress: step.progress,
                };
            }
            match self.gather_digit(*byte, steps) {
                Progress::Open => {}
                progress => {
                    return Step {
                        used: used + 1,
                        progress,
                    };
                }
            }
        }
        Step {
            used: chunk.len(),
            progress: Progress::Open,
        }
    }

    /// Ends the reading with a fault at this offset.
    fn stop(&mut self, kind: Kind, offset: u64) -> Fault
        ensures announced { IsStopped self.old kind offset (Progress.Failed result) self.new }
        ensures held { held_of self.new ≡ held_of self.old }
    {
        let fault = Fault { kind, offset };
        self.state = State::Failed(fault);
        fault
    }

    /// How many bytes of the open packet have come.
    fn come(&self) -> usize
        ensures value { result ≡ open_length self.now }
        ensures behind { result ≤ position_of self.now }
    {
        match self.state {
            State::Gathering(count) => count,
            State::Passing(left) => self.field - left,
            _ => 0,
        }
    }

    /// How many bytes of the open packet the hold has, if all that have come are there.
    fn gathered(&self) -> usize
        requires gathers { passes_of self.now ≡ false }
        ensures value { result ≡ held_in self.now.state }
        ensures within { result ≤ length (held_of self.now) }
        ensures kept { 0 < result → IsGathered result (held_of self.now) self.now.field (position_of self.now) }
    {
        match self.state {
            State::Gathering(count) => count,
            _ => 0,
        }
    }

    /// Reads one byte of the four digits.
    fn gather_digit(&mut self, byte: u8, steps: &mut Steps) -> Progress
        requires sound { fault_of self.old ≡ None }
        requires gathers { passes_of self.old ≡ false }
        requires digits { held_in self.old.state < 4 }
        requires space { position_of self.old < last_position }
        ensures cost { TakesAtMost 5 steps.old steps.new }
        ensures moves { Moves self.old (byte ∷ []) result self.new }
        ensures kind { IsOfPacket result }
    {
        let count = self.gathered();
        self.state = State::Between;
        place(&mut self.hold, count, &[byte], steps);
        self.position += 1;
        if digit_value(byte) > 15 {
            return Progress::Failed(self.stop(Kind::BadDigit, self.position - 1));
        }
        if count < 3 {
            self.state = State::Gathering(count + 1);
            return Progress::Open;
        }
        let Digits::Number(field) = read_digits(&self.hold.as_slice()[..count + 1]) else {
            unreachable!()
        };
        if let Some(kind) = field_fault(field) {
            return Progress::Failed(self.stop(kind, self.position - 4));
        }
        self.field = field;
        if field <= 4 {
            steps.tick(1);
            self.hold.truncate(count + 1);
            return Progress::Whole;
        }
        self.state = State::Gathering(count + 1);
        Progress::Open
    }

    /// Reads bytes after the four digits: as many as the packet lacks or the chunk has.
    fn gather_body(&mut self, chunk: &[u8], steps: &mut Steps) -> Step
        requires gathers { passes_of self.old ≡ false }
        requires digits { 4 ≤ held_in self.old.state }
        requires space { position_of self.old + length chunk.now ≤ last_position }
        ensures cost { TakesAtMost (2 * result.used + 3) steps.old steps.new }
        ensures used { result.used ≤ length chunk.now }
        ensures all { result.progress ≡ Progress.Open → result.used ≡ length chunk.now }
        ensures moves { Moves self.old (take result.used chunk.now) result.progress self.new }
        ensures kind { IsOfPacket result.progress }
        ensures some { 0 < length chunk.now → 0 < result.used }
    {
        let count = self.gathered();
        let used = (self.field - count).min(chunk.len());
        self.state = State::Between;
        place(&mut self.hold, count, &chunk[..used], steps);
        self.position += used as u64;
        if count + used < self.field {
            self.state = State::Gathering(count + used);
            return Step {
                used,
                progress: Progress::Open,
            };
        }
        steps.tick(1);
        self.hold.truncate(count + used);
        Step {
            used,
            progress: Progress::Whole,
        }
    }

    /// Reads a packet that begins where the chunk does. The chunk has its four digits.
    fn begin(&mut self, chunk: &[u8], steps: &mut Steps) -> Step
        requires sound { fault_of self.old ≡ None }
        requires between { is_open self.old ≡ false }
        requires digits { 4 ≤ length chunk.now }
        requires space { position_of self.old + length chunk.now ≤ last_position }
        ensures cost { TakesAtMost (2 * result.used + 3) steps.old steps.new }
        ensures used { result.used ≤ length chunk.now }
        ensures all { result.progress ≡ Progress.Open → result.used ≡ length chunk.now }
        ensures moves { Moves self.old (take result.used chunk.now) result.progress self.new }
        ensures kind { IsOfPacket result.progress }
        ensures some { 0 < result.used }
    {
        let start = self.position;
        let field = match read_digits(chunk) {
            Digits::Number(field) => field,
            Digits::Bad(at) => {
                self.position += at as u64 + 1;
                let fault = self.stop(Kind::BadDigit, start + at as u64);
                return Step {
                    used: at + 1,
                    progress: Progress::Failed(fault),
                };
            }
        };
        if let Some(kind) = field_fault(field) {
            self.position += 4;
            let fault = self.stop(kind, start);
            return Step {
                used: 4,
                progress: Progress::Failed(fault),
            };
        }
        let used = field.max(4).min(chunk.len());
        place(&mut self.hold, 0, &chunk[..used], steps);
        self.position += used as u64;
        self.field = field;
        if used < field {
            self.state = State::Gathering(used);
            return Step {
                used,
                progress: Progress::Open,
            };
        }
        steps.tick(1);
        self.hold.truncate(used);
        Step {
            used,
            progress: Progress::Whole,
        }
    }
}

/// What is wrong with the number in a packet's four digits.
fn field_fault(field: usize) -> Option<Kind>
    ensures field { AnnouncesField field result }
{
    match field {
        3 => Some(Kind::BadLength),
        0..=65_520 => None,
        _ => Some(Kind::TooLong),
    }
}
