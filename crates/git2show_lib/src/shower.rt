//! The packets of a stream as lines, a state machine that `git_loop` runs.
//!
//! ```text
//!  Gathering -- feed: a fault, or close: a packet is open --> Stopped(fault)
//!      |
//!      +------- close: no packet is open ------------------> Closed
//!
//!  In each phase lines may wait. They are sent before it needs input, and before it has finished.
//! ```

ghost use Rattle.std.specs.Prelude.{◌≡◌, ◌⊎◌, ◌≤◌, ◌<◌, [], None, Some, IsSome, IfSome, length, take, true, false};
ghost use Rattle.git_loop.specs.Carried.{carries_further, carries_itself};
ghost use Rattle.git_pkt.specs.Machine.PacketReader.{ShownByFeed, fault_of, passes_of};
ghost use Rattle.git2show_lib.specs.Machine.ShowerStates.{Gathers, HasShown, IsSound, IsTooLong, ShowerReaches, Waits, fault_in, is_over};
ghost use Rattle.git2show_lib.specs.Machine.ShowerStates.{waits_in_time, waits_open};

use crate::lines::{FULL, Lines};
use crate::renderers::Renderer;
use crate::views::Tally;
use git_loop::{Machine, Next};
use git_names::Steps;
use git_pkt::{Fault, Got, PacketReader};

/// What a shower does with its input.
#[derive(Clone, Copy, Debug)]
pub(crate) enum Phase {
    /// It takes more packets.
    Gathering,
    /// A fault stopped it. The lines before the fault are still given.
    Stopped(Fault),
    /// The input ended, between two packets.
    Closed,
}

/// Takes the bytes of a stream, and gives a line for each of its packets.
#[derive(Drop)]
pub(crate) struct Shower<V> {
    packets: PacketReader,
    lines: Lines,
    renderer: V,
    tally: Tally,
    phase: Phase,
}

/// How far a chunk was shown.
#[derive(Clone, Copy, Debug)]
struct Gathered {
    /// How many of its bytes were used.
    used: usize,
    /// The fault that was met, if one was.
    fault: Option<Fault>,
}

impl<V: Renderer> Shower<V> {
    /// A shower of a stream, by a renderer that has counted this.
    pub(crate) fn new(renderer: V, tally: Tally) -> Self
        ensures shown { HasShown V.view (record { view = V.view renderer; tally = tally }) [] false [] result }
        ensures waits { Waits result }
    {
        Shower {
            packets: PacketReader::new(),
            lines: Lines::new(),
            renderer,
            tally,
            phase: Phase::Gathering,
        }
    }

    /// What was counted.
    pub(crate) fn tally(&self) -> Tally
        ensures { result ≡ self.now.tally }
    {
        self.tally
    }

    /// The fault that stopped it, if one did.
    pub(crate) fn fault(&self) -> Option<Fault>
        ensures { result ≡ fault_in self.now.phase }
    {
        match self.phase {
            Phase::Stopped(fault) => Some(fault),
            Phase::Gathering | Phase::Closed => None,
        }
    }
}

/// Puts the lines of the packets of a chunk behind the others: up to its end, up to a fault, or until they are full.
fn gather<V: Renderer>(
    packets: &mut PacketReader,
    lines: &mut Lines,
    tally: &mut Tally,
    renderer: V,
    chunk: &[u8],
) -> Gathered
    requires sound { fault_of packets.old ≡ None }
    requires gathers { passes_of packets.old ≡ false }
    ensures used { result.used ≤ length chunk.now }
    ensures some { 0 < length chunk.now → length lines.old.waiting < FULL → (0 < result.used) ⊎ IsSome result.fault }
    ensures gathers { Gathers (V.view renderer) tally.old tally.new packets.old packets.new (take result.used chunk.now)
        lines.old.waiting lines.new.waiting }
    ensures fault { fault_of packets.new ≡ result.fault }
    ensures shown { IfSome result.fault (λ f. ShownByFeed f result.used chunk.now) }
    ensures ready { passes_of packets.new ≡ false }
{
    let mut done = 0;
    while done < chunk.len() && !lines.is_full() {
        let fed = packets.feed(&chunk[done..], &mut Steps::new());
        match fed.got {
            Got::More => {
                return Gathered {
                    used: chunk.len(),
                    fault: None,
                };
            }
            Got::Failed(fault) => {
                return Gathered {
                    used: done + fed.used,
                    fault: Some(fault),
                };
            }
            Got::Packet(packet, offset) => renderer.put(lines, tally, packet, offset),
        }
        done += fed.used;
    }
    Gathered {
        used: done,
        fault: None,
    }
}

impl<V: Renderer> Machine for Shower<V> {
    ghost reaches = { λ old trace new. ShowerReaches V.view old trace new };

    ghost holds = { λ shower fed. IsSound shower };

    ghost lends = { λ shower fed bytes. bytes ≡ shower.lines.lent };

    ghost gives_to = { λ shower k. k ≡ 0 };

    ghost parts_left = { λ shower. length shower.lines.waiting };

    ghost needs_input = { λ shower k. (k ≡ 0) × Waits shower };

    ghost done_with = { λ shower k. is_over shower.phase ≡ true };

    ghost stopped_short = { λ shower k. (k ≡ 0) × IsTooLong shower.phase };

    ghost finished = { λ shower. (is_over shower.phase ≡ true) × (shower.lines.waiting ≡ []) };

    ghost reachable = { λ shower. Unit {0} };

    ghost reaches_itself = { λ shower. carries_itself (HasShown V.view) shower };

    ghost reaches_further = { λ old middle new t u first second. carries_further (HasShown V.view) old middle new t u first second };

    ghost stays_reachable = { λ old new t reaches before. tt };

    ghost done_needs_none = { λ shower k needs done. waits_open shower needs.1 done };

    ghost short_needs_none = { λ shower k needs short. waits_in_time shower needs.1 short.1 };

    ghost needing_holds_none = { λ shower k needs. needs.1.sound };

    fn next(&mut self, fed: &[u8]) -> Next {
        if self.lines.lend() {
            return Next::Part(0);
        }
        match self.phase {
            Phase::Gathering => Next::NeedInput(0),
            Phase::Stopped(_) | Phase::Closed => Next::Finished,
        }
    }

    fn part<'a>(&'a self, fed: &'a [u8]) -> &'a [u8] {
        self.lines.lent()
    }

    fn feed(&mut self, from: u8, chunk: &[u8]) -> usize {
        let gathered = gather(
            &mut self.packets,
            &mut self.lines,
            &mut self.tally,
            self.renderer,
            chunk,
        );
        if let Some(fault) = gathered.fault {
            self.phase = Phase::Stopped(fault);
        }
        gathered.used
    }

    fn close(&mut self, from: u8) {
        match self.packets.close() {
            Ok(()) => self.phase = Phase::Closed,
            Err(fault) => self.phase = Phase::Stopped(fault),
        }
    }
}
