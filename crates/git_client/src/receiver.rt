//! One message of the server, the advertisement or a response, received by a state machine that `git_loop` runs.
//!
//! ```text
//!  The client waits -- feed: the last packet of the message --> it can ask
//!      |
//!      +-------------- feed, close: an error ----------------> it has failed
//!
//!  In each state lines of the transcript may wait, and after them bytes of the pack or of the progress, which lie in the chunk. They are
//!  given before the machine needs input, and before it has finished.
//! ```

ghost use Rattle.std.specs.Prelude.{◌≡◌, ◌⊎◌, ◌≤◌, ◌<◌, ◌+◌, ◌-◌, [], None, Some, length, take, drop, true, false};
ghost use Rattle.std.proofs.Common.{refl, ◌∙◌};
ghost use Rattle.git_pkt.specs.Machine.PacketReader.{ShownByFeed};
ghost use Rattle.git_pkt.specs.Streams.{flow};
ghost use Rattle.git_pkt.specs.declared.fault.Fault.{Fault};
ghost use Rattle.git_client.specs.Machine.Client.{can_ask, fault_of, wants_input};
ghost use Rattle.git_client.specs.Machine.ReceiverStates.{HasFinished, HasReceived, IsLent, IsTooLong, PassesIn, PassesOn, ReceiverReaches, Waits};
ghost use Rattle.git_client.specs.Machine.ReceiverStates.{lines_in, pack_in, parts_in, passes_none, progress_in, reaches_further, reaches_itself};
ghost use Rattle.git_client.specs.Machine.ReceiverStates.{received_first, waits_in_time, waits_open};
ghost use Rattle.git_client.specs.Machine.RunSteps.{ReceivesBytes, no_counts};

use crate::client::Client;
use crate::events::{Event, ReceivedGot};
use crate::gathered::{GATHERED, GatheredLines, gather_event};
use crate::receiving::Counts;
use git_loop::{InChunk, Machine, Next};
use git_names::Steps;
use git_pkt::Fault;
use std::alloc::Allocator;

/// The output of the transcript.
pub(crate) const TRANSCRIPT: u8 = 0;

/// The output of the pack.
pub(crate) const PACK: u8 = 1;

/// The output of the progress.
pub(crate) const PROGRESS: u8 = 2;

/// Where the bytes in the chunk that are still to be given go.
#[derive(Clone, Copy, Debug)]
pub(crate) enum Passing {
    /// There are none.
    Nothing,
    /// To the pack.
    Pack,
    /// To the progress.
    Progress,
}

/// Takes the bytes of one message of the server, and gives its lines of the transcript, its pack and its progress.
#[derive(Drop)]
pub(crate) struct Receiver<'c, 'l, A: Allocator + Copy> {
    client: &'c mut Client<A>,
    counts: Counts,
    lines: &'l mut GatheredLines,
    passing: Passing,
    passed: InChunk,
    /// Whether the lines are lent, and not bytes of the chunk.
    lends_lines: bool,
}

/// How far a chunk was received.
#[derive(Clone, Copy, Debug)]
struct Advance {
    /// How many of its bytes were used.
    used: usize,
    /// How many of these, the last ones, go to the pack or to the progress.
    count: usize,
    /// Which of the two.
    passing: Passing,
}

/// How many bytes of an event go to the pack or to the progress.
#[derive(Clone, Copy, Debug)]
struct Passes {
    passing: Passing,
    count: usize,
}

impl<'c, 'l, A: Allocator + Copy> Receiver<'c, 'l, A> {
    /// A receiver of the message that a client waits for. Its lines are gathered in `lines`, in place of those that lie there.
    pub(crate) fn new(client: &'c mut Client<A>, lines: &'l mut GatheredLines) -> Self
        requires { wants_input client.old ≡ true }
        ensures begun { HasReceived (received_first result.client.now no_counts) result }
        ensures waits { Waits result }
        ensures client { result.client.now ≡ client.old }
        ensures same_client { result.client.ghost_name ≡ client.entry.ghost_name }
    {
        lines.clear();
        Receiver {
            client,
            counts: Counts {
                pack: 0,
                progress: 0,
            },
            lines,
            passing: Passing::Nothing,
            passed: InChunk::none(),
            lends_lines: false,
        }
    }

    /// The error of the client, if it has failed.
    pub(crate) fn fault(&self) -> Option<Fault>
        ensures { result ≡ fault_of self.now.client.now }
    {
        self.client.fault()
    }
}

/// Receives events from a chunk, and puts their lines behind the others: up to its end, up to an error, to the end of the message or to bytes
/// of the pack or of the progress, or until the lines are full.
fn gather<A: Allocator + Copy>(
    client: &mut Client<A>,
    counts: &mut Counts,
    lines: &mut GatheredLines,
    chunk: &[u8],
) -> Advance
    requires expected { wants_input client.old ≡ true }
    ensures used { result.used ≤ length chunk.now }
    ensures count { result.count ≤ result.used }
    ensures some { 0 < length chunk.now → length lines.old ≤ GATHERED → (0 < result.used) ⊎ (wants_input client.new ≡ false) }
    ensures received { ReceivesBytes false client.old client.new counts.old counts.new (take result.used chunk.now)
        (flow (Some lines.old) (Some lines.new))
        (flow (Some []) (Some (pack_in result.passing (take result.count (drop (result.used - result.count) chunk.now)))))
        (flow (Some []) (Some (progress_in result.passing (take result.count (drop (result.used - result.count) chunk.now))))) }
    ensures whole { wants_input client.new ≡ false → fault_of client.new ≡ None → can_ask client.new ≡ true }
    ensures shown { (fault : Fault) → fault_of client.new ≡ Some fault → ShownByFeed fault result.used chunk.now }
{
    let mut used = 0;
    let mut steps = Steps::new();
    while used < chunk.len() && client.wants_input() && lines.has_space() {
        let received = client.feed(&chunk[used..], &mut steps);
        match received.got {
            ReceivedGot::More => return Advance::without_bytes(chunk.len()),
            ReceivedGot::Failed(_) => return Advance::without_bytes(used + received.used),
            ReceivedGot::Event(event) => {
                gather_event(&event, counts, lines);
                let passes = Passes::of(&event);
                match passes.passing {
                    Passing::Nothing => {}
                    _ => {
                        return Advance {
                            used: used + received.used,
                            count: passes.count,
                            passing: passes.passing,
                        };
                    }
                }
            }
        }
        used += received.used;
    }
    Advance::without_bytes(used)
}

impl Passes {
    /// The bytes of an event.
    fn of(event: &Event<'_>) -> Passes
        ensures { PassesOn event.now result.passing result.count }
    {
        match event {
            Event::Pack(bytes) => Passes {
                passing: Passing::Pack,
                count: bytes.len(),
            },
            Event::Progress(bytes) => Passes {
                passing: Passing::Progress,
                count: bytes.len(),
            },
            _ => Passes {
                passing: Passing::Nothing,
                count: 0,
            },
        }
    }
}

impl Advance {
    /// So many bytes were used, and none of them goes to the pack or to the progress.
    fn without_bytes(used: usize) -> Advance
        ensures used { result.used ≡ used }
        ensures count { result.count ≡ 0 }
        ensures passing { result.passing ≡ Passing.Nothing }
    {
        Advance {
            used,
            count: 0,
            passing: Passing::Nothing,
        }
    }
}

/// Goes on to the lines, if some wait. Lines that were lent are removed first. Returns whether lines are lent now.
fn lend(lines: &mut GatheredLines, lends_lines: &mut bool) -> bool
    ensures taken { lines_in lends_lines.new lines.new ≡ [] }
    ensures lent { result ≡ true → (lends_lines.new ≡ true) × (lines.new ≡ lines_in lends_lines.old lines.old) × (0 < length lines.new) }
    ensures none { result ≡ false → (lends_lines.new ≡ false) × (lines.new ≡ []) × (lines_in lends_lines.old lines.old ≡ []) }
{
    if *lends_lines {
        lines.clear();
        *lends_lines = false;
        return false;
    }
    *lends_lines = !lines.as_slice().is_empty();
    *lends_lines
}

impl<'c, 'l, A: Allocator + Copy> Machine for Receiver<'c, 'l, A> {
    ghost reaches = { λ old trace new. ReceiverReaches old trace new × (new.client.ghost_name ≡ old.client.ghost_name) };

    ghost holds = { λ receiver fed. PassesIn receiver.passing receiver.passed fed };

    ghost lends = { λ receiver fed bytes. IsLent receiver.lends_lines receiver.lines.now receiver.passed fed bytes };

    ghost gives_to = { λ receiver k. k < 3 };

    ghost parts_left = { λ receiver. length (lines_in receiver.lends_lines receiver.lines.now) + parts_in receiver.passing };

    ghost needs_input = { λ receiver k. (k ≡ 0) × Waits receiver };

    ghost done_with = { λ receiver k. wants_input receiver.client.now ≡ false };

    ghost stopped_short = { λ receiver k. (k ≡ 0) × IsTooLong (fault_of receiver.client.now) };

    ghost finished = { λ receiver. HasFinished receiver };

    ghost reachable = { λ receiver. Unit {0} };

    ghost reaches_itself = { λ receiver. (reaches_itself receiver, refl) };

    ghost reaches_further = { λ old middle new t u first second.
        (reaches_further old middle new t u first.0 second.0, second.1 ∙ first.1) };

    ghost stays_reachable = { λ old new t reaches before. tt };

    ghost done_needs_none = { λ receiver k needs done. waits_open receiver needs.1 done };

    ghost short_needs_none = { λ receiver k needs short. waits_in_time receiver needs.1 short.1 };

    ghost needing_holds_none = { λ receiver k needs. passes_none receiver needs.1 };

    fn next(&mut self, fed: &[u8]) -> Next {
        if lend(self.lines, &mut self.lends_lines) {
            return Next::Part(TRANSCRIPT);
        }
        match self.passing {
            Passing::Nothing => {
                if self.client.wants_input() {
                    Next::NeedInput(0)
                } else {
                    Next::Finished
                }
            }
            Passing::Pack => {
                self.passing = Passing::Nothing;
                Next::Part(PACK)
            }
            Passing::Progress => {
                self.passing = Passing::Nothing;
                Next::Part(PROGRESS)
            }
        }
    }

    fn part<'b>(&'b self, fed: &'b [u8]) -> &'b [u8] {
        if self.lends_lines {
            return self.lines.as_slice();
        }
        self.passed.lent(fed)
    }

    fn feed(&mut self, from: u8, chunk: &[u8]) -> usize {
        let advance = gather(self.client, &mut self.counts, self.lines, chunk);
        self.passing = advance.passing;
        self.passed = InChunk::between(chunk, advance.used - advance.count, advance.used);
        advance.used
    }

    fn close(&mut self, from: u8) {
        let _fault = self.client.close();
    }
}
