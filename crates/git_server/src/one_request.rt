//! Only one request of a session, as when each has a server of its own, or as long as no request needs a pack.

ghost use Rattle.std.specs.Prelude.{◌≡◌, ◌+◌, ◌≤◌, min, true, false, [], IsSome, IsTrue, IfErr, OnErr, OnOk};
ghost use Rattle.std.proofs.Common.{refl, ◌∙◌};
ghost use Rattle.git_pkt.specs.Machine.Recorded.{reads_of, has_failed, has_ended, has_wasted};
ghost use Rattle.git_pkt.specs.Machine.Engine.{FailsAs, IsShownBy};
ghost use Rattle.git_loop.specs.OneStreams.{HaveSameReader, reader_of, waiting_in};
ghost use Rattle.git_loop.specs.Streams.{recorded_input};
ghost use Rattle.git_server.specs.Machine.OneRequest.{IsAllRead, TakesBy, TakesOne, takes_further, takes_nowhere};
ghost use Rattle.git_server.specs.Machine.Moved.{waits_open};
ghost use Rattle.git_server.specs.Machine.Server.{outcome_of, wants_input};

use crate::repo::Repo;
use crate::server::Server;
use git_loop::{Machine, Next, NoOutput, OneInput, run_streams};
use git_names::Steps;
use git_pkt::RunFault;
use std::alloc::Allocator;
use std::io::Read;

/// A server as the machine that takes one request and gives nothing: it has finished once the server waits for no more input.
#[derive(Drop)]
struct OneRequest<'s, R, A: Allocator + Copy> {
    server: &'s mut Server<R, A>,
}

impl<'s, R: Repo, A: Allocator + Copy> Machine for OneRequest<'s, R, A> {
    ghost reaches = { λ old trace new.
        TakesBy R.state old.server.now trace new.server.now × (new.server.ghost_name ≡ old.server.ghost_name) };

    ghost holds = { λ request fed. Unit {0} };

    ghost lends = { λ request fed bytes. bytes ≡ fed };

    ghost gives_to = { λ request k. ⊥ };

    ghost parts_left = { λ request. 0 };

    ghost needs_input = { λ request k. (k ≡ 0) × (wants_input request.server.now ≡ true) };

    ghost done_with = { λ request k. IsSome (outcome_of request.server.now) };

    ghost stopped_short = { λ request k. ⊥ };

    ghost finished = { λ request. wants_input request.server.now ≡ false };

    ghost reachable = { λ request. Unit {0} };

    ghost reaches_itself = { λ request. (takes_nowhere R.state request.server.now, refl) };

    ghost reaches_further = { λ old middle new t u first second.
        (takes_further R.state old.server.now middle.server.now new.server.now t u first.0 second.0, second.1 ∙ first.1) };

    ghost stays_reachable = { λ old new t reaches before. tt };

    ghost done_needs_none = { λ request k needs done. waits_open request.server.now needs.1 done };

    ghost short_needs_none = { λ request k needs short. short };

    ghost needing_holds_none = { λ request k needs. tt };

    fn next(&mut self, fed: &[u8]) -> Next {
        if self.server.wants_input() {
            Next::NeedInput(0)
        } else {
            Next::Finished
        }
    }

    fn part<'a>(&'a self, fed: &'a [u8]) -> &'a [u8] {
        fed
    }

    fn feed(&mut self, from: u8, chunk: &[u8]) -> usize {
        self.server.feed(chunk, &mut Steps::new())
    }

    fn close(&mut self, from: u8) {
        self.server.close()
    }
}

/// Feeds the bytes of an input to a server that waits for a request, until the server has an answer or a refusal to send, or the session has
/// ended. Then it reads nothing more, and bytes that were read after the request wait in the input.
///
/// The error is `ReadFault` if a read fails, and `ReadLimit` if another read would exceed the number `turns` of reads that are allowed. In
/// both cases the server still waits for input.
pub fn take_request<In: Read, R: Repo, A: Allocator + Copy>(
    input: &mut OneInput<'_, In>,
    server: &mut Server<R, A>,
    turns: u64,
) -> Result<(), RunFault>
    requires sound { has_failed (reader_of input.old) ≡ false }
    requires open_ended { has_ended (reader_of input.old) ≡ false }
    requires waits { wants_input server.old ≡ true }

    ensures reads { reads_of (reader_of input.new) ≤ reads_of (reader_of input.old) + turns }
    ensures useful { has_wasted (reader_of input.new) ≡ has_wasted (reader_of input.old) }
    ensures takes { TakesOne R.state server.old server.new (recorded_input In.remaining (reader_of input.old) (waiting_in input.old))
        (recorded_input In.remaining (reader_of input.new) (waiting_in input.new)) }
    ensures expected { OnOk result (wants_input server.new ≡ false) }
    ensures closed { has_ended (reader_of input.new) ≡ true → IsSome (outcome_of server.new) }
    ensures goes_on { OnErr result ((wants_input server.new ≡ true) × (waiting_in input.new ≡ [])) }
    ensures fault { IfErr result (IsShownBy (IsTrue (has_failed (reader_of input.new))) ⊥
        (IsAllRead (min (reads_of (reader_of input.old) + turns) u64.MAX) (reader_of input.new))) }
    ensures announced { FailsAs result (has_failed (reader_of input.new)) false }
    ensures same_reader { HaveSameReader input.old input.new }
{
    let mut request = OneRequest { server };
    run_request(input, &mut request, turns)
}

// Runs the machine over its input.
fn run_request<In: Read, R: Repo, A: Allocator + Copy>(
    input: &mut OneInput<'_, In>,
    request: &mut OneRequest<'_, R, A>,
    turns: u64,
) -> Result<(), RunFault>
    requires sound { has_failed (reader_of input.old) ≡ false }
    requires open_ended { has_ended (reader_of input.old) ≡ false }

    ensures reads { reads_of (reader_of input.new) ≤ reads_of (reader_of input.old) + turns }
    ensures useful { has_wasted (reader_of input.new) ≡ has_wasted (reader_of input.old) }
    ensures takes { TakesOne R.state request.old.server.now request.new.server.now
        (recorded_input In.remaining (reader_of input.old) (waiting_in input.old))
        (recorded_input In.remaining (reader_of input.new) (waiting_in input.new)) }
    ensures expected { OnOk result (wants_input request.new.server.now ≡ false) }
    ensures closed { has_ended (reader_of input.new) ≡ true → IsSome (outcome_of request.new.server.now) }
    ensures goes_on { OnErr result ((wants_input request.new.server.now ≡ true) × (waiting_in input.new ≡ [])) }
    ensures fault { IfErr result (IsShownBy (IsTrue (has_failed (reader_of input.new))) ⊥
        (IsAllRead (min (reads_of (reader_of input.old) + turns) u64.MAX) (reader_of input.new))) }
    ensures announced { FailsAs result (has_failed (reader_of input.new)) false }
    ensures same_reader { HaveSameReader input.old input.new }
    ensures same_server { request.new.server.ghost_name ≡ request.old.server.ghost_name }
{
    run_streams(request, input, &mut NoOutput::new(), turns)
}
