//! A judge of both streams of a conversation, a machine that `git_loop` runs.
//!
//! ```text
//!  Input 0: the requests.  Input 1: the responses.  Output 0: the lines of the transcript.
//! ```
//!
//! Its states are those of the [`Checker`](crate::Checker). Lines that it lends are taken by the next call.

ghost use Rattle.std.specs.Prelude.{◌≡◌, ◌≢◌, [], false, true};
ghost use Rattle.git2show_lib.specs.Machine.Checker.{lent_by, verdict_of};
ghost use Rattle.git2show_lib.specs.Machine.CheckerTurns.{stream_at};

use crate::checker::{Checker, Needed, Stream};
use crate::checking::CheckFault;
use git_loop::{Machine, Next};
use std::alloc::Allocator;

/// The number of the requests among the inputs.
const REQUESTS: u8 = 0;

/// The number of the responses.
const RESPONSES: u8 = 1;

/// Judges both streams of a conversation, and gives the lines of the transcript.
#[derive(Drop)]
pub(crate) struct Judging<A: Allocator + Copy> {
    checker: Checker<A>,
    // Whether the checker's lines are lent: they are taken by the next call.
    lends: bool,
    ghost some: { lends ≡ true → lent_by checker ≢ [] },
}

impl<A: Allocator + Copy> Judging<A> {
    ghost use Rattle.git2show_lib.specs.Machine.JudgingStates.{TakesLent};

    /// A judge that has used and given nothing, over a new checker.
    pub(crate) fn new(checker: Checker<A>) -> Judging<A>
        ensures checker { result.checker ≡ checker }
        ensures lends { result.lends ≡ false }
    {
        Judging {
            checker,
            lends: false,
        }
    }

    /// How the conversation was judged, once it is.
    pub(crate) fn verdict(&self) -> Option<Result<(), CheckFault>>
        ensures { result ≡ verdict_of self.now.checker }
    {
        self.checker.verdict()
    }

    /// Takes the lines that are lent, if any are.
    fn take_lent(&mut self)
        ensures { TakesLent self.old self.new }
    {
        if !self.lends {
            return;
        }
        self.lends = false;
        self.checker.lines_taken();
    }
}

/// The stream of this number.
fn stream_of(number: u8) -> Stream
    ensures { result ≡ stream_at number }
{
    match number {
        REQUESTS => Stream::Requests,
        _ => Stream::Responses,
    }
}

impl<A: Allocator + Copy> Machine for Judging<A> {
    ghost use Rattle.git2show_lib.specs.Machine.JudgingStates.{HasFinished, IsDoneWith, JudgingReaches, NeedsInput, done_needs_none, parts_left};
    ghost use Rattle.git2show_lib.specs.Machine.JudgingStates.{reaches_further, reaches_itself};

    ghost reaches = { λ old trace new. JudgingReaches old trace new };

    ghost holds = { λ judging fed. Unit {0} };

    ghost lends = { λ judging fed bytes. bytes ≡ lent_by judging.checker };

    ghost gives_to = { λ judging k. k ≡ 0 };

    ghost parts_left = { λ judging. parts_left judging };

    ghost needs_input = { λ judging k. NeedsInput judging k };

    ghost done_with = { λ judging k. IsDoneWith judging k };

    ghost stopped_short = { λ judging k. ⊥ };

    ghost finished = { λ judging. HasFinished judging };

    ghost reachable = { λ judging. Unit {0} };

    ghost reaches_itself = { λ judging. reaches_itself judging };

    ghost reaches_further = { λ old middle new t u first second. reaches_further old middle new t u first second };

    ghost stays_reachable = { λ old new t reaches before. tt };

    ghost done_needs_none = { λ judging k needs done. done_needs_none judging k needs done };

    ghost short_needs_none = { λ judging k needs short. short };

    ghost needing_holds_none = { λ judging k needs. tt };

    fn next(&mut self, fed: &[u8]) -> Next {
        self.take_lent();
        match self.checker.needed() {
            Needed::Lines => {
                self.lends = true;
                Next::Part(0)
            }
            Needed::Input(Stream::Requests) => Next::NeedInput(REQUESTS),
            Needed::Input(Stream::Responses) => Next::NeedInput(RESPONSES),
            Needed::Nothing => Next::Finished,
        }
    }

    fn part<'a>(&'a self, fed: &'a [u8]) -> &'a [u8] {
        self.checker.lines()
    }

    fn feed(&mut self, from: u8, chunk: &[u8]) -> usize {
        self.checker.feed(stream_of(from), chunk)
    }

    fn close(&mut self, from: u8) {
        self.checker.close(stream_of(from))
    }
}
