//! A host's server over its store as a state machine that `git_loop` runs.

ghost use Rattle.std.specs.Prelude.{◌≡◌, ◌⊎◌, true, IsSome};
ghost use Rattle.git_store.specs.Hosted.{left_of, server_of, store_of};
ghost use Rattle.git_host.specs.HostServer.{bytes_of, outcome_of, reads_on};
ghost use Rattle.git_host.specs.HostStates.{is_over, over_reads_none};
ghost use Rattle.git_store.specs.StoreMoves.{ReachesBy, by_further, by_itself};

use crate::hosted::{Hosted, Turn};
use crate::store::Store;
use git_loop::{Machine, Next};
use git_msg::Memory;

impl<S: Store, A: Memory + Copy> Machine for Hosted<S, A> {
    ghost reaches = { λ old trace new. ReachesBy S.begins S.replies trace (server_of old) (store_of old) (server_of new) (store_of new) };

    ghost holds = { λ hosted fed. Unit {0} };

    ghost lends = { λ hosted fed bytes. bytes ≡ bytes_of (server_of hosted) };

    ghost gives_to = { λ hosted k. k ≡ 0 };

    ghost parts_left = { λ hosted. left_of hosted };

    ghost needs_input = { λ hosted k. (k ≡ 0) × (reads_on (server_of hosted) ≡ true) };

    ghost done_with = { λ hosted k. is_over (server_of hosted) ≡ true };

    ghost stopped_short = { λ hosted k. ⊥ };

    ghost finished = { λ hosted. IsSome (outcome_of (server_of hosted)) ⊎ (left_of hosted ≡ 0) };

    ghost reachable = { λ hosted. Unit {0} };

    ghost reaches_itself = { λ hosted. by_itself S.begins S.replies (server_of hosted) (store_of hosted) };

    ghost reaches_further = { λ old middle new t u first second.
        by_further S.begins S.replies (server_of old) (store_of old) (server_of middle) (store_of middle) (server_of new) (store_of new) t u
        first second };

    ghost stays_reachable = { λ old new t reaches before. tt };

    ghost done_needs_none = { λ hosted k needs done. over_reads_none (server_of hosted) needs.1 done };

    ghost short_needs_none = { λ hosted k needs short. short };

    ghost needing_holds_none = { λ hosted k needs. tt };

    fn next(&mut self, fed: &[u8]) -> Next {
        match self.go_on() {
            Turn::Packet => Next::Part(0),
            Turn::NeedInput => Next::NeedInput(0),
            Turn::Finished => Next::Finished,
        }
    }

    fn part<'a>(&'a self, fed: &'a [u8]) -> &'a [u8] {
        self.given()
    }

    fn feed(&mut self, from: u8, chunk: &[u8]) -> usize {
        self.take(chunk)
    }

    fn close(&mut self, from: u8) {
        self.end()
    }
}
