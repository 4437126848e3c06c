//! The server as a state machine that `git_loop` runs.

ghost use Rattle.std.specs.Prelude.{◌≡◌, true, IsSome};
ghost use Rattle.git_server.specs.Machine.Server.{outcome_of, wants_input};
ghost use Rattle.git_server.specs.Machine.ServerCalls.{most_left};
ghost use Rattle.git_server.specs.Machine.Moved.{HasFinished, IsOfASession, IsTooLong, LendsPacket, ServerReaches};
ghost use Rattle.git_server.specs.Machine.Moved.{goes_nowhere, keeps_session, reaches_further, waits_in_time, waits_open};

use crate::repo::Repo;
use crate::server::{Server, Turn};
use git_loop::{Machine, Next};
use git_names::Steps;
use std::alloc::Allocator;

impl<R: Repo, A: Allocator + Copy> Machine for Server<R, A> {
    ghost reaches = { λ old trace new. ServerReaches R.state old trace new };

    ghost holds = { λ server fed. Unit {0} };

    ghost lends = { λ server fed bytes. LendsPacket server bytes };

    ghost gives_to = { λ server k. k ≡ 0 };

    ghost parts_left = { λ server. most_left R.state server };

    ghost needs_input = { λ server k. (k ≡ 0) × (wants_input server ≡ true) };

    ghost done_with = { λ server k. IsSome (outcome_of server) };

    ghost stopped_short = { λ server k. (k ≡ 0) × IsTooLong (outcome_of server) };

    ghost finished = { λ server. HasFinished server };

    ghost reachable = { λ server. IsOfASession R.state server };

    ghost reaches_itself = { λ server. goes_nowhere R.state server };

    ghost reaches_further = { λ old middle new t u first second. reaches_further R.state old middle new t u first second };

    ghost stays_reachable = { λ old new t reaches session. keeps_session R.state old new t reaches session };

    ghost done_needs_none = { λ server k needs done. waits_open server needs.1 done };

    ghost short_needs_none = { λ server k needs short. waits_in_time server needs.1 short.1 };

    ghost needing_holds_none = { λ server k needs. tt };

    fn next(&mut self, fed: &[u8]) -> Next {
        match self.turn() {
            Turn::NeedInput => Next::NeedInput(0),
            Turn::Finished(_) => Next::Finished,
            Turn::Packet => {
                self.give();
                Next::Part(0)
            }
        }
    }

    fn part<'a>(&'a self, fed: &'a [u8]) -> &'a [u8] {
        self.packet()
    }

    fn feed(&mut self, from: u8, chunk: &[u8]) -> usize {
        Server::feed(self, chunk, &mut Steps::new())
    }

    fn close(&mut self, from: u8) {
        Server::close(self)
    }
}
