//! A server run over a reader and a writer.

ghost use Rattle.std.specs.Prelude.{◌≡◌, ◌≢◌, ◌<◌, ◌≤◌, ℕ, List, [], ◌∷◌, false, true, length, Some, IsTrue, IfOk, IfErr};
ghost use Rattle.git_pkt.specs.Machine.Recorded.{inner_of, reads_of, has_failed, has_ended, has_wasted, IsNew};
ghost use Rattle.git_pkt.specs.Machine.Engine.{FailsAs, IsShownBy, IsSpent};
ghost use Rattle.git_pkt.specs.Streams.{flow, is_broken, Moves};
ghost use Rattle.git_server.specs.Machine.Runs.{Served};
ghost use Rattle.git_server.specs.Machine.ServerCalls.{AreUnsentNow};
ghost use Rattle.git_server.specs.Machine.Server.{Running, outcome_of, wants_input};
ghost use Rattle.git_server.specs.Sessions.{Setting};

use crate::outcome::Outcome;
use crate::repo::Repo;
use crate::server::{Server, Turn};
use git_loop::run;
use git_pkt::{Recorded, RunFault};
use std::alloc::Allocator;
use std::io::{Read, Write};

/// Runs a server, from its present state, over a reader of requests and a writer of answers, to the end of the session. The bytes
/// that are read go to `chunk`, which must not be empty. The writer is flushed before each read and at the end.
///
/// The error is `ReadFault` if a read fails, `WriteFault` if a write or a flush fails, and `ReadLimit` if another read would
/// exceed the number `turns` of reads that are allowed. After `ReadFault` and `ReadLimit` the session goes on: the server waits for
/// input, and may run again over another reader. After `WriteFault` the server is spent, since it may have returned more than was written.
/// If an error in the input ends the session, `serve` does not fail: it returns the outcome `Refused`.
pub fn serve<In: Read, W: Write, R: Repo, A: Allocator + Copy>(
    reader: &mut Recorded<In>,
    writer: &mut Recorded<W>,
    chunk: &mut [u8],
    server: &mut Server<R, A>,
    turns: u64,
) -> Result<Outcome, RunFault>
    requires space { 0 < length chunk.old }
    requires new_reader { IsNew reader.old }
    requires sound_writer { has_failed writer.old ≡ false }

    ensures reads { reads_of reader.new ≤ turns }
    ensures useful { has_wasted reader.new ≡ false }
    ensures served { (s : Setting) (used given : List ℕ) → Running R.state s used false given server.old
        → Moves (is_broken result) (Served R.state s used given result (has_ended reader.new) turns server.new)
        (flow (In.remaining (inner_of reader.old)) (In.remaining (inner_of reader.new)) ∷ [])
        (flow (W.contents (inner_of writer.old)) (W.contents (inner_of writer.new)) ∷ []) }
    ensures fault { IfErr result (IsShownBy (IsTrue (has_failed reader.new)) (IsTrue (has_failed writer.new)) (IsSpent reader.new turns)) }
    ensures announced { FailsAs result (has_failed reader.new) (has_failed writer.new) }
    ensures ends { IfOk result (λ outcome. (outcome_of server.new ≡ Some outcome) × AreUnsentNow R.state server.new []) }
    ensures goes_on { IfErr result (λ fault. fault ≢ RunFault.WriteFault → wants_input server.new ≡ true) }
{
    run(server, reader, writer, chunk, turns)?;
    match server.turn() {
        Turn::Finished(outcome) => Ok(outcome),
        _ => unreachable!(),
    }
}
