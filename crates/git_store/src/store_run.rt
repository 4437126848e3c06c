//! A host's server over its store, run over a reader and a writer.

ghost use Rattle.std.specs.Prelude.{◌≡◌, ◌≢◌, ◌<◌, ◌≤◌, ℕ, List, [], ◌∷◌, false, true, length, None, IsTrue, IfOk, IfErr};
ghost use Rattle.git_pkt.specs.Machine.Recorded.{inner_of, reads_of, has_failed, has_ended, has_wasted, IsNew};
ghost use Rattle.git_pkt.specs.Machine.Engine.{FailsAs, IsShownBy, IsSpent};
ghost use Rattle.git_pkt.specs.Streams.{flow, is_broken, Moves};
ghost use Rattle.git_store.specs.Hosted.{left_of, server_of, store_of};
ghost use Rattle.git_host.specs.HostServer.{Hosts, outcome_of, reads_on};
ghost use Rattle.git_host.specs.HostSessions.{Facts, HostSetting};
ghost use Rattle.git_store.specs.StoreRuns.{ServedStore};

use crate::hosted::Hosted;
use crate::store::Store;
use git_loop::run;
use git_msg::Memory;
use git_pkt::{Recorded, RunFault};
use git_server::Outcome;
use std::io::{Read, Write};

/// Runs a host's server over its store, from its present state, over a reader of requests and a writer of answers, to the end of the
/// session. The bytes that are read go to `chunk`, which must not be empty. The writer is flushed before each read and at the end.
///
/// The error is `ReadFault` if a read fails, `WriteFault` if a write or a flush fails, and `ReadLimit` if another read would
/// exceed the number `turns` of reads that are allowed. After `ReadFault` and `ReadLimit` the session goes on: the server waits for
/// input, and may run again over another reader. After `WriteFault` the server is spent, since it may have returned more than was written.
/// If an error in the input or in the store ends the session, `serve_store` does not fail: it returns the outcome `Refused`. There is no
/// outcome if it gave as many packets, or took as many replies, as [`Hosted::new`] names.
pub fn serve_store<In: Read, W: Write, S: Store, A: Memory + Copy>(
    reader: &mut Recorded<In>,
    writer: &mut Recorded<W>,
    chunk: &mut [u8],
    hosted: &mut Hosted<S, A>,
    turns: u64,
) -> Result<Option<Outcome>, RunFault>
    requires space { 0 < length chunk.old }
    requires new_reader { IsNew reader.old }
    requires sound_writer { has_failed writer.old ≡ false }

    ensures reads { reads_of reader.new ≤ turns }
    ensures useful { has_wasted reader.new ≡ false }
    ensures served { (s : HostSetting) (used : List ℕ) (facts : List Facts) (given : List ℕ) → Hosts s used false facts given (server_of hosted.old)
        → Moves (is_broken result) (ServedStore S.begins S.replies s used facts given result (has_ended reader.new) turns
        (server_of hosted.old) (store_of hosted.old) (server_of hosted.new) (store_of hosted.new))
        (flow (In.remaining (inner_of reader.old)) (In.remaining (inner_of reader.new)) ∷ [])
        (flow (W.contents (inner_of writer.old)) (W.contents (inner_of writer.new)) ∷ []) }
    ensures fault { IfErr result (IsShownBy (IsTrue (has_failed reader.new)) (IsTrue (has_failed writer.new)) (IsSpent reader.new turns)) }
    ensures announced { FailsAs result (has_failed reader.new) (has_failed writer.new) }
    ensures ends { IfOk result (λ outcome. (outcome_of (server_of hosted.new) ≡ outcome) × (outcome ≡ None → left_of hosted.new ≡ 0)) }
    ensures goes_on { IfErr result (λ fault. fault ≢ RunFault.WriteFault → reads_on (server_of hosted.new) ≡ true) }
{
    run(hosted, reader, writer, chunk, turns)?;
    Ok(hosted.outcome())
}
