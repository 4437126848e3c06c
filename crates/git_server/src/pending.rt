//! Writing what a server has to send.

ghost use Rattle.std.specs.Prelude.{◌≡◌, ◌||◌, [], true, false, IfOk, IfErr, OnErr, OnOk, is_err};
ghost use Rattle.git_pkt.specs.Machine.Recorded.{inner_of, has_failed};
ghost use Rattle.git_pkt.specs.Streams.{flow};
ghost use Rattle.git_server.specs.Machine.Unsent.{WritesFor, WritesPart, WritesUnread};
ghost use Rattle.git_server.specs.Machine.ServerCalls.{IsAfterPull, HasNoPackUnsent};
ghost use Rattle.git_server.specs.Machine.Server.{outcome_of};

use crate::outcome::Outcome;
use crate::repo::Repo;
use crate::server::{Pulled, Server};
use git_pkt::{Recorded, RunFault, flush, send};
use std::alloc::Allocator;
use std::io::Write;

/// Writes all that the server has to send, and flushes the writer. Returns the outcome, if the session has ended.
///
/// The error is `WriteFault` if a write or a flush fails. Then the server is spent, since it may have returned more than was written.
pub fn write_pending<W: Write, R: Repo, A: Allocator + Copy>(
    writer: &mut Recorded<W>,
    server: &mut Server<R, A>,
) -> Result<Option<Outcome>, RunFault>
    ensures ok { IfOk result (WritesFor R.state server.old server.new []
        (flow (W.contents (inner_of writer.old)) (W.contents (inner_of writer.new)))) }
    ensures front { OnErr result (WritesPart true R.state server.old server.new []
        (flow (W.contents (inner_of writer.old)) (W.contents (inner_of writer.new)))) }
    ensures outcome { OnOk result (IsAfterPull (outcome_of server.old) (outcome_of server.new)) }
    ensures unread { HasNoPackUnsent R.state server.old → OnOk result (WritesUnread false R.state server.old server.new
        (flow (W.contents (inner_of writer.old)) (W.contents (inner_of writer.new)))) }
    ensures fault { IfErr result (λ fault. fault ≡ RunFault.WriteFault) }
    ensures failed { has_failed writer.new ≡ (has_failed writer.old || is_err result) }
{
    let outcome = drain(writer, server)?;
    flush(writer)?;
    Ok(outcome)
}

// Writes all that the server has to send. Returns the outcome, if the session has ended.
fn drain<W: Write, R: Repo, A: Allocator + Copy>(
    writer: &mut Recorded<W>,
    server: &mut Server<R, A>,
) -> Result<Option<Outcome>, RunFault>
    ensures ok { IfOk result (WritesFor R.state server.old server.new []
        (flow (W.contents (inner_of writer.old)) (W.contents (inner_of writer.new)))) }
    ensures front { OnErr result (WritesPart true R.state server.old server.new []
        (flow (W.contents (inner_of writer.old)) (W.contents (inner_of writer.new)))) }
    ensures outcome { OnOk result (IsAfterPull (outcome_of server.old) (outcome_of server.new)) }
    ensures unread { HasNoPackUnsent R.state server.old → OnOk result (WritesUnread false R.state server.old server.new
        (flow (W.contents (inner_of writer.old)) (W.contents (inner_of writer.new)))) }
    ensures fault { IfErr result (λ fault. fault ≡ RunFault.WriteFault) }
    ensures failed { has_failed writer.new ≡ (has_failed writer.old || is_err result) }
{
    loop {
        match server.pull() {
            Pulled::Packet(bytes) => send(writer, bytes)?,
            Pulled::NeedInput => return Ok(None),
            Pulled::Finished(outcome) => return Ok(Some(outcome)),
        }
    }
}
