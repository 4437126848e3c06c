//! A recorded conversation, both of its streams checked against each other.

ghost use Rattle.std.specs.Prelude.{[], ◌∷◌, ◌≡◌, ◌+◌, ◌≤◌, ◌<◌, ◌||◌, ◌⊎◌, ℕ, length, true, false, IsTrue, IfErr};
ghost use Rattle.git_pkt.specs.Machine.Recorded.{inner_of, reads_of, has_failed, has_wasted, IsNew};
ghost use Rattle.git_pkt.specs.Machine.Engine.{FailsAs, IsShownBy};
ghost use Rattle.git_pkt.specs.Streams.{flow, is_broken, Moves};
ghost use Rattle.git_loop.specs.OneStreams.{HaveSameWriter, writer_of};
ghost use Rattle.git_loop.specs.TwoStreams.{HaveSameReaders, RanTwo, first_reader_of, first_waiting, second_reader_of, second_waiting};
ghost use Rattle.git_client.specs.Parts.{Terms, terms_of};
ghost use Rattle.git2show_lib.specs.Machine.CheckFaults.{run_fault, run_result, standing_of, AreSpent};
ghost use Rattle.git2show_lib.specs.Machine.CheckedStreams.{of_responses, Checked};
ghost use Rattle.git2show_lib.specs.Machine.Checker.{is_opened, nothing_fed};
ghost use Rattle.git2show_lib.specs.Machine.JudgingStates.{HasFinished, Judges, NeedsInput, judging_states};

use crate::checker::Checker;
use crate::judging::Judging;
use git_client::Ending;
use git_loop::{OneOutput, TwoInputs, run_streams};
use git_msg::Limits;
use git_names::Format;
use git_pkt::{Fault, Recorded, RunFault};
use std::alloc::Allocator;
use std::io::{Read, Write};
use thiserror::Error;

/// Why a check ended early, and in which of its streams.
#[derive(Clone, Copy, Debug, PartialEq, Eq, Error)]
pub enum CheckFault {
    /// The requests were refused.
    #[error("requests: {0}")]
    Requests(Fault),
    /// The responses were refused, or a request that was read can't be asked.
    #[error("responses: {0}")]
    Responses(Fault),
    /// A reader failed.
    #[error("ReadFault")]
    ReadFault,
    /// The writer failed.
    #[error("WriteFault")]
    WriteFault,
    /// All reads that were allowed were made, and one more would be needed.
    #[error("ReadLimit")]
    ReadLimit,
}

/// What ended the receiving of a response, or the asking of a request.
impl From<RunFault> for CheckFault {
    ghost from_gives = { λ fault announced. announced ≡ of_responses fault };

    fn from(fault: RunFault) -> CheckFault {
        match fault {
            RunFault::Refused(fault) => CheckFault::Responses(fault),
            RunFault::ReadFault => CheckFault::ReadFault,
            RunFault::WriteFault => CheckFault::WriteFault,
            RunFault::ReadLimit => CheckFault::ReadLimit,
        }
    }
}

/// Checks a recorded conversation: `requests` is what the client sent, and `responses` what the server did, which begins with its
/// advertisement. Each request is read against what that offers, and has to be one that a client may ask; then the whole response
/// to it is read. After the last request, which is before a flush alone or at the end of the requests, no byte of the responses may
/// be left. `ending` is how each response ends. The chunks are where the bytes that are read go, that of the requests first; they
/// may not be empty. Arguments are kept in memory from `alloc`, up to the default limit for each request.
///
/// The transcript is written to `out`: a line for each event and for each request. It is flushed before each read and at the end.
///
/// A request may have what was advertised and is not known: a capability line by its key, and an argument by its first word, where that is
/// among the words of the command. It is taken as it comes, its text counts within the limit of the request, and it has a line after that of
/// the request: `capability` or `argument`, and its text, escaped. A request whose first line names a command that is not known and was
/// advertised by its key has the line `request` with that name. It passes up to its flush, and the answer to it up to what ends each response;
/// offsets count what passed.
///
/// `Requests` and `Responses` with the first fault that is met in this order: a byte left over is `UnexpectedPacket` at its offset, and
/// what [`Client::ask`] refuses of a request is a fault of the responses, at the offset where its response would begin. What an
/// advertisement has beside what is known is kept up to the default limit: `TooMuchKept`, or `OutOfMemory`, of the responses, at its end. `ReadFault`
/// where a read of either stream fails, `WriteFault` where a write or a flush does, and `ReadLimit` where a further read than the
/// `turns` that are allowed to both would be needed.
pub fn check<Q: Read, R: Read, O: Write, A: Allocator + Copy>(
    alloc: A,
    requests: &mut Recorded<Q>,
    responses: &mut Recorded<R>,
    format: Format,
    ending: Ending,
    chunk: &mut [u8],
    other_chunk: &mut [u8],
    out: &mut Recorded<O>,
    turns: u64,
) -> Result<(), CheckFault>
    requires space { 0 < length chunk.old }
    requires other_buffer { 0 < length other_chunk.old }
    requires new_requests { IsNew requests.old }
    requires new_responses { IsNew responses.old }
    requires sound_out { has_failed out.old ≡ false }

    ensures reads { reads_of requests.new + reads_of responses.new ≤ turns }
    ensures useful { has_wasted requests.new ≡ false }
    ensures useful_responses { has_wasted responses.new ≡ false }
    ensures checked { Moves (is_broken (run_result result))
        (Checked A (terms_of format ending) Limits.DEFAULT_ARGS result (standing_of requests.new) (standing_of responses.new))
        (flow (Q.remaining (inner_of requests.old)) (Q.remaining (inner_of requests.new))
        ∷ flow (R.remaining (inner_of responses.old)) (R.remaining (inner_of responses.new)) ∷ [])
        (flow (O.contents (inner_of out.old)) (O.contents (inner_of out.new)) ∷ []) }
    ensures fault { IfErr result (λ fault. IsShownBy (IsTrue (has_failed requests.new || has_failed responses.new)) (IsTrue (has_failed out.new))
        (AreSpent requests.new responses.new turns) (run_fault fault)) }
    ensures announced { FailsAs (run_result result) (has_failed requests.new || has_failed responses.new) (has_failed out.new) }
{
    let checker = Checker::new(alloc, format, ending, Limits::DEFAULT);
    let mut judging = Judging::new(checker);
    let mut inputs = TwoInputs::new(requests, chunk, responses, other_chunk);
    let mut output = OneOutput::new(out);
    judge(&mut judging, &mut inputs, &mut output, turns)
}

/// Runs a new judge over both streams, and reports its verdict.
fn judge<Q: Read, R: Read, O: Write, A: Allocator + Copy>(
    judging: &mut Judging<A>,
    inputs: &mut TwoInputs<'_, Q, R>,
    output: &mut OneOutput<'_, O>,
    turns: u64,
) -> Result<(), CheckFault>
    requires nothing_waits { (first_waiting inputs.old ≡ []) × (second_waiting inputs.old ≡ []) }
    requires new_requests { IsNew (first_reader_of inputs.old) }
    requires new_responses { IsNew (second_reader_of inputs.old) }
    requires sound_out { has_failed (writer_of output.old) ≡ false }

    ensures reads { reads_of (first_reader_of inputs.new) + reads_of (second_reader_of inputs.new) ≤ turns }
    ensures useful { has_wasted (first_reader_of inputs.new) ≡ false }
    ensures useful_responses { has_wasted (second_reader_of inputs.new) ≡ false }
    ensures checked { (t : Terms) (limit : ℕ) → Judges t limit nothing_fed nothing_fed [] judging.old → Moves (is_broken (run_result result))
        (Checked A t limit result (standing_of (first_reader_of inputs.new)) (standing_of (second_reader_of inputs.new)))
        (flow (Q.remaining (inner_of (first_reader_of inputs.old))) (Q.remaining (inner_of (first_reader_of inputs.new)))
        ∷ flow (R.remaining (inner_of (second_reader_of inputs.old))) (R.remaining (inner_of (second_reader_of inputs.new))) ∷ [])
        (flow (O.contents (inner_of (writer_of output.old))) (O.contents (inner_of (writer_of output.new))) ∷ []) }
    ensures fault { IfErr result (λ fault. IsShownBy
        (IsTrue (has_failed (first_reader_of inputs.new) || has_failed (second_reader_of inputs.new))) (IsTrue (has_failed (writer_of output.new)))
        (AreSpent (first_reader_of inputs.new) (second_reader_of inputs.new) turns) (run_fault fault)) }
    ensures announced { FailsAs (run_result result) (has_failed (first_reader_of inputs.new) || has_failed (second_reader_of inputs.new))
        (has_failed (writer_of output.new)) }
    ensures same_readers { HaveSameReaders inputs.old inputs.new }
    ensures same_writer { HaveSameWriter output.old output.new }
{
    if let Err(fault) = run_judge(judging, inputs, output, turns) {
        return Err(CheckFault::from(fault));
    }
    match judging.verdict() {
        Some(verdict) => verdict,
        None => unreachable!(),
    }
}

/// Runs a judge over both streams, until it has a verdict.
fn run_judge<Q: Read, R: Read, O: Write, A: Allocator + Copy>(
    judging: &mut Judging<A>,
    inputs: &mut TwoInputs<'_, Q, R>,
    output: &mut OneOutput<'_, O>,
    turns: u64,
) -> Result<(), RunFault>
    requires nothing_waits { (first_waiting inputs.old ≡ []) × (second_waiting inputs.old ≡ []) }
    requires new_requests { IsNew (first_reader_of inputs.old) }
    requires new_responses { IsNew (second_reader_of inputs.old) }
    requires sound_out { has_failed (writer_of output.old) ≡ false }

    ensures reads { reads_of (first_reader_of inputs.new) + reads_of (second_reader_of inputs.new) ≤ turns }
    ensures useful { has_wasted (first_reader_of inputs.new) ≡ false }
    ensures useful_responses { has_wasted (second_reader_of inputs.new) ≡ false }
    ensures ran { RanTwo Q.remaining R.remaining O.contents judging_states (NeedsInput judging.new) (HasFinished judging.new) result judging.old judging.new
        (first_reader_of inputs.old) (first_reader_of inputs.new) (second_reader_of inputs.old) (second_reader_of inputs.new)
        (first_waiting inputs.new) (second_waiting inputs.new) (writer_of output.old) (writer_of output.new) }
    ensures opened { (is_opened judging.new.checker ≡ true) ⊎ (first_waiting inputs.new ≡ []) }
    ensures fault { IfErr result (IsShownBy (IsTrue (has_failed (first_reader_of inputs.new) || has_failed (second_reader_of inputs.new)))
        (IsTrue (has_failed (writer_of output.new))) (AreSpent (first_reader_of inputs.new) (second_reader_of inputs.new) turns)) }
    ensures announced { FailsAs result (has_failed (first_reader_of inputs.new) || has_failed (second_reader_of inputs.new))
        (has_failed (writer_of output.new)) }
    ensures same_readers { HaveSameReaders inputs.old inputs.new }
    ensures same_writer { HaveSameWriter output.old output.new }
{
    run_streams(judging, inputs, output, turns)
}
