//! One loop over any machine: it reads, feeds the machine, and writes what the machine gives.

ghost use Rattle.std.specs.Prelude.{◌≡◌, ◌≢◌, ◌≤◌, ◌<◌, ◌⊎◌, ◌||◌, ◌+◌, min, ℕ, List, Option, [], ◌∷◌, length, true, false, IsTrue, IfOk};
ghost use Rattle.std.specs.Prelude.{IfErr, OnErr, OnOk, is_err, Err};
ghost use Rattle.git_pkt.specs.Machine.Recorded.{inner_of, reads_of, has_ended, has_failed, has_wasted, IsNew};
ghost use Rattle.git_pkt.specs.Machine.Engine.{FailsAs, IsShownBy, IsSpent};
ghost use Rattle.git_pkt.specs.Streams.{is_broken};
ghost use Rattle.git_loop.specs.Streams.{CountsOne, EndsAtItsEnd, InputState, IsOpen, KeepsOthers};
ghost use Rattle.git_loop.specs.Machines.{AreReadToTheEnd, EndsFlushed, HasNothing, IsAt, KeepsEmptyOnes, KnowsEnds, RanOne, RanOver, ReadsAsNeeded};
ghost use Rattle.git_loop.specs.Machines.{SameCalls, WaitsFor, Went, states_of};
ghost use Rattle.git_loop.specs.OneStreams.{HaveSameReader, HaveSameWriter, reader_of, waiting_in, writer_of};

use crate::machine::{Machine, Next};
use crate::streams::{Inputs, OneInput, OneOutput, Outputs};
use git_pkt::{Recorded, RunFault};
use std::io::{Read, Write};

// Writes what the machine gives until it needs input or has finished. Returns the input that it needs, or none if it has
// finished. `fed` are the bytes that it was fed last.
fn drain<M: Machine, O: Outputs>(
    machine: &mut M,
    fed: &[u8],
    outputs: &mut O,
) -> Result<Option<u8>, RunFault>
    requires outputs { (m : M) (to : ℕ) → M.gives_to m to → O.has to }
    requires holds { M.holds machine.old fed.now }
    ensures ok { OnOk result ((inputs : ℕ → InputState) → Went (states_of M.reaches M.needs_input M.done_with M.stopped_short M.reachable)
        false machine.old machine.new inputs inputs (O.contents outputs.old) (O.contents outputs.new)) }
    ensures front { OnErr result ((inputs : ℕ → InputState) → Went (states_of M.reaches M.needs_input M.done_with M.stopped_short M.reachable)
        true machine.old machine.new inputs inputs (O.contents outputs.old) (O.contents outputs.new)) }
    ensures at { IfOk result (λ next. IsAt next (M.needs_input machine.new) (M.finished machine.new)) }
    ensures fault { IfErr result (λ fault. fault ≡ RunFault.WriteFault) }
    ensures failed { O.failed outputs.new ≡ (O.failed outputs.old || is_err result) }
    ensures same_writers { O.same_writers outputs.old outputs.new }
{
    loop {
        match machine.next(fed) {
            Next::Part(to) => outputs.send(to, machine.part(fed))?,
            Next::NeedInput(from) => return Ok(Some(from)),
            Next::Finished => return Ok(None),
        }
    }
}

// Reads once more of the input that the machine needs, if no bytes of it wait, and closes it if it ended.
fn read_more<M: Machine, I: Inputs>(
    machine: &mut M,
    inputs: &mut I,
    from: u8,
) -> Result<(), RunFault>
    requires needs { M.needs_input machine.old from }
    requires exists { I.has from }
    requires empty { (I.input inputs.old from).window ≡ [] }
    requires unended { (I.input inputs.old from).ended ≡ false }
    ensures went { (held : ℕ → Option (List ℕ)) → Went (states_of M.reaches M.needs_input M.done_with M.stopped_short M.reachable)
        false machine.old machine.new (I.input inputs.old) (I.input inputs.new) held held }
    ensures holds { OnOk result (M.holds machine.new []) }
    ensures ended { (I.input inputs.new from).ended ≡ true → M.done_with machine.new from }
    ensures at_end { EndsAtItsEnd (I.input inputs.new from).ended (I.input inputs.new from).left }
    ensures unread { OnErr result ((machine.new ≡ machine.old) × WaitsFor (M.needs_input machine.new) (I.input inputs.new) from) }
    ensures failed { (I.input inputs.new from).failed ≡ ((I.input inputs.old from).failed || is_err result) }
    ensures others { KeepsOthers from (I.input inputs.old) (I.input inputs.new) }
    ensures once { (I.input inputs.new from).reads ≤ (I.input inputs.old from).reads + 1 }
    ensures counted { CountsOne (I.reads inputs.old) (I.reads inputs.new) }
    ensures fault { IfErr result (λ fault. fault ≡ RunFault.ReadFault) }
    ensures same_readers { I.same_readers inputs.old inputs.new }
{
    if inputs.fill(from)? {
        return Ok(());
    }
    machine.close(from);
    Ok(())
}

// Writes what the machine gives, and feeds it what waits of its inputs, until no bytes wait of the input that it needs.
// Returns that input, or none if the machine has finished.
fn advance<M: Machine, I: Inputs, O: Outputs>(
    machine: &mut M,
    inputs: &mut I,
    outputs: &mut O,
) -> Result<Option<u8>, RunFault>
    requires inputs { (m : M) (k : ℕ) → M.needs_input m k → I.has k }
    requires outputs { (m : M) (to : ℕ) → M.gives_to m to → O.has to }
    requires holds { M.holds machine.old [] }
    ensures ok { OnOk result (Went (states_of M.reaches M.needs_input M.done_with M.stopped_short M.reachable)
        false machine.old machine.new (I.input inputs.old) (I.input inputs.new)
        (O.contents outputs.old) (O.contents outputs.new)) }
    ensures front { OnErr result (Went (states_of M.reaches M.needs_input M.done_with M.stopped_short M.reachable)
        true machine.old machine.new (I.input inputs.old) (I.input inputs.new)
        (O.contents outputs.old) (O.contents outputs.new)) }
    ensures at { IfOk result (λ next. IsAt next (M.needs_input machine.new) (M.finished machine.new)) }
    ensures nothing { IfOk result (λ next. HasNothing next (I.input inputs.new)) }
    ensures calls { (k : ℕ) → SameCalls (I.input inputs.old k) (I.input inputs.new k) }
    ensures empty_kept { KeepsEmptyOnes (I.input inputs.old) (I.input inputs.new) }
    ensures counted { I.reads inputs.new ≡ I.reads inputs.old }
    ensures fault { IfErr result (λ fault. fault ≡ RunFault.WriteFault) }
    ensures failed { O.failed outputs.new ≡ (O.failed outputs.old || is_err result) }
    ensures same_readers { I.same_readers inputs.old inputs.new }
    ensures same_writers { O.same_writers outputs.old outputs.new }
{
    let mut next = drain(machine, &[], outputs)?;
    loop {
        let Some(from) = next else {
            return Ok(None);
        };
        let chunk = inputs.window(from);
        if chunk.is_empty() {
            return Ok(Some(from));
        }
        let used = machine.feed(from, chunk);
        let drained = drain(machine, chunk, outputs);
        inputs.consume(from, used);
        next = drained?;
    }
}

/// Runs a machine, from its current state, over inputs and outputs, until it has finished. Makes at most `turns` reads, of all inputs
/// together, and each only when the machine needs that input and no bytes wait of it. Flushes the outputs before each read and at the
/// end. Bytes that the machine did not use wait in the windows of the inputs.
///
/// Returns `ReadFault` if a read fails, `WriteFault` if a write or a flush fails, and `ReadLimit` if one more read than
/// `turns` would be needed. After `ReadFault` and `ReadLimit` the machine needs input, and may be run again. After `WriteFault` it
/// cannot be run again, since it may have given more than was written.
pub fn run_streams<M: Machine, I: Inputs, O: Outputs>(
    machine: &mut M,
    inputs: &mut I,
    outputs: &mut O,
    turns: u64,
) -> Result<(), RunFault>
    requires inputs { (m : M) (k : ℕ) → M.needs_input m k → I.has k }
    requires outputs { (m : M) (to : ℕ) → M.gives_to m to → O.has to }
    requires open_inputs { (k : ℕ) → I.has k → IsOpen (I.input inputs.old k) }
    requires sound_outputs { O.failed outputs.old ≡ false }
    requires holds { M.holds machine.old [] }

    ensures reads { I.reads inputs.new ≤ I.reads inputs.old + turns }
    ensures ran { RanOver (states_of M.reaches M.needs_input M.done_with M.stopped_short M.reachable)
        (record {
          needs_input = M.needs_input machine.new;
          finished = M.finished machine.new;
          spent = min (I.reads inputs.old + turns) u64.MAX ≤ I.reads inputs.new;
          write_failed = O.failed outputs.new;
        }) I.has result machine.old machine.new (I.input inputs.old) (I.input inputs.new) (O.contents outputs.old) (O.contents outputs.new) }
    ensures needed { ReadsAsNeeded (states_of M.reaches M.needs_input M.done_with M.stopped_short M.reachable)
        (record { input = I.input; contents = O.contents; flushed = O.flushed }) (is_broken result)
        (record { machine = machine.old; inputs = inputs.old; outputs = outputs.old })
        (record { machine = machine.new; inputs = inputs.new; outputs = outputs.new }) }
    ensures flushed { EndsFlushed result (O.flushed outputs.new) }
    ensures ends_known { KnowsEnds I.has (I.input inputs.new) (M.done_with machine.new) }
    ensures at_end { AreReadToTheEnd I.has (I.input inputs.new) }
    ensures same_readers { I.same_readers inputs.old inputs.new }
    ensures same_writers { O.same_writers outputs.old outputs.new }
{
    let mut next = advance(machine, inputs, outputs)?;
    for _ in 0..turns {
        outputs.flush()?;
        let Some(from) = next else {
            return Ok(());
        };
        read_more(machine, inputs, from)?;
        next = advance(machine, inputs, outputs)?;
    }
    outputs.flush()?;
    match next {
        Some(_) => Err(RunFault::ReadLimit),
        None => Ok(()),
    }
}

/// Runs a machine that needs only the input 0 and gives only to the output 0, from its current state, over a reader and a writer, until it
/// has finished. Makes at most `turns` reads, each into the whole buffer, which may not be empty. Flushes the writer before each
/// read and at the end.
///
/// Returns `ReadFault` if a read fails, `WriteFault` if a write or a flush fails, and `ReadLimit` if one more read than
/// `turns` would be needed. After `ReadFault` and `ReadLimit` the machine needs input, and may be run again over another
/// reader. After `WriteFault` it cannot be run again, since it may have given more than was written.
pub fn run<M: Machine, R: Read, W: Write>(
    machine: &mut M,
    reader: &mut Recorded<R>,
    writer: &mut Recorded<W>,
    buffer: &mut [u8],
    turns: u64,
) -> Result<(), RunFault>
    requires one { (m : M) (k : ℕ) → M.needs_input m k → k ≡ 0 }
    requires gives { (m : M) (to : ℕ) → M.gives_to m to → to ≡ 0 }
    requires holds { M.holds machine.old [] }
    requires space { 0 < length buffer.old }
    requires new_reader { IsNew reader.old }
    requires sound_writer { has_failed writer.old ≡ false }

    ensures reads { reads_of reader.new ≤ turns }
    ensures useful { has_wasted reader.new ≡ false }
    ensures at_end { EndsAtItsEnd (has_ended reader.new) (R.remaining (inner_of reader.new)) }
    ensures ran { RanOne R.remaining W.contents M.reaches machine.old machine.new (record {
      needs_input = M.needs_input machine.new 0;
      finished = M.finished machine.new;
      stopped_short = M.reachable machine.old × M.stopped_short machine.new 0;
      stopped_short_before = M.stopped_short machine.old 0;
    }) result turns reader.old reader.new writer.old writer.new }
    ensures fault { IfErr result (IsShownBy (IsTrue (has_failed reader.new)) (IsTrue (has_failed writer.new)) (IsSpent reader.new turns)) }
    ensures failed { FailsAs result (has_failed reader.new) (has_failed writer.new) }
{
    let mut input = OneInput::new(reader, buffer);
    let mut output = OneOutput::new(writer);
    run_one(machine, &mut input, &mut output, turns)
}

// Runs a machine over its one input and the output 0.
fn run_one<M: Machine, R: Read, W: Write>(
    machine: &mut M,
    input: &mut OneInput<'_, R>,
    output: &mut OneOutput<'_, W>,
    turns: u64,
) -> Result<(), RunFault>
    requires one { (m : M) (k : ℕ) → M.needs_input m k → k ≡ 0 }
    requires gives { (m : M) (to : ℕ) → M.gives_to m to → to ≡ 0 }
    requires holds { M.holds machine.old [] }
    requires empty { waiting_in input.old ≡ [] }
    requires new_reader { IsNew (reader_of input.old) }
    requires sound_writer { has_failed (writer_of output.old) ≡ false }

    ensures reads { reads_of (reader_of input.new) ≤ turns }
    ensures useful { has_wasted (reader_of input.new) ≡ false }
    ensures at_end { EndsAtItsEnd (has_ended (reader_of input.new)) (R.remaining (inner_of (reader_of input.new))) }
    ensures ran { RanOne R.remaining W.contents M.reaches machine.old machine.new (record {
      needs_input = M.needs_input machine.new 0;
      finished = M.finished machine.new;
      stopped_short = M.reachable machine.old × M.stopped_short machine.new 0;
      stopped_short_before = M.stopped_short machine.old 0;
    }) result turns (reader_of input.old) (reader_of input.new) (writer_of output.old) (writer_of output.new) }
    ensures fault { IfErr result (IsShownBy (IsTrue (has_failed (reader_of input.new))) (IsTrue (has_failed (writer_of output.new)))
        (IsSpent (reader_of input.new) turns)) }
    ensures failed { FailsAs result (has_failed (reader_of input.new)) (has_failed (writer_of output.new)) }
    ensures same_reader { HaveSameReader input.old input.new }
    ensures same_writer { HaveSameWriter output.old output.new }
{
    run_streams(machine, input, output, turns)
}
