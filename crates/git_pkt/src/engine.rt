//! The calls that every run over a reader and a writer makes: receive, send and flush, each with its one fault.
ghost use Rattle.std.specs.Prelude.{◌≡◌, ◌+◌, ◌==◌, min, ◌||◌, IfErr, is_err, length};
ghost use Rattle.std.specs.Io.{ReadsAtMost};
ghost use Rattle.std.specs.Io.KnownBytes.{Keeps, ReadConsumes};
ghost use Rattle.git_pkt.specs.Machine.Calls.{Flushes, Receives, SendsWhole};
ghost use Rattle.git_pkt.specs.Machine.Sends.{Sends};
ghost use Rattle.git_pkt.specs.Machine.Recorded.{inner_of, reads_of, has_failed, has_ended, has_wasted, gave_nothing, ReadsNothing};

use crate::calls::{ReadCalls, WriteCalls};
use crate::fault::RunFault;
use crate::recorded::Recorded;
use std::io::{Read, Write};

/// Reads once, into the front of the buffer, and returns how many bytes came: 0 at the end of the input.
///
/// The fault is `ReadFault`, exactly if the read fails.
pub fn receive<R: ReadCalls>(reader: &mut Recorded<R>, chunk: &mut [u8]) -> Result<usize, RunFault>
    ensures bound { ReadsAtMost result chunk.new }
    ensures bytes { ReadConsumes (R.remaining (inner_of reader.old)) (R.remaining (inner_of reader.new)) result chunk.new }
    ensures call { Receives R.is_read (inner_of reader.old) chunk.old result chunk.new (inner_of reader.new) }
    ensures fault { IfErr result (λ fault. fault ≡ RunFault.ReadFault) }

    ensures counted { reads_of reader.new ≡ min (reads_of reader.old + 1) u64.MAX }
    ensures failed { has_failed reader.new ≡ (has_failed reader.old || is_err result) }
    ensures ended { has_ended reader.new ≡ (has_ended reader.old || gave_nothing result chunk.new) }
    ensures wasted { has_wasted reader.new ≡ (has_wasted reader.old || (has_ended reader.old || (length chunk.old == 0))) }
{
    reader.read(chunk).map_err(|_| RunFault::ReadFault)
}

/// Writes all the bytes.
///
/// The fault is `WriteFault`, exactly if the writing fails; then a prefix of the bytes was written.
pub fn send<W: WriteCalls>(writer: &mut Recorded<W>, bytes: &[u8]) -> Result<(), RunFault>
    ensures sends { Sends W.contents writer.old bytes.now result writer.new }
    ensures calls { SendsWhole W.is_write (inner_of writer.old) bytes.now result (inner_of writer.new) }
{
    writer.write_all(bytes).map_err(|_| RunFault::WriteFault)
}

/// Flushes the writer.
///
/// The fault is `WriteFault`, exactly if the flush fails.
pub fn flush<W: WriteCalls>(writer: &mut Recorded<W>) -> Result<(), RunFault>
    ensures bytes { Keeps (W.contents (inner_of writer.old)) (W.contents (inner_of writer.new)) }
    ensures call { Flushes W.is_flush (inner_of writer.old) result (inner_of writer.new) }
    ensures fault { IfErr result (λ fault. fault ≡ RunFault.WriteFault) }

    ensures failed { has_failed writer.new ≡ (has_failed writer.old || is_err result) }
    ensures reads { ReadsNothing writer.old writer.new }
{
    writer.flush().map_err(|_| RunFault::WriteFault)
}
