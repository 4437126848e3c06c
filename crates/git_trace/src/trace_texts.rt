//! The text of a trace, which comes in chunks.

ghost use Rattle.std.specs.Prelude.{◌≡◌, ◌≤◌, ◌++◌, ◌∷◌, ◌||◌, [], ℕ, List, true, false, length, IfErr, OnOk, OnErr};
ghost use Rattle.std.specs.List.{list_any};
ghost use Rattle.git_trace.specs.TraceTexts.{has_long, is_packet_line, left_after, lines_after, lines_of, longest_line, shown_lines};

use crate::shown_lines::{Look, show_trace_line};
use std::alloc::{AllocError, Global};

/// The maximum length of a line of a trace in bytes, without its LF. A packet's longest line has fewer.
pub const LONGEST_TRACE_LINE: usize = 1_048_576;

/// Why a text could not be shown. Lines are counted from 1.
#[derive(Clone, Copy, Debug, PartialEq, Eq)]
pub enum TraceFault {
    /// This line is longer than a line may be.
    LongLine(u64),
    /// The text ended before this line, and no line named a packet.
    NoPackets(u64),
    /// Memory ran out.
    OutOfMemory,
}

impl From<AllocError> for TraceFault {
    ghost use Rattle.git_trace.specs.declared.trace_texts.TraceFault.{TraceFault};

    ghost from_gives = { λ _ fault. fault ≡ TraceFault.OutOfMemory };

    fn from(_error: AllocError) -> TraceFault {
        TraceFault::OutOfMemory
    }
}

/// Reads the text of a trace in chunks of any size, and shows the packets of its lines. It holds the line that a chunk left open.
#[derive(Drop)]
pub struct TraceReader {
    alloc: Global,
    look: Look,
    /// The bytes of the line that has not ended.
    begun: Vec<u8>,
    /// How many lines have ended.
    lines: u64,
    /// Whether one of them named a packet.
    has_packets: bool,
    ghost short: { length begun.items ≤ 1048576 },
}

impl TraceReader {
    ghost use Rattle.git_trace.specs.Machine.TraceReader.{HasRead, IsEndFault, IsFeedFault, IsLineFault, Shows, look_of};

    /// A reader before the first chunk.
    pub fn new(alloc: Global, look: Look) -> TraceReader
        ensures read { HasRead result [] }
        ensures look { look_of result ≡ look }
    {
        TraceReader {
            alloc,
            look,
            begun: Vec::new(alloc),
            lines: 0,
            has_packets: false,
        }
    }

    /// Takes another chunk of the text, and appends what is shown of the lines that end in it.
    pub fn feed(&mut self, chunk: &[u8], out: &mut Vec<u8>) -> Result<(), TraceFault>
        ensures read { OnOk result ((fed : List ℕ) → HasRead self.old fed → HasRead self.new (fed ++ chunk.now)) }
        ensures shown { OnOk result ((fed : List ℕ) → HasRead self.old fed
            → Shows (look_of self.old) (lines_after [] fed) (lines_after [] (fed ++ chunk.now)) out.old.items out.new.items) }
        ensures look { look_of self.new ≡ look_of self.old }
        ensures fault { IfErr result (λ fault. (fed : List ℕ) → HasRead self.old fed → IsFeedFault (fed ++ chunk.now) fault) }
    {
        'bytes: for byte in chunk {
            self.take(*byte, out)?;
        }
        Ok(())
    }

    /// Takes the next byte of the text.
    fn take(&mut self, byte: u8, out: &mut Vec<u8>) -> Result<(), TraceFault>
        ensures begun { OnOk result (self.new.begun.items ≡ left_after self.old.begun.items (byte ∷ [])) }
        ensures shown { OnOk result (out.new.items ≡ out.old.items ++ shown_lines self.old.look (lines_after self.old.begun.items (byte ∷ []))) }
        ensures packets { OnOk result (self.new.has_packets
            ≡ (self.old.has_packets || list_any is_packet_line (lines_after self.old.begun.items (byte ∷ [])))) }
        ensures look { self.new.look ≡ self.old.look }
        ensures short { OnOk result (has_long self.old.begun.items (byte ∷ []) ≡ false) }
        ensures fault { IfErr result (IsLineFault self.old.begun.items (byte ∷ [])) }
    {
        if byte == b'\n' {
            return self.end_line(out);
        }
        if self.begun.len() >= LONGEST_TRACE_LINE {
            return Err(TraceFault::LongLine(self.lines.saturating_add(1)));
        }
        match self.begun.push(byte) {
            Ok(()) => Ok(()),
            Err(_) => Err(TraceFault::OutOfMemory),
        }
    }

    /// Shows the line that has begun, which ends here.
    fn end_line(&mut self, out: &mut Vec<u8>) -> Result<(), TraceFault>
        ensures begun { OnOk result (self.new.begun.items ≡ []) }
        ensures shown { OnOk result (out.new.items ≡ out.old.items ++ shown_lines self.old.look (self.old.begun.items ∷ [])) }
        ensures packets { OnOk result (self.new.has_packets ≡ (self.old.has_packets || is_packet_line self.old.begun.items)) }
        ensures look { self.new.look ≡ self.old.look }
        ensures fault { IfErr result (λ fault. fault ≡ TraceFault.OutOfMemory) }
    {
        self.has_packets |= show_trace_line(self.alloc, self.look, &self.begun, out)?;
        self.begun.clear();
        self.lines = self.lines.saturating_add(1);
        Ok(())
    }

    /// Ends the text, and appends what is shown of a last line without an LF.
    pub fn finish(mut self, out: &mut Vec<u8>) -> Result<(), TraceFault>
        ensures shown { OnOk result ((fed : List ℕ) → HasRead self fed
            → Shows (look_of self) (lines_after [] fed) (lines_of fed) out.old.items out.new.items) }
        ensures packets { OnOk result ((fed : List ℕ) → HasRead self fed → list_any is_packet_line (lines_of fed) ≡ true) }
        ensures fault { IfErr result (λ fault. (fed : List ℕ) → HasRead self fed → IsEndFault fed fault) }
    {
        if !self.begun.is_empty() {
            self.end_line(out)?;
        }
        match self.has_packets {
            true => Ok(()),
            false => Err(TraceFault::NoPackets(self.lines.saturating_add(1))),
        }
    }
}
