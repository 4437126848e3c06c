//! How far one step of a reader over a chunk came.

ghost use Rattle.std.specs.Prelude.{◌≡◌, ◌+◌, ◌≤◌, ◌<◌, length};
ghost use Rattle.git_pkt.specs.Machine.PassedOut.{HandsOut, HasPart};
ghost use Rattle.git_pkt.specs.Packets.{longest_payload};

use crate::band::Band;
use crate::fault::Fault;
use crate::reader::{BandFed, BandGot};

/// How far the open packet has come.
#[derive(Clone, Copy, Debug)]
pub(crate) enum Progress {
    Open,
    Whole,
    Failed(Fault),
}

/// The result of one step over a chunk.
#[derive(Clone, Copy, Debug)]
pub(crate) struct Step {
    pub(crate) used: usize,
    pub(crate) progress: Progress,
}

/// So many bytes on a band.
#[derive(Clone, Copy, Debug)]
pub(crate) struct Passed {
    pub(crate) band: Band,
    pub(crate) count: usize,
}

/// How far one step came in a section of side bands.
#[derive(Clone, Copy, Debug)]
pub(crate) enum BandProgress {
    Open,
    /// A packet with no byte after that of its band.
    Empty,
    /// Bytes that passed: the last of the used ones.
    Part(Passed),
    Whole,
    Failed(Fault),
}

/// The result of one step over a chunk in such a section.
#[derive(Clone, Copy, Debug)]
pub(crate) struct BandStep {
    pub(crate) used: usize,
    pub(crate) progress: BandProgress,
}

impl BandStep {
    /// The step over all of a packet that has these bytes on its band: before them are its four digits and the band's byte.
    #[inline(always)]
    pub(crate) fn of_part(part: Passed) -> Self
        requires { part.count < longest_payload }
        ensures used { result.used ≡ part.count + 5 }
        ensures progress { result.progress ≡ BandProgress.Part part }
    {
        BandStep {
            used: part.count + 5,
            progress: BandProgress::Part(part),
        }
    }

    /// What a call returns after this progress over the chunk, if no packet is in the hold.
    #[inline(always)]
    pub(crate) fn fed<'a>(self, chunk: &'a [u8]) -> BandFed<'a>
        requires part { HasPart self.progress self.used }
        requires all { self.used ≤ length chunk.now }
        ensures used { result.used ≡ self.used }
        ensures got { HandsOut self.progress self.used chunk.now result.got }
    {
        let used = self.used;
        let got = match self.progress {
            BandProgress::Part(part) => BandGot::Part(part.band, &chunk[used - part.count..used]),
            BandProgress::Failed(fault) => BandGot::Failed(fault),
            _ => BandGot::More,
        };
        BandFed { used, got }
    }
}
