//! What the program reports of a fault.

ghost use Rattle.std.specs.Prelude.{◌≡◌, ◌≤◌, ◌++◌, ◌+◌, false, length, take, decimal};
ghost use Rattle.std.specs.Io.KnownBytes.{Appends};
ghost use Rattle.git_pkt.specs.Machine.Recorded.{inner_of, has_failed};
ghost use Rattle.git_pkt.specs.Streams.{AppendsFront};
ghost use Rattle.git_pkt.specs.FaultNames.{fault_text};
ghost use Rattle.git2show_lib.specs.Machine.Reports.{check_fault_text, fault_line};

use crate::checking::CheckFault;
use git_pkt::{Fault, Recorded, RunFault, put_at, send};
use itoa::Buffer;
use std::io::Write;
use thiserror::Error;

/// Space for a fault's line: the longest has the program's name, a stream, a name and an offset of 20 digits.
const LINE: usize = 80;

/// The status of a program that ends with a fault.
const STATUS: u8 = 1;

/// Why the program ended early.
#[derive(Clone, Copy, Debug, PartialEq, Eq, Error)]
pub enum ProgramFault {
    /// A run over a reader and a writer ended early.
    #[error("{0}")]
    Run(#[from] RunFault),
    /// A check of two streams ended early.
    #[error("{0}")]
    Check(#[from] CheckFault),
    /// A repository's text is bad from this line on, counted from 1.
    #[error("BadRepo at {0}")]
    Repo(u64),
    /// A script is bad from this line on, counted from 1.
    #[error("BadScript at {0}")]
    Script(u64),
    /// A file cannot be opened, or a repository text, a pack or a script cannot be read.
    #[error("File")]
    File,
    /// Memory ran out, also for the reading of the command line.
    #[error("OutOfMemory")]
    OutOfMemory,
}

/// Writes the line `git2show: <Name>`, with ` at <offset>` where the fault has one, and answers the program's
/// status, which is 1. A write that fails is passed over.
pub fn report<W: Write>(fault: &ProgramFault, error: &mut Recorded<W>) -> u8
    requires { has_failed error.old ≡ false }
    ensures status { result ≡ 1 }
    ensures front { AppendsFront (W.contents (inner_of error.old)) (W.contents (inner_of error.new)) (fault_line fault.now) }
    ensures whole { has_failed error.new ≡ false →
        Appends (W.contents (inner_of error.old)) (W.contents (inner_of error.new)) (fault_line fault.now) }
{
    let mut line = [0; LINE];
    let end = write_line(fault, &mut line);
    match send(error, &line[..end]) {
        Ok(()) | Err(_) => STATUS,
    }
}

/// Writes a fault's line, and answers how many bytes it has.
fn write_line(fault: &ProgramFault, out: &mut [u8]) -> usize
    requires { length out.old ≡ LINE }
    ensures within { result ≤ LINE }
    ensures line { take result out.new ≡ fault_line fault.now }
{
    let at = put_at(out, 0, b"git2show: ");
    let at = match fault {
        ProgramFault::Run(RunFault::Refused(fault)) => put_fault(out, at, fault),
        ProgramFault::Run(RunFault::ReadFault) => put_at(out, at, b"ReadFault"),
        ProgramFault::Run(RunFault::WriteFault) => put_at(out, at, b"WriteFault"),
        ProgramFault::Run(RunFault::ReadLimit) => put_at(out, at, b"ReadLimit"),
        ProgramFault::Check(fault) => put_check_fault(out, at, fault),
        ProgramFault::Repo(line) => put_bad_line(out, at, b"BadRepo at ", *line),
        ProgramFault::Script(line) => put_bad_line(out, at, b"BadScript at ", *line),
        ProgramFault::File => put_at(out, at, b"File"),
        ProgramFault::OutOfMemory => put_at(out, at, b"OutOfMemory"),
    };
    put_at(out, at, b"\n")
}

/// Puts at a place which line of a text is bad, after the words for it, and answers where that ends.
fn put_bad_line(out: &mut [u8], at: usize, words: &[u8], line: u64) -> usize
    requires words { length words.now ≤ 13 }
    requires space { at + 33 ≤ length out.old }
    ensures within { result ≤ at + 33 }
    ensures put { take result out.new ≡ take at out.old ++ words.now ++ decimal line }
{
    let mut digits = Buffer::new();
    let at = put_at(out, at, words);
    put_at(out, at, digits.format(line).as_bytes())
}

/// Puts a check's fault at a place, and answers where it ends.
fn put_check_fault(out: &mut [u8], at: usize, fault: &CheckFault) -> usize
    requires { at + 52 ≤ length out.old }
    ensures within { result ≤ at + 52 }
    ensures put { take result out.new ≡ take at out.old ++ check_fault_text fault.now }
{
    match fault {
        CheckFault::Requests(fault) => {
            let at = put_at(out, at, b"requests: ");
            put_fault(out, at, fault)
        }
        CheckFault::Responses(fault) => {
            let at = put_at(out, at, b"responses: ");
            put_fault(out, at, fault)
        }
        CheckFault::ReadFault => put_at(out, at, b"ReadFault"),
        CheckFault::WriteFault => put_at(out, at, b"WriteFault"),
        CheckFault::ReadLimit => put_at(out, at, b"ReadLimit"),
    }
}

/// Puts a fault at a place, and answers where it ends.
fn put_fault(out: &mut [u8], at: usize, fault: &Fault) -> usize
    requires { at + 41 ≤ length out.old }
    ensures within { result ≤ at + 41 }
    ensures put { take result out.new ≡ take at out.old ++ fault_text fault.now }
{
    put_at(out, at, fault.text().as_str().as_bytes())
}
