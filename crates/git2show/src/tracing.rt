//! The packets of a text that GIT_TRACE_PACKET wrote, on standard output.

use crate::failures::{Failure, Stream, Watched};
use crate::showing::form_of;
use crate::{CHUNK, TURNS, announce_failure, announce_fault};
use clap::ArgMatches;
use git_pkt::{Recorded, Retries, RunFault, flush, receive, send};
use git_trace::{LONGEST_TRACE_LINE, Look, TraceFault, TraceReader};
use git2show_lib::{Form, ProgramFault};
use std::alloc::Global;
use std::io::{self, IsTerminal, Read, Write};

/// The exit status where a trace is refused.
const STATUS: u8 = 1;

/// Why a trace is not shown to its end.
#[derive(Clone, Copy, Debug)]
enum Stopped {
    /// A stream failed.
    Run(RunFault),
    /// The text is refused, or memory ran out.
    Text(TraceFault),
}

impl From<RunFault> for Stopped {
    fn from(fault: RunFault) -> Stopped {
        Stopped::Run(fault)
    }
}

impl From<TraceFault> for Stopped {
    fn from(fault: TraceFault) -> Stopped {
        Stopped::Text(fault)
    }
}

/// Shows the packets of a trace on standard input. Returns the exit status.
pub(crate) fn run_trace(rt: &HostRuntime, matches: &ArgMatches<'_>) -> u8 {
    let mut input = Watched::new(Stream::Input, Retries::new(rt.stdin()));
    let mut output = Watched::new(Stream::Output, rt.stdout());
    let text = TraceReader::new(rt.alloc(), look_of(form_of(rt, matches)));
    let reader = &mut Recorded::new(&mut input);
    let done = show_trace(rt.alloc(), reader, &mut Recorded::new(&mut output), text);
    match done {
        Ok(()) => 0,
        Err(Stopped::Run(fault)) => {
            let call = input.failed_call().or(output.failed_call());
            announce_failure(rt, Some(matches), &Failure::of_run(fault, call))
        }
        Err(Stopped::Text(fault)) => report_trace_fault(rt, fault),
    }
}

/// How the line of a packet looks. No other form is taken with a trace.
fn look_of(form: Form) -> Look {
    match form {
        Form::Columns(look) => Look::Columns {
            colours: look.colours,
            width: look.width,
        },
        Form::Lines | Form::Json => Look::Lines,
    }
}

/// Shows the packets of a trace that comes from a reader. The lines of a chunk are written before the next chunk is read, and before a fault
/// is reported.
fn show_trace<R: Read, W: Write>(
    alloc: Global,
    reader: &mut Recorded<R>,
    writer: &mut Recorded<W>,
    text: TraceReader,
) -> Result<(), Stopped> {
    let mut text = text;
    let mut lines = Vec::new(alloc);
    let mut chunk = [0; CHUNK];
    for _ in 0..TURNS {
        let count = receive(reader, &mut chunk)?;
        if count == 0 {
            let ended = text.finish(&mut lines);
            send(writer, &lines)?;
            flush(writer)?;
            return Ok(ended?);
        }
        let fed = text.feed(&chunk[..count], &mut lines);
        send(writer, &lines)?;
        flush(writer)?;
        fed?;
        lines.clear();
    }
    Err(Stopped::Run(RunFault::ReadLimit))
}

/// Reports why a trace is refused: by its error line and, if standard error is a terminal, by a second line with the details. Returns the
/// exit status.
fn report_trace_fault(rt: &HostRuntime, fault: TraceFault) -> u8 {
    let line = match fault {
        TraceFault::LongLine(line) | TraceFault::NoPackets(line) => line,
        TraceFault::OutOfMemory => return announce_fault(rt, ProgramFault::OutOfMemory),
    };
    let _ = eprintln!(rt; "git2show: BadTrace at {line}");
    if rt.stderr().is_terminal() {
        let _ = explain_trace(rt, fault);
    }
    STATUS
}

/// Prints on standard error why a trace is refused.
fn explain_trace(rt: &HostRuntime, fault: TraceFault) -> io::Result<()> {
    match fault {
        TraceFault::LongLine(line) => {
            eprintln!(rt; "line {line} is longer than {LONGEST_TRACE_LINE} bytes")
        }
        TraceFault::NoPackets(line) => {
            eprintln!(rt;
                "the text ends before line {line}, and none of its lines is one of GIT_TRACE_PACKET"
            )
        }
        TraceFault::OutOfMemory => Ok(()),
    }
}
