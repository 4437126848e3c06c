//! The second line, which explains in words the error that the first line names.

use crate::failures::{Cause, FailedCall, Failure, FileArgument, Stream};
use crate::line_reasons::{repository_reason, script_reason};
use crate::packets_around::show_around;
use crate::reasons::Shown;
use clap::ArgMatches;
use git_names::Format;
use git_pkt::Retries;
use git_repository::LONGEST_LINE;
use git2show_lib::{CheckFault, ProgramFault};
use std::fmt::{self, Display, Formatter};
use std::fs::{self, File};
use std::io::{self, Read};

/// How many bytes of a text are read at a time: more than a line may have.
const PART: usize = LONGEST_LINE + 1;

/// A text whose lines are checked.
#[derive(Clone, Copy, Debug)]
enum Text {
    Repository,
    Script(Format),
}

/// Prints on standard error what is known of a failure beside its name: which file or stream it is, and what the system reported; which word
/// of a line is refused, and why; or the packets of a recording up to the one that is refused. The words are those after the command, if the
/// command line was accepted.
pub(crate) fn explain(
    rt: &HostRuntime,
    words: Option<&ArgMatches<'_>>,
    failure: &Failure,
) -> io::Result<()> {
    if let Cause::Call(call) = failure.cause {
        return explain_call(rt, words, call);
    }
    match (failure.fault, failure.cause) {
        (ProgramFault::Repo(number), _) => {
            explain_line(
                rt,
                path_of(words, FileArgument::Repo),
                number,
                Text::Repository,
            )
        }
        (ProgramFault::Script(number), Cause::ScriptLine(format)) => {
            explain_line(
                rt,
                path_of(words, FileArgument::Script),
                number,
                Text::Script(format),
            )
        }
        // What is shown ends with the packet that is refused.
        (ProgramFault::Check(_), Cause::Unknown) if shows_packets(words) => Ok(()),
        (ProgramFault::Check(CheckFault::Requests(fault)), _) => {
            show_around(rt, path_of(words, FileArgument::Requests), fault.offset)
        }
        (ProgramFault::Check(CheckFault::Responses(fault)), _) => {
            show_around(rt, path_of(words, FileArgument::Responses), fault.offset)
        }
        (_, Cause::ServerOption) => eprintln!(rt;
            "--server-option: at most 65502 bytes, and no line feed"
        ),
        (_, Cause::Stray) => eprintln!(rt; "not what a client sent: no request begins there"),
        _ => Ok(()),
    }
}

/// The file that an argument names.
fn path_of<'a>(words: Option<&'a ArgMatches<'_>>, argument: FileArgument) -> &'a str {
    match words {
        Some(words) => words.get_str(argument.name()).unwrap_or(""),
        None => "",
    }
}

/// Whether the command line asks for the packets on standard output.
fn shows_packets(words: Option<&ArgMatches<'_>>) -> bool {
    match words {
        Some(words) => words.get_flag("pretty"),
        None => false,
    }
}

/// Prints why a line of a file is refused.
fn explain_line(rt: &HostRuntime, path: &str, number: u64, text: Text) -> io::Result<()> {
    let shown = Shown(path.as_bytes());
    let Ok(bytes) = read_again(rt, path, number) else {
        return eprintln!(rt; "line {number} of {shown}, which cannot be read again");
    };
    let reason = match text {
        Text::Repository => repository_reason(&bytes, number),
        Text::Script(format) => script_reason(format, &bytes, number),
    };
    eprintln!(rt; "line {number} of {shown}: {reason}")
}

/// Reads a file once more, up to this line and a chunk of it at least. Anything but a regular file, such as a pipe, cannot be read again.
fn read_again(rt: &HostRuntime, path: &str, number: u64) -> io::Result<Vec<u8>> {
    if !fs::metadata(rt, path)?.is_file() {
        return Err(io::ErrorKind::NotSeekable.into());
    }
    let mut file = Retries::new(File::open(rt, path)?);
    let mut text = Vec::new(rt.alloc());
    let mut chunk = [0; PART];
    // How many lines before it have not ended.
    let mut missing = number.saturating_sub(1);
    for _ in 0..u64::MAX {
        let has_come = missing == 0;
        let count = file.read(&mut chunk)?;
        text.extend_from_slice(&chunk[..count])?;
        if count == 0 || has_come {
            break;
        }
        missing = missing.saturating_sub(count_lines(&chunk[..count]));
    }
    Ok(text)
}

/// How many lines end in a chunk of a text.
fn count_lines(chunk: &[u8]) -> u64 {
    chunk.iter().filter(|byte| **byte == b'\n').count() as u64
}

/// Prints what the system reported about a call.
fn explain_call(
    rt: &HostRuntime,
    words: Option<&ArgMatches<'_>>,
    call: FailedCall,
) -> io::Result<()> {
    let report = Report(call.error);
    match call.stream {
        Stream::File(argument) => {
            let path = Shown(path_of(words, argument).as_bytes());
            eprintln!(rt; "{path}: {report}")
        }
        Stream::Input => eprintln!(rt; "standard input: {report}"),
        Stream::Output => eprintln!(rt; "standard output: {report}"),
        Stream::Error => eprintln!(rt; "standard error: {report}"),
    }
}

/// What the system reported, in words.
#[derive(Clone, Copy, Debug)]
struct Report(io::Error);

impl Display for Report {
    fn fmt<W: fmt::Write>(&self, f: &mut Formatter<W>) -> fmt::Result {
        match self.0.kind() {
            io::ErrorKind::BrokenPipe => write!(f, "closed by the reader"),
            io::ErrorKind::StorageFull => write!(f, "no space left"),
            _ => Display::fmt(&self.0, f),
        }
    }
}
