//! Why a command failed, and what is known of it beside the error that is reported.

use git_names::Format;
use git_pkt::{Fault, Kind, RunFault};
use git2show_lib::{CheckFault, ProgramFault};
use std::io::{self, Read, Write};

/// Why a command failed.
#[derive(Debug, Drop)]
pub(crate) struct Failure {
    /// The error that is reported.
    pub(crate) fault: ProgramFault,
    /// What is known of its cause.
    pub(crate) cause: Cause,
}

/// What is known of the cause of an error.
#[derive(Clone, Copy, Debug)]
pub(crate) enum Cause {
    /// Nothing but its name.
    Unknown,
    /// A call on a file or a stream failed.
    Call(FailedCall),
    /// A line of a script for this object format is refused.
    ScriptLine(Format),
    /// A packet begins no request, and requests are to be shown.
    Stray,
    /// A server option of the command line is refused.
    ServerOption,
}

/// A call on a file or a stream that failed, with what the system reported.
#[derive(Clone, Copy, Debug)]
pub(crate) struct FailedCall {
    pub(crate) stream: Stream,
    pub(crate) error: io::Error,
}

/// An argument of the command line that names a file. It is no text, so that a stream borrows nothing.
#[derive(Clone, Copy, Debug)]
pub(crate) enum FileArgument {
    Repo,
    Pack,
    Filtered,
    Script,
    Transcript,
    Requests,
    Responses,
}

impl FileArgument {
    /// Its name, as clap knows it.
    pub(crate) fn name(self) -> &'static str {
        match self {
            FileArgument::Repo => "repo",
            FileArgument::Pack => "pack",
            FileArgument::Filtered => "filtered",
            FileArgument::Script => "script",
            FileArgument::Transcript => "transcript",
            FileArgument::Requests => "REQUESTS",
            FileArgument::Responses => "RESPONSES",
        }
    }
}

/// What the program reads or writes.
#[derive(Clone, Copy, Debug)]
pub(crate) enum Stream {
    /// The file that this argument names.
    File(FileArgument),
    /// Standard input.
    Input,
    /// Standard output.
    Output,
    /// Standard error.
    Error,
}

impl Failure {
    /// The failure of an argument's file that cannot be opened, made, read or put in its place.
    pub(crate) fn of_file(argument: FileArgument, error: io::Error) -> Failure {
        let fault = match error.kind() {
            io::ErrorKind::OutOfMemory => ProgramFault::OutOfMemory,
            _ => ProgramFault::File,
        };
        let stream = Stream::File(argument);
        Failure {
            fault,
            cause: Cause::Call(FailedCall { stream, error }),
        }
    }

    /// The failure of a run over streams that ended early. `call` is the one on them that failed, if there is one.
    pub(crate) fn of_run<F: Into<ProgramFault> + Drop>(
        fault: F,
        call: Option<FailedCall>,
    ) -> Failure {
        let fault = fault.into();
        let cause = match call {
            Some(call) if names_a_call(&fault) => Cause::Call(call),
            _ => Cause::Unknown,
        };
        Failure { fault, cause }
    }

    /// The failure of a stream whose requests are to be shown, and which has a packet at this offset that begins none.
    pub(crate) fn of_stray(offset: u64) -> Failure {
        let kind = Kind::NoCommand;
        Failure {
            fault: ProgramFault::Run(RunFault::Refused(Fault { kind, offset })),
            cause: Cause::Stray,
        }
    }

    /// The failure of a server option of the command line.
    pub(crate) fn of_server_option(kind: Kind) -> Failure {
        match kind {
            Kind::OutOfMemory => ProgramFault::OutOfMemory.into(),
            _ => Failure {
                fault: ProgramFault::Run(RunFault::Refused(Fault { kind, offset: 0 })),
                cause: Cause::ServerOption,
            },
        }
    }

    /// The same failure, with the call that failed if the error is that a pack could not be read.
    pub(crate) fn with_pack_call(self, call: Option<FailedCall>) -> Failure {
        match (self.fault, call) {
            (ProgramFault::Run(RunFault::Refused(fault)), Some(call))
                if fault.kind == Kind::PackSource => Failure {
                fault: self.fault,
                cause: Cause::Call(call),
            },
            _ => self,
        }
    }
}

/// Whether the error is that a call on a stream failed.
fn names_a_call(fault: &ProgramFault) -> bool {
    matches!(
        fault,
        ProgramFault::Run(RunFault::ReadFault | RunFault::WriteFault)
            | ProgramFault::Check(CheckFault::ReadFault | CheckFault::WriteFault)
    )
}

impl From<ProgramFault> for Failure {
    fn from(fault: ProgramFault) -> Failure {
        Failure {
            fault,
            cause: Cause::Unknown,
        }
    }
}

/// A reader or a writer that keeps what the system reported about the last call that failed, except an interrupted call, which is made
/// again.
#[derive(Debug, Drop)]
pub(crate) struct Watched<T> {
    inner: T,
    stream: Stream,
    error: Option<io::Error>,
}

impl<T> Watched<T> {
    /// Wraps what reads or writes this stream.
    pub(crate) fn new(stream: Stream, inner: T) -> Watched<T> {
        Watched {
            inner,
            stream,
            error: None,
        }
    }

    /// The last call that failed.
    pub(crate) fn failed_call(&self) -> Option<FailedCall> {
        let error = self.error?;
        let stream = self.stream;
        Some(FailedCall { stream, error })
    }

    fn keep(&mut self, error: io::Error) {
        if error.kind() != io::ErrorKind::Interrupted {
            self.error = Some(error);
        }
    }
}

impl<R: Read> Read for Watched<R> {
    fn read(&mut self, buf: &mut [u8]) -> io::Result<usize> {
        let read = self.inner.read(buf);
        if let Err(error) = &read {
            self.keep(*error);
        }
        read
    }
}

impl<W: Write> Write for Watched<W> {
    fn write(&mut self, buf: &[u8]) -> io::Result<usize> {
        let written = self.inner.write(buf);
        if let Err(error) = &written {
            self.keep(*error);
        }
        written
    }

    fn flush(&mut self) -> io::Result<()> {
        let flushed = self.inner.flush();
        if let Err(error) = &flushed {
            self.keep(*error);
        }
        flushed
    }
}
