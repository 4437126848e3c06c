//! A recorded conversation in two files: checked, and shown.

use crate::conversation::{Columns, Half, show_conversation};
use crate::failures::{Failure, FileArgument, Stream, Watched};
use crate::showing::{look_on, width_argument};
use crate::{
    CHUNK, TURNS, buffered_output, ending_of, flag_argument, format_argument, format_of, open,
    stateless_argument, watched_file,
};
use clap::{Arg, ArgMatches, Command};
use git_pkt::{Recorded, Retries, flush};
use git2show_lib::{CheckFault, Look, ProgramFault, check};
use std::alloc::{AllocError, Global};
use std::fs::File;
use std::io::{self, BufReader, IsTerminal, Read, Seek, SeekFrom, Write};

/// How many columns the mark of a direction takes.
const MARK: u32 = 2;

/// The words that may follow `check`.
pub(crate) fn check_command<'a>(alloc: Global) -> Result<Command<'a>, AllocError> {
    let command = Command::new(alloc, "check")
        .about(
            "Checks a recorded conversation, and prints its transcript: the requests and the responses to them",
        )
        .arg(
            Arg::new(alloc, "REQUESTS")
                .required(true)
                .help("File of what the client sent"),
        )?
        .arg(
            Arg::new(alloc, "RESPONSES")
                .required(true)
                .help("File of what the server sent, its advertisement first"),
        )?
        .arg(flag_argument(alloc, "explain").help(
            "Shows the packets up to the one that is refused, on standard error, even if that is no terminal",
        ))?;
    with_columns(alloc, command)?
        .arg(format_argument(alloc))?
        .arg(stateless_argument(
            alloc,
            "Each response ends with a response-end packet, as Git's remote helper for HTTP passes it on to Git",
        ))
}

/// A command with the words for a conversation in columns.
fn with_columns<'a>(alloc: Global, command: Command<'a>) -> Result<Command<'a>, AllocError> {
    command
        .arg(flag_argument(alloc, "pretty").help(
            "Lines of columns instead, with the packets of both files up to the one that is refused: > from the client, < from the server",
        ))?
        .arg(width_argument(alloc).requires_arg("pretty")?)?
        .arg(
            flag_argument(alloc, "no-pack")
                .requires_arg("pretty")?
                .help("Leaves out packets with bytes of a pack"),
        )
}

/// Checks the two named files, and writes the transcript or the packets to standard output.
pub(crate) fn run_check(rt: &HostRuntime, matches: &ArgMatches<'_>) -> Result<(), Failure> {
    if matches.get_flag("pretty") {
        return show_checked(rt, matches);
    }
    let mut requests = watched_file(rt, matches, FileArgument::Requests)?;
    let mut responses = watched_file(rt, matches, FileArgument::Responses)?;
    let mut output = buffered_output(rt)?;
    check_streams(rt, matches, &mut requests, &mut responses, &mut output)
}

/// Checks what a client and a server sent, and writes the transcript.
fn check_streams<Q: Read, R: Read, W: Write>(
    rt: &HostRuntime,
    matches: &ArgMatches<'_>,
    requests: &mut Watched<Q>,
    responses: &mut Watched<R>,
    output: &mut Watched<W>,
) -> Result<(), Failure> {
    let mut chunk = [0; CHUNK];
    let mut other_chunk = [0; CHUNK];
    let done = check(
        rt.alloc(),
        &mut Recorded::new(&mut *requests),
        &mut Recorded::new(&mut *responses),
        format_of(matches),
        ending_of(matches),
        &mut chunk,
        &mut other_chunk,
        &mut Recorded::new(&mut *output),
        TURNS,
    );
    let inputs = requests.failed_call().or(responses.failed_call());
    done.map_err(|fault| Failure::of_run(fault, inputs.or(output.failed_call())))
}

/// Checks the two named files, and shows their packets on standard output. The files are read twice, so what has no beginning to go back to,
/// such as a pipe, is refused before anything is read.
fn show_checked(rt: &HostRuntime, matches: &ArgMatches<'_>) -> Result<(), Failure> {
    let requests = open(rt, matches, FileArgument::Requests)?;
    let responses = open(rt, matches, FileArgument::Responses)?;
    let checked = check_streams(
        rt,
        matches,
        &mut from_start(&requests, FileArgument::Requests)?,
        &mut from_start(&responses, FileArgument::Responses)?,
        &mut Watched::new(Stream::Output, io::sink()),
    );
    let refused = Refused::of(&checked);
    let shown = show_files(
        rt,
        matches,
        from_start(&requests, FileArgument::Requests)?,
        from_start(&responses, FileArgument::Responses)?,
        refused,
    );
    checked?;
    shown
}

/// A file that is read from its start.
fn from_start<'a>(
    file: &'a File,
    argument: FileArgument,
) -> Result<Watched<Retries<&'a File>>, Failure> {
    let mut file = file;
    match file.seek(SeekFrom::Start(0)) {
        Ok(_) => Ok(Watched::new(Stream::File(argument), Retries::new(file))),
        Err(error) => Err(Failure::of_file(argument, error)),
    }
}

/// Where a conversation is refused.
#[derive(Clone, Copy, Debug)]
struct Refused {
    /// The offset in the requests, if it is there.
    requests: Option<u64>,
    /// The offset in the responses, if it is there.
    responses: Option<u64>,
}

impl Refused {
    /// Where a check refused it.
    fn of(checked: &Result<(), Failure>) -> Refused {
        let mut refused = Refused {
            requests: None,
            responses: None,
        };
        if let Err(failure) = checked {
            match failure.fault {
                ProgramFault::Check(CheckFault::Requests(fault)) => {
                    refused.requests = Some(fault.offset);
                }
                ProgramFault::Check(CheckFault::Responses(fault)) => {
                    refused.responses = Some(fault.offset);
                }
                _ => {}
            }
        }
        refused
    }
}

/// Shows what a client and a server sent, up to where it is refused, on standard output.
fn show_files<Q: Read + Drop, R: Read + Drop>(
    rt: &HostRuntime,
    matches: &ArgMatches<'_>,
    requests: Watched<Q>,
    responses: Watched<R>,
    refused: Refused,
) -> Result<(), Failure> {
    let mut requests = requests;
    let mut responses = responses;
    let mut output = buffered_output(rt)?;
    let done = show_streams(
        rt,
        matches,
        &mut requests,
        &mut responses,
        refused,
        &mut Recorded::new(&mut output),
    );
    let inputs = requests.failed_call().or(responses.failed_call());
    done.map_err(|fault| Failure::of_run(fault, inputs.or(output.failed_call())))
}

/// Shows what a client and a server sent, up to where it is refused. What was shown is written also if a read fails.
fn show_streams<Q: Read, R: Read, W: Write>(
    rt: &HostRuntime,
    matches: &ArgMatches<'_>,
    requests: &mut Q,
    responses: &mut R,
    refused: Refused,
    writer: &mut Recorded<W>,
) -> Result<(), ProgramFault> {
    let requests = buffered(rt, requests)?;
    let responses = buffered(rt, responses)?;
    let shown = show_conversation(
        &mut Half::of_client(requests, refused.requests),
        &mut Half::of_server(responses, refused.responses),
        ending_of(matches),
        columns_of(rt, matches),
        writer,
    );
    let flushed = flush(writer);
    shown.and(flushed).map_err(ProgramFault::Run)
}

/// A reader with a buffer.
fn buffered<R: Read + Drop>(rt: &HostRuntime, reader: R) -> Result<BufReader<R>, ProgramFault> {
    BufReader::with_capacity(rt.alloc(), CHUNK, reader).map_err(|_| ProgramFault::OutOfMemory)
}

/// How the packets look, by the command line.
fn columns_of(rt: &HostRuntime, matches: &ArgMatches<'_>) -> Columns {
    let look = look_on(
        rt,
        rt.stdout().is_terminal(),
        matches.get_one::<u32>("width"),
    );
    Columns {
        look: Look {
            colours: look.colours,
            width: look.width.saturating_sub(MARK),
        },
        no_pack: matches.get_flag("no-pack"),
    }
}
