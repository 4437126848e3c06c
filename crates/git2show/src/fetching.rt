//! A client on standard input and output.

ghost use Rattle.std.specs.Prelude.{◌≡◌, true, false};
ghost use Rattle.git_client.specs.Machine.Client.{wants_input};

use crate::failures::{Failure, FileArgument, Stream, Watched};
use crate::pack_file::PackFile;
use crate::remote_lines::RemoteLines;
use crate::{CHUNK, TURNS, ending_of, format_of, read_requests};
use clap::ArgMatches;
use git_client::{Client, converse};
use git_msg::{Argument, Request, TextWord};
use git_pkt::{Discard, Output, Recorded, Retries, escape_into};
use git2show_lib::ProgramFault;
use std::alloc::Global;
use std::fs::File;
use std::io::{self, BufWriter, IsTerminal, Write};

/// How many bytes of a message are shown at a time.
const PART: usize = 256;

/// The size of a buffer for their escapes.
const SHOWN: usize = 4 * PART;

/// Sends the requests of the named script on standard output, and receives the answers on standard input. The bytes of packs go to the
/// named file, which is unchanged if the run fails, and the transcript to a file too, or to standard error. If the command line asks for
/// it, or standard error is a terminal, the server's progress is shown there.
pub(crate) fn run_fetch(rt: &HostRuntime, matches: &ArgMatches<'_>) -> Result<(), Failure> {
    let mut requests = read_requests(rt, matches, format_of(matches))?;
    add_server_options(matches, &mut requests)?;
    let path = matches.get_str("pack").unwrap_or("");
    let PackFile { file, part } = PackFile::open(rt, path).map_err(pack_failure)?;
    let done = fetch_into(rt, matches, requests, &file);
    let Some(part) = part else {
        return done;
    };
    match done {
        Ok(()) => part.finish(rt, &file).map_err(pack_failure),
        Err(failure) => {
            part.remove(rt);
            Err(failure)
        }
    }
}

/// Adds the server options of the command line to each request.
fn add_server_options(
    matches: &ArgMatches<'_>,
    requests: &mut Vec<Request<Global>>,
) -> Result<(), Failure> {
    let options = matches.get_strs("server-option").unwrap_or(&[]);
    for request in requests.iter_mut() {
        for option in options {
            let option = Argument::Text(TextWord::ServerOption, option.as_bytes());
            request.add(&option).map_err(Failure::of_server_option)?;
        }
    }
    Ok(())
}

/// The failure of a pack that cannot be made, or put in its place.
fn pack_failure(error: io::Error) -> Failure {
    Failure::of_file(FileArgument::Pack, error)
}

/// Sends the requests in their order, writes the bytes of packs, and writes the transcript to the place that the command line names.
fn fetch_into(
    rt: &HostRuntime,
    matches: &ArgMatches<'_>,
    requests: Vec<Request<Global>>,
    pack: &File,
) -> Result<(), Failure> {
    match matches.get_str("transcript") {
        Some(path) => {
            let transcript = File::create(rt, path).map_err(|error| Failure::of_file(
                FileArgument::Transcript,
                error,
            ))?;
            let stream = Stream::File(FileArgument::Transcript);
            let transcript = Watched::new(stream, buffered(rt, transcript)?);
            fetch(rt, matches, requests, pack, transcript)
        }
        None => {
            let transcript = Watched::new(Stream::Error, buffered(rt, rt.stderr())?);
            fetch(rt, matches, requests, pack, transcript)
        }
    }
}

/// Sends the requests in their order, and writes the bytes of packs, the transcript, and the server's progress if it is to be shown. If the
/// server refuses a request, its message goes to standard error.
fn fetch<O: Write + Drop>(
    rt: &HostRuntime,
    matches: &ArgMatches<'_>,
    requests: Vec<Request<Global>>,
    pack: &File,
    transcript: Watched<O>,
) -> Result<(), Failure> {
    let mut client = Client::new(format_of(matches), ending_of(matches));
    let done = if matches.get_flag("progress") || rt.stderr().is_terminal() {
        let mut lines = RemoteLines::new(buffered(rt, rt.stderr())?);
        let mut progress = Recorded::new(&mut lines);
        let done = ask_all(rt, &mut client, requests, pack, transcript, &mut progress);
        let _ = lines.end();
        done
    } else {
        ask_all(rt, &mut client, requests, pack, transcript, &mut Discard)
    };
    if let Some(message) = client.message() {
        let _ = announce_message(rt, message);
    }
    done
}

/// Sends the requests on standard output, and receives the answers on standard input.
fn ask_all<O: Write + Drop, E: Output>(
    rt: &HostRuntime,
    client: &mut Client<Global>,
    requests: Vec<Request<Global>>,
    pack: &File,
    mut transcript: Watched<O>,
    progress: &mut E,
) -> Result<(), Failure>
    requires waits { wants_input client.old ≡ true }
    requires sound { E.failed progress.old ≡ false }
{
    let mut input = Watched::new(Stream::Input, Retries::new(rt.stdin()));
    let mut output = Watched::new(Stream::Output, rt.stdout());
    let mut pack = Watched::new(Stream::File(FileArgument::Pack), pack);
    let done = converse(
        &mut Recorded::new(&mut input),
        &mut Recorded::new(&mut output),
        &mut [0; CHUNK],
        client,
        requests,
        &mut Recorded::new(&mut transcript),
        &mut Recorded::new(&mut pack),
        progress,
        TURNS,
    );
    let wire = input.failed_call().or(output.failed_call());
    let files = transcript.failed_call().or(pack.failed_call());
    done.map_err(|fault| Failure::of_run(fault, wire.or(files)))
}

/// A writer over this one that passes on what it has at each flush, and before that only in large chunks.
fn buffered<O: Write + Drop>(rt: &HostRuntime, inner: O) -> Result<BufWriter<O>, ProgramFault> {
    BufWriter::with_capacity(rt.alloc(), CHUNK, inner).map_err(|_| ProgramFault::OutOfMemory)
}

/// Writes a server's message on one line of standard error, without the line feed at its end, and each byte as `show` shows it.
fn announce_message(rt: &HostRuntime, message: &[u8]) -> io::Result<()> {
    let mut error = rt.stderr();
    let text = match message {
        [front @ .., b'\n'] => front,
        _ => message,
    };
    error.write_all(b"remote error: ")?;
    for part in text.chunks(PART) {
        let mut shown = [0; SHOWN];
        let end = escape_into(part, &mut shown, 0);
        if let Some(line) = shown.get(..end) {
            error.write_all(line)?;
        }
    }
    error.write_all(b"\n")
}
