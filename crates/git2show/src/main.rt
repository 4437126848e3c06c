//! The program `git2show`: shows, checks, serves, fetches and plays conversations of Git's wire protocol.
#![tactic(auto)]

ghost use Rattle.std.specs.Prelude.{◌<◌};

mod checking;
mod conversation;
mod explanations;
mod failures;
mod fetching;
mod line_reasons;
mod pack_file;
mod packets_around;
mod reasons;
mod remote_lines;
mod showing;
mod tracing;

use crate::checking::{check_command, run_check};
use crate::explanations::explain;
use crate::failures::{Cause, FailedCall, Failure, FileArgument, Stream, Watched};
use crate::fetching::run_fetch;
use crate::showing::{run_show, show_command};
use crate::tracing::run_trace;
use clap::error::ErrorKind;
use clap::{Arg, ArgAction, ArgMatches, Command, Error, value_parser};
use git_client::Ending;
use git_loop::OneInput;
use git_msg::{Limits, Offer, Request};
use git_names::Format;
use git_pkt::{Discard, LONGEST_PACKET, Recorded, Retries, RunFault};
use git_repository::{LONGEST_LINE, Packs, RepositoryReader, TextFault};
use git_server::{
    LateRepo, ListRepo, Outcome, Pack, Repo, Server, serve, take_request, write_pending,
};
use git2show_lib::{ProgramFault, play, read_script, report};
use std::alloc::{AllocError, Global};
use std::fs::File;
use std::io::{BufWriter, IsTerminal, Read, Stdout, Write};
use std::process::ExitCode;
use std::{env, fs, io};

/// How many bytes are read at a time.
const CHUNK: usize = 65_536;

/// The maximum number of reads of a run.
const TURNS: u64 = 1_073_741_824;

/// The maximum limit on the bytes of a request's argument lines.
const MOST_KEPT: u32 = 1_073_741_824;

/// The maximum size of a chunk in a played conversation, and the default.
const LONGEST_CUT: u32 = 65_536;

/// The exit status if the command line is refused.
const BAD_COMMAND_LINE: u8 = 2;

/// The text below the list of commands: the exit statuses, and the one error line whose word needs an explanation.
const STATUSES: &str =
    "Status: 0 if all went well; 1, with one line on standard error, if a stream or a file is at fault; 2 if the command line is.
An error is reported by name and offset, and on a terminal a second line explains it.
`File` alone: a file cannot be opened or made, or a text, pack or script cannot be read.";

/// The object formats, as the command line names them.
static FORMATS: [&str; 2] = ["sha1", "sha256"];

/// The words that may follow the program's name.
fn command<'a>(alloc: Global) -> Result<Command<'a>, AllocError> {
    Command::new(alloc, "git2show")
        .version("0.3.0")
        .about(
            "Shows, checks, serves, fetches and plays conversations of Git's wire protocol, version 2",
        )
        .after_help(STATUSES)
        .subcommand_required(true)
        .subcommand(show_command(alloc)?)?
        .subcommand(check_command(alloc)?)?
        .subcommand(serve_command(alloc)?)?
        .subcommand(fetch_command(alloc)?)?
        .subcommand(play_command(alloc)?)
}

/// The words that may follow `serve`.
fn serve_command<'a>(alloc: Global) -> Result<Command<'a>, AllocError> {
    let command = Command::new(alloc, "serve").about(
        "Answers the requests on standard input, on standard output",
    );
    with_repository(alloc, command)?
        .arg(
            Arg::new(alloc, "limit")
                .long("limit")
                .value_name("N")
                .value_parser(value_parser!(u32).range(..=i64::from(MOST_KEPT)))
                .help(
                    "Refuses a request whose arguments and server options have more than N bytes [default: 16777216]",
                ),
        )?
        .arg(flag_argument(alloc, "stateless-rpc").help(
            "Answers one request, without an advertisement, and ends",
        ))?
        .arg(
            flag_argument(alloc, "http-backend-info-refs")
                .visible_alias("advertise-refs")?
                .help("Sends the advertisement alone, and reads no request"),
        )?
        .arg(Arg::new(alloc, "DIR").help(
            "The repository that Git or ssh names; nothing is read from it",
        ))
}

/// The words that may follow `fetch`.
fn fetch_command<'a>(alloc: Global) -> Result<Command<'a>, AllocError> {
    Command::new(alloc, "fetch")
        .about(
            "Sends a script's requests on standard output, reads a server's responses on standard input, and writes the packs",
        )
        .arg(script_argument(alloc))?
        .arg(file_argument(alloc, "pack").help(
            "File to write the pack to: the bytes of all packs received",
        ))?
        .arg(
            Arg::new(alloc, "transcript")
                .long("transcript")
                .value_name("FILE")
                .help("File to write the transcript to [default: standard error]"),
        )?
        .arg(flag_argument(alloc, "progress").help(
            "Shows the server's progress on standard error, even if that is no terminal",
        ))?
        .arg(
            Arg::new(alloc, "server-option")
                .long("server-option")
                .value_name("OPTION")
                .action(ArgAction::Append)
                .help("Sends this server option with each request; may be given several times"),
        )?
        .arg(format_argument(alloc))?
        .arg(stateless_argument(
            alloc,
            "Each response ends with a response-end packet, as Git's remote helper for HTTP passes it on to Git",
        ))
}

/// The words that may follow `play`.
fn play_command<'a>(alloc: Global) -> Result<Command<'a>, AllocError> {
    let command = Command::new(alloc, "play").about(
        "Runs a server and a client against each other in memory, and prints the transcript; the pack's bytes are dropped",
    );
    with_repository(alloc, command)?
        .arg(script_argument(alloc))?
        .arg(
            Arg::new(alloc, "cut")
                .long("cut")
                .value_name("N")
                .value_parser(value_parser!(u32).range(1..=i64::from(LONGEST_CUT)))
                .help("Passes bytes in chunks of at most N [default: 65536]"),
        )?
        .arg(stateless_argument(
            alloc,
            "Each request has a server of its own, and each response ends with a response-end packet",
        ))
}

/// The command with the arguments that name the files of a repository: its text, its pack, and the pack for requests that have a filter.
fn with_repository<'a>(alloc: Global, command: Command<'a>) -> Result<Command<'a>, AllocError> {
    command
        .arg(file_argument(alloc, "repo").help(
            "Text that lists the references, the objects and where the history is cut off, one to a line",
        ))?
        .arg(file_argument(alloc, "pack").help("Pack for answers to fetch"))?
        .arg(
            Arg::new(alloc, "filtered")
                .long("filtered")
                .value_name("FILE")
                .help("Pack for answers to a fetch with a filter [default: that of --pack]"),
        )
}

/// An argument that has to name a file.
fn file_argument<'a>(alloc: Global, name: &'a str) -> Arg<'a> {
    Arg::new(alloc, name)
        .long(name)
        .value_name("FILE")
        .required(true)
}

/// The argument that names a script.
fn script_argument<'a>(alloc: Global) -> Arg<'a> {
    file_argument(alloc, "script").help("Text of the requests, one argument to a line")
}

/// The argument for the object format.
fn format_argument<'a>(alloc: Global) -> Arg<'a> {
    Arg::new(alloc, "format")
        .long("format")
        .value_name("FORMAT")
        .value_parser(FORMATS.as_slice())
        .default_value("sha1")
        .help("Object format of the repository")
}

/// The argument for how responses end.
fn stateless_argument<'a>(alloc: Global, help: &'a str) -> Arg<'a> {
    flag_argument(alloc, "stateless").help(help)
}

/// An argument without a value: the command line has it or not.
fn flag_argument<'a>(alloc: Global, name: &'a str) -> Arg<'a> {
    Arg::new(alloc, name).long(name).action(ArgAction::SetTrue)
}

/// Opens the file that an argument names, to be read in chunks.
fn watched_file(
    rt: &HostRuntime,
    matches: &ArgMatches<'_>,
    argument: FileArgument,
) -> Result<WatchedFile, Failure> {
    let file = open(rt, matches, argument)?;
    Ok(Watched::new(Stream::File(argument), Retries::new(file)))
}

/// The object format, by the command line.
fn format_of(matches: &ArgMatches<'_>) -> Format {
    matches
        .get_str("format")
        .and_then(|name| Format::read(name.as_bytes()))
        .unwrap_or(Format::Sha1)
}

/// How responses end, by the command line.
fn ending_of(matches: &ArgMatches<'_>) -> Ending {
    match matches.get_flag("stateless") {
        true => Ending::ResponseEnd,
        false => Ending::FlushOnly,
    }
}

/// Opens the file that an argument names.
fn open(
    rt: &HostRuntime,
    matches: &ArgMatches<'_>,
    argument: FileArgument,
) -> Result<File, Failure> {
    let path = matches.get_str(argument.name()).unwrap_or("");
    File::open(rt, path).map_err(|error| Failure::of_file(argument, error))
}

/// Standard output: what is written goes out in large chunks and at each flush. The buffer is no longer than the longest packet, so that
/// such a packet is written from where it lies.
fn buffered_output(rt: &HostRuntime) -> Result<Watched<BufWriter<Stdout>>, ProgramFault> {
    match BufWriter::with_capacity(rt.alloc(), LONGEST_PACKET, rt.stdout()) {
        Ok(output) => Ok(Watched::new(Stream::Output, output)),
        Err(_) => Err(ProgramFault::OutOfMemory),
    }
}

/// A file that is read in chunks.
type WatchedFile = Watched<Retries<File>>;

/// A server of a repository in files.
type FileServer<'a> = Server<LateRepo<&'a mut WatchedFile>, Global>;

/// What a server is to send.
#[derive(Clone, Copy, Debug, PartialEq, Eq)]
enum Service {
    /// The advertisement, and the answer to each request.
    Session,
    /// The advertisement alone.
    Advertisement,
    /// The answer to one request alone.
    Answer,
}

/// What a server is to send, by the command line.
fn service_of(matches: &ArgMatches<'_>) -> Service {
    if matches.get_flag("http-backend-info-refs") {
        return Service::Advertisement;
    }
    match matches.get_flag("stateless-rpc") {
        true => Service::Answer,
        false => Service::Session,
    }
}

/// The limit on what is kept of a request, by the command line. clap refuses more than the maximum; it is checked once more for the prover.
fn limits_of(matches: &ArgMatches<'_>) -> Limits {
    match matches.get_one::<u32>("limit") {
        Some(args) => Limits {
            args: args.min(MOST_KEPT),
        },
        None => Limits::DEFAULT,
    }
}

/// Serves the named repository on standard input and output. Nothing of its packs is read before one is needed.
fn run_serve(rt: &HostRuntime, matches: &ArgMatches<'_>) -> Result<(), Failure> {
    let text = read_text(rt, open(rt, matches, FileArgument::Repo)?)?;
    let mut pack = watched_file(rt, matches, FileArgument::Pack)?;
    let mut filtered = match matches.get_str("filtered") {
        Some(_) => Some(watched_file(rt, matches, FileArgument::Filtered)?),
        None => None,
    };
    let no_packs = Packs {
        pack: Pack::Owned(Vec::new(rt.alloc())),
        filtered: None,
    };
    let lists = judge_repository(text, no_packs)?;
    let repo = LateRepo::new(rt.alloc(), lists, &mut pack, filtered.as_mut());
    let done = serve_repository(rt, matches, repo);
    let filtered_call = filtered.and_then(|file| file.failed_call());
    done.map_err(|failure| failure.with_pack_call(pack.failed_call().or(filtered_call)))
}

/// Serves a repository as the command line asks.
fn serve_repository(
    rt: &HostRuntime,
    matches: &ArgMatches<'_>,
    repo: LateRepo<&mut WatchedFile>,
) -> Result<(), Failure> {
    let offer = Offer::everything(repo.format());
    let service = service_of(matches);
    let advertise = service != Service::Answer;
    let mut server = Server::new(rt.alloc(), repo, offer, limits_of(matches), advertise);
    match service {
        Service::Session => serve_session(rt, &mut server),
        Service::Advertisement => send_pending(rt, &mut server),
        Service::Answer => {
            take_one_request(rt, &mut server)?;
            if server.wants_pack() {
                server.read_packs();
            }
            send_pending(rt, &mut server)
        }
    }
}

/// Answers each request of standard input, on standard output.
fn serve_session(rt: &HostRuntime, server: &mut FileServer<'_>) -> Result<(), Failure> {
    let mut input = Watched::new(Stream::Input, Retries::new(rt.stdin()));
    let mut output = buffered_output(rt)?;
    let done = answer_all(&mut input, &mut output, server);
    ended(done, input.failed_call().or(output.failed_call()))
}

/// Answers each request that comes, up to the session's end. The packs are read once one is needed.
fn answer_all<In: Read, W: Write>(
    input: &mut In,
    output: &mut W,
    server: &mut FileServer<'_>,
) -> Result<Outcome, RunFault> {
    let mut reader = Recorded::new(input);
    let mut chunk = [0; CHUNK];
    let mut requests = OneInput::new(&mut reader, &mut chunk);
    for _ in 0..TURNS {
        if let Some(outcome) = write_pending(&mut Recorded::new(&mut *output), server)? {
            return Ok(outcome);
        }
        let turns = TURNS.saturating_sub(requests.reads());
        take_request(&mut requests, server, turns)?;
        if server.wants_pack() {
            server.read_packs();
        }
    }
    Err(RunFault::ReadLimit)
}

/// Takes one request from standard input, if the server waits for one.
fn take_one_request(rt: &HostRuntime, server: &mut FileServer<'_>) -> Result<(), Failure> {
    if !server.wants_input() {
        return Ok(());
    }
    let mut input = Watched::new(Stream::Input, Retries::new(rt.stdin()));
    let mut reader = Recorded::new(&mut input);
    let mut chunk = [0; CHUNK];
    let done = take_request(&mut OneInput::new(&mut reader, &mut chunk), server, TURNS);
    done.map_err(|fault| Failure::of_run(fault, input.failed_call()))
}

/// Writes on standard output what the server has to send.
fn send_pending(rt: &HostRuntime, server: &mut FileServer<'_>) -> Result<(), Failure> {
    let mut output = buffered_output(rt)?;
    match write_pending(&mut Recorded::new(&mut output), server) {
        Ok(None) => Ok(()),
        Ok(Some(outcome)) => ended(Ok(outcome), None),
        Err(fault) => ended(Err(fault), output.failed_call()),
    }
}

/// What is reported for a session that ended like this. `call` is the one on its streams that failed, if there is one.
fn ended(done: Result<Outcome, RunFault>, call: Option<FailedCall>) -> Result<(), Failure> {
    let fault = match done {
        Ok(Outcome::Flush | Outcome::Closed) => return Ok(()),
        Ok(Outcome::Refused(fault)) => RunFault::Refused(fault),
        Err(fault) => fault,
    };
    Err(Failure::of_run(fault, call))
}

/// Plays the named script over the named repository, and writes the transcript to standard output. All files are read before any is
/// checked.
fn run_play(rt: &HostRuntime, matches: &ArgMatches<'_>) -> Result<(), Failure> {
    let text = read_text(rt, open(rt, matches, FileArgument::Repo)?)?;
    let packs = read_packs(rt, matches)?;
    let script = read_script_text(rt, matches)?;
    let repo = judge_repository(text, packs)?;
    let requests = judge_script(rt.alloc(), &script, repo.format())?;
    play_requests(rt, matches, repo, requests)
}

/// Plays the requests over the repository, and writes the transcript to standard output.
fn play_requests(
    rt: &HostRuntime,
    matches: &ArgMatches<'_>,
    repo: ListRepo,
    requests: Vec<Request<Global>>,
) -> Result<(), Failure> {
    let mut output = buffered_output(rt)?;
    let (_, done) = play(
        rt.alloc(),
        repo,
        requests,
        cut_of(matches),
        ending_of(matches),
        &mut Recorded::new(&mut output),
        &mut Discard,
    );
    done.map_err(|fault| Failure::of_run(fault, output.failed_call()))
}

/// The maximum size of a chunk, by the command line. clap refuses 0 and more than the maximum; it is checked once more for the prover.
fn cut_of(matches: &ArgMatches<'_>) -> usize
    ensures { 0 < result }
{
    let cut = match matches.get_one::<u32>("cut") {
        Some(cut) => cut.clamp(1, LONGEST_CUT),
        None => LONGEST_CUT,
    };
    cut as usize
}

/// Reads the named script.
fn read_requests(
    rt: &HostRuntime,
    matches: &ArgMatches<'_>,
    format: Format,
) -> Result<Vec<Request<Global>>, Failure> {
    let script = read_script_text(rt, matches)?;
    judge_script(rt.alloc(), &script, format)
}

/// Reads the text of the named script, but nothing after a line that is too long already.
fn read_script_text(rt: &HostRuntime, matches: &ArgMatches<'_>) -> Result<Vec<u8>, Failure> {
    let mut file = Retries::new(open(rt, matches, FileArgument::Script)?);
    let mut text = Vec::new(rt.alloc());
    let mut chunk = [0; CHUNK];
    for _ in 0..u64::MAX {
        let count = file
            .read(&mut chunk)
            .map_err(|error| Failure::of_file(FileArgument::Script, error))?;
        text.extend_from_slice(&chunk[..count])
            .map_err(|_| ProgramFault::OutOfMemory)?;
        if count == 0 || ends_too_long(&text) {
            return Ok(text);
        }
    }
    Err(ProgramFault::File.into())
}

/// Whether the last line of a text, which has no LF yet, is longer than a line may be.
fn ends_too_long(text: &[u8]) -> bool {
    text.len() > LONGEST_LINE && !text[text.len() - LONGEST_LINE - 1..].contains(&b'\n')
}

/// The requests of a script.
fn judge_script(
    alloc: Global,
    script: &[u8],
    format: Format,
) -> Result<Vec<Request<Global>>, Failure> {
    match read_script(alloc, script, format, Limits::DEFAULT) {
        Ok(requests) => Ok(requests),
        Err(TextFault::Bad { line }) => Err(Failure {
            fault: ProgramFault::Script(line),
            cause: Cause::ScriptLine(format),
        }),
        Err(TextFault::OutOfMemory) => Err(ProgramFault::OutOfMemory.into()),
    }
}

/// Reads the pack, and then the pack for requests that have a filter, if a file is named for it.
fn read_packs(rt: &HostRuntime, matches: &ArgMatches<'_>) -> Result<Packs, Failure> {
    let pack = Pack::Owned(read_whole(rt, matches, FileArgument::Pack)?);
    let filtered = match matches.get_str("filtered") {
        Some(_) => Some(Pack::Owned(read_whole(rt, matches, FileArgument::Filtered)?)),
        None => None,
    };
    Ok(Packs { pack, filtered })
}

/// The repository of a text that was read, and of its packs.
fn judge_repository(text: RepositoryReader, packs: Packs) -> Result<ListRepo, ProgramFault> {
    match text.finish(packs) {
        Ok(repo) => Ok(repo),
        Err(TextFault::Bad { line }) => Err(ProgramFault::Repo(line)),
        Err(TextFault::OutOfMemory) => Err(ProgramFault::OutOfMemory),
    }
}

/// Reads the text of a repository in chunks, but nothing after a line that is refused.
fn read_text(rt: &HostRuntime, file: File) -> Result<RepositoryReader, Failure> {
    let mut file = Retries::new(file);
    let mut reader = RepositoryReader::new(rt.alloc());
    let mut chunk = [0; CHUNK];
    for _ in 0..u64::MAX {
        if reader.has_refused() || !read_chunk(&mut file, &mut chunk, &mut reader)? {
            return Ok(reader);
        }
    }
    Err(ProgramFault::File.into())
}

/// Reads the next chunk of the text of a repository. Returns whether there was one.
fn read_chunk(
    file: &mut Retries<File>,
    chunk: &mut [u8],
    reader: &mut RepositoryReader,
) -> Result<bool, Failure> {
    let count = file
        .read(chunk)
        .map_err(|error| Failure::of_file(FileArgument::Repo, error))?;
    if count == 0 {
        return Ok(false);
    }
    reader
        .feed(&chunk[..count])
        .map_err(|_| ProgramFault::OutOfMemory)?;
    Ok(true)
}

/// Reads the file that an argument names.
fn read_whole(
    rt: &HostRuntime,
    matches: &ArgMatches<'_>,
    argument: FileArgument,
) -> Result<Vec<u8>, Failure> {
    let path = matches.get_str(argument.name()).unwrap_or("");
    fs::read(rt, path).map_err(|error| Failure::of_file(argument, error))
}

/// Does what the command line asks for. Returns the exit status.
fn run(rt: &HostRuntime, matches: &ArgMatches<'_>) -> u8 {
    let Some((name, words)) = matches.subcommand() else {
        return BAD_COMMAND_LINE;
    };
    let done = match name {
        "show" if words.get_flag("trace") => return run_trace(rt, words),
        "show" => run_show(rt, words),
        "check" => run_check(rt, words),
        "serve" => run_serve(rt, words),
        "fetch" => run_fetch(rt, words),
        "play" => run_play(rt, words),
        // clap takes no other word for a command.
        _ => return BAD_COMMAND_LINE,
    };
    match done {
        Ok(()) => 0,
        Err(failure) => announce_failure(rt, Some(words), &failure),
    }
}

/// Why the command line was refused.
#[derive(Debug, Drop)]
enum NotTaken {
    /// Memory ran out.
    Memory,
    /// A word is no UTF-8.
    NotUtf8,
    /// clap refuses the words, or was asked for help or the version.
    Clap(Error),
}

impl From<AllocError> for NotTaken {
    fn from(_error: AllocError) -> NotTaken {
        NotTaken::Memory
    }
}

impl From<Error> for NotTaken {
    fn from(error: Error) -> NotTaken {
        match error.kind() {
            ErrorKind::OutOfMemory => NotTaken::Memory,
            _ => NotTaken::Clap(error),
        }
    }
}

impl From<io::Error> for NotTaken {
    fn from(error: io::Error) -> NotTaken {
        match error.kind() {
            io::ErrorKind::OutOfMemory => NotTaken::Memory,
            _ => NotTaken::NotUtf8,
        }
    }
}

/// Reads the command line and does what it asks for. Returns the exit status.
fn run_command_line(rt: &HostRuntime) -> Result<u8, NotTaken> {
    let alloc = rt.alloc();
    let words: Vec<String> = env::args(rt)?.collect(alloc)?;
    let matches = command(alloc)?.try_get_matches_from(words.as_slice())?;
    Ok(run(rt, &matches))
}

/// Reports why the command line was refused, by clap's own text. Returns the exit status.
fn announce(rt: &HostRuntime, error: NotTaken) -> u8 {
    match error {
        NotTaken::Memory => announce_fault(rt, ProgramFault::OutOfMemory),
        NotTaken::NotUtf8 => {
            let _ = rt.eprintln("error: an argument is not UTF-8");
            BAD_COMMAND_LINE
        }
        NotTaken::Clap(error) => {
            let printed = error.print(rt);
            if error.use_stderr() {
                return BAD_COMMAND_LINE;
            }
            match printed {
                Ok(()) => 0,
                Err(error) => {
                    let stream = Stream::Output;
                    let call = Some(FailedCall { stream, error });
                    announce_failure(rt, None, &Failure::of_run(RunFault::WriteFault, call))
                }
            }
        }
    }
}

/// Reports a failure: by its error line and, if standard error is a terminal or details are asked for, by these below it. The words are those after
/// the command, if the command line was accepted. Returns the exit status.
pub(crate) fn announce_failure(
    rt: &HostRuntime,
    words: Option<&ArgMatches<'_>>,
    failure: &Failure,
) -> u8 {
    let status = announce_fault(rt, failure.fault);
    if rt.stderr().is_terminal() || wants_explanation(words) {
        let _ = explain(rt, words, failure);
    }
    status
}

/// Whether the command line asks for the details of an error.
fn wants_explanation(words: Option<&ArgMatches<'_>>) -> bool {
    match words {
        Some(words) => words.get_flag("explain"),
        None => false,
    }
}

/// Writes an error's line on standard error. Returns the exit status.
pub(crate) fn announce_fault(rt: &HostRuntime, fault: ProgramFault) -> u8 {
    report(&fault, &mut Recorded::new(rt.stderr()))
}

fn main(rt: HostRuntime) -> ExitCode {
    ExitCode::from(match run_command_line(&rt) {
        Ok(status) => status,
        Err(error) => announce(&rt, error),
    })
}
