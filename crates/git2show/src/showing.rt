//! The packets of standard input, on standard output.

use crate::failures::{Failure, Stream, Watched};
use crate::{CHUNK, TURNS, flag_argument};
use clap::{Arg, ArgMatches, Command, value_parser};
use git_pkt::{Recorded, Retries};
use git2show_lib::{Form, Look, Tally, View, show, show_view, summarize};
use std::alloc::{AllocError, Global};
use std::env::{self, VarError};
use std::io::IsTerminal;

/// The minimum number of columns of a line.
const NARROWEST: i64 = 40;

/// The maximum number of columns of a line.
const WIDEST: i64 = 200;

/// The default number of columns of a line.
const COLUMNS: u32 = 80;

/// The words that may follow `show`.
pub(crate) fn show_command<'a>(alloc: Global) -> Result<Command<'a>, AllocError> {
    Command::new(alloc, "show")
        .about(
            "Prints a line for each packet on standard input: its offset, kind, length and payload",
        )
        .arg(flag_argument(alloc, "pretty").help(
            "Lines of columns for a reader, with a summary below them: what a terminal gets, with colours",
        ))?
        .arg(
            flag_argument(alloc, "json")
                .conflicts_with("pretty")?
                .help("A JSON object for each packet"),
        )?
        .arg(
            flag_argument(alloc, "plain")
                .conflicts_with("pretty")?
                .conflicts_with("json")?
                .help("Lines of text, also on a terminal"),
        )?
        .arg(width_argument(alloc))?
        .arg(flag_argument(alloc, "no-pack").help("Leaves out packets with bytes of a pack"))?
        .arg(
            Arg::new(alloc, "from")
                .long("from")
                .value_name("OFFSET")
                .value_parser(value_parser!(u64))
                .help("Leaves out packets before this offset"),
        )?
        .arg(
            Arg::new(alloc, "only")
                .long("only")
                .value_name("COMMAND")
                .help(
                    "Only the requests with this command, as fetch or ls-refs, of what a client sent",
                ),
        )?
        .arg(
            flag_argument(alloc, "trace")
                .conflicts_with("json")?
                .conflicts_with("no-pack")?
                .conflicts_with("from")?
                .conflicts_with("only")?
                .help(
                    "Standard input is a text that GIT_TRACE_PACKET wrote: a line for each packet that it names, of both ends",
                ),
        )
}

/// The argument for the width of a line of columns.
pub(crate) fn width_argument<'a>(alloc: Global) -> Arg<'a> {
    Arg::new(alloc, "width")
        .long("width")
        .value_name("N")
        .value_parser(value_parser!(u32).range(NARROWEST..=WIDEST))
        .help("How many columns a line of --pretty has at most [default: 80]")
}

/// Shows the packets of standard input.
pub(crate) fn run_show(rt: &HostRuntime, matches: &ArgMatches<'_>) -> Result<(), Failure> {
    let mut input = Watched::new(Stream::Input, Retries::new(rt.stdin()));
    let mut output = Watched::new(Stream::Output, rt.stdout());
    let mut chunk = [0; CHUNK];
    let mut tally = Tally::START;
    let form = form_of(rt, matches);
    let reader = &mut Recorded::new(&mut input);
    let writer = &mut Recorded::new(&mut output);
    let done = match view_of(matches, form) {
        Some(view) => show_view(reader, writer, &mut chunk, TURNS, view, &mut tally),
        None => show(reader, writer, &mut chunk, TURNS),
    };
    let done = match done {
        Ok(()) if matches!(form, Form::Columns(_)) && tally.stray.is_none() => {
            summarize(tally, &mut Recorded::new(&mut output))
        }
        _ => done,
    };
    match (done, tally.stray) {
        (Ok(()), None) => Ok(()),
        (Ok(()), Some(offset)) => Err(Failure::of_stray(offset)),
        (Err(fault), _) => Err(Failure::of_run(
            fault,
            input.failed_call().or(output.failed_call()),
        )),
    }
}

/// How packets are shown in this form, by the command line. Without options their lines are the plain ones.
fn view_of<'a>(matches: &'a ArgMatches<'_>, form: Form) -> Option<View<'a>> {
    let view = View {
        form,
        from: matches.get_one::<u64>("from").unwrap_or(0),
        no_pack: matches.get_flag("no-pack"),
        only: matches.get_str("only").map(|command| command.as_bytes()),
    };
    if view.form == Form::Lines && view.from == 0 && !view.no_pack && view.only.is_none() {
        return None;
    }
    Some(view)
}

/// The form of a packet's line, by the command line. A terminal gets columns if no other form is chosen.
pub(crate) fn form_of(rt: &HostRuntime, matches: &ArgMatches<'_>) -> Form {
    let on_terminal = rt.stdout().is_terminal();
    if matches.get_flag("json") {
        return Form::Json;
    }
    if matches.get_flag("plain") || !(on_terminal || matches.get_flag("pretty")) {
        return Form::Lines;
    }
    Form::Columns(look_on(rt, on_terminal, matches.get_one::<u32>("width")))
}

/// What lines of columns look like: with colours on a terminal, unless the environment forbids them, and of this width or the default one.
pub(crate) fn look_on(rt: &HostRuntime, terminal: bool, width: Option<u32>) -> Look {
    Look {
        colours: terminal && !forbids_colours(rt),
        width: width.unwrap_or(COLUMNS),
    }
}

/// Whether the environment forbids colours: it has a `NO_COLOR` that is not empty.
fn forbids_colours(rt: &HostRuntime) -> bool {
    match env::var(rt, "NO_COLOR") {
        Ok(value) => !value.is_empty(),
        Err(VarError::NotPresent) => false,
        Err(VarError::NotUnicode | VarError::OutOfMemory) => true,
    }
}
