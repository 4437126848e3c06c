//! Runs worked cases: packets, requests, sessions, advertisements and lines of text, each as a text describes it, with every cut and every
//! end of the input.
#![tactic(auto)]

mod asking;
mod case_reports;
mod cases;
mod checks;
mod clients;
mod ends;
mod escapes;
mod host_runs;
mod hosts;
mod lists;
mod packets;
mod plays;
mod repo_reports;
mod requests;
mod runs;
mod script;
mod serving;
mod sessions;
mod setup;
mod tables;
mod texts;
mod trouble;
mod views;
mod wordings;

use cases::Count;
use std::io::Read;
use std::process::ExitCode;
use std::{env, fs, io};
use trouble::Trouble;

fn run_text(rt: &HostRuntime, count: &mut Count, text: &[u8]) -> Result<(), Trouble> {
    match str::from_utf8(text) {
        Ok(text) => count.run_all(rt, text),
        Err(_) => Err(Trouble::BadCase("no text")),
    }
}

/// Runs the cases of the files that the command line names, or of standard input if it names none.
fn run(rt: &HostRuntime, count: &mut Count) -> Result<(), Trouble> {
    let alloc = rt.alloc();
    let words: Vec<String> = env::args(rt)?.collect(alloc)?;
    let mut has_files = false;
    for path in words.as_slice().iter().skip(1) {
        has_files = true;
        rt.println(path)?;
        run_text(rt, count, fs::read(rt, path.as_str())?.as_slice())?;
    }
    if !has_files {
        let mut text = Vec::new(alloc);
        rt.stdin().read_to_end(&mut text)?;
        run_text(rt, count, text.as_slice())?;
    }
    Ok(())
}

/// The line that reports why a file was not run to its end.
fn reason_of(trouble: &Trouble) -> &'static str {
    match trouble {
        Trouble::OutOfMemory => "worked_conversations: memory ran out",
        Trouble::BadCase(_) => "worked_conversations: a file is no text in UTF-8",
        _ => "worked_conversations: a file cannot be read",
    }
}

fn main(rt: HostRuntime) -> io::Result<ExitCode> {
    let mut count = Count::default();
    let went = run(&rt, &mut count);
    let (passed, failed) = (count.passed, count.failed);
    rt.println(format_args!("{passed} cases went as they say, {failed} did not"))?;
    match went {
        Ok(()) if failed == 0 => Ok(ExitCode::SUCCESS),
        Ok(()) => Ok(ExitCode::FAILURE),
        Err(trouble) => {
            rt.eprintln(reason_of(&trouble))?;
            Ok(ExitCode::FAILURE)
        }
    }
}
