//! Both sides against each other in memory: in chunks of each length, and with one server for all requests or one for each.

ghost use Rattle.std.specs.Prelude.{◌<◌};

use crate::runs::{Expected, Known, Run, compare};
use crate::script::Script;
use crate::sessions::{Contents, repository};
use crate::texts::copied;
use crate::trouble::Trouble;
use git_client::Ending;
use git_msg::Limits;
use git_pkt::{Recorded, RunFault};
use git_repository::TextFault;
use git_server::Repo;
use git2show_lib::{play, read_script};
use std::alloc::{AllocError, Global};
use test_streams::Sink;

/// The bytes go over in chunks of at most this length, from 1 on.
const SHORT: usize = 65;

/// The maximum length of a chunk in the program `git2show`, with which the bytes go over once more.
const LONGEST: usize = 65_536;

/// How many bytes a response end has.
const RESPONSE_END: u64 = 4;

fn ending_of(alloc: Global, ended: Result<(), RunFault>) -> Result<String, AllocError> {
    match ended {
        Ok(()) => String::from_str(alloc, "closed\n"),
        Err(fault) => format!(in alloc; "refused {fault}\n"),
    }
}

// Plays the script.
fn played(
    alloc: Global,
    contents: Contents<'_>,
    script: &Script,
    cut: usize,
    ending: Ending,
) -> Result<Run, Trouble>
    requires { 0 < cut }
{
    let repo = repository(alloc, contents)?;
    let mut out = Sink::new(Vec::new(alloc), usize::MAX, u32::MAX);
    let mut pack = Sink::new(Vec::new(alloc), usize::MAX, u32::MAX);
    let text = script.input.as_slice();
    let requests = match read_script(alloc, text, repo.format(), Limits::DEFAULT) {
        Ok(requests) => requests,
        Err(TextFault::OutOfMemory) => return Err(Trouble::OutOfMemory),
        Err(TextFault::Bad { line }) => {
            let ending = format!(in alloc; "bad line {line}\n")?;
            return Ok(Run::new(alloc, out.taken, ending, None));
        }
    };
    let (_, ended) = play(
        alloc,
        repo,
        requests,
        cut,
        ending,
        &mut Recorded::new(&mut out),
        &mut Recorded::new(&mut pack),
    );
    let is_flushed = out.flushed == out.taken.len() && pack.flushed == pack.taken.len();
    if ended.is_ok() && !is_flushed {
        return Err(Trouble::Breaks("play leaves something unflushed"));
    }
    let mut run = Run::new(alloc, out.taken, ending_of(alloc, ended)?, None);
    run.pack = pack.taken;
    Ok(run)
}

// How many bytes of response ends the client has received before an error, if there are any: one response end for each whole response.
fn response_ends(given: &[u8], ending: Ending) -> u64 {
    let mut bytes = 0u64;
    for line in given.split(|byte| *byte == b'\n') {
        if ending == Ending::ResponseEnd && line.starts_with(b"end ") {
            bytes = bytes.saturating_add(RESPONSE_END);
        }
    }
    bytes
}

// How a play ends: as the script states, with an error's offset after the response ends.
fn expected_ending(alloc: Global, script: &Script, ending: Ending) -> Result<String, Trouble> {
    let line = script.ending.as_str();
    let Some((fault, offset)) = line.trim_end().split_once(" at ") else {
        return Ok(String::from_str(alloc, line)?);
    };
    let Ok(offset) = offset.parse::<u64>() else {
        return Err(Trouble::BadCase("no offset"));
    };
    let offset = offset.saturating_add(response_ends(script.given.as_slice(), ending));
    Ok(format!(in alloc; "{fault} at {offset}\n")?)
}

fn expected(alloc: Global, script: &Script, ending: Ending) -> Result<Expected, Trouble> {
    Ok(Expected {
        given: copied(alloc, script.given.as_slice())?,
        pack: copied(alloc, script.pack.as_slice())?,
        progress: Vec::new(alloc),
        ending: expected_ending(alloc, script, ending)?,
        used: 0,
        known: Known::All,
    })
}

// Plays it in chunks of each length. Returns how many runs were made.
fn goes_with(
    alloc: Global,
    contents: Contents<'_>,
    script: &Script,
    ending: Ending,
) -> Result<usize, Trouble> {
    let expected = expected(alloc, script, ending)?;
    let mut runs = 0usize;
    for cut in 1..=SHORT {
        compare(
            alloc,
            &played(alloc, contents, script, cut, ending)?,
            &expected,
            cut,
        )?;
        runs = runs.saturating_add(1);
    }
    let run = played(alloc, contents, script, LONGEST, ending)?;
    compare(alloc, &run, &expected, LONGEST)?;
    Ok(runs.saturating_add(1))
}

/// The play goes as the script states, with either ending of the responses. Returns how many runs were made.
pub fn goes(alloc: Global, contents: Contents<'_>, script: &Script) -> Result<usize, Trouble> {
    let by_flush = goes_with(alloc, contents, script, Ending::FlushOnly)?;
    let by_response_end = goes_with(alloc, contents, script, Ending::ResponseEnd)?;
    Ok(by_flush.saturating_add(by_response_end))
}
