//! Recorded streams that are checked against each other.

use crate::escapes::packet_length;
use crate::runs::{Expected, Known, Run, compare};
use crate::script::Script;
use crate::setup::{MANY, TURNS};
use crate::texts::copied;
use crate::trouble::Trouble;
use git_client::Ending;
use git_names::Format;
use git_pkt::Recorded;
use git2show_lib::{CheckFault, check};
use std::alloc::{AllocError, Global};
use test_streams::{Chunks, Sink};

fn ending_of(alloc: Global, answer: Result<(), CheckFault>) -> Result<String, AllocError> {
    match answer {
        Ok(()) => String::from_str(alloc, "closed\n"),
        Err(CheckFault::Requests(fault)) => format!(in alloc; "requests: {fault}\n"),
        Err(CheckFault::Responses(fault)) => format!(in alloc; "responses: {fault}\n"),
        Err(CheckFault::ReadFault) => String::from_str(alloc, "ReadFault\n"),
        Err(CheckFault::WriteFault) => String::from_str(alloc, "WriteFault\n"),
        Err(CheckFault::ReadLimit) => String::from_str(alloc, "ReadLimit\n"),
    }
}

/// How a conversation was recorded.
#[derive(Clone, Copy)]
pub struct Setup {
    pub format: Format,
    pub ending: Ending,
}

fn checked(
    alloc: Global,
    setup: Setup,
    requests: &[&[u8]],
    responses: &[&[u8]],
) -> Result<Run, Trouble> {
    let mut sink = Sink::new(Vec::new(alloc), usize::MAX, u32::MAX);
    let answer = check(
        alloc,
        &mut Recorded::new(Chunks::new(requests)),
        &mut Recorded::new(Chunks::new(responses)),
        setup.format,
        setup.ending,
        &mut [0; 256],
        &mut [0; 256],
        &mut Recorded::new(&mut sink),
        TURNS,
    );
    if sink.flushed != sink.taken.len() {
        return Err(Trouble::Breaks("check leaves something unflushed"));
    }
    let ending = ending_of(alloc, answer)?;
    Ok(Run::new(alloc, sink.taken, ending, None))
}

/// Checks the chunks as responses, with the requests whole and cut at the same place.
pub fn goes(
    alloc: Global,
    setup: Setup,
    script: &Script,
    chunks: &[&[u8]],
    expected: &Expected,
    place: usize,
) -> Result<(), Trouble> {
    let asked = script.asked.as_slice();
    compare(
        alloc,
        &checked(alloc, setup, &[asked], chunks)?,
        expected,
        place,
    )?;
    let (front, rest) = asked.split_at(place.min(asked.len()));
    let run = checked(alloc, setup, &[front, rest], chunks)?;
    compare(alloc, &run, expected, place)
}

// How many bytes of the transcript come before the lines of the request with this number, from 0. A request for another command, which the
// server advertised and this project does not know, has its capability lines before the line of its command, and a known one after it.
fn before_request(given: &[u8], number: usize) -> usize {
    let mut before = 0usize;
    let mut end = 0usize;
    let mut seen = 0usize;
    for line in given.split(|byte| *byte == b'\n') {
        if line.starts_with(b"request ") {
            if seen == number {
                return before;
            }
            seen = seen.saturating_add(1);
        }
        end = end.saturating_add(line.len()).saturating_add(1);
        if !line.starts_with(b"capability ") {
            before = end;
        }
    }
    given.len()
}

// Where the responses to the requests end that have their lines in this many bytes of the transcript: where the next line is written, since
// the answer to another command has none of its own.
fn responses_before(script: &Script, given: usize) -> usize {
    for step in script.steps.as_slice() {
        if step.given > given {
            return step.input;
        }
    }
    script.length()
}

/// How far the requests go up to a byte.
#[derive(Clone, Copy)]
struct Place {
    /// Where the last whole packet ends.
    end: usize,
    /// How many flushes came.
    flushes: usize,
    /// Whether one was the last packet.
    is_between: bool,
}

fn reached(asked: &[u8], at: usize) -> Place {
    let mut reached = Place {
        end: 0,
        flushes: 0,
        is_between: true,
    };
    for _ in 0..MANY {
        let digits = asked
            .get(reached.end..reached.end.saturating_add(4))
            .unwrap_or(&[]);
        let Some(length) = packet_length(digits) else {
            return reached;
        };
        let end = reached.end.saturating_add(length.max(4));
        if end > at {
            return reached;
        }
        let is_between = length == 0;
        reached = Place {
            end,
            flushes: reached.flushes.saturating_add(usize::from(is_between)),
            is_between,
        };
    }
    reached
}

// The expected result if the requests end at this byte and all of them are answered.
fn expected_of_requests(alloc: Global, script: &Script, end: usize) -> Result<Expected, Trouble> {
    let reached = reached(script.asked.as_slice(), end);
    let all = script.given.as_slice();
    let given = before_request(all, reached.flushes);
    let ending = if reached.end < end || !reached.is_between {
        format!(in alloc; "requests: Truncated at {}\n", reached.end)?
    } else if given < all.len() {
        let place = responses_before(script, given);
        format!(in alloc; "responses: UnexpectedPacket at {place}\n")?
    } else {
        String::from_str(alloc, "closed\n")?
    };
    Ok(Expected {
        given: copied(alloc, all.get(..given).unwrap_or(&[]))?,
        pack: Vec::new(alloc),
        progress: Vec::new(alloc),
        ending,
        used: 0,
        known: Known::All,
    })
}

/// Checks the responses of a whole conversation with requests that end at each byte. Returns how many runs were made.
pub fn goes_with_requests_cut_short(
    alloc: Global,
    setup: Setup,
    script: &Script,
) -> Result<usize, Trouble> {
    let asked = script.asked.as_slice();
    let mut runs = 0usize;
    if script.is_recorded || script.ending.as_str() != "closed\n" {
        return Ok(runs);
    }
    for end in 0..script.asked_read.min(asked.len()) {
        let run = checked(alloc, setup, &[&asked[..end]], &[script.input.as_slice()])?;
        compare(alloc, &run, &expected_of_requests(alloc, script, end)?, end)?;
        runs = runs.saturating_add(1);
    }
    Ok(runs)
}
