//! One side over an input that is cut in every way and ended everywhere, and the expected result.

use crate::ends::End;
use crate::escapes::{escaped, packet_length};
use crate::script::{Script, Step};
use crate::setup::MANY;
use crate::texts::copied;
use crate::trouble::Trouble;
use git_pkt::BAND_HEAD;
use std::alloc::{AllocError, Global};

/// The result of a run.
#[derive(Drop)]
pub struct Run {
    /// The output, and the bytes of the pack and of the progress, joined.
    pub given: Vec<u8>,
    pub pack: Vec<u8>,
    pub progress: Vec<u8>,
    /// How it ended, a line or more.
    pub ending: String,
    /// How many bytes it used, if it reports that.
    pub used: Option<usize>,
}

impl Run {
    /// A run without bytes on side bands.
    pub fn new(alloc: Global, given: Vec<u8>, ending: String, used: Option<usize>) -> Run {
        Run {
            given,
            pack: Vec::new(alloc),
            progress: Vec::new(alloc),
            ending,
            used,
        }
    }
}

/// How much of the expected result is known.
#[derive(Clone, Copy, PartialEq, Eq)]
pub enum Known {
    All,
    /// The output, and the first line of the ending.
    Given,
    /// That the output is a prefix of the one stated here, and the first line of the ending.
    Front,
}

/// The expected result of a run.
#[derive(Drop)]
pub struct Expected {
    pub given: Vec<u8>,
    pub pack: Vec<u8>,
    pub progress: Vec<u8>,
    pub ending: String,
    pub used: usize,
    pub known: Known,
}

/// An input of more bytes is cut and ended only near its two ends.
const LONG: usize = 3_000;

const NEAR: usize = 8;

fn is_cut_at(length: usize, place: usize) -> bool {
    length < LONG || place < NEAR || length.saturating_sub(place) < NEAR
}

// The last step that ends here or earlier, and whether it had output.
fn last_step(script: &Script, end: usize) -> (Step, bool) {
    let mut last = script.greeting;
    let mut is_answered = true;
    for step in script.steps.as_slice() {
        if step.input <= end {
            is_answered = last.given < step.given;
            last = *step;
        }
    }
    (last, is_answered)
}

// How many bytes of the pack and of the progress are handed out if the input ends here, after this step: all bytes so far after the first
// five of a packet on their bands.
fn on_bands(script: &Script, last: Step, at: usize) -> (usize, usize) {
    let come = at.saturating_sub(last.input).saturating_sub(BAND_HEAD);
    for step in script.steps.as_slice() {
        if step.input > at {
            let pack = step.pack.saturating_sub(last.pack).min(come);
            let progress = step.progress.saturating_sub(last.progress).min(come);
            return (
                last.pack.saturating_add(pack),
                last.progress.saturating_add(progress),
            );
        }
    }
    (last.pack, last.progress)
}

// The first bytes.
fn front(alloc: Global, bytes: &Vec<u8>, count: usize) -> Result<Vec<u8>, AllocError> {
    copied(alloc, bytes.as_slice().get(..count).unwrap_or(&[]))
}

// Where the last packet ends that is whole by here.
fn last_packet(input: &[u8], at: usize) -> usize {
    let mut end = 0usize;
    for _ in 0..MANY {
        let digits = input.get(end..end.saturating_add(4)).unwrap_or(&[]);
        let Some(next) = packet_length(digits).map(|length| end.saturating_add(length.max(4)))
        else {
            return end;
        };
        if next > at {
            return end;
        }
        end = next;
    }
    end
}

// The expected result if the input ends at this byte of a recording.
fn recorded_expected_at(
    alloc: Global,
    end: &End<'_>,
    script: &Script,
    at: usize,
) -> Result<Expected, Trouble> {
    let last = last_packet(script.input.as_slice(), at) as u64;
    Ok(Expected {
        given: copied(alloc, script.given.as_slice())?,
        pack: copied(alloc, script.pack.as_slice())?,
        progress: copied(alloc, script.progress.as_slice())?,
        ending: end.truncated(alloc, end.start().saturating_add(last))?,
        used: at,
        known: Known::Front,
    })
}

/// The expected result if the input ends at this byte.
pub fn expected_at(
    alloc: Global,
    end: &End<'_>,
    script: &Script,
    at: usize,
) -> Result<Expected, Trouble> {
    let announced = script.length();
    if announced <= at {
        return Ok(Expected {
            given: copied(alloc, script.given.as_slice())?,
            pack: copied(alloc, script.pack.as_slice())?,
            progress: copied(alloc, script.progress.as_slice())?,
            ending: script.ending.clone()?,
            used: announced.saturating_sub(end.unread(script)),
            known: Known::All,
        });
    }
    if script.is_recorded {
        return recorded_expected_at(alloc, end, script, at);
    }
    let (last, is_answered) = last_step(script, at);
    let mut given = front(alloc, &script.given, last.given)?;
    let ending = if last.input == at && end.may_end_after(given.as_slice(), is_answered) {
        String::from_str(alloc, "closed\n")?
    } else {
        let offset = end.start().saturating_add(last.input as u64);
        end.append_truncated(alloc, &mut given, offset)?;
        end.truncated(alloc, offset)?
    };
    let (pack, progress) = on_bands(script, last, at);
    Ok(Expected {
        given,
        pack: front(alloc, &script.pack, pack)?,
        progress: front(alloc, &script.progress, progress)?,
        ending,
        used: at,
        known: Known::Given,
    })
}

fn first_line(text: &str) -> &str {
    text.split_once('\n').unwrap_or((text, "")).0
}

// Reports bytes other than the expected ones.
fn difference(alloc: Global, place: usize, what: &str, came: &[u8]) -> Result<Trouble, AllocError> {
    let came = escaped(alloc, came)?;
    let came = String::from_utf8_lossy(alloc, came.as_slice())?;
    let came = came.as_str();
    Ok(Trouble::Differs(format!(in alloc; "at {place}, {what}: {came}")?))
}

// Whether the result is the expected one, or a prefix of it if no more is known.
fn is_expected(came: &Vec<u8>, expected: &Vec<u8>, known: Known) -> bool {
    match known {
        Known::All | Known::Given => came.as_slice() == expected.as_slice(),
        Known::Front => expected.as_slice().starts_with(came.as_slice()),
    }
}

/// Compares the result with the expected one.
pub fn compare(alloc: Global, run: &Run, expected: &Expected, place: usize) -> Result<(), Trouble> {
    for (what, came, wanted) in [
        ("given", &run.given, &expected.given),
        ("pack", &run.pack, &expected.pack),
        ("progress", &run.progress, &expected.progress),
    ] {
        if !is_expected(came, wanted, expected.known) {
            return Err(difference(alloc, place, what, came.as_slice())?);
        }
    }
    let (came, wanted) = (run.ending.as_str(), expected.ending.as_str());
    let is_same = match expected.known {
        Known::All => came == wanted,
        Known::Given | Known::Front => first_line(came) == first_line(wanted),
    };
    if !is_same {
        return Err(difference(alloc, place, "ended", came.as_bytes())?);
    }
    match run.used {
        Some(used) if used != expected.used => {
            let used = format!(in alloc; "{used}")?;
            Err(difference(alloc, place, "used", used.as_bytes())?)
        }
        _ => Ok(()),
    }
}

// The bytes one by one, with empty chunks between.
fn single_bytes(alloc: Global, input: &[u8]) -> Result<Vec<&[u8]>, Trouble> {
    let mut single: Vec<&[u8]> = Vec::new(alloc);
    for byte in input.chunks(1) {
        single.push(byte).map_err(|_| Trouble::OutOfMemory)?;
        single.push(&[]).map_err(|_| Trouble::OutOfMemory)?;
    }
    Ok(single)
}

// The case passes if its input is cut in two at a byte, and if it ends there.
fn goes_cut(
    alloc: Global,
    end: &End<'_>,
    script: &Script,
    expected: &Expected,
    at: usize,
) -> Result<(), Trouble> {
    let input = script.input.as_slice();
    let (front, rest) = input.split_at(at.min(input.len()));
    end.goes(alloc, script, &[front, rest], expected, at)?;
    let ended = expected_at(alloc, end, script, at)?;
    end.goes(alloc, script, &[front], &ended, at)
}

/// The case passes: whole, cut in two at each byte, in single bytes with empty chunks between, and ended at each byte. Returns how many
/// runs were made.
pub fn goes(alloc: Global, end: &End<'_>, script: &Script) -> Result<usize, Trouble> {
    let input = script.input.as_slice();
    let expected = expected_at(alloc, end, script, input.len())?;
    let mut runs = 0usize;
    for at in 0..=input.len() {
        if is_cut_at(input.len(), at) {
            goes_cut(alloc, end, script, &expected, at)?;
            runs = runs.saturating_add(2);
        }
    }
    let single = single_bytes(alloc, input)?;
    end.goes(alloc, script, single.as_slice(), &expected, usize::MAX)?;
    let others = end.goes_elsewhere(alloc, script)?;
    Ok(runs.saturating_add(1).saturating_add(others))
}
