//! What a case needs of a server, and a server that is fed.

ghost use Rattle.std.specs.Prelude.{◌≤◌, length};

use crate::runs::Run;
use crate::setup::MANY;
use crate::trouble::Trouble;
use git_pkt::Fault;
use git_server::Outcome;
use std::alloc::{AllocError, Global};

/// What came of asking a server for its next packet.
#[derive(Clone, Copy)]
pub enum Next {
    /// A packet, which was appended to the output.
    Packet,
    /// More bytes are to be fed, or the input is to be closed.
    NeedInput,
    /// The session ended so, and all was sent.
    Finished(Outcome),
}

/// A server, as a case runs it.
pub trait Serves {
    /// Whether bytes of the client are wanted.
    fn needs_input(&self) -> bool;

    /// Takes bytes of the input, and returns how many were used.
    fn take(&mut self, chunk: &[u8]) -> usize
        ensures used { result ≤ length chunk.now };

    /// Ends the input, if bytes are wanted.
    fn end(&mut self);

    /// Appends the next packet, if there is one.
    fn give(&mut self, output: &mut Vec<u8>) -> Result<Next, Trouble>;

    /// The error that ended the session, if one did.
    fn error(&self) -> Option<Fault>;
}

/// The error in an outcome, if there is one.
pub fn fault_in(outcome: Outcome) -> Option<Fault> {
    match outcome {
        Outcome::Refused(fault) => Some(fault),
        _ => None,
    }
}

/// The line that states an outcome.
pub fn ending_of(alloc: Global, outcome: Outcome) -> Result<String, AllocError> {
    match outcome {
        Outcome::Flush => String::from_str(alloc, "flush\n"),
        Outcome::Closed => String::from_str(alloc, "closed\n"),
        Outcome::Refused(fault) => format!(in alloc; "refused {fault}\n"),
    }
}

// Appends all that the server has to send. Returns its outcome, if there is one.
fn drain<S: Serves>(server: &mut S, output: &mut Vec<u8>) -> Result<Option<Outcome>, Trouble> {
    for _ in 0..MANY {
        match server.give(output)? {
            Next::Packet => {}
            Next::NeedInput => return Ok(None),
            Next::Finished(outcome) => return Ok(Some(outcome)),
        }
    }
    Err(Trouble::Breaks("an answer has no end"))
}

// Feeds a chunk up to the point where the server has something to send, and appends that. Returns its outcome, and the rest of the chunk.
fn feed_front<'a, S: Serves>(
    server: &mut S,
    chunk: &'a [u8],
    output: &mut Vec<u8>,
) -> Result<(Option<Outcome>, &'a [u8]), Trouble> {
    let used = server.take(chunk);
    let outcome = drain(server, output)?;
    Ok((outcome, &chunk[used..]))
}

// Feeds a whole chunk, and appends what the server sends for it. Returns its outcome, and how many bytes it used.
fn feed<S: Serves>(
    server: &mut S,
    chunk: &[u8],
    output: &mut Vec<u8>,
) -> Result<(Option<Outcome>, usize), Trouble> {
    let mut rest = chunk;
    for _ in 0..=chunk.len() {
        let (outcome, left) = feed_front(server, rest, output)?;
        rest = left;
        if rest.is_empty() || outcome.is_some() {
            return Ok((outcome, chunk.len().saturating_sub(rest.len())));
        }
    }
    Err(Trouble::Breaks("a chunk is never used up"))
}

// Feeds all chunks to a new server. Returns its last outcome, and how many bytes it used.
fn feed_all<S: Serves>(
    server: &mut S,
    chunks: &[&[u8]],
    output: &mut Vec<u8>,
) -> Result<(Option<Outcome>, usize), Trouble> {
    let mut outcome = drain(server, output)?;
    let mut used = 0usize;
    for chunk in chunks {
        let (came, count) = feed(server, chunk, output)?;
        outcome = came;
        used = used.saturating_add(count);
    }
    Ok((outcome, used))
}

// Ends the input, if the server needs more of it. Returns the outcome, which is the one passed in if no more is needed.
fn close<S: Serves>(
    server: &mut S,
    outcome: Option<Outcome>,
    output: &mut Vec<u8>,
) -> Result<Outcome, Trouble> {
    let mut outcome = outcome;
    if server.needs_input() {
        server.end();
        outcome = drain(server, output)?;
    }
    outcome.ok_or(Trouble::Breaks("a closed server has no outcome"))
}

// A server whose session is over uses nothing more, sends nothing more, and has its outcome's error.
fn check_over<S: Serves>(
    server: &mut S,
    outcome: Outcome,
    output: &mut Vec<u8>,
) -> Result<(), Trouble> {
    let used = server.take(b"0000");
    let goes_on = match server.give(output)? {
        Next::Finished(again) => again != outcome,
        _ => true,
    };
    if used != 0 || goes_on || server.needs_input() {
        return Err(Trouble::Breaks("a server goes on after its session"));
    }
    if server.error() != fault_in(outcome) {
        return Err(Trouble::Breaks("a server has another fault than its outcome"));
    }
    Ok(())
}

/// Feeds the chunks to a new server. Then the input ends.
pub fn run<S: Serves>(alloc: Global, server: &mut S, chunks: &[&[u8]]) -> Result<Run, Trouble> {
    let mut given = Vec::new(alloc);
    let (outcome, used) = feed_all(server, chunks, &mut given)?;
    let outcome = close(server, outcome, &mut given)?;
    check_over(server, outcome, &mut given)?;
    let ending = ending_of(alloc, outcome)?;
    Ok(Run::new(alloc, given, ending, Some(used)))
}
