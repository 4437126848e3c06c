//! Requests that a program makes argument by argument, and how they are written.

use crate::escapes::escaped;
use crate::script::{Script, Step};
use crate::setup::{MANY, limits, offer};
use crate::texts::append;
use crate::trouble::Trouble;
use git_msg::{
    Agent, Argument, Caps, Command, Offer, Request, RequestWriter, TextWord, after, read_argument,
};
use git_names::{Format, Steps};
use git_pkt::{Hold, Kind};
use std::alloc::Global;

/// A request to be made, and what the other side advertised.
#[derive(Clone, Copy)]
pub struct Asking {
    pub command: Command,
    pub format: Format,
    pub limit: u32,
    pub agent: bool,
    pub object_format: bool,
}

/// The server option, or the argument of a command, with this text, if it is advertised.
pub fn argument_of<'a>(
    command: Command,
    offer: &Offer,
    text: &'a [u8],
) -> Result<Argument<'a>, Kind> {
    if let Some(option) = after(text, b"server-option=") {
        return Ok(Argument::Text(TextWord::ServerOption, option));
    }
    read_argument(command, offer, text, &mut Steps::new())
}

// The argument with this text, of any command.
fn any_argument(format: Format, text: &[u8]) -> Option<Argument<'_>> {
    let offer = offer(format, true);
    for command in [Command::LsRefs, Command::Fetch, Command::ObjectInfo] {
        if let Ok(argument) = argument_of(command, &offer, text) {
            return Some(argument);
        }
    }
    None
}

// Adds the argument with this text, and returns how many bytes are kept then. None if the text is no argument.
fn added(request: &mut Request<Global>, format: Format, text: &[u8]) -> Option<Result<u32, Kind>> {
    let Some(argument) = any_argument(format, text) else {
        return None;
    };
    match request.add(&argument) {
        Ok(()) => Some(Ok(request.kept())),
        Err(kind) => Some(Err(kind)),
    }
}

/// The packets written for a request to a server that advertised this, a line each.
pub fn written(alloc: Global, request: &Request<Global>, caps: &Caps) -> Result<Vec<u8>, Trouble> {
    let mut writer = RequestWriter::new(request, caps, Agent::own());
    let mut hold = Hold::new();
    let mut lines = Vec::new(alloc);
    for _ in 0..MANY {
        if !writer.pull(request, &mut hold) {
            return Ok(lines);
        }
        append(&mut lines, escaped(alloc, hold.as_slice())?.as_slice())?;
        append(&mut lines, b"\n")?;
    }
    Err(Trouble::Breaks("a request has no end"))
}

impl Asking {
    // Adds an argument, and returns the result.
    fn add_argument(
        self,
        alloc: Global,
        request: &mut Request<Global>,
        text: &[u8],
    ) -> Result<String, Trouble> {
        match added(request, self.format, text) {
            Some(Ok(kept)) => Ok(format!(in alloc; "kept {kept}\n")?),
            Some(Err(kind)) => Ok(format!(in alloc; "{kind}\n")?),
            None => Err(Trouble::BadCase("no argument")),
        }
    }

    // The packets written for a request, a line each.
    fn written(self, alloc: Global, request: &Request<Global>) -> Result<Vec<u8>, Trouble> {
        let caps = Caps {
            agent: self.agent,
            object_format: self.object_format,
            ..Caps::new()
        };
        written(alloc, request, &caps)
    }

    // Adds the argument of each step, and returns the results.
    fn add_all(
        self,
        alloc: Global,
        request: &mut Request<Global>,
        script: &Script,
    ) -> Result<Vec<u8>, Trouble> {
        let mut announced = Vec::new(alloc);
        let mut last = Step::default();
        for step in script.steps.as_slice() {
            let line = self.add_argument(alloc, request, script.between(last, *step))?;
            append(&mut announced, line.as_bytes())?;
            last = *step;
        }
        Ok(announced)
    }

    /// Each argument is kept or refused as the line after it states, and the request is written as the ending states.
    pub fn goes(self, alloc: Global, script: &Script) -> Result<usize, Trouble> {
        let limits = limits(self.limit);
        let mut request = Request::new(alloc, self.command, self.format, limits);
        let announced = self.add_all(alloc, &mut request, script)?;
        same(alloc, announced.as_slice(), script.given.as_slice())?;
        let written = self.written(alloc, &request)?;
        same(alloc, written.as_slice(), script.ending.as_bytes())?;
        Ok(script.steps.len())
    }
}

// Compares what was written with what the case states.
fn same(alloc: Global, came: &[u8], expected: &[u8]) -> Result<(), Trouble> {
    if came != expected {
        let came = String::from_utf8_lossy(alloc, came)?;
        return Err(Trouble::Differs(came));
    }
    Ok(())
}
