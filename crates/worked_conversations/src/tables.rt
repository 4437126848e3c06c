//! Tables: each input text is read or written by itself, and the results are lines.

use crate::asking::argument_of;
use crate::clients::append_noted;
use crate::escapes::escaped;
use crate::lists::made;
use crate::script::{Script, Step};
use crate::setup::{limits, offer};
use crate::texts::{append, append_str};
use crate::trouble::Trouble;
use crate::wordings::shown;
use git_msg::{Argument, Caps, Command, TextWord, read_capability, read_reference, word_at};
use git_names::{Format, Oid, RefName, Steps};
use git_pkt::{Hold, Packet, put, text};
use git_repository::{Packs, TextFault, read_repo};
use git_server::{Pack, Repo};
use git2show_lib::read_script;
use hex::ToHex;
use std::alloc::{AllocError, Global};

/// What is done with each text.
#[derive(Clone, Copy)]
pub enum Table {
    /// It is a payload: its text, and its packet.
    Payloads,
    ObjectNames(Format),
    ReferenceNames,
    CapabilityLines,
    /// It is the capability lines of an advertisement, separated by LF.
    Notes,
    /// It is an argument of this command, with its features advertised or not.
    Arguments(Command, Format, bool),
    ReferenceLines(Format),
    RepositoryTexts,
    /// It is a script, whose requests have this limit.
    Scripts(Format, u32),
    /// It is lists that may make a repository.
    Lists(Format),
}

/// The rest of a line after a word.
#[derive(Clone, Copy)]
enum LineContent<'a> {
    Nothing,
    Bytes(&'a [u8]),
}

// Appends a line of a word and bytes in their escaped form.
fn append_line(
    alloc: Global,
    lines: &mut Vec<u8>,
    word: &str,
    content: LineContent<'_>,
) -> Result<(), AllocError> {
    append(lines, word.as_bytes())?;
    match content {
        LineContent::Nothing | LineContent::Bytes([]) => {}
        LineContent::Bytes(bytes) => {
            append(lines, b" ")?;
            append(lines, escaped(alloc, bytes)?.as_slice())?;
        }
    }
    append(lines, b"\n")
}

fn state_payload(alloc: Global, lines: &mut Vec<u8>, payload: &[u8]) -> Result<(), AllocError> {
    append_line(alloc, lines, "text", LineContent::Bytes(text(payload)))?;
    if payload.len() > 65_516 {
        return Ok(());
    }
    let mut hold = Hold::new();
    put(&mut hold, Packet::Payload(payload));
    append_line(alloc, lines, "packet", LineContent::Bytes(hold.as_slice()))
}

// Appends the line of an object name, as it is written.
fn state_object(alloc: Global, lines: &mut Vec<u8>, word: &str, id: Oid) -> Result<(), AllocError> {
    append_line(
        alloc,
        lines,
        word,
        LineContent::Bytes(id.encode_hex(alloc)?.as_bytes()),
    )
}

// Appends the line of a number.
fn state_number(
    alloc: Global,
    lines: &mut Vec<u8>,
    word: &str,
    number: u64,
) -> Result<(), AllocError> {
    let number = format!(in alloc; "{number}")?;
    append_line(alloc, lines, word, LineContent::Bytes(number.as_bytes()))
}

fn state_object_name(
    alloc: Global,
    lines: &mut Vec<u8>,
    format: Format,
    text: &[u8],
) -> Result<(), AllocError> {
    match Oid::read(format, text, &mut Steps::new()) {
        Ok(id) => state_object(alloc, lines, "object", id),
        Err(fault) => append_line(
            alloc,
            lines,
            format!(in alloc; "{fault}")?.as_str(),
            LineContent::Nothing,
        ),
    }
}

fn state_reference_name(alloc: Global, lines: &mut Vec<u8>, text: &[u8]) -> Result<(), AllocError> {
    match RefName::read(text, &mut Steps::new()) {
        Ok(name) if name.as_bytes() == text => append_line(
            alloc,
            lines,
            "reference",
            LineContent::Nothing,
        ),
        Ok(name) => append_line(
            alloc,
            lines,
            "another name",
            LineContent::Bytes(name.as_bytes()),
        ),
        Err(fault) => append_line(
            alloc,
            lines,
            format!(in alloc; "{fault}")?.as_str(),
            LineContent::Nothing,
        ),
    }
}

fn state_capability(alloc: Global, lines: &mut Vec<u8>, text: &[u8]) -> Result<(), AllocError> {
    match read_capability(text, &mut Steps::new()) {
        Ok(capability) => {
            append_line(alloc, lines, "key", LineContent::Bytes(capability.key))?;
            match capability.value {
                Some(value) => append_line(alloc, lines, "value", LineContent::Bytes(value)),
                None => Ok(()),
            }
        }
        Err(kind) => append_line(alloc, lines, kind.name(), LineContent::Nothing),
    }
}

fn state_notes(alloc: Global, lines: &mut Vec<u8>, text: &[u8]) -> Result<(), AllocError> {
    let mut caps = Caps::new();
    for line in text.split(|byte| *byte == b'\n') {
        if let Ok(capability) = read_capability(line, &mut Steps::new()) {
            caps = caps.with(&capability, &mut Steps::new());
        }
    }
    let mut content = String::new(alloc);
    append_noted(&mut content, &caps)?;
    append_str(&mut content, "speaks")?;
    for format in [Format::Sha1, Format::Sha256] {
        if caps.speaks(format) {
            append_str(&mut content, " ")?;
            append_str(&mut content, format.name())?;
        }
    }
    append_str(&mut content, "\noffers")?;
    let offer = caps.offer(Format::Sha256);
    for (is_set, word) in [
        (offer.unborn, " unborn"),
        (offer.shallow, " shallow"),
        (offer.ref_in_want, " ref-in-want"),
        (offer.wait_for_done, " wait-for-done"),
        (offer.filter, " filter"),
        (offer.object_info, " object-info"),
        (offer.server_option, " server-option"),
    ] {
        if is_set {
            append_str(&mut content, word)?;
        }
    }
    append_str(&mut content, "\n")?;
    append(lines, content.as_bytes())
}

fn state_argument(
    alloc: Global,
    lines: &mut Vec<u8>,
    (command, format, features): (Command, Format, bool),
    text: &[u8],
) -> Result<(), AllocError> {
    let argument = match argument_of(command, &offer(format, features), text) {
        Ok(argument) => argument,
        Err(kind) => return append_line(alloc, lines, kind.name(), LineContent::Nothing),
    };
    append(lines, name_of(&argument))?;
    state_value(alloc, lines, &argument)
}

// How the line of an argument begins.
fn name_of(argument: &Argument<'_>) -> &'static [u8] {
    match argument {
        Argument::Text(TextWord::RefPrefix, _) => b"prefix",
        _ => word_at(argument).keyword().trim_ascii_end(),
    }
}

// Ends the line with the argument's value.
fn state_value(
    alloc: Global,
    lines: &mut Vec<u8>,
    argument: &Argument<'_>,
) -> Result<(), AllocError> {
    match argument {
        Argument::Flag(_) => append_line(alloc, lines, "", LineContent::Nothing),
        Argument::Object(_, id) => state_object(alloc, lines, "", *id),
        Argument::Text(_, text) => append_line(alloc, lines, "", LineContent::Bytes(text)),
        Argument::Number(_, number) => state_number(alloc, lines, "", *number),
    }
}

fn state_reference(
    alloc: Global,
    lines: &mut Vec<u8>,
    format: Format,
    text: &[u8],
) -> Result<(), AllocError> {
    let reference = match read_reference(format, text, &mut Steps::new()) {
        Ok(reference) => reference,
        Err(kind) => return append_line(alloc, lines, kind.name(), LineContent::Nothing),
    };
    match reference.id {
        Some(id) => state_object(alloc, lines, "object", id)?,
        None => append_line(alloc, lines, "unborn", LineContent::Nothing)?,
    }
    append_line(alloc, lines, "name", LineContent::Bytes(reference.name))?;
    if let Some(target) = reference.target {
        append_line(alloc, lines, "target", LineContent::Bytes(target))?;
    }
    match reference.peeled {
        Some(peeled) => state_object(alloc, lines, "peeled", peeled),
        None => Ok(()),
    }
}

// Appends the format of a repository text, the name that its `HEAD` points to if it is unborn, and its references.
fn state_repository(alloc: Global, lines: &mut Vec<u8>, text: &[u8]) -> Result<(), Trouble> {
    let packs = Packs {
        pack: Pack::Owned(Vec::new(alloc)),
        filtered: None,
    };
    let repo = match read_repo(alloc, text, packs) {
        Ok(repo) => repo,
        Err(TextFault::OutOfMemory) => return Err(Trouble::OutOfMemory),
        Err(fault) => {
            let fault = format!(in alloc; "{fault}")?;
            append_line(alloc, lines, fault.as_str(), LineContent::Nothing)?;
            return Ok(());
        }
    };
    append_line(alloc, lines, repo.format().name(), LineContent::Nothing)?;
    if let Some(target) = repo.unborn_head() {
        append_line(alloc, lines, "unborn", LineContent::Bytes(target))?;
    }
    for entry in repo.refs() {
        state_object(alloc, lines, "object", entry.id())?;
        append_line(alloc, lines, "name", LineContent::Bytes(entry.name()))?;
        if let Some(target) = entry.target() {
            append_line(alloc, lines, "target", LineContent::Bytes(target))?;
        }
        if let Some(peeled) = entry.peeled() {
            state_object(alloc, lines, "peeled", peeled)?;
        }
        if repo.find(entry.name()) != Some(entry.id()) {
            return Err(Trouble::Breaks("a reference is not found"));
        }
    }
    Ok(())
}

// Appends the packets of each request of a script, as they are written to a server that advertised everything.
fn state_script(
    alloc: Global,
    lines: &mut Vec<u8>,
    (format, limit): (Format, u32),
    text: &[u8],
) -> Result<(), Trouble> {
    let requests = match read_script(alloc, text, format, limits(limit)) {
        Ok(requests) => requests,
        Err(TextFault::OutOfMemory) => return Err(Trouble::OutOfMemory),
        Err(fault) => {
            let fault = format!(in alloc; "{fault}")?;
            append_line(alloc, lines, fault.as_str(), LineContent::Nothing)?;
            return Ok(());
        }
    };
    for request in requests.as_slice() {
        append(lines, shown(alloc, request)?.as_slice())?;
    }
    Ok(())
}

// The lines of a text are not those after it.
fn differs(alloc: Global, text: &[u8], announced: &[u8]) -> Result<Trouble, AllocError> {
    let text = escaped(alloc, text)?;
    let announced = escaped(alloc, announced)?;
    let text = String::from_utf8_lossy(alloc, text.as_slice())?;
    let announced = String::from_utf8_lossy(alloc, announced.as_slice())?;
    let (text, announced) = (text.as_str(), announced.as_str());
    Ok(Trouble::Differs(format!(in alloc; "of {text}: {announced}")?))
}

impl Table {
    // The lines that report on a text.
    fn lines_for(self, alloc: Global, text: &[u8]) -> Result<Vec<u8>, Trouble> {
        let mut lines = Vec::new(alloc);
        match self {
            Table::Payloads => state_payload(alloc, &mut lines, text)?,
            Table::ObjectNames(format) => state_object_name(alloc, &mut lines, format, text)?,
            Table::ReferenceNames => state_reference_name(alloc, &mut lines, text)?,
            Table::CapabilityLines => state_capability(alloc, &mut lines, text)?,
            Table::Notes => state_notes(alloc, &mut lines, text)?,
            Table::Arguments(command, format, features) => {
                state_argument(alloc, &mut lines, (command, format, features), text)?;
            }
            Table::ReferenceLines(format) => state_reference(alloc, &mut lines, format, text)?,
            Table::RepositoryTexts => state_repository(alloc, &mut lines, text)?,
            Table::Scripts(format, limit) => state_script(
                alloc,
                &mut lines,
                (format, limit),
                text,
            )?,
            Table::Lists(format) => {
                let text = str::from_utf8(text).map_err(|_| Trouble::BadCase("no text"))?;
                let made = made(alloc, format, text)?;
                append_line(alloc, &mut lines, made.as_str(), LineContent::Nothing)?;
            }
        }
        Ok(lines)
    }

    /// Each text has the lines after it as its result. Returns how many texts there are.
    pub fn goes(self, alloc: Global, script: &Script) -> Result<usize, Trouble> {
        let mut last = Step::default();
        for step in script.steps.as_slice() {
            let text = script.between(last, *step);
            let lines = script.given.as_slice().get(last.given..step.given);
            let announced = self.lines_for(alloc, text)?;
            if Some(announced.as_slice()) != lines {
                return Err(differs(alloc, text, announced.as_slice())?);
            }
            last = *step;
        }
        Ok(script.steps.len())
    }
}
