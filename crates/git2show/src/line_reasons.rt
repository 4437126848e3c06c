//! Which word of a line is refused, and why. The lines before it are those of a text that is allowed so far.

use crate::reasons::{Reason, Shown};
use git_msg::{Command, Offer, after, is_word, read_argument, read_number, split_at_first};
use git_names::{Format, Oid, RefName, Steps};
use git_pkt::Kind;
use git_repository::LONGEST_LINE;

/// A line of a text, and what is before it.
#[derive(Clone, Copy, Debug)]
struct Line<'a> {
    /// The lines before it, each with its LF.
    before: &'a [u8],
    text: &'a [u8],
}

/// The line of this number, counted from 1.
fn find_line(text: &[u8], number: u64) -> Option<Line<'_>> {
    let mut rest = text;
    for _ in 1..number {
        let (_, next) = split_at_first(rest, b'\n');
        rest = next?;
    }
    let before = text.get(..text.len().saturating_sub(rest.len()))?;
    let (text, _) = split_at_first(rest, b'\n');
    Some(Line { before, text })
}

/// Why the line of this number is refused in the text of a repository.
pub(crate) fn repository_reason(text: &[u8], number: u64) -> Reason<'_> {
    let Some(line) = find_line(text, number) else {
        return Reason::Other;
    };
    if line.text.len() > LONGEST_LINE {
        return Reason::TooLong;
    }
    let (first, _) = split_at_first(text, b'\n');
    match after(first, b"format ").and_then(Format::read) {
        Some(format) => item_reason(format, &line),
        None => Reason::NoFormat(Shown(first)),
    }
}

/// Why a line after the first is refused.
fn item_reason<'a>(format: Format, line: &Line<'a>) -> Reason<'a> {
    if line.text.is_empty() {
        return Reason::Empty;
    }
    let (word, rest) = split_at_first(line.text, b' ');
    let Some(rest) = rest else {
        return word_reason(word);
    };
    match word {
        b"ref" => reference_reason(format, line.before, rest),
        b"object" => object_reason(format, line.before, rest),
        b"ready" => ready_reason(line.before, rest),
        b"shallow" | b"unshallow" => object_name_reason(format, rest).unwrap_or(Reason::Other),
        _ => Reason::UnknownWord(Shown(word)),
    }
}

/// Why a line that is one word is refused.
fn word_reason(word: &[u8]) -> Reason<'_> {
    match word {
        b"ref" | b"object" | b"ready" | b"shallow" | b"unshallow" => Reason::EndsAfter(Shown(word)),
        _ => Reason::UnknownWord(Shown(word)),
    }
}

/// Why a line is refused for this word, if it is no object name.
fn object_name_reason(format: Format, word: &[u8]) -> Option<Reason<'_>> {
    match Oid::read(format, word, &mut Steps::new()) {
        Ok(_) => None,
        Err(_) => Some(Reason::NoObjectName(Shown(word), format)),
    }
}

/// Why a line is refused for this word, if it is no reference name.
fn reference_name_reason(word: &[u8]) -> Option<Reason<'_>> {
    match RefName::read(word, &mut Steps::new()) {
        Ok(_) => None,
        Err(_) => Some(Reason::NoReferenceName(Shown(word))),
    }
}

/// Why the line of a reference is refused.
fn reference_reason<'a>(format: Format, before: &'a [u8], text: &'a [u8]) -> Reason<'a> {
    let (id, rest) = split_at_first(text, b' ');
    let is_unborn = is_word(id, b"unborn");
    if !is_unborn && let Some(reason) = object_name_reason(format, id) {
        return reason;
    }
    let Some(rest) = rest else {
        return Reason::EndsAfter(Shown(id));
    };
    let (name, attributes) = split_at_first(rest, b' ');
    if let Some(reason) = reference_name_reason(name) {
        return reason;
    }
    if let Some(reason) = attributes_reason(format, attributes) {
        return reason;
    }
    match last_with(before, b"ref ").map(second_word) {
        Some(previous) if name.cmp(previous).is_le() => Reason::NotRising {
            name: Shown(name),
            previous: Shown(previous),
        },
        _ if is_unborn => Reason::NoUnbornHead(Shown(name)),
        _ => Reason::Other,
    }
}

/// Why the line of a reference is refused for one of these attributes.
fn attributes_reason(format: Format, attributes: Option<&[u8]>) -> Option<Reason<'_>> {
    attributes?
        .split(|byte| *byte == b' ')
        .find_map(|word| attribute_reason(format, word))
}

/// Why the line of a reference is refused for this attribute.
fn attribute_reason(format: Format, word: &[u8]) -> Option<Reason<'_>> {
    if let Some(name) = after(word, b"symref-target:") {
        return reference_name_reason(name);
    }
    object_name_reason(format, after(word, b"peeled:")?)
}

/// Why the line of an object is refused.
fn object_reason<'a>(format: Format, before: &'a [u8], text: &'a [u8]) -> Reason<'a> {
    let (id, size) = split_at_first(text, b' ');
    if let Some(reason) = object_name_reason(format, id) {
        return reason;
    }
    let Some(size) = size else {
        return Reason::EndsAfter(Shown(id));
    };
    if read_number(size).is_none() {
        return Reason::NoNumber(Shown(size));
    }
    match last_with(before, b"object ").map(first_word) {
        Some(previous) if id.cmp(previous).is_le() => Reason::NotRising {
            name: Shown(id),
            previous: Shown(previous),
        },
        _ => Reason::Other,
    }
}

/// Why the line of a number of common objects is refused.
fn ready_reason<'a>(before: &[u8], text: &'a [u8]) -> Reason<'a> {
    match last_with(before, b"ready ") {
        Some(_) => Reason::SecondReady,
        None => Reason::NoNumber(Shown(text)),
    }
}

/// The text after this word in the last line that begins with it.
fn last_with<'a>(lines: &'a [u8], word: &[u8]) -> Option<&'a [u8]> {
    lines
        .split(|byte| *byte == b'\n')
        .filter_map(|line| after(line, word))
        .last()
}

/// The word that a text begins with.
fn first_word(text: &[u8]) -> &[u8] {
    let (word, _) = split_at_first(text, b' ');
    word
}

/// The second word of a text.
fn second_word(text: &[u8]) -> &[u8] {
    let (_, rest) = split_at_first(text, b' ');
    first_word(rest.unwrap_or(b""))
}

/// Why the line of this number is refused in a script for this object format.
pub(crate) fn script_reason(format: Format, text: &[u8], number: u64) -> Reason<'_> {
    let Some(line) = find_line(text, number) else {
        return Reason::Other;
    };
    if line.text.len() > LONGEST_LINE {
        return Reason::TooLong;
    }
    let Some(command) = open_command(line.before) else {
        return Reason::NoCommand(Shown(line.text));
    };
    let offer = Offer::everything(format);
    match read_argument(command, &offer, line.text, &mut Steps::new()) {
        Ok(_) => Reason::TooMuchKept,
        Err(kind) => argument_reason(format, command, line.text, kind),
    }
}

/// The command of the request that continues after these lines, each with its LF.
fn open_command(lines: &[u8]) -> Option<Command> {
    let mut command = None;
    for line in lines.strip_suffix(b"\n")?.split(|byte| *byte == b'\n') {
        command = match line {
            b"" => None,
            _ => command.or(Command::read(line)),
        };
    }
    command
}

/// Why the line of an argument is refused, by the kind of error.
fn argument_reason(format: Format, command: Command, line: &[u8], kind: Kind) -> Reason<'_> {
    let (word, value) = split_at_first(line, b' ');
    let value = value.unwrap_or(b"");
    match kind {
        Kind::BadObjectName => Reason::NoObjectName(Shown(value), format),
        Kind::BadRefName => Reason::NoReferenceName(Shown(value)),
        Kind::BadNumber => Reason::NoNumber(Shown(value)),
        Kind::BadLine => Reason::BadLength(Shown(word)),
        _ => Reason::NoArgument(Shown(line), command),
    }
}
