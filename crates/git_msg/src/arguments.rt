//! The argument lines of requests, as in gitprotocol-v2(5).
ghost use Rattle.std.specs.Prelude.{◌≡◌, ◌+◌, ◌*◌, IfErr, MatchOption, MatchResult, OnOk, length};
ghost use Rattle.git_names.specs.ObjectName.{IsNoObjectName, IsObjectName};
ghost use Rattle.git_names.specs.Steps.{TakesAtMost};
ghost use Rattle.git_msg.specs.Arguments.{IsArgument, IsArgumentFault, IsNoValue, IsTextFault, IsValue, IsValueFault, ReadsAs, StatesValue};
ghost use Rattle.git_msg.specs.Arguments.{is_offered as offers, name_of, refusal_of, shown, word_of};

use crate::flags::Flag;
use crate::offers::Offer;
use crate::parts::check_id;
use crate::texts::is_word;
use crate::words::{NumberWord, ObjectWord, TextWord, Word};
use git_names::{Format, Oid, Steps};
use git_pkt::Kind;

/// A command of a request, as in gitprotocol-v2(5).
#[derive(Clone, Copy, Debug, PartialEq, Eq, Hash)]
pub enum Command {
    /// `ls-refs`: the references, as `git ls-remote` shows them.
    LsRefs,
    /// `fetch`: a pack of the wanted objects, as `git clone` requests it.
    Fetch,
    /// `object-info`: facts about objects, without the objects themselves.
    ObjectInfo,
}

/// An argument of a request, with a borrowed text.
#[derive(Clone, Copy, Debug)]
pub enum Argument<'a> {
    /// A word alone: each [`Flag`] states what it requests.
    Flag(Flag),
    /// An object name after its word.
    Object(ObjectWord, Oid),
    /// A text after its word. It is borrowed also where it is a reference name, since the check has no rule yet for an enum that
    /// has an object name by value and a struct that borrows.
    Text(TextWord, &'a [u8]),
    /// A number after its word.
    Number(NumberWord, u64),
}

impl Command {
    /// The command's key, as it stands after `command=`.
    pub fn name(self) -> &'static str
        ensures { result.now ≡ name_of self }
    {
        match self {
            Command::LsRefs => "ls-refs",
            Command::Fetch => "fetch",
            Command::ObjectInfo => "object-info",
        }
    }

    /// The command that has this key, as [`Command::name`] returns it.
    pub fn read(key: &[u8]) -> Option<Command>
        ensures { MatchOption result ((command : Command) → ¬ (key.now ≡ name_of command)) (λ command. key.now ≡ name_of command) }
    {
        if is_word(key, b"ls-refs") {
            return Some(Command::LsRefs);
        }
        if is_word(key, b"fetch") {
            return Some(Command::Fetch);
        }
        if is_word(key, b"object-info") {
            return Some(Command::ObjectInfo);
        }
        None
    }
}

/// Reads the text of an argument line. Refuses it first as `UnknownArgument`, if the command has no such argument; then for
/// its value: `BadLine` for a text of a wrong length, `BadObjectName` if it is no object name of the format, `BadRefName` if
/// it is no reference name, `BadNumber` if it is no number in its range; and then as `NotAdvertised`, if the argument needs
/// a feature that was not advertised.
pub fn read_argument<'a>(
    command: Command,
    offer: &Offer,
    text: &'a [u8],
    steps: &mut Steps,
) -> Result<Argument<'a>, Kind>
    ensures argument { MatchResult result (λ argument. ReadsAs command offer.now text.now (shown argument))
        (IsArgumentFault command offer.now text.now) }
    ensures cost { TakesAtMost (40 * (length text.now + 1)) steps.old steps.new }
{
    match read_text(command, offer.format, text, steps) {
        Ok(argument) => {
            if !word_at(&argument).is_offered(offer) {
                return Err(Kind::NotAdvertised);
            }
            Ok(argument)
        }
        Err(kind) => Err(kind),
    }
}

// The argument of the command that the text is, whether or not the feature that it needs was advertised.
fn read_text<'a>(
    command: Command,
    format: Format,
    text: &'a [u8],
    steps: &mut Steps,
) -> Result<Argument<'a>, Kind>
    ensures argument { MatchResult result (λ argument. IsArgument command format text.now (shown argument)) (IsTextFault command format text.now) }
    ensures cost { TakesAtMost (40 * (length text.now + 1)) steps.old steps.new }
{
    match command.split(text, steps) {
        Some((word, value)) => read_value(word, format, value, steps),
        None => Err(Kind::UnknownArgument),
    }
}

// Reads the value after the word.
fn read_value<'a>(
    word: Word,
    format: Format,
    value: &'a [u8],
    steps: &mut Steps,
) -> Result<Argument<'a>, Kind>
    ensures argument { MatchResult result (λ argument. (word_of (shown argument) ≡ word) × StatesValue format value.now (shown argument))
        (λ kind. IsNoValue word format value.now × (kind ≡ refusal_of word)) }
    ensures cost { TakesAtMost (16 * (length value.now + 1)) steps.old steps.new }
{
    match word {
        Word::Flag(flag) => Ok(Argument::Flag(flag)),
        Word::Object(word) => Ok(Argument::Object(word, read_id(format, value, steps)?)),
        Word::Text(word) => {
            if !word.allows(value, steps) {
                return Err(word.refusal());
            }
            Ok(Argument::Text(word, value))
        }
        Word::Number(word) => Ok(Argument::Number(word, word.read(value, steps)?)),
    }
}

fn read_id(format: Format, name: &[u8], steps: &mut Steps) -> Result<Oid, Kind>
    ensures name { MatchResult result (IsObjectName format name.now) (λ kind. IsNoObjectName format name.now × (kind ≡ Kind.BadObjectName)) }
    ensures cost { TakesAtMost (16 * (length name.now + 1)) steps.old steps.new }
{
    match Oid::read(format, name, steps) {
        Ok(id) => Ok(id),
        Err(_) => Err(Kind::BadObjectName),
    }
}

/// The word at the head of the argument's line.
pub fn word_at(argument: &Argument<'_>) -> Word
    ensures { result ≡ word_of (shown argument.now) }
{
    match argument {
        Argument::Flag(flag) => Word::Flag(*flag),
        Argument::Object(word, _) => Word::Object(*word),
        Argument::Text(word, _) => Word::Text(*word),
        Argument::Number(word, _) => Word::Number(*word),
    }
}

/// Whether the argument is allowed in a request of this command and format.
pub(crate) fn check_value(
    command: Command,
    format: Format,
    argument: &Argument<'_>,
) -> Result<(), Kind>
    ensures ok { OnOk result (IsValue command format (shown argument.now)) }
    ensures err { IfErr result (IsValueFault command format (shown argument.now)) }
{
    if !word_at(argument).is_for(command) {
        return Err(Kind::UnknownArgument);
    }
    match argument {
        Argument::Flag(_) => Ok(()),
        Argument::Object(_, id) => check_id(format, id),
        Argument::Text(word, text) => {
            if !word.allows(text, &mut Steps::new()) {
                return Err(word.refusal());
            }
            Ok(())
        }
        Argument::Number(word, number) => {
            if !word.allows(*number) {
                return Err(Kind::BadNumber);
            }
            Ok(())
        }
    }
}
