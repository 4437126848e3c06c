//! The meaning of one line of a request, or what refuses it.
ghost use Rattle.std.specs.Prelude.{◌≡◌, ◌+◌, ◌*◌, ◌↔◌, length, Some, IsTrue, MatchResult, MatchOption};
ghost use Rattle.std.specs.Option.{option_copied};
ghost use Rattle.git_names.specs.Steps.{TakesAtMost};
ghost use Rattle.git_msg.specs.Arguments.{name_of, shown};
ghost use Rattle.git_msg.specs.Checks.{Passes, Refuses};
ghost use Rattle.git_msg.specs.Lines.{IsLineOf, IsCapabilityLine, NamesCommand, capability_checks, key_checks, text_checks};
ghost use Rattle.git_msg.specs.Machine.JudgedLine.{line_of, IsText};

use crate::arguments::{Argument, Command, read_argument};
use crate::capabilities::read_capability;
use crate::capability_key::{Key, read_key};
use crate::offers::Offer;
use crate::texts::{is_error, is_word};
use crate::words::MOST_OPTION;
use git_names::Steps;
use git_pkt::Kind;

// The maximum length of a known key, or of a value.
const LONGEST_KEY: usize = 13;

/// The meaning of a line of the capability part.
#[derive(Clone, Copy, Debug)]
pub(crate) enum Noted<'a> {
    Command(Command),
    ServerOption(&'a [u8]),
    ObjectFormat,
    // Nothing of it is kept: it names the agent, or no server option.
    Unkept,
}

/// Judges the text of a line of the capability part; `first` means that no command line came before it.
pub(crate) fn judge_capability<'a>(
    offer: &Offer,
    first: bool,
    text: &'a [u8],
    steps: &mut Steps,
) -> Result<Noted<'a>, Kind>
    ensures line { MatchResult result (λ noted. IsCapabilityLine offer.now first text.now (line_of noted))
        (Refuses (capability_checks offer.now first text.now)) }
    ensures cost { TakesAtMost (13 * (length text.now + 1)) steps.old steps.new }
{
    // `ERR `, four keys, and three values of one of them.
    steps.tick(9 * (text.len().min(LONGEST_KEY) + 1));
    if is_error(text) {
        return Err(Kind::RemoteError);
    }
    let capability = read_capability(text, steps)?;
    let key = read_key(capability.key);
    judge_key(offer, first, key, capability.value)
}

fn judge_key<'a>(
    offer: &Offer,
    first: bool,
    key: Key,
    value: Option<&'a [u8]>,
) -> Result<Noted<'a>, Kind>
    ensures line { MatchResult result
        (λ noted. Passes (key_checks offer.now first key (option_copied value.entry)) × IsLineOf key (option_copied value.entry) (line_of noted))
        (Refuses (key_checks offer.now first key (option_copied value.entry))) }
{
    match key {
        Key::CommandKey => {
            if !first {
                return Err(Kind::TwoCommands);
            }
            let Some(command) = read_command(value) else {
                return Err(Kind::UnknownCommand);
            };
            if !offer.takes(command) {
                return Err(Kind::NotAdvertised);
            }
            Ok(Noted::Command(command))
        }
        Key::AgentKey => Ok(Noted::Unkept),
        Key::ServerOptionKey => {
            if !offer.server_option {
                return Err(Kind::NotAdvertised);
            }
            match value {
                Some(option) if option.len() > MOST_OPTION => Err(Kind::BadLine),
                Some(option) => Ok(Noted::ServerOption(option)),
                None => Ok(Noted::Unkept),
            }
        }
        Key::ObjectFormatKey => {
            if !is_value(value, offer.format.name().as_bytes()) {
                return Err(Kind::WrongFormat);
            }
            Ok(Noted::ObjectFormat)
        }
        Key::OtherKey => Err(Kind::NotAdvertised),
    }
}

/// The command that a value of `command=` names.
fn read_command(value: Option<&[u8]>) -> Option<Command>
    ensures command { MatchOption result (¬ NamesCommand (option_copied value.entry))
        (λ command. option_copied value.entry ≡ Some (name_of command)) }
{
    Command::read(value?)
}

/// Whether there is a value, and it is the word.
fn is_value(value: Option<&[u8]>, word: &[u8]) -> bool
    ensures same { IsTrue result ↔ (option_copied value.entry ≡ Some word.now) }
{
    match value {
        Some(value) => is_word(value, word),
        None => false,
    }
}

/// Reads the text of a line of the argument part.
pub(crate) fn read_text<'a>(
    command: Command,
    offer: &Offer,
    text: &'a [u8],
    steps: &mut Steps,
) -> Result<Argument<'a>, Kind>
    ensures argument { MatchResult result (λ argument. IsText command offer.now text.now (shown argument))
        (Refuses (text_checks command offer.now text.now)) }
    ensures cost { TakesAtMost (41 * (length text.now + 1)) steps.old steps.new }
{
    steps.tick(text.len().min(4) + 1);
    if is_error(text) {
        return Err(Kind::RemoteError);
    }
    read_argument(command, offer, text, steps)
}
