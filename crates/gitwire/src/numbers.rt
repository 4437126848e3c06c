//! Names for the numbers that C passes: each kind begins at 1, and 0 means nothing.

ghost use Rattle.std.specs.Prelude.{◌≡◌, Some};
ghost use Rattle.gitwire.specs.Numbers.{commands, flags, formats, format_number, command_number, item_words, number_words, numbered};

use git_msg::{Command, Flag, NumberWord, ObjectWord, TextWord, Word};
use git_names::Format;

/// The format that C means by this number; none if there is no such format.
pub(crate) fn format_numbered(number: u32) -> Option<Format>
    ensures { result ≡ numbered formats number }
{
    match number {
        1 => Some(Format::Sha1),
        2 => Some(Format::Sha256),
        _ => None,
    }
}

/// The number of a format in C.
pub(crate) fn number_of_format(format: Format) -> u32
    ensures value { result ≡ format_number format }
    ensures place { numbered formats result ≡ Some format }
{
    match format {
        Format::Sha1 => 1,
        Format::Sha256 => 2,
    }
}

/// The command that C means by this number; none if there is no such command.
pub(crate) fn command_numbered(number: u32) -> Option<Command>
    ensures { result ≡ numbered commands number }
{
    match number {
        1 => Some(Command::LsRefs),
        2 => Some(Command::Fetch),
        3 => Some(Command::ObjectInfo),
        _ => None,
    }
}

/// The number of a command in C.
pub(crate) fn number_of_command(command: Command) -> u32
    ensures value { result ≡ command_number command }
    ensures place { numbered commands result ≡ Some command }
{
    match command {
        Command::LsRefs => 1,
        Command::Fetch => 2,
        Command::ObjectInfo => 3,
    }
}

/// The flag that C means by this number; none if there is no such flag.
pub(crate) fn flag_numbered(number: u32) -> Option<Flag>
    ensures { result ≡ numbered flags number }
{
    match number {
        1 => Some(Flag::Symrefs),
        2 => Some(Flag::Peel),
        3 => Some(Flag::Done),
        4 => Some(Flag::ThinPack),
        5 => Some(Flag::NoProgress),
        6 => Some(Flag::IncludeTag),
        7 => Some(Flag::OfsDelta),
        8 => Some(Flag::DeepenRelative),
        9 => Some(Flag::Size),
        10 => Some(Flag::Unborn),
        11 => Some(Flag::WaitForDone),
        _ => None,
    }
}

/// The word before the number that C means by this number; none if there is no such word.
pub(crate) fn number_word(number: u32) -> Option<NumberWord>
    ensures { result ≡ numbered number_words number }
{
    match number {
        1 => Some(NumberWord::Deepen),
        2 => Some(NumberWord::DeepenSince),
        _ => None,
    }
}

/// The word before the items of the list that C means by this number; none if there is no such list.
pub(crate) fn item_word(number: u32) -> Option<Word>
    ensures { result ≡ numbered item_words number }
{
    match number {
        1 => Some(Word::Text(TextWord::RefPrefix)),
        2 => Some(Word::Object(ObjectWord::Want)),
        3 => Some(Word::Object(ObjectWord::Have)),
        4 => Some(Word::Object(ObjectWord::Shallow)),
        5 => Some(Word::Text(TextWord::DeepenNot)),
        6 => Some(Word::Text(TextWord::WantRef)),
        7 => Some(Word::Object(ObjectWord::ObjectId)),
        8 => Some(Word::Text(TextWord::Filter)),
        9 => Some(Word::Text(TextWord::ServerOption)),
        _ => None,
    }
}
