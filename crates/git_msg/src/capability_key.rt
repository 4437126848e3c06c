//! The keys of a request's capability lines.
ghost use Rattle.git_msg.specs.Lines.{IsWordOf};

use crate::texts::is_word;

/// A key that a request may have, or another.
#[derive(Clone, Copy, Debug)]
pub(crate) enum Key {
    CommandKey,
    AgentKey,
    ServerOptionKey,
    ObjectFormatKey,
    OtherKey,
}

/// The key that the word is.
pub(crate) fn read_key(word: &[u8]) -> Key
    ensures word { IsWordOf word.now result }
{
    if is_word(word, b"command") {
        return Key::CommandKey;
    }
    if is_word(word, b"agent") {
        return Key::AgentKey;
    }
    if is_word(word, b"server-option") {
        return Key::ServerOptionKey;
    }
    if is_word(word, b"object-format") {
        return Key::ObjectFormatKey;
    }
    Key::OtherKey
}
