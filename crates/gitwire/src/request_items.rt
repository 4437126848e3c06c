//! The arguments of a request, on their way to C.

ghost use Rattle.std.specs.Prelude.{◌≡◌};
ghost use Rattle.std.specs.Option.{option_copied, option_map};
ghost use Rattle.git_names.specs.ObjectName.{hex_of};
ghost use Rattle.gitwire.specs.Numbers.{item_words, numbered};
ghost use Rattle.gitwire.specs.RequestAnswers.{PutsFrom, PutsItem, announcing_number, announcing_which, is_set};

use crate::answer::{GitwireAnswer, What};
use crate::buffers::fill;
use crate::numbers::{flag_numbered, item_word, number_word};
use git_msg::{KeptArguments, Word};
use git_names::Oid;
use std::alloc::Global;

/// Whether the flag of this number is among the arguments.
pub(crate) fn has_flag(arguments: &KeptArguments<Global>, number: u32) -> bool
    ensures { result ≡ is_set number arguments.now.asked }
{
    match flag_numbered(number) {
        Some(flag) => arguments.has(flag),
        None => false,
    }
}

/// What is reported for the number among the arguments that this number selects.
pub(crate) fn given_number(arguments: &KeptArguments<Global>, which: u32) -> GitwireAnswer
    ensures { result ≡ announcing_which which arguments.now.asked }
{
    let Some(word) = number_word(which) else {
        return GitwireAnswer::of(What::BadValue);
    };
    match arguments.number(word) {
        Some(number) => announce_number(number),
        None => GitwireAnswer::of(What::Nothing),
    }
}

/// Reports a number of a request: `Done`, and `offset` is the number.
fn announce_number(number: u64) -> GitwireAnswer
    ensures { result ≡ announcing_number number }
{
    GitwireAnswer::of_packet(0, number, 0, What::Done)
}

/// Writes the item at an index of the list of this number to the front of the buffer.
pub(crate) fn put_item(
    arguments: &KeptArguments<Global>,
    list: u32,
    index: usize,
    buffer: &mut [u8],
) -> GitwireAnswer
    ensures { PutsFrom (numbered item_words list) arguments.now.asked index buffer.old result buffer.new }
{
    let Some(word) = item_word(list) else {
        return GitwireAnswer::of(What::BadValue);
    };
    match word {
        Word::Object(word) => put_name_if_any(arguments.ids(word).get(index), buffer),
        Word::Text(word) => put_text_if_any(arguments.text(word, index), buffer),
        Word::Flag(_) | Word::Number(_) => GitwireAnswer::of(What::Nothing),
    }
}

/// Writes the text to the front of the buffer, or reports `Nothing` if there is none.
fn put_text_if_any(text: Option<&[u8]>, buffer: &mut [u8]) -> GitwireAnswer
    ensures { PutsItem (option_copied text.entry) buffer.old result buffer.new }
{
    match text {
        Some(text) => fill(text, buffer),
        None => GitwireAnswer::of(What::Nothing),
    }
}

/// Writes the digits of the object name to the front of the buffer, or reports `Nothing` if there is none.
fn put_name_if_any(id: Option<&Oid>, buffer: &mut [u8]) -> GitwireAnswer
    ensures { PutsItem (option_map hex_of (option_copied id.entry)) buffer.old result buffer.new }
{
    let Some(id) = id else {
        return GitwireAnswer::of(What::Nothing);
    };
    fill(id.written(&mut [0; 64]), buffer)
}
