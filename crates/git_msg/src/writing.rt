//! Lines, written into a hold part by part.
ghost use Rattle.std.specs.Prelude.{◌≡◌, ◌+◌, ◌<◌, ◌≤◌, ◌++◌, decimal, length};
ghost use Rattle.git_names.specs.ObjectName.{IsObjectName, hex_of};
ghost use Rattle.git_pkt.specs.Packets.{longest_payload, payload, spelling_of};
ghost use Rattle.git_msg.specs.Arguments.{shown};
ghost use Rattle.git_msg.specs.WrittenRequest.{FitsLine, argument_line, text_line};

use crate::arguments::{Argument, word_at};
use crate::words::TextWord;
use git_names::Oid;
use git_pkt::{Hold, append, begin};
use itoa::Buffer;

/// Makes the hold the packet of a line: a word, a value right after it, and LF. Together they have at most
/// the 65,516 bytes of a payload.
pub fn put_line(hold: &mut Hold, word: &[u8], value: &[u8])
    requires { length word.now + length value.now < longest_payload }
    ensures written { hold.new.items ≡ spelling_of (text_line (word.now ++ value.now)) }
    ensures fits { length (word.now ++ value.now) < longest_payload }
{
    begin(hold, word.len() + value.len() + 1);
    append(hold, word);
    append(hold, value);
    append(hold, b"\n");
}

/// Makes the hold the packet of an argument's line.
pub(crate) fn put_argument(hold: &mut Hold, argument: &Argument<'_>)
    requires { FitsLine (shown argument.now) }
    ensures { hold.new.items ≡ spelling_of (argument_line (shown argument.now)) }
{
    let word = word_at(argument).keyword();
    match argument {
        Argument::Flag(_) => put_line(hold, word, b""),
        Argument::Object(_, id) => put_name_line(hold, word, id),
        Argument::Text(TextWord::ServerOption, option) => put_text(hold, word, option),
        Argument::Text(_, text) => put_line(hold, word, text),
        Argument::Number(_, number) => put_number_line(hold, word, *number),
    }
}

/// Makes the hold the packet of a word and a value right after it, without LF.
fn put_text(hold: &mut Hold, word: &[u8], value: &[u8])
    requires { length word.now + length value.now ≤ longest_payload }
    ensures { hold.new.items ≡ spelling_of (payload (word.now ++ value.now)) }
{
    begin(hold, word.len() + value.len());
    append(hold, word);
    append(hold, value);
}

/// Makes the hold the packet of the line of a word and an object name.
pub(crate) fn put_name_line(hold: &mut Hold, word: &[u8], id: &Oid)
    requires { length word.now + 64 < longest_payload }
    ensures written { hold.new.items ≡ spelling_of (text_line (word.now ++ hex_of id.now)) }
    ensures reads_back { IsObjectName id.now.format (hex_of id.now) id.now }
    ensures fits { length (word.now ++ hex_of id.now) < longest_payload }
{
    put_line(hold, word, id.written(&mut [0; 64]));
}

/// Makes the hold the packet of the line of a word and a number.
fn put_number_line(hold: &mut Hold, word: &[u8], number: u64)
    requires { length word.now + 20 < longest_payload }
    ensures { hold.new.items ≡ spelling_of (text_line (word.now ++ decimal number)) }
{
    let mut buffer = Buffer::new();
    put_line(hold, word, buffer.format(number).as_bytes());
}
