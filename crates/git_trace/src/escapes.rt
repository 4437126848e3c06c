//! The escapes of a trace, read back to bytes.

ghost use Rattle.std.specs.Prelude.{◌≡◌, ◌+◌, ◌++◌, ◌<◌, ◌≤◌, length, true, OnOk};
ghost use Rattle.git_trace.specs.Escapes.{are_three_at, escape_at, has_eleven, has_three, has_two, is_octal_at, octal_at, octal_value, three_at};
ghost use Rattle.git_trace.specs.Escapes.{two_of, unescaped};

use std::alloc::AllocError;

/// What a backslash begins.
#[derive(Clone, Copy, Debug, PartialEq, Eq)]
pub(crate) struct Escape {
    /// The byte that is meant.
    byte: u8,
    /// How many digits follow the backslash.
    digits: usize,
}

/// Appends the bytes that a text of a trace stands for. After a backslash it reads the most digits that Git writes for one byte.
pub fn unescape(text: &[u8], out: &mut Vec<u8>) -> Result<(), AllocError>
    ensures { OnOk result (out.new.items ≡ out.old.items ++ unescaped text.now) }
{
    let mut at = 0;
    while at < text.len() {
        let byte = text[at];
        at += 1;
        if byte == b'\\' {
            let escape = escape_at(&text[at..]);
            out.push(escape.byte)?;
            at += escape.digits;
        } else {
            out.push(byte)?;
        }
    }
    Ok(())
}

/// The escape that a backslash before this text begins.
fn escape_at(text: &[u8]) -> Escape
    ensures escape { result ≡ escape_at text.now }
    ensures within { result.digits ≤ 11 }
{
    if has_eleven(text) {
        return Escape {
            byte: (three_at(text, 8) - 256) as u8,
            digits: 11,
        };
    }
    if has_three(text) {
        return Escape {
            byte: three_at(text, 0) as u8,
            digits: 3,
        };
    }
    if has_two(text) {
        return Escape {
            byte: two_of(text) as u8,
            digits: 2,
        };
    }
    if is_octal_at(text, 0) {
        return Escape {
            byte: octal_at(text, 0) as u8,
            digits: 1,
        };
    }
    Escape {
        byte: b'\\',
        digits: 0,
    }
}

/// Whether the text begins with the digits of a byte from 0x80 on, written as a negative number of 32 bits: Git does so where `char` has a sign.
fn has_eleven(text: &[u8]) -> bool
    ensures { result ≡ has_eleven text.now }
{
    text.starts_with(b"37777777") && are_three_at(text, 8) && three_at(text, 8) >= 384
}

/// Whether the text begins with the three digits of a byte from 0x7f on.
fn has_three(text: &[u8]) -> bool
    ensures { result ≡ has_three text.now }
{
    are_three_at(text, 0) && three_at(text, 0) >= 127 && three_at(text, 0) <= 255
}

/// Whether the text begins with the two digits of a byte from 8 to 31, other than LF.
fn has_two(text: &[u8]) -> bool
    ensures { result ≡ has_two text.now }
{
    is_octal_at(text, 0)
        && is_octal_at(text, 1)
        && two_of(text) >= 8
        && two_of(text) < 32
        && two_of(text) != 10
}

fn two_of(text: &[u8]) -> usize
    ensures value { result ≡ two_of text.now }
    ensures within { result ≤ 72 }
{
    octal_at(text, 0) * 8 + octal_at(text, 1)
}

fn three_at(text: &[u8], at: usize) -> usize
    requires { at ≤ 8 }
    ensures value { result ≡ three_at text.now at }
    ensures within { result ≤ 584 }
{
    octal_at(text, at) * 64 + octal_at(text, at + 1) * 8 + octal_at(text, at + 2)
}

fn are_three_at(text: &[u8], at: usize) -> bool
    requires { at ≤ 8 }
    ensures { result ≡ are_three_at text.now at }
{
    is_octal_at(text, at) && is_octal_at(text, at + 1) && is_octal_at(text, at + 2)
}

fn is_octal_at(text: &[u8], at: usize) -> bool
    ensures { result ≡ is_octal_at text.now at }
{
    octal_at(text, at) < 8
}

/// The value of the octal digit at this index; 8 if there is none.
fn octal_at(text: &[u8], at: usize) -> usize
    ensures value { result ≡ octal_at text.now at }
    ensures within { result ≤ 8 }
{
    match text.get(at) {
        Some(byte) if *byte >= b'0' && *byte <= b'7' => (*byte - b'0') as usize,
        Some(_) | None => 8,
    }
}
