//! Bytes as a case writes them: in the escaped form that `git2show show` prints.

use crate::texts::append;
use crate::trouble::Trouble;
use git_pkt::escape_into;
use std::alloc::{AllocError, Global};

/// How far an escape has come, between two bytes of a text.
#[derive(Clone, Copy)]
enum Place {
    Plain,
    // After a backslash.
    Escape,
    // After a backslash and an `x`.
    HighDigit,
    // After that and one digit.
    LowDigit(u8),
}

// The value of a lower-case hexadecimal digit.
fn digit(byte: u8) -> Option<u8> {
    match byte {
        b'0'..=b'9' => Some(byte - b'0'),
        b'a'..=b'f' => Some(byte - b'a' + 10),
        _ => None,
    }
}

/// The length in the four digits of a packet.
pub fn packet_length(digits: &[u8]) -> Option<usize> {
    let [first, second, third, fourth] = digits else {
        return None;
    };
    let (first, second) = (digit(*first)? as usize, digit(*second)? as usize);
    let (third, fourth) = (digit(*third)? as usize, digit(*fourth)? as usize);
    Some(((first * 16 + second) * 16 + third) * 16 + fourth)
}

// How far an escape has come after one more byte, and the byte that is complete then.
fn unescaped(place: Place, byte: u8) -> Result<(Place, Option<u8>), Trouble> {
    match (place, byte) {
        (Place::Plain, b'\\') => Ok((Place::Escape, None)),
        (Place::Plain, plain) => Ok((Place::Plain, Some(plain))),
        (Place::Escape, b'n') => Ok((Place::Plain, Some(b'\n'))),
        (Place::Escape, b'\\') => Ok((Place::Plain, Some(b'\\'))),
        (Place::Escape, b'x') => Ok((Place::HighDigit, None)),
        (Place::Escape, _) => Err(Trouble::BadCase("an unknown escape")),
        (Place::HighDigit, byte) => match digit(byte) {
            Some(high) => Ok((Place::LowDigit(high), None)),
            None => Err(Trouble::BadCase("no digit after \\x")),
        },
        (Place::LowDigit(high), byte) => match digit(byte) {
            Some(low) => Ok((Place::Plain, Some(high.wrapping_mul(16) | low))),
            None => Err(Trouble::BadCase("no second digit after \\x")),
        },
    }
}

/// Appends the bytes of an escaped text: `\n` is LF, `\\` a backslash, `\x` and two digits that byte.
pub fn append_unescaped(bytes: &mut Vec<u8>, text: &str) -> Result<(), Trouble> {
    let mut place = Place::Plain;
    for byte in text.as_bytes() {
        let (next, whole) = unescaped(place, *byte)?;
        if let Some(whole) = whole {
            append(bytes, &[whole])?;
        }
        place = next;
    }
    match place {
        Place::Plain => Ok(()),
        _ => Err(Trouble::BadCase("an escape that does not end")),
    }
}

/// The escaped form of bytes.
pub fn escaped(alloc: Global, bytes: &[u8]) -> Result<Vec<u8>, AllocError> {
    let mut text = Vec::new(alloc);
    for byte in bytes {
        let mut shown = [0; 4];
        let end = escape_into(&[*byte], &mut shown, 0).min(4);
        append(&mut text, &shown[..end])?;
    }
    Ok(text)
}
