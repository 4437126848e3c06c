//! The four hexadecimal digits that begin a packet.

ghost use Rattle.std.specs.Prelude.{◌≤◌, length};
ghost use Rattle.git_pkt.specs.Machine.AnnouncesDigits.{AnnouncesDigits};

use git_names::digit_value;

/// The result of reading four bytes as digits.
#[derive(Clone, Copy, Debug)]
pub(crate) enum Digits {
    /// They are digits, of this number.
    Number(usize),
    /// The index of the first byte that is no digit.
    Bad(usize),
}

/// Reads four digits.
pub(crate) fn read_digits(bytes: &[u8]) -> Digits
    requires { 4 ≤ length bytes.now }
    ensures digits { AnnouncesDigits bytes.now result }
{
    let first = digit_value(bytes[0]);
    if first > 15 {
        return Digits::Bad(0);
    }
    let second = digit_value(bytes[1]);
    if second > 15 {
        return Digits::Bad(1);
    }
    let third = digit_value(bytes[2]);
    if third > 15 {
        return Digits::Bad(2);
    }
    let fourth = digit_value(bytes[3]);
    if fourth > 15 {
        return Digits::Bad(3);
    }
    Digits::Number(
        first as usize * 4096 + second as usize * 256 + third as usize * 16 + fourth as usize,
    )
}
