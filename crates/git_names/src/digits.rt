//! Hexadecimal digits, and bytes as pairs of them.
ghost use Rattle.std.specs.Prelude.{◌≡◌, ◌+◌, ◌*◌, ◌<◌, ◌≤◌, ◌++◌, ℕ, length, replicate, slice_index, take, drop, MatchOption};
ghost use Rattle.hex.specs.Hex.{encode_lower};
ghost use Rattle.git_names.specs.declared.object_format.Format.{Format};
ghost use Rattle.git_names.specs.Digits.{AreDigits, HaveValues, digit_value, lower_digit};
ghost use Rattle.git_names.specs.ObjectName.{Decodes};
ghost use Rattle.git_names.specs.Steps.{TakesAtMost};

use crate::counter::Steps;
use std::simd::prelude::*;

// The value of each byte as a digit of either case, or 16 if it is no digit; each row has 16 bytes. Each packet begins with
// digits, and nearly every line has an object name; a table has no branch that the processor has to guess.
static DIGIT_VALUES: [u8; 256] = *b"\
    \x10\x10\x10\x10\x10\x10\x10\x10\x10\x10\x10\x10\x10\x10\x10\x10\
    \x10\x10\x10\x10\x10\x10\x10\x10\x10\x10\x10\x10\x10\x10\x10\x10\
    \x10\x10\x10\x10\x10\x10\x10\x10\x10\x10\x10\x10\x10\x10\x10\x10\
    \x00\x01\x02\x03\x04\x05\x06\x07\x08\x09\x10\x10\x10\x10\x10\x10\
    \x10\x0a\x0b\x0c\x0d\x0e\x0f\x10\x10\x10\x10\x10\x10\x10\x10\x10\
    \x10\x10\x10\x10\x10\x10\x10\x10\x10\x10\x10\x10\x10\x10\x10\x10\
    \x10\x0a\x0b\x0c\x0d\x0e\x0f\x10\x10\x10\x10\x10\x10\x10\x10\x10\
    \x10\x10\x10\x10\x10\x10\x10\x10\x10\x10\x10\x10\x10\x10\x10\x10\
    \x10\x10\x10\x10\x10\x10\x10\x10\x10\x10\x10\x10\x10\x10\x10\x10\
    \x10\x10\x10\x10\x10\x10\x10\x10\x10\x10\x10\x10\x10\x10\x10\x10\
    \x10\x10\x10\x10\x10\x10\x10\x10\x10\x10\x10\x10\x10\x10\x10\x10\
    \x10\x10\x10\x10\x10\x10\x10\x10\x10\x10\x10\x10\x10\x10\x10\x10\
    \x10\x10\x10\x10\x10\x10\x10\x10\x10\x10\x10\x10\x10\x10\x10\x10\
    \x10\x10\x10\x10\x10\x10\x10\x10\x10\x10\x10\x10\x10\x10\x10\x10\
    \x10\x10\x10\x10\x10\x10\x10\x10\x10\x10\x10\x10\x10\x10\x10\x10\
    \x10\x10\x10\x10\x10\x10\x10\x10\x10\x10\x10\x10\x10\x10\x10\x10";

// The steps of joining pairs: six vector calls, one over 64 bytes and five over 32.
const PAIRING: usize = 65 + 5 * 33;

static LOWER_DIGITS: [u8; 16] = *b"0123456789abcdef";

/// The value of a hexadecimal digit of either case, and 16 for any other byte.
pub fn digit_value(byte: u8) -> u8
    ensures value { result ≡ digit_value byte }
{
    DIGIT_VALUES[byte as usize]
}

/// The digit of a value below 16, in lower case.
pub fn lower_digit(value: usize) -> u8
    requires { value < 16 }
    ensures { result ≡ lower_digit value }
{
    LOWER_DIGITS[value]
}

// Decodes a SHA-1 name as `hex::decode_to_slice` does, with zeros after its 20 bytes. None if that returns an error.
pub(crate) fn decode_20(text: &[u8], steps: &mut Steps) -> Option<[u8; 32]>
    ensures value { Decodes Format.Sha1 text.now result }
    ensures cost { TakesAtMost (16 * (length text.now + 1)) steps.old steps.new }
{
    if text.len() != 40 {
        return None;
    }
    // Two copies.
    steps.tick(33 + 17);
    let Some(values) = digit_values(&laid_out(text), steps) else {
        return None;
    };
    steps.tick(PAIRING);
    Some(joined_20(&values))
}

// The same for a SHA-256 name, which has 32 bytes.
pub(crate) fn decode_32(text: &[u8], steps: &mut Steps) -> Option<[u8; 32]>
    ensures value { Decodes Format.Sha256 text.now result }
    ensures cost { TakesAtMost (16 * (length text.now + 1)) steps.old steps.new }
{
    if text.len() != 64 {
        return None;
    }
    let mut digits = [0; 64];
    steps.tick(65);
    digits.copy_from_slice(text);
    let Some(values) = digit_values(&digits, steps) else {
        return None;
    };
    steps.tick(PAIRING);
    Some(joined_32(&values))
}

// Lays the forty digits out so that vectors of 16 are loaded as they were stored, which is much faster: the last sixteen
// begin at index 32. The digit 0 fills the rest.
fn laid_out(text: &[u8]) -> [u8; 64]
    requires { length text.now ≡ 40 }
    ensures value { result ≡ (take 32 text.now ++ drop 24 text.now) ++ replicate 16 48 }
{
    let mut digits = [b'0'; 64];
    digits[..32].copy_from_slice(&text[..32]);
    digits[32..48].copy_from_slice(&text[24..]);
    digits
}

// The values of 64 digits. Each step of the loop does the same, whatever it finds, so that the compiler can vectorize it.
fn digit_values(digits: &[u8; 64], steps: &mut Steps) -> Option<[u8; 64]>
    ensures values { MatchOption result (¬ AreDigits digits.now) (λ values. HaveValues digits.now values) }
    ensures cost { TakesAtMost 64 steps.old steps.new }
{
    let mut values = [0; 64];
    let mut has_other = false;
    steps.tick(64);
    for i in 0..64 {
        let value = value_of(digits[i]);
        has_other |= value > 15;
        values[i] = value;
    }
    if has_other {
        return None;
    }
    Some(values)
}

// The same as `digit_value`, by comparisons.
fn value_of(byte: u8) -> u8
    ensures value { result ≡ digit_value byte }
{
    if (byte >= b'0') & (byte <= b'9') {
        byte - b'0'
    } else if (byte >= b'A') & (byte <= b'F') {
        byte - b'A' + 10
    } else if (byte >= b'a') & (byte <= b'f') {
        byte - b'a' + 10
    } else {
        16
    }
}

// The 32 bytes that pairs of digits with these values spell.
fn joined_32(values: &[u8; 64]) -> [u8; 32]
    requires { (k : ℕ) → k < 64 → slice_index values.now k < 16 }
    ensures size { length result ≡ 32 }
    ensures value { (k : ℕ) → k < 32 → slice_index result k ≡ slice_index values.now (2 * k) * 16 + slice_index values.now (2 * k + 1) }
{
    let values = u8x64::from_array(*values);
    let high: u8x32 = values.swizzle([
        0, 2, 4, 6, 8, 10, 12, 14, 16, 18, 20, 22, 24, 26, 28, 30, 32, 34, 36, 38, 40, 42, 44, 46,
        48, 50, 52, 54, 56, 58, 60, 62,
    ]);
    let low: u8x32 = values.swizzle([
        1, 3, 5, 7, 9, 11, 13, 15, 17, 19, 21, 23, 25, 27, 29, 31, 33, 35, 37, 39, 41, 43, 45, 47,
        49, 51, 53, 55, 57, 59, 61, 63,
    ]);
    (high * u8x32::splat(16) + low).to_array()
}

// The 20 bytes that pairs of digits with these values spell; the pairs of the last four begin at index 40. Twelve copies of
// the byte of the next pair follow.
fn joined_20(values: &[u8; 64]) -> [u8; 32]
    requires { (k : ℕ) → k < 64 → slice_index values.now k < 16 }
    ensures size { length result ≡ 32 }
    ensures front { (k : ℕ) → k < 16 → slice_index result k ≡ slice_index values.now (2 * k) * 16 + slice_index values.now (2 * k + 1) }
    ensures back { (k : ℕ) → k < 20 → 16 ≤ k → slice_index result k ≡ slice_index values.now (2 * k + 8) * 16 + slice_index values.now (2 * k + 8 + 1) }
    ensures after { (k : ℕ) → k < 32 → 20 ≤ k → slice_index result k ≡ slice_index values.now 48 * 16 + slice_index values.now 49 }
{
    let values = u8x64::from_array(*values);
    let high: u8x32 = values.swizzle([
        0, 2, 4, 6, 8, 10, 12, 14, 16, 18, 20, 22, 24, 26, 28, 30, 40, 42, 44, 46, 48, 48, 48, 48,
        48, 48, 48, 48, 48, 48, 48, 48,
    ]);
    let low: u8x32 = values.swizzle([
        1, 3, 5, 7, 9, 11, 13, 15, 17, 19, 21, 23, 25, 27, 29, 31, 41, 43, 45, 47, 49, 49, 49, 49,
        49, 49, 49, 49, 49, 49, 49, 49,
    ]);
    (high * u8x32::splat(16) + low).to_array()
}

// Encodes the bytes as `hex::encode_to_slice` does. Each step of the loop does the same, so that the compiler can vectorize it.
pub(crate) fn pairs_of(bytes: &[u8; 32]) -> [u8; 64]
    ensures { result ≡ encode_lower bytes.now }
{
    let mut digits = [0; 64];
    for i in 0..32 {
        digits[2 * i] = lower_of(bytes[i] / 16);
        digits[2 * i + 1] = lower_of(bytes[i] % 16);
    }
    digits
}

// The same as `lower_digit`, by a comparison.
fn lower_of(value: u8) -> u8
    requires { value < 16 }
    ensures { result ≡ lower_digit value }
{
    if value < 10 {
        value + b'0'
    } else {
        value - 10 + b'a'
    }
}
