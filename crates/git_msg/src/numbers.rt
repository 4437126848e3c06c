//! Decimal numbers in lines of text.

ghost use Rattle.std.specs.Prelude.{◌≡◌, ◌<◌, ◌^◌, ℕ, MatchOption, decimal, length};
ghost use Rattle.git_msg.specs.Numbers.{IsNumber};

use itoa::Buffer;

/// The number that the text is: one or more decimal digits; leading zeros are allowed. None for any other text, and for a
/// number that does not fit 64 bits.
pub fn read_number(text: &[u8]) -> Option<u64>
    ensures { MatchOption result ((number : ℕ) → number < 2 ^ 64 → ¬ IsNumber text.now number) (IsNumber text.now) }
{
    if text.is_empty() {
        return None;
    }
    let mut number: u64 = 0;
    for digit in text {
        if !digit.is_ascii_digit() {
            return None;
        }
        let value = u64::from(*digit - b'0');
        if number > (u64::MAX - value) / 10 {
            return None;
        }
        number = number * 10 + value;
    }
    Some(number)
}

/// How many digits a number has when it is written.
pub(crate) fn decimal_length(number: u64) -> usize
    ensures { result ≡ length (decimal number) }
{
    Buffer::new().format(number).len()
}
