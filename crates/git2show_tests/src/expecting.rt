//! Expectations of tests, as functions that are proved and built once: each `assert_eq!` would be a formatter, a branch and an end of its own.
use std::fmt::Debug;
use std::process::Abort;

/// Expects that the value is the expected one.
pub fn expect<T: PartialEq + Debug>(rt: &impl Abort, came: &T, expected: &T) {
    assert_eq!(rt; came, expected);
}

/// Expects that the bytes are the expected ones.
pub fn expect_bytes(rt: &impl Abort, came: &[u8], expected: &[u8]) {
    assert_eq!(rt; came, expected);
}
