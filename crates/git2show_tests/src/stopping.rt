//! What runs have written if their streams stop after a number of calls.
use crate::expecting::{expect, expect_bytes};
use std::process::Abort;
use test_streams::Sink;

/// No stream stops after this many calls.
pub const ALL: u32 = u32::MAX;

/// More calls than any of these runs makes on one stream.
pub const MANY: u32 = 1_000;

/// More reads than any of these runs makes.
pub const TURNS: u64 = 1_073_741_824;

/// Expects that exactly this was written, and that all of it was flushed.
pub fn expect_sent_bytes(rt: &impl Abort, sink: &Sink, expected: &[u8]) {
    expect_bytes(rt, &sink.taken, expected);
    expect(rt, &sink.flushed, &expected.len());
}

/// Expects that the written bytes are a prefix of what the whole run writes, and no shorter than those written with one call less.
pub fn expect_front(rt: &impl Abort, sink: &Sink, whole: &[u8], longest: &mut usize) {
    assert!(rt; whole.starts_with(sink.taken.as_slice()));
    assert!(rt; *longest <= sink.taken.len());
    *longest = sink.taken.len();
}
