//! Bytes for C, at the front of a buffer of C.

ghost use Rattle.gitwire.specs.Buffers.{Fills, Puts};

use crate::answer::{GitwireAnswer, What};

/// Copies the bytes to the front of the buffer, and returns how many they are; if the buffer is too small, returns 0 and writes nothing.
pub(crate) fn put_bytes(bytes: &[u8], buffer: &mut [u8]) -> usize
    ensures { Puts bytes.now buffer.old result buffer.new }
{
    if bytes.len() > buffer.len() {
        return 0;
    }
    buffer[..bytes.len()].copy_from_slice(bytes);
    bytes.len()
}

/// Copies the bytes to the front of the buffer, and reports how many they are, or that the buffer is too small.
pub(crate) fn fill(bytes: &[u8], buffer: &mut [u8]) -> GitwireAnswer
    ensures { Fills bytes.now buffer.old result buffer.new }
{
    if buffer.len() < bytes.len() {
        return GitwireAnswer::of(What::BufferTooSmall);
    }
    GitwireAnswer::of_packet(0, 0, put_bytes(bytes, buffer), What::Done)
}
