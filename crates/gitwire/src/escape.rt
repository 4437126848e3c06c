//! Untrusted bytes as a text that may be shown.

ghost use Rattle.gitwire.specs.EscapeAnswers.{Escapes};

use crate::answer::{GitwireAnswer, What};
use git_pkt::{escape_into, put_at};

/// How many bytes the longest escape has.
const LONGEST_ESCAPE: usize = 4;

/// Writes the escapes of the bytes to the front of the buffer, of as many bytes as fit: `Done` if these are all, and else `More`.
/// `BufferTooSmall` if the buffer has fewer than 4 bytes.
#[unsafe(no_mangle)]
pub extern "C" fn gitwire_escape(bytes: &[u8], buffer: &mut [u8]) -> GitwireAnswer
    ensures { Escapes bytes.now buffer.old result buffer.new }
{
    if buffer.len() < LONGEST_ESCAPE {
        return GitwireAnswer::of(What::BufferTooSmall);
    }
    let mut end = 0;
    for (used, byte) in bytes.iter().enumerate() {
        let mut escape = [0; LONGEST_ESCAPE];
        let length = escape_into(&[*byte], &mut escape, 0);
        if buffer.len() - end < length {
            return GitwireAnswer::of_packet(used, 0, end, What::More);
        }
        end = put_at(buffer, end, &escape[..length]);
    }
    GitwireAnswer::of_packet(bytes.len(), 0, end, What::Done)
}
