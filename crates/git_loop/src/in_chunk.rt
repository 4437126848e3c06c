//! Bytes that a machine lends from the chunk that it was fed last.

ghost use Rattle.std.specs.Prelude.{◌≡◌, ◌≤◌, ◌-◌, [], length, take, drop};
ghost use Rattle.git_loop.specs.InChunks.{LiesIn, bytes_in};
ghost use Rattle.git_loop.specs.declared.in_chunk.InChunk.{InChunk};

use crate::recalled::Recalled;

/// Some bytes of a chunk, by their place in it: a machine that keeps this lends them while the chunk is at hand, and has no copy of them.
/// Contracts know the bytes as well.
#[derive(Drop)]
pub struct InChunk {
    start: usize,
    end: usize,
    bytes: Recalled,
}

impl InChunk {
    /// The bytes of a chunk between two indices.
    pub fn between(chunk: &[u8], start: usize, end: usize) -> InChunk
        requires ordered { start ≤ end }
        requires within { end ≤ length chunk.now }
        ensures bytes { bytes_in result ≡ take (end - start) (drop start chunk.now) }
        ensures lies { LiesIn result chunk.now }
    {
        InChunk {
            start,
            end,
            bytes: Recalled::of(&chunk[start..end]),
        }
    }

    /// No bytes.
    pub fn none() -> InChunk
        ensures { bytes_in result ≡ [] }
    {
        InChunk::between(&[], 0, 0)
    }

    /// The bytes, in the chunk where they lie.
    pub fn lent<'a>(&self, chunk: &'a [u8]) -> &'a [u8]
        requires { LiesIn self.now chunk.now }
        ensures { result.now ≡ bytes_in self.now }
    {
        &chunk[self.start..self.end]
    }
}
