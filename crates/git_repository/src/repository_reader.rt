//! A repository that consists of a few lists, read from a text that comes in chunks.

ghost use Rattle.std.specs.Prelude.{◌≡◌, ◌↔◌, ◌+◌, ◌≤◌, ◌++◌, [], ℕ, List, length, IsOk, IsTrue, MatchResult, OnErr, OnOk};
ghost use Rattle.git_repository.specs.Packs.{packs_of};
ghost use Rattle.git_repository.specs.Machine.RepositoryFaults.{IsTextFault, IsWholeText};

use crate::packs::Packs;
use crate::repository_progress::Progress;
use crate::text_faults::TextFault;
use git_server::{ListRepo, RepoMemory};
use std::alloc::{AllocError, Global};
use std::mem;

/// Reads the text of a repository in chunks of any size, with the same result as [`crate::read_repo`] has for the whole text.
///
/// It stores the contents of the lines, and of the text only the line that a chunk left open: at most [`crate::LONGEST_LINE`] bytes,
/// since a longer line is refused at once. All lists of the repository take memory from `M`.
#[derive(Drop)]
pub struct RepositoryReader<M: Copy = Global> {
    memory: M,
    progress: Progress,
    /// The bytes of the line that has not ended. They are not read once a line was refused.
    begun: Vec<u8>,
    ghost short: { length begun.items ≤ 65536 },
}

impl<M: RepoMemory + Copy> RepositoryReader<M> {
    ghost use Rattle.git_repository.specs.Machine.RepositoryReader.{HasRefusedLine, LacksBuffer, Reads, Stays, open_bytes};
    ghost use Rattle.git_repository.specs.RepositoryLines.{longest_line};
    ghost use Rattle.git_msg.specs.Memory.{HasRefused};

    /// A reader before the first chunk.
    pub fn new(memory: M) -> RepositoryReader<M>
        ensures { Reads M.refuses result [] }
    {
        RepositoryReader {
            memory,
            progress: Progress::Start,
            begun: Vec::new(memory.alloc()),
        }
    }

    /// Takes another chunk of the text.
    ///
    /// First it reserves memory for the chunk after the open line: if memory for that runs out, the reader stays unchanged. After a line
    /// that was refused, a chunk is skipped.
    pub fn feed(&mut self, chunk: &[u8]) -> Result<(), AllocError>
        ensures open { open_bytes self.new ≤ longest_line }
        ensures fed { OnOk result ((text : List ℕ) → Reads M.refuses self.old text → Reads M.refuses self.new (text ++ chunk.now)) }
        ensures stays { OnErr result (Stays self.old self.new) }
        ensures full { OnErr result (LacksBuffer self.old (length chunk.now)) }
        ensures memory { OnErr result (HasRefused M.refuses (open_bytes self.old + length chunk.now)) }
        ensures passed { HasRefusedLine self.old → IsOk result × (self.new ≡ self.old) }
    {
        if self.progress.has_failed() {
            return Ok(());
        }
        self.memory.reserve(&mut self.begun, chunk.len())?;
        let progress = mem::replace(&mut self.progress, Progress::Start);
        self.progress = progress.with_chunk(self.memory, &mut self.begun, chunk);
        Ok(())
    }

    /// Whether a line was refused, so that everything after it is skipped.
    pub fn has_refused(&self) -> bool
        ensures { IsTrue result ↔ HasRefusedLine self.now }
    {
        self.progress.has_failed()
    }

    /// The repository of the whole text, with these packs. Otherwise the error is `Bad` with the number of the first bad line, counted from 1, or
    /// `OutOfMemory` where memory for a list was refused.
    pub fn finish(self, packs: Packs) -> Result<ListRepo, TextFault>
        ensures { (text : List ℕ) → Reads M.refuses self text → MatchResult result (IsWholeText text (packs_of packs)) (IsTextFault M.refuses text) }
    {
        let RepositoryReader {
            memory,
            progress,
            begun,
        } = self;
        progress.finish(memory, &begun, packs)
    }
}
