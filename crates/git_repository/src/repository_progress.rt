//! The state of reading the lines of a repository's text.

ghost use Rattle.std.specs.Prelude.{◌≡◌, ◌↔◌, ◌+◌, ◌<◌, ◌≤◌, ◌++◌, ◌∷◌, [], ℕ, List, IsTrue, MatchResult, length, vec_capacity};
ghost use Rattle.git_msg.specs.Texts.{parts_of};
ghost use Rattle.git_repository.specs.Packs.{packs_of};
ghost use Rattle.git_repository.specs.Machine.RepositoryFaults.{IsTextFault, IsWholeText};
ghost use Rattle.git_repository.specs.RepositoryLines.{lines_of, longest_line};

use crate::drafts::Draft;
use crate::packs::Packs;
use crate::repository_lines::read_format;
use crate::text_faults::{LONGEST_LINE, TextFault};
use git_msg::split_at_first;
use git_server::{ListRepo, RepoMemory};

/// The contents of the lines that have ended.
#[derive(Drop)]
pub(crate) enum Progress {
    /// No line has ended.
    Start,
    /// They begin the text of a repository.
    Lines(Draft),
    /// One of them is the first that is refused. The contents of the others are dropped.
    Failed(TextFault),
}

impl Progress {
    ghost use Rattle.git_repository.specs.Machine.RepositoryProgress.{HasFailed, HasRead, HasReadTo, Stands};

    /// Whether a line was refused.
    pub(crate) fn has_failed(&self) -> bool
        ensures { IsTrue result ↔ HasFailed self.now }
    {
        match self {
            Progress::Failed(_) => true,
            Progress::Start | Progress::Lines(_) => false,
        }
    }

    /// The progress after the first line.
    fn begin<M: RepoMemory + Copy>(memory: M, line: &[u8]) -> Progress
        ensures { HasRead M.refuses result (line.now ∷ []) }
    {
        match read_format(line) {
            Some(format) => Progress::Lines(Draft::new(memory.alloc(), format)),
            None => Progress::Failed(TextFault::Bad { line: 1 }),
        }
    }

    /// The progress after another line.
    pub(crate) fn with_line<M: RepoMemory + Copy>(self, memory: M, line: &[u8]) -> Progress
        ensures { (lines : List (List ℕ)) → HasRead M.refuses self lines → HasRead M.refuses result (lines ++ line.now ∷ []) }
    {
        match self {
            Progress::Start => Progress::begin(memory, line),
            Progress::Lines(mut draft) => match draft.read(memory, line) {
                Ok(()) => Progress::Lines(draft),
                Err(fault) => Progress::Failed(fault),
            },
            Progress::Failed(fault) => Progress::Failed(fault),
        }
    }

    /// The progress after a line that has begun and is already longer than a line may be: it is refused, whatever comes after it.
    fn with_long_line<M: RepoMemory + Copy>(self) -> Progress
        ensures reads { (lines : List (List ℕ)) (begun : List ℕ) → longest_line < length begun → HasRead M.refuses self lines
            → HasReadTo M.refuses result lines begun }
        ensures failed { HasFailed result }
    {
        match self {
            Progress::Start => Progress::Failed(TextFault::Bad { line: 1 }),
            Progress::Lines(draft) => Progress::Failed(TextFault::Bad {
                line: draft.next_line(),
            }),
            Progress::Failed(fault) => Progress::Failed(fault),
        }
    }

    /// The progress with the line that a text leaves open, which is refused if it is too long already.
    fn with_open<'a, M: RepoMemory + Copy>(self, line: &'a [u8]) -> (Progress, &'a [u8])
        ensures stands { (lines : List (List ℕ)) → HasRead M.refuses self lines → Stands M.refuses result.0 result.1.now (lines ++ line.now ∷ []) }
        ensures within { length result.1.now ≤ length line.now }
        ensures short { length result.1.now ≤ longest_line }
    {
        if line.len() > LONGEST_LINE {
            return (self.with_long_line::<M>(), &line[..0]);
        }
        (self, line)
    }

    /// The progress after the lines that end in the text, and the line that the text leaves open.
    pub(crate) fn with_text<'a, M: RepoMemory + Copy>(
        self,
        memory: M,
        text: &'a [u8],
    ) -> (Progress, &'a [u8])
        ensures reads { (lines : List (List ℕ)) → HasRead M.refuses self lines → Stands M.refuses result.0 result.1.now (lines ++ parts_of 10 text.now) }
        ensures within { length result.1.now ≤ length text.now }
        ensures short { length result.1.now ≤ longest_line }
    {
        let (first, rest) = split_at_first(text, b'\n');
        let Some(left) = rest else {
            return self.with_open::<M>(first);
        };
        match self.with_line(memory, first) {
            Progress::Lines(draft) => Progress::read_on(draft, memory, left),
            Progress::Failed(fault) => (Progress::Failed(fault), &text[..0]),
            Progress::Start => (Progress::Start, &text[..0]),
        }
    }

    /// The progress after the further lines that end in the text, and the line that the text leaves open.
    fn read_on<'a, M: RepoMemory + Copy>(
        mut draft: Draft,
        memory: M,
        text: &'a [u8],
    ) -> (Progress, &'a [u8])
        ensures reads { (lines : List (List ℕ)) → HasRead M.refuses (Progress.Lines draft) lines
            → Stands M.refuses result.0 result.1.now (lines ++ parts_of 10 text.now) }
        ensures within { length result.1.now ≤ length text.now }
        ensures short { length result.1.now ≤ longest_line }
    {
        let (mut line, mut rest) = split_at_first(text, b'\n');
        'lines: while let Some(left) = rest {
            if let Err(fault) = draft.read(memory, line) {
                return (Progress::Failed(fault), &text[..0]);
            }
            let (next_line, next) = split_at_first(left, b'\n');
            line = next_line;
            rest = next;
        }
        Progress::Lines(draft).with_open::<M>(line)
    }

    /// The progress after a chunk of the text, which continues the open line. The line that the chunk leaves open is the open line then.
    pub(crate) fn with_chunk<M: RepoMemory + Copy>(
        self,
        memory: M,
        begun: &mut Vec<u8>,
        chunk: &[u8],
    ) -> Progress
        requires space { length begun.old.items + length chunk.now ≤ vec_capacity begun.old }
        requires short { length begun.old.items ≤ longest_line }
        ensures short { length begun.new.items ≤ longest_line }
        ensures reads { (text : List ℕ) (lines : List (List ℕ)) → parts_of 10 text ≡ lines ++ begun.old.items ∷ [] → HasRead M.refuses self lines
            → Stands M.refuses result begun.new.items (parts_of 10 (text ++ chunk.now)) }
    {
        if begun.as_slice().is_empty() {
            let (progress, left) = self.with_text(memory, chunk);
            append(begun, left);
            return progress;
        }
        let (line, rest) = split_at_first(chunk, b'\n');
        if line.len() > LONGEST_LINE - begun.len() {
            return self.with_long_line::<M>();
        }
        append(begun, line);
        let Some(rest) = rest else {
            return self;
        };
        let progress = self.with_line(memory, begun);
        begun.clear();
        let (progress, left) = progress.with_text(memory, rest);
        append(begun, left);
        progress
    }

    /// The progress after the last line: the open line, if it has a byte or is the only one.
    fn with_end<M: RepoMemory + Copy>(self, memory: M, begun: &[u8]) -> Progress
        ensures { (text : List ℕ) → Stands M.refuses self begun.now (parts_of 10 text) → HasRead M.refuses result (lines_of text) }
    {
        match self {
            Progress::Start => Progress::begin(memory, begun),
            Progress::Lines(draft) => {
                if begun.is_empty() {
                    return Progress::Lines(draft);
                }
                Progress::Lines(draft).with_line(memory, begun)
            }
            Progress::Failed(fault) => Progress::Failed(fault),
        }
    }

    /// The repository of the text, or why it is none.
    pub(crate) fn finish<M: RepoMemory + Copy>(
        self,
        memory: M,
        begun: &[u8],
        packs: Packs,
    ) -> Result<ListRepo, TextFault>
        ensures { (text : List ℕ) → Stands M.refuses self begun.now (parts_of 10 text)
            → MatchResult result (IsWholeText text (packs_of packs)) (IsTextFault M.refuses text) }
    {
        match self.with_end(memory, begun) {
            Progress::Lines(draft) => Ok(draft.finish(packs)),
            Progress::Failed(fault) => Err(fault),
            // Every text has a line.
            Progress::Start => Err(TextFault::Bad { line: 1 }),
        }
    }
}

/// Appends bytes. The buffer must have space for them.
fn append(begun: &mut Vec<u8>, bytes: &[u8])
    requires { length begun.old.items + length bytes.now ≤ vec_capacity begun.old }
    ensures items { begun.new.items ≡ begun.old.items ++ bytes.now }
    ensures capacity { vec_capacity begun.old ≤ vec_capacity begun.new }
{
    let _ = begun.extend_from_slice(bytes);
}
