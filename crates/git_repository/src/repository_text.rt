//! A repository that consists of a few lists, read from a text.

ghost use Rattle.std.specs.Prelude.{MatchResult};
ghost use Rattle.git_repository.specs.Packs.{packs_of};
ghost use Rattle.git_repository.specs.Machine.RepositoryFaults.{IsTextFault, IsWholeText};

use crate::packs::Packs;
use crate::repository_progress::Progress;
use crate::text_faults::TextFault;
use git_server::{ListRepo, RepoMemory};

/// Reads the text of a repository that has these packs.
///
/// The first line is `format sha1` or `format sha256`. The other lines are, with their kinds in any order: `ref`, a space and a
/// reference line of ls-refs, gitprotocol-v2(5), which may be that of an unborn `HEAD` with the name that it points to;
/// `object`, an object name and a size in bytes; `ready` and the number of common objects, at most once; `shallow`
/// or `unshallow` and an object name. LFs separate the lines; the last line may lack its LF. References rise strictly by
/// their names, and objects by theirs. The error is `Bad` for the first line that is none of these, or may not come after
/// those before it, and `OutOfMemory` at a line for which memory refused a list.
pub fn read_repo<M: RepoMemory + Copy>(
    memory: M,
    text: &[u8],
    packs: Packs,
) -> Result<ListRepo, TextFault>
    ensures { MatchResult result (IsWholeText text.now (packs_of packs)) (IsTextFault M.refuses text.now) }
{
    let (progress, begun) = Progress::Start.with_text(memory, text);
    progress.finish(memory, begun, packs)
}
