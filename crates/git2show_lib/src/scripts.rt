//! Scripts: what a client is to ask, read from a text.

ghost use Rattle.std.specs.Prelude.{MatchResult};
ghost use Rattle.git2show_lib.specs.Machine.HeldScripts.{request_bytes};
ghost use Rattle.git2show_lib.specs.Machine.ScriptFaults.{IsScriptFault, IsWholeScript};

use crate::script_lines::Script;
use git_msg::{Limits, Memory, Request, split_at_first};
use git_names::Format;
use git_repository::{LineFault, TextFault};

/// Reads the text of a script: the requests that a client is to ask, one after another.
///
/// A request is a line that names its command (`ls-refs`, `fetch` or `object-info`) and then a line for each of its
/// arguments, as gitprotocol-v2(5) spells them and as one who offers everything reads them. An empty line or the end of
/// the text ends it, and further empty lines are passed over. Lines are parted by LF, which the last may lack, and have at most
/// [`git_repository::LONGEST_LINE`] bytes. The first line that is none of these, or whose argument exceeds the limit, is
/// `Bad`. `OutOfMemory` is reported at a line that is allowed there, of a command or of an argument that takes memory, and only where
/// `alloc` refused a list: that of the requests, or one of an argument that was to have at most the bytes of the limit. All memory
/// comes from `alloc`. What is judged at the end of a request, as that a fetch wants nothing, is not judged here.
pub fn read_script<A: Memory + Copy>(
    alloc: A,
    text: &[u8],
    format: Format,
    limits: Limits,
) -> Result<Vec<Request<A>, A>, TextFault>
    ensures { MatchResult result (λ requests. IsWholeScript format limits.args text.now requests.items)
        (IsScriptFault A.refuses (request_bytes A.row A.Allocator) format limits.args text.now) }
{
    let mut script = Script::new(alloc, format, limits);
    let mut rest = Some(git_pkt::text(text));
    let mut line: u64 = 0;
    'lines: while let Some(left) = rest {
        line += 1;
        let (this, next) = split_at_first(left, b'\n');
        match script.take(alloc, this) {
            Ok(()) => {}
            Err(LineFault::Refused) => return Err(TextFault::Bad { line }),
            Err(LineFault::OutOfMemory) => return Err(TextFault::OutOfMemory),
        }
        rest = next;
    }
    Ok(script.finish())
}
