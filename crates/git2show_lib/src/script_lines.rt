//! The lines of a script, and what they contain so far.

ghost use Rattle.std.specs.Prelude.{◌≡◌, ◌+◌, ◌*◌, ◌++◌, ◌∷◌, [], MatchResult, OnErr, if◌then◌else◌, length, vec_len};
ghost use Rattle.std.specs.Result.{is_ok};
ghost use Rattle.git_msg.specs.Advertisement.{everything};
ghost use Rattle.git_msg.specs.Memory.{HasRefused, bytes_each};
ghost use Rattle.git2show_lib.specs.Machine.HeldScripts.{AddsArgument, Begins, IsBeginFault, IsLineFault, TakesLine, nothing_held, request_bytes};

use git_msg::{Command, Limits, Memory, Offer, Request, read_argument};
use git_names::{Format, Steps};
use git_pkt::Kind;
use git_repository::{LONGEST_LINE, LineFault};
use std::alloc::{AllocError, Allocator};

/// What the lines so far contain.
#[derive(Drop)]
pub(crate) struct Script<A: Allocator + Copy> {
    offer: Offer,
    limits: Limits,
    requests: Vec<Request<A>, A>,
    // Whether the last of them is open: no empty line came after it.
    is_open: bool,
}

impl<A: Allocator + Copy> Script<A> {
    ghost use Rattle.git2show_lib.specs.Machine.ScriptLines.{held};

    /// Nothing yet.
    pub(crate) fn new(alloc: A, format: Format, limits: Limits) -> Script<A>
        ensures { held result ≡ nothing_held (everything format) limits.args }
    {
        Script {
            offer: Offer::everything(format),
            limits,
            requests: Vec::new(alloc),
            is_open: false,
        }
    }

    /// The requests that the lines contain.
    pub(crate) fn finish(self) -> Vec<Request<A>, A>
        ensures { result.items ≡ (held self).requests }
    {
        self.requests
    }
}

impl<A: Memory + Copy> Script<A> {
    ghost use Rattle.git2show_lib.specs.Machine.ScriptLines.{held};

    /// Takes a line, or returns why not: it may not come after the lines before it, or memory ran out.
    pub(crate) fn take(&mut self, alloc: A, text: &[u8]) -> Result<(), LineFault>
        ensures { MatchResult result (λ _. TakesLine (held self.old) text.now (held self.new))
            (IsLineFault A.refuses (request_bytes A.row A.Allocator) (held self.old) text.now) }
    {
        if text.is_empty() {
            self.is_open = false;
            return Ok(());
        }
        if self.is_open {
            return self.add(text);
        }
        self.begin(alloc, text)
    }

    // Begins a request of the command that the text names.
    fn begin(&mut self, alloc: A, text: &[u8]) -> Result<(), LineFault>
        ensures { MatchResult result (λ _. Begins (held self.old) text.now (held self.new))
            (IsBeginFault A.refuses (request_bytes A.row A.Allocator) (held self.old) text.now) }
    {
        let Some(command) = Command::read(text) else {
            return Err(LineFault::Refused);
        };
        let request = Request::new(alloc, command, self.offer.format, self.limits);
        match keep_item(&mut self.requests, request) {
            Ok(()) => {
                self.is_open = true;
                Ok(())
            }
            Err(AllocError) => Err(LineFault::OutOfMemory),
        }
    }

    // Adds the argument that the text is to the last request.
    fn add(&mut self, text: &[u8]) -> Result<(), LineFault>
        ensures { AddsArgument A.refuses (held self.old) text.now (held self.new) result }
    {
        if text.len() > LONGEST_LINE {
            return Err(LineFault::Refused);
        }
        let Some(request) = self.requests.last_mut() else {
            return Err(LineFault::Refused);
        };
        let Ok(argument) = read_argument(request.command(), &self.offer, text, &mut Steps::new())
        else {
            return Err(LineFault::Refused);
        };
        match request.add(&argument) {
            Ok(()) => Ok(()),
            Err(kind) => match kind {
                Kind::OutOfMemory => Err(LineFault::OutOfMemory),
                _ => Err(LineFault::Refused),
            },
        }
    }
}

/// Keeps an item after those of a list.
fn keep_item<T: Drop, A: Memory + Copy>(list: &mut Vec<T, A>, item: T) -> Result<(), AllocError>
    ensures items { list.new.items ≡ (if is_ok result then list.old.items ++ item ∷ [] else list.old.items) }
    ensures len { vec_len list.new ≡ (if is_ok result then vec_len list.old + 1 else vec_len list.old) }
    ensures memory { OnErr result (HasRefused A.refuses ((length list.old.items + 1) * bytes_each T.row)) }
{
    A::reserve(list, 1)?;
    list.push_reserved(item);
    Ok(())
}
