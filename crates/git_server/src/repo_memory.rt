//! Memory for the lists of a repository whose refusal a contract can state.

ghost use Rattle.std.specs.Prelude.{◌≡◌, ◌+◌, ◌*◌, ◌<◌, ◌≤◌, ℕ, IfOk, OnErr, OnOk, length, vec_capacity, vec_len};
ghost use Rattle.git_msg.specs.Memory.{HasRefused, bytes_each};

use std::alloc::{AllocError, Global};

/// Memory for the lists of a repository, whose refusal of a list a contract can state, with the number of bytes. [`Global`] is one.
/// A host that bounds what a text may take is another, which asks [`Global`] for no more than it allows.
///
/// Generic code knows of `refuses` only that a failed call of `reserve` shows it. So if a contract states `refuses` wherever
/// memory is reported to have run out, it rules out a function that reports that although no memory was refused.
pub trait RepoMemory {
    // A list was refused so many bytes.
    ghost refuses: { ℕ → Type 0 };

    /// The allocator of the lists.
    fn alloc(&self) -> Global;

    /// Reserves memory in a list for so many more items, as [`Vec::reserve`] does.
    fn reserve<T>(&self, list: &mut Vec<T>, more: usize) -> Result<(), AllocError>
        ensures items { list.new.items ≡ list.old.items }
        ensures len { vec_len list.new ≡ vec_len list.old }
        ensures ok { OnOk result (vec_len list.new + more ≤ vec_capacity list.new) }
        ensures full { OnErr result (vec_capacity list.old < vec_len list.old + more) }
        ensures err { OnErr result (vec_capacity list.new ≡ vec_capacity list.old) }
        ensures refused { OnErr result (refuses ((vec_len list.old + more) * bytes_each T.row)) };
}

impl RepoMemory for Global {
    ghost refuses = { λ bytes. Unit {0} };

    fn alloc(&self) -> Global {
        *self
    }

    fn reserve<T>(&self, list: &mut Vec<T>, more: usize) -> Result<(), AllocError> {
        list.reserve(more)
    }
}

/// A copy of a text.
pub fn copy_text<M: RepoMemory + Copy>(memory: M, text: &[u8]) -> Result<Vec<u8>, AllocError>
    ensures copied { IfOk result (λ copy. copy.items ≡ text.now) }
    ensures memory { OnErr result (HasRefused M.refuses (length text.now)) }
{
    let mut copy = Vec::new(memory.alloc());
    memory.reserve(&mut copy, text.len())?;
    copy.extend_from_slice(text)?;
    Ok(copy)
}
