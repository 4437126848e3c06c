//! Memory whose refusal a contract can state.
ghost use Rattle.std.specs.Prelude.{◌≡◌, ◌+◌, ◌*◌, ◌<◌, ◌≤◌, ℕ, OnOk, OnErr, vec_capacity, vec_len};
ghost use Rattle.git_msg.specs.Memory.{bytes_each};

use std::alloc::{AllocError, Allocator};

/// An allocator whose refusal of memory for a list a contract can state, with the number of bytes. Every allocator is one.
///
/// Generic code knows of `refuses` only that a failed call of `reserve` shows it. So if a contract states `refuses` wherever
/// `OutOfMemory` is reported, it rules out a function that reports that although no memory was refused.
pub trait Memory: Allocator {
    // The allocator refused to let a list have so many bytes.
    ghost refuses: { ℕ → Type 0 };

    /// Reserves memory in a list for so many more items, as [`Vec::reserve`] does.
    fn reserve<T>(list: &mut Vec<T, Self>, more: usize) -> Result<(), AllocError>
    where
        Self: Sized,
        ensures items { list.new.items ≡ list.old.items }
        ensures len { vec_len list.new ≡ vec_len list.old }
        ensures ok { OnOk result (vec_len list.new + more ≤ vec_capacity list.new) }
        ensures full { OnErr result (vec_capacity list.old < vec_len list.old + more) }
        ensures refused { OnErr result (refuses ((vec_len list.old + more) * bytes_each T.row)) };
}

impl<A: Allocator> Memory for A {
    ghost refuses = { λ bytes. Unit {0} };

    fn reserve<T>(list: &mut Vec<T, A>, more: usize) -> Result<(), AllocError> {
        list.reserve(more)
    }
}
