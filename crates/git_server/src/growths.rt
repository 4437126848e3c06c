//! Growing lists of bytes, with a record of whether memory was refused.

ghost use Rattle.std.specs.Prelude.{◌≡◌, ◌+◌, ◌<◌, ◌++◌, ◌||◌, [], false, is_err, is_ok, if◌then◌else◌, length, vec_capacity, vec_len, OnErr};
ghost use Rattle.git_server.specs.Machine.Growths.{has_refused};

use std::alloc::{AllocError, Global};

/// Grows lists of bytes, and records whether memory for that was refused.
#[derive(Drop)]
pub(crate) struct Growths {
    alloc: Global,
    has_refused: bool,
}

impl Growths {
    /// The state before the first growth.
    pub(crate) fn new(alloc: Global) -> Growths
        ensures { has_refused result ≡ false }
    {
        Growths {
            alloc,
            has_refused: false,
        }
    }

    /// An empty list.
    pub(crate) fn list(&self) -> Vec<u8>
        ensures { result.items ≡ [] }
    {
        Vec::new(self.alloc)
    }

    /// Appends bytes to a list. If the list lacks capacity for them and memory is refused, it stays unchanged.
    pub(crate) fn extend(&mut self, list: &mut Vec<u8>, bytes: &[u8]) -> Result<(), AllocError>
        ensures items { list.new.items ≡ (if is_ok result then list.old.items ++ bytes.now else list.old.items) }
        ensures refused { has_refused self.new ≡ (has_refused self.old || is_err result) }
        ensures full { OnErr result (vec_capacity list.old < vec_len list.old + length bytes.now) }
    {
        let extended = list.extend_from_slice(bytes);
        self.has_refused |= extended.is_err();
        extended
    }
}
