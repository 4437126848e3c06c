//! Bytes that only contracts read.

ghost use Rattle.std.specs.Prelude.{◌≡◌, ℕ, List};

use std::marker::Model;

// Bytes that contracts recall: it has none itself, and a running program cannot read them.
#[derive(Drop)]
pub(crate) struct Recalled {
    pub(crate) ghost bytes: { List ℕ },
}

impl Model for Recalled {
    ghost use Rattle.std.specs.Borrow.{ftrue};

    ghost also_owns = { λ _. ftrue };
}

impl Recalled {
    pub(crate) fn of(_bytes: &[u8]) -> Recalled
        ensures { result.bytes ≡ _bytes.now }
    {
        Recalled {}
    }
}

const _: () = prove!(size_of::<Recalled>() == 0);
