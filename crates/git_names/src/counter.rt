//! A counter of steps, for contracts alone.

ghost use Rattle.std.specs.Prelude.{◌≡◌, ℕ, ◌+◌};

use std::marker::Model;

/// A counter of steps that only contracts read: it has no bytes, and a running program cannot read it.
#[derive(Drop)]
pub struct Steps {
    count: Count,
}

impl Model for Steps {
    ghost use Rattle.std.specs.Prelude.{ℕ};

    ghost Value = { ℕ };

    ghost view = { λ steps. steps.count.taken };
}

impl Steps {
    /// A counter at 0 steps.
    pub fn new() -> Steps
        ensures { result ≡ 0 }
    {
        Steps {
            count: Count::new(),
        }
    }

    /// Counts `n` steps.
    pub fn tick(&mut self, n: usize)
        ensures { self.new ≡ self.old + n }
    {
        let next = self.count.after(n);
        self.count = next;
    }
}

const _: () = prove!(size_of::<Steps>() == 0);

// A number that only a proof by hand sets: no code holds it.
#[derive(Drop)]
struct Count {
    ghost taken: { ℕ },
}

impl Model for Count {
    ghost use Rattle.std.specs.Borrow.{ftrue};

    ghost also_owns = { λ _. ftrue };
}

impl Count {
    fn new() -> Count
        ensures { result.taken ≡ 0 }
    {
        Count {}
    }

    fn after(&self, n: usize) -> Count
        ensures { result.taken ≡ self.now.taken + n }
    {
        Count {}
    }
}
