//! A checker of a conversation, whose lines are copied in parts.

ghost use Rattle.std.specs.Prelude.{◌≤◌, ◌-◌, length};
ghost use Rattle.git2show_lib.specs.Machine.Checker.{lent_by};

use git_client::Ending;
use git_msg::Limits;
use git_names::Format;
use git2show_lib::Checker;
use std::alloc::Global;

/// A checker, and how many bytes of the lines that it lends were copied to C: not all, since the lines are then taken.
#[derive(Drop)]
pub(crate) struct Judge {
    pub(crate) checker: Checker<Global>,
    pub(crate) copied: usize,
    ghost within: { copied ≤ length (lent_by checker) - 1 },
}

impl Judge {
    ghost use Rattle.std.specs.Prelude.{◌<◌, []};
    ghost use Rattle.git_client.specs.Parts.{terms_of};
    ghost use Rattle.git2show_lib.specs.Machine.Checker.{nothing_fed};
    ghost use Rattle.gitwire.specs.CheckerAnswers.{CopiesLines, HasChecked};

    pub(crate) fn new(alloc: Global, format: Format, ending: Ending, limits: Limits) -> Judge
        ensures { HasChecked (terms_of format ending) limits.args nothing_fed nothing_fed [] result }
    {
        Judge {
            checker: Checker::new(alloc, format, ending, limits),
            copied: 0,
        }
    }

    /// Copies bytes of the lines that wait, which C does not have yet, to the front of the buffer: as many as fit.
    pub(crate) fn copy_lines(&mut self, buffer: &mut [u8]) -> usize
        requires waits { 0 < length (lent_by self.old.checker) }
        requires space { 0 < length buffer.old }
        ensures { CopiesLines self.old buffer.old result buffer.new self.new }
    {
        let lines = &self.checker.lines()[self.copied..];
        let count = lines.len().min(buffer.len());
        let is_last = count == lines.len();
        buffer[..count].copy_from_slice(&lines[..count]);
        if is_last {
            self.copied = 0;
            self.checker.lines_taken();
        } else {
            self.copied += count;
        }
        count
    }
}
