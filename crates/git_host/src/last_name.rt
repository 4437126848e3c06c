//! The name of the reference that was reported last.

ghost use Rattle.std.specs.Prelude.{◌≡◌, IfOk, IfSome, MatchBool, OnErr, OnOk, Some, length};
ghost use Rattle.std.specs.Option.{option_copied};
ghost use Rattle.git_names.specs.RefName.{IsRefName};
ghost use Rattle.git_msg.specs.Memory.{HasRefused};

use git_msg::Memory;
use git_server::RefEntry;
use std::alloc::{AllocError, Allocator};

/// A copy of a reference name.
#[derive(Drop)]
pub(crate) struct NameCopy<A: Allocator + Copy> {
    text: Vec<u8, A>,
    ghost named: { IsRefName text.items },
}

/// The name of the reference that was reported last, if one was.
pub(crate) enum LastName<A: Allocator + Copy> {
    Nothing,
    // That of this reference.
    Entry(RefEntry),
    Copied(NameCopy<A>),
}

// By a call: a derived drop is written out, and proved, wherever a value goes out of scope.
impl<A: Allocator + Copy> Drop for LastName<A> {
    fn drop(self) {
        match self {
            LastName::Nothing => {}
            LastName::Entry(_entry) => {}
            LastName::Copied(_name) => {}
        }
    }
}

impl<A: Allocator + Copy> LastName<A> {
    ghost use Rattle.git_host.specs.LastNames.{last_name};

    /// The name, if a reference was reported.
    pub(crate) fn name(&self) -> Option<&[u8]>
        ensures value { option_copied result ≡ last_name self.now }
        ensures named { IfSome result (λ name. IsRefName name.now) }
    {
        match self {
            LastName::Nothing => None,
            LastName::Entry(entry) => Some(entry.name()),
            LastName::Copied(copy) => Some(copy.text()),
        }
    }

    // Copies the name over the copy of another, if that has enough memory. Returns whether it has; if not, nothing changed.
    fn replace(&mut self, name: &[u8]) -> bool
        requires { IsRefName name.now }
        ensures { MatchBool result (last_name self.new ≡ Some name.now) (self.new ≡ self.old) }
    {
        match self {
            LastName::Copied(copy) => copy.replace(name),
            _ => false,
        }
    }
}

impl<A: Memory + Copy> LastName<A> {
    ghost use Rattle.git_host.specs.LastNames.{last_name};

    /// Keeps a copy of the name. If memory for it is refused, nothing changed.
    pub(crate) fn keep(&mut self, alloc: A, name: &[u8]) -> Result<(), AllocError>
        requires { IsRefName name.now }
        ensures kept { OnOk result (last_name self.new ≡ Some name.now) }
        ensures same { OnErr result (self.new ≡ self.old) }
        ensures memory { OnErr result (HasRefused A.refuses (length name.now)) }
    {
        if self.replace(name) {
            return Ok(());
        }
        let copy = NameCopy::new(alloc, name)?;
        *self = LastName::Copied(copy);
        Ok(())
    }
}

impl<A: Allocator + Copy> NameCopy<A> {
    ghost use Rattle.git_host.specs.LastNames.{copied_name};

    fn text(&self) -> &[u8]
        ensures value { result.now ≡ copied_name self.now }
        ensures named { IsRefName result.now }
    {
        self.text.as_slice()
    }

    // Copies the name over this one, if there is enough memory. Returns whether there is; if not, nothing changed.
    fn replace(&mut self, name: &[u8]) -> bool
        requires { IsRefName name.now }
        ensures { MatchBool result (copied_name self.new ≡ name.now) (self.new ≡ self.old) }
    {
        if self.text.capacity() < name.len() {
            return false;
        }
        self.text.clear();
        self.text.extend_from_slice(name).is_ok()
    }
}

impl<A: Memory + Copy> NameCopy<A> {
    ghost use Rattle.git_host.specs.LastNames.{copied_name};

    // A copy in memory of its own.
    fn new(alloc: A, name: &[u8]) -> Result<NameCopy<A>, AllocError>
        requires { IsRefName name.now }
        ensures copied { IfOk result (λ copy. copied_name copy ≡ name.now) }
        ensures memory { OnErr result (HasRefused A.refuses (length name.now)) }
    {
        let mut text = Vec::new(alloc);
        A::reserve(&mut text, name.len())?;
        text.extend_from_slice(name)?;
        Ok(NameCopy { text })
    }
}
