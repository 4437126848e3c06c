//! A reference of a repository.

ghost use Rattle.std.specs.Prelude.{◌≡◌, ◌+◌, ◌≤◌, ◌↔◌, length, IfOk, IsOk, IsTrue, MatchResult, OnErr, Some, None};
ghost use Rattle.std.specs.Option.{option_copied, ForSome};
ghost use Rattle.git_names.specs.RefName.{IsRefName};
ghost use Rattle.git_msg.specs.Memory.{HasRefused};
ghost use Rattle.git_server.specs.NameBytes.{name_bytes};
ghost use Rattle.git_server.specs.Repository.{Entry, IsNamed, IsOfFormat, bytes_of};

use crate::repo_memory::{RepoMemory, copy_text};
use git_names::{Format, NameFault, Oid, RefName, Steps};
use smallvec::SmallVec;
use std::alloc::AllocError;
use std::marker::Model;

/// The maximum length of a name that is stored in its entry: a longer name has memory of its own.
const SHORT_NAME: usize = 32;

/// A reference of a repository: a name for an object, as in gitprotocol-v2(5).
#[derive(Debug, Drop)]
pub struct RefEntry {
    // In this order the fields take the least memory.
    name: SmallVec<u8, SHORT_NAME>,
    target: Option<Vec<u8>>,
    id: Oid,
    peeled: Option<Oid>,
}

const _: () = prove!(size_of::<RefEntry>() == 152);

impl Model for RefEntry {
    ghost use Rattle.git_server.specs.Repository.{Entry, IsNamed, bytes_of};

    ghost Value = { Entry };

    ghost view = { λ e. record { name = e.name.items; id = e.id; target = bytes_of e.target; peeled = e.peeled } };

    ghost invariant = { λ e. IsNamed e.name.items (bytes_of e.target) };
}

impl RefEntry {
    /// The reference with this name and this object. A symbolic reference has a target;
    /// a tag object peels to another object.
    ///
    /// The name and the target must be valid reference names: otherwise the error is `BadRefName`.
    pub fn new(
        name: Vec<u8>,
        id: Oid,
        target: Option<Vec<u8>>,
        peeled: Option<Oid>,
    ) -> Result<RefEntry, NameFault>
        ensures { MatchResult result
            (λ e. (e ≡ record { name = name.items; id = id; target = bytes_of target; peeled = peeled }) × IsNamed name.items (bytes_of target))
            (λ fault. (fault ≡ NameFault.BadRefName) × ¬ IsNamed name.items (bytes_of target)) }
    {
        RefName::read(&name, &mut Steps::new())?;
        if let Some(target) = &target {
            RefName::read(target, &mut Steps::new())?;
        }
        Ok(RefEntry {
            name: SmallVec::from_vec(name),
            id,
            target,
            peeled,
        })
    }

    /// The same reference with copies of a name and a target that are known to be valid reference names, for example because they
    /// were read from a line. It fails only if memory for a copy is refused, and never for a name of at most 32 bytes without a target,
    /// which needs no memory.
    pub fn copied<M: RepoMemory + Copy>(
        memory: M,
        name: &[u8],
        id: Oid,
        target: Option<&[u8]>,
        peeled: Option<Oid>,
    ) -> Result<RefEntry, AllocError>
        requires { IsNamed name.now (option_copied target) }
        ensures copied { IfOk result (λ e. e ≡ record { name = name.now; id = id; target = option_copied target.entry; peeled = peeled }) }
        ensures succeeds { length name.now ≤ SHORT_NAME → option_copied target.entry ≡ None → IsOk result }
        ensures memory { OnErr result (HasRefused M.refuses (length name.now + name_bytes (option_copied target.entry))) }
    {
        let name = copy_name(memory, name)?;
        let copy = copy_target(memory, target)?;
        Ok(RefEntry {
            name,
            id,
            target: copy,
            peeled,
        })
    }

    /// The name.
    pub fn name(&self) -> &[u8]
        ensures value { result.now ≡ self.now.name }
        ensures name { IsRefName result.now }
    {
        self.name.as_slice()
    }

    /// The object that the reference names.
    pub fn id(&self) -> Oid
        ensures { result ≡ self.now.id }
    {
        self.id
    }

    /// The reference that a symbolic reference points to.
    pub fn target(&self) -> Option<&[u8]>
        ensures value { option_copied result ≡ self.now.target }
        ensures name { ForSome self.now.target IsRefName }
    {
        self.target.as_deref()
    }

    /// The object that a tag object peels to.
    pub fn peeled(&self) -> Option<Oid>
        ensures { result ≡ self.now.peeled }
    {
        self.peeled
    }

    /// Whether the object names of the reference are of the format.
    pub fn is_of(&self, format: Format) -> bool
        ensures of_format { IsTrue result ↔ IsOfFormat format self.now }
        ensures named { IsNamed self.now.name self.now.target }
    {
        if self.id.format() != format {
            return false;
        }
        match self.peeled {
            Some(peeled) => peeled.format() == format,
            None => true,
        }
    }
}

fn copy_name<M: RepoMemory + Copy>(
    memory: M,
    name: &[u8],
) -> Result<SmallVec<u8, SHORT_NAME>, AllocError>
    ensures copied { IfOk result (λ copy. copy.items ≡ name.now) }
    ensures succeeds { length name.now ≤ SHORT_NAME → IsOk result }
    ensures memory { OnErr result (HasRefused M.refuses (length name.now)) }
{
    if name.len() <= SHORT_NAME {
        return SmallVec::from_slice(memory.alloc(), name);
    }
    let copy = copy_text(memory, name)?;
    Ok(SmallVec::from_vec(copy))
}

fn copy_target<M: RepoMemory + Copy>(
    memory: M,
    target: Option<&[u8]>,
) -> Result<Option<Vec<u8>>, AllocError>
    ensures copied { IfOk result (λ copy. bytes_of copy ≡ option_copied target.entry) }
    ensures succeeds { option_copied target.entry ≡ None → IsOk result }
    ensures memory { OnErr result (HasRefused M.refuses (name_bytes (option_copied target.entry))) }
{
    match target {
        Some(target) => {
            let copy = copy_text(memory, target)?;
            Ok(Some(copy))
        }
        None => Ok(None),
    }
}
