//! The contents of the lines of a repository's text so far.

ghost use Rattle.std.specs.Prelude.{◌≡◌, ◌↔◌, ◌+◌, ◌*◌, ◌++◌, ◌∷◌, [], ℕ, List, All, IsTrue, IfOk, MatchResult, OnErr};
ghost use Rattle.std.specs.Prelude.{if◌then◌else◌, length, vec_len};
ghost use Rattle.std.specs.Result.{is_ok};
ghost use Rattle.git_msg.specs.Memory.{HasRefused, bytes_each};
ghost use Rattle.git_server.specs.NameBytes.{name_bytes};
ghost use Rattle.git_server.specs.Machine.ListRepo.{lists_of};
ghost use Rattle.git_server.specs.Lists.{IsRepository, lists_in};
ghost use Rattle.git_server.specs.Objects.{object_of};
ghost use Rattle.git_server.specs.Repository.{IsNamed, IsOfFormat};
ghost use Rattle.std.specs.Option.{option_copied};
ghost use Rattle.git_names.specs.RefName.{IsRefName};
ghost use Rattle.git_repository.specs.RepositoryLines.{boundary as boundary_line, object, ready, reference, unborn, shown, shown_entry};
ghost use Rattle.git_repository.specs.Drafts.{ComesLast, ComesLastObject, IsFit, Keeps, empty_lists, lines_behind, names_of, with_packs};

use crate::packs::Packs;
use crate::repository_lines::{Item, LineEntry, read_item};
use crate::text_faults::{LONGEST_LINE, LineFault, TextFault};
use git_msg::Boundary;
use git_names::{Format, Oid};
use git_server::{ListRepo, Pack, RefEntry, RepoLists, RepoMemory, copy_text};
use std::alloc::{AllocError, Global};

/// The contents of the lines so far. At every moment they make a repository, if packs are added.
#[derive(Drop)]
pub(crate) struct Draft {
    lists: RepoLists,
    ghost fit: { IsRepository (lists_in lists) },
    ghost named: { All (λ ref. IsNamed ref.name ref.target) lists.refs.items },
}

impl Draft {
    ghost use Rattle.git_repository.specs.Machine.DraftLists.{drafted};
    ghost use Rattle.git_repository.specs.LinesAnnounced.{AreAnnounced};
    ghost use Rattle.git_repository.specs.Packs.{packs_of};
    ghost use Rattle.git_repository.specs.Machine.RepositoryProgress.{IsLinesFault};

    /// Nothing yet.
    pub(crate) fn new(alloc: Global, format: Format) -> Draft
        ensures { drafted result ≡ empty_lists format }
    {
        Draft {
            lists: RepoLists {
                format,
                refs: Vec::new(alloc),
                objects: Vec::new(alloc),
                ready_after: None,
                boundaries: Vec::new(alloc),
                pack: Pack::Owned(Vec::new(alloc)),
                unborn_head: None,
                filtered: None,
            },
        }
    }

    /// The number of the next line. The first line was that of the format.
    pub(crate) fn next_line(&self) -> u64
        ensures { result ≡ lines_behind (drafted self.now) + 1 }
    {
        let ready: u64 = match self.lists.ready_after {
            Some(_) => 1,
            None => 0,
        };
        let refs = self.lists.refs.as_slice().len() as u64;
        let objects = self.lists.objects.as_slice().len() as u64;
        let boundaries = self.lists.boundaries.as_slice().len() as u64;
        let unborn: u64 = match self.lists.unborn_head {
            Some(_) => 1,
            None => 0,
        };
        refs + objects + boundaries + ready + unborn + 2
    }

    /// Stores the contents of another line, or returns why it is the first line that is refused.
    pub(crate) fn read<M: RepoMemory + Copy>(
        &mut self,
        memory: M,
        line: &[u8],
    ) -> Result<(), TextFault>
        ensures { (lines : List (List ℕ)) → AreAnnounced lines (drafted self.old)
            → MatchResult result (λ _. AreAnnounced (lines ++ line.now ∷ []) (drafted self.new)) (IsLinesFault M.refuses (lines ++ line.now ∷ [])) }
    {
        let line_number = self.next_line();
        if line.len() > LONGEST_LINE {
            return Err(TextFault::Bad { line: line_number });
        }
        let Some(item) = read_item(self.lists.format, line) else {
            return Err(TextFault::Bad { line: line_number });
        };
        match self.keep(memory, &item) {
            Ok(()) => Ok(()),
            Err(LineFault::Refused) => Err(TextFault::Bad { line: line_number }),
            Err(LineFault::OutOfMemory) => Err(TextFault::OutOfMemory),
        }
    }

    /// Stores the contents of a line, or returns why it does not: the line may not come after the lines before it, or memory ran out.
    pub(crate) fn keep<M: RepoMemory + Copy>(
        &mut self,
        memory: M,
        item: &Item<'_>,
    ) -> Result<(), LineFault>
        requires { IsFit (drafted self.old).format (shown item.now) }
        ensures { Keeps M.refuses (drafted self.old) (shown item.now) (drafted self.new) result }
    {
        match item {
            Item::Reference(entry) => self.keep_reference(memory, entry),
            Item::Unborn(target) => self.keep_unborn(memory, target),
            Item::Object(id, size) => self.keep_object(memory, *id, *size),
            Item::ReadyAfter(count) => self.keep_count::<M>(*count),
            Item::BoundaryLine(boundary) => self.keep_boundary(memory, *boundary),
        }
    }

    // Whether the name comes after those of the references, and after `HEAD` if that is unborn.
    fn comes_last(&self, name: &[u8]) -> bool
        ensures { IsTrue result ↔ ComesLast (names_of (drafted self.now)) name.now }
    {
        let refs = &self.lists.refs;
        if refs.is_empty() {
            return self.lists.unborn_head.is_none() || b"HEAD".as_slice().cmp(name).is_lt();
        }
        refs[refs.len() - 1].name().cmp(name).is_lt()
    }

    fn keep_reference<M: RepoMemory + Copy>(
        &mut self,
        memory: M,
        entry: &LineEntry<'_>,
    ) -> Result<(), LineFault>
        requires named { IsNamed entry.now.name.now (option_copied entry.now.target) }
        requires of_format { IsOfFormat (drafted self.old).format (shown_entry entry.now) }
        ensures { Keeps M.refuses (drafted self.old) (reference (shown_entry entry.now)) (drafted self.new) result }
    {
        if !self.comes_last(entry.name) {
            return Err(LineFault::Refused);
        }
        let Ok(made) = make_entry(memory, entry) else {
            return Err(LineFault::OutOfMemory);
        };
        match keep_item(memory, &mut self.lists.refs, made) {
            Ok(()) => Ok(()),
            Err(AllocError) => Err(LineFault::OutOfMemory),
        }
    }

    fn keep_unborn<M: RepoMemory + Copy>(
        &mut self,
        memory: M,
        target: &[u8],
    ) -> Result<(), LineFault>
        requires { IsRefName target.now }
        ensures { Keeps M.refuses (drafted self.old) (unborn target.now) (drafted self.new) result }
    {
        if !self.comes_last(b"HEAD") {
            return Err(LineFault::Refused);
        }
        match copy_text(memory, target) {
            Ok(copy) => {
                self.lists.unborn_head = Some(copy);
                Ok(())
            }
            Err(_) => Err(LineFault::OutOfMemory),
        }
    }

    fn keep_object<M: RepoMemory + Copy>(
        &mut self,
        memory: M,
        id: Oid,
        size: u64,
    ) -> Result<(), LineFault>
        requires { id.format ≡ (drafted self.old).format }
        ensures { Keeps M.refuses (drafted self.old) (object id size) (drafted self.new) result }
    {
        if !comes_last_object(&self.lists.objects, &id) {
            return Err(LineFault::Refused);
        }
        match keep_item(memory, &mut self.lists.objects, (id, size)) {
            Ok(()) => Ok(()),
            Err(AllocError) => Err(LineFault::OutOfMemory),
        }
    }

    fn keep_count<M: RepoMemory>(&mut self, count: u32) -> Result<(), LineFault>
        ensures { Keeps M.refuses (drafted self.old) (ready count) (drafted self.new) result }
    {
        if self.lists.ready_after.is_some() {
            return Err(LineFault::Refused);
        }
        self.lists.ready_after = Some(count);
        Ok(())
    }

    fn keep_boundary<M: RepoMemory + Copy>(
        &mut self,
        memory: M,
        boundary: Boundary,
    ) -> Result<(), LineFault>
        requires { (object_of boundary).format ≡ (drafted self.old).format }
        ensures { Keeps M.refuses (drafted self.old) (boundary_line boundary) (drafted self.new) result }
    {
        match keep_item(memory, &mut self.lists.boundaries, boundary) {
            Ok(()) => Ok(()),
            Err(AllocError) => Err(LineFault::OutOfMemory),
        }
    }

    /// The repository that the lines contain, with these packs.
    pub(crate) fn finish(self, packs: Packs) -> ListRepo
        ensures { lists_of result ≡ with_packs (drafted self) (packs_of packs) }
    {
        let Packs { pack, filtered } = packs;
        let mut lists = self.lists;
        lists.pack = pack;
        lists.filtered = filtered;
        ListRepo::of_lists(lists)
    }
}

/// Stores an item after those of a list.
fn keep_item<T: Drop, M: RepoMemory + Copy>(
    memory: M,
    list: &mut Vec<T>,
    item: T,
) -> Result<(), AllocError>
    ensures items { list.new.items ≡ (if is_ok result then list.old.items ++ item ∷ [] else list.old.items) }
    ensures len { vec_len list.new ≡ (if is_ok result then vec_len list.old + 1 else vec_len list.old) }
    ensures memory { OnErr result (HasRefused M.refuses (bytes_each T.row * (length list.old.items + 1))) }
{
    memory.reserve(list, 1)?;
    list.push_reserved(item);
    Ok(())
}

/// The entry of a reference, with copies of its texts.
fn make_entry<M: RepoMemory + Copy>(
    memory: M,
    entry: &LineEntry<'_>,
) -> Result<RefEntry, AllocError>
    requires { IsNamed entry.now.name.now (option_copied entry.now.target) }
    ensures made { IfOk result (λ made. made ≡ shown_entry entry.now) }
    ensures memory { OnErr result (HasRefused M.refuses (length entry.now.name.now + name_bytes (option_copied entry.now.target))) }
{
    RefEntry::copied(memory, entry.name, entry.id, entry.target, entry.peeled)
}

/// Whether the object name comes after those of the objects.
fn comes_last_object(objects: &[(Oid, u64)], id: &Oid) -> bool
    ensures { IsTrue result ↔ ComesLastObject objects.now id.now }
{
    if objects.is_empty() {
        return true;
    }
    objects[objects.len() - 1].0.cmp(id).is_lt()
}
