//! A repository that C holds.

ghost use Rattle.std.specs.Prelude.{◌≡◌, Some, None, IfSome, MatchResult};
ghost use Rattle.std.specs.Option.{option_copied};
ghost use Rattle.git_repository.specs.Packs.{packs_of};
ghost use Rattle.gitwire.specs.Handles.{repository_in};
ghost use Rattle.gitwire.specs.RepositoryAnswers.{Begins, packs_given};
ghost use Rattle.gitwire.specs.Answers.{answering};

use crate::answer::{GitwireAnswer, What};
use crate::handles::{GitwireRepository, Holds, fill};
use git_repository::{Packs, TextFault, read_repo};
use git_server::{Pack, SharedRepo};
use std::alloc::Global;
use std::mem::replace;

/// Makes the handle's repository that of the text, with `pack` for every fetch. What it had before is freed. `Done`; or `Failed`, and
/// `offset` is the line of the text that is refused, counted from 1; or `OutOfMemory`. If it is not `Done`, the handle has none.
#[unsafe(no_mangle)]
pub extern "C" fn gitwire_repository_init(
    alloc: Global,
    repository: &mut GitwireRepository,
    text: &[u8],
    pack: &[u8],
) -> GitwireAnswer
    ensures { Begins text.now (packs_given pack.now None) result (repository_in repository.new) }
{
    begin(alloc, repository, text, pack, None)
}

/// The same, but with the pack `filtered` for each fetch that has a filter, and `pack` for the others.
#[unsafe(no_mangle)]
pub extern "C" fn gitwire_repository_init_filtered(
    alloc: Global,
    repository: &mut GitwireRepository,
    text: &[u8],
    pack: &[u8],
    filtered: &[u8],
) -> GitwireAnswer
    ensures { Begins text.now (packs_given pack.now (Some filtered.now)) result (repository_in repository.new) }
{
    begin(alloc, repository, text, pack, Some(filtered))
}

/// As `gitwire_repository_init`, but `pack` is lent and never copied. C keeps it, unchanged, until the handle and every server of it are freed.
/// No lifetime states that of what C has, so it is `'static` here.
#[unsafe(no_mangle)]
pub extern "C" fn gitwire_repository_init_lent(
    alloc: Global,
    repository: &mut GitwireRepository,
    text: &[u8],
    pack: &'static [u8],
) -> GitwireAnswer
    ensures { Begins text.now (packs_given pack.now None) result (repository_in repository.new) }
{
    let packs = Packs {
        pack: Pack::Lent(pack),
        filtered: None,
    };
    begin_with(alloc, repository, text, packs)
}

/// The same, but with the pack `filtered`, which is lent too, for each fetch that has a filter, and `pack` for the others.
#[unsafe(no_mangle)]
pub extern "C" fn gitwire_repository_init_lent_filtered(
    alloc: Global,
    repository: &mut GitwireRepository,
    text: &[u8],
    pack: &'static [u8],
    filtered: &'static [u8],
) -> GitwireAnswer
    ensures { Begins text.now (packs_given pack.now (Some filtered.now)) result (repository_in repository.new) }
{
    let packs = Packs {
        pack: Pack::Lent(pack),
        filtered: Some(Pack::Lent(filtered)),
    };
    begin_with(alloc, repository, text, packs)
}

fn begin(
    alloc: Global,
    repository: &mut GitwireRepository,
    text: &[u8],
    pack: &[u8],
    filtered: Option<&[u8]>,
) -> GitwireAnswer
    ensures { Begins text.now (packs_given pack.now (option_copied filtered.entry)) result (repository_in repository.new) }
{
    *repository = GitwireRepository::none(alloc);
    let Some(packs) = copy_packs(alloc, pack, filtered) else {
        return GitwireAnswer::of(What::OutOfMemory);
    };
    begin_with(alloc, repository, text, packs)
}

fn begin_with(
    alloc: Global,
    repository: &mut GitwireRepository,
    text: &[u8],
    packs: Packs,
) -> GitwireAnswer
    ensures { Begins text.now (packs_of packs) result (repository_in repository.new) }
{
    *repository = GitwireRepository::none(alloc);
    let made = match read(alloc, text, packs) {
        Ok(made) => made,
        Err(answer) => return answer,
    };
    let Ok(made) = Box::new(alloc, made) else {
        return GitwireAnswer::of(What::OutOfMemory);
    };
    GitwireAnswer::of(fill(repository, alloc, made))
}

/// The packs, copied; none if memory runs out.
fn copy_packs(alloc: Global, pack: &[u8], filtered: Option<&[u8]>) -> Option<Packs>
    ensures { IfSome result (λ packs. packs_of packs ≡ packs_given pack.now (option_copied filtered.entry)) }
{
    let Ok(pack) = Vec::from_slice(alloc, pack) else {
        return None;
    };
    let Some(filtered) = filtered else {
        return Some(Packs {
            pack: Pack::Owned(pack),
            filtered: None,
        });
    };
    match Vec::from_slice(alloc, filtered) {
        Ok(filtered) => Some(Packs {
            pack: Pack::Owned(pack),
            filtered: Some(Pack::Owned(filtered)),
        }),
        Err(_) => None,
    }
}

/// The repository of the text, with these packs; or what is reported to C if there is none.
fn read(alloc: Global, text: &[u8], packs: Packs) -> Result<SharedRepo, GitwireAnswer>
    ensures { MatchResult result (λ made. Begins text.now (packs_of packs) (answering What.Done) (Some made))
        (λ answer. Begins text.now (packs_of packs) answer None) }
{
    let repo = match read_repo(alloc, text, packs) {
        Ok(repo) => repo,
        Err(TextFault::Bad { line }) => {
            return Err(GitwireAnswer::of_packet(0, line, 0, What::Failed));
        }
        Err(TextFault::OutOfMemory) => return Err(GitwireAnswer::of(What::OutOfMemory)),
    };
    let Ok(shared) = SharedRepo::new(alloc, repo) else {
        return Err(GitwireAnswer::of(What::OutOfMemory));
    };
    Ok(shared)
}

/// Frees the handle's repository: the servers that share it keep it. The handle has none from then on.
#[unsafe(no_mangle)]
pub extern "C" fn gitwire_repository_clear(alloc: Global, repository: &mut GitwireRepository)
    ensures { repository_in repository.new ≡ None }
{
    drop(replace(repository, GitwireRepository::none(alloc)));
}
