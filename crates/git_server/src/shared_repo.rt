//! A repository in memory that many servers share.

ghost use Rattle.std.specs.Prelude.{◌≡◌, ◌<◌, ◌-◌, IfErr, IfOk, Ok, length, min};
ghost use Rattle.git_server.specs.Machine.ListRepo.{lists_of};
ghost use Rattle.git_server.specs.Lists.{pack_for};
ghost use Rattle.git_server.specs.Packs.{IsPackPart};

use crate::entry::RefEntry;
use crate::list_repo::ListRepo;
use crate::repo::{PackFault, Repo};
use git_msg::{Boundary, Fetch};
use git_names::{Format, Oid};
use std::alloc::{AllocError, AllocFailed, Allocator, Global};
use std::sync::Arc;

/// A repository that consists of a few lists, stored once in memory for all who share it. Its memory is freed with the last of them.
#[derive(Drop)]
pub struct SharedRepo {
    repo: Arc<ListRepo>,
}

impl SharedRepo {
    ghost use Rattle.git_server.specs.Machine.ListRepo.{state_of};
    ghost use Rattle.git_server.specs.Machine.SharedRepo.{shared_by, shared_state};

    /// The repository, for others to share. If memory runs out, the error returns it.
    pub fn new(alloc: Global, repo: ListRepo) -> Result<SharedRepo, AllocFailed<ListRepo>>
        ensures repo { IfOk result (λ shared. shared_by shared ≡ repo) }
        ensures state { IfOk result (λ shared. shared_state shared ≡ state_of repo) }
        ensures given_back { IfErr result (λ failed. failed.value ≡ repo) }
    {
        let repo = Arc::new(alloc, repo)?;
        Ok(SharedRepo { repo })
    }

    /// The same repository, for one more. This takes no memory, and fails only if 2^63 - 1 share it already.
    pub fn share(&self) -> Result<SharedRepo, AllocError>
        ensures repo { IfOk result (λ shared. shared_by shared ≡ shared_by self.now) }
        ensures state { IfOk result (λ shared. shared_state shared ≡ shared_state self.now) }
    {
        let repo = Arc::try_clone(&self.repo)?;
        Ok(SharedRepo { repo })
    }
}

impl Repo for SharedRepo {
    ghost use Rattle.git_server.specs.Machine.ListRepo.{is_short, is_sound};
    ghost use Rattle.git_server.specs.Machine.SharedRepo.{shared_by, shared_state};

    ghost state = { shared_state };

    ghost read_gives = { λ shared request offset space count. count ≡ min (length (pack_for (lists_of (shared_by shared)) request) - offset) space };

    ghost sound = { λ shared. is_sound (shared_by shared) };

    ghost short = { λ shared request. is_short (shared_by shared) request };

    fn format(&self) -> Format {
        self.repo.format()
    }

    fn refs(&self) -> &[RefEntry] {
        self.repo.refs()
    }

    fn find(&self, name: &[u8]) -> Option<Oid> {
        self.repo.find(name)
    }

    fn unborn_head(&self) -> Option<&[u8]> {
        self.repo.unborn_head()
    }

    fn has(&self, id: &Oid) -> bool {
        self.repo.has(id)
    }

    fn object_size(&self, id: &Oid) -> Option<u64> {
        self.repo.object_size(id)
    }

    fn is_ready<A: Allocator + Copy>(&self, request: &Fetch<A>) -> bool {
        self.repo.is_ready(request)
    }

    fn boundaries<A: Allocator + Copy>(&self, request: &Fetch<A>) -> usize {
        self.repo.boundaries(request)
    }

    fn boundary<A: Allocator + Copy>(&self, request: &Fetch<A>, i: usize) -> Boundary {
        self.repo.boundary(request, i)
    }

    fn pack_read<A: Allocator + Copy>(
        &mut self,
        request: &Fetch<A>,
        offset: u64,
        out: &mut [u8],
    ) -> Result<usize, PackFault>
        requires space { 0 < length out.old }
        ensures part { IfOk result (λ count. IsPackPart (pack_for (lists_of (shared_by self.old)) request.now.asked) offset count out.new) }
        ensures fills { result ≡ Ok (min (length (pack_for (lists_of (shared_by self.old)) request.now.asked) - offset) (length out.old)) }
        ensures same { self.new ≡ self.old }
    {
        Ok(self.repo.read_pack(request, offset, out))
    }
}
