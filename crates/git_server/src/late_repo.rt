//! A repository that consists of a few lists, and reads its packs when one is needed.

ghost use Rattle.std.specs.Prelude.{◌≡◌, ◌-◌, ◌<◌, IfOk, IfSome, IsErr, None, OnErr, OnOk, Some, false, length, min, true};
ghost use Rattle.git_server.specs.Lists.{pack_for};
ghost use Rattle.git_server.specs.Machine.LateReads.{are_lost, have_failure};
ghost use Rattle.git_server.specs.Packs.{IsPackPart};

use crate::entry::RefEntry;
use crate::list_repo::ListRepo;
use crate::pack_sources::PackSources;
use crate::repo::{PackFault, Repo};
use git_msg::{Boundary, Fetch};
use git_names::{Format, Oid, Steps};
use std::alloc::{Allocator, Global};
use std::io::Read;
use std::mem;

/// The packs of a repository that reads them late.
#[derive(Drop)]
enum LatePacks<P> {
    /// No pack was read.
    Unread(PackSources<P>),
    /// The packs are in the lists.
    Read,
    /// A read of a pack failed, or memory for it ran out.
    Lost(PackSources<P>),
}

/// A repository that consists of a few lists, and reads its packs whole when one is needed, by [`crate::Server::read_packs`].
///
/// [`Repo::pack_read`] fails before that, and if the packs could not be read.
#[derive(Drop)]
pub struct LateRepo<P> {
    lists: ListRepo,
    packs: LatePacks<P>,
    failed: Steps,
    ghost caused: { are_lost packs ≡ true → have_failure packs ≡ true },
}

impl<P: Read + Drop> LateRepo<P> {
    ghost use Rattle.git_server.specs.Machine.LateRepo.{AreReadOf, SettlesPacks, has_packs, late_lists, late_state, pack_failed, unread_in};
    ghost use Rattle.git_server.specs.Machine.ListRepo.{lists_of, state_of};

    /// The repository with these lists, but with the packs that these readers will return: `pack` for each request, except that
    /// `filtered`, if there is one, is for each request that has a filter. This call reads nothing.
    pub fn new(alloc: Global, lists: ListRepo, pack: P, filtered: Option<P>) -> LateRepo<P>
        ensures state { late_state result ≡ state_of lists }
        ensures lists { late_lists result ≡ lists_of lists }
        ensures unread { unread_in result ≡ Some (pack, filtered) }
        ensures unfailed { pack_failed result ≡ false }
    {
        LateRepo {
            lists,
            packs: LatePacks::Unread(PackSources::new(alloc, pack, filtered)),
            failed: Steps::new(),
        }
    }

    /// Reads the packs, unless that was tried before. They are lost only if a read fails, or if memory for the bytes that were read is refused.
    pub(crate) fn read_packs(&mut self)
        ensures settles { SettlesPacks (late_state self.old) (late_state self.new) }
        ensures read { IfSome (unread_in self.old) (λ packs. (has_packs self.new ≡ true → AreReadOf P.remaining packs (late_lists self.new))) }
        ensures lost { has_packs self.new ≡ false → pack_failed self.new ≡ true }
        ensures tried { unread_in self.new ≡ None }
        ensures again { unread_in self.old ≡ None → self.new ≡ self.old }
    {
        match mem::replace(&mut self.packs, LatePacks::Read) {
            LatePacks::Unread(mut sources) => match sources.read() {
                Ok((pack, filtered)) => self.lists.set_packs(pack, filtered),
                Err(PackFault) => self.packs = LatePacks::Lost(sources),
            },
            tried => self.packs = tried,
        }
    }
}

impl<P: Read + Drop> Repo for LateRepo<P> {
    ghost use Rattle.git_server.specs.Machine.LateRepo.{has_packs, late_lists, late_state};
    ghost use Rattle.git_server.specs.Machine.ListRepo.{is_short, is_sound};

    ghost state = { late_state };

    ghost read_gives = { λ repo request offset space count. count ≡ min (length (pack_for (late_lists repo) request) - offset) space };

    ghost sound = { λ repo. is_sound repo.lists };

    ghost short = { λ repo request. is_short repo.lists request };

    fn format(&self) -> Format {
        self.lists.format()
    }

    fn refs(&self) -> &[RefEntry] {
        self.lists.refs()
    }

    fn find(&self, name: &[u8]) -> Option<Oid> {
        self.lists.find(name)
    }

    fn unborn_head(&self) -> Option<&[u8]> {
        self.lists.unborn_head()
    }

    fn has(&self, id: &Oid) -> bool {
        self.lists.has(id)
    }

    fn object_size(&self, id: &Oid) -> Option<u64> {
        self.lists.object_size(id)
    }

    fn is_ready<A: Allocator + Copy>(&self, request: &Fetch<A>) -> bool {
        self.lists.is_ready(request)
    }

    fn boundaries<A: Allocator + Copy>(&self, request: &Fetch<A>) -> usize {
        self.lists.boundaries(request)
    }

    fn boundary<A: Allocator + Copy>(&self, request: &Fetch<A>, i: usize) -> Boundary {
        self.lists.boundary(request, i)
    }

    fn pack_read<A: Allocator + Copy>(
        &mut self,
        request: &Fetch<A>,
        offset: u64,
        out: &mut [u8],
    ) -> Result<usize, PackFault>
        requires space { 0 < length out.old }
        ensures part { IfOk result (λ count. IsPackPart (pack_for (late_lists self.old) request.now.asked) offset count out.new) }
        ensures fills { IfOk result (λ count. count ≡ min (length (pack_for (late_lists self.old) request.now.asked) - offset) (length out.old)) }
        ensures cause { OnErr result ((late_state self.old).failures < (late_state self.new).failures) }
        ensures fine { OnOk result (self.new ≡ self.old) }
        ensures same { (late_state self.new).answers ≡ (late_state self.old).answers }
        ensures lacks { has_packs self.old ≡ false → IsErr result }
    {
        match self.packs {
            LatePacks::Read => Ok(self.lists.read_pack(request, offset, out)),
            LatePacks::Unread(_) | LatePacks::Lost(_) => {
                self.failed.tick(1);
                Err(PackFault)
            }
        }
    }
}
