//! How often a repository is asked whether it is ready to send a pack.

ghost use Rattle.git_server.specs.Machine.ListRepo.{is_short, is_sound, state_of};

use crate::expecting::expect;
use crate::servers::{default_setup, repository};
use git_msg::{Boundary, Fetch, Offer};
use git_names::{Format, Oid};
use git_pkt::Recorded;
use git_server::{ListRepo, Outcome, PackFault, RefEntry, Repo, Server, serve};
use std::alloc::Allocator;
use std::cell::Cell;
use std::process::Abort;
use std::test::Fail;

// A repository that answers as another one does, and counts how often it is asked whether it is ready.
#[derive(Drop)]
struct AskedRepo<'a> {
    inner: ListRepo,
    times: &'a Cell<u32>,
}

impl<'a> Repo for AskedRepo<'a> {
    ghost state = { λ repo. state_of repo.inner };

    ghost sound = { λ repo. is_sound repo.inner };

    ghost short = { λ repo request. is_short repo.inner request };

    fn format(&self) -> Format {
        self.inner.format()
    }

    fn refs(&self) -> &[RefEntry] {
        self.inner.refs()
    }

    fn find(&self, name: &[u8]) -> Option<Oid> {
        self.inner.find(name)
    }

    fn unborn_head(&self) -> Option<&[u8]> {
        self.inner.unborn_head()
    }

    fn has(&self, id: &Oid) -> bool {
        self.inner.has(id)
    }

    fn object_size(&self, id: &Oid) -> Option<u64> {
        self.inner.object_size(id)
    }

    fn is_ready<A: Allocator + Copy>(&self, request: &Fetch<A>) -> bool {
        self.times.set(self.times.get().saturating_add(1));
        self.inner.is_ready(request)
    }

    fn boundaries<A: Allocator + Copy>(&self, request: &Fetch<A>) -> usize {
        self.inner.boundaries(request)
    }

    fn boundary<A: Allocator + Copy>(&self, request: &Fetch<A>, i: usize) -> Boundary {
        self.inner.boundary(request, i)
    }

    fn pack_read<A: Allocator + Copy>(
        &mut self,
        request: &Fetch<A>,
        offset: u64,
        out: &mut [u8],
    ) -> Result<usize, PackFault> {
        self.inner.pack_read(request, offset, out)
    }
}

// How often the repository is asked while the requests are served.
fn times_asked(rt: &(impl Abort + AllocGlobal), requests: &[u8]) -> Result<u32, Fail> {
    let times = Cell::new(0);
    let repo = AskedRepo {
        inner: repository(rt, Format::Sha1)?,
        times: &times,
    };
    let offer = Offer::everything(repo.format());
    let mut server = Server::new(rt.alloc(), repo, offer, default_setup().limits, false);
    let mut reader = Recorded::new(requests);
    let mut given = Vec::new(rt.alloc());
    let mut writer = Recorded::new(&mut given);
    let run = serve(&mut reader, &mut writer, &mut [0; 64], &mut server, 100);
    expect(rt, &run, &Ok(Outcome::Flush));
    Ok(times.get())
}

/// A fetch that negotiates alone gets no pack, and one with `done`, or without an object of the client's, gets it in any case.
#[test]
fn a_repository_is_asked_whether_it_is_ready_only_where_its_pack_may_follow(
    rt: HostRuntime,
) -> Result<(), Fail> {
    let negotiating = b"0012command=fetch\n0001\
0032want aaaaaaaaaaaaaaaaaaaaaaaaaaaaaaaaaaaaaaaa\n0032have bbbbbbbbbbbbbbbbbbbbbbbbbbbbbbbbbbbbbbbb\n00000000";
    expect(&rt, &times_asked(&rt, negotiating)?, &1);
    let alone = b"0012command=fetch\n00010012wait-for-done\n\
0032have bbbbbbbbbbbbbbbbbbbbbbbbbbbbbbbbbbbbbbbb\n00000000";
    expect(&rt, &times_asked(&rt, alone)?, &0);
    let alone_without_haves = b"0012command=fetch\n00010012wait-for-done\n00000000";
    expect(&rt, &times_asked(&rt, alone_without_haves)?, &0);
    let done = b"0012command=fetch\n0001\
0032want aaaaaaaaaaaaaaaaaaaaaaaaaaaaaaaaaaaaaaaa\n0012wait-for-done\n\
0032have bbbbbbbbbbbbbbbbbbbbbbbbbbbbbbbbbbbbbbbb\n0009done\n00000000";
    expect(&rt, &times_asked(&rt, done)?, &0);
    let without_haves =
        b"0012command=fetch\n00010032want aaaaaaaaaaaaaaaaaaaaaaaaaaaaaaaaaaaaaaaa\n00000000";
    expect(&rt, &times_asked(&rt, without_haves)?, &0);
    Ok(())
}
