//! A repository whose reads of packs are short, and fail from some read on.

ghost use Rattle.std.specs.Prelude.{◌≡◌, ◌≤◌, ◌<◌, ◌-◌, ◌⊎◌, IfOk, IsErr, OnErr, OnOk, length, min};
ghost use Rattle.git_server.specs.Packs.{IsPackPart};

use crate::entry::RefEntry;
use crate::repo::{PackFault, Repo};
use git_msg::{Boundary, Fetch};
use git_names::{Format, Oid, Steps};
use std::alloc::Allocator;

/// A repository that answers as another one does, but returns its packs in short parts, and fails from some read on.
///
/// It is for tests of programs that have to withstand a pack source that fails.
#[derive(Drop)]
pub struct Faulty<R> {
    inner: R,
    reads_left: u32,
    most: usize,
    failed: Steps,
    ghost some: { 1 ≤ most },
}

impl<R: Repo> Faulty<R> {
    ghost use Rattle.git_server.specs.Machine.Faulty.{faulty_state, inner_of, most_of, reads_left};

    /// A repository that returns at most `most` bytes of a pack for each read, and fails from the read number `fail_from` on,
    /// counted from 0.
    pub fn new(inner: R, fail_from: u32, most: usize) -> Faulty<R>
        requires some { 1 ≤ most }
        ensures inner { inner_of result ≡ inner }
        ensures state { faulty_state R.state result ≡ R.state inner }
        ensures reads { reads_left result ≡ fail_from }
        ensures most { most_of result ≡ most }
    {
        Faulty {
            inner,
            reads_left: fail_from,
            most,
            failed: Steps::new(),
        }
    }

    /// Returns the inner repository.
    pub fn into_inner(self) -> R
        ensures { result ≡ inner_of self }
    {
        let Faulty { inner, .. } = self;
        inner
    }
}

impl<R: Repo> Repo for Faulty<R> {
    ghost use Rattle.git_server.specs.Machine.Faulty.{faulty_state, inner_of, most_of, reads_left};

    ghost state = { faulty_state R.state };

    ghost read_gives = { λ faulty request offset space count. R.read_gives (inner_of faulty) request offset (min (most_of faulty) space) count };

    ghost sound = { λ faulty. R.sound faulty.inner };

    ghost short = { λ faulty request. R.short faulty.inner request };

    fn format(&self) -> Format {
        self.inner.format()
    }

    fn refs(&self) -> &[RefEntry] {
        self.inner.refs()
    }

    fn find(&self, name: &[u8]) -> Option<Oid> {
        self.inner.find(name)
    }

    fn unborn_head(&self) -> Option<&[u8]> {
        self.inner.unborn_head()
    }

    fn has(&self, id: &Oid) -> bool {
        self.inner.has(id)
    }

    fn object_size(&self, id: &Oid) -> Option<u64> {
        self.inner.object_size(id)
    }

    fn is_ready<A: Allocator + Copy>(&self, request: &Fetch<A>) -> bool {
        self.inner.is_ready(request)
    }

    fn boundaries<A: Allocator + Copy>(&self, request: &Fetch<A>) -> usize {
        self.inner.boundaries(request)
    }

    fn boundary<A: Allocator + Copy>(&self, request: &Fetch<A>, i: usize) -> Boundary {
        self.inner.boundary(request, i)
    }

    fn pack_read<A: Allocator + Copy>(
        &mut self,
        request: &Fetch<A>,
        offset: u64,
        out: &mut [u8],
    ) -> Result<usize, PackFault>
        requires space { 0 < length out.old }
        ensures part { IfOk result (λ count. IsPackPart ((R.state (inner_of self.old)).answers.pack request.now.asked) offset count out.new) }
        ensures cause { OnErr result ((faulty_state R.state self.old).failures < (faulty_state R.state self.new).failures) }
        ensures fine { OnOk result ((faulty_state R.state self.new).failures ≡ (faulty_state R.state self.old).failures) }
        ensures same { (faulty_state R.state self.new).answers ≡ (faulty_state R.state self.old).answers }
        ensures given { IfOk result (λ count.
            R.read_gives (inner_of self.old) request.now.asked offset (min (most_of self.old) (length out.old)) count) }
        ensures fails { reads_left self.old ≡ 0 → IsErr result }
        ensures expected { OnErr result ((reads_left self.old ≡ 0)
            ⊎ ((R.state (inner_of self.old)).failures < (R.state (inner_of self.new)).failures)) }
        ensures reads { reads_left self.new ≡ reads_left self.old - 1 }
        ensures at_most { IfOk result (λ count. count ≤ most_of self.old) }
        ensures most { most_of self.new ≡ most_of self.old }
    {
        if self.reads_left == 0 {
            self.failed.tick(1);
            return Err(PackFault);
        }
        self.reads_left -= 1;
        let most = self.most.min(out.len());
        self.inner.pack_read(request, offset, &mut out[..most])
    }
}
