//! What a server needs from a repository.

ghost use Rattle.std.specs.Prelude.{◌≡◌, ◌<◌, ℕ, Some, codes, length, slice_get, IfOk, OnErr, OnOk};
ghost use Rattle.std.specs.Option.{option_copied};
ghost use Rattle.git_server.specs.Packs.{IsPackPart};
ghost use Rattle.git_server.specs.Repository.{RepoState, IsFound, IsSound};
ghost use Rattle.git_msg.specs.Arguments.{Arg};
ghost use Rattle.std.specs.Prelude.{List};

use crate::entry::RefEntry;
use git_msg::{Boundary, Fetch};
use git_names::{Format, Oid};
use std::alloc::Allocator;
use std::error::Error;
use std::fmt;

/// A read of a pack failed.
#[derive(Clone, Copy, Debug, PartialEq, Eq, Hash)]
pub struct PackFault;

impl fmt::Display for PackFault {
    ghost output = { λ fault. Some (codes "PackSource") };

    fn fmt<W: fmt::Write>(&self, f: &mut fmt::Formatter<W>) -> fmt::Result {
        f.write_str("PackSource")
    }
}

impl Error for PackFault {}

/// A repository, as a server sees it.
pub trait Repo {
    /// What the repository answers, and how many of its reads have failed.
    ghost state: { Self → RepoState };

    /// The number of bytes that a read of a pack may return, for a request, an offset and the length of the buffer. Any number is allowed if
    /// the repository does not define this.
    ghost read_gives: { Self → List Arg → ℕ → ℕ → ℕ → Type 0 } = { λ repo request offset space count. Unit {0} };

    /// The format of its object names.
    fn format(&self) -> Format
        ensures { result ≡ (state self.now).answers.format };

    /// Its references, in strictly rising order of the bytes of their names.
    fn refs(&self) -> &[RefEntry]
        ensures { result.now ≡ (state self.now).answers.refs };

    /// The object that the reference with this name points to, if there is such a reference.
    fn find(&self, name: &[u8]) -> Option<Oid>
        ensures { IsFound (state self.now).answers.refs name.now result };

    /// The name that `HEAD` points to if it is unborn, that is, while its branch has no commit. None if it is not unborn.
    fn unborn_head(&self) -> Option<&[u8]>
        ensures { option_copied result ≡ (state self.now).answers.unborn_head };

    /// Whether it has an object with this name.
    fn has(&self, id: &Oid) -> bool
        ensures { result ≡ (state self.now).answers.has id.now };

    /// The size in bytes of the object with this name. None if there is no such object; `object-info` then lists the name without a
    /// size.
    fn object_size(&self, id: &Oid) -> Option<u64>
        ensures { result ≡ (state self.now).answers.object_size id.now };

    /// Whether it is ready to send a pack for the request: the client has enough common objects.
    /// The answer to a request that negotiates then has a `ready` line, gitprotocol-v2(5), and the pack follows. A request that only
    /// negotiates gets no pack, so this is not called for it.
    fn is_ready<A: Allocator + Copy>(&self, request: &Fetch<A>) -> bool
        ensures { result ≡ (state self.now).answers.is_ready request.now.asked };

    /// The number of lines of the shallow boundary for the request: the section `shallow-info` of gitprotocol-v2(5).
    fn boundaries<A: Allocator + Copy>(&self, request: &Fetch<A>) -> usize
        ensures { result ≡ length ((state self.now).answers.boundaries request.now.asked) };

    /// The line at index `i` of the shallow boundary for the request.
    fn boundary<A: Allocator + Copy>(&self, request: &Fetch<A>, i: usize) -> Boundary
        requires { i < length ((state self.now).answers.boundaries request.now.asked) }
        ensures { slice_get ((state self.now).answers.boundaries request.now.asked) i ≡ Some result };

    /// Reads bytes of the pack for the request, from an offset on, to the front of `out`: at least one if the offset is before the
    /// pack's end, otherwise none. It returns how many. The pack for a request stays the same.
    fn pack_read<A: Allocator + Copy>(
        &mut self,
        request: &Fetch<A>,
        offset: u64,
        out: &mut [u8],
    ) -> Result<usize, PackFault>
        requires space { 0 < length out.old }
        ensures part { IfOk result (λ count. IsPackPart ((state self.old).answers.pack request.now.asked) offset count out.new) }
        ensures given { IfOk result (λ count. read_gives self.old request.now.asked offset (length out.old) count) }
        ensures cause { OnErr result ((state self.old).failures < (state self.new).failures) }
        ensures fine { OnOk result ((state self.new).failures ≡ (state self.old).failures) }
        ensures same { (state self.new).answers ≡ (state self.old).answers };

    /// The names of the references rise, and these names and the targets are valid reference names. The object names of the
    /// references and of each shallow boundary are of the format. A boundary lists a commit as no longer shallow only if the request
    /// calls it shallow. If `HEAD` is unborn, it points to a valid reference name, and there is no reference `HEAD`.
    ghost sound: { (repo : Self) → IsSound (state repo).answers };

    /// A pack has less than 2^63 bytes.
    ghost short: { (repo : Self) (request : List Arg) → length ((state repo).answers.pack request) < 9223372036854775808 };
}
