//! A repository that consists of a few lists: of references, of objects, of shallow boundaries, and a pack or two.

ghost use Rattle.std.specs.Prelude.{◌≡◌, ◌≢◌, ◌<◌, ◌-◌, ◌↔◌, IsTrue, IfOk, MatchBool, MatchOption, MatchResult, All, Any, Ok, Some, filter, length};
ghost use Rattle.std.specs.Prelude.{min, nat_le};
ghost use Rattle.std.specs.Prelude.{slice_get};
ghost use Rattle.std.specs.List.{HoldsAt};
ghost use Rattle.std.specs.Option.{ForSome};
ghost use Rattle.std.specs.Ordering.{nat_cmp};
ghost use Rattle.std.specs.Cmp.Lexicographic.{slice_cmp};
ghost use Rattle.git_server.specs.Lists.{IsRepository, lists_in, repo_fault_name};
ghost use Rattle.git_server.specs.PackBytes.{bytes_in, bytes_in_some};
ghost use Rattle.git_server.specs.Objects.{object_cmp, object_of, has_object, precedes, AreRising};
ghost use Rattle.git_server.specs.Packs.{IsPackPart};
ghost use Rattle.git_server.specs.Repository.{IsNamed, IsOfFormat, IsRising, IsUnbornHead, bytes_of, comes_before};
ghost use Rattle.git_server.specs.AnnouncedBoundary.{is_deepened, is_shallow_line, is_unshallow_line, announced_lines};

use crate::entry::RefEntry;
use crate::pack::Pack;
use crate::repo::{PackFault, Repo};
use git_msg::{Boundary, Fetch};
use git_names::{Format, Oid, RefName, Steps};
use std::alloc::Allocator;
use std::cmp::Ordering;
use std::error::Error;
use std::fmt;

/// Why lists are not a repository.
#[derive(Clone, Copy, Debug, PartialEq, Eq, Hash)]
pub enum RepoFault {
    /// The references are not in strictly rising order of the bytes of their names.
    UnsortedRefs,
    /// The objects are not in strictly rising order of their names.
    UnsortedObjects,
    /// An object name is not of the repository's format.
    MixedFormats,
    /// An unborn `HEAD` points to something that is not a valid reference name, or there is a reference `HEAD`.
    UnbornHead,
}

impl fmt::Display for RepoFault {
    ghost output = { λ fault. Some (repo_fault_name fault) };

    fn fmt<W: fmt::Write>(&self, f: &mut fmt::Formatter<W>) -> fmt::Result {
        f.write_str(match self {
            RepoFault::UnsortedRefs => "UnsortedRefs",
            RepoFault::UnsortedObjects => "UnsortedObjects",
            RepoFault::MixedFormats => "MixedFormats",
            RepoFault::UnbornHead => "UnbornHead",
        })
    }
}

impl Error for RepoFault {}

/// The lists of a repository, before they are checked.
pub struct RepoLists {
    /// The format of the object names.
    pub format: Format,
    /// The references.
    pub refs: Vec<RefEntry>,
    /// The objects, with their sizes in bytes.
    pub objects: Vec<(Oid, u64)>,
    /// The number of common objects after which it is ready to send a pack, if it ever is.
    pub ready_after: Option<u32>,
    /// The shallow boundary.
    pub boundaries: Vec<Boundary>,
    /// The pack for each request.
    pub pack: Pack,
    /// The name that an unborn `HEAD` points to.
    pub unborn_head: Option<Vec<u8>>,
    /// The pack for each request that has a filter, if that is a different one.
    pub filtered: Option<Pack>,
}

// By a call: a derived drop is written out, and proved, wherever a value goes out of scope.
impl Drop for RepoLists {
    fn drop(self) {
        let RepoLists {
            format: _format,
            refs: _refs,
            objects: _objects,
            ready_after: _ready_after,
            boundaries: _boundaries,
            pack: _pack,
            unborn_head: _unborn_head,
            filtered: _filtered,
        } = self;
    }
}

/// A repository that consists of a few lists in memory.
#[derive(Drop)]
pub struct ListRepo {
    lists: RepoLists,
    ghost fit: { IsRepository (lists_in lists) },
    ghost named: { All (λ ref. IsNamed ref.name ref.target) lists.refs.items },
    ghost short: { length (bytes_in lists.pack) < 9223372036854775808 },
    ghost short_filtered: { ForSome (bytes_in_some lists.filtered) (λ bytes. length bytes < 9223372036854775808) },
}

impl ListRepo {
    ghost use Rattle.git_server.specs.Lists.{IsUnfit, Lists, lists_from, pack_for};
    ghost use Rattle.git_server.specs.Machine.ListRepo.{lists_of};

    /// The repository with these references, these objects with their sizes in bytes, this shallow boundary and
    /// this pack for each request; if there is a `filtered` pack, it is for each request that has a filter. The repository is ready
    /// to send a pack after `ready_after` common objects, or never. If a request cuts the history off, the answer has the
    /// shallow commits of the boundary in their order, and then those that the request called shallow and that are no
    /// longer shallow.
    ///
    /// The references have to rise strictly by their names (`UnsortedRefs`), and the objects by theirs
    /// (`UnsortedObjects`). All object names have to be of the format (`MixedFormats`). The name that an unborn `HEAD`
    /// points to is checked last: it has to be a valid reference name, and then there must be no reference `HEAD` (`UnbornHead`).
    pub fn new(
        format: Format,
        refs: Vec<RefEntry>,
        objects: Vec<(Oid, u64)>,
        ready_after: Option<u32>,
        boundaries: Vec<Boundary>,
        pack: Pack,
        unborn: Option<Vec<u8>>,
        filtered: Option<Pack>,
    ) -> Result<ListRepo, RepoFault>
        ensures { let lists : Lists = lists_from format refs objects ready_after boundaries pack unborn filtered in
            MatchResult result (λ repo. (lists_of repo ≡ lists) × IsRepository lists) (λ fault. IsUnfit fault lists) }
    {
        if !are_sorted_refs(&refs) {
            return Err(RepoFault::UnsortedRefs);
        }
        if !are_sorted_objects(&objects) {
            return Err(RepoFault::UnsortedObjects);
        }
        if !are_refs_of(format, &refs)
            || !are_objects_of(format, &objects)
            || !are_boundaries_of(format, &boundaries)
        {
            return Err(RepoFault::MixedFormats);
        }
        if !is_unborn_head(&refs, &unborn) {
            return Err(RepoFault::UnbornHead);
        }
        Ok(ListRepo::of_lists(RepoLists {
            format,
            refs,
            objects,
            ready_after,
            boundaries,
            pack,
            unborn_head: unborn,
            filtered,
        }))
    }

    /// The same repository, if the lists are known to make one, for example because each item was checked when it was added.
    pub fn of_lists(lists: RepoLists) -> ListRepo
        requires fit { IsRepository (lists_in lists) }
        requires named { All (λ ref. IsNamed ref.name ref.target) lists.refs.items }
        ensures { lists_of result ≡ lists_in lists }
    {
        ListRepo { lists }
    }

    /// Replaces its packs by these, which it owns.
    pub(crate) fn set_packs(&mut self, pack: Vec<u8>, filtered: Option<Vec<u8>>)
        ensures { lists_of self.new ≡ record (lists_of self.old) { pack = pack.items; filtered = bytes_of filtered } }
    {
        self.lists.pack = Pack::Owned(pack);
        self.lists.filtered = match filtered {
            Some(bytes) => Some(Pack::Owned(bytes)),
            None => None,
        };
    }

    // The pack for a request: the filtered one, if there is one and the request has a filter.
    fn pack_for<A: Allocator + Copy>(&self, request: &Fetch<A>) -> &[u8]
        ensures { result.now ≡ pack_for (lists_of self.now) request.now.asked }
    {
        if request.filter(0).is_none() {
            return self.lists.pack.bytes();
        }
        match &self.lists.filtered {
            Some(filtered) => filtered.bytes(),
            None => self.lists.pack.bytes(),
        }
    }

    /// Reads bytes of the pack as [`Repo::pack_read`] does, and returns how many. Others who share the repository may read too.
    pub(crate) fn read_pack<A: Allocator + Copy>(
        &self,
        request: &Fetch<A>,
        offset: u64,
        out: &mut [u8],
    ) -> usize
        requires space { 0 < length out.old }
        ensures part { IsPackPart (pack_for (lists_of self.now) request.now.asked) offset result out.new }
        ensures fills { result ≡ min (length (pack_for (lists_of self.now) request.now.asked) - offset) (length out.old) }
    {
        let pack = self.pack_for(request);
        let at = (offset as usize).min(pack.len());
        let rest = &pack[at..];
        let count = rest.len().min(out.len());
        out[..count].copy_from_slice(&rest[..count]);
        count
    }
}

impl Repo for ListRepo {
    ghost use Rattle.git_server.specs.Machine.ListRepo.{is_short, is_sound, lists_of, state_of};
    ghost use Rattle.git_server.specs.Lists.{pack_for};

    ghost state = { state_of };

    ghost read_gives = { λ repo request offset space count. count ≡ min (length (pack_for (lists_of repo) request) - offset) space };

    ghost sound = { is_sound };

    ghost short = { is_short };

    fn format(&self) -> Format {
        self.lists.format
    }

    fn refs(&self) -> &[RefEntry] {
        &self.lists.refs
    }

    fn find(&self, name: &[u8]) -> Option<Oid> {
        let at = find_name(&self.lists.refs, name)?;
        Some(self.lists.refs[at].id())
    }

    fn unborn_head(&self) -> Option<&[u8]> {
        self.lists.unborn_head.as_deref()
    }

    fn has(&self, id: &Oid) -> bool
        ensures answer { result ≡ (state_of self.now).answers.has id.now }
        ensures among { IsTrue result ↔ Any (λ object. object.0 ≡ id.now) (lists_of self.now).objects }
    {
        stands_among(&self.lists.objects, id)
    }

    fn object_size(&self, id: &Oid) -> Option<u64>
        ensures answer { result ≡ (state_of self.now).answers.object_size id.now }
        ensures listed { MatchOption result (All (λ object. object.0 ≢ id.now) (lists_of self.now).objects)
            (λ size. Any (λ object. object ≡ (id.now, size)) (lists_of self.now).objects) }
    {
        let at = find_object(&self.lists.objects, id)?;
        Some(self.lists.objects[at].1)
    }

    fn is_ready<A: Allocator + Copy>(&self, request: &Fetch<A>) -> bool {
        match self.lists.ready_after {
            Some(least) => are_common(&self.lists.objects, request.haves(), least as usize),
            None => false,
        }
    }

    fn boundaries<A: Allocator + Copy>(&self, request: &Fetch<A>) -> usize {
        if deepens(request) {
            count_announced(&self.lists.boundaries, request.shallows())
        } else {
            0
        }
    }

    fn boundary<A: Allocator + Copy>(&self, request: &Fetch<A>, i: usize) -> Boundary {
        match announced_at(&self.lists.boundaries, request.shallows(), i) {
            Some(line) => line,
            None => unreachable!(),
        }
    }

    fn pack_read<A: Allocator + Copy>(
        &mut self,
        request: &Fetch<A>,
        offset: u64,
        out: &mut [u8],
    ) -> Result<usize, PackFault>
        requires space { 0 < length out.old }
        ensures part { IfOk result (λ count. IsPackPart (pack_for (lists_of self.old) request.now.asked) offset count out.new) }
        ensures fills { result ≡ Ok (min (length (pack_for (lists_of self.old) request.now.asked) - offset) (length out.old)) }
        ensures same { self.new ≡ self.old }
    {
        Ok(self.read_pack(request, offset, out))
    }
}

fn are_sorted_refs(refs: &[RefEntry]) -> bool
    ensures { IsTrue result ↔ IsRising refs.now }
{
    refs.is_sorted_by(
        |a: &RefEntry, b: &RefEntry| -> bool
            ensures { result ≡ comes_before a.now.name b.now.name }
        { a.name().cmp(b.name()).is_lt() },
    )
}

fn are_sorted_objects(objects: &[(Oid, u64)]) -> bool
    ensures { IsTrue result ↔ AreRising objects.now }
{
    objects.is_sorted_by(
        |a: &(Oid, u64), b: &(Oid, u64)| -> bool
            ensures { result ≡ precedes a.now.0 b.now.0 }
        { a.0.cmp(&b.0).is_lt() },
    )
}

fn are_refs_of(format: Format, refs: &[RefEntry]) -> bool
    ensures of_format { IsTrue result ↔ All (IsOfFormat format) refs.now }
    ensures named { IsTrue result → All (λ ref. IsNamed ref.name ref.target) refs.now }
{
    for entry in refs {
        if !entry.is_of(format) {
            return false;
        }
    }
    true
}

fn are_objects_of(format: Format, objects: &[(Oid, u64)]) -> bool
    ensures { IsTrue result ↔ All (λ object. object.0.format ≡ format) objects.now }
{
    for (id, _) in objects {
        if id.format() != format {
            return false;
        }
    }
    true
}

fn are_boundaries_of(format: Format, boundaries: &[Boundary]) -> bool
    ensures { IsTrue result ↔ All (λ boundary. (object_of boundary).format ≡ format) boundaries.now }
{
    for boundary in boundaries {
        let (Boundary::Shallow(id) | Boundary::Unshallow(id)) = boundary;
        if id.format() != format {
            return false;
        }
    }
    true
}

// Whether an unborn `HEAD` may point to this name, or there is no name.
fn is_unborn_head(refs: &[RefEntry], unborn: &Option<Vec<u8>>) -> bool
    requires { IsRising refs.now }
    ensures { MatchBool result (ForSome (bytes_of unborn.now) (IsUnbornHead refs.now)) (¬ ForSome (bytes_of unborn.now) (IsUnbornHead refs.now)) }
{
    let Some(target) = unborn else {
        return true;
    };
    if RefName::read(target, &mut Steps::new()).is_err() {
        return false;
    }
    find_name(refs, b"HEAD").is_none()
}

// The index of the reference with this name.
fn find_name(refs: &[RefEntry], name: &[u8]) -> Option<usize>
    requires { IsRising refs.now }
    ensures { MatchOption result (All (λ entry. entry.name ≢ name.now) refs.now)
        (λ at. (at < length refs.now) × HoldsAt (λ entry. entry.name ≡ name.now) refs.now at) }
{
    let searched = refs.binary_search_by(
        |entry: &RefEntry| -> Ordering
            ensures { result ≡ slice_cmp nat_cmp entry.now.name name.entry.now }
        { entry.name().cmp(name) },
    );
    match searched {
        Ok(at) => Some(at),
        Err(_) => None,
    }
}

// The index of the object with this name.
fn find_object(objects: &[(Oid, u64)], id: &Oid) -> Option<usize>
    requires { AreRising objects.now }
    ensures { MatchOption result (All (λ object. object.0 ≢ id.now) objects.now)
        (λ at. (at < length objects.now) × HoldsAt (λ object. object.0 ≡ id.now) objects.now at) }
{
    let searched = objects.binary_search_by(
        |object: &(Oid, u64)| -> Ordering
            ensures { result ≡ object_cmp object.now.0 id.entry.now }
        { object.0.cmp(id) },
    );
    match searched {
        Ok(at) => Some(at),
        Err(_) => None,
    }
}

// Whether one of the objects has the name.
fn stands_among(objects: &[(Oid, u64)], id: &Oid) -> bool
    requires { AreRising objects.now }
    ensures value { result ≡ has_object objects.now id.now }
    ensures among { IsTrue result ↔ Any (λ object. object.0 ≡ id.now) objects.now }
{
    find_object(objects, id).is_some()
}

// Whether at least `least` of the names are names of objects in the list; a repeated name counts each time. It looks no further
// than it has to.
fn are_common(objects: &[(Oid, u64)], names: &[Oid], least: usize) -> bool
    requires { AreRising objects.now }
    ensures { result ≡ nat_le least (length (filter (has_object objects.now) names.now)) }
{
    names
        .iter()
        .filter(|id| stands_among(objects, id))
        .take(least)
        .count()
        == least
}

// Whether the request cuts the history off: at a depth, at a time, or at the commits that a revision reaches.
fn deepens<A: Allocator + Copy>(request: &Fetch<A>) -> bool
    ensures { result ≡ is_deepened request.now.asked }
{
    request.deepen().is_some()
        || request.deepen_since().is_some()
        || request.deepen_not(0).is_some()
}

// Whether this is a `shallow` line.
fn is_shallow(line: &Boundary) -> bool
    ensures { result ≡ is_shallow_line line.now }
{
    matches!(line, Boundary::Shallow(_))
}

// Whether this is the `unshallow` line of one of these commits.
fn is_unshallow_of(line: &Boundary, shallows: &[Oid]) -> bool
    ensures { result ≡ is_unshallow_line shallows.now line.now }
{
    match line {
        Boundary::Shallow(_) => false,
        Boundary::Unshallow(id) => shallows.iter().any(|shallow| shallow.cmp(id).is_eq()),
    }
}

// The number of boundary lines for a client that has these commits without their parents.
fn count_announced(lines: &[Boundary], shallows: &[Oid]) -> usize
    ensures { result ≡ length (announced_lines lines.now shallows.now) }
{
    let shallow = lines.iter().filter(|line| is_shallow(line)).count();
    let unshallow = lines
        .iter()
        .filter(|line| is_unshallow_of(line, shallows))
        .count();
    shallow + unshallow
}

// The line at index `i` of those for the client: the shallow commits come first.
fn announced_at(lines: &[Boundary], shallows: &[Oid], i: usize) -> Option<Boundary>
    ensures { result ≡ slice_get (announced_lines lines.now shallows.now) i }
{
    let shallow = lines.iter().filter(|line| is_shallow(line));
    let unshallow = lines.iter().filter(|line| is_unshallow_of(line, shallows));
    shallow.chain(unshallow).nth(i).copied()
}
