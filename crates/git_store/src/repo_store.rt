//! A store that answers as a repository does, and whose packs pass part by part from readers that can seek.

ghost use Rattle.std.specs.Prelude.{◌≡◌, ◌<◌, ◌≤◌, IfOk, length};
ghost use Rattle.std.specs.Option.{option_copied};
ghost use Rattle.git_host.specs.HostLookups.{asked_in};
ghost use Rattle.git_store.specs.Questions.{IsListedWithin, IsPartWithin, found, has, line, listed_in, part_in, ready, replied, size_is};
ghost use Rattle.git_store.specs.Questions.{ask_boundary, ask_have, ask_pack, ask_reference, ask_size, ask_want, ask_want_ref};
ghost use Rattle.git_store.specs.RepoReplies.{BeginsAnew, IsLeftUnborn, IsPackPart, RepliesAs, answers_of};

use crate::store::{Listed, Part, Store, StoreFault};
use git_host::RequestAtHand;
use git_msg::{Boundary, Fetch};
use git_names::Oid;
use git_server::{RefEntry, Repo};
use std::alloc::{Allocator, Global};
use std::io::{ErrorKind, Read, Seek, SeekFrom};

/// A pack that is read part by part, from its front each time that it is sent.
#[derive(Drop)]
struct PackFile<P> {
    reader: P,
    // Its length, once that was taken.
    length: Option<u64>,
    // How many of its bytes are still to be read.
    left: u64,
}

impl<P: Read + Seek> PackFile<P> {
    fn new(reader: P) -> PackFile<P> {
        PackFile {
            reader,
            length: None,
            left: 0,
        }
    }

    // Goes to its front. Its length is taken the first time, and so many bytes are read of it each time.
    fn begin(&mut self) -> Result<(), StoreFault> {
        let length = match self.length {
            Some(length) => length,
            None => end_of(&mut self.reader)?,
        };
        if self.reader.rewind().is_err() {
            return Err(StoreFault);
        }
        self.length = Some(length);
        self.left = length;
        Ok(())
    }

    // Reads the next of its bytes, and returns how many: none at its end. A file that ends earlier fails.
    fn read(&mut self, out: &mut [u8]) -> Result<usize, StoreFault>
        ensures length { length out.new ≡ length out.old }
        ensures within { IfOk result (λ count. count ≤ length out.new) }
    {
        let space = self.left.min(out.len() as u64) as usize;
        if space == 0 {
            return Ok(0);
        }
        let count = read_some(&mut self.reader, &mut out[..space])?;
        self.left -= count as u64;
        Ok(count)
    }
}

// Reads some bytes. An interrupted read is made again; one that brings none fails.
fn read_some<P: Read>(reader: &mut P, out: &mut [u8]) -> Result<usize, StoreFault>
    ensures length { length out.new ≡ length out.old }
    ensures within { IfOk result (λ count. count ≤ length out.new) }
{
    for _ in 0..u64::MAX {
        match reader.read(out) {
            Ok(0) => return Err(StoreFault),
            Ok(count) => return Ok(count),
            Err(error) => {
                if error.kind() != ErrorKind::Interrupted {
                    return Err(StoreFault);
                }
            }
        }
    }
    Err(StoreFault)
}

// Where a reader ends.
fn end_of<P: Seek>(reader: &mut P) -> Result<u64, StoreFault> {
    match reader.seek(SeekFrom::End(0)) {
        Ok(length) => Ok(length),
        Err(_) => Err(StoreFault),
    }
}

// The next part of a pack, which has begun or begins with it.
fn next_part<P: Read + Seek>(
    file: &mut PackFile<P>,
    has_begun: bool,
    out: &mut [u8],
) -> Result<Part, StoreFault>
    ensures length { length out.new ≡ length out.old }
    ensures within { IfOk result (IsPartWithin (length out.new)) }
    ensures pack { IfOk result IsPackPart }
{
    if !has_begun {
        file.begin()?;
    }
    let count = file.read(out)?;
    if count == 0 {
        return Ok(Part::End);
    }
    Ok(Part::Pack(count))
}

/// A store with the answers of a repository, but for its packs, which come from readers: they pass part by part, and none is kept.
#[derive(Drop)]
pub struct RepoStore<R, P> {
    alloc: Global,
    repo: R,
    pack: PackFile<P>,
    filtered: Option<PackFile<P>>,
    // What was sent for the request at hand: so many references or lines of its boundary, and what an unborn `HEAD` points to.
    at: usize,
    named_unborn: bool,
    // Its pack has begun.
    has_begun: bool,
}

impl<R: Repo, P: Read + Seek> RepoStore<R, P> {
    /// The store with the answers of this repository, but with the packs of these readers: `pack` for each request, except that `filtered`,
    /// if there is one, is for each request that has a filter. This call reads nothing.
    pub fn new(alloc: Global, repo: R, pack: P, filtered: Option<P>) -> RepoStore<R, P>
        ensures { answers_of R.state result ≡ (R.state repo).answers }
    {
        RepoStore {
            alloc,
            repo,
            pack: PackFile::new(pack),
            filtered: match filtered {
                Some(reader) => Some(PackFile::new(reader)),
                None => None,
            },
            at: 0,
            named_unborn: false,
            has_begun: false,
        }
    }
}

impl<R: Repo, P> RepoStore<R, P> {
    // What an unborn `HEAD` points to, if it was not sent yet.
    fn unborn_left(&self) -> Option<&[u8]>
        ensures { IsLeftUnborn (answers_of R.state self.now) self.now.named_unborn (option_copied result) }
    {
        if self.named_unborn {
            return None;
        }
        self.repo.unborn_head()
    }
}

impl<R: Repo, P: Read + Seek> Store for RepoStore<R, P> {
    ghost begins = { λ old asked new. BeginsAnew R.state old new };

    ghost replies = { λ old question reply new. RepliesAs R.state old question reply new };

    fn begin<A: Allocator + Copy>(&mut self, request: &RequestAtHand<'_, A>) {
        self.at = 0;
        self.named_unborn = false;
        self.has_begun = false;
    }

    fn want(&mut self, id: &Oid) -> Result<bool, StoreFault> {
        Ok(self.repo.has(id))
    }

    fn want_ref(&mut self, name: &[u8]) -> Result<Option<Oid>, StoreFault> {
        Ok(self.repo.find(name))
    }

    fn have(&mut self, id: &Oid) -> Result<bool, StoreFault> {
        Ok(self.repo.has(id))
    }

    fn is_ready<A: Allocator + Copy>(&mut self, request: &Fetch<A>) -> Result<bool, StoreFault> {
        Ok(self.repo.is_ready(request))
    }

    fn boundary<A: Allocator + Copy>(
        &mut self,
        request: &Fetch<A>,
    ) -> Result<Option<Boundary>, StoreFault> {
        if self.at < self.repo.boundaries(request) {
            let line = self.repo.boundary(request, self.at);
            self.at += 1;
            return Ok(Some(line));
        }
        Ok(None)
    }

    fn pack<A: Allocator + Copy>(
        &mut self,
        request: &Fetch<A>,
        out: &mut [u8],
    ) -> Result<Part, StoreFault> {
        if request.filter(0).is_some() {
            if let Some(filtered) = &mut self.filtered {
                let part = next_part(filtered, self.has_begun, out)?;
                self.has_begun = true;
                return Ok(part);
            }
        }
        let part = next_part(&mut self.pack, self.has_begun, out)?;
        self.has_begun = true;
        Ok(part)
    }

    fn reference(&mut self, out: &mut [u8]) -> Result<Listed, StoreFault> {
        if let Some(target) = self.unborn_left() {
            let count = target.len();
            if count > out.len() {
                return Err(StoreFault);
            }
            out[..count].copy_from_slice(target);
            self.named_unborn = true;
            return Ok(Listed::Unborn(count));
        }
        let Some(entry) = self.repo.refs().get(self.at) else {
            return Ok(Listed::End);
        };
        let copy = RefEntry::copied(
            self.alloc,
            entry.name(),
            entry.id(),
            entry.target(),
            entry.peeled(),
        );
        match copy {
            Ok(entry) => {
                self.at += 1;
                Ok(Listed::Reference(entry))
            }
            Err(_) => Err(StoreFault),
        }
    }

    fn size(&mut self, id: &Oid) -> Result<Option<u64>, StoreFault> {
        Ok(self.repo.object_size(id))
    }
}
