//! A host that reports what a repository answers.

ghost use Rattle.std.specs.Prelude.{◌≡◌, ◌<◌, length};

use crate::hosts::{Reports, Verdict};
use crate::trouble::Trouble;
use git_host::{HostReported, HostServer, LONGEST_PART, Need, Report, RequestAtHand};
use git_msg::{Fetch, ObjectWord, TextWord};
use git_names::{Oid, RefName, Steps};
use git_server::{RefEntry, Repo};
use std::alloc::{AllocError, Global};

/// The reports of a host whose store is a repository.
#[derive(Drop)]
pub struct RepoReports<R> {
    alloc: Global,
    repo: R,
    // What was reported for the request at hand: whether an unborn `HEAD` was, how many references or lines of the boundary, and how many
    // bytes of the pack.
    named_unborn: bool,
    count: usize,
    read: u64,
}

// The object that is asked about.
fn object_at(objects: &[Oid], at: usize) -> Result<Oid, Trouble> {
    let object = objects.get(at).copied();
    object.ok_or(Trouble::Breaks("a host is asked about no object"))
}

// The request at hand. A host is asked about one.
fn at_hand(server: &HostServer<Global>) -> Result<RequestAtHand<'_, Global>, Trouble> {
    let request = server.request();
    request.ok_or(Trouble::Breaks("a host is asked without a request"))
}

// The fetch at hand.
fn fetch_at_hand(server: &HostServer<Global>) -> Result<&Fetch<Global>, Trouble> {
    match server.request() {
        Some(RequestAtHand::Fetch(request)) => Ok(request),
        _ => Err(Trouble::Breaks("a host is asked without a fetch")),
    }
}

fn copy_of(alloc: Global, entry: &RefEntry) -> Result<RefEntry, AllocError> {
    RefEntry::copied(
        alloc,
        entry.name(),
        entry.id(),
        entry.target(),
        entry.peeled(),
    )
}

impl<R: Repo> RepoReports<R> {
    /// The reports of this repository, before the first request.
    pub fn new(alloc: Global, repo: R) -> RepoReports<R> {
        RepoReports {
            alloc,
            repo,
            named_unborn: false,
            count: 0,
            read: 0,
        }
    }

    fn want(&self, server: &mut HostServer<Global>, at: usize) -> Result<HostReported, Trouble> {
        let object = object_at(at_hand(server)?.arguments().ids(ObjectWord::Want), at)?;
        Ok(server.report(Report::Want(self.repo.has(&object))))
    }

    fn want_ref(
        &self,
        server: &mut HostServer<Global>,
        at: usize,
    ) -> Result<HostReported, Trouble> {
        let request = at_hand(server)?;
        let Some(name) = request.arguments().text(TextWord::WantRef, at) else {
            return Err(Trouble::Breaks("a host is asked about no reference"));
        };
        let found = self.repo.find(name);
        Ok(server.report(Report::WantRef(found)))
    }

    fn have(&self, server: &mut HostServer<Global>, at: usize) -> Result<HostReported, Trouble> {
        let object = object_at(at_hand(server)?.arguments().ids(ObjectWord::Have), at)?;
        Ok(server.report(Report::Have(self.repo.has(&object))))
    }

    fn ready(&self, server: &mut HostServer<Global>) -> Result<HostReported, Trouble> {
        let is_ready = self.repo.is_ready(fetch_at_hand(server)?);
        Ok(server.report(Report::Ready(is_ready)))
    }

    fn size(&self, server: &mut HostServer<Global>, at: usize) -> Result<HostReported, Trouble> {
        let object = object_at(at_hand(server)?.arguments().ids(ObjectWord::ObjectId), at)?;
        Ok(server.report(Report::Size(self.repo.object_size(&object))))
    }

    fn boundary(&mut self, server: &mut HostServer<Global>) -> Result<HostReported, Trouble> {
        let request = fetch_at_hand(server)?;
        if self.count < self.repo.boundaries(request) {
            let line = self.repo.boundary(request, self.count);
            self.count = self.count.saturating_add(1);
            return Ok(server.report(Report::Boundary(line)));
        }
        Ok(server.report(Report::BoundaryEnd))
    }

    fn pack(&mut self, server: &mut HostServer<Global>) -> Result<HostReported, Trouble> {
        let request = fetch_at_hand(server)?;
        let mut part = vec![in self.alloc; 0; LONGEST_PART]?;
        match self.repo.pack_read(request, self.read, &mut part) {
            Ok(0) => Ok(server.report(Report::PackEnd)),
            Ok(count) => {
                self.read = self.read.saturating_add(count as u64);
                let bytes = part.as_slice().get(..count).unwrap_or(&[]);
                Ok(server.report(Report::Pack(bytes)))
            }
            Err(_) => Ok(server.report(Report::Failed)),
        }
    }

    // Reports that `HEAD` is unborn. Returns none if it is not unborn.
    fn unborn(&self, server: &mut HostServer<Global>) -> Result<Option<HostReported>, Trouble> {
        let Some(target) = self.repo.unborn_head() else {
            return Ok(None);
        };
        match RefName::read(target, &mut Steps::new()) {
            Ok(target) => Ok(Some(server.report(Report::Unborn(target)))),
            Err(_) => Err(Trouble::Breaks("an unborn `HEAD` points to no name")),
        }
    }

    fn reference(&mut self, server: &mut HostServer<Global>) -> Result<HostReported, Trouble> {
        if !self.named_unborn {
            self.named_unborn = true;
            if let Some(reported) = self.unborn(server)? {
                return Ok(reported);
            }
        }
        let Some(entry) = self.repo.refs().get(self.count) else {
            return Ok(server.report(Report::ReferencesEnd));
        };
        let copy = copy_of(self.alloc, entry)?;
        self.count = self.count.saturating_add(1);
        Ok(server.report(Report::Reference(copy)))
    }

    fn answer(
        &mut self,
        server: &mut HostServer<Global>,
        need: Need,
    ) -> Result<HostReported, Trouble> {
        match need {
            Need::Want(at) => self.want(server, at),
            Need::WantRef(at) => self.want_ref(server, at),
            Need::Have(at) => self.have(server, at),
            Need::Ready => self.ready(server),
            Need::Boundary => self.boundary(server),
            Need::Pack => self.pack(server),
            Need::Reference => self.reference(server),
            Need::Size(at) => self.size(server, at),
        }
    }
}

impl<R: Repo> Reports for RepoReports<R> {
    fn judge(&mut self, request: &RequestAtHand<'_, Global>) -> Result<Verdict, Trouble> {
        self.named_unborn = false;
        self.count = 0;
        self.read = 0;
        Ok(Verdict::Accepted)
    }

    fn report(
        &mut self,
        server: &mut HostServer<Global>,
        need: Need,
    ) -> Result<HostReported, Trouble> {
        let reported = self.answer(server, need)?;
        match reported {
            HostReported::Packet | HostReported::Taken | HostReported::Hidden => Ok(reported),
            HostReported::OutOfMemory => Err(Trouble::OutOfMemory),
            _ => Err(Trouble::Breaks("the report of a repository is refused")),
        }
    }
}
