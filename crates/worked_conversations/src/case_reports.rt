//! A host that reports what a case states, one thing after another.

use crate::escapes::append_unescaped;
use crate::hosts::{Reports, Verdict};
use crate::lists::{entry, object};
use crate::script::Reply;
use crate::texts::copied;
use crate::trouble::Trouble;
use git_host::{HostReported, HostServer, Need, Report, RequestAtHand};
use git_msg::{Boundary, ObjectWord, TextWord};
use git_names::{Oid, RefName, Steps};
use hex::ToHex;
use std::alloc::Global;

/// The reports that a case states, in their order.
#[derive(Drop)]
pub struct CaseReports<'a> {
    alloc: Global,
    replies: &'a [Reply],
}

// What is asked about an object: a word, and its name.
fn about_object(alloc: Global, word: &str, objects: &[Oid], at: usize) -> Result<String, Trouble> {
    match objects.get(at) {
        Some(id) => {
            let id = id.encode_hex(alloc)?;
            Ok(format!(in alloc; "{word} {id}")?)
        }
        None => Err(Trouble::Breaks("a host is asked about no object")),
    }
}

// What is asked about a wanted reference.
fn about_reference(alloc: Global, name: Option<&[u8]>) -> Result<String, Trouble> {
    match name {
        Some(name) => {
            let name = String::from_utf8_lossy(alloc, name)?;
            let name = name.as_str();
            Ok(format!(in alloc; "want-ref {name}")?)
        }
        None => Err(Trouble::Breaks("a host is asked about no reference")),
    }
}

// What is asked, as a case writes it.
fn question(alloc: Global, server: &HostServer<Global>, need: Need) -> Result<String, Trouble> {
    let Some(request) = server.request() else {
        return Err(Trouble::Breaks("a host is asked without a request"));
    };
    let arguments = request.arguments();
    match need {
        Need::Want(at) => about_object(alloc, "want", arguments.ids(ObjectWord::Want), at),
        Need::WantRef(at) => about_reference(alloc, arguments.text(TextWord::WantRef, at)),
        Need::Have(at) => about_object(alloc, "have", arguments.ids(ObjectWord::Have), at),
        Need::Size(at) => about_object(alloc, "size", arguments.ids(ObjectWord::ObjectId), at),
        Need::Ready => Ok(String::from_str(alloc, "ready")?),
        Need::Boundary => Ok(String::from_str(alloc, "boundary")?),
        Need::Pack => Ok(String::from_str(alloc, "pack")?),
        Need::Reference => Ok(String::from_str(alloc, "reference")?),
    }
}

fn is_yes(text: &str) -> Result<bool, Trouble> {
    match text {
        "yes" => Ok(true),
        "no" => Ok(false),
        _ => Err(Trouble::BadCase("neither yes nor no")),
    }
}

fn object_or_none(text: &str) -> Result<Option<Oid>, Trouble> {
    match text {
        "none" => Ok(None),
        _ => Ok(Some(object(text)?)),
    }
}

fn size_or_none(text: &str) -> Result<Option<u64>, Trouble> {
    match (text, text.parse::<u64>()) {
        ("none", _) => Ok(None),
        (_, Ok(size)) => Ok(Some(size)),
        _ => Err(Trouble::BadCase("no size")),
    }
}

fn line_of_boundary(text: &str) -> Result<Report<'static>, Trouble> {
    match text.split_once(' ') {
        Some(("shallow", id)) => Ok(Report::Boundary(Boundary::Shallow(object(id)?))),
        Some(("unshallow", id)) => Ok(Report::Boundary(Boundary::Unshallow(object(id)?))),
        _ if text == "end" => Ok(Report::BoundaryEnd),
        _ => Err(Trouble::BadCase("no line of a boundary")),
    }
}

impl<'a> CaseReports<'a> {
    /// These reports, before the first of them was made.
    pub fn new(alloc: Global, replies: &'a [Reply]) -> CaseReports<'a> {
        CaseReports { alloc, replies }
    }

    /// How many reports were not asked for.
    pub fn left(&self) -> usize {
        self.replies.len()
    }

    // Reports bytes of the pack, text of the progress, or the end.
    fn report_pack(
        &self,
        server: &mut HostServer<Global>,
        text: &str,
    ) -> Result<HostReported, Trouble> {
        let mut bytes = Vec::new(self.alloc);
        let (word, rest) = text.split_once(' ').unwrap_or((text, ""));
        append_unescaped(&mut bytes, rest)?;
        match word {
            "bytes" => Ok(server.report(Report::Pack(bytes.as_slice()))),
            "progress" => Ok(server.report(Report::Progress(bytes.as_slice()))),
            "end" => Ok(server.report(Report::PackEnd)),
            _ => Err(Trouble::BadCase("nothing of a pack")),
        }
    }

    // Reports a reference, what an unborn `HEAD` points to, or the end.
    fn report_reference(
        &self,
        server: &mut HostServer<Global>,
        text: &str,
    ) -> Result<HostReported, Trouble> {
        let (first, rest) = text.split_once(' ').unwrap_or((text, ""));
        let (second, others) = rest.split_once(' ').unwrap_or((rest, ""));
        match first {
            "end" => Ok(server.report(Report::ReferencesEnd)),
            "unborn" => match RefName::read(second.as_bytes(), &mut Steps::new()) {
                Ok(target) => Ok(server.report(Report::Unborn(target))),
                Err(_) => Err(Trouble::BadCase("no name of a reference")),
            },
            _ => match entry(self.alloc, second, first, others)? {
                Ok(entry) => Ok(server.report(Report::Reference(entry))),
                Err(_) => Err(Trouble::BadCase("no reference")),
            },
        }
    }

    // Makes the report with this text.
    fn make(
        &self,
        server: &mut HostServer<Global>,
        need: Need,
        text: &str,
    ) -> Result<HostReported, Trouble> {
        if text == "fails" {
            return Ok(server.report(Report::Failed));
        }
        match need {
            Need::Want(_) => Ok(server.report(Report::Want(is_yes(text)?))),
            Need::WantRef(_) => Ok(server.report(Report::WantRef(object_or_none(text)?))),
            Need::Have(_) => Ok(server.report(Report::Have(is_yes(text)?))),
            Need::Ready => Ok(server.report(Report::Ready(is_yes(text)?))),
            Need::Boundary => Ok(server.report(line_of_boundary(text)?)),
            Need::Pack => self.report_pack(server, text),
            Need::Reference => self.report_reference(server, text),
            Need::Size(_) => Ok(server.report(Report::Size(size_or_none(text)?))),
        }
    }

    // Checks the result of a report against the case: it is taken, or it is refused by this name and the packet before it is unchanged.
    fn check(&self, reply: &Reply, reported: HostReported, is_kept: bool) -> Result<(), Trouble> {
        let refused = match reported {
            HostReported::Packet | HostReported::Taken | HostReported::Hidden => None,
            HostReported::OutOfMemory => return Err(Trouble::OutOfMemory),
            _ => Some(format!(in self.alloc; "{reported:?}")?),
        };
        if refused.as_deref() != reply.refused.as_deref() {
            let text = format!(in self.alloc; "{}: {reported:?}", reply.asked.as_str())?;
            return Err(Trouble::Differs(text));
        }
        match is_kept || refused.is_none() {
            true => Ok(()),
            false => Err(Trouble::Breaks("a report that is refused changes a packet")),
        }
    }

    // The next report, which has to be the answer to this question.
    fn next(&mut self, question: &str) -> Result<&'a Reply, Trouble> {
        match self.replies.split_first() {
            Some((reply, rest)) if reply.asked.as_str() == question => {
                self.replies = rest;
                Ok(reply)
            }
            _ => {
                let text = format!(in self.alloc; "{question} is asked")?;
                Err(Trouble::Differs(text))
            }
        }
    }
}

impl<'a> Reports for CaseReports<'a> {
    fn judge(&mut self, request: &RequestAtHand<'_, Global>) -> Result<Verdict, Trouble> {
        let Some((reply, rest)) = self.replies.split_first() else {
            return Ok(Verdict::Accepted);
        };
        if reply.asked.as_str() != request.command().name() {
            return Ok(Verdict::Accepted);
        }
        let Some(text) = reply.reported.as_str().strip_prefix("refuse ") else {
            return Err(Trouble::BadCase("a request that is not refused"));
        };
        self.replies = rest;
        let mut bytes = Vec::new(self.alloc);
        append_unescaped(&mut bytes, text)?;
        Ok(Verdict::Refused(bytes))
    }

    fn report(
        &mut self,
        server: &mut HostServer<Global>,
        need: Need,
    ) -> Result<HostReported, Trouble> {
        let question = question(self.alloc, server, need)?;
        let reply = self.next(question.as_str())?;
        let before = copied(self.alloc, server.packet())?;
        let reported = self.make(server, need, reply.reported.as_str())?;
        let is_kept = before.as_slice() == server.packet();
        self.check(reply, reported, is_kept)?;
        Ok(reported)
    }
}
