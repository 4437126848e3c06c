//! Lists that make a repository or do not, as lines.

use crate::texts::copied;
use crate::trouble::Trouble;
use git_msg::Boundary;
use git_names::{Format, Oid};
use git_server::{ListRepo, Pack, RefEntry};
use hex::FromHex;
use std::alloc::Global;

/// The lists so far.
#[derive(Drop)]
struct Lists {
    refs: Vec<RefEntry>,
    objects: Vec<(Oid, u64)>,
    boundaries: Vec<Boundary>,
    // The name that `HEAD` points to if it is unborn.
    unborn: Option<Vec<u8>>,
}

/// The object name with this text, in the format that has its length.
pub fn object(text: &str) -> Result<Oid, Trouble> {
    Oid::from_hex(text).map_err(|_| Trouble::BadCase("no object name"))
}

/// The reference of the words after `ref`, or the error of its names.
pub fn entry(
    alloc: Global,
    name: &str,
    id: &str,
    rest: &str,
) -> Result<Result<RefEntry, String>, Trouble> {
    let mut target = None;
    let mut peeled = None;
    for word in rest.split(' ') {
        if let Some(name) = word.strip_prefix("symref-target:") {
            target = Some(copied(alloc, name.as_bytes())?);
        }
        if let Some(id) = word.strip_prefix("peeled:") {
            peeled = Some(object(id)?);
        }
    }
    let name = copied(alloc, name.as_bytes())?;
    match RefEntry::new(name, object(id)?, target, peeled) {
        Ok(entry) => Ok(Ok(entry)),
        Err(fault) => Ok(Err(format!(in alloc; "{fault}")?)),
    }
}

impl Lists {
    // Adds what a line states. Returns the error, if it is refused.
    fn add(&mut self, alloc: Global, line: &str) -> Result<Option<String>, Trouble> {
        let (kind, words) = line.split_once(' ').unwrap_or((line, ""));
        let (first, rest) = words.split_once(' ').unwrap_or((words, ""));
        let (second, others) = rest.split_once(' ').unwrap_or((rest, ""));
        let added = match kind {
            "ref" => match entry(alloc, first, second, others)? {
                Ok(entry) => self.refs.push(entry).is_ok(),
                Err(fault) => return Ok(Some(fault)),
            },
            "object" => self.objects.push((object(first)?, 12)).is_ok(),
            "shallow" => self
                .boundaries
                .push(Boundary::Shallow(object(first)?))
                .is_ok(),
            "unshallow" => self
                .boundaries
                .push(Boundary::Unshallow(object(first)?))
                .is_ok(),
            "unborn" => {
                self.unborn = Some(copied(alloc, first.as_bytes())?);
                true
            }
            _ => return Err(Trouble::BadCase("a line of no list")),
        };
        match added {
            true => Ok(None),
            false => Err(Trouble::OutOfMemory),
        }
    }
}

/// The result of the lists in a text, one entry per line: `taken`, or the error.
pub fn made(alloc: Global, format: Format, text: &str) -> Result<String, Trouble> {
    let mut lists = Lists {
        refs: Vec::new(alloc),
        objects: Vec::new(alloc),
        boundaries: Vec::new(alloc),
        unborn: None,
    };
    for line in text.lines() {
        if let Some(fault) = lists.add(alloc, line)? {
            return Ok(fault);
        }
    }
    let Lists {
        refs,
        objects,
        boundaries,
        unborn,
    } = lists;
    let pack = Pack::Owned(Vec::new(alloc));
    match ListRepo::new(format, refs, objects, None, boundaries, pack, unborn, None) {
        Ok(_) => Ok(String::from_str(alloc, "taken")?),
        Err(fault) => Ok(format!(in alloc; "{fault}")?),
    }
}
