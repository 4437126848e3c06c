//! What a case asks of a client: requests, each made from the texts of its arguments.

use crate::asking::{argument_of, written};
use crate::setup::{MOST_KEPT, limits, offer};
use crate::trouble::Trouble;
use git_msg::{Caps, Command, Offer, Request};
use git_names::Format;
use std::alloc::Global;

/// A request that is to be made.
#[derive(Drop)]
pub struct Wording {
    pub command: Command,
    format: Format,
    /// The texts of its arguments, in the order in which they are added.
    pub arguments: Vec<Vec<u8>>,
}

impl Wording {
    /// A request without arguments, by its words: the command's name, and the format if it is not SHA-1.
    pub fn new(alloc: Global, words: &str) -> Result<Wording, Trouble> {
        let (name, format) = words.split_once(' ').unwrap_or((words, "sha1"));
        let command = match name {
            "ls-refs" => Command::LsRefs,
            "fetch" => Command::Fetch,
            "object-info" => Command::ObjectInfo,
            _ => return Err(Trouble::BadCase("no command to ask")),
        };
        let Some(format) = Format::read(format.as_bytes()) else {
            return Err(Trouble::BadCase("no format to ask in"));
        };
        Ok(Wording {
            command,
            format,
            arguments: Vec::new(alloc),
        })
    }

    // Adds the argument with this text.
    fn add(
        &self,
        request: &mut Request<Global>,
        offer: &Offer,
        text: &[u8],
    ) -> Result<(), Trouble> {
        let Ok(argument) = argument_of(self.command, offer, text) else {
            return Err(Trouble::BadCase("no argument"));
        };
        match request.add(&argument) {
            Ok(()) => Ok(()),
            Err(_) => Err(Trouble::BadCase("an argument that is not added")),
        }
    }

    /// The request, whose arguments are read as by a server that advertises all of them.
    pub fn request(&self, alloc: Global) -> Result<Request<Global>, Trouble> {
        let offer = offer(self.format, true);
        let mut request = Request::new(alloc, self.command, self.format, limits(MOST_KEPT));
        for text in self.arguments.as_slice() {
            self.add(&mut request, &offer, text.as_slice())?;
        }
        Ok(request)
    }
}

/// The whole request, as it is written.
pub fn shown(alloc: Global, request: &Request<Global>) -> Result<Vec<u8>, Trouble> {
    let caps = Caps {
        agent: true,
        object_format: true,
        ..Caps::new()
    };
    written(alloc, request, &caps)
}
