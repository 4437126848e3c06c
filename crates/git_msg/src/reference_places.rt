//! The places of a reference line's parts in its text.
ghost use Rattle.std.specs.Prelude.{◌≡◌, ◌+◌, ◌≤◌, ℕ, List, [], None, length};
ghost use Rattle.git_msg.specs.References.{FitsIn, part_of, reference_at, reference_of, shown_reference};

use crate::references::{Reference, id_text_length};
use git_names::Oid;

/// A part of a text.
#[derive(Clone, Copy, Debug)]
pub(crate) struct Part {
    pub(crate) start: usize,
    pub(crate) length: usize,
}

impl Part {
    fn of<'a>(&self, text: &'a [u8]) -> &'a [u8]
        requires { self.now.start + self.now.length ≤ length text.now }
        ensures { result.now ≡ part_of text.now self.now }
    {
        &text[self.start..self.start + self.length]
    }
}

/// The objects that a reference line contains, and the places of the names in its text: a reference that borrows nothing.
#[derive(Clone, Copy, Debug)]
pub struct ReferencePlaces {
    /// The object that the reference points to; none if it is unborn.
    pub id: Option<Oid>,
    // The name begins after the word for the object and one space.
    pub(crate) name_length: usize,
    pub(crate) target: Option<Part>,
    /// For an annotated tag, the object that it peels to, if given.
    pub peeled: Option<Oid>,
}

impl ReferencePlaces {
    /// The places before a line was read.
    pub fn new() -> Self
        ensures empty { (text : List ℕ) → reference_at result text ≡ reference_of None [] None None }
    {
        ReferencePlaces {
            id: None,
            name_length: 0,
            target: None,
            peeled: None,
        }
    }

    /// The reference of the line that has these places. The line's text has to be passed again.
    pub fn reference<'a>(&self, text: &'a [u8]) -> Reference<'a>
        requires { FitsIn self.now (length text.now) }
        ensures { shown_reference result ≡ reference_at self.now text.now }
    {
        let start = id_text_length(&self.id) + 1;
        let target = match self.target {
            Some(part) => Some(part.of(text)),
            None => None,
        };
        Reference {
            id: self.id,
            name: &text[start..start + self.name_length],
            target,
            peeled: self.peeled,
        }
    }
}
