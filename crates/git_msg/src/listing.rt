//! Requests for references while they are answered: their prefixes are sorted.
ghost use Rattle.std.specs.Prelude.{◌≡◌, false, slice_get};
ghost use Rattle.std.specs.Option.{option_copied};

use crate::arguments::Command;
use crate::flags::Flag;
use crate::kept::KeptArguments;
use crate::ls_refs::LsRefs;
use crate::words::TextWord;
use std::alloc::Allocator;
use std::marker::Model;

/// A request for references that is being answered. Before its first reference is looked up, its prefixes are sorted: binary
/// search finds them, and none begins another.
#[derive(Drop)]
pub struct Listing<A: Allocator + Copy> {
    request: LsRefs<A>,
    is_ordered: bool,
}

impl<A: Allocator + Copy> Model for Listing<A> {
    ghost use Rattle.std.specs.Prelude.{List};
    ghost use Rattle.git_msg.specs.Arguments.{Arg};
    ghost use Rattle.git_msg.specs.Asked.{ref_prefixes_in};
    ghost use Rattle.git_msg.specs.Kept.{Kept};
    ghost use Rattle.git_msg.specs.Prefixes.{IsOrdered};

    ghost Value = { Kept (List Arg) };

    ghost view = { λ l. l.request };

    ghost use Rattle.std.specs.Prelude.{◌≡◌, true};

    ghost invariant = { λ l. l.is_ordered ≡ true → IsOrdered (ref_prefixes_in l.request.asked) };
}

impl<A: Allocator + Copy> Listing<A> {
    ghost use Rattle.git_msg.specs.Asked.{flag_among, peel_in, ref_prefixes_in, symrefs_in, unborn_in};
    ghost use Rattle.git_msg.specs.Kept.{AreOf};
    ghost use Rattle.git_msg.specs.Prefixes.{IsOrdered, OrdersPrefixes, SplitsAt, is_shown};

    /// Wraps the request, with its prefixes in the order in which they came.
    pub fn new(request: LsRefs<A>) -> Listing<A>
        ensures { result ≡ request }
    {
        Listing {
            request,
            is_ordered: false,
        }
    }

    /// Its arguments.
    pub fn arguments(&self) -> &KeptArguments<A>
        ensures value { result.now ≡ self.now }
        ensures own { AreOf Command.LsRefs self.now.asked }
    {
        self.request.arguments()
    }

    /// Sorts the prefixes in place, and drops those that begin with another one: the same names begin with one of the rest.
    /// A second call does nothing.
    pub fn put_in_order(&mut self)
        ensures ordered { IsOrdered (ref_prefixes_in self.new.asked) }
        ensures same { OrdersPrefixes self.old self.new }
    {
        if self.is_ordered {
            return;
        }
        self.request.put_in_order();
        self.is_ordered = true;
    }

    /// Whether the request has the flag. It has no flag of another command.
    pub fn has(&self, flag: Flag) -> bool
        ensures { result ≡ flag_among self.now.asked flag }
    {
        self.request.has(flag)
    }

    /// Whether symbolic references are to be shown with what they point to.
    pub fn symrefs(&self) -> bool
        ensures { result ≡ symrefs_in self.now.asked }
    {
        self.request.symrefs()
    }

    /// Whether annotated tags are to be shown with what they peel to.
    pub fn peel(&self) -> bool
        ensures { result ≡ peel_in self.now.asked }
    {
        self.request.peel()
    }

    /// Whether to show, too, what `HEAD` points to if that has no commit yet.
    pub fn unborn(&self) -> bool
        ensures { result ≡ unborn_in self.now.asked }
    {
        self.request.unborn()
    }

    /// The prefix at index `i`.
    pub fn ref_prefix(&self, i: usize) -> Option<&[u8]>
        ensures { option_copied result ≡ slice_get (ref_prefixes_in self.now.asked) i }
    {
        self.request.ref_prefix(i)
    }

    /// How many of the prefixes do not come after the name.
    pub fn split(&self, name: &[u8]) -> usize
        requires { IsOrdered (ref_prefixes_in self.now.asked) }
        ensures { SplitsAt (ref_prefixes_in self.now.asked) name.now result }
    {
        self.arguments().texts().split(TextWord::RefPrefix, name)
    }

    /// Whether a name is shown, if this many of the prefixes do not come after it.
    pub fn shows_at(&self, split: usize, name: &[u8]) -> bool
        requires ordered { IsOrdered (ref_prefixes_in self.now.asked) }
        requires split { SplitsAt (ref_prefixes_in self.now.asked) name.now split }
        ensures { result ≡ is_shown (ref_prefixes_in self.now.asked) name.now }
    {
        self.arguments()
            .texts()
            .shows_at(TextWord::RefPrefix, split, name)
    }
}
