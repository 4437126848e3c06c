//! Requests for references, `ls-refs` of gitprotocol-v2(5), as they are kept.
ghost use Rattle.std.specs.Prelude.{◌≡◌, ◌+◌, ◌^◌, ◌≤◌, ◌<◌, length, OnOk, OnSome, OnErr, IfErr, IfSome, [], slice_get};
ghost use Rattle.std.specs.Option.{option_copied};
ghost use Rattle.git_msg.specs.Arguments.{shown, written_text};

use crate::arguments::{Argument, Command};
use crate::flags::Flag;
use crate::kept::KeptArguments;
use crate::limits::Limits;
use crate::memory::Memory;
use crate::parts::Texts;
use crate::words::TextWord;
use git_names::Format;
use git_pkt::Kind;
use std::alloc::Allocator;
use std::marker::Model;

/// A request for references, `ls-refs` of gitprotocol-v2(5).
#[derive(Drop)]
pub struct LsRefs<A: Allocator + Copy> {
    arguments: KeptArguments<A>,
}

impl<A: Allocator + Copy> Model for LsRefs<A> {
    ghost use Rattle.std.specs.Prelude.{List};
    ghost use Rattle.git_msg.specs.Arguments.{Arg};
    ghost use Rattle.git_msg.specs.Kept.{Kept, AreOf};
    ghost use Rattle.git_msg.specs.declared.arguments.Command.{Command};

    ghost Value = { Kept (List Arg) };

    ghost view = { λ q. q.arguments };

    ghost invariant = { λ q. AreOf Command.LsRefs q.arguments.asked };
}

impl<A: Allocator + Copy> LsRefs<A> {
    ghost use Rattle.git_msg.specs.Arguments.{most_text};
    ghost use Rattle.git_msg.specs.Asked.{flag_among, ref_prefixes_in, peel_in, symrefs_in, unborn_in};
    ghost use Rattle.git_msg.specs.Kept.{AreOf, IsNew};
    ghost use Rattle.git_msg.specs.Machine.HeldTexts.{texts_of};
    ghost use Rattle.git_msg.specs.Prefixes.{IsOrdered, OrdersPrefixes};

    /// Whether the request has the flag. It has no flag of another command.
    pub fn has(&self, flag: Flag) -> bool
        ensures { result ≡ flag_among self.now.asked flag }
    {
        self.arguments.has(flag)
    }

    /// Whether symbolic references are to be shown with what they point to.
    pub fn symrefs(&self) -> bool
        ensures { result ≡ symrefs_in self.now.asked }
    {
        self.arguments.has(Flag::Symrefs)
    }

    /// Whether annotated tags are to be shown with what they peel to.
    pub fn peel(&self) -> bool
        ensures { result ≡ peel_in self.now.asked }
    {
        self.arguments.has(Flag::Peel)
    }

    /// Whether to show, too, what `HEAD` points to if that has no commit yet.
    pub fn unborn(&self) -> bool
        ensures { result ≡ unborn_in self.now.asked }
    {
        self.arguments.has(Flag::Unborn)
    }

    /// The prefix at index `i`, in the order of their lines.
    pub fn ref_prefix(&self, i: usize) -> Option<&[u8]>
        ensures value { option_copied result ≡ slice_get (ref_prefixes_in self.now.asked) i }
        ensures bound { OnSome result (i + 1 < 2 ^ 64) }
        ensures fits { IfSome result (λ prefix. length prefix.now ≤ most_text) }
    {
        self.arguments.text(TextWord::RefPrefix, i)
    }

    /// Sorts the prefixes, and drops those that begin with another one: the same names begin with one of the rest.
    pub(crate) fn put_in_order(&mut self)
        ensures ordered { IsOrdered (ref_prefixes_in self.new.asked) }
        ensures same { OrdersPrefixes self.old self.new }
    {
        self.arguments.put_in_order();
    }

    pub(crate) fn new(alloc: A, format: Format, limits: Limits) -> LsRefs<A>
        ensures { IsNew [] format limits.args result }
    {
        LsRefs {
            arguments: KeptArguments::new(alloc, format, limits),
        }
    }

    /// A request that has these arguments.
    pub(crate) fn of(arguments: KeptArguments<A>) -> LsRefs<A>
        requires { AreOf Command.LsRefs arguments.asked }
        ensures { result ≡ arguments }
    {
        LsRefs { arguments }
    }

    /// Its arguments, without the request around them.
    pub(crate) fn into_arguments(self) -> KeptArguments<A>
        ensures { result ≡ self }
    {
        let LsRefs { arguments } = self;
        arguments
    }

    /// Its arguments.
    pub fn arguments(&self) -> &KeptArguments<A>
        ensures value { result.now ≡ self.now }
        ensures own { AreOf Command.LsRefs self.now.asked }
    {
        &self.arguments
    }
}

impl<A: Memory + Copy> LsRefs<A> {
    ghost use Rattle.git_msg.specs.Arguments.{IsValue};
    ghost use Rattle.git_msg.specs.Kept.{IsUnkept, KeepsOne};
    ghost use Rattle.git_msg.specs.Memory.{NeedsRefusal};

    /// Keeps an argument whose line has a text of so many bytes.
    pub(crate) fn keep(&mut self, argument: &Argument<'_>, text_length: usize) -> Result<(), Kind>
        requires value { IsValue Command.LsRefs self.old.format (shown argument.now) }
        requires counted { length (written_text (shown argument.now)) ≤ text_length }
        ensures kept { OnOk result (KeepsOne self.old (shown argument.now) text_length self.new) }
        ensures fits { OnOk result (self.old.kept + text_length ≤ self.old.limit) }
        ensures unchanged { OnErr result (self.new ≡ self.old) }
        ensures refused { IfErr result (IsUnkept self.old (shown argument.now) text_length) }
        ensures memory { IfErr result (NeedsRefusal A.refuses self.old.limit) }
    {
        self.arguments.keep(argument, text_length)
    }
}
