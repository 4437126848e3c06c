//! Requests for objects, `fetch` of gitprotocol-v2(5), as they are kept.
ghost use Rattle.std.specs.Prelude.{◌≡◌, ◌+◌, ◌≤◌, ◌^◌, ◌<◌, length, OnOk, OnErr, IfErr, IfSome, [], slice_get, OnSome};
ghost use Rattle.std.specs.Option.{option_copied};
ghost use Rattle.git_names.specs.RefName.{IsRefName};
ghost use Rattle.git_msg.specs.Arguments.{shown, written_text};
ghost use Rattle.git_msg.specs.declared.flags.Flag.{Flag};

use crate::arguments::{Argument, Command};
use crate::flags::Flag;
use crate::kept::KeptArguments;
use crate::limits::Limits;
use crate::memory::Memory;
use crate::words::{NumberWord, ObjectWord, TextWord};
use git_names::{Format, Oid};
use git_pkt::Kind;
use std::alloc::Allocator;
use std::marker::Model;

/// A request for objects, `fetch` of gitprotocol-v2(5).
#[derive(Drop)]
pub struct Fetch<A: Allocator + Copy> {
    arguments: KeptArguments<A>,
}

impl<A: Allocator + Copy> Model for Fetch<A> {
    ghost use Rattle.std.specs.Prelude.{List};
    ghost use Rattle.git_msg.specs.Arguments.{Arg};
    ghost use Rattle.git_msg.specs.Kept.{Kept, AreOf};
    ghost use Rattle.git_msg.specs.declared.arguments.Command.{Command};

    ghost Value = { Kept (List Arg) };

    ghost view = { λ q. q.arguments };

    ghost invariant = { λ q. AreOf Command.Fetch q.arguments.asked };
}

impl<A: Allocator + Copy> Fetch<A> {
    ghost use Rattle.git_msg.specs.Asked.{flag_among, wants_in, haves_in, shallows_in, filters_in, done_in};
    ghost use Rattle.git_msg.specs.Asked.{deepen_in, deepen_since_in, deepen_nots_in, want_refs_in};
    ghost use Rattle.git_msg.specs.Kept.{AreOf, IsNew};

    /// The objects that the client wants to retrieve, in the order of their lines.
    pub fn wants(&self) -> &[Oid]
        ensures { result.now ≡ wants_in self.now.asked }
    {
        self.arguments.ids(ObjectWord::Want)
    }

    /// The objects that the client has, in the order of their lines.
    pub fn haves(&self) -> &[Oid]
        ensures { result.now ≡ haves_in self.now.asked }
    {
        self.arguments.ids(ObjectWord::Have)
    }

    /// Whether the request has the flag. It has no flag of another command.
    pub fn has(&self, flag: Flag) -> bool
        ensures { result ≡ flag_among self.now.asked flag }
    {
        self.arguments.has(flag)
    }

    /// Whether negotiation is over, or does not even begin: the pack is to be made from what the request contains.
    pub fn done(&self) -> bool
        ensures { result ≡ done_in self.now.asked }
    {
        self.arguments.has(Flag::Done)
    }

    /// Whether the server may send a thin pack, which has deltas against objects that are not in it.
    pub fn thin_pack(&self) -> bool
        ensures { result ≡ flag_among self.now.asked Flag.ThinPack }
    {
        self.arguments.has(Flag::ThinPack)
    }

    /// Whether the server is to send no progress beside the pack.
    pub fn no_progress(&self) -> bool
        ensures { result ≡ flag_among self.now.asked Flag.NoProgress }
    {
        self.arguments.has(Flag::NoProgress)
    }

    /// Whether the server is to send annotated tags with the objects that they point to.
    pub fn include_tag(&self) -> bool
        ensures { result ≡ flag_among self.now.asked Flag.IncludeTag }
    {
        self.arguments.has(Flag::IncludeTag)
    }

    /// Whether the client can read deltas that name their base by its place in the pack.
    pub fn ofs_delta(&self) -> bool
        ensures { result ≡ flag_among self.now.asked Flag.OfsDelta }
    {
        self.arguments.has(Flag::OfsDelta)
    }

    /// The commits that the client has without their parents, in the order of their lines.
    pub fn shallows(&self) -> &[Oid]
        ensures { result.now ≡ shallows_in self.now.asked }
    {
        self.arguments.ids(ObjectWord::Shallow)
    }

    /// The depth at which the history is to be cut off, if there is one; of several, the last.
    pub fn deepen(&self) -> Option<u64>
        ensures { result ≡ deepen_in self.now.asked }
    {
        self.arguments.number(NumberWord::Deepen)
    }

    /// Whether that depth counts from where the client's history is cut off now.
    pub fn deepen_relative(&self) -> bool
        ensures { result ≡ flag_among self.now.asked Flag.DeepenRelative }
    {
        self.arguments.has(Flag::DeepenRelative)
    }

    /// The time at which the history is to be cut off, in seconds since 1970, if there is one; of several, the last.
    pub fn deepen_since(&self) -> Option<u64>
        ensures { result ≡ deepen_since_in self.now.asked }
    {
        self.arguments.number(NumberWord::DeepenSince)
    }

    /// The revision of the `deepen-not` line at index `i`, whose history is to be left out.
    pub fn deepen_not(&self, i: usize) -> Option<&[u8]>
        ensures { option_copied result ≡ slice_get (deepen_nots_in self.now.asked) i }
    {
        self.arguments.text(TextWord::DeepenNot, i)
    }

    /// The name of the reference of the `want-ref` line at index `i`, whose object is wanted.
    pub fn want_ref(&self, i: usize) -> Option<&[u8]>
        ensures value { option_copied result ≡ slice_get (want_refs_in self.now.asked) i }
        ensures name { IfSome result (λ name. IsRefName name.now) }
        ensures bound { OnSome result (i + 1 < 2 ^ 64) }
    {
        self.arguments.text(TextWord::WantRef, i)
    }

    /// Whether the server is to send no pack before the request contains `done`.
    pub fn wait_for_done(&self) -> bool
        ensures { result ≡ flag_among self.now.asked Flag.WaitForDone }
    {
        self.arguments.has(Flag::WaitForDone)
    }

    /// The filter-spec of the `filter` line at index `i`, as it came: it states which objects are to be left out.
    pub fn filter(&self, i: usize) -> Option<&[u8]>
        ensures { option_copied result ≡ slice_get (filters_in self.now.asked) i }
    {
        self.arguments.text(TextWord::Filter, i)
    }

    pub(crate) fn new(alloc: A, format: Format, limits: Limits) -> Fetch<A>
        ensures { IsNew [] format limits.args result }
    {
        Fetch {
            arguments: KeptArguments::new(alloc, format, limits),
        }
    }

    /// A request that has these arguments.
    pub(crate) fn of(arguments: KeptArguments<A>) -> Fetch<A>
        requires { AreOf Command.Fetch arguments.asked }
        ensures { result ≡ arguments }
    {
        Fetch { arguments }
    }

    /// Its arguments, without the request around them.
    pub(crate) fn into_arguments(self) -> KeptArguments<A>
        ensures { result ≡ self }
    {
        let Fetch { arguments } = self;
        arguments
    }

    /// Its arguments.
    pub fn arguments(&self) -> &KeptArguments<A>
        ensures value { result.now ≡ self.now }
        ensures own { AreOf Command.Fetch self.now.asked }
    {
        &self.arguments
    }
}

impl<A: Memory + Copy> Fetch<A> {
    ghost use Rattle.git_msg.specs.Arguments.{IsValue};
    ghost use Rattle.git_msg.specs.Kept.{IsUnkept, KeepsOne};
    ghost use Rattle.git_msg.specs.Memory.{NeedsRefusal};

    /// Keeps an argument whose line has a text of so many bytes.
    pub(crate) fn keep(&mut self, argument: &Argument<'_>, text_length: usize) -> Result<(), Kind>
        requires value { IsValue Command.Fetch self.old.format (shown argument.now) }
        requires counted { length (written_text (shown argument.now)) ≤ text_length }
        ensures kept { OnOk result (KeepsOne self.old (shown argument.now) text_length self.new) }
        ensures fits { OnOk result (self.old.kept + text_length ≤ self.old.limit) }
        ensures unchanged { OnErr result (self.new ≡ self.old) }
        ensures refused { IfErr result (IsUnkept self.old (shown argument.now) text_length) }
        ensures memory { IfErr result (NeedsRefusal A.refuses self.old.limit) }
    {
        self.arguments.keep(argument, text_length)
    }
}
