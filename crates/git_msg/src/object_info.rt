//! Requests for facts about objects, `object-info` of gitprotocol-v2(5), as they are kept.
ghost use Rattle.std.specs.Prelude.{◌≡◌, ◌+◌, ◌≤◌, length, [], OnOk, OnErr, IfErr};
ghost use Rattle.git_msg.specs.Arguments.{shown, written_text};

use crate::arguments::{Argument, Command};
use crate::flags::Flag;
use crate::kept::KeptArguments;
use crate::limits::Limits;
use crate::memory::Memory;
use crate::words::ObjectWord;
use git_names::{Format, Oid};
use git_pkt::Kind;
use std::alloc::Allocator;
use std::marker::Model;

/// A request for facts about objects, `object-info` of gitprotocol-v2(5).
#[derive(Drop)]
pub struct ObjectInfo<A: Allocator + Copy> {
    arguments: KeptArguments<A>,
}

impl<A: Allocator + Copy> Model for ObjectInfo<A> {
    ghost use Rattle.std.specs.Prelude.{List};
    ghost use Rattle.git_msg.specs.Arguments.{Arg};
    ghost use Rattle.git_msg.specs.Kept.{Kept, AreOf};
    ghost use Rattle.git_msg.specs.declared.arguments.Command.{Command};

    ghost Value = { Kept (List Arg) };

    ghost view = { λ q. q.arguments };

    ghost invariant = { λ q. AreOf Command.ObjectInfo q.arguments.asked };
}

impl<A: Allocator + Copy> ObjectInfo<A> {
    ghost use Rattle.git_msg.specs.Asked.{flag_among, oids_in};
    ghost use Rattle.git_msg.specs.Kept.{AreOf, IsNew};

    /// Whether the request has the flag. It has no flag of another command.
    pub fn has(&self, flag: Flag) -> bool
        ensures { result ≡ flag_among self.now.asked flag }
    {
        self.arguments.has(flag)
    }

    /// Whether the request asks for the sizes of the objects.
    pub fn size(&self) -> bool
        ensures { result ≡ flag_among self.now.asked Flag.Size }
    {
        self.arguments.has(Flag::Size)
    }

    /// The objects that the request asks about, in the order of their lines.
    pub fn oids(&self) -> &[Oid]
        ensures { result.now ≡ oids_in self.now.asked }
    {
        self.arguments.ids(ObjectWord::ObjectId)
    }

    pub(crate) fn new(alloc: A, format: Format, limits: Limits) -> ObjectInfo<A>
        ensures { IsNew [] format limits.args result }
    {
        ObjectInfo {
            arguments: KeptArguments::new(alloc, format, limits),
        }
    }

    /// A request that has these arguments.
    pub(crate) fn of(arguments: KeptArguments<A>) -> ObjectInfo<A>
        requires { AreOf Command.ObjectInfo arguments.asked }
        ensures { result ≡ arguments }
    {
        ObjectInfo { arguments }
    }

    /// Its arguments, without the request around them.
    pub(crate) fn into_arguments(self) -> KeptArguments<A>
        ensures { result ≡ self }
    {
        let ObjectInfo { arguments } = self;
        arguments
    }

    /// Its arguments.
    pub fn arguments(&self) -> &KeptArguments<A>
        ensures value { result.now ≡ self.now }
        ensures own { AreOf Command.ObjectInfo self.now.asked }
    {
        &self.arguments
    }
}

impl<A: Memory + Copy> ObjectInfo<A> {
    ghost use Rattle.git_msg.specs.Arguments.{IsValue};
    ghost use Rattle.git_msg.specs.Kept.{IsUnkept, KeepsOne};
    ghost use Rattle.git_msg.specs.Memory.{NeedsRefusal};

    /// Keeps an argument whose line has a text of so many bytes.
    pub(crate) fn keep(&mut self, argument: &Argument<'_>, text_length: usize) -> Result<(), Kind>
        requires value { IsValue Command.ObjectInfo self.old.format (shown argument.now) }
        requires counted { length (written_text (shown argument.now)) ≤ text_length }
        ensures kept { OnOk result (KeepsOne self.old (shown argument.now) text_length self.new) }
        ensures fits { OnOk result (self.old.kept + text_length ≤ self.old.limit) }
        ensures unchanged { OnErr result (self.new ≡ self.old) }
        ensures refused { IfErr result (IsUnkept self.old (shown argument.now) text_length) }
        ensures memory { IfErr result (NeedsRefusal A.refuses self.old.limit) }
    {
        self.arguments.keep(argument, text_length)
    }
}
