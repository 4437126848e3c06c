//! The arguments of a request as they are kept, within a limit on the bytes of their lines.
ghost use Rattle.std.specs.Prelude.{◌≡◌, ◌+◌, ◌^◌, ◌≤◌, ◌<◌, length, MatchBool, MatchResult, OnOk, OnSome, OnErr, IfErr, IfSome, [], slice_get};
ghost use Rattle.std.specs.Option.{option_copied, option_map};
ghost use Rattle.git_msg.specs.Arguments.{IsInRange, MayHave, shown, with_text, written_text};
ghost use Rattle.git_msg.specs.WrittenRequest.{FitsLine};
ghost use Rattle.git_msg.specs.declared.arguments.Command.{Command};
ghost use Rattle.git_msg.specs.declared.words.TextWord.{TextWord};
ghost use Rattle.git_msg.specs.Asked.{number as number_after};

use crate::arguments::{Argument, Command};
use crate::flags::Flag;
use crate::limits::{Budget, Limits};
use crate::lists::ArgumentLists;
use crate::memory::Memory;
use crate::parts::Texts;
use crate::words::{NumberWord, ObjectWord, TextWord};
use git_names::{Format, Oid};
use git_pkt::Kind;
use std::alloc::Allocator;
use std::marker::Model;

/// What is kept of a request of any command: its arguments, each at most as often as they count.
pub struct KeptArguments<A: Allocator + Copy> {
    format: Format,
    budget: Budget,
    lists: ArgumentLists<A>,
}

// By a call: a derived drop is written out, and proved, wherever a value goes out of scope.
impl<A: Allocator + Copy> Drop for KeptArguments<A> {
    fn drop(self) {
        let KeptArguments {
            format: _format,
            budget: _budget,
            lists: _lists,
        } = self;
    }
}

impl<A: Allocator + Copy> Model for KeptArguments<A> {
    ghost use Rattle.std.specs.Prelude.{List};
    ghost use Rattle.git_msg.specs.Arguments.{Arg};
    ghost use Rattle.git_msg.specs.Kept.{Kept, IsSound};

    ghost Value = { Kept (List Arg) };

    ghost use Rattle.git_msg.specs.Machine.ArgumentLists.{held, stored};

    ghost view = { λ q. record { format = q.format; asked = held q.lists; kept = q.budget.kept; limit = q.budget.limit; stored = stored q.lists } };

    ghost invariant = { λ q. IsSound (record {
      format = q.format;
      asked = held q.lists;
      kept = q.budget.kept;
      limit = q.budget.limit;
      stored = stored q.lists;
    }) };
}

impl<A: Allocator + Copy> KeptArguments<A> {
    ghost use Rattle.git_msg.specs.Asked.{HasWants, asked_for, flag_among, has_deepen_conflict, ids, ref_prefixes_in, texts};
    ghost use Rattle.git_msg.specs.Checks.{Passes, Refuses};
    ghost use Rattle.git_msg.specs.Lines.{end_checks};
    ghost use Rattle.git_msg.specs.Kept.{AreOf, IsNew, IsOptionsOf, IsSound};
    ghost use Rattle.git_msg.specs.Machine.HeldTexts.{texts_of};
    ghost use Rattle.git_msg.specs.Prefixes.{IsOrdered, OrdersPrefixes};

    pub(crate) fn new(alloc: A, format: Format, limits: Limits) -> KeptArguments<A>
        ensures { IsNew [] format limits.args result }
    {
        KeptArguments {
            format,
            budget: Budget::new(limits),
            lists: ArgumentLists::new(alloc),
        }
    }

    /// The server options alone. As many bytes are counted as before.
    pub(crate) fn options_alone(self, alloc: A) -> KeptArguments<A>
        ensures options { IsOptionsOf self result }
        ensures own { (command : Command) → AreOf command result.asked }
    {
        let KeptArguments {
            format,
            budget,
            lists,
        } = self;
        KeptArguments {
            format,
            budget,
            lists: lists.options_alone(alloc),
        }
    }

    pub(crate) fn format(&self) -> Format
        ensures { result ≡ self.now.format }
    {
        self.format
    }

    pub(crate) fn limits(&self) -> Limits
        ensures { result.args ≡ self.now.limit }
    {
        self.budget.limits()
    }

    pub(crate) fn kept(&self) -> u32
        ensures value { result ≡ self.now.kept }
        ensures sound { IsSound self.now }
    {
        self.budget.kept()
    }

    /// Whether the flag is among the arguments.
    pub fn has(&self, flag: Flag) -> bool
        ensures { result ≡ flag_among self.now.asked flag }
    {
        self.lists.has(flag)
    }

    /// The object names after the word, in the order of their lines.
    pub fn ids(&self, word: ObjectWord) -> &[Oid]
        ensures { result.now ≡ ids word self.now.asked }
    {
        self.lists.ids(word)
    }

    /// The text at index `i` of those after the word, in the order of their lines.
    pub fn text(&self, word: TextWord, i: usize) -> Option<&[u8]>
        ensures value { option_copied result ≡ slice_get (texts word self.now.asked) i }
        ensures bound { OnSome result (i + 1 < 2 ^ 64) }
        ensures range { IfSome result (λ text. IsInRange self.now.format (with_text word text.now)) }
    {
        self.lists.texts().get(word, i)
    }

    /// The number after the word, if there is one; of several, the last.
    pub fn number(&self, word: NumberWord) -> Option<u64>
        ensures { result ≡ number_after word self.now.asked }
    {
        self.lists.number(word)
    }

    /// Judges a request of the command with these arguments, at its end.
    pub(crate) fn check_end(&self, command: Command) -> Result<(), Kind>
        ensures { MatchResult result (λ _. Passes (end_checks (asked_for command self.now.asked)))
            (Refuses (end_checks (asked_for command self.now.asked))) }
    {
        match command {
            Command::LsRefs => Ok(()),
            Command::Fetch => {
                if self.has_deepen_conflict() {
                    return Err(Kind::DeepenConflict);
                }
                if !self.has_wants() {
                    return Err(Kind::NoWants);
                }
                Ok(())
            }
            Command::ObjectInfo => {
                if !self.has(Flag::Size) {
                    return Err(Kind::NoSize);
                }
                Ok(())
            }
        }
    }

    // Whether a fetch wants an object or a reference, or negotiates alone.
    fn has_wants(&self) -> bool
        ensures { MatchBool result (HasWants self.now.asked) (¬ HasWants self.now.asked) }
    {
        !self.ids(ObjectWord::Want).is_empty()
            || self.text(TextWord::WantRef, 0).is_some()
            || (self.has(Flag::WaitForDone) && !self.has(Flag::Done))
    }

    // Whether a fetch cuts the history off both by a depth and by something else, which exclude each other.
    fn has_deepen_conflict(&self) -> bool
        ensures { result ≡ has_deepen_conflict self.now.asked }
    {
        self.number(NumberWord::Deepen).is_some()
            && (self.number(NumberWord::DeepenSince).is_some()
                || self.text(TextWord::DeepenNot, 0).is_some())
    }

    /// The texts after each word, in the order of their lines.
    pub(crate) fn texts(&self) -> &Texts<A>
        ensures { (word : TextWord) → texts_of result.now word ≡ texts word self.now.asked }
    {
        self.lists.texts()
    }

    /// The argument at index `i`, in the order in which they are written.
    pub(crate) fn argument(&self, i: usize) -> Option<Argument<'_>>
        ensures value { option_map shown result ≡ slice_get self.now.asked i }
        ensures bound { OnSome result (i + 1 < 2 ^ 64) }
        ensures fits { IfSome result (λ argument. FitsLine (shown argument)) }
    {
        self.lists.argument(i)
    }

    /// Sorts the prefixes, and drops those that begin with another one: the same names begin with one of the rest.
    pub(crate) fn put_in_order(&mut self)
        ensures ordered { IsOrdered (ref_prefixes_in self.new.asked) }
        ensures same { OrdersPrefixes self.old self.new }
        ensures own { (command : Command) → AreOf command self.old.asked → AreOf command self.new.asked }
    {
        self.lists.put_in_order();
    }
}

impl<A: Memory + Copy> KeptArguments<A> {
    ghost use Rattle.git_msg.specs.Kept.{AreOf, IsUnkept, KeepsOne};
    ghost use Rattle.git_msg.specs.Memory.{NeedsRefusal};

    /// Keeps an argument whose line has a text of so many bytes.
    pub(crate) fn keep(&mut self, argument: &Argument<'_>, text_length: usize) -> Result<(), Kind>
        requires value { IsInRange self.old.format (shown argument.now) }
        requires counted { length (written_text (shown argument.now)) ≤ text_length }
        ensures kept { OnOk result (KeepsOne self.old (shown argument.now) text_length self.new) }
        ensures own { (command : Command) → MayHave command (shown argument.now) → AreOf command self.old.asked → AreOf command self.new.asked }
        ensures fits { OnOk result (self.old.kept + text_length ≤ self.old.limit) }
        ensures unchanged { OnErr result (self.new ≡ self.old) }
        ensures refused { IfErr result (IsUnkept self.old (shown argument.now) text_length) }
        ensures memory { IfErr result (NeedsRefusal A.refuses self.old.limit) }
    {
        let mut budget = self.budget;
        budget.charge(text_length)?;
        self.lists.push(argument)?;
        self.budget = budget;
        Ok(())
    }
}
