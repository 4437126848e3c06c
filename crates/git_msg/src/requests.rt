//! Requests as they are kept.
ghost use Rattle.std.specs.Prelude.{◌≡◌, ◌+◌, ◌^◌, ◌≤◌, ◌<◌, decimal, length, OnOk, OnSome, OnErr, IfErr, IfSome, MatchResult, slice_get};
ghost use Rattle.std.specs.Option.{option_map};
ghost use Rattle.git_msg.specs.WrittenRequest.{FitsLine};
ghost use Rattle.git_msg.specs.Arguments.{shown, written_text};

use crate::arguments::{Argument, Command, check_value, word_at};
use crate::fetch::Fetch;
use crate::kept::KeptArguments;
use crate::limits::Limits;
use crate::ls_refs::LsRefs;
use crate::memory::Memory;
use crate::numbers::decimal_length;
use crate::object_info::ObjectInfo;
use crate::offers::Offer;
use git_names::Format;
use git_pkt::Kind;
use std::alloc::Allocator;

/// A request of gitprotocol-v2(5), as it is kept: its arguments by kind.
#[derive(Drop)]
pub enum Request<A: Allocator + Copy> {
    /// A request for references.
    LsRefs(LsRefs<A>),
    /// A request for objects.
    Fetch(Fetch<A>),
    /// A request for facts about objects.
    ObjectInfo(ObjectInfo<A>),
}

impl<A: Allocator + Copy> Request<A> {
    ghost use Rattle.git_msg.specs.Asked.{AreOffered, HasValues, arguments_in, asked_for, of_word, written_bytes};
    ghost use Rattle.git_msg.specs.Checks.{Passes, Refuses};
    ghost use Rattle.git_msg.specs.Lines.{end_checks};
    ghost use Rattle.git_msg.specs.Kept.{AreOf};
    ghost use Rattle.git_msg.specs.Machine.HeldRequest.{IsEmpty, asked_of, command_of, format_of, kept_of, limit_of, stored_of};
    ghost use Rattle.git_msg.specs.declared.words.TextWord.{TextWord};
    ghost use Rattle.git_msg.specs.declared.words.Word.{Word};

    /// A request without arguments. Later calls take memory from `alloc`, but only to keep an argument with a text or an
    /// object name.
    pub fn new(alloc: A, command: Command, format: Format, limits: Limits) -> Request<A>
        ensures { IsEmpty command format limits.args result }
    {
        match command {
            Command::LsRefs => Request::LsRefs(LsRefs::new(alloc, format, limits)),
            Command::Fetch => Request::Fetch(Fetch::new(alloc, format, limits)),
            Command::ObjectInfo => Request::ObjectInfo(ObjectInfo::new(alloc, format, limits)),
        }
    }

    /// A request of the command with its server options alone. As many bytes are counted as before.
    pub(crate) fn for_command(self, alloc: A, command: Command) -> Request<A>
        ensures asked { asked_of result ≡ asked_for command (of_word (Word.Text TextWord.ServerOption) (arguments_in (asked_of self))) }
        ensures kept { kept_of result ≡ kept_of self }
        ensures format { format_of result ≡ format_of self }
        ensures limit { limit_of result ≡ limit_of self }
    {
        let arguments = match self {
            Request::LsRefs(request) => request.into_arguments(),
            Request::Fetch(request) => request.into_arguments(),
            Request::ObjectInfo(request) => request.into_arguments(),
        };
        let options = arguments.options_alone(alloc);
        match command {
            Command::LsRefs => Request::LsRefs(LsRefs::of(options)),
            Command::Fetch => Request::Fetch(Fetch::of(options)),
            Command::ObjectInfo => Request::ObjectInfo(ObjectInfo::of(options)),
        }
    }

    /// Its arguments, whatever its command.
    pub fn arguments(&self) -> &KeptArguments<A>
        ensures format { format_of self.now ≡ result.now.format }
        ensures asked { arguments_in (asked_of self.now) ≡ result.now.asked }
        ensures kept { kept_of self.now ≡ result.now.kept }
        ensures limit { limit_of self.now ≡ result.now.limit }
        ensures stored { stored_of self.now ≡ result.now.stored }
        ensures own { AreOf (command_of self.now) result.now.asked }
    {
        match self {
            Request::LsRefs(request) => request.arguments(),
            Request::Fetch(request) => request.arguments(),
            Request::ObjectInfo(request) => request.arguments(),
        }
    }

    /// Judges the whole request, at its end: `DeepenConflict` for a fetch that cuts the history off by a depth and also by a
    /// time or a revision, and then `NoWants` for one that wants nothing, unless it negotiates alone; `NoSize` for an
    /// object-info that does not ask for sizes.
    pub fn check_end(&self) -> Result<(), Kind>
        ensures { MatchResult result (λ _. Passes (end_checks (asked_of self.now))) (Refuses (end_checks (asked_of self.now))) }
    {
        self.arguments().check_end(self.command())
    }

    /// Judges whether the features that the arguments need were advertised: `NotAdvertised` if one was not.
    pub fn check_features(&self, offer: &Offer) -> Result<(), Kind>
        ensures { MatchResult result (λ _. AreOffered offer.now (asked_of self.now))
            (λ kind. (¬ AreOffered offer.now (asked_of self.now)) × (kind ≡ Kind.NotAdvertised)) }
    {
        let mut i = 0;
        'arguments: while let Some(argument) = self.argument(i) {
            if !word_at(&argument).is_offered(offer) {
                return Err(Kind::NotAdvertised);
            }
            i += 1;
        }
        Ok(())
    }

    /// The request's command.
    pub fn command(&self) -> Command
        ensures { result ≡ command_of self.now }
    {
        match self {
            Request::LsRefs(_) => Command::LsRefs,
            Request::Fetch(_) => Command::Fetch,
            Request::ObjectInfo(_) => Command::ObjectInfo,
        }
    }

    /// The format of the request's object names.
    pub fn format(&self) -> Format
        ensures { result ≡ format_of self.now }
    {
        self.arguments().format()
    }

    /// How many bytes the texts of the request's argument lines and server options have together: as they came, if they were read,
    /// and as they are written, if they were added.
    pub fn kept(&self) -> u32
        ensures value { result ≡ kept_of self.now }
        ensures within { kept_of self.now ≤ limit_of self.now }

        // No more bytes are stored of their values: 33 for an object name, and for a text its own and six.
        ensures stored { stored_of self.now ≤ kept_of self.now }

        // The lines as they are written have no more bytes, and each argument is allowed there.
        ensures written { written_bytes (asked_of self.now) ≤ kept_of self.now }
        ensures values { HasValues (format_of self.now) (asked_of self.now) }
    {
        self.arguments().kept()
    }

    /// How many bytes those texts may have.
    pub(crate) fn limits(&self) -> Limits
        ensures { result.args ≡ limit_of self.now }
    {
        self.arguments().limits()
    }

    /// The argument at index `i`, in the order in which they are written.
    pub(crate) fn argument(&self, i: usize) -> Option<Argument<'_>>
        ensures value { option_map shown result ≡ slice_get (arguments_in (asked_of self.now)) i }
        ensures bound { OnSome result (i + 1 < 2 ^ 64) }
        ensures fits { IfSome result (λ argument. FitsLine (shown argument)) }
    {
        self.arguments().argument(i)
    }
}

impl<A: Memory + Copy> Request<A> {
    ghost use Rattle.git_msg.specs.Checks.{Passes};
    ghost use Rattle.git_msg.specs.Arguments.{IsValue};
    ghost use Rattle.git_msg.specs.Kept.{IsUnkept};
    ghost use Rattle.git_msg.specs.Machine.HeldRequest.{IsRefused, Keeps, add_checks, command_of, format_of, holding_of, kept_of, limit_of};
    ghost use Rattle.git_msg.specs.Memory.{NeedsRefusal};

    /// Adds an argument after the others. It is refused in this order: `UnknownArgument` for an argument of another command;
    /// a value that is not allowed there (`BadObjectName` for an object name of another format, `BadNumber` for a number out
    /// of its range, `BadRefName` for a `want-ref` that is no reference name, `BadLine` for a text of more than 32,000 bytes
    /// or an empty `deepen-not`, and for a server option with NUL or LF or of more than 65,502 bytes); `TooMuchKept` if the
    /// texts of all lines, as they are written, would exceed the limit; and `OutOfMemory`. Then the request stays as it was.
    pub fn add(&mut self, argument: &Argument<'_>) -> Result<(), Kind>
        ensures added { OnOk result (Keeps self.old (shown argument.now) (length (written_text (shown argument.now))) self.new) }
        ensures passes { OnOk result (Passes (add_checks self.old (shown argument.now))) }
        ensures unchanged { OnErr result (self.new ≡ self.old) }
        ensures refused { IfErr result (IsRefused (add_checks self.old (shown argument.now)) (shown argument.now)) }

        // It reports `OutOfMemory` only if memory for a list was refused, and the list was to have no more bytes than the limit.
        ensures memory { IfErr result (NeedsRefusal A.refuses (limit_of self.old)) }
    {
        check_value(self.command(), self.format(), argument)?;
        self.push(argument, written_length(argument))
    }

    /// Puts an argument after the others, which was judged and whose line has a text of so many bytes.
    pub(crate) fn push(&mut self, argument: &Argument<'_>, text_length: usize) -> Result<(), Kind>
        requires value { IsValue (command_of self.old) (format_of self.old) (shown argument.now) }
        requires counted { length (written_text (shown argument.now)) ≤ text_length }
        ensures kept { OnOk result (Keeps self.old (shown argument.now) text_length self.new) }
        ensures fits { OnOk result (kept_of self.old + text_length ≤ limit_of self.old) }
        ensures unchanged { OnErr result (self.new ≡ self.old) }
        ensures refused { IfErr result (IsUnkept (holding_of self.old) (shown argument.now) text_length) }
        ensures memory { IfErr result (NeedsRefusal A.refuses (limit_of self.old)) }
    {
        match self {
            Request::LsRefs(request) => request.keep(argument, text_length),
            Request::Fetch(request) => request.keep(argument, text_length),
            Request::ObjectInfo(request) => request.keep(argument, text_length),
        }
    }
}

// The length of the argument's text when it is written.
fn written_length(argument: &Argument<'_>) -> usize
    ensures { result ≡ length (written_text (shown argument.now)) }
{
    let word = word_at(argument).keyword().len();
    match argument {
        Argument::Flag(_) => word,
        Argument::Object(_, id) => word + id.format().digits(),
        Argument::Text(_, text) => word + text.len(),
        Argument::Number(_, number) => number_length(word, *number),
    }
}

// The length of a word of so many bytes and a number.
fn number_length(word: usize, number: u64) -> usize
    requires { word ≤ 15 }
    ensures { result ≡ word + length (decimal number) }
{
    word + decimal_length(number)
}
