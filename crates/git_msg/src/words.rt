//! The words at the head of arguments, by the shape of what follows them.
ghost use Rattle.std.specs.Prelude.{◌≡◌, ◌≢◌, ◌+◌, ◌*◌, ◌<◌, ◌≤◌, ℕ, List, Some, IfSome, MatchBool, MatchOption, MatchResult, length};
ghost use Rattle.git_names.specs.Steps.{TakesAtMost};
ghost use Rattle.git_pkt.specs.declared.fault.Kind.{Kind};
ghost use Rattle.git_msg.specs.Arguments.{IsFor, IsNoArgument, IsNoNumberIn, IsNoTextOf, IsNumberIn, IsNumberOf, IsTextOf};
ghost use Rattle.git_msg.specs.Arguments.{line_of, refusal_of, row, words_of};
ghost use Rattle.git_msg.specs.Machine.ArgumentLists.{number_place, object_place};
ghost use Rattle.git_msg.specs.Machine.TextPools.{text_place};

use crate::arguments::Command;
use crate::capabilities::is_value;
use crate::flags::Flag;
use crate::lists::NUMBERS;
use crate::numbers::read_number;
use crate::offers::Offer;
use crate::parts::LISTS;
use crate::texts::{after, is_word};
use git_names::{RefName, Steps};
use git_pkt::Kind;

/// A word at the head of an argument's line.
#[derive(Clone, Copy, Debug, PartialEq, Eq, Hash)]
pub enum Word {
    /// A word alone.
    Flag(Flag),
    /// A word before an object name.
    Object(ObjectWord),
    /// A word before a text.
    Text(TextWord),
    /// A word before a number.
    Number(NumberWord),
}

/// A word before an object name.
#[derive(Clone, Copy, Debug, PartialEq, Eq, Hash)]
pub enum ObjectWord {
    /// `want`: send this object.
    Want,
    /// `have`: the client has this object.
    Have,
    /// `shallow`: the client has this commit without its parents.
    Shallow,
    /// `oid`: answer for this object.
    ObjectId,
}

/// A word before a text.
#[derive(Clone, Copy, Debug, PartialEq, Eq, Hash)]
pub enum TextWord {
    /// `ref-prefix`: show references whose name begins with this text, of at most 32,000 bytes.
    RefPrefix,
    /// `filter`: leave out the objects that this filter-spec excludes. Its text has 1 to 32,000 bytes.
    Filter,
    /// `deepen-not`: leave out what this revision reaches. Its text has 1 to 32,000 bytes.
    DeepenNot,
    /// `want-ref`: send the object of the reference of this name, whose text is a [`git_names::RefName`].
    WantRef,
    /// `server-option`, a capability that requests of every command may have: an option whose meaning the server knows. Its
    /// text has at most 65,502 bytes, none of them NUL or LF.
    ServerOption,
}

/// A word before a number.
#[derive(Clone, Copy, Debug, PartialEq, Eq, Hash)]
pub enum NumberWord {
    /// `deepen`: cut the history off at this depth, of 1 to 2,147,483,647 commits.
    Deepen,
    /// `deepen-since`: cut the history off at this time, in seconds since 1970, at most 9,223,372,036,854,775,807.
    DeepenSince,
}

/// All words, in the order in which their arguments are written: that of every command, and those of `ls-refs`, of `fetch`, and
/// of `object-info`.
pub(crate) const WORDS: &[Word] = &[
    Word::Text(TextWord::ServerOption),
    Word::Flag(Flag::Peel),
    Word::Flag(Flag::Symrefs),
    Word::Flag(Flag::Unborn),
    Word::Text(TextWord::RefPrefix),
    Word::Flag(Flag::ThinPack),
    Word::Flag(Flag::NoProgress),
    Word::Flag(Flag::IncludeTag),
    Word::Flag(Flag::OfsDelta),
    Word::Flag(Flag::WaitForDone),
    Word::Text(TextWord::Filter),
    Word::Object(ObjectWord::Shallow),
    Word::Number(NumberWord::Deepen),
    Word::Number(NumberWord::DeepenSince),
    Word::Text(TextWord::DeepenNot),
    Word::Flag(Flag::DeepenRelative),
    Word::Object(ObjectWord::Want),
    Word::Text(TextWord::WantRef),
    Word::Object(ObjectWord::Have),
    Word::Flag(Flag::Done),
    Word::Flag(Flag::Size),
    Word::Object(ObjectWord::ObjectId),
];

// The index of the first word of `ls-refs`.
const LS_REFS: usize = 1;

// The index of the first word of `fetch`.
const FETCH: usize = 5;

// The index of the first word of `object-info`.
const OBJECT_INFO: usize = 20;

// The maximum length of a text that is kept.
const MOST_TEXT: usize = 32_000;

// The maximum length of a server option: its line is a whole payload.
pub(crate) const MOST_OPTION: usize = 65_502;

// The maximum length of a word.
const LONGEST_WORD: usize = 15;

impl Command {
    /// The words of the command, in the order in which their arguments are written. Those of every command are not among them.
    pub fn words(self) -> &'static [Word]
        ensures words { result.now ≡ words_of self }
        ensures few { length result.now ≤ 24 }
    {
        match self {
            Command::LsRefs => &WORDS[LS_REFS..FETCH],
            Command::Fetch => &WORDS[FETCH..OBJECT_INFO],
            Command::ObjectInfo => &WORDS[OBJECT_INFO..],
        }
    }

    /// The word of the command at the head of the text, and the text after it. The last words, which lines have most often, are
    /// looked for first.
    pub(crate) fn split<'a>(self, text: &'a [u8], steps: &mut Steps) -> Option<(Word, &'a [u8])>
        ensures parts { MatchOption result (IsNoArgument self text.now)
            (λ parts. ((row parts.0).command ≡ Some self) × (text.now ≡ line_of parts.0 parts.1.now)) }
        ensures shorter { IfSome result (λ parts. length parts.1.now ≤ length text.now) }
        ensures cost { TakesAtMost (24 * (length text.now + 1)) steps.old steps.new }
    {
        let words = self.words();
        steps.tick(words.len() * (text.len().min(LONGEST_WORD) + 1));
        let mut left = words.len();
        'words: while left > 0 {
            left -= 1;
            let word = words[left];
            if let Some(value) = word.value_in(text) {
                return Some((word, value));
            }
        }
        None
    }
}

impl Word {
    /// The word's text, with a space or `=` at its end if a value follows.
    pub fn keyword(self) -> &'static [u8]
        ensures value { result.now ≡ (row self).keyword }
        ensures short { length result.now ≤ 15 }
    {
        match self {
            Word::Flag(flag) => flag.word(),
            Word::Object(ObjectWord::Want) => b"want ",
            Word::Object(ObjectWord::Have) => b"have ",
            Word::Object(ObjectWord::Shallow) => b"shallow ",
            Word::Object(ObjectWord::ObjectId) => b"oid ",
            Word::Text(TextWord::RefPrefix) => b"ref-prefix ",
            Word::Text(TextWord::Filter) => b"filter ",
            Word::Text(TextWord::DeepenNot) => b"deepen-not ",
            Word::Text(TextWord::WantRef) => b"want-ref ",
            Word::Text(TextWord::ServerOption) => b"server-option=",
            Word::Number(NumberWord::Deepen) => b"deepen ",
            Word::Number(NumberWord::DeepenSince) => b"deepen-since ",
        }
    }

    /// The command that has the word, or none if requests of every command may have it.
    pub fn command(self) -> Option<Command>
        ensures { result ≡ (row self).command }
    {
        match self {
            Word::Flag(flag) => Some(flag.command()),
            Word::Object(ObjectWord::ObjectId) => Some(Command::ObjectInfo),
            Word::Text(TextWord::RefPrefix) => Some(Command::LsRefs),
            Word::Text(TextWord::ServerOption) => None,
            _ => Some(Command::Fetch),
        }
    }

    /// Whether requests of the command may have the word.
    pub(crate) fn is_for(self, command: Command) -> bool
        ensures { MatchBool result (IsFor command (row self).command) (¬ IsFor command (row self).command) }
    {
        match self.command() {
            Some(own) => own == command,
            None => true,
        }
    }

    /// Whether the feature that the word needs was advertised.
    pub(crate) fn is_offered(self, offer: &Offer) -> bool
        ensures { result ≡ (row self).offered offer.now }
    {
        match self {
            Word::Flag(flag) => flag.is_offered(offer),
            Word::Object(ObjectWord::Shallow) => offer.shallow,
            Word::Text(TextWord::Filter) => offer.filter,
            Word::Text(TextWord::DeepenNot) => offer.shallow,
            Word::Text(TextWord::WantRef) => offer.ref_in_want,
            Word::Text(TextWord::ServerOption) => offer.server_option,
            Word::Number(_) => offer.shallow,
            _ => true,
        }
    }

    // The text after the word, if the word is at the head of this line; nothing follows a flag.
    fn value_in(self, line: &[u8]) -> Option<&[u8]>
        ensures value { MatchOption result ((value : List ℕ) → line.now ≢ line_of self value) (λ value. line.now ≡ line_of self value.now) }
        ensures shorter { IfSome result (λ value. length value.now ≤ length line.now) }
    {
        match self {
            Word::Flag(flag) => {
                if !is_word(line, flag.word()) {
                    return None;
                }
                Some(b"")
            }
            _ => after(line, self.keyword()),
        }
    }
}

impl ObjectWord {
    /// The index of the word's list.
    pub(crate) fn place(self) -> usize
        ensures value { result ≡ object_place self }
        ensures below { result < LISTS }
    {
        self as usize
    }
}

impl TextWord {
    /// The index of the word's list.
    pub(crate) fn place(self) -> usize
        ensures value { result ≡ text_place self }
        ensures below { result < LISTS }
    {
        self as usize
    }

    /// Whether the text is allowed after the word.
    pub(crate) fn allows(self, text: &[u8], steps: &mut Steps) -> bool
        ensures text { MatchBool result (IsTextOf self text.now) (IsNoTextOf self text.now) }
        ensures cost { TakesAtMost (16 * (length text.now + 1)) steps.old steps.new }
    {
        match self {
            TextWord::WantRef => RefName::read(text, steps).is_ok(),
            TextWord::RefPrefix => text.len() <= MOST_TEXT,
            TextWord::ServerOption => {
                steps.tick(text.len() + 1);
                is_value(text) && text.len() <= MOST_OPTION
            }
            _ => !text.is_empty() && text.len() <= MOST_TEXT,
        }
    }

    /// The error for a text that is not allowed there.
    pub(crate) fn refusal(self) -> Kind
        ensures { result ≡ refusal_of (Word.Text self) }
    {
        match self {
            TextWord::WantRef => Kind::BadRefName,
            _ => Kind::BadLine,
        }
    }
}

impl NumberWord {
    /// The index of the word's number.
    pub(crate) fn place(self) -> usize
        ensures value { result ≡ number_place self }
        ensures below { result < NUMBERS }
    {
        self as usize
    }

    /// Whether the number is allowed after the word.
    pub(crate) fn allows(self, number: u64) -> bool
        ensures { MatchBool result (IsNumberOf self number) (¬ IsNumberOf self number) }
    {
        match self {
            NumberWord::Deepen => 1 <= number && number <= 2_147_483_647,
            NumberWord::DeepenSince => number <= 9_223_372_036_854_775_807,
        }
    }

    /// Reads a number after the word.
    pub(crate) fn read(self, digits: &[u8], steps: &mut Steps) -> Result<u64, Kind>
        ensures number { MatchResult result (IsNumberIn (IsNumberOf self) digits.now)
            (λ kind. IsNoNumberIn (IsNumberOf self) digits.now × (kind ≡ Kind.BadNumber)) }
        ensures cost { TakesAtMost (length digits.now) steps.old steps.new }
    {
        steps.tick(digits.len());
        match read_number(digits) {
            Some(number) if self.allows(number) => Ok(number),
            _ => Err(Kind::BadNumber),
        }
    }
}
