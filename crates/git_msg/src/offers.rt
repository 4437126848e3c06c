//! The capabilities of an advertisement, and which of them this project knows.

ghost use Rattle.std.specs.Prelude.{◌≡◌, ℕ, ◌+◌, ◌*◌, List, [], ◌∷◌, codes, length, unwrap_or};
ghost use Rattle.std.specs.Option.{option_copied};
ghost use Rattle.git_names.specs.Steps.{TakesAtMost};
ghost use Rattle.git_pkt.specs.Packets.{Pkt, payload, text_of};
ghost use Rattle.git_msg.specs.Capability.{IsCapability};
ghost use Rattle.git_msg.specs.Advertisement.{everything, noted_after, noted_of, noted_offer, noted_with, nothing};
ghost use Rattle.git_msg.specs.Advertisement.{is_spoken, offers_command, takes_command};
ghost use Rattle.git_msg.specs.Arguments.{name_of};

use crate::agent::Agent;
use crate::arguments::Command;
use crate::capabilities::Capability;
use crate::texts::{is_word, split_at_first};
use git_names::{Format, Steps};

// The maximum length of a known key.
const LONGEST_KEY: usize = 13;

// The maximum length of an object format's name.
const LONGEST_FORMAT: usize = 6;

// The maximum length of the word for a feature of `fetch`.
const LONGEST_FEATURE: usize = 13;

/// The content of a server's advertisement to a client, beside the commands `ls-refs` and `fetch`, which every offer has.
#[derive(Clone, Copy, Debug, PartialEq, Eq)]
pub struct Offer {
    /// The format of the object names in requests and answers.
    pub format: Format,
    /// The feature `unborn` of `ls-refs`.
    pub unborn: bool,
    /// The feature `shallow` of `fetch`.
    pub shallow: bool,
    /// The feature `ref-in-want` of `fetch`.
    pub ref_in_want: bool,
    /// The feature `wait-for-done` of `fetch`.
    pub wait_for_done: bool,
    /// The feature `filter` of `fetch`.
    pub filter: bool,
    /// The command `object-info`.
    pub object_info: bool,
    /// The capability `server-option`.
    pub server_option: bool,
    /// The name with which the server introduces itself.
    // The last field: as the first one it would lie right behind the buffer of a reader of requests. LLVM then copies both as one, and makes
    // a new reader on the stack, with 64 KiB.
    pub agent: Agent,
}

impl Offer {
    /// An offer of everything by this library's own agent, for object names of this format.
    pub fn everything(format: Format) -> Offer
        ensures { result ≡ everything format }
    {
        Offer {
            format,
            unborn: true,
            shallow: true,
            ref_in_want: true,
            wait_for_done: true,
            filter: true,
            object_info: true,
            server_option: true,
            agent: Agent::own(),
        }
    }

    /// An offer of nothing that may be left out by this library's own agent, for object names of this format.
    pub fn nothing(format: Format) -> Offer
        ensures { result ≡ nothing format }
    {
        Caps::new().offer(format)
    }

    /// Whether requests of this command are accepted.
    pub(crate) fn takes(&self, command: Command) -> bool
        ensures { result ≡ takes_command self.now command }
    {
        match command {
            Command::LsRefs => true,
            Command::Fetch => true,
            Command::ObjectInfo => self.object_info,
        }
    }
}

/// The content of an advertisement's lines, as far as this project knows it. Other keys and words are ignored, and repeated
/// lines add up.
#[derive(Clone, Copy, Debug, Default, PartialEq, Eq)]
pub struct Caps {
    /// The key `agent`.
    pub agent: bool,
    /// The command `ls-refs`.
    pub ls_refs: bool,
    /// The word `unborn` in a value of `ls-refs`.
    pub unborn: bool,
    /// The command `fetch`.
    pub fetch: bool,
    /// The word `shallow` in a value of `fetch`.
    pub shallow: bool,
    /// The word `ref-in-want` in a value of `fetch`.
    pub ref_in_want: bool,
    /// The word `wait-for-done` in a value of `fetch`.
    pub wait_for_done: bool,
    /// The word `filter` in a value of `fetch`.
    pub filter: bool,
    /// The key `server-option`.
    pub server_option: bool,
    /// The command `object-info`.
    pub object_info: bool,
    /// The key `object-format`, with any value or none.
    pub object_format: bool,
    /// The line `object-format=sha1`.
    pub sha1: bool,
    /// The line `object-format=sha256`.
    pub sha256: bool,
}

impl Caps {
    /// The capabilities before the first line: none.
    pub fn new() -> Caps
        ensures { result ≡ noted_of [] }
    {
        Caps::default()
    }

    /// The capabilities after one more line, which is this one.
    pub fn with(self, capability: &Capability<'_>, steps: &mut Steps) -> Caps
        ensures exact { result ≡ noted_with self capability.now.key.now (unwrap_or (option_copied capability.now.value) []) }
        ensures notes { (packets : List Pkt) (line : List ℕ) → self ≡ noted_of packets
            → IsCapability (text_of line) capability.now.key.now (option_copied capability.now.value)
            → result ≡ noted_of (payload line ∷ packets) }
        ensures cost { TakesAtMost (16 * (length capability.now.key.now + length (unwrap_or (option_copied capability.now.value) []) + 1))
            steps.old steps.new }
    {
        let value = capability.value.unwrap_or(b"");
        self.with_line(capability.key, value, steps)
    }

    // The capabilities after one more line, with this key and value.
    fn with_line(self, key: &[u8], value: &[u8], steps: &mut Steps) -> Caps
        ensures exact { result ≡ noted_with self key.now value.now }
        ensures cost { TakesAtMost (16 * (length key.now + length value.now + 1)) steps.old steps.new }
    {
        // Six keys.
        steps.tick(6 * (key.len().min(LONGEST_KEY) + 1));
        if is_word(key, b"ls-refs") {
            return self.with_words(Command::LsRefs, value, steps);
        }
        if is_word(key, b"fetch") {
            return self.with_words(Command::Fetch, value, steps);
        }
        if is_word(key, b"object-format") {
            return self.with_format(value, steps);
        }
        Caps {
            agent: is_word(key, b"agent") | self.agent,
            server_option: is_word(key, b"server-option") | self.server_option,
            object_info: is_word(key, b"object-info") | self.object_info,
            ..self
        }
    }

    // The capabilities after one more line of this command, with this value.
    fn with_words(self, command: Command, value: &[u8], steps: &mut Steps) -> Caps
        ensures exact { result ≡ noted_with self (name_of command) value.now }
        ensures cost { TakesAtMost (7 * (length value.now + 1)) steps.old steps.new }
    {
        let mut noted = self;
        let mut left = value;
        'words: loop {
            let (word, next) = split_at_first(left, b' ');
            // A turn and a search.
            steps.tick(word.len() + 3);
            noted = noted.with_word(command, word, steps);
            match next {
                Some(rest) => left = rest,
                None => return noted,
            }
        }
    }

    // The capabilities after one more line of this command that has this word in its value: the features of each command,
    // with their flags.
    fn with_word(self, command: Command, word: &[u8], steps: &mut Steps) -> Caps
        ensures exact { (value : List ℕ) → result ≡ noted_after self (name_of command) value (word.now ∷ []) }
        ensures cost { TakesAtMost (4 * (length word.now + 1)) steps.old steps.new }
    {
        match command {
            Command::LsRefs => {
                steps.tick(word.len().min(b"unborn".len()) + 1);
                Caps {
                    ls_refs: true,
                    unborn: is_word(word, b"unborn") | self.unborn,
                    ..self
                }
            }
            Command::Fetch => {
                // Four words.
                steps.tick(4 * (word.len().min(LONGEST_FEATURE) + 1));
                Caps {
                    fetch: true,
                    shallow: is_word(word, b"shallow") | self.shallow,
                    ref_in_want: is_word(word, b"ref-in-want") | self.ref_in_want,
                    wait_for_done: is_word(word, b"wait-for-done") | self.wait_for_done,
                    filter: is_word(word, b"filter") | self.filter,
                    ..self
                }
            }
            Command::ObjectInfo => Caps {
                object_info: true,
                ..self
            },
        }
    }

    // The capabilities after one more line `object-format`, with this name.
    fn with_format(self, name: &[u8], steps: &mut Steps) -> Caps
        ensures exact { result ≡ noted_with self (codes "object-format") name.now }
        ensures cost { TakesAtMost (2 * (length name.now + 1)) steps.old steps.new }
    {
        // Two names.
        steps.tick(2 * (name.len().min(LONGEST_FORMAT) + 1));
        Caps {
            object_format: true,
            sha1: is_word(name, b"sha1") | self.sha1,
            sha256: is_word(name, b"sha256") | self.sha256,
            ..self
        }
    }

    /// Whether object names of this format are spoken. If no line names a format, SHA-1 is meant.
    pub fn speaks(&self, format: Format) -> bool
        ensures { result ≡ is_spoken self.now format }
    {
        match format {
            Format::Sha1 => self.sha1 | !self.object_format,
            Format::Sha256 => self.sha256,
        }
    }

    /// Whether requests of this command are accepted.
    pub fn offers(&self, command: Command) -> bool
        ensures { result ≡ offers_command self.now command }
    {
        match command {
            Command::LsRefs => self.ls_refs,
            Command::Fetch => self.fetch,
            Command::ObjectInfo => self.object_info,
        }
    }

    /// The offer to a client that speaks this format. What the server's agent is called is not noted: the offer has this
    /// library's own.
    pub fn offer(&self, format: Format) -> Offer
        ensures { result ≡ noted_offer self.now format }
    {
        Offer {
            format,
            unborn: self.unborn,
            shallow: self.shallow,
            ref_in_want: self.ref_in_want,
            wait_for_done: self.wait_for_done,
            filter: self.filter,
            object_info: self.object_info,
            server_option: self.server_option,
            agent: Agent::own(),
        }
    }
}
