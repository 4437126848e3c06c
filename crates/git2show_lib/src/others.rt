//! What a request of another client may have since its server advertised it, beside what this project knows, gitprotocol-v2(5).
ghost use Rattle.std.specs.Prelude.{◌≡◌, ◌==◌, MatchOption, None, Some};
ghost use Rattle.std.specs.List.{before_first, list_any};
ghost use Rattle.std.specs.Option.{option_copied};
ghost use Rattle.git_pkt.specs.Packets.{seen};
ghost use Rattle.git_msg.specs.Advertisement.{key_of, value_of};
ghost use Rattle.git_msg.specs.Texts.{spaced_words};
ghost use Rattle.git2show_lib.specs.Others.{command_in, command_named, counted_at, counted_line, first_place, has_word, is_advertised};
ghost use Rattle.git2show_lib.specs.Others.{is_allowed_key, is_allowed_value};
ghost use Rattle.git2show_lib.specs.Others.{is_feature, is_own_key, is_own_word, is_other_argument, is_other_capability, is_other_command, is_other_line};
ghost use Rattle.git2show_lib.specs.Others.{is_word_of_answers, is_word_of_objects, judged_line, judged_packet, line_has, names_other, place_at_line};
ghost use Rattle.git2show_lib.specs.Others.{place_next, word_passes};

use git_msg::{Command, is_word, split_at_first};
use git_pkt::{Packet, text};

/// Where a packet of a request is.
#[derive(Clone, Copy, Debug)]
pub(crate) enum Place {
    /// Before the line that names the command.
    Unnamed,
    /// After that line. The command is here, if it is one that has words of its own in an advertisement.
    Named(Option<Command>),
    /// After the delimiter, with the same.
    Arguments(Option<Command>),
}

impl Place {
    /// That of a request's first packet.
    pub(crate) fn first() -> Place
        ensures { result ≡ first_place }
    {
        Place::Unnamed
    }

    fn command(self) -> Option<Command>
        ensures { result ≡ command_in self }
    {
        match self {
            Place::Unnamed => None,
            Place::Named(command) | Place::Arguments(command) => command,
        }
    }

    /// Where the packet is that comes after this one.
    pub(crate) fn after(self, packet: Packet<'_>) -> Place
        ensures { result ≡ place_next self (seen packet.entry) }
    {
        match packet {
            Packet::Flush => Place::first(),
            Packet::Delim => Place::Arguments(self.command()),
            Packet::RespEnd => self,
            Packet::Payload(payload) => self.after_line(text(payload)),
        }
    }

    #[tactic(auto, unfolding(crate::specs::Others::place_at_line))]
    fn after_line(self, line: &[u8]) -> Place
        ensures { result ≡ place_at_line self line.now }
    {
        match self {
            Place::Unnamed => {
                let (key, value) = key_and_value(line);
                if is_word(key, b"command") {
                    return Place::Named(command_named(value));
                }
                self
            }
            Place::Named(_) | Place::Arguments(_) => self,
        }
    }
}

/// The packet that a request's packet is read as: a capability line as `agent`, which changes nothing, and an argument as none, where
/// the server advertised it and this project does not know it; any other as it is.
pub(crate) fn judged_packet<'p>(
    advertised: &[u8],
    place: Place,
    packet: Packet<'p>,
) -> Option<Packet<'p>>
    ensures { MatchOption result (judged_packet advertised.now place (seen packet.entry) ≡ None)
        (λ judged. judged_packet advertised.now place (seen packet.entry) ≡ Some (seen judged)) }
{
    match packet {
        Packet::Payload(payload) => judged_line(advertised, place, payload),
        Packet::Flush => Some(Packet::Flush),
        Packet::Delim => Some(Packet::Delim),
        Packet::RespEnd => Some(Packet::RespEnd),
    }
}

#[tactic(auto, unfolding(crate::specs::Others::judged_line))]
fn judged_line<'p>(advertised: &[u8], place: Place, payload: &'p [u8]) -> Option<Packet<'p>>
    ensures { MatchOption result (judged_line advertised.now place payload.now ≡ None)
        (λ judged. judged_line advertised.now place payload.now ≡ Some (seen judged)) }
{
    match place {
        Place::Arguments(command) => {
            if is_other_argument(advertised, command, text(payload)) {
                return None;
            }
        }
        Place::Unnamed | Place::Named(_) => {
            if is_other_capability(advertised, text(payload)) {
                return Some(Packet::Payload(b"agent"));
            }
        }
    }
    Some(Packet::Payload(payload))
}

/// How many bytes of a packet count as kept of its request: those of the text of an argument, and of a capability line that is not known.
pub(crate) fn counted(advertised: &[u8], place: Place, packet: Packet<'_>) -> usize
    ensures { result ≡ counted_at advertised.now place (seen packet.entry) }
{
    match packet {
        Packet::Payload(payload) => counted_line(advertised, place, text(payload)),
        Packet::Flush | Packet::Delim | Packet::RespEnd => 0,
    }
}

#[tactic(auto, unfolding(crate::specs::Others::counted_line))]
fn counted_line(advertised: &[u8], place: Place, line: &[u8]) -> usize
    ensures { result ≡ counted_line advertised.now place line.now }
{
    match place {
        Place::Arguments(_) => line.len(),
        Place::Unnamed | Place::Named(_) => {
            if is_other_capability(advertised, line) {
                return line.len();
            }
            0
        }
    }
}

/// Whether the packet is the first line that names a command, and that is not known, and was advertised.
pub(crate) fn names_other(advertised: &[u8], place: Place, packet: Packet<'_>) -> bool
    ensures { result ≡ names_other advertised.now place (seen packet.entry) }
{
    match place {
        Place::Unnamed => match packet {
            Packet::Payload(payload) => is_other_command(advertised, text(payload)),
            Packet::Flush | Packet::Delim | Packet::RespEnd => false,
        },
        Place::Named(_) | Place::Arguments(_) => false,
    }
}

#[tactic(auto, unfolding(crate::specs::Others::is_other_command))]
fn is_other_command(advertised: &[u8], line: &[u8]) -> bool
    ensures { result ≡ is_other_command advertised.now line.now }
{
    let (key, value) = key_and_value(line);
    is_word(key, b"command") && !is_own_key(value) && is_advertised(advertised, None, value)
}

/// Whether a line of an advertisement has something that is not known.
#[tactic(auto, unfolding(crate::specs::Others::is_other_line))]
pub(crate) fn is_other_line(line: &[u8]) -> bool
    ensures { result ≡ is_other_line line.now }
{
    let (key, value) = key_and_value(line);
    if is_word(key, b"fetch") || is_word(key, b"ls-refs") {
        return has_word(value, None);
    }
    !is_own_key(key)
}

/// Whether a capability line of a request is not known, and has a key that was advertised.
#[tactic(auto, unfolding(crate::specs::Others::is_other_capability))]
pub(crate) fn is_other_capability(advertised: &[u8], line: &[u8]) -> bool
    ensures { result ≡ is_other_capability advertised.now line.now }
{
    let (key, value) = key_and_value(line);
    is_allowed_key(key)
        && is_allowed_value(value)
        && !is_own_key(key)
        && is_advertised(advertised, None, key)
}

/// Whether an argument begins with a word that is not known, and was advertised of the request's command.
#[tactic(auto, unfolding(crate::specs::Others::is_other_argument))]
pub(crate) fn is_other_argument(advertised: &[u8], command: Option<Command>, line: &[u8]) -> bool
    ensures { result ≡ is_other_argument advertised.now command line.now }
{
    let word = first_word(line);
    match command {
        Some(command) => !is_own_word(word) && is_advertised(advertised, Some(command), word),
        None => false,
    }
}

/// Whether a line of the advertisement has this key, or of this command this word in its value.
#[tactic(auto, using(crate::proofs::OtherLines::first_passes, crate::proofs::OtherLines::first_fails), unfolding(crate::specs::Others::is_advertised))]
fn is_advertised(advertised: &[u8], command: Option<Command>, word: &[u8]) -> bool
    ensures { result ≡ is_advertised advertised.now command word.now }
{
    let mut left = advertised;
    'lines: loop {
        let (line, next) = split_at_first(left, b'\n');
        if line_has(line, command, word) {
            return true;
        }
        match next {
            Some(rest) => left = rest,
            None => return false,
        }
    }
}

#[tactic(auto, unfolding(crate::specs::Others::line_has))]
fn line_has(line: &[u8], command: Option<Command>, word: &[u8]) -> bool
    ensures { result ≡ line_has command word.now line.now }
{
    let (key, value) = key_and_value(line);
    match command {
        Some(command) => is_word(key, command.name().as_bytes()) && has_word(value, Some(word)),
        None => is_word(key, word),
    }
}

/// Whether a value has this word, or without one a word that is not known.
#[tactic(auto, using(crate::proofs::OtherLines::first_passes, crate::proofs::OtherLines::first_fails), unfolding(crate::specs::Others::has_word))]
fn has_word(value: &[u8], wanted: Option<&[u8]>) -> bool
    ensures { result ≡ has_word (option_copied wanted.entry) value.now }
{
    let mut left = value;
    'words: loop {
        let (word, next) = split_at_first(left, b' ');
        if word_passes(wanted, word) {
            return true;
        }
        match next {
            Some(rest) => left = rest,
            None => return false,
        }
    }
}

#[tactic(auto, unfolding(crate::specs::Others::word_passes))]
fn word_passes(wanted: Option<&[u8]>, word: &[u8]) -> bool
    ensures { result ≡ word_passes (option_copied wanted.entry) word.now }
{
    match wanted {
        Some(wanted) => is_word(word, wanted),
        None => !is_own_word(word),
    }
}

/// The key of a capability line, and its value: what stands before its first `=` and after it, or all of it and nothing.
#[tactic(auto, using(crate::proofs::OtherLines::before_cut, crate::proofs::OtherLines::after_cut))]
pub(crate) fn key_and_value(line: &[u8]) -> (&[u8], &[u8])
    ensures key { result.0.now ≡ key_of line.now }
    ensures value { result.1.now ≡ value_of line.now }
{
    match split_at_first(line, b'=') {
        (key, Some(value)) => (key, value),
        (key, None) => (key, b""),
    }
}

/// What stands before the first space of a line, or all of it.
#[tactic(auto, using(crate::proofs::OtherLines::before_cut))]
pub(crate) fn first_word(line: &[u8]) -> &[u8]
    ensures { result.now ≡ before_first (λ c. c == 32) line.now }
{
    split_at_first(line, b' ').0
}

/// The command that a value names, if it has words of its own in an advertisement.
#[tactic(auto, unfolding(crate::specs::Others::command_named))]
fn command_named(value: &[u8]) -> Option<Command>
    ensures { result ≡ command_named value.now }
{
    if is_word(value, b"fetch") {
        return Some(Command::Fetch);
    }
    if is_word(value, b"ls-refs") {
        return Some(Command::LsRefs);
    }
    None
}

#[tactic(auto, unfolding(crate::specs::Others::is_allowed_key))]
fn is_allowed_key(key: &[u8]) -> bool
    ensures { result ≡ is_allowed_key key.now }
{
    key.iter().all(|byte| byte.is_ascii_alphanumeric() || *byte == b'-' || *byte == b'_')
}

#[tactic(auto, unfolding(crate::specs::Others::is_allowed_value))]
fn is_allowed_value(value: &[u8]) -> bool
    ensures { result ≡ is_allowed_value value.now }
{
    value.iter().all(|byte| *byte != 0 && *byte != b'\n')
}

/// Whether the key is known, of an advertisement or of a request.
#[tactic(auto, unfolding(crate::specs::Others::is_own_key))]
fn is_own_key(key: &[u8]) -> bool
    ensures { result ≡ is_own_key key.now }
{
    key.is_empty()
        || is_word(key, b"version 2")
        || is_word(key, b"agent")
        || is_word(key, b"command")
        || is_word(key, b"fetch")
        || is_word(key, b"ls-refs")
        || is_word(key, b"object-format")
        || is_word(key, b"object-info")
        || is_word(key, b"server-option")
}

/// Whether the word is known: a feature, or what an argument begins with.
#[tactic(auto, unfolding(crate::specs::Others::is_own_word))]
fn is_own_word(word: &[u8]) -> bool
    ensures { result ≡ is_own_word word.now }
{
    is_feature(word) || is_word_of_objects(word) || is_word_of_answers(word)
}

/// Whether an argument that selects the wanted objects begins so.
#[tactic(auto, unfolding(crate::specs::Others::is_word_of_objects))]
fn is_word_of_objects(word: &[u8]) -> bool
    ensures { result ≡ is_word_of_objects word.now }
{
    is_word(word, b"deepen")
        || is_word(word, b"deepen-not")
        || is_word(word, b"deepen-relative")
        || is_word(word, b"deepen-since")
        || is_word(word, b"done")
        || is_word(word, b"have")
        || is_word(word, b"want")
        || is_word(word, b"want-ref")
}

/// Whether an argument that changes the form of the answer begins so.
#[tactic(auto, unfolding(crate::specs::Others::is_word_of_answers))]
fn is_word_of_answers(word: &[u8]) -> bool
    ensures { result ≡ is_word_of_answers word.now }
{
    is_word(word, b"include-tag")
        || is_word(word, b"no-progress")
        || is_word(word, b"ofs-delta")
        || is_word(word, b"peel")
        || is_word(word, b"ref-prefix")
        || is_word(word, b"symrefs")
        || is_word(word, b"thin-pack")
}

#[tactic(auto, unfolding(crate::specs::Others::is_feature))]
fn is_feature(word: &[u8]) -> bool
    ensures { result ≡ is_feature word.now }
{
    word.is_empty()
        || is_word(word, b"filter")
        || is_word(word, b"ref-in-want")
        || is_word(word, b"shallow")
        || is_word(word, b"unborn")
        || is_word(word, b"wait-for-done")
}
