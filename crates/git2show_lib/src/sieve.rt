//! What a client receives of a response whose request asked for addresses of packs, or for all lines on bands, gitprotocol-v2(5).
ghost use Rattle.std.specs.Prelude.{◌≡◌, ◌≤◌, length, MatchOption, MatchResult, None, Some, Ok, Err, OnOk, IfOk, IfSome};
ghost use Rattle.std.specs.List.{list_all};
ghost use Rattle.git_pkt.specs.Packets.{body_of, longest_payload, seen};
ghost use Rattle.git2show_lib.specs.Sieve.{begins_uris, is_error_line, is_on_band, is_uri_line, may_follow, passed_packet, passes_line, sieved_packet};
ghost use Rattle.git2show_lib.specs.Sieve.{is_hex_digit, is_uri_byte};
ghost use Rattle.git2show_lib.specs.Sieve.{spot_at, spot_at_delim, spot_at_line, spot_next, unbanded, unbanded_line};

use git_msg::is_word;
use git_names::{Format, digit_value};
use git_pkt::{Kind, Packet, text};

/// The form that a request asks of its response, beside what the client knows.
#[derive(Clone, Copy, Debug)]
pub(crate) struct Form {
    /// The format of object names.
    pub(crate) format: Format,
    /// Whether the section `packfile-uris` may come.
    pub(crate) uris: bool,
    /// Whether all lines come on bands, and not those of the packfile section alone.
    pub(crate) on_bands: bool,
}

/// Where a packet of a response is.
#[derive(Clone, Copy, Debug)]
pub(crate) enum Spot {
    /// Where the header of a section may come.
    Header,
    /// Among the lines of a section.
    Lines,
    /// Among the lines of the section `packfile-uris`.
    Uris,
    /// After that section, where the header of the packfile section comes.
    AfterUris,
    /// In the packfile section.
    Packfile,
}

/// Passes on what a client knows of a response, one packet after the other.
#[derive(Clone, Copy, Debug)]
pub(crate) struct Sieve {
    form: Form,
    spot: Spot,
}

impl Sieve {
    /// That of a response in this form, before its first packet.
    pub(crate) fn new(form: Form) -> Sieve
        ensures form { result.form ≡ form }
        ensures spot { result.spot ≡ Spot.Header }
    {
        Sieve {
            form,
            spot: Spot::Header,
        }
    }

    /// What the next packet is passed on as: itself, a line without its band, or nothing. The error is why it is refused.
    pub(crate) fn take<'p>(&mut self, packet: Packet<'p>) -> Result<Option<Packet<'p>>, Kind>
        requires fits { length (body_of (seen packet)) ≤ longest_payload }
        ensures passed { MatchResult result
            (λ passed. MatchOption passed (sieved_packet self.old.form self.old.spot (seen packet.entry) ≡ Ok None)
            (λ p. sieved_packet self.old.form self.old.spot (seen packet.entry) ≡ Ok (Some (seen p))))
            (λ kind. sieved_packet self.old.form self.old.spot (seen packet.entry) ≡ Err kind) }
        ensures fits { IfOk result (λ passed. IfSome passed (λ p. length (body_of (seen p)) ≤ longest_payload)) }
        ensures form { self.new.form ≡ self.old.form }
        ensures spot { self.new.spot ≡ spot_next self.old.form self.old.spot (seen packet.entry) }
    {
        let spot = self.spot;
        let Some(packet) = unbanded(self.form, spot, packet)? else {
            return Ok(None);
        };
        self.spot = spot_at(self.form, spot, packet);
        passed_packet(self.form, spot, packet)
    }
}

/// The packet without its band, where it has one that the client does not know.
#[tactic(auto, unfolding(crate::specs::Sieve::unbanded))]
fn unbanded<'p>(form: Form, spot: Spot, packet: Packet<'p>) -> Result<Option<Packet<'p>>, Kind>
    requires fits { length (body_of (seen packet)) ≤ longest_payload }
    ensures passed { MatchResult result
        (λ passed. MatchOption passed (unbanded form spot (seen packet.entry) ≡ Ok None)
        (λ p. unbanded form spot (seen packet.entry) ≡ Ok (Some (seen p))))
        (λ kind. unbanded form spot (seen packet.entry) ≡ Err kind) }
    ensures fits { IfOk result (λ passed. IfSome passed (λ p. length (body_of (seen p)) ≤ longest_payload)) }
{
    match packet {
        Packet::Payload(payload) => {
            if is_on_band(form, spot) {
                return unbanded_line(payload);
            }
            Ok(Some(Packet::Payload(payload)))
        }
        Packet::Flush => Ok(Some(Packet::Flush)),
        Packet::Delim => Ok(Some(Packet::Delim)),
        Packet::RespEnd => Ok(Some(Packet::RespEnd)),
    }
}

fn is_on_band(form: Form, spot: Spot) -> bool
    ensures { result ≡ is_on_band form spot }
{
    form.on_bands && !matches!(spot, Spot::Packfile)
}

#[tactic(auto, unfolding(crate::specs::Sieve::unbanded_line))]
fn unbanded_line<'p>(payload: &'p [u8]) -> Result<Option<Packet<'p>>, Kind>
    requires fits { length payload.now ≤ longest_payload }
    ensures passed { MatchResult result
        (λ passed. MatchOption passed (unbanded_line payload.now ≡ Ok None) (λ p. unbanded_line payload.now ≡ Ok (Some (seen p))))
        (λ kind. unbanded_line payload.now ≡ Err kind) }
    ensures fits { IfOk result (λ passed. IfSome passed (λ p. length (body_of (seen p)) ≤ longest_payload)) }
{
    match payload {
        [] => Err(Kind::NoBand),
        [1, line @ ..] => Ok(Some(Packet::Payload(line))),
        [2, ..] => Ok(None),
        [3, ..] => Err(Kind::RemoteFatal),
        _ => {
            if is_error_line(payload) {
                return Ok(Some(Packet::Payload(payload)));
            }
            Err(Kind::BadBand)
        }
    }
}

/// What a packet without a band is passed on as.
fn passed_packet<'p>(form: Form, spot: Spot, packet: Packet<'p>) -> Result<Option<Packet<'p>>, Kind>
    requires fits { length (body_of (seen packet)) ≤ longest_payload }
    ensures passed { MatchResult result
        (λ passed. MatchOption passed (passed_packet form spot (seen packet.entry) ≡ Ok None)
        (λ p. passed_packet form spot (seen packet.entry) ≡ Ok (Some (seen p))))
        (λ kind. passed_packet form spot (seen packet.entry) ≡ Err kind) }
    ensures fits { IfOk result (λ passed. IfSome passed (λ p. length (body_of (seen p)) ≤ longest_payload)) }
{
    match packet {
        Packet::Payload(payload) => {
            if passes_line(form, spot, text(payload))? {
                return Ok(Some(Packet::Payload(payload)));
            }
            Ok(None)
        }
        Packet::Delim => match spot {
            Spot::Uris => Ok(None),
            _ => Ok(Some(Packet::Delim)),
        },
        Packet::Flush => Ok(Some(Packet::Flush)),
        Packet::RespEnd => Ok(Some(Packet::RespEnd)),
    }
}

/// Whether the client receives a line without a band, by its text.
#[tactic(auto, unfolding(crate::specs::Sieve::passes_line))]
fn passes_line(form: Form, spot: Spot, line: &[u8]) -> Result<bool, Kind>
    ensures { result ≡ passes_line form spot line.now }
{
    match spot {
        Spot::Header => Ok(!begins_uris(form, line)),
        Spot::Lines | Spot::Packfile => Ok(true),
        Spot::Uris => {
            if is_error_line(line) {
                return Ok(true);
            }
            if is_uri_line(form.format, line) {
                return Ok(false);
            }
            Err(Kind::BadLine)
        }
        Spot::AfterUris => {
            if may_follow(line) {
                return Ok(true);
            }
            Err(Kind::UnexpectedSection)
        }
    }
}

/// Where the packet is that comes after this one, which has no band.
fn spot_at(form: Form, spot: Spot, packet: Packet<'_>) -> Spot
    ensures { result ≡ spot_at form spot (seen packet.entry) }
{
    match packet {
        Packet::Payload(payload) => spot_at_line(form, spot, text(payload)),
        Packet::Delim => match spot {
            Spot::Lines => Spot::Header,
            Spot::Uris => Spot::AfterUris,
            _ => spot,
        },
        Packet::Flush | Packet::RespEnd => spot,
    }
}

#[tactic(auto, unfolding(crate::specs::Sieve::spot_at_line))]
fn spot_at_line(form: Form, spot: Spot, line: &[u8]) -> Spot
    ensures { result ≡ spot_at_line form spot line.now }
{
    match spot {
        Spot::Header => {
            if begins_uris(form, line) {
                return Spot::Uris;
            }
            if is_word(line, b"packfile") {
                return Spot::Packfile;
            }
            Spot::Lines
        }
        Spot::AfterUris => {
            if is_word(line, b"packfile") {
                return Spot::Packfile;
            }
            Spot::AfterUris
        }
        Spot::Lines | Spot::Uris | Spot::Packfile => spot,
    }
}

/// Whether the line begins the section `packfile-uris`, which was asked for.
#[tactic(auto, unfolding(crate::specs::Sieve::begins_uris))]
fn begins_uris(form: Form, line: &[u8]) -> bool
    ensures { result ≡ begins_uris form line.now }
{
    form.uris && is_word(line, b"packfile-uris")
}

/// Whether the line may come after that section.
#[tactic(auto, unfolding(crate::specs::Sieve::may_follow))]
fn may_follow(line: &[u8]) -> bool
    ensures { result ≡ may_follow line.now }
{
    is_word(line, b"packfile") || is_error_line(line)
}

/// Whether the bytes begin as an error packet does.
#[tactic(auto, unfolding(crate::specs::Sieve::is_error_line))]
fn is_error_line(bytes: &[u8]) -> bool
    ensures { result ≡ is_error_line bytes.now }
{
    bytes.len() >= 4 && is_word(&bytes[..4], b"ERR ")
}

/// Whether the line may be one of the section `packfile-uris`: the digits of an object name, a space, and an address.
#[tactic(auto, unfolding(crate::specs::Sieve::is_uri_line))]
fn is_uri_line(format: Format, line: &[u8]) -> bool
    ensures { result ≡ is_uri_line format line.now }
{
    let digits = format.digits();
    if line.len() <= digits {
        return false;
    }
    let (hash, rest) = line.split_at(digits);
    let (space, uri) = rest.split_at(1);
    is_word(space, b" ") && are_digits(hash) && is_uri(uri)
}

fn are_digits(hash: &[u8]) -> bool
    ensures { result ≡ list_all is_hex_digit hash.now }
{
    hash.iter().all(|byte| digit_value(*byte) < 16)
}

fn is_uri(bytes: &[u8]) -> bool
    ensures { result ≡ list_all is_uri_byte bytes.now }
{
    bytes.iter().all(|byte| *byte >= b' ')
}
