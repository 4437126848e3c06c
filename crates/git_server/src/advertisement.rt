//! The capability advertisement, one line at a time.

ghost use Rattle.std.specs.Prelude.{◌≡◌, ℕ, ◌+◌, ◌≤◌, ◌<◌, List, ◌∷◌, ◌++◌, [], codes, false, length};
ghost use Rattle.git_pkt.specs.Machine.PacketReader.{is_open};
ghost use Rattle.git_pkt.specs.Packets.{body_of, longest_payload, payload, spelling_of};
ghost use Rattle.git_msg.specs.Agents.{agent_text};
ghost use Rattle.git_msg.specs.Features.{capability_text, fetch_features, ls_refs_features, where_offered};
ghost use Rattle.git_server.specs.Machine.AdvertisementLines.{Names, advertisement_line_after, advertisement_packet, separator_after};
ghost use Rattle.git_server.specs.Answers.{advertisement_of, spelled};
ghost use Rattle.git_server.specs.Machine.WrittenPackets.{Writes};

use crate::packets::{append_line, append_packet};
use arrayvec::ArrayString;
use git_msg::Offer;
use git_names::Format;
use git_pkt::{Hold, Packet, PacketReader};

// The maximum length of a line in bytes, its LF included: the length of the `fetch` line with all its features.
const LONGEST_LINE: usize = 47;

/// Sets the buffer to the packets of the whole advertisement of an offer, one after another: a session sends them first.
///
/// They have fewer than 257 bytes, 57 fewer for this library's own agent.
pub fn put_advertisement(hold: &mut Hold, offer: &Offer)
    ensures written { hold.new.items ≡ spelled (advertisement_of offer.now) }
    ensures short { length hold.new.items < 194 + length (agent_text offer.now.agent) }
{
    hold.clear();
    let mut next = Some(AdvertisementLine::Version);
    while let Some(line) = next {
        line.append(offer, hold);
        next = line.next(offer);
    }
}

/// A line of the advertisement, in the order in which the lines are sent, gitprotocol-v2(5).
#[derive(Clone, Copy, Debug)]
pub(crate) enum AdvertisementLine {
    Version,
    Agent,
    LsRefs,
    Fetch,
    ServerOption,
    ObjectFormat,
    ObjectInfo,
    End,
}

impl AdvertisementLine {
    /// Sets the reader's buffer to the packet of the line for this offer. The reader must be between two packets.
    pub(crate) fn write(self, offer: &Offer, reader: &mut PacketReader)
        requires { is_open reader.old ≡ false }
        ensures { Writes reader.old (advertisement_packet offer.now self) reader.new }
    {
        self.put(offer, reader.lend());
        let _ = reader.hold();
    }

    // Sets the buffer to the packet of the line.
    fn put(self, offer: &Offer, hold: &mut Hold)
        ensures written { hold.new.items ≡ spelling_of (advertisement_packet offer.now self) }
        ensures fits { length (body_of (advertisement_packet offer.now self)) ≤ longest_payload }
    {
        hold.clear();
        self.append(offer, hold);
    }

    // Appends the packet of the line.
    fn append(self, offer: &Offer, hold: &mut Hold)
        requires { length hold.old.items + length (spelling_of (advertisement_packet offer.now self)) ≤ 65520 }
        ensures { hold.new.items ≡ hold.old.items ++ spelling_of (advertisement_packet offer.now self) }
    {
        match self {
            AdvertisementLine::Version => append_packet(hold, Packet::Payload(b"version 2\n")),
            AdvertisementLine::Agent => append_line(hold, b"agent=", offer.agent.text()),
            AdvertisementLine::LsRefs => append_text(hold, &ls_refs_line(offer)),
            AdvertisementLine::Fetch => append_text(hold, &fetch_line(offer)),
            AdvertisementLine::ServerOption => {
                append_packet(hold, Packet::Payload(b"server-option\n"))
            }
            AdvertisementLine::ObjectFormat => match offer.format {
                Format::Sha1 => append_packet(hold, Packet::Payload(b"object-format=sha1\n")),
                Format::Sha256 => append_packet(hold, Packet::Payload(b"object-format=sha256\n")),
            },
            AdvertisementLine::ObjectInfo => append_packet(hold, Packet::Payload(b"object-info\n")),
            AdvertisementLine::End => append_packet(hold, Packet::Flush),
        }
    }

    /// The next line. It skips the lines that are not advertised.
    pub(crate) fn next(self, offer: &Offer) -> Option<AdvertisementLine>
        ensures { result ≡ advertisement_line_after offer.now self }
    {
        match self {
            AdvertisementLine::Version => Some(AdvertisementLine::Agent),
            AdvertisementLine::Agent => Some(AdvertisementLine::LsRefs),
            AdvertisementLine::LsRefs => Some(AdvertisementLine::Fetch),
            AdvertisementLine::Fetch if offer.server_option => {
                Some(AdvertisementLine::ServerOption)
            }
            AdvertisementLine::Fetch => Some(AdvertisementLine::ObjectFormat),
            AdvertisementLine::ServerOption => Some(AdvertisementLine::ObjectFormat),
            AdvertisementLine::ObjectFormat if offer.object_info => {
                Some(AdvertisementLine::ObjectInfo)
            }
            AdvertisementLine::ObjectFormat => Some(AdvertisementLine::End),
            AdvertisementLine::ObjectInfo => Some(AdvertisementLine::End),
            AdvertisementLine::End => None,
        }
    }
}

// A line that names a command and its features, as far as it is written.
#[derive(Drop)]
struct FeaturesLine {
    text: ArrayString<LONGEST_LINE>,
    has_features: bool,
}

impl FeaturesLine {
    // The line with the command alone.
    fn of(key: &str) -> FeaturesLine
        requires { length key.now ≤ 47 }
        ensures names { Names result key.now [] }
        ensures count { length result.text.bytes ≡ length key.now }
    {
        let mut text = ArrayString::new();
        text.push_str(key);
        FeaturesLine {
            text,
            has_features: false,
        }
    }

    // Adds the feature, if it is advertised.
    fn add(&mut self, offered: bool, feature: &str)
        requires { length self.old.text.bytes + 1 + length feature.now ≤ 47 }
        ensures names { (key : List ℕ) (features : List (List ℕ)) → Names self.old key features
            → Names self.new key (features ++ where_offered offered feature.now) }
        ensures count { length self.new.text.bytes ≤ length self.old.text.bytes + 1 + length feature.now }
    {
        if !offered {
            return;
        }
        self.text.push_str(separator(self.has_features));
        self.text.push_str(feature);
        self.has_features = true;
    }

    // The text of the line, with an LF at its end.
    fn end(self) -> ArrayString<LONGEST_LINE>
        requires { length self.text.bytes + 1 ≤ 47 }
        ensures { result.bytes ≡ self.text.bytes ++ 10 ∷ [] }
    {
        let mut text = self.text;
        text.push_str("\n");
        text
    }
}

// The separator before the next feature.
fn separator(has_features: bool) -> &'static str
    ensures text { result.now ≡ separator_after has_features }
    ensures count { length result.now ≡ 1 }
{
    if has_features { " " } else { "=" }
}

// The line for `ls-refs`: its value names the advertised features.
fn ls_refs_line(offer: &Offer) -> ArrayString<LONGEST_LINE>
    ensures { result.bytes ≡ capability_text (codes "ls-refs") (ls_refs_features offer.now) ++ 10 ∷ [] }
{
    let mut line = FeaturesLine::of("ls-refs");
    line.add(offer.unborn, "unborn");
    line.end()
}

// The line that advertises `fetch`, with its features.
fn fetch_line(offer: &Offer) -> ArrayString<LONGEST_LINE>
    ensures { result.bytes ≡ capability_text (codes "fetch") (fetch_features offer.now) ++ 10 ∷ [] }
{
    let mut line = FeaturesLine::of("fetch");
    line.add(offer.shallow, "shallow");
    line.add(offer.ref_in_want, "ref-in-want");
    line.add(offer.wait_for_done, "wait-for-done");
    line.add(offer.filter, "filter");
    line.end()
}

// Appends the packet of a line with this text.
fn append_text(hold: &mut Hold, text: &ArrayString<LONGEST_LINE>)
    requires { length hold.old.items + length (spelling_of (payload text.now.bytes)) ≤ 65520 }
    ensures { hold.new.items ≡ hold.old.items ++ spelling_of (payload text.now.bytes) }
{
    append_packet(hold, Packet::Payload(text.as_str().as_bytes()));
}
