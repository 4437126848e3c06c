//! A client of any object format: it takes the one that the server advertises.

ghost use Rattle.std.specs.Prelude.{◌≡◌, true};
ghost use Rattle.std.specs.Option.{ForSome};
ghost use Rattle.git_names.specs.declared.object_format.Format.{Format};
ghost use Rattle.git_pkt.specs.Machine.Credit.{credit_of};
ghost use Rattle.git_client.specs.Parts.{Terms, terms_of};
ghost use Rattle.git_client.specs.Machine.Choosing.{format_by, is_advertised, is_advertising};

use crate::client::Client;
use crate::events::Ending;
use crate::phase::{Expected, Phase};
use git_msg::{Agent, Caps};
use git_names::Format;
use std::alloc::Allocator;

impl<A: Allocator + Copy> Client<A> {
    ghost use Rattle.git_client.specs.Machine.Client.{Converses, History, is_of_any_format, nothing_yet, reader_of, wants_input};
    ghost use Rattle.git_client.specs.Machine.Choosing.{ChoosesFormat, format_known};

    /// A client of any object format that names this library's own agent, before the first byte of the advertisement. Call
    /// [`Client::choose_format`] before each [`Client::feed`]; until then its format is SHA-1.
    pub fn new_of_any_format(ending: Ending) -> Self
        ensures converses { Converses (terms_of Format.Sha1 ending) nothing_yet result }
        ensures waits { wants_input result ≡ true }
        ensures credit { credit_of (reader_of result) ≡ 0 }
        ensures any { is_of_any_format result ≡ true }
    {
        Client::with_agent(Agent::own(), None, ending)
    }

    /// Chooses the object format of a client of any format, by the lines of the advertisement so far: SHA-1 if they name it or name
    /// no format, and otherwise SHA-256. Nothing changes once the advertisement is whole, or in a client that was made with one format.
    pub fn choose_format(&mut self)
        ensures { ChoosesFormat self.old self.new }
    {
        if self.of_any_format && self.phase.is_advertising() {
            self.format = format_by(&self.caps);
        }
    }

    /// The object format of the conversation. None until the advertisement is whole, and after an error.
    pub fn format(&self) -> Option<Format>
        ensures value { result ≡ format_known self.now }
        ensures spoken { (t : Terms) (h : History) → Converses t h self.now → ForSome result (λ format. format ≡ t.format) }
    {
        if !self.phase.is_advertised() {
            return None;
        }
        Some(self.format)
    }
}

impl Phase {
    /// Whether the advertisement is not whole yet.
    fn is_advertising(&self) -> bool
        ensures { result ≡ is_advertising self.now }
    {
        match self {
            Phase::Receiving(Expected::Version) => true,
            Phase::Receiving(Expected::Capabilities) => true,
            _ => false,
        }
    }

    /// Whether the advertisement is whole, and there was no error after it.
    fn is_advertised(&self) -> bool
        ensures { result ≡ is_advertised self.now }
    {
        match self {
            Phase::Failed(_) => false,
            _ => !self.is_advertising(),
        }
    }
}

/// The object format that these lines of an advertisement ask for.
fn format_by(caps: &Caps) -> Format
    ensures { result ≡ format_by caps.now }
{
    if caps.speaks(Format::Sha1) {
        return Format::Sha1;
    }
    Format::Sha256
}
