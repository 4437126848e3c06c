//! The sections of a response to `fetch`, gitprotocol-v2(5).

ghost use Rattle.std.specs.Prelude.{◌≡◌, [], Some};
ghost use Rattle.git_client.specs.Sections.{allows, next_allowed, allowed_after, header_of, section_named};

use git_msg::is_word;

/// A section of a response to `fetch`.
#[derive(Clone, Copy, Debug, PartialEq, Eq)]
pub enum Section {
    /// Which objects of the request both sides have.
    Acknowledgments,
    /// The boundary of a shallow history.
    ShallowInfo,
    /// The references that were requested by their names.
    WantedRefs,
    /// The pack, and the progress of the server beside it.
    Packfile,
}

impl Section {
    /// The text of its header.
    pub fn name(self) -> &'static str
        ensures text { result.now ≡ header_of self }
        ensures header { section_named result.now ≡ Some self }
    {
        match self {
            Section::Acknowledgments => "acknowledgments",
            Section::ShallowInfo => "shallow-info",
            Section::WantedRefs => "wanted-refs",
            Section::Packfile => "packfile",
        }
    }
}

/// Which sections may begin, besides the packfile, which always may.
#[derive(Clone, Copy, Debug, PartialEq, Eq)]
pub(crate) struct Allowed {
    pub(crate) acknowledgments: bool,
    pub(crate) shallow_info: bool,
    pub(crate) wanted_refs: bool,
}

/// The lines of the acknowledgments that have come so far.
#[derive(Clone, Copy, Debug, PartialEq, Eq)]
pub(crate) struct Acks {
    /// Any line.
    pub(crate) any: bool,
    /// The line `NAK`.
    pub(crate) nak: bool,
    /// The line `ready`.
    pub(crate) ready: bool,
}

impl Acks {
    /// None has come yet.
    pub(crate) const NOTHING: Acks = Acks {
        any: false,
        nak: false,
        ready: false,
    };
}

impl Allowed {
    /// After the acknowledgments every other section may come.
    pub(crate) const AFTER_ACKNOWLEDGMENTS: Allowed = Allowed {
        acknowledgments: false,
        shallow_info: true,
        wanted_refs: true,
    };

    /// At the start of a response: only a request without `done` is answered with acknowledgments.
    pub(crate) fn at_head(done: bool) -> Allowed
        ensures { result ≡ allowed_after done [] }
    {
        Allowed {
            acknowledgments: !done,
            shallow_info: true,
            wanted_refs: true,
        }
    }

    /// Whether the section may begin.
    pub(crate) fn allows(&self, section: Section) -> bool
        ensures { result ≡ allows self.now section }
    {
        match section {
            Section::Acknowledgments => self.acknowledgments,
            Section::ShallowInfo => self.shallow_info,
            Section::WantedRefs => self.wanted_refs,
            Section::Packfile => true,
        }
    }

    /// The sections that may begin after this one: the acknowledgments come first, and each section comes once.
    pub(crate) fn after(&self, section: Section) -> Allowed
        ensures { result ≡ next_allowed self.now section }
    {
        Allowed {
            acknowledgments: false,
            shallow_info: self.shallow_info & !matches!(section, Section::ShallowInfo),
            wanted_refs: self.wanted_refs & !matches!(section, Section::WantedRefs),
        }
    }
}

/// The section with this text as its header.
pub(crate) fn read_header(text: &[u8]) -> Option<Section>
    ensures { result ≡ section_named text.now }
{
    if is_word(text, b"acknowledgments") {
        return Some(Section::Acknowledgments);
    }
    if is_word(text, b"shallow-info") {
        return Some(Section::ShallowInfo);
    }
    if is_word(text, b"wanted-refs") {
        return Some(Section::WantedRefs);
    }
    if is_word(text, b"packfile") {
        return Some(Section::Packfile);
    }
    None
}
