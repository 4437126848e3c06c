//! Flags: the arguments that are a word alone, and the set of them that a request has.
ghost use Rattle.std.specs.Prelude.{◌≡◌, ◌<◌, ◌≤◌, ◌==◌, ◌||◌, ℕ, Some, false, get_or, length};
ghost use Rattle.git_msg.specs.Flags.{flag_row};
ghost use Rattle.git_msg.specs.Machine.ArgumentLists.{is_held, place_of};

use crate::arguments::Command;
use crate::offers::Offer;

/// An argument that is a word alone.
#[derive(Clone, Copy, Debug, PartialEq, Eq, Hash)]
pub enum Flag {
    /// `peel` of `ls-refs`: send the object that an annotated tag peels to.
    Peel,
    /// `symrefs` of `ls-refs`: send what symbolic references point to.
    Symrefs,
    /// `unborn` of `ls-refs`: send what `HEAD` points to if that has no commit yet.
    Unborn,
    /// `thin-pack` of `fetch`: the pack may have deltas against objects that are not in it.
    ThinPack,
    /// `no-progress` of `fetch`: send no progress beside the pack.
    NoProgress,
    /// `include-tag` of `fetch`: send annotated tags with the objects that they point to.
    IncludeTag,
    /// `ofs-delta` of `fetch`: the pack may name the base of a delta by its place in the pack.
    OfsDelta,
    /// `wait-for-done` of `fetch`: send no pack before the request contains `done`.
    WaitForDone,
    /// `deepen-relative` of `fetch`: count the depth from where the client's history is cut off now.
    DeepenRelative,
    /// `done` of `fetch`: do not negotiate any further, and send the pack.
    Done,
    /// `size` of `object-info`: send how many bytes the objects have.
    Size,
}

// At least as many places as there are flags.
const PLACES: usize = 16;

impl Flag {
    /// The flag's text, as it is written.
    pub fn word(self) -> &'static [u8]
        ensures value { result.now ≡ (flag_row self).keyword }
        ensures short { length result.now ≤ 15 }
    {
        match self {
            Flag::Peel => b"peel",
            Flag::Symrefs => b"symrefs",
            Flag::Unborn => b"unborn",
            Flag::ThinPack => b"thin-pack",
            Flag::NoProgress => b"no-progress",
            Flag::IncludeTag => b"include-tag",
            Flag::OfsDelta => b"ofs-delta",
            Flag::WaitForDone => b"wait-for-done",
            Flag::DeepenRelative => b"deepen-relative",
            Flag::Done => b"done",
            Flag::Size => b"size",
        }
    }

    /// The command that has the flag.
    pub fn command(self) -> Command
        ensures { Some result ≡ (flag_row self).command }
    {
        match self {
            Flag::Peel | Flag::Symrefs | Flag::Unborn => Command::LsRefs,
            Flag::Size => Command::ObjectInfo,
            _ => Command::Fetch,
        }
    }

    /// Whether the feature that the flag needs was advertised.
    pub(crate) fn is_offered(self, offer: &Offer) -> bool
        ensures { result ≡ (flag_row self).offered offer.now }
    {
        match self {
            Flag::Unborn => offer.unborn,
            Flag::WaitForDone => offer.wait_for_done,
            Flag::DeepenRelative => offer.shallow,
            _ => true,
        }
    }

    // The flag's index among all flags: the variants are in the order in which they are written.
    fn place(self) -> usize
        ensures value { result ≡ place_of self }
        ensures below { result < PLACES }
    {
        self as usize
    }
}

/// The flags that a request has.
#[derive(Clone, Copy, Drop)]
pub(crate) struct FlagSet {
    set: [bool; PLACES],
}

impl FlagSet {
    pub(crate) fn new() -> FlagSet
        ensures { (place : ℕ) → get_or result.set place false ≡ false }
    {
        FlagSet {
            set: [false; PLACES],
        }
    }

    pub(crate) fn has(&self, flag: Flag) -> bool
        ensures { result ≡ is_held self.now flag }
    {
        self.set[flag.place()]
    }

    pub(crate) fn add(&mut self, flag: Flag)
        ensures { (place : ℕ) → get_or self.new.set place false ≡ ((place == place_of flag) || get_or self.old.set place false) }
    {
        self.set[flag.place()] = true;
    }
}
