//! The limits on what a request may keep.
ghost use Rattle.std.specs.Prelude.{◌≡◌, ◌+◌, ◌≤◌, ◌<◌, OnErr, OnOk, MatchResult};
ghost use Rattle.git_msg.specs.Arguments.{most_limit};

use git_pkt::Kind;

/// How many bytes a request may keep.
#[derive(Clone, Copy, Debug)]
pub struct Limits {
    /// The maximum length of the texts of its argument lines and server options together; at most 1,073,741,824 bytes.
    pub args: u32,
    ghost in_range: { args ≤ most_limit },
}

impl Limits {
    /// The default limit: 16,777,216 bytes.
    pub const DEFAULT_ARGS: u32 = 16_777_216;

    /// Limits that consist of the default limit alone.
    pub const DEFAULT: Limits = Limits {
        args: Limits::DEFAULT_ARGS,
    };
}

const _: () = prove!(Limits::DEFAULT.args == Limits::DEFAULT_ARGS);

/// How many bytes the texts of a request's argument lines and server options may have, and how many they have so far.
#[derive(Clone, Copy, Debug)]
pub(crate) struct Budget {
    limit: u32,
    kept: u32,
    ghost within: { kept ≤ limit },
    ghost in_range: { limit ≤ most_limit },
}

impl Budget {
    pub(crate) fn new(limits: Limits) -> Budget
        ensures limit { result.limit ≡ limits.args }
        ensures kept { result.kept ≡ 0 }
    {
        Budget {
            limit: limits.args,
            kept: 0,
        }
    }

    /// How many bytes they have so far.
    pub(crate) fn kept(&self) -> u32
        ensures { result ≡ self.now.kept }
    {
        self.kept
    }

    /// How many bytes they may have.
    pub(crate) fn limits(&self) -> Limits
        ensures { result.args ≡ self.now.limit }
    {
        Limits { args: self.limit }
    }

    /// Counts a text of so many bytes, if it fits within the limit.
    pub(crate) fn charge(&mut self, text_length: usize) -> Result<(), Kind>
        ensures charged { OnOk result ((self.new.kept ≡ self.old.kept + text_length) × (self.new.limit ≡ self.old.limit)) }
        ensures unchanged { OnErr result (self.new ≡ self.old) }
        ensures sides { MatchResult result (λ _. self.old.kept + text_length ≤ self.old.limit)
            (λ kind. (self.old.limit < self.old.kept + text_length) × (kind ≡ Kind.TooMuchKept)) }
    {
        if text_length > (self.limit - self.kept) as usize {
            return Err(Kind::TooMuchKept);
        }
        self.kept += text_length as u32;
        Ok(())
    }
}
