//! Reference names.

ghost use Rattle.std.specs.Prelude.{◌≡◌, ◌≢◌, ℕ, ◌+◌, ◌*◌, ◌<◌, ◌≤◌, ◌↔◌, codes, length, slice_index, take, IsTrue, MatchResult};
ghost use Rattle.git_names.specs.RefName.{BeginsWith, IsRefName};
ghost use Rattle.git_names.specs.NextByte.{IsPlain, MayFollow};
ghost use Rattle.git_names.specs.Steps.{TakesAtMost};

use crate::counter::Steps;
use crate::fault::NameFault;
use bstr::ByteSlice;

/// A reference name: `HEAD`, or a name below `refs/` of at most 32,000 bytes that keeps the rules of
/// git-check-ref-format(1). Bytes from 0x80 on are allowed.
#[derive(Clone, Copy, Debug)]
pub struct RefName<'a> {
    text: &'a [u8],
    ghost named: { IsRefName text.now },
}

// The maximum length of a reference name, in bytes.
const MOST_BYTES: usize = 32_000;

// A dot marks each byte that a rule mentions. Every other byte has itself at its place, or an x if it is 0x80 or more.
static PLAIN_BYTES: [u8; 256] = *b"\
    ................................\
    .!\"#$%&'().+,-..0123456789.;<=>.\
    @ABCDEFGHIJKLMNOPQRSTUVWXYZ..]._\
    `abcdefghijklmnopqrstuvwxyz.|}..\
    xxxxxxxxxxxxxxxxxxxxxxxxxxxxxxxx\
    xxxxxxxxxxxxxxxxxxxxxxxxxxxxxxxx\
    xxxxxxxxxxxxxxxxxxxxxxxxxxxxxxxx\
    xxxxxxxxxxxxxxxxxxxxxxxxxxxxxxxx";

impl<'a> RefName<'a> {
    ghost use Rattle.git_names.specs.NameBytes.{name_bytes};

    /// The reference name that is `text`, or `BadRefName` if it breaks a rule.
    pub fn read(text: &'a [u8], steps: &mut Steps) -> Result<RefName<'a>, NameFault>
        ensures name { MatchResult result (λ name. (name_bytes name ≡ text.now) × IsRefName text.now)
            (λ fault. (fault ≡ NameFault.BadRefName) × ¬ IsRefName text.now) }
        ensures cost { TakesAtMost (16 * (length text.now + 1)) steps.old steps.new }
    {
        if !is_ref_name(text, steps) {
            return Err(NameFault::BadRefName);
        }
        Ok(RefName { text })
    }

    /// The bytes of the name.
    pub fn as_bytes(&self) -> &'a [u8]
        ensures value { result.now ≡ name_bytes self.now }
        ensures name { IsRefName (name_bytes self.now) }
    {
        self.text
    }
}

// `HEAD` keeps the rules about which byte may follow which, too, so it takes the same path.
fn is_ref_name(text: &[u8], steps: &mut Steps) -> bool
    ensures name { IsTrue result ↔ IsRefName text.now }
    ensures cost { TakesAtMost (16 * (length text.now + 1)) steps.old steps.new }
{
    if !begins_well(text, steps) {
        return false;
    }
    if text.len() > MOST_BYTES {
        return false;
    }
    if !follows_well(text, steps) {
        return false;
    }
    steps.tick(2);
    if text.ends_with_str(b".") {
        return false;
    }
    // If a slash may follow, the last component is not empty and does not end with `.lock`.
    may_follow(text, b'/', steps)
}

fn begins_well(text: &[u8], steps: &mut Steps) -> bool
    ensures begins { IsTrue result ↔ (text.now ≢ codes "HEAD" → BeginsWith text.now (codes "refs/")) }
    ensures some { IsTrue result → 0 < length text.now }
    ensures cost { TakesAtMost 11 steps.old steps.new }
{
    steps.tick(5 + 6);
    if text == b"HEAD".as_slice() {
        return true;
    }
    text.starts_with_str(b"refs/")
}

// Whether each byte may follow those before it.
fn follows_well(text: &[u8], steps: &mut Steps) -> bool
    ensures follows { IsTrue result ↔ ((k : ℕ) → k < length text.now → MayFollow (take k text.now) (slice_index text.now k)) }
    ensures cost { TakesAtMost (9 * length text.now) steps.old steps.new }
{
    for (i, byte) in text.iter().enumerate() {
        steps.tick(1);
        if !is_plain(*byte) && !may_follow(&text[..i], *byte, steps) {
            return false;
        }
    }
    true
}

// Whether the rules let the byte follow `front`.
fn may_follow(front: &[u8], byte: u8, steps: &mut Steps) -> bool
    ensures follows { IsTrue result ↔ MayFollow front.now byte }
    ensures cost { TakesAtMost 8 steps.old steps.new }
{
    steps.tick(2 + 6);
    match byte {
        b'/' => !front.ends_with_str(b"/") && !front.ends_with_str(b".lock"),
        b'.' => !front.ends_with_str(b".") && !front.ends_with_str(b"/"),
        b'{' => !front.ends_with_str(b"@"),
        0..=b' ' | b'*' | b':' | b'?' | b'[' | b'\\' | b'^' | b'~' | 0x7f => false,
        _ => true,
    }
}

// Whether the byte may follow any other, as most bytes of a name may.
fn is_plain(byte: u8) -> bool
    ensures plain { IsTrue result → IsPlain byte }
{
    PLAIN_BYTES[byte as usize] != b'.'
}
