//! The name of a reference, held against the name of the reference before it: bytes that both begin with are checked only once.

ghost use Rattle.std.specs.Prelude.{◌≡◌, ◌≢◌, ◌≤◌, ◌↔◌, IfSome, IsTrue, None, Some, [], ◌∷◌, codes, length};
ghost use Rattle.std.specs.Option.{option_copied};
ghost use Rattle.git_names.specs.NextByte.{MayFollow};
ghost use Rattle.git_names.specs.RefName.{EndsWith, IsRefName};
ghost use Rattle.git_server.specs.Repository.{comes_before};
ghost use Rattle.git_host.specs.NextNames.{FollowsFrom, HoldsUpTo, IsCommon, Judges};

use git_names::{RefName, Steps};

/// What the name of a reference shows.
#[derive(Clone, Copy)]
pub(crate) enum NextName {
    // It is no reference name.
    Bad,
    // It does not come after the one before it.
    Unsorted,
    // It comes next.
    Next,
}

// The maximum length of a reference name, in bytes.
const MOST_BYTES: usize = 32_000;

/// Checks the name of a reference that comes after the one with this name, if there is one.
pub(crate) fn judge_name(last: Option<&[u8]>, name: &[u8]) -> NextName
    requires { IfSome last (λ last. IsRefName last.now) }
    ensures { Judges (option_copied last.entry) name.now result }
{
    match last {
        Some(last) => judge_after(last, name),
        None => judge_first(name),
    }
}

fn judge_first(name: &[u8]) -> NextName
    ensures { Judges None name.now result }
{
    match RefName::read(name, &mut Steps::new()) {
        Ok(_) => NextName::Next,
        Err(_) => NextName::Bad,
    }
}

fn judge_after(last: &[u8], name: &[u8]) -> NextName
    requires { IsRefName last.now }
    ensures { Judges (Some last.now) name.now result }
{
    let same = common_length(last, name);
    if !is_name_from(name, same) {
        return NextName::Bad;
    }
    if !comes_after_at(last, name, same) {
        return NextName::Unsorted;
    }
    NextName::Next
}

// How many bytes both texts begin with.
fn common_length(a: &[u8], b: &[u8]) -> usize
    ensures { IsCommon a.now b.now result }
{
    let most = a.len().min(b.len());
    let mut at = 0;
    while at < most && a[at] == b[at] {
        at += 1;
    }
    at
}

// Whether the name comes after the last one. Both begin with this many bytes, and no more.
fn comes_after_at(last: &[u8], name: &[u8], same: usize) -> bool
    requires { IsCommon last.now name.now same }
    ensures { result ≡ comes_before last.now name.now }
{
    if same == name.len() {
        return false;
    }
    if same == last.len() {
        return true;
    }
    last[same] < name[same]
}

// Whether the text is a reference name, if it keeps the rules up to this place.
fn is_name_from(name: &[u8], from: usize) -> bool
    requires { HoldsUpTo name.now from }
    ensures { IsTrue result ↔ IsRefName name.now }
{
    // With fewer bytes of it in common, its front is not known to be `refs/`.
    if from < 5 {
        return RefName::read(name, &mut Steps::new()).is_ok();
    }
    if name.len() > MOST_BYTES {
        return false;
    }
    if !follows_from(name, from) {
        return false;
    }
    if ends_with_byte(name, b'.') {
        return false;
    }
    // If a slash may follow, the last component is not empty and does not end with `.lock`.
    may_follow(name, b'/')
}

// Whether each byte from this place on may follow those before it.
fn follows_from(name: &[u8], from: usize) -> bool
    requires { from ≤ length name.now }
    ensures { IsTrue result ↔ FollowsFrom name.now from }
{
    let mut at = from;
    while at < name.len() {
        if !may_follow(&name[..at], name[at]) {
            return false;
        }
        at += 1;
    }
    true
}

// Whether the rules let the byte follow `front`.
fn may_follow(front: &[u8], byte: u8) -> bool
    ensures { IsTrue result ↔ MayFollow front.now byte }
{
    match byte {
        b'/' => !ends_with_byte(front, b'/') && !ends_with_lock(front),
        b'.' => !ends_with_byte(front, b'.') && !ends_with_byte(front, b'/'),
        b'{' => !ends_with_byte(front, b'@'),
        0..=b' ' | b'*' | b':' | b'?' | b'[' | b'\\' | b'^' | b'~' | 0x7f => false,
        _ => true,
    }
}

fn ends_with_byte(text: &[u8], byte: u8) -> bool
    ensures { IsTrue result ↔ EndsWith text.now (byte ∷ []) }
{
    if text.is_empty() {
        return false;
    }
    text[text.len() - 1] == byte
}

// Whether the text ends with `.lock`.
fn ends_with_lock(text: &[u8]) -> bool
    ensures { IsTrue result ↔ EndsWith text.now (codes ".lock") }
{
    if text.len() < 5 {
        return false;
    }
    let at = text.len() - 5;
    // Few names end with a `k`.
    text[at + 4] == b'k'
        && text[at] == b'.'
        && text[at + 1] == b'l'
        && text[at + 2] == b'o'
        && text[at + 3] == b'c'
}
