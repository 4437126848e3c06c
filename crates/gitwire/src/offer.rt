//! What a server advertises, as C passes it, and what a client noted of that, as C asks for it: the number of a format, the sum of features, and
//! the numbers of keys.

ghost use Rattle.std.specs.Prelude.{◌≡◌, ◌≤◌, MatchOption};
ghost use Rattle.gitwire.specs.Offers.{MeansAgent, MeansNoAgent, features_shown, has_feature, is_noted, offer_meant, where_shown};

use crate::numbers::format_numbered;
use git_msg::{Agent, Caps, Offer};

/// The feature `unborn` of `ls-refs`.
pub const UNBORN: u32 = 1;

/// The feature `shallow` of `fetch`.
pub const SHALLOW: u32 = 2;

/// The feature `ref-in-want` of `fetch`.
pub const REF_IN_WANT: u32 = 4;

/// The feature `wait-for-done` of `fetch`.
pub const WAIT_FOR_DONE: u32 = 8;

/// The capability `server-option`.
pub const SERVER_OPTION: u32 = 16;

/// The command `object-info`.
pub const OBJECT_INFO: u32 = 32;

/// The feature `filter` of `fetch`.
pub const FILTER: u32 = 64;

/// The sum of all features.
pub const ALL_FEATURES: u32 = 127;

/// The offer that these numbers mean, of the features of this sum, [`UNBORN`] to [`FILTER`]; none if the format's number means none, or a bit is no
/// feature's.
pub(crate) fn offer_numbered(format: u32, features: u32) -> Option<Offer>
    ensures { result ≡ offer_meant format features }
{
    if features > ALL_FEATURES {
        return None;
    }
    let Some(format) = format_numbered(format) else {
        return None;
    };
    Some(Offer {
        format,
        unborn: has(features, UNBORN),
        shallow: has(features, SHALLOW),
        ref_in_want: has(features, REF_IN_WANT),
        wait_for_done: has(features, WAIT_FOR_DONE),
        filter: has(features, FILTER),
        object_info: has(features, OBJECT_INFO),
        server_option: has(features, SERVER_OPTION),
        agent: Agent::own(),
    })
}

/// The agent of this name; an empty text is this library's own. None if there is no such name.
pub(crate) fn agent_named(name: &[u8]) -> Option<Agent>
    ensures { MatchOption result (MeansNoAgent name.now) (MeansAgent name.now) }
{
    match name {
        [] => Some(Agent::own()),
        _ => Agent::new(name),
    }
}

// Whether a feature is in the sum.
fn has(features: u32, feature: u32) -> bool
    ensures { result ≡ has_feature features feature }
{
    features & feature != 0
}

/// The sum of the features that were noted of an advertisement.
pub(crate) fn features_noted(caps: &Caps) -> u32
    ensures { result ≡ features_shown caps.now }
{
    where_noted(caps.unborn, UNBORN)
        + where_noted(caps.shallow, SHALLOW)
        + where_noted(caps.ref_in_want, REF_IN_WANT)
        + where_noted(caps.wait_for_done, WAIT_FOR_DONE)
        + where_noted(caps.server_option, SERVER_OPTION)
        + where_noted(caps.object_info, OBJECT_INFO)
        + where_noted(caps.filter, FILTER)
}

// The feature, if it was noted.
fn where_noted(noted: bool, feature: u32) -> u32
    ensures value { result ≡ where_shown noted feature }
    ensures small { result ≤ feature }
{
    if noted { feature } else { 0 }
}

/// Whether the key of this number was noted of an advertisement; a number of no key was not.
pub(crate) fn key_noted(caps: &Caps, key: u32) -> bool
    ensures { result ≡ is_noted key caps.now }
{
    match key {
        1 => caps.agent,
        2 => caps.ls_refs,
        3 => caps.fetch,
        4 => caps.object_format,
        5 => caps.sha1,
        6 => caps.sha256,
        _ => false,
    }
}
