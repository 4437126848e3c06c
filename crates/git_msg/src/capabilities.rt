//! Capability lines, as in gitprotocol-v2(5).

ghost use Rattle.std.specs.Prelude.{◌≡◌, ◌+◌, ◌*◌, ◌≤◌, [], length, unwrap_or, IfErr, IfOk, MatchResult};
ghost use Rattle.std.specs.Option.{option_copied};
ghost use Rattle.git_names.specs.Steps.{TakesAtMost};
ghost use Rattle.git_msg.specs.Capability.{IsCapability, IsNoCapability, is_key as is_key_text, is_value as is_value_text, is_key_byte as is_key_code};

use crate::texts::split_at_first;
use git_names::Steps;
use git_pkt::Kind;

/// A capability, as it stands in a line of an advertisement or of a request.
#[derive(Clone, Copy, Debug)]
pub struct Capability<'a> {
    /// One or more ASCII letters, digits, `-` or `_`.
    pub key: &'a [u8],
    /// The bytes after the first `=`, if there is one: any bytes but NUL and LF, possibly none.
    pub value: Option<&'a [u8]>,
}

/// Reads the text of a capability line, `key` or `key=value`. Any other text is `BadCapability`.
pub fn read_capability<'a>(text: &'a [u8], steps: &mut Steps) -> Result<Capability<'a>, Kind>
    ensures line { MatchResult result (λ c. IsCapability text.now c.key.now (option_copied c.value)) (λ kind. IsNoCapability text.now) }
    ensures kind { IfErr result (λ kind. kind ≡ Kind.BadCapability) }
    ensures within { IfOk result (λ c. length c.key.now + length (unwrap_or (option_copied c.value) []) ≤ length text.now) }
    ensures cost { TakesAtMost (4 * (length text.now + 1)) steps.old steps.new }
{
    // A search, and one look at each byte of the key and of the value.
    steps.tick(text.len() + 2);
    steps.tick(text.len() + 1);
    let (key, value) = split_at_first(text, b'=');
    if !is_key(key) {
        return Err(Kind::BadCapability);
    }
    if !is_value(value.unwrap_or(b"")) {
        return Err(Kind::BadCapability);
    }
    Ok(Capability { key, value })
}

fn is_key(text: &[u8]) -> bool
    ensures value { result ≡ is_key_text text.now }
{
    !text.is_empty() && text.iter().all(|byte| is_key_byte(*byte))
}

/// Whether each byte may stand in a value.
pub(crate) fn is_value(text: &[u8]) -> bool
    ensures value { result ≡ is_value_text text.now }
{
    text.iter().all(|byte| *byte != 0 && *byte != b'\n')
}

fn is_key_byte(byte: u8) -> bool
    ensures value { result ≡ is_key_code byte }
{
    byte.is_ascii_alphanumeric() || byte == b'-' || byte == b'_'
}
