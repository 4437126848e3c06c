//! A reference by its texts, which are checked, and then written to its line.

ghost use Rattle.std.specs.Prelude.{◌≡◌, ◌+◌, ◌≤◌, ◌++◌, MatchResult, None, codes, if◌then◌else◌, length};
ghost use Rattle.std.specs.Option.{ForSome, option_copied};
ghost use Rattle.arrayvec.specs.ArrayVec.{array_vec_len};
ghost use Rattle.git_names.specs.RefName.{IsRefName};
ghost use Rattle.git_pkt.specs.Packets.{spelling_of};
ghost use Rattle.git_host.specs.ReferenceTexts.{AreAttributes, FitLine, HasBadTarget, RefusesAttributes, attribute_text, texts_line, texts_with};

use crate::report::{HostReported, ReferenceFault};
use crate::written_digits::written_digits;
use git_names::{Format, RefName, Steps};
use git_pkt::{Hold, append, begin};

/// A reference by its texts.
#[derive(Clone, Copy, Debug)]
pub struct ReferenceTexts<'a> {
    /// The digits of its object, of either case.
    pub digits: &'a [u8],
    /// Its name.
    pub name: &'a [u8],
    /// For a symbolic reference, the name of the reference that it points to.
    pub target: Option<&'a [u8]>,
    /// For an annotated tag, the digits of the object that it peels to, of either case.
    pub peeled: Option<&'a [u8]>,
}

/// Checks that a text is a reference name.
pub(crate) fn check_name(name: &[u8]) -> Result<(), ReferenceFault>
    ensures { MatchResult result (λ found. IsRefName name.now) (λ fault. (fault ≡ ReferenceFault.BadRefName) × ¬ IsRefName name.now) }
{
    match RefName::read(name, &mut Steps::new()) {
        Ok(_) => Ok(()),
        Err(_) => Err(ReferenceFault::BadRefName),
    }
}

fn check_target(target: Option<&[u8]>) -> Result<(), ReferenceFault>
    ensures { MatchResult result (λ found. ForSome (option_copied target.entry) IsRefName)
        (λ fault. (fault ≡ ReferenceFault.BadRefName) × HasBadTarget (option_copied target.entry)) }
{
    match target {
        Some(target) => check_name(target),
        None => Ok(()),
    }
}

/// Checks the target of a reference and the object that it peels to, each if there is one, and returns the digits of that object in lower case.
/// They are written to `space`, unless they are so already.
pub(crate) fn check_attributes<'a>(
    format: Format,
    target: Option<&[u8]>,
    peeled: Option<&'a [u8]>,
    space: &'a mut [u8; 64],
) -> Result<Option<&'a [u8]>, ReferenceFault>
    ensures { MatchResult result (λ digits. AreAttributes format (option_copied target.entry) (option_copied peeled.entry) (option_copied digits))
        (RefusesAttributes format (option_copied target.entry) (option_copied peeled.entry)) }
{
    check_target(target)?;
    let Some(text) = peeled else {
        return Ok(None);
    };
    match written_digits(format, text, space) {
        Some(digits) => Ok(Some(digits)),
        None => Err(ReferenceFault::BadObjectName),
    }
}

/// The text of an attribute, if the request asks for it.
pub(crate) fn where_asked(asked: bool, text: Option<&[u8]>) -> Option<&[u8]>
    ensures { option_copied result ≡ (if asked then option_copied text.entry else None) }
{
    if !asked {
        return None;
    }
    text
}

/// Makes the hold the line of a reference with these texts, if it has a packet. The digits are in lower case.
// Inlined, as what it calls: there is one such line for each reference of a repository, and the texts are then kept in registers.
#[inline(always)]
pub(crate) fn put_reported(
    hold: &mut Hold,
    reported: HostReported,
    digits: &[u8],
    name: &[u8],
    target: Option<&[u8]>,
    peeled: Option<&[u8]>,
)
    requires { FitLine (texts_with name.now digits.now (option_copied target) (option_copied peeled)) }
    ensures { reported ≡ HostReported.Packet → hold.new.items ≡ spelling_of (texts_line (texts_with name.now digits.now (option_copied target.entry)
        (option_copied peeled.entry))) }
{
    if let HostReported::Packet = reported {
        put_texts(hold, digits, name, target, peeled);
    }
}

#[inline(always)]
fn put_texts(
    hold: &mut Hold,
    digits: &[u8],
    name: &[u8],
    target: Option<&[u8]>,
    peeled: Option<&[u8]>,
)
    requires { FitLine (texts_with name.now digits.now (option_copied target) (option_copied peeled)) }
    ensures { hold.new.items ≡ spelling_of (texts_line (texts_with name.now digits.now (option_copied target.entry) (option_copied peeled.entry))) }
{
    let attributes = length_of(b" symref-target:", target) + length_of(b" peeled:", peeled);
    begin(hold, digits.len() + name.len() + attributes + 2);
    append(hold, digits);
    append(hold, b" ");
    append(hold, name);
    append_attribute(hold, b" symref-target:", target);
    append_attribute(hold, b" peeled:", peeled);
    append(hold, b"\n");
}

// The length of an attribute: of this word and its text.
#[inline(always)]
fn length_of(word: &[u8], text: Option<&[u8]>) -> usize
    requires { length (attribute_text word.now (option_copied text)) ≤ 65000 }
    ensures { result ≡ length (attribute_text word.now (option_copied text.entry)) }
{
    match text {
        Some(text) => word.len() + text.len(),
        None => 0,
    }
}

#[inline(always)]
fn append_attribute(hold: &mut Hold, word: &[u8], text: Option<&[u8]>)
    requires { array_vec_len hold.old + length (attribute_text word.now (option_copied text)) ≤ 65520 }
    ensures { hold.new.items ≡ hold.old.items ++ attribute_text word.now (option_copied text.entry) }
{
    if let Some(text) = text {
        append(hold, word);
        append(hold, text);
    }
}
