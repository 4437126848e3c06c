//! Reading reference lines.
ghost use Rattle.std.specs.Prelude.{◌≡◌, ◌+◌, ◌-◌, ◌*◌, ◌≤◌, IfOk, OnOk, MatchResult, length};
ghost use Rattle.std.specs.Option.{option_copied};
ghost use Rattle.git_names.specs.Steps.{TakesAtMost};
ghost use Rattle.git_msg.specs.Checks.{Refuses};
ghost use Rattle.git_msg.specs.References.{FitsIn, IsAttributeFault, IsIdText, IsNoIdText, IsReferenceFault, IsReferenceLine};
ghost use Rattle.git_msg.specs.References.{attribute_checks, reference_at, shown_reference};
ghost use Rattle.git_msg.specs.Texts.{IsLeftOf, bytes_left, parts_left};
ghost use Rattle.git_msg.specs.ReferenceParts.{AreLocated, BeginsWithId, BeginsWithName, BeginsWithNoName, IsFound};

use crate::reference_places::{Part, ReferencePlaces};
use crate::references::Reference;
use crate::texts::{after, is_word, split_at_first};
use git_names::{Format, NameFault, Oid, RefName, Steps};
use git_pkt::Kind;

/// Reads the text of a reference line: an object name or `unborn`, a space and a reference name, then attributes, each after
/// one space. Unknown attributes are ignored. A text without a space is `BadLine`; then, from left to right, `BadObjectName`
/// and `BadRefName`.
pub fn read_reference<'a>(
    format: Format,
    text: &'a [u8],
    steps: &mut Steps,
) -> Result<Reference<'a>, Kind>
    ensures line { MatchResult result (λ reference. IsReferenceLine format text.now (shown_reference reference))
        (IsReferenceFault format text.now) }
    ensures cost { TakesAtMost (40 * (length text.now + 1)) steps.old steps.new }
{
    let mut places = ReferencePlaces::new();
    locate_reference(format, text, &mut places, steps)?;
    Ok(places.reference(text))
}

/// Reads the text of a reference line as [`read_reference`] does, and writes the places of its parts over `places`. If the
/// line is refused, `places` means nothing afterwards.
// Each part is written directly to its final place: a name that is passed up through results is copied at each of them, and
// loaded just after it was stored in parts, which is slow.
#[inline(always)]
pub fn locate_reference(
    format: Format,
    text: &[u8],
    places: &mut ReferencePlaces,
    steps: &mut Steps,
) -> Result<(), Kind>
    ensures line { MatchResult result
        (λ _. IsReferenceLine format text.now (reference_at places.new text.now) × FitsIn places.new (length text.now))
        (IsReferenceFault format text.now) }
    ensures cost { TakesAtMost (40 * (length text.now + 1)) steps.old steps.new }
{
    let rest = split_id(format, text, &mut places.id, steps)?;
    let (name, words) = split_name(rest, steps)?;
    places.name_length = name.len();
    read_attributes(format, text, words, places, steps)?;
    Ok(())
}

/// Finds the object that the first word of a line names, none if that is `unborn`, and returns the text after the space that
/// ends the word. Most lines begin with the digits of an object's name and a space: digits contain no space, so these lines
/// need no search for one.
#[inline(always)]
fn split_id<'a>(
    format: Format,
    text: &'a [u8],
    id: &mut Option<Oid>,
    steps: &mut Steps,
) -> Result<&'a [u8], Kind>
    ensures parts { MatchResult result (λ rest. BeginsWithId format text.now id.new rest.now) (IsReferenceFault format text.now) }
    ensures cost { MatchResult result
        (λ rest. TakesAtMost (length text.now + 3 + 17 * (length text.now - length rest.now)) steps.old steps.new)
        (λ _. TakesAtMost (20 * (length text.now + 1)) steps.old steps.new) }
{
    let end = format.digits();
    if text.len() <= end || text[end] != b' ' || text[0] == b'u' {
        return search_id(format, text, id, steps);
    }
    steps.tick(2);
    match Oid::read(format, &text[..end], steps) {
        Ok(found) => {
            *id = Some(found);
            Ok(&text[end + 1..])
        }
        Err(_) => Err(Kind::BadObjectName),
    }
}

/// The same for any line, by a search. Two bytes of the line have been looked at.
#[inline(never)]
fn search_id<'a>(
    format: Format,
    text: &'a [u8],
    id: &mut Option<Oid>,
    steps: &mut Steps,
) -> Result<&'a [u8], Kind>
    ensures parts { MatchResult result (λ rest. BeginsWithId format text.now id.new rest.now) (IsReferenceFault format text.now) }
    ensures cost { MatchResult result
        (λ rest. TakesAtMost (length text.now + 3 + 17 * (length text.now - length rest.now)) steps.old steps.new)
        (λ _. TakesAtMost (20 * (length text.now + 1)) steps.old steps.new) }
{
    steps.tick(text.len() + 3);
    let (word, Some(rest)) = split_at_first(text, b' ') else {
        return Err(Kind::BadLine);
    };
    match read_id(format, word, steps) {
        Ok(found) => {
            *id = found;
            Ok(rest)
        }
        Err(kind) => Err(kind),
    }
}

/// The object that the first word of a line names; none if the word is `unborn`.
fn read_id(format: Format, word: &[u8], steps: &mut Steps) -> Result<Option<Oid>, Kind>
    ensures id { MatchResult result (IsIdText format word.now) (λ kind. IsNoIdText format word.now × (kind ≡ Kind.BadObjectName)) }
    ensures cost { TakesAtMost (17 * (length word.now + 1)) steps.old steps.new }
{
    steps.tick(word.len().min(6) + 1);
    if is_word(word, b"unborn") {
        return Ok(None);
    }
    match Oid::read(format, word, steps) {
        Ok(id) => Ok(Some(id)),
        Err(_) => Err(Kind::BadObjectName),
    }
}

/// The reference name that the text begins with, and the text after the space that ends the name, if there is one. Most
/// texts are the name alone: a name contains no space, so these need no search for one.
fn split_name<'a>(
    text: &'a [u8],
    steps: &mut Steps,
) -> Result<(&'a [u8], Option<&'a [u8]>), NameFault>
    ensures parts { MatchResult result (λ parts. BeginsWithName text.now parts.0.now (option_copied parts.1))
        (λ fault. (fault ≡ NameFault.BadRefName) × BeginsWithNoName text.now) }
    ensures whole { IfOk result (λ parts. length parts.0.now + bytes_left (option_copied parts.1) ≡ length text.now) }
    ensures cost { MatchResult result (λ parts. TakesAtMost (17 * (length text.now + 1) + 16 * (length parts.0.now + 1)) steps.old steps.new)
        (λ _. TakesAtMost (33 * (length text.now + 1)) steps.old steps.new) }
{
    if let Ok(_) = RefName::read(text, steps) {
        return Ok((text, None));
    }
    steps.tick(text.len() + 1);
    let (name, rest) = split_at_first(text, b' ');
    RefName::read(name, steps)?;
    Ok((name, rest))
}

/// Finds the last values of a line's attributes, which are the end of its text. Most lines have none.
#[inline(always)]
fn read_attributes(
    format: Format,
    text: &[u8],
    words: Option<&[u8]>,
    places: &mut ReferencePlaces,
    steps: &mut Steps,
) -> Result<(), Kind>
    requires { IsLeftOf text.now (option_copied words) }
    ensures values { MatchResult result
        (λ _. AreLocated format text.now (parts_left 32 (option_copied words.entry)) places.new.target places.new.peeled)
        (Refuses (attribute_checks format (parts_left 32 (option_copied words.entry)))) }
    ensures others { OnOk result ((places.new.id ≡ places.old.id) × (places.new.name_length ≡ places.old.name_length)) }
    ensures cost { TakesAtMost (21 * bytes_left (option_copied words.entry)) steps.old steps.new }
{
    places.target = None;
    places.peeled = None;
    let mut left = words;
    'words: while let Some(rest) = left {
        let (word, next) = split_at_first(rest, b' ');
        steps.tick(word.len() + 3);
        let end = text.len() - rest.len() + word.len();
        match read_attribute(format, word, end, places, steps) {
            Ok(()) => {}
            Err(kind) => return Err(kind),
        }
        left = next;
    }
    Ok(())
}

/// Finds the content of one more attribute, which ends at this place of the line.
fn read_attribute(
    format: Format,
    word: &[u8],
    end: usize,
    places: &mut ReferencePlaces,
    steps: &mut Steps,
) -> Result<(), Kind>
    requires { length word.now ≤ end }
    ensures attribute { MatchResult result (λ _. IsFound format word.now end places.old places.new) (IsAttributeFault format word.now) }
    ensures cost { TakesAtMost (18 * (length word.now + 1)) steps.old steps.new }
{
    // Two words.
    steps.tick(2 * (word.len().min(14) + 1));
    if let Some(name) = after(word, b"symref-target:") {
        RefName::read(name, steps)?;
        let length = name.len();
        let start = end - length;
        places.target = Some(Part { start, length });
        return Ok(());
    }
    if let Some(name) = after(word, b"peeled:") {
        let id = Oid::read(format, name, steps)?;
        places.peeled = Some(id);
    }
    Ok(())
}
