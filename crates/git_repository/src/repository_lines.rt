//! The lines of a repository's text.

ghost use Rattle.std.specs.Prelude.{◌≡◌, ◌≢◌, ℕ, List, MatchOption};
ghost use Rattle.git_names.specs.declared.object_format.Format.{Format};
ghost use Rattle.git_names.specs.ObjectName.{IsNoObjectName, IsObjectName, ObjectName};
ghost use Rattle.git_repository.specs.RepositoryLines.{IsCount, IsSizedObject, HasContent, HasNoContent, IsUnbornHeadOf, ReadsReference, format_line, shown};
ghost use Rattle.git_repository.specs.RepositoryLines.{LineContent};
ghost use Rattle.std.specs.Option.{option_copied};

use git_msg::{Boundary, Reference, after, is_word, read_number, read_reference};
use git_names::{Format, Oid, Steps};
use hex::FromHex;

/// The maximum number of common objects that a repository may need before it is ready.
const MOST_COMMON: u64 = 2_147_483_647;

/// A reference of the repository, as in its line. Its texts are borrowed.
#[derive(Clone, Copy, Debug)]
pub(crate) struct LineEntry<'a> {
    pub(crate) id: Oid,
    pub(crate) name: &'a [u8],
    pub(crate) target: Option<&'a [u8]>,
    pub(crate) peeled: Option<Oid>,
}

/// The contents of a line about the repository.
#[derive(Clone, Copy, Debug)]
pub(crate) enum Item<'a> {
    /// It has this reference.
    Reference(LineEntry<'a>),
    /// Its `HEAD` is unborn, and points to this name.
    Unborn(&'a [u8]),
    /// It has this object, of this size in bytes.
    Object(Oid, u64),
    /// It is ready after this number of common objects.
    ReadyAfter(u32),
    /// This is a line of its shallow boundary.
    BoundaryLine(Boundary),
}

/// The format that the first line names.
pub(crate) fn read_format(line: &[u8]) -> Option<Format>
    ensures { MatchOption result ((format : Format) → line.now ≢ format_line format) (λ format. line.now ≡ format_line format) }
{
    Format::read(after(line, b"format ")?)
}

/// The contents of a line after the first.
pub(crate) fn read_item(format: Format, line: &[u8]) -> Option<Item<'_>>
    ensures { MatchOption result (HasNoContent format line.now) (λ item. HasContent format line.now (shown item)) }
{
    if let Some(text) = after(line, b"ref ") {
        return read_reference_line(format, text);
    }
    if let Some(text) = after(line, b"object ") {
        let (id, size) = read_object(format, text)?;
        return Some(Item::Object(id, size));
    }
    if let Some(text) = after(line, b"ready ") {
        let count = read_count(text)?;
        return Some(Item::ReadyAfter(count));
    }
    if let Some(text) = after(line, b"shallow ") {
        let id = read_name(format, text)?;
        return Some(Item::BoundaryLine(Boundary::Shallow(id)));
    }
    if let Some(text) = after(line, b"unshallow ") {
        let id = read_name(format, text)?;
        return Some(Item::BoundaryLine(Boundary::Unshallow(id)));
    }
    None
}

/// A reference line: of a reference with an object, or of an unborn `HEAD`.
fn read_reference_line(format: Format, text: &[u8]) -> Option<Item<'_>>
    ensures { MatchOption result ((content : LineContent) → ¬ ReadsReference format text.now content) (λ item. ReadsReference format text.now (shown item)) }
{
    let reference = match read_reference(format, text, &mut Steps::new()) {
        Ok(reference) => reference,
        Err(_) => return None,
    };
    let Reference {
        id,
        name,
        target,
        peeled,
    } = reference;
    match id {
        Some(id) => Some(Item::Reference(LineEntry {
            id,
            name,
            target,
            peeled,
        })),
        None => match unborn_target(name, target, peeled) {
            Some(target) => Some(Item::Unborn(target)),
            None => None,
        },
    }
}

/// The name that an unborn `HEAD` points to, if a reference without an object is an unborn `HEAD`.
fn unborn_target<'a>(name: &[u8], target: Option<&'a [u8]>, peeled: Option<Oid>) -> Option<&'a [u8]>
    ensures { MatchOption result ((other : List ℕ) → ¬ IsUnbornHeadOf name.now (option_copied target.entry) peeled other)
        (λ found. IsUnbornHeadOf name.now (option_copied target.entry) peeled found.now) }
{
    if !is_word(name, b"HEAD") || peeled.is_some() {
        return None;
    }
    target
}

/// An object name of this format.
fn read_name(format: Format, text: &[u8]) -> Option<Oid>
    ensures { MatchOption result (IsNoObjectName format text.now) (λ id. IsObjectName format text.now id) }
{
    let id = Oid::from_hex(text).ok()?;
    if id.format() != format {
        return None;
    }
    Some(id)
}

/// An object name, a space and a size.
fn read_object(format: Format, text: &[u8]) -> Option<(Oid, u64)>
    ensures { MatchOption result ((id : ObjectName) (size : ℕ) → ¬ IsSizedObject format id size text.now)
        (λ object. IsSizedObject format object.0 object.1 text.now) }
{
    if text.len() < format.digits() {
        return None;
    }
    let (name, rest) = text.split_at(format.digits());
    let id = read_name(format, name)?;
    let size = read_number(after(rest, b" ")?)?;
    Some((id, size))
}

/// A number of objects, at least 1.
fn read_count(text: &[u8]) -> Option<u32>
    ensures { MatchOption result ((count : ℕ) → ¬ IsCount count text.now) (λ count. IsCount count text.now) }
{
    let count = read_number(text)?;
    if count == 0 || count > MOST_COMMON {
        return None;
    }
    Some(count as u32)
}
