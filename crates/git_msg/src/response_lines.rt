//! The lines of fetch's response sections and of the response to object-info: gitprotocol-v2(5).

ghost use Rattle.std.specs.Prelude.{◌≡◌, ◌<◌, MatchResult, length, ◌+◌, ◌*◌};
ghost use Rattle.git_names.specs.RefName.{IsRefName};
ghost use Rattle.git_names.specs.Steps.{TakesAtMost};
ghost use Rattle.git_pkt.specs.Packets.{longest_payload, spelling_of};
ghost use Rattle.git_msg.specs.ResponseLines.{IsAckFault, IsAckLine, IsBoundaryFault, IsBoundaryLine, IsNamed, IsNamedFault, IsWantedFault, IsWantedLine};
ghost use Rattle.git_msg.specs.ResponseLines.{IsInfoFault, IsInfoLine, IsNoSizeText, IsSizeText};
ghost use Rattle.git_msg.specs.ResponseLines.{ack_text, boundary_text, info_text, object_of, shown_wanted, wanted_text};
ghost use Rattle.git_msg.specs.WrittenRequest.{text_line};

use crate::numbers::read_number;
use crate::references::{Reference, append_id, put_reference};
use crate::texts::{after, split_at_first};
use crate::writing::put_name_line;
use git_names::{Format, Oid, RefName, Steps};
use git_pkt::{Hold, Kind, append, begin};
use itoa::Buffer;

/// A line of a shallow boundary, as in gitprotocol-v2(5).
#[derive(Clone, Copy, Debug, PartialEq, Eq)]
pub enum Boundary {
    /// The parents of this commit are not sent.
    Shallow(Oid),
    /// The parents of this commit, which had none so far, are sent now.
    Unshallow(Oid),
}

/// A line of the wanted references, as in gitprotocol-v2(5): a reference that was requested by its name, with a borrowed text.
#[derive(Clone, Copy, Debug)]
pub struct WantedRef<'a> {
    /// The object that it points to.
    pub id: Oid,
    /// Its name.
    pub name: &'a [u8],
}

/// A line of the response to object-info, as in gitprotocol-v2(5).
#[derive(Clone, Copy, Debug, PartialEq, Eq)]
pub struct Info {
    /// The object.
    pub id: Oid,
    /// How many bytes it has, if the server has it.
    pub size: Option<u64>,
}

/// Makes the hold the packet of the line for an object that both ends have, with an LF at its end:
/// gitprotocol-v2(5), the section `acknowledgments`.
pub fn put_ack(hold: &mut Hold, id: &Oid)
    ensures written { hold.new.items ≡ spelling_of (text_line (ack_text id.now)) }
    ensures reads_back { IsAckLine id.now.format (ack_text id.now) id.now }
    ensures fits { length (ack_text id.now) < longest_payload }
{
    put_name_line(hold, b"ACK ", id);
}

/// Makes the hold the packet of the boundary's line, with an LF at its end: gitprotocol-v2(5), the section
/// `shallow-info`.
pub fn put_boundary(hold: &mut Hold, boundary: &Boundary)
    ensures written { hold.new.items ≡ spelling_of (text_line (boundary_text boundary.now)) }
    ensures reads_back { IsBoundaryLine (object_of boundary.now).format (boundary_text boundary.now) boundary.now }
    ensures fits { length (boundary_text boundary.now) < longest_payload }
{
    match boundary {
        Boundary::Shallow(id) => put_name_line(hold, b"shallow ", id),
        Boundary::Unshallow(id) => put_name_line(hold, b"unshallow ", id),
    }
}

/// Makes the hold the packet of the wanted reference's line, with an LF at its end: gitprotocol-v2(5), the section
/// `wanted-refs`. [`git_names::RefName::read`] has to accept the name.
pub fn put_wanted(hold: &mut Hold, wanted: WantedRef<'_>)
    requires { IsRefName wanted.name.now }
    ensures written { hold.new.items ≡ spelling_of (text_line (wanted_text (shown_wanted wanted.entry))) }
    ensures reads_back { IsWantedLine wanted.entry.id.format (wanted_text (shown_wanted wanted.entry)) (shown_wanted wanted.entry) }
    ensures fits { length (wanted_text (shown_wanted wanted.entry)) < longest_payload }
{
    let WantedRef { id, name } = wanted;
    // The line is that of a reference without a target and a peeled object.
    let reference = Reference {
        id: Some(id),
        name,
        target: None,
        peeled: None,
    };
    put_reference(hold, reference);
}

/// Makes the hold the packet of an object's line, with an LF at its end: gitprotocol-v2(5), the response to object-info.
pub fn put_info(hold: &mut Hold, info: &Info)
    ensures written { hold.new.items ≡ spelling_of (text_line (info_text info.now)) }
    ensures reads_back { IsInfoLine info.now.id.format (info_text info.now) info.now }
    ensures fits { length (info_text info.now) < longest_payload }
{
    let mut buffer = Buffer::new();
    let size = match info.size {
        Some(size) => buffer.format(size).as_bytes(),
        None => b"",
    };
    begin(hold, info.id.format().digits() + 1 + size.len() + 1);
    append_id(hold, &info.id);
    append(hold, b" ");
    append(hold, size);
    append(hold, b"\n");
}

/// Reads the text of a line for an object that both ends have. A text that does not begin with `ACK ` is `BadLine`;
/// otherwise, one without an object name after that is `BadObjectName`.
pub fn read_ack(format: Format, text: &[u8], steps: &mut Steps) -> Result<Oid, Kind>
    ensures line { MatchResult result (IsAckLine format text.now) (IsAckFault format text.now) }
    ensures cost { TakesAtMost (40 * (length text.now + 1)) steps.old steps.new }
{
    read_named(format, b"ACK ", text, steps)
}

/// Reads the text of a line of the shallow boundary. A text that begins with neither `shallow ` nor `unshallow ` is
/// `BadLine`; otherwise, one without an object name after that is `BadObjectName`.
pub fn read_boundary(format: Format, text: &[u8], steps: &mut Steps) -> Result<Boundary, Kind>
    ensures line { MatchResult result (IsBoundaryLine format text.now) (IsBoundaryFault format text.now) }
    ensures cost { TakesAtMost (40 * (length text.now + 1)) steps.old steps.new }
{
    match read_named(format, b"shallow ", text, steps) {
        Ok(id) => Ok(Boundary::Shallow(id)),
        Err(Kind::BadLine) => Ok(Boundary::Unshallow(read_named(
            format,
            b"unshallow ",
            text,
            steps,
        )?)),
        Err(kind) => Err(kind),
    }
}

/// Reads the text of a line of the wanted references: an object name, a space, and then a reference name, which is all the
/// rest. A text without a space is `BadLine`; then, from left to right, `BadObjectName` and `BadRefName`.
pub fn read_wanted<'a>(
    format: Format,
    text: &'a [u8],
    steps: &mut Steps,
) -> Result<WantedRef<'a>, Kind>
    ensures line { MatchResult result (λ wanted. IsWantedLine format text.now (shown_wanted wanted)) (IsWantedFault format text.now) }
    ensures cost { TakesAtMost (40 * (length text.now + 1)) steps.old steps.new }
{
    steps.tick(text.len() + 1);
    let (id, Some(name)) = split_at_first(text, b' ') else {
        return Err(Kind::BadLine);
    };
    let id = Oid::read(format, id, steps)?;
    RefName::read(name, steps)?;
    Ok(WantedRef { id, name })
}

/// Reads the text of a line of the response to object-info: an object name, a space, and then a size or nothing, which is
/// all the rest. A text without a space is `BadLine`; then, from left to right, `BadObjectName`, and `BadNumber` for
/// anything but a decimal number of 64 bits.
pub fn read_info(format: Format, text: &[u8], steps: &mut Steps) -> Result<Info, Kind>
    ensures line { MatchResult result (IsInfoLine format text.now) (IsInfoFault format text.now) }
    ensures cost { TakesAtMost (40 * (length text.now + 1)) steps.old steps.new }
{
    steps.tick(text.len() + 1);
    let (id, Some(size)) = split_at_first(text, b' ') else {
        return Err(Kind::BadLine);
    };
    let id = Oid::read(format, id, steps)?;
    let size = read_size(size, steps)?;
    Ok(Info { id, size })
}

/// The size, or none if there is no text.
fn read_size(text: &[u8], steps: &mut Steps) -> Result<Option<u64>, Kind>
    ensures size { MatchResult result (IsSizeText text.now) (λ kind. IsNoSizeText text.now × (kind ≡ Kind.BadNumber)) }
    ensures cost { TakesAtMost (length text.now) steps.old steps.new }
{
    steps.tick(text.len());
    if text.is_empty() {
        return Ok(None);
    }
    match read_number(text) {
        Some(size) => Ok(Some(size)),
        None => Err(Kind::BadNumber),
    }
}

/// Reads a text that has to be the word and then an object name.
fn read_named(format: Format, word: &[u8], text: &[u8], steps: &mut Steps) -> Result<Oid, Kind>
    ensures line { MatchResult result (IsNamed word.now format text.now) (IsNamedFault word.now format text.now) }
    ensures cost { TakesAtMost (17 * (length text.now + 1)) steps.old steps.new }
{
    steps.tick(text.len().min(word.len()) + 1);
    let Some(name) = after(text, word) else {
        return Err(Kind::BadLine);
    };
    let id = Oid::read(format, name, steps)?;
    Ok(id)
}
