//! The meaning of each text line of a conversation if it is expected, and the reasons to refuse it. The contents of a line are written to
//! `content`. Error packets are judged before that.

ghost use Rattle.std.specs.Prelude.{◌≡◌, ◌≢◌, Some, codes, MatchResult, OnErr, ◌+◌, ◌*◌, length};
ghost use Rattle.git_names.specs.declared.object_format.Format.{Format};
ghost use Rattle.git_names.specs.Steps.{TakesAtMost};
ghost use Rattle.git_msg.specs.Capability.{IsNoCapability};
ghost use Rattle.git_client.specs.Events.{IsLineFault};
ghost use Rattle.git_client.specs.Places.{references, acknowledgments, header, shallow_info, sizes, wanted_refs};
ghost use Rattle.git_client.specs.Sections.{acks_with, section_named};
ghost use Rattle.git_client.specs.Machine.Turns.{FindsCapability, HasContent, expected_after_header};

use crate::phase::{CapabilityPlaces, Expected, LineContent};
use crate::sections::{Acks, Allowed, Section, read_header};
use git_msg::{
    Boundary, Caps, ReferencePlaces, is_word, locate_reference, read_ack, read_boundary,
    read_capability, read_info, read_wanted,
};
use git_names::{Format, Steps};
use git_pkt::Kind;

/// The line that begins an advertisement.
pub(crate) fn judge_version(line: &[u8]) -> Result<(), Kind>
    ensures { MatchResult result (λ _. line.now ≡ codes "version 2") (λ kind. (line.now ≢ codes "version 2") × (kind ≡ Kind.NotVersion2)) }
{
    if !is_word(line, b"version 2") {
        return Err(Kind::NotVersion2);
    }
    Ok(())
}

/// A capability line. The capability that it notes is added to `caps`.
pub(crate) fn judge_capability(
    caps: &mut Caps,
    line: &[u8],
    steps: &mut Steps,
) -> Result<CapabilityPlaces, Kind>
    ensures line { MatchResult result (λ places. FindsCapability caps.old line.now places caps.new)
        (λ kind. IsNoCapability line.now × (kind ≡ Kind.BadCapability)) }
    ensures refused { OnErr result (caps.new ≡ caps.old) }
    ensures cost { TakesAtMost (40 * (length line.now + 1)) steps.old steps.new }
{
    let capability = read_capability(line, steps)?;
    let places = CapabilityPlaces {
        key_length: capability.key.len(),
        has_value: capability.value.is_some(),
    };
    *caps = caps.with(&capability, steps);
    Ok(places)
}

/// A line of the response to `ls-refs`.
#[inline(always)]
pub(crate) fn judge_reference(
    format: Format,
    line: &[u8],
    content: &mut LineContent,
    steps: &mut Steps,
) -> Result<(), Kind>
    ensures line { MatchResult result (λ _. HasContent references format line.now content.new) (IsLineFault references format line.now) }
    ensures cost { TakesAtMost (40 * (length line.now + 1)) steps.old steps.new }
{
    // Most lines follow another reference line, and their places are written over its places.
    match content {
        LineContent::Reference(_) => {}
        _ => *content = LineContent::Reference(ReferencePlaces::new()),
    }
    match content {
        LineContent::Reference(places) => locate_reference(format, line, places, steps),
        _ => unreachable!(),
    }
}

/// The header of a section. Returns what is expected after it.
pub(crate) fn judge_header(
    allowed: Allowed,
    line: &[u8],
    content: &mut LineContent,
) -> Result<Expected, Kind>
    ensures { (format : Format) → MatchResult result
        (λ expected. HasContent (header allowed) format line.now content.new × (expected ≡ expected_after_header allowed (section_named line.now)))
        (IsLineFault (header allowed) format line.now) }
{
    let Some(section) = read_header(line) else {
        return Err(Kind::UnexpectedSection);
    };
    if !allowed.allows(section) {
        return Err(Kind::UnexpectedSection);
    }
    *content = LineContent::Section(section);
    let next = allowed.after(section);
    Ok(match section {
        Section::Acknowledgments => Expected::Acknowledgments(Acks::NOTHING),
        Section::ShallowInfo => Expected::ShallowInfo(next),
        Section::WantedRefs => Expected::WantedRefs(next),
        Section::Packfile => Expected::Packfile,
    })
}

/// A line of the acknowledgments, after those that came so far. `NAK` comes alone, `ready` comes last.
pub(crate) fn judge_acknowledgment(
    format: Format,
    acks: Acks,
    line: &[u8],
    content: &mut LineContent,
    steps: &mut Steps,
) -> Result<Acks, Kind>
    ensures line { MatchResult result (λ after. HasContent (acknowledgments acks) format line.now content.new × (after ≡ acks_with acks line.now))
        (IsLineFault (acknowledgments acks) format line.now) }
    ensures cost { TakesAtMost (40 * (length line.now + 1)) steps.old steps.new }
{
    let after = Acks { any: true, ..acks };
    if is_word(line, b"NAK") {
        if acks.any {
            return Err(Kind::BadLine);
        }
        *content = LineContent::Nak;
        return Ok(Acks { nak: true, ..after });
    }
    if is_word(line, b"ready") {
        if acks.ready {
            return Err(Kind::BadLine);
        }
        *content = LineContent::Ready;
        return Ok(Acks {
            ready: true,
            ..after
        });
    }
    if acks.nak || acks.ready {
        return Err(Kind::BadLine);
    }
    let id = read_ack(format, line, steps)?;
    *content = LineContent::Ack(id);
    Ok(after)
}

/// The line that names the attribute listed for each object: its size.
pub(crate) fn judge_size_line(line: &[u8]) -> Result<(), Kind>
    ensures { MatchResult result (λ _. line.now ≡ codes "size") (λ kind. (line.now ≢ codes "size") × (kind ≡ Kind.BadLine)) }
{
    if !is_word(line, b"size") {
        return Err(Kind::BadLine);
    }
    Ok(())
}

/// A line with the size of an object.
pub(crate) fn judge_info(
    format: Format,
    line: &[u8],
    content: &mut LineContent,
    steps: &mut Steps,
) -> Result<(), Kind>
    ensures cost { TakesAtMost (40 * (length line.now + 1)) steps.old steps.new }
    ensures line { MatchResult result (λ _. HasContent sizes format line.now content.new) (IsLineFault sizes format line.now) }
{
    let info = read_info(format, line, steps)?;
    *content = LineContent::Info(info);
    Ok(())
}

/// A line of the section `shallow-info`.
pub(crate) fn judge_boundary(
    format: Format,
    line: &[u8],
    content: &mut LineContent,
    steps: &mut Steps,
) -> Result<(), Kind>
    ensures cost { TakesAtMost (40 * (length line.now + 1)) steps.old steps.new }
    ensures line { MatchResult result (λ _. HasContent shallow_info format line.now content.new) (IsLineFault shallow_info format line.now) }
{
    match read_boundary(format, line, steps)? {
        Boundary::Shallow(id) => *content = LineContent::Shallow(id),
        Boundary::Unshallow(id) => *content = LineContent::Unshallow(id),
    }
    Ok(())
}

/// A line of the section `wanted-refs`.
pub(crate) fn judge_wanted(
    format: Format,
    line: &[u8],
    content: &mut LineContent,
    steps: &mut Steps,
) -> Result<(), Kind>
    ensures cost { TakesAtMost (40 * (length line.now + 1)) steps.old steps.new }
    ensures line { MatchResult result (λ _. HasContent wanted_refs format line.now content.new) (IsLineFault wanted_refs format line.now) }
{
    match read_wanted(format, line, steps) {
        Ok(wanted) => {
            *content = LineContent::WantedRef(wanted.id);
            Ok(())
        }
        Err(kind) => Err(kind),
    }
}
