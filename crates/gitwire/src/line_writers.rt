//! Lines of responses, written for C.

ghost use Rattle.std.specs.Prelude.{◌≡◌, ◌≢◌, [], MatchResult};
ghost use Rattle.std.specs.Option.{option_copied};
ghost use Rattle.git_names.specs.ObjectName.{IsNoObjectName};
ghost use Rattle.git_names.specs.RefName.{IsRefName};
ghost use Rattle.git_msg.specs.References.{IsMaybeObjectName};
ghost use Rattle.gitwire.specs.Handles.{writer_in};
ghost use Rattle.gitwire.specs.WrittenForC.{Makes, MeansAck, MeansBoundary, MeansInfo, MeansReference, MeansWanted, Names, Writes, WritesIn};
ghost use Rattle.gitwire.specs.WrittenForC.{boundary_of, given};

use crate::answer::{GitwireAnswer, What};
use crate::handles::{GitwireWriter, Holds, on};
use crate::numbers::format_numbered;
use crate::written::{Unwritten, hand_out, write_packet};
use git_msg::{
    Boundary, Info, Reference, WantedRef, put_ack, put_boundary, put_info, put_reference,
    put_wanted,
};
use git_names::{Format, NameFault, Oid, RefName, Steps};
use git_pkt::Hold;
use std::alloc::Global;

/// Writes a reference's line, of an answer to `ls-refs`, to the front of the buffer. An object without digits is none: the reference is
/// unborn. A target without bytes is none, and so is a peeled object without digits. The parts are checked from left to right:
/// BadObjectName or BadRefName.
#[tactic(auto, using(crate::proofs::Handing::writes))]
#[unsafe(no_mangle)]
pub extern "C" fn gitwire_put_reference(
    alloc: Global,
    writer: &mut GitwireWriter,
    format: u32,
    id: &[u8],
    name: &[u8],
    target: &[u8],
    peeled: &[u8],
    buffer: &mut [u8],
) -> GitwireAnswer
    ensures { WritesIn (writer_in writer.old) (Writes (MeansReference format id.now name.now target.now peeled.now)) buffer.old result buffer.new
        (writer_in writer.new) }
{
    write_packet!(writer, alloc; make_reference(&mut writer.hold, format, id, name, target, peeled), buffer)
}

/// Writes the line of the section `acknowledgments` that acknowledges an object to the front of the buffer.
#[tactic(auto, using(crate::proofs::Handing::writes))]
#[unsafe(no_mangle)]
pub extern "C" fn gitwire_put_ack(
    alloc: Global,
    writer: &mut GitwireWriter,
    format: u32,
    id: &[u8],
    buffer: &mut [u8],
) -> GitwireAnswer
    ensures { WritesIn (writer_in writer.old) (Writes (MeansAck format id.now)) buffer.old result buffer.new (writer_in writer.new) }
{
    write_packet!(writer, alloc; make_ack(&mut writer.hold, format, id), buffer)
}

/// Writes a line of the section `shallow-info`, `shallow` or else `unshallow`, to the front of the buffer.
#[tactic(auto, using(crate::proofs::Handing::writes))]
#[unsafe(no_mangle)]
pub extern "C" fn gitwire_put_boundary(
    alloc: Global,
    writer: &mut GitwireWriter,
    format: u32,
    shallow: bool,
    id: &[u8],
    buffer: &mut [u8],
) -> GitwireAnswer
    ensures { WritesIn (writer_in writer.old) (Writes (MeansBoundary format shallow id.now)) buffer.old result buffer.new (writer_in writer.new) }
{
    write_packet!(writer, alloc; make_boundary(&mut writer.hold, format, shallow, id), buffer)
}

/// Writes a line of the section `wanted-refs` to the front of the buffer. Its parts are checked from left to right:
/// BadObjectName, then BadRefName.
#[tactic(auto, using(crate::proofs::Handing::writes))]
#[unsafe(no_mangle)]
pub extern "C" fn gitwire_put_wanted(
    alloc: Global,
    writer: &mut GitwireWriter,
    format: u32,
    id: &[u8],
    name: &[u8],
    buffer: &mut [u8],
) -> GitwireAnswer
    ensures { WritesIn (writer_in writer.old) (Writes (MeansWanted format id.now name.now)) buffer.old result buffer.new (writer_in writer.new) }
{
    write_packet!(writer, alloc; make_wanted(&mut writer.hold, format, id, name), buffer)
}

/// Writes a line of the response to `object-info` to the front of the buffer: the object and its size, or the object alone if the server
/// does not have it.
#[tactic(auto, using(crate::proofs::Handing::writes))]
#[unsafe(no_mangle)]
pub extern "C" fn gitwire_put_info(
    alloc: Global,
    writer: &mut GitwireWriter,
    format: u32,
    id: &[u8],
    has_size: bool,
    size: u64,
    buffer: &mut [u8],
) -> GitwireAnswer
    ensures { WritesIn (writer_in writer.old) (Writes (MeansInfo format id.now has_size size)) buffer.old result buffer.new (writer_in writer.new) }
{
    write_packet!(writer, alloc; make_info(&mut writer.hold, format, id, has_size, size), buffer)
}

fn make_reference(
    hold: &mut Hold,
    format: u32,
    id: &[u8],
    name: &[u8],
    target: &[u8],
    peeled: &[u8],
) -> Result<(), Unwritten>
    ensures { Makes (MeansReference format id.now name.now target.now peeled.now) result hold.new.items }
{
    let Some(format) = format_numbered(format) else {
        return Err(Unwritten::BadValue);
    };
    let id = read_given_id(format, id)?;
    let name = RefName::read(name, &mut Steps::new())?;
    let target = read_target(target)?;
    let peeled = read_given_id(format, peeled)?;
    let reference = Reference {
        id,
        name: name.as_bytes(),
        target,
        peeled,
    };
    put_reference(hold, reference);
    Ok(())
}

fn make_ack(hold: &mut Hold, format: u32, id: &[u8]) -> Result<(), Unwritten>
    ensures { Makes (MeansAck format id.now) result hold.new.items }
{
    let id = read_id(format, id)?;
    put_ack(hold, &id);
    Ok(())
}

fn make_boundary(hold: &mut Hold, format: u32, shallow: bool, id: &[u8]) -> Result<(), Unwritten>
    ensures { Makes (MeansBoundary format shallow id.now) result hold.new.items }
{
    let id = read_id(format, id)?;
    let boundary = boundary_of(shallow, id);
    put_boundary(hold, &boundary);
    Ok(())
}

fn make_wanted(hold: &mut Hold, format: u32, id: &[u8], name: &[u8]) -> Result<(), Unwritten>
    ensures { Makes (MeansWanted format id.now name.now) result hold.new.items }
{
    let id = read_id(format, id)?;
    let name = RefName::read(name, &mut Steps::new())?;
    let wanted = WantedRef {
        id,
        name: name.as_bytes(),
    };
    put_wanted(hold, wanted);
    Ok(())
}

fn make_info(
    hold: &mut Hold,
    format: u32,
    id: &[u8],
    has_size: bool,
    size: u64,
) -> Result<(), Unwritten>
    ensures { Makes (MeansInfo format id.now has_size size) result hold.new.items }
{
    let id = read_id(format, id)?;
    let size = has_size.then_some(size);
    put_info(hold, &Info { id, size });
    Ok(())
}

/// The line of the shallow boundary for this commit: `shallow` or else `unshallow`.
pub(crate) fn boundary_of(shallow: bool, id: Oid) -> Boundary
    ensures { result ≡ boundary_of shallow id }
{
    if shallow {
        Boundary::Shallow(id)
    } else {
        Boundary::Unshallow(id)
    }
}

/// The object that the digits name, in the format of this number.
fn read_id(number: u32, digits: &[u8]) -> Result<Oid, Unwritten>
    ensures { Names number digits.now result }
{
    let Some(format) = format_numbered(number) else {
        return Err(Unwritten::BadValue);
    };
    Ok(Oid::read(format, digits, &mut Steps::new())?)
}

/// A reference name, or none if there is no text.
pub(crate) fn read_target(text: &[u8]) -> Result<Option<&[u8]>, NameFault>
    ensures { MatchResult result (λ target. (option_copied target ≡ given text.now) × (text.now ≢ [] → IsRefName text.now))
        (λ fault. (fault ≡ NameFault.BadRefName) × (text.now ≢ []) × ¬ IsRefName text.now) }
{
    if text.is_empty() {
        return Ok(None);
    }
    let name = RefName::read(text, &mut Steps::new())?;
    Ok(Some(name.as_bytes()))
}

/// An object name, or none if there are no digits.
pub(crate) fn read_given_id(format: Format, digits: &[u8]) -> Result<Option<Oid>, NameFault>
    ensures { MatchResult result (IsMaybeObjectName format (given digits.now))
        (λ fault. (fault ≡ NameFault.BadObjectName) × (digits.now ≢ []) × IsNoObjectName format digits.now) }
{
    if digits.is_empty() {
        return Ok(None);
    }
    Ok(Some(Oid::read(format, digits, &mut Steps::new())?))
}
