//! What a host reports of its store to the server that C holds.

ghost use Rattle.std.specs.Prelude.{◌≡◌, ◌≤◌, length};
ghost use Rattle.std.specs.Option.{option_copied};
ghost use Rattle.git_host.specs.HostAnswers.{part_of};
ghost use Rattle.git_host.specs.HostLookups.{format_of};
ghost use Rattle.git_host.specs.HostServer.{bytes_of};
ghost use Rattle.git_host.specs.declared.report.Report.{Report as Reported};
ghost use Rattle.gitwire.specs.Calls.{HasNone, On};
ghost use Rattle.gitwire.specs.Handles.{host_in};
ghost use Rattle.gitwire.specs.HostAnswers.{MeansBoundary, MeansReference, MeansUnborn, MeansWantRef, ReportsAnswers, ReportsInBuffer};
ghost use Rattle.gitwire.specs.WrittenForC.{given};
ghost use Rattle.gitwire.specs.HostAnswers.{ReportsMeantInBuffer, bytes_in, filled_by, reporting, size_given, unread_by};

use crate::answer::{GitwireAnswer, What};
use crate::handles::{GitwireHost, Holds, on};
use crate::host::{hand_out, refused_as};
use crate::host_texts::Unread;
use crate::line_writers::{boundary_of, read_given_id};
use git_host::{HostReported, HostServer, LONGEST_PART, ReferenceFault, ReferenceTexts, Report};
use git_names::{Oid, RefName, Steps};
use git_pkt::{Kind, LONGEST_PACKET};
use std::alloc::Global;

/// Whether the store has the wanted object that is asked about: `More`. If it does not have it, the error packet is pulled next, and the
/// session is over.
#[unsafe(no_mangle)]
pub extern "C" fn gitwire_host_want(
    alloc: Global,
    host: &mut GitwireHost,
    has: bool,
    buffer: &mut [u8],
) -> GitwireAnswer
    ensures { On (host_in host.old) (host_in host.new) (λ old new. ReportsInBuffer (Reported.Want has) old buffer.old result buffer.new new)
        (HasNone buffer.old result buffer.new) }
{
    report_in(alloc, host, Report::Want(has), buffer)
}

/// The object of the wanted reference that is asked for, by its digits; no digits mean that there is no such reference: `More`. If there is
/// none, the error packet is pulled next, and the session is over. `Failed` by `BadObjectName`, and `OutOfMemory`: nothing changed.
#[unsafe(no_mangle)]
pub extern "C" fn gitwire_host_want_ref(
    alloc: Global,
    host: &mut GitwireHost,
    id: &[u8],
    buffer: &mut [u8],
) -> GitwireAnswer
    ensures { On (host_in host.old) (host_in host.new)
        (λ old new. ReportsMeantInBuffer (MeansWantRef (format_of old) id.now) old buffer.old result buffer.new new) (HasNone buffer.old result buffer.new) }
{
    on!(host, alloc; want_ref(host, id, buffer))
}

/// Whether the store has the client's object that is asked about: `Packet`, its `ACK`, or `More`.
#[unsafe(no_mangle)]
pub extern "C" fn gitwire_host_have(
    alloc: Global,
    host: &mut GitwireHost,
    has: bool,
    buffer: &mut [u8],
) -> GitwireAnswer
    ensures { On (host_in host.old) (host_in host.new) (λ old new. ReportsInBuffer (Reported.Have has) old buffer.old result buffer.new new)
        (HasNone buffer.old result buffer.new) }
{
    report_in(alloc, host, Report::Have(has), buffer)
}

/// Whether the store is ready to send a pack: `Packet`, the line `ready`, or the flush that ends the answer.
#[unsafe(no_mangle)]
pub extern "C" fn gitwire_host_ready(
    alloc: Global,
    host: &mut GitwireHost,
    ready: bool,
    buffer: &mut [u8],
) -> GitwireAnswer
    ensures { On (host_in host.old) (host_in host.new) (λ old new. ReportsInBuffer (Reported.Ready ready) old buffer.old result buffer.new new)
        (HasNone buffer.old result buffer.new) }
{
    report_in(alloc, host, Report::Ready(ready), buffer)
}

/// A line of the shallow boundary, `shallow` or else `unshallow`, by the digits of its commit: `Packet`. `Failed` by `BadObjectName`, and
/// `NotShallow` for an `unshallow` line of a commit that the request does not call shallow: nothing changed.
#[unsafe(no_mangle)]
pub extern "C" fn gitwire_host_boundary(
    alloc: Global,
    host: &mut GitwireHost,
    shallow: bool,
    id: &[u8],
    buffer: &mut [u8],
) -> GitwireAnswer
    ensures { On (host_in host.old) (host_in host.new)
        (λ old new. ReportsMeantInBuffer (MeansBoundary (format_of old) shallow id.now) old buffer.old result buffer.new new)
        (HasNone buffer.old result buffer.new) }
{
    on!(host, alloc; boundary(host, shallow, id, buffer))
}

/// The boundary has no more lines: `Packet`, the delimiter of its section, or `More` if it has none at all.
#[unsafe(no_mangle)]
pub extern "C" fn gitwire_host_boundary_end(
    alloc: Global,
    host: &mut GitwireHost,
    buffer: &mut [u8],
) -> GitwireAnswer
    ensures { On (host_in host.old) (host_in host.new) (λ old new. ReportsInBuffer Reported.BoundaryEnd old buffer.old result buffer.new new)
        (HasNone buffer.old result buffer.new) }
{
    report_in(alloc, host, Report::BoundaryEnd, buffer)
}

/// Bytes of the pack: `Packet`, and `used` of them are in it, at most 65,515. No bytes are `More`.
#[unsafe(no_mangle)]
pub extern "C" fn gitwire_host_pack(
    alloc: Global,
    host: &mut GitwireHost,
    bytes: &[u8],
    buffer: &mut [u8],
) -> GitwireAnswer
    ensures { On (host_in host.old) (host_in host.new) (λ old new. ReportsInBuffer (Reported.Pack bytes.entry) old buffer.old result buffer.new new)
        (HasNone buffer.old result buffer.new) }
{
    report_in(alloc, host, Report::Pack(bytes), buffer)
}

/// A text for the client's user: `Packet`, and `used` of its bytes are in it, at most 65,515. No bytes are `More`; if the request has
/// `no-progress`, all of them are used up by `More`.
#[unsafe(no_mangle)]
pub extern "C" fn gitwire_host_progress(
    alloc: Global,
    host: &mut GitwireHost,
    text: &[u8],
    buffer: &mut [u8],
) -> GitwireAnswer
    ensures { On (host_in host.old) (host_in host.new) (λ old new. ReportsInBuffer (Reported.Progress text.entry) old buffer.old result buffer.new new)
        (HasNone buffer.old result buffer.new) }
{
    report_in(alloc, host, Report::Progress(text), buffer)
}

/// The pack has no more bytes: `Packet`, the flush that ends the answer.
#[unsafe(no_mangle)]
pub extern "C" fn gitwire_host_pack_end(
    alloc: Global,
    host: &mut GitwireHost,
    buffer: &mut [u8],
) -> GitwireAnswer
    ensures { On (host_in host.old) (host_in host.new) (λ old new. ReportsInBuffer Reported.PackEnd old buffer.old result buffer.new new)
        (HasNone buffer.old result buffer.new) }
{
    report_in(alloc, host, Report::PackEnd, buffer)
}

/// A reference, by the digits of its object, its name, the name that it points to, if it is symbolic, and the digits of the object that it
/// peels to, if it is an annotated tag: `Packet` if the request asks for it, and else `More`. The parts are checked from left to right:
/// `Failed` by `BadObjectName` or `BadRefName`. `OutOfOrder`, if its name does not come after that of the one reported before it, or it is
/// a `HEAD` that was reported as unborn; and `OutOfMemory`: nothing changed.
#[unsafe(no_mangle)]
pub extern "C" fn gitwire_host_reference(
    alloc: Global,
    host: &mut GitwireHost,
    id: &[u8],
    name: &[u8],
    target: &[u8],
    peeled: &[u8],
    buffer: &mut [u8],
) -> GitwireAnswer
    ensures { On (host_in host.old) (host_in host.new)
        (λ old new. ReportsMeantInBuffer (MeansReference (format_of old) id.now name.now target.now peeled.now) old buffer.old result buffer.new new)
        (HasNone buffer.old result buffer.new) }
{
    on!(host, alloc; reference(host, id, name, target, peeled, buffer))
}

/// `HEAD` is unborn and points to this name; it is reported before any reference: `Packet` if the request asks for it, and else `More`.
/// `Failed` by `BadRefName`, and `NotNow` once a reference or an unborn `HEAD` was reported: nothing changed.
#[unsafe(no_mangle)]
pub extern "C" fn gitwire_host_unborn(
    alloc: Global,
    host: &mut GitwireHost,
    target: &[u8],
    buffer: &mut [u8],
) -> GitwireAnswer
    ensures { On (host_in host.old) (host_in host.new) (λ old new. ReportsMeantInBuffer (MeansUnborn target.now) old buffer.old result buffer.new new)
        (HasNone buffer.old result buffer.new) }
{
    on!(host, alloc; unborn(host, target, buffer))
}

/// There are no more references: `Packet`, the flush that ends the answer.
#[unsafe(no_mangle)]
pub extern "C" fn gitwire_host_references_end(
    alloc: Global,
    host: &mut GitwireHost,
    buffer: &mut [u8],
) -> GitwireAnswer
    ensures { On (host_in host.old) (host_in host.new) (λ old new. ReportsInBuffer Reported.ReferencesEnd old buffer.old result buffer.new new)
        (HasNone buffer.old result buffer.new) }
{
    report_in(alloc, host, Report::ReferencesEnd, buffer)
}

/// The size of the object that is asked about, if the store has it: `Packet`.
#[unsafe(no_mangle)]
pub extern "C" fn gitwire_host_size(
    alloc: Global,
    host: &mut GitwireHost,
    has_size: bool,
    size: u64,
    buffer: &mut [u8],
) -> GitwireAnswer
    ensures { On (host_in host.old) (host_in host.new)
        (λ old new. ReportsInBuffer (Reported.Size (size_given has_size size)) old buffer.old result buffer.new new) (HasNone buffer.old result buffer.new) }
{
    report_in(
        alloc,
        host,
        Report::Size(size_given(has_size, size)),
        buffer,
    )
}

/// What is asked for cannot be had: `Packet`, and the session is over. If bytes of a pack are asked for, the packet is a text on the band
/// of fatal errors, and else an error packet.
#[unsafe(no_mangle)]
pub extern "C" fn gitwire_host_fail(
    alloc: Global,
    host: &mut GitwireHost,
    buffer: &mut [u8],
) -> GitwireAnswer
    ensures { On (host_in host.old) (host_in host.new) (λ old new. ReportsInBuffer Reported.Failed old buffer.old result buffer.new new)
        (HasNone buffer.old result buffer.new) }
{
    report_in(alloc, host, Report::Failed, buffer)
}

// Takes what the host reports, and copies its packet to the front of the buffer, if it has one. `Packet`, `More`, `NotNow`, `OutOfOrder`,
// `NotShallow`, `OutOfMemory` or `Failed`; `BufferTooSmall` if the buffer has fewer than 65,520 bytes; or `NoRequest`.
fn report_in(
    alloc: Global,
    host: &mut GitwireHost,
    report: Report<'_>,
    buffer: &mut [u8],
) -> GitwireAnswer
    ensures { On (host_in host.old) (host_in host.new) (λ old new. ReportsInBuffer report.entry old buffer.old result buffer.new new)
        (HasNone buffer.old result buffer.new) }
{
    on!(host, alloc; report_within(host, report, buffer))
}

fn report_within(
    server: &mut HostServer<Global>,
    report: Report<'_>,
    buffer: &mut [u8],
) -> GitwireAnswer
    ensures { ReportsInBuffer report.entry server.old buffer.old result buffer.new server.new }
{
    if buffer.len() < LONGEST_PACKET {
        return GitwireAnswer::of(What::BufferTooSmall);
    }
    report_to(server, report, buffer)
}

// The same, if the buffer has space for each packet.
fn report_to(
    server: &mut HostServer<Global>,
    report: Report<'_>,
    buffer: &mut [u8],
) -> GitwireAnswer
    requires { 65520 ≤ length buffer.old }
    ensures { ReportsAnswers report.entry server.old buffer.old result buffer.new server.new }
{
    let whole = byte_count(&report);
    let part = part_count(&report);
    let reported = server.report(report);
    show(server, reported, part, whole, buffer)
}

fn byte_count(report: &Report<'_>) -> usize
    ensures { result ≡ length (bytes_in report.now) }
{
    match report {
        Report::Pack(bytes) => bytes.len(),
        Report::Progress(bytes) => bytes.len(),
        _ => 0,
    }
}

// How many of its bytes one packet takes.
fn part_count(report: &Report<'_>) -> usize
    ensures { result ≡ length (part_of (bytes_in report.now)) }
{
    LONGEST_PART.min(byte_count(report))
}

// Shows the result of a report of this many bytes, with how many of them one packet takes.
fn show(
    server: &HostServer<Global>,
    reported: HostReported,
    part: usize,
    whole: usize,
    buffer: &mut [u8],
) -> GitwireAnswer
    requires { 65520 ≤ length buffer.old }
    ensures answer { result ≡ reporting reported part whole (length (bytes_of server.now)) }
    ensures buffer { buffer.new ≡ filled_by reported (bytes_of server.now) buffer.old }
{
    match reported {
        HostReported::Packet => hand_out(server, part, buffer),
        HostReported::Taken => GitwireAnswer::of(What::More),
        HostReported::Hidden => GitwireAnswer::of_used(whole, What::More),
        HostReported::NotAsked => GitwireAnswer::of(What::NotNow),
        HostReported::MixedFormats => refused_as(Kind::BadObjectName),
        HostReported::Unsorted => GitwireAnswer::of(What::OutOfOrder),
        HostReported::HeadTwice => GitwireAnswer::of(What::OutOfOrder),
        HostReported::NotShallow => GitwireAnswer::of(What::NotShallow),
        HostReported::OutOfMemory => GitwireAnswer::of(What::OutOfMemory),
    }
}

fn want_ref(server: &mut HostServer<Global>, id: &[u8], buffer: &mut [u8]) -> GitwireAnswer
    ensures { ReportsMeantInBuffer (MeansWantRef (format_of server.old) id.now) server.old buffer.old result buffer.new server.new }
{
    if buffer.len() < LONGEST_PACKET {
        return GitwireAnswer::of(What::BufferTooSmall);
    }
    match read_given_id(server.format(), id) {
        Ok(id) => report_to(server, Report::WantRef(id), buffer),
        Err(_) => refused_as(Kind::BadObjectName),
    }
}

fn boundary(
    server: &mut HostServer<Global>,
    shallow: bool,
    id: &[u8],
    buffer: &mut [u8],
) -> GitwireAnswer
    ensures { ReportsMeantInBuffer (MeansBoundary (format_of server.old) shallow id.now) server.old buffer.old result buffer.new server.new }
{
    if buffer.len() < LONGEST_PACKET {
        return GitwireAnswer::of(What::BufferTooSmall);
    }
    match Oid::read(server.format(), id, &mut Steps::new()) {
        Ok(id) => report_to(server, Report::Boundary(boundary_of(shallow, id)), buffer),
        Err(_) => refused_as(Kind::BadObjectName),
    }
}

fn unborn(server: &mut HostServer<Global>, target: &[u8], buffer: &mut [u8]) -> GitwireAnswer
    ensures { ReportsMeantInBuffer (MeansUnborn target.now) server.old buffer.old result buffer.new server.new }
{
    if buffer.len() < LONGEST_PACKET {
        return GitwireAnswer::of(What::BufferTooSmall);
    }
    match RefName::read(target, &mut Steps::new()) {
        Ok(target) => report_to(server, Report::Unborn(target), buffer),
        Err(_) => refused_as(Kind::BadRefName),
    }
}

// The texts of a reference are copied to nowhere but its line and the name that is kept.
fn reference(
    server: &mut HostServer<Global>,
    id: &[u8],
    name: &[u8],
    target: &[u8],
    peeled: &[u8],
    buffer: &mut [u8],
) -> GitwireAnswer
    ensures { ReportsMeantInBuffer (MeansReference (format_of server.old) id.now name.now target.now peeled.now) server.old buffer.old result
        buffer.new server.new }
{
    if buffer.len() < LONGEST_PACKET {
        return GitwireAnswer::of(What::BufferTooSmall);
    }
    let target = given(target);
    let peeled = given(peeled);
    let texts = ReferenceTexts {
        digits: id,
        name,
        target,
        peeled,
    };
    match server.report_reference(texts) {
        Ok(reported) => show(server, reported, 0, 0, buffer),
        Err(fault) => unread_by(fault).answer(),
    }
}

// A text without bytes is none.
fn given(text: &[u8]) -> Option<&[u8]>
    ensures { option_copied result ≡ given text.now }
{
    if text.is_empty() {
        return None;
    }
    Some(text)
}

fn unread_by(fault: ReferenceFault) -> Unread
    ensures { result ≡ unread_by fault }
{
    match fault {
        ReferenceFault::BadObjectName => Unread::Refused(Kind::BadObjectName),
        ReferenceFault::BadRefName => Unread::Refused(Kind::BadRefName),
        ReferenceFault::OutOfMemory => Unread::OutOfMemory,
    }
}

fn size_given(has_size: bool, size: u64) -> Option<u64>
    ensures { result ≡ size_given has_size size }
{
    if has_size {
        return Some(size);
    }
    None
}
