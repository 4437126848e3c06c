//! Answers over a store that is asked one question at a time. The packets are those that gitprotocol-v2(5) describes.
ghost use Rattle.std.specs.Prelude.{◌≡◌, ◌<◌, true, length};
ghost use Rattle.git_pkt.specs.Packets.{longest_payload};
ghost use Rattle.git_msg.specs.Asked.{want_refs_in};

use crate::expecting::{expect, expect_bytes};
use crate::servers::{entry, object};
use git_host::{
    Admission, AdmissionStep, BoundaryEnd, BoundaryReported, FetchAnswer, ProgressReported,
    ReferencesAnswer, Reported, SizesAnswer, SizesStep, Step, WantRefReported,
};
use git_msg::{
    Boundary, Fetch, Limits, LsRefs, ObjectInfo, Offer, ReadGot, Request, RequestStream,
};
use git_names::{Format, Oid, RefName, Steps};
use git_pkt::{Hold, Kind};
use std::alloc::{AllocError, Global};
use std::process::Abort;
use std::test::Fail;

/// More packets than come without a report between them.
const PACKETS: usize = 10;

/// A fetch that negotiates, of a shallow client.
const NEGOTIATION: &[u8] =
    b"0012command=fetch\n00010032want aaaaaaaaaaaaaaaaaaaaaaaaaaaaaaaaaaaaaaaa\n001dwant-ref refs/heads/main\n\
0035shallow cccccccccccccccccccccccccccccccccccccccc\n000ddeepen 2\n\
0032have bbbbbbbbbbbbbbbbbbbbbbbbbbbbbbbbbbbbbbbb\n0032have cccccccccccccccccccccccccccccccccccccccc\n\
0032have dddddddddddddddddddddddddddddddddddddddd\n0000";

/// A fetch with `done`.
const DONE: &[u8] = b"0012command=fetch\n00010032want aaaaaaaaaaaaaaaaaaaaaaaaaaaaaaaaaaaaaaaa\n\
0032have bbbbbbbbbbbbbbbbbbbbbbbbbbbbbbbbbbbbbbbb\n0009done\n0000";

/// A request for references of three prefixes, with all attributes.
const REFERENCES: &[u8] =
    b"0014command=ls-refs\n00010009peel\n000csymrefs\n000bunborn\n0014ref-prefix HEAD\n001bref-prefix refs/heads/\n\
001aref-prefix refs/tags/\n0000";

/// A request for the sizes of two objects.
const SIZES: &[u8] =
    b"0018command=object-info\n00010009size\n0031oid aaaaaaaaaaaaaaaaaaaaaaaaaaaaaaaaaaaaaaaa\n\
0031oid bbbbbbbbbbbbbbbbbbbbbbbbbbbbbbbbbbbbbbbb\n0000";

/// The request of these packets.
fn request_of(rt: &(impl Abort + AllocGlobal), packets: &[u8]) -> Request<Global> {
    let offer = Offer::everything(Format::Sha1);
    let mut stream = RequestStream::new(rt.alloc(), offer, Limits::DEFAULT);
    let request = match stream.feed(packets, &mut Steps::new()).got {
        ReadGot::Request(request) => Some(request),
        _ => None,
    };
    request.expect(rt, "a request")
}

fn fetch_of(rt: &(impl Abort + AllocGlobal), packets: &[u8]) -> Fetch<Global> {
    let fetch = match request_of(rt, packets) {
        Request::Fetch(fetch) => Some(fetch),
        _ => None,
    };
    fetch.expect(rt, "a fetch")
}

fn ls_refs_of(rt: &(impl Abort + AllocGlobal), packets: &[u8]) -> LsRefs<Global> {
    let ls_refs = match request_of(rt, packets) {
        Request::LsRefs(ls_refs) => Some(ls_refs),
        _ => None,
    };
    ls_refs.expect(rt, "a request for references")
}

fn object_info_of(rt: &(impl Abort + AllocGlobal), packets: &[u8]) -> ObjectInfo<Global> {
    let object_info = match request_of(rt, packets) {
        Request::ObjectInfo(object_info) => Some(object_info),
        _ => None,
    };
    object_info.expect(rt, "a request for sizes")
}

/// An object name in SHA-1.
fn id(rt: &impl Abort, digit: u8) -> Oid {
    object(rt, Format::Sha1, digit)
}

/// A report that was not requested changes nothing, nor does an object of another format.
#[test]
fn a_fetch_is_admitted(rt: HostRuntime) -> Result<(), AllocError> {
    let fetch = fetch_of(&rt, NEGOTIATION);
    let mut admission = Admission::new(rt.alloc(), fetch, Format::Sha1);
    expect(&rt, &admission.step(), &AdmissionStep::AskWant(0));
    expect(&rt, &admission.want_ref(None)?, &WantRefReported::NotAsked);
    assert!(rt; admission.want(true));
    expect(&rt, &admission.step(), &AdmissionStep::AskWantRef(0));
    assert!(rt; !admission.want(false));
    let other = object(&rt, Format::Sha256, b'b');
    expect(
        &rt,
        &admission.want_ref(Some(other))?,
        &WantRefReported::MixedFormats,
    );
    expect(&rt, &admission.step(), &AdmissionStep::AskWantRef(0));
    expect(
        &rt,
        &admission.want_ref(Some(id(&rt, b'b')))?,
        &WantRefReported::Taken,
    );
    expect(&rt, &admission.step(), &AdmissionStep::Admitted);
    Ok(())
}

#[test]
fn a_fetch_is_refused_by_what_the_store_lacks(rt: HostRuntime) -> Result<(), AllocError> {
    let mut lacks_object = Admission::new(rt.alloc(), fetch_of(&rt, NEGOTIATION), Format::Sha1);
    assert!(rt; lacks_object.want(false));
    expect(
        &rt,
        &lacks_object.step(),
        &AdmissionStep::Refused(Kind::NotOurs),
    );
    let mut lacks_reference = Admission::new(rt.alloc(), fetch_of(&rt, NEGOTIATION), Format::Sha1);
    assert!(rt; lacks_reference.want(true));
    expect(
        &rt,
        &lacks_reference.want_ref(None)?,
        &WantRefReported::Taken,
    );
    expect(
        &rt,
        &lacks_reference.step(),
        &AdmissionStep::Refused(Kind::UnknownRef),
    );
    Ok(())
}

/// What a store reports for a fetch.
#[derive(Clone, Copy, Debug)]
enum Report {
    Common,
    NotCommon,
    Ready,
    Boundary(Boundary),
    BoundaryEnd,
    Pack(&'static [u8]),
    Progress(&'static [u8]),
    PackEnd,
}

/// The packets returned since the last comparison, and the buffer that each is written into.
#[derive(Drop)]
struct Given {
    hold: Hold,
    packets: Vec<u8>,
}

impl Given {
    fn new(alloc: Global) -> Given {
        Given {
            hold: Hold::new(),
            packets: Vec::new(alloc),
        }
    }

    /// Appends the packet that is in the buffer.
    fn keep(&mut self) -> Result<(), AllocError> {
        self.packets.extend_from_slice(self.hold.as_slice())
    }

    /// Compares them with the packets that are expected.
    fn expect(&mut self, rt: &impl Abort, packets: &[u8]) {
        expect_bytes(rt, self.packets.as_slice(), packets);
        self.packets.clear();
    }
}

/// Whether one packet of a side band can carry these bytes.
fn fits(bytes: &[u8]) -> bool
    ensures some { result ≡ true → 0 < length bytes.now }
    ensures fits { result ≡ true → length bytes.now < longest_payload }
{
    !bytes.is_empty() && bytes.len() < 65_516
}

/// Makes the report. Returns whether there was a packet.
fn make_report(answer: &mut FetchAnswer<Global>, report: &Report, hold: &mut Hold) -> bool {
    match report {
        Report::Common => answer.common(hold),
        Report::NotCommon => !answer.not_common(),
        Report::Ready => answer.ready(hold),
        Report::Boundary(line) => {
            matches!(answer.boundary(*line, hold), BoundaryReported::Packet)
        }
        Report::BoundaryEnd => matches!(answer.boundary_end(hold), BoundaryEnd::Packet),
        Report::Pack(bytes) if fits(bytes) => answer.pack(bytes, hold),
        Report::Progress(bytes) if fits(bytes) => {
            matches!(answer.progress(bytes, hold), ProgressReported::Packet)
        }
        Report::Pack(_) | Report::Progress(_) => false,
        Report::PackEnd => answer.pack_end(hold),
    }
}

/// Takes the packets up to the next question, or up to the end.
fn take_lines(answer: &mut FetchAnswer<Global>, given: &mut Given) -> Result<(), AllocError> {
    for _ in 0..PACKETS {
        let Step::Packet = answer.next(&mut given.hold) else {
            return Ok(());
        };
        given.keep()?;
    }
    Ok(())
}

/// Makes the reports: the answer has to begin with the opening, each report has to result in its packets, and after the last one it is whole.
fn expect_answer(
    rt: &(impl Abort + AllocGlobal),
    answer: &mut FetchAnswer<Global>,
    opening: &[u8],
    reports: &[(Report, &[u8])],
) -> Result<(), AllocError> {
    let mut given = Given::new(rt.alloc());
    take_lines(answer, &mut given)?;
    given.expect(rt, opening);
    for (report, packets) in reports {
        if make_report(answer, report, &mut given.hold) {
            given.keep()?;
        }
        take_lines(answer, &mut given)?;
        given.expect(rt, packets);
    }
    assert!(rt; matches!(answer.next(&mut given.hold), Step::Whole));
    Ok(())
}

/// Whether a fetch wants exactly this many references by their names.
fn wants_names(fetch: &Fetch<Global>, count: usize) -> bool
    ensures { result ≡ true → count ≡ length (want_refs_in fetch.now.asked) }
{
    if fetch.want_ref(count).is_some() {
        return false;
    }
    if count == 0 {
        return true;
    }
    fetch.want_ref(count - 1).is_some()
}

/// The answer to the fetch of these packets, whose wanted references point to these objects.
fn answer_to(
    rt: &(impl Abort + AllocGlobal),
    packets: &[u8],
    ids: Vec<Oid>,
) -> FetchAnswer<Global> {
    let fetch = fetch_of(rt, packets);
    assert!(rt; wants_names(&fetch, ids.len()));
    FetchAnswer::new(fetch, ids, Format::Sha1)
}

/// One of three objects is common, the boundary has two lines, and the pack comes in two chunks with progress between them.
#[test]
fn a_fetch_that_negotiates_is_given_each_section(rt: HostRuntime) -> Result<(), Fail> {
    let wanted = Vec::from_slice(rt.alloc(), &[id(&rt, b'b')])?;
    let mut answer = answer_to(&rt, NEGOTIATION, wanted);
    let shallow = Report::Boundary(Boundary::Shallow(id(&rt, b'a')));
    let unshallow = Report::Boundary(Boundary::Unshallow(id(&rt, b'c')));
    let unknown = Report::Boundary(Boundary::Unshallow(id(&rt, b'a')));
    let reports: [(Report, &[u8]); 12] = [
        (Report::NotCommon, b""),
        (
            Report::Common,
            b"0031ACK cccccccccccccccccccccccccccccccccccccccc\n",
        ),
        (Report::NotCommon, b""),
        (Report::Ready, b"000aready\n0001"),
        (
            shallow,
            b"0011shallow-info\n0035shallow aaaaaaaaaaaaaaaaaaaaaaaaaaaaaaaaaaaaaaaa\n",
        ),
        (unknown, b""),
        (
            unshallow,
            b"0037unshallow cccccccccccccccccccccccccccccccccccccccc\n",
        ),
        (
            Report::BoundaryEnd,
            b"00010010wanted-refs\n003dbbbbbbbbbbbbbbbbbbbbbbbbbbbbbbbbbbbbbbbb refs/heads/main\n0001000dpackfile\n",
        ),
        (Report::Pack(b"PACK"), b"0009\x01PACK"),
        (Report::Progress(b"half\n"), b"000a\x02half\n"),
        (Report::Pack(b"of it"), b"000a\x01of it"),
        (Report::PackEnd, b"0000"),
    ];
    expect_answer(&rt, &mut answer, b"0014acknowledgments\n", &reports)?;
    Ok(())
}

/// With `done` there are no acknowledgments, and without a line of the boundary its section is left out.
#[test]
fn a_fetch_that_is_done_is_given_the_pack(rt: HostRuntime) -> Result<(), Fail> {
    let mut answer = answer_to(&rt, DONE, Vec::new(rt.alloc()));
    let reports: [(Report, &[u8]); 3] = [
        (Report::BoundaryEnd, b"000dpackfile\n"),
        (Report::Pack(b"PACK"), b"0009\x01PACK"),
        (Report::PackEnd, b"0000"),
    ];
    expect_answer(&rt, &mut answer, b"", &reports)?;
    Ok(())
}

/// Reports an unborn `HEAD` that points to this name, if that is a reference name.
fn report_unborn(
    answer: &mut ReferencesAnswer<Global>,
    target: &[u8],
    hold: &mut Hold,
) -> Option<Reported> {
    match RefName::read(target, &mut Steps::new()) {
        Ok(_) => Some(answer.unborn(target, hold)),
        Err(_) => None,
    }
}

/// A reference as a store reports it: its name, what it points to and what it is peeled to; the result, and its packet.
#[derive(Clone, Copy, Debug)]
struct Row {
    name: &'static [u8],
    target: Option<&'static [u8]>,
    id: Oid,
    peeled: Option<Oid>,
    reported: Reported,
    packet: &'static [u8],
}

impl Row {
    fn new(name: &'static [u8], id: Oid, reported: Reported, packet: &'static [u8]) -> Row {
        Row {
            name,
            target: None,
            id,
            peeled: None,
            reported,
            packet,
        }
    }
}

/// Reports each reference in turn, and expects the outcome and the packet of its row.
fn expect_references(
    rt: &(impl Abort + AllocGlobal),
    answer: &mut ReferencesAnswer<Global>,
    given: &mut Given,
    rows: &[Row],
) -> Result<(), Fail> {
    for row in rows {
        let reference = entry(rt, row.name, row.id, row.target, row.peeled)?;
        let reported = answer.reference(reference, &mut given.hold);
        expect(rt, &reported, &row.reported);
        if reported == Reported::Packet {
            given.keep()?;
        }
        given.expect(rt, row.packet);
    }
    Ok(())
}

/// An unborn `HEAD` comes first, and no other `HEAD` after it.
#[test]
fn an_unborn_head_is_given_as_it_is_reported(rt: HostRuntime) -> Result<(), Fail> {
    let mut answer = ReferencesAnswer::new(ls_refs_of(&rt, REFERENCES), Format::Sha1);
    let mut given = Given::new(rt.alloc());
    let unborn = report_unborn(&mut answer, b"refs/heads/main", &mut given.hold);
    expect(&rt, &unborn, &Some(Reported::Packet));
    given.keep()?;
    given.expect(&rt, b"002eunborn HEAD symref-target:refs/heads/main\n");
    let head = Row::new(b"HEAD", id(&rt, b'a'), Reported::HeadTwice, b"");
    expect_references(&rt, &mut answer, &mut given, &[head])
}

/// A refused reference changes nothing: the next one is returned.
#[test]
fn references_are_given_as_they_are_reported(rt: HostRuntime) -> Result<(), Fail> {
    let mut answer = ReferencesAnswer::new(ls_refs_of(&rt, REFERENCES), Format::Sha1);
    let mut given = Given::new(rt.alloc());
    let a = id(&rt, b'a');
    let b = id(&rt, b'b');
    let other = object(&rt, Format::Sha256, b'b');
    let main = b"003daaaaaaaaaaaaaaaaaaaaaaaaaaaaaaaaaaaaaaaa refs/heads/main\n";
    let next =
        b"005bbbbbbbbbbbbbbbbbbbbbbbbbbbbbbbbbbbbbbbbb refs/heads/next symref-target:refs/heads/main\n";
    let tag =
        b"006abbbbbbbbbbbbbbbbbbbbbbbbbbbbbbbbbbbbbbbb refs/tags/v1 peeled:aaaaaaaaaaaaaaaaaaaaaaaaaaaaaaaaaaaaaaaa\n";
    let rows = [
        Row::new(b"refs/heads/main", a, Reported::Packet, main),
        Row::new(b"refs/heads/main", b, Reported::Unsorted, b""),
        Row::new(b"refs/heads/next", other, Reported::MixedFormats, b""),
        Row {
            target: Some(b"refs/heads/main"),
            ..Row::new(b"refs/heads/next", b, Reported::Packet, next)
        },
        Row::new(b"refs/notes/commits", a, Reported::Hidden, b""),
        Row {
            peeled: Some(a),
            ..Row::new(b"refs/tags/v1", b, Reported::Packet, tag)
        },
    ];
    expect_references(&rt, &mut answer, &mut given, &rows)?;
    assert!(rt; answer.end(&mut given.hold));
    given.keep()?;
    given.expect(&rt, b"0000");
    let late = Row::new(b"refs/tags/v2", a, Reported::NotAsked, b"");
    expect_references(&rt, &mut answer, &mut given, &[late])
}

/// An object that the store does not have has a line without a size.
#[test]
fn sizes_are_given_as_they_are_reported(rt: HostRuntime) -> Result<(), Fail> {
    let mut answer = SizesAnswer::new(object_info_of(&rt, SIZES));
    let mut given = Given::new(rt.alloc());
    assert!(rt; !answer.size(Some(12), &mut given.hold));
    assert!(rt; matches!(answer.next(&mut given.hold), SizesStep::Packet));
    given.keep()?;
    for (at, size) in [(0, Some(12)), (1, None)] {
        let step = answer.next(&mut given.hold);
        assert!(rt; matches!(step, SizesStep::AskSize(asked) if asked == at));
        assert!(rt; answer.size(size, &mut given.hold));
        given.keep()?;
    }
    assert!(rt; matches!(answer.next(&mut given.hold), SizesStep::Packet));
    given.keep()?;
    assert!(rt; matches!(answer.next(&mut given.hold), SizesStep::Whole));
    given.expect(
        &rt,
        b"0009size\n0030aaaaaaaaaaaaaaaaaaaaaaaaaaaaaaaaaaaaaaaa 12\n\
002ebbbbbbbbbbbbbbbbbbbbbbbbbbbbbbbbbbbbbbbb \n0000",
    );
    Ok(())
}
