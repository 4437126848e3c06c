//! The lines of a transcript, and writers that fail under them.

use crate::expecting::{expect, expect_bytes};
use git_client::{Event, Section, write_asked, write_event};
use git_msg::{Capability, Command};
use git_pkt::{Recorded, RunFault};
use std::process::Abort;
use std::test::Fail;
use test_streams::Sink;

const NEVER: u32 = u32::MAX;

fn event_of(value: Option<&'static [u8]>) -> Event<'static> {
    Event::Capability(Capability { key: b"key", value })
}

/// Expects that the event, in a response of 7 bytes of pack and 8 of progress, has this line, or none.
fn expect_line(
    rt: &(impl Abort + AllocGlobal),
    event: &Event<'_>,
    line: &[u8],
) -> Result<(), Fail> {
    let mut sink = Sink::new(Vec::new(rt.alloc()), usize::MAX, NEVER);
    let mut out = Recorded::new(&mut sink);
    expect(rt, &write_event(&mut out, event, 7, 8), &Ok(()));
    assert!(rt; !out.failed());
    expect_bytes(rt, &sink.taken, line);
    Ok(())
}

#[test]
fn each_event_is_a_line(rt: HostRuntime) -> Result<(), Fail> {
    let rows: [(Event<'static>, &[u8]); 11] = [
        (Event::Offered, b"offered\n"),
        (Event::Nak, b"nak\n"),
        (Event::Ready, b"ready\n"),
        (Event::Section(Section::ShallowInfo), b""),
        (Event::Pack(b"PACK"), b""),
        (Event::Progress(b"half\n"), b""),
        (Event::Ended, b"end 7 8\n"),
        (event_of(None), b"capability key\n"),
        (event_of(Some(b"")), b"capability key=\n"),
        (event_of(Some(b"a=b ~")), b"capability key=a=b ~\n"),
        (
            event_of(Some(b"\\\x1f\x7f\xc3\xa9\r")),
            b"capability key=\\\\\\x1f\\x7f\\xc3\\xa9\\x0d\n",
        ),
    ];
    for (event, line) in rows {
        expect_line(&rt, &event, line)?;
    }
    Ok(())
}

#[test]
fn each_question_is_a_line(rt: HostRuntime) -> Result<(), Fail> {
    for (command, line) in [
        (Command::LsRefs, b"request ls-refs\n".as_slice()),
        (Command::Fetch, b"request fetch\n".as_slice()),
        (Command::ObjectInfo, b"request object-info\n".as_slice()),
    ] {
        let mut sink = Sink::new(Vec::new(rt.alloc()), usize::MAX, NEVER);
        let mut out = Recorded::new(&mut sink);
        expect(&rt, &write_asked(&mut out, command), &Ok(()));
        expect_bytes(&rt, &sink.taken, line);
    }
    Ok(())
}

#[test]
fn a_long_value_is_written_whole(rt: HostRuntime) -> Result<(), Fail> {
    let value = [b'\\'; 1_000];
    let capability = Capability {
        key: b"k",
        value: Some(&value),
    };
    let mut sink = Sink::new(Vec::new(rt.alloc()), 7, NEVER);
    let mut out = Recorded::new(&mut sink);
    let event = Event::Capability(capability);
    expect(&rt, &write_event(&mut out, &event, 0, 0), &Ok(()));
    expect(&rt, &sink.taken.len(), &2_014);
    assert!(rt; sink.taken.as_slice().starts_with(b"capability k=\\\\"));
    assert!(rt; sink.taken.as_slice().ends_with(b"\\\\\n"));
    Ok(())
}

#[test]
fn a_writer_that_fails_is_a_write_fault(rt: HostRuntime) -> Result<(), Fail> {
    let line = b"capability key=value\n";
    // The writer takes five bytes at a time, so that the line takes five writes.
    for failing in 0..5 {
        let mut sink = Sink::new(Vec::new(rt.alloc()), 5, failing);
        let mut out = Recorded::new(&mut sink);
        let event = event_of(Some(b"value"));
        assert_eq!(rt;
            write_event(&mut out, &event, 0, 0),
            Err(RunFault::WriteFault),
            "at {failing}"
        );
        assert!(rt; out.failed(), "at {failing}");
        assert!(rt; line.starts_with(sink.taken.as_slice()), "at {failing}");
    }
    Ok(())
}
