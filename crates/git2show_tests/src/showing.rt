//! Streams without an end, and streams that stop, while their packets are shown, and how errors are reported.
use crate::expecting::{expect, expect_bytes};
use crate::stopping::{ALL, MANY, TURNS, expect_front, expect_sent_bytes};
use git_pkt::{Fault, Kind, Recorded, RunFault, Stops};
use git2show_lib::{ProgramFault, report, show};
use std::alloc::Global;
use std::test::Fail;
use test_streams::{Chunks, Endless, Sink, Stream};

/// No call with this number fails.
const NEVER: u32 = u32::MAX;

/// The input, one chunk for each read.
const CHUNKS: [&[u8]; 5] = [b"0000", b"0001000", b"8a\\", b"\nb0002", b"00040003"];

/// The lines expected after each read; none before the first.
const LINES: [&[u8]; 6] = [
    b"",
    b"0 flush\n",
    b"4 delim\n",
    b"",
    b"8 data 4 a\\\\\\nb\n16 end\n",
    b"20 data 0\n",
];

/// Shows the packets over streams that stop after this many calls, with at most this many reads.
fn show_stopping(
    alloc: Global,
    reads: u32,
    writes: u32,
    turns: u64,
) -> (Result<(), RunFault>, Sink) {
    let mut sink = Sink::new(Vec::new(alloc), 5, NEVER);
    let mut reader = Recorded::new(Stops::new(Chunks::new(&CHUNKS), reads));
    let mut writer = Recorded::new(Stops::new(&mut sink, writes));
    let got = show(&mut reader, &mut writer, &mut [0; 64], turns);
    (got, sink)
}

/// How a run ends that is not stopped: three is no length.
fn bad_length() -> Result<(), RunFault> {
    Err(RunFault::Refused(Fault {
        kind: Kind::BadLength,
        offset: 24,
    }))
}

#[test]
fn an_endless_stream_ends_at_the_limit_of_reads(rt: HostRuntime) -> Result<(), Fail> {
    let mut sink = Sink::new(Vec::new(rt.alloc()), usize::MAX, NEVER);
    let mut reader = Recorded::new(Endless::new(b"", b"0004"));
    let mut chunk = [0; 4];
    let got = show(&mut reader, &mut Recorded::new(&mut sink), &mut chunk, 3);
    expect(&rt, &got, &Err(RunFault::ReadLimit));
    expect(&rt, &reader.reads(), &3);
    expect_bytes(&rt, &sink.taken, b"0 data 0\n4 data 0\n8 data 0\n");
    Ok(())
}

/// A failed read, and a read above the limit, are reported after the lines before them.
#[test]
fn each_read_fails_in_turn_while_packets_are_shown(rt: HostRuntime) -> Result<(), Fail> {
    let mut expected = Vec::new(rt.alloc());
    let mut reads = 0u32;
    for lines in &LINES[..5] {
        expected.extend_from_slice(lines)?;
        let (got, sink) = show_stopping(rt.alloc(), reads, ALL, TURNS);
        expect(&rt, &got, &Err(RunFault::ReadFault));
        expect_sent_bytes(&rt, &sink, &expected);
        let (got, sink) = show_stopping(rt.alloc(), ALL, ALL, u64::from(reads));
        expect(&rt, &got, &Err(RunFault::ReadLimit));
        expect_sent_bytes(&rt, &sink, &expected);
        reads = reads.saturating_add(1);
    }
    expected.extend_from_slice(LINES[5])?;
    let (got, sink) = show_stopping(rt.alloc(), reads, ALL, u64::from(reads));
    expect(&rt, &got, &bad_length());
    expect_sent_bytes(&rt, &sink, &expected);
    Ok(())
}

#[test]
fn each_write_and_flush_fails_in_turn_while_packets_are_shown(rt: HostRuntime) -> Result<(), Fail> {
    let whole = LINES.concat(rt.alloc())?;
    let mut longest = 0;
    for writes in 0..MANY {
        let (got, sink) = show_stopping(rt.alloc(), ALL, writes, TURNS);
        expect_front(&rt, &sink, &whole, &mut longest);
        if got == bad_length() {
            expect(&rt, &longest, &whole.len());
            return Ok(());
        }
        expect(&rt, &got, &Err(RunFault::WriteFault));
    }
    assert!(rt; false, "a run with fewer calls");
    Ok(())
}

#[test]
fn lines_are_flushed_before_the_next_read(rt: HostRuntime) -> Result<(), Fail> {
    let mut sink = Sink::new(Vec::new(rt.alloc()), usize::MAX, NEVER);
    let mut reader = Recorded::new(Stream::new(b"000000010002", 4, NEVER));
    let mut chunk = [0; 64];
    let got = show(
        &mut reader,
        &mut Recorded::new(&mut sink),
        &mut chunk,
        TURNS,
    );
    expect(&rt, &got, &Ok(()));
    expect(&rt, &sink.flushes, &5);
    expect(&rt, &sink.flushed, &sink.taken.len());
    Ok(())
}

#[test]
fn faults_are_reported_on_one_line(rt: HostRuntime) -> Result<(), Fail> {
    let bad_length = Fault {
        kind: Kind::BadLength,
        offset: 0,
    };
    for (fault, line) in [
        (
            ProgramFault::Run(RunFault::Refused(bad_length)),
            b"git2show: BadLength at 0\n".as_slice(),
        ),
        (
            ProgramFault::Run(RunFault::ReadFault),
            b"git2show: ReadFault\n".as_slice(),
        ),
        (
            ProgramFault::Run(RunFault::WriteFault),
            b"git2show: WriteFault\n".as_slice(),
        ),
        (
            ProgramFault::Run(RunFault::ReadLimit),
            b"git2show: ReadLimit\n".as_slice(),
        ),
        (
            ProgramFault::Repo(18_446_744_073_709_551_615),
            b"git2show: BadRepo at 18446744073709551615\n".as_slice(),
        ),
        (
            ProgramFault::OutOfMemory,
            b"git2show: OutOfMemory\n".as_slice(),
        ),
    ] {
        let mut sink = Sink::new(Vec::new(rt.alloc()), 7, NEVER);
        expect(&rt, &report(&fault, &mut Recorded::new(&mut sink)), &1);
        expect_bytes(&rt, &sink.taken, line);
        let mut closed = Sink::new(Vec::new(rt.alloc()), 7, 0);
        expect(&rt, &report(&fault, &mut Recorded::new(&mut closed)), &1);
    }
    Ok(())
}
