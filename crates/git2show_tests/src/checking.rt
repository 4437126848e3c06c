//! Recorded streams that are checked against each other: what is reported if one stops, or if memory or the reads run out, and how far each
//! is read.
use crate::expecting::{expect, expect_bytes};
use crate::stopping::{ALL, MANY, TURNS, expect_front, expect_sent_bytes};
use git_client::Ending;
use git_names::Format;
use git_pkt::{Fault, Kind, Recorded, Stops};
use git2show_lib::{CheckFault, ProgramFault, check, report};
use linked_list_allocator::LocalHeap;
use std::alloc::Global;
use std::io::Read;
use std::process::Abort;
use std::test::Fail;
use test_streams::{Chunks, Endless, Sink, Stream};

/// No call with this number fails.
const NEVER: u32 = u32::MAX;

/// An advertisement of 100 bytes, with a capability that no client knows, references, and a pack.
const RESPONSES: &[u8] =
    b"000eversion 2\n0011agent=git2/1\n000cls-refs\n0012fetch=shallow\n0017object-format=sha1\n000cx-later\n0000\
0032aaaaaaaaaaaaaaaaaaaaaaaaaaaaaaaaaaaaaaaa HEAD\n0000000dpackfile\n0007\x01AB0006\x01C0000";

/// The requests for that, in 113 bytes.
const REQUESTS: &[u8] =
    b"0014command=ls-refs\n00000012command=fetch\n00010032want aaaaaaaaaaaaaaaaaaaaaaaaaaaaaaaaaaaaaaaa\n0009done\n00000000";

/// The expected transcript of both.
const TRANSCRIPT: &[u8] =
    b"capability agent=git2/1\ncapability ls-refs\ncapability fetch=shallow\ncapability object-format=sha1\ncapability x-later\noffered\n\
request ls-refs\nref aaaaaaaaaaaaaaaaaaaaaaaaaaaaaaaaaaaaaaaa HEAD\nend 0 0\nrequest fetch\nend 3 0\n";

/// The end of the advertisement, in the responses and in the transcript.
const ADVERTISED: (u64, usize) = (100, 125);

#[test]
fn faults_are_reported_with_their_stream(rt: HostRuntime) -> Result<(), Fail> {
    let left_over = Fault {
        kind: Kind::UnexpectedPacket,
        offset: 100,
    };
    for (fault, line) in [
        (
            CheckFault::Responses(left_over),
            b"git2show: responses: UnexpectedPacket at 100\n".as_slice(),
        ),
        (
            CheckFault::Requests(left_over),
            b"git2show: requests: UnexpectedPacket at 100\n".as_slice(),
        ),
        (CheckFault::ReadFault, b"git2show: ReadFault\n".as_slice()),
        (CheckFault::WriteFault, b"git2show: WriteFault\n".as_slice()),
        (CheckFault::ReadLimit, b"git2show: ReadLimit\n".as_slice()),
    ] {
        let mut sink = Sink::new(Vec::new(rt.alloc()), 7, NEVER);
        expect(
            &rt,
            &report(&ProgramFault::Check(fault), &mut Recorded::new(&mut sink)),
            &1,
        );
        expect_bytes(&rt, &sink.taken, line);
    }
    let mut sink = Sink::new(Vec::new(rt.alloc()), 7, NEVER);
    expect(
        &rt,
        &report(&ProgramFault::File, &mut Recorded::new(&mut sink)),
        &1,
    );
    expect_bytes(&rt, &sink.taken, b"git2show: File\n");
    Ok(())
}

/// After how many calls each stream stops, and the maximum number of reads.
#[derive(Clone, Copy)]
struct Stopping {
    requests: u32,
    responses: u32,
    writes: u32,
    turns: u64,
}

/// Streams that do not stop.
const SOUND: Stopping = Stopping {
    requests: ALL,
    responses: ALL,
    writes: ALL,
    turns: TURNS,
};

/// The result of a check.
#[derive(Drop)]
struct Checked {
    answer: Result<(), CheckFault>,
    /// How many reads were made of each stream.
    requests: u64,
    responses: u64,
    out: Sink,
}

/// Checks the streams, which stop as stated.
fn check_stopping(
    alloc: Global,
    requests: impl Read + Drop,
    responses: impl Read + Drop,
    stopping: Stopping,
) -> Checked {
    let mut out = Sink::new(Vec::new(alloc), usize::MAX, NEVER);
    let mut requests = Recorded::new(Stops::new(requests, stopping.requests));
    let mut responses = Recorded::new(Stops::new(responses, stopping.responses));
    let answer = check(
        alloc,
        &mut requests,
        &mut responses,
        Format::Sha1,
        Ending::FlushOnly,
        &mut [0; 256],
        &mut [0; 256],
        &mut Recorded::new(Stops::new(&mut out, stopping.writes)),
        stopping.turns,
    );
    Checked {
        answer,
        requests: requests.reads(),
        responses: responses.reads(),
        out,
    }
}

/// The responses, one chunk for each read.
const RECEIVED: [&[u8]; 11] = [
    b"000eversion 2\n",
    b"0011agent=git2/1\n000cls-refs\n00",
    b"12fetch=shallow\n",
    b"0017object-format=sha1\n000cx-later\n",
    b"0000",
    b"0032aaaaaaaaaaaaaaaaaaaaaaaaaaaaaaaaaaaaaaaa HEAD\n",
    b"0000",
    b"000dpackfile\n0007",
    b"\x01AB",
    b"0006\x01C",
    b"0000",
];

/// The lines expected after each read of them; none before the first.
const LINES_OF_RECEIVED: [&[u8]; 12] = [
    b"",
    b"",
    b"capability agent=git2/1\ncapability ls-refs\n",
    b"capability fetch=shallow\n",
    b"capability object-format=sha1\ncapability x-later\n",
    b"offered\nrequest ls-refs\n",
    b"ref aaaaaaaaaaaaaaaaaaaaaaaaaaaaaaaaaaaaaaaa HEAD\n",
    b"end 0 0\nrequest fetch\n",
    b"",
    b"",
    b"",
    b"end 3 0\n",
];

/// The requests, one chunk for each read.
const SENT: [&[u8]; 5] = [
    b"0014command=ls-refs\n",
    b"0000",
    b"0012command=fetch\n00010032want aaaaaaaaaaaaaaaaaaaaaaaaaaaaaaaaaaaaaaaa\n0009",
    b"done\n0000",
    b"0000",
];

/// The lines expected before the first read of them, and after each one but the last.
const LINES_OF_SENT: [&[u8]; 5] = [
    b"capability agent=git2/1\ncapability ls-refs\ncapability fetch=shallow\ncapability object-format=sha1\ncapability x-later\noffered\n",
    b"",
    b"request ls-refs\nref aaaaaaaaaaaaaaaaaaaaaaaaaaaaaaaaaaaaaaaa HEAD\nend 0 0\n",
    b"",
    b"request fetch\nend 3 0\n",
];

/// The whole conversation, over streams that stop as stated.
fn conversation(alloc: Global, stopping: Stopping) -> Checked {
    check_stopping(alloc, Chunks::new(&SENT), Chunks::new(&RECEIVED), stopping)
}

/// The whole conversation, with this many bytes for each read, and this many reads.
fn slow_conversation(alloc: Global, step: usize, turns: u64) -> Checked {
    check_stopping(
        alloc,
        Stream::new(REQUESTS, step, NEVER),
        Stream::new(RESPONSES, step, NEVER),
        Stopping { turns, ..SOUND },
    )
}

/// A read of the responses that fails is reported after the lines before it: the requests are read as soon as one is expected.
#[test]
fn each_read_of_the_responses_fails_in_turn_while_they_are_checked(
    rt: HostRuntime,
) -> Result<(), Fail> {
    let mut expected = Vec::new(rt.alloc());
    let mut responses = 0u32;
    for lines in LINES_OF_RECEIVED {
        expected.extend_from_slice(lines)?;
        let checked = conversation(rt.alloc(), Stopping { responses, ..SOUND });
        expect(&rt, &checked.answer, &Err(CheckFault::ReadFault));
        responses = responses.saturating_add(1);
        expect(&rt, &checked.responses, &u64::from(responses));
        expect_sent_bytes(&rt, &checked.out, &expected);
    }
    // The last read shows their end.
    let checked = conversation(rt.alloc(), Stopping { responses, ..SOUND });
    expect(&rt, &checked.answer, &Ok(()));
    expect_sent_bytes(&rt, &checked.out, TRANSCRIPT);
    Ok(())
}

/// The requests are read only up to the flush.
#[test]
fn each_read_of_the_requests_fails_in_turn_while_they_are_checked(
    rt: HostRuntime,
) -> Result<(), Fail> {
    let mut expected = Vec::new(rt.alloc());
    let mut requests = 0u32;
    for lines in LINES_OF_SENT {
        expected.extend_from_slice(lines)?;
        let checked = conversation(rt.alloc(), Stopping { requests, ..SOUND });
        expect(&rt, &checked.answer, &Err(CheckFault::ReadFault));
        requests = requests.saturating_add(1);
        expect(&rt, &checked.requests, &u64::from(requests));
        expect_sent_bytes(&rt, &checked.out, &expected);
    }
    let checked = conversation(rt.alloc(), Stopping { requests, ..SOUND });
    expect(&rt, &checked.answer, &Ok(()));
    expect(&rt, &checked.requests, &u64::from(requests));
    expect_sent_bytes(&rt, &checked.out, TRANSCRIPT);
    Ok(())
}

#[test]
fn each_write_and_flush_fails_in_turn_while_streams_are_checked(
    rt: HostRuntime,
) -> Result<(), Fail> {
    let mut longest = 0;
    for writes in 0..MANY {
        let checked = conversation(rt.alloc(), Stopping { writes, ..SOUND });
        expect_front(&rt, &checked.out, TRANSCRIPT, &mut longest);
        if checked.answer.is_ok() {
            expect(&rt, &longest, &TRANSCRIPT.len());
            return Ok(());
        }
        expect(&rt, &checked.answer, &Err(CheckFault::WriteFault));
    }
    assert!(rt; false, "a run with fewer calls");
    Ok(())
}

/// The client keeps asking for the references, and keeps receiving that there are none.
#[test]
fn a_conversation_without_an_end_ends_at_the_limit_of_reads(rt: HostRuntime) -> Result<(), Fail> {
    let asked = Endless::new(b"", b"0014command=ls-refs\n0000");
    let arrived = Endless::new(&RESPONSES[..100], b"0000");
    let endless = Stopping {
        turns: 1_000,
        ..SOUND
    };
    let checked = check_stopping(rt.alloc(), asked, arrived, endless);
    expect(&rt, &checked.answer, &Err(CheckFault::ReadLimit));
    expect(
        &rt,
        &checked.requests.saturating_add(checked.responses),
        &1_000,
    );
    expect(&rt, &checked.out.flushed, &checked.out.taken.len());
    Ok(())
}

/// As many reads as are made are enough, and one fewer is not, however small they are.
#[test]
fn reads_that_are_spent_are_reported(rt: HostRuntime) -> Result<(), Fail> {
    for step in [1, 7, 256] {
        let whole = slow_conversation(rt.alloc(), step, TURNS);
        if step == 256 {
            // Each stream is one chunk. The responses are read to their end, the requests only to the flush.
            expect(&rt, &(whole.requests, whole.responses), &(1, 2));
        }
        let reads = whole.requests.saturating_add(whole.responses);
        let enough = slow_conversation(rt.alloc(), step, reads);
        expect(&rt, &enough.answer, &Ok(()));
        for turns in 0..reads {
            let checked = slow_conversation(rt.alloc(), step, turns);
            expect(&rt, &checked.answer, &Err(CheckFault::ReadLimit));
            expect(
                &rt,
                &checked.requests.saturating_add(checked.responses),
                &turns,
            );
            expect(&rt, &checked.out.flushed, &checked.out.taken.len());
            assert!(rt; TRANSCRIPT.starts_with(checked.out.taken.as_slice()));
        }
    }
    Ok(())
}

/// No byte of a stream is read before it is expected: each read returns one byte.
#[test]
fn nothing_is_read_before_it_is_expected(rt: HostRuntime) -> Result<(), Fail> {
    let unknown = Stream::new(b"0017command=bundle-uri\n0000", 1, NEVER);
    let arrived = Stream::new(RESPONSES, 1, NEVER);
    let checked = check_stopping(rt.alloc(), unknown, arrived, SOUND);
    let refused = Fault {
        kind: Kind::UnknownCommand,
        offset: 0,
    };
    expect(&rt, &checked.answer, &Err(CheckFault::Requests(refused)));
    expect(&rt, &checked.requests, &23);
    expect(&rt, &checked.responses, &ADVERTISED.0);
    expect(&rt, &checked.out.taken.len(), &ADVERTISED.1);
    let bad = [&RESPONSES[..100], b"0001"].concat(rt.alloc())?;
    let asked = Stream::new(REQUESTS, 1, NEVER);
    let checked = check_stopping(rt.alloc(), asked, Stream::new(&bad, 1, NEVER), SOUND);
    let refused = Fault {
        kind: Kind::UnexpectedPacket,
        offset: 100,
    };
    expect(&rt, &checked.answer, &Err(CheckFault::Responses(refused)));
    expect(&rt, &checked.requests, &24);
    expect(&rt, &checked.responses, &104);
    Ok(())
}

// Whether the check succeeds with this much memory. If not, the want at which memory ran out is reported, with its offset.
fn check_with(rt: &(impl Abort + AllocGlobal), size: usize) -> Result<bool, Fail> {
    let heap = LocalHeap::new(rt.alloc(), size)?;
    let answer = check(
        &heap,
        &mut Recorded::new(REQUESTS),
        &mut Recorded::new(RESPONSES),
        Format::Sha1,
        Ending::FlushOnly,
        &mut [0; 256],
        &mut [0; 256],
        &mut Recorded::new(&mut Vec::new(rt.alloc())),
        TURNS,
    );
    let refused = Fault {
        kind: Kind::OutOfMemory,
        offset: 46,
    };
    assert!(rt; answer == Ok(()) || answer == Err(CheckFault::Requests(refused)));
    Ok(answer.is_ok())
}

#[test]
fn memory_that_runs_out_is_reported_of_the_requests(rt: HostRuntime) -> Result<(), Fail> {
    let mut was_enough = false;
    assert!(rt; !check_with(&rt, 32)?);
    for size in (32..1024).step_by(8) {
        let is_enough = check_with(&rt, size)?;
        assert!(rt; is_enough || !was_enough);
        was_enough = is_enough;
    }
    assert!(rt; was_enough);
    Ok(())
}
