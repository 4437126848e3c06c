//! A client over readers and writers: what it sends and receives, when it flushes, and what is reported if streams stop.
ghost use Rattle.std.specs.Prelude.{◌≡◌, ◌<◌, false, length};
ghost use Rattle.git_pkt.specs.Machine.Recorded.{IsNew, has_failed};

use crate::expecting::{expect, expect_bytes};
use crate::serving::{Asking, Counted};
use crate::stopping::{ALL, MANY, TURNS, expect_front, expect_sent_bytes};
use git_client::{Client, Ending, converse};
use git_msg::{Limits, Request};
use git_names::Format;
use git_pkt::{Discard, Fault, Kind, Output, Recorded, RunFault, Stops};
use git2show_lib::read_script;
use std::alloc::Global;
use std::cell::Cell;
use std::io::{Read, Write};
use std::process::Abort;
use std::test::Fail;
use test_streams::{Chunks, Endless, Sink, Stream};

/// No call with this number fails.
const NEVER: u32 = u32::MAX;

/// The requests: the references, and then a pack.
const SCRIPT: &[u8] = b"ls-refs\n\nfetch\nwant aaaaaaaaaaaaaaaaaaaaaaaaaaaaaaaaaaaaaaaa\ndone\n";

/// What the server sends: its advertisement of 71 bytes, the references, and a pack of three bytes with three of progress.
const ANSWERS: [&[u8]; 3] = [
    b"000eversion 2\n000cls-refs\n0012fetch=shallow\n0017object-format=sha1\n0000",
    b"0032aaaaaaaaaaaaaaaaaaaaaaaaaaaaaaaaaaaaaaaa HEAD\n0000",
    b"000dpackfile\n0007\x01AB0008\x02hi\n0006\x01C0000",
];

/// What the client sends for the references.
const LISTS: &[u8] = b"0014command=ls-refs\n0017object-format=sha1\n00010000";

/// What it sends for the pack.
const FETCHES: &[u8] =
    b"0012command=fetch\n0017object-format=sha1\n00010032want aaaaaaaaaaaaaaaaaaaaaaaaaaaaaaaaaaaaaaaa\n0009done\n0000";

/// Everything that it sends, up to its leaving.
const SENT: [&[u8]; 3] = [LISTS, FETCHES, b"0000"];

/// The transcript of it.
const TRANSCRIPT: &[u8] =
    b"capability ls-refs\ncapability fetch=shallow\ncapability object-format=sha1\noffered\n\
request ls-refs\nref aaaaaaaaaaaaaaaaaaaaaaaaaaaaaaaaaaaaaaaa HEAD\nend 0 0\nrequest fetch\nend 3 3\n";

/// The expected pack.
const PACK: &[u8] = b"ABC";

/// The expected progress.
const PROGRESS: &[u8] = b"hi\n";

/// The requests of a script.
pub fn requests(
    rt: &(impl Abort + AllocGlobal),
    script: &[u8],
) -> Result<Vec<Request<Global>>, Fail> {
    let read = read_script(rt.alloc(), script, Format::Sha1, Limits::DEFAULT);
    Ok(read.expect(rt, "a script"))
}

/// How a client's run ends that asks this script over these streams.
fn run_client<R: Read, W: Write, O: Write, P: Write, E: Output>(
    rt: &(impl Abort + AllocGlobal),
    script: &[u8],
    ending: Ending,
    answers: &mut Recorded<R>,
    content: &mut Recorded<W>,
    chunk: &mut [u8],
    out: &mut Recorded<O>,
    pack: &mut Recorded<P>,
    progress: &mut E,
    turns: u64,
) -> Result<Result<(), RunFault>, Fail>
    requires space { 0 < length chunk.old }
    requires new_reader { IsNew answers.old }
    requires sound_writer { has_failed content.old ≡ false }
    requires sound_out { has_failed out.old ≡ false }
    requires sound_pack { has_failed pack.old ≡ false }
    requires sound_progress { E.failed progress.old ≡ false }
{
    let requests = requests(rt, script)?;
    let mut client = Client::new(Format::Sha1, ending);
    Ok(converse(
        answers,
        content,
        chunk,
        &mut client,
        requests,
        out,
        pack,
        progress,
        turns,
    ))
}

/// The texts, one after another.
fn joined(rt: &(impl Abort + AllocGlobal), texts: &[&[u8]]) -> Result<Vec<u8>, Fail> {
    let mut all = Vec::new(rt.alloc());
    for text in texts {
        all.extend_from_slice(text)?;
    }
    Ok(all)
}

/// What was written to each writer.
#[derive(Drop)]
struct Given {
    got: Result<(), RunFault>,
    content: Sink,
    out: Sink,
    pack: Sink,
    progress: Sink,
}

/// After how many calls each stream stops, and the maximum number of reads.
#[derive(Clone, Copy)]
struct Stopping {
    reads: u32,
    conveys: u32,
    writes: u32,
    packs: u32,
    reports: u32,
    turns: u64,
}

/// No stream stops.
const SOUND: Stopping = Stopping {
    reads: ALL,
    conveys: ALL,
    writes: ALL,
    packs: ALL,
    reports: ALL,
    turns: TURNS,
};

/// Runs a client over a reader of what a server sends, and over streams that stop.
fn run<R: Read + Drop>(
    rt: &(impl Abort + AllocGlobal),
    answers: R,
    ending: Ending,
    stopping: Stopping,
) -> Result<Given, Fail> {
    let mut content = Sink::new(Vec::new(rt.alloc()), 40, NEVER);
    let mut out = Sink::new(Vec::new(rt.alloc()), usize::MAX, NEVER);
    let mut pack = Sink::new(Vec::new(rt.alloc()), usize::MAX, NEVER);
    let mut progress = Sink::new(Vec::new(rt.alloc()), usize::MAX, NEVER);
    let got = run_client(
        rt,
        SCRIPT,
        ending,
        &mut Recorded::new(Stops::new(answers, stopping.reads)),
        &mut Recorded::new(Stops::new(&mut content, stopping.conveys)),
        &mut [0; 128],
        &mut Recorded::new(Stops::new(&mut out, stopping.writes)),
        &mut Recorded::new(Stops::new(&mut pack, stopping.packs)),
        &mut Recorded::new(Stops::new(&mut progress, stopping.reports)),
        stopping.turns,
    )?;
    Ok(Given {
        got,
        content,
        out,
        pack,
        progress,
    })
}

/// Expects that a client receives the whole answers, and sends this.
fn expect_whole(
    rt: &(impl Abort + AllocGlobal),
    answers: &[u8],
    ending: Ending,
    content: &[u8],
) -> Result<(), Fail> {
    let given = run(rt, Stream::new(answers, 5, NEVER), ending, SOUND)?;
    expect(rt, &given.got, &Ok(()));
    expect_bytes(rt, &given.content.taken, content);
    expect_bytes(rt, &given.out.taken, TRANSCRIPT);
    expect_bytes(rt, &given.pack.taken, PACK);
    expect_bytes(rt, &given.progress.taken, PROGRESS);
    Ok(())
}

#[test]
fn a_client_asks_and_receives_and_leaves(rt: HostRuntime) -> Result<(), Fail> {
    let answers = joined(&rt, &ANSWERS)?;
    expect_whole(&rt, &answers, Ending::FlushOnly, &joined(&rt, &SENT)?)
}

#[test]
fn a_client_with_response_ends_asks_and_does_not_leave(rt: HostRuntime) -> Result<(), Fail> {
    let [advertisement, references, pack] = ANSWERS;
    let answers = joined(&rt, &[advertisement, references, b"0002", pack, b"0002"])?;
    let content = joined(&rt, &SENT[..2])?;
    expect_whole(&rt, &answers, Ending::ResponseEnd, &content)
}

/// The input, one chunk for each read.
const CHUNKS: [&[u8]; 11] = [
    b"000eversion 2\n",
    b"000cls-refs\n",
    b"0012fetch=shallow\n",
    b"0017object-format=sha1\n0000",
    b"0032aaaaaaaaaaaaaaaaaaaaaaaaaaaaaaaaaaaaaaaa HEAD\n",
    b"0000",
    b"000dpackfile\n",
    b"0007\x01A",
    b"B0008\x02hi\n",
    b"0006\x01C",
    b"0000",
];

/// What is expected after this many reads: sent to the server, in the transcript, of the pack, and of the progress. Nothing more is
/// expected before the next row.
const EXPECTED: [(u32, &[u8], &[u8], &[u8], &[u8]); 8] = [
    (2, b"", b"capability ls-refs\n", b"", b""),
    (3, b"", b"capability fetch=shallow\n", b"", b""),
    (
        4,
        LISTS,
        b"capability object-format=sha1\noffered\nrequest ls-refs\n",
        b"",
        b"",
    ),
    (
        5,
        b"",
        b"ref aaaaaaaaaaaaaaaaaaaaaaaaaaaaaaaaaaaaaaaa HEAD\n",
        b"",
        b"",
    ),
    (6, FETCHES, b"end 0 0\nrequest fetch\n", b"", b""),
    (8, b"", b"", b"A", b""),
    (9, b"", b"", b"B", b"hi\n"),
    (10, b"", b"", b"C", b""),
];

/// How many bytes sent, of the transcript, of the pack and of the progress are expected after this many reads.
fn expected_after(reads: u32) -> (usize, usize, usize, usize) {
    let mut expected = (0usize, 0usize, 0usize, 0usize);
    for (number, content, out, pack, progress) in EXPECTED {
        if number <= reads {
            expected.0 = expected.0.saturating_add(content.len());
            expected.1 = expected.1.saturating_add(out.len());
            expected.2 = expected.2.saturating_add(pack.len());
            expected.3 = expected.3.saturating_add(progress.len());
        }
    }
    expected
}

/// Expects that the run ended like this, and that exactly what is expected after this many reads was written and flushed.
fn expect_interrupted(
    rt: &(impl Abort + AllocGlobal),
    given: &Given,
    reads: u32,
    fault: RunFault,
) -> Result<(), Fail> {
    let (content, out, pack, progress) = expected_after(reads);
    expect(rt, &given.got, &Err(fault));
    let all_sent = joined(rt, &SENT)?;
    expect_sent_bytes(rt, &given.content, all_sent.get(..content).unwrap_or(&[]));
    expect_sent_bytes(rt, &given.out, TRANSCRIPT.get(..out).unwrap_or(&[]));
    expect_sent_bytes(rt, &given.pack, PACK.get(..pack).unwrap_or(&[]));
    expect_sent_bytes(rt, &given.progress, PROGRESS.get(..progress).unwrap_or(&[]));
    Ok(())
}

/// A failed read, and a read above the limit, are reported after everything expected before them.
#[test]
fn each_read_fails_in_turn_while_a_client_converses(rt: HostRuntime) -> Result<(), Fail> {
    for reads in 0..11u32 {
        let failing = Stopping { reads, ..SOUND };
        let given = run(&rt, Chunks::new(&CHUNKS), Ending::FlushOnly, failing)?;
        expect_interrupted(&rt, &given, reads, RunFault::ReadFault)?;
        let spent = Stopping {
            turns: u64::from(reads),
            ..SOUND
        };
        let given = run(&rt, Chunks::new(&CHUNKS), Ending::FlushOnly, spent)?;
        expect_interrupted(&rt, &given, reads, RunFault::ReadLimit)?;
    }
    let whole = Stopping {
        reads: 11,
        turns: 11,
        ..SOUND
    };
    let given = run(&rt, Chunks::new(&CHUNKS), Ending::FlushOnly, whole)?;
    expect(&rt, &given.got, &Ok(()));
    Ok(())
}

/// How much the runs before wrote to each writer.
#[derive(Default, Drop)]
struct Longest {
    content: usize,
    out: usize,
    pack: usize,
    progress: usize,
}

/// Expects that the written bytes are a prefix of what the whole run writes, and no shorter than before. Returns whether the run is whole.
fn expect_fronts(
    rt: &(impl Abort + AllocGlobal),
    given: &Given,
    longest: &mut Longest,
) -> Result<bool, Fail> {
    let content = joined(rt, &SENT)?;
    expect_front(rt, &given.content, &content, &mut longest.content);
    expect_front(rt, &given.out, TRANSCRIPT, &mut longest.out);
    expect_front(rt, &given.pack, PACK, &mut longest.pack);
    expect_front(rt, &given.progress, PROGRESS, &mut longest.progress);
    if given.got.is_err() {
        expect(rt, &given.got, &Err(RunFault::WriteFault));
        return Ok(false);
    }
    expect(rt, &longest.content, &content.len());
    expect(rt, &longest.out, &TRANSCRIPT.len());
    expect(rt, &longest.pack, &PACK.len());
    expect(rt, &longest.progress, &PROGRESS.len());
    Ok(true)
}

#[test]
fn each_write_and_flush_fails_in_turn_while_a_client_converses(
    rt: HostRuntime,
) -> Result<(), Fail> {
    for writer in 0..4 {
        let mut longest = Longest::default();
        let mut is_whole = false;
        for calls in 0..MANY {
            let mut stopping = SOUND;
            match writer {
                0 => stopping.conveys = calls,
                1 => stopping.writes = calls,
                2 => stopping.packs = calls,
                _ => stopping.reports = calls,
            }
            let given = run(&rt, Chunks::new(&CHUNKS), Ending::FlushOnly, stopping)?;
            is_whole = expect_fronts(&rt, &given, &mut longest)?;
            if is_whole {
                break;
            }
        }
        assert!(rt; is_whole);
    }
    Ok(())
}

/// An advertisement of 100 bytes, with a capability that no client knows.
const ADVERTISEMENT: &[u8] =
    b"000eversion 2\n0011agent=git2/1\n000cls-refs\n0012fetch=shallow\n0017object-format=sha1\n000cx-later\n0000";

/// What the client sends for a pack to a server that names itself.
const FETCHES_FROM_AN_AGENT: &[u8] =
    b"0012command=fetch\n0011agent=git2/1\n0017object-format=sha1\n00010032want aaaaaaaaaaaaaaaaaaaaaaaaaaaaaaaaaaaaaaaa\n0009done\n0000";

/// Runs a client that asks for a pack over this stream, and expects that everything it wrote was flushed. Returns how the run ended, and the pack.
fn run_fetch<R: Read + Drop>(
    rt: &(impl Abort + AllocGlobal),
    answers: R,
    turns: u64,
) -> Result<(Result<(), RunFault>, Vec<u8>), Fail> {
    let mut content = Sink::new(Vec::new(rt.alloc()), usize::MAX, NEVER);
    let mut out = Sink::new(Vec::new(rt.alloc()), usize::MAX, NEVER);
    let mut pack = Sink::new(Vec::new(rt.alloc()), usize::MAX, NEVER);
    let mut progress = Sink::new(Vec::new(rt.alloc()), usize::MAX, NEVER);
    let script = b"fetch\nwant aaaaaaaaaaaaaaaaaaaaaaaaaaaaaaaaaaaaaaaa\ndone\n";
    let got = run_client(
        rt,
        script,
        Ending::FlushOnly,
        &mut Recorded::new(answers),
        &mut Recorded::new(&mut content),
        &mut [0; 256],
        &mut Recorded::new(&mut out),
        &mut Recorded::new(&mut pack),
        &mut Recorded::new(&mut progress),
        turns,
    )?;
    expect_sent_bytes(rt, &content, FETCHES_FROM_AN_AGENT);
    assert!(rt;
        out.taken
            .ends_with(b"capability x-later\noffered\nrequest fetch\n")
    );
    expect(rt, &out.flushed, &out.taken.len());
    expect(rt, &pack.flushed, &pack.taken.len());
    expect(rt, &progress.flushed, &progress.taken.len());
    Ok((got, pack.taken))
}

/// What was received before a fatal error is passed on before the error is reported.
#[test]
fn what_came_before_a_fault_is_flushed(rt: HostRuntime) -> Result<(), Fail> {
    let response = b"000dpackfile\n0007\x01AB0008\x02hi\n0005\x010008\x03bad";
    let answers = joined(&rt, &[ADVERTISEMENT, response])?;
    let (got, pack) = run_fetch(&rt, answers.as_slice(), TURNS)?;
    let fatal = Fault {
        kind: Kind::RemoteFatal,
        offset: 133,
    };
    expect(&rt, &got, &Err(RunFault::Refused(fatal)));
    expect_bytes(&rt, &pack, b"AB");
    Ok(())
}

/// The advertisement and a part of the response come in one chunk.
#[test]
fn a_chunk_is_received_whole_before_the_read_that_fails(rt: HostRuntime) -> Result<(), Fail> {
    let answers = joined(&rt, &[ADVERTISEMENT, b"000dpackfile\n0007\x01AB"])?;
    let (got, pack) = run_fetch(&rt, Stops::new(answers.as_slice(), 1), TURNS)?;
    expect(&rt, &got, &Err(RunFault::ReadFault));
    expect_bytes(&rt, &pack, b"AB");
    Ok(())
}

/// The server keeps sending progress.
#[test]
fn a_response_without_an_end_ends_at_the_limit_of_reads(rt: HostRuntime) -> Result<(), Fail> {
    let first = joined(&rt, &[ADVERTISEMENT, b"000dpackfile\n0007\x01AB"])?;
    let mut reader = Recorded::new(Endless::new(&first, b"0006\x02x"));
    let (got, pack) = run_fetch(&rt, &mut reader, 1_000)?;
    expect(&rt, &got, &Err(RunFault::ReadLimit));
    expect(&rt, &reader.reads(), &1_000);
    expect_bytes(&rt, &pack, b"AB");
    Ok(())
}

#[test]
fn each_request_is_flushed_before_its_response_is_read(rt: HostRuntime) -> Result<(), Fail> {
    let flushed = Cell::new(0);
    let mut asking = Asking {
        chunks: &ANSWERS,
        next: 0,
        flushed: &flushed,
        seen: Vec::new(rt.alloc()),
    };
    let got = run_client(
        &rt,
        SCRIPT,
        Ending::FlushOnly,
        &mut Recorded::new(&mut asking),
        &mut Recorded::new(Counted {
            waiting: 0,
            flushed: &flushed,
        }),
        &mut [0; 256],
        &mut Recorded::new(Vec::new(rt.alloc())),
        &mut Recorded::new(Vec::new(rt.alloc())),
        &mut Discard,
        TURNS,
    )?;
    expect(&rt, &got, &Ok(()));
    assert_eq!(rt; asking.seen.as_slice(), [0, 51, 159].as_slice());
    expect(&rt, &flushed.get(), &163);
    Ok(())
}

/// The server does not advertise references by name.
#[test]
fn a_request_that_is_not_offered_is_not_sent(rt: HostRuntime) -> Result<(), Fail> {
    let [advertisement, _, _] = ANSWERS;
    let mut content = Vec::new(rt.alloc());
    let mut out = Vec::new(rt.alloc());
    let script = b"fetch\nwant-ref refs/heads/main\ndone\n";
    let got = run_client(
        &rt,
        script,
        Ending::FlushOnly,
        &mut Recorded::new(advertisement),
        &mut Recorded::new(&mut content),
        &mut [0; 256],
        &mut Recorded::new(&mut out),
        &mut Recorded::new(Vec::new(rt.alloc())),
        &mut Discard,
        TURNS,
    )?;
    let fault = Fault {
        kind: Kind::NotAdvertised,
        offset: 71,
    };
    expect(&rt, &got, &Err(RunFault::Refused(fault)));
    assert!(rt; content.is_empty());
    assert!(rt; out.ends_with(b"offered\n"));
    Ok(())
}
