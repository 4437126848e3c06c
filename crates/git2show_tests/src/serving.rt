//! Servers over readers and writers: when they flush, what is reported if streams stop, and reads above the limit.
use crate::expecting::{expect, expect_bytes};
use crate::servers::{Setup, advertising, default_setup, new_server, run_server};
use crate::stopping::{ALL, MANY, TURNS, expect_front, expect_sent_bytes};
use git_names::Format;
use git_pkt::{Recorded, RunFault, Stops};
use git_server::{Outcome, Repo, serve};
use std::cell::Cell;
use std::io;
use std::io::{Read, Write};
use std::process::Abort;
use std::test::Fail;
use test_streams::{Chunks, Endless, Sink};

// A writer that passes bytes on when it is flushed, and counts the flushes.
#[derive(Drop)]
struct Held {
    waiting: Vec<u8>,
    passed: Vec<u8>,
    flushes: u32,
}

impl Write for Held {
    fn write(&mut self, buf: &[u8]) -> io::Result<usize> {
        self.waiting.extend_from_slice(buf)?;
        Ok(buf.len())
    }

    fn flush(&mut self) -> io::Result<()> {
        self.passed.extend_from_slice(&self.waiting)?;
        self.waiting.clear();
        self.flushes = self.flushes.saturating_add(1);
        Ok(())
    }
}

// How a run with at most this many reads ends, and its writer, which has passed on everything that was written to it.
fn run_held(
    rt: &(impl Abort + AllocGlobal),
    input: &[u8],
    setup: Setup,
    turns: u64,
) -> Result<(Result<Outcome, RunFault>, Held), Fail> {
    let mut held = Held {
        waiting: Vec::new(rt.alloc()),
        passed: Vec::new(rt.alloc()),
        flushes: 0,
    };
    let mut reader = Recorded::new(input);
    let mut writer = Recorded::new(&mut held);
    let run = run_server(rt, setup, &mut reader, &mut writer, &mut [0; 5], turns)?;
    assert!(rt; held.waiting.is_empty());
    Ok((run, held))
}

#[test]
fn all_is_flushed_at_the_end(rt: HostRuntime) -> Result<(), Fail> {
    let endings: [&[u8]; 4] = [
        b"0014command=ls-refs\n0000",
        b"0014command=ls-refs\n00000000",
        b"0014command=ls-refs\n000000",
        b"0014command=ls-refs\n0000g",
    ];
    for input in endings {
        let (run, held) = run_held(&rt, input, advertising(Format::Sha1), 100)?;
        assert!(rt; run.is_ok());
        assert!(rt; held.passed.len() > 150);
    }
    Ok(())
}

#[test]
fn all_is_flushed_where_the_reads_are_spent(rt: HostRuntime) -> Result<(), Fail> {
    let (run, held) = run_held(&rt, b"0014command=ls-refs\n0000", default_setup(), 5)?;
    expect(&rt, &run, &Err(RunFault::ReadLimit));
    expect(&rt, &held.passed.len(), &173);
    // Once before each read and once at the end, although the answer has four packets.
    expect(&rt, &held.flushes, &6);
    let (run, held) = run_held(&rt, b"", advertising(Format::Sha1), 0)?;
    expect(&rt, &run, &Err(RunFault::ReadLimit));
    expect_bytes(&rt, &held.passed, ANSWERS[0]);
    Ok(())
}

/// Returns one chunk for each read, and notes how many bytes had been flushed by then.
#[derive(Drop)]
pub(crate) struct Asking<'a> {
    pub(crate) chunks: &'a [&'a [u8]],
    pub(crate) next: usize,
    pub(crate) flushed: &'a Cell<usize>,
    pub(crate) seen: Vec<usize>,
}

impl<'a> Read for Asking<'a> {
    fn read(&mut self, buf: &mut [u8]) -> io::Result<usize> {
        self.seen.push(self.flushed.get())?;
        let Some(chunk) = self.chunks.get(self.next) else {
            return Ok(0);
        };
        self.next = self.next.saturating_add(1);
        let count = chunk.len().min(buf.len());
        buf[..count].copy_from_slice(&chunk[..count]);
        Ok(count)
    }
}

/// Counts the bytes that its flushes passed on.
#[derive(Drop)]
pub(crate) struct Counted<'a> {
    pub(crate) waiting: usize,
    pub(crate) flushed: &'a Cell<usize>,
}

impl<'a> Write for Counted<'a> {
    fn write(&mut self, buf: &[u8]) -> io::Result<usize> {
        self.waiting = self.waiting.saturating_add(buf.len());
        Ok(buf.len())
    }

    fn flush(&mut self) -> io::Result<()> {
        let flushed = self.flushed.get().saturating_add(self.waiting);
        self.flushed.set(flushed);
        self.waiting = 0;
        Ok(())
    }
}

#[test]
fn each_answer_is_flushed_before_the_next_read(rt: HostRuntime) -> Result<(), Fail> {
    let request = b"0014command=ls-refs\n0000".as_slice();
    let chunks: [&[u8]; 3] = [request, request, b"0000"];
    let flushed = Cell::new(0);
    let mut asking = Asking {
        chunks: &chunks,
        next: 0,
        flushed: &flushed,
        seen: Vec::new(rt.alloc()),
    };
    let mut reader = Recorded::new(&mut asking);
    let mut writer = Recorded::new(Counted {
        waiting: 0,
        flushed: &flushed,
    });
    let run = run_server(
        &rt,
        default_setup(),
        &mut reader,
        &mut writer,
        &mut [0; 64],
        100,
    )?;
    expect(&rt, &run, &Ok(Outcome::Flush));
    assert_eq!(rt; asking.seen.as_slice(), [0, 173, 346].as_slice());
    Ok(())
}

/// The input, one chunk for each read: two requests, and the flush of a client that leaves.
const CHUNKS: [&[u8]; 6] = [
    b"0014command=ls",
    b"-refs\n0000",
    b"0012command=fetch\n0001",
    b"0032want aaaaaaaaaaaaaaaaaaaaaaaaaaaaaaaaaaaaaaaa\n0009done\n",
    b"0000",
    b"0000",
];

/// The output expected before the first read, and after each one but the last.
const ANSWERS: [&[u8]; 6] = [
    b"000eversion 2\n0011agent=git2/1\n0013ls-refs=unborn\n0033fetch=shallow ref-in-want wait-for-done filter\n\
0012server-option\n0017object-format=sha1\n0000",
    b"",
    b"0032aaaaaaaaaaaaaaaaaaaaaaaaaaaaaaaaaaaaaaaa HEAD\n\
003daaaaaaaaaaaaaaaaaaaaaaaaaaaaaaaaaaaaaaaa refs/heads/main\n\
003abbbbbbbbbbbbbbbbbbbbbbbbbbbbbbbbbbbbbbbb refs/tags/v1\n0000",
    b"",
    b"",
    b"000dpackfile\n000a\x01PACK!0000",
];

/// How a run with at most this many reads ends if its streams stop after this many calls, and what it wrote.
fn serve_stopping(
    rt: &(impl Abort + AllocGlobal),
    reads: u32,
    writes: u32,
    turns: u64,
) -> Result<(Result<Outcome, RunFault>, Sink), Fail> {
    let setup = advertising(Format::Sha1);
    let mut sink = Sink::new(Vec::new(rt.alloc()), 60, u32::MAX);
    let mut reader = Recorded::new(Stops::new(Chunks::new(&CHUNKS), reads));
    let mut writer = Recorded::new(Stops::new(&mut sink, writes));
    let run = run_server(rt, setup, &mut reader, &mut writer, &mut [0; 64], turns)?;
    Ok((run, sink))
}

/// A failed read, and a read above the limit, are reported after the whole answers before them.
#[test]
fn each_read_fails_in_turn_while_a_session_is_served(rt: HostRuntime) -> Result<(), Fail> {
    let mut expected = Vec::new(rt.alloc());
    let mut reads = 0u32;
    for answer in ANSWERS {
        expected.extend_from_slice(answer)?;
        let (run, sink) = serve_stopping(&rt, reads, ALL, TURNS)?;
        expect(&rt, &run, &Err(RunFault::ReadFault));
        expect_sent_bytes(&rt, &sink, &expected);
        let (run, sink) = serve_stopping(&rt, ALL, ALL, u64::from(reads))?;
        expect(&rt, &run, &Err(RunFault::ReadLimit));
        expect_sent_bytes(&rt, &sink, &expected);
        reads = reads.saturating_add(1);
    }
    let (run, sink) = serve_stopping(&rt, reads, ALL, u64::from(reads))?;
    expect(&rt, &run, &Ok(Outcome::Flush));
    expect_sent_bytes(&rt, &sink, &expected);
    Ok(())
}

#[test]
fn each_write_and_flush_fails_in_turn_while_a_session_is_served(
    rt: HostRuntime,
) -> Result<(), Fail> {
    let whole = ANSWERS.concat(rt.alloc())?;
    let mut longest = 0;
    for writes in 0..MANY {
        let (run, sink) = serve_stopping(&rt, ALL, writes, TURNS)?;
        expect_front(&rt, &sink, &whole, &mut longest);
        if run.is_ok() {
            expect(&rt, &longest, &whole.len());
            return Ok(());
        }
        expect(&rt, &run, &Err(RunFault::WriteFault));
    }
    assert!(rt; false, "a run with fewer calls");
    Ok(())
}

/// The client keeps asking for the references.
#[test]
fn a_session_without_an_end_ends_at_the_limit_of_reads(rt: HostRuntime) -> Result<(), Fail> {
    let mut sink = Sink::new(Vec::new(rt.alloc()), usize::MAX, u32::MAX);
    let mut reader = Recorded::new(Endless::new(b"", b"0014command=ls-refs\n0000"));
    let mut writer = Recorded::new(&mut sink);
    let run = run_server(
        &rt,
        default_setup(),
        &mut reader,
        &mut writer,
        &mut [0; 64],
        100,
    )?;
    expect(&rt, &run, &Err(RunFault::ReadLimit));
    expect(&rt, &reader.reads(), &100);
    expect(&rt, &sink.taken.len(), &17_300);
    expect(&rt, &sink.flushed, &17_300);
    Ok(())
}

#[test]
fn reads_that_are_spent(rt: HostRuntime) -> Result<(), Fail> {
    let mut server = new_server(&rt, rt.alloc(), default_setup())?;
    let mut reader = Recorded::new(b"0014command=ls-refs\n0000".as_slice());
    let mut given = Vec::new(rt.alloc());
    let mut writer = Recorded::new(&mut given);
    let mut chunk = [0; 1];
    let run = serve(&mut reader, &mut writer, &mut chunk, &mut server, 24);
    expect(&rt, &run, &Err(RunFault::ReadLimit));
    expect(&rt, &given.len(), &173);
    // The session continues over another reader.
    let mut reader = Recorded::new(b"0014command=ls-refs\n00000000".as_slice());
    let mut writer = Recorded::new(&mut given);
    let run = serve(&mut reader, &mut writer, &mut chunk, &mut server, 100);
    expect(&rt, &run, &Ok(Outcome::Flush));
    expect(&rt, &given.len(), &346);
    Ok(())
}

#[test]
fn a_server_gives_its_repository_back(rt: HostRuntime) -> Result<(), Fail> {
    let repo = new_server(&rt, rt.alloc(), default_setup())?.into_repo();
    expect(&rt, &repo.refs().len(), &3);
    assert!(rt; repo.find(b"refs/tags/v1").is_some());
    assert!(rt; repo.find(b"refs/tags/v2").is_none());
    Ok(())
}
