//! What a `Recorded` reports of calls that go well, fail, and go well again, and which reads a `Retries` makes again.
use crate::expecting::{expect, expect_bytes};
use git_pkt::{Recorded, Retries, Stops};
use std::io::{ErrorKind, Read, Write};
use std::test::Fail;
use test_streams::{Sink, Stream};

#[test]
fn a_reader_that_fails_in_mid_stream_is_reported_and_read_on(rt: HostRuntime) -> Result<(), Fail> {
    let mut reader = Recorded::new(Stream::new(b"abcdef", 2, 1));
    let mut chunk = [0u8; 4];
    expect(&rt, &reader.read(&mut chunk)?, &2);
    expect_bytes(&rt, &chunk[..2], b"ab");
    assert!(rt; !reader.failed());
    let kind = reader.read(&mut chunk).map_err(|error| error.kind());
    expect(&rt, &kind, &Err(ErrorKind::ConnectionReset));
    assert!(rt; reader.failed() && !reader.ended());
    expect(&rt, &reader.read(&mut chunk)?, &2);
    expect_bytes(&rt, &chunk[..2], b"cd");
    expect(&rt, &reader.reads(), &3);
    assert!(rt; reader.failed() && !reader.ended());
    Ok(())
}

#[test]
fn an_interrupted_read_is_made_again(rt: HostRuntime) -> Result<(), Fail> {
    let mut stream = Stream::new(b"abcdef", 2, 1);
    stream.error = ErrorKind::Interrupted;
    let mut reader = Recorded::new(Retries::new(&mut stream));
    let mut chunk = [0u8; 4];
    expect(&rt, &reader.read(&mut chunk)?, &2);
    expect(&rt, &reader.read(&mut chunk)?, &2);
    expect_bytes(&rt, &chunk[..2], b"cd");
    assert!(rt; !reader.failed());
    expect(&rt, &reader.reads(), &2);
    expect(&rt, &stream.reads, &3);
    Ok(())
}

#[test]
fn a_read_that_fails_otherwise_is_not_made_again(rt: HostRuntime) -> Result<(), Fail> {
    let mut stream = Stream::new(b"abcdef", 2, 0);
    let mut reader = Retries::new(&mut stream);
    let mut chunk = [0u8; 4];
    let kind = reader.read(&mut chunk).map_err(|error| error.kind());
    expect(&rt, &kind, &Err(ErrorKind::ConnectionReset));
    expect(&rt, &stream.reads, &1);
    expect_bytes(&rt, stream.rest, b"abcdef");
    Ok(())
}

#[test]
fn an_empty_buffer_shows_no_end(rt: HostRuntime) -> Result<(), Fail> {
    let mut reader = Recorded::new(Stream::new(b"ab", 9, 9));
    let mut chunk = [0u8; 4];
    expect(&rt, &reader.read(&mut [])?, &0);
    assert!(rt; !reader.ended());
    expect(&rt, &reader.read(&mut chunk)?, &2);
    expect(&rt, &reader.read(&mut [])?, &0);
    assert!(rt; !reader.ended());
    expect(&rt, &reader.read(&mut chunk)?, &0);
    assert!(rt; reader.ended() && !reader.failed());
    expect(&rt, &reader.reads(), &4);
    Ok(())
}

#[test]
fn a_writer_of_one_byte_at_a_time_takes_all(rt: HostRuntime) -> Result<(), Fail> {
    let mut sink = Sink::new(Vec::new(rt.alloc()), 1, 99);
    let mut writer = Recorded::new(&mut sink);
    writer.write_all(b"foobar")?;
    assert!(rt; !writer.failed());
    expect(&rt, &writer.reads(), &0);
    expect(&rt, &writer.write(b"xyz")?, &1);
    expect_bytes(&rt, &sink.taken, b"foobarx");
    expect(&rt, &sink.writes, &7);
    Ok(())
}

#[test]
fn a_writer_that_fails_in_mid_stream_has_a_front(rt: HostRuntime) -> Result<(), Fail> {
    let mut sink = Sink::new(Vec::new(rt.alloc()), 2, 2);
    let mut writer = Recorded::new(&mut sink);
    let kind = writer.write_all(b"foobar").map_err(|error| error.kind());
    expect(&rt, &kind, &Err(ErrorKind::BrokenPipe));
    assert!(rt; writer.failed());
    writer.write_all(b"!")?;
    assert!(rt; writer.failed());
    expect_bytes(&rt, &sink.taken, b"foob!");
    Ok(())
}

#[test]
fn an_interrupted_write_is_made_again(rt: HostRuntime) -> Result<(), Fail> {
    let mut sink = Sink::new(Vec::new(rt.alloc()), 2, 1);
    sink.error = ErrorKind::Interrupted;
    let mut writer = Recorded::new(&mut sink);
    writer.write_all(b"foobar")?;
    assert!(rt; !writer.failed());
    expect_bytes(&rt, &sink.taken, b"foobar");
    Ok(())
}

#[test]
fn a_full_writer_is_a_failure(rt: HostRuntime) -> Result<(), Fail> {
    let mut sink = Sink::new(Vec::new(rt.alloc()), 0, 99);
    let mut writer = Recorded::new(&mut sink);
    let kind = writer.write_all(b"foobar").map_err(|error| error.kind());
    expect(&rt, &kind, &Err(ErrorKind::WriteZero));
    assert!(rt; writer.failed());
    writer.write_all(b"")?;
    Ok(())
}

#[test]
fn flushes_are_passed_on(rt: HostRuntime) -> Result<(), Fail> {
    let mut sink = Sink::new(Vec::new(rt.alloc()), 1, 99);
    let mut writer = Recorded::new(Stops::new(&mut sink, 2));
    writer.flush()?;
    writer.flush()?;
    assert!(rt; !writer.failed());
    assert!(rt; writer.flush().is_err());
    assert!(rt; writer.failed());
    expect(&rt, &sink.flushes, &2);
    Ok(())
}

#[test]
fn many_calls_and_large_writes_go_through(rt: HostRuntime) -> Result<(), Fail> {
    let bytes = vec![in rt.alloc(); b'x'; 300_000]?;
    let mut reader = Recorded::new(Stream::new(&bytes, 1, u32::MAX));
    let mut chunk = [0u8; 9];
    for _ in 0..300_000 {
        expect(&rt, &reader.read(&mut chunk)?, &1);
    }
    expect(&rt, &reader.reads(), &300_000);
    assert!(rt; !reader.failed() && !reader.ended());
    let mut sink = Sink::new(Vec::new(rt.alloc()), usize::MAX, u32::MAX);
    let mut writer = Recorded::new(&mut sink);
    for _ in 0..300_000 {
        expect(&rt, &writer.write(b"x")?, &1);
        writer.write_all(b"x")?;
        writer.flush()?;
    }
    expect(&rt, &writer.write(&bytes)?, &300_000);
    writer.write_all(&bytes)?;
    assert!(rt; !writer.failed());
    expect(&rt, &sink.writes, &600_002);
    expect(&rt, &sink.flushes, &300_000);
    expect(&rt, &sink.taken.len(), &1_200_000);
    assert!(rt; sink.taken.as_slice().iter().all(|byte| *byte == b'x'));
    Ok(())
}

#[test]
fn a_failed_call_is_not_made_again(rt: HostRuntime) -> Result<(), Fail> {
    let mut stream = Stream::new(b"abcdef", 9, 0);
    let mut reader = Recorded::new(&mut stream);
    let mut chunk = [0u8; 4];
    assert!(rt; reader.read(&mut chunk).is_err());
    expect(&rt, &reader.read(&mut chunk)?, &4);
    expect(&rt, &stream.reads, &2);
    let mut sink = Sink::new(Vec::new(rt.alloc()), 9, 0);
    let mut writer = Recorded::new(&mut sink);
    assert!(rt; writer.write(b"foobar").is_err());
    assert!(rt; writer.write_all(b"foobar").is_ok());
    expect(&rt, &sink.writes, &2);
    Ok(())
}
