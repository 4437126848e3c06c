//! A judge of conversations that C holds.

ghost use Rattle.std.specs.Prelude.{◌≡◌, None};
ghost use Rattle.gitwire.specs.Answers.{answering, what_number};
ghost use Rattle.gitwire.specs.Calls.{HasNone, On};
ghost use Rattle.gitwire.specs.CheckerAnswers.{BeginsBy, ClosesStream, FeedsStream, PullsInBuffer, answer_of, streams, unread};
ghost use Rattle.gitwire.specs.ClientAnswers.{endings};
ghost use Rattle.gitwire.specs.Handles.{judge_in};
ghost use Rattle.gitwire.specs.Numbers.{formats, numbered};

use crate::answer::{GitwireAnswer, What};
use crate::client::ending_numbered;
use crate::handles::{GitwireChecker, Holds, fill, on};
use crate::judge::Judge;
use crate::numbers::format_numbered;
use crate::request::MOST_LIMIT;
use git_msg::Limits;
use git_pkt::{Fault, Kind};
use git2show_lib::{CheckFault, Needed, Stream};
use std::alloc::Global;
use std::mem::replace;

/// Makes the handle's checker a new one, before the first byte, of a conversation of this object format whose responses end so. It keeps at
/// most `limit` bytes of a request's arguments. What the handle had before is freed. `Done`; `BadValue`, and the handle is unchanged, for a
/// number that means no format or no ending, and for a limit above 1,073,741,824; or `OutOfMemory`, and the handle has none.
#[unsafe(no_mangle)]
pub extern "C" fn gitwire_checker_init(
    alloc: Global,
    checker: &mut GitwireChecker,
    format: u32,
    ending: u32,
    limit: u32,
) -> u32
    ensures { BeginsBy (numbered formats format) (numbered endings ending) limit (judge_in checker.old) result (judge_in checker.new) }
{
    let Some(format) = format_numbered(format) else {
        return What::BadValue.number();
    };
    let Some(ending) = ending_numbered(ending) else {
        return What::BadValue.number();
    };
    if limit > MOST_LIMIT {
        return What::BadValue.number();
    }
    *checker = GitwireChecker::none(alloc);
    let Ok(made) = Box::new(
        alloc,
        Judge::new(alloc, format, ending, Limits { args: limit }),
    ) else {
        return What::OutOfMemory.number();
    };
    fill(checker, alloc, made).number()
}

/// Takes bytes of a stream: all of them, or those up to where something else is needed, but some. `More`, and how many were used; `NotNow`, and
/// none, if bytes of this stream are not needed; `BadValue` for a number that means no stream; or `NoRequest`.
#[unsafe(no_mangle)]
pub extern "C" fn gitwire_checker_feed(
    alloc: Global,
    checker: &mut GitwireChecker,
    stream: u32,
    chunk: &[u8],
) -> GitwireAnswer
    ensures { On (judge_in checker.old) (judge_in checker.new) (λ old new. FeedsStream (numbered streams stream) old chunk.now result new)
        (result ≡ answering What.NoRequest) }
{
    on!(checker, alloc; feed(checker, stream, chunk))
}

fn feed(judge: &mut Judge, stream: u32, chunk: &[u8]) -> GitwireAnswer
    ensures { FeedsStream (numbered streams stream) judge.old chunk.now result judge.new }
{
    let Some(stream) = stream_numbered(stream) else {
        return GitwireAnswer::of(What::BadValue);
    };
    if !judge.checker.needs(stream) {
        return GitwireAnswer::of(What::NotNow);
    }
    GitwireAnswer::of_used(judge.checker.feed(stream, chunk), What::More)
}

/// A stream ends here. `Done`; `NotNow` if its bytes are not needed, and nothing changed; `BadValue` for a number that means no stream; or
/// `NoRequest`.
#[unsafe(no_mangle)]
pub extern "C" fn gitwire_checker_close(
    alloc: Global,
    checker: &mut GitwireChecker,
    stream: u32,
) -> u32
    ensures { On (judge_in checker.old) (judge_in checker.new) (λ old new. ClosesStream (numbered streams stream) old result new)
        (result ≡ what_number What.NoRequest) }
{
    on!(checker, alloc; close(checker, stream), else What::NoRequest.number())
}

fn close(judge: &mut Judge, stream: u32) -> u32
    ensures { ClosesStream (numbered streams stream) judge.old result judge.new }
{
    let Some(stream) = stream_numbered(stream) else {
        return What::BadValue.number();
    };
    if !judge.checker.needs(stream) {
        return What::NotNow.number();
    }
    judge.checker.close(stream);
    What::Done.number()
}

/// The stream that C means by this number; none if there is no such stream.
fn stream_numbered(number: u32) -> Option<Stream>
    ensures { result ≡ numbered streams number }
{
    match number {
        1 => Some(Stream::Requests),
        2 => Some(Stream::Responses),
        _ => None,
    }
}

/// The next lines of the transcript, copied to the front of the buffer, as many of their bytes as fit, or what to do instead. `Lines`,
/// `NeedRequests` or `NeedResponses`; at the end `Checked`, `FailedRequests` or `FailedResponses`; `NoRequest`; and `BufferTooSmall` if the
/// buffer has no byte.
#[unsafe(no_mangle)]
pub extern "C" fn gitwire_checker_pull(
    alloc: Global,
    checker: &mut GitwireChecker,
    buffer: &mut [u8],
) -> GitwireAnswer
    ensures { On (judge_in checker.old) (judge_in checker.new) (λ old new. PullsInBuffer old buffer.old result buffer.new new)
        (HasNone buffer.old result buffer.new) }
{
    on!(checker, alloc; pull(checker, buffer))
}

fn pull(judge: &mut Judge, buffer: &mut [u8]) -> GitwireAnswer
    ensures { PullsInBuffer judge.old buffer.old result buffer.new judge.new }
{
    if buffer.is_empty() {
        return GitwireAnswer::of(What::BufferTooSmall);
    }
    match judge.checker.needed() {
        Needed::Lines => { GitwireAnswer::of_packet(0, 0, judge.copy_lines(buffer), What::Lines) }
        Needed::Input(Stream::Requests) => GitwireAnswer::of(What::NeedRequests),
        Needed::Input(Stream::Responses) => GitwireAnswer::of(What::NeedResponses),
        Needed::Nothing => answer(judge.checker.verdict()),
    }
}

/// What is reported of a verdict.
fn answer(verdict: Option<Result<(), CheckFault>>) -> GitwireAnswer
    ensures { result ≡ answer_of verdict }
{
    match verdict {
        None => GitwireAnswer::of(What::NotNow),
        Some(Ok(())) => GitwireAnswer::of(What::Checked),
        Some(Err(CheckFault::Requests(fault))) => {
            GitwireAnswer::of_fault_in(What::FailedRequests, fault)
        }
        Some(Err(CheckFault::Responses(fault))) => {
            GitwireAnswer::of_fault_in(What::FailedResponses, fault)
        }
        Some(Err(CheckFault::ReadFault)) => unread(Kind::ReadFault),
        Some(Err(CheckFault::WriteFault)) => unread(Kind::WriteFault),
        Some(Err(CheckFault::ReadLimit)) => unread(Kind::ReadLimit),
    }
}

/// A fault of reading or writing, which no machine meets.
fn unread(kind: Kind) -> GitwireAnswer
    ensures { result ≡ unread kind }
{
    GitwireAnswer::of_fault(0, Fault { kind, offset: 0 })
}

/// Frees the checker. The handle has none from then on.
#[unsafe(no_mangle)]
pub extern "C" fn gitwire_checker_clear(alloc: Global, checker: &mut GitwireChecker)
    ensures { judge_in checker.new ≡ None }
{
    drop(replace(checker, GitwireChecker::none(alloc)));
}
