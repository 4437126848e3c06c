//! A reader of requests that C holds.

ghost use Rattle.std.specs.Prelude.{◌≡◌, MatchOption, None};
ghost use Rattle.gitwire.specs.Calls.{On};
ghost use Rattle.gitwire.specs.Handles.{request_in, request_reader_in};
ghost use Rattle.gitwire.specs.RequestReaderAnswers.{ClosesAnswers, FeedsIn, FeedsAnswers, Holds, MakesReader, MeanNoReader, MeanReader};
ghost use Rattle.gitwire.specs.Answers.{answering};

use crate::answer::{GitwireAnswer, What};
use crate::handles::{GitwireRequest, GitwireRequestReader, Holds, Taken, fill, on};
use crate::offer::offer_numbered;
use crate::request::MOST_LIMIT;
use git_msg::{Command, Limits, ReadGot, ReadRequest, Request, RequestStream};
use git_names::{Format, Steps};
use std::alloc::Global;
use std::mem::replace;

/// Makes the handle's reader a new one, which reads requests to a server of this format that advertises the features of this sum, with this
/// limit on the bytes of a request's argument lines. What it had before is freed. `Done`; `BadValue`, and the handle is unchanged, if the
/// format's number means none, a bit no feature, or the limit is above 1,073,741,824; or `OutOfMemory`, and the handle has none.
#[unsafe(no_mangle)]
pub extern "C" fn gitwire_request_reader_init(
    alloc: Global,
    reader: &mut GitwireRequestReader,
    format: u32,
    features: u32,
    limit: u32,
) -> u32
    ensures { MakesReader format features limit (request_reader_in reader.old) result (request_reader_in reader.new) }
{
    let Some(meant) = reader_meant(alloc, format, features, limit) else {
        return What::BadValue.number();
    };
    *reader = GitwireRequestReader::none(alloc);
    let Ok(made) = Box::new(alloc, meant) else {
        return What::OutOfMemory.number();
    };
    fill(reader, alloc, made).number()
}

/// The reader that these values mean; none if they mean no offer or the limit is above the maximum.
fn reader_meant(
    alloc: Global,
    format: u32,
    features: u32,
    limit: u32,
) -> Option<RequestStream<Global>>
    ensures { MatchOption result (MeanNoReader format features limit) (MeanReader format features limit) }
{
    let Some(offer) = offer_numbered(format, features) else {
        return None;
    };
    if limit > MOST_LIMIT {
        return None;
    }
    Some(RequestStream::new(alloc, offer, Limits { args: limit }))
}

/// Reads up to the end of the next request. `Request`, and the handle for requests has it instead of what it had before; `More` with the
/// whole chunk used; `NotNow` after a `Stop`; `Stop` at a flush instead of a request; `Failed` at the first error, and again from then on;
/// or `NoRequest`. A handle for requests that has none receives an empty one first; `OutOfMemory` if there is no memory for that, and then
/// nothing was read.
#[unsafe(no_mangle)]
pub extern "C" fn gitwire_request_reader_feed(
    alloc: Global,
    reader: &mut GitwireRequestReader,
    request: &mut GitwireRequest,
    chunk: &[u8],
) -> GitwireAnswer
    ensures { FeedsIn (request_reader_in reader.old) chunk.now (request_in request.old) result (request_reader_in reader.new) (request_in request.new) }
{
    let Some(mut taken) = reader.take(alloc) else {
        return GitwireAnswer::of(What::NoRequest);
    };
    let Some(mut held) = take_request(alloc, request) else {
        reader.put(taken);
        return GitwireAnswer::of(What::OutOfMemory);
    };
    let answer = feed(&mut taken.inner, chunk, &mut held.inner);
    reader.put(taken);
    request.put(held);
    answer
}

/// The request of the handle, or an empty one; none if there is no memory for that.
fn take_request(alloc: Global, request: &mut GitwireRequest) -> Option<Taken<Request<Global>>>
    ensures request { MatchOption result (request_in request.old ≡ None) (λ taken. Holds (request_in request.old) taken.inner.value) }
    ensures taken { request_in request.new ≡ None }
{
    if let Some(taken) = request.take(alloc) {
        return Some(taken);
    }
    let empty = Request::new(alloc, Command::LsRefs, Format::Sha1, Limits { args: 0 });
    let Ok(made) = Box::new(alloc, empty) else {
        return None;
    };
    fill(request, alloc, made);
    request.take(alloc)
}

fn feed(
    reader: &mut RequestStream<Global>,
    chunk: &[u8],
    request: &mut Request<Global>,
) -> GitwireAnswer
    ensures { FeedsAnswers reader.old chunk.now request.old result reader.new request.new }
{
    let expected = reader.wants_input();
    let ReadRequest { used, got } = reader.feed(chunk, &mut Steps::new());
    match got {
        ReadGot::More => GitwireAnswer::of_used(used, What::more(expected)),
        ReadGot::Request(asked) => {
            *request = asked;
            GitwireAnswer::of_used(used, What::Request)
        }
        ReadGot::Stop => GitwireAnswer::of_used(used, What::Stop),
        ReadGot::Failed(fault) => GitwireAnswer::of_fault(used, fault),
    }
}

/// The input ends here. `Done` between two requests; `Failed` inside one, as `Truncated`; `NotNow`, and nothing changed, after an error or
/// a flush instead of a request; or `NoRequest`.
#[unsafe(no_mangle)]
pub extern "C" fn gitwire_request_reader_close(
    alloc: Global,
    reader: &mut GitwireRequestReader,
) -> GitwireAnswer
    ensures { On (request_reader_in reader.old) (request_reader_in reader.new) (λ old new. ClosesAnswers old result new) (result ≡ answering What.NoRequest) }
{
    on!(reader, alloc; close(reader))
}

fn close(reader: &mut RequestStream<Global>) -> GitwireAnswer
    ensures { ClosesAnswers reader.old result reader.new }
{
    if !reader.wants_input() {
        return GitwireAnswer::of(What::NotNow);
    }
    match reader.close() {
        Ok(()) => GitwireAnswer::of(What::Done),
        Err(fault) => GitwireAnswer::of_fault(0, fault),
    }
}

/// Frees the reader. The handle has none from then on.
#[unsafe(no_mangle)]
pub extern "C" fn gitwire_request_reader_clear(alloc: Global, reader: &mut GitwireRequestReader)
    ensures { request_reader_in reader.new ≡ None }
{
    drop(replace(reader, GitwireRequestReader::none(alloc)));
}
