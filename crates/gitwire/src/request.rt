//! A request that C holds.

ghost use Rattle.std.specs.Prelude.{◌≡◌, MatchOption, None, false};
ghost use Rattle.git_msg.specs.Asked.{arguments_in};
ghost use Rattle.git_msg.specs.Machine.HeldRequest.{asked_of, command_of, format_of};
ghost use Rattle.gitwire.specs.Calls.{HasNone, Of, On};
ghost use Rattle.gitwire.specs.Handles.{request_in};
ghost use Rattle.gitwire.specs.Numbers.{command_number, format_number, item_words, numbered};
ghost use Rattle.gitwire.specs.RequestAnswers.{AddsLine, AddsAnswers, AddsOptionAnswers, EndsAnswers, Makes, MeanNoRequest, MeanRequest, PutsFrom};
ghost use Rattle.gitwire.specs.Answers.{answering};
ghost use Rattle.gitwire.specs.RequestAnswers.{is_set, announcing_result, announcing_which};

use crate::answer::{GitwireAnswer, What};
use crate::handles::{GitwireRequest, Holds, fill, on};
use crate::numbers::{command_numbered, format_numbered, number_of_command, number_of_format};
use crate::request_items::{given_number, has_flag, put_item};
use git_msg::{Argument, Limits, Offer, Request, TextWord, read_argument};
use git_names::Steps;
use git_pkt::{Fault, Kind};
use std::alloc::Global;
use std::mem::replace;

/// The maximum of a limit on the bytes of a request's arguments.
pub(crate) const MOST_LIMIT: u32 = 1_073_741_824;

/// Makes the handle's request an empty one of this command, `LS_REFS`, `FETCH` or `OBJECT_INFO`, of this format and with this limit on the
/// bytes of its argument lines. What it had before is freed. `Done`; `BadValue`, and the handle is unchanged, if a number means nothing or
/// the limit is above 1,073,741,824; or `OutOfMemory`, and the handle has none.
#[unsafe(no_mangle)]
pub extern "C" fn gitwire_request_init(
    alloc: Global,
    request: &mut GitwireRequest,
    command: u32,
    format: u32,
    limit: u32,
) -> u32
    ensures { Makes command format limit (request_in request.old) result (request_in request.new) }
{
    let Some(meant) = request_meant(alloc, command, format, limit) else {
        return What::BadValue.number();
    };
    *request = GitwireRequest::none(alloc);
    let Ok(made) = Box::new(alloc, meant) else {
        return What::OutOfMemory.number();
    };
    fill(request, alloc, made).number()
}

/// The empty request that these values mean; none if a number means nothing or the limit is above the maximum.
fn request_meant(alloc: Global, command: u32, format: u32, limit: u32) -> Option<Request<Global>>
    ensures { MatchOption result (MeanNoRequest command format limit) (MeanRequest command format limit) }
{
    let Some(command) = command_numbered(command) else {
        return None;
    };
    let Some(format) = format_numbered(format) else {
        return None;
    };
    if limit > MOST_LIMIT {
        return None;
    }
    Some(Request::new(alloc, command, format, Limits { args: limit }))
}

/// Adds the argument of a line without LF at its end: `want 1111..`, `done`, `ref-prefix refs/heads/`. `Done`; `Failed`, and the request is
/// unchanged; or `NoRequest`.
#[unsafe(no_mangle)]
pub extern "C" fn gitwire_request_add(
    alloc: Global,
    request: &mut GitwireRequest,
    line: &[u8],
) -> GitwireAnswer
    ensures { On (request_in request.old) (request_in request.new) (λ old new. AddsAnswers old line.now result new) (result ≡ answering What.NoRequest) }
{
    on!(request, alloc; add(request, line))
}

fn add(request: &mut Request<Global>, line: &[u8]) -> GitwireAnswer
    ensures { AddsAnswers request.old line.now result request.new }
{
    announce(add_line(request, line))
}

fn add_line(request: &mut Request<Global>, line: &[u8]) -> Result<(), Kind>
    ensures { AddsLine request.old line.now result request.new }
{
    // An offer of everything, so that a line is checked by its own text alone.
    let offer = Offer::everything(request.format());
    match read_argument(request.command(), &offer, line, &mut Steps::new()) {
        Ok(argument) => request.add(&argument),
        Err(kind) => Err(kind),
    }
}

/// Adds a server option after those that the request has, whatever its command. `Done`; `Failed`, and the request is unchanged: `BadLine` for
/// a text with NUL or LF, or of more than 65,502 bytes, `TooMuchKept` or `OutOfMemory`; or `NoRequest`.
#[unsafe(no_mangle)]
pub extern "C" fn gitwire_request_add_server_option(
    alloc: Global,
    request: &mut GitwireRequest,
    option: &[u8],
) -> GitwireAnswer
    ensures { On (request_in request.old) (request_in request.new) (λ old new. AddsOptionAnswers old option.now result new)
        (result ≡ answering What.NoRequest) }
{
    on!(request, alloc; add_option(request, option))
}

fn add_option(request: &mut Request<Global>, option: &[u8]) -> GitwireAnswer
    ensures { AddsOptionAnswers request.old option.now result request.new }
{
    announce(request.add(&Argument::Text(TextWord::ServerOption, option)))
}

fn announce(judged: Result<(), Kind>) -> GitwireAnswer
    ensures { result ≡ announcing_result judged }
{
    match judged {
        Ok(()) => GitwireAnswer::of(What::Done),
        Err(kind) => GitwireAnswer::of_fault(0, Fault { kind, offset: 0 }),
    }
}

/// Checks whether the request is whole. `Done`; `Failed`, by `DeepenConflict`, `NoWants` or `NoSize`; or `NoRequest`.
#[unsafe(no_mangle)]
pub extern "C" fn gitwire_request_end(alloc: Global, request: &mut GitwireRequest) -> GitwireAnswer
    ensures { Of (request_in request.old) (request_in request.new) (λ had. EndsAnswers (asked_of had) result) (result ≡ answering What.NoRequest) }
{
    on!(request, alloc; judge_end(request))
}

fn judge_end(request: &Request<Global>) -> GitwireAnswer
    ensures { EndsAnswers (asked_of request.now) result }
{
    announce(request.check_end())
}

/// The number of the request's command; 0 for a handle without a request.
#[unsafe(no_mangle)]
pub extern "C" fn gitwire_request_command(alloc: Global, request: &mut GitwireRequest) -> u32
    ensures { Of (request_in request.old) (request_in request.new) (λ had. result ≡ command_number (command_of had)) (result ≡ 0) }
{
    on!(request, alloc; number_of_command(request.command()), else 0)
}

/// The number of the format of the request's object names; 0 for a handle without a request.
#[unsafe(no_mangle)]
pub extern "C" fn gitwire_request_format(alloc: Global, request: &mut GitwireRequest) -> u32
    ensures { Of (request_in request.old) (request_in request.new) (λ had. result ≡ format_number (format_of had)) (result ≡ 0) }
{
    on!(request, alloc; number_of_format(request.format()), else 0)
}

/// Whether the request has the flag of this number. For a number that no flag has, and for a handle without a request, it is false.
#[unsafe(no_mangle)]
pub extern "C" fn gitwire_request_flag(
    alloc: Global,
    request: &mut GitwireRequest,
    flag: u32,
) -> bool
    ensures { Of (request_in request.old) (request_in request.new) (λ had. result ≡ is_set flag (arguments_in (asked_of had))) (result ≡ false) }
{
    on!(request, alloc; has_flag(request.arguments(), flag), else false)
}

/// A number of the request, `DEEPEN` or `DEEPEN_SINCE`: `Done`, and `offset` is the number; `Nothing` if it was not set; `BadValue`; or
/// `NoRequest`.
#[unsafe(no_mangle)]
pub extern "C" fn gitwire_request_number(
    alloc: Global,
    request: &mut GitwireRequest,
    which: u32,
) -> GitwireAnswer
    ensures { Of (request_in request.old) (request_in request.new) (λ had. result ≡ announcing_which which (arguments_in (asked_of had)))
        (result ≡ answering What.NoRequest) }
{
    on!(request, alloc; given_number(request.arguments(), which))
}

/// Writes the text at an index of a list, from `REF_PREFIXES` to `SERVER_OPTIONS`, to the front of the buffer, an object name as its digits.
/// `Done`, and `length` is how many bytes it has; `Nothing` past the end of the list; `BufferTooSmall`; `BadValue`; or `NoRequest`.
#[unsafe(no_mangle)]
pub extern "C" fn gitwire_request_item(
    alloc: Global,
    request: &mut GitwireRequest,
    list: u32,
    index: usize,
    buffer: &mut [u8],
) -> GitwireAnswer
    ensures { Of (request_in request.old) (request_in request.new)
        (λ had. PutsFrom (numbered item_words list) (arguments_in (asked_of had)) index buffer.old result buffer.new)
        (HasNone buffer.old result buffer.new) }
{
    on!(request, alloc; put_item(request.arguments(), list, index, buffer))
}

/// Frees the request. The handle has none from then on.
#[unsafe(no_mangle)]
pub extern "C" fn gitwire_request_clear(alloc: Global, request: &mut GitwireRequest)
    ensures { request_in request.new ≡ None }
{
    drop(replace(request, GitwireRequest::none(alloc)));
}
