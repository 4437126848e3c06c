//! The request at hand of a host's server that C holds.

ghost use Rattle.std.specs.Prelude.{◌≡◌, false};
ghost use Rattle.git_host.specs.HostLookups.{request_of};
ghost use Rattle.gitwire.specs.Answers.{answering};
ghost use Rattle.gitwire.specs.Calls.{HasNone, Of};
ghost use Rattle.gitwire.specs.Handles.{host_in};
ghost use Rattle.gitwire.specs.HostAnswers.{PutsAt, command_shown, has_flag_at, announcing_given_at};
ghost use Rattle.gitwire.specs.Numbers.{item_words, numbered};

use crate::answer::{GitwireAnswer, What};
use crate::handles::{GitwireHost, Holds, on};
use crate::numbers::number_of_command;
use crate::request_items::{self, given_number, put_item};
use git_host::HostServer;
use std::alloc::Global;

/// The number of the command of the request that is asked about or answered; 0 if there is none, and for a handle without a server.
#[unsafe(no_mangle)]
pub extern "C" fn gitwire_host_command(alloc: Global, host: &mut GitwireHost) -> u32
    ensures { Of (host_in host.old) (host_in host.new) (λ had. result ≡ command_shown (request_of had)) (result ≡ 0) }
{
    on!(host, alloc; command(host), else 0)
}

fn command(server: &HostServer<Global>) -> u32
    ensures { result ≡ command_shown (request_of server.now) }
{
    match server.request() {
        Some(request) => number_of_command(request.command()),
        None => 0,
    }
}

/// Whether the request that is asked about or answered has the flag of this number. For a number that no flag has, and without a request,
/// it is false.
#[unsafe(no_mangle)]
pub extern "C" fn gitwire_host_flag(alloc: Global, host: &mut GitwireHost, flag: u32) -> bool
    ensures { Of (host_in host.old) (host_in host.new) (λ had. result ≡ has_flag_at flag (request_of had)) (result ≡ false) }
{
    on!(host, alloc; has_flag(host, flag), else false)
}

fn has_flag(server: &HostServer<Global>, number: u32) -> bool
    ensures { result ≡ has_flag_at number (request_of server.now) }
{
    match server.request() {
        Some(request) => request_items::has_flag(request.arguments(), number),
        None => false,
    }
}

/// A number of the request that is asked about or answered, `DEEPEN` or `DEEPEN_SINCE`: `Done`, and `offset` is the number; `Nothing` if it
/// was not set, or there is no request; `BadValue`; or `NoRequest`.
#[unsafe(no_mangle)]
pub extern "C" fn gitwire_host_number(
    alloc: Global,
    host: &mut GitwireHost,
    which: u32,
) -> GitwireAnswer
    ensures { Of (host_in host.old) (host_in host.new) (λ had. result ≡ announcing_given_at which (request_of had)) (result ≡ answering What.NoRequest) }
{
    on!(host, alloc; number(host, which))
}

fn number(server: &HostServer<Global>, which: u32) -> GitwireAnswer
    ensures { result ≡ announcing_given_at which (request_of server.now) }
{
    match server.request() {
        Some(request) => given_number(request.arguments(), which),
        None => GitwireAnswer::of(What::Nothing),
    }
}

/// Writes the text at an index of a list of the request that is asked about or answered, from `REF_PREFIXES` to `SERVER_OPTIONS`, to the
/// front of the buffer, an object name as its digits. `Done`, and `length` is how many bytes it has; `Nothing` past the end of the list, and if
/// there is no request; `BufferTooSmall`; `BadValue`; or `NoRequest`.
#[unsafe(no_mangle)]
pub extern "C" fn gitwire_host_item(
    alloc: Global,
    host: &mut GitwireHost,
    list: u32,
    index: usize,
    buffer: &mut [u8],
) -> GitwireAnswer
    ensures { Of (host_in host.old) (host_in host.new) (λ had. PutsAt (numbered item_words list) index (request_of had) buffer.old result buffer.new)
        (HasNone buffer.old result buffer.new) }
{
    on!(host, alloc; item(host, list, index, buffer))
}

fn item(server: &HostServer<Global>, list: u32, index: usize, buffer: &mut [u8]) -> GitwireAnswer
    ensures { PutsAt (numbered item_words list) index (request_of server.now) buffer.old result buffer.new }
{
    match server.request() {
        Some(request) => put_item(request.arguments(), list, index, buffer),
        None => GitwireAnswer::of(What::Nothing),
    }
}
