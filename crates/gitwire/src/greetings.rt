//! The greeting with which a client begins a connection to `git daemon`, gitprotocol-pack(5): the path of a repository, the host as the client
//! calls it, and `version=2` among further parameters.

ghost use Rattle.std.specs.Prelude.{◌≡◌, ◌+◌, ◌*◌, ◌^◌, ◌≤◌, ◌<◌, ◌++◌, ◌∷◌, IfSome, IsTrue, MatchOption, length};
ghost use Rattle.git_names.specs.RefName.{Lacks};
ghost use Rattle.git_pkt.specs.Digits.{digits_of};
ghost use Rattle.git_pkt.specs.Packets.{longest_payload, payload, spelling_of};
ghost use Rattle.gitwire.specs.Answers.{answering_fault};
ghost use Rattle.gitwire.specs.Buffers.{put_before};
ghost use Rattle.gitwire.specs.Greetings.{Adds, AreNoParameters, AreParametersOf, IsCommand, IsNoCommand, IsNoGreeting, IsNoParametersPart, IsNoTail};
ghost use Rattle.gitwire.specs.Greetings.{IsParametersPartOf, IsTailOf, ReadsGreeting, ShowsOne, WritesGreeting, asking, greeting_text, host_text, shown_of};
ghost use Rattle.gitwire.specs.WrittenForC.{given};

use crate::answer::{GitwireAnswer, What};
use crate::packets::LONGEST_PAYLOAD;
use git_msg::{after, is_word, split_at_first};
use git_names::lower_digit;
use git_pkt::{Fault, Kind, put_at};

/// How many bytes a greeting's payload has beside its path and its host: `git-upload-pack`, a space, `version=2`, and three NULs.
const WORDS: usize = 28;

/// What a greeting asks for. Its texts are in the payload. Fields without a meaning are 0 or false.
#[repr(C)]
#[derive(Clone, Copy, Debug)]
pub struct GitwireGreeting {
    /// Where the path begins in the payload.
    pub path: usize,
    /// How many bytes the path has.
    pub path_length: usize,
    /// Where the host begins in the payload.
    pub host: usize,
    /// How many bytes the host has.
    pub host_length: usize,
    /// The number of a [`What`]: `Done` or `Failed`.
    pub kind: u32,
    /// The number of an error.
    pub fault: u32,
    /// The number of the service.
    pub service: u32,
    /// Whether there is a host: it may be empty.
    pub has_host: bool,
    /// Whether version 2 of the protocol is asked for.
    pub wants_version_2: bool,
}

/// What a client can ask a daemon for.
#[derive(Clone, Copy, Debug)]
pub(crate) enum Service {
    UploadPack,
    ReceivePack,
    UploadArchive,
}

impl Service {
    ghost use Rattle.gitwire.specs.Greetings.{service_number, service_word};

    /// Its number in C.
    fn number(self) -> u32
        ensures { result ≡ service_number self }
    {
        match self {
            Service::UploadPack => 1,
            Service::ReceivePack => 2,
            Service::UploadArchive => 3,
        }
    }

    /// How many bytes its word has.
    fn word_length(self) -> usize
        ensures { result ≡ length (service_word self) }
    {
        match self {
            Service::UploadPack => 15,
            Service::ReceivePack => 16,
            Service::UploadArchive => 18,
        }
    }
}

/// Writes the greeting of a client that fetches from a repository at this path, by version 2 of the protocol, to the front of the buffer: a
/// whole packet. A host without bytes is none. `Done`, and how many bytes they are; or `BufferTooSmall`, and how many they would be. A path or
/// a host with a NUL is BadLine; what is too long for a packet is TooLong.
#[unsafe(no_mangle)]
pub extern "C" fn gitwire_greeting_write(
    path: &[u8],
    host: &[u8],
    buffer: &mut [u8],
) -> GitwireAnswer
    ensures { WritesGreeting path.now host.now buffer.old result buffer.new }
{
    if has_nul(path) {
        return refused(Kind::BadLine);
    }
    if has_nul(host) {
        return refused(Kind::BadLine);
    }
    let Some(length) = payload_length(path, host) else {
        return refused(Kind::TooLong);
    };
    if buffer.len() < length + 4 {
        return GitwireAnswer::of_packet(0, 0, length + 4, What::BufferTooSmall);
    }
    put_greeting(buffer, length, path, host);
    GitwireAnswer::of_packet(0, 0, length + 4, What::Done)
}

fn refused(kind: Kind) -> GitwireAnswer
    ensures { result ≡ answering_fault 0 (record { kind = kind; offset = 0 }) }
{
    GitwireAnswer::of_fault(0, Fault { kind, offset: 0 })
}

fn has_nul(text: &[u8]) -> bool
    ensures some { IsTrue result → ¬ Lacks text.now 0 }
    ensures none { ¬ IsTrue result → Lacks text.now 0 }
{
    split_at_first(text, 0).1.is_some()
}

/// How many bytes the greeting's payload has; none if that is more than a packet takes.
fn payload_length(path: &[u8], host: &[u8]) -> Option<usize>
    ensures { MatchOption result (longest_payload < length (greeting_text (asking path.now host.now)))
        (λ long. (long ≡ length (greeting_text (asking path.now host.now))) × (long ≤ longest_payload)) }
{
    if path.len() > LONGEST_PAYLOAD {
        return None;
    }
    if host.len() > LONGEST_PAYLOAD {
        return None;
    }
    let length = WORDS + path.len() + host_length(host);
    if length > LONGEST_PAYLOAD {
        return None;
    }
    Some(length)
}

fn host_length(host: &[u8]) -> usize
    requires { length host.now ≤ longest_payload }
    ensures { result ≡ length (host_text (given host.now)) }
{
    if host.is_empty() { 0 } else { host.len() + 6 }
}

fn put_greeting(buffer: &mut [u8], long: usize, path: &[u8], host: &[u8])
    requires exact { long ≡ length (greeting_text (asking path.now host.now)) }
    requires most { long ≤ longest_payload }
    requires fits { long + 4 ≤ length buffer.old }
    ensures { buffer.new ≡ put_before (spelling_of (payload (greeting_text (asking path.now host.now)))) buffer.old }
{
    let digits_end = put_next(buffer, 0, &digits(long + 4));
    let word_end = put_next(buffer, digits_end, b"git-upload-pack ");
    let path_end = put_next(buffer, word_end, path);
    let command_end = put_next(buffer, path_end, b"\0");
    let host_end = put_host(buffer, command_end, host);
    put_next(buffer, host_end, b"\0version=2\0");
}

fn put_host(buffer: &mut [u8], at: usize, host: &[u8]) -> usize
    requires { at + length (host_text (given host.now)) ≤ length buffer.old }
    ensures end { result ≡ at + length (host_text (given host.now)) }
    ensures adds { Adds (host_text (given host.now)) at buffer.old result buffer.new }
{
    if host.is_empty() {
        return at;
    }
    let word_end = put_next(buffer, at, b"host=");
    let name_end = put_next(buffer, word_end, host);
    put_next(buffer, name_end, b"\0")
}

/// Writes bytes at this index of the buffer, and returns where they end.
fn put_next(buffer: &mut [u8], at: usize, bytes: &[u8]) -> usize
    requires { at + length bytes.now ≤ length buffer.old }
    ensures end { result ≡ at + length bytes.now }
    ensures adds { Adds bytes.now at buffer.old result buffer.new }
{
    put_at(buffer, at, bytes)
}

/// A number below 65,536 as four digits.
fn digits(number: usize) -> [u8; 4]
    requires { number < 65536 }
    ensures { result ≡ digits_of number }
{
    [
        lower_digit(number / 4096),
        lower_digit(number / 256 % 16),
        lower_digit(number / 16 % 16),
        lower_digit(number % 16),
    ]
}

/// Reads the payload of a greeting's packet. `Done`, and what it asks for; or `Failed` with BadLine if it is no greeting.
#[unsafe(no_mangle)]
pub extern "C" fn gitwire_greeting_read(payload: &[u8]) -> GitwireGreeting
    ensures { ReadsGreeting payload.now result }
{
    match read(payload) {
        Some(shown) => shown,
        None => GitwireGreeting {
            path: 0,
            path_length: 0,
            host: 0,
            host_length: 0,
            kind: What::Failed.number(),
            fault: u32::from(Kind::BadLine.number()),
            service: 0,
            has_host: false,
            wants_version_2: false,
        },
    }
}

fn read(payload: &[u8]) -> Option<GitwireGreeting>
    ensures { MatchOption result (IsNoGreeting payload.now) (λ shown. ShowsOne payload.now shown) }
{
    let (command, rest) = split_at_first(payload, 0);
    let Some(rest) = rest else {
        return None;
    };
    let Some(command) = read_command(command) else {
        return None;
    };
    let Some(tail) = read_tail(rest) else {
        return None;
    };
    Some(shown(command, tail))
}

/// The service that is asked for, and how many bytes the path has.
#[derive(Clone, Copy, Debug)]
pub(crate) struct Command {
    pub(crate) service: Service,
    pub(crate) path_length: usize,
}

/// What comes after the command: how many bytes the host has, if there is one, and whether version 2 is asked for.
#[derive(Clone, Copy, Debug)]
pub(crate) struct Tail {
    pub(crate) host_length: Option<usize>,
    pub(crate) wants_version_2: bool,
}

fn shown(command: Command, tail: Tail) -> GitwireGreeting
    requires { command.path_length < 2 ^ 63 }
    ensures { result ≡ shown_of command tail }
{
    let path = command.service.word_length() + 1;
    let host = path + command.path_length + 6;
    GitwireGreeting {
        path,
        path_length: command.path_length,
        host: if tail.host_length.is_some() { host } else { 0 },
        host_length: tail.host_length.unwrap_or(0),
        kind: What::Done.number(),
        fault: 0,
        service: command.service.number(),
        has_host: tail.host_length.is_some(),
        wants_version_2: tail.wants_version_2,
    }
}

fn read_command(text: &[u8]) -> Option<Command>
    ensures command { MatchOption result (IsNoCommand text.now) (λ command. IsCommand text.now command) }
    ensures small { IfSome result (λ command. command.path_length < 2 ^ 63) }
{
    if let Some(path) = after(text, b"git-upload-pack ") {
        return Some(command_of(Service::UploadPack, path));
    }
    if let Some(path) = after(text, b"git-receive-pack ") {
        return Some(command_of(Service::ReceivePack, path));
    }
    if let Some(path) = after(text, b"git-upload-archive ") {
        return Some(command_of(Service::UploadArchive, path));
    }
    None
}

fn command_of(service: Service, path: &[u8]) -> Command
    ensures service { result.service ≡ service }
    ensures long { result.path_length ≡ length path.now }
    ensures small { result.path_length < 2 ^ 63 }
{
    Command {
        service,
        path_length: path.len(),
    }
}

fn read_tail(text: &[u8]) -> Option<Tail>
    ensures { MatchOption result (IsNoTail text.now) (λ tail. IsTailOf text.now tail) }
{
    let Some(value) = after(text, b"host=") else {
        return match read_parameters_part(text) {
            Some(wants_version_2) => Some(Tail {
                host_length: None,
                wants_version_2,
            }),
            None => None,
        };
    };
    let (host, rest) = split_at_first(value, 0);
    let Some(rest) = rest else {
        return None;
    };
    match read_parameters_part(rest) {
        Some(wants_version_2) => Some(Tail {
            host_length: Some(host.len()),
            wants_version_2,
        }),
        None => None,
    }
}

fn read_parameters_part(text: &[u8]) -> Option<bool>
    ensures { MatchOption result (IsNoParametersPart text.now) (λ wants. IsParametersPartOf text.now wants) }
{
    match text {
        [] => Some(false),
        [0] => None,
        [0, parameters @ ..] => read_parameters(parameters),
        _ => None,
    }
}

/// Whether version 2 is among the parameters; none if they are not each one byte or more and a NUL.
fn read_parameters(text: &[u8]) -> Option<bool>
    ensures { MatchOption result (AreNoParameters text.now) (λ wants. AreParametersOf text.now wants) }
{
    let mut rest = text;
    let mut wants = false;
    while !rest.is_empty() {
        let (parameter, next) = split_at_first(rest, 0);
        let Some(next) = next else {
            return None;
        };
        if parameter.is_empty() {
            return None;
        }
        wants |= is_word(parameter, b"version=2");
        rest = next;
    }
    Some(wants)
}
