//! Asks for a pack and receives the answer on standard input, as a client does, and prints one line, `bytes checksum` of the pack, or
//! reports the first error. This is `Client` as a caller uses it, to be measured beside `bench/client.c`. Neither number depends on how the
//! pack is cut, which differs with the length of the chunks.

ghost use Rattle.std.specs.Prelude.{◌≡◌, ◌+◌, ◌≤◌, ◌%◌, ◌^◌, true, length, IfOk};
ghost use Rattle.git_client.specs.Machine.Client.{can_ask, wants_input};

use crate::CHUNK_BYTES;
use git_client::{Client, Ending, Event, ReceivedGot, Sent};
use git_msg::{Argument, Command, Flag, Limits, ObjectWord, Request};
use git_names::{Format, Oid, Steps};
use git_pkt::{Fault, Kind, RunFault};
use std::alloc::Global;
use std::io::{self, BufRead, BufReader};
use std::process::ExitCode;

/// The wanted object.
const WANTED: &[u8] = b"1111111111111111111111111111111111111111";

/// The checksum is of the pack's bytes at each multiple of this number: at most one byte of a packet.
const MARKED_BYTES: u64 = 65_536;

/// What is reported of a pack; each number wraps at 2^64, as it does in C.
#[derive(Clone, Copy, Debug)]
struct Counts {
    bytes: u64,
    checksum: u64,
    /// The index of the next byte that the checksum takes.
    mark: u64,
}

impl Counts {
    fn none() -> Self
        ensures bytes { result.bytes ≡ 0 }
        ensures mark { result.mark ≡ 0 }
    {
        Counts {
            bytes: 0,
            checksum: 0,
            mark: 0,
        }
    }

    /// Counts more bytes.
    fn add(&mut self, pack: &[u8])
        ensures bytes { self.new.bytes ≡ (self.old.bytes + length pack.now) % 2 ^ 64 }
    {
        let before = self.mark.wrapping_sub(self.bytes);
        if let Some(marked) = pack.get(before as usize) {
            self.checksum = self
                .checksum
                .wrapping_mul(31)
                .wrapping_add(u64::from(*marked));
            self.mark = self.mark.wrapping_add(MARKED_BYTES);
        }
        self.bytes = self.bytes.wrapping_add(pack.len() as u64);
    }
}

/// A request for the pack of one object.
fn request(alloc: Global) -> Result<Request<Global>, Kind> {
    let wanted = Oid::read(Format::Sha1, WANTED, &mut Steps::new())?;
    let mut request = Request::new(alloc, Command::Fetch, Format::Sha1, Limits::DEFAULT);
    request.add(&Argument::Object(ObjectWord::Want, wanted))?;
    request.add(&Argument::Flag(Flag::Done))?;
    Ok(request)
}

/// Asks the request, and leaves after its response.
fn go_on(client: &mut Client<Global>, asking: &mut Option<Request<Global>>) -> Result<(), RunFault>
    requires { can_ask client.old ≡ true }
{
    match asking.take() {
        Some(request) => client
            .ask(request)
            .map_err(|refusal| RunFault::Refused(refusal.1)),
        None => {
            client.leave();
            Ok(())
        }
    }
}

/// Receives what a chunk contains, up to where the client can ask, and counts it. Returns how many bytes were used.
fn receive_chunk(
    client: &mut Client<Global>,
    chunk: &[u8],
    counts: &mut Counts,
) -> Result<usize, RunFault>
    ensures { IfOk result (λ used. used ≤ length chunk.now) }
{
    let mut used = 0;
    while used < chunk.len() && client.wants_input() {
        let arrived = client.feed(&chunk[used..], &mut Steps::new());
        match arrived.got {
            ReceivedGot::More => return Ok(chunk.len()),
            ReceivedGot::Failed(fault) => return Err(RunFault::Refused(fault)),
            ReceivedGot::Event(Event::Pack(pack)) => counts.add(pack),
            ReceivedGot::Event(_) => {}
        }
        used += arrived.used;
    }
    Ok(used)
}

/// Receives the next bytes of the input.
fn receive_next<R: BufRead>(
    input: &mut R,
    client: &mut Client<Global>,
    counts: &mut Counts,
) -> Result<(), RunFault>
    requires { wants_input client.old ≡ true }
{
    let chunk = input.fill_buf().map_err(|_| RunFault::ReadFault)?;
    if chunk.is_empty() {
        return Err(RunFault::Refused(client.close()));
    }
    let used = receive_chunk(client, chunk, counts)?;
    input.consume(used);
    Ok(())
}

/// Does what the client has to do next. Returns whether something is left to do.
fn take_turn<R: BufRead>(
    input: &mut R,
    client: &mut Client<Global>,
    asking: &mut Option<Request<Global>>,
    counts: &mut Counts,
) -> Result<bool, RunFault> {
    match client.pull() {
        Sent::Packet(_) => Ok(true),
        Sent::NeedInput => {
            receive_next(input, client, counts)?;
            Ok(true)
        }
        Sent::CanAsk => {
            go_on(client, asking)?;
            Ok(true)
        }
        Sent::Finished => Ok(false),
        Sent::Failed(fault) => Err(RunFault::Refused(fault)),
    }
}

/// Receives the whole conversation, and counts its pack. What the client sends is dropped.
fn receive_response<R: BufRead>(
    input: &mut R,
    request: Request<Global>,
) -> Result<Counts, RunFault> {
    let mut client = Client::new(Format::Sha1, Ending::FlushOnly);
    let mut asking = Some(request);
    let mut counts = Counts::none();
    for _ in 0..u64::MAX {
        if !take_turn(input, &mut client, &mut asking, &mut counts)? {
            return Ok(counts);
        }
    }
    Err(RunFault::ReadLimit)
}

/// Prints the counts, or reports the error. Returns the exit status.
fn announce(rt: &HostRuntime, arrived: Result<Counts, RunFault>) -> io::Result<ExitCode> {
    match arrived {
        Ok(counts) => {
            println!(rt; "{} {}", counts.bytes, counts.checksum)?;
            Ok(ExitCode::SUCCESS)
        }
        Err(fault) => {
            eprintln!(rt; "bench_machines: {fault}")?;
            Ok(ExitCode::FAILURE)
        }
    }
}

/// Asks for a pack, and prints the counts of what arrives on standard input. Returns the exit status.
pub(crate) fn run_client(rt: &HostRuntime) -> io::Result<ExitCode> {
    let mut input = BufReader::with_capacity(rt.alloc(), CHUNK_BYTES, rt.stdin())?;
    let arrived = match request(rt.alloc()) {
        Ok(request) => receive_response(&mut input, request),
        Err(kind) => Err(RunFault::Refused(Fault { kind, offset: 0 })),
    };
    announce(rt, arrived)
}
