//! A repository of three references, and a server of it over a list of chunks, or over streams.
ghost use Rattle.std.specs.Prelude.{◌≡◌, ◌<◌, false, length};
ghost use Rattle.git_pkt.specs.Machine.Recorded.{IsNew, has_failed};

use git_msg::{Limits, Offer};
use git_names::{Format, Oid, Steps};
use git_pkt::{Fault, Kind, Recorded, RunFault};
use git_server::{ListRepo, Outcome, Pack, Pulled, RefEntry, Repo, Server, serve};
use hex::FromHex;
use std::alloc::{AllocError, Allocator, Global};
use std::io::{Read, Write};
use std::process::Abort;
use std::test::Fail;

/// The parameters of a server.
#[derive(Clone, Copy, Debug)]
pub struct Setup {
    /// The format of the repository's object names.
    pub format: Format,
    /// The limit on the bytes kept of a request's arguments.
    pub limits: Limits,
    /// Whether the advertisement comes first.
    pub advertise: bool,
}

/// SHA-1, the default limit, and no advertisement.
pub fn default_setup() -> Setup {
    Setup {
        format: Format::Sha1,
        limits: Limits::DEFAULT,
        advertise: false,
    }
}

/// The default limit, with the advertisement first.
pub fn advertising(format: Format) -> Setup {
    Setup {
        format,
        advertise: true,
        ..default_setup()
    }
}

/// The object name whose digits are all this one.
pub fn object(rt: &impl Abort, format: Format, digit: u8) -> Oid {
    Oid::from_hex(&[digit; 64][..format.digits()]).expect(rt, "an object name")
}

/// A reference of this name.
pub fn entry(
    rt: &(impl Abort + AllocGlobal),
    name: &[u8],
    id: Oid,
    target: Option<&[u8]>,
    peeled: Option<Oid>,
) -> Result<RefEntry, Fail> {
    let name = Vec::from_slice(rt.alloc(), name)?;
    let target = match target {
        Some(target) => Some(Vec::from_slice(rt.alloc(), target)?),
        None => None,
    };
    Ok(RefEntry::new(name, id, target, peeled).expect(rt, "a reference"))
}

/// A symbolic reference, a branch, and a tag of another object; these two objects, a pack, and a filtered one.
pub fn repository(rt: &(impl Abort + AllocGlobal), format: Format) -> Result<ListRepo, Fail> {
    let a = object(rt, format, b'a');
    let b = object(rt, format, b'b');
    let mut refs = Vec::new(rt.alloc());
    refs.push(entry(rt, b"HEAD", a, Some(b"refs/heads/main"), None)?)?;
    refs.push(entry(rt, b"refs/heads/main", a, None, None)?)?;
    refs.push(entry(rt, b"refs/tags/v1", b, None, Some(a))?)?;
    let mut objects = Vec::new(rt.alloc());
    objects.push((a, 12))?;
    objects.push((b, 30))?;
    let pack = Vec::from_slice(rt.alloc(), b"PACK!")?;
    let filtered = Vec::from_slice(rt.alloc(), b"TINY")?;
    let repo = ListRepo::new(
        format,
        refs,
        objects,
        None,
        Vec::new(rt.alloc()),
        Pack::Owned(pack),
        None,
        Some(Pack::Owned(filtered)),
    );
    Ok(repo.expect(rt, "a repository"))
}

/// A server of this repository that keeps arguments in memory from `alloc`.
pub fn server_of<A: Allocator + Copy>(
    repo: ListRepo,
    alloc: A,
    setup: Setup,
) -> Server<ListRepo, A> {
    let offer = Offer {
        object_info: false,
        ..Offer::everything(repo.format())
    };
    Server::new(alloc, repo, offer, setup.limits, setup.advertise)
}

/// A server of the repository.
pub fn new_server<A: Allocator + Copy>(
    rt: &(impl Abort + AllocGlobal),
    alloc: A,
    setup: Setup,
) -> Result<Server<ListRepo, A>, Fail> {
    Ok(server_of(repository(rt, setup.format)?, alloc, setup))
}

/// How a run of such a server ends over these streams.
pub fn run_server<In: Read, W: Write>(
    rt: &(impl Abort + AllocGlobal),
    setup: Setup,
    reader: &mut Recorded<In>,
    writer: &mut Recorded<W>,
    chunk: &mut [u8],
    turns: u64,
) -> Result<Result<Outcome, RunFault>, Fail>
    requires space { 0 < length chunk.old }
    requires new_reader { IsNew reader.old }
    requires sound_writer { has_failed writer.old ≡ false }
{
    let mut server = new_server(rt, rt.alloc(), setup)?;
    Ok(serve(reader, writer, chunk, &mut server, turns))
}

// Appends everything that the server has to send. Returns the outcome, if there is one.
fn drain<A: Allocator + Copy>(
    server: &mut Server<ListRepo, A>,
    output: &mut Vec<u8>,
) -> Result<Option<Outcome>, AllocError> {
    for _ in 0..100_000 {
        match server.pull() {
            Pulled::Packet(bytes) => output.extend_from_slice(bytes)?,
            Pulled::NeedInput => return Ok(None),
            Pulled::Finished(outcome) => return Ok(Some(outcome)),
        }
    }
    Ok(None)
}

// Feeds the chunk, and appends everything that the server sends for it. Returns the outcome, if there is one.
fn feed_chunk<A: Allocator + Copy>(
    server: &mut Server<ListRepo, A>,
    chunk: &[u8],
    output: &mut Vec<u8>,
) -> Result<Option<Outcome>, AllocError> {
    let mut rest = chunk;
    for _ in 0..100_000 {
        let used = server.feed(rest, &mut Steps::new());
        rest = &rest[used..];
        let outcome = drain(server, output)?;
        if rest.is_empty() || outcome.is_some() {
            return Ok(outcome);
        }
    }
    Ok(None)
}

/// What a server sends for these chunks, and how its session ends if the input ends after them.
pub fn converse<A: Allocator + Copy>(
    server: &mut Server<ListRepo, A>,
    alloc: Global,
    chunks: &[&[u8]],
) -> Result<(Vec<u8>, Option<Outcome>), AllocError> {
    let mut output = Vec::new(alloc);
    let mut outcome = drain(server, &mut output)?;
    for chunk in chunks {
        outcome = feed_chunk(server, chunk, &mut output)?;
    }
    if server.wants_input() {
        server.close();
        outcome = drain(server, &mut output)?;
    }
    Ok((output, outcome))
}

/// The outcome of a session that ends with this error.
pub fn refusal(kind: Kind, offset: u64) -> Outcome {
    Outcome::Refused(Fault { kind, offset })
}
