//! A host's own loop over a server: what comes on standard input is answered on standard output.
#![tactic(auto)]

use git_msg::{Limits, Offer};
use git_names::Steps;
use git_repository::{Packs, read_repo};
use git_server::{ListRepo, Outcome, Pack, Pulled, Repo, Server};
use std::alloc::Global;
use std::io;
use std::io::{BufRead, BufReader, ErrorKind, Write};
use std::process::ExitCode;

/// The repository that is served, as `git2show serve --repo` takes it.
const REPOSITORY: &[u8] = b"format sha1\n\
    ref 1111111111111111111111111111111111111111 HEAD symref-target:refs/heads/main\n\
    ref 1111111111111111111111111111111111111111 refs/heads/main\n";

/// Feeds the server what comes, and passes on what it gives, until its session is over.
fn host<R: BufRead, W: Write>(
    input: &mut R,
    output: &mut W,
    server: &mut Server<ListRepo, Global>,
) -> io::Result<Outcome> {
    for _ in 0..u64::MAX {
        match server.pull() {
            Pulled::Packet(bytes) => output.write_all(bytes)?,
            Pulled::Finished(outcome) => return Ok(outcome),
            Pulled::NeedInput => {
                output.flush()?;
                let chunk = input.fill_buf()?;
                if chunk.is_empty() {
                    server.close();
                }
                let used = server.feed(chunk, &mut Steps::new());
                input.consume(used);
            }
        }
    }
    Err(io::Error::from(ErrorKind::Other))
}

fn main(rt: HostRuntime) -> io::Result<ExitCode> {
    let alloc = rt.alloc();
    let packs = Packs {
        pack: Pack::Owned(Vec::new(alloc)),
        filtered: None,
    };
    let Ok(repo) = read_repo(alloc, REPOSITORY, packs) else {
        return Ok(ExitCode::FAILURE);
    };
    let offer = Offer::nothing(repo.format());
    let mut server = Server::new(alloc, repo, offer, Limits::DEFAULT, true);
    let mut input = BufReader::new(alloc, rt.stdin())?;
    let mut output = rt.stdout();
    match host(&mut input, &mut output, &mut server)? {
        Outcome::Flush | Outcome::Closed => Ok(ExitCode::SUCCESS),
        Outcome::Refused(_) => Ok(ExitCode::FAILURE),
    }
}
