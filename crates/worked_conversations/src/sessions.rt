//! A server that is fed, and one that is run over a reader and a writer.

use crate::runs::Run;
use crate::serving::{Next, Serves, ending_of, run};
use crate::setup::{TURNS, limits, offer_by};
use crate::texts::{append, copied};
use crate::trouble::Trouble;
use git_msg::Agent;
use git_names::Steps;
use git_pkt::{Fault, Recorded, RunFault};
use git_repository::{Packs, TextFault, read_repo};
use git_server::{Faulty, ListRepo, Outcome, Pack, Pulled, Repo, Server, serve};
use std::alloc::{AllocError, Global};
use test_streams::Chunks;

/// How the reads of a pack go.
#[derive(Clone, Copy)]
pub struct Reads {
    /// The first of them that fails, from 0.
    pub fail_from: u32,
    /// The maximum number of bytes that each of them returns.
    pub most: usize,
}

/// The contents of a server's repository.
#[derive(Clone, Copy)]
pub struct Contents<'a> {
    /// The text of its repository.
    pub text: &'a [u8],
    /// Its pack.
    pub pack: &'a [u8],
    /// Its pack for requests with a filter, if that is another one.
    pub filtered: Option<&'a [u8]>,
}

/// How a server is set up.
#[derive(Clone, Copy)]
pub struct Setup<'a> {
    pub contents: Contents<'a>,
    /// How the pack is read, if not in the default way.
    pub reads: Option<Reads>,
    /// The maximum number of bytes of a request's arguments.
    pub limit: u32,
    /// Whether it advertises the features of `fetch`.
    pub features: bool,
    /// Whether its advertisement comes first.
    pub advertises: bool,
    /// The agent that it names.
    pub agent: Agent,
}

/// The repository of a text and its packs.
pub fn repository(alloc: Global, contents: Contents<'_>) -> Result<ListRepo, Trouble> {
    let filtered = match contents.filtered {
        Some(filtered) => Some(Pack::Owned(copied(alloc, filtered)?)),
        None => None,
    };
    let packs = Packs {
        pack: Pack::Owned(copied(alloc, contents.pack)?),
        filtered,
    };
    match read_repo(alloc, contents.text, packs) {
        Ok(repo) => Ok(repo),
        Err(TextFault::OutOfMemory) => Err(Trouble::OutOfMemory),
        Err(TextFault::Bad { .. }) => Err(Trouble::BadCase("no repository text")),
    }
}

fn new_server<R: Repo>(alloc: Global, repo: R, setup: &Setup<'_>) -> Server<R, Global> {
    let offer = offer_by(setup.agent, repo.format(), setup.features);
    let limits = limits(setup.limit);
    Server::new(alloc, repo, offer, limits, setup.advertises)
}

impl<R: Repo> Serves for Server<R, Global> {
    fn needs_input(&self) -> bool {
        self.wants_input()
    }

    fn take(&mut self, chunk: &[u8]) -> usize {
        self.feed(chunk, &mut Steps::new())
    }

    fn end(&mut self) {
        if self.wants_input() {
            self.close();
        }
    }

    fn give(&mut self, output: &mut Vec<u8>) -> Result<Next, Trouble> {
        match self.pull() {
            Pulled::Packet(bytes) => {
                append(output, bytes)?;
                Ok(Next::Packet)
            }
            Pulled::NeedInput => Ok(Next::NeedInput),
            Pulled::Finished(outcome) => Ok(Next::Finished(outcome)),
        }
    }

    fn error(&self) -> Option<Fault> {
        self.fault()
    }
}

/// Feeds the chunks to a server. Then the input ends.
pub fn fed(alloc: Global, setup: &Setup<'_>, chunks: &[&[u8]]) -> Result<Run, Trouble> {
    let repo = repository(alloc, setup.contents)?;
    match setup.reads {
        Some(Reads { fail_from, most }) => {
            let repo = Faulty::new(repo, fail_from, most.max(1));
            run(alloc, &mut new_server(alloc, repo, setup), chunks)
        }
        None => run(alloc, &mut new_server(alloc, repo, setup), chunks),
    }
}

// Serves the chunks, and appends what the server sends.
fn serve_chunks<R: Repo>(
    server: &mut Server<R, Global>,
    chunks: &[&[u8]],
    output: &mut Vec<u8>,
) -> Result<Outcome, RunFault> {
    let mut reader = Recorded::new(Chunks::new(chunks));
    let mut writer = Recorded::new(output);
    serve(&mut reader, &mut writer, &mut [0; 256], server, TURNS)
}

// How a run ended.
fn ending_of_run(alloc: Global, run: Result<Outcome, RunFault>) -> Result<String, AllocError> {
    match run {
        Ok(outcome) => ending_of(alloc, outcome),
        Err(fault) => format!(in alloc; "{fault}\n"),
    }
}

// Serves the chunks with a new server.
fn served_by<R: Repo + Drop>(
    alloc: Global,
    mut server: Server<R, Global>,
    chunks: &[&[u8]],
) -> Result<Run, Trouble> {
    let mut given = Vec::new(alloc);
    let run = serve_chunks(&mut server, chunks, &mut given);
    let ending = ending_of_run(alloc, run)?;
    Ok(Run::new(alloc, given, ending, None))
}

/// Serves the chunks.
pub fn served(alloc: Global, setup: &Setup<'_>, chunks: &[&[u8]]) -> Result<Run, Trouble> {
    let repo = repository(alloc, setup.contents)?;
    match setup.reads {
        Some(Reads { fail_from, most }) => {
            let repo = Faulty::new(repo, fail_from, most.max(1));
            served_by(alloc, new_server(alloc, repo, setup), chunks)
        }
        None => served_by(alloc, new_server(alloc, repo, setup), chunks),
    }
}
