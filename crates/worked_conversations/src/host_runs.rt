//! Runs of a host's server: its host reports what a case states or what a repository answers, or its store is the repository.

use crate::case_reports::CaseReports;
use crate::hosts::{Host, Setup};
use crate::repo_reports::RepoReports;
use crate::runs::Run;
use crate::script::Script;
use crate::serving::{ending_of, run};
use crate::sessions::{self, Reads, repository};
use crate::setup::{TURNS, limits, offer_by};
use crate::texts::append_str;
use crate::trouble::Trouble;
use git_pkt::{Recorded, RunFault};
use git_server::{Faulty, Outcome, Repo};
use git_store::{Hosted, RepoStore, Store, serve_store};
use std::alloc::{AllocError, Global};
use std::io::Cursor;
use test_streams::Chunks;

/// Feeds the chunks to a host's server, whose host makes the reports of the case. Then the input ends. If the server did not ask for some of
/// the reports, the ending has a line with their number.
pub fn of_case(
    alloc: Global,
    setup: Setup,
    script: &Script,
    chunks: &[&[u8]],
) -> Result<Run, Trouble> {
    let reports = CaseReports::new(alloc, script.replies.as_slice());
    let mut host = Host::new(alloc, setup, reports);
    let mut run = run(alloc, &mut host, chunks)?;
    state_left(alloc, &mut run, host.reports().left())?;
    Ok(run)
}

// Appends the line with the number of the reports that are left.
fn state_left(alloc: Global, run: &mut Run, left: usize) -> Result<(), AllocError> {
    if left > 0 {
        let line = format!(in alloc; "{left} reports are not asked for\n")?;
        append_str(&mut run.ending, line.as_str())?;
    }
    Ok(())
}

// Feeds the chunks to a host's server, whose host reports what this repository answers. Then the input ends.
fn reported_of<R: Repo + Drop>(
    alloc: Global,
    setup: &sessions::Setup<'_>,
    repo: R,
    chunks: &[&[u8]],
) -> Result<Run, Trouble> {
    let setup = Setup {
        format: repo.format(),
        limit: setup.limit,
        features: setup.features,
        advertises: setup.advertises,
        agent: setup.agent,
    };
    let mut host = Host::new(alloc, setup, RepoReports::new(alloc, repo));
    run(alloc, &mut host, chunks)
}

/// The same with the repository of a case.
pub fn of_repository(
    alloc: Global,
    setup: &sessions::Setup<'_>,
    chunks: &[&[u8]],
) -> Result<Run, Trouble> {
    let repo = repository(alloc, setup.contents)?;
    match setup.reads {
        Some(Reads { fail_from, most }) => {
            let repo = Faulty::new(repo, fail_from, most.max(1));
            reported_of(alloc, setup, repo, chunks)
        }
        None => reported_of(alloc, setup, repo, chunks),
    }
}

// Serves the chunks with a host's server over its store, and appends what it sends.
fn serve_chunks<S: Store>(
    hosted: &mut Hosted<S, Global>,
    chunks: &[&[u8]],
    output: &mut Vec<u8>,
) -> Result<Option<Outcome>, RunFault> {
    let mut reader = Recorded::new(Chunks::new(chunks));
    let mut writer = Recorded::new(output);
    serve_store(&mut reader, &mut writer, &mut [0; 256], hosted, TURNS)
}

/// Serves the chunks over a store with the answers of the repository, whose packs come from readers.
pub fn served(
    alloc: Global,
    setup: &sessions::Setup<'_>,
    chunks: &[&[u8]],
) -> Result<Run, Trouble> {
    let contents = setup.contents;
    let repo = repository(alloc, contents)?;
    let offer = offer_by(setup.agent, repo.format(), setup.features);
    let limits = limits(setup.limit);
    let filtered = contents.filtered.map(Cursor::new);
    let store = RepoStore::new(alloc, repo, Cursor::new(contents.pack), filtered);
    let mut hosted = Hosted::new(alloc, store, offer, limits, setup.advertises);
    let mut given = Vec::new(alloc);
    let ending = match serve_chunks(&mut hosted, chunks, &mut given) {
        Ok(Some(outcome)) => ending_of(alloc, outcome)?,
        Ok(None) => return Err(Trouble::Breaks("a served session has no outcome")),
        Err(fault) => format!(in alloc; "{fault}\n")?,
    };
    Ok(Run::new(alloc, given, ending, None))
}
