//! The sides and readers that a case can run.

use crate::runs::{Expected, compare};
use crate::script::{Given, Script, append_error};
use crate::setup::{LAST_POSITION, offer};
use crate::trouble::Trouble;
use crate::{checks, clients, host_runs, hosts, packets, requests, sessions, views};
use git_names::Format;
use git2show_lib::View;
use std::alloc::{AllocError, Global};

/// A side or a reader, and how it is set up.
#[derive(Drop)]
pub enum End<'a> {
    /// The packet reader from this offset on, and `show`.
    Packets(u64),
    /// `show` with options.
    View(View<'a>),
    /// A request reader that keeps each argument, within a limit. The features of `fetch` are advertised or not.
    Requests(Format, u32, bool),
    /// A server of a repository's text.
    Server(sessions::Setup<'a>),
    /// A host's server, whose host reports what the repository of such a text answers.
    HostOfRepository(sessions::Setup<'a>),
    /// A host's server, whose host reports what the case states.
    Host(hosts::Setup),
    /// A client.
    Client(clients::Setup<'a>),
    /// `check`, with the requests as its second stream.
    Check(checks::Setup),
}

// Whether a transcript ends after the advertisement or a response.
fn is_whole(transcript: &[u8]) -> bool {
    let lines = transcript.strip_suffix(b"\n").unwrap_or(transcript);
    let last = lines.rsplit(|byte| *byte == b'\n').next().unwrap_or(&[]);
    last == b"offered".as_slice() || last.starts_with(b"end ")
}

// The packet reader, and also `show` if the stream begins at 0.
fn packets_go(
    alloc: Global,
    start: u64,
    script: &Script,
    chunks: &[&[u8]],
    expected: &Expected,
    place: usize,
) -> Result<(), Trouble> {
    let run = packets::read(alloc, start, script, chunks)?;
    compare(alloc, &run, expected, place)?;
    if start == 0 {
        return shown(alloc, chunks, expected, place);
    }
    Ok(())
}

fn shown(
    alloc: Global,
    chunks: &[&[u8]],
    expected: &Expected,
    place: usize,
) -> Result<(), Trouble> {
    let run = packets::shown(alloc, chunks)?;
    compare(alloc, &run, expected, place)
}

// The server, fed and served.
fn server_goes(
    alloc: Global,
    setup: &sessions::Setup<'_>,
    chunks: &[&[u8]],
    expected: &Expected,
    place: usize,
) -> Result<(), Trouble> {
    let run = sessions::fed(alloc, setup, chunks)?;
    compare(alloc, &run, expected, place)?;
    let run = sessions::served(alloc, setup, chunks)?;
    compare(alloc, &run, expected, place)
}

// A host's server of a repository, fed, and served where no read of a pack is to fail or to be short.
fn host_goes(
    alloc: Global,
    setup: &sessions::Setup<'_>,
    chunks: &[&[u8]],
    expected: &Expected,
    place: usize,
) -> Result<(), Trouble> {
    let run = host_runs::of_repository(alloc, setup, chunks)?;
    compare(alloc, &run, expected, place)?;
    if setup.reads.is_some() {
        return Ok(());
    }
    let run = host_runs::served(alloc, setup, chunks)?;
    compare(alloc, &run, expected, place)
}

impl<'a> End<'a> {
    /// How its output is written.
    pub fn form(&self) -> Given {
        match self {
            End::Server(_) | End::HostOfRepository(_) => Given::Bytes,
            End::Host(_) => Given::Reports,
            End::Client(_) => Given::Talk,
            _ => Given::Lines,
        }
    }

    /// The offset of its first byte.
    pub fn start(&self) -> u64 {
        match self {
            End::Packets(start) => *start,
            End::Client(setup) => setup.arrived.len() as u64,
            _ => 0,
        }
    }

    /// Whether its input may end after a whole step, by all output so far and whether the step had output.
    pub fn may_end_after(&self, given: &[u8], is_answered: bool) -> bool {
        match self {
            End::Packets(_) | End::View(_) | End::Requests(..) => true,
            End::Server(_) | End::HostOfRepository(_) | End::Host(_) => is_answered,
            End::Client(_) => false,
            End::Check(_) => is_whole(given),
        }
    }

    /// How many bytes of all its steps it does not use: the byte past the last position.
    pub fn unread(&self, script: &Script) -> usize {
        let last = self.start().saturating_add(script.length() as u64);
        usize::from(last > LAST_POSITION)
    }

    /// How it ends if the input ends inside a packet or a request, and the last whole packet ends here.
    pub fn truncated(&self, alloc: Global, offset: u64) -> Result<String, AllocError> {
        match self {
            End::Check(_) => format!(in alloc; "responses: Truncated at {offset}\n"),
            _ => format!(in alloc; "refused Truncated at {offset}\n"),
        }
    }

    /// Appends its output in that case.
    pub fn append_truncated(
        &self,
        alloc: Global,
        given: &mut Vec<u8>,
        offset: u64,
    ) -> Result<(), AllocError> {
        match self {
            End::Server(_) | End::HostOfRepository(_) | End::Host(_) => {
                let text = format!(in alloc; "Truncated at {offset}")?;
                append_error(alloc, given, text.as_str())
            }
            _ => Ok(()),
        }
    }

    /// Runs it over the chunks, in each way in which it can be run, and compares.
    pub fn goes(
        &self,
        alloc: Global,
        script: &Script,
        chunks: &[&[u8]],
        expected: &Expected,
        place: usize,
    ) -> Result<(), Trouble> {
        match self {
            End::Packets(start) => packets_go(alloc, *start, script, chunks, expected, place),
            End::View(view) => {
                let run = views::viewed(alloc, *view, chunks)?;
                compare(alloc, &run, expected, place)
            }
            End::Requests(format, limit, features) => {
                let offer = offer(*format, *features);
                let run = requests::arrived(alloc, offer, *limit, chunks)?;
                compare(alloc, &run, expected, place)
            }
            End::Server(setup) => server_goes(alloc, setup, chunks, expected, place),
            End::HostOfRepository(setup) => host_goes(alloc, setup, chunks, expected, place),
            End::Host(setup) => {
                let run = host_runs::of_case(alloc, *setup, script, chunks)?;
                compare(alloc, &run, expected, place)
            }
            End::Client(setup) => {
                let run = clients::fed(alloc, setup, script, chunks)?;
                compare(alloc, &run, expected, place)
            }
            End::Check(setup) => checks::goes(alloc, *setup, script, chunks, expected, place),
        }
    }

    /// Its further runs, in which another stream than the input is cut short. Returns how many there were.
    pub fn goes_elsewhere(&self, alloc: Global, script: &Script) -> Result<usize, Trouble> {
        match self {
            End::Check(setup) => checks::goes_with_requests_cut_short(alloc, *setup, script),
            _ => Ok(0),
        }
    }
}
