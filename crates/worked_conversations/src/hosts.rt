//! A host's server, and the host, which reports what it is asked of its store.

use crate::serving::{Next, Serves, fault_in};
use crate::setup::{MANY, limits, offer_by};
use crate::texts::append;
use crate::trouble::Trouble;
use git_host::{HostReported, HostServer, HostStep, Need, RequestAtHand};
use git_msg::Agent;
use git_names::{Format, Steps};
use git_pkt::Fault;
use std::alloc::Global;

/// How a host's server is set up.
#[derive(Clone, Copy)]
pub struct Setup {
    pub format: Format,
    /// The maximum number of bytes of a request's arguments.
    pub limit: u32,
    /// Whether it advertises the features of `fetch`.
    pub features: bool,
    /// Whether its advertisement comes first.
    pub advertises: bool,
    /// The agent that it names.
    pub agent: Agent,
}

/// What a host does with a request.
#[derive(Drop)]
pub enum Verdict {
    Accepted,
    /// It is refused with this text.
    Refused(Vec<u8>),
}

/// A host, by what it reports of its store.
pub trait Reports {
    /// A request came. Returns whether the host accepts it.
    fn judge(&mut self, request: &RequestAtHand<'_, Global>) -> Result<Verdict, Trouble>;

    /// Reports what the server needs. Returns what came of the report.
    fn report(
        &mut self,
        server: &mut HostServer<Global>,
        need: Need,
    ) -> Result<HostReported, Trouble>;
}

/// A host's server and its host, together a server as any other.
#[derive(Drop)]
pub struct Host<S> {
    server: HostServer<Global>,
    reports: S,
}

impl<S: Reports> Host<S> {
    /// A server at the beginning of a session, and a host with these reports.
    pub fn new(alloc: Global, setup: Setup, reports: S) -> Host<S> {
        let offer = offer_by(setup.agent, setup.format, setup.features);
        let limits = limits(setup.limit);
        Host {
            server: HostServer::new(alloc, offer, limits, setup.advertises),
            reports,
        }
    }

    /// What the host reports.
    pub fn reports(&self) -> &S {
        &self.reports
    }

    // Appends the packet of the last call.
    fn sent(&self, output: &mut Vec<u8>) -> Result<Option<Next>, Trouble> {
        append(output, self.server.packet())?;
        Ok(Some(Next::Packet))
    }

    // The request that came is accepted, or it is refused by a packet.
    fn judge(&mut self, output: &mut Vec<u8>) -> Result<Option<Next>, Trouble> {
        let Some(request) = self.server.request() else {
            return Err(Trouble::Breaks("a host judges no request"));
        };
        match self.reports.judge(&request)? {
            Verdict::Accepted => {
                self.server.accept();
                Ok(None)
            }
            Verdict::Refused(text) => {
                if !self.server.refuse(text.as_slice()) {
                    return Err(Trouble::BadCase("a refusal that fits into no packet"));
                }
                self.sent(output)
            }
        }
    }

    // Reports what is needed. Before that the server is called once more, and has to need the same.
    fn report(&mut self, need: Need, output: &mut Vec<u8>) -> Result<Option<Next>, Trouble> {
        if self.server.next() != HostStep::Need(need) {
            return Err(Trouble::Breaks("a host is asked for something else"));
        }
        match self.reports.report(&mut self.server, need)? {
            HostReported::Packet => self.sent(output),
            _ => Ok(None),
        }
    }

    // Takes one step of the server. Returns none if the client has nothing to send or to receive because of it.
    fn step(&mut self, output: &mut Vec<u8>) -> Result<Option<Next>, Trouble> {
        match self.server.next() {
            HostStep::Packet => self.sent(output),
            HostStep::NeedInput => Ok(Some(Next::NeedInput)),
            HostStep::Ended(outcome) => Ok(Some(Next::Finished(outcome))),
            HostStep::Asked => self.judge(output),
            HostStep::Need(need) => self.report(need, output),
        }
    }
}

impl<S: Reports> Serves for Host<S> {
    fn needs_input(&self) -> bool {
        self.server.wants_input()
    }

    fn take(&mut self, chunk: &[u8]) -> usize {
        self.server.feed(chunk, &mut Steps::new())
    }

    fn end(&mut self) {
        self.server.close();
    }

    fn give(&mut self, output: &mut Vec<u8>) -> Result<Next, Trouble> {
        for _ in 0..MANY {
            if let Some(next) = self.step(output)? {
                return Ok(next);
            }
        }
        Err(Trouble::Breaks("a host is asked without an end"))
    }

    fn error(&self) -> Option<Fault> {
        match self.server.outcome() {
            Some(outcome) => fault_in(outcome),
            None => None,
        }
    }
}
