//! Requests, written packet by packet.
ghost use Rattle.std.specs.Prelude.{◌≡◌, ◌↔◌, [], Bool, IsTrue, MatchOption};
ghost use Rattle.std.specs.Bool.{OnTrue, OnFalse};
ghost use Rattle.git_names.specs.declared.object_format.Format.{Format};
ghost use Rattle.git_msg.specs.Asked.{Asked, arguments_in};
ghost use Rattle.git_msg.specs.Machine.HeldRequest.{asked_of};
ghost use Rattle.git_msg.specs.Agents.{named_if};
ghost use Rattle.git_msg.specs.WrittenRequest.{is_option as is_option_argument, options_and_rest, where_named};
ghost use Rattle.git_msg.specs.Arguments.{shown};
ghost use Rattle.git_msg.specs.declared.agent.Agent.{Agent};
ghost use Rattle.git_msg.specs.Machine.RequestWriter.{written_of, PutsFirst, left_at, left_to_write, lines_from, lines_left};

use crate::agent::Agent;
use crate::arguments::Argument;
use crate::offers::Caps;
use crate::requests::Request;
use crate::words::TextWord;
use crate::writing::{put_argument, put_line};
use git_pkt::{Hold, Packet, put};
use std::alloc::Allocator;

/// The next packet.
#[derive(Clone, Copy, Debug)]
enum Next {
    CommandLine,
    AgentLine,
    // The server option at this index of the arguments, or the first packet after the last.
    ServerOption(usize),
    // The delimiter before the argument at this index.
    Delimiter(usize),
    // The argument at this index, or the flush after the last.
    Argument(usize),
    Done,
}

/// Writes a request's packets, as in gitprotocol-v2(5): its command, then `agent`, if it was advertised, its server options,
/// `object-format`, if it was advertised, the delimiter, its arguments and the flush.
#[derive(Clone, Copy, Debug)]
pub struct RequestWriter {
    agent: Agent,
    names_agent: bool,
    object_format: bool,
    next: Next,
}

impl RequestWriter {
    /// A writer of this request from this agent, to a server whose advertisement was noted as `caps`.
    pub fn new<A: Allocator + Copy>(
        request: &Request<A>,
        caps: &Caps,
        agent: Agent,
    ) -> RequestWriter
        ensures { left_to_write result request.now ≡ written_of request.now caps.now agent }
    {
        RequestWriter {
            agent,
            names_agent: caps.agent,
            object_format: caps.object_format,
            next: Next::CommandLine,
        }
    }

    /// Makes the hold the next packet of the request that the writer was made for. Returns false, and leaves the hold as it
    /// was, when there is none.
    pub fn pull<A: Allocator + Copy>(&mut self, request: &Request<A>, hold: &mut Hold) -> bool
        ensures more { OnTrue result (PutsFirst (left_to_write self.old request.now) (left_to_write self.new request.now) hold.new.items) }
        ensures none { OnFalse result ((left_to_write self.old request.now ≡ []) × (hold.new ≡ hold.old) × (self.new ≡ self.old)) }
    {
        match self.put_next(request, hold) {
            Some(next) => {
                self.next = next;
                true
            }
            None => false,
        }
    }

    /// Whether no packet is left.
    pub fn is_done(&self) -> bool
        ensures { (format : Format) (asked : Asked) → IsTrue result ↔ (lines_left self.now format asked ≡ []) }
    {
        matches!(self.next, Next::Done)
    }

    fn put_next<A: Allocator + Copy>(&self, request: &Request<A>, hold: &mut Hold) -> Option<Next>
        ensures { MatchOption result ((left_to_write self.now request.now ≡ []) × (hold.new ≡ hold.old))
            (λ next. PutsFirst (left_to_write self.now request.now) (left_at next self.now request.now) hold.new.items) }
    {
        match self.next {
            Next::CommandLine => {
                put_line(hold, b"command=", request.command().name().as_bytes());
                Some(self.after_command())
            }
            Next::AgentLine => {
                put_line(hold, b"agent=", self.agent.text());
                Some(Next::ServerOption(0))
            }
            Next::ServerOption(i) => Some(self.put_capability(request, i, hold)),
            Next::Delimiter(i) => {
                put(hold, Packet::Delim);
                Some(Next::Argument(i))
            }
            Next::Argument(i) => Some(put_from(request, i, hold)),
            Next::Done => None,
        }
    }

    fn after_command(&self) -> Next
        ensures { (format : Format) (asked : Asked) → lines_from result self.now.agent self.now.names_agent self.now.object_format format asked
            ≡ where_named (named_if self.now.names_agent self.now.agent) (options_and_rest self.now.object_format format (arguments_in asked)) }
    {
        if self.names_agent {
            return Next::AgentLine;
        }
        Next::ServerOption(0)
    }

    // Writes the server option at index `i` of the arguments, or what follows the last.
    fn put_capability<A: Allocator + Copy>(
        &self,
        request: &Request<A>,
        i: usize,
        hold: &mut Hold,
    ) -> Next
        ensures { PutsFirst (left_at (Next.ServerOption i) self.now request.now) (left_at result self.now request.now) hold.new.items }
    {
        if let Some(argument) = request.argument(i) {
            if is_option(&argument) {
                put_argument(hold, &argument);
                return Next::ServerOption(i + 1);
            }
        }
        if self.object_format {
            put_line(hold, b"object-format=", request.format().name().as_bytes());
            return Next::Delimiter(i);
        }
        put(hold, Packet::Delim);
        Next::Argument(i)
    }
}

// Whether it is a server option.
fn is_option(argument: &Argument<'_>) -> bool
    ensures { result ≡ is_option_argument (shown argument.now) }
{
    matches!(argument, Argument::Text(TextWord::ServerOption, _))
}

/// Writes the line of the argument at index `i`, or the flush after the last.
fn put_from<A: Allocator + Copy>(request: &Request<A>, i: usize, hold: &mut Hold) -> Next
    ensures { (agent : Agent) (named object_format : Bool) (format : Format)
        → PutsFirst (lines_from (Next.Argument i) agent named object_format format (asked_of request.now))
        (lines_from result agent named object_format format (asked_of request.now)) hold.new.items }
{
    match request.argument(i) {
        Some(argument) => {
            put_argument(hold, &argument);
            Next::Argument(i + 1)
        }
        None => {
            put(hold, Packet::Flush);
            Next::Done
        }
    }
}
