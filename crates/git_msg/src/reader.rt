//! Requests, read packet by packet.
ghost use Rattle.git_msg.specs.Machine.HeldRequest.{IsBounded};

use crate::admits::Admits;
use crate::arguments::{Argument, Command};
use crate::judge::{Noted, judge_capability, read_text};
use crate::limits::Limits;
use crate::memory::Memory;
use crate::offers::Offer;
use crate::requests::Request;
use crate::words::TextWord;
use git_names::{Format, Steps};
use git_pkt::{Fault, Kind, Packet, text};
use std::alloc::Allocator;
use std::mem;

/// The result of reading on.
#[derive(Drop)]
pub enum ReadGot<A: Allocator + Copy> {
    /// Nothing whole yet: the request goes on. A reader of bytes has used the whole chunk, or it reads no more.
    More,
    /// A whole request.
    Request(Request<A>),
    /// A flush with nothing before it: the other end ends the session. Nothing after it is read.
    Stop,
    /// The first fault; the reader stays at it.
    Failed(Fault),
}

// The effect of a packet that is not refused.
#[derive(Clone, Copy, Debug)]
enum Taken {
    // It is part of the request that goes on.
    More,
    // The request is whole.
    Whole,
    // It ends the session.
    Stop,
}

#[derive(Clone, Copy, Debug)]
enum Part {
    Capabilities,
    Arguments,
    Failed(Fault),
}

/// Reads requests from their packets, as in gitprotocol-v2(5), against what was advertised.
pub struct RequestReader<A: Allocator + Copy> {
    alloc: A,
    offer: Offer,
    part: Part,
    // Whether a packet has come since the last request.
    begun: bool,
    command: Option<Command>,
    has_format: bool,
    // The request as it is kept so far, with its limit.
    request: Request<A>,
    ghost bounded: { IsBounded offer request },
}

// By a call: a derived drop is written out, and proved, wherever a value goes out of scope.
impl<A: Allocator + Copy> Drop for RequestReader<A> {
    fn drop(self) {
        let RequestReader {
            alloc: _alloc,
            offer: _offer,
            part: _part,
            begun: _begun,
            command: _command,
            has_format: _has_format,
            request: _request,
        } = self;
    }
}

impl<A: Allocator + Copy> RequestReader<A> {
    ghost use Rattle.std.specs.Prelude.{◌≡◌, [], MatchResult};
    ghost use Rattle.git_msg.specs.Machine.HeldRequest.{IsEmpty};
    ghost use Rattle.git_msg.specs.Machine.RequestReader.{InCapabilities, Takes, offer_of, limit_in, kept_so_far, fault_of};
    ghost use Rattle.git_msg.specs.Machine.RequestReaderSteps.{Begins, IsExpected, IsUndue};

    /// A reader at the beginning of a request. It takes memory from `alloc` when an argument with a text or an object
    /// name is kept.
    pub fn new(alloc: A, offer: Offer, limits: Limits) -> RequestReader<A>
        ensures takes { Takes [] result }
        ensures open { fault_of result ≡ None }
        ensures offer { offer_of result ≡ offer }
        ensures limit { limit_in result ≡ limits.args }
        ensures kept { kept_so_far result ≡ 0 }
    {
        RequestReader {
            alloc,
            offer,
            part: Part::Capabilities,
            begun: false,
            command: None,
            has_format: false,
            request: Request::new(alloc, Command::LsRefs, offer.format, limits),
        }
    }

    // The command, which the capability part must have at its end.
    fn command_expected(&self) -> Result<Command, Kind>
        ensures command { MatchResult result (IsExpected self.now) (IsUndue self.now) }
    {
        let Some(command) = self.command else {
            return Err(Kind::NoCommand);
        };
        match self.offer.format {
            Format::Sha1 => Ok(command),
            Format::Sha256 => {
                if !self.has_format {
                    return Err(Kind::WrongFormat);
                }
                Ok(command)
            }
        }
    }

    // A request for nothing, under the same limit.
    fn empty_request(&self) -> Request<A>
        ensures { IsEmpty Command.LsRefs self.now.offer.format (limit_in self.now) result }
    {
        Request::new(
            self.alloc,
            Command::LsRefs,
            self.offer.format,
            self.request.limits(),
        )
    }

    // Makes the request one of the command that the capability part names.
    fn begin(&mut self, command: Command)
        ensures { Begins command self.old self.new }
    {
        let next = self.empty_request();
        let options = mem::replace(&mut self.request, next);
        self.request = options.for_command(self.alloc, command);
    }

    // Hands the request out. The next packet begins another.
    fn restart(&mut self) -> Request<A>
        ensures given { result ≡ self.old.request }
        ensures next { IsEmpty Command.LsRefs self.old.offer.format (limit_in self.old) self.new.request }
        ensures fresh { InCapabilities [] self.new }
        ensures part { self.new.part ≡ Part.Capabilities }
        ensures offer { self.new.offer ≡ self.old.offer }
    {
        self.part = Part::Capabilities;
        self.begun = false;
        self.command = None;
        self.has_format = false;
        let next = self.empty_request();
        mem::replace(&mut self.request, next)
    }
}

impl<A: Memory + Copy> RequestReader<A> {
    ghost use Rattle.std.specs.Prelude.{◌≡◌, ◌+◌, ◌*◌, None, Option, IfErr, OnErr, OnOk, length};
    ghost use Rattle.git_names.specs.Steps.{TakesAtMost};
    ghost use Rattle.git_pkt.specs.Packets.{body_of, flush, payload, seen};
    ghost use Rattle.git_msg.specs.Arguments.{Arg};
    ghost use Rattle.git_msg.specs.Machine.RequestReader.{Brings, GotNeedsRefusal, IsCovered, fault_of, limit_in};
    ghost use Rattle.git_msg.specs.Machine.RequestReaderSteps.{IsUnnoted, Notes, StepsOn};
    ghost use Rattle.git_msg.specs.Memory.{NeedsRefusal};

    /// Takes the next packet, which is at `offset`, and keeps its argument or server option, if it is one and nothing refuses it.
    /// The request then counts the bytes that its text had on the wire. An argument is refused in this order: for its text; by
    /// `admits`; as `TooMuchKept`, if so many more bytes would exceed the limit; and as `OutOfMemory`, if there is no memory for
    /// its value. A server option is refused in the same order, but not by `admits`. What is refused is not kept, and ends the
    /// reading: from then on each call returns that fault.
    pub fn take<B: Admits>(
        &mut self,
        admits: &B,
        packet: Packet<'_>,
        offset: u64,
        steps: &mut Steps,
    ) -> ReadGot<A>
        ensures brings { Brings (B.refused_as admits.now) self.old (record { packet = seen packet.entry; offset = offset }) result self.new }
        ensures cost { TakesAtMost (42 * (length (body_of (seen packet.entry)) + 1)) steps.old steps.new }
        ensures covered { IsCovered result }
        ensures memory { fault_of self.old ≡ None → GotNeedsRefusal A.refuses (limit_in self.old) result }
    {
        if let Part::Failed(fault) = self.part {
            return ReadGot::Failed(fault);
        }
        match self.step(admits, packet, steps) {
            Ok(Taken::More) => ReadGot::More,
            Ok(Taken::Whole) => ReadGot::Request(self.restart()),
            Ok(Taken::Stop) => ReadGot::Stop,
            Err(kind) => {
                let fault = Fault { kind, offset };
                self.part = Part::Failed(fault);
                ReadGot::Failed(fault)
            }
        }
    }

    // Takes a packet while no fault has come.
    fn step<B: Admits>(
        &mut self,
        admits: &B,
        packet: Packet<'_>,
        steps: &mut Steps,
    ) -> Result<Taken, Kind>
        requires { fault_of self.old ≡ None }
        ensures goes_on { StepsOn (B.refused_as admits.now) self.old (seen packet.entry) result self.new }
        ensures cost { TakesAtMost (42 * (length (body_of (seen packet.entry)) + 1)) steps.old steps.new }
        ensures memory { IfErr result (NeedsRefusal A.refuses (limit_in self.old)) }
    {
        match self.part {
            Part::Arguments => self.take_argument(admits, packet, steps),
            _ => self.take_capability(packet, steps),
        }
    }

    fn take_capability(&mut self, packet: Packet<'_>, steps: &mut Steps) -> Result<Taken, Kind>
        requires { self.old.part ≡ Part.Capabilities }
        ensures goes_on { (barred : Arg → Option Kind) → StepsOn barred self.old (seen packet.entry) result self.new }
        ensures cost { TakesAtMost (42 * (length (body_of (seen packet.entry)) + 1)) steps.old steps.new }
        ensures memory { IfErr result (NeedsRefusal A.refuses (limit_in self.old)) }
    {
        match packet {
            Packet::Payload(payload) => {
                self.note(text(payload), steps)?;
                Ok(Taken::More)
            }
            Packet::Delim => {
                let command = self.command_expected()?;
                self.begin(command);
                self.part = Part::Arguments;
                Ok(Taken::More)
            }
            Packet::Flush => self.take_early_flush(),
            Packet::RespEnd => Err(Kind::UnexpectedPacket),
        }
    }

    // Takes a flush with no delimiter before it.
    fn take_early_flush(&mut self) -> Result<Taken, Kind>
        requires { self.old.part ≡ Part.Capabilities }
        ensures goes_on { (barred : Arg → Option Kind) → StepsOn barred self.old flush result self.new }
        ensures memory { IfErr result (NeedsRefusal A.refuses (limit_in self.old)) }
    {
        if !self.begun {
            return Ok(Taken::Stop);
        }
        let command = self.command_expected()?;
        self.request.arguments().check_end(command)?;
        self.begin(command);
        Ok(Taken::Whole)
    }

    // Takes a line of the capability part.
    fn note(&mut self, text: &[u8], steps: &mut Steps) -> Result<(), Kind>
        ensures cost { TakesAtMost (14 * (length text.now + 1)) steps.old steps.new }
        ensures ok { OnOk result (Notes self.old text.now self.new) }
        ensures unchanged { OnErr result (self.new ≡ self.old) }
        ensures err { IfErr result (IsUnnoted self.old text.now) }
        ensures memory { IfErr result (NeedsRefusal A.refuses (limit_in self.old)) }
    {
        match judge_capability(&self.offer, self.command.is_none(), text, steps)? {
            Noted::Command(command) => self.command = Some(command),
            Noted::ObjectFormat => self.has_format = true,
            Noted::Unkept => {}
            Noted::ServerOption(option) => {
                // The option, with its end, has fewer bytes than its line.
                let long = text.len();
                steps.tick(long + 1);
                self.request
                    .push(&Argument::Text(TextWord::ServerOption, option), long)?;
            }
        }
        self.begun = true;
        Ok(())
    }

    fn take_argument<B: Admits>(
        &mut self,
        admits: &B,
        packet: Packet<'_>,
        steps: &mut Steps,
    ) -> Result<Taken, Kind>
        requires { self.old.part ≡ Part.Arguments }
        ensures goes_on { StepsOn (B.refused_as admits.now) self.old (seen packet.entry) result self.new }
        ensures cost { TakesAtMost (42 * (length (body_of (seen packet.entry)) + 1)) steps.old steps.new }
        ensures memory { IfErr result (NeedsRefusal A.refuses (limit_in self.old)) }
    {
        match packet {
            Packet::Payload(bytes) => self.take_line(admits, bytes, steps),
            Packet::Flush => {
                self.request.check_end()?;
                Ok(Taken::Whole)
            }
            Packet::Delim => Err(Kind::UnexpectedPacket),
            Packet::RespEnd => Err(Kind::UnexpectedPacket),
        }
    }

    // Takes the line of an argument.
    fn take_line<B: Admits>(
        &mut self,
        admits: &B,
        bytes: &[u8],
        steps: &mut Steps,
    ) -> Result<Taken, Kind>
        requires { self.old.part ≡ Part.Arguments }
        ensures goes_on { StepsOn (B.refused_as admits.now) self.old (payload bytes.now) result self.new }
        ensures cost { TakesAtMost (42 * (length bytes.now + 1)) steps.old steps.new }
        ensures memory { IfErr result (NeedsRefusal A.refuses (limit_in self.old)) }
    {
        let text = text(bytes);
        let argument = match read_text(self.request.command(), &self.offer, text, steps) {
            Ok(argument) => argument,
            Err(kind) => return Err(kind),
        };
        // One call of `refusal_of`; the pushed value, with its end, has fewer bytes than the text.
        steps.tick(text.len() + 1);
        if let Some(kind) = admits.refusal_of(&argument) {
            return Err(kind);
        }
        self.request.push(&argument, text.len())?;
        Ok(Taken::More)
    }
}
