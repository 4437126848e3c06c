//! The server's end of a session over a store of the host's own: it takes bytes in chunks, asks what each request needs of the store, and
//! gives packets.
//!
//! ```text
//!  Advertising --> Reading --> Asked --> Answering --> Reading ..
//!                     |          |           |
//!                     |          +-----------+--> Ended: the host refuses, lacks what is asked for, or cannot go on
//!                     +--> Refusing --> Ended: the input is refused
//!                     +--> Ended: the client leaves
//! ```

ghost use Rattle.std.specs.Prelude.{◌≡◌, ◌≢◌, ◌≤◌, [], true, false, length, take};
ghost use Rattle.git_pkt.specs.Packets.{spelling_of};
ghost use Rattle.git_server.specs.Answers.{error_packet};
ghost use Rattle.git_host.specs.HostServer.{IsAccepted, ended_by, first_phase, is_answering, is_asked, refused_by};

use crate::host_answer::{AnswerStep, Failing, HostAnswer, unasked};
use crate::reference_texts::{
    ReferenceTexts, check_attributes, check_name, put_reported, where_asked,
};
use crate::report::{HostReported, HostStep, ReferenceFault, Report};
use crate::request_at_hand::{RequestAtHand, request_answered};
use crate::written_digits::written_digits;
use git_msg::{Limits, Memory, Offer, ReadGot, Request, RequestStream, put_line};
use git_names::{Format, Steps};
use git_pkt::{Fault, Hold, Kind};
use git_server::{Outcome, put_advertisement};
use std::alloc::{Allocator, Global};
use std::mem;

/// The most bytes that the text of a refusal may have.
pub const LONGEST_REFUSAL: usize = 65_511;

/// How far a session has come.
#[derive(Drop)]
enum Phase<A: Allocator + Copy> {
    // The advertisement is to be given.
    Advertising,
    // All was sent, and bytes are read up to the end of a request.
    Reading,
    // A whole request came, which the host has not accepted yet.
    Asked(Request<A>),
    Answering(HostAnswer<A>),
    // The input is refused, and the client is to receive an error packet.
    Refusing(Fault),
    Ended(Outcome),
}

impl<A: Allocator + Copy> Phase<A> {
    // Goes on to this phase. What is dropped with the one before it is looked at here alone, and not where a session goes on.
    fn move_to(&mut self, next: Phase<A>)
        ensures { self.new ≡ next }
    {
        *self = next;
    }
}

/// The server's end of a session over a store of the host's own.
#[derive(Drop)]
pub struct HostServer<A: Allocator + Copy> {
    alloc: A,
    offer: Offer,
    limits: Limits,
    // Its buffer has the packet that was sent last.
    stream: RequestStream<A>,
    // The offset of the flush of the last request.
    flush: u64,
    phase: Phase<A>,
}

impl<A: Allocator + Copy> HostServer<A> {
    ghost use Rattle.git_host.specs.HostServer.{AcceptsHost, ClosesHost, Hosts, KeepsFault, RefusesHost, ReportsHost, StepsHost, StopsHost};
    ghost use Rattle.git_host.specs.HostServer.{credit_of, outcome_of, reads_on, setting_of};
    ghost use Rattle.git_host.specs.HostStates.{is_over};

    /// A server at the beginning of a session. Of each request it keeps argument lines and server options whose texts have at most
    /// `limits.args` bytes together, in memory from `alloc`, and it gives the advertisement of the offer first where `advertise` is set.
    pub fn new(alloc: A, offer: Offer, limits: Limits, advertise: bool) -> HostServer<A>
        ensures hosts { Hosts (setting_of offer limits.args advertise) [] false [] [] result }
        ensures credit { credit_of result ≡ 0 }
    {
        let stream = RequestStream::new(alloc, offer, limits);
        HostServer {
            alloc,
            offer,
            limits,
            stream,
            flush: 0,
            phase: first_phase(advertise),
        }
    }

    /// Whether bytes of the client are wanted: all was sent that can be.
    pub fn wants_input(&self) -> bool
        ensures { result ≡ reads_on self.now }
    {
        matches!(self.phase, Phase::Reading)
    }

    /// How the session ended, if it has, and all was sent.
    pub fn outcome(&self) -> Option<Outcome>
        ensures { result ≡ outcome_of self.now }
    {
        match self.phase {
            Phase::Ended(outcome) => Some(outcome),
            _ => None,
        }
    }

    // The input is refused, and read no more: a new stream takes the place of the one that has read it, so that nothing of it is kept, and the
    // buffer is free for the error packet.
    fn stop(&mut self, fault: Fault)
        ensures { StopsHost fault self.old self.new }
    {
        self.stream = RequestStream::new(self.alloc, self.offer, self.limits);
        self.phase.move_to(refusal(fault));
    }

    /// The input ends here. Between two requests the session ends well; inside one it is refused as truncated, at the end of the last whole
    /// packet. Returns whether bytes were wanted; else nothing changed.
    pub fn close(&mut self) -> bool
        ensures closes { ClosesHost self.old result self.new }
        ensures credit { credit_of self.new ≤ credit_of self.old }
    {
        if !self.wants_input() || !self.stream.wants_input() {
            return false;
        }
        match self.stream.close() {
            Ok(()) => {
                self.phase = Phase::Ended(Outcome::Closed);
                true
            }
            Err(fault) => {
                self.stop(fault);
                true
            }
        }
    }

    /// Gives the next packet, or what is to be done in its place. Called again before that is done, it returns the same.
    pub fn next(&mut self) -> HostStep
        ensures steps { StepsHost self.old result self.new }
        ensures over { is_over self.old ≡ true → is_over self.new ≡ true }
        ensures credit { credit_of self.new ≤ credit_of self.old }
        ensures fault { KeepsFault self.old self.new }
    {
        match &self.phase {
            Phase::Reading => HostStep::NeedInput,
            Phase::Asked(_) => HostStep::Asked,
            Phase::Ended(outcome) => HostStep::Ended(*outcome),
            Phase::Advertising => self.advertise(),
            Phase::Answering(_) => self.answer(),
            Phase::Refusing(fault) => {
                let fault = *fault;
                self.report_fault(fault)
            }
        }
    }

    // Gives the advertisement.
    fn advertise(&mut self) -> HostStep
        requires { self.old.phase ≡ Phase.Advertising }
        ensures steps { StepsHost self.old result self.new }
        ensures credit { credit_of self.new ≤ credit_of self.old }
        ensures fault { KeepsFault self.old self.new }
    {
        let Some(hold) = self.stream.lend() else {
            return HostStep::NeedInput;
        };
        put_advertisement(hold, &self.offer);
        let _ = hold.len();
        self.phase.move_to(Phase::Reading);
        HostStep::Packet
    }

    // Gives the next packet of an answer, or what is to be done in its place.
    fn answer(&mut self) -> HostStep
        requires { is_answering self.old.phase ≡ true }
        ensures steps { StepsHost self.old result self.new }
        ensures credit { credit_of self.new ≤ credit_of self.old }
        ensures fault { KeepsFault self.old self.new }
    {
        let flush = self.flush;
        let Phase::Answering(answer) = &mut self.phase else {
            return HostStep::NeedInput;
        };
        let Some(hold) = self.stream.lend() else {
            return HostStep::NeedInput;
        };
        let step = answer.next(hold);
        let _ = hold.len();
        match step {
            AnswerStep::Packet => HostStep::Packet,
            AnswerStep::Need(need) => HostStep::Need(need),
            AnswerStep::Whole => {
                self.phase.move_to(Phase::Reading);
                HostStep::NeedInput
            }
            AnswerStep::Broken => {
                let outcome = ended_by(Kind::PackSource, flush);
                self.phase.move_to(Phase::Ended(outcome));
                HostStep::Ended(outcome)
            }
            AnswerStep::Refused(kind) => {
                put_error(
                    hold,
                    Fault {
                        kind,
                        offset: flush,
                    },
                );
                let _ = hold.len();
                self.phase.move_to(Phase::Ended(ended_by(kind, flush)));
                HostStep::Packet
            }
        }
    }

    // Gives the error packet of a fault of the input, which ends the session.
    fn report_fault(&mut self, fault: Fault) -> HostStep
        requires { self.old.phase ≡ Phase.Refusing fault }
        ensures steps { StepsHost self.old result self.new }
        ensures over { is_over self.new ≡ true }
        ensures credit { credit_of self.new ≤ credit_of self.old }
        ensures fault { KeepsFault self.old self.new }
    {
        let Some(hold) = self.stream.lend() else {
            return HostStep::NeedInput;
        };
        put_error(hold, fault);
        let _ = hold.len();
        self.phase.move_to(Phase::Ended(Outcome::Refused(fault)));
        HostStep::Packet
    }

    // The store cannot answer: a packet that reports the pack's failure is sent, or the error packet, which ends the session.
    fn fail(&mut self) -> HostReported
        ensures reports { ReportsHost Report.Failed self.old result self.new }
        ensures memory { result ≢ HostReported.OutOfMemory }
        ensures credit { credit_of self.new ≤ credit_of self.old }
        ensures fault { KeepsFault self.old self.new }
    {
        let flush = self.flush;
        let Phase::Answering(answer) = &mut self.phase else {
            return HostReported::NotAsked;
        };
        let Some(hold) = self.stream.lend() else {
            return HostReported::NotAsked;
        };
        let failing = answer.fail(hold);
        let _ = hold.len();
        match failing {
            Failing::NotAsked => HostReported::NotAsked,
            Failing::Packet => HostReported::Packet,
            Failing::CutShort => {
                put_error(
                    hold,
                    Fault {
                        kind: Kind::PackSource,
                        offset: flush,
                    },
                );
                let _ = hold.len();
                self.phase
                    .move_to(Phase::Ended(ended_by(Kind::PackSource, flush)));
                HostReported::Packet
            }
        }
    }

    /// The request that came is answered. Returns whether one was asked about; else nothing changed.
    pub fn accept(&mut self) -> bool
        ensures accepts { AcceptsHost self.old result self.new }
        ensures credit { credit_of self.new ≤ credit_of self.old }
        ensures fault { KeepsFault self.old self.new }
    {
        if !self.is_asked() {
            return false;
        }
        let phase = mem::replace(&mut self.phase, Phase::Reading);
        self.phase
            .move_to(accepted(self.alloc, phase, self.offer.format));
        true
    }

    /// The request that came is refused: an error packet with this text is sent, and the session is over. Returns whether one was asked about,
    /// and the text has at most [`LONGEST_REFUSAL`] bytes; else nothing changed.
    pub fn refuse(&mut self, text: &[u8]) -> bool
        ensures refuses { RefusesHost text.now self.old result self.new }
        ensures credit { credit_of self.new ≤ credit_of self.old }
        ensures fault { KeepsFault self.old self.new }
    {
        if text.len() > LONGEST_REFUSAL {
            return false;
        }
        if !self.is_asked() {
            return false;
        }
        let Some(hold) = self.stream.lend() else {
            return false;
        };
        put_line(hold, b"ERR ", text);
        let _ = hold.len();
        self.phase
            .move_to(Phase::Ended(ended_by(Kind::NotOurs, self.flush)));
        true
    }

    fn is_asked(&self) -> bool
        ensures { result ≡ is_asked self.now.phase }
    {
        matches!(self.phase, Phase::Asked(_))
    }
}

impl<A: Memory + Copy> HostServer<A> {
    ghost use Rattle.git_pkt.specs.Machine.Credit.{Pays};
    ghost use Rattle.git_host.specs.HostServer.{FeedsHost, KeepsFault, KeepsHostToMemory, MovesHost, ReportsHost, credit_of};
    ghost use Rattle.git_host.specs.HostMemory.{ReportNeedsRefusal};

    /// Takes bytes of the input, and returns how many were used: all of them, or those up to the end of a request, a flush instead of one,
    /// or a fault. None is used while a request is answered, nor after the end.
    pub fn feed(&mut self, chunk: &[u8], steps: &mut Steps) -> usize
        ensures used { result ≤ length chunk.now }
        ensures feeds { FeedsHost (take result chunk.now) self.old self.new }
        ensures moves { MovesHost self.old chunk.now result self.new }
        ensures cost { Pays result steps.old steps.new (credit_of self.old) (credit_of self.new) }

        // The input is refused for want of memory only where memory refused a list, which was to have no more bytes than the limit.
        ensures memory { KeepsHostToMemory A.refuses self.old self.new }
    {
        if !self.wants_input() {
            return 0;
        }
        let read = self.stream.feed(chunk, steps);
        let used = read.used;
        match read.got {
            ReadGot::More => used,
            ReadGot::Request(request) => {
                let _ = request.kept();
                self.flush = self.stream.position().saturating_sub(4);
                self.phase.move_to(Phase::Asked(request));
                used
            }
            ReadGot::Stop => {
                self.phase.move_to(Phase::Ended(Outcome::Flush));
                used
            }
            ReadGot::Failed(fault) => {
                self.stop(fault);
                used
            }
        }
    }

    /// Takes what the host reports of its store, and gives its packet, if it has one. A report that is not asked for changes nothing.
    pub fn report(&mut self, report: Report<'_>) -> HostReported
        ensures reports { ReportsHost report.entry self.old result self.new }
        ensures credit { credit_of self.new ≤ credit_of self.old }
        ensures fault { KeepsFault self.old self.new }

        // Memory refused a list that was to have the objects of wanted references that were kept so far, and one more.
        ensures memory { ReportNeedsRefusal A.refuses self.old result }
    {
        if let Report::Failed = report {
            return self.fail();
        }
        let Phase::Answering(answer) = &mut self.phase else {
            return HostReported::NotAsked;
        };
        let Some(hold) = self.stream.lend() else {
            return HostReported::NotAsked;
        };
        let reported = answer.report(report, hold);
        let _ = hold.len();
        reported
    }
}

impl<A: Memory + Copy> HostServer<A> {
    ghost use Rattle.std.specs.Prelude.{Err, Ok};
    ghost use Rattle.git_msg.specs.Memory.{HasRefused};
    ghost use Rattle.git_host.specs.HostServer.{KeepsFault, ReportsTexts, credit_of};
    ghost use Rattle.git_host.specs.ReferenceTexts.{texts_of};

    /// Takes the report of a reference by its texts. They are checked from left to right: where one is refused, or memory runs out, nothing
    /// changed. Beside that it is as [`report`] of that reference, and faster.
    ///
    /// [`report`]: HostServer::report
    pub fn report_reference(
        &mut self,
        texts: ReferenceTexts<'_>,
    ) -> Result<HostReported, ReferenceFault>
        ensures reports { ReportsTexts (texts_of texts.entry) self.old result self.new }
        ensures credit { credit_of self.new ≤ credit_of self.old }
        ensures fault { KeepsFault self.old self.new }
        ensures never { result ≢ Ok HostReported.OutOfMemory }

        // Memory refused a list that was to have a copy of the name.
        ensures memory { result ≡ Err ReferenceFault.OutOfMemory → HasRefused A.refuses (length texts.entry.name.now) }
    {
        let ReferenceTexts {
            digits,
            name,
            target,
            peeled,
        } = texts;
        let mut space = [0; 64];
        let Some(digits) = written_digits(self.offer.format, digits, &mut space) else {
            return Err(ReferenceFault::BadObjectName);
        };
        let mut peeled_space = [0; 64];
        let peeled = match check_attributes(self.offer.format, target, peeled, &mut peeled_space) {
            Ok(peeled) => peeled,
            Err(fault) => {
                // The name stands before both.
                check_name(name)?;
                return Err(fault);
            }
        };
        let Phase::Answering(answer) = &mut self.phase else {
            return unasked(name);
        };
        let target = where_asked(answer.symrefs(), target);
        let peeled = where_asked(answer.peel(), peeled);
        let reported = answer.take_reference(self.alloc, self.offer.format, name)?;
        let Some(hold) = self.stream.lend() else {
            return Ok(HostReported::NotAsked);
        };
        put_reported(hold, reported, digits, name, target, peeled);
        let _ = hold.len();
        Ok(reported)
    }
}

// What is looked at between two calls.
impl<A: Allocator + Copy> HostServer<A> {
    ghost use Rattle.std.specs.Option.{option_map};
    ghost use Rattle.git_host.specs.HostServer.{bytes_of};
    ghost use Rattle.git_host.specs.HostLookups.{asked_in, format_of, request_of};

    /// The bytes of the packet that was sent last, until more of the client are fed.
    pub fn packet(&self) -> &[u8]
        ensures value { result.now ≡ bytes_of self.now }
        ensures fits { length result.now ≤ 65520 }
    {
        self.stream.hold().as_slice()
    }

    /// The format of object names.
    pub fn format(&self) -> Format
        ensures { result ≡ format_of self.now }
    {
        self.offer.format
    }

    /// The request that is asked about or answered.
    pub fn request(&self) -> Option<RequestAtHand<'_, A>>
        ensures { option_map asked_in result ≡ request_of self.now }
    {
        match &self.phase {
            Phase::Asked(request) => Some(RequestAtHand::Asked(request)),
            Phase::Answering(answer) => request_answered(answer),
            _ => None,
        }
    }
}

// The most that a `HostServer` is with the default allocator, without what its pointers refer to. Its buffer is 65,520 bytes of it.
const MOST_SIZE: usize = 66_656;

const _: () = prove!(size_of::<HostServer<Global>>() <= MOST_SIZE);

// Where a session begins.
fn first_phase<A: Allocator + Copy>(advertise: bool) -> Phase<A>
    ensures { result ≡ first_phase advertise }
{
    if advertise {
        return Phase::Advertising;
    }
    Phase::Reading
}

// An error packet of the client is not answered; any other fault is reported.
fn refusal<A: Allocator + Copy>(fault: Fault) -> Phase<A>
    ensures { result ≡ refused_by fault.kind fault }
{
    match fault.kind {
        Kind::RemoteError => Phase::Ended(Outcome::Refused(fault)),
        _ => Phase::Refusing(fault),
    }
}

// The request that came is answered from now on.
fn accepted<A: Allocator + Copy>(alloc: A, phase: Phase<A>, format: Format) -> Phase<A>
    ensures { IsAccepted format phase result }
{
    match phase {
        Phase::Asked(request) => Phase::Answering(HostAnswer::new(alloc, request, format)),
        phase => phase,
    }
}

// The session ended because the host refused the request whose flush is at this offset.
fn ended_by(kind: Kind, flush: u64) -> Outcome
    ensures { result ≡ ended_by kind flush }
{
    Outcome::Refused(Fault {
        kind,
        offset: flush,
    })
}

// Makes the hold the error packet that reports a fault.
fn put_error(hold: &mut Hold, fault: Fault)
    ensures { hold.new.items ≡ spelling_of (error_packet fault) }
{
    let text = fault.text();
    put_line(hold, b"ERR ", text.as_str().as_bytes());
}
