//! The answer to the request at hand, of whichever command: it is asked for what it needs, one thing after another.

ghost use Rattle.std.specs.Prelude.{◌≡◌, MatchResult, true, false};
ghost use Rattle.git_names.specs.RefName.{IsRefName};
ghost use Rattle.git_host.specs.HostAnswers.{GoesOn, IsThrough, ended_as, is_admission, of_fetch_step, of_sizes_step, part_of, reported_as};
ghost use Rattle.git_host.specs.HostAnswers.{FailsFetch, asks_wanted, cut_where, line_as, progress_as};

use crate::admission::{Admission, AdmissionStep, WantRefReported};
use crate::fetch_answer::{BoundaryEnd, BoundaryReported, FetchAnswer, ProgressReported, Step};
use crate::reference_texts::check_name;
use crate::references_answer::{ReferencesAnswer, Reported};
use crate::report::{
    HostReported, LONGEST_PART, Need, ReferenceFault, Report, packet_where, taken_where,
};
use crate::sizes_answer::{SizesAnswer, SizesStep};
use git_msg::{Boundary, Memory, Request};
use git_names::{Format, Oid, RefName};
use git_pkt::{Hold, Kind};
use git_server::RefEntry;
use std::alloc::Allocator;
use std::mem;

/// The answer to the request at hand.
#[derive(Drop)]
pub(crate) enum HostAnswer<A: Allocator + Copy> {
    // A fetch before it is known that the store has what it asks for.
    Admission(Admission<A>),
    Fetch(FetchAnswer<A>),
    References(ReferencesAnswer<A>),
    Sizes(SizesAnswer<A>),
    // All was sent.
    Whole,
}

/// What is to be done next for an answer.
#[derive(Clone, Copy)]
pub(crate) enum AnswerStep {
    Packet,
    Need(Need),
    Whole,
    // The pack could not be had.
    Broken,
    // The store lacks what the request asks for, which is refused by this name.
    Refused(Kind),
}

/// What came of it that what is asked cannot be had.
#[derive(Clone, Copy)]
pub(crate) enum Failing {
    // Nothing was asked. Nothing changed.
    NotAsked,
    // The packet that breaks the pack off was sent.
    Packet,
    // The answer ends before its pack, by an error packet that is to be given. Nothing changed.
    CutShort,
}

impl<A: Allocator + Copy> HostAnswer<A> {
    ghost use Rattle.git_host.specs.HostAnswers.{FailsBy, IsBegun, ReportsBy, StepsAnswer, WaitsStill, asks_peel, asks_symrefs, is_broken};

    /// The answer to this request, before anything was reported or sent for it.
    pub(crate) fn new(alloc: A, request: Request<A>, format: Format) -> HostAnswer<A>
        ensures { IsBegun format request result }
    {
        match request {
            Request::LsRefs(request) => {
                HostAnswer::References(ReferencesAnswer::new(request, format))
            }
            Request::Fetch(request) => {
                HostAnswer::Admission(Admission::new(alloc, request, format))
            }
            Request::ObjectInfo(request) => HostAnswer::Sizes(SizesAnswer::new(request)),
        }
    }

    /// Gives the next packet, or what is to be done in its place.
    pub(crate) fn next(&mut self, hold: &mut Hold) -> AnswerStep
        ensures steps { StepsAnswer self.old result hold.new.items self.new }
        ensures broken { is_broken self.old ≡ true → result ≡ AnswerStep.Broken }
        ensures waits { WaitsStill self.old result self.new }
    {
        let HostAnswer::Admission(admission) = self else {
            return self.go_on(hold);
        };
        match admission.step() {
            AdmissionStep::AskWant(at) => AnswerStep::Need(Need::Want(at)),
            AdmissionStep::AskWantRef(at) => AnswerStep::Need(Need::WantRef(at)),
            AdmissionStep::Refused(kind) => AnswerStep::Refused(kind),
            AdmissionStep::Admitted => {
                self.settle();
                self.go_on(hold)
            }
        }
    }

    // The same of any answer but an admission.
    fn go_on(&mut self, hold: &mut Hold) -> AnswerStep
        requires { is_admission self.old ≡ false }
        ensures steps { StepsAnswer self.old result hold.new.items self.new }
        ensures broken { is_broken self.old ≡ true → result ≡ AnswerStep.Broken }
        ensures waits { WaitsStill self.old result self.new }
    {
        match self {
            HostAnswer::Admission(_) => unreachable!(),
            HostAnswer::Fetch(answer) => of_fetch(answer.next(hold)),
            HostAnswer::References(_) => AnswerStep::Need(Need::Reference),
            HostAnswer::Sizes(answer) => of_sizes(answer.next(hold)),
            HostAnswer::Whole => AnswerStep::Whole,
        }
    }

    /// Whether references are reported, and the request asks for the names that they point to.
    pub(crate) fn symrefs(&self) -> bool
        ensures { result ≡ asks_symrefs self.now }
    {
        match self {
            HostAnswer::References(answer) => answer.symrefs(),
            _ => false,
        }
    }

    /// Whether references are reported, and the request asks for the objects that annotated tags peel to.
    pub(crate) fn peel(&self) -> bool
        ensures { result ≡ asks_peel self.now }
    {
        match self {
            HostAnswer::References(answer) => answer.peel(),
            _ => false,
        }
    }

    // An admission that is through becomes the answer.
    fn settle(&mut self)
        requires { IsThrough self.old }
        ensures same { GoesOn (λ f. f) self.old self.new }
        ensures settled { is_admission self.new ≡ false }
    {
        let answer = mem::replace(self, HostAnswer::Whole);
        *self = settled(answer);
    }

    fn want(&mut self, has: bool, hold: &mut Hold) -> HostReported
        ensures { ReportsBy (Report.Want has) self.old result hold.new.items self.new }
    {
        let HostAnswer::Admission(admission) = self else {
            return HostReported::NotAsked;
        };
        taken_where(admission.want(has))
    }

    fn have(&mut self, has: bool, hold: &mut Hold) -> HostReported
        ensures { ReportsBy (Report.Have has) self.old result hold.new.items self.new }
    {
        let HostAnswer::Fetch(answer) = self else {
            return HostReported::NotAsked;
        };
        if has {
            return packet_where(answer.common(hold));
        }
        taken_where(answer.not_common())
    }

    fn ready(&mut self, ready: bool, hold: &mut Hold) -> HostReported
        ensures { ReportsBy (Report.Ready ready) self.old result hold.new.items self.new }
    {
        let HostAnswer::Fetch(answer) = self else {
            return HostReported::NotAsked;
        };
        if ready {
            return packet_where(answer.ready(hold));
        }
        packet_where(answer.not_ready(hold))
    }

    fn boundary(&mut self, line: Boundary, hold: &mut Hold) -> HostReported
        ensures { ReportsBy (Report.Boundary line) self.old result hold.new.items self.new }
    {
        let HostAnswer::Fetch(answer) = self else {
            return HostReported::NotAsked;
        };
        line_as(answer.boundary(line, hold))
    }

    fn boundary_end(&mut self, hold: &mut Hold) -> HostReported
        ensures { ReportsBy Report.BoundaryEnd self.old result hold.new.items self.new }
    {
        let HostAnswer::Fetch(answer) = self else {
            return HostReported::NotAsked;
        };
        ended_as(answer.boundary_end(hold))
    }

    fn pack(&mut self, bytes: &[u8], hold: &mut Hold) -> HostReported
        ensures { ReportsBy (Report.Pack bytes.entry) self.old result hold.new.items self.new }
    {
        if bytes.is_empty() {
            return HostReported::Taken;
        }
        let HostAnswer::Fetch(answer) = self else {
            return HostReported::NotAsked;
        };
        packet_where(answer.pack(first_part(bytes), hold))
    }

    fn progress(&mut self, bytes: &[u8], hold: &mut Hold) -> HostReported
        ensures { ReportsBy (Report.Progress bytes.entry) self.old result hold.new.items self.new }
    {
        if bytes.is_empty() {
            return HostReported::Taken;
        }
        let HostAnswer::Fetch(answer) = self else {
            return HostReported::NotAsked;
        };
        progress_as(answer.progress(first_part(bytes), hold))
    }

    fn pack_end(&mut self, hold: &mut Hold) -> HostReported
        ensures { ReportsBy Report.PackEnd self.old result hold.new.items self.new }
    {
        let HostAnswer::Fetch(answer) = self else {
            return HostReported::NotAsked;
        };
        packet_where(answer.pack_end(hold))
    }

    /// The store cannot answer: the packet that breaks a pack off is sent. If something else is asked, the answer is cut short.
    pub(crate) fn fail(&mut self, hold: &mut Hold) -> Failing
        ensures { FailsBy self.old result hold.new.items self.new }
    {
        match self {
            HostAnswer::Admission(admission) => cut_where(asks_wanted(admission.step())),
            HostAnswer::Fetch(answer) => fail_fetch(answer, hold),
            HostAnswer::References(_) => Failing::CutShort,
            HostAnswer::Sizes(answer) => cut_where(answer.asks()),
            HostAnswer::Whole => Failing::NotAsked,
        }
    }

    fn reference(&mut self, entry: RefEntry, hold: &mut Hold) -> HostReported
        ensures { ReportsBy (Report.Reference entry) self.old result hold.new.items self.new }
    {
        let HostAnswer::References(answer) = self else {
            return HostReported::NotAsked;
        };
        reported_as(answer.reference(entry, hold))
    }

    fn unborn(&mut self, target: RefName<'_>, hold: &mut Hold) -> HostReported
        ensures { ReportsBy (Report.Unborn target.entry) self.old result hold.new.items self.new }
    {
        let HostAnswer::References(answer) = self else {
            return HostReported::NotAsked;
        };
        reported_as(answer.unborn(target.as_bytes(), hold))
    }

    fn references_end(&mut self, hold: &mut Hold) -> HostReported
        ensures { ReportsBy Report.ReferencesEnd self.old result hold.new.items self.new }
    {
        let HostAnswer::References(answer) = self else {
            return HostReported::NotAsked;
        };
        if !answer.end(hold) {
            return HostReported::NotAsked;
        }
        *self = HostAnswer::Whole;
        HostReported::Packet
    }

    fn size(&mut self, size: Option<u64>, hold: &mut Hold) -> HostReported
        ensures { ReportsBy (Report.Size size) self.old result hold.new.items self.new }
    {
        let HostAnswer::Sizes(answer) = self else {
            return HostReported::NotAsked;
        };
        packet_where(answer.size(size, hold))
    }
}

impl<A: Memory + Copy> HostAnswer<A> {
    ghost use Rattle.std.specs.Prelude.{Err, length};
    ghost use Rattle.git_msg.specs.Memory.{HasRefused};
    ghost use Rattle.git_host.specs.HostAnswers.{ReportsBy, TakesReference, is_failure};
    ghost use Rattle.git_host.specs.HostMemory.{AnswerNeedsRefusal};

    /// Takes what the host reports, but for a failure, and gives its packet, if it has one.
    pub(crate) fn report(&mut self, report: Report<'_>, hold: &mut Hold) -> HostReported
        requires { is_failure report ≡ false }
        ensures reports { ReportsBy report.entry self.old result hold.new.items self.new }
        ensures memory { AnswerNeedsRefusal A.refuses self.old result }
    {
        match report {
            Report::Want(has) => self.want(has, hold),
            Report::WantRef(id) => self.want_ref(id, hold),
            Report::Have(has) => self.have(has, hold),
            Report::Ready(ready) => self.ready(ready, hold),
            Report::Boundary(line) => self.boundary(line, hold),
            Report::BoundaryEnd => self.boundary_end(hold),
            Report::Pack(bytes) => self.pack(bytes, hold),
            Report::Progress(bytes) => self.progress(bytes, hold),
            Report::PackEnd => self.pack_end(hold),
            Report::Failed => unreachable!(),
            Report::Reference(entry) => self.reference(entry, hold),
            Report::Unborn(target) => self.unborn(target, hold),
            Report::ReferencesEnd => self.references_end(hold),
            Report::Size(size) => self.size(size, hold),
        }
    }

    /// Takes a reference with this name and objects of this format. If it has a packet, that is its line, which is still to be written.
    pub(crate) fn take_reference(
        &mut self,
        alloc: A,
        format: Format,
        name: &[u8],
    ) -> Result<HostReported, ReferenceFault>
        ensures takes { TakesReference format name.now self.old result self.new }
        ensures memory { result ≡ Err ReferenceFault.OutOfMemory → HasRefused A.refuses (length name.now) }
    {
        let HostAnswer::References(answer) = self else {
            return unasked(name);
        };
        match answer.take_reference(alloc, format, name) {
            Ok(reported) => Ok(reported_as(reported)),
            Err(fault) => Err(fault),
        }
    }

    fn want_ref(&mut self, id: Option<Oid>, hold: &mut Hold) -> HostReported
        ensures reports { ReportsBy (Report.WantRef id) self.old result hold.new.items self.new }
        ensures memory { AnswerNeedsRefusal A.refuses self.old result }
    {
        let HostAnswer::Admission(admission) = self else {
            return HostReported::NotAsked;
        };
        match admission.want_ref(id) {
            Ok(WantRefReported::Taken) => HostReported::Taken,
            Ok(WantRefReported::MixedFormats) => HostReported::MixedFormats,
            Ok(WantRefReported::NotAsked) => HostReported::NotAsked,
            Err(_) => HostReported::OutOfMemory,
        }
    }
}

// The answer, if an admission is through; any other as it was.
fn settled<A: Allocator + Copy>(answer: HostAnswer<A>) -> HostAnswer<A>
    ensures same { GoesOn (λ f. f) answer result }
    ensures settled { IsThrough answer → is_admission result ≡ false }
{
    match answer {
        HostAnswer::Admission(admission) => match admission.into_answer() {
            Ok(answer) => HostAnswer::Fetch(answer),
            Err(admission) => HostAnswer::Admission(admission),
        },
        answer => answer,
    }
}

// The pack cannot be had, or what is asked before it.
fn fail_fetch<A: Allocator + Copy>(answer: &mut FetchAnswer<A>, hold: &mut Hold) -> Failing
    ensures { FailsFetch answer.old result hold.new.items answer.new }
{
    if answer.asks_before_pack() {
        return Failing::CutShort;
    }
    if answer.pack_failed(hold) {
        return Failing::Packet;
    }
    Failing::NotAsked
}

fn cut_where(asked: bool) -> Failing
    ensures { result ≡ cut_where asked }
{
    if asked {
        return Failing::CutShort;
    }
    Failing::NotAsked
}

// Whether something is asked that a request wants.
fn asks_wanted(step: AdmissionStep) -> bool
    ensures { result ≡ asks_wanted step }
{
    matches!(
        step,
        AdmissionStep::AskWant(_) | AdmissionStep::AskWantRef(_)
    )
}

fn of_fetch(step: Step) -> AnswerStep
    ensures { result ≡ of_fetch_step step }
{
    match step {
        Step::Packet => AnswerStep::Packet,
        Step::AskHave(at) => AnswerStep::Need(Need::Have(at)),
        Step::AskReady => AnswerStep::Need(Need::Ready),
        Step::AskBoundary => AnswerStep::Need(Need::Boundary),
        Step::AskPack => AnswerStep::Need(Need::Pack),
        Step::Whole => AnswerStep::Whole,
        Step::Broken => AnswerStep::Broken,
    }
}

fn of_sizes(step: SizesStep) -> AnswerStep
    ensures { result ≡ of_sizes_step step }
{
    match step {
        SizesStep::Packet => AnswerStep::Packet,
        SizesStep::AskSize(at) => AnswerStep::Need(Need::Size(at)),
        SizesStep::Whole => AnswerStep::Whole,
    }
}

fn line_as(reported: BoundaryReported) -> HostReported
    ensures { result ≡ line_as reported }
{
    match reported {
        BoundaryReported::Packet => HostReported::Packet,
        BoundaryReported::NotAsked => HostReported::NotAsked,
        BoundaryReported::MixedFormats => HostReported::MixedFormats,
        BoundaryReported::NotShallow => HostReported::NotShallow,
    }
}

fn progress_as(reported: ProgressReported) -> HostReported
    ensures { result ≡ progress_as reported }
{
    match reported {
        ProgressReported::Packet => HostReported::Packet,
        ProgressReported::NotAsked => HostReported::NotAsked,
        ProgressReported::Hidden => HostReported::Hidden,
    }
}

fn ended_as(end: BoundaryEnd) -> HostReported
    ensures { result ≡ ended_as end }
{
    match end {
        BoundaryEnd::NotAsked => HostReported::NotAsked,
        BoundaryEnd::Absent => HostReported::Taken,
        BoundaryEnd::Packet => HostReported::Packet,
    }
}

/// What comes of a reference with this name that was not asked for.
pub(crate) fn unasked(name: &[u8]) -> Result<HostReported, ReferenceFault>
    ensures { MatchResult result (λ reported. (reported ≡ HostReported.NotAsked) × IsRefName name.now)
        (λ fault. (fault ≡ ReferenceFault.BadRefName) × ¬ IsRefName name.now) }
{
    match check_name(name) {
        Ok(()) => Ok(HostReported::NotAsked),
        Err(fault) => Err(fault),
    }
}

fn reported_as(reported: Reported) -> HostReported
    ensures { result ≡ reported_as reported }
{
    match reported {
        Reported::Packet => HostReported::Packet,
        Reported::Hidden => HostReported::Hidden,
        Reported::Unsorted => HostReported::Unsorted,
        Reported::MixedFormats => HostReported::MixedFormats,
        Reported::HeadTwice => HostReported::HeadTwice,
        Reported::NotAsked => HostReported::NotAsked,
    }
}

// As many of the bytes as fit into one packet.
fn first_part(bytes: &[u8]) -> &[u8]
    ensures { result.now ≡ part_of bytes.now }
{
    &bytes[..LONGEST_PART.min(bytes.len())]
}
