//! What a store has of what a `fetch` asks for, asked before the first packet of the answer: each wanted object, and the object of each
//! wanted reference.
//!
//! ```text
//!  Want .. --> WantRef .. --> Admitted
//!    |            |
//!    +------------+--> Refused
//! ```

ghost use Rattle.std.specs.Prelude.{◌≡◌, ◌+◌, ◌*◌, ◌<◌, OnErr, length};
ghost use Rattle.git_msg.specs.Asked.{want_refs_in, wants_in};
ghost use Rattle.git_host.specs.Admissions.{reference_step, want_step};

use crate::fetch_answer::FetchAnswer;
use git_msg::{Fetch, Memory};
use git_names::{Format, Oid};
use git_pkt::Kind;
use std::alloc::{AllocError, Allocator};

/// What is asked next, or what came of the admission.
#[derive(Clone, Copy, Debug, PartialEq, Eq)]
pub enum AdmissionStep {
    /// Whether the store has the object of the `want` line at this place.
    AskWant(usize),
    /// The object of the reference of the `want-ref` line at this place, if there is such a reference.
    AskWantRef(usize),
    /// The store has all of it.
    Admitted,
    /// It lacks some of it, and the request is refused: `NotOurs` for an object, `UnknownRef` for a reference.
    Refused(Kind),
}

/// What came of the report of a reference.
#[derive(Clone, Copy, Debug, PartialEq, Eq)]
pub enum WantRefReported {
    /// It was kept, or the request is refused.
    Taken,
    /// The object is not of the request's format. Nothing changed.
    MixedFormats,
    /// It was not asked for. Nothing changed.
    NotAsked,
}

/// The admission of one `fetch`.
#[derive(Drop)]
pub struct Admission<A: Allocator + Copy> {
    request: Fetch<A>,
    format: Format,
    // The objects of the wanted references that were reported so far.
    wanted: Vec<Oid, A>,
    step: AdmissionStep,
}

impl<A: Allocator + Copy> Admission<A> {
    ghost use Rattle.git_host.specs.Admissions.{IsAdmitted, ReportsWant, RepresentsAdmission};
    ghost use Rattle.git_host.specs.Admissions.{asked_of, format_of, nothing_reported, request_of, step_of, wanted_by, AdmissionFacts};
    ghost use Rattle.git_host.specs.AdmittedAnswers.{Becomes};

    /// The admission of this request, whose object names have this format. It keeps the objects of wanted references in memory from
    /// `alloc`.
    pub fn new(alloc: A, request: Fetch<A>, format: Format) -> Admission<A>
        ensures request { request_of result ≡ request }
        ensures format { format_of result ≡ format }
        ensures represents { RepresentsAdmission nothing_reported result }
    {
        let step = want_at(&request, 0);
        Admission {
            request,
            format,
            wanted: Vec::new(alloc),
            step,
        }
    }

    /// The request that is to be admitted.
    pub fn request(&self) -> &Fetch<A>
        ensures { result.now.asked ≡ asked_of self.now }
    {
        &self.request
    }

    /// What is asked next, or what came of it.
    pub fn step(&self) -> AdmissionStep
        ensures { result ≡ step_of self.now }
    {
        self.step
    }

    /// Whether the store has the wanted object that is asked about. Returns whether that was asked; else nothing changed.
    pub fn want(&mut self, has: bool) -> bool
        ensures { ReportsWant has self.old result self.new }
    {
        let AdmissionStep::AskWant(at) = self.step else {
            return false;
        };
        if !has {
            self.step = AdmissionStep::Refused(Kind::NotOurs);
            return true;
        }
        self.step = after_want(&self.request, at);
        true
    }

    /// The answer to the request, if the store has all that it asks for: its wanted references point to the objects that were reported.
    /// Else the admission goes on as it was.
    pub fn into_answer(self) -> Result<FetchAnswer<A>, Admission<A>>
        ensures { Becomes self result }
    {
        match self.step {
            AdmissionStep::Admitted => Ok(FetchAnswer::begin(
                self.request,
                self.wanted,
                self.format,
            )),
            _ => Err(self),
        }
    }
}

impl<A: Memory + Copy> Admission<A> {
    ghost use Rattle.git_msg.specs.Memory.{HasRefused};
    ghost use Rattle.git_host.specs.Admissions.{ReportsWantRef, wanted_by};

    /// The object of the wanted reference that is asked for, or that there is no such reference. Where memory runs out nothing changed.
    pub fn want_ref(&mut self, id: Option<Oid>) -> Result<WantRefReported, AllocError>
        ensures reports { ReportsWantRef id self.old result self.new }

        // Memory refused a list that was to have the objects kept so far and this one.
        ensures memory { OnErr result (HasRefused A.refuses (33 * (length (wanted_by self.old) + 1))) }
    {
        let AdmissionStep::AskWantRef(at) = self.step else {
            return Ok(WantRefReported::NotAsked);
        };
        let Some(id) = id else {
            self.step = AdmissionStep::Refused(Kind::UnknownRef);
            return Ok(WantRefReported::Taken);
        };
        if id.format() != self.format {
            return Ok(WantRefReported::MixedFormats);
        }
        A::reserve(&mut self.wanted, 1)?;
        self.wanted.push_reserved(id);
        self.step = after_want_ref(&self.request, at);
        Ok(WantRefReported::Taken)
    }
}

// What is asked from the wanted object at this place on.
fn want_at<A: Allocator + Copy>(request: &Fetch<A>, at: usize) -> AdmissionStep
    ensures { result ≡ want_step at (wants_in request.now.asked) (want_refs_in request.now.asked) }
{
    match request.wants().get(at) {
        Some(_) => AdmissionStep::AskWant(at),
        None => want_ref_at(request, 0),
    }
}

// What is asked after the wanted object at this place.
fn after_want<A: Allocator + Copy>(request: &Fetch<A>, at: usize) -> AdmissionStep
    ensures { at < length (wants_in request.now.asked) → result ≡ want_step (at + 1) (wants_in request.now.asked) (want_refs_in request.now.asked) }
{
    let count = request.wants().len();
    if at < count {
        return want_at(request, at + 1);
    }
    want_ref_at(request, 0)
}

// What is asked from the wanted reference at this place on.
fn want_ref_at<A: Allocator + Copy>(request: &Fetch<A>, at: usize) -> AdmissionStep
    ensures { result ≡ reference_step at (want_refs_in request.now.asked) }
{
    match request.want_ref(at) {
        Some(_) => AdmissionStep::AskWantRef(at),
        None => AdmissionStep::Admitted,
    }
}

// What is asked after the wanted reference at this place.
fn after_want_ref<A: Allocator + Copy>(request: &Fetch<A>, at: usize) -> AdmissionStep
    ensures { at < length (want_refs_in request.now.asked) → result ≡ reference_step (at + 1) (want_refs_in request.now.asked) }
{
    match request.want_ref(at) {
        Some(_) => want_ref_at(request, at + 1),
        None => AdmissionStep::Admitted,
    }
}
