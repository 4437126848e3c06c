//! The answer to one `fetch`, gitprotocol-v2(5), over a store that is asked one question at a time: each packet is sent as soon as the
//! reports so far decide it.
//!
//! ```text
//!  Header --> Have .. Have --> (Nak) --> Ready --> Delimiter --> Shallow .. --> WantedHeader --> Wanted .. --> PackHeader --> Pack .. --> Whole
//!                                          |                                                                                   |
//!                                          +--> Whole, where no pack follows                                                   +--> Broken
//! ```

ghost use Rattle.std.specs.Prelude.{◌≡◌, ◌+◌, ◌<◌, ◌≤◌, ℕ, List, [], Some, true, false, length, slice_get};
ghost use Rattle.git_names.specs.ObjectName.{ObjectName};
ghost use Rattle.git_msg.specs.ResponseLines.{wanted_of, wanted_text};
ghost use Rattle.git_msg.specs.WrittenRequest.{text_line};
ghost use Rattle.git_server.specs.FetchAnswers.{ack_packet};
ghost use Rattle.git_host.specs.FetchPlaces.{Holds};
ghost use Rattle.git_pkt.specs.Bands.{band_packet};
ghost use Rattle.git_pkt.specs.Packets.{longest_payload, spelling_of};
ghost use Rattle.git_msg.specs.declared.flags.Flag.{Flag};
ghost use Rattle.git_msg.specs.Asked.{is_empty, only_negotiates, haves_in, want_refs_in, flag_among};
ghost use Rattle.git_server.specs.FetchAnswers.{negotiates};
ghost use Rattle.git_server.specs.Objects.{object_of};
ghost use Rattle.git_host.specs.FetchFacts.{may_have};
ghost use Rattle.git_host.specs.FetchPlaces.{after_boundary, after_haves, place_by};

use git_msg::{Boundary, Fetch, WantedRef, put_ack, put_boundary, put_line, put_wanted};
use git_names::{Format, Oid};
use git_pkt::{BAND_HEAD, Band, Hold, Packet, close_band, put, put_at, put_band};
use std::alloc::Allocator;

/// How far the answer has come: what is sent or asked next.
#[derive(Clone, Copy)]
enum Place {
    // The header of the acknowledgments.
    Header,
    // Whether the store has the object of the `have` line at this place; and whether it has one of an earlier line.
    Have(usize, bool),
    // The line `NAK`.
    Nak,
    // Whether the store is ready to send a pack, if one may follow.
    Ready,
    // The delimiter after the acknowledgments.
    Delimiter,
    // The next line of the shallow boundary; and whether there was one before it.
    Shallow(bool),
    // The first line of the boundary, after the header of its section.
    ShallowLine(Boundary),
    // The header of the wanted references.
    WantedHeader,
    // The line of the wanted reference at this place.
    Wanted(usize),
    // The delimiter after the wanted references.
    WantedEnd,
    // The header of the pack.
    PackHeader,
    // Bytes of the pack.
    Pack,
    Whole,
    Broken,
}

/// What is to be done next for an answer.
#[derive(Clone, Copy, Debug)]
pub enum Step {
    /// There is a packet to send.
    Packet,
    /// Whether the store has the object of the `have` line at this place.
    AskHave(usize),
    /// Whether the store is ready to send a pack.
    AskReady,
    /// The next line of the shallow boundary, or that there is none.
    AskBoundary,
    /// Bytes of the pack or of the progress, or that the pack has no more, or that it cannot be had.
    AskPack,
    /// The answer is whole.
    Whole,
    /// The answer broke off, since the pack could not be had.
    Broken,
}

/// What came of a line of the shallow boundary.
#[derive(Clone, Copy, Debug)]
pub enum BoundaryReported {
    /// There is a packet to send.
    Packet,
    /// It was not asked for. Nothing changed.
    NotAsked,
    /// Its object is not of the request's format. Nothing changed.
    MixedFormats,
    /// It is an `unshallow` line of a commit that the request does not call shallow. Nothing changed.
    NotShallow,
}

/// What came of the end of the shallow boundary.
#[derive(Clone, Copy, Debug)]
pub enum BoundaryEnd {
    /// It was not asked, and nothing changed.
    NotAsked,
    /// The boundary has no line, and there is no packet to send.
    Absent,
    /// The delimiter of its section is to be sent.
    Packet,
}

/// What came of bytes of the progress.
#[derive(Clone, Copy, Debug)]
pub enum ProgressReported {
    /// Their packet is to be sent.
    Packet,
    /// They were not asked for. Nothing changed.
    NotAsked,
    /// The request wants no progress: there is no packet to send, and nothing changed.
    Hidden,
}

/// The answer to one `fetch`, a packet at a time.
#[derive(Drop)]
pub struct FetchAnswer<A: Allocator + Copy> {
    request: Fetch<A>,
    format: Format,
    // The objects of its wanted references.
    wanted: Vec<Oid, A>,
    place: Place,
}

impl<A: Allocator + Copy> FetchAnswer<A> {
    ghost use Rattle.git_host.specs.FetchPlaces.{EndsBoundary, Steps, Represents, ReportsAlone, ReportsAndGives, WhereAsked};
    ghost use Rattle.git_host.specs.FetchPlaces.{ReportsLine, ReportsProgress, asked_of, format_of, is_line_at, place_of, request_of, step_of};
    ghost use Rattle.git_host.specs.FetchPlaces.{is_before_pack, is_boundary, is_asked, is_have, is_line_asked, is_pack, is_progress_asked, is_ready_asked};
    ghost use Rattle.git_host.specs.FetchPlaces.{with_have, with_pack, with_ready};
    ghost use Rattle.git_host.specs.FetchFacts.{no_facts};

    /// The answer to this request, before its first packet. Its object names have this format. Each of its wanted references
    /// points to the object at the same place.
    pub fn new(request: Fetch<A>, wanted: Vec<Oid, A>, format: Format) -> FetchAnswer<A>
        requires { length wanted.items ≡ length (want_refs_in request.asked) }
        ensures request { request_of result ≡ request }
        ensures format { format_of result ≡ format }
        ensures represents { Represents (no_facts wanted.items) [] result }
    {
        Self::begin(request, wanted, format)
    }

    /// The same, where the caller knows how many objects there are by what was reported.
    pub(crate) fn begin(request: Fetch<A>, wanted: Vec<Oid, A>, format: Format) -> FetchAnswer<A>
        ensures request { request_of result ≡ request }
        ensures format { format_of result ≡ format }
        ensures represents { length wanted.items ≡ length (want_refs_in request.asked) → Represents (no_facts wanted.items) [] result }
    {
        let place = first_place(&request);
        FetchAnswer {
            request,
            format,
            wanted,
            place,
        }
    }

    /// The request that is answered.
    pub fn request(&self) -> &Fetch<A>
        ensures { result.now.asked ≡ asked_of self.now }
    {
        &self.request
    }

    /// Gives the next packet, or what is to be done in its place.
    pub fn next(&mut self, hold: &mut Hold) -> Step
        ensures step { result ≡ step_of self.old }
        ensures steps { Steps self.old result hold.new.items self.new }
    {
        match self.place {
            Place::Have(next, _) => Step::AskHave(next),
            Place::Shallow(_) => Step::AskBoundary,
            Place::Pack => Step::AskPack,
            Place::Whole => Step::Whole,
            Place::Broken => Step::Broken,
            Place::Header => {
                put_line(hold, b"acknowledgments", b"");
                self.place = first_have(&self.request);
                Step::Packet
            }
            Place::Nak => {
                put_line(hold, b"NAK", b"");
                self.place = Place::Ready;
                Step::Packet
            }
            Place::Ready => {
                if !negotiates_alone(&self.request) {
                    return Step::AskReady;
                }
                put(hold, Packet::Flush);
                self.place = Place::Whole;
                Step::Packet
            }
            _ => {
                self.give_line(hold);
                Step::Packet
            }
        }
    }

    // Gives the next packet of the sections after the acknowledgments, where it depends on no report.
    fn give_line(&mut self, hold: &mut Hold)
        requires { is_line_at (place_of self.old) ≡ true }
        ensures { ReportsAndGives (λ t. t) self.old hold.new.items self.new }
    {
        match self.place {
            Place::Delimiter => {
                put(hold, Packet::Delim);
                self.place = Place::Shallow(false);
            }
            Place::ShallowLine(line) => {
                put_boundary(hold, &line);
                self.place = Place::Shallow(true);
            }
            Place::WantedHeader => {
                put_line(hold, b"wanted-refs", b"");
                self.place = Place::Wanted(0);
            }
            Place::Wanted(next) => {
                put_found(hold, &self.request, next, self.wanted.as_slice());
                self.place = after_wanted(&self.request, next);
            }
            Place::WantedEnd => {
                put(hold, Packet::Delim);
                self.place = Place::PackHeader;
            }
            Place::PackHeader => {
                put_line(hold, b"packfile", b"");
                self.place = Place::Pack;
            }
            _ => unreachable!(),
        }
    }

    /// The store has the object of the `have` line that is asked about: its `ACK` is sent. Returns whether that was asked.
    pub fn common(&mut self, hold: &mut Hold) -> bool
        ensures asked { result ≡ is_have (step_of self.old) }
        ensures reported { WhereAsked result (ReportsAndGives (with_have true) self.old hold.new.items self.new) self.old self.new }
    {
        let Place::Have(next, _) = self.place else {
            return false;
        };
        put_common(hold, &self.request, next);
        self.place = after_have(&self.request, next, true);
        true
    }

    /// The store does not have it. There is no packet to send. Returns whether that was asked.
    pub fn not_common(&mut self) -> bool
        ensures asked { result ≡ is_have (step_of self.old) }
        ensures reported { WhereAsked result (ReportsAlone (with_have false) self.old self.new) self.old self.new }
    {
        let Place::Have(next, any) = self.place else {
            return false;
        };
        self.place = after_have(&self.request, next, any);
        true
    }

    /// The store is ready to send a pack: `ready` is sent. Returns whether that was asked.
    pub fn ready(&mut self, hold: &mut Hold) -> bool
        ensures asked { result ≡ is_ready_asked (step_of self.old) }
        ensures reported { WhereAsked result (ReportsAndGives (with_ready true) self.old hold.new.items self.new) self.old self.new }
    {
        if !self.asks_ready() {
            return false;
        }
        put_line(hold, b"ready", b"");
        self.place = Place::Delimiter;
        true
    }

    /// The store is not ready: the flush that ends the answer is sent. Returns whether that was asked.
    pub fn not_ready(&mut self, hold: &mut Hold) -> bool
        ensures asked { result ≡ is_ready_asked (step_of self.old) }
        ensures reported { WhereAsked result (ReportsAndGives (with_ready false) self.old hold.new.items self.new) self.old self.new }
    {
        if !self.asks_ready() {
            return false;
        }
        put(hold, Packet::Flush);
        self.place = Place::Whole;
        true
    }

    /// A line of the shallow boundary. It is sent at once, but for the first: the header of the section is sent, and `next` gives the line.
    /// A line that no sound repository has for the request is refused.
    pub fn boundary(&mut self, line: Boundary, hold: &mut Hold) -> BoundaryReported
        ensures asked { is_line_asked result ≡ is_boundary (step_of self.old) }
        ensures reported { ReportsLine line result self.old hold.new.items self.new }
    {
        let Place::Shallow(any) = self.place else {
            return BoundaryReported::NotAsked;
        };
        if commit_of(&line).format() != self.format {
            return BoundaryReported::MixedFormats;
        }
        if !may_have(&line, self.request.shallows()) {
            return BoundaryReported::NotShallow;
        }
        if any {
            put_boundary(hold, &line);
            return BoundaryReported::Packet;
        }
        put_line(hold, b"shallow-info", b"");
        self.place = Place::ShallowLine(line);
        BoundaryReported::Packet
    }

    /// The boundary has no more lines. Returns whether that was asked, and whether there is a packet to send.
    pub fn boundary_end(&mut self, hold: &mut Hold) -> BoundaryEnd
        ensures asked { is_asked result ≡ is_boundary (step_of self.old) }
        ensures reported { EndsBoundary result self.old hold.new.items self.new }
    {
        let Place::Shallow(any) = self.place else {
            return BoundaryEnd::NotAsked;
        };
        self.place = after_boundary(&self.request);
        if !any {
            return BoundaryEnd::Absent;
        }
        put(hold, Packet::Delim);
        BoundaryEnd::Packet
    }

    /// Bytes of the pack, one at least and at most as many as fit into a packet: their packet is sent. Returns whether that was asked.
    pub fn pack(&mut self, bytes: &[u8], hold: &mut Hold) -> bool
        requires some { 0 < length bytes.now }
        requires fits { length bytes.now < longest_payload }
        ensures asked { result ≡ is_pack (step_of self.old) }
        ensures reported { WhereAsked result (ReportsAndGives (with_pack bytes.now) self.old hold.new.items self.new) self.old self.new }
    {
        let Place::Pack = self.place else {
            return false;
        };
        put_on_band(hold, Band::Pack, bytes);
        true
    }

    /// Bytes of the progress, a text for the client's user, as many as of the pack: their packet is sent, unless the request wants no
    /// progress.
    pub fn progress(&mut self, bytes: &[u8], hold: &mut Hold) -> ProgressReported
        requires some { 0 < length bytes.now }
        requires fits { length bytes.now < longest_payload }
        ensures asked { is_progress_asked result ≡ is_pack (step_of self.old) }
        ensures reported { ReportsProgress bytes.now result self.old hold.new.items self.new }
    {
        let Place::Pack = self.place else {
            return ProgressReported::NotAsked;
        };
        if drops_progress(&self.request) {
            return ProgressReported::Hidden;
        }
        put_on_band(hold, Band::Progress, bytes);
        ProgressReported::Packet
    }

    /// The pack has no more bytes: the flush that ends the answer is sent. Returns whether that was asked.
    pub fn pack_end(&mut self, hold: &mut Hold) -> bool
        ensures asked { result ≡ is_pack (step_of self.old) }
        ensures reported { WhereAsked result (ReportsAndGives (λ t. t) self.old hold.new.items self.new) self.old self.new }
        ensures whole { result ≡ true → step_of self.new ≡ Step.Whole }
    {
        let Place::Pack = self.place else {
            return false;
        };
        put(hold, Packet::Flush);
        self.place = Place::Whole;
        true
    }

    /// The rest of the pack cannot be had: a fatal error is sent, and the answer breaks off. Returns whether that was asked.
    pub fn pack_failed(&mut self, hold: &mut Hold) -> bool
        ensures asked { result ≡ is_pack (step_of self.old) }
        ensures reported { WhereAsked result (ReportsAndGives (λ t. t) self.old hold.new.items self.new) self.old self.new }
        ensures broken { result ≡ true → step_of self.new ≡ Step.Broken }
    {
        let Place::Pack = self.place else {
            return false;
        };
        put_band(hold, Band::Fatal, b"PackSource");
        self.place = Place::Broken;
        true
    }

    /// Whether something is asked that comes before the pack.
    pub(crate) fn asks_before_pack(&self) -> bool
        ensures { result ≡ is_before_pack (step_of self.now) }
    {
        match self.place {
            Place::Have(_, _) => true,
            Place::Shallow(_) => true,
            _ => self.asks_ready(),
        }
    }

    fn asks_ready(&self) -> bool
        ensures { result ≡ is_ready_asked (step_of self.now) }
    {
        match self.place {
            Place::Ready => !negotiates_alone(&self.request),
            _ => false,
        }
    }
}

// The commit of a line of the boundary.
fn commit_of(line: &Boundary) -> Oid
    ensures { result ≡ object_of line.now }
{
    match line {
        Boundary::Shallow(id) => *id,
        Boundary::Unshallow(id) => *id,
    }
}

// Whether progress is dropped, since the request wants none.
fn drops_progress<A: Allocator + Copy>(request: &Fetch<A>) -> bool
    ensures { result ≡ flag_among request.now.asked Flag.NoProgress }
{
    request.no_progress()
}

// Whether the line is no `unshallow` line, or that of one of these commits.
fn may_have(line: &Boundary, shallows: &[Oid]) -> bool
    ensures { result ≡ may_have shallows.now line.now }
{
    match line {
        Boundary::Shallow(_) => true,
        Boundary::Unshallow(id) => shallows.iter().any(|shallow| shallow.cmp(id).is_eq()),
    }
}

fn negotiates_alone<A: Allocator + Copy>(request: &Fetch<A>) -> bool
    ensures { result ≡ only_negotiates request.now.asked }
{
    request.wait_for_done() && !request.done()
}

// Where the answer to a request begins.
fn first_place<A: Allocator + Copy>(request: &Fetch<A>) -> Place
    ensures { result ≡ place_by (negotiates request.now.asked) }
{
    if request.done() {
        return Place::Shallow(false);
    }
    if request.haves().is_empty() && !request.wait_for_done() {
        return Place::Shallow(false);
    }
    Place::Header
}

// The place from the first have on.
fn first_have<A: Allocator + Copy>(request: &Fetch<A>) -> Place
    ensures more { 0 < length (haves_in request.now.asked) → result ≡ Place.Have 0 false }
    ensures over { length (haves_in request.now.asked) ≤ 0 → result ≡ after_haves false }
{
    if request.haves().is_empty() {
        return Place::Nak;
    }
    Place::Have(0, false)
}

// The place after a have, where one was common so far or none was.
fn after_have<A: Allocator + Copy>(request: &Fetch<A>, at: usize, any: bool) -> Place
    ensures more { at + 1 < length (haves_in request.now.asked) → result ≡ Place.Have (at + 1) any }
    ensures over { length (haves_in request.now.asked) ≤ at + 1 → result ≡ after_haves any }
{
    let count = request.haves().len();
    if at < count && at + 1 < count {
        return Place::Have(at + 1, any);
    }
    if any {
        return Place::Ready;
    }
    Place::Nak
}

// The place after the shallow boundary.
fn after_boundary<A: Allocator + Copy>(request: &Fetch<A>) -> Place
    ensures { result ≡ after_boundary (is_empty (want_refs_in request.now.asked)) }
{
    if request.want_ref(0).is_none() {
        return Place::PackHeader;
    }
    Place::WantedHeader
}

// The place after a wanted reference.
fn after_wanted<A: Allocator + Copy>(request: &Fetch<A>, at: usize) -> Place
    ensures more { at + 1 < length (want_refs_in request.now.asked) → result ≡ Place.Wanted (at + 1) }
    ensures over { length (want_refs_in request.now.asked) ≤ at + 1 → result ≡ Place.WantedEnd }
{
    match request.want_ref(at) {
        Some(_) => wanted_at(request, at + 1),
        None => Place::WantedEnd,
    }
}

fn wanted_at<A: Allocator + Copy>(request: &Fetch<A>, at: usize) -> Place
    ensures more { at < length (want_refs_in request.now.asked) → result ≡ Place.Wanted at }
    ensures over { length (want_refs_in request.now.asked) ≤ at → result ≡ Place.WantedEnd }
{
    if request.want_ref(at).is_none() {
        return Place::WantedEnd;
    }
    Place::Wanted(at)
}

// Makes the hold the packet of these bytes on a band. A hold that is at least as long is written over, as after another full packet: one
// that is emptied is filled with zeros, and writing those costs as much as the packet.
fn put_on_band(hold: &mut Hold, band: Band, bytes: &[u8])
    requires { length bytes.now < longest_payload }
    ensures { hold.new.items ≡ spelling_of (band_packet band bytes.now) }
{
    let length = BAND_HEAD + bytes.len();
    if hold.len() < length {
        put_band(hold, band, bytes);
        return;
    }
    hold.truncate(length);
    put_at(hold.as_mut_slice(), BAND_HEAD, bytes);
    close_band(hold, band, bytes.len());
}

// Makes the hold the line of the have at this place, where there is one.
fn put_common<A: Allocator + Copy>(hold: &mut Hold, request: &Fetch<A>, at: usize)
    ensures { (id : ObjectName) → slice_get (haves_in request.now.asked) at ≡ Some id → Holds hold.new.items (ack_packet id) }
{
    match request.haves().get(at) {
        Some(id) => put_ack(hold, id),
        None => {}
    }
}

// Makes the hold the line of the wanted reference at this place, where there is one, with its object.
fn put_found<A: Allocator + Copy>(hold: &mut Hold, request: &Fetch<A>, at: usize, wanted: &[Oid])
    ensures { (name : List ℕ) (id : ObjectName) → slice_get (want_refs_in request.now.asked) at ≡ Some name → slice_get wanted.now at ≡ Some id
        → Holds hold.new.items (text_line (wanted_text (wanted_of id name))) }
{
    let Some(name) = request.want_ref(at) else {
        return;
    };
    let Some(id) = wanted.get(at) else {
        return;
    };
    put_wanted(hold, WantedRef { id: *id, name });
}
