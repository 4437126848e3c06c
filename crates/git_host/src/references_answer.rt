//! The answer to one `ls-refs`, gitprotocol-v2(5), over a store that is asked: its references are reported one after another, in the
//! order of their names, and the line of each that the request asks for is sent at once. Only the last one is kept.

ghost use Rattle.std.specs.Prelude.{◌≡◌, ◌≤◌, ℕ, ◌∷◌, ◌++◌, Err, List, length};
ghost use Rattle.git_names.specs.RefName.{IsRefName};
ghost use Rattle.git_msg.specs.Asked.{peel_in, ref_prefixes_in, symrefs_in};
ghost use Rattle.git_msg.specs.Memory.{HasRefused};
ghost use Rattle.git_msg.specs.Prefixes.{IsOrdered, is_shown};
ghost use Rattle.git_server.specs.Answers.{reference_packet, unborn_packet};
ghost use Rattle.git_server.specs.Repository.{HasOneFormat};
ghost use Rattle.git_host.specs.ReferencesPlaces.{after_entry, comes_after};
ghost use Rattle.git_host.specs.FetchPlaces.{Holds};

use crate::last_name::LastName;
use crate::next_name::{NextName, judge_name};
use crate::report::ReferenceFault;
use git_msg::{Listing, LsRefs, Memory, is_word, put_reference};
use git_names::Format;
use git_pkt::{Hold, Packet, put};
use git_server::{RefEntry, asks_for_unborn, entry_line, unborn_line};
use std::alloc::Allocator;

/// How far the answer has come.
#[derive(Clone, Copy)]
enum ReferencesPlace {
    // Nothing was reported.
    First,
    // References are reported, and `HEAD` may be one of them.
    Entries,
    // References are reported, and `HEAD` is unborn.
    AfterUnborn,
    Whole,
}

/// What came of a report.
#[derive(Clone, Copy, Debug, PartialEq, Eq)]
pub enum Reported {
    /// Its packet is to be sent.
    Packet,
    /// The request does not ask for it: there is no packet to send.
    Hidden,
    /// It does not come after the reference that was reported before it. Nothing changed.
    Unsorted,
    /// Its object names are not of the format. Nothing changed.
    MixedFormats,
    /// It is `HEAD`, which was reported as unborn. Nothing changed.
    HeadTwice,
    /// It was not asked for. Nothing changed.
    NotAsked,
}

/// The answer to one `ls-refs`, a packet at a time.
#[derive(Drop)]
pub struct ReferencesAnswer<A: Allocator + Copy> {
    listing: Listing<A>,
    format: Format,
    last: LastName<A>,
    place: ReferencesPlace,
}

impl<A: Allocator + Copy> ReferencesAnswer<A> {
    ghost use Rattle.git_msg.specs.Asked.{ls_refs};
    ghost use Rattle.git_host.specs.HostLookups.{references_asked};
    ghost use Rattle.git_host.specs.ReferencesPlaces.{Ends, KeepsAs, Reports, ReportsUnborn, Starts};
    ghost use Rattle.git_host.specs.ReferencesPlaces.{format_of, last_reported, peel_of, refuses_head, symrefs_of};

    /// The answer to this request, before anything was reported for it.
    pub fn new(request: LsRefs<A>, format: Format) -> ReferencesAnswer<A>
        ensures starts { Starts request.asked result }
        ensures keeps { KeepsAs request result }
        ensures format { format_of result ≡ format }
    {
        let mut listing = Listing::new(request);
        listing.put_in_order();
        ReferencesAnswer {
            listing,
            format,
            last: LastName::Nothing,
            place: ReferencesPlace::First,
        }
    }

    /// The request that is answered, with its prefixes in their order.
    pub fn listing(&self) -> &Listing<A>
        ensures { ls_refs result.now.asked ≡ references_asked self.now }
    {
        &self.listing
    }

    /// `HEAD` is unborn, and points to this name: reported before any reference, or not at all.
    pub fn unborn(&mut self, target: &[u8], hold: &mut Hold) -> Reported
        requires { IsRefName target.now }
        ensures { ReportsUnborn target.now self.old result hold.new.items self.new }
    {
        let ReferencesPlace::First = self.place else {
            return Reported::NotAsked;
        };
        self.listing.put_in_order();
        self.place = ReferencesPlace::AfterUnborn;
        if !asks_for_unborn(&self.listing) {
            return Reported::Hidden;
        }
        put_unborn(hold, target);
        Reported::Packet
    }

    /// A reference, which has to come after those reported before it.
    pub fn reference(&mut self, entry: RefEntry, hold: &mut Hold) -> Reported
        ensures { Reports entry self.old result hold.new.items self.new }
    {
        if let ReferencesPlace::Whole = self.place {
            return Reported::NotAsked;
        }
        if !entry.is_of(self.format) {
            return Reported::MixedFormats;
        }
        if self.refuses_head(&entry) {
            return Reported::HeadTwice;
        }
        if !self.comes_next(&entry) {
            return Reported::Unsorted;
        }
        self.listing.put_in_order();
        self.place = after_reference(self.place);
        if !shows(&self.listing, &entry) {
            self.last = LastName::Entry(entry);
            return Reported::Hidden;
        }
        put_entry(hold, &entry, &self.listing);
        self.last = LastName::Entry(entry);
        Reported::Packet
    }

    /// There are no more references: the flush that ends the answer is sent. Returns whether that was asked.
    pub fn end(&mut self, hold: &mut Hold) -> bool
        ensures { Ends self.old result hold.new.items self.new }
    {
        if let ReferencesPlace::Whole = self.place {
            return false;
        }
        put(hold, Packet::Flush);
        self.place = ReferencesPlace::Whole;
        true
    }

    /// Whether the request asks for the names that references point to.
    pub(crate) fn symrefs(&self) -> bool
        ensures { result ≡ symrefs_of self.now }
    {
        self.listing.symrefs()
    }

    /// Whether it asks for the objects that annotated tags peel to.
    pub(crate) fn peel(&self) -> bool
        ensures { result ≡ peel_of self.now }
    {
        self.listing.peel()
    }

    // Whether the reference is `HEAD`, where that is unborn.
    fn refuses_head(&self, entry: &RefEntry) -> bool
        ensures { result ≡ refuses_head self.now entry.now.name }
    {
        self.is_second_head(entry.name())
    }

    // The same by its name.
    fn is_second_head(&self, name: &[u8]) -> bool
        ensures { result ≡ refuses_head self.now name.now }
    {
        match self.place {
            ReferencesPlace::AfterUnborn => is_word(name, b"HEAD"),
            _ => false,
        }
    }

    // Whether a reference comes after the one that was reported last.
    fn comes_next(&self, entry: &RefEntry) -> bool
        ensures { result ≡ comes_after (last_reported self.now) entry.now.name }
    {
        match self.last.name() {
            Some(last) => last.cmp(entry.name()).is_lt(),
            None => true,
        }
    }
}

impl<A: Memory + Copy> ReferencesAnswer<A> {
    ghost use Rattle.git_host.specs.ReferencesPlaces.{TakesReference};

    /// A reference with this name and objects of this format, which has to come after those reported before it. If it has a packet, that is its
    /// line, which is still to be written.
    pub(crate) fn take_reference(
        &mut self,
        alloc: A,
        format: Format,
        name: &[u8],
    ) -> Result<Reported, ReferenceFault>
        ensures takes { TakesReference format name.now self.old result self.new }
        ensures memory { result ≡ Err ReferenceFault.OutOfMemory → HasRefused A.refuses (length name.now) }
    {
        let found = judge_name(self.last.name(), name);
        if let NextName::Bad = found {
            return Err(ReferenceFault::BadRefName);
        }
        if let ReferencesPlace::Whole = self.place {
            return Ok(Reported::NotAsked);
        }
        if format != self.format {
            return Ok(Reported::MixedFormats);
        }
        if self.is_second_head(name) {
            return Ok(Reported::HeadTwice);
        }
        if let NextName::Unsorted = found {
            return Ok(Reported::Unsorted);
        }
        match self.last.keep(alloc, name) {
            Ok(()) => {}
            Err(_) => return Err(ReferenceFault::OutOfMemory),
        }
        self.listing.put_in_order();
        self.place = after_reference(self.place);
        if !shows_name(&self.listing, name) {
            return Ok(Reported::Hidden);
        }
        Ok(Reported::Packet)
    }
}

// The place after a reference.
fn after_reference(place: ReferencesPlace) -> ReferencesPlace
    ensures { result ≡ after_entry place }
{
    match place {
        ReferencesPlace::First => ReferencesPlace::Entries,
        place => place,
    }
}

fn shows<A: Allocator + Copy>(listing: &Listing<A>, entry: &RefEntry) -> bool
    requires { IsOrdered (ref_prefixes_in listing.now.asked) }
    ensures { result ≡ is_shown (ref_prefixes_in listing.now.asked) entry.now.name }
{
    shows_name(listing, entry.name())
}

fn shows_name<A: Allocator + Copy>(listing: &Listing<A>, name: &[u8]) -> bool
    requires { IsOrdered (ref_prefixes_in listing.now.asked) }
    ensures { result ≡ is_shown (ref_prefixes_in listing.now.asked) name.now }
{
    listing.shows_at(listing.split(name), name)
}

// Makes the hold the line of an unborn `HEAD`.
#[tactic(auto, using(crate::proofs::FetchMoves::line_held))]
fn put_unborn(hold: &mut Hold, target: &[u8])
    requires { IsRefName target.now }
    ensures { Holds hold.new.items (unborn_packet target.now) }
{
    put_reference(hold, unborn_line(target));
}

// Makes the hold the line of a reference.
#[tactic(auto, using(crate::proofs::FetchMoves::line_held))]
fn put_entry<A: Allocator + Copy>(hold: &mut Hold, entry: &RefEntry, listing: &Listing<A>)
    requires { HasOneFormat entry.now }
    ensures { Holds hold.new.items (reference_packet (symrefs_in listing.now.asked) (peel_in listing.now.asked) entry.now) }
{
    put_reference(hold, entry_line(entry, listing));
}
