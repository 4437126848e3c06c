//! The answer to `ls-refs`, one packet at a time. It uses binary search on the prefixes of the request and on the references.

ghost use Rattle.std.specs.Prelude.{◌≡◌, ◌<◌, ◌≤◌, ℕ, [], ◌∷◌, IfSome, MatchOption, true, false};
ghost use Rattle.std.specs.Prelude.{drop, length, slice_index_or};
ghost use Rattle.git_names.specs.RefName.{IsRefName};
ghost use Rattle.git_pkt.specs.Machine.PacketReader.{is_open};
ghost use Rattle.git_msg.specs.Prefixes.{IsOrdered, SplitsAt};
ghost use Rattle.git_server.specs.Machine.AnsweredRequest.{AnswersOne};
ghost use Rattle.git_server.specs.Answers.{is_shown, reference_packet, shown_refs, unborn_packet, unborn_packets};
ghost use Rattle.git_server.specs.NextShown.{NextShown};
ghost use Rattle.git_server.specs.Machine.WrittenPackets.{Writes};
ghost use Rattle.git_server.specs.Repository.{Entry, HasOneFormat, IsRising, comes_before};
ghost use Rattle.git_msg.specs.Asked.{ref_prefixes_in, peel_in, symrefs_in};

use crate::entry::RefEntry;
use crate::entry_lines::{asks_for_unborn, entry_line, unborn_line};
use crate::packets::write_packet;
use crate::repo::Repo;
use git_msg::{Listing, put_reference};
use git_pkt::{Packet, PacketReader};
use std::alloc::Allocator;

/// The part of an answer for references that is sent next, gitprotocol-v2(5).
#[derive(Clone, Copy, Debug)]
pub(crate) enum ReferencesPlace {
    /// An unborn `HEAD`, if one is shown; then the references.
    First,
    /// The first reference at this index or after it that is shown.
    Entry(usize),
}

/// Writes the next packet of the answer into the reader's buffer, and returns the part after it. Nothing comes after the flush that
/// ends the answer.
pub(crate) fn write_references<R: Repo, A: Allocator + Copy>(
    repo: &R,
    listing: &Listing<A>,
    place: ReferencesPlace,
    reader: &mut PacketReader,
) -> Option<ReferencesPlace>
    requires between { is_open reader.old ≡ false }
    requires ordered { IsOrdered (ref_prefixes_in listing.now.asked) }
    ensures { AnswersOne listing.now.asked (R.state repo.now).answers place reader.old result reader.new }
{
    match place {
        ReferencesPlace::First => match shown_unborn(repo, listing) {
            Some(target) => {
                write_unborn(reader, target);
                Some(ReferencesPlace::Entry(0))
            }
            None => answer_entry(repo, listing, 0, reader),
        },
        ReferencesPlace::Entry(next) => answer_entry(repo, listing, next, reader),
    }
}

// Writes the line of the first shown reference at `next` or after it, or else the flush.
fn answer_entry<R: Repo, A: Allocator + Copy>(
    repo: &R,
    listing: &Listing<A>,
    next: usize,
    reader: &mut PacketReader,
) -> Option<ReferencesPlace>
    requires between { is_open reader.old ≡ false }
    requires ordered { IsOrdered (ref_prefixes_in listing.now.asked) }
    ensures { AnswersOne listing.now.asked (R.state repo.now).answers (ReferencesPlace.Entry next) reader.old result reader.new }
{
    let refs = repo.refs();
    match next_shown(refs, listing, next) {
        Some(at) => {
            write_entry(reader, &refs[at], listing);
            Some(ReferencesPlace::Entry(at + 1))
        }
        None => {
            write_packet(reader, Packet::Flush);
            None
        }
    }
}

// The name that an unborn `HEAD` points to, if the request asks for it.
fn shown_unborn<'a, R: Repo, A: Allocator + Copy>(
    repo: &'a R,
    listing: &Listing<A>,
) -> Option<&'a [u8]>
    requires { IsOrdered (ref_prefixes_in listing.now.asked) }
    ensures shown { MatchOption result (unborn_packets listing.now.asked (R.state repo.now).answers.unborn_head ≡ [])
        (λ target. unborn_packets listing.now.asked (R.state repo.now).answers.unborn_head ≡ unborn_packet target.now ∷ []) }
    ensures name { IfSome result (λ target. IsRefName target.now) }
{
    if !asks_for_unborn(listing) {
        return None;
    }
    repo.unborn_head()
}

// Sets the buffer to the line of an unborn `HEAD`.
#[tactic(auto, using(crate::proofs::WrittenHolds::line_written))]
fn write_unborn(reader: &mut PacketReader, target: &[u8])
    requires between { is_open reader.old ≡ false }
    requires name { IsRefName target.now }
    ensures { Writes reader.old (unborn_packet target.now) reader.new }
{
    put_reference(reader.lend(), unborn_line(target));
    let _ = reader.hold();
}

// Sets the buffer to the line of a reference.
#[tactic(auto, using(crate::proofs::WrittenHolds::line_written))]
fn write_entry<A: Allocator + Copy>(
    reader: &mut PacketReader,
    entry: &RefEntry,
    listing: &Listing<A>,
)
    requires between { is_open reader.old ≡ false }
    requires format { HasOneFormat entry.now }
    ensures { Writes reader.old (reference_packet (symrefs_in listing.now.asked) (peel_in listing.now.asked) entry.now) reader.new }
{
    put_reference(reader.lend(), entry_line(entry, listing));
    let _ = reader.hold();
}

/// The index of the first reference, at `from` or after it, that the request asks for.
pub(crate) fn next_shown<A: Allocator + Copy>(
    refs: &[RefEntry],
    listing: &Listing<A>,
    from: usize,
) -> Option<usize>
    requires rising { IsRising refs.now }
    requires ordered { IsOrdered (ref_prefixes_in listing.now.asked) }
    ensures { NextShown (ref_prefixes_in listing.now.asked) refs.now from result }
{
    let mut at = from;
    while at < refs.len() {
        let name = refs[at].name();
        let split = listing.split(name);
        if listing.shows_at(split, name) {
            return Some(at);
        }
        at = past_hidden(refs, listing, at, split);
    }
    None
}

// Skips a reference that is not shown, and those after it that come before the next prefix: none of them is shown.
fn past_hidden<A: Allocator + Copy>(
    refs: &[RefEntry],
    listing: &Listing<A>,
    at: usize,
    split: usize,
) -> usize
    requires rising { IsRising refs.now }
    requires ordered { IsOrdered (ref_prefixes_in listing.now.asked) }
    requires within { at < length refs.now }
    requires split { (d : Entry) → SplitsAt (ref_prefixes_in listing.now.asked) (slice_index_or refs.now at d).name split }
    requires hidden { (d : Entry) → is_shown (ref_prefixes_in listing.now.asked) (slice_index_or refs.now at d).name ≡ false }
    ensures onward { at < result }
    ensures within { result ≤ length refs.now }
    ensures same { shown_refs (ref_prefixes_in listing.now.asked) (drop result refs.now) ≡ shown_refs (ref_prefixes_in listing.now.asked) (drop at refs.now) }
{
    match listing.ref_prefix(split) {
        Some(next) => first_from(refs, next, at + 1),
        None => refs.len(),
    }
}

// Skips the references from this index on that come before the text.
fn first_from(refs: &[RefEntry], text: &[u8], from: usize) -> usize
    requires rising { IsRising refs.now }
    requires within { from ≤ length refs.now }
    ensures onward { from ≤ result }
    ensures within { result ≤ length refs.now }
    ensures before { (k : ℕ) (d : Entry) → from ≤ k → k < result → comes_before (slice_index_or refs.now k d).name text.now ≡ true }
{
    let mut low = from;
    let mut high = refs.len();
    while low < high {
        let middle = low + (high - low) / 2;
        if refs[middle].name().cmp(text).is_lt() {
            low = middle + 1;
        } else {
            high = middle;
        }
    }
    low
}
