//! The line of a reference, and of an unborn `HEAD`, with the attributes that a request asks for.

ghost use Rattle.std.specs.Prelude.{◌≡◌, ℕ, List, Some, None, codes, if◌then◌else◌};
ghost use Rattle.std.specs.Option.{option_copied};
ghost use Rattle.git_names.specs.RefName.{IsRefName};
ghost use Rattle.git_msg.specs.Prefixes.{IsOrdered};
ghost use Rattle.git_msg.specs.References.{IsWritable, reference_of, shown_reference};
ghost use Rattle.git_server.specs.Answers.{asks_for_unborn as asks, shown_line};
ghost use Rattle.git_server.specs.Repository.{HasOneFormat};
ghost use Rattle.git_msg.specs.Asked.{ref_prefixes_in, peel_in, symrefs_in};

use crate::entry::RefEntry;
use git_msg::{Listing, Reference};
use git_names::Oid;
use std::alloc::Allocator;

/// The line of a reference, with the attributes that the request asks for.
pub fn entry_line<'a, A: Allocator + Copy>(
    entry: &'a RefEntry,
    listing: &Listing<A>,
) -> Reference<'a>
    requires { HasOneFormat entry.now }
    ensures shown { shown_reference result ≡ shown_line (symrefs_in listing.now.asked) (peel_in listing.now.asked) entry.now }
    ensures writable { IsWritable (shown_reference result) }
{
    Reference {
        id: Some(entry.id()),
        name: entry.name(),
        target: shown_target(entry, listing.symrefs()),
        peeled: shown_peeled(entry, listing.peel()),
    }
}

/// The line of an unborn `HEAD` that points to this name.
pub fn unborn_line(target: &[u8]) -> Reference<'_>
    requires { IsRefName target.now }
    ensures shown { shown_reference result ≡ reference_of None (codes "HEAD") (Some target.now) None }
    ensures writable { IsWritable (shown_reference result) }
{
    Reference {
        id: None,
        name: b"HEAD",
        target: Some(target),
        peeled: None,
    }
}

/// Whether the request asks for an unborn `HEAD`.
pub fn asks_for_unborn<A: Allocator + Copy>(listing: &Listing<A>) -> bool
    requires { IsOrdered (ref_prefixes_in listing.now.asked) }
    ensures { result ≡ asks listing.now.asked }
{
    listing.unborn() && listing.symrefs() && listing.shows_at(listing.split(b"HEAD"), b"HEAD")
}

fn shown_target(entry: &RefEntry, symrefs: bool) -> Option<&[u8]>
    ensures value { option_copied result ≡ (if symrefs then entry.now.target else None) }
    ensures name { (name : List ℕ) → option_copied result ≡ Some name → IsRefName name }
{
    if !symrefs {
        return None;
    }
    entry.target()
}

fn shown_peeled(entry: &RefEntry, peel: bool) -> Option<Oid>
    ensures { result ≡ (if peel then entry.now.peeled else None) }
{
    if !peel {
        return None;
    }
    entry.peeled()
}
