//! Requests to which arguments are added. These functions promise nothing, which keeps the proofs of the tests that call them short.
use git_msg::{Argument, Command, Limits, ObjectWord, Request, TextWord};
use git_names::{Format, Oid};
use git_pkt::Kind;
use std::alloc::Allocator;

/// A request without arguments, in SHA-1.
pub fn new_request<A: Allocator + Copy>(alloc: A, command: Command, limits: Limits) -> Request<A> {
    Request::new(alloc, command, Format::Sha1, limits)
}

/// Adds a `ref-prefix`.
pub fn add_prefix<A: Allocator + Copy>(
    request: &mut Request<A>,
    prefix: &[u8],
) -> Result<(), Kind> {
    request.add(&Argument::Text(TextWord::RefPrefix, prefix))
}

/// Adds a `want-ref`.
pub fn add_name<A: Allocator + Copy>(request: &mut Request<A>, name: &[u8]) -> Result<(), Kind> {
    request.add(&Argument::Text(TextWord::WantRef, name))
}

/// Adds a `filter`.
pub fn add_filter<A: Allocator + Copy>(request: &mut Request<A>, spec: &[u8]) -> Result<(), Kind> {
    request.add(&Argument::Text(TextWord::Filter, spec))
}

/// Adds a `deepen-not`.
pub fn add_revision<A: Allocator + Copy>(
    request: &mut Request<A>,
    revision: &[u8],
) -> Result<(), Kind> {
    request.add(&Argument::Text(TextWord::DeepenNot, revision))
}

/// Adds a `want`.
pub fn add_want<A: Allocator + Copy>(request: &mut Request<A>, id: Oid) -> Result<(), Kind> {
    request.add(&Argument::Object(ObjectWord::Want, id))
}

/// Adds a `have`.
pub fn add_have<A: Allocator + Copy>(request: &mut Request<A>, id: Oid) -> Result<(), Kind> {
    request.add(&Argument::Object(ObjectWord::Have, id))
}

/// How many bytes the request keeps.
pub fn bytes_kept<A: Allocator + Copy>(request: &Request<A>) -> u32 {
    request.kept()
}

/// The `filter` at this index.
pub fn filter_at<A: Allocator + Copy>(request: &Request<A>, i: usize) -> Option<&[u8]> {
    request.arguments().text(TextWord::Filter, i)
}
