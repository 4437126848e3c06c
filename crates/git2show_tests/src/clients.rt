//! A client in steps that promise nothing, which keeps the proofs of the tests that call them short.
use crate::conversing::requests;
use git_client::{Client, Ending, Sent};
use git_names::Format;
use std::alloc::{Allocator, Global};
use std::process::Abort;
use std::test::Fail;

/// A client whose responses end with a flush alone, in SHA-1.
pub fn new_client<A: Allocator + Copy>() -> Client<A> {
    Client::new(Format::Sha1, Ending::FlushOnly)
}

/// Asks all requests of a script, for which the client is ready.
pub fn ask_all(
    rt: &(impl Abort + AllocGlobal),
    client: &mut Client<Global>,
    script: &[u8],
) -> Result<(), Fail> {
    for request in requests(rt, script)? {
        assert!(rt; client.can_ask());
        assert!(rt; client.ask(request).is_ok());
    }
    Ok(())
}

/// Takes the packets that the client has to send, at most this many.
pub fn send_all<A: Allocator + Copy>(client: &mut Client<A>, packets: usize) {
    for _ in 0..packets {
        if !matches!(client.pull(), Sent::Packet(_)) {
            return;
        }
    }
}
