//! A host's own store, as a session asks it: one question after another. It answers each one, or fails.

ghost use Rattle.std.specs.Prelude.{◌≡◌, ◌<◌, IfOk, Some, codes, length};
ghost use Rattle.git_msg.specs.Asked.{Asked};
ghost use Rattle.git_store.specs.Questions.{Question, Reply, found, has, line, ready, replied, size_is};
ghost use Rattle.git_store.specs.Questions.{IsListedWithin, IsPartWithin, listed_in, part_in};
ghost use Rattle.git_host.specs.HostLookups.{asked_in};
ghost use Rattle.git_store.specs.Questions.{ask_boundary, ask_have, ask_pack, ask_reference, ask_size, ask_want, ask_want_ref};

use git_host::RequestAtHand;
use git_msg::{Boundary, Fetch};
use git_names::Oid;
use git_server::RefEntry;
use std::alloc::Allocator;
use std::error::Error;
use std::fmt;

/// A store cannot answer.
#[derive(Clone, Copy, Debug, PartialEq, Eq, Hash)]
pub struct StoreFault;

impl fmt::Display for StoreFault {
    ghost output = { λ fault. Some (codes "Store") };

    fn fmt<W: fmt::Write>(&self, f: &mut fmt::Formatter<W>) -> fmt::Result {
        f.write_str("Store")
    }
}

impl Error for StoreFault {}

/// What comes next of a pack.
#[derive(Clone, Copy, Debug, PartialEq, Eq)]
pub enum Part {
    /// Bytes of the pack: so many are at the front of the buffer.
    Pack(usize),
    /// A text for the client's user: so many bytes of it are at the front of the buffer.
    Progress(usize),
    /// The pack has no more bytes.
    End,
}

/// What comes next of the references.
#[derive(Drop)]
pub enum Listed {
    /// A reference, which comes after those before it in the order of the bytes of their names.
    Reference(RefEntry),
    /// `HEAD` is unborn, and points to the name of so many bytes at the front of the buffer. It comes before any reference.
    Unborn(usize),
    /// There are no more references.
    End,
}

/// A host's own store, as [`Hosted`](crate::Hosted) asks it.
///
/// It is asked for what a request needs, in the order of the answer, and each reply goes to the client at once: nothing is asked
/// twice, and nothing is asked any more once a call failed. Lines of a boundary, references and bytes of a pack are asked for until
/// the store replies that there are no more; `begin` is called before the first question about each request.
///
/// Nothing has to hold of the replies: one that no sound repository gives ends the session as a failure does. By its two relations an
/// implementation states as much of its replies as it likes, and a run states which of them it got.
pub trait Store {
    /// A request begins, and leads the store from the one state to the other.
    ghost begins: { Self → Asked → Self → Type 0 } = { λ old asked new. Unit {0} };
    /// The store may give this reply to the question, which leads it from the one state to the other.
    ghost replies: { Self → Question → Reply → Self → Type 0 } = { λ old question reply new. Unit {0} };

    /// A request comes, which is asked about from now on.
    fn begin<A: Allocator + Copy>(&mut self, request: &RequestAtHand<'_, A>)
        ensures { begins self.old (asked_in request.now) self.new };

    /// Whether the client may have the wanted object with this name.
    fn want(&mut self, id: &Oid) -> Result<bool, StoreFault>
        ensures { replies self.old (ask_want id.now) (replied has result) self.new };

    /// The object that the wanted reference with this name points to, if there is such a reference.
    fn want_ref(&mut self, name: &[u8]) -> Result<Option<Oid>, StoreFault>
        ensures { replies self.old (ask_want_ref name.now) (replied found result) self.new };

    /// Whether it has the object with this name, which the client has.
    fn have(&mut self, id: &Oid) -> Result<bool, StoreFault>
        ensures { replies self.old (ask_have id.now) (replied has result) self.new };

    /// Whether it is ready to send a pack for the request: the client has enough common objects.
    fn is_ready<A: Allocator + Copy>(&mut self, request: &Fetch<A>) -> Result<bool, StoreFault>
        ensures { replies self.old (ready request.now.asked) (replied has result) self.new };

    /// The next line of the shallow boundary for the request, if there is one more.
    fn boundary<A: Allocator + Copy>(
        &mut self,
        request: &Fetch<A>,
    ) -> Result<Option<Boundary>, StoreFault>
        ensures { replies self.old (ask_boundary request.now.asked) (replied line result) self.new };

    /// What comes next of the pack for the request, whose bytes go to the front of `out`.
    fn pack<A: Allocator + Copy>(
        &mut self,
        request: &Fetch<A>,
        out: &mut [u8],
    ) -> Result<Part, StoreFault>
        requires space { 0 < length out.old }
        ensures length { length out.new ≡ length out.old }
        ensures within { IfOk result (IsPartWithin (length out.new)) }
        ensures replies { replies self.old (ask_pack request.now.asked) (replied (part_in out.new) result) self.new };

    /// What comes next of the references. The name that an unborn `HEAD` points to goes to the front of `out`.
    fn reference(&mut self, out: &mut [u8]) -> Result<Listed, StoreFault>
        requires space { 0 < length out.old }
        ensures length { length out.new ≡ length out.old }
        ensures within { IfOk result (IsListedWithin (length out.new)) }
        ensures replies { replies self.old ask_reference (replied (listed_in out.new) result) self.new };

    /// The size in bytes of the object with this name, if it has the object.
    fn size(&mut self, id: &Oid) -> Result<Option<u64>, StoreFault>
        ensures { replies self.old (ask_size id.now) (replied size_is result) self.new };
}
