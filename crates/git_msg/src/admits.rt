//! What may refuse a well-formed argument of a request.

ghost use Rattle.std.specs.Prelude.{◌≡◌, ◌≢◌, IfSome, Option};
ghost use Rattle.git_pkt.specs.declared.fault.Kind.{Kind};
ghost use Rattle.git_msg.specs.Arguments.{Arg, shown};
ghost use Rattle.git_msg.specs.Admission.{nothing_barred};

use crate::arguments::Argument;
use git_pkt::Kind;

/// What may refuse a well-formed argument of a request: a server's repository, or nothing.
pub trait Admits {
    /// The error if the argument is refused.
    ghost refused_as: { Self → Arg → Option Kind };

    /// The error, if it refuses the argument.
    fn refusal_of(&self, argument: &Argument<'_>) -> Option<Kind>
        ensures value { result ≡ refused_as self.now (shown argument.now) }

        // It never refuses for lack of memory.
        ensures own { IfSome result (λ kind. kind ≢ Kind.OutOfMemory) };
}

/// Refuses no argument.
#[derive(Clone, Copy, Debug)]
pub struct AdmitsAll;

impl Admits for AdmitsAll {
    ghost refused_as = { λ all. nothing_barred };

    fn refusal_of(&self, _argument: &Argument<'_>) -> Option<Kind> {
        None
    }
}
