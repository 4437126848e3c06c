//! How the sides of all cases are set up, and numbers that no case reaches.

ghost use Rattle.std.specs.Prelude.{◌≡◌};

use git_msg::{Agent, Limits, Offer};
use git_names::Format;

/// More reads than any run makes.
pub const TURNS: u64 = 1_073_741_824;

/// More packets than any request or answer has, and more texts than any request.
pub const MANY: usize = 100_000;

/// The last position of a stream.
pub const LAST_POSITION: u64 = 9_223_372_036_854_775_807;

/// The most bytes that the texts of a request's arguments may have.
pub const MOST_KEPT: u32 = 1_073_741_824;

/// Everything that may be advertised, in this format, except the features of `fetch` and the command `object-info` if they are left out.
pub fn offer(format: Format, features: bool) -> Offer
    ensures format { result.format ≡ format }
{
    if features {
        return Offer::everything(format);
    }
    Offer {
        server_option: true,
        ..Offer::nothing(format)
    }
}

/// The same by this agent.
pub fn offer_by(agent: Agent, format: Format, features: bool) -> Offer
    ensures format { result.format ≡ format }
{
    Offer {
        agent,
        ..offer(format, features)
    }
}

/// The limit of a case, or the highest one.
pub fn limits(args: u32) -> Limits {
    Limits {
        args: args.min(MOST_KEPT),
    }
}
