//! How sessions end.

use git_pkt::Fault;

/// How a session ended.
#[derive(Clone, Copy, Debug, PartialEq, Eq)]
pub enum Outcome {
    /// The client left: it sent a flush instead of a request.
    Flush,
    /// The input ended between two requests.
    Closed,
    /// A packet or a byte was refused, the input ended inside a request, or a read of the pack failed (`PackSource`).
    Refused(Fault),
}
