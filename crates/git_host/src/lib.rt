//! The server's end over a store of the host's own, which is asked one thing after another: the answer to one request, and a whole session.
#![tactic(auto)]

mod admission;
mod fetch_answer;
mod host_answer;
mod host_server;
mod last_name;
pub mod laws;
mod next_name;
mod reference_texts;
mod references_answer;
mod report;
mod request_at_hand;
mod sizes_answer;
mod written_digits;

pub use admission::{Admission, AdmissionStep, WantRefReported};
pub use fetch_answer::{BoundaryEnd, BoundaryReported, FetchAnswer, ProgressReported, Step};
pub use host_server::{HostServer, LONGEST_REFUSAL};
pub use reference_texts::ReferenceTexts;
pub use references_answer::{ReferencesAnswer, Reported};
pub use report::{HostReported, HostStep, LONGEST_PART, Need, ReferenceFault, Report};
pub use request_at_hand::RequestAtHand;
pub use sizes_answer::{SizesAnswer, SizesStep};
