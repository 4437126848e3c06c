//! The fetching client of Git's wire protocol, version 2, over chunks of any size.
#![tactic(auto)]

mod asking;
mod choosing;
mod client;
mod conversing;
mod event_parts;
mod events;
mod gathered;
mod judge;
mod judge_lines;
pub mod laws;
mod line;
mod outputs;
mod phase;
mod receiver;
mod receiving;
mod sections;
mod transcript;

pub use crate::client::Client;
pub use crate::conversing::{ask_next, ask_unsent, converse};
pub use crate::event_parts::{EventKind, EventParts};
pub use crate::events::{Ending, Event, Received, ReceivedGot, Sent};
pub use crate::gathered::{Gathered, GatheredLines, gather_chunk};
pub use crate::receiving::{Counts, receive_chunk};
pub use crate::sections::Section;
pub use crate::transcript::{write_asked, write_event};
