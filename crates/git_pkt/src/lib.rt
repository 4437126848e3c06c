//! Packets of Git's wire protocol, over chunks of any size.
#![tactic(auto)]

mod band;
mod calls;
mod digits;
mod engine;
mod escape;
mod fault;
mod hold;
pub mod laws;
mod output;
mod packet;
mod progress;
mod reader;
mod recorded;
mod retries;
mod stops;

pub use band::{BAND_HEAD, Band, close_band, open_band, put_band, split_band};
pub use calls::{ReadCalls, WriteCalls};
pub use engine::{flush, receive, send};
pub use escape::{escape_into, is_plain};
pub use fault::{Fault, Kind, RunFault};
pub use hold::{Hold, LONGEST_PACKET, append, put_at};
pub use output::{Discard, Output};
pub use packet::{Packet, begin, front_packet, put, text};
pub use reader::{BandFed, BandGot, Fed, Got, PacketReader};
pub use recorded::Recorded;
pub use retries::Retries;
pub use stops::Stops;
