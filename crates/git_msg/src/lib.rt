//! The messages of Git's wire protocol: capability lines and the content of an advertisement, requests as they are read,
//! kept and written, and the lines of responses.
#![tactic(auto)]

mod admits;
mod agent;
mod arguments;
mod capabilities;
mod capability_key;
mod fetch;
mod flags;
mod judge;
mod kept;
pub mod laws;
mod limits;
mod listing;
mod lists;
mod ls_refs;
mod memory;
mod numbers;
mod object_info;
mod offers;
mod parts;
mod reader;
mod reference_lines;
mod reference_places;
mod references;
mod requests;
mod response_lines;
mod streams;
mod texts;
mod words;
mod writer;
mod writing;

pub use crate::admits::{Admits, AdmitsAll};
pub use crate::agent::Agent;
pub use crate::arguments::{Argument, Command, read_argument, word_at};
pub use crate::capabilities::{Capability, read_capability};
pub use crate::fetch::Fetch;
pub use crate::flags::Flag;
pub use crate::kept::KeptArguments;
pub use crate::limits::Limits;
pub use crate::listing::Listing;
pub use crate::ls_refs::LsRefs;
pub use crate::memory::Memory;
pub use crate::numbers::read_number;
pub use crate::object_info::ObjectInfo;
pub use crate::offers::{Caps, Offer};
pub use crate::reader::{ReadGot, RequestReader};
pub use crate::reference_lines::{locate_reference, read_reference};
pub use crate::reference_places::ReferencePlaces;
pub use crate::references::{Reference, put_reference};
pub use crate::requests::Request;
pub use crate::response_lines::{
    Boundary, Info, WantedRef, put_ack, put_boundary, put_info, put_wanted, read_ack,
    read_boundary, read_info, read_wanted,
};
pub use crate::streams::{ReadRequest, RequestStream};
pub use crate::texts::{after, error_message, is_error, is_word, split_at_first};
pub use crate::words::{NumberWord, ObjectWord, TextWord, Word};
pub use crate::writer::RequestWriter;
pub use crate::writing::put_line;
