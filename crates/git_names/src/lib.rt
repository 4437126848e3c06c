//! Names in Git's protocol: object formats, object names and reference names, read from untrusted bytes and written back;
//! the hexadecimal digits of the protocol; and the counter of steps that contracts cite.
#![tactic(auto)]

mod counter;
mod digits;
mod fault;
pub mod laws;
mod object_format;
mod object_name;
mod reference;

pub use crate::counter::Steps;
pub use crate::digits::{digit_value, lower_digit};
pub use crate::fault::NameFault;
pub use crate::object_format::Format;
pub use crate::object_name::Oid;
pub use crate::reference::RefName;
