//! Git's wire protocol, for programs in C: each export does to what its handle has what a library's method does, and checks its handle,
//! buffers and numbers.
#![tactic(auto)]

mod answer;
mod buffers;
mod checker;
mod client;
mod escape;
mod event;
mod event_list;
mod faults;
mod gatherer;
mod greetings;
mod handles;
mod held;
mod host;
mod host_reports;
mod host_request;
mod host_texts;
mod judge;
mod kinds;
pub mod laws;
mod line_writers;
mod machine;
mod numbers;
mod offer;
mod packet_list;
mod packets;
mod packets_in_place;
mod parts;
mod repository;
mod request;
mod request_items;
mod request_reader;
mod server;
mod static_texts;
mod threads;
mod writer;
mod writers;
mod written;

pub use answer::{GitwireAnswer, What};
pub use event::GitwireEvent;
pub use greetings::GitwireGreeting;
pub use handles::{
    GitwireChecker, GitwireClient, GitwireHost, GitwirePacketReader, GitwireRepository,
    GitwireRequest, GitwireRequestReader, GitwireServer, GitwireWriter,
};
pub use packets_in_place::GitwirePayload;
pub use static_texts::GitwireText;
pub use threads::handles_are_send;
