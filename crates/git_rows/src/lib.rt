//! Worked rows: each definition that the contracts rest on, at concrete bytes that it holds of and at others that it does not hold of. Each
//! row is the contract of a function that does nothing.
#![tactic(auto)]

pub mod bands;
pub mod conversations;
pub mod lines;
pub mod names;
pub mod packets;
pub mod requests;
pub mod runs;
pub mod sessions;
mod sizes;
pub mod texts;
