//! Laws about both sides: a client receives what a server sends as it was meant, and so does a play of both against each other.
#![tactic(auto)]

pub mod answer_laws;
pub mod meeting_laws;
pub mod play_laws;
