//! What C holds may go from one thread to another.

use crate::handles::{
    GitwireChecker, GitwireClient, GitwireHost, GitwirePacketReader, GitwireRepository,
    GitwireRequest, GitwireRequestReader, GitwireServer, GitwireWriter,
};
use crate::machine::Machine;

fn is_sent<T: Send>() {}

/// Each handle may go to another thread, and so may what it has.
pub fn handles_are_send() {
    is_sent::<Machine>();
    is_sent::<GitwirePacketReader>();
    is_sent::<GitwireRequestReader>();
    is_sent::<GitwireRequest>();
    is_sent::<GitwireRepository>();
    is_sent::<GitwireServer>();
    is_sent::<GitwireClient>();
    is_sent::<GitwireWriter>();
    is_sent::<GitwireHost>();
    is_sent::<GitwireChecker>();
}
