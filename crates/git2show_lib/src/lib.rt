//! What the program `git2show` does, over any reader and writer.
#![tactic(auto)]

pub mod check_laws;
mod checker;
mod checking;
mod json_lines;
mod judged_requests;
mod judging;
mod lines;
mod noting;
mod other_answers;
mod other_lines;
mod others;
mod playing;
mod pretty;
mod renderers;
mod reports;
pub mod script_laws;
mod script_lines;
mod scripts;
mod shower;
mod showing;
mod sieve;
pub mod sieve_laws;
pub mod view_laws;
mod views;

pub use checker::{Checker, Needed, Stream};
pub use checking::{CheckFault, check};
pub use playing::play;
pub use pretty::Look;
pub use reports::{ProgramFault, report};
pub use scripts::read_script;
pub use showing::{show, show_view};
pub use views::{Form, RequestState, Tally, View, show_packet, summarize};
