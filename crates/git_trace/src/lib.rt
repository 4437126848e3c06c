//! The text that GIT_TRACE_PACKET writes, read line by line, and shown.
#![tactic(auto)]

mod escapes;
mod labels;
pub mod laws;
mod shown_lines;
mod trace_lines;
mod trace_texts;

pub use escapes::unescape;
pub use shown_lines::{Look, show_trace_line};
pub use trace_lines::{Direction, TraceLine, TracePacket, read_trace_line};
pub use trace_texts::{LONGEST_TRACE_LINE, TraceFault, TraceReader};
