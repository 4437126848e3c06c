//! Reasons to refuse a text that is read line by line.

use thiserror::Error;

/// The maximum length of a line of a text in bytes, without its LF. A reference line that fits into a packet has fewer.
pub const LONGEST_LINE: usize = 65_536;

/// Why a text could not be read.
#[derive(Clone, Copy, Debug, PartialEq, Eq, Error)]
pub enum TextFault {
    /// A line is not allowed at its place.
    #[error("bad line {line}")]
    Bad {
        /// The number of the line, counted from 1.
        line: u64,
    },
    /// Memory ran out at a line that needs some. The lines before it and that line begin a text.
    #[error("OutOfMemory")]
    OutOfMemory,
}

/// Why a line is not stored. With the line's number it is a [`TextFault`].
#[derive(Clone, Copy, Debug, PartialEq, Eq)]
pub enum LineFault {
    /// It may not come after the lines before it.
    Refused,
    /// Memory ran out.
    OutOfMemory,
}
