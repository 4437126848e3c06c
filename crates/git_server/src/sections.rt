//! Sections of lines in the answer to `fetch`, gitprotocol-v2(5): a header, lines, and a delimiter.

/// The part of a section that is sent next.
#[derive(Clone, Copy, Debug)]
pub(crate) enum SectionPlace {
    /// The header, if the answer has the section.
    Header,
    /// The lines of the items from this index on.
    Line(usize),
}

/// The result of writing a packet of a section.
#[derive(Clone, Copy, Debug)]
pub(crate) enum SectionPart {
    /// Nothing was written: the answer does not have the section.
    Absent,
    /// The section goes on with the items from this index on.
    Line(usize),
    /// The packet was the delimiter of the section.
    Over,
}
