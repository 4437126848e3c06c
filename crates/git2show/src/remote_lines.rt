//! What a server reports of its progress, as lines that may be shown on a terminal.

use std::io::{self, Write};

/// What each line begins with.
const PREFIX: &[u8; 8] = b"remote: ";

/// A writer that puts `remote: ` before each line and passes bytes on, but shows each control byte other than a line end (line feed or
/// carriage return) as a question mark: what a peer sends may not control the terminal.
#[derive(Debug, Drop)]
pub(crate) struct RemoteLines<W> {
    inner: W,
    // The last byte that came; before the first byte a line end, after which a line begins.
    last: u8,
}

impl<W: Write> RemoteLines<W> {
    /// A writer before its first line.
    pub(crate) fn new(inner: W) -> RemoteLines<W> {
        RemoteLines { inner, last: b'\n' }
    }

    /// Ends the last line, if no line end has come after it.
    pub(crate) fn end(&mut self) -> io::Result<()> {
        if !is_line_end(self.last) {
            self.last = b'\n';
            self.inner.write_all(b"\n")?;
        }
        self.inner.flush()
    }
}

impl<W: Write> Write for RemoteLines<W> {
    fn write(&mut self, buf: &[u8]) -> io::Result<usize> {
        for byte in buf {
            if is_line_end(self.last) {
                self.inner.write_all(PREFIX)?;
            }
            self.inner.write_all(&[shown_as(self.last, *byte)])?;
            self.last = *byte;
        }
        Ok(buf.len())
    }

    fn flush(&mut self) -> io::Result<()> {
        self.inner.flush()
    }
}

/// Whether a line begins after this byte.
fn is_line_end(byte: u8) -> bool {
    byte == b'\n' || byte == b'\r'
}

/// The byte that is shown for this one, which comes after `last`. Control bytes are those below a space, DEL, and in UTF-8 those from 0x80
/// to 0x9f after 0xc2.
fn shown_as(last: u8, byte: u8) -> u8 {
    let is_control = byte < b' ' || byte == 0x7f || last == 0xc2 && byte >= 0x80 && byte <= 0x9f;
    if is_control && !is_line_end(byte) {
        return b'?';
    }
    byte
}
