//! Lines of text on their way to a writer, one part after another.

ghost use Rattle.std.specs.Prelude.{◌≡◌, ◌+◌, ◌≤◌, ◌++◌, [], codes, decimal, length, OnOk};
ghost use Rattle.git_names.specs.ObjectName.{hex_of};
ghost use Rattle.git_pkt.specs.Escape.{escaped_of};
ghost use Rattle.git_pkt.specs.Machine.Sends.{Puts, Sends};
ghost use Rattle.git_client.specs.Machine.LineParts.{line_shown, part_shown};

use git_names::Oid;
use git_pkt::{Recorded, RunFault, escape_into, is_plain, send};
use itoa::Buffer;
use std::io::Write;
use std::marker::Model;

/// The maximum number of bytes that wait for the writer: some tens of lines.
const SPACE: usize = 2048;

/// The maximum length of a reference line without its name: a word, 64 digits, a space and the line's end.
const BESIDES: usize = 4 + 64 + 1 + 1;

/// The number of bytes that are escaped at a time.
const BLOCK: usize = 64;

/// A part of a line: a word and its value.
#[derive(Clone, Copy, Debug)]
pub(crate) enum Part<'a> {
    /// A word alone.
    Word(&'a [u8]),
    /// A word, and bytes to escape.
    Text(&'a [u8], &'a [u8]),
    /// A word, and the name of an object.
    Name(&'a [u8], &'a Oid),
    /// A word, and a number.
    Number(&'a [u8], u64),
}

/// The bytes of lines that wait for the writer, so that many lines take one write.
#[derive(Drop)]
pub(crate) struct Lines {
    bytes: [u8; SPACE],
    count: usize,
}

impl Model for Lines {
    ghost use Rattle.std.specs.Prelude.{◌≤◌, ℕ, List, take};
    ghost use Rattle.git_client.specs.declared.line.TheConstants.{SPACE};

    ghost Value = { List ℕ };

    ghost view = { λ lines. take lines.count lines.bytes };

    ghost invariant = { λ lines. lines.count ≤ SPACE };
}

impl Lines {
    /// No bytes.
    pub(crate) fn new() -> Self
        ensures { result ≡ [] }
    {
        Lines {
            bytes: [0; SPACE],
            count: 0,
        }
    }

    /// Appends a line of these parts to the bytes that wait.
    pub(crate) fn put_line<W: Write>(
        &mut self,
        out: &mut Recorded<W>,
        parts: &[Part<'_>],
    ) -> Result<(), RunFault>
        ensures { Puts W.contents out.old self.old (line_shown parts.now) result out.new self.new }
    {
        for part in parts {
            self.put_part(out, *part)?;
        }
        self.put(out, b"\n")
    }

    /// Appends the line of a reference that is neither symbolic nor a tag, as most are: in one step, if it fits and no byte of the name
    /// needs escaping.
    pub(crate) fn put_reference<W: Write>(
        &mut self,
        out: &mut Recorded<W>,
        id: &Oid,
        name: &[u8],
    ) -> Result<(), RunFault>
        ensures { Puts W.contents out.old self.old (codes "ref " ++ hex_of id.now ++ codes " " ++ escaped_of name.now ++ codes "\n") result out.new self.new }
    {
        if name.len() + BESIDES <= SPACE - self.count && is_plain(name) {
            self.append(b"ref ");
            self.append_name(id);
            self.append(b" ");
            self.append(name);
            self.append(b"\n");
            return Ok(());
        }
        self.put_line(out, &[Part::Name(b"ref ", id), Part::Text(b" ", name)])
    }

    /// Sends all bytes that wait.
    pub(crate) fn drain<W: Write>(&mut self, out: &mut Recorded<W>) -> Result<(), RunFault>
        ensures sends { Sends W.contents out.old self.old result out.new }
        ensures empty { OnOk result (self.new ≡ []) }
    {
        send(out, &self.bytes[..self.count])?;
        self.count = 0;
        Ok(())
    }

    /// Appends bytes to those that wait, or sends both if they do not fit.
    fn put<W: Write>(&mut self, out: &mut Recorded<W>, bytes: &[u8]) -> Result<(), RunFault>
        ensures { Puts W.contents out.old self.old bytes.now result out.new self.new }
    {
        if bytes.len() <= SPACE - self.count {
            self.append(bytes);
            return Ok(());
        }
        self.drain(out)?;
        send(out, bytes)
    }

    /// Appends bytes to those that wait. They must fit.
    fn append(&mut self, bytes: &[u8])
        requires { length self.old + length bytes.now ≤ SPACE }
        ensures { self.new ≡ self.old ++ bytes.now }
    {
        let end = self.count + bytes.len();
        self.bytes[self.count..end].copy_from_slice(bytes);
        self.count = end;
    }

    /// Appends the digits of an object name to the bytes that wait. There must be space for 64. The bytes after the last digit mean nothing.
    fn append_name(&mut self, id: &Oid)
        requires { length self.old + 64 ≤ SPACE }
        ensures name { self.new ≡ self.old ++ hex_of id.now }
        ensures within { length self.new ≤ length self.old + 64 }
    {
        self.bytes[self.count..self.count + 64].copy_from_slice(&id.hex());
        self.count += id.format().digits();
    }

    fn put_part<W: Write>(&mut self, out: &mut Recorded<W>, part: Part<'_>) -> Result<(), RunFault>
        ensures { Puts W.contents out.old self.old (part_shown part.entry) result out.new self.new }
    {
        match part {
            Part::Word(word) => self.put(out, word),
            Part::Text(word, text) => {
                self.put(out, word)?;
                self.put_text(out, text)
            }
            Part::Name(word, id) => {
                self.put(out, word)?;
                self.put_name(out, id)
            }
            Part::Number(word, number) => {
                self.put(out, word)?;
                self.put_number(out, number)
            }
        }
    }

    fn put_name<W: Write>(&mut self, out: &mut Recorded<W>, id: &Oid) -> Result<(), RunFault>
        ensures { Puts W.contents out.old self.old (hex_of id.now) result out.new self.new }
    {
        self.put(out, &id.hex()[..id.format().digits()])
    }

    fn put_number<W: Write>(&mut self, out: &mut Recorded<W>, number: u64) -> Result<(), RunFault>
        ensures { Puts W.contents out.old self.old (decimal number) result out.new self.new }
    {
        self.put(out, Buffer::new().format(number).as_bytes())
    }

    /// Appends the escapes of bytes to the bytes that wait: in one step if no byte needs escaping, otherwise a block at a time.
    fn put_text<W: Write>(&mut self, out: &mut Recorded<W>, bytes: &[u8]) -> Result<(), RunFault>
        ensures { Puts W.contents out.old self.old (escaped_of bytes.now) result out.new self.new }
    {
        if is_plain(bytes) {
            return self.put(out, bytes);
        }
        let mut done = 0;
        while done < bytes.len() {
            let count = BLOCK.min(bytes.len() - done);
            self.put_block(out, &bytes[done..done + count])?;
            done += count;
        }
        Ok(())
    }

    fn put_block<W: Write>(&mut self, out: &mut Recorded<W>, block: &[u8]) -> Result<(), RunFault>
        requires { length block.now ≤ BLOCK }
        ensures { Puts W.contents out.old self.old (escaped_of block.now) result out.new self.new }
    {
        let mut shown = [0; 256];
        let end = escape_into(block, &mut shown, 0);
        self.put(out, &shown[..end])
    }
}
